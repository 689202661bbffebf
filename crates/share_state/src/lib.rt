//! The state under a shared map's lock: the map, and the ledger in which the number of its pairs is booked.
//!
//! Tested in `share_maps`.
#![tactic(auto)]

mod ascending;
mod locked;
mod ordered;
mod owner_ends;
pub mod purse;
pub mod share;
pub mod state;
