//! The interface between the maps that threads share and the map under their lock.
//!
//! Tested in `share_maps` and `test_share_guards`.
#![tactic(auto)]

pub mod ascending;
pub mod change;
pub mod event;
pub mod lent;
pub mod ordered;
pub mod owner_ends;
pub mod snapshots;
