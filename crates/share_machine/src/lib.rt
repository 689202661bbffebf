//! The protocol's machine as the map under a lock: each event of a call is one event of the machine.
//!
//! Tested in `share_maps`.
#![tactic(auto)]

mod ascending;
mod calls;
pub mod events;
pub mod numbers;
pub mod owners;
