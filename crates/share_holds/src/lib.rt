//! The holds of a shared map's lock, and the loops of them that make a call, by the lock and a seat at it. What the seat
//! knows after a call is what its guard has seen.
//!
//! Tested in `share_maps` and `test_share_guards`.
#![tactic(auto)]

pub mod asks;
pub mod gate;
pub mod holds;
pub mod loops;
pub mod scans;
pub mod snapshots;
pub mod tried;
