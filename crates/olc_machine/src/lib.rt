//! A machine of the tree's protocol: it makes one event of one call at a time, and can be read between events.
//!
//! Tested in `test_olc` and `tools/dev/try-schedules`.
#![tactic(auto)]

mod ahead;
mod counting;
pub mod inner;
mod listing;
pub mod machine;
