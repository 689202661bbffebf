//! The program `congee` over any streams: what its words ask for, the run or the schedule that it serves, its exit status, and
//! how far a long run is.
//!
//! Tested in `test_serve`.
#![tactic(auto)]

pub mod pipes;
pub mod progress;
pub mod serve;
pub mod typed;
pub mod words;
