//! `congee schedule` and `congee trace`: what a line parses as, the events of it, and the run over any reader and writer:
//! the lines are read, replayed, and the trace of the replay is written, in more or less detail.
//!
//! Tested in `test_serve` and `tools/dev/try-schedules`.
#![tactic(auto)]

pub mod entry;
pub mod events;
pub mod laws;
mod reading;
pub mod schedule;
