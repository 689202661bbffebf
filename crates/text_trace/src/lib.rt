//! The text of a replayed schedule: what comes of its events, or a line for each event.
//!
//! Tested in `test_serve` and `examples/schedules/`.
#![tactic(auto)]

mod content;
pub mod detail;
mod event_line;
mod outcome;
pub mod printing;
