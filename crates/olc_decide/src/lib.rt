//! What a call finds once its Check has passed: it goes down, is decided, has to write, or asks its closure.
//! `advance` makes the next event of a call that writes no node; the tails of calls that write are in
//! `olc_write`.
//!
//! Tested in `tools/dev/try-schedules`.
#![tactic(auto)]

pub mod advance;
mod answering;
mod checking;
mod finding;
mod presence;
