//! The events of a call that write: its tail, from the first upgrade to the last unlock.
//!
//! The table in `olc_state::tail` lists which events follow one another in each case.
//!
//! Tested in `tools/dev/try-schedules` and `test_olc/refusals`.
#![tactic(auto)]

mod detaching;
pub mod freeing;
pub mod leaving;
pub mod linking;
pub mod locking;
pub mod making;
mod replacing;
mod storing;
pub mod writing;
