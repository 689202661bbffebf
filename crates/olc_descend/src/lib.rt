//! The events of a point call that look at nodes on the way down: Take and Read. What a Check finds is in
//! `olc_decide`, what a range does in `olc_scan`, and what a cleanup does in `olc_seek`.
//!
//! Each is a function over the current nodes. The call that it returns, and what it reports, are those of
//! the event that `spec_olc` defines, in any state that shows these nodes.
//!
//! Tested in `test_olc` and `tools/dev/try-schedules`.
#![tactic(auto)]

pub mod looking;
pub mod taking;
