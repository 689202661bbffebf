//! Calls of the faces and their replies as data, and whole runs of them: each is a legal run of one map.
//!
//! Tested in `test_owned/faces`.
#![tactic(auto)]

pub mod calls;
pub mod laws;
pub mod payload_calls;
pub mod u64_calls;
