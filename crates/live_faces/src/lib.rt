//! The face of the map that threads read without a lock, with typed keys and values.
//!
//! Tested in `test_live_faces`.
#![tactic(auto)]

pub mod live;
pub mod typed_congee;
