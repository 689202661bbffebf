//! `Congee`, the face with typed keys and values.
//!
//! Tested in `test_owned/faces`.
#![tactic(auto)]

pub mod many;
pub mod typed_congee;
