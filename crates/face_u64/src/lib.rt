//! `U64Congee`, the face with numbers as keys, over `Congee`.
//!
//! Tested in `test_owned/faces`.
#![tactic(auto)]

pub mod u64_congee;
