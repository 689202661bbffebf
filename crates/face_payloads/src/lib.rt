//! `CongeeArc`, the face with owners as values.
//!
//! Tested in `test_owned/shared_values` and `test_owned/leaks`.
#![tactic(auto)]

pub mod congee_arc;
