//! The map from keys to payloads of any type that threads read without a lock, and `CongeeArc`, that map of owners.
//!
//! The live map has tickets as its values, and the payloads lie in slots.
//!
//! Tested in `test_live_payloads`.
#![tactic(auto)]

pub mod guard;
pub mod live;
pub mod payload_congee;
