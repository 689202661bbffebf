//! The protocol of optimistic lock coupling, as a machine that makes one event of one call at a time.
//!
//! The items that users need, under the names of the Rust crate's module. They are defined in `olc_words`,
//! `spec_olc`, `olc_machine` and `olc_replay`.
//!
//! Tested in `test_olc`.
#![tactic(auto)]

/// The machine, whole schedules on it, and the types that both take and return.
pub mod olc;

pub use olc_words::{epoch, lock};
