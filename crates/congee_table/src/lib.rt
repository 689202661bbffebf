//! An ordered table of rows by id, with a second index by group: what a user of the map builds on its public contract
//! alone.
//!
//! Tested in `test_owned/table`.
#![tactic(auto)]

pub mod calls;
mod numbers;
pub mod table;
