//! The calls on the whole of a map from `u64` to `u64` in shards, each of them a hold of the locks of all shards: those of
//! one moment.
//!
//! Tested in `tools/c-library`.
#![tactic(auto)]

pub mod holds;
pub mod ranges;
pub mod state;
