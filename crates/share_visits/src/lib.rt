//! A map of numbers in one shard or in 64, each a map of its own: what is done at all of them in one hold, as if they were
//! one map.
//!
//! Tested in `tools/c-library`.
#![tactic(auto)]

pub mod near;
mod next;
mod one;
pub mod part;
pub mod ranges;
pub mod visits;
pub mod whole;
