//! The face of the map that threads share in shards, with typed keys and values.
//!
//! Tested in `test_share_shards`.
#![tactic(auto)]

pub mod sharded;
pub mod typed_congee;
