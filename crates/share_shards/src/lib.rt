//! A map that threads share, in shards: one table with a word and a slot for each shard, under one rule, with one history
//! of the whole map. A hold is of one shard, or of several at one moment.
//!
//! Tested in `test_share_shards`.
#![tactic(auto)]

pub mod lock;
pub mod rule;
pub mod view;
pub mod work;
