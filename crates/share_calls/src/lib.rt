//! The calls of a map from `u64` to `u64` that threads share where none of them may wait: each is one hold of a lock, or of
//! the locks of all shards, which a bounded number of tries takes, or isn't made.
//!
//! Tested in `tools/c-library`.
#![tactic(auto)]

pub mod computed;
pub mod ends;
pub mod guard;
pub mod map;
pub mod note;
pub mod points;
pub mod ranges;
pub mod whole;
