//! A tree as one value, and the calls that change pairs of it.
//!
//! A pair that is alone in its leaf is in its parent. Contracts speak of the table in which it has a leaf of its own.
//!
//! Tested in `test_owned` and `tools/dev/try-commands`.
#![tactic(auto)]

pub mod beside;
pub mod computation;
pub mod ends;
pub mod insertion;
pub mod kept_run;
pub mod leaf_run;
pub mod receiver;
pub mod removal;
pub mod tree;
