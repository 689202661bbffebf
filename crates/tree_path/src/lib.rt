//! How the path of a key goes down from the root, the count of the nodes that it reads, and the supply that nodes are
//! charged to.
//!
//! Tested in `test_owned` and `tools/dev/try-commands`.
#![tactic(auto)]

pub mod descent;
pub mod reads;
pub mod supply;
