//! A map that threads read without a lock, and how it grows.
//!
//! A writer locks single nodes. A call that meets too many writers gives up (`Busy`).
//!
//! A full node is replaced by a larger one, and its guard keeps its name (`spare`). A new node of that form is then that one,
//! locked again: it is written, the node above leads to it, and only then it is free.
//!
//! Tested in `test_live_calls`.
#![tactic(auto)]

pub mod free_nodes;
pub mod grow_node;
pub mod held;
pub mod insert;
pub mod link;
pub mod make_root;
pub mod map;
pub mod refill;
pub mod replace;
pub mod room;
pub mod source;
pub mod split;
pub mod two;
pub mod write;
