//! Calls of one key that write where the key has the value that they found, in a map that threads read without a lock.
//!
//! A call reads the key's value, by a reader's check. It may end there, as a removal of an absent key does. Else it locks the
//! leaf, and writes if the value is still that one. Otherwise it is tried again.
//!
//! Calls that store what a closure returns, and insertions where a key is absent, are in `computes`.
//!
//! All pairs of a leaf in a range of keys are removed at one moment (`takings`): the leaf is locked once for them.
//!
//! A removal may leave a leaf without keys. The leaf is taken out of the node above it then, and that one in its turn (`tidy`,
//! `detach`). The first node that is left with few children is replaced by a smaller one (`shrink_node`). Nobody uses a node any more
//! that was taken out or replaced, so it may be used again.
//!
//! Tested in `test_live_calls`.
#![tactic(auto)]

pub mod absent;
pub mod calls;
pub mod computes;
pub mod detach;
pub mod law;
pub mod leaf;
pub mod lookup;
pub mod shrink_node;
pub mod takings;
pub mod tidy;
