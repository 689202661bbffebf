//! Readers of many keys of a map that threads read without a lock.
//!
//! A reader goes from leaf to leaf, upwards or downwards. At the check of a node's version word it learns what the map has then at
//! all keys that begin like the node. So a leaf gives its pairs, and a node above shows which keys aren't there. A leaf is read in
//! the visit of the node above. A reader keeps its place at the inner node above the leaf, and at the one above that. It begins at
//! the root again where the next key is below neither.
//!
//! - `page`: pages and their steps. `bound`: how far they go. `seek`: where a step begins
//! - `next`: the path on, in both directions. `beside`: a leaf on it, which is read in the visit of the node above
//! - `scans`: pages of a range, and the pair from a key on
//! - `descents`: pages of a range downwards
//! - `floors`: the pair up to a key
//! - `counts`: how many pairs there are, and whether there is any. No count is kept, since all writers would write it
//!
//! Tested in `test_live_faces`.
#![tactic(auto)]

pub mod after;
pub mod beside;
pub mod bound;
pub mod counts;
pub mod descents;
pub mod fill;
pub mod floors;
pub mod keys;
pub mod laws;
pub mod leaf;
pub mod next;
pub mod on_check;
pub mod page;
pub mod position;
pub mod scans;
pub mod seek;
