//! A table of nodes in which a pair that is alone in its leaf is in the place of that leaf, in its parent, and takes no
//! slot.
//!
//! Contracts see the table of nodes that there would be otherwise, in which each leaf has a place of its own. So all
//! that is known of trees in such tables holds of these.
//!
//! A leaf's second pair takes no memory. So a slot is kept free for each pair that is in its parent.
//!
//! Tested in `test_owned` and `tools/dev/try-commands`.
#![tactic(auto)]

pub mod bytes;
pub mod compact;
pub mod descent;
pub mod leaves;
pub mod link;
pub mod linked_node;
pub mod links;
pub mod moves;
pub mod pairs;
pub mod place;
pub mod reading;
mod slots;
pub mod splits;
