//! A node of a tree in one table whose inner form for forty-eight has its children in a row that grows in steps.
//!
//! Contracts see what they see of a `TreeNode`, which has room for all forty-eight at once. Here an insertion may need a
//! larger row, which is taken from the machine before, as a *spare row*. So no insertion fails.
//!
//! Tested in `test_owned` and `tools/dev/try-commands`.
#![tactic(auto)]

mod inner_row;
mod other_form;
mod row_head;
pub mod row_node;
mod search;
pub mod spare;
