//! The tree under the faces: an ordered map from keys of eight bytes to payloads.
//!
//! Tested in `test_owned` and `tools/dev/try-commands`.
#![tactic(auto)]

pub mod bulk;
pub mod by_number;
pub mod into_pairs;
pub mod iter;
mod near;
mod ranges;
pub mod sorted_pairs;
pub mod tree;

pub use tree_path::reads;
pub use tree_walk::range_scan;
