//! The four forms of a node.
//!
//! Tested in `congee_nodes`.
#![tactic(auto)]

pub mod head_16;
pub mod head_4;
pub mod node_16;
pub mod node_256;
pub mod node_4;
pub mod node_48;
pub mod smaller;
