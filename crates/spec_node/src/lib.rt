//! What a node of a tree in one table is: its form, its prefix, and its children by their bytes (`specs/TableNode.antt`),
//! and what a key meets there. Keys and prefixes are lists of bytes (`specs/Key.antt`).
//!
//! Tested in `congee_nodes`.
#![tactic(auto)]

pub mod child;
