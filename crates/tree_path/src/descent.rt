//! How the path of a key ends in a table: the words by which contracts and laws speak of it.
//!
//! The way itself is that of `tree_links::descent`.

/// How the descent ends at a node.
#[derive(Drop)]
pub enum Stop {
    /// The node's prefix differs from the key at this place.
    Differs(usize),
    /// The node is above the leaves, and has no child under the key's byte.
    Absent(u8),
    /// The node is the leaf for the key. What it has under this byte isn't looked up yet.
    Leaf(u8),
}

/// The node where the descent ends.
#[derive(Drop)]
pub struct PathEnd {
    pub slot: usize,
    /// The slot of the node above it, if there is one.
    pub parent: usize,
    /// How many nodes were read above it.
    pub above: usize,
    pub stop: Stop,
}
