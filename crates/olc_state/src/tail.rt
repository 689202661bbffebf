//! What a call does once its Check has found that it has to write: the tails of the protocol, event
//! by event.
//!
//! | The case at the node | Events |
//! |---|---|
//! | a payload is put into a leaf with room or in another's place, or is one of several that is removed | `Upgrade`, `Write`, `Unlock` |
//! | a new leaf below an inner node with room | `Upgrade`, `MakeLeaf`, `Link`, `Unlock` |
//! | a full leaf | `UpgradeAbove`, `UpgradeBelow`, `Grow`, `Replace`, `Obsolete`, `Unlock` |
//! | a full inner node | `UpgradeAbove`, `UpgradeBelow`, `MakeLeafBelow`, `Grow`, `Replace`, `Obsolete`, `Unlock` |
//! | the only payload of a leaf is removed | `UpgradeAbove`, `UpgradeBelow`, `Detach`, `Obsolete`, `Unlock` |
//! | a prefix that leaves the key | `UpgradeAbove`, `UpgradeBelow`, `MakeLeafBelow`, `MakeMiddle`, `Insert`, `UnlockBelow`, `Unlock` |
//!
//! After the last `Unlock` the call ends, or cleans up what its Write has left; where the second upgrade has failed, it
//! goes back to the root.
//!
//! Tested in `test_olc` and `tools/dev/try-schedules`.

use crate::cleanup::Cleanup;
use crate::stage::{Path, Spot};

/// What is changed at the call's node alone.
#[derive(Clone, Copy)]
pub enum Small {
    /// The payload under the key's byte of a leaf.
    Entry,
    /// A leaf is linked under the key's byte of an inner node.
    Leaf,
}

/// What is changed at the parent of the call's node.
#[derive(Clone, Copy)]
pub enum Large {
    /// A larger copy with one payload more takes the leaf's place.
    GrowLeaf,
    /// A larger copy with one leaf more takes the inner node's place.
    GrowInner,
    /// A node that has the call's node and a new leaf is put between.
    Split,
    /// The leaf, whose only payload is removed, is taken out of the tree.
    Detach,
}

/// A node and its parent, each with the word that was seen there.
#[derive(Clone, Copy)]
pub struct NodePair {
    pub above: Spot,
    pub here: Spot,
}

/// What was found where a call asks its closure, and what its answer is for.
#[derive(Clone, Copy)]
pub enum Case {
    /// The key has a payload; whether it is the only one of its leaf.
    Present(NodePair, bool),
    /// The key is absent, and the node has room.
    Small(Path, Small),
    /// The key is absent, and the parent is to be changed.
    Large(NodePair, Large),
}

/// The next event of a tail. Where the node of a `Spot` is held, the word is the one before the upgrade.
#[derive(Clone, Copy)]
pub enum Tail {
    /// Locks the node.
    Upgrade(Path, Small),
    /// Puts, changes or removes the payload under the key's byte of the held leaf.
    Write(Spot),
    /// Makes a leaf for the held inner node.
    MakeLeaf(Spot),
    /// Links that leaf.
    Link(Spot, usize),
    /// Unlocks the one node that is held; the cleanup that follows.
    Unlock(Spot, Option<Cleanup>),
    /// Locks the parent.
    UpgradeAbove(NodePair, Large),
    /// Locks the node, with the parent held.
    UpgradeBelow(NodePair, Large),
    /// Makes a leaf, with both held.
    MakeLeafBelow(NodePair, Large),
    /// Makes the larger copy; the new leaf, where the node is an inner one.
    Grow(NodePair, Option<usize>),
    /// Makes the node that is put between, for the new leaf.
    MakeMiddle(NodePair, usize),
    /// Puts the copy in the node's place; the copy, and the new leaf.
    Replace(NodePair, usize, Option<usize>),
    /// Puts the middle node between; the middle node, and the new leaf.
    Insert(NodePair, usize, usize),
    /// Takes the leaf with its only payload out of the tree.
    Detach(NodePair),
    /// Marks the node obsolete that is no longer in the tree; the cleanup that follows.
    Obsolete(NodePair, Option<Cleanup>),
    /// Unlocks the node, with the parent held.
    UnlockBelow(NodePair),
}
