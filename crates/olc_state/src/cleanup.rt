//! What a removing call does after its reply: it cleans up what its Write has left, event by event.
//!
//! If its Write has left a node with few children, the call goes down once more with its key, to the node whose prefix
//! has the length that it has kept, and does there what is due:
//!
//! | The node has | Events after its Check |
//! |---|---|
//! | no children | `UpgradeAbove`, `UpgradeBelow`, `TakeAway` |
//! | few children for its form | `UpgradeAbove`, `UpgradeBelow`, `MakeSmaller`, `PutSmaller` |
//! | more children | `UpgradeAbove`, `UpgradeBelow`, `UnlockBelow` |
//!
//! The last events are those of a tail: `Obsolete` and `Unlock`. Whatever fails on the way or is refused ends the
//! cleanup, and the call ends with the reply that it has. If a first cleanup has taken a node away and left the parent
//! with few children, a second one follows for the parent.
//!
//! Tested in `test_olc` and `tools/dev/try-schedules`.

use crate::stage::{Path, Spot};
use crate::tail::NodePair;

/// For which node a call cleans up.
#[derive(Clone, Copy)]
pub struct Cleanup {
    /// The length of the node's prefix, in bytes.
    pub length: usize,
    /// Whether another cleanup, for the parent, may follow this one.
    pub again: bool,
}

/// The next event on the way down to the node.
#[derive(Clone, Copy)]
pub enum Seek {
    TakeRoot,
    Read(Path),
    Check(Path),
    /// The slot that was read.
    TakeBelow(Path, usize),
    /// The node that was taken, and whether it leads on: its prefix begins the key and isn't longer than the one that
    /// is looked for.
    CheckAbove(Path, Spot, bool),
}

/// The next event at the node and its parent. Where the node of a `Spot` is held, the word is the one before the
/// upgrade.
#[derive(Clone, Copy)]
pub enum Tidy {
    /// Locks the parent.
    UpgradeAbove(NodePair),
    /// Locks the node, with the parent held.
    UpgradeBelow(NodePair),
    /// Takes the empty node out of the tree.
    TakeAway(NodePair),
    /// Makes a copy of the next smaller form.
    MakeSmaller(NodePair),
    /// Puts the copy in the node's place.
    PutSmaller(NodePair, usize),
    /// Unlocks the node, which has too many children for a smaller form, with the parent held.
    UnlockBelow(NodePair),
}
