//! A call in flight: what it does next, and what it remembers.
//!
//! Tested in `test_olc` and `tools/dev/try-schedules`.

use crate::cleanup::{Cleanup, Seek, Tidy};
use crate::scan::{RangeProgress, Scan};
use crate::tail::{Case, Tail};
use node_table::tree_node::TreeNode;
use olc_words::lock::Word64;
use spec_olc::types::{Asking, Op, Progress, Seen};

/// Where a node is in its life.
#[derive(Clone, Copy)]
pub enum NodeLife {
    /// Made by a call and not yet linked.
    Private,
    /// In the tree.
    Linked,
    /// Taken out of the tree, and not yet marked obsolete.
    Detached,
    /// Obsolete.
    Retired,
}

/// What a slot holds.
#[derive(Drop)]
pub struct Stored<P> {
    pub word: Word64,
    pub place: NodeLife,
    pub node: TreeNode<P>,
}

/// A node that a call remembers, with the word that it saw there.
#[derive(Clone, Copy)]
pub struct Spot {
    pub slot: usize,
    pub word: u64,
}

/// The path down so far: the current node, and its parent unless it is the root.
#[derive(Clone, Copy)]
pub struct Path {
    pub above: Option<Spot>,
    pub here: Spot,
}

/// What a call does next, with what it remembers for it.
#[derive(Clone, Copy)]
pub enum Stage {
    TakeRoot,
    Read(Path),
    Check(Path),
    /// The slot that was read.
    TakeBelow(Path, usize),
    /// The node that was taken, and whether its prefix begins the key.
    CheckAbove(Path, Spot, bool),
    /// Its closure is to answer, for this case.
    Answer(Case),
    /// The closure answered the current value: nothing changes, if the node's word is still the remembered one.
    Confirm(Spot),
    /// Its Check or its closure's answer has decided that it has to write.
    Tail(Tail),
    /// A range, which has stages of its own: how far it is, and what it does next.
    Scan(RangeProgress, Scan),
    /// A call with its reply that cleans up: for which node, and what it does next on its way down.
    Seek(Cleanup, Seek),
    /// A call with its reply that cleans up: for which node, and what it does next at that node.
    Tidy(Cleanup, Tidy),
    Finish,
}

/// A call, and what has come of it since it last went back to the root.
#[derive(Drop)]
pub struct Task<P> {
    /// Its kind and keys.
    pub outline: Op<()>,
    /// The call with its payloads, until it has its reply or is refused.
    pub op: Option<Op<P>>,
    pub last: Option<Seen<P>>,
    /// One more share of a payload that was seen: for the reply, or to keep the value that the closure is called with.
    pub spare: Option<P>,
    /// A third one, to call the closure with.
    pub question: Option<P>,
    /// One more share of what is stored, for a reply that returns it.
    pub returns: Option<P>,
    pub asking: Asking<P>,
    pub progress: Progress,
}

/// A call in flight.
#[derive(Drop)]
pub struct Record<P> {
    pub stage: Stage,
    pub task: Task<P>,
}
