//! The path of a key from the root down.
//!
//! Tested in `test_owned` and `tools/dev/try-commands`.

ghost use Rattle.std.specs.Prelude.{◌≡◌, ◌+◌, ◌≤◌, drop, length, map, option_copied, IsSome, IsTrue, Some, false};
ghost use Rattle.std.specs.Int.{w64, to_be_bytes};
ghost use Rattle.spec_node.specs.Key.{Begins, IsFirstDifference};
ghost use Rattle.tree_path.specs.Path.{on_path};
ghost use Rattle.tree_path.specs.inner.Descent.{IsTrail, SeeksTo};
ghost use Rattle.tree_path.specs.inner.Root.{HasTree, tree_nodes, tree_payload};
ghost use Rattle.tree_links.specs.SeenTable.{links_of, link_at, name_of, seen_table};
ghost use Rattle.tree_links.specs.Seeks.{seen_end, KnowsPair, pairs_met};
ghost use Rattle.tree_links.specs.inner.Steps.{ComparesPair, Meets};

use crate::link::{LinkMeeting, LinkRef};
use crate::linked_node::LinkedNode;
use crate::links::Links;
use slab::Slab;
use std::sync::ledger::Ledger;
use tree_path::reads::ReadCount;

// Whether these are the key's last seven bytes.
#[inline(always)]
fn is_rest(key: &[u8; 8], rest: &[u8; 7]) -> bool
    ensures same { IsTrue result → rest.now ≡ drop 1 key.now }
    ensures other { result ≡ false → rest.now ≡ drop 1 key.now → ⊥ }
    ensures seven { length rest.now ≡ 7 }
{
    key[1..] == rest[..]
}

// The first place at which the bytes and the key differ.
fn first_difference(bytes: &[u8], key: &[u8]) -> usize
    requires short { length bytes.now ≤ length key.now }
    requires differ { Begins bytes.now key.now → ⊥ }
    ensures { IsFirstDifference bytes.now key.now result }
{
    for i in 0..bytes.len() {
        if bytes[i] != key[i] {
            return i;
        }
    }
    unreachable!()
}

/// How the descent ends at a node, or at a pair in its place under the key's byte.
#[derive(Drop)]
pub enum LinkStop {
    /// The node's prefix differs from the key at this place.
    Differs(usize),
    /// The node is above the leaves, and has nothing under the key's byte.
    Absent(u8),
    /// The node is the leaf for the key. What it has under this byte isn't looked up yet.
    Leaf(u8),
    /// Under this byte of the node there is the key's pair.
    Pair(u8),
    /// Under this byte of the node there is a pair whose key differs in its last byte alone. So its leaf is the one for
    /// the key.
    PairBeside(u8),
    /// Under this byte of the node there is a pair. The prefix of its leaf differs from the key at this place.
    PairDiffers(u8, usize),
}

/// The node where the descent ends.
#[derive(Drop)]
pub struct LinkEnd {
    pub slot: usize,
    /// The slot of the node above it, if there is one.
    pub parent: usize,
    /// How many nodes were read above it.
    pub above: usize,
    pub stop: LinkStop,
}

/// The outcome of a look at a node on a key's path.
#[derive(Drop)]
enum LinkStep {
    /// The slot of the node below.
    Down(usize),
    /// The end of the descent.
    Here(LinkStop),
}

// How the descent ends at a pair under the key's byte.
#[inline(always)]
fn compare_pair(key: &[u8; 8], byte: u8, rest: &[u8; 7]) -> LinkStop
    ensures compares { ComparesPair key.now byte rest.now result }
    ensures seven { length rest.now ≡ 7 }
{
    if is_rest(key, rest) {
        return LinkStop::Pair(byte);
    }
    match first_difference(rest, &key[1..]) {
        6 => LinkStop::PairBeside(byte),
        at => LinkStop::PairDiffers(byte, at + 1),
    }
}

// The step at this node of the key, and of its bytes as a word.
#[inline(always)]
fn look<P: Drop, N: LinkedNode<P>>(node: &N, key: &[u8; 8], word: u64) -> LinkStep
    requires { to_be_bytes w64 word ≡ key.now }
    ensures { Meets key.now (N.node node.now) result }
{
    match node.meet(key, word) {
        LinkMeeting::Slot(below) => LinkStep::Down(below),
        LinkMeeting::Leaf => LinkStep::Here(LinkStop::Leaf(key[7])),
        LinkMeeting::Nothing => {
            LinkStep::Here(LinkStop::Absent(key[node.base().prefix().len()]))
        }
        LinkMeeting::Other => {
            let at = first_difference(node.base().prefix(), key);
            LinkStep::Here(LinkStop::Differs(at))
        }
        LinkMeeting::Pair(rest, _) => {
            let byte = key[node.base().prefix().len()];
            LinkStep::Here(compare_pair(key, byte, rest))
        }
    }
}

// The node in a slot, which counts as read.
#[inline(always)]
fn visit<'a, P: Drop, N: LinkedNode<P>, L: Ledger>(
    nodes: &'a Slab<N>,
    slot: usize,
    reads: &mut ReadCount<L>,
) -> &'a N
    requires { IsSome (link_at (links_of N.node nodes.now.slots) slot) }
    ensures node { link_at (links_of N.node nodes.now.slots) slot ≡ Some (N.node result.now) }
    ensures reads { reads.new ≡ reads.old + 1 }
{
    reads.tick();
    let Some(node) = nodes.get(slot) else {
        unreachable!()
    };
    node
}

// Counts the leaf of a pair, which was met in its parent.
#[inline(always)]
fn count_pair<L: Ledger>(stop: &LinkStop, reads: &mut ReadCount<L>)
    ensures { reads.new ≡ reads.old + pairs_met stop.now }
{
    match stop {
        LinkStop::Pair(_) | LinkStop::PairBeside(_) | LinkStop::PairDiffers(_, _) => reads.tick(),
        _ => {}
    }
}

// Where the descent ends, in the tree below this root.
#[inline(always)]
fn seek_below<P: Drop, N: LinkedNode<P>, L: Ledger>(
    nodes: &Slab<N>,
    root: usize,
    key: &[u8; 8],
    reads: &mut ReadCount<L>,
) -> LinkEnd
    requires { HasTree (seen_table (links_of N.node nodes.now.slots)) (name_of root) }
    ensures ends { SeeksTo (seen_table (links_of N.node nodes.now.slots)) (name_of root) key.now
        (seen_end key.now result) }
    ensures pair { KnowsPair (seen_table (links_of N.node nodes.now.slots)) key.now result }
    ensures reads { reads.new ≡ reads.old
        + on_path (tree_nodes (seen_table (links_of N.node nodes.now.slots)) (name_of root))
        key.now }
    ensures few { on_path (tree_nodes (seen_table (links_of N.node nodes.now.slots)) (name_of root))
        key.now ≤ 8 }
{
    let mut slot = root;
    let mut parent = root;
    let mut above = 0;
    let word = u64::from_be_bytes(*key);
    'down: loop {
        let node = visit(nodes, slot, reads);
        match look(node, key, word) {
            LinkStep::Here(stop) => {
                count_pair(&stop, reads);
                return LinkEnd {
                    slot,
                    parent,
                    above,
                    stop,
                };
            }
            LinkStep::Down(below) => {
                parent = slot;
                slot = below;
                above += 1;
            }
        }
    }
}

// The same, and remembers the slots of the nodes on the path.
#[inline(always)]
fn seek_along_below<P: Drop, N: LinkedNode<P>, L: Ledger>(
    nodes: &Slab<N>,
    root: usize,
    key: &[u8; 8],
    reads: &mut ReadCount<L>,
    trail: &mut [usize; 8],
) -> LinkEnd
    requires { HasTree (seen_table (links_of N.node nodes.now.slots)) (name_of root) }
    ensures ends { SeeksTo (seen_table (links_of N.node nodes.now.slots)) (name_of root) key.now
        (seen_end key.now result) }
    ensures pair { KnowsPair (seen_table (links_of N.node nodes.now.slots)) key.now result }
    ensures trail { IsTrail (seen_table (links_of N.node nodes.now.slots)) (name_of root) key.now
        (map name_of trail.new) (result.above + 1) }
    ensures reads { reads.new ≡ reads.old
        + on_path (tree_nodes (seen_table (links_of N.node nodes.now.slots)) (name_of root))
        key.now }
    ensures few { on_path (tree_nodes (seen_table (links_of N.node nodes.now.slots)) (name_of root))
        key.now ≤ 8 }
{
    let mut slot = root;
    let mut parent = root;
    let mut above = 0;
    let word = u64::from_be_bytes(*key);
    'down: loop {
        trail[above] = slot;
        let node = visit(nodes, slot, reads);
        match look(node, key, word) {
            LinkStep::Here(stop) => {
                count_pair(&stop, reads);
                return LinkEnd {
                    slot,
                    parent,
                    above,
                    stop,
                };
            }
            LinkStep::Down(below) => {
                parent = slot;
                slot = below;
                above += 1;
            }
        }
    }
}

// The payload at the key, in the tree below this root.
#[inline(always)]
fn find_below<'a, P: Drop, N: LinkedNode<P>, L: Ledger>(
    nodes: &'a Slab<N>,
    root: usize,
    key: &[u8; 8],
    reads: &mut ReadCount<L>,
) -> Option<&'a P>
    requires { HasTree (seen_table (links_of N.node nodes.now.slots)) (name_of root) }
    ensures value { option_copied result
        ≡ tree_payload (seen_table (links_of N.node nodes.now.slots)) (name_of root) key.now }
    ensures reads { reads.new ≡ reads.old
        + on_path (tree_nodes (seen_table (links_of N.node nodes.now.slots)) (name_of root))
        key.now }
    ensures few { on_path (tree_nodes (seen_table (links_of N.node nodes.now.slots)) (name_of root))
        key.now ≤ 8 }
{
    let mut slot = root;
    // (for the proof alone)
    let mut parent = root;
    let mut above = 0usize;
    let word = u64::from_be_bytes(*key);
    'down: loop {
        reads.tick();
        let Some(node) = nodes.get(slot) else {
            unreachable!()
        };
        match node.meet(key, word) {
            LinkMeeting::Other => return None,
            LinkMeeting::Nothing => return None,
            LinkMeeting::Leaf => {
                return match node.get_link(key[7]) {
                    None => None,
                    Some(LinkRef::Payload(payload)) => Some(payload),
                    Some(LinkRef::Slot(_)) => unreachable!(),
                    Some(LinkRef::Pair(_, _)) => unreachable!(),
                };
            }
            LinkMeeting::Pair(rest, payload) => {
                reads.tick();
                return if is_rest(key, rest) {
                    Some(payload)
                } else {
                    None
                };
            }
            LinkMeeting::Slot(below) => {
                parent = slot;
                slot = below;
                above += 1;
            }
        }
    }
}

impl<P: Drop> Links<P> {
    /// The payload at the key, in the tree whose root is in this slot. `reads` goes up by one for each node on the
    /// key's path, a leaf in its parent too.
    ///
    /// A pair in its parent is compared where it is met, and no slot is read for it.
    pub fn find<L: Ledger>(
        &self,
        root: usize,
        key: &[u8; 8],
        reads: &mut ReadCount<L>,
    ) -> Option<&P>
        requires { HasTree self.now.table (name_of root) }
        ensures value { option_copied result ≡ tree_payload self.now.table (name_of root) key.now }
        ensures reads { reads.new
            ≡ reads.old + on_path (tree_nodes self.now.table (name_of root)) key.now }
        ensures few { on_path (tree_nodes self.now.table (name_of root)) key.now ≤ 8 }
    {
        find_below(&self.nodes, root, key, reads)
    }

    /// Descends along the key as far as there are nodes, in the tree whose root is in this slot. Reads each of them once,
    /// and copies and moves none. `reads` goes up by one for each, a leaf in its parent too.
    ///
    /// Doesn't search a leaf, so that a call does it once, by what it does there. A pair in its parent is compared where
    /// it is met.
    // (inline, as what it calls for each node: a `LinkEnd` is several words, which a call would return through memory)
    #[inline(always)]
    pub fn seek<L: Ledger>(&self, root: usize, key: &[u8; 8], reads: &mut ReadCount<L>) -> LinkEnd
        requires { HasTree self.now.table (name_of root) }
        ensures ends { SeeksTo self.now.table (name_of root) key.now (seen_end key.now result) }
        ensures pair { KnowsPair self.now.table key.now result }
        ensures reads { reads.new
            ≡ reads.old + on_path (tree_nodes self.now.table (name_of root)) key.now }
        ensures few { on_path (tree_nodes self.now.table (name_of root)) key.now ≤ 8 }
    {
        seek_below(&self.nodes, root, key, reads)
    }

    /// The same, and remembers the slots of the nodes on the path, each at the place of its number of nodes above, for a
    /// call that may go up again. A pair in its parent has none.
    #[inline(always)]
    pub fn seek_along<L: Ledger>(
        &self,
        root: usize,
        key: &[u8; 8],
        reads: &mut ReadCount<L>,
        trail: &mut [usize; 8],
    ) -> LinkEnd
        requires { HasTree self.now.table (name_of root) }
        ensures ends { SeeksTo self.now.table (name_of root) key.now (seen_end key.now result) }
        ensures pair { KnowsPair self.now.table key.now result }
        ensures trail { IsTrail self.now.table (name_of root) key.now (map name_of trail.new)
            (result.above + 1) }
        ensures reads { reads.new
            ≡ reads.old + on_path (tree_nodes self.now.table (name_of root)) key.now }
        ensures few { on_path (tree_nodes self.now.table (name_of root)) key.now ≤ 8 }
    {
        seek_along_below(&self.nodes, root, key, reads, trail)
    }
}
