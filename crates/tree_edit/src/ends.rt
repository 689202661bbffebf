//! Removals of the first pair and of the last: one path down the first children, or the last, whose slots are remembered
//! for the removal. The path may end at a pair in its parent.
//!
//! Tested in `test_owned/neighbours`.

ghost use Rattle.std.specs.Prelude.{◌≡◌, ◌+◌, ◌^◌, false, [], IfSome, IfNone, Some, map};
ghost use Rattle.std.specs.Int.{to_be_bytes, w64};
ghost use Rattle.std.specs.Option.{option_map};
ghost use Rattle.spec_map.specs.Map.{Rises};
ghost use Rattle.spec_map.specs.Near.{first_of, last_of};
ghost use Rattle.tree_path.specs.inner.Descent.{IsTrail, SeeksTo};
ghost use Rattle.tree_path.specs.inner.Root.{HasTree, tree_pairs, tree_nodes};
ghost use Rattle.tree_edit.specs.Reduce.{AreFilled, LosesInPlace};
ghost use Rattle.tree_edit.specs.TreeCalls.{Removes};
ghost use Rattle.tree_edit.specs.declared.ends.Side.TheVariants.{First};
ghost use Rattle.tree_edit.specs.inner.Ends.{at_side, StartsFrom};
ghost use Rattle.tree_links.specs.LinkNode.{looked_at};
ghost use Rattle.tree_links.specs.Places.{as_linked};
ghost use Rattle.tree_links.specs.SeenTable.{name_of};
ghost use Rattle.tree_links.specs.Seeks.{seen_end, KnowsPair};

use crate::removal::take_out;
use crate::tree::{Nodes, Tree};
use node_table::allocator::Allocator;
use tree_links::bytes::pair_number;
use tree_links::descent::{LinkEnd, LinkStop};
use tree_links::link::{LinkMeeting, LinkRef};
use tree_links::linked_node::LinkedNode;
use tree_links::place::Linked;

/// At which side of the pairs a removal is.
#[derive(Clone, Copy)]
pub enum Side {
    First,
    Last,
}

// The node's first link, and its byte, where none of its links comes before the key. So what the node has under the key's
// byte is the first: it is met as in a look-up, by one jump. `word` has the key's bytes.
#[inline(always)]
fn first_link<'a, P: Drop>(
    node: &'a Linked<P>,
    key: &[u8; 8],
    word: u64,
) -> Option<(u8, LinkRef<'a, P>)>
    requires word { to_be_bytes w64 word ≡ key.now }
    requires bound { StartsFrom key.now (as_linked node.now) }
    ensures { option_map (λ found. (found.0, looked_at found.1)) result
        ≡ first_of (as_linked node.now).links }
{
    let base = LinkedNode::base(node);
    match LinkedNode::meet(node, key, word) {
        LinkMeeting::Slot(below) => Some((key[base.prefix().len()], LinkRef::Slot(below))),
        LinkMeeting::Pair(rest, payload) => {
            Some((key[base.prefix().len()], LinkRef::Pair(rest, payload)))
        }
        LinkMeeting::Leaf => match LinkedNode::get_link(node, key[7]) {
            Some(link) => Some((key[7], link)),
            None => LinkedNode::first_from(node, 0),
        },
        _ => LinkedNode::first_from(node, 0),
    }
}

// The node's first link or its last, and the byte. None of its links comes before the key, where the first is asked for.
#[inline(always)]
fn link_at<'a, P: Drop>(
    node: &'a Linked<P>,
    side: Side,
    key: &[u8; 8],
    word: u64,
) -> Option<(u8, LinkRef<'a, P>)>
    requires word { to_be_bytes w64 word ≡ key.now }
    requires bound { side ≡ First → StartsFrom key.now (as_linked node.now) }
    ensures { option_map (λ found. (found.0, looked_at found.1)) result
        ≡ at_side side (as_linked node.now).links }
{
    // For the proof: brings the order of the bytes into scope.
    let _ = LinkedNode::base(node);
    match side {
        Side::First => first_link(node, key, word),
        Side::Last => LinkedNode::last_below(node, 256),
    }
}

// Descends to the first pair or the last, and remembers the slots on the way as `seek_along` does. Returns its key and
// where the path ends; `None` where there is no pair. Only the root may be empty, so no node on the way is a dead end.
//
// No pair is below `least`, where the first is asked for. So a node on its path is searched for its byte alone.
#[inline(always)]
fn seek_end<P: Drop>(
    nodes: &Nodes<P>,
    root: usize,
    side: Side,
    least: u64,
    trail: &mut [usize; 8],
) -> Option<(u64, LinkEnd)>
    requires tree { HasTree nodes.now.table (name_of root) }
    requires filled { AreFilled (tree_nodes nodes.now.table (name_of root)) }
    requires bound { side ≡ First
        → Rises least (2 ^ 64) (tree_pairs nodes.now.table (name_of root)) }
    ensures none { IfNone result (tree_pairs nodes.now.table (name_of root) ≡ []) }
    ensures key { IfSome result (λ found. Some found.0
        ≡ option_map (λ pair. pair.0) (at_side side (tree_pairs nodes.now.table (name_of root)))) }
    ensures ends { IfSome result (λ found.
        SeeksTo nodes.now.table (name_of root) (to_be_bytes w64 found.0)
        (seen_end (to_be_bytes w64 found.0) found.1)) }
    ensures pair { IfSome result (λ found.
        KnowsPair nodes.now.table (to_be_bytes w64 found.0) found.1) }
    ensures trail { IfSome result (λ found.
        IsTrail nodes.now.table (name_of root) (to_be_bytes w64 found.0) (map name_of trail.new)
        (found.1.above + 1)) }
{
    let mut slot = root;
    let mut parent = root;
    let mut above = 0;
    let bound = least.to_be_bytes();
    'down: loop {
        trail[above] = slot;
        let Some(node) = nodes.get(slot) else {
            unreachable!()
        };
        let Some((byte, link)) = link_at(node, side, &bound, least) else {
            return None;
        };
        let base = LinkedNode::base(node);
        match link {
            LinkRef::Payload(_) => {
                let key = base.first_key() + byte as u64;
                let stop = LinkStop::Leaf(byte);
                return Some((
                    key,
                    LinkEnd {
                        slot,
                        parent,
                        above,
                        stop,
                    },
                ));
            }
            LinkRef::Pair(rest, _) => {
                let key = pair_number(base, byte, rest);
                let stop = LinkStop::Pair(byte);
                return Some((
                    key,
                    LinkEnd {
                        slot,
                        parent,
                        above,
                        stop,
                    },
                ));
            }
            LinkRef::Slot(below) => {
                parent = slot;
                slot = below;
                above += 1;
            }
        }
    }
}

impl<P: Drop, A: Allocator> Tree<P, A> {
    /// Removes the pair with the least key, and returns it: a removal as any other. Never fails.
    ///
    /// No key is below `least`. The nodes on its path aren't searched for their first child, so a caller who remembers the
    /// key that was first before spares that.
    pub fn pop_first(&mut self, least: u64) -> Option<(u64, P)>
        requires { Rises least (2 ^ 64) self.old.pairs }
        ensures pair { result ≡ first_of self.old.pairs }
        ensures removes { IfSome result (λ pair.
            Removes A.charge self.old pair.0 (Some pair.1) self.new) }
        ensures empty { IfNone result (self.new ≡ self.old) }
    {
        self.pop(Side::First, least, true)
    }

    /// The same, where no node shrinks: takes no memory. For a tree that is drained.
    pub fn pop_first_in_place(&mut self, least: u64) -> Option<(u64, P)>
        requires { Rises least (2 ^ 64) self.old.pairs }
        ensures pair { result ≡ first_of self.old.pairs }
        ensures removes { IfSome result (λ pair.
            Removes A.charge self.old pair.0 (Some pair.1) self.new) }
        ensures in_place { IfSome result (λ pair.
            LosesInPlace self.old.nodes (to_be_bytes w64 pair.0) self.new.nodes) }
        ensures empty { IfNone result (self.new ≡ self.old) }
    {
        self.pop(Side::First, least, false)
    }

    /// Removes the pair with the greatest key, and returns it: a removal as any other. Never fails.
    pub fn pop_last(&mut self) -> Option<(u64, P)>
        ensures pair { result ≡ last_of self.old.pairs }
        ensures removes { IfSome result (λ pair.
            Removes A.charge self.old pair.0 (Some pair.1) self.new) }
        ensures empty { IfNone result (self.new ≡ self.old) }
    {
        self.pop(Side::Last, 0, true)
    }

    #[inline(always)]
    fn pop(&mut self, side: Side, least: u64, shrinks: bool) -> Option<(u64, P)>
        requires { side ≡ First → Rises least (2 ^ 64) self.old.pairs }
        ensures pair { result ≡ at_side side self.old.pairs }
        ensures removes { IfSome result (λ pair.
            Removes A.charge self.old pair.0 (Some pair.1) self.new) }
        ensures in_place { IfSome result (λ pair. shrinks ≡ false
            → LosesInPlace self.old.nodes (to_be_bytes w64 pair.0) self.new.nodes) }
        ensures empty { IfNone result (self.new ≡ self.old) }
    {
        let mut trail = [self.root; 8];
        let Some((key, spot)) = seek_end(&self.nodes, self.root, side, least, &mut trail) else {
            return None;
        };
        let bytes = key.to_be_bytes();
        let Some(payload) = take_out(
            &mut self.nodes,
            &mut self.supply,
            &spot,
            &trail,
            &bytes,
            shrinks,
        ) else {
            unreachable!()
        };
        self.count -= 1;
        self.release_slots(shrinks);
        Some((key, payload))
    }
}
