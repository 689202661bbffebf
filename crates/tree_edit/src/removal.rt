//! A removal: a payload is taken out of its leaf, or a pair out of its parent. Each node that is empty then is taken out
//! of its parent, and the first that isn't shrinks if it has few children left. A leaf with one pair left goes back into
//! its parent.
//!
//! Never fails: without memory for the smaller form the node keeps its own.
//!
//! Tested in `test_owned/shrinking` and `tools/dev/try-commands`.

ghost use Rattle.std.specs.Prelude.{◌≡◌, ◌↔◌, ℕ, List, ◌<◌, ◌^◌, length, map, slice_index, true, false, IfSome, IfNone, IsTrue, IsSome, OnErr, OnOk, Some, None};
ghost use Rattle.std.specs.Int.{from_be_bytes, w64};
ghost use Rattle.node_base.specs.Form.{smaller_form};
ghost use Rattle.node_base.specs.declared.base_node.NodeType.TheVariants.{N4};
ghost use Rattle.node_table.specs.Table.{NodeTable, node_at};
ghost use Rattle.spec_node.specs.TableNode.{TableNode};
ghost use Rattle.tree_path.specs.inner.Descent.{SeeksTo};
ghost use Rattle.tree_path.specs.inner.Root.{HasTree};
ghost use Rattle.tree_path.specs.inner.Supply.{count, IsCountedAt, AreFew, Alike, Trades};
ghost use Rattle.tree_path.specs.declared.supply.FormCounts.{FormCounts};
ghost use Rattle.tree_edit.specs.TreeCalls.{Removes, ReadsPath};
ghost use Rattle.tree_edit.specs.inner.Writes.{SameElsewhere};
ghost use Rattle.tree_edit.specs.inner.Takes.{TakesOnPath, KeepsBut, IsChildOnPath};
ghost use Rattle.tree_edit.specs.inner.Rise.{ThinsAt, HasRisen, IsWholeBefore, IsRemoval};
ghost use Rattle.tree_links.specs.OtherForm.{HasFewAt, ShrinksNode};
ghost use Rattle.tree_links.specs.SameTree.{GoesOnAt, SameTree};
ghost use Rattle.tree_links.specs.SeenTable.{name_of};
ghost use Rattle.tree_links.specs.Seeks.{seen_end, KnowsPair};
ghost use Rattle.tree_links.specs.declared.descent.LinkStop.TheVariants.{Leaf, Pair};
ghost use Rattle.tree_edit.specs.inner.Lowers.{HasLeafOnPath, HasTaken, SameOnPath};
ghost use Rattle.tree_edit.specs.inner.Spots.{HasThere, LacksThere};

use crate::tree::{Nodes, Tree};
use node_base::base_node::NodeType;
use node_table::allocator::Allocator;
use spec_map::error::OOMError;
use std::sync::ledger::Ledger;
use tree_links::descent::{LinkEnd, LinkStop};
use tree_path::reads::ReadCount;
use tree_path::supply::{Supply, smaller};

// Takes the node in a slot, which is empty, out of its parent on the key's path, frees the slot, and returns the node's
// form.
fn detach<P: Drop>(nodes: &mut Nodes<P>, parent: usize, slot: usize, key: &[u8; 8]) -> NodeType
    requires child { IsChildOnPath nodes.old.table (name_of parent) (name_of slot) key.now }
    requires inner { (n : TableNode P) → node_at nodes.old.table (name_of parent) ≡ Some n
        → length n.prefix < 7 }
    requires empty { (n : TableNode P) → node_at nodes.old.table (name_of slot) ≡ Some n
        → length n.children ≡ 0 }
    ensures keeps { KeepsBut (name_of parent) (name_of slot) nodes.old.table nodes.new.table }
    ensures taken { TakesOnPath nodes.old.table nodes.new.table (name_of parent) key.now }
    ensures form { (n : TableNode P) → node_at nodes.old.table (name_of slot) ≡ Some n
        → result ≡ n.form }
{
    let byte = key[nodes.node(parent).base().prefix().len()];
    nodes.take_slot(parent, byte, slot)
}

// Puts the node in a slot, of this form, into its next smaller one. The size of that is charged before the old one is
// uncharged.
fn shrink<P: Drop, A: Allocator>(
    nodes: &mut Nodes<P>,
    supply: &mut Supply<A>,
    slot: usize,
    large: NodeType,
) -> Result<(), OOMError>
    requires few { HasFewAt nodes.old.table (name_of slot) }
    requires counted { 0 < count large supply.old.forms }
    requires room { count (smaller_form large) supply.old.forms < 2 ^ 63 }
    ensures ok { OnOk result (ShrinksNode nodes.old.table nodes.new.table (name_of slot)) }
    ensures err { OnErr result (nodes.new.table ≡ nodes.old.table) }
    ensures forms { OnOk result
        (Trades supply.old.forms large (smaller_form large) supply.new.forms) }
    ensures same { OnErr result (supply.new.forms ≡ supply.old.forms) }
    ensures alike { Alike A.charge supply.old supply.new }
{
    let small = smaller(large);
    supply.charge(small)?;
    let shrunk = nodes.shrink(slot, supply.memory());
    supply.give_back(if shrunk.is_ok() { large } else { small });
    shrunk
}

/// Puts the node in a slot into its next smaller form if it has few children left and nodes are to shrink. Without
/// memory for that it is unchanged.
#[inline(always)]
pub(crate) fn shrink_if_due<P: Drop, A: Allocator>(
    nodes: &mut Nodes<P>,
    supply: &mut Supply<A>,
    slot: usize,
    shrinks: bool,
)
    requires counted { IsCountedAt nodes.old.table (name_of slot) supply.old.forms }
    requires few { AreFew supply.old.forms }
    ensures keeps { SameElsewhere (name_of slot) nodes.old.table nodes.new.table }
    ensures thins { ThinsAt nodes.old.table nodes.new.table (name_of slot) shrinks
        supply.old.forms supply.new.forms }
    ensures alike { Alike A.charge supply.old supply.new }
{
    if shrinks && nodes.is_due(slot) {
        let form = nodes.form_of(slot);
        // (a refusal changes nothing)
        let _ = shrink(nodes, supply, slot, form);
    }
}

// From the node at a place of the trail upwards, which has lost a child: each that is empty is taken out of its parent,
// and its size is uncharged; the first that isn't, and isn't the root, shrinks if it has few children left.
fn tidy<P: Drop, A: Allocator>(
    nodes: &mut Nodes<P>,
    supply: &mut Supply<A>,
    trail: &[usize; 8],
    above: usize,
    key: &[u8; 8],
    shrinks: bool,
)
    requires short { above < 8 }
    requires begins { (s : NodeTable P) × (forms : FormCounts)
        × IsWholeBefore s (name_of (slice_index trail.now 0)) key.now (map name_of trail.now)
        above forms
        × HasRisen s (name_of (slice_index trail.now 0)) key.now nodes.old.table
        (name_of (slice_index trail.now above)) above forms supply.old.forms }
    ensures ends { (s : NodeTable P) (forms : FormCounts)
        → IsWholeBefore s (name_of (slice_index trail.now 0)) key.now (map name_of trail.now)
        above forms
        → HasRisen s (name_of (slice_index trail.now 0)) key.now nodes.old.table
        (name_of (slice_index trail.now above)) above forms supply.old.forms
        → IsRemoval s (name_of (slice_index trail.now 0)) key.now shrinks
        nodes.new.table supply.new.forms }
    ensures alike { Alike A.charge supply.old supply.new }
{
    let mut at = above;
    'up: while at > 0 {
        let slot = trail[at];
        if !nodes.is_due(slot) {
            // (most often: then it isn't empty either)
            return;
        }
        if !nodes.is_empty(slot) {
            shrink_if_due(nodes, supply, slot, shrinks);
            return;
        }
        let form = detach(nodes, trail[at - 1], slot, key);
        supply.give_back(form);
        at -= 1;
    }
}

// Whether the node in a slot has the smallest form and one child.
#[inline(always)]
fn is_alone<P: Drop>(nodes: &Nodes<P>, slot: usize) -> bool
    requires { IsSome (node_at nodes.now.table (name_of slot)) }
    ensures { (n : TableNode P) → node_at nodes.now.table (name_of slot) ≡ Some n
        → IsTrue result → (n.form ≡ N4) × (length n.children ≡ 1) }
{
    match nodes.form_of(slot) {
        NodeType::N4 => nodes.node(slot).base().value_count() == 1,
        _ => false,
    }
}

// Puts the leaf in a slot back into its parent on the key's path, if it has the smallest form and one pair.
#[inline(always)]
fn lower_if_alone<P: Drop>(nodes: &mut Nodes<P>, parent: usize, slot: usize, key: &[u8; 8])
    requires { HasLeafOnPath nodes.old.table (name_of parent) (name_of slot) key.now }
    ensures { SameOnPath nodes.old.table nodes.new.table (name_of parent) key.now }
{
    if is_alone(nodes, slot) {
        let byte = key[nodes.node(parent).base().prefix().len()];
        nodes.lower(parent, byte, slot);
    }
}

// After the payload of a leaf was taken out: an empty leaf is taken out of its parent, as is what this leaves empty. A leaf
// with few children left shrinks, and with one pair left goes back into its parent.
#[inline(always)]
fn settle<P: Drop, A: Allocator>(
    nodes: &mut Nodes<P>,
    supply: &mut Supply<A>,
    spot: &LinkEnd,
    byte: u8,
    trail: &[usize; 8],
    key: &[u8; 8],
    shrinks: bool,
)
    requires short { spot.now.above < 8 }
    requires begins { (s : NodeTable P)
        × HasTaken s nodes.old.table (name_of (slice_index trail.now 0)) key.now
        (map name_of trail.now) spot.now.above (name_of spot.now.slot) (name_of spot.now.parent) byte
        supply.old.forms }
    ensures ends { (s : NodeTable P)
        → HasTaken s nodes.old.table (name_of (slice_index trail.now 0)) key.now
        (map name_of trail.now) spot.now.above (name_of spot.now.slot) (name_of spot.now.parent) byte
        supply.old.forms
        → IsRemoval s (name_of (slice_index trail.now 0)) key.now shrinks
        nodes.new.table supply.new.forms }
    ensures alike { Alike A.charge supply.old supply.new }
{
    // (for the proof alone)
    let _ = byte;
    if nodes.is_empty(spot.slot) {
        tidy(nodes, supply, trail, spot.above, key, shrinks);
        return;
    }
    shrink_if_due(nodes, supply, spot.slot, shrinks);
    lower_if_alone(nodes, spot.parent, spot.slot, key);
}

// Takes the key's payload out of the leaf where its descent ended, if it is there, and then what this leaves empty.
#[inline(always)]
fn take_from_leaf<P: Drop, A: Allocator>(
    nodes: &mut Nodes<P>,
    supply: &mut Supply<A>,
    spot: &LinkEnd,
    byte: u8,
    trail: &[usize; 8],
    key: &[u8; 8],
    shrinks: bool,
) -> Option<P>
    requires at_leaf { spot.now.stop ≡ Leaf byte }
    requires spot { SeeksTo nodes.old.table (name_of (slice_index trail.now 0)) key.now
        (seen_end key.now spot.now) }
    requires short { spot.now.above < 8 }
    requires whole { IsWholeBefore nodes.old.table (name_of (slice_index trail.now 0)) key.now
        (map name_of trail.now) spot.now.above supply.old.forms }
    ensures before { IfSome result (λ before. HasThere nodes.old.table key.now spot.now before) }
    ensures taken { IsSome result
        → IsRemoval nodes.old.table (name_of (slice_index trail.now 0)) key.now shrinks
        nodes.new.table supply.new.forms }
    ensures none { IfNone result (LacksThere nodes.old.table key.now spot.now) }
    ensures same { IfNone result (nodes.new.table ≡ nodes.old.table) }
    ensures unchanged { IfNone result (supply.new ≡ supply.old) }
    ensures alike { Alike A.charge supply.old supply.new }
{
    let Some(before) = nodes.take_payload(spot.slot, byte) else {
        return None;
    };
    settle(nodes, supply, spot, byte, trail, key, shrinks);
    Some(before)
}

// Takes the key's pair out of the node where its descent ended, and then what this leaves empty.
#[inline(always)]
fn take_alone<P: Drop, A: Allocator>(
    nodes: &mut Nodes<P>,
    supply: &mut Supply<A>,
    spot: &LinkEnd,
    byte: u8,
    trail: &[usize; 8],
    key: &[u8; 8],
    shrinks: bool,
) -> P
    requires at_pair { spot.now.stop ≡ Pair byte }
    requires spot { SeeksTo nodes.old.table (name_of (slice_index trail.now 0)) key.now
        (seen_end key.now spot.now) }
    requires pair { KnowsPair nodes.old.table key.now spot.now }
    requires short { spot.now.above < 8 }
    requires whole { IsWholeBefore nodes.old.table (name_of (slice_index trail.now 0)) key.now
        (map name_of trail.now) spot.now.above supply.old.forms }
    ensures before { HasThere nodes.old.table key.now spot.now result }
    ensures taken { IsRemoval nodes.old.table (name_of (slice_index trail.now 0)) key.now shrinks
        nodes.new.table supply.new.forms }
    ensures alike { Alike A.charge supply.old supply.new }
{
    let before = nodes.take_pair(spot.slot, byte);
    supply.give_back(NodeType::N4);
    tidy(nodes, supply, trail, spot.above, key, shrinks);
    before
}

/// Takes the payload where a descent ended out of its leaf, if the key is present, and then the nodes that this leaves
/// empty: no empty node is left but the root. Where nodes aren't to shrink, takes no memory.
#[inline(always)]
pub(crate) fn take_out<P: Drop, A: Allocator>(
    nodes: &mut Nodes<P>,
    supply: &mut Supply<A>,
    spot: &LinkEnd,
    trail: &[usize; 8],
    key: &[u8; 8],
    shrinks: bool,
) -> Option<P>
    requires spot { SeeksTo nodes.old.table (name_of (slice_index trail.now 0)) key.now
        (seen_end key.now spot.now) }
    requires pair { KnowsPair nodes.old.table key.now spot.now }
    requires short { spot.now.above < 8 }
    requires whole { IsWholeBefore nodes.old.table (name_of (slice_index trail.now 0)) key.now
        (map name_of trail.now) spot.now.above supply.old.forms }
    ensures before { IfSome result (λ before. HasThere nodes.old.table key.now spot.now before) }
    ensures taken { IsSome result
        → IsRemoval nodes.old.table (name_of (slice_index trail.now 0)) key.now shrinks
        nodes.new.table supply.new.forms }
    ensures none { IfNone result (LacksThere nodes.old.table key.now spot.now) }
    ensures same { IfNone result (nodes.new.table ≡ nodes.old.table) }
    ensures unchanged { IfNone result (supply.new ≡ supply.old) }
    ensures alike { Alike A.charge supply.old supply.new }
{
    match spot.stop {
        LinkStop::Leaf(byte) => take_from_leaf(nodes, supply, spot, byte, trail, key, shrinks),
        LinkStop::Pair(byte) => { Some(take_alone(nodes, supply, spot, byte, trail, key, shrinks)) }
        _ => None,
    }
}

impl<P: Drop, A: Allocator> Tree<P, A> {
    /// Removes the pair at the key, and returns its payload. Never fails. `reads` goes up by one for each node on the
    /// key's path.
    ///
    /// Searches no node twice on the way to the key: those above the leaf in the descent, and the leaf by what takes
    /// the payload out. Only a node that is empty then costs one search more, of its parent, and so does a leaf with one
    /// pair left. One that has few children then shrinks, where budget and machine have the memory for that.
    pub fn remove<L: Ledger>(&mut self, key: &[u8; 8], reads: &mut ReadCount<L>) -> Option<P>
        ensures removes { Removes A.charge self.old (from_be_bytes w64 key.now) result self.new }
        ensures reads { ReadsPath self.old.nodes key.now reads.old reads.new }
    {
        let mut trail = [self.root; 8];
        let spot = self.nodes.seek_along(self.root, key, reads, &mut trail);
        let Some(before) = take_out(&mut self.nodes, &mut self.supply, &spot, &trail, key, true)
        else {
            return None;
        };
        self.count -= 1;
        self.release_slots(true);
        Some(before)
    }
}
