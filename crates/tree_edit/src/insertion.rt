//! An insertion: at the end of the key's path, a payload is set, a pair is put into a place, or a node is put above it.
//!
//! All memory is taken before the first change of what the tree stores, and before a closure is called: a larger row of a
//! node, too, as a spare one. A pair that gets a leaf of its own for a second one takes none.
//!
//! What a call does at a leaf is inline (`#[inline(always)]`), as its result has several words, which a call returns
//! through memory.
//!
//! Tested in `test_owned` and `tools/dev/try-commands`.

ghost use Rattle.std.specs.Prelude.{◌≡◌, ℕ, List, ◌+◌, ◌<◌, ◌≤◌, ◌^◌, IfOk, IfErr, IfSome, IfNone, OnOk, OnErr, Some, None, option_copied, slice_index};
ghost use Rattle.std.specs.Int.{from_be_bytes, w64};
ghost use Rattle.node_base.specs.Form.{next_form};
ghost use Rattle.node_base.specs.declared.base_node.NodeType.{NodeType};
ghost use Rattle.node_base.specs.declared.base_node.NodeType.TheVariants.{N4};
ghost use Rattle.spec_node.specs.TableNode.{TableNode};
ghost use Rattle.node_table.specs.Table.{node_at};
ghost use Rattle.tree_path.specs.inner.Supply.{count, with_form, CountsGrown, IsCountedAt, AreFew, Alike, Trades};
ghost use Rattle.tree_edit.specs.TreeCalls.{Inserts, ComputesOrInserts, ReadsPath};
ghost use Rattle.tree_edit.specs.Closure.{TakesOption};
ghost use Rattle.tree_edit.specs.Tree.{payload_at};
ghost use Rattle.tree_edit.specs.inner.Writes.{HasLeafAt, HasNothingUnder, IsFullAt, IsStoredWhere, MakesRoom, SameElsewhere};
ghost use Rattle.tree_path.specs.declared.descent.Stop.TheVariants.{Leaf};
ghost use Rattle.tree_links.specs.PairCalls.{HasBelow};
ghost use Rattle.tree_links.specs.OtherForm.{GrowsNode};
ghost use Rattle.tree_links.specs.SeenTable.{leaf_of, name_of, name_under};
ghost use Rattle.tree_links.specs.Spares.{HasSpare};
ghost use Rattle.tree_edit.specs.inner.Ready.{MayPut, Puts, IsReady};
ghost use Rattle.tree_edit.specs.inner.Spots.{IsSpot, HasThere, LacksThere, MayRefuse, ExchangesThere, SetsThere, EndsAbsent};

use crate::tree::{Nodes, Tree};
use node_base::base_node::NodeType;
use node_rows::row_node::RowNode;
use node_rows::spare::Spare;
use node_table::allocator::Allocator;
use spec_map::error::OOMError;
use std::sync::ledger::Ledger;
use tree_links::descent::{LinkEnd, LinkStop};
use tree_links::link::LinkRef;
use tree_links::linked_node::LinkedNode;
use tree_links::place::Place;
use tree_path::reads::ReadCount;
use tree_path::supply::{Supply, larger};

/// What is ready for a new key's pair.
#[derive(Drop)]
pub(crate) enum Ready<P> {
    /// The key's leaf, in this slot, has room.
    Leaf(usize),
    /// The node in this slot has room, with this spare row if it needs one, and nothing under this byte.
    Place(usize, u8, Spare<Place<P>>),
    /// Under this byte of the node in this slot there is a pair, whose leaf's prefix the key leaves at this place.
    Beside(usize, u8, usize),
    /// Under this byte of the node in this slot there is the node in another, whose prefix the key leaves at this place.
    Above(usize, u8, usize, usize),
}

// The payload under a byte of the leaf in a slot.
#[inline(always)]
fn payload_at<P: Drop>(nodes: &Nodes<P>, slot: usize, byte: u8) -> Option<&P>
    requires { HasLeafAt nodes.now.table (name_of slot) }
    ensures some { IfSome result (λ payload.
        IsStoredWhere nodes.now.table (name_of slot) (Leaf byte) payload.now) }
    ensures none { IfNone result (HasNothingUnder nodes.now.table (name_of slot) byte) }
{
    match nodes.node(slot).get_link(byte) {
        None => None,
        Some(LinkRef::Payload(payload)) => Some(payload),
        Some(LinkRef::Slot(_)) => unreachable!(),
        Some(LinkRef::Pair(_, _)) => unreachable!(),
    }
}

// The payload of the pair under a byte of the inner node in a slot.
#[inline(always)]
fn pair_at<P: Drop>(nodes: &Nodes<P>, slot: usize, byte: u8) -> &P
    requires { HasBelow nodes.now.table (name_of slot) byte (name_under slot byte) }
    ensures { (key : List ℕ) (payload : P)
        → node_at nodes.now.table (name_under slot byte) ≡ Some (leaf_of key payload)
        → payload ≡ result.now }
{
    let Some(node) = nodes.get(slot) else {
        unreachable!()
    };
    match node.get_link(byte) {
        Some(LinkRef::Pair(_, payload)) => payload,
        Some(LinkRef::Payload(_)) => unreachable!(),
        Some(LinkRef::Slot(_)) => unreachable!(),
        None => unreachable!(),
    }
}

/// The payload where a descent ended, if the key is present.
#[inline(always)]
pub(crate) fn current<'a, P: Drop>(
    nodes: &'a Nodes<P>,
    spot: &LinkEnd,
    key: &[u8; 8],
) -> Option<&'a P>
    requires { IsSpot nodes.now.table key.now spot.now }
    ensures some { IfSome result (λ payload. HasThere nodes.now.table key.now spot.now payload.now) }
    ensures none { IfNone result (LacksThere nodes.now.table key.now spot.now) }
{
    match spot.stop {
        LinkStop::Leaf(byte) => payload_at(nodes, spot.slot, byte),
        LinkStop::Pair(byte) => Some(pair_at(nodes, spot.slot, byte)),
        _ => None,
    }
}

/// Sets the payload where a descent ended, if the key is present there or its leaf has room for one more, and returns the
/// previous one. Takes no memory, and searches the leaf once. Otherwise returns the given payload as `Err`.
#[inline(always)]
pub(crate) fn set_payload<P: Drop>(
    nodes: &mut Nodes<P>,
    spot: &LinkEnd,
    key: &[u8; 8],
    payload: P,
) -> Result<Option<P>, P>
    requires { IsSpot nodes.old.table key.now spot.now }
    ensures set { IfOk result (λ before.
        SetsThere nodes.old.table key.now spot.now nodes.new.table payload before) }
    ensures absent { OnErr result (LacksThere nodes.old.table key.now spot.now) }
    ensures same { OnErr result (nodes.new.table ≡ nodes.old.table) }
    ensures back { IfErr result (λ back. back ≡ payload) }
{
    match spot.stop {
        LinkStop::Leaf(byte) => nodes.set_payload(spot.slot, byte, payload),
        LinkStop::Pair(byte) => Ok(Some(nodes.change_pair(spot.slot, byte, key, payload))),
        _ => Err(payload),
    }
}

/// Replaces the payload where a descent ended, and returns the previous one.
#[inline(always)]
pub(crate) fn change_payload<P: Drop>(
    nodes: &mut Nodes<P>,
    spot: &LinkEnd,
    key: &[u8; 8],
    payload: P,
) -> P
    requires spot { IsSpot nodes.old.table key.now spot.now }
    requires at_key { LacksThere nodes.old.table key.now spot.now → ⊥ }
    ensures before { HasThere nodes.old.table key.now spot.now result }
    ensures after { ExchangesThere nodes.old.table key.now spot.now nodes.new.table payload }
{
    match set_payload(nodes, spot, key, payload) {
        Ok(Some(before)) => before,
        Ok(None) => unreachable!(),
        Err(_) => unreachable!(),
    }
}

// Puts the node in a slot, of this form, into its next one. The size of that is charged before the old one is uncharged.
fn grow<P: Drop, A: Allocator>(
    nodes: &mut Nodes<P>,
    supply: &mut Supply<A>,
    slot: usize,
    small: NodeType,
) -> Result<(), OOMError>
    requires here { (n : TableNode P) × (node_at nodes.old.table (name_of slot) ≡ Some n) }
    requires counted { 0 < count small supply.old.forms }
    requires room { count (next_form small) supply.old.forms < 2 ^ 63 }
    ensures ok { OnOk result (GrowsNode nodes.old.table nodes.new.table (name_of slot)) }
    ensures err { OnErr result (nodes.new.table ≡ nodes.old.table) }
    ensures free { nodes.new.free ≡ nodes.old.free }
    ensures forms { OnOk result (Trades supply.old.forms small (next_form small) supply.new.forms) }
    ensures same { OnErr result (supply.new.forms ≡ supply.old.forms) }
    ensures alike { Alike A.charge supply.old supply.new }
{
    let large = larger(small);
    supply.charge(large)?;
    let grown = nodes.grow(slot, supply.memory());
    supply.give_back(if grown.is_ok() { small } else { large });
    grown
}

// Grows the node in a slot where it is full.
fn make_room<P: Drop, A: Allocator>(
    nodes: &mut Nodes<P>,
    supply: &mut Supply<A>,
    slot: usize,
) -> Result<(), OOMError>
    requires counted { IsCountedAt nodes.old.table (name_of slot) supply.old.forms }
    requires few { (form : NodeType) → count form supply.old.forms < 2 ^ 63 }
    ensures keeps { SameElsewhere (name_of slot) nodes.old.table nodes.new.table }
    ensures ok { OnOk result (MakesRoom nodes.old.table nodes.new.table (name_of slot)) }
    ensures err { OnErr result (nodes.new.table ≡ nodes.old.table) }
    ensures refused { OnErr result (IsFullAt nodes.old.table (name_of slot)) }
    ensures free { nodes.new.free ≡ nodes.old.free }
    ensures grown { OnOk result
        (CountsGrown nodes.old.table (name_of slot) supply.old.forms supply.new.forms) }
    ensures same { OnErr result (supply.new.forms ≡ supply.old.forms) }
    ensures alike { Alike A.charge supply.old supply.new }
{
    // (for the proof: brings the number of children into scope)
    let _ = nodes.node(slot).base();
    if nodes.is_full(slot) {
        let form = nodes.form_of(slot);
        grow(nodes, supply, slot, form)?;
    }
    Ok(())
}

// Makes room for a pair in the node in a slot, and charges its leaf. Returns the spare row for it.
fn make_place<P: Drop, A: Allocator>(
    nodes: &mut Nodes<P>,
    supply: &mut Supply<A>,
    slot: usize,
) -> Result<Spare<Place<P>>, OOMError>
    requires counted { IsCountedAt nodes.old.table (name_of slot) supply.old.forms }
    requires few { AreFew supply.old.forms }
    ensures keeps { SameElsewhere (name_of slot) nodes.old.table nodes.new.table }
    ensures ok { OnOk result (MakesRoom nodes.old.table nodes.new.table (name_of slot)) }
    ensures err { OnErr result (nodes.new.table ≡ nodes.old.table) }
    ensures free { OnOk result (0 < nodes.new.free) }
    ensures spare { IfOk result (λ spare. HasSpare nodes.new.table (name_of slot) spare) }
    ensures grown { OnOk result (CountsGrown nodes.old.table (name_of slot)
        (with_form N4 supply.old.forms) supply.new.forms) }
    ensures same { OnErr result (supply.new.forms ≡ supply.old.forms) }
    ensures alike { Alike A.charge supply.old supply.new }
{
    nodes.reserve(1)?;
    let spare = nodes.spare(slot, supply.memory())?;
    supply.charge(NodeType::N4)?;
    if let Err(error) = make_room(nodes, supply, slot) {
        supply.give_back(NodeType::N4);
        return Err(error);
    }
    Ok(spare)
}

// Takes memory for a node and a leaf, and charges them.
fn make_two<P: Drop, A: Allocator>(
    nodes: &mut Nodes<P>,
    supply: &mut Supply<A>,
) -> Result<(), OOMError>
    requires few { AreFew supply.old.forms }
    ensures table { nodes.new.table ≡ nodes.old.table }
    ensures free { OnOk result (1 < nodes.new.free) }
    ensures more { OnOk result (supply.new.forms ≡ with_form N4 (with_form N4 supply.old.forms)) }
    ensures same { OnErr result (supply.new.forms ≡ supply.old.forms) }
    ensures alike { Alike A.charge supply.old supply.new }
{
    nodes.reserve(2)?;
    supply.charge(NodeType::N4)?;
    if let Err(error) = supply.charge(NodeType::N4) {
        supply.give_back(NodeType::N4);
        return Err(error);
    }
    Ok(())
}

/// Makes ready for a new key where its descent ended: no later step can fail. All memory is taken before the first
/// change.
pub(crate) fn make_ready<P: Drop, A: Allocator>(
    nodes: &mut Nodes<P>,
    supply: &mut Supply<A>,
    spot: &LinkEnd,
    key: &[u8; 8],
) -> Result<Ready<P>, OOMError>
    requires ends { (root : ℕ)
        × EndsAbsent nodes.old.table key.now spot.now root supply.old.forms }
    requires few { AreFew supply.old.forms }
    ensures may { IfOk result (λ ready. MayPut nodes.new.table nodes.new.free key.now ready) }
    ensures ready { IfOk result (λ ready. (root : ℕ)
        → EndsAbsent nodes.old.table key.now spot.now root supply.old.forms
        → IsReady nodes.old.table nodes.new.table root key.now ready supply.new.forms) }
    ensures err { OnErr result (nodes.new.table ≡ nodes.old.table) }
    ensures same { OnErr result (supply.new.forms ≡ supply.old.forms) }
    ensures refused { OnErr result (MayRefuse nodes.old.table key.now spot.now) }
    ensures alike { Alike A.charge supply.old supply.new }
{
    match spot.stop {
        LinkStop::Leaf(_) => {
            make_room(nodes, supply, spot.slot)?;
            Ok(Ready::Leaf(spot.slot))
        }
        LinkStop::PairBeside(byte) => Ok(Ready::Leaf(nodes.hoist(spot.slot, byte))),
        LinkStop::Absent(byte) => {
            let spare = make_place(nodes, supply, spot.slot)?;
            Ok(Ready::Place(spot.slot, byte, spare))
        }
        LinkStop::PairDiffers(byte, at) => {
            make_two(nodes, supply)?;
            Ok(Ready::Beside(spot.slot, byte, at))
        }
        LinkStop::Differs(at) => {
            let byte = key[nodes.node(spot.parent).base().prefix().len()];
            make_two(nodes, supply)?;
            Ok(Ready::Above(spot.parent, byte, spot.slot, at))
        }
        LinkStop::Pair(_) => unreachable!(),
    }
}

/// Puts a new key's pair where all is ready for it. Takes no memory: a longer row was taken before.
pub(crate) fn put<P: Drop>(nodes: &mut Nodes<P>, ready: Ready<P>, key: &[u8; 8], payload: P)
    requires { MayPut nodes.old.table nodes.old.free key.now ready }
    ensures { Puts nodes.old.table nodes.new.table key.now ready payload }
{
    match ready {
        Ready::Leaf(slot) => nodes.put_payload(slot, key[7], payload),
        Ready::Place(slot, byte, spare) => nodes.add_pair(slot, byte, key, payload, spare),
        Ready::Beside(slot, byte, at) => {
            let upper = RowNode::empty_inner(&key[..at]);
            nodes.split_pair(slot, byte, key, at, upper, payload);
        }
        Ready::Above(parent, byte, slot, at) => {
            let upper = RowNode::empty_inner(&key[..at]);
            nodes.split_above(parent, byte, slot, key, at, upper, payload);
        }
    }
}

// `None` with the lifetime of `nodes`, so that both arms hand the closure one type.
fn nothing<P: Drop>(_nodes: &Nodes<P>) -> Option<&P>
    ensures { option_copied result ≡ None }
{
    None
}

impl<P: Drop, A: Allocator> Tree<P, A> {
    /// Sets the payload at the key, and returns the previous one. `OOMError` comes only for a new key that needs a node
    /// of its own or a larger one, where memory is missing for that, and leaves the tree unchanged. `reads` goes up by
    /// one for each node on the key's path.
    ///
    /// Searches no node twice on the way to a present key: those above the leaf in the descent, and the leaf by the
    /// exchange. Takes memory, and looks at the leaf once more for it, only where the key is new and its leaf has no
    /// room or doesn't exist yet.
    pub fn insert<L: Ledger>(
        &mut self,
        key: &[u8; 8],
        payload: P,
        reads: &mut ReadCount<L>,
    ) -> Result<Option<P>, OOMError>
        ensures inserts { let number = from_be_bytes w64 key.now in
            Inserts A.charge self.old number payload result self.new }
        ensures reads { ReadsPath self.old.nodes key.now reads.old reads.new }
    {
        let spot = self.nodes.seek(self.root, key, reads);
        match set_payload(&mut self.nodes, &spot, key, payload) {
            Ok(Some(before)) => Ok(Some(before)),
            Ok(None) => {
                self.count += 1;
                Ok(None)
            }
            Err(payload) => {
                let ready = make_ready(&mut self.nodes, &mut self.supply, &spot, key)?;
                put(&mut self.nodes, ready, key, payload);
                self.count += 1;
                Ok(None)
            }
        }
    }

    /// Sets the key's payload to what the closure returns for the current payload or `None`, and returns the previous
    /// one. The closure is called once, after all memory is taken. `OOMError` comes only for a new key that needs a
    /// node of its own or a larger one, where memory is missing for that; the tree is unchanged then, and the closure
    /// isn't called. `reads` goes up by one for each node on the key's path.
    pub fn compute_or_insert<F: FnMut(Option<&P>) -> P, L: Ledger>(
        &mut self,
        key: &[u8; 8],
        f: &mut F,
        reads: &mut ReadCount<L>,
    ) -> Result<Option<P>, OOMError>
        requires { TakesOption F.FnMut f.old (payload_at self.old key.now) }
        ensures computes { let number = from_be_bytes w64 key.now in
            ComputesOrInserts A.charge self.old number F.FnMut f.old result f.new self.new }
        ensures reads { ReadsPath self.old.nodes key.now reads.old reads.new }
    {
        let spot = self.nodes.seek(self.root, key, reads);
        let shown = current(&self.nodes, &spot, key);
        match shown {
            Some(_) => {
                let answer = f(shown);
                let before = change_payload(&mut self.nodes, &spot, key, answer);
                Ok(Some(before))
            }
            None => {
                let ready = make_ready(&mut self.nodes, &mut self.supply, &spot, key)?;
                let payload = f(nothing(&self.nodes));
                put(&mut self.nodes, ready, key, payload);
                self.count += 1;
                Ok(None)
            }
        }
    }
}
