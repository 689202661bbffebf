//! Removals of pairs that follow one another in one leaf: one path down for all of them. Each is handed on before the
//! next is removed, from a whole tree.
//!
//! What they leave is what single removals leave: after each the leaf shrinks where it has few pairs left.
//!
//! Tested in `test_owned/bulk`.

ghost use Rattle.std.specs.Prelude.{◌≡◌, ◌+◌, ◌<◌, ◌≤◌, IfSome, IsSome, map, set, slice_index, Some};
ghost use Rattle.std.specs.Int.{from_be_bytes, w64};
ghost use Rattle.spec_map.specs.Map.{lookup, without};
ghost use Rattle.node_table.specs.Table.{node_at};
ghost use Rattle.spec_node.specs.TableNode.{TableNode};
ghost use Rattle.tree_path.specs.inner.Root.{tree_pairs};
ghost use Rattle.tree_path.specs.inner.Supply.{Alike};
ghost use Rattle.tree_edit.specs.Outside.{outside};
ghost use Rattle.tree_edit.specs.TreeCalls.{RemovesRun};
ghost use Rattle.tree_edit.specs.Calls.{Calls, HasNoneAfter};
ghost use Rattle.tree_edit.specs.inner.Run.{IsAtPair, HasNoneBetween};
ghost use Rattle.tree_links.specs.SeenTable.{name_of};
ghost use Rattle.tree_links.specs.declared.descent.LinkStop.TheVariants.{Leaf};

use crate::insertion::current;
use crate::receiver::Receiver;
use crate::removal::{shrink_if_due, take_out};
use crate::tree::{Nodes, Tree};
use node_table::allocator::Allocator;
use std::sync::ledger::Ledger;
use tree_links::descent::{LinkEnd, LinkStop};
use tree_links::linked_node::LinkedNode;
use tree_path::reads::ReadCount;
use tree_path::supply::Supply;

/// The next byte under which the node in a slot has a child.
#[inline(always)]
pub(crate) fn byte_after<P: Drop>(nodes: &Nodes<P>, slot: usize, byte: u8) -> Option<u8>
    requires { IsSome (node_at nodes.now.table (name_of slot)) }
    ensures above { IfSome result (λ next. byte < next) }
    ensures present { IfSome result (λ next. (n : TableNode P)
        → node_at nodes.now.table (name_of slot) ≡ Some n → IsSome (lookup n.children next)) }
    ensures next { IfSome result (λ next. HasNoneBetween nodes.now.table (name_of slot) byte next) }
{
    let node = nodes.node(slot);
    // For the proof: brings the order of the bytes into scope.
    let _ = LinkedNode::base(node);
    match LinkedNode::first_from(node, byte as usize + 1) {
        Some((next, _)) => Some(next),
        None => None,
    }
}

/// Takes the payload of the key out of the leaf where its descent ended. Under another byte the leaf has a payload, too: so it
/// isn't empty then, but may shrink. The descent of that one's key ends there as well.
#[inline(always)]
pub(crate) fn take_beside<P: Drop, A: Allocator>(
    nodes: &mut Nodes<P>,
    supply: &mut Supply<A>,
    count: &mut u128,
    spot: &LinkEnd,
    trail: &[usize; 8],
    key: &[u8; 8],
    byte: u8,
    next: u8,
) -> P
    requires at { IsAtPair nodes.old.table (name_of (slice_index trail.now 0)) supply.old.forms
        count.old key.now (map name_of trail.now) spot.now }
    requires stop { spot.now.stop ≡ Leaf byte }
    requires above { byte < next }
    requires present { (n : TableNode P)
        → node_at nodes.old.table (name_of spot.now.slot) ≡ Some n → IsSome (lookup n.children next) }
    requires next { HasNoneBetween nodes.old.table (name_of spot.now.slot) byte next }
    ensures before { Some result
        ≡ lookup (tree_pairs nodes.old.table (name_of (slice_index trail.now 0)))
        (from_be_bytes w64 key.now) }
    ensures next { HasNoneAfter (tree_pairs nodes.new.table (name_of (slice_index trail.now 0)))
        (from_be_bytes w64 key.now) (from_be_bytes w64 (set key.now 7 next)) }
    ensures at { IsAtPair nodes.new.table (name_of (slice_index trail.now 0)) supply.new.forms
        count.new (set key.now 7 next) (map name_of trail.now)
        (record spot.now { stop = Leaf next }) }
    ensures pairs { tree_pairs nodes.new.table (name_of (slice_index trail.now 0))
        ≡ without (tree_pairs nodes.old.table (name_of (slice_index trail.now 0)))
        (from_be_bytes w64 key.now) }
    ensures fewer { count.new ≤ count.old }
    ensures alike { Alike A.charge supply.old supply.new }
{
    // (for the proof alone)
    let _ = trail;
    let _ = key;
    let _ = next;
    let Some(payload) = nodes.take_payload(spot.slot, byte) else {
        unreachable!()
    };
    shrink_if_due(nodes, supply, spot.slot, true);
    *count -= 1;
    payload
}

// Takes the key's payload and those after it out of the leaf where its descent ended, but for the last one below the end,
// and hands each on. Returns where the descent of that one's key ends, and its key. A pair in its parent is the last.
fn take_run<P: Drop, A: Allocator, F, R: Receiver<P, F>>(
    nodes: &mut Nodes<P>,
    supply: &mut Supply<A>,
    count: &mut u128,
    spot: LinkEnd,
    trail: &[usize; 8],
    key: [u8; 8],
    start: u64,
    end: u64,
    f: &mut F,
) -> (LinkEnd, [u8; 8])
    requires at { IsAtPair nodes.old.table (name_of (slice_index trail.now 0)) supply.old.forms
        count.old key (map name_of trail.now) spot }
    requires from { start ≤ from_be_bytes w64 key }
    requires below { from_be_bytes w64 key < end }
    requires first { HasNoneAfter (tree_pairs nodes.old.table (name_of (slice_index trail.now 0)))
        start (from_be_bytes w64 key) }
    requires ready { R.ready f.old }
    ensures at { IsAtPair nodes.new.table (name_of (slice_index trail.now 0)) supply.new.forms
        count.new result.1 (map name_of trail.now) result.0 }
    ensures first { HasNoneAfter (tree_pairs nodes.new.table (name_of (slice_index trail.now 0)))
        start (from_be_bytes w64 result.1) }
    ensures calls { Calls R.step start end
        f.old (tree_pairs nodes.old.table (name_of (slice_index trail.now 0)))
        f.new (tree_pairs nodes.new.table (name_of (slice_index trail.now 0))) }
    ensures others { outside (tree_pairs nodes.new.table (name_of (slice_index trail.now 0)))
        start end
        ≡ outside (tree_pairs nodes.old.table (name_of (slice_index trail.now 0))) start end }
    ensures from { start ≤ from_be_bytes w64 result.1 }
    ensures below { from_be_bytes w64 result.1 < end }
    ensures fewer { count.new ≤ count.old }
    ensures alike { Alike A.charge supply.old supply.new }
    ensures ready { R.ready f.new }
{
    let mut spot = spot;
    let mut last = key;
    'run: loop {
        let LinkStop::Leaf(byte) = spot.stop else {
            return (spot, last);
        };
        let Some(next) = byte_after(nodes, spot.slot, byte) else {
            return (spot, last);
        };
        let mut then = last;
        then[7] = next;
        let number = u64::from_be_bytes(then);
        // (it is above the start: for the proof alone)
        if number < start || end <= number {
            return (spot, last);
        }
        let payload = take_beside(nodes, supply, count, &spot, trail, &last, byte, next);
        let taken = u64::from_be_bytes(last);
        R::receive(f, taken, payload);
        last = then;
        spot.stop = LinkStop::Leaf(next);
    }
}

impl<P: Drop, A: Allocator> Tree<P, A> {
    /// Removes the pair at the key, if it is there, and then those that follow it in its leaf, below `end`, and hands each
    /// on, keys ascending. Never fails. Reads one path for all of them. What is left is what `remove` would leave for each.
    pub fn extract_run<L: Ledger, F, R: Receiver<P, F>>(
        &mut self,
        start: u64,
        key: u64,
        end: u64,
        f: &mut F,
        reads: &mut ReadCount<L>,
    )
        requires from { start ≤ key }
        requires below { key < end }
        requires first { HasNoneAfter self.old.pairs start key }
        requires ready { R.ready f.old }
        ensures removes { RemovesRun A.charge self.old start key end self.new }
        ensures calls { Calls R.step start end f.old self.old.pairs f.new self.new.pairs }
        ensures ready { R.ready f.new }
    {
        let bytes = key.to_be_bytes();
        let mut trail = [self.root; 8];
        let spot = self.nodes.seek_along(self.root, &bytes, reads, &mut trail);
        let Some(_) = current(&self.nodes, &spot, &bytes) else {
            return;
        };
        let (spot, last) = take_run::<P, A, F, R>(
            &mut self.nodes,
            &mut self.supply,
            &mut self.count,
            spot,
            &trail,
            bytes,
            start,
            end,
            f,
        );
        let Some(payload) = take_out(
            &mut self.nodes,
            &mut self.supply,
            &spot,
            &trail,
            &last,
            true,
        ) else {
            unreachable!()
        };
        self.count -= 1;
        self.release_slots(true);
        let taken = u64::from_be_bytes(last);
        R::receive(f, taken, payload);
    }
}
