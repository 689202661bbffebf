//! Pairs that follow one another in one leaf are asked about, and removed where they aren't to stay: one path down for all of
//! them.
//!
//! Tested in `test_owned/bulk`.

ghost use Rattle.std.specs.Prelude.{◌≡◌, ℕ, ◌+◌, ◌<◌, ◌≤◌, IfSome, IsSome, map, set, slice_index, if◌then◌else◌, Some};
ghost use Rattle.std.specs.Int.{from_be_bytes, w64};
ghost use Rattle.spec_map.specs.Map.{Pairs, lookup, without};
ghost use Rattle.node_table.specs.Table.{node_at};
ghost use Rattle.spec_node.specs.TableNode.{TableNode};
ghost use Rattle.tree_path.specs.inner.Root.{tree_pairs};
ghost use Rattle.tree_path.specs.inner.Supply.{Alike};
ghost use Rattle.tree_edit.specs.Calls.{Asking, HasNoneAfter};
ghost use Rattle.tree_edit.specs.Tree.{ChargesForNodes};
ghost use Rattle.tree_edit.specs.inner.Run.{IsAtPair, HasNoneBetween};
ghost use Rattle.tree_edit.specs.inner.Whole.{IsWhole};
ghost use Rattle.tree_links.specs.SeenTable.{name_of};
ghost use Rattle.tree_links.specs.declared.descent.LinkStop.TheVariants.{Leaf};

use crate::insertion::current;
use crate::leaf_run::{byte_after, take_beside};
use crate::receiver::Asker;
use crate::removal::take_out;
use crate::tree::{Nodes, Tree};
use node_table::allocator::Allocator;
use std::sync::ledger::Ledger;
use tree_links::descent::{LinkEnd, LinkStop};
use tree_path::reads::ReadCount;
use tree_path::supply::Supply;

// Goes on to the next byte of the leaf, and takes the payload of the key out if it doesn't stay.
#[inline(always)]
fn go_on<P: Drop, A: Allocator>(
    nodes: &mut Nodes<P>,
    supply: &mut Supply<A>,
    count: &mut u128,
    spot: &LinkEnd,
    trail: &[usize; 8],
    key: &[u8; 8],
    byte: u8,
    next: u8,
    stays: bool,
)
    requires at { IsAtPair nodes.old.table (name_of (slice_index trail.now 0)) supply.old.forms
        count.old key.now (map name_of trail.now) spot.now }
    requires stop { spot.now.stop ≡ Leaf byte }
    requires above { byte < next }
    requires present { (n : TableNode P)
        → node_at nodes.old.table (name_of spot.now.slot) ≡ Some n → IsSome (lookup n.children next) }
    requires next { HasNoneBetween nodes.old.table (name_of spot.now.slot) byte next }
    ensures next { HasNoneAfter (tree_pairs nodes.new.table (name_of (slice_index trail.now 0)))
        (from_be_bytes w64 key.now + 1) (from_be_bytes w64 (set key.now 7 next)) }
    ensures at { IsAtPair nodes.new.table (name_of (slice_index trail.now 0)) supply.new.forms
        count.new (set key.now 7 next) (map name_of trail.now)
        (record spot.now { stop = Leaf next }) }
    ensures pairs { let before = tree_pairs nodes.old.table (name_of (slice_index trail.now 0)) in
        tree_pairs nodes.new.table (name_of (slice_index trail.now 0))
        ≡ (if stays then before else without before (from_be_bytes w64 key.now)) }
    ensures alike { Alike A.charge supply.old supply.new }
{
    if !stays {
        let _ = take_beside(nodes, supply, count, spot, trail, key, byte, next);
    }
}

// Asks about the key's payload and those after it in the leaf where its descent ended, and takes out those that don't stay,
// but for the last. Returns where the descent of that one's key ends, its key, and whether it stays.
fn keep_beside<P: Drop, A: Allocator, F, R: Asker<P, F>>(
    nodes: &mut Nodes<P>,
    supply: &mut Supply<A>,
    count: &mut u128,
    spot: LinkEnd,
    trail: &[usize; 8],
    key: [u8; 8],
    start: u64,
    f: &mut F,
) -> (LinkEnd, [u8; 8], bool)
    requires at { IsAtPair nodes.old.table (name_of (slice_index trail.now 0)) supply.old.forms
        count.old key (map name_of trail.now) spot }
    requires from { start ≤ from_be_bytes w64 key }
    requires first { HasNoneAfter (tree_pairs nodes.old.table (name_of (slice_index trail.now 0)))
        start (from_be_bytes w64 key) }
    requires ready { R.ready f.old }
    ensures at { IsAtPair nodes.new.table (name_of (slice_index trail.now 0)) supply.new.forms
        count.new result.1 (map name_of trail.now) result.0 }
    ensures asks { let now = tree_pairs nodes.new.table (name_of (slice_index trail.now 0)) in
        (f' : F) (first : Pairs P)
        → Asking R.step f' first f.old
        (tree_pairs nodes.old.table (name_of (slice_index trail.now 0))) start
        → Asking R.step f' first f.new
        (if result.2 then now else without now (from_be_bytes w64 result.1))
        (from_be_bytes w64 result.1 + 1) }
    ensures forward { from_be_bytes w64 key ≤ from_be_bytes w64 result.1 }
    ensures alike { Alike A.charge supply.old supply.new }
    ensures ready { R.ready f.new }
{
    let mut spot = spot;
    let mut last = key;
    'run: loop {
        let Some(payload) = current(nodes, &spot, &last) else {
            unreachable!()
        };
        let number = u64::from_be_bytes(last);
        let stays = R::ask(f, number, payload);
        let LinkStop::Leaf(byte) = spot.stop else {
            return (spot, last, stays);
        };
        let Some(next) = byte_after(nodes, spot.slot, byte) else {
            return (spot, last, stays);
        };
        go_on(nodes, supply, count, &spot, trail, &last, byte, next, stays);
        last[7] = next;
        spot.stop = LinkStop::Leaf(next);
    }
}

// Takes the key's pair out of a whole tree, unless it stays.
#[inline(always)]
fn finish<P: Drop, A: Allocator>(
    nodes: &mut Nodes<P>,
    supply: &mut Supply<A>,
    count: &mut u128,
    spot: &LinkEnd,
    trail: &[usize; 8],
    key: &[u8; 8],
    stays: bool,
)
    requires { IsAtPair nodes.old.table (name_of (slice_index trail.now 0)) supply.old.forms
        count.old key.now (map name_of trail.now) spot.now }
    ensures whole { IsWhole nodes.new.table (name_of (slice_index trail.now 0)) supply.new.forms
        count.new }
    ensures pairs { let before = tree_pairs nodes.old.table (name_of (slice_index trail.now 0)) in
        tree_pairs nodes.new.table (name_of (slice_index trail.now 0))
        ≡ (if stays then before else without before (from_be_bytes w64 key.now)) }
    ensures alike { Alike A.charge supply.old supply.new }
{
    if !stays {
        let Some(_) = take_out(nodes, supply, spot, trail, key, true) else {
            unreachable!()
        };
        *count -= 1;
    }
}

impl<P: Drop, A: Allocator> Tree<P, A> {
    /// Asks about the pair at the key, and then about those that follow it in its leaf, and removes those that aren't to
    /// stay, as `remove` does. Returns the key of the last. Never fails. Reads one path for all of them.
    pub fn keep_run<L: Ledger, F, R: Asker<P, F>>(
        &mut self,
        start: u64,
        key: u64,
        f: &mut F,
        reads: &mut ReadCount<L>,
    ) -> u64
        requires from { start ≤ key }
        requires there { IsSome (lookup self.old.pairs key) }
        requires first { HasNoneAfter self.old.pairs start key }
        requires ready { R.ready f.old }
        ensures asks { (f' : F) (first : Pairs P)
            → Asking R.step f' first f.old self.old.pairs start
            → Asking R.step f' first f.new self.new.pairs (result + 1) }
        ensures forward { key ≤ result }
        ensures charge { ChargesForNodes A.charge self.old self.new }
        ensures ready { R.ready f.new }
    {
        let bytes = key.to_be_bytes();
        let mut trail = [self.root; 8];
        let spot = self.nodes.seek_along(self.root, &bytes, reads, &mut trail);
        let Some(_) = current(&self.nodes, &spot, &bytes) else {
            unreachable!()
        };
        let (spot, last, stays) = keep_beside::<P, A, F, R>(
            &mut self.nodes,
            &mut self.supply,
            &mut self.count,
            spot,
            &trail,
            bytes,
            start,
            f,
        );
        finish(
            &mut self.nodes,
            &mut self.supply,
            &mut self.count,
            &spot,
            &trail,
            &last,
            stays,
        );
        self.release_slots(true);
        u64::from_be_bytes(last)
    }
}
