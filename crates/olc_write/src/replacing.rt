//! Writes at the parent of the call's node: a larger copy in its place, or a node put between.
//!
//! Tested in `tools/dev/try-schedules` and `test_olc/refusals`.

ghost use Rattle.std.specs.Prelude.{◌≡◌, ◌≤◌, ◌^◌, ℕ, ◌∷◌, Some};
ghost use Rattle.spec_olc.specs.declared.types.Env.{Env};
ghost use Rattle.olc_state.specs.inner.Facts.{stored_sizes};
ghost use Rattle.olc_state.specs.inner.Meant.{meant_table};
ghost use Rattle.olc_state.specs.inner.Stocks.{CountsEntries, IsStoreSound, KnowsAt, MovesBy};
ghost use Rattle.olc_state.specs.inner.Tables.{IsIn};
ghost use Rattle.olc_state.specs.inner.Tails.{one_more};
ghost use Rattle.olc_state.specs.inner.World.{PlacedNode, is_linked};

use crate::linking::byte_below;
use node_table::allocator::Allocator;
use olc_state::stage::{Stage, Task};
use olc_state::stepped::{Stepped, changed, report};
use olc_state::stock::Stock;
use olc_state::store::Store;
use olc_state::tail::{NodePair, Tail};
use spec_node::child::Child;
use spec_olc::payload::HasMeaning;
use spec_olc::types::Kind;

/// Puts the copy in the node's place, which decides the call.
pub(crate) fn replace<P: HasMeaning, A: Allocator>(
    stock: &mut Stock<P, A>,
    pin: u64,
    task: &mut Task<P>,
    pair: NodePair,
    copy: usize,
    leaf: Option<usize>,
) -> Stepped<P>
    requires kept { IsStoreSound P.meaning A.charge stock.old }
    requires facts { KnowsAt P.meaning A.charge P.always_shared P.same_meaning
        stock.old pin task.old (Tail.Replace pair copy leaf) }
    requires counted { CountsEntries P.meaning A.charge stock.old }
    ensures moves { (env : Env P) → MovesBy P.meaning A.charge P.always_shared
        P.same_meaning stock.old stock.new pin task.old (Tail.Replace pair copy leaf) env
        (record { stage = result.stage; task = task.new }) result.report result.outcome }
{
    let slot = pair.above.slot;
    let byte = byte_below(&stock.store, slot, task.outline.key());
    link_new(&mut stock.store, copy, leaf);
    stock.store.put_child(slot, byte, Child::Node(copy));
    stock.store.detach(pair.here.slot);
    stock.entries += 1;
    let report = report(Kind::Write, slot, 0, true);
    changed(task, Stage::Tail(Tail::Obsolete(pair, None)), report, None)
}

/// Puts the middle node between, which decides the call.
pub(crate) fn insert<P: HasMeaning, A: Allocator>(
    stock: &mut Stock<P, A>,
    pin: u64,
    task: &mut Task<P>,
    pair: NodePair,
    middle: usize,
    leaf: usize,
) -> Stepped<P>
    requires kept { IsStoreSound P.meaning A.charge stock.old }
    requires facts { KnowsAt P.meaning A.charge P.always_shared P.same_meaning
        stock.old pin task.old (Tail.Insert pair middle leaf) }
    requires counted { CountsEntries P.meaning A.charge stock.old }
    ensures moves { (env : Env P) → MovesBy P.meaning A.charge P.always_shared
        P.same_meaning stock.old stock.new pin task.old (Tail.Insert pair middle leaf) env
        (record { stage = result.stage; task = task.new }) result.report result.outcome }
{
    let slot = pair.above.slot;
    let byte = byte_below(&stock.store, slot, task.outline.key());
    link_new(&mut stock.store, middle, Some(leaf));
    stock.store.put_child(slot, byte, Child::Node(middle));
    stock.entries += 1;
    let report = report(Kind::Write, slot, 0, true);
    changed(task, Stage::Tail(Tail::UnlockBelow(pair)), report, None)
}

// Marks the call's new node as linked, and its new leaf if there is one.
fn link_new<P: HasMeaning>(store: &mut Store<P>, node: usize, leaf: Option<usize>)
    requires { (s : ℕ) → IsIn s (node ∷ one_more leaf)
        → (a : PlacedNode P.Meaning) × (meant_table P.meaning store.old s ≡ Some a) }
    ensures linked { (s : ℕ) (a : PlacedNode P.Meaning) → IsIn s (node ∷ one_more leaf)
        → meant_table P.meaning store.old s ≡ Some a
        → meant_table P.meaning store.new s ≡ Some (record a { lifetime = is_linked }) }
    ensures others { (s : ℕ) → (IsIn s (node ∷ one_more leaf) → ⊥)
        → meant_table P.meaning store.new s ≡ meant_table P.meaning store.old s }
    ensures sizes { stored_sizes store.new.nodes.slots ≡ stored_sizes store.old.nodes.slots }
    ensures root { store.new.root ≡ store.old.root }
    ensures lives { store.new.pins ≡ store.old.pins }
{
    store.publish(node);
    if let Some(leaf) = leaf {
        store.publish(leaf);
    }
}
