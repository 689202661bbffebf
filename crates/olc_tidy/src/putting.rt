//! The Writes of a cleanup, at the parent: the empty node is taken out, or the smaller copy takes the node's place.
//!
//! Tested in `tools/dev/try-schedules` and `test_olc/cleanup_owners`.

ghost use Rattle.std.specs.Prelude.{◌≡◌, Some};
ghost use Rattle.spec_olc.specs.declared.types.Env.{Env};
ghost use Rattle.olc_state.specs.inner.Meant.{meant_table};
ghost use Rattle.olc_state.specs.inner.Stocks.{IsStoreSound};
ghost use Rattle.olc_state.specs.inner.World.{PlacedNode};
ghost use Rattle.olc_tidy.specs.inner.Tidying.{IsLeftAgain, KnowsTidy, TidyMoves};

use node_table::allocator::Allocator;
use olc_state::cleanup::{Cleanup, Tidy};
use olc_state::stage::{Stage, Task};
use olc_state::stepped::{Stepped, going, report};
use olc_state::stock::Stock;
use olc_state::store::Store;
use olc_state::tail::{NodePair, Tail};
use olc_write::leaving::left_at;
use olc_write::linking::byte_below;
use spec_node::child::Child;
use spec_olc::payload::HasMeaning;
use spec_olc::types::Kind;

/// Takes the empty node out of the tree.
pub(crate) fn take_away<P: HasMeaning, A: Allocator>(
    stock: &mut Stock<P, A>,
    pin: u64,
    task: &mut Task<P>,
    cleanup: Cleanup,
    pair: NodePair,
) -> Stepped<P>
    requires kept { IsStoreSound P.meaning A.charge stock.old }
    requires facts { KnowsTidy P.meaning A.charge P.always_shared P.same_meaning
        stock.old pin task.old cleanup (Tidy.TakeAway pair) }
    ensures moves { (env : Env P) → TidyMoves P.meaning A.charge P.always_shared
        P.same_meaning stock.old stock.new pin task.old cleanup (Tidy.TakeAway pair) env
        (record { stage = result.stage; task = task.new }) result.report result.outcome }
{
    let slot = pair.above.slot;
    let byte = byte_below(&stock.store, slot, task.outline.key());
    stock.store.take_child(slot, byte);
    stock.store.detach(pair.here.slot);
    let left = left_again(&stock.store, slot, cleanup);
    let report = report(Kind::Write, slot, 0, true);
    going(Stage::Tail(Tail::Obsolete(pair, left)), report)
}

// The second cleanup, for the parent in a slot, if the first may be followed by one.
fn left_again<P: HasMeaning>(store: &Store<P>, slot: usize, first: Cleanup) -> Option<Cleanup>
    requires { (a : PlacedNode P.Meaning) × (meant_table P.meaning store.now slot ≡ Some a) }
    ensures { (a : PlacedNode P.Meaning) → meant_table P.meaning store.now slot ≡ Some a
        → IsLeftAgain first.again a.node result }
{
    if first.again {
        left_at(store, slot, false)
    } else {
        None
    }
}

/// Puts the smaller copy in the node's place.
pub(crate) fn put_smaller<P: HasMeaning, A: Allocator>(
    stock: &mut Stock<P, A>,
    pin: u64,
    task: &mut Task<P>,
    cleanup: Cleanup,
    pair: NodePair,
    copy: usize,
) -> Stepped<P>
    requires kept { IsStoreSound P.meaning A.charge stock.old }
    requires facts { KnowsTidy P.meaning A.charge P.always_shared P.same_meaning
        stock.old pin task.old cleanup (Tidy.PutSmaller pair copy) }
    ensures moves { (env : Env P) → TidyMoves P.meaning A.charge P.always_shared
        P.same_meaning stock.old stock.new pin task.old cleanup (Tidy.PutSmaller pair copy) env
        (record { stage = result.stage; task = task.new }) result.report result.outcome }
{
    let slot = pair.above.slot;
    let byte = byte_below(&stock.store, slot, task.outline.key());
    stock.store.publish(copy);
    stock.store.put_child(slot, byte, Child::Node(copy));
    stock.store.detach(pair.here.slot);
    let report = report(Kind::Write, slot, 0, true);
    going(Stage::Tail(Tail::Obsolete(pair, None)), report)
}
