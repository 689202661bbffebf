//! The Write that takes a leaf out of the tree whose only payload is removed.
//!
//! Tested in `tools/dev/try-schedules` and `test_olc/refusals`.

ghost use Rattle.std.specs.Prelude.{◌≡◌};
ghost use Rattle.spec_olc.specs.declared.types.Env.{Env};
ghost use Rattle.olc_state.specs.inner.Stocks.{CountsEntries, IsStoreSound, KnowsAt, MovesBy};

use crate::leaving::left_at;
use crate::linking::{byte_below, payload_of};
use node_table::allocator::Allocator;
use olc_state::stage::{Stage, Task};
use olc_state::stepped::{Stepped, changed, report};
use olc_state::stock::Stock;
use olc_state::tail::{NodePair, Tail};
use spec_olc::payload::HasMeaning;
use spec_olc::types::Kind;

/// Takes the leaf from its parent, and the payload out of the leaf, which decides the call.
pub(crate) fn detach<P: HasMeaning, A: Allocator>(
    stock: &mut Stock<P, A>,
    pin: u64,
    task: &mut Task<P>,
    pair: NodePair,
) -> Stepped<P>
    requires kept { IsStoreSound P.meaning A.charge stock.old }
    requires facts { KnowsAt P.meaning A.charge P.always_shared P.same_meaning
        stock.old pin task.old (Tail.Detach pair) }
    requires counted { CountsEntries P.meaning A.charge stock.old }
    ensures moves { (env : Env P) → MovesBy P.meaning A.charge P.always_shared
        P.same_meaning stock.old stock.new pin task.old (Tail.Detach pair) env
        (record { stage = result.stage; task = task.new }) result.report result.outcome }
{
    let (slot, leaf) = (pair.above.slot, pair.here.slot);
    let key = task.outline.key();
    let byte = byte_below(&stock.store, slot, key);
    let last = byte_below(&stock.store, leaf, key);
    stock.store.take_child(slot, byte);
    let before = payload_of(Some(stock.store.take_child(leaf, last)));
    stock.store.detach(leaf);
    stock.entries -= 1;
    let left = left_at(&stock.store, slot, true);
    let report = report(Kind::Write, slot, 0, true);
    changed(
        task,
        Stage::Tail(Tail::Obsolete(pair, left)),
        report,
        before,
    )
}
