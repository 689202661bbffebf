//! Unlocks, and the end of a node that is no longer in the tree.
//!
//! Tested in `tools/dev/try-schedules` and `test_olc/refusals`.

ghost use Rattle.std.specs.Prelude.{◌≡◌, ◌+◌, ◌↔◌, Some, IsTrue};
ghost use Rattle.spec_olc.specs.declared.types.Env.{Env};
ghost use Rattle.olc_state.specs.inner.Facts.{stored_sizes};
ghost use Rattle.olc_state.specs.inner.Meant.{meant_table};
ghost use Rattle.olc_state.specs.inner.Slots.{SetsNode};
ghost use Rattle.olc_state.specs.inner.Stocks.{IsStoreSound, KnowsAt, MovesBy};
ghost use Rattle.olc_state.specs.inner.TailFacts.{IsHeld};
ghost use Rattle.olc_state.specs.inner.World.{PlacedNode};

use node_table::allocator::Allocator;
use olc_state::cleanup::{Cleanup, Seek};
use olc_state::stage::{Spot, Stage, Task};
use olc_state::stepped::{Stepped, back, forgets, going, node_at, report};
use olc_state::stock::Stock;
use olc_state::store::Store;
use olc_state::tail::{NodePair, Tail};
use spec_olc::payload::HasMeaning;
use spec_olc::types::{Kind, Progress};

/// Unlocks a held node.
pub fn unlock_node<P: HasMeaning>(store: &mut Store<P>, spot: Spot)
    requires held { IsHeld (meant_table P.meaning store.old) spot }
    ensures sets { (a : PlacedNode P.Meaning) → meant_table P.meaning store.old spot.slot ≡ Some a
        → SetsNode P.meaning store.old store.new spot.slot (Some (record a { word = a.word + 2 })) }
    ensures sizes { stored_sizes store.new.nodes.slots ≡ stored_sizes store.old.nodes.slots }
    ensures lives { store.new.pins ≡ store.old.pins }
{
    let word = node_at(store, spot.slot).word.unlocked();
    store.set_word(spot.slot, word);
}

// Whether a call has no reply yet, and wasn't refused.
fn is_open(progress: Progress) -> bool
    ensures { IsTrue result ↔ (progress ≡ Progress.Open) }
{
    match progress {
        Progress::Open => true,
        Progress::Decided | Progress::Refused => false,
    }
}

/// Unlocks the one node that is held. A call with its reply ends then, or cleans up; one without goes back to the root.
pub(crate) fn unlock<P: HasMeaning, A: Allocator>(
    stock: &mut Stock<P, A>,
    pin: u64,
    task: &mut Task<P>,
    spot: Spot,
    left: Option<Cleanup>,
) -> Stepped<P>
    requires kept { IsStoreSound P.meaning A.charge stock.old }
    requires facts { KnowsAt P.meaning A.charge P.always_shared P.same_meaning
        stock.old pin task.old (Tail.Unlock spot left) }
    ensures moves { (env : Env P) → MovesBy P.meaning A.charge P.always_shared
        P.same_meaning stock.old stock.new pin task.old (Tail.Unlock spot left) env
        (record { stage = result.stage; task = task.new }) result.report result.outcome }
{
    unlock_node(&mut stock.store, spot);
    let report = report(Kind::Unlock, spot.slot, 0, true);
    match left {
        Some(cleanup) => forgets(task, Stage::Seek(cleanup, Seek::TakeRoot), report),
        None => {
            if is_open(task.progress) {
                back(task, report)
            } else {
                going(Stage::Finish, report)
            }
        }
    }
}

/// Unlocks the node, with the parent held.
pub(crate) fn unlock_below<P: HasMeaning, A: Allocator>(
    stock: &mut Stock<P, A>,
    pin: u64,
    task: &mut Task<P>,
    pair: NodePair,
) -> Stepped<P>
    requires kept { IsStoreSound P.meaning A.charge stock.old }
    requires facts { KnowsAt P.meaning A.charge P.always_shared P.same_meaning
        stock.old pin task.old (Tail.UnlockBelow pair) }
    ensures moves { (env : Env P) → MovesBy P.meaning A.charge P.always_shared
        P.same_meaning stock.old stock.new pin task.old (Tail.UnlockBelow pair) env
        (record { stage = result.stage; task = task.new }) result.report result.outcome }
{
    unlock_node(&mut stock.store, pair.here);
    let report = report(Kind::Unlock, pair.here.slot, 0, true);
    going(Stage::Tail(Tail::Unlock(pair.above, None)), report)
}

/// Marks the node obsolete that is no longer in the tree.
pub(crate) fn obsolete<P: HasMeaning, A: Allocator>(
    stock: &mut Stock<P, A>,
    pin: u64,
    task: &mut Task<P>,
    pair: NodePair,
    left: Option<Cleanup>,
) -> Stepped<P>
    requires kept { IsStoreSound P.meaning A.charge stock.old }
    requires facts { KnowsAt P.meaning A.charge P.always_shared P.same_meaning
        stock.old pin task.old (Tail.Obsolete pair left) }
    ensures moves { (env : Env P) → MovesBy P.meaning A.charge P.always_shared
        P.same_meaning stock.old stock.new pin task.old (Tail.Obsolete pair left) env
        (record { stage = result.stage; task = task.new }) result.report result.outcome }
{
    stock.store.retire(pair.here.slot);
    let report = report(Kind::Obsolete, pair.here.slot, 0, true);
    going(Stage::Tail(Tail::Unlock(pair.above, left)), report)
}
