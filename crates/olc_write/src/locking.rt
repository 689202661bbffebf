//! Upgrades: a call locks the node that it will change, and first the parent where that changes.
//!
//! Tested in `tools/dev/try-schedules` and `test_olc/refusals`.

ghost use Rattle.std.specs.Prelude.{◌≡◌, ◌+◌, ◌↔◌, true, false, Some, IsTrue, IfSome, IsSome};
ghost use Rattle.spec_olc.specs.declared.types.Env.{Env};
ghost use Rattle.olc_state.specs.inner.Facts.{stored_sizes};
ghost use Rattle.olc_state.specs.inner.Meant.{meant_table};
ghost use Rattle.olc_state.specs.inner.Slots.{SetsNode};
ghost use Rattle.olc_state.specs.inner.Stocks.{IsStoreSound, KnowsAt, MovesBy};
ghost use Rattle.olc_state.specs.inner.World.{PlacedNode};
ghost use Rattle.spec_olc.specs.Lock.{MayUpgrade};

use node_table::allocator::Allocator;
use olc_state::stage::{Path, Spot, Stage, Stored, Task};
use olc_state::stepped::{Stepped, back, going, node_at, report};
use olc_state::stock::Stock;
use olc_state::store::Store;
use olc_state::tail::{Large, NodePair, Small, Tail};
use olc_words::lock::Word64;
use spec_olc::payload::HasMeaning;
use spec_olc::types::Kind;

// A node's locked word, if its word is the remembered one and may be locked, unless `fail` is set.
fn locked<P>(node: &Stored<P>, spot: Spot, fail: bool) -> Option<Word64>
    ensures word { IfSome result (λ w. w ≡ node.now.word + 2) }
    ensures exactly { IsSome result ↔ (MayUpgrade node.now.word spot.word × (fail ≡ false)) }
{
    if fail {
        None
    } else {
        node.word.upgraded(Word64::from_number(spot.word))
    }
}

/// Locks a node, and returns whether it did.
pub fn lock<P: HasMeaning>(store: &mut Store<P>, spot: Spot, fail: bool) -> bool
    requires there { IsSome (meant_table P.meaning store.old spot.slot) }
    ensures exactly { (a : PlacedNode P.Meaning) → meant_table P.meaning store.old spot.slot ≡ Some a
        → IsTrue result ↔ (MayUpgrade a.word spot.word × (fail ≡ false)) }
    ensures sets { (a : PlacedNode P.Meaning) → meant_table P.meaning store.old spot.slot ≡ Some a
        → IsTrue result → SetsNode P.meaning store.old store.new spot.slot
        (Some (record a { word = a.word + 2 })) }
    ensures sizes { stored_sizes store.new.nodes.slots ≡ stored_sizes store.old.nodes.slots }
    ensures lives { store.new.pins ≡ store.old.pins }
    ensures rest { result ≡ false → store.new ≡ store.old }
{
    match locked(node_at(store, spot.slot), spot, fail) {
        None => false,
        Some(word) => {
            store.set_word(spot.slot, word);
            true
        }
    }
}

/// Locks the node, if its word is still the remembered one; else the call goes back to the root.
pub(crate) fn upgrade<P: HasMeaning, A: Allocator>(
    stock: &mut Stock<P, A>,
    pin: u64,
    task: &mut Task<P>,
    path: Path,
    small: Small,
    fail: bool,
) -> Stepped<P>
    requires kept { IsStoreSound P.meaning A.charge stock.old }
    requires facts { KnowsAt P.meaning A.charge P.always_shared P.same_meaning
        stock.old pin task.old (Tail.Upgrade path small) }
    ensures moves { (env : Env P) → env.fail ≡ fail → MovesBy P.meaning A.charge P.always_shared
        P.same_meaning stock.old stock.new pin task.old (Tail.Upgrade path small) env
        (record { stage = result.stage; task = task.new }) result.report result.outcome }
{
    let spot = path.here;
    if lock(&mut stock.store, spot, fail) {
        let next = match small {
            Small::Entry => Tail::Write(spot),
            Small::Leaf => Tail::MakeLeaf(spot),
        };
        going(Stage::Tail(next), report(Kind::Upgrade, spot.slot, 0, true))
    } else {
        back(task, report(Kind::Upgrade, spot.slot, 0, false))
    }
}

/// Locks the parent; else the call goes back to the root.
pub(crate) fn upgrade_above<P: HasMeaning, A: Allocator>(
    stock: &mut Stock<P, A>,
    pin: u64,
    task: &mut Task<P>,
    pair: NodePair,
    large: Large,
    fail: bool,
) -> Stepped<P>
    requires kept { IsStoreSound P.meaning A.charge stock.old }
    requires facts { KnowsAt P.meaning A.charge P.always_shared P.same_meaning
        stock.old pin task.old (Tail.UpgradeAbove pair large) }
    ensures moves { (env : Env P) → env.fail ≡ fail → MovesBy P.meaning A.charge P.always_shared
        P.same_meaning stock.old stock.new pin task.old (Tail.UpgradeAbove pair large) env
        (record { stage = result.stage; task = task.new }) result.report result.outcome }
{
    let spot = pair.above;
    if lock(&mut stock.store, spot, fail) {
        let report = report(Kind::Upgrade, spot.slot, 0, true);
        going(Stage::Tail(Tail::UpgradeBelow(pair, large)), report)
    } else {
        back(task, report(Kind::Upgrade, spot.slot, 0, false))
    }
}

/// Locks the node, with the parent held; else the parent is unlocked next, and the call goes back.
pub(crate) fn upgrade_below<P: HasMeaning, A: Allocator>(
    stock: &mut Stock<P, A>,
    pin: u64,
    task: &mut Task<P>,
    pair: NodePair,
    large: Large,
    fail: bool,
) -> Stepped<P>
    requires kept { IsStoreSound P.meaning A.charge stock.old }
    requires facts { KnowsAt P.meaning A.charge P.always_shared P.same_meaning
        stock.old pin task.old (Tail.UpgradeBelow pair large) }
    ensures moves { (env : Env P) → env.fail ≡ fail → MovesBy P.meaning A.charge P.always_shared
        P.same_meaning stock.old stock.new pin task.old (Tail.UpgradeBelow pair large) env
        (record { stage = result.stage; task = task.new }) result.report result.outcome }
{
    let spot = pair.here;
    if lock(&mut stock.store, spot, fail) {
        let next = match large {
            Large::GrowLeaf => Tail::Grow(pair, None),
            Large::GrowInner | Large::Split => Tail::MakeLeafBelow(pair, large),
            Large::Detach => Tail::Detach(pair),
        };
        going(Stage::Tail(next), report(Kind::Upgrade, spot.slot, 0, true))
    } else {
        let report = report(Kind::Upgrade, spot.slot, 0, false);
        going(Stage::Tail(Tail::Unlock(pair.above, None)), report)
    }
}
