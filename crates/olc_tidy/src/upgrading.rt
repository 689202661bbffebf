//! Upgrades of a cleanup: the parent is locked, then the node, and what is due is read off the node that is held.
//!
//! Tested in `tools/dev/try-schedules` and `test_olc/cleanup_owners`.

ghost use Rattle.std.specs.Prelude.{◌≡◌};
ghost use Rattle.spec_olc.specs.declared.types.Env.{Env};
ghost use Rattle.olc_state.specs.inner.Stocks.{IsStoreSound};
ghost use Rattle.olc_tidy.specs.inner.Tidying.{IsDueAs, KnowsTidy, TidyMoves};

use node_table::allocator::Allocator;
use node_table::tree_node::TreeNode;
use olc_state::cleanup::{Cleanup, Tidy};
use olc_state::stage::{Stage, Task};
use olc_state::stepped::{Stepped, forgets, going, node_at, report};
use olc_state::stock::Stock;
use olc_state::tail::{NodePair, Tail};
use olc_write::freeing::unlock_node;
use olc_write::locking::lock;
use spec_olc::payload::HasMeaning;
use spec_olc::types::Kind;

/// Locks the parent; else the call ends.
pub(crate) fn upgrade_above<P: HasMeaning, A: Allocator>(
    stock: &mut Stock<P, A>,
    pin: u64,
    task: &mut Task<P>,
    cleanup: Cleanup,
    pair: NodePair,
    fail: bool,
) -> Stepped<P>
    requires kept { IsStoreSound P.meaning A.charge stock.old }
    requires facts { KnowsTidy P.meaning A.charge P.always_shared P.same_meaning
        stock.old pin task.old cleanup (Tidy.UpgradeAbove pair) }
    ensures moves { (env : Env P) → env.fail ≡ fail → TidyMoves P.meaning A.charge P.always_shared
        P.same_meaning stock.old stock.new pin task.old cleanup (Tidy.UpgradeAbove pair) env
        (record { stage = result.stage; task = task.new }) result.report result.outcome }
{
    let spot = pair.above;
    if lock(&mut stock.store, spot, fail) {
        let report = report(Kind::Upgrade, spot.slot, 0, true);
        going(Stage::Tidy(cleanup, Tidy::UpgradeBelow(pair)), report)
    } else {
        forgets(
            task,
            Stage::Finish,
            report(Kind::Upgrade, spot.slot, 0, false),
        )
    }
}

/// Locks the node, with the parent held; else the parent is unlocked, and the call ends.
pub(crate) fn upgrade_below<P: HasMeaning, A: Allocator>(
    stock: &mut Stock<P, A>,
    pin: u64,
    task: &mut Task<P>,
    cleanup: Cleanup,
    pair: NodePair,
    fail: bool,
) -> Stepped<P>
    requires kept { IsStoreSound P.meaning A.charge stock.old }
    requires facts { KnowsTidy P.meaning A.charge P.always_shared P.same_meaning
        stock.old pin task.old cleanup (Tidy.UpgradeBelow pair) }
    ensures moves { (env : Env P) → env.fail ≡ fail → TidyMoves P.meaning A.charge P.always_shared
        P.same_meaning stock.old stock.new pin task.old cleanup (Tidy.UpgradeBelow pair) env
        (record { stage = result.stage; task = task.new }) result.report result.outcome }
{
    let spot = pair.here;
    let next = due_at(&node_at(&stock.store, spot.slot).node, pair);
    if lock(&mut stock.store, spot, fail) {
        going(
            Stage::Tidy(cleanup, next),
            report(Kind::Upgrade, spot.slot, 0, true),
        )
    } else {
        let report = report(Kind::Upgrade, spot.slot, 0, false);
        forgets(task, Stage::Tail(Tail::Unlock(pair.above, None)), report)
    }
}

// What is due at a node.
fn due_at<P: Drop>(node: &TreeNode<P>, pair: NodePair) -> Tidy
    ensures { IsDueAs node.now pair result }
{
    if node.base().value_count() == 0 {
        Tidy::TakeAway(pair)
    } else if node.is_due() {
        Tidy::MakeSmaller(pair)
    } else {
        Tidy::UnlockBelow(pair)
    }
}

/// Unlocks the node, for which nothing is due, with the parent held.
pub(crate) fn unlock_below<P: HasMeaning, A: Allocator>(
    stock: &mut Stock<P, A>,
    pin: u64,
    task: &mut Task<P>,
    cleanup: Cleanup,
    pair: NodePair,
) -> Stepped<P>
    requires kept { IsStoreSound P.meaning A.charge stock.old }
    requires facts { KnowsTidy P.meaning A.charge P.always_shared P.same_meaning
        stock.old pin task.old cleanup (Tidy.UnlockBelow pair) }
    ensures moves { (env : Env P) → TidyMoves P.meaning A.charge P.always_shared
        P.same_meaning stock.old stock.new pin task.old cleanup (Tidy.UnlockBelow pair) env
        (record { stage = result.stage; task = task.new }) result.report result.outcome }
{
    unlock_node(&mut stock.store, pair.here);
    let report = report(Kind::Unlock, pair.here.slot, 0, true);
    going(Stage::Tail(Tail::Unlock(pair.above, None)), report)
}
