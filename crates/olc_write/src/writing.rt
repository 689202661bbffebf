//! The next event of a call in its tail.
//!
//! Tested in `tools/dev/try-schedules` and `test_olc/refusals`.

ghost use Rattle.std.specs.Prelude.{◌≡◌, ◌≤◌, ◌^◌};
ghost use Rattle.spec_olc.specs.declared.types.Env.{Env};
ghost use Rattle.olc_state.specs.inner.Stocks.{CountsEntries, IsStoreSound, KnowsAt, MovesBy};

use crate::detaching::detach;
use crate::freeing::{obsolete, unlock, unlock_below};
use crate::linking::{link, write};
use crate::locking::{upgrade, upgrade_above, upgrade_below};
use crate::making::{grow, make_leaf, make_leaf_below, make_middle};
use crate::replacing::{insert, replace};
use node_table::allocator::Allocator;
use olc_state::stage::Task;
use olc_state::stepped::Stepped;
use olc_state::stock::Stock;
use olc_state::tail::Tail;
use spec_olc::payload::HasMeaning;

/// Makes the next event of a tail. `fail` lets an upgrade fail.
pub fn write_on<P: HasMeaning, A: Allocator>(
    stock: &mut Stock<P, A>,
    pin: u64,
    task: &mut Task<P>,
    tail: Tail,
    fail: bool,
) -> Stepped<P>
    requires kept { IsStoreSound P.meaning A.charge stock.old }
    requires facts { KnowsAt P.meaning A.charge P.always_shared P.same_meaning
        stock.old pin task.old tail }
    requires counted { CountsEntries P.meaning A.charge stock.old }
    ensures moves { (env : Env P) → env.fail ≡ fail → MovesBy P.meaning A.charge P.always_shared
        P.same_meaning stock.old stock.new pin task.old tail env
        (record { stage = result.stage; task = task.new }) result.report result.outcome }
{
    match tail {
        Tail::Upgrade(path, small) => upgrade(stock, pin, task, path, small, fail),
        Tail::Write(spot) => write(stock, pin, task, spot),
        Tail::MakeLeaf(spot) => make_leaf(stock, pin, task, spot),
        Tail::Link(spot, leaf) => link(stock, pin, task, spot, leaf),
        Tail::Unlock(spot, left) => unlock(stock, pin, task, spot, left),
        Tail::UpgradeAbove(pair, large) => upgrade_above(stock, pin, task, pair, large, fail),
        Tail::UpgradeBelow(pair, large) => upgrade_below(stock, pin, task, pair, large, fail),
        Tail::MakeLeafBelow(pair, large) => make_leaf_below(stock, pin, task, pair, large),
        Tail::Grow(pair, leaf) => grow(stock, pin, task, pair, leaf),
        Tail::MakeMiddle(pair, leaf) => make_middle(stock, pin, task, pair, leaf),
        Tail::Replace(pair, copy, leaf) => replace(stock, pin, task, pair, copy, leaf),
        Tail::Insert(pair, middle, leaf) => insert(stock, pin, task, pair, middle, leaf),
        Tail::Detach(pair) => detach(stock, pin, task, pair),
        Tail::Obsolete(pair, left) => obsolete(stock, pin, task, pair, left),
        Tail::UnlockBelow(pair) => unlock_below(stock, pin, task, pair),
    }
}
