//! The next event of a cleanup at its node.
//!
//! Tested in `tools/dev/try-schedules` and `test_olc/cleanup_owners`.

ghost use Rattle.std.specs.Prelude.{◌≡◌};
ghost use Rattle.spec_olc.specs.declared.types.Env.{Env};
ghost use Rattle.olc_state.specs.inner.Stocks.{IsStoreSound};
ghost use Rattle.olc_tidy.specs.inner.Tidying.{KnowsTidy, TidyMoves};

use crate::copying::make_smaller;
use crate::putting::{put_smaller, take_away};
use crate::upgrading::{unlock_below, upgrade_above, upgrade_below};
use node_table::allocator::Allocator;
use olc_state::cleanup::{Cleanup, Tidy};
use olc_state::stage::Task;
use olc_state::stepped::Stepped;
use olc_state::stock::Stock;
use spec_olc::payload::HasMeaning;

/// Makes the next event of a cleanup at its node. `fail` lets an upgrade fail.
pub fn tidy_on<P: HasMeaning, A: Allocator>(
    stock: &mut Stock<P, A>,
    pin: u64,
    task: &mut Task<P>,
    cleanup: Cleanup,
    tidy: Tidy,
    fail: bool,
) -> Stepped<P>
    requires kept { IsStoreSound P.meaning A.charge stock.old }
    requires facts { KnowsTidy P.meaning A.charge P.always_shared P.same_meaning
        stock.old pin task.old cleanup tidy }
    ensures moves { (env : Env P) → env.fail ≡ fail → TidyMoves P.meaning A.charge P.always_shared
        P.same_meaning stock.old stock.new pin task.old cleanup tidy env
        (record { stage = result.stage; task = task.new }) result.report result.outcome }
{
    match tidy {
        Tidy::UpgradeAbove(pair) => upgrade_above(stock, pin, task, cleanup, pair, fail),
        Tidy::UpgradeBelow(pair) => upgrade_below(stock, pin, task, cleanup, pair, fail),
        Tidy::TakeAway(pair) => take_away(stock, pin, task, cleanup, pair),
        Tidy::MakeSmaller(pair) => make_smaller(stock, pin, task, cleanup, pair),
        Tidy::PutSmaller(pair, copy) => put_smaller(stock, pin, task, cleanup, pair, copy),
        Tidy::UnlockBelow(pair) => unlock_below(stock, pin, task, cleanup, pair),
    }
}
