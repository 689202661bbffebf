//! The number of a shared map's pairs by the whole share, as an entry of the history.
//!
//! Tested in `test_share_faces/settled`.

ghost use Rattle.std.specs.Prelude.{◌≡◌, ◌≢◌, ◌^◌, MatchResult};
ghost use Rattle.spec_map.specs.Call.{count, counted};
ghost use Rattle.share_rule.specs.Known.{MadeCall};
ghost use Rattle.share_guards.specs.Operations.{returned};

use crate::raw::{Guard, Raw};
use share_backend::lent::CallStage;
use share_backend::snapshots::Snapshots;
use share_rule::work::Work;
use share_state::share::Share;
use share_state::state::LockedState;
use share_works::hold::hold;
use std::mem;
use std::sync::Wait;
use std::sync::ledger::Ledger;

// A share, and then what came of it.
#[derive(Drop)]
struct Settle<L: Ledger> {
    settled: Result<u128, Share<L>>,
}

impl<L: Ledger, P: Drop, T, M: Snapshots<P, T>> Work<T, CallStage<T>, LockedState<L, P, T, M>, ()>
    for Settle<L> {
    ghost use Rattle.std.specs.Prelude.{IfErr};
    ghost use Rattle.share_guards.specs.inner.Settling.{settling, SettlesTo};

    ghost made = { λ w _. settling w.settled };

    ghost does = { λ old _ _ new _. IfErr old.settled (λ share. SettlesTo share new.settled) };

    fn work(&mut self, value: &mut LockedState<L, P, T, M>, buffer: &mut [()]) {
        let _ = buffer;
        let before = mem::replace(&mut self.settled, Ok(0));
        self.settled = match before {
            Err(share) => value.settle(share),
            Ok(_) => Ok(value.pair_count()),
        };
    }
}

impl<L: Ledger, P: Drop, T, M: Snapshots<P, T>> Raw<L, P, T, M> {
    /// The number of pairs, exactly if the share has the whole weight. Otherwise returns the share, and it is no entry.
    pub fn settle_recorded<R: Wait>(
        &self,
        rt: &R,
        guard: &mut Guard<'_, L, P, T, M>,
        share: Share<L>,
    ) -> Result<u128, Share<L>>
        requires map { guard.old.table ≡ self.now }
        ensures settled { MatchResult result
            (λ n. (share.weight ≡ 2 ^ 63)
            × MadeCall M.same guard.old (returned count (counted n)) guard.new)
            (λ s. (share.weight ≢ 2 ^ 63) × (s ≡ share) × (guard.new ≡ guard.old)) }
    {
        let mut work = Settle {
            settled: Err(share),
        };
        hold(&self.lock, rt, &mut guard.seat, &mut work, &mut []);
        work.settled
    }
}
