//! The ends of a shared map of numbers, the neighbours of a key, and pops: each one hold of the lock, and an entry of the
//! history.
//!
//! Tested in `test_share_ends`.

ghost use Rattle.std.specs.Prelude.{◌≡◌};
ghost use Rattle.spec_map.specs.Call.{nearest, found, first, last};
ghost use Rattle.spec_olc.specs.Runs.{same_number};
ghost use Rattle.share_rule.specs.Known.{MadeCall, MadeCalls};
ghost use Rattle.share_works.specs.Made.{returned};
ghost use Rattle.share_works.specs.Ends.{near_of, popping};

use crate::raw::{Guard, Raw};
use share_backend::ordered::Ordered;
use share_works::ends::{Find, PopFirst, PopLast};
use share_works::hold::hold;
use share_works::near::Near;
use std::sync::Wait;
use std::sync::ledger::Ledger;

impl<L: Ledger, M: Ordered> Raw<L, u64, u64, M> {
    /// The pair there.
    pub fn nearest<R: Wait>(
        &self,
        rt: &R,
        guard: &mut Guard<'_, L, u64, u64, M>,
        near: Near,
    ) -> Option<(u64, u64)>
        requires map { guard.old.table ≡ self.now }
        ensures made { MadeCall same_number guard.old
            (returned (nearest (near_of near)) (found result)) guard.new }
    {
        // (what the checker needs to know of M)
        M::numbers_mean_themselves();
        let mut work = Find { near, pair: None };
        hold(&self.lock, rt, &mut guard.seat, &mut work, &mut []);
        work.pair
    }

    /// Removes the pair with the least key, and returns it.
    pub fn pop_first<R: Wait>(
        &self,
        rt: &R,
        guard: &mut Guard<'_, L, u64, u64, M>,
    ) -> Option<(u64, u64)>
        requires map { guard.old.table ≡ self.now }
        ensures made { MadeCalls same_number guard.old (popping first result) guard.new }
    {
        M::numbers_mean_themselves();
        let mut work = PopFirst { pair: None };
        hold(&self.lock, rt, &mut guard.seat, &mut work, &mut []);
        work.pair
    }

    /// Removes the pair with the greatest key, and returns it.
    pub fn pop_last<R: Wait>(
        &self,
        rt: &R,
        guard: &mut Guard<'_, L, u64, u64, M>,
    ) -> Option<(u64, u64)>
        requires map { guard.old.table ≡ self.now }
        ensures made { MadeCalls same_number guard.old (popping last result) guard.new }
    {
        M::numbers_mean_themselves();
        let mut work = PopLast { pair: None };
        hold(&self.lock, rt, &mut guard.seat, &mut work, &mut []);
        work.pair
    }
}
