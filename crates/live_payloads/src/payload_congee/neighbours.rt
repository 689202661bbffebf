//! The first pair and the last, those next to a key, and pops, while others write.
//!
//! A search begins with an entry of its own in the history of tickets. Where the ticket that it found is retired by then, the call
//! searches again.
//!
//! Tested in `test_live_payloads`.
ghost use Rattle.std.specs.Prelude.{◌≡◌, ◌+◌, ◌≤◌, ◌^◌, true, false, IfOk, IfSome, IfNone, OnErr};
ghost use Rattle.live_scans.specs.Scans.{GaveUp};
ghost use Rattle.live_payloads.specs.Payloads.{IsGuardOf, KnowsMore};
ghost use Rattle.live_payloads.specs.Tries.{Tried, HasNeighbour, MissedNeighbour, FindsNeighbour};

use super::PayloadCongee;
use crate::guard::PayloadGuard;
use crossbeam_utils::Backoff;
use live_growth::map::{Busy, TRIES};
use live_scans::{floors, scans};
use spec_map::traits::Word;
use std::sync::Wait;
use word_slots::lent::Lent;

impl<K: Word, P: Drop> PayloadCongee<K, P> {
    // The key and the ticket of the first pair with a key from `from` on, or, downwards, of the last one below it.
    fn search(
        &self,
        guard: &mut PayloadGuard<P>,
        up: bool,
        from: u128,
    ) -> Result<Option<(u64, u64)>, Busy>
        requires map { IsGuardOf self.now guard.old }
        requires from { from ≤ 2 ^ 64 }
        ensures map { KnowsMore guard.old guard.new }
        ensures found { IfOk result (λ pair.
            HasNeighbour up from guard.old.tickets pair guard.new.tickets) }
        ensures busy { OnErr result (GaveUp guard.old.tickets guard.new.tickets) }
    {
        let map = &self.pool.map;
        if up {
            if from > u64::MAX as u128 {
                return scans::above(map, &mut guard.guard, u64::MAX);
            }
            return scans::ceiling(map, &mut guard.guard, from as u64);
        }
        if from == 0 {
            return floors::below(map, &mut guard.guard, 0);
        }
        floors::floor(map, &mut guard.guard, (from - 1) as u64)
    }

    // One search. `None` where the ticket that it found is retired by then.
    fn find_once(
        &self,
        guard: &mut PayloadGuard<P>,
        up: bool,
        from: u128,
    ) -> Result<Option<Option<(K, Lent<'_, P>)>>, Busy>
        requires map { IsGuardOf self.now guard.old }
        requires from { from ≤ 2 ^ 64 }
        ensures map { KnowsMore guard.old guard.new }
        ensures found { IfOk result (λ tried. IfSome tried (λ found.
            FindsNeighbour K.of_number up from guard.old found guard.new)) }
        ensures table { IfOk result (λ tried. IfSome tried (λ found.
            IfSome found (λ both. both.1.table ≡ self.now.table))) }
        ensures missed { IfOk result (λ tried. IfNone tried
            (MissedNeighbour up from guard.old.tickets guard.new.tickets)) }
        ensures busy { OnErr result (MissedNeighbour up from guard.old.tickets guard.new.tickets) }
    {
        let Some((number, ticket)) = self.search(guard, up, from)? else {
            return Ok(Some(None));
        };
        match self.lend(guard, ticket) {
            Some(lent) => Ok(Some(Some((K::from_u64(number), lent)))),
            None => Ok(None),
        }
    }

    // The first pair with a key from `from` on, or, downwards, the last one below it.
    fn try_find(
        &self,
        guard: &mut PayloadGuard<P>,
        up: bool,
        from: u128,
    ) -> Result<Option<(K, Lent<'_, P>)>, Busy>
        requires map { IsGuardOf self.now guard.old }
        requires from { from ≤ 2 ^ 64 }
        ensures map { KnowsMore guard.old guard.new }
        ensures found { IfOk result (λ found.
            FindsNeighbour K.of_number up from guard.old found guard.new) }
        ensures table { IfOk result (λ found.
            IfSome found (λ both. both.1.table ≡ self.now.table)) }
        ensures busy { OnErr result (Tried (MissedNeighbour up from)
            guard.old.tickets guard.new.tickets) }
    {
        for _ in 0..TRIES {
            if let Some(found) = self.find_once(guard, up, from)? {
                return Ok(found);
            }
        }
        Err(Busy)
    }

    // The first pair with a key from `from` on, or, downwards, the last one below it. Pauses where `try_find` is busy, and goes on.
    fn find<R: Wait>(
        &self,
        rt: &R,
        guard: &mut PayloadGuard<P>,
        up: bool,
        from: u128,
    ) -> Option<(K, Lent<'_, P>)>
        requires map { IsGuardOf self.now guard.old }
        requires from { from ≤ 2 ^ 64 }
        ensures map { KnowsMore guard.old guard.new }
        ensures found { FindsNeighbour K.of_number up from guard.old result guard.new }
        ensures table { IfSome result (λ both. both.1.table ≡ self.now.table) }
    {
        let pause = Backoff::new();
        for _ in rt.forever() {
            if let Ok(found) = self.try_find(guard, up, from) {
                return found;
            }
            pause.snooze();
        }
        unreachable!()
    }

    /// The pair with the least key, by numbers, that is at least this one: its key, and its payload, lent. `Busy` if too many writers came in
    /// between.
    pub fn try_ceiling(
        &self,
        guard: &mut PayloadGuard<P>,
        key: &K,
    ) -> Result<Option<(K, Lent<'_, P>)>, Busy>
        requires map { IsGuardOf self.now guard.old }
        ensures map { KnowsMore guard.old guard.new }
        ensures found { IfOk result (λ found.
            FindsNeighbour K.of_number true (K.number key.now) guard.old found guard.new) }
        ensures table { IfOk result (λ found.
            IfSome found (λ both. both.1.table ≡ self.now.table)) }
        ensures busy { OnErr result (Tried (MissedNeighbour true (K.number key.now))
            guard.old.tickets guard.new.tickets) }
    {
        self.try_find(guard, true, key.into_u64() as u128)
    }

    /// The pair with the least key, by numbers, that is at least this one: its key, and its payload, lent. Pauses where `try_ceiling` is busy, and goes on.
    pub fn ceiling<R: Wait>(
        &self,
        rt: &R,
        guard: &mut PayloadGuard<P>,
        key: &K,
    ) -> Option<(K, Lent<'_, P>)>
        requires map { IsGuardOf self.now guard.old }
        ensures map { KnowsMore guard.old guard.new }
        ensures found { FindsNeighbour K.of_number true (K.number key.now)
            guard.old result guard.new }
        ensures table { IfSome result (λ both. both.1.table ≡ self.now.table) }
    {
        self.find(rt, guard, true, key.into_u64() as u128)
    }

    /// The pair with the least key, by numbers, that is above this one: its key, and its payload, lent. `Busy` if too many writers came in
    /// between.
    pub fn try_above(
        &self,
        guard: &mut PayloadGuard<P>,
        key: &K,
    ) -> Result<Option<(K, Lent<'_, P>)>, Busy>
        requires map { IsGuardOf self.now guard.old }
        ensures map { KnowsMore guard.old guard.new }
        ensures found { IfOk result (λ found.
            FindsNeighbour K.of_number true (K.number key.now + 1) guard.old found guard.new) }
        ensures table { IfOk result (λ found.
            IfSome found (λ both. both.1.table ≡ self.now.table)) }
        ensures busy { OnErr result (Tried (MissedNeighbour true (K.number key.now + 1))
            guard.old.tickets guard.new.tickets) }
    {
        self.try_find(guard, true, key.into_u64() as u128 + 1)
    }

    /// The pair with the least key, by numbers, that is above this one: its key, and its payload, lent. Pauses where `try_above` is busy, and goes on.
    pub fn above<R: Wait>(
        &self,
        rt: &R,
        guard: &mut PayloadGuard<P>,
        key: &K,
    ) -> Option<(K, Lent<'_, P>)>
        requires map { IsGuardOf self.now guard.old }
        ensures map { KnowsMore guard.old guard.new }
        ensures found { FindsNeighbour K.of_number true (K.number key.now + 1)
            guard.old result guard.new }
        ensures table { IfSome result (λ both. both.1.table ≡ self.now.table) }
    {
        self.find(rt, guard, true, key.into_u64() as u128 + 1)
    }

    /// The pair with the greatest key, by numbers, that is at most this one: its key, and its payload, lent. `Busy` if too many writers came in
    /// between.
    pub fn try_floor(
        &self,
        guard: &mut PayloadGuard<P>,
        key: &K,
    ) -> Result<Option<(K, Lent<'_, P>)>, Busy>
        requires map { IsGuardOf self.now guard.old }
        ensures map { KnowsMore guard.old guard.new }
        ensures found { IfOk result (λ found.
            FindsNeighbour K.of_number false (K.number key.now + 1) guard.old found guard.new) }
        ensures table { IfOk result (λ found.
            IfSome found (λ both. both.1.table ≡ self.now.table)) }
        ensures busy { OnErr result (Tried (MissedNeighbour false (K.number key.now + 1))
            guard.old.tickets guard.new.tickets) }
    {
        self.try_find(guard, false, key.into_u64() as u128 + 1)
    }

    /// The pair with the greatest key, by numbers, that is at most this one: its key, and its payload, lent. Pauses where `try_floor` is busy, and goes on.
    pub fn floor<R: Wait>(
        &self,
        rt: &R,
        guard: &mut PayloadGuard<P>,
        key: &K,
    ) -> Option<(K, Lent<'_, P>)>
        requires map { IsGuardOf self.now guard.old }
        ensures map { KnowsMore guard.old guard.new }
        ensures found { FindsNeighbour K.of_number false (K.number key.now + 1)
            guard.old result guard.new }
        ensures table { IfSome result (λ both. both.1.table ≡ self.now.table) }
    {
        self.find(rt, guard, false, key.into_u64() as u128 + 1)
    }

    /// The pair with the greatest key, by numbers, that is below this one: its key, and its payload, lent. `Busy` if too many writers came in
    /// between.
    pub fn try_below(
        &self,
        guard: &mut PayloadGuard<P>,
        key: &K,
    ) -> Result<Option<(K, Lent<'_, P>)>, Busy>
        requires map { IsGuardOf self.now guard.old }
        ensures map { KnowsMore guard.old guard.new }
        ensures found { IfOk result (λ found.
            FindsNeighbour K.of_number false (K.number key.now) guard.old found guard.new) }
        ensures table { IfOk result (λ found.
            IfSome found (λ both. both.1.table ≡ self.now.table)) }
        ensures busy { OnErr result (Tried (MissedNeighbour false (K.number key.now))
            guard.old.tickets guard.new.tickets) }
    {
        self.try_find(guard, false, key.into_u64() as u128)
    }

    /// The pair with the greatest key, by numbers, that is below this one: its key, and its payload, lent. Pauses where `try_below` is busy, and goes on.
    pub fn below<R: Wait>(
        &self,
        rt: &R,
        guard: &mut PayloadGuard<P>,
        key: &K,
    ) -> Option<(K, Lent<'_, P>)>
        requires map { IsGuardOf self.now guard.old }
        ensures map { KnowsMore guard.old guard.new }
        ensures found { FindsNeighbour K.of_number false (K.number key.now)
            guard.old result guard.new }
        ensures table { IfSome result (λ both. both.1.table ≡ self.now.table) }
    {
        self.find(rt, guard, false, key.into_u64() as u128)
    }

    /// The pair with the least key, by numbers: its key, and its payload, lent. `Busy` if too many writers came in
    /// between.
    pub fn try_first(&self, guard: &mut PayloadGuard<P>) -> Result<Option<(K, Lent<'_, P>)>, Busy>
        requires map { IsGuardOf self.now guard.old }
        ensures map { KnowsMore guard.old guard.new }
        ensures found { IfOk result (λ found.
            FindsNeighbour K.of_number true 0 guard.old found guard.new) }
        ensures table { IfOk result (λ found.
            IfSome found (λ both. both.1.table ≡ self.now.table)) }
        ensures busy { OnErr result (Tried (MissedNeighbour true 0)
            guard.old.tickets guard.new.tickets) }
    {
        self.try_find(guard, true, 0)
    }

    /// The pair with the least key, by numbers: its key, and its payload, lent. Pauses where `try_first` is busy, and goes on.
    pub fn first<R: Wait>(&self, rt: &R, guard: &mut PayloadGuard<P>) -> Option<(K, Lent<'_, P>)>
        requires map { IsGuardOf self.now guard.old }
        ensures map { KnowsMore guard.old guard.new }
        ensures found { FindsNeighbour K.of_number true 0 guard.old result guard.new }
        ensures table { IfSome result (λ both. both.1.table ≡ self.now.table) }
    {
        self.find(rt, guard, true, 0)
    }

    /// The pair with the greatest key, by numbers: its key, and its payload, lent. `Busy` if too many writers came in
    /// between.
    pub fn try_last(&self, guard: &mut PayloadGuard<P>) -> Result<Option<(K, Lent<'_, P>)>, Busy>
        requires map { IsGuardOf self.now guard.old }
        ensures map { KnowsMore guard.old guard.new }
        ensures found { IfOk result (λ found.
            FindsNeighbour K.of_number false (2 ^ 64) guard.old found guard.new) }
        ensures table { IfOk result (λ found.
            IfSome found (λ both. both.1.table ≡ self.now.table)) }
        ensures busy { OnErr result (Tried (MissedNeighbour false (2 ^ 64))
            guard.old.tickets guard.new.tickets) }
    {
        self.try_find(guard, false, 1 << 64)
    }

    /// The pair with the greatest key, by numbers: its key, and its payload, lent. Pauses where `try_last` is busy, and goes on.
    pub fn last<R: Wait>(&self, rt: &R, guard: &mut PayloadGuard<P>) -> Option<(K, Lent<'_, P>)>
        requires map { IsGuardOf self.now guard.old }
        ensures map { KnowsMore guard.old guard.new }
        ensures found { FindsNeighbour K.of_number false (2 ^ 64) guard.old result guard.new }
        ensures table { IfSome result (λ both. both.1.table ≡ self.now.table) }
    {
        self.find(rt, guard, false, 1 << 64)
    }
}
