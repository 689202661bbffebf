//! How many pairs there are, and whether there are any, read while others write.
ghost use Rattle.std.specs.Prelude.{◌≡◌, IfOk, OnErr};
ghost use Rattle.live_scans.specs.Scans.{GaveUp, Waits};
ghost use Rattle.live_scans.specs.Counts.{HasCounted, HasTested};
ghost use Rattle.live_payloads.specs.Payloads.{IsGuardOf, KnowsMore};

use super::PayloadCongee;
use crate::guard::PayloadGuard;
use crossbeam_utils::Backoff;
use live_growth::map::Busy;
use live_scans::counts;
use spec_map::traits::Word;
use std::sync::Wait;

impl<K: Word, P: Drop> PayloadCongee<K, P> {
    /// How many pairs there are: 2 to the 64 at most. It is exact where nobody writes. Else each key was counted, or wasn't, as
    /// it was at a moment of the call. `Busy` if too many writers came in between.
    pub fn try_value_count(&self, guard: &mut PayloadGuard<P>) -> Result<u128, Busy>
        requires map { IsGuardOf self.now guard.old }
        ensures map { KnowsMore guard.old guard.new }
        ensures counted { IfOk result (λ count. HasCounted guard.old.tickets count guard.new.tickets) }
        ensures busy { OnErr result (GaveUp guard.old.tickets guard.new.tickets) }
    {
        counts::count(&self.pool.map, &mut guard.guard)
    }

    /// How many pairs there are: 2 to the 64 at most. It is exact where nobody writes. Else each key was counted, or wasn't, as
    /// it was at a moment of the call. Pauses where `try_value_count` is busy, and goes on.
    pub fn value_count<R: Wait>(&self, rt: &R, guard: &mut PayloadGuard<P>) -> u128
        requires map { IsGuardOf self.now guard.old }
        ensures map { KnowsMore guard.old guard.new }
        ensures counted { Waits guard.old.tickets (λ k. HasCounted k result guard.new.tickets) }
    {
        let pause = Backoff::new();
        for _ in rt.forever() {
            if let Ok(count) = self.try_value_count(guard) {
                return count;
            }
            pause.snooze();
        }
        unreachable!()
    }

    /// Whether there is no pair, by a look for the first one. `Busy` if too many writers came in between.
    pub fn try_is_empty(&self, guard: &mut PayloadGuard<P>) -> Result<bool, Busy>
        requires map { IsGuardOf self.now guard.old }
        ensures map { KnowsMore guard.old guard.new }
        ensures tested { IfOk result (λ empty. HasTested guard.old.tickets empty guard.new.tickets) }
        ensures busy { OnErr result (GaveUp guard.old.tickets guard.new.tickets) }
    {
        counts::is_empty(&self.pool.map, &mut guard.guard)
    }

    /// Whether there is no pair, by a look for the first one. Pauses where `try_is_empty` is busy, and goes on.
    pub fn is_empty<R: Wait>(&self, rt: &R, guard: &mut PayloadGuard<P>) -> bool
        requires map { IsGuardOf self.now guard.old }
        ensures map { KnowsMore guard.old guard.new }
        ensures tested { Waits guard.old.tickets (λ k. HasTested k result guard.new.tickets) }
    {
        let pause = Backoff::new();
        for _ in rt.forever() {
            if let Ok(empty) = self.try_is_empty(guard) {
                return empty;
            }
            pause.snooze();
        }
        unreachable!()
    }
}
