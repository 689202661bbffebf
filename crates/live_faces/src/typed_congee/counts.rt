//! How many pairs there are, and whether there are any, read while others write.
//!
//! No count is kept, since all writers would write it. The pairs are counted as a range over all keys reads them, leaf by leaf.
//!
//! Tested in `test_live_faces`.
ghost use Rattle.std.specs.Prelude.{◌≡◌, IfOk, OnErr};
ghost use Rattle.live_scans.specs.Scans.{GaveUp, Waits};
ghost use Rattle.live_scans.specs.Counts.{HasCounted, HasTested};

use super::{Busy, Congee, Guard};
use crossbeam_utils::Backoff;
use live_scans::counts;
use spec_map::traits::Word;
use std::sync::Wait;

impl<K: Word, V: Word> Congee<K, V> {
    /// How many pairs there are: 2 to the 64 at most. It is exact where nobody writes. Else each key was counted, or wasn't, as
    /// it was at a moment of the call. `Busy` if too many writers came in between.
    pub fn try_value_count(&self, guard: &mut Guard) -> Result<u128, Busy>
        requires map { guard.old.book ≡ self.now }
        ensures map { guard.new.book ≡ guard.old.book }
        ensures counted { IfOk result (λ count. HasCounted guard.old count guard.new) }
        ensures busy { OnErr result (GaveUp guard.old guard.new) }
    {
        counts::count(&self.pool.map, guard)
    }

    /// How many pairs there are: 2 to the 64 at most. It is exact where nobody writes. Else each key was counted, or wasn't, as
    /// it was at a moment of the call. Pauses where `try_value_count` is busy, and goes on.
    pub fn value_count<R: Wait>(&self, rt: &R, guard: &mut Guard) -> u128
        requires map { guard.old.book ≡ self.now }
        ensures map { guard.new.book ≡ guard.old.book }
        ensures counted { Waits guard.old (λ k. HasCounted k result guard.new) }
    {
        let pause = Backoff::new();
        for _ in rt.forever() {
            if let Ok(count) = self.try_value_count(guard) {
                return count;
            }
            pause.snooze();
        }
        unreachable!()
    }

    /// Whether there is no pair, by a look for the first one. `Busy` if too many writers came in between.
    pub fn try_is_empty(&self, guard: &mut Guard) -> Result<bool, Busy>
        requires map { guard.old.book ≡ self.now }
        ensures map { guard.new.book ≡ guard.old.book }
        ensures tested { IfOk result (λ empty. HasTested guard.old empty guard.new) }
        ensures busy { OnErr result (GaveUp guard.old guard.new) }
    {
        counts::is_empty(&self.pool.map, guard)
    }

    /// Whether there is no pair, by a look for the first one. Pauses where `try_is_empty` is busy, and goes on.
    pub fn is_empty<R: Wait>(&self, rt: &R, guard: &mut Guard) -> bool
        requires map { guard.old.book ≡ self.now }
        ensures map { guard.new.book ≡ guard.old.book }
        ensures tested { Waits guard.old (λ k. HasTested k result guard.new) }
    {
        let pause = Backoff::new();
        for _ in rt.forever() {
            if let Ok(empty) = self.try_is_empty(guard) {
                return empty;
            }
            pause.snooze();
        }
        unreachable!()
    }
}
