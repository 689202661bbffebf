//! The last pair and those before a key, read while others write.
//!
//! As `ceiling` and `above`: a reader begins with an entry of its own in the history and goes downwards. Each key behind the pair
//! has a moment after that at which it was absent.
//!
//! Tested in `test_live_faces`.
ghost use Rattle.std.specs.Prelude.{◌≡◌, ◌+◌, ◌^◌, IfOk, OnErr};
ghost use Rattle.live_scans.specs.Scans.{GaveUp, Waits};
ghost use Rattle.live_faces.specs.Returned.{ReturnsBefore, pair_of};

use super::scans::pair_back;
use super::{Busy, Congee, Guard};
use crossbeam_utils::Backoff;
use live_scans::floors;
use spec_map::traits::Word;
use std::sync::Wait;

impl<K: Word, V: Word> Congee<K, V> {
    /// The pair with the greatest key, by numbers, that is at most this one. `Busy` if too many writers came in between.
    pub fn try_floor(&self, guard: &mut Guard, key: &K) -> Result<Option<(K, V)>, Busy>
        requires map { guard.old.book ≡ self.now }
        ensures map { guard.new.book ≡ guard.old.book }
        ensures before { IfOk result (λ found. ReturnsBefore (pair_of K.of_number V.of_number)
            guard.old (K.number key.now + 1) found guard.new) }
        ensures busy { OnErr result (GaveUp guard.old guard.new) }
    {
        let found = floors::floor(&self.pool.map, guard, key.into_u64())?;
        Ok(pair_back(found))
    }

    /// The pair with the greatest key, by numbers, that is at most this one. Pauses where `try_floor` is busy, and goes on.
    pub fn floor<R: Wait>(&self, rt: &R, guard: &mut Guard, key: &K) -> Option<(K, V)>
        requires map { guard.old.book ≡ self.now }
        ensures map { guard.new.book ≡ guard.old.book }
        ensures before { Waits guard.old (λ k. ReturnsBefore (pair_of K.of_number V.of_number)
            k (K.number key.now + 1) result guard.new) }
    {
        let pause = Backoff::new();
        for _ in rt.forever() {
            if let Ok(found) = self.try_floor(guard, key) {
                return found;
            }
            pause.snooze();
        }
        unreachable!()
    }

    /// The pair with the greatest key, by numbers, that is below this one. `Busy` if too many writers came in between.
    pub fn try_below(&self, guard: &mut Guard, key: &K) -> Result<Option<(K, V)>, Busy>
        requires map { guard.old.book ≡ self.now }
        ensures map { guard.new.book ≡ guard.old.book }
        ensures before { IfOk result (λ found. ReturnsBefore (pair_of K.of_number V.of_number)
            guard.old (K.number key.now) found guard.new) }
        ensures busy { OnErr result (GaveUp guard.old guard.new) }
    {
        let found = floors::below(&self.pool.map, guard, key.into_u64())?;
        Ok(pair_back(found))
    }

    /// The pair with the greatest key, by numbers, that is below this one. Pauses where `try_below` is busy, and goes on.
    pub fn below<R: Wait>(&self, rt: &R, guard: &mut Guard, key: &K) -> Option<(K, V)>
        requires map { guard.old.book ≡ self.now }
        ensures map { guard.new.book ≡ guard.old.book }
        ensures before { Waits guard.old (λ k. ReturnsBefore (pair_of K.of_number V.of_number)
            k (K.number key.now) result guard.new) }
    {
        let pause = Backoff::new();
        for _ in rt.forever() {
            if let Ok(found) = self.try_below(guard, key) {
                return found;
            }
            pause.snooze();
        }
        unreachable!()
    }

    /// The pair with the greatest key, by numbers. `Busy` if too many writers came in between.
    pub fn try_last(&self, guard: &mut Guard) -> Result<Option<(K, V)>, Busy>
        requires map { guard.old.book ≡ self.now }
        ensures map { guard.new.book ≡ guard.old.book }
        ensures before { IfOk result (λ found. ReturnsBefore (pair_of K.of_number V.of_number)
            guard.old (2 ^ 64) found guard.new) }
        ensures busy { OnErr result (GaveUp guard.old guard.new) }
    {
        let found = floors::last(&self.pool.map, guard)?;
        Ok(pair_back(found))
    }

    /// The pair with the greatest key, by numbers. Pauses where `try_last` is busy, and goes on.
    pub fn last<R: Wait>(&self, rt: &R, guard: &mut Guard) -> Option<(K, V)>
        requires map { guard.old.book ≡ self.now }
        ensures map { guard.new.book ≡ guard.old.book }
        ensures before { Waits guard.old (λ k. ReturnsBefore (pair_of K.of_number V.of_number)
            k (2 ^ 64) result guard.new) }
    {
        let pause = Backoff::new();
        for _ in rt.forever() {
            if let Ok(found) = self.try_last(guard) {
                return found;
            }
            pause.snooze();
        }
        unreachable!()
    }
}
