//! The first pair or the last, which is removed.
//!
//! A pop searches the pair as `first` or `last` does, and removes it if its value is still the one found. If another thread
//! removed or changed it first, the pop searches again. So each pair goes to one caller. A key that is inserted meanwhile on the
//! way that the search has gone stays.
//!
//! Tested in `test_live_faces`.
ghost use Rattle.std.specs.Prelude.{◌≡◌, ◌+◌, ◌^◌, true, false, IfOk, OnErr};
ghost use Rattle.live_pool.specs.Pops.{HasMissed};
ghost use Rattle.live_faces.specs.Returned.{ReturnsPopped, pair_of};

use super::scans::pair_back;
use super::{Busy, Congee, Guard};
use live_pool::pops;
use live_pool::waits::popped;
use spec_map::traits::Word;
use std::sync::Wait;

impl<K: Word, V: Word> Congee<K, V> {
    /// Removes the pair with the least key, by numbers, and returns it, or `None` where there is none. Needs no memory. `Busy` if
    /// too many writers came in between: then no pair has changed.
    pub fn try_pop_first(&self, guard: &mut Guard) -> Result<Option<(K, V)>, Busy>
        requires map { guard.old.book ≡ self.now }
        ensures map { guard.new.book ≡ guard.old.book }
        ensures popped { IfOk result (λ found. ReturnsPopped (pair_of K.of_number V.of_number)
            true 0 (2 ^ 64) guard.old found guard.new) }
        ensures busy { OnErr result (HasMissed true 0 (2 ^ 64) guard.old guard.new) }
    {
        self.try_pop(guard, true, 0, u64::MAX)
    }

    /// Removes the pair with the least key, by numbers, and returns it, or `None` where there is none. Needs no memory. Pauses
    /// where `try_pop_first` is busy, and goes on.
    pub fn pop_first<R: Wait>(&self, rt: &R, guard: &mut Guard) -> Option<(K, V)>
        requires map { guard.old.book ≡ self.now }
        ensures map { guard.new.book ≡ guard.old.book }
        ensures popped { ReturnsPopped (pair_of K.of_number V.of_number)
            true 0 (2 ^ 64) guard.old result guard.new }
    {
        self.pop(rt, guard, true, 0, u64::MAX)
    }

    /// Removes the pair with the least key, by numbers, if that is at most this one, and returns it, or `None` where there is
    /// none. Needs no memory. `Busy` if too many writers came in between: then no pair has changed.
    pub fn try_pop_first_to(&self, guard: &mut Guard, key: &K) -> Result<Option<(K, V)>, Busy>
        requires map { guard.old.book ≡ self.now }
        ensures map { guard.new.book ≡ guard.old.book }
        ensures popped { IfOk result (λ found. ReturnsPopped (pair_of K.of_number V.of_number)
            true 0 (K.number key.now + 1) guard.old found guard.new) }
        ensures busy { OnErr result (HasMissed true 0 (K.number key.now + 1) guard.old guard.new) }
    {
        self.try_pop(guard, true, 0, key.into_u64())
    }

    /// Removes the pair with the least key, by numbers, if that is at most this one, and returns it, or `None` where there is
    /// none. Needs no memory. Pauses where `try_pop_first_to` is busy, and goes on.
    pub fn pop_first_to<R: Wait>(&self, rt: &R, guard: &mut Guard, key: &K) -> Option<(K, V)>
        requires map { guard.old.book ≡ self.now }
        ensures map { guard.new.book ≡ guard.old.book }
        ensures popped { ReturnsPopped (pair_of K.of_number V.of_number)
            true 0 (K.number key.now + 1) guard.old result guard.new }
    {
        self.pop(rt, guard, true, 0, key.into_u64())
    }

    /// Removes the pair with the greatest key, by numbers, and returns it, or `None` where there is none. Needs no memory. `Busy`
    /// if too many writers came in between: then no pair has changed.
    pub fn try_pop_last(&self, guard: &mut Guard) -> Result<Option<(K, V)>, Busy>
        requires map { guard.old.book ≡ self.now }
        ensures map { guard.new.book ≡ guard.old.book }
        ensures popped { IfOk result (λ found. ReturnsPopped (pair_of K.of_number V.of_number)
            false 0 (2 ^ 64) guard.old found guard.new) }
        ensures busy { OnErr result (HasMissed false 0 (2 ^ 64) guard.old guard.new) }
    {
        self.try_pop(guard, false, 0, u64::MAX)
    }

    /// Removes the pair with the greatest key, by numbers, and returns it, or `None` where there is none. Needs no memory. Pauses
    /// where `try_pop_last` is busy, and goes on.
    pub fn pop_last<R: Wait>(&self, rt: &R, guard: &mut Guard) -> Option<(K, V)>
        requires map { guard.old.book ≡ self.now }
        ensures map { guard.new.book ≡ guard.old.book }
        ensures popped { ReturnsPopped (pair_of K.of_number V.of_number)
            false 0 (2 ^ 64) guard.old result guard.new }
    {
        self.pop(rt, guard, false, 0, u64::MAX)
    }

    /// Removes the pair with the greatest key, by numbers, if that is at least this one, and returns it, or `None` where there is
    /// none. Needs no memory. `Busy` if too many writers came in between: then no pair has changed.
    pub fn try_pop_last_from(&self, guard: &mut Guard, key: &K) -> Result<Option<(K, V)>, Busy>
        requires map { guard.old.book ≡ self.now }
        ensures map { guard.new.book ≡ guard.old.book }
        ensures popped { IfOk result (λ found. ReturnsPopped (pair_of K.of_number V.of_number)
            false (K.number key.now) (2 ^ 64) guard.old found guard.new) }
        ensures busy { OnErr result (HasMissed false (K.number key.now) (2 ^ 64) guard.old guard.new) }
    {
        self.try_pop(guard, false, key.into_u64(), u64::MAX)
    }

    /// Removes the pair with the greatest key, by numbers, if that is at least this one, and returns it, or `None` where there is
    /// none. Needs no memory. Pauses where `try_pop_last_from` is busy, and goes on.
    pub fn pop_last_from<R: Wait>(&self, rt: &R, guard: &mut Guard, key: &K) -> Option<(K, V)>
        requires map { guard.old.book ≡ self.now }
        ensures map { guard.new.book ≡ guard.old.book }
        ensures popped { ReturnsPopped (pair_of K.of_number V.of_number)
            false (K.number key.now) (2 ^ 64) guard.old result guard.new }
    {
        self.pop(rt, guard, false, key.into_u64(), u64::MAX)
    }

    // Removes the first pair with a key from `low` to `last`, or, downwards, the last one.
    fn try_pop(
        &self,
        guard: &mut Guard,
        up: bool,
        low: u64,
        last: u64,
    ) -> Result<Option<(K, V)>, Busy>
        requires map { guard.old.book ≡ self.now }
        ensures map { guard.new.book ≡ guard.old.book }
        ensures popped { IfOk result (λ found. ReturnsPopped (pair_of K.of_number V.of_number)
            up low (last + 1) guard.old found guard.new) }
        ensures busy { OnErr result (HasMissed up low (last + 1) guard.old guard.new) }
    {
        let found = pops::pop(&self.pool, guard, up, low, last)?;
        Ok(pair_back(found))
    }

    // Removes the first pair with a key from `low` to `last`, or, downwards, the last one. Pauses where `try_pop` is busy, and
    // goes on.
    fn pop<R: Wait>(
        &self,
        rt: &R,
        guard: &mut Guard,
        up: bool,
        low: u64,
        last: u64,
    ) -> Option<(K, V)>
        requires map { guard.old.book ≡ self.now }
        ensures map { guard.new.book ≡ guard.old.book }
        ensures popped { ReturnsPopped (pair_of K.of_number V.of_number)
            up low (last + 1) guard.old result guard.new }
    {
        pair_back(popped(rt, &self.pool, guard, up, low, last))
    }
}
