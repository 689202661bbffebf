//! Pages of ranges, the first pair and those next to a key, read while others write.
//!
//! A reader begins with an entry of its own in the history. A page is read leaf by leaf, each at one moment after that. So each
//! pair that is given was stored at a moment of the call, keys ascend, and a key that was stored throughout is given. It is no
//! snapshot.
//!
//! Tested in `test_live_faces`.
ghost use Rattle.std.specs.Prelude.{◌≡◌, ◌+◌, ◌≤◌, length, take, IfOk, OnErr};
ghost use Rattle.std.specs.Option.{option_map};
ghost use Rattle.live_scans.specs.Scans.{GaveUp, HasPage, Waits};
ghost use Rattle.live_faces.specs.Returned.{ReturnsNext, pair_of};

use super::{Busy, Congee, Guard};
use crossbeam_utils::Backoff;
use live_pool::waits::listed;
use live_scans::scans;
use spec_map::traits::Word;
use std::sync::Wait;

pub(super) fn pair_back<K: Word, V: Word>(pair: Option<(u64, u64)>) -> Option<(K, V)>
    ensures { result ≡ option_map (pair_of K.of_number V.of_number) pair }
{
    match pair {
        Some((key, value)) => Some((K::from_u64(key), V::from_u64(value))),
        None => None,
    }
}

impl<K: Word, V: Word> Congee<K, V> {
    /// Writes pairs, by their numbers, with keys from `start` on and below `end` to the buffer, ascending, as many as there
    /// are or as fit, and returns how many. The buffer's entries after them are unspecified. If the buffer is full, the next
    /// page begins behind the last key. `Busy` if too many writers came in between.
    pub fn try_range(
        &self,
        guard: &mut Guard,
        start: &K,
        end: &K,
        buffer: &mut [(u64, u64)],
    ) -> Result<usize, Busy>
        requires map { guard.old.book ≡ self.now }
        ensures map { guard.new.book ≡ guard.old.book }
        ensures count { IfOk result (λ count. count ≤ length buffer.old) }
        ensures page { IfOk result (λ count. HasPage guard.old (K.number start.now)
            (K.number end.now) (length buffer.old) (take count buffer.new) guard.new) }
        ensures busy { OnErr result (GaveUp guard.old guard.new) }
    {
        scans::range(
            &self.pool.map,
            guard,
            start.into_u64(),
            end.into_u64(),
            buffer,
        )
    }

    /// Writes pairs, by their numbers, with keys from `start` on and below `end` to the buffer, ascending, as many as there
    /// are or as fit, and returns how many. The buffer's entries after them are unspecified. If the buffer is full, the next
    /// page begins behind the last key. Pauses where `try_range` is busy, and goes on.
    pub fn range<R: Wait>(
        &self,
        rt: &R,
        guard: &mut Guard,
        start: &K,
        end: &K,
        buffer: &mut [(u64, u64)],
    ) -> usize
        requires map { guard.old.book ≡ self.now }
        ensures map { guard.new.book ≡ guard.old.book }
        ensures count { result ≤ length buffer.old }
        ensures page { Waits guard.old (λ k. HasPage k (K.number start.now) (K.number end.now)
            (length buffer.old) (take result buffer.new) guard.new) }
    {
        let pause = Backoff::new();
        for _ in rt.forever() {
            if let Ok(count) = self.try_range(guard, start, end, buffer) {
                return count;
            }
            pause.snooze();
        }
        unreachable!()
    }

    /// Writes pairs, by their numbers, with keys from `start` to `last`, both included, to the buffer, ascending, as many as
    /// there are or as fit, and returns how many. The buffer's entries after them are unspecified. If the buffer is full, the
    /// next page begins behind the last key. `Busy` if too many writers came in between.
    pub fn try_range_inclusive(
        &self,
        guard: &mut Guard,
        first: &K,
        last: &K,
        buffer: &mut [(u64, u64)],
    ) -> Result<usize, Busy>
        requires map { guard.old.book ≡ self.now }
        ensures map { guard.new.book ≡ guard.old.book }
        ensures count { IfOk result (λ count. count ≤ length buffer.old) }
        ensures page { IfOk result (λ count. HasPage guard.old (K.number first.now)
            (K.number last.now + 1) (length buffer.old) (take count buffer.new) guard.new) }
        ensures busy { OnErr result (GaveUp guard.old guard.new) }
    {
        scans::range_inclusive(
            &self.pool.map,
            guard,
            first.into_u64(),
            last.into_u64(),
            buffer,
        )
    }

    /// Writes pairs, by their numbers, with keys from `start` to `last`, both included, to the buffer, ascending, as many as
    /// there are or as fit, and returns how many. The buffer's entries after them are unspecified. If the buffer is full, the
    /// next page begins behind the last key. Pauses where `try_range_inclusive` is busy, and goes on.
    pub fn range_inclusive<R: Wait>(
        &self,
        rt: &R,
        guard: &mut Guard,
        first: &K,
        last: &K,
        buffer: &mut [(u64, u64)],
    ) -> usize
        requires map { guard.old.book ≡ self.now }
        ensures map { guard.new.book ≡ guard.old.book }
        ensures count { result ≤ length buffer.old }
        ensures page { Waits guard.old (λ k. HasPage k (K.number first.now) (K.number last.now + 1)
            (length buffer.old) (take result buffer.new) guard.new) }
    {
        let (low, high) = (first.into_u64(), last.into_u64());
        listed(rt, &self.pool.map, guard, low, high, buffer)
    }

    /// The pair with the least key, by numbers, that is at least this one. `Busy` if too many writers came in between.
    pub fn try_ceiling(&self, guard: &mut Guard, key: &K) -> Result<Option<(K, V)>, Busy>
        requires map { guard.old.book ≡ self.now }
        ensures map { guard.new.book ≡ guard.old.book }
        ensures next { IfOk result (λ found. ReturnsNext (pair_of K.of_number V.of_number)
            guard.old (K.number key.now) found guard.new) }
        ensures busy { OnErr result (GaveUp guard.old guard.new) }
    {
        let found = scans::ceiling(&self.pool.map, guard, key.into_u64())?;
        Ok(pair_back(found))
    }

    /// The pair with the least key, by numbers, that is at least this one. Pauses where `try_ceiling` is busy, and goes on.
    pub fn ceiling<R: Wait>(&self, rt: &R, guard: &mut Guard, key: &K) -> Option<(K, V)>
        requires map { guard.old.book ≡ self.now }
        ensures map { guard.new.book ≡ guard.old.book }
        ensures next { Waits guard.old (λ k. ReturnsNext (pair_of K.of_number V.of_number)
            k (K.number key.now) result guard.new) }
    {
        let pause = Backoff::new();
        for _ in rt.forever() {
            if let Ok(found) = self.try_ceiling(guard, key) {
                return found;
            }
            pause.snooze();
        }
        unreachable!()
    }

    /// The pair with the least key, by numbers, that is above this one. `Busy` if too many writers came in between.
    pub fn try_above(&self, guard: &mut Guard, key: &K) -> Result<Option<(K, V)>, Busy>
        requires map { guard.old.book ≡ self.now }
        ensures map { guard.new.book ≡ guard.old.book }
        ensures next { IfOk result (λ found. ReturnsNext (pair_of K.of_number V.of_number)
            guard.old (K.number key.now + 1) found guard.new) }
        ensures busy { OnErr result (GaveUp guard.old guard.new) }
    {
        let found = scans::above(&self.pool.map, guard, key.into_u64())?;
        Ok(pair_back(found))
    }

    /// The pair with the least key, by numbers, that is above this one. Pauses where `try_above` is busy, and goes on.
    pub fn above<R: Wait>(&self, rt: &R, guard: &mut Guard, key: &K) -> Option<(K, V)>
        requires map { guard.old.book ≡ self.now }
        ensures map { guard.new.book ≡ guard.old.book }
        ensures next { Waits guard.old (λ k. ReturnsNext (pair_of K.of_number V.of_number)
            k (K.number key.now + 1) result guard.new) }
    {
        let pause = Backoff::new();
        for _ in rt.forever() {
            if let Ok(found) = self.try_above(guard, key) {
                return found;
            }
            pause.snooze();
        }
        unreachable!()
    }

    /// The pair with the least key, by numbers. `Busy` if too many writers came in between.
    pub fn try_first(&self, guard: &mut Guard) -> Result<Option<(K, V)>, Busy>
        requires map { guard.old.book ≡ self.now }
        ensures map { guard.new.book ≡ guard.old.book }
        ensures next { IfOk result (λ found. ReturnsNext (pair_of K.of_number V.of_number)
            guard.old 0 found guard.new) }
        ensures busy { OnErr result (GaveUp guard.old guard.new) }
    {
        let found = scans::ceiling(&self.pool.map, guard, 0)?;
        Ok(pair_back(found))
    }

    /// The pair with the least key, by numbers. Pauses where `try_first` is busy, and goes on.
    pub fn first<R: Wait>(&self, rt: &R, guard: &mut Guard) -> Option<(K, V)>
        requires map { guard.old.book ≡ self.now }
        ensures map { guard.new.book ≡ guard.old.book }
        ensures next { Waits guard.old (λ k. ReturnsNext (pair_of K.of_number V.of_number)
            k 0 result guard.new) }
    {
        let pause = Backoff::new();
        for _ in rt.forever() {
            if let Ok(found) = self.try_first(guard) {
                return found;
            }
            pause.snooze();
        }
        unreachable!()
    }
}
