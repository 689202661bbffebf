//! Pages of ranges downwards, read while others write.
//!
//! A reader begins with an entry of its own in the history. A page is read leaf by leaf, the last leaf first, each at one moment
//! after that. So each pair that is given was stored at a moment of the call, keys descend, and a key that was stored throughout
//! is given. It is no snapshot.
//!
//! Tested in `test_live_faces`.
ghost use Rattle.std.specs.Prelude.{◌≡◌, ◌+◌, ◌≤◌, length, take, IfOk, OnErr};
ghost use Rattle.live_scans.specs.Scans.{GaveUp, Waits};
ghost use Rattle.live_scans.specs.Descents.{HasPageDown};

use super::{Busy, Congee, Guard};
use live_pool::waits::listed_down;
use live_scans::descents;
use spec_map::traits::Word;
use std::sync::Wait;

impl<K: Word, V: Word> Congee<K, V> {
    /// Writes pairs, by their numbers, with keys from `last` down to `first`, both included, to the buffer, descending, as many as
    /// there are or as fit, and returns how many. The buffer's entries after them are unspecified. If the buffer is full, the
    /// next page ends below the last key. `Busy` if too many writers came in between.
    pub fn try_range_descending(
        &self,
        guard: &mut Guard,
        first: &K,
        last: &K,
        buffer: &mut [(u64, u64)],
    ) -> Result<usize, Busy>
        requires map { guard.old.book ≡ self.now }
        ensures map { guard.new.book ≡ guard.old.book }
        ensures count { IfOk result (λ count. count ≤ length buffer.old) }
        ensures page { IfOk result (λ count. HasPageDown guard.old (K.number first.now)
            (K.number last.now + 1) (length buffer.old) (take count buffer.new) guard.new) }
        ensures busy { OnErr result (GaveUp guard.old guard.new) }
    {
        descents::range_descending(
            &self.pool.map,
            guard,
            first.into_u64(),
            last.into_u64(),
            buffer,
        )
    }

    /// Writes pairs, by their numbers, with keys from `last` down to `first`, both included, to the buffer, descending, as many as
    /// there are or as fit, and returns how many. The buffer's entries after them are unspecified. If the buffer is full, the
    /// next page ends below the last key. Pauses where `try_range_descending` is busy, and goes on.
    pub fn range_descending<R: Wait>(
        &self,
        rt: &R,
        guard: &mut Guard,
        first: &K,
        last: &K,
        buffer: &mut [(u64, u64)],
    ) -> usize
        requires map { guard.old.book ≡ self.now }
        ensures map { guard.new.book ≡ guard.old.book }
        ensures count { result ≤ length buffer.old }
        ensures page { Waits guard.old (λ k. HasPageDown k (K.number first.now) (K.number last.now + 1)
            (length buffer.old) (take result buffer.new) guard.new) }
    {
        let (low, high) = (first.into_u64(), last.into_u64());
        listed_down(rt, &self.pool.map, guard, low, high, buffer)
    }
}
