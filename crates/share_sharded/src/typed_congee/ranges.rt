//! Ranges both ways, each of one moment of the whole map.
//!
//! Tested in `test_share_shards`.

ghost use Rattle.std.specs.Prelude.{◌≡◌, ◌+◌, IfOk, OnErr};
ghost use Rattle.share_works.specs.Listed.{ListsFirst, ListsLast};

use super::{Busy, Congee, Guard};
use crossbeam_utils::Backoff;
use spec_map::traits::Word;
use std::sync::Wait;
use tree_walk::range_scan::RangeEntry;

impl<K: Word, V: Word> Congee<K, V> {
    /// Writes the first pairs, by their numbers, with keys from `start` on and below `end` to the buffer, ascending, as many
    /// as there are or as fit, and returns how many. The rest of the buffer is unchanged.
    pub fn try_range<E: RangeEntry>(
        &self,
        guard: &mut Guard,
        start: &K,
        end: &K,
        buffer: &mut [E],
    ) -> Result<usize, Busy>
        requires map { guard.old.table ≡ self.now.table }
        ensures map { guard.new.table ≡ guard.old.table }
        ensures made { IfOk result (λ written. ListsFirst E.entry guard.old (K.number start.now)
            (K.number end.now) buffer.old written buffer.new guard.new) }
        ensures busy { OnErr result ((guard.new ≡ guard.old) × (buffer.new ≡ buffer.old)) }
    {
        match guard.range(start.into_u64(), end.into_u64(), buffer) {
            Ok(written) => Ok(written),
            Err(_) => Err(Busy),
        }
    }

    /// Writes the first pairs, by their numbers, with keys from `start` on and below `end` to the buffer, ascending, as
    /// many as there are or as fit, and returns how many. The rest of the buffer is unchanged. Pauses and tries again
    /// while a lock that it needs is taken.
    pub fn range<R: Wait, E: RangeEntry>(
        &self,
        rt: &R,
        guard: &mut Guard,
        start: &K,
        end: &K,
        buffer: &mut [E],
    ) -> usize
        requires map { guard.old.table ≡ self.now.table }
        ensures map { guard.new.table ≡ guard.old.table }
        ensures made { ListsFirst E.entry guard.old (K.number start.now)
            (K.number end.now) buffer.old result buffer.new guard.new }
    {
        made!(rt, self.try_range(guard, start, end, buffer))
    }

    /// Writes the first pairs, by their numbers, with keys from `start` on and up to `last`, which can be the greatest
    /// key, to the buffer, ascending, as many as there are or as fit, and returns how many. The rest of the buffer is
    /// unchanged.
    pub fn try_range_inclusive<E: RangeEntry>(
        &self,
        guard: &mut Guard,
        start: &K,
        last: &K,
        buffer: &mut [E],
    ) -> Result<usize, Busy>
        requires map { guard.old.table ≡ self.now.table }
        ensures map { guard.new.table ≡ guard.old.table }
        ensures made { IfOk result (λ written. ListsFirst E.entry guard.old (K.number start.now)
            (K.number last.now + 1) buffer.old written buffer.new guard.new) }
        ensures busy { OnErr result ((guard.new ≡ guard.old) × (buffer.new ≡ buffer.old)) }
    {
        match guard.range_inclusive(start.into_u64(), last.into_u64(), buffer) {
            Ok(written) => Ok(written),
            Err(_) => Err(Busy),
        }
    }

    /// Writes the first pairs, by their numbers, with keys from `start` on and up to `last`, which can be the greatest
    /// key, to the buffer, ascending, as many as there are or as fit, and returns how many. The rest of the buffer is
    /// unchanged. Pauses and tries again while a lock that it needs is taken.
    pub fn range_inclusive<R: Wait, E: RangeEntry>(
        &self,
        rt: &R,
        guard: &mut Guard,
        start: &K,
        last: &K,
        buffer: &mut [E],
    ) -> usize
        requires map { guard.old.table ≡ self.now.table }
        ensures map { guard.new.table ≡ guard.old.table }
        ensures made { ListsFirst E.entry guard.old (K.number start.now)
            (K.number last.now + 1) buffer.old result buffer.new guard.new }
    {
        made!(rt, self.try_range_inclusive(guard, start, last, buffer))
    }

    /// Writes the last pairs, by their numbers, with keys from `start` on and up to `last` to the buffer, descending, as
    /// many as there are or as fit, and returns how many. The rest of the buffer is unchanged.
    pub fn try_range_descending<E: RangeEntry>(
        &self,
        guard: &mut Guard,
        start: &K,
        last: &K,
        buffer: &mut [E],
    ) -> Result<usize, Busy>
        requires map { guard.old.table ≡ self.now.table }
        ensures map { guard.new.table ≡ guard.old.table }
        ensures made { IfOk result (λ written. ListsLast E.entry guard.old (K.number start.now)
            (K.number last.now + 1) buffer.old written buffer.new guard.new) }
        ensures busy { OnErr result ((guard.new ≡ guard.old) × (buffer.new ≡ buffer.old)) }
    {
        match guard.range_descending(start.into_u64(), last.into_u64(), buffer) {
            Ok(written) => Ok(written),
            Err(_) => Err(Busy),
        }
    }

    /// Writes the last pairs, by their numbers, with keys from `start` on and up to `last` to the buffer, descending,
    /// as many as there are or as fit, and returns how many. The rest of the buffer is unchanged. Pauses and tries
    /// again while a lock that it needs is taken.
    pub fn range_descending<R: Wait, E: RangeEntry>(
        &self,
        rt: &R,
        guard: &mut Guard,
        start: &K,
        last: &K,
        buffer: &mut [E],
    ) -> usize
        requires map { guard.old.table ≡ self.now.table }
        ensures map { guard.new.table ≡ guard.old.table }
        ensures made { ListsLast E.entry guard.old (K.number start.now)
            (K.number last.now + 1) buffer.old result buffer.new guard.new }
    {
        made!(rt, self.try_range_descending(guard, start, last, buffer))
    }
}
