//! Ranges both ways, counts, and the removal of all pairs, where the map under the lock finds pairs by their order. Each call
//! takes one hold of the lock, and is an entry of its guard's history: what it returns is of one moment of it.
//!
//! Tested in `test_share_ends`.

ghost use Rattle.std.specs.Prelude.{◌≡◌, ◌+◌, ℕ, List, IfOk, OnErr, length, map};
ghost use Rattle.std.specs.List.{FoldsTo};
ghost use Rattle.congee_tree.specs.Bulk.{Retains};
ghost use Rattle.spec_map.specs.Call.{count, counted, is_empty, keys, listed, tested};
ghost use Rattle.spec_map.specs.Map.{Pairs};
ghost use Rattle.spec_olc.specs.Runs.{same_number};
ghost use Rattle.share_rule.specs.History.{Entry, IsHistory, StartsWith};
ghost use Rattle.share_rule.specs.Known.{MadeCall, MadeCalls};
ghost use Rattle.share_works.specs.Listed.{ListsFirst, ListsLast};
ghost use Rattle.share_works.specs.Made.{returned, clearing, range_removal, retaining};

use super::{Congee, Guard, Note};
use share_backend::ordered::Ordered;
use spec_map::error::OOMError;
use spec_map::traits::{Drainer, Word};
use std::alloc::Global;
use std::sync::Wait;
use std::sync::ledger::Ledger;
use tree_walk::range_scan::RangeEntry;

impl<L: Ledger, K: Word, V: Word, M: Ordered, D: Drainer<K, V>> Congee<L, K, V, M, D> {
    /// Writes the first pairs, by their numbers, with keys from `start` on and below `end` to the buffer, ascending, as
    /// many as there are or as fit, and returns how many. The rest of the buffer is unchanged.
    pub fn range_recorded<R: Wait>(
        &self,
        rt: &R,
        guard: &mut Guard<'_, L, M>,
        start: &K,
        end: &K,
        buffer: &mut [(u64, u64)],
    ) -> usize
        requires map { guard.old.table ≡ self.now }
        ensures map { guard.new.table ≡ guard.old.table }
        ensures made { ListsFirst (λ key value. (key, value)) guard.old (K.number start.now)
            (K.number end.now) buffer.old result buffer.new guard.new }
    {
        self.range_recorded_of(rt, guard, start.into_u64(), end.into_u64(), buffer)
    }

    /// Writes pairs as `range_recorded` does, as entries of the buffer's kind, with numbers of keys from `start` on and
    /// below `end`, and returns how many.
    pub fn range_recorded_of<R: Wait, E: RangeEntry>(
        &self,
        rt: &R,
        guard: &mut Guard<'_, L, M>,
        start: u64,
        end: u64,
        buffer: &mut [E],
    ) -> usize
        requires map { guard.old.table ≡ self.now }
        ensures map { guard.new.table ≡ guard.old.table }
        ensures made { ListsFirst E.entry guard.old start end
            buffer.old result buffer.new guard.new }
    {
        self.raw.range_recorded(rt, guard, start, end, buffer)
    }

    /// As `range_recorded`, with the pair at `last` too, which can be the greatest key.
    pub fn range_inclusive<R: Wait>(
        &self,
        rt: &R,
        guard: &mut Guard<'_, L, M>,
        start: &K,
        last: &K,
        buffer: &mut [(u64, u64)],
    ) -> usize
        requires map { guard.old.table ≡ self.now }
        ensures map { guard.new.table ≡ guard.old.table }
        ensures made { ListsFirst (λ key value. (key, value)) guard.old (K.number start.now)
            (K.number last.now + 1) buffer.old result buffer.new guard.new }
    {
        self.range_inclusive_of(rt, guard, start.into_u64(), last.into_u64(), buffer)
    }

    /// Writes pairs as `range_inclusive` does, as entries of the buffer's kind, with numbers of keys from `start` on
    /// and up to `last`, and returns how many.
    pub fn range_inclusive_of<R: Wait, E: RangeEntry>(
        &self,
        rt: &R,
        guard: &mut Guard<'_, L, M>,
        start: u64,
        last: u64,
        buffer: &mut [E],
    ) -> usize
        requires map { guard.old.table ≡ self.now }
        ensures map { guard.new.table ≡ guard.old.table }
        ensures made { ListsFirst E.entry guard.old start (last + 1)
            buffer.old result buffer.new guard.new }
    {
        self.raw.range_inclusive(rt, guard, start, last, buffer)
    }

    /// Writes the last pairs, by their numbers, with keys from `start` on and up to `last` to the buffer, descending, as
    /// many as there are or as fit, and returns how many. The rest of the buffer is unchanged.
    pub fn range_descending<R: Wait>(
        &self,
        rt: &R,
        guard: &mut Guard<'_, L, M>,
        start: &K,
        last: &K,
        buffer: &mut [(u64, u64)],
    ) -> usize
        requires map { guard.old.table ≡ self.now }
        ensures map { guard.new.table ≡ guard.old.table }
        ensures made { ListsLast (λ key value. (key, value)) guard.old (K.number start.now)
            (K.number last.now + 1) buffer.old result buffer.new guard.new }
    {
        self.range_descending_of(rt, guard, start.into_u64(), last.into_u64(), buffer)
    }

    /// Writes pairs as `range_descending` does, as entries of the buffer's kind, with numbers of keys from `start` on
    /// and up to `last`, and returns how many.
    pub fn range_descending_of<R: Wait, E: RangeEntry>(
        &self,
        rt: &R,
        guard: &mut Guard<'_, L, M>,
        start: u64,
        last: u64,
        buffer: &mut [E],
    ) -> usize
        requires map { guard.old.table ≡ self.now }
        ensures map { guard.new.table ≡ guard.old.table }
        ensures made { ListsLast E.entry guard.old start (last + 1)
            buffer.old result buffer.new guard.new }
    {
        self.raw.range_descending(rt, guard, start, last, buffer)
    }

    /// The keys, ascending, each read back from its number. `OOMError` if there is no memory for the list: then the call
    /// wasn't made.
    pub fn keys_recorded<R: Wait>(
        &self,
        rt: &R,
        guard: &mut Guard<'_, L, M>,
        alloc: Global,
    ) -> Result<Vec<K>, OOMError>
        requires map { guard.old.table ≡ self.now }
        ensures map { guard.new.table ≡ guard.old.table }
        ensures made { IfOk result (λ found. (numbers : List ℕ)
            × MadeCall same_number guard.old (returned keys (listed numbers)) guard.new
            × (found.items ≡ map K.of_number numbers)) }
        ensures unchanged { OnErr result (guard.new ≡ guard.old) }
    {
        self.raw.keys_recorded(rt, guard, alloc)
    }

    /// How many pairs there are: 2 to the 64 at most. Takes constant time.
    pub fn value_count_recorded<R: Wait>(&self, rt: &R, guard: &mut Guard<'_, L, M>) -> u128
        requires map { guard.old.table ≡ self.now }
        ensures map { guard.new.table ≡ guard.old.table }
        ensures made { MadeCall same_number guard.old (returned count (counted result)) guard.new }
    {
        self.raw.count_recorded(rt, guard)
    }

    /// Whether there is no pair.
    pub fn is_empty_recorded<R: Wait>(&self, rt: &R, guard: &mut Guard<'_, L, M>) -> bool
        requires map { guard.old.table ≡ self.now }
        ensures map { guard.new.table ≡ guard.old.table }
        ensures made { MadeCall same_number guard.old
            (returned is_empty (tested result)) guard.new }
    {
        self.raw.is_empty_recorded(rt, guard)
    }

    /// Removes all pairs in one hold. The map's drainer isn't called, now or later.
    pub fn clear<R: Wait>(&self, rt: &R, guard: &mut Guard<'_, L, M>)
        requires map { guard.old.table ≡ self.now }
        ensures map { guard.new.table ≡ guard.old.table }
        ensures made { (pairs : Pairs ℕ)
            × MadeCalls same_number guard.old (clearing pairs) guard.new }
    {
        self.raw.clear(rt, guard);
    }

    /// Removes the pairs with keys from `start` on and below `end` in one hold, and returns how many: 2 to the 64 at most.
    /// The map's drainer isn't called. Reads two paths for each of them, and one more.
    pub fn remove_range<R: Wait>(
        &self,
        rt: &R,
        guard: &mut Guard<'_, L, M>,
        start: &K,
        end: &K,
    ) -> u128
        requires map { guard.old.table ≡ self.now }
        ensures map { guard.new.table ≡ guard.old.table }
        ensures made { (total : ℕ) × (pairs : Pairs ℕ) × MadeCalls same_number guard.old
            (range_removal (K.number start.now) (K.number end.now) total pairs) guard.new
            × (result ≡ length pairs) }
    {
        self.raw
            .remove_range(rt, guard, start.into_u64(), end.into_u64())
    }

    /// As `remove_range`, with the pair at `last` too, which can be the greatest key. Reads one more path.
    pub fn remove_range_inclusive<R: Wait>(
        &self,
        rt: &R,
        guard: &mut Guard<'_, L, M>,
        start: &K,
        last: &K,
    ) -> u128
        requires map { guard.old.table ≡ self.now }
        ensures map { guard.new.table ≡ guard.old.table }
        ensures made { (total : ℕ) × (pairs : Pairs ℕ) × MadeCalls same_number guard.old
            (range_removal (K.number start.now) (K.number last.now + 1) total pairs) guard.new
            × (result ≡ length pairs) }
    {
        self.raw
            .remove_range_inclusive(rt, guard, start.into_u64(), last.into_u64())
    }

    /// Removes the pairs with keys from `start` on and below `end` in one hold, and calls the closure with each by its
    /// numbers, once, keys ascending. The map's drainer isn't called.
    ///
    /// The closure is called while the lock is taken. So a call of this map in it waits for ever, and others wait until
    /// it returns.
    pub fn extract_range<R: Wait, F: FnMut(u64, u64)>(
        &self,
        rt: &R,
        guard: &mut Guard<'_, L, M>,
        start: &K,
        end: &K,
        f: &mut F,
    )
        requires map { guard.old.table ≡ self.now }
        requires callable { F.IsAlwaysCallable f.old }
        ensures callable { F.IsAlwaysCallable f.new }
        ensures map { guard.new.table ≡ guard.old.table }
        ensures made { (total : ℕ) × (pairs : Pairs ℕ) × MadeCalls same_number guard.old
            (range_removal (K.number start.now) (K.number end.now) total pairs) guard.new
            × FoldsTo (λ state pair next. F.step state pair.0 pair.1 tt next) f.old pairs f.new }
    {
        self.raw
            .extract_range(rt, guard, start.into_u64(), end.into_u64(), f);
    }
    /// Asks the closure about each pair by its numbers, once, keys ascending, and removes those for which it returns
    /// false, in one hold. The map's drainer isn't called. Reads one path for each pair, and two more for each that is removed.
    ///
    /// The closure is called while the lock is taken. So a call of this map in it waits for ever, and others wait until
    /// it returns.
    pub fn retain<R: Wait, F: FnMut(u64, u64) -> bool>(
        &self,
        rt: &R,
        guard: &mut Guard<'_, L, M>,
        f: &mut F,
    )
        requires map { guard.old.table ≡ self.now }
        requires callable { F.IsAlwaysCallable f.old }
        ensures callable { F.IsAlwaysCallable f.new }
        ensures map { guard.new.table ≡ guard.old.table }
        ensures made { (pairs : Pairs ℕ) × (kept : Pairs ℕ)
            × MadeCalls same_number guard.old (retaining pairs kept) guard.new
            × Retains (λ state pair stays next. F.step state pair.0 pair.1 stays next) f.old
            pairs kept f.new }
    {
        self.raw.retain(rt, guard, f);
    }
    /// The map under the lock, once no guard borrows this one. Its pairs are those at the end of a legal history, which
    /// begins with what was noted. The map's drainer isn't called.
    pub fn into_owned<R: Wait>(self, rt: &R, note: Note<L, M>) -> M
        requires map { note.table ≡ self }
        ensures { (history : List (Entry ℕ)) × StartsWith history note.seen
            × IsHistory same_number history (M.pairs result) }
    {
        let Congee {
            raw,
            drainer: _,
            of: _,
        } = self;
        let under = raw.into_owned(rt, note);
        under.law_contains();
        under
    }
}
