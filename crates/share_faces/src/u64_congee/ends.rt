//! The greatest pair of a map of numbers, the neighbours of a key below it, pops, ranges both ways, counts, and the removal of all pairs, where
//! the map under the lock finds pairs by their order. Each call takes one hold of the lock, and is an entry of its
//! guard's history. None fails.
//!
//! Tested in `test_share_ends`.

ghost use Rattle.std.specs.Prelude.{◌≡◌, ◌+◌, ◌<◌, ℕ, IfErr, IfOk, OnErr, OnOk, length, take};
ghost use Rattle.std.specs.Int.{to_be_bytes, w64};
ghost use Rattle.std.specs.List.{FoldsTo};
ghost use Rattle.congee_tree.specs.Bulk.{Retains};
ghost use Rattle.spec_map.specs.Call.{count, counted, is_empty, keys, listed, tested, first as first_end, last as last_end, floor as floor_of, below as below_of};
ghost use Rattle.spec_map.specs.Map.{Pairs};
ghost use Rattle.spec_olc.specs.Runs.{same_number};
ghost use Rattle.share_rule.specs.Known.{MadeCall, MadeCalls};
ghost use Rattle.share_works.specs.Listed.{ListsFirst, ListsLast};
ghost use Rattle.share_works.specs.Made.{returned, clearing, range_removal, retaining};
ghost use Rattle.share_guards.specs.Many.{InsertsMany, numbers_of};
ghost use Rattle.share_faces.specs.Returned.{ReturnsPair, ReturnsPopped};

use super::U64Congee;
use crate::typed_congee::Guard;
use face_typed::many::InsertManyError;
use share_backend::ordered::Ordered;
use spec_map::error::OOMError;
use spec_map::traits::Word;
use std::alloc::Global;
use std::sync::Wait;
use std::sync::ledger::Ledger;

impl<L: Ledger, V: Word, M: Ordered> U64Congee<L, V, M> {
    /// The pair with the greatest key, its value read back from its number.
    pub fn last<R: Wait>(&self, rt: &R, guard: &mut Guard<'_, L, M>) -> Option<(u64, V)>
        requires map { guard.old.table ≡ self.now }
        ensures map { guard.new.table ≡ guard.old.table }
        ensures made { ReturnsPair (λ key. key) V.of_number guard.old last_end result guard.new }
    {
        self.map.last(rt, guard)
    }

    /// The pair with the greatest key that is at most this one, its value read back from its number.
    pub fn floor<R: Wait>(&self, rt: &R, guard: &mut Guard<'_, L, M>, key: u64) -> Option<(u64, V)>
        requires map { guard.old.table ≡ self.now }
        ensures map { guard.new.table ≡ guard.old.table }
        ensures made { ReturnsPair (λ key. key) V.of_number guard.old (floor_of key)
            result guard.new }
    {
        self.map.floor(rt, guard, &key)
    }

    /// The pair with the greatest key below this one, its value read back from its number.
    pub fn below<R: Wait>(&self, rt: &R, guard: &mut Guard<'_, L, M>, key: u64) -> Option<(u64, V)>
        requires map { guard.old.table ≡ self.now }
        ensures map { guard.new.table ≡ guard.old.table }
        ensures made { ReturnsPair (λ key. key) V.of_number guard.old (below_of key)
            result guard.new }
    {
        self.map.below(rt, guard, &key)
    }

    /// Removes the pair with the least key, and returns it, its value read back from its number.
    pub fn pop_first<R: Wait>(&self, rt: &R, guard: &mut Guard<'_, L, M>) -> Option<(u64, V)>
        requires map { guard.old.table ≡ self.now }
        ensures map { guard.new.table ≡ guard.old.table }
        ensures made { ReturnsPopped (λ key. key) V.of_number guard.old first_end result guard.new }
    {
        self.map.pop_first(rt, guard)
    }

    /// Removes the pair with the greatest key, and returns it, its value read back from its number.
    pub fn pop_last<R: Wait>(&self, rt: &R, guard: &mut Guard<'_, L, M>) -> Option<(u64, V)>
        requires map { guard.old.table ≡ self.now }
        ensures map { guard.new.table ≡ guard.old.table }
        ensures made { ReturnsPopped (λ key. key) V.of_number guard.old last_end result guard.new }
    {
        self.map.pop_last(rt, guard)
    }

    /// Writes the first pairs with keys from `start` on and below `end` to the buffer, ascending, as many as there are or
    /// as fit, and returns how many: each key as its eight bytes, most significant first, and each value as its number.
    /// The rest of the buffer is unchanged.
    pub fn range_recorded<R: Wait>(
        &self,
        rt: &R,
        guard: &mut Guard<'_, L, M>,
        start: u64,
        end: u64,
        buffer: &mut [([u8; 8], u64)],
    ) -> usize
        requires map { guard.old.table ≡ self.now }
        ensures map { guard.new.table ≡ guard.old.table }
        ensures made { ListsFirst (λ key value. (to_be_bytes w64 key, value)) guard.old start end
            buffer.old result buffer.new guard.new }
    {
        self.map.range_recorded_of(rt, guard, start, end, buffer)
    }

    /// As `range_recorded`, with the pair at `last` too, which can be the greatest key.
    pub fn range_inclusive<R: Wait>(
        &self,
        rt: &R,
        guard: &mut Guard<'_, L, M>,
        start: u64,
        last: u64,
        buffer: &mut [([u8; 8], u64)],
    ) -> usize
        requires map { guard.old.table ≡ self.now }
        ensures map { guard.new.table ≡ guard.old.table }
        ensures made { ListsFirst (λ key value. (to_be_bytes w64 key, value)) guard.old start
            (last + 1)
            buffer.old result buffer.new guard.new }
    {
        self.map.range_inclusive_of(rt, guard, start, last, buffer)
    }

    /// As `range_inclusive`, the last pairs, descending.
    pub fn range_descending<R: Wait>(
        &self,
        rt: &R,
        guard: &mut Guard<'_, L, M>,
        start: u64,
        last: u64,
        buffer: &mut [([u8; 8], u64)],
    ) -> usize
        requires map { guard.old.table ≡ self.now }
        ensures map { guard.new.table ≡ guard.old.table }
        ensures made { ListsLast (λ key value. (to_be_bytes w64 key, value)) guard.old start
            (last + 1)
            buffer.old result buffer.new guard.new }
    {
        self.map.range_descending_of(rt, guard, start, last, buffer)
    }

    /// The keys, ascending. `OOMError` if there is no memory for the list: then the call wasn't made.
    pub fn keys_recorded<R: Wait>(
        &self,
        rt: &R,
        guard: &mut Guard<'_, L, M>,
        alloc: Global,
    ) -> Result<Vec<u64>, OOMError>
        requires map { guard.old.table ≡ self.now }
        ensures map { guard.new.table ≡ guard.old.table }
        ensures made { IfOk result (λ found.
            MadeCall same_number guard.old (returned keys (listed found.items)) guard.new) }
        ensures unchanged { OnErr result (guard.new ≡ guard.old) }
    {
        self.map.keys_recorded(rt, guard, alloc)
    }

    /// How many pairs there are: 2 to the 64 at most. Takes constant time.
    pub fn value_count_recorded<R: Wait>(&self, rt: &R, guard: &mut Guard<'_, L, M>) -> u128
        requires map { guard.old.table ≡ self.now }
        ensures map { guard.new.table ≡ guard.old.table }
        ensures made { MadeCall same_number guard.old (returned count (counted result)) guard.new }
    {
        self.map.value_count_recorded(rt, guard)
    }

    /// Whether there is no pair.
    pub fn is_empty_recorded<R: Wait>(&self, rt: &R, guard: &mut Guard<'_, L, M>) -> bool
        requires map { guard.old.table ≡ self.now }
        ensures map { guard.new.table ≡ guard.old.table }
        ensures made { MadeCall same_number guard.old
            (returned is_empty (tested result)) guard.new }
    {
        self.map.is_empty_recorded(rt, guard)
    }

    /// Inserts the pairs in their order in one hold, so of two with one key the later one counts. Where memory is missing
    /// for one of them, those before it are in the map, and the error has their number; the rest may be inserted again
    /// from there.
    pub fn insert_many<R: Wait>(
        &self,
        rt: &R,
        guard: &mut Guard<'_, L, M>,
        pairs: &[(u64, V)],
    ) -> Result<(), InsertManyError>
        requires map { guard.old.table ≡ self.now }
        ensures map { guard.new.table ≡ guard.old.table }
        ensures made { OnOk result
            (InsertsMany guard.old (numbers_of (λ key. key) V.number pairs.now) guard.new) }
        ensures missed { IfErr result (λ error. (error.inserted < length pairs.now)
            × InsertsMany guard.old
            (take error.inserted (numbers_of (λ key. key) V.number pairs.now)) guard.new) }
    {
        self.map.insert_many(rt, guard, pairs)
    }

    /// Removes all pairs in one hold.
    pub fn clear<R: Wait>(&self, rt: &R, guard: &mut Guard<'_, L, M>)
        requires map { guard.old.table ≡ self.now }
        ensures map { guard.new.table ≡ guard.old.table }
        ensures made { (pairs : Pairs ℕ)
            × MadeCalls same_number guard.old (clearing pairs) guard.new }
    {
        self.map.clear(rt, guard);
    }

    /// Removes the pairs with keys from `start` on and below `end` in one hold, and returns how many. Reads two paths for
    /// each of them, and one more.
    pub fn remove_range<R: Wait>(
        &self,
        rt: &R,
        guard: &mut Guard<'_, L, M>,
        start: u64,
        end: u64,
    ) -> u128
        requires map { guard.old.table ≡ self.now }
        ensures map { guard.new.table ≡ guard.old.table }
        ensures made { (total : ℕ) × (pairs : Pairs ℕ)
            × MadeCalls same_number guard.old (range_removal start end total pairs) guard.new
            × (result ≡ length pairs) }
    {
        self.map.remove_range(rt, guard, &start, &end)
    }

    /// As `remove_range`, with the pair at `last` too, which can be the greatest key. Reads one more path.
    pub fn remove_range_inclusive<R: Wait>(
        &self,
        rt: &R,
        guard: &mut Guard<'_, L, M>,
        start: u64,
        last: u64,
    ) -> u128
        requires map { guard.old.table ≡ self.now }
        ensures map { guard.new.table ≡ guard.old.table }
        ensures made { (total : ℕ) × (pairs : Pairs ℕ)
            × MadeCalls same_number guard.old (range_removal start (last + 1) total pairs) guard.new
            × (result ≡ length pairs) }
    {
        self.map.remove_range_inclusive(rt, guard, &start, &last)
    }

    /// Removes the pairs with keys from `start` on and below `end` in one hold, and calls the closure with each by its
    /// numbers, once, keys ascending.
    ///
    /// The closure is called while the lock is taken. So a call of this map in it waits for ever, and others wait until
    /// it returns.
    pub fn extract_range<R: Wait, F: FnMut(u64, u64)>(
        &self,
        rt: &R,
        guard: &mut Guard<'_, L, M>,
        start: u64,
        end: u64,
        f: &mut F,
    )
        requires map { guard.old.table ≡ self.now }
        requires callable { F.IsAlwaysCallable f.old }
        ensures callable { F.IsAlwaysCallable f.new }
        ensures map { guard.new.table ≡ guard.old.table }
        ensures made { (total : ℕ) × (pairs : Pairs ℕ)
            × MadeCalls same_number guard.old (range_removal start end total pairs) guard.new
            × FoldsTo (λ state pair next. F.step state pair.0 pair.1 tt next) f.old pairs f.new }
    {
        self.map.extract_range(rt, guard, &start, &end, f);
    }
    /// Asks the closure about each pair by its numbers, once, keys ascending, and removes those for which it returns
    /// false, in one hold. Reads one path for each pair, and two more for each that is removed.
    ///
    /// The closure is called while the lock is taken. So a call of this map in it waits for ever, and others wait until
    /// it returns.
    pub fn retain<R: Wait, F: FnMut(u64, u64) -> bool>(
        &self,
        rt: &R,
        guard: &mut Guard<'_, L, M>,
        f: &mut F,
    )
        requires map { guard.old.table ≡ self.now }
        requires callable { F.IsAlwaysCallable f.old }
        ensures callable { F.IsAlwaysCallable f.new }
        ensures map { guard.new.table ≡ guard.old.table }
        ensures made { (pairs : Pairs ℕ) × (kept : Pairs ℕ)
            × MadeCalls same_number guard.old (retaining pairs kept) guard.new
            × Retains (λ state pair stays next. F.step state pair.0 pair.1 stays next) f.old
            pairs kept f.new }
    {
        self.map.retain(rt, guard, f);
    }
}
