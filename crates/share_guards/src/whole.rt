//! Ranges both ways, counts and the removal of all pairs of a shared map of numbers: each one hold of the lock, and an
//! entry of the history.
//!
//! Tested in `test_share_ends`.

ghost use Rattle.std.specs.Prelude.{◌≡◌, ◌+◌, ℕ, length};
ghost use Rattle.spec_map.specs.Call.{count, counted, is_empty, tested};
ghost use Rattle.spec_map.specs.Map.{Pairs};
ghost use Rattle.spec_olc.specs.Runs.{same_number};
ghost use Rattle.share_rule.specs.Known.{MadeCall, MadeCalls};
ghost use Rattle.share_works.specs.Listed.{ListsFirst, ListsLast};
ghost use Rattle.share_works.specs.Made.{returned, clearing, range_removal};

use crate::raw::{Guard, Raw};
use share_backend::ordered::Ordered;
use share_works::hold::hold;
use share_works::ranges::{Range, RangeDescending, RangeInclusive};
use share_works::whole::{Clear, Count, IsEmpty, RemoveRange};
use std::sync::Wait;
use std::sync::ledger::Ledger;
use tree_walk::range_scan::RangeEntry;

impl<L: Ledger, M: Ordered> Raw<L, u64, u64, M> {
    /// Writes the first pairs with keys from `start` on and below `end` to the buffer, ascending, as many as there are
    /// or as fit, and returns how many. The rest of the buffer is unchanged.
    pub fn range_recorded<R: Wait, E: RangeEntry>(
        &self,
        rt: &R,
        guard: &mut Guard<'_, L, u64, u64, M>,
        start: u64,
        end: u64,
        buffer: &mut [E],
    ) -> usize
        requires map { guard.old.table ≡ self.now }
        ensures made { ListsFirst E.entry guard.old start end buffer.old result buffer.new
            guard.new }
    {
        M::numbers_mean_themselves();
        let mut work = Range {
            start,
            end,
            room: buffer.len(),
            written: 0,
        };
        hold(&self.lock, rt, &mut guard.seat, &mut work, buffer);
        work.written
    }

    /// As `range_recorded`, with the pair at `last` too, which can be the greatest key.
    pub fn range_inclusive<R: Wait, E: RangeEntry>(
        &self,
        rt: &R,
        guard: &mut Guard<'_, L, u64, u64, M>,
        start: u64,
        last: u64,
        buffer: &mut [E],
    ) -> usize
        requires map { guard.old.table ≡ self.now }
        ensures made { ListsFirst E.entry guard.old start (last + 1) buffer.old result buffer.new
            guard.new }
    {
        M::numbers_mean_themselves();
        let mut work = RangeInclusive {
            start,
            last,
            room: buffer.len(),
            written: 0,
        };
        hold(&self.lock, rt, &mut guard.seat, &mut work, buffer);
        work.written
    }

    /// Writes the last pairs with keys from `start` to `last`, both included, to the buffer, descending, as many as
    /// there are or as fit, and returns how many. The rest of the buffer is unchanged.
    pub fn range_descending<R: Wait, E: RangeEntry>(
        &self,
        rt: &R,
        guard: &mut Guard<'_, L, u64, u64, M>,
        start: u64,
        last: u64,
        buffer: &mut [E],
    ) -> usize
        requires map { guard.old.table ≡ self.now }
        ensures made { ListsLast E.entry guard.old start (last + 1) buffer.old result buffer.new
            guard.new }
    {
        M::numbers_mean_themselves();
        let mut work = RangeDescending {
            start,
            last,
            written: 0,
        };
        hold(&self.lock, rt, &mut guard.seat, &mut work, buffer);
        work.written
    }

    /// How many pairs there are.
    pub fn count_recorded<R: Wait>(&self, rt: &R, guard: &mut Guard<'_, L, u64, u64, M>) -> u128
        requires map { guard.old.table ≡ self.now }
        ensures made { MadeCall same_number guard.old (returned count (counted result)) guard.new }
    {
        M::numbers_mean_themselves();
        let mut work = Count { count: 0 };
        hold(&self.lock, rt, &mut guard.seat, &mut work, &mut []);
        work.count
    }

    /// Whether there is no pair.
    pub fn is_empty_recorded<R: Wait>(&self, rt: &R, guard: &mut Guard<'_, L, u64, u64, M>) -> bool
        requires map { guard.old.table ≡ self.now }
        ensures made { MadeCall same_number guard.old
            (returned is_empty (tested result)) guard.new }
    {
        M::numbers_mean_themselves();
        let mut work = IsEmpty { empty: false };
        hold(&self.lock, rt, &mut guard.seat, &mut work, &mut []);
        work.empty
    }

    /// Removes all pairs.
    pub fn clear<R: Wait>(&self, rt: &R, guard: &mut Guard<'_, L, u64, u64, M>)
        requires map { guard.old.table ≡ self.now }
        ensures made { (pairs : Pairs ℕ)
            × MadeCalls same_number guard.old (clearing pairs) guard.new }
    {
        M::numbers_mean_themselves();
        let mut work = Clear {};
        hold(&self.lock, rt, &mut guard.seat, &mut work, &mut []);
    }

    /// Removes the pairs with keys from `start` on and below `end`, and returns how many.
    pub fn remove_range<R: Wait>(
        &self,
        rt: &R,
        guard: &mut Guard<'_, L, u64, u64, M>,
        start: u64,
        end: u64,
    ) -> u128
        requires map { guard.old.table ≡ self.now }
        ensures made { (total : ℕ) × (pairs : Pairs ℕ)
            × MadeCalls same_number guard.old (range_removal start end total pairs) guard.new
            × (result ≡ length pairs) }
    {
        M::numbers_mean_themselves();
        let mut work = RemoveRange {
            start,
            end,
            removed: 0,
        };
        hold(&self.lock, rt, &mut guard.seat, &mut work, &mut []);
        work.removed
    }
}
