//! The pairs of a range, of all shards that one hold has: those of one moment.
//!
//! Keys that differ in their last eight bits alone are of one shard. So a range is listed a run of keys after another,
//! each by its shard. While the next run has pairs too, its shard alone is asked for them. From the first run without on,
//! all shards are asked for their next pairs, and then after each run its shard alone.
//!
//! Tested in `tools/c-library`.

ghost use Rattle.std.specs.Prelude.{◌≡◌, ◌≤◌, ◌<◌, ◌+◌, ◌++◌, ℕ, List, length, reverse};
ghost use Rattle.share_parts.specs.Parts.{kept};
ghost use Rattle.share_shards.specs.Held.{keys_at};
ghost use Rattle.share_visits.specs.Whole.{Contains, IsCount, shard_of};
ghost use Rattle.share_visits.specs.Written.{AreWritten, listed};
ghost use Rattle.spec_map.specs.Call.{above, below};
ghost use Rattle.spec_map.specs.Map.{Pairs, between, lookup};
ghost use Rattle.spec_map.specs.Near.{pair_near};

use crate::near::Near;
use crate::next::{nearest_in, nearest_of_each};
use crate::one::{nearest_at, visit_one};
use crate::part::{Pages, PartLock, PartSeat, shard_of_key};
use crate::visits::Page;
use crate::whole::nearest_in_run;

// The last key up to `last` of the run from `key` on that is of one shard.
fn run_end(key: u64, last: u64, shards: usize) -> u64
    requires shards { IsCount shards }
    requires order { key ≤ last }
    ensures from { key ≤ result }
    ensures to { result ≤ last }
    ensures one { (k : ℕ) → key ≤ k → k ≤ result → shard_of shards k ≡ shard_of shards key }
{
    if shards == 1 {
        return last;
    }
    let end = key / 256 * 256 + 255;
    if end < last { end } else { last }
}

// The first key from `start` on of the run up to `key` that is of one shard.
fn run_start(key: u64, start: u64, shards: usize) -> u64
    requires shards { IsCount shards }
    requires order { start ≤ key }
    ensures from { start ≤ result }
    ensures to { result ≤ key }
    ensures one { (k : ℕ) → result ≤ k → k ≤ key → shard_of shards k ≡ shard_of shards result }
{
    if shards == 1 {
        return start;
    }
    let first = key / 256 * 256;
    if start < first { first } else { start }
}

// Writes pairs with keys from `start` to `last`, which are of one shard, to the buffer, ascending or descending.
fn page_at<E, M: Pages<E> + Drop>(
    lock: &PartLock<M>,
    seat: &mut PartSeat<M>,
    start: u64,
    last: u64,
    back: bool,
    buffer: &mut [E],
) -> usize
    requires table { seat.old.table_id ≡ lock.now.table }
    requires shards { IsCount lock.now.table.slots }
    requires one { (k : ℕ) → start ≤ k → k ≤ last
        → shard_of lock.now.table.slots k ≡ shard_of lock.now.table.slots start }
    requires all { (all : Pairs ℕ) × Contains M.pairs M.limit lock.now all seat.old.me.1 }
    ensures table { seat.new.table_id ≡ seat.old.table_id }
    ensures same { seat.new.me ≡ seat.old.me }
    ensures written { (all : Pairs ℕ) → Contains M.pairs M.limit lock.now all seat.old.me.1
        → AreWritten M.entry (listed back (between all start (last + 1)))
        buffer.old result buffer.new }
{
    let shard = shard_of_key(start, lock.shards());
    let mut page = Page {
        start,
        last,
        back,
        written: 0,
    };
    visit_one::<E, M, Page>(lock, seat, shard, &mut page, buffer);
    page.written
}

// Writes pairs with keys from `start` to `last`, which are of one shard, ascending or descending, to what is left of a
// buffer in which so many are written. Returns how many are written then.
fn page_rest<E, M: Pages<E> + Drop>(
    lock: &PartLock<M>,
    seat: &mut PartSeat<M>,
    start: u64,
    last: u64,
    back: bool,
    written: usize,
    buffer: &mut [E],
) -> usize
    requires table { seat.old.table_id ≡ lock.now.table }
    requires shards { IsCount lock.now.table.slots }
    requires one { (k : ℕ) → start ≤ k → k ≤ last
        → shard_of lock.now.table.slots k ≡ shard_of lock.now.table.slots start }
    requires all { (all : Pairs ℕ) × Contains M.pairs M.limit lock.now all seat.old.me.1 }
    requires within { written ≤ length buffer.old }
    ensures table { seat.new.table_id ≡ seat.old.table_id }
    ensures same { seat.new.me ≡ seat.old.me }
    ensures within { result ≤ length buffer.old }
    ensures written { (all : Pairs ℕ) → Contains M.pairs M.limit lock.now all seat.old.me.1
        → (done : Pairs ℕ) (before : List E) → AreWritten M.entry done before written buffer.old
        → written ≡ length done
        → AreWritten M.entry (done ++ listed back (between all start (last + 1)))
        before result buffer.new }
{
    written + page_at(lock, seat, start, last, back, &mut buffer[written..])
}

// Writes the pairs of a run of one shard, from its first on and up to the key `end`, to what is left of a buffer in which so
// many are written, ascending. Returns how many are written then, and the next pair of the shard.
fn run_above<E: Drop, M: Pages<E> + Drop>(
    lock: &PartLock<M>,
    seat: &mut PartSeat<M>,
    first: (u64, u64),
    end: u64,
    written: usize,
    buffer: &mut [E],
) -> (usize, Option<(u64, u64)>)
    requires table { seat.old.table_id ≡ lock.now.table }
    requires shards { IsCount lock.now.table.slots }
    requires order { first.0 ≤ end }
    requires one { (k : ℕ) → first.0 ≤ k → k ≤ end
        → shard_of lock.now.table.slots k ≡ shard_of lock.now.table.slots first.0 }
    requires all { (all : Pairs ℕ) × Contains M.pairs M.limit lock.now all seat.old.me.1 }
    requires first { (all : Pairs ℕ) → Contains M.pairs M.limit lock.now all seat.old.me.1
        → lookup all first.0 ≡ Some first.1 }
    requires room { written < length buffer.old }
    ensures table { seat.new.table_id ≡ seat.old.table_id }
    ensures same { seat.new.me ≡ seat.old.me }
    ensures within { result.0 ≤ length buffer.old }
    ensures written { (all : Pairs ℕ) → Contains M.pairs M.limit lock.now all seat.old.me.1
        → (done : Pairs ℕ) (before : List E) → AreWritten M.entry done before written buffer.old
        → written ≡ length done
        → AreWritten M.entry (done ++ between all first.0 (end + 1)) before result.0 buffer.new }
    ensures next { (all : Pairs ℕ) → Contains M.pairs M.limit lock.now all seat.old.me.1
        → result.1 ≡ pair_near (kept (keys_at (shard_of lock.now.table.slots)
        (shard_of lock.now.table.slots first.0)) all) (above end) }
{
    let (key, value) = first;
    buffer[written] = M::entry_of(key, value);
    let shard = shard_of_key(key, lock.shards());
    let next = nearest_at(lock, seat, shard, Near::Above(key));
    let Some((more, _)) = next else {
        return (written + 1, next);
    };
    if end < more {
        return (written + 1, next);
    }
    let count = page_rest(lock, seat, key + 1, end, false, written + 1, buffer);
    (count, nearest_at(lock, seat, shard, Near::Above(end)))
}

// Writes the pairs of a run from its last pair on and down to the key `start`, descending. Returns how many are written
// then, and the shard's next pair below the run.
fn run_below<E: Drop, M: Pages<E> + Drop>(
    lock: &PartLock<M>,
    seat: &mut PartSeat<M>,
    last: (u64, u64),
    start: u64,
    written: usize,
    buffer: &mut [E],
) -> (usize, Option<(u64, u64)>)
    requires table { seat.old.table_id ≡ lock.now.table }
    requires shards { IsCount lock.now.table.slots }
    requires order { start ≤ last.0 }
    requires one { (k : ℕ) → start ≤ k → k ≤ last.0
        → shard_of lock.now.table.slots k ≡ shard_of lock.now.table.slots last.0 }
    requires all { (all : Pairs ℕ) × Contains M.pairs M.limit lock.now all seat.old.me.1 }
    requires last { (all : Pairs ℕ) → Contains M.pairs M.limit lock.now all seat.old.me.1
        → lookup all last.0 ≡ Some last.1 }
    requires room { written < length buffer.old }
    ensures table { seat.new.table_id ≡ seat.old.table_id }
    ensures same { seat.new.me ≡ seat.old.me }
    ensures within { result.0 ≤ length buffer.old }
    ensures written { (all : Pairs ℕ) → Contains M.pairs M.limit lock.now all seat.old.me.1
        → (done : Pairs ℕ) (before : List E) → AreWritten M.entry done before written buffer.old
        → written ≡ length done
        → AreWritten M.entry (done ++ reverse (between all start (last.0 + 1)))
        before result.0 buffer.new }
    ensures next { (all : Pairs ℕ) → Contains M.pairs M.limit lock.now all seat.old.me.1
        → result.1 ≡ pair_near (kept (keys_at (shard_of lock.now.table.slots)
        (shard_of lock.now.table.slots last.0)) all) (below start) }
{
    let (key, value) = last;
    buffer[written] = M::entry_of(key, value);
    let shard = shard_of_key(key, lock.shards());
    let next = nearest_at(lock, seat, shard, Near::Below(key));
    let Some((more, _)) = next else {
        return (written + 1, next);
    };
    if more < start {
        return (written + 1, next);
    }
    let count = page_rest(lock, seat, start, key - 1, true, written + 1, buffer);
    (count, nearest_at(lock, seat, shard, Near::Below(start)))
}

// Writes the first pairs with keys above `key` and up to `last` to what is left of a buffer in which so many are written,
// ascending. Returns how many are written then.
fn list_above<E: Drop, M: Pages<E> + Drop>(
    lock: &PartLock<M>,
    seat: &mut PartSeat<M>,
    key: u64,
    last: u64,
    written: usize,
    buffer: &mut [E],
) -> usize
    requires table { seat.old.table_id ≡ lock.now.table }
    requires shards { IsCount lock.now.table.slots }
    requires order { key < last }
    requires all { (all : Pairs ℕ) × Contains M.pairs M.limit lock.now all seat.old.me.1 }
    requires room { written < length buffer.old }
    ensures table { seat.new.table_id ≡ seat.old.table_id }
    ensures same { seat.new.me ≡ seat.old.me }
    ensures written { (all : Pairs ℕ) → Contains M.pairs M.limit lock.now all seat.old.me.1
        → (done : Pairs ℕ) (before : List E) → AreWritten M.entry done before written buffer.old
        → written ≡ length done
        → AreWritten M.entry (done ++ between all (key + 1) (last + 1)) before result buffer.new }
{
    let shards = lock.shards();
    let mut key = key;
    let mut written = written;
    let mut next_pairs = nearest_of_each(lock, seat, Near::Above(key));
    'runs: loop {
        let Some(first) = nearest_in(Near::Above(key), &next_pairs, shards) else {
            return written;
        };
        if last < first.0 {
            return written;
        }
        let end = run_end(first.0, last, shards);
        let (count, next) = run_above(lock, seat, first, end, written, buffer);
        if count == buffer.len() || end == last {
            return count;
        }
        next_pairs[shard_of_key(first.0, shards)] = next;
        written = count;
        key = end;
    }
}

// Writes the last pairs with keys below `key` and from `start` on, descending, run by run, with the next pair of each
// shard at hand. Returns how many are written then.
fn list_under<E: Drop, M: Pages<E> + Drop>(
    lock: &PartLock<M>,
    seat: &mut PartSeat<M>,
    key: u64,
    start: u64,
    written: usize,
    buffer: &mut [E],
) -> usize
    requires table { seat.old.table_id ≡ lock.now.table }
    requires shards { IsCount lock.now.table.slots }
    requires order { start < key }
    requires all { (all : Pairs ℕ) × Contains M.pairs M.limit lock.now all seat.old.me.1 }
    requires room { written < length buffer.old }
    ensures table { seat.new.table_id ≡ seat.old.table_id }
    ensures same { seat.new.me ≡ seat.old.me }
    ensures written { (all : Pairs ℕ) → Contains M.pairs M.limit lock.now all seat.old.me.1
        → (done : Pairs ℕ) (before : List E) → AreWritten M.entry done before written buffer.old
        → written ≡ length done
        → AreWritten M.entry (done ++ reverse (between all start key)) before result buffer.new }
{
    let shards = lock.shards();
    let mut key = key;
    let mut written = written;
    let mut next_pairs = nearest_of_each(lock, seat, Near::Below(key));
    'runs: loop {
        let Some(last) = nearest_in(Near::Below(key), &next_pairs, shards) else {
            return written;
        };
        if last.0 < start {
            return written;
        }
        let first = run_start(last.0, start, shards);
        let (count, next) = run_below(lock, seat, last, first, written, buffer);
        if count == buffer.len() || first == start {
            return count;
        }
        next_pairs[shard_of_key(last.0, shards)] = next;
        written = count;
        key = first;
    }
}

/// Writes the first pairs with keys from `start` to `last` to the buffer, ascending, as many as there are or as fit, and
/// returns how many.
pub fn list<E: Drop, M: Pages<E> + Drop>(
    lock: &PartLock<M>,
    seat: &mut PartSeat<M>,
    start: u64,
    last: u64,
    buffer: &mut [E],
) -> usize
    requires table { seat.old.table_id ≡ lock.now.table }
    requires shards { IsCount lock.now.table.slots }
    requires all { (all : Pairs ℕ) × Contains M.pairs M.limit lock.now all seat.old.me.1 }
    ensures table { seat.new.table_id ≡ seat.old.table_id }
    ensures same { seat.new.me ≡ seat.old.me }
    ensures written { (all : Pairs ℕ) → Contains M.pairs M.limit lock.now all seat.old.me.1
        → AreWritten M.entry (between all start (last + 1)) buffer.old result buffer.new }
{
    if last < start {
        return 0;
    }
    let mut from = start;
    let mut written = 0;
    'runs: loop {
        let end = run_end(from, last, lock.shards());
        written = page_rest(lock, seat, from, end, false, written, buffer);
        if written == buffer.len() || end == last {
            return written;
        }
        let Some((next, _)) = nearest_in_run(lock, seat, Near::Ceiling(end + 1)) else {
            return list_above(lock, seat, end, last, written, buffer);
        };
        if last < next {
            return written;
        }
        from = next;
    }
}

/// Writes the first pairs with keys from `start` on and below `end` to the buffer, ascending, as many as there are or
/// as fit, and returns how many.
pub fn list_below<E: Drop, M: Pages<E> + Drop>(
    lock: &PartLock<M>,
    seat: &mut PartSeat<M>,
    start: u64,
    end: u64,
    buffer: &mut [E],
) -> usize
    requires table { seat.old.table_id ≡ lock.now.table }
    requires shards { IsCount lock.now.table.slots }
    requires all { (all : Pairs ℕ) × Contains M.pairs M.limit lock.now all seat.old.me.1 }
    ensures table { seat.new.table_id ≡ seat.old.table_id }
    ensures same { seat.new.me ≡ seat.old.me }
    ensures written { (all : Pairs ℕ) → Contains M.pairs M.limit lock.now all seat.old.me.1
        → AreWritten M.entry (between all start end) buffer.old result buffer.new }
{
    if end == 0 {
        return 0;
    }
    list(lock, seat, start, end - 1, buffer)
}

/// Writes the last pairs with keys from `start` to `last`, descending.
pub fn list_back<E: Drop, M: Pages<E> + Drop>(
    lock: &PartLock<M>,
    seat: &mut PartSeat<M>,
    start: u64,
    last: u64,
    buffer: &mut [E],
) -> usize
    requires table { seat.old.table_id ≡ lock.now.table }
    requires shards { IsCount lock.now.table.slots }
    requires all { (all : Pairs ℕ) × Contains M.pairs M.limit lock.now all seat.old.me.1 }
    ensures table { seat.new.table_id ≡ seat.old.table_id }
    ensures same { seat.new.me ≡ seat.old.me }
    ensures written { (all : Pairs ℕ) → Contains M.pairs M.limit lock.now all seat.old.me.1
        → AreWritten M.entry (reverse (between all start (last + 1))) buffer.old result buffer.new }
{
    if last < start {
        return 0;
    }
    let mut to = last;
    let mut written = 0;
    'runs: loop {
        let first = run_start(to, start, lock.shards());
        written = page_rest(lock, seat, first, to, true, written, buffer);
        if written == buffer.len() || first == start {
            return written;
        }
        let Some((next, _)) = nearest_in_run(lock, seat, Near::Floor(first - 1)) else {
            return list_under(lock, seat, first, start, written, buffer);
        };
        if next < start {
            return written;
        }
        to = next;
    }
}
