//! The ranges, as holds of the locks of all shards.
//!
//! Tested in `tools/c-library`.

ghost use Rattle.std.specs.Prelude.{◌≡◌, ◌+◌, ℕ, [], ◌∷◌, None, IfSome, length, reverse, take};
ghost use Rattle.share_shards.specs.inner.Steps.{HeldBy, IsIdle};
ghost use Rattle.share_visits.specs.Whole.{IsCount};
ghost use Rattle.share_visits.specs.Written.{AreWritten};
ghost use Rattle.share_works.specs.Made.{listing, returned};
ghost use Rattle.spec_map.specs.Call.{range, ranged};
ghost use Rattle.spec_map.specs.Map.{Pairs, between};
ghost use Rattle.spec_olc.specs.Runs.{same_number};

use crate::state::{MapLock, MapSeat, State, TRIES};
use share_visits::ranges::{list, list_back, list_below};
use share_visits::whole::{release_all, take_all};
use std::marker::Brand;
use tree_walk::range_scan::RangeEntry;

/// Writes the first pairs with keys from `start` on and below `end` to the buffer. `None` if a lock stays taken.
pub fn hold_range<E: RangeEntry>(
    lock: &MapLock,
    seat: &mut MapSeat,
    start: u64,
    end: u64,
    buffer: &mut [E],
) -> Option<usize>
    requires table { seat.old.table_id ≡ lock.now.table }
    requires shards { IsCount lock.now.table.slots }
    requires idle { IsIdle seat.old.me }
    ensures table { seat.new.table_id ≡ seat.old.table_id }
    ensures made { IfSome result (λ written. (all : Pairs ℕ) × HeldBy same_number
        (returned (range start end (length buffer.old))
        (ranged (take (length buffer.old) (between all start end))) ∷ []) seat.old.me seat.new.me
        × AreWritten E.entry (between all start end) buffer.old written buffer.new) }
    ensures missed { result ≡ None → (seat.new.me ≡ seat.old.me) × (buffer.new ≡ buffer.old) }
    ensures idle { IsIdle seat.new.me }
{
    if !take_all(lock, seat, TRIES) {
        return None;
    }
    let bounds = (start, end, buffer.len());
    let written = list_below::<E, State>(lock, seat, start, end, buffer);
    release_all::<Brand, State, (u64, u64, usize)>(lock, seat, &bounds);
    Some(written)
}

/// Writes the first pairs with keys from `start` on and up to `last` to the buffer. `None` if a lock stays taken.
pub fn hold_range_inclusive<E: RangeEntry>(
    lock: &MapLock,
    seat: &mut MapSeat,
    start: u64,
    last: u64,
    buffer: &mut [E],
) -> Option<usize>
    requires table { seat.old.table_id ≡ lock.now.table }
    requires shards { IsCount lock.now.table.slots }
    requires idle { IsIdle seat.old.me }
    ensures table { seat.new.table_id ≡ seat.old.table_id }
    ensures made { IfSome result (λ written. (all : Pairs ℕ) × HeldBy same_number
        (returned (range start (last + 1) (length buffer.old))
        (ranged (take (length buffer.old) (between all start (last + 1)))) ∷ [])
        seat.old.me seat.new.me
        × AreWritten E.entry (between all start (last + 1)) buffer.old written buffer.new) }
    ensures missed { result ≡ None → (seat.new.me ≡ seat.old.me) × (buffer.new ≡ buffer.old) }
    ensures idle { IsIdle seat.new.me }
{
    if !take_all(lock, seat, TRIES) {
        return None;
    }
    let bounds = (start, last, buffer.len());
    let written = list::<E, State>(lock, seat, start, last, buffer);
    release_all::<Brand, State, (u64, u64, usize)>(lock, seat, &bounds);
    Some(written)
}

/// Writes the last pairs with keys from `start` to `last` to the buffer, descending. `None` if a lock stays taken.
pub fn hold_range_descending<E: RangeEntry>(
    lock: &MapLock,
    seat: &mut MapSeat,
    start: u64,
    last: u64,
    buffer: &mut [E],
) -> Option<usize>
    requires table { seat.old.table_id ≡ lock.now.table }
    requires shards { IsCount lock.now.table.slots }
    requires idle { IsIdle seat.old.me }
    ensures table { seat.new.table_id ≡ seat.old.table_id }
    ensures made { IfSome result (λ written. (all : Pairs ℕ) × HeldBy same_number
        (listing start (last + 1) (length all) (between all start (last + 1)))
        seat.old.me seat.new.me
        × AreWritten E.entry (reverse (between all start (last + 1)))
        buffer.old written buffer.new) }
    ensures missed { result ≡ None → (seat.new.me ≡ seat.old.me) × (buffer.new ≡ buffer.old) }
    ensures idle { IsIdle seat.new.me }
{
    if !take_all(lock, seat, TRIES) {
        return None;
    }
    let bounds = (start, last);
    let written = list_back::<E, State>(lock, seat, start, last, buffer);
    release_all::<Brand, State, (u64, u64)>(lock, seat, &bounds);
    Some(written)
}
