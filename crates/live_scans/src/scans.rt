//! The calls that read many keys. Each is made by a guard of the map. It begins with an entry of its own in the history, and
//! enters nothing more.
ghost use Rattle.std.specs.Prelude.{◌≡◌, ◌+◌, ◌≤◌, length, take, IfOk, OnErr};
ghost use Rattle.live_layout.specs.Page.{pairs_of};
ghost use Rattle.live_scans.specs.Scans.{HasBegun, GaveUp, HasPage, HasNext};

use crate::bound::Bound;
use crate::page::page;
use crate::seek::start;
use live_growth::map::{Busy, Congee, Guard};
use live_layout::page::RangeEntry;

/// A reader begins, and reads no key.
pub fn begin_only(map: &Congee, guard: &mut Guard) -> Result<(), Busy>
    requires map { guard.old.book ≡ map.now }
    ensures map { guard.new.book ≡ guard.old.book }
    ensures begun { IfOk result (λ _. HasBegun guard.old guard.new) }
    ensures busy { OnErr result (guard.new ≡ guard.old) }
{
    let Some(_) = start(&map.nodes, 0, &mut guard.seat) else {
        return Err(Busy);
    };
    Ok(())
}

/// Writes the pairs with keys from `first` to `last`, ascending, into the buffer, as many as there are or as fit. How many
/// there are. It takes no memory, and what follows in the buffer is unspecified.
pub fn range_inclusive<P: RangeEntry>(
    map: &Congee,
    guard: &mut Guard,
    first: u64,
    last: u64,
    buffer: &mut [P],
) -> Result<usize, Busy>
    requires map { guard.old.book ≡ map.now }
    ensures map { guard.new.book ≡ guard.old.book }
    ensures count { IfOk result (λ count. count ≤ length buffer.old) }
    ensures page { IfOk result (λ count. HasPage guard.old first (last + 1) (length buffer.old)
        (take count (pairs_of P.pair buffer.new)) guard.new) }
    ensures busy { OnErr result (GaveUp guard.old guard.new) }
{
    if first > last {
        begin_only(map, guard)?;
        return Ok(0);
    }
    if buffer.is_empty() {
        begin_only(map, guard)?;
        return Ok(0);
    }
    let Some(root) = start(&map.nodes, first, &mut guard.seat) else {
        return Err(Busy);
    };
    let bound = Bound {
        up: true,
        limit: last,
    };
    let Some(step) = page(
        &map.nodes,
        root,
        &mut guard.room.last,
        first,
        bound,
        buffer,
        &mut guard.seat,
    ) else {
        return Err(Busy);
    };
    Ok(step.count)
}

/// Writes the pairs with keys from `start` on and below `end`, ascending, into the buffer, as many as there are or as fit. How
/// many there are. It takes no memory, and what follows in the buffer is unspecified.
pub fn range<P: RangeEntry>(
    map: &Congee,
    guard: &mut Guard,
    start: u64,
    end: u64,
    buffer: &mut [P],
) -> Result<usize, Busy>
    requires map { guard.old.book ≡ map.now }
    ensures map { guard.new.book ≡ guard.old.book }
    ensures count { IfOk result (λ count. count ≤ length buffer.old) }
    ensures page { IfOk result (λ count. HasPage guard.old start end (length buffer.old)
        (take count (pairs_of P.pair buffer.new)) guard.new) }
    ensures busy { OnErr result (GaveUp guard.old guard.new) }
{
    if end == 0 {
        begin_only(map, guard)?;
        return Ok(0);
    }
    range_inclusive(map, guard, start, end - 1, buffer)
}

/// The pair with the least key that is at least this one.
pub fn ceiling(map: &Congee, guard: &mut Guard, key: u64) -> Result<Option<(u64, u64)>, Busy>
    requires map { guard.old.book ≡ map.now }
    ensures map { guard.new.book ≡ guard.old.book }
    ensures next { IfOk result (λ found. HasNext guard.old key found guard.new) }
    ensures busy { OnErr result (GaveUp guard.old guard.new) }
{
    let mut one = [(0u64, 0u64)];
    let count = range_inclusive(map, guard, key, u64::MAX, &mut one)?;
    if count == 0 {
        return Ok(None);
    }
    Ok(Some(one[0]))
}

/// The pair with the least key that is above this one.
pub fn above(map: &Congee, guard: &mut Guard, key: u64) -> Result<Option<(u64, u64)>, Busy>
    requires map { guard.old.book ≡ map.now }
    ensures map { guard.new.book ≡ guard.old.book }
    ensures next { IfOk result (λ found. HasNext guard.old (key + 1) found guard.new) }
    ensures busy { OnErr result (GaveUp guard.old guard.new) }
{
    if key == u64::MAX {
        begin_only(map, guard)?;
        return Ok(None);
    }
    ceiling(map, guard, key + 1)
}
