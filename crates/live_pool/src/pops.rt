//! Pops: a search for the first pair or the last, and the removal of what it found.
ghost use Rattle.std.specs.Prelude.{◌≡◌, ◌+◌, true, false, IfOk, IfSome, IfNone, OnErr};
ghost use Rattle.live_scans.specs.Scans.{GaveUp};
ghost use Rattle.live_pool.specs.Pops.{HasRemoved, HasLost, HasMissed, HasPopped};

use crate::ends::end_within;
use crate::pool::Pool;
use live_growth::map::{Busy, Guard, TRIES};

// One search, and the removal of the pair that it found. `None` where another call removed or changed that pair first.
fn pop_once(
    pool: &Pool,
    guard: &mut Guard,
    up: bool,
    low: u64,
    last: u64,
) -> Result<Option<Option<(u64, u64)>>, Busy>
    requires map { guard.old.book ≡ pool.now }
    ensures map { guard.new.book ≡ guard.old.book }
    ensures removed { IfOk result (λ reply. IfSome reply (λ found.
        HasRemoved up low (last + 1) guard.old found guard.new)) }
    ensures lost { IfOk result (λ reply. IfNone reply
        (HasLost up low (last + 1) guard.old guard.new)) }
    ensures busy { OnErr result (GaveUp guard.old guard.new) }
{
    let found = end_within(&pool.map, guard, up, low, last)?;
    let Some(pair) = found else {
        return Ok(Some(None));
    };
    match pool.compare_exchange(guard, pair.0, pair.1, None)? {
        Ok(_) => Ok(Some(Some(pair))),
        Err(_) => Ok(None),
    }
}

/// Removes the first pair with a key from `low` to `last`, or, downwards, the last one, and returns it. `None` where there is
/// none. Needs no memory. `Busy` if too many writers came in between, or other calls removed or changed first what each of a
/// thousand searches found: then no pair has changed.
pub fn pop(
    pool: &Pool,
    guard: &mut Guard,
    up: bool,
    low: u64,
    last: u64,
) -> Result<Option<(u64, u64)>, Busy>
    requires map { guard.old.book ≡ pool.now }
    ensures map { guard.new.book ≡ guard.old.book }
    ensures popped { IfOk result (λ found. HasPopped up low (last + 1) guard.old found guard.new) }
    ensures busy { OnErr result (HasMissed up low (last + 1) guard.old guard.new) }
{
    for _ in 0..TRIES {
        if let Some(found) = pop_once(pool, guard, up, low, last)? {
            return Ok(found);
        }
    }
    Err(Busy)
}
