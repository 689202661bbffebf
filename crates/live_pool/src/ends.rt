//! The first pair of a range of keys, and the last one, found while others write.
ghost use Rattle.std.specs.Prelude.{◌≡◌, ◌+◌, true, false, IfOk, OnErr};
ghost use Rattle.live_scans.specs.Scans.{GaveUp};
ghost use Rattle.live_pool.specs.Pops.{HasEnd};

use live_growth::map::{Busy, Congee, Guard};
use live_scans::{floors, scans};

// The pair with the least key from `low` to `last`.
fn first_within(
    map: &Congee,
    guard: &mut Guard,
    low: u64,
    last: u64,
) -> Result<Option<(u64, u64)>, Busy>
    requires map { guard.old.book ≡ map.now }
    ensures map { guard.new.book ≡ guard.old.book }
    ensures found { IfOk result (λ found. HasEnd true low (last + 1) guard.old found guard.new) }
    ensures busy { OnErr result (GaveUp guard.old guard.new) }
{
    let found = scans::ceiling(map, guard, low)?;
    let Some(pair) = found else {
        return Ok(None);
    };
    if pair.0 > last {
        return Ok(None);
    }
    Ok(Some(pair))
}

// The pair with the greatest key from `low` to `last`.
fn last_within(
    map: &Congee,
    guard: &mut Guard,
    low: u64,
    last: u64,
) -> Result<Option<(u64, u64)>, Busy>
    requires map { guard.old.book ≡ map.now }
    ensures map { guard.new.book ≡ guard.old.book }
    ensures found { IfOk result (λ found. HasEnd false low (last + 1) guard.old found guard.new) }
    ensures busy { OnErr result (GaveUp guard.old guard.new) }
{
    let found = floors::floor(map, guard, last)?;
    let Some(pair) = found else {
        return Ok(None);
    };
    if pair.0 < low {
        return Ok(None);
    }
    Ok(Some(pair))
}

/// The first pair with a key from `low` to `last`, or, downwards, the last one.
pub(crate) fn end_within(
    map: &Congee,
    guard: &mut Guard,
    up: bool,
    low: u64,
    last: u64,
) -> Result<Option<(u64, u64)>, Busy>
    requires map { guard.old.book ≡ map.now }
    ensures map { guard.new.book ≡ guard.old.book }
    ensures found { IfOk result (λ found. HasEnd up low (last + 1) guard.old found guard.new) }
    ensures busy { OnErr result (GaveUp guard.old guard.new) }
{
    if up {
        return first_within(map, guard, low, last);
    }
    last_within(map, guard, low, last)
}
