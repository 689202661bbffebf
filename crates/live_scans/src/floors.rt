//! The calls that find the pair before a key. Each is made by a guard of the map. It begins with an entry of its own in the
//! history, and enters nothing more.
ghost use Rattle.std.specs.Prelude.{◌≡◌, ◌+◌, ◌^◌, IfOk, OnErr};
ghost use Rattle.live_scans.specs.Scans.{GaveUp};
ghost use Rattle.live_scans.specs.Floors.{HasBefore};

use crate::descents::range_descending;
use crate::scans::begin_only;
use live_growth::map::{Busy, Congee, Guard};

/// The pair with the greatest key that is at most this one.
pub fn floor(map: &Congee, guard: &mut Guard, key: u64) -> Result<Option<(u64, u64)>, Busy>
    requires map { guard.old.book ≡ map.now }
    ensures map { guard.new.book ≡ guard.old.book }
    ensures before { IfOk result (λ found. HasBefore guard.old (key + 1) found guard.new) }
    ensures busy { OnErr result (GaveUp guard.old guard.new) }
{
    let mut one = [(0u64, 0u64)];
    let count = range_descending(map, guard, 0, key, &mut one)?;
    if count == 0 {
        return Ok(None);
    }
    Ok(Some(one[0]))
}

/// The pair with the greatest key that is below this one.
pub fn below(map: &Congee, guard: &mut Guard, key: u64) -> Result<Option<(u64, u64)>, Busy>
    requires map { guard.old.book ≡ map.now }
    ensures map { guard.new.book ≡ guard.old.book }
    ensures before { IfOk result (λ found. HasBefore guard.old key found guard.new) }
    ensures busy { OnErr result (GaveUp guard.old guard.new) }
{
    if key == 0 {
        begin_only(map, guard)?;
        return Ok(None);
    }
    floor(map, guard, key - 1)
}

/// The pair with the greatest key of all.
pub fn last(map: &Congee, guard: &mut Guard) -> Result<Option<(u64, u64)>, Busy>
    requires map { guard.old.book ≡ map.now }
    ensures map { guard.new.book ≡ guard.old.book }
    ensures last { IfOk result (λ found. HasBefore guard.old (2 ^ 64) found guard.new) }
    ensures busy { OnErr result (GaveUp guard.old guard.new) }
{
    floor(map, guard, u64::MAX)
}
