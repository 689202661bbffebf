//! The first pair, and the next one from a key on, found while others write.
//!
//! A reader begins with an entry of its own in the history. Each key that was passed, and that of the pair, was read at a moment
//! after that. No moment is before that of a lower key. So the pair was there, and a key that was there throughout isn't passed.
//!
//! Tested in `tools/c-library`.

ghost use Rattle.std.specs.Prelude.{◌≡◌, ◌≢◌, ◌⊎◌, ◌+◌, None, Some, Ok, Err, pos};
ghost use Rattle.live_growth.specs.declared.map.Busy.{Busy};
ghost use Rattle.live_scans.specs.Scans.{GaveUp, HasNext};
ghost use Rattle.congee_live_c.specs.Answer.{busy};
ghost use Rattle.congee_live_c.specs.Pairs.{pair_of};

use crate::handle::Handle;
use crate::{BUSY, Pair};
use live_growth::map::Busy;
use live_scans::scans;

/// Writes the pair with the least key to `pair` and answers 1, or answers 0 for an empty map, or `BUSY`. Takes no memory and
/// no lock.
#[unsafe(no_mangle)]
pub extern "C" fn congee_c_live_first(handle: &mut Handle, pair: &mut Pair) -> i32
    ensures code { (result ≡ pos 0) ⊎ (result ≡ pos 1) ⊎ (result ≡ busy) }
    ensures present { result ≡ pos 1 → HasNext handle.old.held.guard 0
        (Some (pair_of pair.new)) handle.new.held.guard }
    ensures absent { result ≡ pos 0
        → HasNext handle.old.held.guard 0 None handle.new.held.guard }
    ensures missed { result ≡ busy
        → GaveUp handle.old.held.guard handle.new.held.guard }
    ensures kept { result ≢ pos 1 → pair.new ≡ pair.old }
    ensures place { handle.new.ptr ≡ handle.old.ptr }
{
    let held = handle.as_mut();
    answer_pair(scans::ceiling(&held.pool.map, &mut held.guard, 0), pair)
}

/// Writes the pair with the least key that is at least this one to `pair` and answers 1, or answers 0 where there is none,
/// or `BUSY`. Takes no memory and no lock.
#[unsafe(no_mangle)]
pub extern "C" fn congee_c_live_ceiling(handle: &mut Handle, key: u64, pair: &mut Pair) -> i32
    ensures code { (result ≡ pos 0) ⊎ (result ≡ pos 1) ⊎ (result ≡ busy) }
    ensures present { result ≡ pos 1 → HasNext handle.old.held.guard key
        (Some (pair_of pair.new)) handle.new.held.guard }
    ensures absent { result ≡ pos 0
        → HasNext handle.old.held.guard key None handle.new.held.guard }
    ensures missed { result ≡ busy
        → GaveUp handle.old.held.guard handle.new.held.guard }
    ensures kept { result ≢ pos 1 → pair.new ≡ pair.old }
    ensures place { handle.new.ptr ≡ handle.old.ptr }
{
    let held = handle.as_mut();
    answer_pair(scans::ceiling(&held.pool.map, &mut held.guard, key), pair)
}

/// Writes the pair with the least key above this one to `pair` and answers 1, or answers 0 where there is none, or `BUSY`.
/// Takes no memory and no lock.
#[unsafe(no_mangle)]
pub extern "C" fn congee_c_live_above(handle: &mut Handle, key: u64, pair: &mut Pair) -> i32
    ensures code { (result ≡ pos 0) ⊎ (result ≡ pos 1) ⊎ (result ≡ busy) }
    ensures present { result ≡ pos 1 → HasNext handle.old.held.guard (key + 1)
        (Some (pair_of pair.new)) handle.new.held.guard }
    ensures absent { result ≡ pos 0
        → HasNext handle.old.held.guard (key + 1) None handle.new.held.guard }
    ensures missed { result ≡ busy
        → GaveUp handle.old.held.guard handle.new.held.guard }
    ensures kept { result ≢ pos 1 → pair.new ≡ pair.old }
    ensures place { handle.new.ptr ≡ handle.old.ptr }
{
    let held = handle.as_mut();
    answer_pair(scans::above(&held.pool.map, &mut held.guard, key), pair)
}

// 1 with the pair written to the place, or 0, or `BUSY`.
pub(crate) fn answer_pair(found: Result<Option<(u64, u64)>, Busy>, place: &mut Pair) -> i32
    ensures code { (result ≡ pos 0) ⊎ (result ≡ pos 1) ⊎ (result ≡ busy) }
    ensures present { result ≡ pos 1 → found ≡ Ok (Some (pair_of place.new)) }
    ensures absent { result ≡ pos 0 → found ≡ Ok None }
    ensures busy { result ≡ busy → (why : Busy) × (found ≡ Err why) }
    ensures kept { result ≢ pos 1 → place.new ≡ place.old }
{
    match found {
        Ok(Some((key, value))) => {
            *place = Pair { key, value };
            1
        }
        Ok(None) => 0,
        Err(Busy) => BUSY,
    }
}
