//! The last pair, and the one before a key, found while others write.
//!
//! A reader begins with an entry of its own in the history. Each key that was passed, and that of the pair, was read at a moment
//! after that. No moment is before that of a higher key. So the pair was there, and a key that was there throughout isn't passed.
//!
//! Tested in `tools/c-library`.

ghost use Rattle.std.specs.Prelude.{◌≡◌, ◌≢◌, ◌⊎◌, ◌+◌, ◌^◌, None, Some, pos};
ghost use Rattle.live_scans.specs.Scans.{GaveUp};
ghost use Rattle.live_scans.specs.Floors.{HasBefore};
ghost use Rattle.congee_live_c.specs.Answer.{busy};
ghost use Rattle.congee_live_c.specs.Pairs.{pair_of};

use crate::Pair;
use crate::handle::Handle;
use crate::next_pair::answer_pair;
use live_scans::floors;

/// Writes the pair with the greatest key to `pair` and answers 1, or answers 0 for an empty map, or `BUSY`.
/// Takes no memory and no lock.
#[unsafe(no_mangle)]
pub extern "C" fn congee_c_live_last(handle: &mut Handle, pair: &mut Pair) -> i32
    ensures code { (result ≡ pos 0) ⊎ (result ≡ pos 1) ⊎ (result ≡ busy) }
    ensures present { result ≡ pos 1 → HasBefore handle.old.held.guard (2 ^ 64)
        (Some (pair_of pair.new)) handle.new.held.guard }
    ensures absent { result ≡ pos 0
        → HasBefore handle.old.held.guard (2 ^ 64) None handle.new.held.guard }
    ensures missed { result ≡ busy
        → GaveUp handle.old.held.guard handle.new.held.guard }
    ensures kept { result ≢ pos 1 → pair.new ≡ pair.old }
    ensures place { handle.new.ptr ≡ handle.old.ptr }
{
    let held = handle.as_mut();
    answer_pair(floors::last(&held.pool.map, &mut held.guard), pair)
}

/// Writes the pair with the greatest key that is at most this one to `pair` and answers 1, or answers 0 where there is none, or `BUSY`.
/// Takes no memory and no lock.
#[unsafe(no_mangle)]
pub extern "C" fn congee_c_live_floor(handle: &mut Handle, key: u64, pair: &mut Pair) -> i32
    ensures code { (result ≡ pos 0) ⊎ (result ≡ pos 1) ⊎ (result ≡ busy) }
    ensures present { result ≡ pos 1 → HasBefore handle.old.held.guard (key + 1)
        (Some (pair_of pair.new)) handle.new.held.guard }
    ensures absent { result ≡ pos 0
        → HasBefore handle.old.held.guard (key + 1) None handle.new.held.guard }
    ensures missed { result ≡ busy
        → GaveUp handle.old.held.guard handle.new.held.guard }
    ensures kept { result ≢ pos 1 → pair.new ≡ pair.old }
    ensures place { handle.new.ptr ≡ handle.old.ptr }
{
    let held = handle.as_mut();
    answer_pair(floors::floor(&held.pool.map, &mut held.guard, key), pair)
}

/// Writes the pair with the greatest key below this one to `pair` and answers 1, or answers 0 where there is none, or `BUSY`.
/// Takes no memory and no lock.
#[unsafe(no_mangle)]
pub extern "C" fn congee_c_live_below(handle: &mut Handle, key: u64, pair: &mut Pair) -> i32
    ensures code { (result ≡ pos 0) ⊎ (result ≡ pos 1) ⊎ (result ≡ busy) }
    ensures present { result ≡ pos 1 → HasBefore handle.old.held.guard key
        (Some (pair_of pair.new)) handle.new.held.guard }
    ensures absent { result ≡ pos 0
        → HasBefore handle.old.held.guard key None handle.new.held.guard }
    ensures missed { result ≡ busy
        → GaveUp handle.old.held.guard handle.new.held.guard }
    ensures kept { result ≢ pos 1 → pair.new ≡ pair.old }
    ensures place { handle.new.ptr ≡ handle.old.ptr }
{
    let held = handle.as_mut();
    answer_pair(floors::below(&held.pool.map, &mut held.guard, key), pair)
}
