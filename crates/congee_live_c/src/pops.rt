//! The first pair or the last, which is removed, and the first pairs of a range.
//!
//! A pop searches the pair as a reader does, and removes it if its value is still the one found. Where another call removed or
//! changed it first, it searches again. So each pair goes to one caller. A key that was there throughout isn't passed.
//!
//! Tested in `tools/c-library`.

ghost use Rattle.std.specs.Prelude.{◌≡◌, ◌≢◌, ◌⊎◌, ◌+◌, ◌≤◌, ◌^◌, true, false, None, Some, pos};
ghost use Rattle.live_scans.specs.Scans.{GaveUp};
ghost use Rattle.live_pool.specs.Pops.{HasMissed, HasPopped};
ghost use Rattle.live_pool.specs.Removals.{HaveRemoved};
ghost use Rattle.congee_live_c.specs.Answer.{busy};
ghost use Rattle.congee_live_c.specs.Pairs.{pair_of};

use crate::handle::Handle;
use crate::next_pair::answer_pair;
use crate::{BUSY, Pair};
use live_growth::map::Busy;
use live_pool::pops::pop;
use live_pool::removals::remove_some;

/// Removes the pair with the least key, if that is at most this one. Writes the pair to `pair` and answers 1, or answers 0 where
/// there is none, or `BUSY`. Needs no memory.
#[unsafe(no_mangle)]
pub extern "C" fn congee_c_live_pop_first_to(handle: &mut Handle, key: u64, pair: &mut Pair) -> i32
    ensures code { (result ≡ pos 0) ⊎ (result ≡ pos 1) ⊎ (result ≡ busy) }
    ensures present { result ≡ pos 1 → HasPopped true 0 (key + 1) handle.old.held.guard
        (Some (pair_of pair.new)) handle.new.held.guard }
    ensures absent { result ≡ pos 0
        → HasPopped true 0 (key + 1) handle.old.held.guard None handle.new.held.guard }
    ensures missed { result ≡ busy
        → HasMissed true 0 (key + 1) handle.old.held.guard handle.new.held.guard }
    ensures kept { result ≢ pos 1 → pair.new ≡ pair.old }
    ensures place { handle.new.ptr ≡ handle.old.ptr }
{
    let held = handle.as_mut();
    answer_pair(pop(&held.pool, &mut held.guard, true, 0, key), pair)
}

/// Removes the pair with the greatest key, if that is at least this one. Writes the pair to `pair` and answers 1, or answers 0
/// where there is none, or `BUSY`. Needs no memory.
#[unsafe(no_mangle)]
pub extern "C" fn congee_c_live_pop_last_from(handle: &mut Handle, key: u64, pair: &mut Pair) -> i32
    ensures code { (result ≡ pos 0) ⊎ (result ≡ pos 1) ⊎ (result ≡ busy) }
    ensures present { result ≡ pos 1 → HasPopped false key (2 ^ 64) handle.old.held.guard
        (Some (pair_of pair.new)) handle.new.held.guard }
    ensures absent { result ≡ pos 0
        → HasPopped false key (2 ^ 64) handle.old.held.guard None handle.new.held.guard }
    ensures missed { result ≡ busy
        → HasMissed false key (2 ^ 64) handle.old.held.guard handle.new.held.guard }
    ensures kept { result ≢ pos 1 → pair.new ≡ pair.old }
    ensures place { handle.new.ptr ≡ handle.old.ptr }
{
    let held = handle.as_mut();
    answer_pair(pop(&held.pool, &mut held.guard, false, key, u64::MAX), pair)
}

/// Removes the first pairs with keys from `start` to `last`: those of one leaf, at most 64. Writes how many to `count`, the last one's
/// key to `reached`, and answers 1, or answers 0 where there is none, or `BUSY`. Needs no memory.
#[unsafe(no_mangle)]
pub extern "C" fn congee_c_live_remove_some(
    handle: &mut Handle,
    start: u64,
    last: u64,
    count: &mut u64,
    reached: &mut u64,
) -> i32
    ensures code { (result ≡ pos 0) ⊎ (result ≡ pos 1) ⊎ (result ≡ busy) }
    ensures inside { result ≡ pos 1 → (start ≤ reached.new) × (reached.new ≤ last) }
    ensures removed { result ≡ pos 1 → HaveRemoved start (last + 1) count.new (reached.new + 1)
        handle.old.held.guard handle.new.held.guard }
    ensures absent { result ≡ pos 0
        → HasPopped true start (last + 1) handle.old.held.guard None handle.new.held.guard }
    ensures missed { result ≡ busy → GaveUp handle.old.held.guard handle.new.held.guard }
    ensures kept { result ≢ pos 1 → (count.new ≡ count.old) × (reached.new ≡ reached.old) }
    ensures place { handle.new.ptr ≡ handle.old.ptr }
{
    let held = handle.as_mut();
    match remove_some(&held.pool, &mut held.guard, start, last) {
        Ok(Some(removed)) => {
            *count = removed.count;
            *reached = removed.last;
            1
        }
        Ok(None) => 0,
        Err(Busy) => BUSY,
    }
}
