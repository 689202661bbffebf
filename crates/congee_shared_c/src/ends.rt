//! The ends of a map, the neighbours of a key, and pops.
//!
//! Tested in `tools/c-library`.

ghost use Rattle.std.specs.Prelude.{◌≡◌, ◌≢◌, ◌⊎◌, None, Some, Ok, Err, pos};
ghost use Rattle.spec_map.specs.Call.{nearest, found, first, last, floor, below, ceiling, above};
ghost use Rattle.spec_olc.specs.Runs.{same_number};
ghost use Rattle.share_rule.specs.Known.{MadeCall, MadeCalls};
ghost use Rattle.share_works.specs.Made.{returned};
ghost use Rattle.share_works.specs.Ends.{popping};
ghost use Rattle.congee_shared_c.specs.Answer.{oom, busy};

use crate::handle::Handle;
use crate::{BUSY, OOM, Pair};
use share_calls::guard::Missed;
use share_visits::near::Near;

/// Writes the pair with the least key to `pair` and answers 1, or answers 0 for an empty map, or `BUSY`. Takes no memory.
#[unsafe(no_mangle)]
pub extern "C" fn congee_c_shared_first(handle: &mut Handle, pair: &mut Pair) -> i32
    ensures code { (result ≡ pos 0) ⊎ (result ≡ pos 1) ⊎ (result ≡ busy) }
    ensures present { result ≡ pos 1 → MadeCall same_number handle.old.held.guard
        (returned (nearest first) (found (Some (pair.new.key, pair.new.value))))
        handle.new.held.guard }
    ensures absent { result ≡ pos 0 → MadeCall same_number handle.old.held.guard
        (returned (nearest first) (found None)) handle.new.held.guard }
    ensures missed { result ≡ busy → handle.new.held ≡ handle.old.held }
    ensures kept { result ≢ pos 1 → pair.new ≡ pair.old }
    ensures place { handle.new.ptr ≡ handle.old.ptr }
{
    answer_pair(handle.as_mut().guard.nearest(Near::First), pair)
}

/// Writes the pair with the greatest key to `pair` and answers 1, or answers 0 for an empty map, or `BUSY`. Takes no
/// memory.
#[unsafe(no_mangle)]
pub extern "C" fn congee_c_shared_last(handle: &mut Handle, pair: &mut Pair) -> i32
    ensures code { (result ≡ pos 0) ⊎ (result ≡ pos 1) ⊎ (result ≡ busy) }
    ensures present { result ≡ pos 1 → MadeCall same_number handle.old.held.guard
        (returned (nearest last) (found (Some (pair.new.key, pair.new.value))))
        handle.new.held.guard }
    ensures absent { result ≡ pos 0 → MadeCall same_number handle.old.held.guard
        (returned (nearest last) (found None)) handle.new.held.guard }
    ensures missed { result ≡ busy → handle.new.held ≡ handle.old.held }
    ensures kept { result ≢ pos 1 → pair.new ≡ pair.old }
    ensures place { handle.new.ptr ≡ handle.old.ptr }
{
    answer_pair(handle.as_mut().guard.nearest(Near::Last), pair)
}

/// Writes the pair with the greatest key that is at most this one to `pair` and answers 1, or answers 0 where there is
/// none, or `BUSY`. Takes no memory.
#[unsafe(no_mangle)]
pub extern "C" fn congee_c_shared_floor(handle: &mut Handle, key: u64, pair: &mut Pair) -> i32
    ensures code { (result ≡ pos 0) ⊎ (result ≡ pos 1) ⊎ (result ≡ busy) }
    ensures present { result ≡ pos 1 → MadeCall same_number handle.old.held.guard
        (returned (nearest (floor key)) (found (Some (pair.new.key, pair.new.value))))
        handle.new.held.guard }
    ensures absent { result ≡ pos 0 → MadeCall same_number handle.old.held.guard
        (returned (nearest (floor key)) (found None)) handle.new.held.guard }
    ensures missed { result ≡ busy → handle.new.held ≡ handle.old.held }
    ensures kept { result ≢ pos 1 → pair.new ≡ pair.old }
    ensures place { handle.new.ptr ≡ handle.old.ptr }
{
    answer_pair(handle.as_mut().guard.nearest(Near::Floor(key)), pair)
}

/// Writes the pair with the least key that is at least this one to `pair` and answers 1, or answers 0 where there is none,
/// or `BUSY`. Takes no memory.
#[unsafe(no_mangle)]
pub extern "C" fn congee_c_shared_ceiling(handle: &mut Handle, key: u64, pair: &mut Pair) -> i32
    ensures code { (result ≡ pos 0) ⊎ (result ≡ pos 1) ⊎ (result ≡ busy) }
    ensures present { result ≡ pos 1 → MadeCall same_number handle.old.held.guard
        (returned (nearest (ceiling key)) (found (Some (pair.new.key, pair.new.value))))
        handle.new.held.guard }
    ensures absent { result ≡ pos 0 → MadeCall same_number handle.old.held.guard
        (returned (nearest (ceiling key)) (found None)) handle.new.held.guard }
    ensures missed { result ≡ busy → handle.new.held ≡ handle.old.held }
    ensures kept { result ≢ pos 1 → pair.new ≡ pair.old }
    ensures place { handle.new.ptr ≡ handle.old.ptr }
{
    answer_pair(handle.as_mut().guard.nearest(Near::Ceiling(key)), pair)
}

/// Writes the pair with the greatest key below this one to `pair` and answers 1, or answers 0 where there is none, or
/// `BUSY`. Takes no memory.
#[unsafe(no_mangle)]
pub extern "C" fn congee_c_shared_below(handle: &mut Handle, key: u64, pair: &mut Pair) -> i32
    ensures code { (result ≡ pos 0) ⊎ (result ≡ pos 1) ⊎ (result ≡ busy) }
    ensures present { result ≡ pos 1 → MadeCall same_number handle.old.held.guard
        (returned (nearest (below key)) (found (Some (pair.new.key, pair.new.value))))
        handle.new.held.guard }
    ensures absent { result ≡ pos 0 → MadeCall same_number handle.old.held.guard
        (returned (nearest (below key)) (found None)) handle.new.held.guard }
    ensures missed { result ≡ busy → handle.new.held ≡ handle.old.held }
    ensures kept { result ≢ pos 1 → pair.new ≡ pair.old }
    ensures place { handle.new.ptr ≡ handle.old.ptr }
{
    answer_pair(handle.as_mut().guard.nearest(Near::Below(key)), pair)
}

/// Writes the pair with the least key above this one to `pair` and answers 1, or answers 0 where there is none, or `BUSY`.
/// Takes no memory.
#[unsafe(no_mangle)]
pub extern "C" fn congee_c_shared_above(handle: &mut Handle, key: u64, pair: &mut Pair) -> i32
    ensures code { (result ≡ pos 0) ⊎ (result ≡ pos 1) ⊎ (result ≡ busy) }
    ensures present { result ≡ pos 1 → MadeCall same_number handle.old.held.guard
        (returned (nearest (above key)) (found (Some (pair.new.key, pair.new.value))))
        handle.new.held.guard }
    ensures absent { result ≡ pos 0 → MadeCall same_number handle.old.held.guard
        (returned (nearest (above key)) (found None)) handle.new.held.guard }
    ensures missed { result ≡ busy → handle.new.held ≡ handle.old.held }
    ensures kept { result ≢ pos 1 → pair.new ≡ pair.old }
    ensures place { handle.new.ptr ≡ handle.old.ptr }
{
    answer_pair(handle.as_mut().guard.nearest(Near::Above(key)), pair)
}

/// Removes the pair with the least key, writes it to `pair` and answers 1, or answers 0 for an empty map, or `BUSY`. Is never
/// refused.
#[unsafe(no_mangle)]
pub extern "C" fn congee_c_shared_pop_first(handle: &mut Handle, pair: &mut Pair) -> i32
    ensures code { (result ≡ pos 0) ⊎ (result ≡ pos 1) ⊎ (result ≡ busy) }
    ensures present { result ≡ pos 1 → MadeCalls same_number handle.old.held.guard
        (popping first (Some (pair.new.key, pair.new.value))) handle.new.held.guard }
    ensures absent { result ≡ pos 0 → MadeCalls same_number handle.old.held.guard
        (popping first None) handle.new.held.guard }
    ensures missed { result ≡ busy → handle.new.held ≡ handle.old.held }
    ensures kept { result ≢ pos 1 → pair.new ≡ pair.old }
    ensures place { handle.new.ptr ≡ handle.old.ptr }
{
    answer_pair(handle.as_mut().guard.pop_first(), pair)
}

/// Removes the pair with the greatest key, writes it to `pair` and answers 1, or answers 0 for an empty map, or `BUSY`. Is
/// never refused.
#[unsafe(no_mangle)]
pub extern "C" fn congee_c_shared_pop_last(handle: &mut Handle, pair: &mut Pair) -> i32
    ensures code { (result ≡ pos 0) ⊎ (result ≡ pos 1) ⊎ (result ≡ busy) }
    ensures present { result ≡ pos 1 → MadeCalls same_number handle.old.held.guard
        (popping last (Some (pair.new.key, pair.new.value))) handle.new.held.guard }
    ensures absent { result ≡ pos 0 → MadeCalls same_number handle.old.held.guard
        (popping last None) handle.new.held.guard }
    ensures missed { result ≡ busy → handle.new.held ≡ handle.old.held }
    ensures kept { result ≢ pos 1 → pair.new ≡ pair.old }
    ensures place { handle.new.ptr ≡ handle.old.ptr }
{
    answer_pair(handle.as_mut().guard.pop_last(), pair)
}

// 1 with the pair written to the place, or 0, or why the call wasn't made.
fn answer_pair(found: Result<Option<(u64, u64)>, Missed>, place: &mut Pair) -> i32
    ensures code { (result ≡ pos 0) ⊎ (result ≡ pos 1) ⊎ (result ≡ busy) ⊎ (result ≡ oom) }
    ensures present { result ≡ pos 1 → found ≡ Ok (Some (place.new.key, place.new.value)) }
    ensures absent { result ≡ pos 0 → found ≡ Ok None }
    ensures busy { result ≡ busy → found ≡ Err Missed.Busy }
    ensures oom { result ≡ oom → found ≡ Err Missed.Oom }
    ensures kept { result ≢ pos 1 → place.new ≡ place.old }
{
    match found {
        Ok(Some((key, value))) => {
            *place = Pair { key, value };
            1
        }
        Ok(None) => 0,
        Err(Missed::Busy) => BUSY,
        Err(Missed::Oom) => OOM,
    }
}
