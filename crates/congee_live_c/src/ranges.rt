//! Pages of a range, read while others write.
//!
//! A reader begins with an entry of its own in the history. A page is read leaf by leaf, each at one moment after that. Keys
//! ascend, and no moment is before that of a lower key. Downwards keys descend, and no moment is before that of a greater key. A
//! key that had one value throughout is given with it (`what_stays_is_given` of `live_scans`). It is no snapshot.
//!
//! Tested in `tools/c-library`.

ghost use Rattle.std.specs.Prelude.{◌≡◌, ◌⊎◌, ◌+◌, ◌≤◌, length, take, pos};
ghost use Rattle.live_layout.specs.Page.{pairs_of};
ghost use Rattle.live_scans.specs.Scans.{GaveUp, HasPage};
ghost use Rattle.live_scans.specs.Descents.{HasPageDown};
ghost use Rattle.congee_live_c.specs.Answer.{busy};
ghost use Rattle.congee_live_c.specs.Pairs.{pair_of};

use crate::handle::Handle;
use crate::{BUSY, Pair};
use live_growth::map::Busy;
use live_scans::{descents, scans};

/// Writes pairs with keys from `start` on and below `end`, keys ascending, as many as there are or as fit, and to `out` how
/// many. The buffer's entries after them are unspecified. If the buffer is full, the next page begins behind the last key.
/// Answers 0, or `BUSY`, after which all of the buffer is unspecified. Takes no memory and no lock.
#[unsafe(no_mangle)]
pub extern "C" fn congee_c_live_range(
    handle: &mut Handle,
    start: u64,
    end: u64,
    buffer: &mut [Pair],
    out: &mut u64,
) -> i32
    ensures code { (result ≡ pos 0) ⊎ (result ≡ busy) }
    ensures count { result ≡ pos 0 → out.new ≤ length buffer.old }
    ensures page { result ≡ pos 0 → HasPage handle.old.held.guard start end (length buffer.old)
        (take out.new (pairs_of pair_of buffer.new)) handle.new.held.guard }
    ensures missed { result ≡ busy → (out.new ≡ out.old)
        × GaveUp handle.old.held.guard handle.new.held.guard }
    ensures place { handle.new.ptr ≡ handle.old.ptr }
{
    let held = handle.as_mut();
    match scans::range(&held.pool.map, &mut held.guard, start, end, buffer) {
        Ok(written) => {
            *out = written as u64;
            0
        }
        Err(Busy) => BUSY,
    }
}

/// Writes pairs with keys from `start` to `last`, both included, keys ascending, as many as there are or as fit, and to `out` how
/// many. The buffer's entries after them are unspecified. If the buffer is full, the next page begins behind the last key.
/// Answers 0, or `BUSY`, after which all of the buffer is unspecified. Takes no memory and no lock.
#[unsafe(no_mangle)]
pub extern "C" fn congee_c_live_range_inclusive(
    handle: &mut Handle,
    start: u64,
    last: u64,
    buffer: &mut [Pair],
    out: &mut u64,
) -> i32
    ensures code { (result ≡ pos 0) ⊎ (result ≡ busy) }
    ensures count { result ≡ pos 0 → out.new ≤ length buffer.old }
    ensures page { result ≡ pos 0 → HasPage handle.old.held.guard start (last + 1) (length buffer.old)
        (take out.new (pairs_of pair_of buffer.new)) handle.new.held.guard }
    ensures missed { result ≡ busy → (out.new ≡ out.old)
        × GaveUp handle.old.held.guard handle.new.held.guard }
    ensures place { handle.new.ptr ≡ handle.old.ptr }
{
    let held = handle.as_mut();
    match scans::range_inclusive(&held.pool.map, &mut held.guard, start, last, buffer) {
        Ok(written) => {
            *out = written as u64;
            0
        }
        Err(Busy) => BUSY,
    }
}

/// Writes pairs with keys from `last` down to `start`, both included, keys descending, as many as there are or as fit, and to `out`
/// how many. The buffer's entries after them are unspecified. If the buffer is full, the next page begins below the last key.
/// Answers 0, or `BUSY`, after which all of the buffer is unspecified. Takes no memory and no lock.
#[unsafe(no_mangle)]
pub extern "C" fn congee_c_live_range_descending(
    handle: &mut Handle,
    start: u64,
    last: u64,
    buffer: &mut [Pair],
    out: &mut u64,
) -> i32
    ensures code { (result ≡ pos 0) ⊎ (result ≡ busy) }
    ensures count { result ≡ pos 0 → out.new ≤ length buffer.old }
    ensures page { result ≡ pos 0 → HasPageDown handle.old.held.guard start (last + 1) (length buffer.old)
        (take out.new (pairs_of pair_of buffer.new)) handle.new.held.guard }
    ensures missed { result ≡ busy → (out.new ≡ out.old)
        × GaveUp handle.old.held.guard handle.new.held.guard }
    ensures place { handle.new.ptr ≡ handle.old.ptr }
{
    let held = handle.as_mut();
    match descents::range_descending(&held.pool.map, &mut held.guard, start, last, buffer) {
        Ok(written) => {
            *out = written as u64;
            0
        }
        Err(Busy) => BUSY,
    }
}
