//! The pairs of a range, which are those of one moment.
//!
//! Tested in `tools/c-library`.

ghost use Rattle.std.specs.Prelude.{◌≡◌, ◌⊎◌, ℕ, ◌+◌, ◌++◌, length, min, take, drop, reverse, pos};
ghost use Rattle.spec_map.specs.Call.{range, ranged};
ghost use Rattle.spec_map.specs.Map.{Pairs};
ghost use Rattle.spec_olc.specs.Runs.{same_number};
ghost use Rattle.share_rule.specs.Known.{MadeCall, MadeCalls};
ghost use Rattle.share_works.specs.Made.{returned, listing};
ghost use Rattle.congee_shared_c.specs.Answer.{busy};
ghost use Rattle.congee_shared_c.specs.Entries.{as_entries};

use crate::handle::Handle;
use crate::{BUSY, Pair};

/// Writes the first pairs with keys from `start` on and below `end`, keys ascending, as many as there are or as fit, and to
/// `out` how many. The rest of the buffer stays. Answers 0 or `BUSY`. Takes no memory.
#[unsafe(no_mangle)]
pub extern "C" fn congee_c_shared_range(
    handle: &mut Handle,
    start: u64,
    end: u64,
    buffer: &mut [Pair],
    out: &mut u64,
) -> i32
    ensures code { (result ≡ pos 0) ⊎ (result ≡ busy) }
    ensures made { result ≡ pos 0 → (pairs : Pairs ℕ)
        × MadeCall same_number handle.old.held.guard
        (returned (range start end (length buffer.old)) (ranged pairs)) handle.new.held.guard
        × (out.new ≡ length pairs)
        × (buffer.new ≡ as_entries pairs ++ drop (length pairs) buffer.old) }
    ensures missed { result ≡ busy → (handle.new.held ≡ handle.old.held)
        × (buffer.new ≡ buffer.old) × (out.new ≡ out.old) }
    ensures place { handle.new.ptr ≡ handle.old.ptr }
{
    match handle.as_mut().guard.range(start, end, buffer) {
        Ok(written) => {
            *out = written as u64;
            0
        }
        Err(_) => BUSY,
    }
}

/// Writes the first pairs with keys from `start` to `last`, both included, keys ascending, as many as there are or as fit,
/// and to `out` how many. The rest of the buffer stays. Answers 0 or `BUSY`. Takes no memory.
#[unsafe(no_mangle)]
pub extern "C" fn congee_c_shared_range_inclusive(
    handle: &mut Handle,
    start: u64,
    last: u64,
    buffer: &mut [Pair],
    out: &mut u64,
) -> i32
    ensures code { (result ≡ pos 0) ⊎ (result ≡ busy) }
    ensures made { result ≡ pos 0 → (pairs : Pairs ℕ)
        × MadeCall same_number handle.old.held.guard
        (returned (range start (last + 1) (length buffer.old)) (ranged pairs)) handle.new.held.guard
        × (out.new ≡ length pairs)
        × (buffer.new ≡ as_entries pairs ++ drop (length pairs) buffer.old) }
    ensures missed { result ≡ busy → (handle.new.held ≡ handle.old.held)
        × (buffer.new ≡ buffer.old) × (out.new ≡ out.old) }
    ensures place { handle.new.ptr ≡ handle.old.ptr }
{
    match handle.as_mut().guard.range_inclusive(start, last, buffer) {
        Ok(written) => {
            *out = written as u64;
            0
        }
        Err(_) => BUSY,
    }
}

/// Writes the last pairs with keys from `start` to `last`, both included, keys descending, as many as there are or as fit,
/// and to `out` how many. The rest of the buffer stays. Answers 0 or `BUSY`. Takes no memory.
#[unsafe(no_mangle)]
pub extern "C" fn congee_c_shared_range_descending(
    handle: &mut Handle,
    start: u64,
    last: u64,
    buffer: &mut [Pair],
    out: &mut u64,
) -> i32
    ensures code { (result ≡ pos 0) ⊎ (result ≡ busy) }
    ensures made { result ≡ pos 0 → (total : ℕ) × (pairs : Pairs ℕ)
        × MadeCalls same_number handle.old.held.guard (listing start (last + 1) total pairs)
        handle.new.held.guard
        × (out.new ≡ min (length buffer.old) (length pairs))
        × (buffer.new ≡ take out.new (as_entries (reverse pairs)) ++ drop out.new buffer.old) }
    ensures missed { result ≡ busy → (handle.new.held ≡ handle.old.held)
        × (buffer.new ≡ buffer.old) × (out.new ≡ out.old) }
    ensures place { handle.new.ptr ≡ handle.old.ptr }
{
    match handle.as_mut().guard.range_descending(start, last, buffer) {
        Ok(written) => {
            *out = written as u64;
            0
        }
        Err(_) => BUSY,
    }
}
