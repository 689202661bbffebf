//! The calls on the whole map: its counts, and its removal.
//!
//! Tested in `tools/c-library`.

ghost use Rattle.std.specs.Prelude.{◌≡◌, ◌≤◌, ◌⊎◌, ℕ, true, false, pos};
ghost use Rattle.node_stats.specs.LevelCounts.{capped};
ghost use Rattle.spec_map.specs.Call.{count, counted, is_empty, tested};
ghost use Rattle.spec_map.specs.Map.{Pairs};
ghost use Rattle.spec_olc.specs.Runs.{same_number};
ghost use Rattle.share_rule.specs.Known.{MadeCall, MadeCalls};
ghost use Rattle.share_calls.specs.Charged.{IsCharged};
ghost use Rattle.share_works.specs.Made.{returned, clearing};
ghost use Rattle.congee_shared_c.specs.Answer.{busy};

use crate::BUSY;
use crate::handle::Handle;

/// Writes to `out` how many pairs there are, which saturates at `u64::MAX`, and answers 0, or answers `BUSY`. Takes
/// constant time.
#[unsafe(no_mangle)]
pub extern "C" fn congee_c_shared_count(handle: &mut Handle, out: &mut u64) -> i32
    ensures code { (result ≡ pos 0) ⊎ (result ≡ busy) }
    ensures made { result ≡ pos 0 → (number : ℕ) × MadeCall same_number handle.old.held.guard
        (returned count (counted number)) handle.new.held.guard × (out.new ≡ capped number) }
    ensures missed { result ≡ busy → (handle.new.held ≡ handle.old.held) × (out.new ≡ out.old) }
    ensures place { handle.new.ptr ≡ handle.old.ptr }
{
    match handle.as_mut().guard.count() {
        Ok(number) => {
            *out = narrowed(number);
            0
        }
        Err(_) => BUSY,
    }
}

/// Writes 1 to `out` if there is no pair, and 0 else, and answers 0, or answers `BUSY`.
#[unsafe(no_mangle)]
pub extern "C" fn congee_c_shared_is_empty(handle: &mut Handle, out: &mut u64) -> i32
    ensures code { (result ≡ pos 0) ⊎ (result ≡ busy) }
    ensures bit { result ≡ pos 0 → (out.new ≡ 0) ⊎ (out.new ≡ 1) }
    ensures empty { result ≡ pos 0 → out.new ≡ 1 → MadeCall same_number handle.old.held.guard
        (returned is_empty (tested true)) handle.new.held.guard }
    ensures filled { result ≡ pos 0 → out.new ≡ 0 → MadeCall same_number handle.old.held.guard
        (returned is_empty (tested false)) handle.new.held.guard }
    ensures missed { result ≡ busy → (handle.new.held ≡ handle.old.held) × (out.new ≡ out.old) }
    ensures place { handle.new.ptr ≡ handle.old.ptr }
{
    match handle.as_mut().guard.is_empty() {
        Ok(true) => {
            *out = 1;
            0
        }
        Ok(false) => {
            *out = 0;
            0
        }
        Err(_) => BUSY,
    }
}

/// Writes the sum in bytes of the stated sizes of the map's nodes to `charged`, and the map's limit, which the sum is
/// within, to `limit`, and answers 0, or answers `BUSY`. The sum is of the trees of one moment, one for each shard, whose
/// pairs were counted then. Takes constant time.
#[unsafe(no_mangle)]
pub extern "C" fn congee_c_shared_usage(
    handle: &mut Handle,
    charged: &mut u64,
    limit: &mut u64,
) -> i32
    ensures code { (result ≡ pos 0) ⊎ (result ≡ busy) }
    ensures made { result ≡ pos 0
        → IsCharged handle.old.held.guard charged.new handle.new.held.guard }
    ensures within { result ≡ pos 0 → charged.new ≤ limit.new }
    ensures missed { result ≡ busy → (handle.new.held ≡ handle.old.held)
        × (charged.new ≡ charged.old) × (limit.new ≡ limit.old) }
    ensures place { handle.new.ptr ≡ handle.old.ptr }
{
    match handle.as_mut().guard.usage() {
        Ok((bytes, most)) => {
            *charged = narrowed(bytes);
            *limit = most;
            0
        }
        Err(_) => BUSY,
    }
}

/// Removes all pairs and answers 0, or answers `BUSY`. Of the map's nodes the root stays. Takes no memory, and is never
/// refused.
#[unsafe(no_mangle)]
pub extern "C" fn congee_c_shared_clear(handle: &mut Handle) -> i32
    ensures code { (result ≡ pos 0) ⊎ (result ≡ busy) }
    ensures made { result ≡ pos 0 → (pairs : Pairs ℕ)
        × MadeCalls same_number handle.old.held.guard (clearing pairs) handle.new.held.guard }
    ensures missed { result ≡ busy → handle.new.held ≡ handle.old.held }
    ensures place { handle.new.ptr ≡ handle.old.ptr }
{
    match handle.as_mut().guard.clear() {
        Ok(()) => 0,
        Err(_) => BUSY,
    }
}

// The number; saturates at `u64::MAX`.
fn narrowed(number: u128) -> u64
    ensures { result ≡ capped number }
{
    u64::try_from(number).unwrap_or(u64::MAX)
}
