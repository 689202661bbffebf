//! How many pairs there are, read while others write.
//!
//! A reader begins with an entry of its own in the history. Each key is read at a moment after that. So the count is exact where
//! nobody writes, and a key that is there throughout is counted.
//!
//! Tested in `tools/c-library`.

ghost use Rattle.std.specs.Prelude.{◌≡◌, ◌⊎◌, ℕ, pos};
ghost use Rattle.live_scans.specs.Scans.{GaveUp};
ghost use Rattle.live_scans.specs.Counts.{HasCounted};
ghost use Rattle.congee_live_c.specs.Answer.{busy, capped};

use crate::BUSY;
use crate::handle::Handle;
use live_growth::map::Busy;
use live_scans::counts;

/// Writes to `out` how many pairs there are, which saturates at `u64::MAX`, and answers 0, or answers `BUSY`. Reads all nodes
/// that have values. Takes no memory and no lock.
#[unsafe(no_mangle)]
pub extern "C" fn congee_c_live_count(handle: &mut Handle, out: &mut u64) -> i32
    ensures code { (result ≡ pos 0) ⊎ (result ≡ busy) }
    ensures counted { result ≡ pos 0 → (number : ℕ) × (out.new ≡ capped number)
        × HasCounted handle.old.held.guard number handle.new.held.guard }
    ensures missed { result ≡ busy → (out.new ≡ out.old)
        × GaveUp handle.old.held.guard handle.new.held.guard }
    ensures place { handle.new.ptr ≡ handle.old.ptr }
{
    let held = handle.as_mut();
    match counts::count(&held.pool.map, &mut held.guard) {
        Ok(number) => {
            *out = narrowed(number);
            0
        }
        Err(Busy) => BUSY,
    }
}

// The number. It saturates at `u64::MAX`.
pub(crate) fn narrowed(number: u128) -> u64
    ensures { result ≡ capped number }
{
    u64::try_from(number).unwrap_or(u64::MAX)
}
