//! A value in a slot, which one thread at a time takes out.
//!
//! The slot's word is `FREE` where nothing of use is in it, `PRESENT` where something is, and `MARKED` while somebody has
//! taken that out.
ghost use Rattle.std.specs.Prelude.{◌<◌, IfOk, IfErr};

use counted_slot::{Counted, Fits, TAKEN};

/// Puts a value into a slot whose word is `old`, and leaves it `new`. Returns what was in it. The value comes back where the
/// word is another.
pub fn swap<X: Fits>(slot: &Counted<X>, old: u64, value: X, new: u64) -> Result<X, X>
    requires words { (old < 3) × (new < 3) }
    requires value { X.fits slot.now value }
    ensures old { IfOk result (X.fits slot.now) }
    ensures back { IfErr result (X.fits slot.now) }
{
    let (found, claim) = slot.turn(old, TAKEN);
    if found != old {
        claim.done();
        return Err(value);
    }
    Ok(claim.put(value, new))
}
