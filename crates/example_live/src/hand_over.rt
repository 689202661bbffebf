//! What one caller stores, another finds.

ghost use Rattle.std.specs.Prelude.{◌≡◌, IfOk};
ghost use Rattle.example_live.specs.Callers.{HandedOver};

use congee_live::guard_laws::a_get_finds_what_was_inserted;
use congee_live::{Congee, Guard, OOMError, meet};
use std::alloc::Global;
use std::sync::Wait;

/// The giver stores the value, the two guards meet, and the taker looks the key up. It finds the value, unless somebody
/// changes the key in between. What was done in between is known then.
pub fn hand_over<R: Wait>(
    rt: &R,
    alloc: Global,
    map: &Congee<u64, u64>,
    giver: &mut Guard,
    taker: &mut Guard,
    key: u64,
    value: u64,
) -> Result<Option<u64>, OOMError>
    requires giver { giver.old.book ≡ map.now }
    requires taker { taker.old.book ≡ map.now }
    ensures found { IfOk result (λ found.
        HandedOver giver.old.caller taker.old.caller key value found taker.new.seen) }
{
    a_get_finds_what_was_inserted::<u64>();
    map.insert(rt, alloc, giver, key, value)?;
    meet(giver, taker);
    Ok(map.get(rt, taker, &key))
}
