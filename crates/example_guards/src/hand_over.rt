//! What one caller stores, another finds.

ghost use Rattle.std.specs.Prelude.{◌≡◌, IfOk};
ghost use Rattle.example_guards.specs.Callers.{HandedOver};

use crate::Map;
use congee::OOMError;
use congee::guard_laws::a_get_finds_what_was_inserted;
use congee::locked::{Guard, meet};
use std::sync::Wait;
use std::sync::ledger::Ledger;

/// The giver stores the value, the two guards meet, and the taker looks the key up. It finds the value, unless somebody
/// changes the key in between; what was done in between is known then.
pub fn hand_over<L: Ledger, R: Wait>(
    rt: &R,
    map: &Map<L>,
    giver: &mut Guard<'_, L>,
    taker: &mut Guard<'_, L>,
    key: u64,
    value: u64,
) -> Result<Option<u64>, OOMError>
    requires giver { giver.old.table ≡ map.now }
    requires taker { taker.old.table ≡ map.now }
    ensures found { IfOk result (λ found.
        HandedOver giver.old.caller taker.old.caller key value found taker.new.seen) }
{
    a_get_finds_what_was_inserted::<u64>();
    map.insert(rt, giver, key, value)?;
    meet(giver, taker);
    Ok(map.get(rt, taker, &key))
}
