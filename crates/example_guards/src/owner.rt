//! A caller that owns keys, and has a map of its own among them.

ghost use Rattle.std.specs.Prelude.{◌≡◌, Some, IfOk};
ghost use Rattle.example_guards.specs.Callers.{KeepsOwn};

use crate::Map;
use congee::OOMError;
use congee::guard_laws::{a_get_finds_what_was_inserted, an_owner_has_a_map_of_its_own};
use congee::locked::Guard;
use std::sync::Wait;
use std::sync::ledger::Ledger;

/// Stores a value at a key, and looks it up. If the caller owns keys, all of its calls up to these two are a legal run of
/// a map of its own, which has the pairs with these keys.
pub fn keep<L: Ledger, R: Wait>(
    rt: &R,
    map: &Map<L>,
    guard: &mut Guard<'_, L>,
    key: u64,
    value: u64,
) -> Result<Option<u64>, OOMError>
    requires map { guard.old.table ≡ map.now }
    ensures own { IfOk result (λ found. KeepsOwn guard.old key value found guard.new) }
{
    a_get_finds_what_was_inserted::<u64>();
    an_owner_has_a_map_of_its_own::<u64>();
    map.insert(rt, guard, key, value)?;
    Ok(map.get(rt, guard, &key))
}
