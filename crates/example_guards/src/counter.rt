//! A counter that never falls.

ghost use Rattle.std.specs.Prelude.{◌≡◌, Some, IfOk};
ghost use Rattle.example_guards.specs.Callers.{IsCounted};
ghost use Rattle.congee.specs.Keys.{IsAtLeast};

use crate::Map;
use congee::OOMError;
use congee::locked::Guard;
use std::sync::Wait;
use std::sync::ledger::Ledger;

/// Adds one to the number at the key, or stores 1 there, and returns the number before. The greatest number stays. If all
/// calls on this key are such ones, its number never falls (`congee::guard_laws::a_number_only_rises`).
pub fn count<L: Ledger, R: Wait>(
    rt: &R,
    map: &Map<L>,
    guard: &mut Guard<'_, L>,
    key: u64,
) -> Result<Option<u64>, OOMError>
    requires map { guard.old.table ≡ map.now }
    ensures map { guard.new.table ≡ guard.old.table }
    ensures counted { IfOk result (λ before. IsCounted guard.old key before guard.new) }
{
    let mut next = |old: Option<u64>| -> u64
        ensures { IsAtLeast old (Some result) }
    {
        match old {
            None => 1,
            Some(number) => number.saturating_add(1),
        }
    };
    map.compute_or_insert(rt, guard, key, &mut next)
}
