//! Many guards in one thread: some are unpinned, in no order, and some are dropped with their numbers.

ghost use Rattle.std.specs.Prelude.{◌≡◌, ◌+◌, ◌^◌};

use super::meetings::{Map, Tree, made};
use share_guards::raw::Guard;
use share_holds::gate::NoGate;
use share_state::purse::OwnPurse;
use std::alloc::Global;
use std::marker::Brand;
use std::sync::Wait;
use std::sync::ledger::{Blank, Ledger};
use std::test::Fail;

// A guard that has stored the number at 5, and what was stored there before.
fn stored<'a, L: Ledger, R: Wait>(
    rt: &R,
    map: &'a Map<L>,
    number: u64,
) -> Result<(Guard<'a, L, u64, u64, Tree>, Option<u64>), Fail> {
    let mut guard = map.pin(rt)?;
    let before = map.insert(rt, &mut guard, 5, number, &mut OwnPurse, &mut NoGate)?;
    Ok((guard, before))
}

// Unpins one of the guards, if there is one, at a place that goes by the number.
fn unpin_one<L: Ledger, R: Wait>(
    rt: &R,
    kept: &mut Vec<Guard<'_, L, u64, u64, Tree>>,
    number: u64,
) {
    if kept.is_empty() {
        return;
    }
    let place = (number.wrapping_mul(7919) as usize) % kept.len();
    kept.swap_remove(place).unpin(rt);
}

// A thousand callers, each of which overwrites what the one before it stored. Every fifth one is dropped. Beside every
// third one another is unpinned, in no order, and the others at the end. Returns the number of pairs, and the last value.
fn a_thousand<L: Ledger, R: Wait>(
    rt: &R,
    alloc: Global,
    blank: Blank,
) -> Result<(u128, Option<u64>), Fail>
    requires name { blank.name ≡ L.name }
    requires parts { blank.parts ≡ L.parts }
    requires whole { L.parts ≡ 2 ^ 63 + 1 }
{
    let map = made::<L>(alloc, blank)?;
    let mut kept = Vec::new(alloc);
    let mut expected = None;
    for number in 0..1000u64 {
        let (guard, before) = stored(rt, &map, number)?;
        if before != expected {
            return Err("a caller saw another value than the last one".into());
        }
        expected = Some(number);
        if number % 5 != 0 {
            kept.push(guard)?;
        }
        if number % 3 == 0 {
            unpin_one(rt, &mut kept, number);
        }
    }
    for guard in kept {
        guard.unpin(rt);
    }
    let mut last = map.pin(rt)?;
    let found = map.get(rt, &mut last, 5, &mut NoGate)?;
    last.unpin(rt);
    Ok((map.pair_count(rt), found))
}

#[test]
fn a_thousand_guards(rt: HostRuntime) -> Result<(), Fail> {
    let found = a_thousand::<Brand, _>(&rt, rt.alloc(), Blank::new((1 << 63) + 1))?;
    assert!(rt; found == (1, Some(999)));
    Ok(())
}
