//! Two guards in one thread, which meet.

ghost use Rattle.std.specs.Prelude.{◌≡◌, ◌+◌, ◌^◌, [], IfOk};

use node_table::allocator::DefaultAllocator;
use share_guards::raw::Raw;
use share_holds::gate::NoGate;
use share_state::purse::OwnPurse;
use share_state::state::LockedState;
use share_tree::direct::Direct;
use spec_map::error::OOMError;
use std::alloc::Global;
use std::marker::Brand;
use std::sync::Wait;
use std::sync::ledger::{Blank, Ledger};
use std::test::Fail;

pub(crate) type Tree = Direct<u64, DefaultAllocator>;

pub(crate) type Map<L> = Raw<L, u64, u64, Tree>;

/// An empty map.
pub(crate) fn made<L: Ledger>(alloc: Global, blank: Blank) -> Result<Map<L>, OOMError>
    requires name { blank.name ≡ L.name }
    requires parts { blank.parts ≡ L.parts }
    requires whole { L.parts ≡ 2 ^ 63 + 1 }
{
    let (state, _) = LockedState::<L, u64, u64, Tree>::new(alloc, DefaultAllocator {}, blank)?;
    Raw::new(alloc, state)
}

// One guard stores a value at 1, another at 2. They meet, and each sees what the other stored.
fn two_that_meet<L: Ledger, R: Wait>(
    rt: &R,
    alloc: Global,
    blank: Blank,
) -> Result<[Option<u64>; 5], Fail>
    requires name { blank.name ≡ L.name }
    requires parts { blank.parts ≡ L.parts }
    requires whole { L.parts ≡ 2 ^ 63 + 1 }
{
    let map = made::<L>(alloc, blank)?;
    let mut a = map.pin(rt)?;
    let mut b = map.pin(rt)?;
    let first = map.insert(rt, &mut a, 1, 10, &mut OwnPurse, &mut NoGate)?;
    let second = map.insert(rt, &mut b, 2, 20, &mut OwnPurse, &mut NoGate)?;
    a.meet(&mut b);
    let found = map.get(rt, &mut a, 2, &mut NoGate)?;
    let removed = map.remove_always(rt, &mut b, 1, &mut OwnPurse, &mut NoGate);
    let gone = map.get(rt, &mut a, 1, &mut NoGate)?;
    a.unpin(rt);
    b.unpin(rt);
    Ok([first, second, found, removed, gone])
}

#[test]
fn guards_that_meet(rt: HostRuntime) -> Result<(), Fail> {
    let found = two_that_meet::<Brand, _>(&rt, rt.alloc(), Blank::new((1 << 63) + 1))?;
    assert!(rt; found == [None, None, Some(20), Some(10), None]);
    Ok(())
}

// A guard stores a value at 3, and another one, which it meets, finds it.
fn met_and_found<L: Ledger, R: Wait>(rt: &R, map: &Map<L>) -> Option<u64> {
    let mut a = map.pin(rt).ok()?;
    let mut b = map.pin(rt).ok()?;
    map.insert(rt, &mut a, 3, 30, &mut OwnPurse, &mut NoGate)
        .ok()?;
    a.meet(&mut b);
    map.get(rt, &mut b, 3, &mut NoGate).ok()?
}

// They do so in the closure of a third guard's call, between two of its holds. Returns what was found, and what the call
// has stored.
fn met_in_a_call<L: Ledger, R: Wait>(
    rt: &R,
    alloc: Global,
    blank: Blank,
) -> Result<(Option<u64>, Option<u64>), Fail>
    requires name { blank.name ≡ L.name }
    requires parts { blank.parts ≡ L.parts }
    requires whole { L.parts ≡ 2 ^ 63 + 1 }
{
    let map = made::<L>(alloc, blank)?;
    let mut guard = map.pin(rt)?;
    let mut found = None;
    let mut meets = |_old: Option<u64>| -> u64 {
        found = met_and_found(rt, &map);
        40
    };
    map.compute_or_insert(rt, &mut guard, 4, 0, &mut meets)?;
    let stored = map.get(rt, &mut guard, 4, &mut NoGate)?;
    Ok((found, stored))
}

#[test]
fn guards_meet_in_the_middle_of_a_call(rt: HostRuntime) -> Result<(), Fail> {
    let found = met_in_a_call::<Brand, _>(&rt, rt.alloc(), Blank::new((1 << 63) + 1))?;
    assert!(rt; found == (Some(30), Some(40)));
    Ok(())
}
