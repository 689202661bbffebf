//! Ends, neighbours and pops of a map of owners, by the same table of calls.

ghost use Rattle.std.specs.Prelude.{◌≡◌, ◌+◌, ◌^◌};

use super::ends::{Call, ROWS};
use congee::OOMError;
use congee::locked::{CongeeArc, OwnerGuard};
use std::alloc::Global;
use std::marker::Brand;
use std::sync::ledger::{Blank, Ledger};
use std::sync::{Arc, Wait};
use std::test::Fail;

type Map<L> = CongeeArc<L, u64, u64>;

type Found = Result<Option<(u64, Arc<u64>)>, OOMError>;

fn found<L: Ledger, R: Wait>(
    rt: &R,
    map: &Map<L>,
    guard: &mut OwnerGuard<'_, L, u64>,
    call: Call,
) -> Found
    requires { guard.old.table ≡ map.now }
    ensures { guard.new.table ≡ guard.old.table }
{
    match call {
        Call::First => map.first(rt, guard),
        Call::Last => map.last(rt, guard),
        Call::Floor(key) => map.floor(rt, guard, key),
        Call::Below(key) => map.below(rt, guard, key),
        Call::Ceiling(key) => map.ceiling(rt, guard, key),
        Call::Above(key) => map.above(rt, guard, key),
        Call::PopFirst => Ok(map.pop_first(rt, guard)),
        Call::PopLast => Ok(map.pop_last(rt, guard)),
    }
}

// Whether the call found this key and an owner of this value, or none where none is wanted.
fn is_pair(found: Found, wanted: Option<(u64, u64)>) -> bool {
    match (found, wanted) {
        (Ok(Some((key, owner))), Some((number, value))) => key == number && *owner == value,
        (Ok(None), None) => true,
        _ => false,
    }
}

// The number of the rows before the first wrong one.
fn right_rows<L: Ledger, R: Wait>(rt: &R, map: &Map<L>, guard: &mut OwnerGuard<'_, L, u64>) -> usize
    requires { guard.old.table ≡ map.now }
    ensures { guard.new.table ≡ guard.old.table }
{
    let mut right = 0;
    for (call, expected) in ROWS {
        if !is_pair(found(rt, map, guard, call), expected) {
            return right;
        }
        right = right.saturating_add(1);
    }
    right
}

// Puts these pairs into the map.
fn fill<L: Ledger, R: Wait>(
    rt: &R,
    alloc: Global,
    map: &Map<L>,
    guard: &mut OwnerGuard<'_, L, u64>,
) -> Result<(), Fail>
    requires { guard.old.table ≡ map.now }
    ensures { guard.new.table ≡ guard.old.table }
{
    for (key, value) in [(20, 2), (u64::MAX, 3), (10, 1)] {
        map.insert(rt, guard, key, Arc::new(alloc, value)?)?;
    }
    Ok(())
}

// The right rows, and whether no pair is counted in the end.
fn by_rows<L: Ledger, R: Wait>(rt: &R, alloc: Global, blank: Blank) -> Result<(usize, bool), Fail>
    requires name { blank.name ≡ L.name }
    requires parts { blank.parts ≡ L.parts }
    requires whole { L.parts ≡ 2 ^ 63 + 1 }
{
    let (map, share) = Map::<L>::new(alloc, blank)?;
    let mut guard = map.pin(rt)?;
    fill(rt, alloc, &map, &mut guard)?;
    let right = right_rows(rt, &map, &mut guard);
    map.unpin(rt, guard);
    Ok((right, map.settle(rt, share).ok() == Some(0)))
}

#[test]
fn ends_neighbours_and_pops_of_owners(rt: HostRuntime) -> Result<(), Fail> {
    let done = by_rows::<Brand, _>(&rt, rt.alloc(), Blank::new((1 << 63) + 1))?;
    assert!(rt; done == (23, true));
    Ok(())
}

// Whether the owner that a pop returned, and not one more, is what was stored: the only one once the map is gone.
fn popped_owner<L: Ledger, R: Wait>(rt: &R, alloc: Global, blank: Blank) -> Result<bool, Fail>
    requires name { blank.name ≡ L.name }
    requires parts { blank.parts ≡ L.parts }
    requires whole { L.parts ≡ 2 ^ 63 + 1 }
{
    let (map, _share) = Map::<L>::new(alloc, blank)?;
    let mut guard = map.pin(rt)?;
    map.insert(rt, &mut guard, 5, Arc::new(alloc, 50)?)?;
    let one_more = map.first(rt, &mut guard)?;
    let popped = map.pop_first(rt, &mut guard);
    map.unpin(rt, guard);
    Ok(match (one_more, popped) {
        (Some((_, one)), Some((_, other))) => {
            let both = Arc::strong_count(&other) == 2;
            drop(one);
            both && Arc::strong_count(&other) == 1
        }
        _ => false,
    })
}

#[test]
fn a_pop_returns_the_owner_itself(rt: HostRuntime) -> Result<(), Fail> {
    let right = popped_owner::<Brand, _>(&rt, rt.alloc(), Blank::new((1 << 63) + 1))?;
    assert!(rt; right);
    Ok(())
}
