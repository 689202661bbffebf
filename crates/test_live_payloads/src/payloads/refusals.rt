//! Calls that store a payload, where an allocation is refused. The payload comes back then, and goes in at the next try.
ghost use Rattle.live_payloads.specs.Payloads.{IsGuardOf};

use super::{Guard, Map, get};
use live_payloads::live::{PayloadCongee, PayloadGuard};
use std::alloc::Global;
use std::sync::{Arc, Wait};

const COUNT: u64 = 300;

const STEP: u64 = 0x9e37_79b9_7f4a_7c15;

// A map, also where memory is refused once.
fn made(alloc: Global) -> Option<Map> {
    match Map::new(alloc) {
        Ok(map) => Some(map),
        Err(_) => Map::new(alloc).ok(),
    }
}

// An owner, also where memory is refused once.
fn owner_of(alloc: Global) -> Option<Arc<u64>> {
    match Arc::new(alloc, 5u64) {
        Ok(owner) => Some(owner),
        Err(_) => Arc::new(alloc, 5u64).ok(),
    }
}

// Inserts an owner. What comes back is inserted again.
fn entered<R: Wait>(
    rt: &R,
    alloc: Global,
    map: &Map,
    guard: &mut Guard,
    key: u64,
    one: Arc<u64>,
) -> bool
    requires { IsGuardOf map.now guard.old }
    ensures { IsGuardOf map.now guard.new }
{
    let back = match map.insert(rt, alloc, guard, key, one) {
        Ok(before) => return before.is_none(),
        Err(failed) => failed.value,
    };
    match map.insert(rt, alloc, guard, key, back) {
        Ok(before) => before.is_none(),
        Err(_) => false,
    }
}

// Inserts the owner at keys far from one another: how many of them have it then.
fn filled<R: Wait>(
    rt: &R,
    alloc: Global,
    map: &Map,
    guard: &mut Guard,
    owner: &Arc<u64>,
) -> Option<u64>
    requires { IsGuardOf map.now guard.old }
    ensures { IsGuardOf map.now guard.new }
{
    let mut found = 0u64;
    let mut key = 3u64;
    for _ in 0..COUNT {
        let one = Arc::try_clone(owner).ok()?;
        if entered(rt, alloc, map, guard, key, one) && get(rt, map, guard, key) == Some(5) {
            found = found.wrapping_add(1);
        }
        key = key.wrapping_add(STEP);
    }
    Some(found)
}

// Hands an owner in at an absent key. What comes back is handed in again.
fn added<R: Wait>(
    rt: &R,
    alloc: Global,
    map: &Map,
    guard: &mut Guard,
    key: u64,
    one: Arc<u64>,
) -> bool
    requires { IsGuardOf map.now guard.old }
    ensures { IsGuardOf map.now guard.new }
{
    let back = match map.get_or_insert(rt, alloc, guard, key, one) {
        Ok((_, present)) => return present.is_none(),
        Err(failed) => failed.value,
    };
    match map.get_or_insert(rt, alloc, guard, key, back) {
        Ok((_, present)) => present.is_none(),
        Err(_) => false,
    }
}

// Replaces the key's owner by a further one, also where memory is refused once.
fn replaced<R: Wait>(
    rt: &R,
    alloc: Global,
    map: &Map,
    guard: &mut Guard,
    key: u64,
    owner: &Arc<u64>,
) -> bool
    requires { IsGuardOf map.now guard.old }
    ensures { IsGuardOf map.now guard.new }
{
    let mut f = |_: &Arc<u64>| Arc::try_clone(owner).ok();
    match map.compute_if_present(rt, alloc, guard, &key, &mut f) {
        Ok(before) => return before.is_some(),
        Err(failed) => drop(failed),
    }
    match map.compute_if_present(rt, alloc, guard, &key, &mut f) {
        Ok(before) => before.is_some(),
        Err(_) => false,
    }
}

// Hands an owner in at keys far from one another, and replaces it there: how many of them have it then.
fn exchanged<R: Wait>(
    rt: &R,
    alloc: Global,
    map: &Map,
    guard: &mut Guard,
    owner: &Arc<u64>,
) -> Option<u64>
    requires { IsGuardOf map.now guard.old }
    ensures { IsGuardOf map.now guard.new }
{
    let mut found = 0u64;
    let mut key = 3u64;
    for _ in 0..COUNT {
        let one = Arc::try_clone(owner).ok()?;
        if added(rt, alloc, map, guard, key, one) && replaced(rt, alloc, map, guard, key, owner) {
            found = found.wrapping_add(1);
        }
        key = key.wrapping_add(STEP);
    }
    Some(found)
}

// How many keys have the owner, if there are as many owners.
fn kept<R: Wait>(rt: &R, alloc: Global, by_insertions: bool) -> Option<u64> {
    let map = made(alloc)?;
    let owner = owner_of(alloc)?;
    let mut guard = map.pin();
    let found = if by_insertions {
        filled(rt, alloc, &map, &mut guard, &owner)?
    } else {
        exchanged(rt, alloc, &map, &mut guard, &owner)?
    };
    map.unpin(guard);
    if Arc::strong_count(&owner) as u64 == found.wrapping_add(1) {
        Some(found)
    } else {
        None
    }
}

// It passes whichever allocation is refused.
#[test]
fn refused_memory_loses_no_payload(rt: HostRuntime) {
    assert!(rt; kept(&rt, rt.alloc(), true) == Some(COUNT));
}

// It passes whichever allocation is refused.
#[test]
fn refused_memory_loses_no_computed_payload(rt: HostRuntime) {
    assert!(rt; kept(&rt, rt.alloc(), false) == Some(COUNT));
}

type Numbers = PayloadCongee<u64, u64>;

// Stores 5 at an absent key, also where memory is refused once: the error has the 5 then.
fn stored<R: Wait>(
    rt: &R,
    alloc: Global,
    map: &Numbers,
    guard: &mut PayloadGuard<u64>,
    key: u64,
) -> bool
    requires { IsGuardOf map.now guard.old }
    ensures { IsGuardOf map.now guard.new }
{
    let mut f = |number: Option<&u64>| if number.is_none() { 5 } else { 6 };
    match map.compute_or_insert(rt, alloc, guard, &key, &mut f) {
        Ok(before) => return before.is_none(),
        Err(failed) => {
            if failed.value != 5 {
                return false;
            }
        }
    }
    match map.compute_or_insert(rt, alloc, guard, &key, &mut f) {
        Ok(before) => before.is_none(),
        Err(_) => false,
    }
}

// Stores 5 at keys far from one another, which are absent: how many have it then.
fn stored_at<R: Wait>(rt: &R, alloc: Global, map: &Numbers, guard: &mut PayloadGuard<u64>) -> u64
    requires { IsGuardOf map.now guard.old }
    ensures { IsGuardOf map.now guard.new }
{
    let mut found = 0u64;
    let mut key = 3u64;
    for _ in 0..COUNT {
        if stored(rt, alloc, map, guard, key) {
            found = found.wrapping_add(1);
        }
        key = key.wrapping_add(STEP);
    }
    found
}

// A map of numbers, also where memory is refused once.
fn made_of_numbers(alloc: Global) -> Option<Numbers> {
    match PayloadCongee::new(alloc) {
        Ok(map) => Some(map),
        Err(_) => PayloadCongee::new(alloc).ok(),
    }
}

// How many keys have a number, if there are as many pairs.
fn all_stored<R: Wait>(rt: &R, alloc: Global) -> Option<u64> {
    let map = made_of_numbers(alloc)?;
    let mut guard = map.pin();
    let found = stored_at(rt, alloc, &map, &mut guard);
    if map.value_count(rt, &mut guard) != found as u128 {
        return None;
    }
    map.unpin(guard);
    Some(found)
}

// It passes whichever allocation is refused.
#[test]
fn refused_memory_stores_what_was_computed_later(rt: HostRuntime) {
    assert!(rt; all_stored(&rt, rt.alloc()) == Some(COUNT));
}
