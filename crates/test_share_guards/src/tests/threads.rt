//! Two threads, each with guards of its own.

ghost use Rattle.std.specs.Prelude.{◌≡◌, ◌+◌, ◌^◌, ◌<◌};

use super::meetings::{Map, Tree, made};
use share_guards::pin::PinError;
use share_guards::raw::Guard;
use share_holds::gate::NoGate;
use share_state::purse::OwnPurse;
use spec_map::error::OOMError;
use std::alloc::Global;
use std::marker::Brand;
use std::sync::Wait;
use std::sync::ledger::{Blank, Ledger};
use std::test::Fail;
use std::thread::{Threads, join};

// Stores a key with a guard, which is then unpinned, and reads it back.
fn stored_by<L: Ledger, R: Wait>(
    rt: &R,
    map: &Map<L>,
    guard: Guard<'_, L, u64, u64, Tree>,
    key: u64,
) -> bool
    requires { guard.table ≡ map.now }
{
    let mut guard = guard;
    let back = comes_back(rt, map, &mut guard, key);
    guard.unpin(rt);
    back
}

// Stores a key with a guard of the key's own, and reads it back. While the other thread is given a seat, the pin is tried
// again.
fn stored_once<L: Ledger, R: Wait>(rt: &R, map: &Map<L>, key: u64) -> bool {
    for _ in 0..1_000_000u32 {
        match map.pin(rt) {
            Ok(guard) => return stored_by(rt, map, guard, key),
            Err(PinError::NoSeat) => {}
            Err(PinError::Oom(_)) => return false,
        }
    }
    false
}

// Stores a key with a guard of the key's own, and reads it back. The pin waits while the other thread is given a seat.
fn stored_waiting<L: Ledger, R: Wait>(rt: &R, map: &Map<L>, key: u64) -> bool {
    match map.pin_waiting(rt) {
        Ok(guard) => stored_by(rt, map, guard, key),
        Err(_) => false,
    }
}

// Stores a thousand keys, each with a guard of its own. Returns how many came back.
fn by_many_guards<L: Ledger, R: Wait>(rt: &R, map: &Map<L>, first: u64, waits: bool) -> u64 {
    let mut back = 0u64;
    for i in 0..1000u64 {
        let key = first.wrapping_add(i);
        let stored = if waits {
            stored_waiting(rt, map, key)
        } else {
            stored_once(rt, map, key)
        };
        if stored {
            back = back.wrapping_add(1);
        }
    }
    back
}

// Whether a key that is stored comes back.
fn comes_back<L: Ledger, R: Wait>(
    rt: &R,
    map: &Map<L>,
    guard: &mut Guard<'_, L, u64, u64, Tree>,
    key: u64,
) -> bool
    requires { guard.old.table ≡ map.now }
    ensures { guard.new.table ≡ guard.old.table }
{
    let Ok(_) = map.insert(rt, guard, key, key, &mut OwnPurse, &mut NoGate) else {
        return false;
    };
    let Ok(found) = map.get(rt, guard, key, &mut NoGate) else {
        return false;
    };
    found == Some(key)
}

// Stores a thousand keys, all with one guard. Returns how many came back.
fn by_one_guard<L: Ledger, R: Wait>(rt: &R, map: &Map<L>, first: u64) -> Result<u64, PinError> {
    let mut guard = map.pin(rt)?;
    let mut back = 0u64;
    for i in 0..1000u64 {
        if comes_back(rt, map, &mut guard, first.wrapping_add(i)) {
            back = back.wrapping_add(1);
        }
    }
    guard.unpin(rt);
    Ok(back)
}

// Two threads store a thousand keys each, with one guard and with a thousand.
fn filled_by_two<L: Ledger + Send + Sync, R: Threads + Wait + Sync>(
    rt: &R,
    alloc: Global,
    blank: Blank,
) -> Result<(u64, u64, usize), Fail>
    requires name { blank.name ≡ L.name }
    requires parts { blank.parts ≡ L.parts }
    requires whole { L.parts ≡ 2 ^ 63 + 1 }
{
    let map = made::<L>(alloc, blank)?;
    let shared = &map;
    let (first, second) = join(
        rt,
        || by_many_guards(rt, shared, 0, false),
        || by_many_guards(rt, shared, 5000, true),
    );
    let third = by_one_guard(rt, shared, 10000)?;
    let keys: Vec<u64> = map.keys(rt, alloc)?;
    Ok((first, second.wrapping_add(third), keys.len()))
}

#[test]
fn two_threads_fill_a_map(rt: HostRuntime) -> Result<(), Fail> {
    let found = filled_by_two::<Brand, _>(&rt, rt.alloc(), Blank::new((1 << 63) + 1))?;
    assert!(rt; found == (1000, 2000, 3000));
    Ok(())
}

// Stores a key by the first guard, and after they meet reads it by the second.
fn is_handed_over<L: Ledger, R: Wait>(
    rt: &R,
    map: &Map<L>,
    first: &mut Guard<'_, L, u64, u64, Tree>,
    second: &mut Guard<'_, L, u64, u64, Tree>,
    key: u64,
) -> bool
    requires first { first.old.table ≡ map.now }
    requires second { second.old.table ≡ map.now }
    ensures first { first.new.table ≡ first.old.table }
    ensures second { second.new.table ≡ second.old.table }
{
    let Ok(_) = map.insert(rt, first, key, key, &mut OwnPurse, &mut NoGate) else {
        return false;
    };
    first.meet(second);
    let Ok(found) = map.get(rt, second, key, &mut NoGate) else {
        return false;
    };
    found == Some(key)
}

// A thousand keys, by two guards of one thread. Returns how many were handed over.
fn hands_over<L: Ledger, R: Wait>(rt: &R, map: &Map<L>, first: u64) -> Result<u64, OOMError> {
    let mut one = map.pin_waiting(rt)?;
    let mut two = map.pin_waiting(rt)?;
    let mut count = 0u64;
    for i in 0..1000u64 {
        if is_handed_over(rt, map, &mut one, &mut two, first.wrapping_add(i)) {
            count = count.wrapping_add(1);
        }
    }
    one.unpin(rt);
    two.unpin(rt);
    Ok(count)
}

// Guards of two threads meet, each with one of its own thread, in the middle of the other thread's calls.
fn met_by_two<L: Ledger + Send + Sync, R: Threads + Wait + Sync>(
    rt: &R,
    alloc: Global,
    blank: Blank,
) -> Result<(u64, u64), Fail>
    requires name { blank.name ≡ L.name }
    requires parts { blank.parts ≡ L.parts }
    requires whole { L.parts ≡ 2 ^ 63 + 1 }
{
    let map = made::<L>(alloc, blank)?;
    let shared = &map;
    let (first, second) = join(
        rt,
        || hands_over(rt, shared, 0),
        || hands_over(rt, shared, 5000),
    );
    Ok((first?, second?))
}

#[test]
fn guards_meet_beside_another_thread(rt: HostRuntime) -> Result<(), Fail> {
    let found = met_by_two::<Brand, _>(&rt, rt.alloc(), Blank::new((1 << 63) + 1))?;
    assert!(rt; found == (1000, 1000));
    Ok(())
}
