//! Two threads get or insert at the same keys, add to the same numbers, and pop the same pairs.
ghost use Rattle.live_payloads.specs.Payloads.{IsGuardOf};

use super::{Guard, Inserted, Map, get, insert};
use live_payloads::live::{PayloadCongee, PayloadGuard};
use std::alloc::Global;
use std::sync::{Arc, Wait};
use std::test::Fail;
use std::thread::{Threads, join};

const KEYS: u64 = 2_000;

const TURNS: u64 = 2_000;

// Hands an owner in at each key: how many keys were absent, or none where a call was refused.
fn entered<R: Wait>(rt: &R, alloc: Global, map: &Map, owner: &Arc<u64>) -> Option<usize> {
    let mut guard = map.pin();
    let mut added = 0usize;
    for key in 0..KEYS {
        let one = Arc::try_clone(owner).ok()?;
        let (lent, back) = map.get_or_insert(rt, alloc, &mut guard, key, one).ok()?;
        if back.is_none() {
            if **lent.get() != **owner {
                return None;
            }
            added = added.wrapping_add(1);
        }
    }
    map.unpin(guard);
    Some(added)
}

// Whether each key was absent for one of the two, whose owner it has then.
fn shared_out(a: Option<usize>, b: Option<usize>, one: &Arc<u64>, two: &Arc<u64>) -> bool {
    let (Some(a), Some(b)) = (a, b) else {
        return false;
    };
    a.wrapping_add(b) == KEYS as usize
        && Arc::strong_count(one) == a.wrapping_add(1)
        && Arc::strong_count(two) == b.wrapping_add(1)
}

#[test]
fn each_key_gets_one_payload(rt: HostRuntime) -> Result<(), Fail> {
    let map: Map = Map::new(rt.alloc())?;
    let one = Arc::new(rt.alloc(), 1u64)?;
    let two = Arc::new(rt.alloc(), 2u64)?;
    let (a, b) = join(
        &rt,
        || entered(&rt, rt.alloc(), &map, &one),
        || entered(&rt, rt.alloc(), &map, &two),
    );
    assert!(rt; shared_out(a, b, &one, &two));
    drop(map);
    assert!(rt; Arc::strong_count(&one) == 1 && Arc::strong_count(&two) == 1);
    Ok(())
}

// Pops the first pair or the last until there is none: how many.
fn emptied<R: Wait>(rt: &R, map: &Map, up: bool) -> u64 {
    let mut guard = map.pin();
    for count in 0..KEYS {
        let popped = if up {
            map.pop_first(rt, &mut guard)
        } else {
            map.pop_last(rt, &mut guard)
        };
        if popped.is_none() {
            map.unpin(guard);
            return count;
        }
    }
    map.unpin(guard);
    KEYS
}

#[test]
fn each_pair_is_popped_once(rt: HostRuntime) -> Result<(), Fail> {
    let map: Map = Map::new(rt.alloc())?;
    let one = Arc::new(rt.alloc(), 1u64)?;
    assert!(rt; entered(&rt, rt.alloc(), &map, &one) == Some(KEYS as usize));
    let (a, b) = join(
        &rt,
        || emptied(&rt, &map, true),
        || emptied(&rt, &map, false),
    );
    assert!(rt; a.wrapping_add(b) == KEYS);
    assert!(rt; Arc::strong_count(&one) == 1);
    Ok(())
}

type Numbers = PayloadCongee<u64, u64>;

// Adds one to the key's number. A call that stores takes an absent key for 0.
fn add<R: Wait>(
    rt: &R,
    alloc: Global,
    map: &Numbers,
    guard: &mut PayloadGuard<u64>,
    stores: bool,
) -> bool
    requires { IsGuardOf map.now guard.old }
    ensures { IsGuardOf map.now guard.new }
{
    if stores {
        let mut f = |number: Option<&u64>| match number {
            Some(number) => number.wrapping_add(1),
            None => 1,
        };
        return map.compute_or_insert(rt, alloc, guard, &5, &mut f).is_ok();
    }
    let mut f = |number: &u64| Some(number.wrapping_add(1));
    match map.compute_if_present(rt, alloc, guard, &5, &mut f) {
        Ok(before) => before.is_some(),
        Err(_) => false,
    }
}

fn added<R: Wait>(rt: &R, alloc: Global, map: &Numbers, stores: bool) -> bool {
    let mut guard = map.pin();
    for _ in 0..TURNS {
        if !add(rt, alloc, map, &mut guard, stores) {
            return false;
        }
    }
    map.unpin(guard);
    true
}

// The key's number after two threads have added to it, from 0 or from an absent key on.
fn sum_of<R: Threads + Wait + Sync>(rt: &R, alloc: Global, stores: bool) -> Option<u64> {
    let map: Numbers = PayloadCongee::new(alloc).ok()?;
    let mut guard = map.pin();
    if !stores {
        map.insert(rt, alloc, &mut guard, 5, 0).ok()?;
    }
    let (a, b) = join(
        rt,
        || added(rt, alloc, &map, stores),
        || added(rt, alloc, &map, stores),
    );
    if !a || !b {
        return None;
    }
    let lent = map.get(rt, &mut guard, &5)?;
    Some(*lent.get())
}

#[test]
fn no_addition_is_lost(rt: HostRuntime) {
    assert!(rt; sum_of(&rt, rt.alloc(), false) == Some(TURNS.wrapping_mul(2)));
    assert!(rt; sum_of(&rt, rt.alloc(), true) == Some(TURNS.wrapping_mul(2)));
}
