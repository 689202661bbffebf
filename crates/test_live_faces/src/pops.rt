//! Pops of both ends, up to a bound, of all forms of nodes, and by threads at once.

ghost use Rattle.std.specs.Prelude.{◌≡◌};

use crate::ranges::{KEYS, Keys, fill};
use crate::steps::all_hold;
use live_faces::live::{Congee, Guard};
use spec_map::error::OOMError;
use std::alloc::Global;
use std::process::Abort;
use std::sync::Wait;
use std::test::Fail;
use std::thread::{Threads, join};

type Map = Congee<u64, u64>;

fn pair(key: Option<u64>) -> Option<(u64, u64)> {
    let key = key?;
    Some((key, key ^ 1))
}

const NINE: Keys = Keys {
    first: 1000,
    step: 1000,
    count: 9,
};

// A map with these keys.
fn nine<R: Wait>(rt: &R, alloc: Global) -> Result<Map, OOMError> {
    let map: Map = Congee::new(alloc)?;
    fill(rt, alloc, &map, NINE)?;
    Ok(map)
}

// Of the keys 1000, 2000 .. 9000 in turn: a bound, and the key that a pop up to it returns.
const FIRST: [(u64, Option<u64>); 7] = [
    (999, None),
    (1000, Some(1000)),
    (1000, None),
    (3500, Some(2000)),
    (3500, Some(3000)),
    (3500, None),
    (u64::MAX, Some(4000)),
];

// Each form of the call pops from a map of its own.
fn pop_upwards<R: Wait + Abort>(rt: &R, map: &Map, other: &Map) {
    for (key, popped) in FIRST {
        let mut guard = map.pin();
        assert!(rt; map.pop_first_to(rt, &mut guard, &key) == pair(popped));
        let mut guard = other.pin();
        assert!(rt; other.try_pop_first_to(&mut guard, &key) == Ok(pair(popped)));
    }
}

#[test]
fn a_pop_up_to_a_key_returns_the_least(rt: HostRuntime) -> Result<(), Fail> {
    let map = nine(&rt, rt.alloc())?;
    let other = nine(&rt, rt.alloc())?;
    pop_upwards(&rt, &map, &other);
    Ok(())
}

// Of these keys in turn: a bound, and the key that a pop from it on returns.
const LAST: [(u64, Option<u64>); 7] = [
    (9001, None),
    (9000, Some(9000)),
    (9000, None),
    (6500, Some(8000)),
    (6500, Some(7000)),
    (6500, None),
    (0, Some(6000)),
];

fn pop_downwards<R: Wait + Abort>(rt: &R, map: &Map, other: &Map) {
    for (key, popped) in LAST {
        let mut guard = map.pin();
        assert!(rt; map.pop_last_from(rt, &mut guard, &key) == pair(popped));
        let mut guard = other.pin();
        assert!(rt; other.try_pop_last_from(&mut guard, &key) == Ok(pair(popped)));
    }
}

#[test]
fn a_pop_from_a_key_on_returns_the_greatest(rt: HostRuntime) -> Result<(), Fail> {
    let map = nine(&rt, rt.alloc())?;
    let other = nine(&rt, rt.alloc())?;
    pop_downwards(&rt, &map, &other);
    Ok(())
}

// Pops both ends of the keys 0, 1000, 2000 .. 9000 and the greatest one.
fn pop_ends<R: Wait + Abort>(rt: &R, alloc: Global, map: &Map, guard: &mut Guard)
    requires { guard.old.book ≡ map.now }
{
    let steps = [
        map.pop_last(rt, guard).is_none(),
        fill(rt, alloc, map, NINE).is_ok(),
        map.insert(rt, alloc, guard, u64::MAX, 5) == Ok(None),
        map.insert(rt, alloc, guard, 0, 6) == Ok(None),
        map.pop_last(rt, guard) == Some((u64::MAX, 5)),
        map.try_pop_last(guard) == Ok(Some((9000, 9001))),
        map.pop_first(rt, guard) == Some((0, 6)),
        map.try_pop_first(guard) == Ok(Some((1000, 1001))),
    ];
    all_hold(rt, &steps);
}

#[test]
fn a_pop_returns_an_end(rt: HostRuntime) -> Result<(), Fail> {
    let map: Map = Congee::new(rt.alloc())?;
    pop_ends(&rt, rt.alloc(), &map, &mut map.pin());
    Ok(())
}

// Pops all keys from below, and one more. How many come in order.
fn rising<R: Wait>(rt: &R, map: &Map, keys: Keys) -> u32 {
    let mut guard = map.pin();
    let mut key = keys.first;
    let mut right = 0u32;
    for _ in 0..keys.count {
        if map.pop_first(rt, &mut guard) == Some((key, key ^ 1)) {
            right = right.wrapping_add(1);
        }
        key = key.wrapping_add(keys.step);
    }
    if map.pop_first(rt, &mut guard).is_some() {
        0
    } else {
        right
    }
}

// Pops all keys from above, and one more. How many come in order.
fn falling<R: Wait>(rt: &R, map: &Map, keys: Keys) -> u32 {
    let mut guard = map.pin();
    let mut key = keys
        .first
        .wrapping_add(keys.step.wrapping_mul(u64::from(keys.count)));
    let mut right = 0u32;
    for _ in 0..keys.count {
        key = key.wrapping_sub(keys.step);
        if map.pop_last(rt, &mut guard) == Some((key, key ^ 1)) {
            right = right.wrapping_add(1);
        }
    }
    if map.pop_last(rt, &mut guard).is_some() {
        0
    } else {
        right
    }
}

// The keys come in order from below, and once they are there again, from above.
fn pop_all<R: Wait + Abort>(rt: &R, alloc: Global, map: &Map, keys: Keys) {
    let steps = [
        fill(rt, alloc, map, keys).is_ok(),
        rising(rt, map, keys) == keys.count,
        fill(rt, alloc, map, keys).is_ok(),
        falling(rt, map, keys) == keys.count,
    ];
    all_hold(rt, &steps);
}

#[test]
fn pops_return_all_pairs_in_order(rt: HostRuntime) -> Result<(), Fail> {
    for keys in KEYS {
        let map: Map = Congee::new(rt.alloc())?;
        pop_all(&rt, rt.alloc(), &map, keys);
    }
    Ok(())
}

// The even keys below this one are there until they are popped. A writer enters the odd ones.
const END: u64 = 6000;

const EVEN: Keys = Keys {
    first: 0,
    step: 2,
    count: 3000,
};

const ODD: Keys = Keys {
    first: 1,
    step: 2,
    count: 3000,
};

// Pops from below until there is none. How many came, or `None` where a pop passed an even key.
fn popped_from_below<R: Wait>(rt: &R, map: &Map) -> Option<u64> {
    let mut guard = map.pin();
    let mut even = 0u64;
    let mut count = 0u64;
    for _ in 0..u64::MAX {
        let Some((key, value)) = map.pop_first(rt, &mut guard) else {
            return Some(count);
        };
        if value != key ^ 1 || (even < END && key > even) {
            return None;
        }
        if key == even {
            even = even.wrapping_add(2);
        }
        count = count.wrapping_add(1);
    }
    None
}

// One thread enters the odd keys, and another one pops.
fn pop_beside<R: Threads + Wait + Sync>(rt: &R, alloc: Global, map: &Map) -> (bool, Option<u64>) {
    join(
        rt,
        || fill(rt, alloc, map, ODD).is_ok(),
        || popped_from_below(rt, map),
    )
}

#[test]
fn a_pop_passes_no_key_that_stays_beside_a_writer(rt: HostRuntime) -> Result<(), Fail> {
    let map: Map = Congee::new(rt.alloc())?;
    fill(&rt, rt.alloc(), &map, EVEN)?;
    let (filled, count) = pop_beside(&rt, rt.alloc(), &map);
    assert!(rt; filled);
    let popped = u128::from(count.unwrap_or(0));
    assert!(rt; popped.wrapping_add(map.clear(&rt, &mut map.pin())) == u128::from(END));
    Ok(())
}

// Pops from one end until there is none: how many, and the sum of their keys. `None` where the keys don't go on from there.
fn popped_in_order<R: Wait>(rt: &R, map: &Map, up: bool) -> Option<(u64, u64)> {
    let mut guard = map.pin();
    let mut from = if up { 0 } else { u64::MAX };
    let mut sum = 0u64;
    for count in 0..u64::MAX {
        let found = if up {
            map.pop_first(rt, &mut guard)
        } else {
            map.pop_last(rt, &mut guard)
        };
        let Some((key, _)) = found else {
            return Some((count, sum));
        };
        if if up { key < from } else { key > from } {
            return None;
        }
        from = key;
        sum = sum.wrapping_add(key);
    }
    None
}

fn added(a: Option<(u64, u64)>, b: Option<(u64, u64)>) -> Option<(u64, u64)> {
    let (a, b) = (a?, b?);
    Some((a.0.wrapping_add(b.0), a.1.wrapping_add(b.1)))
}

// Two threads pop from below: what both have.
fn pop_by_two<R: Threads + Wait + Sync>(rt: &R, map: &Map) -> Option<(u64, u64)> {
    let (a, b) = join(
        rt,
        || popped_in_order(rt, map, true),
        || popped_in_order(rt, map, true),
    );
    added(a, b)
}

// A third one pops from above: what all have.
fn pop_by_three<R: Threads + Wait + Sync>(rt: &R, map: &Map) -> Option<(u64, u64)> {
    let (low, high) = join(
        rt,
        || pop_by_two(rt, map),
        || popped_in_order(rt, map, false),
    );
    added(low, high)
}

#[test]
fn each_pair_goes_to_one_of_three_threads(rt: HostRuntime) -> Result<(), Fail> {
    let map: Map = Congee::new(rt.alloc())?;
    fill(&rt, rt.alloc(), &map, EVEN)?;
    fill(&rt, rt.alloc(), &map, ODD)?;
    assert!(rt; pop_by_three(&rt, &map) == Some((END, END * (END - 1) / 2)));
    Ok(())
}
