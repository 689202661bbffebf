//! Iterators in both directions: over nodes of each form, by both ends, and beside a writer.

ghost use Rattle.std.specs.Prelude.{◌≡◌};

use crate::ranges::{KEYS, Keys, fill};
use crate::steps::all_hold;
use live_faces::live::Congee;
use std::alloc::Global;
use std::process::Abort;
use std::sync::Wait;
use std::test::Fail;
use std::thread::{Threads, join};

type Map = Congee<u64, u64>;

// How many keys ascend from the first of these on, each with its own value.
fn ascending<R: Wait>(rt: &R, map: &Map) -> u32 {
    let mut right = 0u32;
    let mut next = 0u64;
    for (key, value) in map.iter(rt, map.pin()) {
        if key >= next && value == key ^ 1 {
            right = right.wrapping_add(1);
        }
        next = key.saturating_add(1);
    }
    right
}

// The same of keys that descend.
fn descending<R: Wait>(rt: &R, map: &Map) -> u32 {
    let mut right = 0u32;
    let mut next = u64::MAX;
    for (key, value) in map.iter_descending(rt, map.pin()) {
        if key <= next && value == key ^ 1 {
            right = right.wrapping_add(1);
        }
        next = key.saturating_sub(1);
    }
    right
}

#[test]
fn all_pairs_come_in_order_and_in_reverse(rt: HostRuntime) -> Result<(), Fail> {
    for keys in KEYS {
        let map: Map = Congee::new(rt.alloc())?;
        fill(&rt, rt.alloc(), &map, keys)?;
        assert!(rt; ascending(&rt, &map) == keys.count);
        assert!(rt; descending(&rt, &map) == keys.count);
    }
    Ok(())
}

// The keys from one to another, both included, as digits in base 1,000, and how many there are.
fn digits<R: Wait>(rt: &R, map: &Map, first: u64, last: u64) -> (u64, u64) {
    let mut all = 0u64;
    for (key, _) in map.iter_range_inclusive(rt, map.pin(), &first, &last) {
        all = all.wrapping_mul(1000).wrapping_add(key);
    }
    let mut reverse = 0u64;
    for (key, _) in map.iter_range_descending(rt, map.pin(), &first, &last) {
        reverse = reverse.wrapping_mul(1000).wrapping_add(key);
    }
    (all, reverse)
}

// Of the keys 10, 20 .. 300, by both ends.
fn ranges<R: Wait + Abort>(rt: &R, map: &Map) {
    let steps = [
        digits(rt, map, 0, 9) == (0, 0),
        digits(rt, map, 20, 40) == (20_030_040, 40_030_020),
        digits(rt, map, 21, 39) == (30, 30),
        digits(rt, map, 40, 20) == (0, 0),
        digits(rt, map, 290, u64::MAX) == (290_300, 300_290),
        digits(rt, map, 301, u64::MAX) == (0, 0),
        digits(rt, map, u64::MAX, u64::MAX) == (0, 0),
    ];
    all_hold(rt, &steps);
}

const THIRTY: Keys = Keys {
    first: 10,
    step: 10,
    count: 30,
};

#[test]
fn ranges_have_both_ends(rt: HostRuntime) -> Result<(), Fail> {
    let map: Map = Congee::new(rt.alloc())?;
    fill(&rt, rt.alloc(), &map, THIRTY)?;
    ranges(&rt, &map);
    Ok(())
}

// An iterator that has ended gives no more, and its guard makes further calls.
fn ends<R: Wait>(rt: &R, alloc: Global, map: &Map) -> bool {
    let mut one = map.iter_range_inclusive(rt, map.pin(), &300, &300);
    let first = one.next() == Some((300, 301));
    let none = one.next().is_none() && one.next().is_none();
    let mut two = map.iter(rt, map.pin());
    let begun = two.next() == Some((10, 11));
    let mut guard = two.into_guard();
    let again = map.get(rt, &mut guard, &20) == Some(21);
    first && none && begun && again && map.insert(rt, alloc, &mut guard, 15, 1) == Ok(None)
}

#[test]
fn an_iterator_ends_and_gives_its_guard_back(rt: HostRuntime) -> Result<(), Fail> {
    let map: Map = Congee::new(rt.alloc())?;
    fill(&rt, rt.alloc(), &map, THIRTY)?;
    assert!(rt; ends(&rt, rt.alloc(), &map));
    Ok(())
}

const EVEN: Keys = Keys {
    first: 0,
    step: 2,
    count: 3000,
};

const ODD: Keys = Keys {
    first: 1,
    step: 2,
    count: 3000,
};

// How many even keys come, in both directions.
fn even<R: Wait>(rt: &R, map: &Map) -> (u32, u32) {
    let mut up = 0u32;
    for (key, _) in map.iter(rt, map.pin()) {
        if key % 2 == 0 {
            up = up.wrapping_add(1);
        }
    }
    let mut down = 0u32;
    for (key, _) in map.iter_descending(rt, map.pin()) {
        if key % 2 == 0 {
            down = down.wrapping_add(1);
        }
    }
    (up, down)
}

// One thread enters these keys, and another one goes through all.
fn beside<R: Threads + Wait + Sync>(
    rt: &R,
    alloc: Global,
    map: &Map,
    keys: Keys,
) -> (bool, (u32, u32)) {
    join(rt, || fill(rt, alloc, map, keys).is_ok(), || even(rt, map))
}

#[test]
fn keys_that_are_there_throughout_come(rt: HostRuntime) -> Result<(), Fail> {
    let map: Map = Congee::new(rt.alloc())?;
    fill(&rt, rt.alloc(), &map, EVEN)?;
    assert!(rt; beside(&rt, rt.alloc(), &map, ODD) == (true, (3000, 3000)));
    Ok(())
}
