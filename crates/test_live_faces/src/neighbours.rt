//! The first pair and the last, and those next to a key.

ghost use Rattle.std.specs.Prelude.{◌≡◌};

use crate::ranges::{Keys, fill};
use crate::steps::all_hold;
use live_faces::live::{Congee, Guard};
use std::alloc::Global;
use std::process::Abort;
use std::sync::Wait;
use std::test::Fail;

type Map = Congee<u64, u64>;

// The keys 1000, 2000 .. 9000.
const NINE: Keys = Keys {
    first: 1000,
    step: 1000,
    count: 9,
};

// Of these keys: a key, the pair at it or above it, and the one above it.
const NEXT: [(u64, Option<u64>, Option<u64>); 7] = [
    (0, Some(1000), Some(1000)),
    (999, Some(1000), Some(1000)),
    (1000, Some(1000), Some(2000)),
    (1001, Some(2000), Some(2000)),
    (9000, Some(9000), None),
    (9001, None, None),
    (u64::MAX, None, None),
];

fn pair(key: Option<u64>) -> Option<(u64, u64)> {
    let key = key?;
    Some((key, key ^ 1))
}

// The pairs next to each key of the rows.
fn look_upwards<R: Wait + Abort>(rt: &R, map: &Map) {
    for (key, at, above) in NEXT {
        let mut guard = map.pin();
        let found = [
            map.ceiling(rt, &mut guard, &key) == pair(at),
            map.above(rt, &mut guard, &key) == pair(above),
            map.try_ceiling(&mut guard, &key) == Ok(pair(at)),
            map.try_above(&mut guard, &key) == Ok(pair(above)),
        ];
        all_hold(rt, &found);
    }
}

#[test]
fn the_next_pair_is_found(rt: HostRuntime) -> Result<(), Fail> {
    let map: Map = Congee::new(rt.alloc())?;
    fill(&rt, rt.alloc(), &map, NINE)?;
    look_upwards(&rt, &map);
    Ok(())
}

fn find_first<R: Wait + Abort>(rt: &R, alloc: Global, map: &Map, guard: &mut Guard)
    requires { guard.old.book ≡ map.now }
{
    let steps = [
        map.first(rt, guard).is_none(),
        map.insert(rt, alloc, guard, u64::MAX, 5) == Ok(None),
        map.first(rt, guard) == Some((u64::MAX, 5)),
        map.insert(rt, alloc, guard, 1 << 40, 6) == Ok(None),
        map.try_first(guard) == Ok(Some((1 << 40, 6))),
    ];
    all_hold(rt, &steps);
}

#[test]
fn the_first_pair_is_found(rt: HostRuntime) -> Result<(), Fail> {
    let map: Map = Congee::new(rt.alloc())?;
    find_first(&rt, rt.alloc(), &map, &mut map.pin());
    Ok(())
}

// Of the same keys: a key, the pair at it or below it, and the one below it.
const BEFORE: [(u64, Option<u64>, Option<u64>); 7] = [
    (0, None, None),
    (999, None, None),
    (1000, Some(1000), None),
    (1001, Some(1000), Some(1000)),
    (9000, Some(9000), Some(8000)),
    (9001, Some(9000), Some(9000)),
    (u64::MAX, Some(9000), Some(9000)),
];

fn look_downwards<R: Wait + Abort>(rt: &R, map: &Map) {
    for (key, at, below) in BEFORE {
        let mut guard = map.pin();
        let found = [
            map.floor(rt, &mut guard, &key) == pair(at),
            map.below(rt, &mut guard, &key) == pair(below),
            map.try_floor(&mut guard, &key) == Ok(pair(at)),
            map.try_below(&mut guard, &key) == Ok(pair(below)),
        ];
        all_hold(rt, &found);
    }
}

#[test]
fn the_pair_before_is_found(rt: HostRuntime) -> Result<(), Fail> {
    let map: Map = Congee::new(rt.alloc())?;
    fill(&rt, rt.alloc(), &map, NINE)?;
    look_downwards(&rt, &map);
    Ok(())
}

fn find_last<R: Wait + Abort>(rt: &R, alloc: Global, map: &Map, guard: &mut Guard)
    requires { guard.old.book ≡ map.now }
{
    let steps = [
        map.last(rt, guard).is_none(),
        map.insert(rt, alloc, guard, 0, 5) == Ok(None),
        map.last(rt, guard) == Some((0, 5)),
        map.insert(rt, alloc, guard, u64::MAX, 6) == Ok(None),
        map.try_last(guard) == Ok(Some((u64::MAX, 6))),
    ];
    all_hold(rt, &steps);
}

#[test]
fn the_last_pair_is_found(rt: HostRuntime) -> Result<(), Fail> {
    let map: Map = Congee::new(rt.alloc())?;
    find_last(&rt, rt.alloc(), &map, &mut map.pin());
    Ok(())
}

// Keys that part from one another at each height.
const PARTED: [u64; 9] = [
    0x0000000000000001,
    0x0101010101010101,
    0x0101010101010180,
    0x0101010101800000,
    0x0101018000000000,
    0x0180000000000000,
    0x8000000000000000,
    0x80000000000000ff,
    0xffffffffffffff00,
];

// The greatest of these keys up to one, and the least from one on, by a look at each.
fn nearest_of(key: u64) -> (Option<u64>, Option<u64>) {
    let mut low = None;
    let mut high = None;
    for other in PARTED {
        if other <= key {
            low = Some(other);
        }
        if other >= key && high.is_none() {
            high = Some(other);
        }
    }
    (low, high)
}

// How many of the keys are new.
fn enter_parted<R: Wait>(rt: &R, alloc: Global, map: &Map) -> usize {
    let mut new = 0usize;
    for key in PARTED {
        let mut guard = map.pin();
        if map.insert(rt, alloc, &mut guard, key, key ^ 1) == Ok(None) {
            new = new.wrapping_add(1);
        }
    }
    new
}

// The neighbours of nine keys that differ from this one at a byte.
fn look_around<R: Wait + Abort>(rt: &R, map: &Map, key: u64) {
    for step in 0..9u32 {
        let mut guard = map.pin();
        let other = key ^ ((0x80 >> (step % 8)) << (8 * (step % 8)));
        let (low, high) = nearest_of(other);
        assert!(rt; map.floor(rt, &mut guard, &other) == pair(low));
        assert!(rt; map.ceiling(rt, &mut guard, &other) == pair(high));
    }
}

#[test]
fn keys_that_part_at_each_height_have_neighbours(rt: HostRuntime) -> Result<(), Fail> {
    let map: Map = Congee::new(rt.alloc())?;
    assert!(rt; enter_parted(&rt, rt.alloc(), &map) == PARTED.len());
    for key in PARTED {
        look_around(&rt, &map, key);
    }
    Ok(())
}
