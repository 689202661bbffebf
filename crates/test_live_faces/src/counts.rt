//! Counts of all keys, alone and beside four writers.

ghost use Rattle.std.specs.Prelude.{◌≡◌};

use crate::ranges::{KEYS, Keys, fill};
use crate::steps::all_hold;
use live_faces::live::{Congee, Guard};
use spec_map::error::OOMError;
use std::alloc::Global;
use std::process::Abort;
use std::sync::Wait;
use std::test::Fail;
use std::thread::{Threads, join};

type Map = Congee<u64, u64>;

fn count_none<R: Wait + Abort>(rt: &R, map: &Map, guard: &mut Guard)
    requires { guard.old.book ≡ map.now }
{
    let steps = [
        map.value_count(rt, guard) == 0,
        map.try_value_count(guard) == Ok(0),
        map.is_empty(rt, guard),
        map.try_is_empty(guard) == Ok(true),
    ];
    all_hold(rt, &steps);
}

#[test]
fn an_empty_map_has_no_pairs(rt: HostRuntime) -> Result<(), Fail> {
    let map: Map = Congee::new(rt.alloc())?;
    count_none(&rt, &map, &mut map.pin());
    Ok(())
}

fn count_one<R: Wait + Abort>(rt: &R, alloc: Global, map: &Map, guard: &mut Guard)
    requires { guard.old.book ≡ map.now }
{
    let steps = [
        map.insert(rt, alloc, guard, u64::MAX, 5) == Ok(None),
        map.value_count(rt, guard) == 1,
        map.try_is_empty(guard) == Ok(false),
        !map.is_empty(rt, guard),
        map.remove(rt, guard, &u64::MAX) == Some(5),
        map.is_empty(rt, guard),
    ];
    all_hold(rt, &steps);
}

#[test]
fn a_map_whose_pair_was_removed_is_empty(rt: HostRuntime) -> Result<(), Fail> {
    let map: Map = Congee::new(rt.alloc())?;
    count_one(&rt, rt.alloc(), &map, &mut map.pin());
    Ok(())
}

// Whether a map with these keys has as many pairs.
fn counts_all<R: Wait>(rt: &R, alloc: Global, keys: Keys) -> Result<bool, OOMError> {
    let map: Map = Congee::new(alloc)?;
    fill(rt, alloc, &map, keys)?;
    let mut guard = map.pin();
    let once = map.try_value_count(&mut guard) == Ok(keys.count as u128);
    Ok(once && map.value_count(rt, &mut guard) == keys.count as u128)
}

#[test]
fn each_pair_is_counted_once(rt: HostRuntime) -> Result<(), Fail> {
    for keys in KEYS {
        assert!(rt; counts_all(&rt, rt.alloc(), keys)?);
    }
    Ok(())
}

// Keys that are there throughout, in leaves that the writers have too, and those of a writer.
const STAYING: Keys = Keys {
    first: 0,
    step: 5,
    count: 2000,
};

fn keys_of(writer: u64) -> Keys {
    Keys {
        first: writer,
        step: 5,
        count: 2000,
    }
}

fn enter<R: Wait>(rt: &R, alloc: Global, map: &Map, writer: u64) -> bool {
    fill(rt, alloc, map, keys_of(writer)).is_ok()
}

// Four threads insert.
fn enter_all<R: Threads + Wait + Sync>(rt: &R, alloc: Global, map: &Map) -> bool {
    let ((a, b), (c, d)) = join(
        rt,
        || { join(rt, || enter(rt, alloc, map, 1), || enter(rt, alloc, map, 2)) },
        || { join(rt, || enter(rt, alloc, map, 3), || enter(rt, alloc, map, 4)) },
    );
    a && b && c && d
}

// Counts until all keys are there. How many counts were below the last one, or above all.
fn wrong_counts<R: Wait>(rt: &R, map: &Map, all: u128) -> u32 {
    let mut guard = map.pin();
    let mut last = 2000u128;
    let mut wrong = 0u32;
    for _ in 0..100_000u32 {
        let count = map.value_count(rt, &mut guard);
        if count < last || count > all {
            wrong = wrong.wrapping_add(1);
        }
        last = count;
        if count >= all {
            return wrong;
        }
    }
    wrong
}

// What four writers have entered, and how many counts beside them were wrong.
fn count_beside<R: Threads + Wait + Sync>(rt: &R, alloc: Global, map: &Map) -> (bool, u32) {
    join(
        rt,
        || enter_all(rt, alloc, map),
        || wrong_counts(rt, map, 10_000),
    )
}

#[test]
fn a_count_beside_four_writers_is_between_those_before_and_after(
    rt: HostRuntime,
) -> Result<(), Fail> {
    let map: Map = Congee::new(rt.alloc())?;
    fill(&rt, rt.alloc(), &map, STAYING)?;
    assert!(rt; count_beside(&rt, rt.alloc(), &map) == (true, 0));
    assert!(rt; map.value_count(&rt, &mut map.pin()) == 10_000);
    Ok(())
}
