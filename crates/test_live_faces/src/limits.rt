//! A map with a limit on the bytes of its segments, which two threads fill.

ghost use Rattle.std.specs.Prelude.{◌≡◌};

use crate::steps::all_hold;
use live_faces::live::{Congee, Guard};
use std::alloc::Global;
use std::process::Abort;
use std::sync::Wait;
use std::test::Fail;
use std::thread::{Threads, join};

type Map = Congee<u64, u64>;

const LIMIT: u64 = 1_000_000;

// Keys far from one another.
fn key_of(i: u64) -> u64 {
    i.wrapping_mul(0x9e3779b97f4a7c15)
}

// Stores every second of the keys, from this one on, until one is refused. How many came in.
fn stored<R: Wait>(rt: &R, alloc: Global, map: &Map, guard: &mut Guard, first: u64) -> u64
    requires { guard.old.book ≡ map.now }
    ensures { guard.new.book ≡ map.now }
{
    let mut count = 0u64;
    let mut i = first;
    for _ in 0..1_000_000u32 {
        if map.insert(rt, alloc, guard, key_of(i), i).is_err() {
            return count;
        }
        count = count.wrapping_add(1);
        i = i.wrapping_add(2);
    }
    count
}

// Stores every second of the keys, from this one on, until one is refused. The guard is the function's own, and is given
// back. How many came in.
fn filled<R: Wait>(rt: &R, alloc: Global, map: &Map, first: u64) -> u64 {
    let mut guard = map.pin();
    let count = stored(rt, alloc, map, &mut guard, first);
    map.unpin(guard);
    count
}

// How many of so many keys have their value, every second from this one on.
fn found<R: Wait>(rt: &R, map: &Map, first: u64, count: u64) -> u64 {
    let mut guard = map.pin();
    let mut right = 0u64;
    let mut i = first;
    for _ in 0..count {
        if map.get(rt, &mut guard, &key_of(i)) == Some(i) {
            right = right.wrapping_add(1);
        }
        i = i.wrapping_add(2);
    }
    right
}

// Removes a key, and stores it again. Whether it was there, and has come in.
fn is_replaced<R: Wait>(rt: &R, alloc: Global, map: &Map, i: u64) -> bool {
    let mut guard = map.pin();
    let gone = map.remove(rt, &mut guard, &key_of(i)) == Some(i);
    let back = map.insert(rt, alloc, &mut guard, key_of(i), i) == Ok(None);
    map.unpin(guard);
    gone && back
}

// By two threads: how many keys each stores until it is refused.
fn by_two<R: Threads + Wait + Sync>(rt: &R, alloc: Global, map: &Map) -> (u64, u64) {
    join(
        rt,
        || filled(rt, alloc, map, 0),
        || filled(rt, alloc, map, 1),
    )
}

// What so many keys of either thread are, in a map that is full.
fn replace_when_full<R: Wait + Abort>(rt: &R, alloc: Global, map: &Map, one: u64, two: u64) {
    let steps = [
        // (one of them may come late)
        one.wrapping_add(two) > 200,
        map.limit() == LIMIT,
        map.usage() == (983_040, LIMIT),
        found(rt, map, 0, one) == one,
        found(rt, map, 1, two) == two,
        one == 0 || is_replaced(rt, alloc, map, 0),
        two == 0 || is_replaced(rt, alloc, map, 1),
        map.charged() == 983_040,
    ];
    all_hold(rt, &steps);
}

#[test]
fn two_threads_fill_a_map_up_to_its_limit(rt: HostRuntime) -> Result<(), Fail> {
    let map: Map = Congee::with_limit(rt.alloc(), LIMIT)?;
    let (one, two) = by_two(&rt, rt.alloc(), &map);
    replace_when_full(&rt, rt.alloc(), &map, one, two);
    Ok(())
}

#[test]
fn a_limit_is_at_least_that_of_one_segment(rt: HostRuntime) -> Result<(), Fail> {
    let refused: Result<Map, _> = Congee::with_limit(rt.alloc(), 4_095);
    assert!(rt; refused.is_err());
    let map: Map = Congee::new(rt.alloc())?;
    assert!(rt; map.limit() == u64::MAX && map.charged() == 4_096);
    Ok(())
}
