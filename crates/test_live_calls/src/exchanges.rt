//! Exchanges, by one thread and by four.

use crate::calls::{all_hold, looked, put};
use live_growth::map::{Busy, Congee};
use live_updates::calls::compare_exchange;
use std::alloc::Global;
use std::process::Abort;
use std::test::Fail;
use std::thread::{Threads, join};

// What an exchange returns, by a caller of its own.
fn swapped(
    map: &Congee,
    key: u64,
    old: u64,
    new: u64,
) -> Result<Result<Option<u64>, Option<u64>>, Busy> {
    let mut guard = map.pin();
    compare_exchange(map, &mut guard, key, old, Some(new))
}

// The value that is expected, the one to replace it, and what is stored then, of a key that has 5 at first.
const STEPS: [(u64, u64, u64); 6] = [
    (4, 9, 5),
    (5, 8, 8),
    (5, 9, 8),
    (8, 8, 8),
    (8, u64::MAX, u64::MAX),
    (u64::MAX, 0, 0),
];

fn exchange_in_turn(rt: &impl Abort, map: &Congee) {
    let mut now = 5u64;
    for (old, new, then) in STEPS {
        let wanted = if old == now {
            Ok(Ok(Some(new)))
        } else {
            Ok(Err(Some(now)))
        };
        assert!(rt; swapped(map, 0x0102, old, new) == wanted);
        assert!(rt; looked(map, 0x0102) == Ok(Some(then)));
        now = then;
    }
}

#[test]
fn a_value_is_replaced_if_it_is_the_expected_one(rt: HostRuntime) -> Result<(), Fail> {
    let map = Congee::new(rt.alloc())?;
    assert!(rt; put(&map, rt.alloc(), 0x0102, 5) == Ok(None));
    exchange_in_turn(&rt, &map);
    Ok(())
}

// Keys that are absent: beside the one that is there, in a node beside its leaf, and in no node.
const ABSENT: [u64; 4] = [0x0103, 0x0202, 0, u64::MAX];

fn exchange_absent(rt: &impl Abort, alloc: Global, map: &Congee) {
    let steps = [
        swapped(map, 0x0102, 0, 1) == Ok(Err(None)),
        put(map, alloc, 0x0102, 5) == Ok(None),
    ];
    all_hold(rt, &steps);
    for key in ABSENT {
        assert!(rt; swapped(map, key, 0, 1) == Ok(Err(None)));
        assert!(rt; looked(map, key) == Ok(None));
    }
}

#[test]
fn an_absent_key_has_no_value_to_replace(rt: HostRuntime) -> Result<(), Fail> {
    let map = Congee::new(rt.alloc())?;
    exchange_absent(&rt, rt.alloc(), &map);
    Ok(())
}

// Adds 1 to a key's value by exchanges, so often. How often it was added.
fn counted_up(map: &Congee, key: u64, times: u32) -> u32 {
    let mut guard = map.pin();
    let mut done = 0u32;
    let mut expected = 0u64;
    for _ in 0..100_000_000u32 {
        if done >= times {
            return done;
        }
        let next = Some(expected.wrapping_add(1));
        match compare_exchange(map, &mut guard, key, expected, next) {
            Ok(Ok(_)) => {
                done += 1;
                expected = expected.wrapping_add(1);
            }
            Ok(Err(Some(current))) => expected = current,
            Ok(Err(None)) => return done,
            Err(_) => {}
        }
    }
    done
}

// Two threads count up a key.
fn by_two<R: Threads + Sync>(rt: &R, map: &Congee, key: u64, times: u32) -> u32 {
    let (a, b) = join(
        rt,
        || counted_up(map, key, times),
        || counted_up(map, key, times),
    );
    a.wrapping_add(b)
}

// Four threads count up a key from 0. What it has then, if each has added what it was to.
fn by_four<R: Threads + Sync>(rt: &R, alloc: Global, key: u64, times: u32) -> Option<u64> {
    let map = Congee::new(alloc).ok()?;
    let mut guard = map.pin();
    let before = map.insert(&alloc, &mut guard, key, 0);
    let shared = &map;
    let (a, b) = join(
        rt,
        || by_two(rt, shared, key, times),
        || by_two(rt, shared, key, times),
    );
    if before != Ok(None) || a.wrapping_add(b) != times.wrapping_mul(4) {
        return None;
    }
    map.get(&mut guard, key).ok()?
}

#[test]
fn four_threads_that_count_up_lose_none(rt: HostRuntime) {
    assert!(rt; by_four(&rt, rt.alloc(), 0x0102030405060708, 5_000) == Some(20_000));
}
