//! Removals, and exchanges that remove, by one thread and by two.

use crate::calls::{all_hold, filled, looked, put, removed};
use live_growth::map::{Busy, Congee};
use live_updates::calls::{compare_exchange, remove};
use std::alloc::Global;
use std::process::Abort;
use std::test::Fail;
use std::thread::{Threads, join};

// What an exchange returns, by a caller of its own.
fn exchanged(
    map: &Congee,
    key: u64,
    old: u64,
    new: Option<u64>,
) -> Result<Result<Option<u64>, Option<u64>>, Busy> {
    let mut guard = map.pin();
    compare_exchange(map, &mut guard, key, old, new)
}

// Keys that share some of their bytes, or none. Two leaves have one key alone.
const KEYS: [u64; 7] = [
    0,
    1,
    255,
    256,
    0x0102030405060708,
    0x0102030405060709,
    u64::MAX,
];

// Each key is there until it is removed, and can be inserted again.
fn insert_and_remove(rt: &impl Abort, alloc: Global, map: &Congee) {
    for key in KEYS {
        assert!(rt; removed(map, key) == Ok(None));
        assert!(rt; put(map, alloc, key, key ^ 7) == Ok(None));
    }
    for key in KEYS {
        let steps = [
            removed(map, key) == Ok(Some(key ^ 7)),
            removed(map, key) == Ok(None),
            looked(map, key) == Ok(None),
        ];
        all_hold(rt, &steps);
    }
}

#[test]
fn a_removed_key_is_absent_and_the_others_stay(rt: HostRuntime) -> Result<(), Fail> {
    let map = Congee::new(rt.alloc())?;
    insert_and_remove(&rt, rt.alloc(), &map);
    Ok(())
}

fn insert_again(rt: &impl Abort, alloc: Global, map: &Congee) {
    for key in KEYS {
        let steps = [
            put(map, alloc, key, key ^ 7) == Ok(None),
            removed(map, key) == Ok(Some(key ^ 7)),
            put(map, alloc, key, key ^ 9) == Ok(None),
        ];
        all_hold(rt, &steps);
    }
    for key in KEYS {
        assert!(rt; looked(map, key) == Ok(Some(key ^ 9)));
    }
}

#[test]
fn a_removed_key_is_inserted_again(rt: HostRuntime) -> Result<(), Fail> {
    let map = Congee::new(rt.alloc())?;
    insert_again(&rt, rt.alloc(), &map);
    Ok(())
}

// The value that is expected, the one to replace it, and what an exchange returns, of a key that has 5 at first.
const STEPS: [(u64, Option<u64>, Result<Option<u64>, Option<u64>>); 6] = [
    (4, None, Err(Some(5))),
    (5, Some(8), Ok(Some(8))),
    (5, None, Err(Some(8))),
    (8, None, Ok(None)),
    (8, None, Err(None)),
    (8, Some(8), Err(None)),
];

fn exchange_for_nothing(rt: &impl Abort, alloc: Global, map: &Congee) {
    let before = [
        exchanged(map, 0x0102, 5, None) == Ok(Err(None)),
        put(map, alloc, 0x0102, 5) == Ok(None),
        put(map, alloc, 0x0103, 6) == Ok(None),
    ];
    all_hold(rt, &before);
    for (old, new, wanted) in STEPS {
        assert!(rt; exchanged(map, 0x0102, old, new) == Ok(wanted));
    }
    let behind = [
        looked(map, 0x0102) == Ok(None),
        looked(map, 0x0103) == Ok(Some(6)),
    ];
    all_hold(rt, &behind);
}

#[test]
fn an_exchange_for_nothing_removes(rt: HostRuntime) -> Result<(), Fail> {
    let map = Congee::new(rt.alloc())?;
    exchange_for_nothing(&rt, rt.alloc(), &map);
    Ok(())
}

// Removes as many keys, from 3 on. Returns how many had their value.
fn emptied(map: &Congee, step: u64, count: u32) -> u32 {
    let mut guard = map.pin();
    let mut key = 3u64;
    let mut had = 0u32;
    for _ in 0..count {
        if remove(map, &mut guard, key) == Ok(Some(key ^ 1)) {
            had = had.wrapping_add(1);
        }
        key = key.wrapping_add(step);
    }
    had
}

// How far keys lie apart: in one leaf of each size, and in many leaves.
const APART: [u64; 3] = [1, 0x100, 0x0001000200030005];

fn empty_and_fill(rt: &impl Abort, alloc: Global, map: &Congee, step: u64) {
    let steps = [
        filled(map, alloc, 3, step, 256) == 256,
        emptied(map, step, 256) == 256,
        emptied(map, step, 256) == 0,
        filled(map, alloc, 3, step, 256) == 256,
        emptied(map, step, 256) == 256,
    ];
    all_hold(rt, &steps);
}

#[test]
fn a_map_is_emptied_and_filled_again(rt: HostRuntime) -> Result<(), Fail> {
    let map = Congee::new(rt.alloc())?;
    for step in APART {
        empty_and_fill(&rt, rt.alloc(), &map, step);
    }
    Ok(())
}

// Inserts values of a key, from this one on, and removes the key after each. Returns the sum of what was inserted, without
// what came out: a value that was replaced or removed.
fn turned_over(map: &Congee, alloc: Global, key: u64, first: u64, times: u32) -> u64 {
    let mut guard = map.pin();
    let mut value = first;
    let mut balance = 0u64;
    for _ in 0..times {
        if let Ok(before) = map.insert(&alloc, &mut guard, key, value) {
            balance = balance
                .wrapping_add(value)
                .wrapping_sub(before.unwrap_or(0));
        }
        if let Ok(before) = remove(map, &mut guard, key) {
            balance = balance.wrapping_sub(before.unwrap_or(0));
        }
        value = value.wrapping_add(1);
    }
    balance
}

// Two threads turn a key over. What is left by the balance, and what is there.
fn by_two<R: Threads + Sync>(rt: &R, alloc: Global, key: u64) -> Option<(u64, Option<u64>)> {
    let map = Congee::new(alloc).ok()?;
    let shared = &map;
    let (a, b) = join(
        rt,
        || turned_over(shared, alloc, key, 1, 5_000),
        || turned_over(shared, alloc, key, 1_000_000, 5_000),
    );
    Some((a.wrapping_add(b), looked(shared, key).ok()?))
}

// Each value comes out once, of the thread that replaced it or removed it. (A call that was busy has left one there.)
#[test]
fn two_threads_that_remove_lose_no_value(rt: HostRuntime) {
    match by_two(&rt, rt.alloc(), 0x0102030405060708) {
        Some((left, there)) => assert!(rt; left == there.unwrap_or(0)),
        None => assert!(rt; false),
    }
}
