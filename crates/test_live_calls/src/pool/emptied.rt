//! A map whose keys are removed one by one has its root alone in the end.

use crate::calls::{all_hold, end_of};
use crate::pool::calls;
use live_pool::pool::Pool;
use std::alloc::Global;
use std::process::Abort;
use std::test::Fail;

// Stores so many keys, each with a value of its own: how many were new. The guard is given back.
fn filled(map: &Pool, alloc: Global, first: u64, step: u64, count: u64) -> u64 {
    let mut guard = map.pin();
    let new = calls::filled(map, alloc, &mut guard, first, step, count);
    map.unpin(guard);
    new
}

// Removes these keys: how many had their value.
fn emptied(map: &Pool, first: u64, step: u64, count: u32) -> u32 {
    let mut guard = map.pin();
    let mut key = first;
    let mut had = 0u32;
    for _ in 0..count {
        if map.remove(&mut guard, key) == Ok(Some(key ^ 1)) {
            had = had.wrapping_add(1);
        }
        key = key.wrapping_add(step);
    }
    map.unpin(guard);
    had
}

// How many of these keys have a path that ends at the root.
fn rooted(map: &Pool, first: u64, step: u64, count: u32) -> u32 {
    let mut key = first;
    let mut ends = 0u32;
    for _ in 0..count {
        if end_of(&map.map, key) == 8 {
            ends = ends.wrapping_add(1);
        }
        key = key.wrapping_add(step);
    }
    ends
}

// How far keys lie apart: in one leaf, in leaves side by side, and far from one another.
const APART: [u64; 4] = [1, 0x100, 0x10000000000, 0x0001000200030005];

fn fill_and_empty(rt: &impl Abort, alloc: Global, map: &Pool, step: u64) {
    let steps = [
        filled(map, alloc, 3, step, 200) == 200,
        rooted(map, 3, step, 200) == 0,
        emptied(map, 3, step, 200) == 200,
        rooted(map, 3, step, 200) == 200,
    ];
    all_hold(rt, &steps);
}

#[test]
fn a_map_without_keys_has_only_its_root(rt: HostRuntime) -> Result<(), Fail> {
    let map = Pool::new(rt.alloc())?;
    for step in APART {
        fill_and_empty(&rt, rt.alloc(), &map, step);
    }
    Ok(())
}
