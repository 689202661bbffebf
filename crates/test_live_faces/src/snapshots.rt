//! Snapshots: of each set of keys, and beside a writer.

ghost use Rattle.std.specs.Prelude.{◌≡◌};

use crate::moved::{KEYS, Keys, Map, fill};
use live_faces::live::{Congee, Guard};
use spec_map::error::OOMError;
use std::alloc::Global;
use std::sync::Wait;
use std::test::Fail;
use std::thread::{Threads, join};

// How many of the pairs have a key above the one before them, and that key's own value.
fn ascending(pairs: &[(u64, u64)]) -> u32 {
    let mut right = 0u32;
    let mut next = 0u64;
    for &(key, value) in pairs {
        if key >= next && value == key ^ 9 {
            right = right.wrapping_add(1);
        }
        next = key.saturating_add(1);
    }
    right
}

// Whether a snapshot of a map with these keys has as many pairs, ascending, by either call.
fn has_all<R: Wait>(rt: &R, alloc: Global, keys: Keys) -> Result<bool, OOMError> {
    let map: Map = Congee::new(alloc)?;
    let mut guard = map.pin();
    let new = fill(rt, alloc, &map, &mut guard, keys)?;
    let pairs = map.snapshot(rt, alloc, &mut guard)?;
    let once = match map.try_snapshot(alloc, &mut guard) {
        Ok(again) => again.as_slice() == pairs.as_slice(),
        Err(_) => false,
    };
    let all = new == keys.count && pairs.len() == keys.count as usize;
    Ok(once && all && ascending(&pairs) == keys.count)
}

#[test]
fn a_snapshot_has_all_pairs_in_order(rt: HostRuntime) -> Result<(), Fail> {
    for keys in KEYS {
        assert!(rt; has_all(&rt, rt.alloc(), keys)?);
    }
    Ok(())
}

// How many pairs of keys come, and what the second one of a pair is above the first.
const COMING: u64 = 2000;

const HIGH: u64 = 1 << 60;

// Inserts pairs of keys, each pair in its order.
fn enter<R: Wait>(rt: &R, alloc: Global, map: &Map) -> bool {
    let mut guard = map.pin();
    let mut key = 0u64;
    for _ in 0..COMING {
        if map.insert(rt, alloc, &mut guard, key, 1) != Ok(None) {
            return false;
        }
        if map.insert(rt, alloc, &mut guard, key | HIGH, 2) != Ok(None) {
            return false;
        }
        key = key.wrapping_add(256);
    }
    true
}

// How many of the pairs are the first of two, and how many the second.
fn halves(pairs: &[(u64, u64)]) -> (u64, u64) {
    let mut first = 0u64;
    let mut second = 0u64;
    for &(key, _) in pairs {
        if key < HIGH {
            first = first.wrapping_add(1);
        } else {
            second = second.wrapping_add(1);
        }
    }
    (first, second)
}

// One snapshot after another, until all keys are there. How many had more of the second ones, or lacked two of these.
fn torn<R: Wait>(rt: &R, alloc: Global, map: &Map) -> u32 {
    let mut guard = map.pin();
    let mut wrong = 0u32;
    for _ in 0..100_000u32 {
        let Ok(pairs) = map.snapshot(rt, alloc, &mut guard) else {
            return u32::MAX;
        };
        let (first, second) = halves(&pairs);
        if second > first || second.saturating_add(1) < first {
            wrong = wrong.wrapping_add(1);
        }
        if second == COMING {
            return wrong;
        }
    }
    u32::MAX
}

fn beside<R: Threads + Wait + Sync>(rt: &R, alloc: Global, map: &Map) -> (bool, u32) {
    join(rt, || enter(rt, alloc, map), || torn(rt, alloc, map))
}

#[test]
fn a_snapshot_beside_a_writer_is_of_one_moment(rt: HostRuntime) -> Result<(), Fail> {
    let map: Map = Congee::new(rt.alloc())?;
    assert!(rt; beside(&rt, rt.alloc(), &map) == (true, 0));
    Ok(())
}
