//! Two threads fill one map, and a third looks up what they insert.
#![tactic(auto)]

ghost use Rattle.std.specs.Prelude.{◌≡◌};

use congee_live::{Congee, OOMError};
use std::alloc::Global;
use std::sync::Wait;
use std::thread::{Threads, join};

type Map = Congee<u64, u64>;

/// Inserts a thousand keys, every second from this one on. Returns whether there was memory for all.
fn fill<R: Wait>(rt: &R, alloc: Global, map: &Map, first: u64) -> bool {
    let mut guard = map.pin();
    let mut key = first;
    for _ in 0..1000u32 {
        if map.insert(rt, alloc, &mut guard, key, key).is_err() {
            return false;
        }
        key = key.wrapping_add(2);
    }
    true
}

/// How many of the first keys are there.
fn count<R: Wait>(rt: &R, map: &Map, keys: u64) -> u64 {
    let mut guard = map.pin();
    let mut found = 0u64;
    for key in 0..keys {
        if map.get(rt, &mut guard, &key) == Some(key) {
            found = found.wrapping_add(1);
        }
    }
    found
}

/// Two threads insert, and one reads beside them. How many keys are there in the end, where there was memory.
fn filled<R: Threads + Wait + Sync>(rt: &R, alloc: Global) -> Result<Option<u64>, OOMError> {
    let map: Map = Congee::new(alloc)?;
    let shared = &map;
    let (both, seen) = join(
        rt,
        || {
            join(
                rt,
                || fill(rt, alloc, shared, 0),
                || fill(rt, alloc, shared, 1),
            )
        },
        || count(rt, shared, 2000),
    );
    let all = count(rt, &map, 2000);
    if both == (true, true) && seen <= all {
        Ok(Some(all))
    } else {
        Ok(None)
    }
}

fn main(rt: HostRuntime) -> anyhow::Result<()> {
    if let Some(keys) = filled(&rt, rt.alloc())? {
        println!(rt; "{keys} keys")?;
    }
    Ok(())
}
