//! How often a call is tried where another guard comes in between.

use live_faces::live::{Busy, Congee};
use std::alloc::Global;
use std::test::Fail;

type Map = Congee<u64, u64>;

// Sets a key by a guard of its own.
fn set(alloc: Global, map: &Map, key: u64, value: u64) {
    let mut guard = map.pin();
    drop(map.try_insert(alloc, &mut guard, key, value));
    map.unpin(guard);
}

// A call whose closure finds the value changed after each of so many questions. What it returns, and how often it asked.
fn asked(
    alloc: Global,
    map: &Map,
    changes: u64,
) -> (Result<Option<(u64, Option<u64>)>, Busy>, u64) {
    let mut guard = map.pin();
    let mut count = 0u64;
    let mut answer = |n: u64| -> Option<u64> {
        if count < changes {
            set(alloc, map, 7, n.wrapping_add(1));
        }
        count = count.wrapping_add(1);
        Some(0)
    };
    let done = map.try_compute_if_present(&mut guard, &7, &mut answer);
    (done, count)
}

#[test]
fn a_call_is_tried_a_thousand_times(rt: HostRuntime) -> Result<(), Fail> {
    let map: Map = Congee::new(rt.alloc())?;
    set(rt.alloc(), &map, 7, 0);
    assert!(rt; asked(rt.alloc(), &map, 500) == (Ok(Some((500, Some(0)))), 501));
    assert!(rt; asked(rt.alloc(), &map, 1_000_000) == (Err(Busy), 1_000));
    Ok(())
}
