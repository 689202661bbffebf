//! Four threads insert, and the map goes to an owner once they have ended.

use crate::moved::{Keys, Map, Owned, fill, is_owned_whole};
use live_faces::live::Congee;
use spec_map::error::OOMError;
use std::alloc::Global;
use std::sync::Wait;
use std::test::Fail;
use std::thread::{Threads, join};

const EACH: u32 = 1_000;

const ALL: Keys = Keys {
    first: 0,
    step: 1,
    count: 4 * EACH,
};

// Every fourth key, from this one on.
fn enter<R: Wait>(rt: &R, alloc: Global, map: &Map, first: u64) -> bool {
    let mut guard = map.pin();
    let keys = Keys {
        first,
        step: 4,
        count: EACH,
    };
    fill(rt, alloc, map, &mut guard, keys) == Ok(EACH)
}

fn enter_all<R: Threads + Wait + Sync>(rt: &R, alloc: Global, map: &Map) -> bool {
    let ((a, b), (c, d)) = join(
        rt,
        || { join(rt, || enter(rt, alloc, map, 0), || enter(rt, alloc, map, 1)) },
        || { join(rt, || enter(rt, alloc, map, 2), || enter(rt, alloc, map, 3)) },
    );
    a && b && c && d
}

// What four threads have inserted, with one owner. The guard that takes it has seen nothing before.
fn taken<R: Threads + Wait + Sync>(rt: &R, alloc: Global) -> Result<Owned, OOMError> {
    let map: Map = Congee::new(alloc)?;
    let _ = enter_all(rt, alloc, &map);
    let mut guard = map.pin();
    Ok(map.into_owned(rt, alloc, &mut guard)?)
}

#[test]
fn an_owner_has_what_all_threads_inserted(rt: HostRuntime) -> Result<(), Fail> {
    let owned = taken(&rt, rt.alloc())?;
    assert!(rt; is_owned_whole(&owned, ALL));
    Ok(())
}
