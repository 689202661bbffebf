//! Four threads put owners in, take them out and read them, at few keys. Each owner has its key's number. In the end each has as
//! many owners as the map has pairs of it, and one after the map is dropped.
ghost use Rattle.live_payloads.specs.Payloads.{IsGuardOf};

use super::{Guard, Inserted, Map, get, insert, remove};
use std::alloc::Global;
use std::sync::{Arc, Wait};
use std::test::Fail;
use std::thread::{Threads, join};

const KEYS: u64 = 16;

const TURNS: u64 = 10_000;

fn seed_after(seed: u64) -> u64 {
    let mut seed = seed;
    seed ^= seed << 13;
    seed ^= seed >> 7;
    seed ^= seed << 17;
    seed
}

// One turn at a key. Whether what was found is the key's.
fn turn<R: Wait>(
    rt: &R,
    alloc: Global,
    map: &Map,
    guard: &mut Guard,
    owners: &[Arc<u64>],
    seed: u64,
) -> bool
    requires { IsGuardOf map.now guard.old }
    ensures { IsGuardOf map.now guard.new }
{
    let key = seed / 64 % KEYS;
    let Some(own) = owners.get(key as usize) else {
        return false;
    };
    match seed % 8 {
        0 | 1 => {
            let before = insert(rt, alloc, map, guard, key, own);
            before == Inserted::New || before == Inserted::Replaced(key)
        }
        2 => remove(rt, map, guard, key).unwrap_or(key) == key,
        _ => get(rt, map, guard, key).unwrap_or(key) == key,
    }
}

fn turns<R: Wait>(rt: &R, alloc: Global, map: &Map, owners: &[Arc<u64>], seed: u64) -> bool {
    let mut guard = map.pin();
    let mut seed = seed;
    for _ in 0..TURNS {
        seed = seed_after(seed);
        if !turn(rt, alloc, map, &mut guard, owners, seed) {
            return false;
        }
    }
    map.unpin(guard);
    true
}

fn by_two<R: Threads + Wait + Sync>(
    rt: &R,
    alloc: Global,
    map: &Map,
    owners: &[Arc<u64>],
    seed: u64,
) -> bool {
    let (a, b) = join(
        rt,
        || turns(rt, alloc, map, owners, seed),
        || turns(rt, alloc, map, owners, seed ^ 1),
    );
    a && b
}

fn by_four<R: Threads + Wait + Sync>(
    rt: &R,
    alloc: Global,
    map: &Map,
    owners: &[Arc<u64>],
) -> bool {
    let (a, b) = join(
        rt,
        || by_two(rt, alloc, map, owners, 1000),
        || by_two(rt, alloc, map, owners, 2000),
    );
    a && b
}

// The keys' owners.
fn owners_of(alloc: Global) -> Option<Vec<Arc<u64>>> {
    let mut owners = Vec::new(alloc);
    for key in 0..KEYS {
        owners.push(Arc::new(alloc, key).ok()?).ok()?;
    }
    Some(owners)
}

// Whether each owner is there as often as the map has its key, and once more.
fn counted<R: Wait>(rt: &R, map: &Map, owners: &[Arc<u64>]) -> bool {
    let mut guard = map.pin();
    for owner in owners {
        let wanted = if get(rt, map, &mut guard, **owner).is_some() {
            2
        } else {
            1
        };
        if Arc::strong_count(owner) != wanted {
            return false;
        }
    }
    map.unpin(guard);
    true
}

fn alone(owners: &[Arc<u64>]) -> bool {
    for owner in owners {
        if Arc::strong_count(owner) != 1 {
            return false;
        }
    }
    true
}

#[test]
fn no_owner_is_lost(rt: HostRuntime) -> Result<(), Fail> {
    let map: Map = Map::new(rt.alloc())?;
    let owners = owners_of(rt.alloc()).ok_or("owners")?;
    assert!(rt; by_four(&rt, rt.alloc(), &map, owners.as_slice()));
    assert!(rt; counted(&rt, &map, owners.as_slice()));
    drop(map);
    assert!(rt; alone(owners.as_slice()));
    Ok(())
}
