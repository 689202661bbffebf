//! Maps that go both ways: empty ones, and near, far and greatest keys.

ghost use Rattle.std.specs.Prelude.{◌≡◌};

use face_typed::typed_congee;
use live_faces::live::{Congee, Guard};
use spec_map::error::OOMError;
use std::alloc::Global;
use std::sync::Wait;
use std::test::Fail;

/// A map that threads share, and one with an owner.
pub type Map = Congee<u64, u64>;

pub type Owned = typed_congee::Congee<u64, u64>;

/// Keys at the same distance: the first one, the distance, and how many.
#[derive(Clone, Copy)]
pub struct Keys {
    pub first: u64,
    pub step: u64,
    pub count: u32,
}

/// None, one, and more, side by side or far from one another.
pub const KEYS: [Keys; 7] = [
    Keys {
        first: 0,
        step: 1,
        count: 0,
    },
    Keys {
        first: u64::MAX,
        step: 1,
        count: 1,
    },
    Keys {
        first: 250,
        step: 1,
        count: 300,
    },
    Keys {
        first: 0,
        step: 1,
        count: 5000,
    },
    Keys {
        first: 7,
        step: 0x9e37_79b9_7f4a_7c15,
        count: 300,
    },
    Keys {
        first: 0,
        step: 0x9e37_79b9_7f4a_7c15,
        count: 5000,
    },
    Keys {
        first: 3,
        step: 1 << 56,
        count: 256,
    },
];

/// Inserts the keys, each with a value of its own. How many were new.
pub fn fill<R: Wait>(
    rt: &R,
    alloc: Global,
    map: &Map,
    guard: &mut Guard,
    keys: Keys,
) -> Result<u32, OOMError>
    requires { guard.old.book ≡ map.now }
    ensures { guard.new.book ≡ map.now }
{
    let mut key = keys.first;
    let mut new = 0u32;
    for _ in 0..keys.count {
        if map.insert(rt, alloc, guard, key, key ^ 9)?.is_none() {
            new = new.wrapping_add(1);
        }
        key = key.wrapping_add(keys.step);
    }
    Ok(new)
}

/// How many of the keys have their own value, among threads.
pub fn found<R: Wait>(rt: &R, map: &Map, guard: &mut Guard, keys: Keys) -> u32
    requires { guard.old.book ≡ map.now }
    ensures { guard.new.book ≡ map.now }
{
    let mut key = keys.first;
    let mut right = 0u32;
    for _ in 0..keys.count {
        if map.get(rt, guard, &key) == Some(key ^ 9) {
            right = right.wrapping_add(1);
        }
        key = key.wrapping_add(keys.step);
    }
    right
}

/// How many of the keys have their own value, with an owner.
pub fn owned_found(owned: &Owned, keys: Keys) -> u32 {
    let mut key = keys.first;
    let mut right = 0u32;
    for _ in 0..keys.count {
        if owned.get(&key) == Some(key ^ 9) {
            right = right.wrapping_add(1);
        }
        key = key.wrapping_add(keys.step);
    }
    right
}

/// Whether a map with an owner has the keys, with their own values, and no more.
pub fn is_owned_whole(owned: &Owned, keys: Keys) -> bool {
    owned_found(owned, keys) == keys.count && owned.value_count() == keys.count as u128
}

/// Whether a map for threads, of which this is a guard, has the keys, with their own values, and no more.
fn is_whole<R: Wait>(rt: &R, map: &Map, guard: &mut Guard, keys: Keys) -> bool
    requires { guard.old.book ≡ map.now }
    ensures { guard.new.book ≡ map.now }
{
    found(rt, map, guard, keys) == keys.count && map.value_count(rt, guard) == keys.count as u128
}

// A map for threads with these keys is moved to an owner.
fn goes_out<R: Wait>(rt: &R, alloc: Global, keys: Keys) -> Result<Owned, OOMError> {
    let map: Map = Congee::new(alloc)?;
    let mut guard = map.pin();
    let _ = fill(rt, alloc, &map, &mut guard, keys)?;
    Ok(map.into_owned(rt, alloc, &mut guard)?)
}

// Whether a map that came in has the keys, and takes one more.
fn works_in<R: Wait>(
    rt: &R,
    alloc: Global,
    map: &Map,
    guard: &mut Guard,
    keys: Keys,
) -> Result<bool, OOMError>
    requires { guard.old.book ≡ map.now }
    ensures { guard.new.book ≡ map.now }
{
    let whole = is_whole(rt, map, guard, keys);
    let new = map.insert(rt, alloc, guard, 123_456_789, 5)?.is_none();
    let gone = map.remove(rt, guard, &123_456_789) == Some(5);
    Ok(whole && new && gone)
}

// Whether a map goes out, takes and loses a key there, comes in, takes and loses one there, and goes out again.
fn goes_both_ways<R: Wait>(rt: &R, alloc: Global, keys: Keys) -> Result<bool, OOMError> {
    let mut owned = goes_out(rt, alloc, keys)?;
    let whole = is_owned_whole(&owned, keys);
    let new = owned.insert(123_456_789, 5)?.is_none();
    let gone = owned.remove(&123_456_789) == Some(5);
    let (map, guard) = Map::from_owned(rt, alloc, owned)?;
    let mut guard = guard;
    let free = map.limit() == u64::MAX;
    let works = works_in(rt, alloc, &map, &mut guard, keys)?;
    let again = map.into_owned(rt, alloc, &mut guard)?;
    Ok(whole && new && gone && free && works && is_owned_whole(&again, keys))
}

#[test]
fn all_pairs_go_both_ways(rt: HostRuntime) -> Result<(), Fail> {
    for keys in KEYS {
        assert!(rt; goes_both_ways(&rt, rt.alloc(), keys)?);
    }
    Ok(())
}
