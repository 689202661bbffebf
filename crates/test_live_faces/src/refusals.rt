//! Moves where an allocation is refused. The map that was to be moved is as it was then, and is moved again.

ghost use Rattle.std.specs.Prelude.{◌≡◌, IfSome};

use crate::moved::{Keys, Map, Owned, found, is_owned_whole};
use live_faces::live::{Congee, Guard};
use std::alloc::Global;
use std::sync::Wait;

const MANY: Keys = Keys {
    first: 3,
    step: 0x9e37_79b9_7f4a_7c15,
    count: 300,
};

// A map, also where memory is refused once.
fn made(alloc: Global) -> Option<Map> {
    match Congee::new(alloc) {
        Ok(map) => Some(map),
        Err(_) => Congee::new(alloc).ok(),
    }
}

// Inserts the keys, each again where memory is refused. How many came in.
fn entered<R: Wait>(rt: &R, alloc: Global, map: &Map, guard: &mut Guard) -> u32
    requires { guard.old.book ≡ map.now }
    ensures { guard.new.book ≡ map.now }
{
    let mut key = MANY.first;
    let mut new = 0u32;
    for _ in 0..MANY.count {
        let once = map.insert(rt, alloc, guard, key, key ^ 9).is_ok();
        if once || map.insert(rt, alloc, guard, key, key ^ 9).is_ok() {
            new = new.wrapping_add(1);
        }
        key = key.wrapping_add(MANY.step);
    }
    new
}

// How many pairs a snapshot has, a second one where memory is refused.
fn counted<R: Wait>(rt: &R, alloc: Global, map: &Map, guard: &mut Guard) -> usize
    requires { guard.old.book ≡ map.now }
    ensures { guard.new.book ≡ map.now }
{
    if let Ok(pairs) = map.snapshot(rt, alloc, guard) {
        return pairs.len();
    }
    match map.snapshot(rt, alloc, guard) {
        Ok(pairs) => pairs.len(),
        Err(_) => 0,
    }
}

// The map with one owner. Where memory is refused, the map has all keys, and is moved again.
fn gone_out<R: Wait>(rt: &R, alloc: Global, map: Map, guard: &mut Guard) -> Option<Owned>
    requires { guard.old.book ≡ map }
{
    match map.into_owned(rt, alloc, guard) {
        Ok(owned) => Some(owned),
        Err(failed) => {
            if found(rt, &failed.value, guard, MANY) != MANY.count {
                return None;
            }
            match failed.value.into_owned(rt, alloc, guard) {
                Ok(owned) => Some(owned),
                Err(_) => None,
            }
        }
    }
}

// The map for threads. Where memory is refused, the map with an owner has all keys, and is moved again.
fn come_in<R: Wait>(rt: &R, alloc: Global, owned: Owned) -> Option<(Map, Guard)>
    ensures { IfSome result (λ both. both.1.book ≡ both.0) }
{
    match Map::from_owned(rt, alloc, owned) {
        Ok(both) => Some(both),
        Err(failed) => {
            if !is_owned_whole(&failed.value, MANY) {
                return None;
            }
            match Map::from_owned(rt, alloc, failed.value) {
                Ok(both) => Some(both),
                Err(_) => None,
            }
        }
    }
}

// How many keys are there after both ways, if all came in and a snapshot had them.
fn kept<R: Wait>(rt: &R, alloc: Global) -> Option<u32> {
    let map = made(alloc)?;
    let mut guard = map.pin();
    let came = entered(rt, alloc, &map, &mut guard);
    let count = counted(rt, alloc, &map, &mut guard);
    if came != MANY.count || count != MANY.count as usize {
        return None;
    }
    let owned = gone_out(rt, alloc, map, &mut guard)?;
    let (map, guard) = come_in(rt, alloc, owned)?;
    let mut guard = guard;
    Some(found(rt, &map, &mut guard, MANY))
}

// It passes whichever allocation is refused.
#[test]
fn refused_memory_moves_nothing(rt: HostRuntime) {
    assert!(rt; kept(&rt, rt.alloc()) == Some(MANY.count));
}
