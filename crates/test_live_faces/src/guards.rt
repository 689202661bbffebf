//! Guards by number: two threads with one each, and a thousand in turn.

ghost use Rattle.std.specs.Prelude.{◌≡◌};

use live_faces::live::{Congee, Guard};
use std::alloc::Global;
use std::sync::Wait;
use std::test::Fail;
use std::thread::{Threads, join};

type Map = Congee<u64, u64>;

const EACH: u64 = 1_000;

// Stores a key that is new, and reads it back.
fn is_had<R: Wait>(rt: &R, alloc: Global, map: &Map, guard: &mut Guard, key: u64) -> bool
    requires { guard.old.book ≡ map.now }
    ensures { guard.new.book ≡ map.now }
{
    let before = map.insert(rt, alloc, guard, key, key ^ 3);
    before == Ok(None) && map.get(rt, guard, &key) == Some(key ^ 3)
}

// Stores a thousand keys by one guard, every second from this one on: how many were new and read back.
fn own_keys<R: Wait>(rt: &R, alloc: Global, map: &Map, first: u64) -> u64 {
    let mut guard = map.pin();
    let mut had = 0u64;
    let mut key = first;
    for _ in 0..EACH {
        if is_had(rt, alloc, map, &mut guard, key) {
            had = had.wrapping_add(1);
        }
        key = key.wrapping_add(2);
    }
    map.unpin(guard);
    had
}

// How many of the keys below this one have their own value.
fn all_keys<R: Wait>(rt: &R, map: &Map, count: u64) -> u64 {
    let mut guard = map.pin();
    let mut found = 0u64;
    for key in 0..count {
        if map.get(rt, &mut guard, &key) == Some(key ^ 3) {
            found = found.wrapping_add(1);
        }
    }
    found
}

// Two threads, each by a guard and with keys of its own: how many each has had.
fn by_two<R: Threads + Wait + Sync>(rt: &R, alloc: Global, map: &Map) -> (u64, u64) {
    join(
        rt,
        || own_keys(rt, alloc, map, 0),
        || own_keys(rt, alloc, map, 1),
    )
}

#[test]
fn two_guards_have_all_keys(rt: HostRuntime) -> Result<(), Fail> {
    let map: Map = Congee::new(rt.alloc())?;
    assert!(rt; by_two(&rt, rt.alloc(), &map) == (EACH, EACH));
    // (keys that nobody has stored are absent)
    assert!(rt; all_keys(&rt, &map, 4 * EACH) == 2 * EACH);
    Ok(())
}

// By a guard of its own each, one key after another is stored: how many guards find what all before them have stored last.
fn in_turn<R: Wait>(rt: &R, alloc: Global, map: &Map) -> u64 {
    let mut right = 0u64;
    for turn in 0..EACH {
        let mut guard = map.pin();
        let last = map.get(rt, &mut guard, &turn.wrapping_sub(1));
        let is_last = last == turn.checked_sub(1).map(|key: u64| -> u64 { key ^ 3 });
        if is_last && is_had(rt, alloc, map, &mut guard, turn) {
            right = right.wrapping_add(1);
        }
        map.unpin(guard);
    }
    right
}

#[test]
fn a_thousand_guards_in_turn(rt: HostRuntime) -> Result<(), Fail> {
    let map: Map = Congee::new(rt.alloc())?;
    assert!(rt; in_turn(&rt, rt.alloc(), &map) == EACH);
    // (each has the room of the one before it)
    assert!(rt; map.charged() < 1 << 17);
    assert!(rt; all_keys(&rt, &map, 2 * EACH) == EACH);
    Ok(())
}
