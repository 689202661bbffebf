//! Paths that a writer was busy at are tidied by later calls.

ghost use Rattle.std.specs.Prelude.{◌≡◌};

use crate::calls::{all_hold, end_of, get};
use crate::pool::calls::remove;
use live_growth::held::{lock_node, unlock_same};
use live_growth::insert::extend;
use live_growth::map::Guard;
use live_pool::pool::Pool;
use live_reads::descend::descend;
use live_reads::path::words_at;
use std::alloc::Global;
use std::process::Abort;
use std::test::Fail;
use std::thread::{Threads, join};

// Whether keys are stored, each with a value of its own.
fn stored(map: &Pool, alloc: Global, guard: &mut Guard, keys: &[u64]) -> bool
    requires { guard.old.book ≡ map.now }
    ensures { guard.new.book ≡ map.now }
{
    for key in keys {
        if map.insert(alloc, guard, *key, *key ^ 1) != Ok(None) {
            return false;
        }
    }
    true
}

// Makes a leaf for a key, and no key. Whether there is one then.
fn leaf_made(map: &Pool, guard: &mut Guard, key: u64) -> bool
    requires { guard.old.book ≡ map.now }
    ensures { guard.new.book ≡ map.now }
{
    let nodes = &map.map.nodes;
    let Some(end) = descend(nodes, key, &mut guard.seat) else {
        return false;
    };
    if end.position.height < 2 {
        return false;
    }
    extend(nodes, end.position, key, &mut guard.room, &mut guard.seat).is_ok()
}

// Tidies the path of one key and stores another one, while another seat has the node above the first one's leaf locked. Whether
// it had, and the key was stored.
fn stored_beside(map: &Pool, alloc: Global, guard: &mut Guard, key: u64, other: u64) -> bool
    requires { guard.old.book ≡ map.now }
    ensures { guard.new.book ≡ map.now }
{
    let nodes = &map.map.nodes;
    let Guard { mut seat, room: _ } = map.map.pin();
    let Some(end) = descend(nodes, key, &mut seat) else {
        return false;
    };
    let position = end.position;
    if position.height >= 8 {
        return false;
    }
    let Some(words) = words_at(nodes, position.above) else {
        return false;
    };
    let Some(free) = lock_node(words, position.above, position.level, key, &mut seat) else {
        return false;
    };
    let tidied = map.tidy_path(guard, key);
    let before = map.insert(alloc, guard, other, other ^ 1);
    unlock_same(words, free, &mut seat);
    !tidied && before == Ok(None)
}

// Keys of three leaves below one node, and of leaves below two others.
const KEYS: [u64; 3] = [0x0102030405060708, 0x0102030405060808, 0x0102030405060908];

const OTHERS: [u64; 3] = [0x0202030405060708, 0x0202030405060808, 0x0202030405060908];

const LAST: [u64; 2] = [0x0302030405060708, 0x0302030405060808];

// Removes the last key of a leaf, so that the leaf is taken out, and defers one without keys.
fn leave_a_leaf(rt: &impl Abort, alloc: Global, map: &Pool, guard: &mut Guard)
    requires { guard.old.book ≡ map.now }
    ensures { guard.new.book ≡ map.now }
{
    let steps = [
        stored(map, alloc, guard, &KEYS[..2]),
        stored(map, alloc, guard, &LAST[..1]),
        remove(map, guard, KEYS[0]) == Ok(Some(KEYS[0] ^ 1)),
        end_of(&map.map, KEYS[0]) == 2,
        leaf_made(map, guard, KEYS[0]),
        stored_beside(map, alloc, guard, KEYS[0], LAST[0] ^ 1),
        end_of(&map.map, KEYS[0]) == 1,
    ];
    all_hold(rt, &steps);
}

fn take_out_later(rt: &impl Abort, alloc: Global, map: &Pool, other: &mut Guard)
    requires { other.old.book ≡ map.now }
{
    let steps = [
        end_of(&map.map, KEYS[0]) == 1,
        stored(map, alloc, other, &KEYS[2..]),
        end_of(&map.map, KEYS[0]) == 2,
        end_of(&map.map, KEYS[1]) == 1,
    ];
    all_hold(rt, &steps);
}

// Once its guard has ended, the next call that makes a node takes the leaf out.
#[test]
fn a_leaf_without_keys_is_taken_out_later(rt: HostRuntime) -> Result<(), Fail> {
    let map = Pool::new(rt.alloc())?;
    let mut guard = map.pin();
    let mut other = map.pin();
    leave_a_leaf(&rt, rt.alloc(), &map, &mut guard);
    map.unpin(guard);
    take_out_later(&rt, rt.alloc(), &map, &mut other);
    Ok(())
}

// A leaf is deferred, and gets a key. Another one is taken out.
fn store_in_it(rt: &impl Abort, alloc: Global, map: &Pool, guard: &mut Guard)
    requires { guard.old.book ≡ map.now }
{
    let steps = [
        stored(map, alloc, guard, &KEYS[1..]),
        stored(map, alloc, guard, &LAST[..1]),
        leaf_made(map, guard, KEYS[0]),
        stored_beside(map, alloc, guard, KEYS[0], LAST[0] ^ 1),
        stored(map, alloc, guard, &KEYS[..1]),
        remove(map, guard, KEYS[2]) == Ok(Some(KEYS[2] ^ 1)),
        end_of(&map.map, KEYS[0]) == 1,
        end_of(&map.map, KEYS[2]) == 2,
        get(&map.map, guard, KEYS[0]) == Ok(Some(KEYS[0] ^ 1)),
    ];
    all_hold(rt, &steps);
}

// It isn't, where there is a key by then.
#[test]
fn a_leaf_with_a_new_key_stays(rt: HostRuntime) -> Result<(), Fail> {
    let map = Pool::new(rt.alloc())?;
    store_in_it(&rt, rt.alloc(), &map, &mut map.pin());
    Ok(())
}

// Two leaves are deferred, the second one while a writer is busy above it.
fn leave_two(rt: &impl Abort, alloc: Global, map: &Pool, guard: &mut Guard)
    requires { guard.old.book ≡ map.now }
{
    let steps = [
        stored(map, alloc, guard, &KEYS[1..]),
        stored(map, alloc, guard, &OTHERS[1..]),
        stored(map, alloc, guard, &LAST[..1]),
        leaf_made(map, guard, KEYS[0]),
        leaf_made(map, guard, OTHERS[0]),
        stored_beside(map, alloc, guard, KEYS[0], LAST[0] ^ 1),
        end_of(&map.map, KEYS[0]) == 1,
        stored_beside(map, alloc, guard, OTHERS[0], LAST[1]),
        end_of(&map.map, KEYS[0]) == 2,
        end_of(&map.map, OTHERS[0]) == 1,
    ];
    all_hold(rt, &steps);
}

// While a writer is busy at one leaf, another one is taken out whose key was deferred before.
#[test]
fn a_busy_writer_keeps_no_other_leaf(rt: HostRuntime) -> Result<(), Fail> {
    let map = Pool::new(rt.alloc())?;
    leave_two(&rt, rt.alloc(), &map, &mut map.pin());
    Ok(())
}

// How many keys each thread stores and removes.
const COUNT: u64 = 20_000;

// Stores and removes every second key from one on, each in a leaf of its own or with that of the other thread. Returns how many
// had their value.
fn passed(map: &Pool, alloc: Global, first: u64) -> u64 {
    let mut guard = map.pin();
    let mut had = 0u64;
    for i in 0..COUNT {
        let key = first.wrapping_add(i << 1);
        for _ in 0..1_000_000u32 {
            if map.insert(alloc, &mut guard, key, key ^ 1).is_ok() {
                break;
            }
        }
        for _ in 0..1_000_000u32 {
            if let Ok(value) = map.remove(&mut guard, key) {
                had = had.wrapping_add((value == Some(key ^ 1)) as u64);
                break;
            }
        }
    }
    map.unpin(guard);
    had
}

// How many of the keys have a path that doesn't end at the root.
fn left(map: &Pool) -> u64 {
    let mut ends = 0u64;
    for key in 0..2 * COUNT {
        if end_of(&map.map, key) != 8 {
            ends = ends.wrapping_add(1);
        }
    }
    ends
}

// Two threads store and remove keys side by side. The paths that either left are tidied as one goes on.
#[test]
fn threads_leave_no_nodes_without_keys(rt: HostRuntime) -> Result<(), Fail> {
    let map = Pool::new(rt.alloc())?;
    let alloc = rt.alloc();
    let both = join(&rt, || passed(&map, alloc, 0), || passed(&map, alloc, 1));
    assert!(rt; both == (COUNT, COUNT));
    assert!(rt; passed(&map, alloc, 1 << 60) == COUNT);
    assert!(rt; left(&map) == 0);
    Ok(())
}
