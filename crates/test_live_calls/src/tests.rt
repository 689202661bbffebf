//! One thread, and several threads at one map.

use crate::calls::{all_hold, filled, is_new, looked, made, put};
use live_growth::map::Congee;
use std::alloc::Global;
use std::process::Abort;
use std::test::Fail;
use std::thread::{Threads, join};

// Keys that share some of their bytes, or none.
const KEYS: [u64; 6] = [
    0,
    255,
    256,
    0x0102030405060708,
    0x0102030405060709,
    u64::MAX,
];

fn insert_twice(rt: &impl Abort, alloc: Global, map: &Congee) {
    for key in KEYS {
        let steps = [
            looked(map, key) == Ok(None),
            put(map, alloc, key, key ^ 7) == Ok(None),
            put(map, alloc, key, key ^ 9) == Ok(Some(key ^ 7)),
        ];
        all_hold(rt, &steps);
    }
    for key in KEYS {
        assert!(rt; looked(map, key) == Ok(Some(key ^ 9)));
    }
    assert!(rt; looked(map, 257) == Ok(None));
}

#[test]
fn a_key_has_the_value_that_was_inserted_last(rt: HostRuntime) -> Result<(), Fail> {
    let map = Congee::new(rt.alloc())?;
    insert_twice(&rt, rt.alloc(), &map);
    Ok(())
}

// Reads these keys over and over, until each is there. Returns how many reads found another key's value.
fn wrong_reads(map: &Congee, first: u64, step: u64, count: u32) -> u32 {
    let mut guard = map.pin();
    let mut key = first;
    let mut found = 0u32;
    let mut wrong = 0u32;
    for _ in 0..100_000_000u32 {
        if found >= count {
            return wrong;
        }
        if let Ok(Some(value)) = map.get(&mut guard, key) {
            if value != key ^ 1 {
                wrong = wrong.wrapping_add(1);
            }
            found += 1;
            key = key.wrapping_add(step);
        }
    }
    u32::MAX
}

// One thread inserts keys, and another reads them as they come.
fn by_two<R: Threads + Sync>(rt: &R, alloc: Global, step: u64, count: u32) -> Option<(u64, u32)> {
    let map = made(alloc)?;
    let shared = &map;
    Some(join(
        rt,
        || filled(shared, alloc, 3, step, u64::from(count)),
        || wrong_reads(shared, 3, step, count),
    ))
}

#[test]
fn a_reader_finds_what_a_writer_inserts(rt: HostRuntime) {
    let near = by_two(&rt, rt.alloc(), 1, 2_000);
    assert!(rt; near == Some((2_000, 0)));
    let far = by_two(&rt, rt.alloc(), 0x0001000200030005, 60);
    assert!(rt; far == Some((60, 0)));
}

// It passes whichever allocation is refused: nothing was inserted then, and what was there before is still there.
#[test]
fn refused_memory_loses_nothing(rt: HostRuntime) {
    if let Some(map) = made(rt.alloc()) {
        assert!(rt; filled(&map, rt.alloc(), 0, 0x0001000200030005, 300) == 300);
        assert!(rt; wrong_reads(&map, 0, 0x0001000200030005, 300) == 0);
    } else {
        assert!(rt; false);
    }
}

// How far keys lie apart that differ in one byte. A leaf has the last byte, and each inner node one of the others.
const STEPS: [u64; 8] = [
    1,
    0x100,
    0x10000,
    0x1000000,
    0x100000000,
    0x10000000000,
    0x1000000000000,
    0x100000000000000,
];

// At each height a node has children for all bytes one after another, and so all sizes, while another thread reads them.
#[test]
fn a_node_grows_beside_readers(rt: HostRuntime) {
    for step in STEPS {
        let all = by_two(&rt, rt.alloc(), step, 256);
        assert!(rt; all == Some((256, 0)));
    }
}

// Keys that part from those before them at each byte in turn, the highest last, and at the lowest again.
const PARTING: [u64; 10] = [
    0x0101010101010101,
    0x0101010101010102,
    0x0101010101010201,
    0x0101010101020101,
    0x0101010102010101,
    0x0101010201010101,
    0x0101020101010101,
    0x0102010101010101,
    0x0201010101010101,
    0x0201010101010102,
];

// Inserts the keys in turn. Each is absent before.
fn part(rt: &impl Abort, alloc: Global, map: &Congee) {
    for key in PARTING {
        assert!(rt; looked(map, key) == Ok(None));
        assert!(rt; put(map, alloc, key, key ^ 3) == Ok(None));
    }
}

fn find_parted(rt: &impl Abort, map: &Congee) {
    for key in PARTING {
        let steps = [
            looked(map, key) == Ok(Some(key ^ 3)),
            looked(map, key ^ 0x0400) == Ok(None),
            looked(map, key ^ (1 << 60)) == Ok(None),
        ];
        all_hold(rt, &steps);
    }
}

// A node comes above another where the path of a new key leaves it, and both paths are found.
#[test]
fn a_key_parts_from_others_at_each_byte(rt: HostRuntime) -> Result<(), Fail> {
    let map = Congee::new(rt.alloc())?;
    part(&rt, rt.alloc(), &map);
    find_parted(&rt, &map);
    Ok(())
}

// Two hundred keys, ten at a time as above, under another highest byte each time.
fn parting(number: u32) -> u64 {
    let first = PARTING[(number % 10) as usize];
    first ^ u64::from(number / 10 % 32) << 58
}

// Inserts these keys. Returns how many were new.
fn parted(map: &Congee, alloc: Global) -> u32 {
    let mut guard = map.pin();
    let mut new = 0u32;
    for number in 0..200u32 {
        let key = parting(number);
        if is_new(map, alloc, &mut guard, key, key ^ 1) {
            new = new.wrapping_add(1);
        }
    }
    new
}

// Reads each of these keys until it is there, and the first once more. Returns how many reads found another value, or lost
// what was there.
fn wrong_paths(map: &Congee) -> u32 {
    let mut guard = map.pin();
    let mut number = 0u32;
    let mut wrong = 0u32;
    for _ in 0..100_000_000u32 {
        if number >= 200 {
            return wrong;
        }
        let key = parting(number);
        if let Ok(Some(value)) = map.get(&mut guard, key) {
            let first = map.get(&mut guard, PARTING[0]);
            if value != key ^ 1 || first == Ok(None) {
                wrong = wrong.wrapping_add(1);
            }
            number += 1;
        }
    }
    u32::MAX
}

// One thread inserts them, and two read.
fn beside_readers<R: Threads + Sync>(rt: &R, alloc: Global) -> Option<(u32, (u32, u32))> {
    let map = made(alloc)?;
    let shared = &map;
    Some(join(
        rt,
        || parted(shared, alloc),
        || join(rt, || wrong_paths(shared), || wrong_paths(shared)),
    ))
}

#[test]
fn paths_part_beside_readers(rt: HostRuntime) {
    assert!(rt; beside_readers(&rt, rt.alloc()) == Some((200, (0, 0))));
}

// Two threads insert keys that lie between one another.
fn by_writers<R: Threads + Sync>(rt: &R, alloc: Global) -> Option<(u64, u64, u32)> {
    let map = made(alloc)?;
    let shared = &map;
    let (even, odd) = join(
        rt,
        || filled(shared, alloc, 0, 2, 2_000),
        || filled(shared, alloc, 1, 2, 2_000),
    );
    Some((even, odd, wrong_reads(shared, 0, 1, 4_000)))
}

#[test]
fn two_writers_lose_nothing(rt: HostRuntime) {
    assert!(rt; by_writers(&rt, rt.alloc()) == Some((2_000, 2_000, 0)));
}
