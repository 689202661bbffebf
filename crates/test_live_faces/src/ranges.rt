//! Ranges over nodes of each form, near and far keys, and both ends of all keys.

ghost use Rattle.std.specs.Prelude.{◌≡◌};

use crate::steps::all_hold;
use live_faces::live::{Congee, Guard};
use spec_map::error::OOMError;
use std::alloc::Global;
use std::process::Abort;
use std::sync::Wait;
use std::test::Fail;

type Map = Congee<u64, u64>;

/// Keys at the same distance: the first one, the distance, and how many.
#[derive(Clone, Copy)]
pub struct Keys {
    pub first: u64,
    pub step: u64,
    pub count: u32,
}

// Leaves of each form, inner nodes of each form, sparse keys at each height, prefixes that are skipped, and both ends.
pub const KEYS: [Keys; 17] = [
    Keys {
        first: 0,
        step: 1,
        count: 1,
    },
    Keys {
        first: 250,
        step: 1,
        count: 4,
    },
    Keys {
        first: 254,
        step: 1,
        count: 16,
    },
    Keys {
        first: 7,
        step: 3,
        count: 17,
    },
    Keys {
        first: 1,
        step: 5,
        count: 48,
    },
    Keys {
        first: 0,
        step: 1,
        count: 600,
    },
    Keys {
        first: 255,
        step: 256,
        count: 5,
    },
    Keys {
        first: 128,
        step: 1 << 16,
        count: 300,
    },
    Keys {
        first: 5,
        step: 1 << 8,
        count: 300,
    },
    Keys {
        first: 5,
        step: 1 << 24,
        count: 300,
    },
    Keys {
        first: 5,
        step: 1 << 32,
        count: 300,
    },
    Keys {
        first: 5,
        step: 1 << 40,
        count: 300,
    },
    Keys {
        first: 5,
        step: 1 << 48,
        count: 300,
    },
    Keys {
        first: 3,
        step: 1 << 56,
        count: 256,
    },
    Keys {
        first: 9,
        step: 0x0101_0101_0101_0101,
        count: 40,
    },
    Keys {
        first: u64::MAX - 9,
        step: 1,
        count: 10,
    },
    Keys {
        first: u64::MAX,
        step: 1,
        count: 1,
    },
];

/// Inserts the keys, each with a value of its own.
pub fn fill<R: Wait>(rt: &R, alloc: Global, map: &Map, keys: Keys) -> Result<(), OOMError> {
    let mut guard = map.pin();
    let mut key = keys.first;
    for _ in 0..keys.count {
        let _ = map.insert(rt, alloc, &mut guard, key, key ^ 1)?;
        key = key.wrapping_add(keys.step);
    }
    Ok(())
}

// How many pairs of a page are those that were inserted, from this key on.
fn right_pairs(page: &[(u64, u64)], from: u64, step: u64) -> u32 {
    let mut key = from;
    let mut right = 0u32;
    for pair in page {
        if *pair == (key, key ^ 1) {
            right = right.wrapping_add(1);
        }
        key = key.wrapping_add(step);
    }
    right
}

// One page from a key on: how many of its pairs are right.
fn read_page<R: Wait>(
    rt: &R,
    map: &Map,
    guard: &mut Guard,
    keys: Keys,
    from: u64,
    buffer: &mut [(u64, u64)],
) -> u32
    requires { guard.old.book ≡ map.now }
    ensures { guard.new.book ≡ map.now }
{
    let count = map.range_inclusive(rt, guard, &from, &u64::MAX, buffer);
    if count > buffer.len() {
        return 0;
    }
    right_pairs(&buffer[..count], from, keys.step)
}

// All keys by pages of seven, each from the key behind the last one: how many pairs are right.
fn read_all<R: Wait>(rt: &R, map: &Map, keys: Keys) -> u32 {
    let mut guard = map.pin();
    let mut buffer = [(0u64, 0u64); 7];
    let mut from = keys.first;
    let mut right = 0u32;
    for _ in 0..keys.count / 7 + 1 {
        right = right.wrapping_add(read_page(rt, map, &mut guard, keys, from, &mut buffer));
        from = from.wrapping_add(keys.step.wrapping_mul(7));
    }
    right
}

#[test]
fn pages_give_all_pairs_in_order(rt: HostRuntime) -> Result<(), Fail> {
    for keys in KEYS {
        let map: Map = Congee::new(rt.alloc())?;
        fill(&rt, rt.alloc(), &map, keys)?;
        assert!(rt; read_all(&rt, &map, keys) == keys.count);
    }
    Ok(())
}

// The keys from the first to the last of a range of this length. How many it gives by either name, in one number.
fn counted<R: Wait>(rt: &R, map: &Map, first: u64, last: u64) -> (usize, usize) {
    let mut guard = map.pin();
    let mut buffer = [(0u64, 0u64); 40];
    let open = map.range(rt, &mut guard, &first, &last, &mut buffer);
    let closed = map.range_inclusive(rt, &mut guard, &first, &last, &mut buffer);
    (open, closed)
}

// The keys 10, 20 .. 300.
const THIRTY: Keys = Keys {
    first: 10,
    step: 10,
    count: 30,
};

// Of these keys: from, to, and how many a range without its end has, and one with it.
const COUNTS: [(u64, u64, usize, usize); 8] = [
    (0, 0, 0, 0),
    (0, 10, 0, 1),
    (10, 10, 0, 1),
    (10, 11, 1, 1),
    (11, 20, 0, 1),
    (255, 261, 1, 1),
    (300, u64::MAX, 1, 1),
    (20, 10, 0, 0),
];

fn count_ranges<R: Wait + Abort>(rt: &R, map: &Map) {
    for (first, last, open, closed) in COUNTS {
        assert!(rt; counted(rt, map, first, last) == (open, closed));
    }
    assert!(rt; counted(rt, map, 0, u64::MAX) == (30, 30));
}

#[test]
fn a_range_has_its_first_key_and_ends_before_its_end(rt: HostRuntime) -> Result<(), Fail> {
    let map: Map = Congee::new(rt.alloc())?;
    fill(&rt, rt.alloc(), &map, THIRTY)?;
    count_ranges(&rt, &map);
    Ok(())
}

fn read_full_pages<R: Wait + Abort>(rt: &R, map: &Map, guard: &mut Guard)
    requires { guard.old.book ≡ map.now }
{
    let mut three = [(0u64, 0u64); 3];
    let steps = [
        map.range(rt, guard, &15, &1000, &mut three) == 3,
        three == [(20, 21), (30, 31), (40, 41)],
        map.range(rt, guard, &15, &1000, &mut []) == 0,
        map.try_range(guard, &41, &61, &mut three) == Ok(2),
        map.try_range_inclusive(guard, &u64::MAX, &u64::MAX, &mut three) == Ok(0),
    ];
    all_hold(rt, &steps);
}

#[test]
fn a_full_buffer_ends_a_page(rt: HostRuntime) -> Result<(), Fail> {
    let map: Map = Congee::new(rt.alloc())?;
    fill(&rt, rt.alloc(), &map, THIRTY)?;
    read_full_pages(&rt, &map, &mut map.pin());
    Ok(())
}
