//! Removals of ranges and of all pairs, by hand values and beside a writer.

ghost use Rattle.std.specs.Prelude.{◌≡◌};

use crate::ranges::{KEYS, Keys, fill};
use crate::steps::all_hold;
use live_faces::live::{Congee, Guard};
use std::alloc::Global;
use std::process::Abort;
use std::sync::Wait;
use std::test::Fail;
use std::thread::{Threads, join};

type Map = Congee<u64, u64>;

// Of the keys 10, 20 .. 300 in turn: from, to, and how many a removal of that range removes.
const COUNTS: [(u64, u64, u128); 9] = [
    (0, 9, 0),
    (0, 10, 1),
    (0, 10, 0),
    (25, 24, 0),
    (20, 20, 1),
    (251, 260, 1),
    (255, 281, 2),
    (290, u64::MAX, 2),
    (u64::MAX, u64::MAX, 0),
];

// What the removals of these ranges, in turn, remove.
fn remove_ranges<R: Wait + Abort>(rt: &R, map: &Map) {
    for (first, last, count) in COUNTS {
        let mut guard = map.pin();
        assert!(rt; map.remove_range_inclusive(rt, &mut guard, &first, &last) == count);
    }
}

// What is left behind them is removed.
fn remove_rest<R: Wait + Abort>(rt: &R, map: &Map, guard: &mut Guard)
    requires { guard.old.book ≡ map.now }
{
    let steps = [
        map.value_count(rt, guard) == 23,
        map.clear(rt, guard) == 23,
        map.is_empty(rt, guard),
    ];
    all_hold(rt, &steps);
}

#[test]
fn a_range_is_removed_with_both_ends(rt: HostRuntime) -> Result<(), Fail> {
    let map: Map = Congee::new(rt.alloc())?;
    let keys = Keys {
        first: 10,
        step: 10,
        count: 30,
    };
    fill(&rt, rt.alloc(), &map, keys)?;
    remove_ranges(&rt, &map);
    remove_rest(&rt, &map, &mut map.pin());
    Ok(())
}

// How many a removal of all removes, and whether none is left.
fn cleared<R: Wait>(rt: &R, map: &Map) -> (u128, bool) {
    let mut guard = map.pin();
    let count = map.clear(rt, &mut guard);
    (count, map.first(rt, &mut guard).is_none())
}

#[test]
fn all_pairs_are_removed_of_nodes_of_each_form(rt: HostRuntime) -> Result<(), Fail> {
    for keys in KEYS {
        let map: Map = Congee::new(rt.alloc())?;
        fill(&rt, rt.alloc(), &map, keys)?;
        assert!(rt; cleared(&rt, &map) == (u128::from(keys.count), true));
    }
    Ok(())
}

// Keys, and what an extraction of a range of them is to hand on: how many pairs, and the sum of their keys. How many stay.
#[derive(Clone, Copy)]
struct Extraction {
    keys: (u64, u64, u32),
    range: (u64, u64),
    count: u128,
    sum: u64,
    left: u128,
}

// Parts of leaves, whole leaves of each form, leaves far from one another, and both ends.
const EXTRACTIONS: [Extraction; 8] = [
    Extraction {
        keys: (0, 1, 600),
        range: (200, 300),
        count: 101,
        sum: 25_250,
        left: 499,
    },
    Extraction {
        keys: (0, 1, 600),
        range: (0, 599),
        count: 600,
        sum: 179_700,
        left: 0,
    },
    Extraction {
        keys: (0, 20, 13),
        range: (20, 200),
        count: 10,
        sum: 1_100,
        left: 3,
    },
    Extraction {
        keys: (0, 6, 40),
        range: (100, 255),
        count: 23,
        sum: 3_864,
        left: 17,
    },
    Extraction {
        keys: (3, 2, 3),
        range: (4, 5),
        count: 1,
        sum: 5,
        left: 2,
    },
    Extraction {
        keys: (0, 100, 30),
        range: (250, 1000),
        count: 8,
        sum: 5_200,
        left: 22,
    },
    Extraction {
        keys: (1, 1 << 40, 5),
        range: (2, u64::MAX),
        count: 4,
        sum: (10 << 40) + 4,
        left: 1,
    },
    Extraction {
        keys: (u64::MAX - 3, 1, 4),
        range: (u64::MAX - 1, u64::MAX),
        count: 2,
        sum: u64::MAX - 2,
        left: 2,
    },
];

// Extracts a range: how many pairs it returns, the sum of the keys that it hands on, and whether these ascend, each with its value.
fn extracted<R: Wait>(rt: &R, map: &Map, range: (u64, u64)) -> (u128, u64, bool) {
    let mut guard = map.pin();
    let (mut sum, mut next, mut right) = (0u64, range.0, true);
    let count = map.extract_range_inclusive(
        rt,
        &mut guard,
        &range.0,
        &range.1,
        &mut |key: u64, value: u64| {
            right = right && key >= next && value == key ^ 1;
            sum = sum.wrapping_add(key);
            next = key.wrapping_add(1);
        },
    );
    (count, sum, right)
}

#[test]
fn a_range_is_extracted_of_several_leaves(rt: HostRuntime) -> Result<(), Fail> {
    for one in EXTRACTIONS {
        let map: Map = Congee::new(rt.alloc())?;
        let (first, step, count) = one.keys;
        fill(&rt, rt.alloc(), &map, Keys { first, step, count })?;
        let out = extracted(&rt, &map, one.range);
        let left = map.clear(&rt, &mut map.pin());
        assert!(rt; out == (one.count, one.sum, true) && left == one.left);
    }
    Ok(())
}

// Pops what a writer may have left. How many of its keys are even.
fn even_popped<R: Wait>(rt: &R, map: &Map) -> u32 {
    let mut guard = map.pin();
    let mut even = 0u32;
    for _ in 0..6000 {
        if let Some((key, _)) = map.pop_first(rt, &mut guard) {
            if key % 2 == 0 {
                even = even.wrapping_add(1);
            }
        }
    }
    even
}

// How many a removal of all removes, by a guard of its own.
fn removed<R: Wait>(rt: &R, map: &Map) -> u128 {
    let mut guard = map.pin();
    map.clear(rt, &mut guard)
}

// One thread enters these keys, and another one removes all.
fn remove_beside<R: Threads + Wait + Sync>(
    rt: &R,
    alloc: Global,
    map: &Map,
    keys: Keys,
) -> (bool, u128) {
    join(
        rt,
        || fill(rt, alloc, map, keys).is_ok(),
        || removed(rt, map),
    )
}

const EVEN: Keys = Keys {
    first: 0,
    step: 2,
    count: 3000,
};

const ODD: Keys = Keys {
    first: 1,
    step: 2,
    count: 3000,
};

#[test]
fn keys_that_are_there_throughout_are_removed(rt: HostRuntime) -> Result<(), Fail> {
    let map: Map = Congee::new(rt.alloc())?;
    fill(&rt, rt.alloc(), &map, EVEN)?;
    let (filled, removed) = remove_beside(&rt, rt.alloc(), &map, ODD);
    assert!(rt; filled);
    assert!(rt; removed.wrapping_add(map.value_count(&rt, &mut map.pin())) == 6000);
    assert!(rt; even_popped(&rt, &map) == 0);
    Ok(())
}
