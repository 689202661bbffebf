//! `retain`: which pairs stay and what is charged for them, and that it leaves what single removals leave.

use super::{FILLS, Keys, Limited, filled, key_at};
use congee_owned::OOMError;
use std::alloc::Global;
use std::test::Fail;

/// Which keys stay.
#[derive(Clone, Copy)]
enum Kept {
    All,
    NoKey,
    /// Those that leave this remainder, when divided by the first number.
    Every(u64, u64),
    From(u64),
}

fn stays(kept: Kept, key: u64) -> bool {
    match kept {
        Kept::All => true,
        Kept::NoKey => false,
        Kept::Every(step, rest) => key.checked_rem(step) == Some(rest),
        Kept::From(least) => key >= least,
    }
}

/// Keys, which of them stay, how many these are, their sum, and the bytes that are charged then.
type Row = (Keys, Kept, [u128; 3]);

/// A node is charged 64 bytes up to 4 children, 168 up to 16, 672 up to 48, else 2104, as the root always. It shrinks
/// where 36, 12 or 3 are left.
const ROWS: [Row; 20] = [
    // no pair, and one
    ((0, 1), Kept::All, [0, 0, 2104]),
    ((0, 1), Kept::NoKey, [0, 0, 2104]),
    ((1, 1), Kept::All, [1, 0, 2168]),
    ((1, 1), Kept::NoKey, [0, 0, 2104]),
    // four leaves under one node: as they were, smaller ones, with their first or last pair alone, and fewer
    ((1000, 1), Kept::All, [1000, 499500, 10584]),
    ((1000, 1), Kept::NoKey, [0, 0, 2104]),
    ((1000, 1), Kept::Every(2, 0), [500, 249500, 10584]),
    ((1000, 1), Kept::Every(2, 1), [500, 250000, 10584]),
    ((1000, 1), Kept::Every(8, 0), [125, 62000, 4856]),
    ((1000, 1), Kept::Every(64, 0), [16, 7680, 2840]),
    ((1000, 1), Kept::Every(256, 0), [4, 1536, 2424]),
    ((1000, 1), Kept::Every(256, 255), [3, 1533, 2360]),
    ((1000, 1), Kept::Every(1000, 700), [1, 700, 2232]),
    ((1000, 1), Kept::From(512), [488, 368684, 6376]),
    // keys that part at the root: the leaf of 0, and one of the 19 greatest
    ((5, 1 << 56), Kept::Every(1 << 57, 0), [3, 6 << 56, 2296]),
    ((20, u64::MAX), Kept::All, [20, 350488137400481480514, 2840]),
    (
        (20, u64::MAX),
        Kept::From(u64::MAX),
        [1, 18446744073709551615, 2168],
    ),
    (
        (20, u64::MAX),
        Kept::Every(u64::MAX, 0),
        [2, 18446744073709551615, 2232],
    ),
    // 60 leaves of one pair under an inner node, which shrinks
    ((60, 1 << 32), Kept::All, [60, 1770 << 32, 8048]),
    (
        (60, 1 << 32),
        Kept::Every(1 << 34, 0),
        [15, 420 << 32, 3736],
    ),
];

// How many keys there are, and their sum.
fn all_keys(keys: Keys) -> [u128; 2] {
    let (mut count, mut sum) = (0u128, 0u128);
    for i in 0..keys.0 {
        count = count.wrapping_add(1);
        sum = sum.wrapping_add(u128::from(key_at(keys, i)));
    }
    [count, sum]
}

// How many of the keys are in the map, the sum of their values, and what is charged.
fn keys_left(map: &Limited, keys: Keys) -> [u128; 3] {
    let (mut count, mut sum) = (0u128, 0u128);
    for i in 0..keys.0 {
        if let Some(value) = map.get(&key_at(keys, i)) {
            count = count.wrapping_add(1);
            sum = sum.wrapping_add(u128::from(value));
        }
    }
    [count, sum, map.charged()]
}

// With how many pairs the closure is called, each after those before it, and the sum of their keys.
fn retain(map: &mut Limited, kept: Kept) -> [u128; 2] {
    let (mut count, mut sum, mut next) = (0u128, 0u128, 0u64);
    map.retain(&mut |key: u64, value: u64| {
        if key == value && key >= next {
            count = count.wrapping_add(1);
            sum = sum.wrapping_add(u128::from(key));
            next = key.saturating_add(1);
        }
        stays(kept, key)
    });
    [count, sum]
}

// Whether the closure is called with each pair, and those of the row are left.
fn row_is_right(map: &mut Limited, row: &Row) -> bool {
    let (keys, kept, wanted) = *row;
    retain(map, kept) == all_keys(keys)
        && keys_left(map, keys) == wanted
        && map.value_count() == wanted[0]
}

#[test]
fn rows_are_kept(rt: HostRuntime) -> Result<(), Fail> {
    for row in &ROWS {
        assert!(rt; row_is_right(&mut filled(rt.alloc(), row.0)?, row));
    }
    Ok(())
}

fn remove_others(map: &mut Limited, keys: Keys, kept: Kept) {
    for i in 0..keys.0 {
        let key = key_at(keys, i);
        if !stays(kept, key) {
            map.remove(&key);
        }
    }
}

// Whether a map has the same pairs and nodes after it as after removals.
fn leaves_as_removals(alloc: Global, keys: Keys, kept: Kept) -> Result<bool, OOMError> {
    let mut map = filled(alloc, keys)?;
    let mut other = filled(alloc, keys)?;
    retain(&mut map, kept);
    remove_others(&mut other, keys, kept);
    Ok(keys_left(&map, keys) == keys_left(&other, keys))
}

const KEPT: [Kept; 6] = [
    Kept::All,
    Kept::NoKey,
    Kept::Every(2, 1),
    Kept::Every(7, 0),
    Kept::Every(257, 1),
    Kept::From(40),
];

#[test]
fn it_leaves_what_removals_leave(rt: HostRuntime) -> Result<(), Fail> {
    for keys in &FILLS {
        for kept in KEPT {
            assert!(rt; leaves_as_removals(rt.alloc(), *keys, kept)?);
        }
    }
    Ok(())
}
