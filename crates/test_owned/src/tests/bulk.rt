//! Calls that change many pairs, against plain loops over the keys.

mod faces;
mod kept;
mod slices;

use super::walks::Notes;
use congee_owned::{Budget, Congee, DefaultAllocator, InsertManyError, OOMError};
use std::alloc::Global;
use std::cell::RefCell;
use std::test::Fail;

type Limited = Congee<u64, u64, Budget>;

/// Keys: so many, each so far from the one before.
type Keys = (u64, u64);

/// One key; leaves of each form; inner nodes of each form; the greatest keys.
const FILLS: [Keys; 10] = [
    (0, 1),
    (1, 1),
    (4, 1),
    (17, 1),
    (49, 1),
    (300, 1),
    (5, 1 << 56),
    (60, 1 << 32),
    (200, 257 << 40),
    (20, u64::MAX),
];

fn key_at(keys: Keys, i: u64) -> u64 {
    i.wrapping_mul(keys.1)
}

// A map with the keys, each its own value.
fn filled(alloc: Global, keys: Keys) -> Result<Limited, OOMError> {
    let mut map = Congee::new(alloc, Budget::new(u64::MAX))?;
    for i in 0..keys.0 {
        map.insert(key_at(keys, i), key_at(keys, i))?;
    }
    Ok(map)
}

fn is_empty(map: &Limited) -> bool {
    map.is_empty() && map.value_count() == 0 && map.charged() == 2104
}

// Whether an emptied map has the charge of a new one, and can be filled again.
fn clears(map: &mut Limited) -> bool {
    map.clear();
    if !is_empty(map) || map.get(&0).is_some() || map.insert(7, 70).is_err() {
        return false;
    }
    map.clear();
    is_empty(map)
}

#[test]
fn cleared(rt: HostRuntime) -> Result<(), Fail> {
    for keys in &FILLS {
        assert!(rt; clears(&mut filled(rt.alloc(), *keys)?));
    }
    Ok(())
}

fn change(map: &mut Congee<u64, u64, DefaultAllocator, Notes<'_>>) -> Result<u128, OOMError> {
    for key in 0..9u64 {
        map.insert(key, key)?;
    }
    map.clear();
    for key in 10..19u64 {
        map.insert(key, key)?;
    }
    Ok(map.remove_range(&0, &17))
}

// The pairs that the drainer is called with at the drop.
fn called_at_drop(alloc: Global) -> Result<Vec<(u64, u64)>, OOMError> {
    let reported = RefCell::new(Vec::new(alloc));
    let mut map = Congee::new_with_drainer(
        alloc,
        DefaultAllocator {},
        Notes {
            reported: &reported,
        },
    )?;
    let _ = change(&mut map)?;
    drop(map);
    Ok(reported.into_inner())
}

fn has_two_left(alloc: Global) -> Result<bool, OOMError> {
    let called = called_at_drop(alloc)?;
    Ok(called.as_slice() == [(17, 17), (18, 18)].as_slice())
}

#[test]
fn the_drainer_has_what_is_left(rt: HostRuntime) -> Result<(), Fail> {
    assert!(rt; has_two_left(rt.alloc())?);
    Ok(())
}

/// A fill, and bounds.
type Range = (Keys, u64, u64);

const RANGES: [Range; 16] = [
    ((0, 1), 0, u64::MAX),
    ((1, 1), 0, 0),
    ((1, 1), 0, 1),
    ((1, 1), 1, 0),
    ((17, 1), 3, 5),
    ((17, 1), 5, 3),
    ((17, 1), 0, 17),
    ((300, 1), 200, 257),
    ((300, 1), 255, 300),
    ((300, 1), 0, 256),
    ((300, 1), 3, 299),
    ((5, 1 << 56), 1, 3 << 56),
    ((60, 1 << 32), 1 << 33, (1 << 33) + 1),
    ((200, 257 << 40), 0, u64::MAX),
    ((20, u64::MAX), u64::MAX - 3, u64::MAX),
    ((20, u64::MAX), 0, u64::MAX - 19),
];

/// How a range is taken out.
#[derive(Clone, Copy)]
enum Way {
    Removed,
    RemovedToItsEnd,
    Extracted,
}

const WAYS: [Way; 3] = [Way::Removed, Way::RemovedToItsEnd, Way::Extracted];

fn is_within(way: Way, key: u64, start: u64, end: u64) -> bool {
    match way {
        Way::RemovedToItsEnd => start <= key && key <= end,
        _ => start <= key && key < end,
    }
}

// With how many pairs the closure is called, each after those before it.
fn extracted(map: &mut Limited, start: u64, end: u64) -> u128 {
    let (mut count, mut next) = (0u128, 0u64);
    map.extract_range(
        &start,
        &end,
        &mut |key: u64, value: u64| {
            if key == value && key >= next {
                count = count.wrapping_add(1);
                next = key.saturating_add(1);
            }
        },
    );
    count
}

fn take(map: &mut Limited, way: Way, start: u64, end: u64) -> u128 {
    match way {
        Way::Removed => map.remove_range(&start, &end),
        Way::RemovedToItsEnd => map.remove_range_inclusive(&start, &end),
        Way::Extracted => extracted(map, start, end),
    }
}

// Whether so many pairs go as there are keys within the range, and these keys alone, and memory that goes back is none of
// those that are left.
fn takes(map: &mut Limited, way: Way, range: Range) -> bool {
    let (keys, start, end) = range;
    let taken = take(map, way, start, end);
    map.shrink_to_fit();
    let mut wanted = 0u128;
    for i in 0..keys.0 {
        let key = key_at(keys, i);
        let within = is_within(way, key, start, end);
        if within {
            wanted = wanted.wrapping_add(1);
        }
        if map.get(&key).is_some() == within {
            return false;
        }
    }
    taken == wanted && map.value_count().wrapping_add(taken) == u128::from(keys.0)
}

// Whether the pairs within the range go, and these alone, and the rest then goes at once.
fn takes_all(map: &mut Limited, way: Way, range: Range) -> bool {
    let right = takes(map, way, range);
    let left = map.value_count();
    right && map.remove_range_inclusive(&0, &u64::MAX) == left && is_empty(map)
}

#[test]
fn ranges_taken_out(rt: HostRuntime) -> Result<(), Fail> {
    for range in &RANGES {
        for way in WAYS {
            assert!(rt; takes_all(&mut filled(rt.alloc(), range.0)?, way, *range));
        }
    }
    Ok(())
}

// Keeps one pair in so many, or none. With how many pairs the closure is called, each after those before it.
fn retain(map: &mut Limited, one_in: u64) -> u128 {
    let (mut count, mut next) = (0u64, 0u64);
    map.retain(&mut |key: u64, value: u64| {
        if key != value || key < next {
            return false;
        }
        count = count.wrapping_add(1);
        next = key.saturating_add(1);
        one_in > 0 && count.wrapping_rem(one_in) == 0
    });
    u128::from(count)
}

// Whether the closure is called with each pair, and so many are left.
fn retains(map: &mut Limited, one_in: u64) -> bool {
    let before = map.value_count();
    let asked = retain(map, one_in);
    let wanted = before.checked_div(u128::from(one_in)).unwrap_or(0);
    asked == before && map.value_count() == wanted && retain(map, 1) == wanted
}

fn retains_each(map: &mut Limited) -> bool {
    for one_in in [1, 2, 5, 0] {
        if !retains(map, one_in) {
            return false;
        }
    }
    is_empty(map)
}

#[test]
fn retained(rt: HostRuntime) -> Result<(), Fail> {
    for keys in &FILLS {
        assert!(rt; retains_each(&mut filled(rt.alloc(), *keys)?));
    }
    Ok(())
}

const SIX: [(u64, u64); 6] = [(1, 10), (2, 20), (1, 11), (256, 30), (2, 21), (512, 40)];

/// What six pairs return under a limit, and then the values of 1, 2, 256 and 512.
type Limit = (u64, Result<(), InsertManyError>, [Option<u64>; 4]);

const LIMITS: [Limit; 4] = [
    (
        2104,
        Err(InsertManyError { inserted: 0 }),
        [None, None, None, None],
    ),
    (
        2168,
        Err(InsertManyError { inserted: 3 }),
        [Some(11), Some(20), None, None],
    ),
    (
        2296,
        Err(InsertManyError { inserted: 5 }),
        [Some(11), Some(21), Some(30), None],
    ),
    (2360, Ok(()), [Some(11), Some(21), Some(30), Some(40)]),
];

fn has_values(map: &Limited, wanted: &[Option<u64>; 4]) -> bool {
    [map.get(&1), map.get(&2), map.get(&256), map.get(&512)] == *wanted
}

fn inserts_six(map: &mut Limited, limit: &Limit) -> bool {
    map.insert_many(&SIX) == limit.1 && has_values(map, &limit.2)
}

// Whether `insert_numbers` of the six pairs returns what it has to under this limit, and stores what it has to.
fn inserts_numbers(map: &mut Limited, limit: &Limit) -> bool {
    map.insert_numbers(&SIX) == limit.1 && has_values(map, &limit.2)
}

fn inserts_by_both(alloc: Global, limit: &Limit) -> Result<bool, OOMError> {
    let six = inserts_six(&mut Congee::new(alloc, Budget::new(limit.0))?, limit);
    let numbers = inserts_numbers(&mut Congee::new(alloc, Budget::new(limit.0))?, limit);
    Ok(six && numbers)
}

#[test]
fn many_inserted(rt: HostRuntime) -> Result<(), Fail> {
    for limit in &LIMITS {
        assert!(rt; inserts_by_both(rt.alloc(), limit)?);
    }
    Ok(())
}

// As an error of one insertion, for callers that count nothing.
fn insert_all(map: &mut Limited, pairs: &[(u64, u64)]) -> Result<(), OOMError> {
    map.insert_many(pairs)?;
    Ok(())
}

const ERROR: &str =
    "Allocator is out of memory after some of the pairs! Allocator is out of memory after some of the pairs!";

fn error_prints(alloc: Global) -> Result<bool, Fail> {
    let error = InsertManyError { inserted: 3 };
    let text = format!(in alloc; "{error} {error:?}")?;
    Ok(text.as_str() == ERROR)
}

fn refuses_six(map: &mut Limited) -> bool {
    insert_all(map, &SIX).is_err() && insert_all(map, &[]).is_ok() && map.charged() == 2104
}

#[test]
fn many_are_refused(rt: HostRuntime) -> Result<(), Fail> {
    assert!(rt; refuses_six(&mut Congee::new(rt.alloc(), Budget::new(2104))?));
    assert!(rt; error_prints(rt.alloc())?);
    Ok(())
}
