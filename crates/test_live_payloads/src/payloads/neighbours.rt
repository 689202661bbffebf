//! Neighbours of a key and pops, by hand values.
ghost use Rattle.live_payloads.specs.Payloads.{IsGuardOf};

use super::{Guard, Inserted, Map, insert};
use live_payloads::live::Lent;
use std::alloc::Global;
use std::sync::{Arc, Wait};
use std::test::Fail;

const LAST: u64 = u64::MAX;

// The keys of the map, each of whose owners has its key's number.
const KEYS: [u64; 5] = [0, 10, 20, 300, LAST];

// A key, and the keys of its neighbours: at least it, above it, at most it, below it.
const ROWS: [(u64, Option<u64>, Option<u64>, Option<u64>, Option<u64>); 7] = [
    (0, Some(0), Some(10), Some(0), None),
    (1, Some(10), Some(10), Some(0), Some(0)),
    (10, Some(10), Some(20), Some(10), Some(0)),
    (299, Some(300), Some(300), Some(20), Some(20)),
    (300, Some(300), Some(LAST), Some(300), Some(20)),
    (301, Some(LAST), Some(LAST), Some(300), Some(300)),
    (LAST, Some(LAST), None, Some(LAST), Some(300)),
];

// Whether the pair has this key, and the owner of that number.
fn is_it(found: Option<(u64, Lent<'_, Arc<u64>>)>, key: Option<u64>) -> bool {
    match found {
        Some((number, lent)) => key == Some(number) && **lent.get() == number,
        None => key.is_none(),
    }
}

// Whether a call that may be busy returned the pair with this key, and the owner of that number.
fn is_tried<E: Drop>(
    found: Result<Option<(u64, Lent<'_, Arc<u64>>)>, E>,
    key: Option<u64>,
) -> bool {
    match found {
        Ok(found) => is_it(found, key),
        Err(_) => false,
    }
}

// Inserts an owner of each number at its key.
fn filled<R: Wait>(rt: &R, alloc: Global, map: &Map, guard: &mut Guard) -> bool
    requires { IsGuardOf map.now guard.old }
    ensures { IsGuardOf map.now guard.new }
{
    for key in KEYS {
        let Ok(owner) = Arc::new(alloc, key) else {
            return false;
        };
        if insert(rt, alloc, map, guard, key, &owner) != Inserted::New {
            return false;
        }
    }
    true
}

// The first row whose neighbours are others, or how many rows there are.
fn wrong_row<R: Wait>(rt: &R, map: &Map, guard: &mut Guard) -> usize
    requires { IsGuardOf map.now guard.old }
    ensures { IsGuardOf map.now guard.new }
{
    let mut at = 0usize;
    for (key, ceiling, above, floor, below) in ROWS {
        let upwards = is_it(map.ceiling(rt, guard, &key), ceiling)
            && is_it(map.above(rt, guard, &key), above);
        let downwards = is_it(map.floor(rt, guard, &key), floor)
            && is_it(map.below(rt, guard, &key), below);
        if !upwards || !downwards {
            return at;
        }
        at = at.wrapping_add(1);
    }
    at
}

// The first row that the calls with `try_` answer otherwise, or how many rows there are.
fn wrong_try(map: &Map, guard: &mut Guard) -> usize
    requires { IsGuardOf map.now guard.old }
    ensures { IsGuardOf map.now guard.new }
{
    let mut at = 0usize;
    for (key, ceiling, above, floor, below) in ROWS {
        let upwards = is_tried(map.try_ceiling(guard, &key), ceiling)
            && is_tried(map.try_above(guard, &key), above);
        let downwards = is_tried(map.try_floor(guard, &key), floor)
            && is_tried(map.try_below(guard, &key), below);
        if !upwards || !downwards {
            return at;
        }
        at = at.wrapping_add(1);
    }
    at
}

fn are_ends<R: Wait>(
    rt: &R,
    map: &Map,
    guard: &mut Guard,
    first: Option<u64>,
    last: Option<u64>,
) -> bool
    requires { IsGuardOf map.now guard.old }
    ensures { IsGuardOf map.now guard.new }
{
    let waiting = is_it(map.first(rt, guard), first) && is_it(map.last(rt, guard), last);
    let tried = is_tried(map.try_first(guard), first) && is_tried(map.try_last(guard), last);
    waiting && tried
}

// Pops the pairs from both ends.
fn popped<R: Wait>(rt: &R, map: &Map, guard: &mut Guard) -> bool
    requires { IsGuardOf map.now guard.old }
    ensures { IsGuardOf map.now guard.new }
{
    let least = is_it(map.pop_first(rt, guard), Some(0))
        && is_it(map.pop_first(rt, guard), Some(10));
    let greatest = is_it(map.pop_last(rt, guard), Some(LAST))
        && is_it(map.pop_last(rt, guard), Some(300));
    let one = map.value_count(rt, guard) == 1 && is_it(map.pop_first(rt, guard), Some(20));
    let none = is_it(map.pop_first(rt, guard), None) && is_it(map.pop_last(rt, guard), None);
    least && greatest && one && none
}

#[test]
fn neighbours_are_lent(rt: HostRuntime) -> Result<(), Fail> {
    let map: Map = Map::new(rt.alloc())?;
    let mut guard = map.pin();
    assert!(rt; are_ends(&rt, &map, &mut guard, None, None));
    assert!(rt; filled(&rt, rt.alloc(), &map, &mut guard));
    assert!(rt; are_ends(&rt, &map, &mut guard, Some(0), Some(LAST)));
    assert!(rt; wrong_row(&rt, &map, &mut guard) == ROWS.len());
    assert!(rt; wrong_try(&map, &mut guard) == ROWS.len());
    assert!(rt; popped(&rt, &map, &mut guard));
    map.unpin(guard);
    Ok(())
}
