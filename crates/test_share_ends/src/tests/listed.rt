//! Ranges both ways, counts, and the removal of all pairs.

ghost use Rattle.std.specs.Prelude.{◌≡◌, ◌+◌, ◌^◌};

use congee::DefaultAllocator;
use congee::locked::{Congee, Guard};
use std::alloc::Global;
use std::marker::Brand;
use std::sync::Wait;
use std::sync::ledger::{Blank, Ledger};
use std::test::Fail;

type Map<L> = Congee<L, u64, u64>;

#[derive(Clone, Copy)]
enum Listing {
    Below,
    To,
    Down,
}

// What is listed of a map of 10, 20, 30 and the greatest key, whose values are 1, 2, 3 and 4, in a buffer of three
// pairs that were (0, 0): from a key, to a key, how many, and the buffer then.
const ROWS: [(Listing, u64, u64, usize, [(u64, u64); 3]); 8] = [
    (Listing::Below, 10, 30, 2, [(10, 1), (20, 2), (0, 0)]),
    (Listing::Below, 0, u64::MAX, 3, [(10, 1), (20, 2), (30, 3)]),
    (Listing::Below, 30, 30, 0, [(0, 0), (0, 0), (0, 0)]),
    (Listing::To, 10, 20, 2, [(10, 1), (20, 2), (0, 0)]),
    (
        Listing::To,
        30,
        u64::MAX,
        2,
        [(30, 3), (u64::MAX, 4), (0, 0)],
    ),
    (
        Listing::Down,
        0,
        u64::MAX,
        3,
        [(u64::MAX, 4), (30, 3), (20, 2)],
    ),
    (Listing::Down, 10, 20, 2, [(20, 2), (10, 1), (0, 0)]),
    (Listing::Down, 11, 19, 0, [(0, 0), (0, 0), (0, 0)]),
];

fn listed<L: Ledger, R: Wait>(
    rt: &R,
    map: &Map<L>,
    guard: &mut Guard<'_, L>,
    listing: Listing,
    start: u64,
    last: u64,
    buffer: &mut [(u64, u64)],
) -> usize
    requires { guard.old.table ≡ map.now }
    ensures { guard.new.table ≡ guard.old.table }
{
    match listing {
        Listing::Below => map.range_recorded(rt, guard, &start, &last, buffer),
        Listing::To => map.range_inclusive(rt, guard, &start, &last, buffer),
        Listing::Down => map.range_descending(rt, guard, &start, &last, buffer),
    }
}

// The number of the rows before the first wrong one.
fn right_rows<L: Ledger, R: Wait>(rt: &R, map: &Map<L>, guard: &mut Guard<'_, L>) -> usize
    requires { guard.old.table ≡ map.now }
    ensures { guard.new.table ≡ guard.old.table }
{
    let mut right = 0;
    for (listing, start, last, count, pairs) in ROWS {
        let mut buffer = [(0, 0); 3];
        let written = listed(rt, map, guard, listing, start, last, &mut buffer);
        if written != count || buffer != pairs {
            return right;
        }
        right = right.saturating_add(1);
    }
    right
}

// Puts these pairs into the map.
fn fill<L: Ledger, R: Wait>(rt: &R, map: &Map<L>, guard: &mut Guard<'_, L>) -> Result<(), Fail>
    requires { guard.old.table ≡ map.now }
    ensures { guard.new.table ≡ guard.old.table }
{
    for (key, value) in [(20, 2), (u64::MAX, 4), (10, 1), (30, 3)] {
        map.insert(rt, guard, key, value)?;
    }
    Ok(())
}

// The right rows, the count and the test before all pairs are removed, and both after it.
fn by_rows<L: Ledger, R: Wait>(
    rt: &R,
    alloc: Global,
    blank: Blank,
) -> Result<(usize, u128, bool, u128, bool), Fail>
    requires name { blank.name ≡ L.name }
    requires parts { blank.parts ≡ L.parts }
    requires whole { L.parts ≡ 2 ^ 63 + 1 }
{
    let (map, share) = Map::<L>::new(alloc, blank, DefaultAllocator {})?;
    let mut guard = map.pin(rt)?;
    fill(rt, &map, &mut guard)?;
    let right = right_rows(rt, &map, &mut guard);
    let count = map.value_count_recorded(rt, &mut guard);
    let some = map.is_empty_recorded(rt, &mut guard);
    map.clear(rt, &mut guard);
    let none = map.is_empty_recorded(rt, &mut guard);
    map.unpin(rt, guard);
    let left = map.settle(rt, share).ok().unwrap_or(9);
    Ok((right, count, some, left, none))
}

#[test]
fn ranges_counts_and_clear(rt: HostRuntime) -> Result<(), Fail> {
    let done = by_rows::<Brand, _>(&rt, rt.alloc(), Blank::new((1 << 63) + 1))?;
    assert!(rt; done == (8, 4, false, 0, true));
    Ok(())
}

// How many pairs of 11 to 30 are removed, whether the others are listed then, and how many are left.
fn by_range<L: Ledger, R: Wait>(
    rt: &R,
    alloc: Global,
    blank: Blank,
) -> Result<(u128, bool, u128), Fail>
    requires name { blank.name ≡ L.name }
    requires parts { blank.parts ≡ L.parts }
    requires whole { L.parts ≡ 2 ^ 63 + 1 }
{
    let (map, share) = Map::<L>::new(alloc, blank, DefaultAllocator {})?;
    let mut guard = map.pin(rt)?;
    fill(rt, &map, &mut guard)?;
    let removed = map.remove_range(rt, &mut guard, &11, &31);
    let keys = map.keys_recorded(rt, &mut guard, alloc)?;
    let listed = keys.as_slice() == [10, u64::MAX].as_slice();
    map.unpin(rt, guard);
    Ok((removed, listed, map.settle(rt, share).ok().unwrap_or(9)))
}

#[test]
fn a_range_is_removed(rt: HostRuntime) -> Result<(), Fail> {
    let done = by_range::<Brand, _>(&rt, rt.alloc(), Blank::new((1 << 63) + 1))?;
    assert!(rt; done == (2, true, 2));
    Ok(())
}
