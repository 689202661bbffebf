//! Ranges both ways, counts and the removal of many pairs, of maps with numbers as keys.

ghost use Rattle.std.specs.Prelude.{◌≡◌, ◌+◌, ◌^◌};

use congee::locked::{Guard, U64Congee};
use std::alloc::Global;
use std::marker::Brand;
use std::sync::Wait;
use std::sync::ledger::{Blank, Ledger};
use std::test::Fail;

type Map<L> = U64Congee<L, u64>;

type Entry = ([u8; 8], u64);

#[derive(Clone, Copy)]
enum Listing {
    Below,
    To,
    Down,
}

const TEN: Entry = ([0, 0, 0, 0, 0, 0, 0, 10], 1);

const OTHER: Entry = ([0, 0, 0, 0, 0, 0, 1, 2], 2);

const GREATEST: Entry = ([255; 8], 3);

const LEFT: Entry = ([9; 8], 9);

// What is listed of a map of 10, 258 and the greatest key, whose values are 1, 2 and 3, in a buffer of two entries that
// were all nines: from a key, to a key, how many, and the buffer then.
const ROWS: [(Listing, u64, u64, usize, [Entry; 2]); 7] = [
    (Listing::Below, 10, 258, 1, [TEN, LEFT]),
    (Listing::Below, 0, u64::MAX, 2, [TEN, OTHER]),
    (Listing::Below, 259, u64::MAX, 0, [LEFT, LEFT]),
    (Listing::To, 10, 258, 2, [TEN, OTHER]),
    (Listing::To, 259, u64::MAX, 1, [GREATEST, LEFT]),
    (Listing::Down, 0, u64::MAX, 2, [GREATEST, OTHER]),
    (Listing::Down, 0, 10, 1, [TEN, LEFT]),
];

fn listed<L: Ledger, R: Wait>(
    rt: &R,
    map: &Map<L>,
    guard: &mut Guard<'_, L>,
    listing: Listing,
    start: u64,
    last: u64,
    buffer: &mut [Entry],
) -> usize
    requires { guard.old.table ≡ map.now }
    ensures { guard.new.table ≡ guard.old.table }
{
    match listing {
        Listing::Below => map.range_recorded(rt, guard, start, last, buffer),
        Listing::To => map.range_inclusive(rt, guard, start, last, buffer),
        Listing::Down => map.range_descending(rt, guard, start, last, buffer),
    }
}

// The number of the rows before the first wrong one.
fn right_rows<L: Ledger, R: Wait>(rt: &R, map: &Map<L>, guard: &mut Guard<'_, L>) -> usize
    requires { guard.old.table ≡ map.now }
    ensures { guard.new.table ≡ guard.old.table }
{
    let mut right = 0;
    for (listing, start, last, count, entries) in ROWS {
        let mut buffer = [LEFT; 2];
        let written = listed(rt, map, guard, listing, start, last, &mut buffer);
        if written != count || buffer != entries {
            return right;
        }
        right = right.saturating_add(1);
    }
    right
}

// Puts these pairs into the map.
fn fill<L: Ledger, R: Wait>(rt: &R, map: &Map<L>, guard: &mut Guard<'_, L>) -> Result<(), Fail>
    requires { guard.old.table ≡ map.now }
    ensures { guard.new.table ≡ guard.old.table }
{
    for (key, value) in [(258, 2), (u64::MAX, 3), (10, 1)] {
        map.insert(rt, guard, key, value)?;
    }
    Ok(())
}

// Whether these keys are in the map, and no others, and are counted so.
fn has<L: Ledger, R: Wait>(
    rt: &R,
    map: &Map<L>,
    guard: &mut Guard<'_, L>,
    alloc: Global,
    keys: &[u64],
) -> Result<bool, Fail>
    requires { guard.old.table ≡ map.now }
    ensures { guard.new.table ≡ guard.old.table }
{
    let found = map.keys_recorded(rt, guard, alloc)?;
    let count = map.value_count_recorded(rt, guard);
    let none = map.is_empty_recorded(rt, guard);
    Ok(found.as_slice() == keys && count == keys.len() as u128 && none == (count == 0))
}

// The right rows, and whether the map has the right keys before all pairs are removed and after it.
fn by_rows<L: Ledger, R: Wait>(
    rt: &R,
    alloc: Global,
    blank: Blank,
) -> Result<(usize, bool, bool), Fail>
    requires name { blank.name ≡ L.name }
    requires parts { blank.parts ≡ L.parts }
    requires whole { L.parts ≡ 2 ^ 63 + 1 }
{
    let (map, _) = Map::<L>::new(alloc, blank)?;
    let mut guard = map.pin(rt)?;
    fill(rt, &map, &mut guard)?;
    let right = right_rows(rt, &map, &mut guard);
    let all = has(rt, &map, &mut guard, alloc, &[10, 258, u64::MAX])?;
    map.clear(rt, &mut guard);
    let none = has(rt, &map, &mut guard, alloc, &[])?;
    map.unpin(rt, guard);
    Ok((right, all, none))
}

#[test]
fn ranges_counts_and_clear(rt: HostRuntime) -> Result<(), Fail> {
    let done = by_rows::<Brand, _>(&rt, rt.alloc(), Blank::new((1 << 63) + 1))?;
    assert!(rt; done == (7, true, true));
    Ok(())
}

/// A call that removes the key 258.
#[derive(Clone, Copy)]
enum Removal {
    Range,
    Inclusive,
    Extract,
    Retain,
}

const REMOVALS: [Removal; 4] = [
    Removal::Range,
    Removal::Inclusive,
    Removal::Extract,
    Removal::Retain,
];

// How many pairs it removes.
fn removed<L: Ledger, R: Wait>(
    rt: &R,
    map: &Map<L>,
    guard: &mut Guard<'_, L>,
    removal: Removal,
) -> u128
    requires { guard.old.table ≡ map.now }
    ensures { guard.new.table ≡ guard.old.table }
{
    let mut count = 0u128;
    match removal {
        Removal::Range => map.remove_range(rt, guard, 11, 259),
        Removal::Inclusive => map.remove_range_inclusive(rt, guard, 11, 258),
        Removal::Extract => {
            let mut take = |key: u64, value: u64| {
                if key == 258 && value == 2 {
                    count = count.wrapping_add(1);
                }
            };
            map.extract_range(rt, guard, 11, 259, &mut take);
            count
        }
        Removal::Retain => {
            let mut keep = |key: u64, value: u64| -> bool {
                if key == 258 && value == 2 {
                    count = count.wrapping_add(1);
                    return false;
                }
                true
            };
            map.retain(rt, guard, &mut keep);
            count
        }
    }
}

// The number of the removals before the first wrong one. Each removes a pair that is then stored again.
fn right_removals<L: Ledger, R: Wait>(
    rt: &R,
    map: &Map<L>,
    guard: &mut Guard<'_, L>,
    alloc: Global,
) -> Result<usize, Fail>
    requires { guard.old.table ≡ map.now }
    ensures { guard.new.table ≡ guard.old.table }
{
    let mut right = 0;
    for removal in REMOVALS {
        let count = removed(rt, map, guard, removal);
        if count != 1 || !has(rt, map, guard, alloc, &[10, u64::MAX])? {
            return Ok(right);
        }
        map.insert(rt, guard, 258, 2)?;
        right = right.saturating_add(1);
    }
    Ok(right)
}

// The right removals, and how many pairs are counted in the end.
fn by_removals<L: Ledger, R: Wait>(
    rt: &R,
    alloc: Global,
    blank: Blank,
) -> Result<(usize, u128), Fail>
    requires name { blank.name ≡ L.name }
    requires parts { blank.parts ≡ L.parts }
    requires whole { L.parts ≡ 2 ^ 63 + 1 }
{
    let (map, share) = Map::<L>::new(alloc, blank)?;
    let mut guard = map.pin(rt)?;
    fill(rt, &map, &mut guard)?;
    let right = right_removals(rt, &map, &mut guard, alloc)?;
    map.unpin(rt, guard);
    Ok((right, map.settle(rt, share).ok().unwrap_or(9)))
}

#[test]
fn pairs_are_removed(rt: HostRuntime) -> Result<(), Fail> {
    let done = by_removals::<Brand, _>(&rt, rt.alloc(), Blank::new((1 << 63) + 1))?;
    assert!(rt; done == (4, 3));
    Ok(())
}
