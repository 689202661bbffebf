//! Ends, neighbours and pops, by a table of calls and what they find.

ghost use Rattle.std.specs.Prelude.{◌≡◌, ◌+◌, ◌^◌};

use congee::locked::{Congee, Guard, U64Congee};
use std::alloc::Global;
use std::marker::Brand;
use std::sync::Wait;
use std::sync::ledger::{Blank, Ledger};
use std::test::Fail;

#[derive(Clone, Copy)]
pub(super) enum Call {
    First,
    Last,
    Floor(u64),
    Below(u64),
    Ceiling(u64),
    Above(u64),
    PopFirst,
    PopLast,
}

// The calls on a map of 10, 20 and the greatest key, whose values are 1, 2 and 3.
pub(super) const ROWS: [(Call, Option<(u64, u64)>); 23] = [
    (Call::First, Some((10, 1))),
    (Call::Last, Some((u64::MAX, 3))),
    (Call::Floor(9), None),
    (Call::Floor(10), Some((10, 1))),
    (Call::Floor(19), Some((10, 1))),
    (Call::Floor(u64::MAX), Some((u64::MAX, 3))),
    (Call::Below(10), None),
    (Call::Below(20), Some((10, 1))),
    (Call::Below(u64::MAX), Some((20, 2))),
    (Call::Ceiling(0), Some((10, 1))),
    (Call::Ceiling(20), Some((20, 2))),
    (Call::Ceiling(21), Some((u64::MAX, 3))),
    (Call::Above(20), Some((u64::MAX, 3))),
    (Call::Above(u64::MAX), None),
    (Call::PopFirst, Some((10, 1))),
    (Call::First, Some((20, 2))),
    (Call::PopLast, Some((u64::MAX, 3))),
    (Call::Last, Some((20, 2))),
    (Call::PopFirst, Some((20, 2))),
    (Call::PopFirst, None),
    (Call::PopLast, None),
    (Call::First, None),
    (Call::Last, None),
];

fn found<L: Ledger, R: Wait>(
    rt: &R,
    map: &U64Congee<L, u64>,
    guard: &mut Guard<'_, L>,
    call: Call,
) -> Option<(u64, u64)>
    requires { guard.old.table ≡ map.now }
    ensures { guard.new.table ≡ guard.old.table }
{
    match call {
        Call::First => map.first(rt, guard),
        Call::Last => map.last(rt, guard),
        Call::Floor(key) => map.floor(rt, guard, key),
        Call::Below(key) => map.below(rt, guard, key),
        Call::Ceiling(key) => map.ceiling(rt, guard, key),
        Call::Above(key) => map.above(rt, guard, key),
        Call::PopFirst => map.pop_first(rt, guard),
        Call::PopLast => map.pop_last(rt, guard),
    }
}

// The number of the rows before the first wrong one.
fn right_rows<L: Ledger, R: Wait>(
    rt: &R,
    map: &U64Congee<L, u64>,
    guard: &mut Guard<'_, L>,
) -> usize
    requires { guard.old.table ≡ map.now }
    ensures { guard.new.table ≡ guard.old.table }
{
    let mut right = 0;
    for (call, expected) in ROWS {
        if found(rt, map, guard, call) != expected {
            return right;
        }
        right = right.saturating_add(1);
    }
    right
}

// Puts these pairs into the map.
fn fill<L: Ledger, R: Wait>(
    rt: &R,
    map: &U64Congee<L, u64>,
    guard: &mut Guard<'_, L>,
) -> Result<(), Fail>
    requires { guard.old.table ≡ map.now }
    ensures { guard.new.table ≡ guard.old.table }
{
    for (key, value) in [(20, 2), (u64::MAX, 3), (10, 1)] {
        map.insert(rt, guard, key, value)?;
    }
    Ok(())
}

// The right rows, and how many pairs are counted in the end.
fn by_rows<L: Ledger, R: Wait>(rt: &R, alloc: Global, blank: Blank) -> Result<(usize, bool), Fail>
    requires name { blank.name ≡ L.name }
    requires parts { blank.parts ≡ L.parts }
    requires whole { L.parts ≡ 2 ^ 63 + 1 }
{
    let (map, share) = U64Congee::<L, u64>::new(alloc, blank)?;
    let mut guard = map.pin(rt)?;
    fill(rt, &map, &mut guard)?;
    let right = right_rows(rt, &map, &mut guard);
    map.unpin(rt, guard);
    Ok((right, map.settle(rt, share).ok() == Some(0)))
}

#[test]
fn ends_neighbours_and_pops(rt: HostRuntime) -> Result<(), Fail> {
    let done = by_rows::<Brand, _>(&rt, rt.alloc(), Blank::new((1 << 63) + 1))?;
    assert!(rt; done == (23, true));
    Ok(())
}

// Calls ends, neighbours and pops by typed keys and values, on a map of two pairs. Returns the number of a wrong call, or 0.
fn typed<L: Ledger, R: Wait>(rt: &R, alloc: Global, blank: Blank) -> Result<usize, Fail>
    requires name { blank.name ≡ L.name }
    requires parts { blank.parts ≡ L.parts }
    requires whole { L.parts ≡ 2 ^ 63 + 1 }
{
    let (map, _) = Congee::<L, u64, u64>::new(alloc, blank, congee::DefaultAllocator {})?;
    let mut guard = map.pin(rt)?;
    map.insert(rt, &mut guard, 7, 70)?;
    map.insert(rt, &mut guard, 9, 90)?;
    Ok(typed_rows(rt, &map, &mut guard))
}

fn typed_rows<L: Ledger, R: Wait>(
    rt: &R,
    map: &Congee<L, u64, u64>,
    guard: &mut Guard<'_, L>,
) -> usize
    requires { guard.old.table ≡ map.now }
{
    let mut wrong = 0;
    if map.first(rt, guard) != Some((7, 70)) {
        wrong = 1;
    }
    if map.last(rt, guard) != Some((9, 90)) {
        wrong = 2;
    }
    if map.floor(rt, guard, &8) != Some((7, 70)) {
        wrong = 3;
    }
    if map.above(rt, guard, &7) != Some((9, 90)) {
        wrong = 4;
    }
    if map.below(rt, guard, &9) != Some((7, 70)) {
        wrong = 8;
    }
    if map.pop_last(rt, guard) != Some((9, 90)) {
        wrong = 5;
    }
    if map.ceiling(rt, guard, &8).is_some() {
        wrong = 6;
    }
    if map.pop_first(rt, guard) != Some((7, 70)) {
        wrong = 7;
    }
    wrong
}

#[test]
fn typed_ends(rt: HostRuntime) -> Result<(), Fail> {
    let wrong = typed::<Brand, _>(&rt, rt.alloc(), Blank::new((1 << 63) + 1))?;
    assert!(rt; wrong == 0);
    Ok(())
}
