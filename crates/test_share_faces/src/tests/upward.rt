//! The least pair and the neighbours of a key from it on, of maps whose calls are made of events and of those over a tree,
//! by a table of calls and what they find.

ghost use Rattle.std.specs.Prelude.{◌≡◌, ◌+◌, ◌^◌};

use congee::{DefaultAllocator, locked, shared};
use share_backend::ascending::Ascending;
use share_faces::typed_congee::{Congee, Guard};
use share_faces::u64_congee::U64Congee;
use std::alloc::Global;
use std::marker::Brand;
use std::sync::Wait;
use std::sync::ledger::{Blank, Ledger};
use std::test::Fail;

#[derive(Clone, Copy)]
enum Call {
    Insert(u64, u64),
    Remove(u64),
    First,
    Ceiling(u64),
    Above(u64),
}

// Calls in their order, on a map that is empty, and the pairs that are found. The key of a pair before doesn't count, so
// it is 0.
const ROWS: [(Call, Option<(u64, u64)>); 25] = [
    (Call::First, None),
    (Call::Ceiling(0), None),
    (Call::Above(0), None),
    (Call::Insert(u64::MAX, 3), None),
    (Call::First, Some((u64::MAX, 3))),
    (Call::Ceiling(u64::MAX), Some((u64::MAX, 3))),
    (Call::Above(u64::MAX), None),
    (Call::Above(u64::MAX - 1), Some((u64::MAX, 3))),
    (Call::Insert(20, 2), None),
    (Call::Insert(10, 1), None),
    (Call::Insert(0x1_0000_0010, 4), None),
    (Call::First, Some((10, 1))),
    (Call::Ceiling(0), Some((10, 1))),
    (Call::Ceiling(10), Some((10, 1))),
    (Call::Ceiling(11), Some((20, 2))),
    (Call::Ceiling(21), Some((0x1_0000_0010, 4))),
    (Call::Above(10), Some((20, 2))),
    (Call::Above(20), Some((0x1_0000_0010, 4))),
    (Call::Above(0x1_0000_0010), Some((u64::MAX, 3))),
    (Call::Above(u64::MAX), None),
    (Call::Remove(10), Some((0, 1))),
    (Call::First, Some((20, 2))),
    (Call::Remove(20), Some((0, 2))),
    (Call::Ceiling(10), Some((0x1_0000_0010, 4))),
    (Call::First, Some((0x1_0000_0010, 4))),
];

// A value before, as a row has it.
fn before(value: Option<u64>) -> Option<(u64, u64)> {
    Some((0, value?))
}

fn found<L: Ledger, M: Ascending, R: Wait>(
    rt: &R,
    map: &U64Congee<L, u64, M>,
    guard: &mut Guard<'_, L, M>,
    call: Call,
) -> Option<(u64, u64)>
    requires { guard.old.table ≡ map.now }
    ensures { guard.new.table ≡ guard.old.table }
{
    match call {
        Call::Insert(key, value) => match map.insert(rt, guard, key, value) {
            Ok(value) => before(value),
            Err(_) => Some((0, 0)),
        },
        Call::Remove(key) => before(map.remove(rt, guard, key)),
        Call::First => map.first(rt, guard),
        Call::Ceiling(key) => map.ceiling(rt, guard, key),
        Call::Above(key) => map.above(rt, guard, key),
    }
}

fn found_typed<L: Ledger, M: Ascending, R: Wait>(
    rt: &R,
    map: &Congee<L, u64, u64, M>,
    guard: &mut Guard<'_, L, M>,
    call: Call,
) -> Option<(u64, u64)>
    requires { guard.old.table ≡ map.now }
    ensures { guard.new.table ≡ guard.old.table }
{
    match call {
        Call::Insert(key, value) => match map.insert(rt, guard, key, value) {
            Ok(value) => before(value),
            Err(_) => Some((0, 0)),
        },
        Call::Remove(key) => before(map.remove(rt, guard, &key)),
        Call::First => map.first(rt, guard),
        Call::Ceiling(key) => map.ceiling(rt, guard, &key),
        Call::Above(key) => map.above(rt, guard, &key),
    }
}

// The number of the rows before the first wrong one, of a map with numbers as keys.
fn right_rows<L: Ledger, M: Ascending, R: Wait>(
    rt: &R,
    map: &U64Congee<L, u64, M>,
    guard: &mut Guard<'_, L, M>,
) -> usize
    requires { guard.old.table ≡ map.now }
    ensures { guard.new.table ≡ guard.old.table }
{
    let mut right = 0;
    for (call, expected) in ROWS {
        if found(rt, map, guard, call) != expected {
            return right;
        }
        right = right.saturating_add(1);
    }
    right
}

// The number of the rows before the first wrong one, of a map with typed keys.
fn right_rows_typed<L: Ledger, M: Ascending, R: Wait>(
    rt: &R,
    map: &Congee<L, u64, u64, M>,
    guard: &mut Guard<'_, L, M>,
) -> usize
    requires { guard.old.table ≡ map.now }
    ensures { guard.new.table ≡ guard.old.table }
{
    let mut right = 0;
    for (call, expected) in ROWS {
        if found_typed(rt, map, guard, call) != expected {
            return right;
        }
        right = right.saturating_add(1);
    }
    right
}

fn of_events<L: Ledger, R: Wait>(rt: &R, alloc: Global, blank: Blank) -> Result<usize, Fail>
    requires name { blank.name ≡ L.name }
    requires parts { blank.parts ≡ L.parts }
    requires whole { L.parts ≡ 2 ^ 63 + 1 }
{
    let (map, _) = shared::U64Congee::<L, u64>::new(alloc, blank)?;
    let mut guard = map.pin(rt)?;
    Ok(right_rows(rt, &map, &mut guard))
}

fn of_typed_events<L: Ledger, R: Wait>(rt: &R, alloc: Global, blank: Blank) -> Result<usize, Fail>
    requires name { blank.name ≡ L.name }
    requires parts { blank.parts ≡ L.parts }
    requires whole { L.parts ≡ 2 ^ 63 + 1 }
{
    let (map, _) = shared::Congee::<L, u64, u64>::new(alloc, blank, DefaultAllocator {})?;
    let mut guard = map.pin(rt)?;
    Ok(right_rows_typed(rt, &map, &mut guard))
}

fn of_tree<L: Ledger, R: Wait>(rt: &R, alloc: Global, blank: Blank) -> Result<usize, Fail>
    requires name { blank.name ≡ L.name }
    requires parts { blank.parts ≡ L.parts }
    requires whole { L.parts ≡ 2 ^ 63 + 1 }
{
    let (map, _) = locked::U64Congee::<L, u64>::new(alloc, blank)?;
    let mut guard = map.pin(rt)?;
    Ok(right_rows(rt, &map, &mut guard))
}

#[test]
fn least_pairs_from_a_key_on(rt: HostRuntime) -> Result<(), Fail> {
    let events = of_events::<Brand, _>(&rt, rt.alloc(), Blank::new((1 << 63) + 1))?;
    assert!(rt; events == 25);
    let typed = of_typed_events::<Brand, _>(&rt, rt.alloc(), Blank::new((1 << 63) + 1))?;
    assert!(rt; typed == 25);
    let tree = of_tree::<Brand, _>(&rt, rt.alloc(), Blank::new((1 << 63) + 1))?;
    assert!(rt; tree == 25);
    Ok(())
}
