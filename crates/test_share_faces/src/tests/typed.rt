//! Each call of `Congee`.

ghost use Rattle.std.specs.Prelude.{◌≡◌, ◌+◌, ◌^◌};

use super::rows::{Call, Count, ROWS, are_of_two};
use congee::shared::Share;
use congee::{DefaultAllocator, OOMError, locked, shared};
use share_backend::snapshots::Pages;
use share_faces::typed_congee::{Congee, Guard};
use std::alloc::Global;
use std::marker::Brand;
use std::sync::Wait;
use std::sync::ledger::{Blank, Ledger};
use std::test::Fail;

type Map<L, M> = Congee<L, u64, u64, M>;

fn found<L: Ledger, M: Pages, R: Wait>(
    rt: &R,
    map: &Map<L, M>,
    guard: &mut Guard<'_, L, M>,
    share: &mut Share<L>,
    gate: &mut Count,
    call: Call,
) -> Result<Option<u64>, OOMError>
    requires { guard.old.table ≡ map.now }
    ensures { guard.new.table ≡ guard.old.table }
{
    match call {
        Call::Get(key) => Ok(map.get(rt, guard, &key)),
        Call::GetGated(key) => Ok(map.get_gated(rt, guard, &key, gate)),
        Call::Insert(key, value) => map.insert(rt, guard, key, value),
        Call::InsertGated(key, value) => map.insert_gated(rt, guard, key, value, gate),
        Call::InsertCounted(key, value) => map.insert_counted(rt, guard, share, key, value),
        Call::Remove(key) => Ok(map.remove(rt, guard, &key)),
        Call::RemoveGated(key) => Ok(map.remove_gated(rt, guard, &key, gate)),
        Call::RemoveCounted(key) => Ok(map.remove_counted(rt, guard, share, &key)),
    }
}

// The number of the rows before the first wrong one.
fn right_rows<L: Ledger, M: Pages, R: Wait>(
    rt: &R,
    map: &Map<L, M>,
    guard: &mut Guard<'_, L, M>,
    share: &mut Share<L>,
    by_events: bool,
) -> usize
    requires { guard.old.table ≡ map.now }
    ensures { guard.new.table ≡ guard.old.table }
{
    let mut right = 0;
    for (call, expected, between) in ROWS {
        let mut gate = Count { calls: 0 };
        let Ok(before) = found(rt, map, guard, share, &mut gate, call) else {
            return right;
        };
        let calls = if by_events { between } else { 0 };
        if before != expected || gate.calls != calls {
            return right;
        }
        right = right.saturating_add(1);
    }
    right
}

// Whether keys, counts and statistics are those of the keys 1 and 256.
fn reads_two<L: Ledger, M: Pages, R: Wait>(
    rt: &R,
    map: &Map<L, M>,
    alloc: Global,
) -> Result<bool, Fail> {
    let keys = map.keys(rt, alloc)?;
    let stats = map.stats(rt)?;
    Ok(
        keys.as_slice() == [1, 256].as_slice()
            && map.value_count(rt) == 2
            && !map.is_empty(rt)
            && are_of_two(&stats),
    )
}

// Ranges of a map with 12 at 1 and 7 at 256, in a buffer of two pairs: from a key, below a key, and the pairs.
const RANGES: [(u64, u64, &'static [(u64, u64)]); 7] = [
    (0, u64::MAX, &[(1, 12), (256, 7)]),
    (1, 256, &[(1, 12)]),
    (1, 257, &[(1, 12), (256, 7)]),
    (0, 1, &[]),
    (2, 256, &[]),
    (256, 1, &[]),
    (257, u64::MAX, &[]),
];

// The number of the ranges before the first wrong one.
fn right_ranges<L: Ledger, M: Pages, R: Wait>(
    rt: &R,
    map: &Map<L, M>,
    guard: &mut Guard<'_, L, M>,
) -> usize
    requires { guard.old.table ≡ map.now }
    ensures { guard.new.table ≡ guard.old.table }
{
    let mut right = 0;
    for (start, end, pairs) in RANGES {
        let mut buffer = [(9, 9); 2];
        let written = map.range(rt, guard, &start, &end, &mut buffer);
        if buffer.get(..written) != Some(pairs) {
            return right;
        }
        right = right.saturating_add(1);
    }
    right
}

// Exchanges at the key 5, which is absent first: the value that is compared, the new one, and what the call returns.
const EXCHANGES: [(u64, Option<u64>, Result<Option<u64>, Option<u64>>); 6] = [
    (42, Some(43), Err(None)),
    (42, None, Err(None)),
    (41, Some(43), Err(Some(42))),
    (42, Some(43), Ok(Some(43))),
    (43, None, Ok(None)),
    (43, None, Err(None)),
];

// The number of the exchanges before the first wrong one. After the second one, 42 is stored.
fn right_exchanges<L: Ledger, M: Pages, R: Wait>(
    rt: &R,
    map: &Map<L, M>,
    guard: &mut Guard<'_, L, M>,
) -> Result<usize, OOMError>
    requires { guard.old.table ≡ map.now }
    ensures { guard.new.table ≡ guard.old.table }
{
    let mut right = 0;
    for (old, new, expected) in EXCHANGES {
        if right == 2 {
            map.insert(rt, guard, 5, 42)?;
        }
        if map.compare_exchange(rt, guard, &5, &old, new) != expected {
            return Ok(right);
        }
        right = right.saturating_add(1);
    }
    Ok(right)
}

// Computations at the key 6, which is absent first: the closure's answer, and the value before, with which it is asked
// once.
const COMPUTED: [(u64, Option<u64>); 3] = [(0, None), (60, Some(0)), (61, Some(60))];

// The number of the computations before the first wrong one.
fn right_computations<L: Ledger, M: Pages, R: Wait>(
    rt: &R,
    map: &Map<L, M>,
    guard: &mut Guard<'_, L, M>,
) -> usize
    requires { guard.old.table ≡ map.now }
    ensures { guard.new.table ≡ guard.old.table }
{
    let mut right = 0;
    for (answer, before) in COMPUTED {
        let mut asked = (0u64, None);
        let mut answers = |old: Option<u64>| -> u64 {
            asked = (asked.0.wrapping_add(1), old);
            answer
        };
        let found = map.compute_or_insert(rt, guard, 6, &mut answers);
        if found != Ok(before) || asked != (1, before) {
            return right;
        }
        right = right.saturating_add(1);
    }
    right
}

// Whether each call is right, and how many pairs are counted in the end.
fn is_right<L: Ledger, M: Pages, R: Wait>(
    rt: &R,
    alloc: Global,
    map: &Map<L, M>,
    mut share: Share<L>,
    by_events: bool,
) -> Result<([usize; 4], bool, Option<u128>), Fail> {
    let mut guard = map.pin_waiting(rt)?;
    let none = map.is_empty(rt) && map.value_count(rt) == 0;
    let rows = right_rows(rt, map, &mut guard, &mut share, by_events);
    let read = reads_two(rt, map, alloc)?;
    let ranges = right_ranges(rt, map, &mut guard);
    let exchanges = right_exchanges(rt, map, &mut guard)?;
    let computed = right_computations(rt, map, &mut guard);
    map.unpin(rt, guard);
    Ok((
        [rows, ranges, exchanges, computed],
        none && read,
        map.settle(rt, share).ok(),
    ))
}

fn over_events<L: Ledger, R: Wait>(
    rt: &R,
    alloc: Global,
    blank: Blank,
) -> Result<([usize; 4], bool, Option<u128>), Fail>
    requires name { blank.name ≡ L.name }
    requires parts { blank.parts ≡ L.parts }
    requires whole { L.parts ≡ 2 ^ 63 + 1 }
{
    let (map, share) = shared::Congee::<L, u64, u64>::new(alloc, blank, DefaultAllocator {})?;
    is_right(rt, alloc, &map, share, true)
}

fn over_tree<L: Ledger, R: Wait>(
    rt: &R,
    alloc: Global,
    blank: Blank,
) -> Result<([usize; 4], bool, Option<u128>), Fail>
    requires name { blank.name ≡ L.name }
    requires parts { blank.parts ≡ L.parts }
    requires whole { L.parts ≡ 2 ^ 63 + 1 }
{
    let (map, share) = locked::Congee::<L, u64, u64>::new(alloc, blank, DefaultAllocator {})?;
    is_right(rt, alloc, &map, share, false)
}

#[test]
fn each_call_of_maps_of_typed_keys(rt: HostRuntime) -> Result<(), Fail> {
    let events = over_events::<Brand, _>(&rt, rt.alloc(), Blank::new((1 << 63) + 1))?;
    assert!(rt; events == ([20, 7, 6, 3], true, Some(3)));
    let tree = over_tree::<Brand, _>(&rt, rt.alloc(), Blank::new((1 << 63) + 1))?;
    assert!(rt; tree == ([20, 7, 6, 3], true, Some(3)));
    Ok(())
}
