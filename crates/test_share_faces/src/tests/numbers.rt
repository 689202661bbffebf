//! Each call of `U64Congee`.

ghost use Rattle.std.specs.Prelude.{◌≡◌, ◌+◌, ◌^◌};

use super::rows::{Call, Count, ROWS, are_of_two};
use congee::shared::Share;
use congee::{OOMError, locked, shared};
use share_backend::snapshots::Pages;
use share_faces::typed_congee::Guard;
use share_faces::u64_congee::U64Congee;
use std::alloc::Global;
use std::marker::Brand;
use std::sync::Wait;
use std::sync::ledger::{Blank, Ledger};
use std::test::Fail;

type Map<L, M> = U64Congee<L, u64, M>;

pub(super) fn found<L: Ledger, M: Pages, R: Wait>(
    rt: &R,
    map: &Map<L, M>,
    guard: &mut Guard<'_, L, M>,
    share: &mut Share<L>,
    gate: &mut Count,
    call: Call,
) -> Result<Option<u64>, OOMError>
    requires { guard.old.table ≡ map.now }
    ensures { guard.new.table ≡ guard.old.table }
{
    match call {
        Call::Get(key) => Ok(map.get(rt, guard, key)),
        Call::GetGated(key) => Ok(map.get_gated(rt, guard, key, gate)),
        Call::Insert(key, value) => map.insert(rt, guard, key, value),
        Call::InsertGated(key, value) => map.insert_gated(rt, guard, key, value, gate),
        Call::InsertCounted(key, value) => map.insert_counted(rt, guard, share, key, value),
        Call::Remove(key) => Ok(map.remove(rt, guard, key)),
        Call::RemoveGated(key) => Ok(map.remove_gated(rt, guard, key, gate)),
        Call::RemoveCounted(key) => Ok(map.remove_counted(rt, guard, share, key)),
    }
}

// The number of the rows before the first wrong one.
fn right_rows<L: Ledger, M: Pages, R: Wait>(
    rt: &R,
    map: &Map<L, M>,
    guard: &mut Guard<'_, L, M>,
    share: &mut Share<L>,
    by_events: bool,
) -> usize
    requires { guard.old.table ≡ map.now }
    ensures { guard.new.table ≡ guard.old.table }
{
    let mut right = 0;
    for (call, expected, between) in ROWS {
        let mut gate = Count { calls: 0 };
        let Ok(before) = found(rt, map, guard, share, &mut gate, call) else {
            return right;
        };
        let calls = if by_events { between } else { 0 };
        if before != expected || gate.calls != calls {
            return right;
        }
        right = right.saturating_add(1);
    }
    right
}

// Whether keys, counts, statistics and a range are those of the pairs (1, 12) and (256, 7).
fn reads_two<L: Ledger, M: Pages, R: Wait>(
    rt: &R,
    map: &Map<L, M>,
    guard: &mut Guard<'_, L, M>,
    alloc: Global,
) -> Result<bool, Fail>
    requires { guard.old.table ≡ map.now }
    ensures { guard.new.table ≡ guard.old.table }
{
    let keys = map.keys(rt, alloc)?;
    let stats = map.stats(rt)?;
    let mut buffer = [([9; 8], 0); 3];
    let below = map.range(rt, guard, 1, 256, &mut buffer);
    let written = map.range(rt, guard, 1, 257, &mut buffer);
    Ok(
        keys.as_slice() == [1, 256].as_slice()
            && map.value_count(rt) == 2
            && !map.is_empty(rt)
            && are_of_two(&stats)
            && below == 1
            && written == 2
            && buffer[0] == ([0, 0, 0, 0, 0, 0, 0, 1], 12)
            && buffer[1] == ([0, 0, 0, 0, 0, 0, 1, 0], 7),
    )
}

// Whether each call is right, and how many pairs are counted in the end.
fn is_right<L: Ledger, M: Pages, R: Wait>(
    rt: &R,
    alloc: Global,
    map: &Map<L, M>,
    mut share: Share<L>,
    by_events: bool,
) -> Result<(bool, Option<u128>), Fail> {
    let mut guard = map.pin_waiting(rt)?;
    let none = map.is_empty(rt);
    let rows = right_rows(rt, map, &mut guard, &mut share, by_events);
    let read = reads_two(rt, map, &mut guard, alloc)?;
    map.unpin(rt, guard);
    let pinned = map.pin(rt).is_ok();
    Ok((
        none && rows == 20 && read && pinned,
        map.settle(rt, share).ok(),
    ))
}

fn over_events<L: Ledger, R: Wait>(
    rt: &R,
    alloc: Global,
    blank: Blank,
) -> Result<(bool, Option<u128>), Fail>
    requires name { blank.name ≡ L.name }
    requires parts { blank.parts ≡ L.parts }
    requires whole { L.parts ≡ 2 ^ 63 + 1 }
{
    let (map, share) = shared::U64Congee::<L, u64>::new(alloc, blank)?;
    is_right(rt, alloc, &map, share, true)
}

fn over_tree<L: Ledger, R: Wait>(
    rt: &R,
    alloc: Global,
    blank: Blank,
) -> Result<(bool, Option<u128>), Fail>
    requires name { blank.name ≡ L.name }
    requires parts { blank.parts ≡ L.parts }
    requires whole { L.parts ≡ 2 ^ 63 + 1 }
{
    let (map, share) = locked::U64Congee::<L, u64>::new(alloc, blank)?;
    is_right(rt, alloc, &map, share, false)
}

#[test]
fn each_call_of_maps_with_numbers_as_keys(rt: HostRuntime) -> Result<(), Fail> {
    let events = over_events::<Brand, _>(&rt, rt.alloc(), Blank::new((1 << 63) + 1))?;
    assert!(rt; events == (true, Some(2)));
    let tree = over_tree::<Brand, _>(&rt, rt.alloc(), Blank::new((1 << 63) + 1))?;
    assert!(rt; tree == (true, Some(2)));
    Ok(())
}
