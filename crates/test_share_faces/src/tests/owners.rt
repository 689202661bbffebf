//! Each call of `CongeeArc`.

ghost use Rattle.std.specs.Prelude.{◌≡◌, ◌+◌, ◌^◌};

use super::rows::{Call, Count, ROWS, are_of_two};
use congee::shared::Share;
use congee::{OOMError, locked, shared};
use share_backend::snapshots::Owners;
use share_faces::congee_arc::{CongeeArc, OwnerGuard};
use std::alloc::Global;
use std::marker::Brand;
use std::sync::ledger::{Blank, Ledger};
use std::sync::{Arc, Wait};
use std::test::Fail;

type Map<L, M> = CongeeArc<L, u64, u64, M>;

pub(super) fn found<L: Ledger, M: Owners<u64>, R: Wait>(
    rt: &R,
    alloc: Global,
    map: &Map<L, M>,
    guard: &mut OwnerGuard<'_, L, u64, M>,
    share: &mut Share<L>,
    gate: &mut Count,
    call: Call,
) -> Result<Option<Arc<u64>>, OOMError>
    requires { guard.old.table ≡ map.now }
    ensures { guard.new.table ≡ guard.old.table }
{
    match call {
        Call::Get(key) => map.get(rt, guard, key),
        Call::GetGated(key) => map.get_gated(rt, guard, key, gate),
        Call::Insert(key, value) => map.insert(rt, guard, key, Arc::new(alloc, value)?),
        Call::InsertGated(key, value) => {
            map.insert_gated(rt, guard, key, Arc::new(alloc, value)?, gate)
        }
        Call::InsertCounted(key, value) => {
            map.insert_counted(rt, guard, share, key, Arc::new(alloc, value)?)
        }
        Call::Remove(key) => Ok(map.remove(rt, guard, key)),
        Call::RemoveGated(key) => Ok(map.remove_gated(rt, guard, key, gate)),
        Call::RemoveCounted(key) => Ok(map.remove_counted(rt, guard, share, key)),
    }
}

// Whether this is an owner of that value, or none where none is wanted.
pub(super) fn is_owner(owner: Option<Arc<u64>>, wanted: Option<u64>) -> bool {
    match (owner, wanted) {
        (Some(owner), Some(value)) => *owner == value,
        (None, None) => true,
        _ => false,
    }
}

// The number of the rows before the first wrong one.
fn right_rows<L: Ledger, M: Owners<u64>, R: Wait>(
    rt: &R,
    alloc: Global,
    map: &Map<L, M>,
    guard: &mut OwnerGuard<'_, L, u64, M>,
    share: &mut Share<L>,
    by_events: bool,
) -> usize
    requires { guard.old.table ≡ map.now }
    ensures { guard.new.table ≡ guard.old.table }
{
    let mut right = 0;
    for (call, expected, between) in ROWS {
        let mut gate = Count { calls: 0 };
        let Ok(before) = found(rt, alloc, map, guard, share, &mut gate, call) else {
            return right;
        };
        let calls = if by_events { between } else { 0 };
        if !is_owner(before, expected) || gate.calls != calls {
            return right;
        }
        right = right.saturating_add(1);
    }
    right
}

// Whether keys, counts and statistics are those of the keys 1 and 256.
fn reads_two<L: Ledger, M: Owners<u64>, R: Wait>(
    rt: &R,
    map: &Map<L, M>,
    alloc: Global,
) -> Result<bool, Fail> {
    let keys = map.keys(rt, alloc)?;
    let stats = map.stats(rt)?;
    Ok(
        keys.as_slice() == [1, 256].as_slice()
            && map.value_count(rt) == 2
            && !map.is_empty(rt)
            && are_of_two(&stats),
    )
}

// Computations on a map with 12 at 1 and 7 at 256: the key, the value of the closure's answer, that of what the call
// returns, how often the closure is asked, and the sum of what it is asked with.
const COMPUTED: [(u64, Option<u64>, Option<u64>, u64, u64); 5] = [
    (4, Some(1), None, 0, 0),
    (1, Some(13), Some(12), 1, 12),
    (1, Some(14), Some(13), 1, 13),
    (256, None, Some(7), 1, 7),
    (256, Some(1), None, 0, 0),
];

// A computation whose closure returns that owner, or one more of it. What the call returns, and what the closure was
// asked with.
fn computed<L: Ledger, M: Owners<u64>, R: Wait>(
    rt: &R,
    map: &Map<L, M>,
    guard: &mut OwnerGuard<'_, L, u64, M>,
    key: u64,
    answer: Option<&Arc<u64>>,
) -> Result<(Option<Arc<u64>>, (u64, u64)), OOMError>
    requires { guard.old.table ≡ map.now }
    ensures { guard.new.table ≡ guard.old.table }
{
    let mut asked = (0u64, 0u64);
    let mut answers = |old: Arc<u64>| -> Option<Arc<u64>> {
        asked = (asked.0.wrapping_add(1), asked.1.wrapping_add(*old));
        match answer {
            Some(owner) => owner.clone().ok(),
            None => None,
        }
    };
    let before = map.compute_if_present(rt, guard, key, &mut answers)?;
    Ok((before, asked))
}

// The number of the computations before the first wrong one.
fn right_computations<L: Ledger, M: Owners<u64>, R: Wait>(
    rt: &R,
    alloc: Global,
    map: &Map<L, M>,
    guard: &mut OwnerGuard<'_, L, u64, M>,
) -> Result<usize, OOMError>
    requires { guard.old.table ≡ map.now }
    ensures { guard.new.table ≡ guard.old.table }
{
    let mut right = 0;
    for (key, value, expected, times, sum) in COMPUTED {
        let owner = Arc::new(alloc, value.unwrap_or(0))?;
        let answer = if value.is_some() { Some(&owner) } else { None };
        let (before, asked) = computed(rt, map, guard, key, answer)?;
        if !is_owner(before, expected) || asked != (times, sum) {
            return Ok(right);
        }
        right = right.saturating_add(1);
    }
    Ok(right)
}

// Whether each call is right, and how many pairs are counted in the end.
fn is_right<L: Ledger, M: Owners<u64>, R: Wait>(
    rt: &R,
    alloc: Global,
    map: &Map<L, M>,
    mut share: Share<L>,
    by_events: bool,
) -> Result<(bool, Option<u128>), Fail> {
    let mut guard = map.pin_waiting(rt)?;
    let none = map.is_empty(rt) && map.value_count(rt) == 0;
    let rows = right_rows(rt, alloc, map, &mut guard, &mut share, by_events);
    let read = reads_two(rt, map, alloc)?;
    let computed = right_computations(rt, alloc, map, &mut guard)?;
    map.unpin(rt, guard);
    Ok((
        none && rows == ROWS.len() && read && computed == COMPUTED.len(),
        map.settle(rt, share).ok(),
    ))
}

fn over_events<L: Ledger, R: Wait>(
    rt: &R,
    alloc: Global,
    blank: Blank,
) -> Result<(bool, Option<u128>), Fail>
    requires name { blank.name ≡ L.name }
    requires parts { blank.parts ≡ L.parts }
    requires whole { L.parts ≡ 2 ^ 63 + 1 }
{
    let (map, share) = shared::CongeeArc::<L, u64, u64>::new(alloc, blank)?;
    is_right(rt, alloc, &map, share, true)
}

fn over_tree<L: Ledger, R: Wait>(
    rt: &R,
    alloc: Global,
    blank: Blank,
) -> Result<(bool, Option<u128>), Fail>
    requires name { blank.name ≡ L.name }
    requires parts { blank.parts ≡ L.parts }
    requires whole { L.parts ≡ 2 ^ 63 + 1 }
{
    let (map, share) = locked::CongeeArc::<L, u64, u64>::new(alloc, blank)?;
    is_right(rt, alloc, &map, share, false)
}

#[test]
fn each_call_of_maps_of_owners(rt: HostRuntime) -> Result<(), Fail> {
    let events = over_events::<Brand, _>(&rt, rt.alloc(), Blank::new((1 << 63) + 1))?;
    assert!(rt; events == (true, Some(1)));
    let tree = over_tree::<Brand, _>(&rt, rt.alloc(), Blank::new((1 << 63) + 1))?;
    assert!(rt; tree == (true, Some(1)));
    Ok(())
}
