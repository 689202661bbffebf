//! Drains and drainers.

use super::counted::Tally;
use congee_owned::{Congee, DefaultAllocator, Drainer, FnDrain, NoDrain, OOMError};
use std::alloc::Global;
use std::cell::RefCell;
use std::sync::atomic::{AtomicU64, Ordering};
use std::test::Fail;

/// Records the pairs that it is called with.
#[derive(Drop)]
pub(super) struct Notes<'a> {
    pub(super) reported: &'a RefCell<Vec<(u64, u64)>>,
}

impl Drainer<u64, u64> for Notes<'_> {
    ghost can_drain = { λ _. Unit {0} };

    fn drain(&self, k: u64, v: u64) {
        if let Ok(mut list) = self.reported.try_borrow_mut() {
            let _ = list.push((k, v));
        }
    }
}

type NotedMap<'a> = Congee<u64, u64, DefaultAllocator, Notes<'a>>;

// Inserts three pairs into a map whose drainer records its pairs.
fn fill(map: &mut NotedMap<'_>) -> Result<(), OOMError> {
    for (key, value) in [(2, 20), (1, 10), (u64::MAX, 30)] {
        map.insert(key, value)?;
    }
    Ok(())
}

// Such a map.
fn noted<'a>(
    alloc: Global,
    reported: &'a RefCell<Vec<(u64, u64)>>,
) -> Result<NotedMap<'a>, OOMError> {
    let mut map = Congee::new_with_drainer(alloc, DefaultAllocator {}, Notes { reported })?;
    fill(&mut map)?;
    Ok(map)
}

// The pairs that the drainer is called with when the map is dropped.
fn called_at_drop(alloc: Global) -> Result<Vec<(u64, u64)>, OOMError> {
    let reported = RefCell::new(Vec::new(alloc));
    let map = noted(alloc, &reported)?;
    drop(map);
    Ok(reported.into_inner())
}

fn are_three(pairs: &[(u64, u64)]) -> bool {
    pairs == [(1, 10), (2, 20), (u64::MAX, 30)].as_slice()
}

#[test]
fn drainer_is_called_at_the_drop(rt: HostRuntime) -> Result<(), Fail> {
    assert!(rt; are_three(&called_at_drop(rt.alloc())?));
    Ok(())
}

/// A call that takes a pair out of the map, or writes over one.
#[derive(Clone, Copy)]
enum Change {
    Overwrite,
    OverwriteMany,
    Remove,
    Compute(Option<u64>),
    ComputeOrInsert,
    Exchange(Option<u64>),
    PopFirst,
    PopLast,
    RemoveRange,
    RemoveRangeInclusive,
    ExtractRange,
    Retain,
    Clear,
}

// How many pairs of three each leaves.
const CHANGES: [(Change, u64); 15] = [
    (Change::Overwrite, 3),
    (Change::OverwriteMany, 3),
    (Change::Remove, 2),
    (Change::Compute(Some(21)), 3),
    (Change::Compute(None), 2),
    (Change::ComputeOrInsert, 3),
    (Change::Exchange(Some(21)), 3),
    (Change::Exchange(None), 2),
    (Change::PopFirst, 2),
    (Change::PopLast, 2),
    (Change::RemoveRange, 2),
    (Change::RemoveRangeInclusive, 1),
    (Change::ExtractRange, 1),
    (Change::Retain, 2),
    (Change::Clear, 0),
];

type TalliedMap<'a> = Congee<u64, u64, DefaultAllocator, Tally<'a>>;

fn make(map: &mut TalliedMap<'_>, change: Change) {
    match change {
        Change::Overwrite => drop(map.insert(2, 21)),
        Change::OverwriteMany => drop(map.insert_many(&[(1, 11), (2, 21)])),
        Change::Remove => drop(map.remove(&2)),
        Change::Compute(new) => drop(map.compute_if_present(&2, &mut |_value: u64| new)),
        Change::ComputeOrInsert => drop(map.compute_or_insert(2, &mut |_value: Option<u64>| 21)),
        Change::Exchange(new) => drop(map.compare_exchange(&2, &20, new)),
        Change::PopFirst => drop(map.pop_first()),
        Change::PopLast => drop(map.pop_last()),
        Change::RemoveRange => drop(map.remove_range(&2, &3)),
        Change::RemoveRangeInclusive => drop(map.remove_range_inclusive(&1, &2)),
        Change::ExtractRange => map.extract_range(&1, &3, &mut |_key: u64, _value: u64| {}),
        Change::Retain => map.retain(&mut |key: u64, _value: u64| key != 2),
        Change::Clear => map.clear(),
    }
}

// How many pairs the drainer is called with: by a change, and by the drop after it.
fn called_with(alloc: Global, change: Change) -> Result<(u64, u64), OOMError> {
    let reported = AtomicU64::new(0);
    let mut map = Congee::new_with_drainer(
        alloc,
        DefaultAllocator {},
        Tally {
            reported: &reported,
        },
    )?;
    for key in 1..4u64 {
        map.insert(key, key.wrapping_mul(10))?;
    }
    make(&mut map, change);
    let before = reported.load(Ordering::Relaxed);
    drop(map);
    Ok((before, reported.load(Ordering::Relaxed)))
}

// The place of the first change that the drainer sees, or whose pairs it isn't called with at the drop.
fn wrong_change(alloc: Global) -> Result<u64, OOMError> {
    let mut place = 0u64;
    for (change, left) in CHANGES {
        if called_with(alloc, change)? != (0, left) {
            return Ok(place);
        }
        place = place.wrapping_add(1);
    }
    Ok(99)
}

#[test]
fn drainer_sees_no_change_before_the_drop(rt: HostRuntime) -> Result<(), Fail> {
    assert!(rt; wrong_change(rt.alloc())? == 99);
    Ok(())
}

// The pairs that the closure of a drain is called with, and then those that the drainer is.
fn called_by_drain(alloc: Global) -> Result<Vec<(u64, u64)>, OOMError> {
    let reported = RefCell::new(Vec::new(alloc));
    let map = noted(alloc, &reported)?;
    let mut list = Vec::new(alloc);
    let mut take = |key: u64, value: u64| {
        let _ = list.push((key, value));
    };
    map.drain(&mut take);
    for pair in reported.into_inner().as_slice() {
        list.push(*pair)?;
    }
    Ok(list)
}

#[test]
fn drain_calls_its_closure_alone(rt: HostRuntime) -> Result<(), Fail> {
    assert!(rt; are_three(&called_by_drain(rt.alloc())?));
    Ok(())
}

fn drain_one<D: Drainer<u64, u64>>(drainer: &D) -> bool
    requires { D.can_drain drainer.now }
{
    drainer.drain(7, 70);
    drainer.wants_pairs()
}

// Whether a closure as a drainer wants pairs, and is called with the one.
fn calls_a_closure() -> bool {
    let reported = RefCell::new((0u64, 0u64));
    let drainer = FnDrain::new(|key: u64, value: u64| {
        let _ = reported.try_replace((key, value));
    });
    let wants = drain_one(&drainer);
    drop(drainer);
    let called = reported.into_inner();
    wants && called == (7, 70)
}

#[test]
fn closure_is_called(rt: HostRuntime) {
    assert!(rt; calls_a_closure());
}

#[test]
fn nobody_is_called(rt: HostRuntime) {
    assert!(rt; !drain_one(&NoDrain {}));
}
