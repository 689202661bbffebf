//! Budgets: what is charged, what is refused, and the pairs after a refusal.

use super::counted::{Counted, Counts};
use super::rows::{Wanted, wrong_row};
use congee_owned::{Budget, Congee, CongeeArc, OOMError, U64Congee};
use face_runs::calls::Call;
use std::alloc::Global;
use std::sync::Arc;
use std::test::Fail;

// A call with what it has to return.
type Row = (Call<u64, u64>, Wanted<'static, u64, u64>);

// Whether a computation is refused, and its closure not called.
fn refuses_a_computation(map: &mut Congee<u64, u64, Budget>) -> bool {
    let mut called = false;
    let mut note = |_standing: Option<u64>| -> u64 {
        called = true;
        7
    };
    let is_refused = map.compute_or_insert(100, &mut note).is_err();
    is_refused && !called
}

const NO_LEAF: [Row; 2] = [
    (Call::Insert(100, 100), Wanted::Refused),
    (Call::IsEmpty, Wanted::Tested(true)),
];

fn refuses_a_leaf(alloc: Global, map: &mut Congee<u64, u64, Budget>) -> bool {
    refuses_a_computation(map) && wrong_row(alloc, map, &NO_LEAF).is_none() && map.charged() == 2104
}

#[test]
fn no_memory_for_a_leaf(rt: HostRuntime) -> Result<(), Fail> {
    let alloc = rt.alloc();
    assert!(rt; refuses_a_leaf(alloc, &mut Congee::new(alloc, Budget::new(2104))?));
    Ok(())
}

fn has_no_root(alloc: Global) -> bool {
    let none: Result<Congee<u64, u64, Budget>, OOMError> = Congee::new(alloc, Budget::new(2103));
    none.is_err()
}

#[test]
fn no_memory_for_the_root(rt: HostRuntime) {
    assert!(rt; has_no_root(rt.alloc()));
}

type CountedMap<'a> = Congee<u64, u64, Counted<'a>>;

// Inserts the key as its own value, by a computation or not. Returns also how often the closure was called.
fn insert_by(
    map: &mut CountedMap<'_>,
    key: u64,
    computes: bool,
) -> (Result<Option<u64>, OOMError>, u8) {
    let mut calls = 0u8;
    if !computes {
        return (map.insert(key, key), calls);
    }
    let mut count = |_standing: Option<u64>| -> u64 {
        calls = calls.wrapping_add(1);
        key
    };
    let result = map.compute_or_insert(key, &mut count);
    (result, calls)
}

// Makes the insertion of a new key with so many requests granted. Whether they are enough, `None` if a result, what is
// stored, what is charged or the number of the closure's calls isn't right.
fn is_enough(
    map: &mut CountedMap<'_>,
    counts: &Counts,
    key: u64,
    computes: bool,
    granted: u64,
) -> Option<bool> {
    let before = counts.charged();
    counts.grant(granted);
    let (result, calls) = insert_by(map, key, computes);
    let after = counts.charged();
    let right = map.charged() == u128::from(after)
        && match result {
            Ok(old) => old.is_none() && map.get(&key) == Some(key) && calls == u8::from(computes),
            Err(_) => after == before && map.get(&key).is_none() && calls == 0,
        };
    if right { Some(result.is_ok()) } else { None }
}

// Makes the insertion of a new key again and again, its first request refused, then its second and so on, until all are
// granted. Returns how many it made, `None` if one isn't right.
fn requests_of(map: &mut CountedMap<'_>, counts: &Counts, key: u64, computes: bool) -> Option<u64> {
    for granted in 0..8 {
        if is_enough(map, counts, key, computes, granted)? {
            return Some(granted);
        }
    }
    None
}

// Keys that are inserted, and how many requests each makes: a leaf; none; a split; a leaf in a node with room, which is
// then full; a leaf and growth; growth of a leaf.
const REQUESTS: [(u64, u64); 9] = [
    (0, 1),
    (1, 0),
    (256, 2),
    (512, 1),
    (768, 1),
    (1024, 2),
    (2, 0),
    (3, 0),
    (4, 1),
];

// The first key whose insertion isn't right, if there is one.
fn wrong_insertion(map: &mut CountedMap<'_>, counts: &Counts, computes: bool) -> Option<u64> {
    for (key, wanted) in REQUESTS {
        if requests_of(map, counts, key, computes) != Some(wanted) {
            return Some(key);
        }
    }
    None
}

const NEVER_REFUSED: [Row; 4] = [
    (Call::Insert(2, 9), Wanted::Old(Some(2))),
    (
        Call::CompareExchange(2, 9, Some(2)),
        Wanted::Exchanged(Ok(Some(2))),
    ),
    (
        Call::ComputeIfPresent(2, None),
        Wanted::Computed(Some((2, None))),
    ),
    (Call::Remove(1024), Wanted::Old(Some(1024))),
];

// Whether calls that take no memory aren't refused.
fn are_never_refused(alloc: Global, map: &mut CountedMap<'_>, counts: &Counts) -> bool {
    counts.grant(0);
    wrong_row(alloc, map, &NEVER_REFUSED).is_none() && map.charged() == u128::from(counts.charged())
}

// Whether each request of a map is refused once, and calls that make none aren't refused.
fn has_requests(alloc: Global, counts: &Counts, computes: bool) -> Result<bool, OOMError> {
    counts.grant(1);
    let mut map = Congee::new(alloc, Counted { counts })?;
    let wrong = wrong_insertion(&mut map, counts, computes);
    Ok(wrong.is_none() && are_never_refused(alloc, &mut map, counts))
}

fn is_refused(alloc: Global, counts: &Counts) -> bool {
    counts.grant(0);
    let refused: Result<CountedMap<'_>, OOMError> = Congee::new(alloc, Counted { counts });
    refused.is_err()
}

// Whether each request is refused once, the root's too, and all that is charged is uncharged at the map's drop.
fn are_uncharged(alloc: Global, computes: bool) -> Result<bool, OOMError> {
    let counts = Counts::new();
    let root = is_refused(alloc, &counts) && counts.charged() == 0;
    Ok(has_requests(alloc, &counts, computes)? && root && counts.charged() == 0)
}

#[test]
fn each_request_refused(rt: HostRuntime) -> Result<(), Fail> {
    assert!(rt; are_uncharged(rt.alloc(), false)?);
    assert!(rt; are_uncharged(rt.alloc(), true)?);
    Ok(())
}

// The limit of a map's budget and what is left of it, after one insertion under a limit of 5000.
fn of_typed(alloc: Global) -> Result<(u64, u64), OOMError> {
    let mut map = Congee::new(alloc, Budget::new(5000))?;
    map.insert(1u64, 1u64)?;
    Ok((map.allocator().limit(), map.allocator().left()))
}

fn of_numbers(alloc: Global) -> Result<(u64, u64), OOMError> {
    let mut map = U64Congee::new_in(alloc, Budget::new(5000))?;
    map.insert(1, 1u64)?;
    Ok((map.allocator().limit(), map.allocator().left()))
}

fn of_owners(alloc: Global) -> Result<(u64, u64), Fail> {
    let mut map = CongeeArc::new_in(alloc, Budget::new(5000))?;
    map.insert(1u64, Arc::new(alloc, 1u64)?)?;
    Ok((map.allocator().limit(), map.allocator().left()))
}

#[test]
fn limit_stays_and_what_is_left_falls(rt: HostRuntime) -> Result<(), Fail> {
    assert!(rt; of_typed(rt.alloc())? == (5000, 2832));
    assert!(rt; of_numbers(rt.alloc())? == (5000, 2832));
    assert!(rt; of_owners(rt.alloc())? == (5000, 2832));
    Ok(())
}
