//! These calls by numbers alone, and with owners.

use congee_owned::{CongeeArc, OOMError, U64Congee};
use std::alloc::Global;
use std::sync::Arc;
use std::test::Fail;

const PAIRS: [(u64, u64); 5] = [(1, 10), (2, 20), (3, 30), (4, 40), (u64::MAX, 50)];

/// What is removed, extracted and removed up to its end; what a first `retain` is asked about, and a second one; and what
/// is charged for the emptied map. A pair counts as a thousand times its key, and its value.
const WANTED: [u128; 6] = [1, 1010, 1, 7070, 4040, 2104];

fn with_pair(sum: u128, key: u64, value: u64) -> u128 {
    let pair = u128::from(key).wrapping_mul(1000);
    sum.wrapping_add(pair).wrapping_add(u128::from(value))
}

fn by_number(map: &mut U64Congee<u64>) -> Result<[u128; 6], OOMError> {
    let (mut extracted, mut asked, mut left) = (0, 0, 0);
    map.insert_many(&PAIRS)?;
    let removed = map.remove_range(2, 3);
    map.shrink_to_fit();
    map.extract_range(
        0,
        2,
        &mut |key: u64, value: u64| extracted = with_pair(extracted, key, value),
    );
    let last = map.remove_range_inclusive(u64::MAX, u64::MAX);
    map.retain(&mut |key: u64, value: u64| {
        asked = with_pair(asked, key, value);
        key == 4
    });
    map.retain(&mut |key: u64, value: u64| {
        left = with_pair(left, key, value);
        true
    });
    map.clear();
    Ok([removed, extracted, last, asked, left, map.charged()])
}

fn by_number_on_new_map(alloc: Global) -> Result<[u128; 6], OOMError> {
    let mut map = U64Congee::new(alloc)?;
    by_number(&mut map)
}

#[test]
fn numbers(rt: HostRuntime) -> Result<(), Fail> {
    assert!(rt; by_number_on_new_map(rt.alloc())? == WANTED);
    Ok(())
}

fn fill(alloc: Global, map: &mut CongeeArc<u64, u64>) -> Result<(), OOMError> {
    for (key, value) in &PAIRS {
        map.insert(*key, Arc::new(alloc, *value)?)?;
    }
    Ok(())
}

// The numbers that `WANTED` lists, of a filled map of owners.
fn by_owner(map: &mut CongeeArc<u64, u64>) -> [u128; 6] {
    let (mut extracted, mut asked, mut left) = (0, 0, 0);
    let removed = map.remove_range(2, 3);
    map.shrink_to_fit();
    map.extract_range(
        0,
        2,
        &mut |key: u64, owner: Arc<u64>| extracted = with_pair(extracted, key, *owner),
    );
    let last = map.remove_range_inclusive(u64::MAX, u64::MAX);
    map.retain(&mut |key: u64, owner: &Arc<u64>| {
        asked = with_pair(asked, key, **owner);
        key == 4
    });
    map.retain(&mut |key: u64, owner: &Arc<u64>| {
        left = with_pair(left, key, **owner);
        true
    });
    map.clear();
    [removed, extracted, last, asked, left, map.charged()]
}

#[test]
fn owners(rt: HostRuntime) -> Result<(), Fail> {
    let mut map = CongeeArc::new(rt.alloc())?;
    fill(rt.alloc(), &mut map)?;
    assert!(rt; by_owner(&mut map) == WANTED);
    Ok(())
}
