//! Insertions of a slice, against single ones under the same limit: how many went in, what is charged, and the pairs.

use congee_owned::{Budget, Congee, OOMError};
use std::alloc::Global;
use std::test::Fail;

type Limited = Congee<u64, u64, Budget>;

/// So many pairs, whose keys are so far apart, and come again after so many.
type Slice = (u64, u64, u64);

/// None and one; keys that rise, through each form of a leaf and over several leaves; that fall; that come again, in
/// one leaf and in several; a few in each leaf, and one; leaves far apart, below inner nodes of each form.
const SLICES: [Slice; 16] = [
    (0, 1, 1),
    (1, 1, 1),
    (5, 1, 5),
    (17, 1, 17),
    (49, 1, 49),
    (600, 1, 600),
    (300, u64::MAX, 300),
    (60, 1, 7),
    (700, 1, 300),
    (60, 64, 60),
    (90, 128, 40),
    (70, 256, 70),
    (300, 257 << 8, 250),
    (60, 1 << 32, 60),
    (200, 257 << 40, 150),
    (20, 1 << 60, 16),
];

/// Limits of one slice.
const LIMITS: u64 = 12;

fn slice_of(alloc: Global, slice: Slice) -> Result<Vec<(u64, u64)>, OOMError> {
    let mut pairs = Vec::new(alloc);
    for i in 0..slice.0 {
        let key = i.checked_rem(slice.2).unwrap_or(0).wrapping_mul(slice.1);
        pairs.push((key, i))?;
    }
    Ok(pairs)
}

// How many go in at once.
fn insert_all(map: &mut Limited, pairs: &[(u64, u64)]) -> usize {
    match map.insert_many(pairs) {
        Ok(()) => pairs.len(),
        Err(error) => error.inserted,
    }
}

// How many go in one by one, before one is refused.
fn insert_each(map: &mut Limited, pairs: &[(u64, u64)]) -> usize {
    for (inserted, (key, value)) in pairs.iter().enumerate() {
        if map.insert(*key, *value).is_err() {
            return inserted;
        }
    }
    pairs.len()
}

fn are_alike(map: &Limited, other: &Limited, pairs: &[(u64, u64)]) -> bool {
    for (key, _) in pairs {
        if map.get(key) != other.get(key) {
            return false;
        }
    }
    map.value_count() == other.value_count() && map.charged() == other.charged()
}

fn goes_in_alike(alloc: Global, limit: u64, pairs: &[(u64, u64)]) -> Result<bool, OOMError> {
    let mut map = Congee::new(alloc, Budget::new(limit))?;
    let mut other = Congee::new(alloc, Budget::new(limit))?;
    let inserted = insert_all(&mut map, pairs);
    Ok(inserted == insert_each(&mut other, pairs) && are_alike(&map, &other, pairs))
}

// The bytes with which some insertion is refused at most: a node that grows is charged in both forms for a moment.
fn charged_for(alloc: Global, pairs: &[(u64, u64)]) -> Result<u64, OOMError> {
    let mut map = Congee::new(alloc, Budget::new(u64::MAX))?;
    insert_each(&mut map, pairs);
    Ok(u64::try_from(map.charged()).unwrap_or(0))
}

fn is_alike(alloc: Global, slice: Slice) -> Result<bool, OOMError> {
    let pairs = slice_of(alloc, slice)?;
    let room = charged_for(alloc, &pairs)?;
    for place in 0..LIMITS + 1 {
        let limit = 2104u64.wrapping_add(room.wrapping_mul(place) / LIMITS);
        if !goes_in_alike(alloc, limit, &pairs)? {
            return Ok(false);
        }
    }
    Ok(true)
}

#[test]
fn slices_inserted(rt: HostRuntime) -> Result<(), Fail> {
    for slice in &SLICES {
        assert!(rt; is_alike(rt.alloc(), *slice)?);
    }
    Ok(())
}
