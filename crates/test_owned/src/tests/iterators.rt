//! The pairs of a map one by one: the borders of pages, which have 16 pairs, and of ranges.

ghost use Rattle.std.specs.Iterator.{IsFinite};

use congee_owned::{Congee, CongeeArc, DefaultAllocator, OOMError, U64Congee};
use std::alloc::Global;
use std::sync::Arc;
use std::test::Fail;

// The map has the keys 0, 7, .. and the greatest, as many as these, each with the key beside it as its value.
const SIZES: [u64; 8] = [0, 1, 2, 16, 17, 32, 33, 40];

// Bounds, and the pairs that are in between of a map of 40: the place of the first, and how many. With the greatest
// key included, and without.
const ROWS: [(u64, u64, u64, u64, u64); 9] = [
    (0, u64::MAX, 0, 40, 39),
    (0, 0, 0, 1, 0),
    (1, 7, 1, 1, 0),
    (7, 8, 1, 1, 1),
    (7, 112, 1, 16, 15),
    (7, 119, 1, 17, 16),
    (8, 7, 2, 0, 0),
    (260, u64::MAX, 38, 2, 1),
    (u64::MAX, u64::MAX, 39, 1, 0),
];

fn key_at(place: u64, size: u64) -> u64 {
    if place.wrapping_add(1) == size {
        u64::MAX
    } else {
        place.wrapping_mul(7)
    }
}

fn fill(map: &mut Congee<u64, u64>, size: u64) -> Result<(), OOMError> {
    for place in 0..size {
        let key = key_at(place, size);
        map.insert(key, key ^ 1)?;
    }
    Ok(())
}

// How many pairs come, if each is the next one from that place on, and a number above all if one isn't.
fn count_right<I: Iterator<Item = (u64, u64)>>(pairs: I, from: u64, size: u64) -> u64
    requires can { I.can_next pairs }
    requires ends { IsFinite (I.remaining pairs) }
{
    let mut count = 0u64;
    for (key, value) in pairs {
        if key != key_at(from.wrapping_add(count), size) || value != key ^ 1 {
            return u64::MAX;
        }
        count = count.wrapping_add(1);
    }
    count
}

// The first size at which not all pairs come, each once.
fn wrong_size(map: &mut Congee<u64, u64>) -> Result<u64, OOMError> {
    for size in SIZES {
        map.clear();
        fill(map, size)?;
        if count_right(map.iter(), 0, size) != size
            || count_right((&*map).into_iter(), 0, size) != size
        {
            return Ok(size);
        }
    }
    Ok(99)
}

fn wrong_size_on_new_map(alloc: Global) -> Result<u64, OOMError> {
    let mut map = Congee::new(alloc, DefaultAllocator {})?;
    wrong_size(&mut map)
}

#[test]
fn each_pair_comes_once(rt: HostRuntime) -> Result<(), Fail> {
    assert!(rt; wrong_size_on_new_map(rt.alloc())? == 99);
    Ok(())
}

// The first row whose range isn't right.
fn wrong_range(map: &mut Congee<u64, u64>) -> Result<u64, OOMError> {
    fill(map, 40)?;
    let mut row = 0;
    for (start, last, from, with, without) in ROWS {
        if count_right(map.iter_range_inclusive(&start, &last), from, 40) != with
            || count_right(map.iter_range(&start, &last), from, 40) != without
        {
            return Ok(row);
        }
        row = row.wrapping_add(1);
    }
    Ok(99)
}

fn wrong_range_on_new_map(alloc: Global) -> Result<u64, OOMError> {
    let mut map = Congee::new(alloc, DefaultAllocator {})?;
    wrong_range(&mut map)
}

#[test]
fn ranges_end_where_they_are_said_to(rt: HostRuntime) -> Result<(), Fail> {
    assert!(rt; wrong_range_on_new_map(rt.alloc())? == 99);
    Ok(())
}

fn count<I: Iterator<Item = (u64, u64)>>(pairs: I) -> u64
    requires can { I.can_next pairs }
    requires ends { IsFinite (I.remaining pairs) }
{
    let mut count = 0u64;
    for _ in pairs {
        count = count.wrapping_add(1);
    }
    count
}

fn right_by_number(map: &mut U64Congee<u64>) -> Result<bool, OOMError> {
    map.insert(5, 4)?;
    map.insert(u64::MAX, u64::MAX ^ 1)?;
    let mut sum = 0u64;
    for (key, value) in &*map {
        sum = sum.wrapping_add(key ^ value);
    }
    let with = count(map.iter_range_inclusive(6, u64::MAX));
    let without = count(map.iter_range(6, u64::MAX));
    Ok(sum == 2 && with == 1 && without == 0 && count(map.iter()) == 2)
}

fn right_by_number_on_new_map(alloc: Global) -> Result<bool, OOMError> {
    let mut map = U64Congee::new(alloc)?;
    right_by_number(&mut map)
}

#[test]
fn numbers_are_iterated_over(rt: HostRuntime) -> Result<(), Fail> {
    assert!(rt; right_by_number_on_new_map(rt.alloc())?);
    Ok(())
}

// The values of these owners, as the digits of a number.
fn digits<'a, I: Iterator<Item = (u64, &'a Arc<u64>)>>(pairs: I) -> u64
    requires can { I.can_next pairs }
    requires ends { IsFinite (I.remaining pairs) }
{
    let mut number = 0u64;
    for (_, owner) in pairs {
        number = number.wrapping_mul(10).wrapping_add(**owner);
    }
    number
}

fn right_by_owner(alloc: Global, map: &mut CongeeArc<u64, u64>) -> Result<bool, Fail> {
    for (key, value) in [(u64::MAX, 1), (7, 2), (0, 3)] {
        map.insert(key, Arc::new(alloc, value)?)?;
    }
    let all = digits(map.iter()) == 321 && digits((&*map).into_iter()) == 321;
    let without = digits(map.iter_range(0, u64::MAX)) == 32 && digits(map.iter_range(1, 7)) == 0;
    let with = digits(map.iter_range_inclusive(7, u64::MAX)) == 21
        && digits(map.iter_range_inclusive(1, 7)) == 2
        && digits(map.iter_range_inclusive(8, 7)) == 0;
    Ok(all && without && with && digits(map.iter_range(0, 0)) == 0)
}

fn right_by_owner_on_new_map(alloc: Global) -> Result<bool, Fail> {
    let mut map = CongeeArc::new(alloc)?;
    right_by_owner(alloc, &mut map)
}

#[test]
fn owners_are_iterated_over(rt: HostRuntime) -> Result<(), Fail> {
    assert!(rt; right_by_owner_on_new_map(rt.alloc())?);
    Ok(())
}
