//! Ranges: worked examples.

use congee_owned::{Congee, DefaultAllocator, OOMError, U64Congee};
use std::alloc::Global;
use std::test::Fail;

// Whether a range with one pair leaves the rest of a buffer for two.
fn leaves_the_rest(map: &mut Congee<u64, u64>) -> Result<bool, OOMError> {
    map.insert(1, 42)?;
    map.insert(u64::MAX, 7)?;
    let mut buffer = [(0, 0); 2];
    let none = map.range(&2, &u64::MAX, &mut buffer);
    let one = map.range(&1, &2, &mut buffer);
    Ok(none == 0 && one == 1 && buffer == [(1, 42), (0, 0)])
}

fn leaves_the_rest_on_new_map(alloc: Global) -> Result<bool, OOMError> {
    let mut map = Congee::new(alloc, DefaultAllocator {})?;
    leaves_the_rest(&mut map)
}

#[test]
fn range_leaves_the_rest_of_the_buffer(rt: HostRuntime) -> Result<(), Fail> {
    assert!(rt; leaves_the_rest_on_new_map(rt.alloc())?);
    Ok(())
}

fn has_last_two(map: &Congee<u64, u64>) -> bool {
    let mut buffer = [(0, 0); 8];
    let written = map.range(&15, &17, &mut buffer);
    written == 2 && buffer[0] == (15, 15) && buffer[1] == (16, 16)
}

fn has_one_leaf(map: &Congee<u64, u64>) -> Result<bool, OOMError> {
    let stats = map.stats()?;
    let levels = stats.levels.as_slice();
    Ok(levels.len() == 2 && levels[1].nodes == [0, 0, 1, 0])
}

fn has_keys(map: &Congee<u64, u64>) -> Result<bool, OOMError> {
    let keys = map.keys()?;
    Ok(keys.as_slice() == SEVENTEEN.as_slice())
}

// Whether a leaf of seventeen pairs is a node for 48 of them, a range has its last two, and all keys are there where one
// was removed and stored again.
fn has_seventeen(map: &mut Congee<u64, u64>) -> Result<bool, OOMError> {
    for key in 0..17u64 {
        map.insert(key, key)?;
    }
    let before = has_last_two(map) && has_one_leaf(map)?;
    let again = map.remove(&5) == Some(5) && map.insert(5, 5) == Ok(None);
    Ok(before && again && has_keys(map)?)
}

const SEVENTEEN: [u64; 17] = [0, 1, 2, 3, 4, 5, 6, 7, 8, 9, 10, 11, 12, 13, 14, 15, 16];

fn has_seventeen_on_new_map(alloc: Global) -> Result<bool, OOMError> {
    let mut map = Congee::new(alloc, DefaultAllocator {})?;
    has_seventeen(&mut map)
}

#[test]
fn seventeen_keys_are_one_leaf(rt: HostRuntime) -> Result<(), Fail> {
    assert!(rt; has_seventeen_on_new_map(rt.alloc())?);
    Ok(())
}

type Entry = ([u8; 8], u64);

// Whether a range writes so many entries, these.
fn writes(map: &U64Congee<u64>, start: u64, end: u64, count: usize, wanted: &[Entry; 3]) -> bool {
    let mut buffer = [LEFT; 3];
    map.range(start, end, &mut buffer) == count && buffer == *wanted
}

// Inserts numbers. Whether all of them are new.
fn fills_numbers(map: &mut U64Congee<u64>) -> bool {
    for key in 0..17u64 {
        if map.insert(key, key ^ 1) != Ok(None) {
            return false;
        }
    }
    map.insert(4294967247, 5) == Ok(None)
}

const LEFT: Entry = ([9; 8], 9);

const TWO: [Entry; 3] = [
    ([0, 0, 0, 0, 0, 0, 0, 15], 14),
    ([0, 0, 0, 0, 0, 0, 0, 16], 17),
    LEFT,
];

const ONE: [Entry; 3] = [([0, 0, 0, 0, 255, 255, 255, 207], 5), LEFT, LEFT];

fn writes_bytes(map: &mut U64Congee<u64>) -> bool {
    fills_numbers(map) && writes(map, 15, 17, 2, &TWO) && writes(map, 17, u64::MAX, 1, &ONE)
}

#[test]
fn range_of_numbers_writes_bytes(rt: HostRuntime) -> Result<(), Fail> {
    assert!(rt; writes_bytes(&mut U64Congee::new(rt.alloc())?));
    Ok(())
}
