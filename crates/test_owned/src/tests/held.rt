//! Maps that removals leave small, so that their nodes move into a smaller table: the pairs stay, new ones come, and what is
//! charged doesn't change. `tools/c/memory.c` has what is held.

use congee_owned::{Budget, Congee, OOMError};
use std::alloc::Global;
use std::test::Fail;

type Limited = Congee<u64, u64, Budget>;

/// How many keys, by what the numbers below that are multiplied, and how many of the keys stay.
type Row = (u64, u64, u64);

/// Leaves of many pairs; pairs that are alone under a node of each form; pairs that are spread over all keys, where each
/// level has nodes; and fewer than are worth a move.
const ROWS: [Row; 8] = [
    (3000, 1, 20),
    (200, 257 << 40, 3),
    (2000, 1 << 40, 10),
    (1500, 0x9e37_79b9_7f4a_7c15, 1),
    (1500, 0x9e37_79b9_7f4a_7c15, 40),
    (4000, 0x9e37_79b9_7f4a_7c15, 300),
    (3000, 0x0001_0003_0007_000f, 25),
    (40, 0x9e37_79b9_7f4a_7c15, 2),
];

fn key_at(row: Row, i: u64) -> u64 {
    i.wrapping_mul(row.1)
}

fn insert_from(map: &mut Limited, row: Row, from: u64) -> Result<(), OOMError> {
    for i in from..row.0 {
        map.insert(key_at(row, i), i)?;
    }
    Ok(())
}

fn remove_from(map: &mut Limited, row: Row, from: u64) {
    for i in from..row.0 {
        map.remove(&key_at(row, i));
    }
}

// Whether the first keys are there, so many, and no others of the row.
fn has_first(map: &Limited, row: Row, count: u64) -> bool {
    for i in 0..row.0 {
        let wanted = if i < count { Some(i) } else { None };
        if map.get(&key_at(row, i)) != wanted {
            return false;
        }
    }
    map.value_count() == u128::from(count)
}

// Whether the first keys stay, with what is charged for them, and the others come and go again.
fn is_right(alloc: Global, row: Row) -> Result<bool, OOMError> {
    let mut map = Congee::new(alloc, Budget::new(u64::MAX))?;
    insert_from(&mut map, row, 0)?;
    remove_from(&mut map, row, row.2);
    let left = has_first(&map, row, row.2);
    let charged = map.charged();
    map.shrink_to_fit();
    let shrunk = has_first(&map, row, row.2) && map.charged() == charged;
    insert_from(&mut map, row, row.2)?;
    let filled = has_first(&map, row, row.0);
    map.shrink_to_fit();
    let kept = has_first(&map, row, row.0);
    remove_from(&mut map, row, 0);
    Ok(left && shrunk && filled && kept && map.is_empty() && map.charged() == 2104)
}

#[test]
fn maps_that_become_small(rt: HostRuntime) -> Result<(), Fail> {
    for row in &ROWS {
        assert!(rt; is_right(rt.alloc(), *row)?);
    }
    Ok(())
}
