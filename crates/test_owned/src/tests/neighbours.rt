//! Ends, neighbours and pops, by each face.

use super::faces::{Half, Tens};
use congee_owned::{Congee, DefaultAllocator, OOMError, PayloadCongee, U64Congee};
use std::alloc::Global;
use std::test::Fail;

type Pair = Option<(u64, u64)>;

/// A question about a key, or a pop.
#[derive(Clone, Copy, Debug)]
enum Asked {
    First,
    Last,
    Floor(u64),
    Ceiling(u64),
    Below(u64),
    Above(u64),
    PopFirst,
    PopLast,
}

const LAST: u64 = u64::MAX;

const KEYS: [u64; 4] = [5, 7, 300, LAST];

// Of these keys, each its own value.
const ROWS: [(Asked, Pair); 26] = [
    (Asked::First, Some((5, 5))),
    (Asked::Last, Some((LAST, LAST))),
    (Asked::Floor(4), None),
    (Asked::Floor(5), Some((5, 5))),
    (Asked::Floor(299), Some((7, 7))),
    (Asked::Floor(LAST), Some((LAST, LAST))),
    (Asked::Ceiling(0), Some((5, 5))),
    (Asked::Ceiling(6), Some((7, 7))),
    (Asked::Ceiling(300), Some((300, 300))),
    (Asked::Ceiling(301), Some((LAST, LAST))),
    (Asked::Below(0), None),
    (Asked::Below(5), None),
    (Asked::Below(7), Some((5, 5))),
    (Asked::Below(LAST), Some((300, 300))),
    (Asked::Above(0), Some((5, 5))),
    (Asked::Above(7), Some((300, 300))),
    (Asked::Above(300), Some((LAST, LAST))),
    (Asked::Above(LAST), None),
    (Asked::PopFirst, Some((5, 5))),
    (Asked::PopLast, Some((LAST, LAST))),
    (Asked::First, Some((7, 7))),
    (Asked::Last, Some((300, 300))),
    (Asked::PopLast, Some((300, 300))),
    (Asked::PopFirst, Some((7, 7))),
    (Asked::PopFirst, None),
    (Asked::PopLast, None),
];

fn answer(map: &mut Congee<u64, u64>, asked: Asked) -> Pair {
    match asked {
        Asked::First => map.first(),
        Asked::Last => map.last(),
        Asked::Floor(key) => map.floor(&key),
        Asked::Ceiling(key) => map.ceiling(&key),
        Asked::Below(key) => map.below(&key),
        Asked::Above(key) => map.above(&key),
        Asked::PopFirst => map.pop_first(),
        Asked::PopLast => map.pop_last(),
    }
}

// The place of the first row with another answer than the wanted one, if there is one.
fn wrong_answer(map: &mut Congee<u64, u64>) -> Option<usize> {
    for place in 0..ROWS.len() {
        let (asked, wanted) = ROWS[place];
        if answer(map, asked) != wanted {
            return Some(place);
        }
    }
    None
}

// Whether each row is right, and only the root is left then.
fn are_right(map: &mut Congee<u64, u64>) -> Result<bool, OOMError> {
    for key in KEYS {
        map.insert(key, key)?;
    }
    Ok(wrong_answer(map).is_none() && map.charged() == 2104)
}

// Of the same keys by number.
fn are_right_by_number(map: &mut U64Congee<u64>) -> Result<bool, OOMError> {
    for key in KEYS {
        map.insert(key, key)?;
    }
    Ok(
        map.first() == Some((5, 5))
            && map.last() == Some((LAST, LAST))
            && map.floor(6) == Some((5, 5))
            && map.ceiling(6) == Some((7, 7))
            && map.below(5).is_none()
            && map.above(7) == Some((300, 300))
            && map.pop_last() == Some((LAST, LAST))
            && map.pop_first() == Some((5, 5)),
    )
}

fn lent(pair: Option<(u64, &u64)>) -> Pair {
    let (key, value) = pair?;
    Some((key, *value))
}

// Of the same keys, with values that are lent.
fn are_right_of_payloads(map: &mut PayloadCongee<u64, u64>) -> Result<bool, OOMError> {
    for key in KEYS {
        map.insert(key, key)?;
    }
    Ok(
        lent(map.first()) == Some((5, 5))
            && lent(map.last()) == Some((LAST, LAST))
            && lent(map.floor(6)) == Some((5, 5))
            && lent(map.ceiling(6)) == Some((7, 7))
            && lent(map.below(5)).is_none()
            && lent(map.above(7)) == Some((300, 300))
            && map.pop_last() == Some((LAST, LAST))
            && map.pop_first() == Some((5, 5)),
    )
}

fn are_right_on_new_map(alloc: Global) -> Result<bool, OOMError> {
    let mut map = Congee::new(alloc, DefaultAllocator {})?;
    are_right(&mut map)
}

#[test]
fn neighbours(rt: HostRuntime) -> Result<(), Fail> {
    assert!(rt; are_right_on_new_map(rt.alloc())?);
    Ok(())
}

fn are_right_by_number_on_new_map(alloc: Global) -> Result<bool, OOMError> {
    let mut map = U64Congee::new(alloc)?;
    are_right_by_number(&mut map)
}

#[test]
fn neighbours_of_numbers(rt: HostRuntime) -> Result<(), Fail> {
    assert!(rt; are_right_by_number_on_new_map(rt.alloc())?);
    Ok(())
}

fn are_right_of_payloads_on_new_map(alloc: Global) -> Result<bool, OOMError> {
    let mut map = PayloadCongee::new(alloc)?;
    are_right_of_payloads(&mut map)
}

#[test]
fn neighbours_of_payloads(rt: HostRuntime) -> Result<(), Fail> {
    assert!(rt; are_right_of_payloads_on_new_map(rt.alloc())?);
    Ok(())
}

const UP: [([u8; 8], u64); 3] = [
    ([0, 0, 0, 0, 0, 0, 0, 7], 6),
    ([255; 8], u64::MAX ^ 1),
    ([9; 8], 9),
];

const DOWN: [([u8; 8], u64); 3] = [
    ([0, 0, 0, 0, 0, 0, 0, 7], 6),
    ([0, 0, 0, 0, 0, 0, 0, 5], 4),
    ([9; 8], 9),
];

// Whether the ranges that include their end write these.
fn has_ranges(map: &mut U64Congee<u64>) -> Result<bool, OOMError> {
    for key in [5, 7, LAST] {
        map.insert(key, key ^ 1)?;
    }
    let (mut up, mut down) = ([([9; 8], 9); 3], [([9; 8], 9); 3]);
    let ascending = map.range_inclusive(6, LAST, &mut up);
    let descending = map.range_descending(5, 7, &mut down);
    Ok(ascending == 2 && up == UP && descending == 2 && down == DOWN)
}

fn has_ranges_on_new_map(alloc: Global) -> Result<bool, OOMError> {
    let mut map = U64Congee::new(alloc)?;
    has_ranges(&mut map)
}

#[test]
fn ranges_of_numbers(rt: HostRuntime) -> Result<(), Fail> {
    assert!(rt; has_ranges_on_new_map(rt.alloc())?);
    Ok(())
}

const TYPED: [(Half, Tens); 3] = [
    (Half(2), Tens(10)),
    (Half(4), Tens(20)),
    (Half(6), Tens(30)),
];

// Whether keys 1, 2 and 3 are read back as 2, 4 and 6.
fn reads_back(map: &mut Congee<Half, Tens>) -> Result<bool, OOMError> {
    for (key, value) in TYPED {
        map.insert(key, value)?;
    }
    let [one, two, three] = TYPED;
    Ok(
        map.first() == Some(one)
            && map.last() == Some(three)
            && map.floor(&Half(5)) == Some(two)
            && map.ceiling(&Half(5)) == Some(two)
            && map.below(&Half(4)) == Some(one)
            && map.above(&Half(6)).is_none()
            && map.pop_first() == Some(one)
            && map.pop_last() == Some(three),
    )
}

fn reads_back_on_new_map(alloc: Global) -> Result<bool, OOMError> {
    let mut map = Congee::new(alloc, DefaultAllocator {})?;
    reads_back(&mut map)
}

#[test]
fn pairs_are_read_back(rt: HostRuntime) -> Result<(), Fail> {
    assert!(rt; reads_back_on_new_map(rt.alloc())?);
    Ok(())
}

/// What comes between pops of the first pair.
#[derive(Clone, Copy)]
enum Act {
    Insert(u64),
    Compute(u64),
    InsertMany(u64),
    RemoveBelow(u64),
    ExtractBelow(u64),
    Pop(Option<u64>),
    PopLast(u64),
    Clear,
}

// A pop gives the least key, whatever was popped, inserted and taken out before.
const ACTS: [Act; 38] = [
    Act::Pop(None),
    Act::Insert(700),
    Act::Insert(703),
    Act::Insert(1 << 40),
    Act::Pop(Some(700)),
    Act::Insert(701),
    Act::Pop(Some(701)),
    Act::Insert(5),
    Act::Pop(Some(5)),
    Act::Compute(4),
    Act::Pop(Some(4)),
    Act::InsertMany(2),
    Act::Pop(Some(2)),
    Act::Pop(Some(703)),
    Act::Insert(9),
    Act::RemoveBelow(10),
    Act::Insert(3),
    Act::Pop(Some(3)),
    Act::Insert(4),
    Act::Insert(6),
    Act::ExtractBelow(5),
    Act::Pop(Some(6)),
    Act::Pop(Some(1 << 40)),
    Act::Pop(None),
    Act::Insert(LAST),
    Act::Pop(Some(LAST)),
    Act::Insert(LAST),
    Act::Insert(LAST - 1),
    Act::Pop(Some(LAST - 1)),
    Act::Insert(LAST - 256),
    Act::PopLast(LAST),
    Act::Pop(Some(LAST - 256)),
    Act::Pop(None),
    Act::Insert(8),
    Act::Clear,
    Act::Insert(1),
    Act::Insert(0),
    Act::Pop(Some(0)),
];

// Whether the act was allowed, and a pop gave what it has to.
fn acts(map: &mut Congee<u64, u64>, act: Act) -> bool {
    match act {
        Act::Insert(key) => map.insert(key, key).is_ok(),
        Act::Compute(key) => map.compute_or_insert(key, &mut |_| key).is_ok(),
        Act::InsertMany(key) => map.insert_many(&[(key, key)]).is_ok(),
        Act::RemoveBelow(key) => map.remove_range(&0, &key) == 1,
        Act::ExtractBelow(key) => {
            map.extract_range(&0, &key, &mut |_: u64, _: u64| {});
            true
        }
        Act::Pop(Some(key)) => map.pop_first() == Some((key, key)),
        Act::Pop(None) => map.pop_first().is_none(),
        Act::PopLast(key) => map.pop_last() == Some((key, key)),
        Act::Clear => {
            map.clear();
            map.is_empty()
        }
    }
}

// The place of the first act that isn't right, if there is one.
fn wrong_act(map: &mut Congee<u64, u64>) -> Option<usize> {
    for place in 0..ACTS.len() {
        if !acts(map, ACTS[place]) {
            return Some(place);
        }
    }
    None
}

#[test]
fn first_pairs_between_other_calls(rt: HostRuntime) -> Result<(), Fail> {
    assert!(rt; wrong_act(&mut Congee::new(rt.alloc(), DefaultAllocator {})?).is_none());
    Ok(())
}
