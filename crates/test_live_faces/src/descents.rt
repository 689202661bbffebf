//! Pages downwards: over nodes of each form, with bounds, full ones, and beside a writer.

ghost use Rattle.std.specs.Prelude.{◌≡◌};

use crate::ranges::{KEYS, Keys, fill};
use crate::steps::all_hold;
use live_faces::live::{Congee, Guard};
use std::alloc::Global;
use std::process::Abort;
use std::sync::Wait;
use std::test::Fail;
use std::thread::{Threads, join};

type Map = Congee<u64, u64>;

// How many pairs of a page are those that were inserted, from this key down.
fn right_pairs(page: &[(u64, u64)], from: u64, step: u64) -> u32 {
    let mut key = from;
    let mut right = 0u32;
    for pair in page {
        if *pair == (key, key ^ 1) {
            right = right.wrapping_add(1);
        }
        key = key.wrapping_sub(step);
    }
    right
}

// One page from a key down: how many of its pairs are right.
fn read_page<R: Wait>(
    rt: &R,
    map: &Map,
    guard: &mut Guard,
    step: u64,
    from: u64,
    buffer: &mut [(u64, u64)],
) -> u32
    requires { guard.old.book ≡ map.now }
    ensures { guard.new.book ≡ map.now }
{
    let count = map.range_descending(rt, guard, &0, &from, buffer);
    if count > buffer.len() {
        return 0;
    }
    right_pairs(&buffer[..count], from, step)
}

// All keys by pages of seven, each below the last key of the one before: how many pairs are right.
fn read_all<R: Wait>(rt: &R, map: &Map, keys: Keys) -> u32 {
    let mut guard = map.pin();
    let mut buffer = [(0u64, 0u64); 7];
    let steps = u64::from(keys.count).wrapping_sub(1);
    let mut from = keys.first.wrapping_add(keys.step.wrapping_mul(steps));
    let mut right = 0u32;
    for _ in 0..keys.count / 7 + 1 {
        right = right.wrapping_add(read_page(rt, map, &mut guard, keys.step, from, &mut buffer));
        from = from.wrapping_sub(keys.step.wrapping_mul(7));
    }
    right
}

#[test]
fn pages_downwards_give_all_pairs_in_order(rt: HostRuntime) -> Result<(), Fail> {
    for keys in KEYS {
        let map: Map = Congee::new(rt.alloc())?;
        fill(&rt, rt.alloc(), &map, keys)?;
        assert!(rt; read_all(&rt, &map, keys) == keys.count);
    }
    Ok(())
}

// The keys 10, 20 .. 300.
const THIRTY: Keys = Keys {
    first: 10,
    step: 10,
    count: 30,
};

// Of these keys: from, to, and how many there are.
const COUNTS: [(u64, u64, usize); 9] = [
    (0, 0, 0),
    (0, 10, 1),
    (10, 10, 1),
    (11, 20, 1),
    (255, 261, 1),
    (251, 260, 1),
    (300, u64::MAX, 1),
    (20, 10, 0),
    (0, u64::MAX, 30),
];

fn count_ranges<R: Wait + Abort>(rt: &R, map: &Map) {
    for (first, last, count) in COUNTS {
        let mut guard = map.pin();
        let mut buffer = [(0u64, 0u64); 40];
        assert!(rt; map.range_descending(rt, &mut guard, &first, &last, &mut buffer) == count);
    }
}

#[test]
fn a_page_downwards_has_both_ends_of_its_range(rt: HostRuntime) -> Result<(), Fail> {
    let map: Map = Congee::new(rt.alloc())?;
    fill(&rt, rt.alloc(), &map, THIRTY)?;
    count_ranges(&rt, &map);
    Ok(())
}

fn read_full_pages<R: Wait + Abort>(rt: &R, map: &Map, guard: &mut Guard)
    requires { guard.old.book ≡ map.now }
{
    let mut three = [(0u64, 0u64); 3];
    let steps = [
        map.range_descending(rt, guard, &15, &1000, &mut three) == 3,
        three == [(300, 301), (290, 291), (280, 281)],
        map.range_descending(rt, guard, &15, &279, &mut three) == 3,
        three == [(270, 271), (260, 261), (250, 251)],
        map.range_descending(rt, guard, &15, &1000, &mut []) == 0,
        map.try_range_descending(guard, &41, &61, &mut three) == Ok(2),
        three[0] == (60, 61),
        three[1] == (50, 51),
        map.try_range_descending(guard, &u64::MAX, &u64::MAX, &mut three) == Ok(0),
    ];
    all_hold(rt, &steps);
}

#[test]
fn a_full_buffer_ends_a_page_downwards(rt: HostRuntime) -> Result<(), Fail> {
    let map: Map = Congee::new(rt.alloc())?;
    fill(&rt, rt.alloc(), &map, THIRTY)?;
    read_full_pages(&rt, &map, &mut map.pin());
    Ok(())
}

// The even keys below this one are there throughout. A writer enters the odd ones.
const END: u64 = 6000;

const EVEN: Keys = Keys {
    first: 0,
    step: 2,
    count: 3000,
};

const ODD: Keys = Keys {
    first: 1,
    step: 2,
    count: 3000,
};

// The last key of a page below this one, if its keys descend and all even ones are there.
fn checked(page: &[(u64, u64)], below: u64) -> Option<u64> {
    let mut end = below;
    for pair in page {
        let even = end.saturating_sub(1) & !1;
        if pair.0 >= end || pair.0 < even || pair.1 != pair.0 ^ 1 {
            return None;
        }
        end = pair.0;
    }
    Some(end)
}

// One page below a key: its last key. `None` where it is wrong, or ends above the first even key.
fn next_page<R: Wait>(rt: &R, map: &Map, guard: &mut Guard, below: u64) -> Option<u64>
    requires { guard.old.book ≡ map.now }
    ensures { guard.new.book ≡ map.now }
{
    let mut buffer = [(0u64, 0u64); 50];
    let last = below.saturating_sub(1);
    let count = map.range_descending(rt, guard, &0, &last, &mut buffer);
    if count > 50 {
        return None;
    }
    let end = checked(&buffer[..count], below)?;
    if count < 50 && end > 0 {
        None
    } else {
        Some(end)
    }
}

// Reads all keys so many times. How many pages were wrong.
fn wrong_pages<R: Wait>(rt: &R, map: &Map, times: u32) -> u32 {
    let mut guard = map.pin();
    let mut below = END;
    let mut rounds = 0u32;
    let mut wrong = 0u32;
    for _ in 0..u64::MAX {
        match next_page(rt, map, &mut guard, below) {
            Some(next) => below = next,
            None => wrong = wrong.wrapping_add(1),
        }
        if below == 0 {
            below = END;
            rounds = rounds.wrapping_add(1);
        }
        if rounds >= times || wrong > 0 {
            return wrong;
        }
    }
    wrong
}

// One thread enters the odd keys, and another one reads pages.
fn pages_beside<R: Threads + Wait + Sync>(rt: &R, alloc: Global, map: &Map) -> (bool, u32) {
    join(
        rt,
        || fill(rt, alloc, map, ODD).is_ok(),
        || wrong_pages(rt, map, 30),
    )
}

#[test]
fn keys_that_are_there_throughout_are_given_downwards(rt: HostRuntime) -> Result<(), Fail> {
    let map: Map = Congee::new(rt.alloc())?;
    fill(&rt, rt.alloc(), &map, EVEN)?;
    assert!(rt; pages_beside(&rt, rt.alloc(), &map) == (true, 0));
    assert!(rt; wrong_pages(&rt, &map, 1) == 0);
    Ok(())
}
