//! Pages beside a writer: keys ascend, and those that are there throughout are given.

ghost use Rattle.std.specs.Prelude.{◌≡◌};

use crate::ranges::{Keys, fill};
use live_faces::live::{Congee, Guard};
use std::alloc::Global;
use std::sync::Wait;
use std::test::Fail;
use std::thread::{Threads, join};

type Map = Congee<u64, u64>;

// The even keys below this one are there throughout. A writer enters the odd ones.
const END: u64 = 6000;

const EVEN: Keys = Keys {
    first: 0,
    step: 2,
    count: 3000,
};

const ODD: Keys = Keys {
    first: 1,
    step: 2,
    count: 3000,
};

// The key behind the last one of a page, if its keys ascend and all even ones are there.
fn checked(page: &[(u64, u64)], from: u64) -> Option<u64> {
    let mut next = from;
    for pair in page {
        let even = next.saturating_add(next % 2);
        if pair.0 < next || pair.0 > even || pair.1 != pair.0 ^ 1 {
            return None;
        }
        next = pair.0.saturating_add(1);
    }
    Some(next)
}

// One page from a key on: the key behind its last one. `None` where it is wrong, or ends before the last even key.
fn next_page<R: Wait>(rt: &R, map: &Map, guard: &mut Guard, from: u64) -> Option<u64>
    requires { guard.old.book ≡ map.now }
    ensures { guard.new.book ≡ map.now }
{
    let mut buffer = [(0u64, 0u64); 50];
    let count = map.range(rt, guard, &from, &END, &mut buffer);
    if count > 50 {
        return None;
    }
    let next = checked(&buffer[..count], from)?;
    if count < 50 && next < END - 1 {
        return None;
    }
    Some(if count < 50 { END } else { next })
}

// Reads all keys so many times. How many pages were wrong.
fn wrong_pages<R: Wait>(rt: &R, map: &Map, times: u32) -> u32 {
    let mut guard = map.pin();
    let mut from = 0u64;
    let mut rounds = 0u32;
    let mut wrong = 0u32;
    for _ in 0..u64::MAX {
        match next_page(rt, map, &mut guard, from) {
            Some(next) => from = next,
            None => wrong = wrong.wrapping_add(1),
        }
        if from >= END {
            from = 0;
            rounds = rounds.wrapping_add(1);
        }
        if rounds >= times || wrong > 0 {
            return wrong;
        }
    }
    wrong
}

// Looks for the pair before each key. How many were wrong: an even key is its own, and an odd one is there or not.
fn wrong_floors<R: Wait>(rt: &R, map: &Map, times: u32) -> u32 {
    let mut guard = map.pin();
    let mut wrong = 0u32;
    for _ in 0..times {
        for key in 0..END {
            match map.floor(rt, &mut guard, &key) {
                Some((found, value)) if found <= key && found >= key & !1 && value == found ^ 1 =>
                    {}
                _ => wrong = wrong.wrapping_add(1),
            }
        }
    }
    wrong
}

// One thread enters the odd keys, and another one looks for pairs before.
fn floors_beside<R: Threads + Wait + Sync>(rt: &R, alloc: Global, map: &Map) -> (bool, u32) {
    join(
        rt,
        || fill(rt, alloc, map, ODD).is_ok(),
        || wrong_floors(rt, map, 3),
    )
}

#[test]
fn the_pair_before_is_found_beside_a_writer(rt: HostRuntime) -> Result<(), Fail> {
    let map: Map = Congee::new(rt.alloc())?;
    fill(&rt, rt.alloc(), &map, EVEN)?;
    assert!(rt; floors_beside(&rt, rt.alloc(), &map) == (true, 0));
    Ok(())
}

// One thread enters the odd keys, and another one reads pages.
fn pages_beside<R: Threads + Wait + Sync>(rt: &R, alloc: Global, map: &Map) -> (bool, u32) {
    join(
        rt,
        || fill(rt, alloc, map, ODD).is_ok(),
        || wrong_pages(rt, map, 30),
    )
}

#[test]
fn keys_that_are_there_throughout_are_given(rt: HostRuntime) -> Result<(), Fail> {
    let map: Map = Congee::new(rt.alloc())?;
    fill(&rt, rt.alloc(), &map, EVEN)?;
    assert!(rt; pages_beside(&rt, rt.alloc(), &map) == (true, 0));
    assert!(rt; wrong_pages(&rt, &map, 1) == 0);
    Ok(())
}
