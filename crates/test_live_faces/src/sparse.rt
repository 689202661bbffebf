//! Pages over sparse keys that stay, beside a writer. It makes nodes between them, lets those above grow, and takes all out again.

ghost use Rattle.std.specs.Prelude.{◌≡◌};

use crate::ranges::{Keys, fill};
use live_faces::live::{Congee, Guard};
use spec_map::error::OOMError;
use std::alloc::Global;
use std::sync::Wait;
use std::test::Fail;
use std::thread::{Threads, join};

type Map = Congee<u64, u64>;

// Keys that stay. Each has a leaf of its own.
const STAYING: Keys = Keys {
    first: 0,
    step: 1 << 24,
    count: 300,
};

// The last key that a writer may have.
const LAST: u64 = 300 << 24;

// What a writer stores.
const OTHER: u64 = 7;

// Stores keys that part from one which stays below its node, and removes them.
fn come_and_go<R: Wait>(
    rt: &R,
    alloc: Global,
    map: &Map,
    guard: &mut Guard,
    key: u64,
) -> Result<(), OOMError>
    requires { guard.old.book ≡ map.now }
    ensures { guard.new.book ≡ map.now }
{
    for byte in 1..20u64 {
        let _ = map.insert(rt, alloc, guard, key | byte << 16, OTHER)?;
    }
    for byte in 1..20u64 {
        let _ = map.remove(rt, guard, &(key | byte << 16));
    }
    Ok(())
}

// Calls `come_and_go` so many times, at each of the keys that stay in turn.
fn write<R: Wait>(rt: &R, alloc: Global, map: &Map, times: u32) -> Result<(), OOMError> {
    let mut guard = map.pin();
    let mut key = 0u64;
    for _ in 0..times {
        come_and_go(rt, alloc, map, &mut guard, key)?;
        key = key.wrapping_add(STAYING.step) % LAST;
    }
    Ok(())
}

// Where a reader is: the least key that it hasn't read, and the least of those that stay.
#[derive(Clone, Copy)]
struct Place {
    key: u64,
    next: u64,
}

const START: Place = Place { key: 0, next: 0 };

// Behind a pair. `None` where a key that stays was passed, keys don't ascend, or nobody stored the pair.
fn behind(pair: (u64, u64), place: Place) -> Option<Place> {
    if pair.0 < place.key || pair.0 > place.next {
        return None;
    }
    let key = pair.0.saturating_add(1);
    if pair.0 < place.next {
        let next = place.next;
        return if pair.1 == OTHER {
            Some(Place { key, next })
        } else {
            None
        };
    }
    let next = place.next.saturating_add(STAYING.step);
    if pair.1 == pair.0 ^ 1 {
        Some(Place { key, next })
    } else {
        None
    }
}

// Behind a page.
fn behind_all(page: &[(u64, u64)], place: Place) -> Option<Place> {
    let mut place = place;
    for pair in page {
        place = behind(*pair, place)?;
    }
    Some(place)
}

// Behind the next page. `None` where the page is wrong.
fn read_on<R: Wait>(rt: &R, map: &Map, guard: &mut Guard, place: Place) -> Option<Place>
    requires { guard.old.book ≡ map.now }
    ensures { guard.new.book ≡ map.now }
{
    let mut buffer = [(0u64, 0u64); 40];
    let count = map.range(rt, guard, &place.key, &LAST, &mut buffer);
    if count > 40 {
        return None;
    }
    let place = behind_all(&buffer[..count], place)?;
    if count == 40 {
        return Some(place);
    }
    if place.next < LAST { None } else { Some(START) }
}

// So many pages. How many were wrong.
fn wrong_pages<R: Wait>(rt: &R, map: &Map, pages: u32) -> u32 {
    let mut guard = map.pin();
    let mut place = START;
    let mut wrong = 0u32;
    for _ in 0..pages {
        match read_on(rt, map, &mut guard, place) {
            Some(next) => place = next,
            None => {
                place = START;
                wrong = wrong.wrapping_add(1);
            }
        }
    }
    wrong
}

// One thread writes, and another one reads pages.
fn pages_beside<R: Threads + Wait + Sync>(rt: &R, alloc: Global, map: &Map) -> (bool, u32) {
    join(
        rt,
        || write(rt, alloc, map, 100).is_ok(),
        || wrong_pages(rt, map, 400),
    )
}

#[test]
fn pages_go_on_where_nodes_come_and_go(rt: HostRuntime) -> Result<(), Fail> {
    let map: Map = Congee::new(rt.alloc())?;
    fill(&rt, rt.alloc(), &map, STAYING)?;
    assert!(rt; pages_beside(&rt, rt.alloc(), &map) == (true, 0));
    assert!(rt; map.value_count(&rt, &mut map.pin()) == 300);
    Ok(())
}
