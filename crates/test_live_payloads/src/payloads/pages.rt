//! Pages in both directions, by hand values, beside a writer, and after a payload was removed.
ghost use Rattle.live_payloads.specs.Payloads.{IsGuardOf};

use live_payloads::live::{PayloadCongee, PayloadGuard};
use std::alloc::Global;
use std::sync::Wait;
use std::test::Fail;
use std::thread::{Threads, join};

const LAST: u64 = u64::MAX;

type Map = PayloadCongee<u64, u64>;

type Guard = PayloadGuard<u64>;

// The keys of the map, each of which has its own number as payload.
const KEYS: [u64; 6] = [0, 3, 255, 256, 70_000, LAST];

/// A page: its kind, its ends, how many pairs it has room for, and the keys that it has to have.
#[derive(Drop)]
struct Row {
    kind: Kind,
    first: u64,
    last: u64,
    room: usize,
    keys: &'static [u64],
}

#[derive(Clone, Copy, Drop)]
enum Kind {
    HalfOpen,
    Inclusive,
    Descending,
}

const ROWS: [Row; 12] = [
    Row {
        kind: Kind::HalfOpen,
        first: 0,
        last: LAST,
        room: 8,
        keys: &[0, 3, 255, 256, 70_000],
    },
    Row {
        kind: Kind::HalfOpen,
        first: 3,
        last: 256,
        room: 8,
        keys: &[3, 255],
    },
    Row {
        kind: Kind::HalfOpen,
        first: 3,
        last: 3,
        room: 8,
        keys: &[],
    },
    Row {
        kind: Kind::HalfOpen,
        first: 1,
        last: LAST,
        room: 2,
        keys: &[3, 255],
    },
    Row {
        kind: Kind::Inclusive,
        first: 0,
        last: LAST,
        room: 8,
        keys: &[0, 3, 255, 256, 70_000, LAST],
    },
    Row {
        kind: Kind::Inclusive,
        first: 4,
        last: 256,
        room: 8,
        keys: &[255, 256],
    },
    Row {
        kind: Kind::Inclusive,
        first: 257,
        last: 256,
        room: 8,
        keys: &[],
    },
    Row {
        kind: Kind::Inclusive,
        first: 0,
        last: LAST,
        room: 0,
        keys: &[],
    },
    Row {
        kind: Kind::Descending,
        first: 0,
        last: LAST,
        room: 8,
        keys: &[LAST, 70_000, 256, 255, 3, 0],
    },
    Row {
        kind: Kind::Descending,
        first: 3,
        last: 256,
        room: 8,
        keys: &[256, 255, 3],
    },
    Row {
        kind: Kind::Descending,
        first: 1,
        last: 69_999,
        room: 2,
        keys: &[256, 255],
    },
    Row {
        kind: Kind::Descending,
        first: 4,
        last: 254,
        room: 8,
        keys: &[],
    },
];

fn filled<R: Wait>(rt: &R, alloc: Global, map: &Map, guard: &mut Guard) -> bool
    requires { IsGuardOf map.now guard.old }
    ensures { IsGuardOf map.now guard.new }
{
    for key in KEYS {
        if !matches!(map.insert(rt, alloc, guard, key, key), Ok(None)) {
            return false;
        }
    }
    true
}

// Reads a page by the call that waits.
fn read<R: Wait>(rt: &R, map: &Map, guard: &mut Guard, row: &Row, page: &mut [(u64, u64)]) -> usize
    requires { IsGuardOf map.now guard.old }
    ensures { IsGuardOf map.now guard.new }
{
    match row.kind {
        Kind::HalfOpen => map.range(rt, guard, &row.first, &row.last, page),
        Kind::Inclusive => map.range_inclusive(rt, guard, &row.first, &row.last, page),
        Kind::Descending => map.range_descending(rt, guard, &row.first, &row.last, page),
    }
}

// Reads a page by the call that doesn't wait, which isn't busy where nobody writes.
fn tried(map: &Map, guard: &mut Guard, row: &Row, page: &mut [(u64, u64)]) -> Option<usize>
    requires { IsGuardOf map.now guard.old }
    ensures { IsGuardOf map.now guard.new }
{
    let read = match row.kind {
        Kind::HalfOpen => map.try_range(guard, &row.first, &row.last, page),
        Kind::Inclusive => map.try_range_inclusive(guard, &row.first, &row.last, page),
        Kind::Descending => map.try_range_descending(guard, &row.first, &row.last, page),
    };
    read.ok()
}

// Whether a pair has this key, and the ticket of the payload with its number.
fn is_pair(map: &Map, guard: &mut Guard, pair: (u64, u64), key: u64) -> bool
    requires { IsGuardOf map.now guard.old }
    ensures { IsGuardOf map.now guard.new }
{
    match map.lend(guard, pair.1) {
        Some(lent) => pair.0 == key && *lent.get() == key,
        None => false,
    }
}

// Whether a page has these keys, each with the ticket of its payload.
fn has(map: &Map, guard: &mut Guard, page: &[(u64, u64)], count: usize, keys: &[u64]) -> bool
    requires { IsGuardOf map.now guard.old }
    ensures { IsGuardOf map.now guard.new }
{
    if count != keys.len() {
        return false;
    }
    for i in 0..keys.len() {
        let (Some(pair), Some(key)) = (page.get(i), keys.get(i)) else {
            return false;
        };
        if !is_pair(map, guard, *pair, *key) {
            return false;
        }
    }
    true
}

// Whether both calls read the row's page.
fn is_right<R: Wait>(rt: &R, map: &Map, guard: &mut Guard, row: &Row) -> bool
    requires { IsGuardOf map.now guard.old }
    ensures { IsGuardOf map.now guard.new }
{
    let mut rows = [(7u64, 7u64); 8];
    let Some(page) = rows.get_mut(..row.room) else {
        return false;
    };
    let count = read(rt, map, guard, row, page);
    if !has(map, guard, page, count, row.keys) {
        return false;
    }
    match tried(map, guard, row, page) {
        Some(count) => has(map, guard, page, count, row.keys),
        None => false,
    }
}

// The first row whose page is another one, or how many rows there are.
fn wrong_row<R: Wait>(rt: &R, map: &Map, guard: &mut Guard) -> usize
    requires { IsGuardOf map.now guard.old }
    ensures { IsGuardOf map.now guard.new }
{
    let mut at = 0usize;
    for row in &ROWS {
        if !is_right(rt, map, guard, row) {
            return at;
        }
        at = at.wrapping_add(1);
    }
    at
}

#[test]
fn pages_have_the_tickets_of_payloads(rt: HostRuntime) -> Result<(), Fail> {
    let map = Map::new(rt.alloc())?;
    let mut guard = map.pin();
    assert!(rt; filled(&rt, rt.alloc(), &map, &mut guard));
    assert!(rt; wrong_row(&rt, &map, &mut guard) == ROWS.len());
    map.unpin(guard);
    Ok(())
}

// What the ticket of a pair lends.
fn lent(map: &Map, guard: &mut Guard, pair: (u64, u64)) -> Option<u64>
    requires { IsGuardOf map.now guard.old }
    ensures { IsGuardOf map.now guard.new }
{
    let lent = map.lend(guard, pair.1)?;
    Some(*lent.get())
}

// Removes the key 3 and replaces the payload of 255 after a page was read. A ticket that was never issued lends nothing.
fn retired<R: Wait>(rt: &R, alloc: Global, map: &Map, guard: &mut Guard) -> [bool; 5]
    requires { IsGuardOf map.now guard.old }
    ensures { IsGuardOf map.now guard.new }
{
    let mut page = [(0u64, 0u64); 3];
    let read = map.range_inclusive(rt, guard, &3, &256, &mut page) == 3;
    let removed = map.remove(rt, guard, &3).is_some();
    let replaced = matches!(map.insert(rt, alloc, guard, 255, 9), Ok(Some(_)));
    let gone = lent(map, guard, page[0]).is_none() && lent(map, guard, page[1]).is_none();
    let kept = lent(map, guard, page[2]) == Some(256) && lent(map, guard, (0, LAST)).is_none();
    [read, removed, replaced, gone, kept]
}

// The page that is read then has the payload that replaced the other one.
fn read_anew<R: Wait>(rt: &R, map: &Map, guard: &mut Guard) -> [bool; 3]
    requires { IsGuardOf map.now guard.old }
    ensures { IsGuardOf map.now guard.new }
{
    let mut page = [(0u64, 0u64); 3];
    let read = map.range_descending(rt, guard, &3, &256, &mut page) == 2;
    let replaced = page[1].0 == 255 && lent(map, guard, page[1]) == Some(9);
    let kept = page[0].0 == 256 && lent(map, guard, page[0]) == Some(256);
    [read, replaced, kept]
}

#[test]
fn a_ticket_of_a_page_ends_with_its_payload(rt: HostRuntime) -> Result<(), Fail> {
    let map = Map::new(rt.alloc())?;
    let mut guard = map.pin();
    assert!(rt; filled(&rt, rt.alloc(), &map, &mut guard));
    assert!(rt; retired(&rt, rt.alloc(), &map, &mut guard) == [true; 5]);
    assert!(rt; read_anew(&rt, &map, &mut guard) == [true; 3]);
    map.unpin(guard);
    Ok(())
}

// How many even keys stay.
const STAY: u64 = 300;

const TURNS: u64 = 3_000;

// Inserts the even keys that stay.
fn stored<R: Wait>(rt: &R, alloc: Global, map: &Map, guard: &mut Guard) -> bool
    requires { IsGuardOf map.now guard.old }
    ensures { IsGuardOf map.now guard.new }
{
    for at in 0..STAY {
        let key = at.wrapping_mul(2);
        if map.insert(rt, alloc, guard, key, key).is_err() {
            return false;
        }
    }
    true
}

// Inserts odd keys, and removes them again.
fn changed<R: Wait>(rt: &R, alloc: Global, map: &Map) -> bool {
    let mut guard = map.pin();
    for turn in 0..TURNS {
        let key = (turn / 2 % STAY).wrapping_mul(2).wrapping_add(1);
        if turn % 2 == 0 {
            if map.insert(rt, alloc, &mut guard, key, key).is_err() {
                return false;
            }
        } else {
            map.remove(rt, &mut guard, &key);
        }
    }
    map.unpin(guard);
    true
}

// How many even keys a page has, if each has its own payload.
fn even_ones(map: &Map, guard: &mut Guard, page: &[(u64, u64)]) -> Option<u64>
    requires { IsGuardOf map.now guard.old }
    ensures { IsGuardOf map.now guard.new }
{
    let mut count = 0u64;
    for pair in page {
        if pair.0 % 2 == 0 {
            if lent(map, guard, *pair) != Some(pair.0) {
                return None;
            }
            count = count.wrapping_add(1);
        }
    }
    Some(count)
}

// Reads all pairs by pages, in one direction: how many even keys there are.
fn counted<R: Wait>(rt: &R, map: &Map, guard: &mut Guard, up: bool) -> Option<u64>
    requires { IsGuardOf map.now guard.old }
    ensures { IsGuardOf map.now guard.new }
{
    let mut page = [(0u64, 0u64); 40];
    let mut first = 0u64;
    let mut last = LAST;
    let mut found = 0u64;
    for _ in 0..100u32 {
        let count = if up {
            map.range_inclusive(rt, guard, &first, &last, &mut page)
        } else {
            map.range_descending(rt, guard, &first, &last, &mut page)
        };
        found = found.wrapping_add(even_ones(map, guard, page.get(..count)?)?);
        if count < 40 {
            return Some(found);
        }
        if up {
            first = page[39].0.wrapping_add(1);
        } else {
            last = page[39].0.wrapping_sub(1);
        }
    }
    None
}

fn all_counted<R: Wait>(rt: &R, map: &Map) -> bool {
    let mut guard = map.pin();
    for turn in 0..40u32 {
        if counted(rt, map, &mut guard, turn % 2 == 0) != Some(STAY) {
            return false;
        }
    }
    map.unpin(guard);
    true
}

#[test]
fn pages_beside_a_writer_have_what_stays(rt: HostRuntime) -> Result<(), Fail> {
    let map = Map::new(rt.alloc())?;
    let mut guard = map.pin();
    assert!(rt; stored(&rt, rt.alloc(), &map, &mut guard));
    let (read, written) = join(
        &rt,
        || all_counted(&rt, &map),
        || changed(&rt, rt.alloc(), &map),
    );
    assert!(rt; read && written);
    map.unpin(guard);
    Ok(())
}
