//! Four threads write one key's values by exchanges and by insertions. All writes are one chain, and each value that is
//! read was written.

ghost use Rattle.std.specs.Prelude.{◌≡◌};

use live_faces::live::{Congee, Guard};
use std::alloc::Global;
use std::sync::Wait;
use std::test::Fail;
use std::thread::{Threads, join};

type Map = Congee<u64, u64>;

const KEY: u64 = 0x0102030405060708;

// How often each thread writes. The values of the thread with a number are those from `1 + number * TIMES` on, and 0 is
// there at first.
const TIMES: u64 = 2_000;

const ALL: u64 = 4 * TIMES;

// Replaces the current value by exchanges, as often as it takes: the value that it replaced.
fn exchanged<R: Wait>(rt: &R, map: &Map, guard: &mut Guard, value: u64) -> Option<u64>
    requires { guard.old.book ≡ map.now }
    ensures { guard.new.book ≡ map.now }
{
    let mut old = 0u64;
    for _ in 0..u64::MAX {
        match map.compare_exchange(rt, guard, &KEY, &old, Some(value)) {
            Ok(_) => return Some(old),
            Err(Some(current)) => old = current,
            Err(None) => return None,
        }
    }
    None
}

// Writes a value, every third by an insertion: the value that it replaced.
fn written<R: Wait>(rt: &R, alloc: Global, map: &Map, guard: &mut Guard, value: u64) -> Option<u64>
    requires { guard.old.book ≡ map.now }
    ensures { guard.new.book ≡ map.now }
{
    if value % 3 != 0 {
        return exchanged(rt, map, guard, value);
    }
    match map.insert(rt, alloc, guard, KEY, value) {
        Ok(before) => before,
        Err(_) => None,
    }
}

// Writes the values from this one on. What each has replaced, in turn, or nothing where a call has failed.
fn writes<R: Wait>(rt: &R, alloc: Global, map: &Map, first: u64) -> Option<Vec<u64>> {
    let mut guard = map.pin();
    let mut replaced = Vec::new(alloc);
    let mut value = first;
    for _ in 0..TIMES {
        let before = written(rt, alloc, map, &mut guard, value)?;
        replaced.push(before).ok()?;
        value = value.wrapping_add(1);
    }
    Some(replaced)
}

// Two threads write, each its own values.
fn by_two<R: Threads + Wait + Sync>(
    rt: &R,
    alloc: Global,
    map: &Map,
    first: u64,
) -> Option<Vec<u64>> {
    let (a, b) = join(
        rt,
        || writes(rt, alloc, map, first),
        || writes(rt, alloc, map, first.wrapping_add(TIMES)),
    );
    let mut both = a?;
    for replaced in b? {
        both.push(replaced).ok()?;
    }
    Some(both)
}

// Four threads write. What each value has replaced, by the value.
fn by_four<R: Threads + Wait + Sync>(rt: &R, alloc: Global, map: &Map) -> Option<Vec<u64>> {
    let (a, b) = join(
        rt,
        || by_two(rt, alloc, map, 1),
        || by_two(rt, alloc, map, 1 + 2 * TIMES),
    );
    let mut all = a?;
    for replaced in b? {
        all.push(replaced).ok()?;
    }
    Some(all)
}

// How many writes there are from the first value to this one, if each has replaced the one before it.
fn chain_to(replaced: &[u64], last: u64) -> u64 {
    let mut value = last;
    let mut long = 0u64;
    for _ in 0..ALL {
        if value == 0 {
            return long;
        }
        let Some(&before) = replaced.get((value - 1) as usize) else {
            return u64::MAX;
        };
        value = before;
        long = long.wrapping_add(1);
    }
    if value == 0 { long } else { u64::MAX }
}

#[test]
fn all_writes_of_a_key_are_one_chain(rt: HostRuntime) -> Result<(), Fail> {
    let map: Map = Congee::new(rt.alloc())?;
    let mut guard = map.pin();
    assert!(rt; map.insert(&rt, rt.alloc(), &mut guard, KEY, 0) == Ok(None));
    let replaced = by_four(&rt, rt.alloc(), &map);
    let last = map.get(&rt, &mut guard, &KEY);
    let long = match (replaced, last) {
        (Some(replaced), Some(last)) => chain_to(&replaced, last),
        _ => u64::MAX,
    };
    assert!(rt; long == ALL);
    Ok(())
}

// Reads the key until it has this value: how often what was read is no value that is written, or fell below one that
// the same thread has read.
fn falls<R: Wait>(rt: &R, map: &Map, last: u64) -> u64 {
    let mut guard = map.pin();
    let mut before = 0u64;
    let mut wrong = 0u64;
    for _ in rt.forever() {
        let value = map.get(rt, &mut guard, &KEY);
        match value {
            Some(value) if value >= before && value <= last => before = value,
            _ => wrong = wrong.wrapping_add(1),
        }
        if value == Some(last) {
            return wrong;
        }
    }
    unreachable!()
}

// Counts the key up by insertions.
fn rises<R: Wait>(rt: &R, alloc: Global, map: &Map, last: u64) -> u64 {
    let mut guard = map.pin();
    let mut wrong = 0u64;
    for value in 1..=last {
        if map.insert(rt, alloc, &mut guard, KEY, value) != Ok(Some(value - 1)) {
            wrong = wrong.wrapping_add(1);
        }
    }
    wrong
}

// One thread reads, and one writes.
fn beside<R: Threads + Wait + Sync>(rt: &R, alloc: Global, map: &Map, last: u64) -> (u64, u64) {
    join(rt, || falls(rt, map, last), || rises(rt, alloc, map, last))
}

#[test]
fn a_reader_sees_one_writer_rise(rt: HostRuntime) -> Result<(), Fail> {
    let map: Map = Congee::new(rt.alloc())?;
    let mut guard = map.pin();
    assert!(rt; map.insert(&rt, rt.alloc(), &mut guard, KEY, 0) == Ok(None));
    assert!(rt; beside(&rt, rt.alloc(), &map, 5_000) == (0, 0));
    Ok(())
}
