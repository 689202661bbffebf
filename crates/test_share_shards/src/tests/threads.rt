//! Two threads at one map: nothing is lost, counts rise, a busy call is told apart, and a call that waits goes on.

ghost use Rattle.std.specs.Prelude.{◌≡◌};

use share_sharded::sharded::{Busy, Congee, Guard, Shards};
use std::hint::spin_loop;
use std::sync::Wait;
use std::test::Fail;
use std::thread::{Threads, join};
use tree_walk::range_scan::RangeEntry;

type Map = Congee<u64, u64>;

// How often each thread adds.
const TIMES: u64 = 20_000;

// Adds 1 to the key's value so often. The sum of the values before.
fn adds<R: Wait>(rt: &R, map: &Map, key: u64) -> Option<u64> {
    let mut guard = map.pin().ok()?;
    let mut sum = 0u64;
    for _ in 0..TIMES {
        let before = map.add(rt, &mut guard, key, 1).ok()?;
        sum = sum.wrapping_add(before.unwrap_or(0));
    }
    Some(sum)
}

// Two threads add to one key. The sum of what both have found, and what the key has then.
fn by_two<R: Threads + Wait + Sync>(rt: &R, map: &Map) -> Option<(u64, u64)> {
    let (a, b) = join(rt, || adds(rt, map, 1000), || adds(rt, map, 1000));
    let mut guard = map.pin().ok()?;
    let last = map.get(rt, &mut guard, &1000)?;
    Some((a?.wrapping_add(b?), last))
}

#[test]
fn each_number_is_found_once(rt: HostRuntime) -> Result<(), Fail> {
    let all = 2 * TIMES;
    for shards in [Shards::One, Shards::SixtyFour] {
        let map: Map = Congee::new(rt.alloc(), shards, u64::MAX)?;
        assert!(rt; by_two(&rt, &map) == Some((all * (all - 1) / 2, all)));
    }
    Ok(())
}

// How many keys one thread inserts, far from one another.
const KEYS: u64 = 20_000;

// Inserts all keys. How many were new.
fn inserts<R: Wait>(rt: &R, map: &Map) -> Option<u64> {
    let mut guard = map.pin().ok()?;
    let mut new = 0u64;
    for number in 0..KEYS {
        let key = number.wrapping_mul(0x9e3779b97f4a7c15);
        if map.insert(rt, &mut guard, key, number).ok()?.is_none() {
            new = new.wrapping_add(1);
        }
    }
    Some(new)
}

// Counts until all keys are there. How often a count was less than the one before.
fn falls<R: Wait>(rt: &R, map: &Map) -> Option<u64> {
    let mut guard = map.pin().ok()?;
    let mut before = 0u128;
    let mut fallen = 0u64;
    for _ in 0..10_000_000u32 {
        let count = map.value_count(rt, &mut guard);
        if count < before {
            fallen = fallen.wrapping_add(1);
        }
        if count == KEYS as u128 {
            return Some(fallen);
        }
        before = count;
    }
    None
}

// One thread inserts, and another counts. How many keys were new, and how many counts fell.
fn counted_beside<R: Threads + Wait + Sync>(rt: &R, map: &Map) -> Option<(u64, u64)> {
    let (new, fallen) = join(rt, || inserts(rt, map), || falls(rt, map));
    Some((new?, fallen?))
}

#[test]
fn counts_beside_insertions_never_fall(rt: HostRuntime) -> Result<(), Fail> {
    let map: Map = Congee::new(rt.alloc(), Shards::SixtyFour, u64::MAX)?;
    assert!(rt; counted_beside(&rt, &map) == Some((KEYS, 0)));
    Ok(())
}

// An entry that is long in the making, while the map is locked.
#[derive(Clone, Copy)]
struct Slow(u64);

impl RangeEntry for Slow {
    ghost entry = { λ key value. record { 0 = key } };

    fn from_pair(key: u64, _value: u64) -> Slow {
        for _ in 0..20_000u32 {
            spin_loop();
        }
        Slow(key)
    }
}

const KEY: u64 = 7;

const END: u64 = 8;

// Holds the map for long, again and again, until the other thread has put the last key in.
fn holds<R: Wait>(rt: &R, map: &Map) -> Option<bool> {
    let mut guard = map.pin().ok()?;
    let mut page = [Slow(0)];
    for _ in 0..200_000u32 {
        let written = map.range(rt, &mut guard, &KEY, &END, &mut page);
        if map.get(rt, &mut guard, &END).is_some() {
            return Some(written == 1 && page[0].0 == KEY);
        }
    }
    None
}

// Looks the key up until a call is busy.
fn is_busy(map: &Map, guard: &mut Guard) -> bool
    requires { guard.old.table ≡ map.now.table }
    ensures { guard.new.table ≡ guard.old.table }
{
    for _ in 0..200_000_000u32 {
        if map.try_get(guard, &KEY) == Err(Busy) {
            return true;
        }
    }
    false
}

// Whether a call was busy, and a call that waits was made then.
fn waits<R: Wait>(rt: &R, map: &Map) -> Option<(bool, Option<u64>)> {
    let mut guard = map.pin().ok()?;
    let busy = is_busy(map, &mut guard);
    let found = map.get(rt, &mut guard, &KEY);
    map.insert(rt, &mut guard, END, 1).ok()?;
    Some((busy, found))
}

// One thread holds the map, and the other waits.
fn beside<R: Threads + Wait + Sync>(rt: &R, map: &Map) -> Option<(bool, (bool, Option<u64>))> {
    let mut guard = map.pin().ok()?;
    map.insert(rt, &mut guard, KEY, 70).ok()?;
    let (held, waited) = join(rt, || holds(rt, map), || waits(rt, map));
    Some((held?, waited?))
}

#[test]
fn a_busy_call_is_told_apart_and_a_waiting_one_goes_on(rt: HostRuntime) -> Result<(), Fail> {
    for shards in [Shards::One, Shards::SixtyFour] {
        let map: Map = Congee::new(rt.alloc(), shards, u64::MAX)?;
        assert!(rt; beside(&rt, &map) == Some((true, (true, Some(70)))));
    }
    Ok(())
}
