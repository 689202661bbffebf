//! Maps with a limit on the bytes of their segments.

ghost use Rattle.std.specs.Prelude.{◌≡◌};

use crate::busy::is_locked;
use crate::calls::{all_hold, get, insert, put, remove_by};
use live_growth::map::{Busy, Congee, Guard, Refusal};
use live_updates::calls::remove;
use live_updates::computes::present::add;
use std::alloc::Global;
use std::process::Abort;
use std::test::Fail;

// Keys far from one another.
fn key_of(i: u64) -> u64 {
    i.wrapping_mul(0x9e3779b97f4a7c15)
}

// Inserts keys until one is refused. How many came in.
fn stored(map: &Congee, alloc: Global, guard: &mut Guard) -> u64
    requires { guard.old.book ≡ map.now }
    ensures { guard.new.book ≡ map.now }
{
    let mut i = 0u64;
    for _ in 0..100_000u32 {
        if map.insert(&alloc, guard, key_of(i), i) != Ok(None) {
            return i;
        }
        i = i.wrapping_add(1);
    }
    i
}

// How many of so many keys have their value.
fn found(map: &Congee, guard: &mut Guard, count: u64) -> u64
    requires { guard.old.book ≡ map.now }
    ensures { guard.new.book ≡ map.now }
{
    let mut right = 0u64;
    for i in 0..count {
        if map.get(guard, key_of(i)) == Ok(Some(i)) {
            right = right.wrapping_add(1);
        }
    }
    right
}

// Removes and inserts each of so many keys. How many were there, and came in again.
fn replaced(map: &Congee, alloc: Global, guard: &mut Guard, count: u64) -> u64
    requires { guard.old.book ≡ map.now }
    ensures { guard.new.book ≡ map.now }
{
    let mut right = 0u64;
    for i in 0..count {
        let gone = remove(map, guard, key_of(i)) == Ok(Some(i));
        if map.insert(&alloc, guard, key_of(i), i) == Ok(None) && gone {
            right = right.wrapping_add(1);
        }
    }
    right
}

// What `add` returns by this guard, which adds 1 to a key's value.
fn add_one(map: &Congee, alloc: Global, guard: &mut Guard, key: u64) -> Result<Option<u64>, Refusal>
    requires { guard.old.book ≡ map.now }
    ensures { guard.new.book ≡ map.now }
{
    add(map, &alloc, guard, key, 1)
}

// A map of one segment has no memory for a leaf, but by the guard that it was made with.
fn refuse_a_leaf(rt: &impl Abort, alloc: Global, map: &Congee, guard: &mut Guard)
    requires { guard.old.book ≡ map.now }
{
    let steps = [
        map.limit() == 4_096,
        map.usage() == (4_096, 4_096),
        insert(map, alloc, guard, 7, 70) == Err(Refusal::OutOfMemory),
        get(map, guard, 7) == Ok(None),
    ];
    all_hold(rt, &steps);
}

// Limits below which there is no map, and one with which there is one.
#[test]
fn a_map_has_a_segment_at_least(rt: HostRuntime) -> Result<(), Fail> {
    assert!(rt; Congee::with_limit(rt.alloc(), 0).is_err());
    assert!(rt; Congee::with_limit(rt.alloc(), 4_095).is_err());
    let map = Congee::with_limit(rt.alloc(), 4_096)?;
    refuse_a_leaf(&rt, rt.alloc(), &map, &mut map.pin());
    Ok(())
}

fn make_a_leaf(rt: &impl Abort, alloc: Global, map: &Congee, guard: &mut Guard)
    requires { guard.old.book ≡ map.now }
{
    let steps = [
        map.limit() == u64::MAX,
        map.usage() == (4_096, u64::MAX),
        insert(map, alloc, guard, 7, 70) == Ok(None),
        map.usage().0 == 8_192,
    ];
    all_hold(rt, &steps);
}

#[test]
fn a_map_without_a_limit_has_the_greatest(rt: HostRuntime) -> Result<(), Fail> {
    let map = Congee::new(rt.alloc())?;
    make_a_leaf(&rt, rt.alloc(), &map, &mut map.pin());
    Ok(())
}

// What a map that is full still does.
fn work_when_full(rt: &impl Abort, alloc: Global, map: &Congee, guard: &mut Guard, count: u64)
    requires { guard.old.book ≡ map.now }
    ensures { guard.new.book ≡ map.now }
{
    let mut other = map.pin();
    let steps = [
        insert(map, alloc, guard, key_of(count), 1) == Err(Refusal::OutOfMemory),
        add_one(map, alloc, guard, key_of(count)) == Err(Refusal::OutOfMemory),
        get(map, guard, key_of(count)) == Ok(None),
        // (a present key gets another value, by a new guard too)
        insert(map, alloc, guard, key_of(0), 0) == Ok(Some(0)),
        insert(map, alloc, &mut other, key_of(1), 1) == Ok(Some(1)),
        found(map, guard, count) == count,
    ];
    all_hold(rt, &steps);
}

fn keep_when_full(rt: &impl Abort, alloc: Global, map: &Congee, guard: &mut Guard)
    requires { guard.old.book ≡ map.now }
{
    let count = stored(map, alloc, guard);
    assert!(rt; count > 1_000 && count < 13_000);
    assert!(rt; map.usage().0 == 126_976);
    work_when_full(rt, alloc, map, guard, count);
    let steps = [
        replaced(map, alloc, guard, count) == count,
        found(map, guard, count) == count,
        map.usage().0 == 126_976,
    ];
    all_hold(rt, &steps);
}

#[test]
fn a_full_map_keeps_its_pairs(rt: HostRuntime) -> Result<(), Fail> {
    let map = Congee::with_limit(rt.alloc(), 130_000)?;
    keep_when_full(&rt, rt.alloc(), &map, &mut map.pin());
    Ok(())
}

// The calls at a locked leaf are busy, and not out of memory. The key of this number is there, others are elsewhere.
fn wait_when_full(rt: &impl Abort, alloc: Global, map: &Congee, guard: &mut Guard, i: u64)
    requires { guard.old.book ≡ map.now }
{
    let steps = [
        insert(map, alloc, guard, key_of(i), 1) == Err(Refusal::Busy),
        insert(map, alloc, guard, key_of(i) ^ 1, 1) == Err(Refusal::Busy),
        add_one(map, alloc, guard, key_of(i)) == Err(Refusal::Busy),
        remove_by(map, guard, key_of(i)) == Err(Busy),
        get(map, guard, key_of(i)) == Err(Busy),
        insert(map, alloc, guard, key_of(1), 1) == Ok(Some(1)),
    ];
    all_hold(rt, &steps);
}

fn lock_when_full(rt: &impl Abort, alloc: Global, map: &Congee, guard: &mut Guard)
    requires { guard.old.book ≡ map.now }
{
    let count = stored(map, alloc, guard);
    assert!(rt; count > 100 && is_locked(map, key_of(0)));
    wait_when_full(rt, alloc, map, &mut map.pin(), 0);
    assert!(rt; put(map, alloc, key_of(count), 1) == Err(Refusal::OutOfMemory));
}

#[test]
fn a_full_map_is_busy_at_a_locked_leaf(rt: HostRuntime) -> Result<(), Fail> {
    let map = Congee::with_limit(rt.alloc(), 30_000)?;
    lock_when_full(&rt, rt.alloc(), &map, &mut map.pin());
    Ok(())
}
