//! Each call by one thread, and a key that two threads count up.

ghost use Rattle.std.specs.Prelude.{◌≡◌};

use crate::calls::{all_hold, get, insert, looked};
use live_growth::map::{Busy, Congee, Guard, Refusal};
use live_updates::computes::present::{add, compute_if_present, compute_or_insert, get_or_insert};
use std::alloc::Global;
use std::process::Abort;
use std::test::Fail;
use std::thread::{Threads, join};

// What a call returns whose closure triples the value.
fn tripled(map: &Congee, guard: &mut Guard, key: u64) -> Result<Option<(u64, Option<u64>)>, Busy>
    requires { guard.old.book ≡ map.now }
    ensures { guard.new.book ≡ map.now }
{
    let mut thrice = |value: u64| -> Option<u64> { Some(value.wrapping_mul(3)) };
    compute_if_present(map, guard, key, &mut thrice)
}

// What a call returns whose closure removes the value.
fn emptied(map: &Congee, guard: &mut Guard, key: u64) -> Result<Option<(u64, Option<u64>)>, Busy>
    requires { guard.old.book ≡ map.now }
    ensures { guard.new.book ≡ map.now }
{
    let mut gone = |_: u64| -> Option<u64> { None };
    compute_if_present(map, guard, key, &mut gone)
}

fn replace_and_remove(rt: &impl Abort, alloc: Global, map: &Congee, guard: &mut Guard)
    requires { guard.old.book ≡ map.now }
{
    let steps = [
        insert(map, alloc, guard, 0x0102, 5) == Ok(None),
        tripled(map, guard, 0x0102) == Ok(Some((5, Some(15)))),
        tripled(map, guard, 0x0103) == Ok(None),
        get(map, guard, 0x0102) == Ok(Some(15)),
        emptied(map, guard, 0x0102) == Ok(Some((15, None))),
        emptied(map, guard, 0x0102) == Ok(None),
        get(map, guard, 0x0102) == Ok(None),
    ];
    all_hold(rt, &steps);
}

#[test]
fn a_present_value_is_replaced_or_removed(rt: HostRuntime) -> Result<(), Fail> {
    let map = Congee::new(rt.alloc())?;
    replace_and_remove(&rt, rt.alloc(), &map, &mut map.pin());
    Ok(())
}

// Keys in one leaf, in another one, and far from both.
const KEYS: [u64; 4] = [0x0102, 0x0103, 0x0202, u64::MAX];

// Adds 2 to a key's value, or stores 42: the value before. By a caller of its own.
fn raised(map: &Congee, alloc: Global, key: u64) -> Result<Option<u64>, Refusal> {
    let mut guard = map.pin();
    let mut next = |value: Option<u64>| -> u64 { value.unwrap_or(40).wrapping_add(2) };
    compute_or_insert(map, &alloc, &mut guard, key, &mut next)
}

// What `get_or_insert` returns, by a caller of its own.
fn kept(map: &Congee, alloc: Global, key: u64, value: u64) -> Result<Option<u64>, Refusal> {
    let mut guard = map.pin();
    get_or_insert(map, &alloc, &mut guard, key, value)
}

fn raise(rt: &impl Abort, alloc: Global, map: &Congee, key: u64) {
    let steps = [
        raised(map, alloc, key) == Ok(None),
        raised(map, alloc, key) == Ok(Some(42)),
        looked(map, key) == Ok(Some(44)),
    ];
    all_hold(rt, &steps);
}

#[test]
fn an_absent_key_gets_what_the_closure_returns(rt: HostRuntime) -> Result<(), Fail> {
    let map = Congee::new(rt.alloc())?;
    for key in KEYS {
        raise(&rt, rt.alloc(), &map, key);
    }
    Ok(())
}

fn keep(rt: &impl Abort, alloc: Global, map: &Congee, key: u64) {
    let steps = [
        kept(map, alloc, key, key ^ 1) == Ok(None),
        kept(map, alloc, key, 9) == Ok(Some(key ^ 1)),
        looked(map, key) == Ok(Some(key ^ 1)),
    ];
    all_hold(rt, &steps);
}

#[test]
fn a_present_key_keeps_its_value(rt: HostRuntime) -> Result<(), Fail> {
    let map = Congee::new(rt.alloc())?;
    for key in KEYS {
        keep(&rt, rt.alloc(), &map, key);
    }
    Ok(())
}

// What `add` returns, by a caller of its own.
fn added(map: &Congee, alloc: Global, key: u64, number: u64) -> Result<Option<u64>, Refusal> {
    let mut guard = map.pin();
    add(map, &alloc, &mut guard, key, number)
}

// Numbers that are added to one key in turn, and what each addition returns. The last but one goes past the greatest number.
const SUMS: [(u64, Option<u64>); 5] = [
    (7, None),
    (5, Some(7)),
    (0, Some(12)),
    (u64::MAX - 1, Some(12)),
    (1, Some(10)),
];

fn add_up(rt: &impl Abort, alloc: Global, map: &Congee, key: u64) {
    for (number, before) in SUMS {
        assert!(rt; added(map, alloc, key, number) == Ok(before));
    }
    assert!(rt; looked(map, key) == Ok(Some(11)));
}

#[test]
fn a_number_is_added_to_the_value(rt: HostRuntime) -> Result<(), Fail> {
    let map = Congee::new(rt.alloc())?;
    for key in KEYS {
        add_up(&rt, rt.alloc(), &map, key);
    }
    Ok(())
}

// Adds 1 to a key's value, which is 0 where it is absent, until that was done so often. (A call may be busy.) How often.
fn counted_up(map: &Congee, alloc: Global, key: u64, times: u32) -> u32 {
    let mut guard = map.pin();
    let mut done = 0u32;
    let mut up = |value: Option<u64>| -> u64 { value.unwrap_or(0).wrapping_add(1) };
    for _ in 0..100_000_000u32 {
        if done >= times {
            return done;
        }
        if compute_or_insert(map, &alloc, &mut guard, key, &mut up).is_ok() {
            done += 1;
        }
    }
    done
}

// Two threads count up a key from nothing. How often they did, and the value that it has then.
fn by_two<R: Threads + Sync>(rt: &R, alloc: Global, key: u64) -> Option<(u32, Option<u64>)> {
    let map = Congee::new(alloc).ok()?;
    let shared = &map;
    let (a, b) = join(
        rt,
        || counted_up(shared, alloc, key, 5_000),
        || counted_up(shared, alloc, key, 5_000),
    );
    let mut guard = shared.pin();
    Some((a.wrapping_add(b), shared.get(&mut guard, key).ok()?))
}

#[test]
fn two_threads_that_count_up_lose_none(rt: HostRuntime) {
    let all = by_two(&rt, rt.alloc(), 0x0102030405060708);
    assert!(rt; all == Some((10_000, Some(10_000))));
}
