//! Removals of the pairs for which a closure answers no: by hand values, of changed values, and beside a writer.

ghost use Rattle.std.specs.Prelude.{◌≡◌};

use crate::ranges::{KEYS, Keys, fill};
use crate::steps::all_hold;
use live_faces::live::{Congee, Guard};
use std::alloc::Global;
use std::process::Abort;
use std::sync::Wait;
use std::test::Fail;
use std::thread::{Threads, join};

type Map = Congee<u64, u64>;

// Removes the keys with a remainder by three. How many it removes, how many questions it asks, and how many it leaves.
fn retain_thirds<R: Wait>(rt: &R, map: &Map, guard: &mut Guard) -> (u128, u64, u128)
    requires { guard.old.book ≡ map.now }
    ensures { guard.new.book ≡ guard.old.book }
{
    let mut asked = 0u64;
    let removed = map.retain(
        rt,
        guard,
        &mut |key: u64, _value: u64| -> bool {
            asked = asked.wrapping_add(1);
            key % 3 == 0
        },
    );
    (removed, asked, map.value_count(rt, guard))
}

// Of the keys 10, 20 .. 300 a third stays, which is 30, 60 .. 300. An empty map asks nothing.
fn retain_some<R: Wait + Abort>(rt: &R, alloc: Global, map: &Map, guard: &mut Guard)
    requires { guard.old.book ≡ map.now }
{
    let thirty = Keys {
        first: 10,
        step: 10,
        count: 30,
    };
    let steps = [
        retain_thirds(rt, map, guard) == (0, 0, 0),
        fill(rt, alloc, map, thirty).is_ok(),
        retain_thirds(rt, map, guard) == (20, 30, 10),
        map.try_get(guard, &30) == Ok(Some(31)),
        map.try_get(guard, &10) == Ok(None),
        map.retain(rt, guard, &mut |_: u64, value: u64| -> bool { value < 100 }) == 7,
        map.last(rt, guard) == Some((90, 91)),
        map.retain(rt, guard, &mut |_: u64, _: u64| -> bool { false }) == 3,
        map.is_empty(rt, guard),
    ];
    all_hold(rt, &steps);
}

#[test]
fn pairs_are_removed_by_the_closures_answer(rt: HostRuntime) -> Result<(), Fail> {
    let map: Map = Congee::new(rt.alloc())?;
    retain_some(&rt, rt.alloc(), &map, &mut map.pin());
    Ok(())
}

// Whether the closure is asked about all keys in their order, each with its value, once.
fn asks_in_order<R: Wait>(rt: &R, map: &Map, keys: Keys) -> bool {
    let mut guard = map.pin();
    let mut key = keys.first;
    let mut right = 0u32;
    let removed = map.retain(
        rt,
        &mut guard,
        &mut |asked: u64, value: u64| -> bool {
            if (asked, value) == (key, key ^ 1) {
                right = right.wrapping_add(1);
            }
            key = key.wrapping_add(keys.step);
            right % 2 == 0
        },
    );
    right == keys.count && removed == u128::from(keys.count.wrapping_add(1) / 2)
}

#[test]
fn a_closure_is_asked_about_each_pair_once(rt: HostRuntime) -> Result<(), Fail> {
    for keys in KEYS {
        let map: Map = Congee::new(rt.alloc())?;
        fill(&rt, rt.alloc(), &map, keys)?;
        assert!(rt; asks_in_order(&rt, &map, keys));
    }
    Ok(())
}

// Stores a value at a key, by a guard of its own.
fn set(alloc: Global, map: &Map, key: u64, value: u64) {
    let mut guard = map.pin();
    drop(map.try_insert(alloc, &mut guard, key, value));
    map.unpin(guard);
}

// A retain whose closure answers no below a number, and at each question stores the next number. How many it removes, and the
// sum of what it was asked about.
fn retain_changed<R: Wait>(rt: &R, alloc: Global, map: &Map, least: u64) -> (u128, u64) {
    let mut guard = map.pin();
    let mut sum = 0u64;
    let removed = map.retain(
        rt,
        &mut guard,
        &mut |key: u64, value: u64| -> bool {
            sum = sum.wrapping_add(value);
            set(alloc, map, key, value.wrapping_add(1));
            value >= least
        },
    );
    (removed, sum)
}

// A retain whose closure removes each key itself, and answers no. How many it removes.
fn retain_removed<R: Wait>(rt: &R, map: &Map) -> u128 {
    let mut guard = map.pin();
    map.retain(
        rt,
        &mut guard,
        &mut |key: u64, _value: u64| -> bool {
            let mut other = map.pin();
            drop(map.remove(rt, &mut other, &key));
            map.unpin(other);
            false
        },
    )
}

// The value 5 of the key 7 is asked about as 5, 6 .. 10, and stays as 11.
fn retain_while_changed<R: Wait + Abort>(rt: &R, alloc: Global, map: &Map, guard: &mut Guard)
    requires { guard.old.book ≡ map.now }
{
    set(alloc, map, 7, 5);
    let steps = [
        retain_changed(rt, alloc, map, 10) == (0, 45),
        map.try_get(guard, &7) == Ok(Some(11)),
        retain_changed(rt, alloc, map, 0) == (0, 11),
        retain_removed(rt, map) == 0,
        map.is_empty(rt, guard),
    ];
    all_hold(rt, &steps);
}

#[test]
fn a_changed_value_is_asked_about_again(rt: HostRuntime) -> Result<(), Fail> {
    let map: Map = Congee::new(rt.alloc())?;
    retain_while_changed(&rt, rt.alloc(), &map, &mut map.pin());
    Ok(())
}

const EVEN: Keys = Keys {
    first: 0,
    step: 2,
    count: 3000,
};

const ODD: Keys = Keys {
    first: 1,
    step: 2,
    count: 3000,
};

// Removes the even keys, by a guard of its own.
fn retain_odd<R: Wait>(rt: &R, map: &Map) -> u128 {
    let mut guard = map.pin();
    map.retain(
        rt,
        &mut guard,
        &mut |key: u64, _value: u64| -> bool { key % 2 == 1 },
    )
}

// One thread enters the odd keys, and two remove the even ones.
fn retain_beside<R: Threads + Wait + Sync>(
    rt: &R,
    alloc: Global,
    map: &Map,
) -> (bool, (u128, u128)) {
    join(
        rt,
        || fill(rt, alloc, map, ODD).is_ok(),
        || join(rt, || retain_odd(rt, map), || retain_odd(rt, map)),
    )
}

#[test]
fn each_pair_is_removed_by_one_of_two_threads(rt: HostRuntime) -> Result<(), Fail> {
    let map: Map = Congee::new(rt.alloc())?;
    fill(&rt, rt.alloc(), &map, EVEN)?;
    let (filled, (one, other)) = retain_beside(&rt, rt.alloc(), &map);
    assert!(rt; filled);
    assert!(rt; one.wrapping_add(other) == 3000);
    assert!(rt; map.value_count(&rt, &mut map.pin()) == 3000);
    Ok(())
}
