//! Guards: more of them than threads, one that another thread goes on with, and one that is dropped with its seat.

ghost use Rattle.std.specs.Prelude.{◌≡◌, ◌+◌, ◌^◌, IfSome};

use node_table::allocator::DefaultAllocator;
use share_backend::snapshots::{Made, Pages};
use share_faces::typed_congee::{Congee, Guard};
use share_machine::events::Events;
use share_tree::direct::Direct;
use std::alloc::Global;
use std::marker::Brand;
use std::sync::Wait;
use std::sync::ledger::{Blank, Ledger};
use std::test::Fail;
use std::thread::{Threads, join};

type Machine = Events<u64, DefaultAllocator>;

type Tree = Direct<u64, DefaultAllocator>;

type Map<L, M> = Congee<L, u64, u64, M>;

// Nine callers in one thread: each overwrites what the one before it stored.
// Returns the number of keys, and the last value.
fn nine_callers<L: Ledger, M: Pages + Made<u64, u64, DefaultAllocator>, R: Wait>(
    rt: &R,
    alloc: Global,
    blank: Blank,
) -> Result<(u128, Option<u64>), Fail>
    requires name { blank.name ≡ L.name }
    requires parts { blank.parts ≡ L.parts }
    requires whole { L.parts ≡ 2 ^ 63 + 1 }
{
    let (map, _) = Map::<L, M>::new(alloc, blank, DefaultAllocator {})?;
    let mut guards = Vec::new(alloc);
    let mut before = None;
    for turn in 0..9u64 {
        let mut guard = map.pin(rt)?;
        if map.insert(rt, &mut guard, 5, turn)? != before {
            return Err("a caller saw another value than the last one".into());
        }
        before = Some(turn);
        guards.push(guard)?;
    }
    for guard in guards {
        guard.unpin(rt);
    }
    let mut guard = map.pin(rt)?;
    Ok((map.value_count(rt), map.get(rt, &mut guard, &5)))
}

#[test]
fn nine_guards_in_one_thread(rt: HostRuntime) -> Result<(), Fail> {
    let found = nine_callers::<Brand, Machine, _>(&rt, rt.alloc(), Blank::new((1 << 63) + 1))?;
    assert!(rt; found == (1, Some(8)));
    let found = nine_callers::<Brand, Tree, _>(&rt, rt.alloc(), Blank::new((1 << 63) + 1))?;
    assert!(rt; found == (1, Some(8)));
    Ok(())
}

// Stores ten keys from `first` on, and returns its guard.
fn store_ten<'a, L: Ledger, M: Pages, R: Wait>(
    rt: &R,
    map: &Map<L, M>,
    mut guard: Guard<'a, L, M>,
    first: u64,
) -> Option<Guard<'a, L, M>>
    requires { guard.table ≡ map.now }
    ensures { IfSome result (λ kept. kept.table ≡ map.now) }
{
    let mut key = first;
    for _ in 0..10u32 {
        map.insert(rt, &mut guard, key, key).ok()?;
        key = key.wrapping_add(1);
    }
    Some(guard)
}

// Two guards that this thread made go to two other threads, come back, and go out again exchanged.
fn passed_on<
    L: Ledger + Send + Sync,
    M: Pages + Made<u64, u64, DefaultAllocator> + Send,
    R: Threads + Wait + Sync,
>(rt: &R, alloc: Global, blank: Blank) -> Result<u128, Fail>
    requires name { blank.name ≡ L.name }
    requires parts { blank.parts ≡ L.parts }
    requires whole { L.parts ≡ 2 ^ 63 + 1 }
{
    let (map, _) = Map::<L, M>::new(alloc, blank, DefaultAllocator {})?;
    let shared = &map;
    let one = map.pin(rt)?;
    let two = map.pin(rt)?;
    let (one, two) = join(
        rt,
        || store_ten(rt, shared, one, 0),
        || store_ten(rt, shared, two, 100),
    );
    let one = one.ok_or("the first gave up")?;
    let two = two.ok_or("the second gave up")?;
    let (one, two) = join(
        rt,
        || store_ten(rt, shared, two, 1000),
        || store_ten(rt, shared, one, 10_000),
    );
    map.unpin(rt, one.ok_or("the first gave up later")?);
    map.unpin(rt, two.ok_or("the second gave up later")?);
    Ok(map.value_count(rt))
}

#[test]
fn a_guard_goes_to_another_thread(rt: HostRuntime) -> Result<(), Fail> {
    let pairs = passed_on::<Brand, Machine, _>(&rt, rt.alloc(), Blank::new((1 << 63) + 1))?;
    assert!(rt; pairs == 40);
    let pairs = passed_on::<Brand, Tree, _>(&rt, rt.alloc(), Blank::new((1 << 63) + 1))?;
    assert!(rt; pairs == 40);
    Ok(())
}

// Stores a key by a guard that is dropped without `unpin`.
fn store_and_drop<L: Ledger, M: Pages, R: Wait>(
    rt: &R,
    map: &Map<L, M>,
    key: u64,
) -> Result<(), Fail> {
    let mut guard = map.pin(rt)?;
    map.insert(rt, &mut guard, key, key)?;
    Ok(())
}

// Whether each of a hundred keys has its own number, which is removed.
fn takes_hundred<L: Ledger, M: Pages, R: Wait>(
    rt: &R,
    map: &Map<L, M>,
    mut guard: Guard<'_, L, M>,
) -> bool
    requires { guard.table ≡ map.now }
{
    for key in 0..100u64 {
        if map.remove(rt, &mut guard, &key) != Some(key) {
            return false;
        }
    }
    true
}

// A hundred guards are dropped. Nodes that calls replace meanwhile are reclaimed all the same.
fn dropped<L: Ledger, M: Pages + Made<u64, u64, DefaultAllocator>, R: Wait>(
    rt: &R,
    alloc: Global,
    blank: Blank,
) -> Result<u128, Fail>
    requires name { blank.name ≡ L.name }
    requires parts { blank.parts ≡ L.parts }
    requires whole { L.parts ≡ 2 ^ 63 + 1 }
{
    let (map, _) = Map::<L, M>::new(alloc, blank, DefaultAllocator {})?;
    for key in 0..100u64 {
        store_and_drop(rt, &map, key)?;
    }
    let guard = map.pin(rt)?;
    if !takes_hundred(rt, &map, guard) {
        return Err("a key is gone".into());
    }
    Ok(map.value_count(rt))
}

#[test]
fn guards_are_dropped_with_their_seats(rt: HostRuntime) -> Result<(), Fail> {
    let pairs = dropped::<Brand, Machine, _>(&rt, rt.alloc(), Blank::new((1 << 63) + 1))?;
    assert!(rt; pairs == 0);
    let pairs = dropped::<Brand, Tree, _>(&rt, rt.alloc(), Blank::new((1 << 63) + 1))?;
    assert!(rt; pairs == 0);
    Ok(())
}
