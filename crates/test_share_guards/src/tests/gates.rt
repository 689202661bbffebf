//! Closures and gates that misbehave: they don't return until others are done, or change what their call is about, by
//! guards that they drop; and guards whose threads have ended.

ghost use Rattle.std.specs.Prelude.{◌≡◌, ◌+◌, ◌^◌, IfSome};

use node_table::allocator::DefaultAllocator;
use share_backend::snapshots::{Made, Pages};
use share_faces::typed_congee::{Congee, Guard, meet};
use share_holds::gate::Gate;
use share_machine::events::Events;
use share_tree::direct::Direct;
use spec_olc::types::Report;
use std::alloc::Global;
use std::marker::Brand;
use std::rt::Clock;
use std::sync::Wait;
use std::sync::atomic::{AtomicBool, Ordering};
use std::sync::ledger::{Blank, Ledger};
use std::test::Fail;
use std::thread;
use std::thread::{Threads, join};
use std::time::Duration;

type Machine = Events<u64, DefaultAllocator>;

type Tree = Direct<u64, DefaultAllocator>;

type Map<L, M> = Congee<L, u64, u64, M>;

// Waits until another thread is done, at most ten seconds.
fn is_done<R: Clock>(rt: &R, done: &AtomicBool) -> bool {
    for _ in 0..10_000u32 {
        if done.load(Ordering::SeqCst) {
            return true;
        }
        thread::sleep(rt, Duration::from_millis(1));
    }
    false
}

// Doesn't return after the event of this number until another thread is done.
#[derive(Drop)]
struct Stuck<'a, R> {
    rt: &'a R,
    done: &'a AtomicBool,
    at: u64,
    events: u64,
    in_time: bool,
}

impl<'a, R: Clock> Gate for Stuck<'a, R> {
    fn between(&mut self, _report: &Report) {
        self.events = self.events.wrapping_add(1);
        if self.events == self.at {
            self.in_time = is_done(self.rt, self.done);
        }
    }
}

// A get of 1, stuck after one of its events. Whether the others were done meanwhile, and what it found.
fn get_stuck<L: Ledger, M: Pages, R: Wait + Clock>(
    rt: &R,
    map: &Map<L, M>,
    done: &AtomicBool,
    at: u64,
) -> Option<(bool, Option<u64>)> {
    let mut guard = map.pin_waiting(rt).ok()?;
    let mut gate = Stuck {
        rt,
        done,
        at,
        events: 0,
        in_time: false,
    };
    let found = map.get_gated(rt, &mut guard, &1, &mut gate);
    map.unpin(rt, guard);
    Some((gate.in_time, found))
}

// An insertion at 2, stuck after one of its events. Whether the others were done meanwhile, and what it replaced.
fn insert_stuck<L: Ledger, M: Pages, R: Wait + Clock>(
    rt: &R,
    map: &Map<L, M>,
    done: &AtomicBool,
    at: u64,
) -> Option<(bool, Option<u64>)> {
    let mut guard = map.pin_waiting(rt).ok()?;
    let mut gate = Stuck {
        rt,
        done,
        at,
        events: 0,
        in_time: false,
    };
    let before = map.insert_gated(rt, &mut guard, 2, 20, &mut gate).ok()?;
    map.unpin(rt, guard);
    Some((gate.in_time, before))
}

// Stores a key, reads it back and removes it.
fn comes_and_goes<L: Ledger, M: Pages, R: Wait>(
    rt: &R,
    map: &Map<L, M>,
    guard: &mut Guard<'_, L, M>,
    key: u64,
) -> bool
    requires { guard.old.table ≡ map.now }
    ensures { guard.new.table ≡ guard.old.table }
{
    map.insert(rt, guard, key, key).is_ok()
        && map.get(rt, guard, &key) == Some(key)
        && map.remove(rt, guard, &key) == Some(key)
}

// Does so with a hundred keys from `first` on, in turn. Whether each came and went.
fn go_on<L: Ledger, M: Pages, R: Wait>(rt: &R, map: &Map<L, M>, first: u64) -> Option<bool> {
    let mut guard = map.pin_waiting(rt).ok()?;
    let mut right = true;
    for step in 0..100u64 {
        right = right && comes_and_goes(rt, map, &mut guard, first.wrapping_add(step % 7));
    }
    map.unpin(rt, guard);
    Some(right)
}

// Calls `go_on`, and then sets `done`. Whether each key came and went.
fn go_on_and_report<L: Ledger, M: Pages, R: Wait>(
    rt: &R,
    map: &Map<L, M>,
    first: u64,
    done: &AtomicBool,
) -> bool {
    let right = go_on(rt, map, first);
    done.store(true, Ordering::SeqCst);
    right == Some(true)
}

// A map with the pairs (1, 42) and (2^40, 0).
fn two_pairs<L: Ledger, M: Pages + Made<u64, u64, DefaultAllocator>, R: Wait>(
    rt: &R,
    alloc: Global,
    blank: Blank,
) -> Result<Map<L, M>, Fail>
    requires name { blank.name ≡ L.name }
    requires parts { blank.parts ≡ L.parts }
    requires whole { L.parts ≡ 2 ^ 63 + 1 }
{
    let (map, _) = Map::<L, M>::new(alloc, blank, DefaultAllocator {})?;
    let mut guard = map.pin(rt)?;
    map.insert(rt, &mut guard, 1, 42)?;
    map.insert(rt, &mut guard, 1 << 40, 0)?;
    map.unpin(rt, guard);
    Ok(map)
}

// A call that is stuck after its event of this number, and the keys from which on another thread goes on meanwhile:
// in the leaf of the call, or, while the call holds that leaf, in another one.
#[derive(Clone, Copy)]
struct Row {
    inserts: bool,
    at: u64,
    first: u64,
}

const SAME_LEAF: u64 = 3;

const ANOTHER_LEAF: u64 = (1 << 40) + 1;

// What the stuck call answered, and whether each thread was in time.
fn beside<
    L: Ledger + Send + Sync,
    M: Pages + Made<u64, u64, DefaultAllocator> + Send,
    R: Threads + Wait + Clock + Sync,
>(rt: &R, alloc: Global, blank: Blank, row: Row) -> Result<(bool, bool, Option<u64>), Fail>
    requires name { blank.name ≡ L.name }
    requires parts { blank.parts ≡ L.parts }
    requires whole { L.parts ≡ 2 ^ 63 + 1 }
{
    let map = two_pairs::<L, M, R>(rt, alloc, blank)?;
    let flag = AtomicBool::new(false);
    let (shared, done, at, first) = (&map, &flag, row.at, row.first);
    let (stuck, right) = if row.inserts {
        join(
            rt,
            || insert_stuck(rt, shared, done, at),
            || go_on_and_report(rt, shared, first, done),
        )
    } else {
        join(
            rt,
            || get_stuck(rt, shared, done, at),
            || go_on_and_report(rt, shared, first, done),
        )
    };
    let (in_time, found) = stuck.ok_or("the stuck call gave up")?;
    Ok((in_time, right, found))
}

// Whether a row goes as it should.
fn goes_on<R: Threads + Wait + Clock + Sync>(
    rt: &R,
    alloc: Global,
    row: Row,
) -> Result<bool, Fail> {
    let blank = Blank::new((1 << 63) + 1);
    let found = beside::<Brand, Machine, R>(rt, alloc, blank, row)?;
    let answer = if row.inserts { None } else { Some(42) };
    Ok(found == (true, true, answer))
}

// A get has nine events, of which it is called after eight; an insertion holds the leaf after its ninth and tenth.
#[test]
fn others_go_on_beside_a_gate_that_does_not_return(rt: HostRuntime) -> Result<(), Fail> {
    for at in 1..=8u64 {
        let row = Row {
            inserts: false,
            at,
            first: SAME_LEAF,
        };
        assert!(rt; goes_on(&rt, rt.alloc(), row)?, "a get at {at}");
    }
    for at in 1..=11u64 {
        let row = Row {
            inserts: true,
            at,
            first: if at == 9 || at == 10 {
                ANOTHER_LEAF
            } else {
                SAME_LEAF
            },
        };
        assert!(rt; goes_on(&rt, rt.alloc(), row)?, "an insertion at {at}");
    }
    Ok(())
}

// A computation at 2 whose closure doesn't return until another thread is done.
fn compute_stuck<L: Ledger, M: Pages, R: Wait + Clock>(
    rt: &R,
    map: &Map<L, M>,
    done: &AtomicBool,
) -> Option<(bool, Option<u64>)> {
    let mut guard = map.pin_waiting(rt).ok()?;
    let mut in_time = false;
    let mut waits = |_old: Option<u64>| -> u64 {
        in_time = is_done(rt, done);
        20
    };
    let before = map.compute_or_insert(rt, &mut guard, 2, &mut waits).ok()?;
    map.unpin(rt, guard);
    Some((in_time, before))
}

fn beside_a_closure<
    L: Ledger + Send + Sync,
    M: Pages + Made<u64, u64, DefaultAllocator> + Send,
    R: Threads + Wait + Clock + Sync,
>(rt: &R, alloc: Global, blank: Blank) -> Result<(bool, bool, Option<u64>), Fail>
    requires name { blank.name ≡ L.name }
    requires parts { blank.parts ≡ L.parts }
    requires whole { L.parts ≡ 2 ^ 63 + 1 }
{
    let map = two_pairs::<L, M, R>(rt, alloc, blank)?;
    let flag = AtomicBool::new(false);
    let (shared, done) = (&map, &flag);
    let (stuck, right) = join(
        rt,
        || compute_stuck(rt, shared, done),
        || go_on_and_report(rt, shared, SAME_LEAF, done),
    );
    let (in_time, before) = stuck.ok_or("the stuck call gave up")?;
    Ok((in_time, right, before))
}

#[test]
fn others_go_on_beside_a_closure_that_does_not_return(rt: HostRuntime) -> Result<(), Fail> {
    let blank = Blank::new((1 << 63) + 1);
    let found = beside_a_closure::<Brand, Machine, _>(&rt, rt.alloc(), blank)?;
    assert!(rt; found == (true, true, None));
    let blank = Blank::new((1 << 63) + 1);
    let found = beside_a_closure::<Brand, Tree, _>(&rt, rt.alloc(), blank)?;
    assert!(rt; found == (true, true, None));
    Ok(())
}

// Overwrites the value of a key by a guard of its own, which is dropped without `unpin`.
fn overwrite<L: Ledger, M: Pages, R: Wait>(rt: &R, map: &Map<L, M>, key: u64, value: u64) -> bool {
    let Ok(mut guard) = map.pin_waiting(rt) else {
        return false;
    };
    map.insert(rt, &mut guard, key, value).is_ok()
}

// A computation at 1 whose closure overwrites its key three times, so that it is asked a fourth time. How often it was
// asked, what the call replaced, and what is stored then.
fn changes_its_key<L: Ledger, M: Pages + Made<u64, u64, DefaultAllocator>, R: Wait>(
    rt: &R,
    alloc: Global,
    blank: Blank,
) -> Result<(u64, Option<u64>, Option<u64>), Fail>
    requires name { blank.name ≡ L.name }
    requires parts { blank.parts ≡ L.parts }
    requires whole { L.parts ≡ 2 ^ 63 + 1 }
{
    let map = two_pairs::<L, M, R>(rt, alloc, blank)?;
    let mut guard = map.pin(rt)?;
    let mut asked = 0u64;
    let mut changes = |old: Option<u64>| -> u64 {
        asked = asked.wrapping_add(1);
        if asked <= 3 {
            overwrite(rt, &map, 1, asked.wrapping_mul(100));
        }
        old.unwrap_or(0).wrapping_add(1)
    };
    let before = map.compute_or_insert(rt, &mut guard, 1, &mut changes)?;
    let after = map.get(rt, &mut guard, &1);
    Ok((asked, before, after))
}

#[test]
fn a_closure_changes_its_key(rt: HostRuntime) -> Result<(), Fail> {
    let blank = Blank::new((1 << 63) + 1);
    let found = changes_its_key::<Brand, Machine, _>(&rt, rt.alloc(), blank)?;
    assert!(rt; found == (4, Some(300), Some(301)));
    let blank = Blank::new((1 << 63) + 1);
    let found = changes_its_key::<Brand, Tree, _>(&rt, rt.alloc(), blank)?;
    assert!(rt; found == (4, Some(300), Some(301)));
    Ok(())
}

// A guard that has stored 50 at 5, for another thread than the one that ends with this function.
fn left_behind<'a, L: Ledger, M: Pages, R: Wait>(
    rt: &R,
    map: &'a Map<L, M>,
) -> Option<Guard<'a, L, M>>
    ensures { IfSome result (λ guard. guard.table ≡ map.now) }
{
    let mut guard = map.pin_waiting(rt).ok()?;
    map.insert(rt, &mut guard, 5, 50).ok()?;
    Some(guard)
}

// Two threads end: one leaves its guard, the other one drops it. What the guard that was left finds at 5 and at 6, and
// what one that meets it removes at 5.
fn after_threads<
    L: Ledger + Send + Sync,
    M: Pages + Made<u64, u64, DefaultAllocator> + Send,
    R: Threads + Wait + Sync,
>(rt: &R, alloc: Global, blank: Blank) -> Result<[Option<u64>; 3], Fail>
    requires name { blank.name ≡ L.name }
    requires parts { blank.parts ≡ L.parts }
    requires whole { L.parts ≡ 2 ^ 63 + 1 }
{
    let map = two_pairs::<L, M, R>(rt, alloc, blank)?;
    let shared = &map;
    let (left, _) = join(
        rt,
        || left_behind(rt, shared),
        || overwrite(rt, shared, 6, 60),
    );
    let mut left = left.ok_or("the thread gave up")?;
    let mut last = map.pin(rt)?;
    meet(&mut left, &mut last);
    let found = map.get(rt, &mut left, &5);
    let dropped = map.get(rt, &mut left, &6);
    map.unpin(rt, left);
    Ok([found, dropped, map.remove(rt, &mut last, &5)])
}

#[test]
fn guards_outlive_their_threads(rt: HostRuntime) -> Result<(), Fail> {
    let blank = Blank::new((1 << 63) + 1);
    let found = after_threads::<Brand, Machine, _>(&rt, rt.alloc(), blank)?;
    assert!(rt; found == [Some(50), Some(60), Some(50)]);
    let blank = Blank::new((1 << 63) + 1);
    let found = after_threads::<Brand, Tree, _>(&rt, rt.alloc(), blank)?;
    assert!(rt; found == [Some(50), Some(60), Some(50)]);
    Ok(())
}
