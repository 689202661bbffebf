//! Gates, halves of a share, closures that two threads call, and one that calls the map.

ghost use Rattle.std.specs.Prelude.{◌≡◌, ◌+◌, ◌^◌, ◌<◌};

use node_table::allocator::DefaultAllocator;
use share_backend::snapshots::{Made, Pages};
use share_faces::typed_congee::{Congee, Guard};
use share_holds::gate::Gate;
use share_machine::events::Events;
use share_state::share::Share;
use share_tree::direct::Direct;
use spec_olc::types::Report;
use std::alloc::Global;
use std::marker::Brand;
use std::rt::Clock;
use std::sync::Wait;
use std::sync::atomic::{AtomicBool, Ordering};
use std::sync::ledger::{Blank, Ledger};
use std::test::Fail;
use std::thread;
use std::thread::{Threads, join};
use std::time::Duration;

type Machine = Events<u64, DefaultAllocator>;

type Tree = Direct<u64, DefaultAllocator>;

type Map<L, M> = Congee<L, u64, u64, M>;

// Counts how often it is called between events.
#[derive(Drop)]
struct Count {
    calls: u64,
}

impl Gate for Count {
    fn between(&mut self, _report: &Report) {
        self.calls = self.calls.wrapping_add(1);
    }
}

// Waits for what another thread sets, at most ten seconds.
fn came<R: Clock>(rt: &R, flag: &AtomicBool) -> bool {
    for _ in 0..10_000u32 {
        if flag.load(Ordering::SeqCst) {
            return true;
        }
        thread::sleep(rt, Duration::from_millis(1));
    }
    false
}

// Whether the first of two threads is in the middle of its call, and whether the second one's call, which begins only
// then, is answered.
#[derive(Drop)]
struct Turns {
    begun: AtomicBool,
    answered: AtomicBool,
}

impl Turns {
    fn new() -> Self {
        Turns {
            begun: AtomicBool::new(false),
            answered: AtomicBool::new(false),
        }
    }

    // In the middle of a call: whether the other thread's call is answered in time.
    fn pass<R: Clock>(&self, rt: &R) -> bool {
        self.begun.store(true, Ordering::SeqCst);
        came(rt, &self.answered)
    }
}

// After the second event it waits for another thread's answer.
#[derive(Drop)]
struct Awaits<'a, R> {
    rt: &'a R,
    turns: &'a Turns,
    calls: u64,
    in_time: bool,
}

impl<'a, R: Clock> Gate for Awaits<'a, R> {
    fn between(&mut self, _report: &Report) {
        self.calls = self.calls.wrapping_add(1);
        if self.calls == 2 {
            self.in_time = self.turns.pass(self.rt);
        }
    }
}

fn made<L: Ledger, M: Pages + Made<u64, u64, DefaultAllocator>>(
    alloc: Global,
    blank: Blank,
) -> Result<(Map<L, M>, Share<L>), Fail>
    requires name { blank.name ≡ L.name }
    requires parts { blank.parts ≡ L.parts }
    requires whole { L.parts ≡ 2 ^ 63 + 1 }
{
    Ok(Map::<L, M>::new(alloc, blank, DefaultAllocator {})?)
}

fn gated<L: Ledger, M: Pages, R: Wait>(
    rt: &R,
    map: &Map<L, M>,
) -> Result<(u64, Option<u64>), Fail> {
    let mut guard = map.pin(rt)?;
    map.insert(rt, &mut guard, 1, 42)?;
    let mut gate = Count { calls: 0 };
    let found = map.get_gated(rt, &mut guard, &1, &mut gate);
    map.unpin(rt, guard);
    Ok((gate.calls, found))
}

fn gated_alone<L: Ledger, M: Pages + Made<u64, u64, DefaultAllocator>, R: Wait>(
    rt: &R,
    alloc: Global,
    blank: Blank,
) -> Result<(u64, Option<u64>), Fail>
    requires name { blank.name ≡ L.name }
    requires parts { blank.parts ≡ L.parts }
    requires whole { L.parts ≡ 2 ^ 63 + 1 }
{
    let (map, _) = made::<L, M>(alloc, blank)?;
    gated(rt, &map)
}

#[test]
fn a_gate_is_called_between_nine_events(rt: HostRuntime) -> Result<(), Fail> {
    let found = gated_alone::<Brand, Machine, _>(&rt, rt.alloc(), Blank::new((1 << 63) + 1))?;
    assert!(rt; found == (8, Some(42)));
    let found = gated_alone::<Brand, Tree, _>(&rt, rt.alloc(), Blank::new((1 << 63) + 1))?;
    assert!(rt; found == (0, Some(42)));
    Ok(())
}

// A get that waits in the middle.
fn get_in_the_middle<L: Ledger, M: Pages, R: Wait + Clock>(
    rt: &R,
    map: &Map<L, M>,
    turns: &Turns,
) -> Option<(bool, Option<u64>)> {
    let Ok(mut guard) = map.pin_waiting(rt) else {
        return None;
    };
    let mut gate = Awaits {
        rt,
        turns,
        calls: 0,
        in_time: false,
    };
    let found = map.get_gated(rt, &mut guard, &1, &mut gate);
    Some((gate.in_time, found))
}

// An insertion in the middle of the other thread's call.
fn insert_and_report<L: Ledger, M: Pages, R: Wait + Clock>(
    rt: &R,
    map: &Map<L, M>,
    key: u64,
    turns: &Turns,
) -> bool {
    if !came(rt, &turns.begun) {
        return false;
    }
    let Ok(mut guard) = map.pin_waiting(rt) else {
        return false;
    };
    let done = map.insert(rt, &mut guard, key, key).is_ok();
    turns.answered.store(true, Ordering::SeqCst);
    done
}

fn meets_an_insertion<
    L: Ledger + Send + Sync,
    M: Pages + Made<u64, u64, DefaultAllocator> + Send,
    R: Threads + Wait + Clock + Sync,
>(rt: &R, alloc: Global, blank: Blank) -> Result<Option<(bool, Option<u64>)>, Fail>
    requires name { blank.name ≡ L.name }
    requires parts { blank.parts ≡ L.parts }
    requires whole { L.parts ≡ 2 ^ 63 + 1 }
{
    let (map, _) = made::<L, M>(alloc, blank)?;
    let mut guard = map.pin(rt)?;
    map.insert(rt, &mut guard, 1, 42)?;
    let turns = Turns::new();
    let (shared, both) = (&map, &turns);
    let (got, _) = join(
        rt,
        || get_in_the_middle(rt, shared, both),
        || insert_and_report(rt, shared, 2, both),
    );
    Ok(got)
}

#[test]
fn another_thread_inserts_in_the_middle_of_a_get(rt: HostRuntime) -> Result<(), Fail> {
    let found = meets_an_insertion::<Brand, Machine, _>(
        &rt,
        rt.alloc(),
        Blank::new((1 << 63) + 1),
    )?;
    assert!(rt; found == Some((true, Some(42))));
    Ok(())
}

fn fill<L: Ledger, M: Pages, R: Wait>(
    rt: &R,
    map: &Map<L, M>,
    mut share: Share<L>,
    first: u64,
) -> (Share<L>, bool)
    requires { first < 1000 }
{
    let Ok(mut guard) = map.pin_waiting(rt) else {
        return (share, false);
    };
    for key in first..first + 10 {
        let Ok(_) = map.insert_counted(rt, &mut guard, &mut share, key, key) else {
            return (share, false);
        };
    }
    (share, true)
}

fn filled_by_two<
    L: Ledger + Send + Sync,
    M: Pages + Made<u64, u64, DefaultAllocator> + Send,
    R: Threads + Wait + Sync,
>(rt: &R, alloc: Global, blank: Blank) -> Result<(bool, Option<u128>), Fail>
    requires name { blank.name ≡ L.name }
    requires parts { blank.parts ≡ L.parts }
    requires whole { L.parts ≡ 2 ^ 63 + 1 }
{
    let (map, mut one) = made::<L, M>(alloc, blank)?;
    let two = one.split().ok_or("no half")?;
    let shared = &map;
    let (a, b) = join(
        rt,
        || fill(rt, shared, one, 0),
        || fill(rt, shared, two, 10),
    );
    let (mut one, first) = a;
    let (two, second) = b;
    let two = match map.settle(rt, two) {
        Ok(_) => return Err("half the weight settled".into()),
        Err(two) => two,
    };
    one.join(two);
    Ok((first && second, map.settle(rt, one).ok()))
}

#[test]
fn two_threads_fill_a_map(rt: HostRuntime) -> Result<(), Fail> {
    let found = filled_by_two::<Brand, Machine, _>(&rt, rt.alloc(), Blank::new((1 << 63) + 1))?;
    assert!(rt; found == (true, Some(20)));
    let found = filled_by_two::<Brand, Tree, _>(&rt, rt.alloc(), Blank::new((1 << 63) + 1))?;
    assert!(rt; found == (true, Some(20)));
    Ok(())
}

// Counts up at key 0, `times` times. Returns the previous values.
fn count_up<L: Ledger, M: Pages, R: Wait>(
    rt: &R,
    map: &Map<L, M>,
    alloc: Global,
    times: u32,
) -> Option<Vec<Option<u64>>> {
    let Ok(mut guard) = map.pin_waiting(rt) else {
        return None;
    };
    let mut before = Vec::new(alloc);
    for _ in 0..times {
        let mut one_more = |old: Option<u64>| -> u64 { old.unwrap_or(0).wrapping_add(1) };
        match map.compute_or_insert(rt, &mut guard, 0, &mut one_more) {
            Ok(old) => before.push(old).ok()?,
            Err(_) => return None,
        }
    }
    Some(before)
}

// Waits in its closure for another thread's answer.
fn compute_in_the_middle<L: Ledger, M: Pages, R: Wait + Clock>(
    rt: &R,
    map: &Map<L, M>,
    turns: &Turns,
) -> bool {
    let Ok(mut guard) = map.pin_waiting(rt) else {
        return false;
    };
    let mut in_time = false;
    let mut waits = |_old: Option<u64>| -> u64 {
        in_time = turns.pass(rt);
        5
    };
    if map
        .compute_or_insert(rt, &mut guard, 2, &mut waits)
        .is_err()
    {
        return false;
    }
    in_time
}

fn counted_up<
    L: Ledger + Send + Sync,
    M: Pages + Made<u64, u64, DefaultAllocator> + Send,
    R: Threads + Wait + Clock + Sync,
>(rt: &R, alloc: Global, blank: Blank) -> Result<(Vec<Option<u64>>, Option<u64>, bool), Fail>
    requires name { blank.name ≡ L.name }
    requires parts { blank.parts ≡ L.parts }
    requires whole { L.parts ≡ 2 ^ 63 + 1 }
{
    let (map, _) = made::<L, M>(alloc, blank)?;
    let shared = &map;
    let (a, b) = join(
        rt,
        || count_up(rt, shared, alloc, 1000),
        || count_up(rt, shared, alloc, 1000),
    );
    let mut all = a.ok_or("the first gave up")?;
    for old in b.ok_or("the second gave up")? {
        all.push(old)?;
    }
    all.sort()?;
    let mut guard = map.pin(rt)?;
    let last = map.get(rt, &mut guard, &0);
    let turns = Turns::new();
    let both = &turns;
    let (in_time, _) = join(
        rt,
        || compute_in_the_middle(rt, shared, both),
        || insert_and_report(rt, shared, 1, both),
    );
    Ok((all, last, in_time))
}

// Whether two threads' closures saw no value once, and each from 1 on once, in some order. (No value is below 0.)
fn each_once((all, last, in_time): (Vec<Option<u64>>, Option<u64>, bool)) -> bool {
    let mut wanted = None;
    for old in all {
        if old != wanted {
            return false;
        }
        wanted = Some(wanted.unwrap_or(0).wrapping_add(1));
    }
    wanted == Some(2000) && last == Some(2000) && in_time
}

#[test]
fn two_threads_count_up_by_closures(rt: HostRuntime) -> Result<(), Fail> {
    let found = counted_up::<Brand, Machine, _>(&rt, rt.alloc(), Blank::new((1 << 63) + 1))?;
    assert!(rt; each_once(found));
    let found = counted_up::<Brand, Tree, _>(&rt, rt.alloc(), Blank::new((1 << 63) + 1))?;
    assert!(rt; each_once(found));
    Ok(())
}

// What a second caller finds.
fn look_up<L: Ledger, M: Pages, R: Wait>(rt: &R, map: &Map<L, M>, key: u64) -> Option<u64> {
    let mut guard = map.pin(rt).ok()?;
    map.get(rt, &mut guard, &key)
}

// A computation whose closure reads another key by a second caller. What it found there, and what is stored then.
fn calls_within<L: Ledger, M: Pages + Made<u64, u64, DefaultAllocator>, R: Wait>(
    rt: &R,
    alloc: Global,
    blank: Blank,
) -> Result<(Option<u64>, Option<u64>), Fail>
    requires name { blank.name ≡ L.name }
    requires parts { blank.parts ≡ L.parts }
    requires whole { L.parts ≡ 2 ^ 63 + 1 }
{
    let (map, _) = made::<L, M>(alloc, blank)?;
    let mut guard = map.pin(rt)?;
    map.insert(rt, &mut guard, 3, 30)?;
    let mut found = None;
    let mut looks = |_old: Option<u64>| -> u64 {
        found = look_up(rt, &map, 3);
        7
    };
    map.compute_or_insert(rt, &mut guard, 4, &mut looks)?;
    let stored = map.get(rt, &mut guard, &4);
    Ok((found, stored))
}

#[test]
fn a_closure_calls_the_map(rt: HostRuntime) -> Result<(), Fail> {
    let found = calls_within::<Brand, Machine, _>(&rt, rt.alloc(), Blank::new((1 << 63) + 1))?;
    assert!(rt; found == (Some(30), Some(7)));
    let found = calls_within::<Brand, Tree, _>(&rt, rt.alloc(), Blank::new((1 << 63) + 1))?;
    assert!(rt; found == (Some(30), Some(7)));
    Ok(())
}
