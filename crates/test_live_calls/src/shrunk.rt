//! A node that is left with few children goes into the next smaller form.

ghost use Rattle.std.specs.Prelude.{◌≡◌};

use crate::calls::{all_hold, filled, filled_by, form_at, found, is_gone};
use live_growth::map::{Congee, Guard};
use std::alloc::Global;
use std::process::Abort;
use std::test::Fail;
use std::thread::{Threads, join};

// Removes the keys from one on to another. Returns how many were there.
fn thinned(map: &Congee, guard: &mut Guard, first: u64, low: u64, high: u64) -> u64
    requires { guard.old.book ≡ map.now }
    ensures { guard.new.book ≡ map.now }
{
    let mut gone = 0u64;
    for i in low..high {
        let key = first.wrapping_add(i);
        if is_gone(map, guard, key) {
            gone = gone.wrapping_add(1);
        }
    }
    gone
}

// How many keys are left in a leaf, and the place of the form that it has then.
const LEFT: [(u64, u64); 8] = [
    (200, 3),
    (37, 3),
    (36, 2),
    (13, 2),
    (12, 1),
    (4, 1),
    (3, 0),
    (1, 0),
];

// Removes keys of a leaf until so many are left, each time. Returns how often the form and what is left are right.
fn shrunk(map: &Congee, guard: &mut Guard, first: u64) -> usize
    requires { guard.old.book ≡ map.now }
    ensures { guard.new.book ≡ map.now }
{
    let mut right = 0usize;
    let mut there = 200u64;
    for (left, place) in LEFT {
        let gone = thinned(map, guard, first, left, there);
        let all = gone == there.wrapping_sub(left) && found(map, first, 1, 200) == left;
        if all && form_at(map, first) == place {
            right = right.wrapping_add(1);
        }
        there = left;
    }
    right
}

// It grows again, by the nodes that it left.
fn shrink_and_grow(rt: &impl Abort, alloc: Global, map: &Congee, guard: &mut Guard)
    requires { guard.old.book ≡ map.now }
{
    let new = filled_by(map, alloc, guard, 0x500, 1, 200);
    let right = shrunk(map, guard, 0x500);
    let words = guard.room.left;
    let steps = [
        new == 200,
        right == LEFT.len(),
        filled_by(map, alloc, guard, 0x501, 1, 199) == 199,
        found(map, 0x500, 1, 200) == 200,
        form_at(map, 0x500) == 3,
        guard.room.left == words,
    ];
    all_hold(rt, &steps);
}

#[test]
fn a_leaf_of_few_keys_goes_into_a_smaller_form(rt: HostRuntime) -> Result<(), Fail> {
    let map = Congee::new(rt.alloc())?;
    shrink_and_grow(&rt, rt.alloc(), &map, &mut map.pin());
    Ok(())
}

fn thin_by_another(
    rt: &impl Abort,
    alloc: Global,
    map: &Congee,
    guard: &mut Guard,
    other: &mut Guard,
)
    requires first { guard.old.book ≡ map.now }
    requires second { other.old.book ≡ map.now }
{
    let steps = [
        filled_by(map, alloc, guard, 0, 1, 200) == 200,
        thinned(map, other, 0, 1, 200) == 199,
        found(map, 0, 1, 200) == 1,
        form_at(map, 0) == 3,
        other.room.left == 0,
    ];
    all_hold(rt, &steps);
}

// A caller that has no node to use again leaves a leaf in its form, and takes no memory.
#[test]
fn a_leaf_stays_where_no_node_is_left_over(rt: HostRuntime) -> Result<(), Fail> {
    let map = Congee::new(rt.alloc())?;
    thin_by_another(&rt, rt.alloc(), &map, &mut map.pin(), &mut map.pin());
    Ok(())
}

// Fills a leaf and removes most of its keys, so many times. Returns how often all of them came and went.
fn fills(map: &Congee, alloc: Global, first: u64, times: u32) -> u32 {
    let mut guard = map.pin();
    let mut right = 0u32;
    for _ in 0..times {
        let new = filled_by(map, alloc, &mut guard, first, 1, 100);
        let gone = thinned(map, &mut guard, first, 0, 100);
        if new == 100 && gone == 100 {
            right = right.wrapping_add(1);
        }
    }
    right
}

// Four threads, of which two have one leaf and two another. How often each has found its keys.
fn by_four<R: Threads + Sync>(rt: &R, alloc: Global, map: &Congee) -> ((u32, u32), (u32, u32)) {
    let times = 300;
    join(
        rt,
        || join(
            rt,
            || fills(map, alloc, 2, times),
            || fills(map, alloc, 102, times),
        ),
        || join(
            rt,
            || fills(map, alloc, 0x700, times),
            || fills(map, alloc, 0x764, times),
        ),
    )
}

#[test]
fn threads_that_fill_and_thin_a_leaf_lose_nothing(rt: HostRuntime) -> Result<(), Fail> {
    let map = Congee::new(rt.alloc())?;
    assert!(rt; filled(&map, rt.alloc(), 0, 1, 2) == 2);
    assert!(rt; by_four(&rt, rt.alloc(), &map) == ((300, 300), (300, 300)));
    assert!(rt; found(&map, 0, 1, 300) == 2);
    Ok(())
}
