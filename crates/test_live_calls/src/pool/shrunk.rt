//! A node that is left with few children goes into the next smaller form, at each height.

ghost use Rattle.std.specs.Prelude.{◌≡◌};

use crate::calls::{all_hold, form_at};
use crate::pool::calls::filled;
use live_growth::map::Guard;
use live_pool::pool::Pool;
use std::alloc::Global;
use std::process::Abort;
use std::test::Fail;

// Removes the keys from one on to another. Returns how many were there.
fn thinned(map: &Pool, guard: &mut Guard, step: u64, low: u64, high: u64) -> u64
    requires { guard.old.book ≡ map.now }
    ensures { guard.new.book ≡ map.now }
{
    let mut gone = 0u64;
    for i in low..high {
        let key = i.wrapping_mul(step);
        if map.remove(guard, key) == Ok(Some(key ^ 1)) {
            gone = gone.wrapping_add(1);
        }
    }
    gone
}

// How many children are left, and the place of the form that the node has then.
const LEFT: [(u64, u64); 8] = [
    (200, 3),
    (37, 3),
    (36, 2),
    (13, 2),
    (12, 1),
    (4, 1),
    (3, 0),
    (1, 0),
];

// How far the keys lie apart, and a key whose path ends at the node that has them all below: a leaf, and nodes of two heights.
const APART: [(u64, u64); 3] = [(1, 0xFF), (0x100, 0xFF00), (0x10000000000, 0xFF0000000000)];

// Removes keys until so many are left, each time. Returns how often the form is right.
fn shrunk(map: &Pool, guard: &mut Guard, step: u64, probe: u64) -> usize
    requires { guard.old.book ≡ map.now }
    ensures { guard.new.book ≡ map.now }
{
    let mut right = 0usize;
    let mut there = 200u64;
    for (left, place) in LEFT {
        let gone = thinned(map, guard, step, left, there);
        if gone == there.wrapping_sub(left) && form_at(&map.map, probe) == place {
            right = right.wrapping_add(1);
        }
        there = left;
    }
    right
}

// It grows again, by the nodes that it left.
fn shrink_and_grow(
    rt: &impl Abort,
    alloc: Global,
    map: &Pool,
    guard: &mut Guard,
    step: u64,
    probe: u64,
)
    requires { guard.old.book ≡ map.now }
{
    let new = filled(map, alloc, guard, 0, step, 200);
    let right = shrunk(map, guard, step, probe);
    let left = guard.room.left;
    let steps = [
        new == 200,
        right == LEFT.len(),
        filled(map, alloc, guard, step, step, 199) == 199,
        form_at(&map.map, probe) == 3,
        guard.room.left == left,
    ];
    all_hold(rt, &steps);
}

#[test]
fn a_node_of_few_children_goes_into_a_smaller_form(rt: HostRuntime) -> Result<(), Fail> {
    for (step, probe) in APART {
        let map = Pool::new(rt.alloc())?;
        shrink_and_grow(&rt, rt.alloc(), &map, &mut map.pin(), step, probe);
    }
    Ok(())
}
