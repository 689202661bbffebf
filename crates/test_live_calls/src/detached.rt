//! Leaves without keys are taken out of the map, and so are the nodes above them.

ghost use Rattle.std.specs.Prelude.{◌≡◌};

use crate::calls::{
    all_hold, end_of, filled, found, get, is_gone, is_new, looked, put, remove_by, removed,
};
use live_growth::map::{Congee, Guard};
use std::alloc::Global;
use std::process::Abort;
use std::test::Fail;
use std::thread::{Threads, join};

// The keys of one leaf, and three that part from them above it.
const LEAF: [u64; 3] = [0x0102030405060708, 0x0102030405060709, 0x01020304050607FF];

const OTHERS: [u64; 3] = [0x0102030405060808, 0x0102030405070708, 0x0202030405060708];

// The keys are stored, those of the leaf last, and then each of the leaf is removed.
fn empty_leaf(rt: &impl Abort, alloc: Global, map: &Congee) {
    for key in OTHERS {
        assert!(rt; put(map, alloc, key, key ^ 1) == Ok(None));
    }
    for key in LEAF {
        assert!(rt; put(map, alloc, key, key ^ 1) == Ok(None));
        assert!(rt; end_of(map, key) == 1);
    }
    for key in LEAF {
        assert!(rt; removed(map, key) == Ok(Some(key ^ 1)));
    }
}

fn make_leaf_again(rt: &impl Abort, alloc: Global, map: &Congee) {
    let steps = [
        end_of(map, LEAF[0]) == 2,
        put(map, alloc, LEAF[0], 5) == Ok(None),
        end_of(map, LEAF[0]) == 1,
        looked(map, LEAF[0]) == Ok(Some(5)),
        looked(map, LEAF[1]) == Ok(None),
    ];
    all_hold(rt, &steps);
    for key in OTHERS {
        assert!(rt; looked(map, key) == Ok(Some(key ^ 1)));
    }
}

#[test]
fn an_insertion_makes_a_leaf_again(rt: HostRuntime) -> Result<(), Fail> {
    let map = Congee::new(rt.alloc())?;
    empty_leaf(&rt, rt.alloc(), &map);
    make_leaf_again(&rt, rt.alloc(), &map);
    Ok(())
}

// A caller that has read a leaf finds nothing once the leaf is taken out.
fn read_again(rt: &impl Abort, alloc: Global, map: &Congee, guard: &mut Guard, key: u64)
    requires { guard.old.book ≡ map.now }
    ensures { guard.new.book ≡ map.now }
{
    let _ = put(map, alloc, key, 5);
    let steps = [
        get(map, guard, key) == Ok(Some(5)),
        removed(map, key) == Ok(Some(5)),
        end_of(map, key) == 8,
        get(map, guard, key) == Ok(None),
    ];
    all_hold(rt, &steps);
}

// It finds and removes the key in another leaf.
fn remove_again(rt: &impl Abort, alloc: Global, map: &Congee, guard: &mut Guard, key: u64)
    requires { guard.old.book ≡ map.now }
    ensures { guard.new.book ≡ map.now }
{
    let _ = put(map, alloc, key, 6);
    let steps = [
        get(map, guard, key) == Ok(Some(6)),
        remove_by(map, guard, key) == Ok(Some(6)),
        end_of(map, key) == 8,
    ];
    all_hold(rt, &steps);
}

fn read_and_remove(rt: &impl Abort, alloc: Global, map: &Congee, guard: &mut Guard)
    requires { guard.old.book ≡ map.now }
{
    read_again(rt, alloc, map, guard, LEAF[0]);
    remove_again(rt, alloc, map, guard, LEAF[0]);
    read_again(rt, alloc, map, guard, OTHERS[2]);
    remove_again(rt, alloc, map, guard, LEAF[1]);
}

#[test]
fn a_leaf_that_was_read_before_is_taken_out(rt: HostRuntime) -> Result<(), Fail> {
    let map = Congee::new(rt.alloc())?;
    read_and_remove(&rt, rt.alloc(), &map, &mut map.pin());
    Ok(())
}

// Inserts and removes a key so many times, after a first time. How many words of its room the caller has used for that.
fn used(map: &Congee, alloc: Global, key: u64, times: u32) -> u64 {
    let mut guard = map.pin();
    let _ = is_new(map, alloc, &mut guard, key, key ^ 1);
    let _ = is_gone(map, &mut guard, key);
    let left = guard.room.left;
    for _ in 0..times {
        let _ = is_new(map, alloc, &mut guard, key, key ^ 1);
        let _ = is_gone(map, &mut guard, key);
    }
    left.wrapping_sub(guard.room.left)
}

// A caller's next leaf is the one that was taken out last.
#[test]
fn a_leaf_that_was_taken_out_is_used_again(rt: HostRuntime) -> Result<(), Fail> {
    let map = Congee::new(rt.alloc())?;
    for key in LEAF {
        assert!(rt; used(&map, rt.alloc(), key, 10_000) == 0);
    }
    Ok(())
}

// Inserts and removes as many keys, one after another, so many times. Returns how often a key wasn't there.
fn moved(map: &Congee, alloc: Global, step: u64, count: u32) -> u32 {
    let mut guard = map.pin();
    let mut key = 0u64;
    let mut lost = 0u32;
    for _ in 0..count {
        if !is_new(map, alloc, &mut guard, key, key ^ 1) {
            lost = lost.wrapping_add(1);
        }
        if !is_gone(map, &mut guard, key) {
            lost = lost.wrapping_add(1);
        }
        key = key.wrapping_add(step);
    }
    lost
}

// One thread empties each leaf again, and another one puts its own key there. What either has lost, and what is there.
fn by_two<R: Threads + Sync>(rt: &R, alloc: Global, step: u64) -> Option<(u32, u64, u64, u64)> {
    let map = Congee::new(alloc).ok()?;
    let shared = &map;
    let (lost, new) = join(
        rt,
        || moved(shared, alloc, step, 2_000),
        || filled(shared, alloc, 1, step, 2_000),
    );
    Some((
        lost,
        new,
        found(shared, 0, step, 2_000),
        found(shared, 1, step, 2_000),
    ))
}

// How far keys lie apart: in leaves side by side, and far from one another.
const APART: [u64; 3] = [0x100, 0x10000000000, 0x0001000200030005];

#[test]
fn an_insertion_beside_removals_is_not_lost(rt: HostRuntime) {
    for step in APART {
        assert!(rt; by_two(&rt, rt.alloc(), step) == Some((0, 2_000, 0, 2_000)));
    }
}
