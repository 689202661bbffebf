//! Nodes that are used again.

ghost use Rattle.std.specs.Prelude.{◌≡◌};

use crate::calls::{all_hold, get, insert};
use live_growth::map::{Congee, Guard};
use std::alloc::Global;
use std::process::Abort;
use std::test::Fail;

// Inserts so many keys, one after another, each with a value of its own. Returns whether all were new.
fn all_new(map: &Congee, alloc: Global, guard: &mut Guard, first: u64, count: u32) -> bool
    requires { guard.old.book ≡ map.now }
    ensures { guard.new.book ≡ map.now }
{
    let mut key = first;
    for _ in 0..count {
        let mut new = false;
        if let Ok(before) = map.insert(&alloc, guard, key, key ^ 1) {
            new = before.is_none();
        }
        if !new {
            return false;
        }
        key = key.wrapping_add(1);
    }
    true
}

// Whether so many keys have those values.
fn all_found(map: &Congee, guard: &mut Guard, first: u64, count: u32) -> bool
    requires { guard.old.book ≡ map.now }
    ensures { guard.new.book ≡ map.now }
{
    let mut key = first;
    for _ in 0..count {
        let mut found = false;
        if let Ok(Some(value)) = map.get(guard, key) {
            found = value == key ^ 1;
        }
        if !found {
            return false;
        }
        key = key.wrapping_add(1);
    }
    true
}

// A leaf grows twice and leaves two nodes behind. The next leaf is one of them, and grows into the other one.
fn grow_into_left_nodes(rt: &impl Abort, alloc: Global, map: &Congee, guard: &mut Guard)
    requires { guard.old.book ≡ map.now }
{
    let new = all_new(map, alloc, guard, 0, 17);
    let start = guard.room.start;
    let steps = [
        new,
        all_new(map, alloc, guard, 1 << 56, 16),
        guard.room.start == start,
        all_new(map, alloc, guard, 2 << 56, 4),
        guard.room.start == start,
        all_new(map, alloc, guard, 3 << 56, 1),
        guard.room.start.wrapping_sub(start) == 7,
        all_found(map, guard, 0, 17),
        all_found(map, guard, 1 << 56, 16),
        all_found(map, guard, 2 << 56, 4),
    ];
    all_hold(rt, &steps);
}

#[test]
fn a_node_that_outgrew_its_form_is_the_next_of_that_form(rt: HostRuntime) -> Result<(), Fail> {
    let map = Congee::new(rt.alloc())?;
    grow_into_left_nodes(&rt, rt.alloc(), &map, &mut map.pin());
    Ok(())
}

// A node comes above another one where paths part. It is one that outgrew its form.
fn split_by_a_left_node(rt: &impl Abort, alloc: Global, map: &Congee, guard: &mut Guard)
    requires { guard.old.book ≡ map.now }
{
    let first = all_new(map, alloc, guard, 1 << 56, 1);
    let grown = all_new(map, alloc, guard, 0, 5);
    let start = guard.room.start;
    let spare = guard.room.spare.n4;
    let steps = [
        first,
        grown,
        spare != 0,
        all_new(map, alloc, guard, (1 << 56) + (1 << 24), 1),
        guard.room.start.wrapping_sub(start) == 7,
        guard.room.spare.n4 == 0,
        all_found(map, guard, 1 << 56, 1),
        all_found(map, guard, (1 << 56) + (1 << 24), 1),
        all_found(map, guard, 0, 5),
    ];
    all_hold(rt, &steps);
}

#[test]
fn a_split_takes_a_node_that_outgrew_its_form(rt: HostRuntime) -> Result<(), Fail> {
    let map = Congee::new(rt.alloc())?;
    split_by_a_left_node(&rt, rt.alloc(), &map, &mut map.pin());
    Ok(())
}

// Another guard has met the node before, and finds there what it has now. It writes there too.
fn read_it_again(
    rt: &impl Abort,
    alloc: Global,
    map: &Congee,
    writer: &mut Guard,
    reader: &mut Guard,
)
    requires writer { writer.old.book ≡ map.now }
    requires reader { reader.old.book ≡ map.now }
{
    let steps = [
        all_new(map, alloc, writer, 0, 4),
        all_found(map, reader, 0, 4),
        all_new(map, alloc, writer, 4, 1),
        all_new(map, alloc, writer, 1 << 56, 2),
        all_found(map, reader, 0, 5),
        all_found(map, reader, 1 << 56, 2),
        get(map, reader, (1 << 56) + 3) == Ok(None),
        all_new(map, alloc, reader, (1 << 56) + 2, 2),
        all_found(map, writer, 1 << 56, 4),
    ];
    all_hold(rt, &steps);
}

#[test]
fn a_node_that_is_used_again_is_read_as_what_it_is_now(rt: HostRuntime) -> Result<(), Fail> {
    let map = Congee::new(rt.alloc())?;
    read_it_again(&rt, rt.alloc(), &map, &mut map.pin(), &mut map.pin());
    Ok(())
}

// A guard's last leaf is below a node that another guard has replaced since, by a larger one. Then the leaf is full.
fn grow_below_another(
    rt: &impl Abort,
    alloc: Global,
    map: &Congee,
    first: &mut Guard,
    other: &mut Guard,
)
    requires first { first.old.book ≡ map.now }
    requires other { other.old.book ≡ map.now }
{
    let steps = [
        insert(map, alloc, other, 1 << 40, 1) == Ok(None),
        insert(map, alloc, other, 256, 1) == Ok(None),
        all_new(map, alloc, first, 0, 4),
        insert(map, alloc, other, 512, 1) == Ok(None),
        insert(map, alloc, other, 768, 1) == Ok(None),
        insert(map, alloc, other, 1024, 1) == Ok(None),
        all_new(map, alloc, first, 4, 1),
        all_found(map, other, 0, 5),
    ];
    all_hold(rt, &steps);
}

#[test]
fn a_leaf_grows_below_a_node_that_another_guard_has_replaced(rt: HostRuntime) -> Result<(), Fail> {
    let map = Congee::new(rt.alloc())?;
    grow_below_another(&rt, rt.alloc(), &map, &mut map.pin(), &mut map.pin());
    Ok(())
}
