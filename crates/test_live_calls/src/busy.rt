//! Readers of many keys beside a leaf that stays locked: they are busy where their keys lie there, and nowhere else.

ghost use Rattle.std.specs.Prelude.{◌≡◌};

use crate::calls::{all_hold, put};
use live_growth::held::lock_node;
use live_growth::map::{Busy, Congee, Guard};
use live_reads::descend::descend;
use live_reads::path::words_at;
use live_scans::counts::{count, is_empty};
use live_scans::descents::range_descending;
use live_scans::floors::{floor, last};
use live_scans::scans::{above, ceiling, range, range_inclusive};
use std::alloc::Global;
use std::process::Abort;
use std::test::Fail;

// A key whose leaf is locked, and one far from it, which is above.
const LOW: u64 = 1 << 40;

const HIGH: u64 = 1 << 60;

/// Locks the node at which a key's path ends, for ever. Whether it did.
pub fn is_locked(map: &Congee, key: u64) -> bool {
    let mut seat = map.pin().seat;
    let Some(end) = descend(&map.nodes, key, &mut seat) else {
        return false;
    };
    let name = end.position.name;
    let Some(words) = words_at(&map.nodes, name) else {
        return false;
    };
    lock_node(words, name, end.position.height, key, &mut seat).is_some()
}

// How many pairs a page has between two keys, in both directions.
fn pages(map: &Congee, guard: &mut Guard, low: u64, high: u64) -> [Result<usize, Busy>; 3]
    requires { guard.old.book ≡ map.now }
    ensures { guard.new.book ≡ map.now }
{
    let mut page = [(0u64, 0u64); 4];
    [
        range_inclusive(map, guard, low, high, &mut page),
        range_descending(map, guard, low, high, &mut page),
        range(map, guard, low, high.saturating_add(1), &mut page),
    ]
}

fn read_beside(rt: &impl Abort, map: &Congee, guard: &mut Guard)
    requires { guard.old.book ≡ map.now }
{
    let steps = [
        pages(map, guard, 0, HIGH) == [Err(Busy); 3],
        pages(map, guard, LOW, LOW) == [Err(Busy); 3],
        pages(map, guard, HIGH, HIGH) == [Ok(1); 3],
        ceiling(map, guard, 0) == Err(Busy),
        above(map, guard, 1 << 56) == Ok(Some((HIGH, 2))),
        floor(map, guard, HIGH - 1) == Err(Busy),
        last(map, guard) == Ok(Some((HIGH, 2))),
        count(map, guard) == Err(Busy),
        is_empty(map, guard) == Err(Busy),
    ];
    all_hold(rt, &steps);
}

fn read_locked(rt: &impl Abort, alloc: Global, map: &Congee) {
    let steps = [
        put(map, alloc, LOW, 1).is_ok(),
        put(map, alloc, HIGH, 2).is_ok(),
        pages(map, &mut map.pin(), 0, HIGH) == [Ok(2); 3],
        is_locked(map, LOW),
    ];
    all_hold(rt, &steps);
    read_beside(rt, map, &mut map.pin());
}

#[test]
fn readers_are_busy_at_a_locked_leaf_alone(rt: HostRuntime) -> Result<(), Fail> {
    let map = Congee::new(rt.alloc())?;
    read_locked(&rt, rt.alloc(), &map);
    Ok(())
}
