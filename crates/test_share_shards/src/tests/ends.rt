//! Ends, neighbours and pops, by a table of calls and what they find.

ghost use Rattle.std.specs.Prelude.{◌≡◌};

use share_sharded::sharded::{Congee, Guard, Shards};
use std::sync::Wait;
use std::test::Fail;

#[derive(Clone, Copy)]
enum Call {
    First,
    Last,
    Floor(u64),
    Below(u64),
    Ceiling(u64),
    Above(u64),
    PopFirst,
    PopLast,
}

// The calls on a map of 10, 5000 and the greatest key, which are of three shards, with the values 1, 2 and 3.
const ROWS: [(Call, Option<(u64, u64)>); 22] = [
    (Call::First, Some((10, 1))),
    (Call::Last, Some((u64::MAX, 3))),
    (Call::Floor(9), None),
    (Call::Floor(10), Some((10, 1))),
    (Call::Floor(4999), Some((10, 1))),
    (Call::Floor(u64::MAX), Some((u64::MAX, 3))),
    (Call::Below(10), None),
    (Call::Below(5000), Some((10, 1))),
    (Call::Below(u64::MAX), Some((5000, 2))),
    (Call::Ceiling(0), Some((10, 1))),
    (Call::Ceiling(5000), Some((5000, 2))),
    (Call::Ceiling(5001), Some((u64::MAX, 3))),
    (Call::Above(5000), Some((u64::MAX, 3))),
    (Call::Above(u64::MAX), None),
    (Call::PopFirst, Some((10, 1))),
    (Call::First, Some((5000, 2))),
    (Call::PopLast, Some((u64::MAX, 3))),
    (Call::Last, Some((5000, 2))),
    (Call::PopFirst, Some((5000, 2))),
    (Call::PopFirst, None),
    (Call::PopLast, None),
    (Call::First, None),
];

type Map = Congee<u64, u64>;

// What the call finds, or `None` where it isn't made.
fn tried(map: &Map, guard: &mut Guard, call: Call) -> Option<Option<(u64, u64)>>
    requires { guard.old.table ≡ map.now.table }
    ensures { guard.new.table ≡ guard.old.table }
{
    match call {
        Call::First => map.try_first(guard).ok(),
        Call::Last => map.try_last(guard).ok(),
        Call::Floor(key) => map.try_floor(guard, &key).ok(),
        Call::Below(key) => map.try_below(guard, &key).ok(),
        Call::Ceiling(key) => map.try_ceiling(guard, &key).ok(),
        Call::Above(key) => map.try_above(guard, &key).ok(),
        Call::PopFirst => map.try_pop_first(guard).ok(),
        Call::PopLast => map.try_pop_last(guard).ok(),
    }
}

// What the call finds, by the form that waits.
fn found<R: Wait>(rt: &R, map: &Map, guard: &mut Guard, call: Call) -> Option<(u64, u64)>
    requires { guard.old.table ≡ map.now.table }
    ensures { guard.new.table ≡ guard.old.table }
{
    match call {
        Call::First => map.first(rt, guard),
        Call::Last => map.last(rt, guard),
        Call::Floor(key) => map.floor(rt, guard, &key),
        Call::Below(key) => map.below(rt, guard, &key),
        Call::Ceiling(key) => map.ceiling(rt, guard, &key),
        Call::Above(key) => map.above(rt, guard, &key),
        Call::PopFirst => map.pop_first(rt, guard),
        Call::PopLast => map.pop_last(rt, guard),
    }
}

// By one of the two forms.
fn by_form<R: Wait>(
    rt: &R,
    map: &Map,
    guard: &mut Guard,
    call: Call,
    tries: bool,
) -> Option<Option<(u64, u64)>>
    requires { guard.old.table ≡ map.now.table }
    ensures { guard.new.table ≡ guard.old.table }
{
    if tries {
        tried(map, guard, call)
    } else {
        Some(found(rt, map, guard, call))
    }
}

// The number of the rows before the first wrong one.
fn right_rows<R: Wait>(rt: &R, map: &Map, guard: &mut Guard, tries: bool) -> usize
    requires { guard.old.table ≡ map.now.table }
{
    let mut right = 0;
    for (call, expected) in ROWS {
        if by_form(rt, map, guard, call, tries) != Some(expected) {
            return right;
        }
        right = right.saturating_add(1);
    }
    right
}

// Whether these pairs are new.
fn filled(map: &Map, guard: &mut Guard) -> bool
    requires { guard.old.table ≡ map.now.table }
    ensures { guard.new.table ≡ guard.old.table }
{
    let mut all = true;
    for (key, value) in [(5000, 2), (u64::MAX, 3), (10, 1)] {
        all = all && map.try_insert(guard, key, value) == Ok(None);
    }
    all
}

#[test]
fn ends_neighbours_and_pops(rt: HostRuntime) -> Result<(), Fail> {
    for (shards, tries) in [
        (Shards::One, true),
        (Shards::One, false),
        (Shards::SixtyFour, true),
        (Shards::SixtyFour, false),
    ] {
        let map: Map = Congee::new(rt.alloc(), shards, u64::MAX)?;
        let mut guard = map.pin()?;
        assert!(rt; filled(&map, &mut guard));
        assert!(rt; right_rows(&rt, &map, &mut guard, tries) == ROWS.len());
    }
    Ok(())
}
