//! Ranges, counts, what is charged, and the removal of all pairs.

ghost use Rattle.std.specs.Prelude.{◌≡◌};

use share_sharded::sharded::{Congee, Guard, Shards};
use std::sync::Wait;
use std::test::Fail;

type Map = Congee<u64, u64>;

#[derive(Clone, Copy)]
enum Call {
    Range(u64, u64),
    Inclusive(u64, u64),
    Descending(u64, u64),
}

// What a buffer of three has after a call, where it has this pair in each place before, and how many pairs are written.
type Page = (usize, [(u64, u64); 3]);

const NO: (u64, u64) = (9, 9);

// The calls on a map of 10, 300, 5000 and the greatest key, whose values are 1 to 4.
const ROWS: [(Call, Page); 9] = [
    (Call::Range(0, 10), (0, [NO, NO, NO])),
    (Call::Range(10, 5000), (2, [(10, 1), (300, 2), NO])),
    (
        Call::Range(0, u64::MAX),
        (3, [(10, 1), (300, 2), (5000, 3)]),
    ),
    (Call::Inclusive(10, 300), (2, [(10, 1), (300, 2), NO])),
    (
        Call::Inclusive(301, u64::MAX),
        (2, [(5000, 3), (u64::MAX, 4), NO]),
    ),
    (Call::Inclusive(301, 300), (0, [NO, NO, NO])),
    (
        Call::Descending(0, u64::MAX),
        (3, [(u64::MAX, 4), (5000, 3), (300, 2)]),
    ),
    (Call::Descending(11, 5000), (2, [(5000, 3), (300, 2), NO])),
    (Call::Descending(11, 299), (0, [NO, NO, NO])),
];

// The page of a call, or `None` where it isn't made.
fn tried(map: &Map, guard: &mut Guard, call: Call) -> Option<Page>
    requires { guard.old.table ≡ map.now.table }
    ensures { guard.new.table ≡ guard.old.table }
{
    let mut page = [NO; 3];
    let written = match call {
        Call::Range(start, end) => map.try_range(guard, &start, &end, &mut page),
        Call::Inclusive(start, last) => map.try_range_inclusive(guard, &start, &last, &mut page),
        Call::Descending(start, last) => map.try_range_descending(guard, &start, &last, &mut page),
    };
    Some((written.ok()?, page))
}

// The page of a call, by the form that waits.
fn listed<R: Wait>(rt: &R, map: &Map, guard: &mut Guard, call: Call) -> Page
    requires { guard.old.table ≡ map.now.table }
    ensures { guard.new.table ≡ guard.old.table }
{
    let mut page = [NO; 3];
    let written = match call {
        Call::Range(start, end) => map.range(rt, guard, &start, &end, &mut page),
        Call::Inclusive(start, last) => map.range_inclusive(rt, guard, &start, &last, &mut page),
        Call::Descending(start, last) => map.range_descending(rt, guard, &start, &last, &mut page),
    };
    (written, page)
}

// By one of the two forms.
fn by_form<R: Wait>(rt: &R, map: &Map, guard: &mut Guard, call: Call, tries: bool) -> Option<Page>
    requires { guard.old.table ≡ map.now.table }
    ensures { guard.new.table ≡ guard.old.table }
{
    if tries {
        tried(map, guard, call)
    } else {
        Some(listed(rt, map, guard, call))
    }
}

// The number of the rows before the first wrong one.
fn right_rows<R: Wait>(rt: &R, map: &Map, guard: &mut Guard, tries: bool) -> usize
    requires { guard.old.table ≡ map.now.table }
    ensures { guard.new.table ≡ guard.old.table }
{
    let mut right = 0;
    for (call, expected) in ROWS {
        if by_form(rt, map, guard, call, tries) != Some(expected) {
            return right;
        }
        right = right.saturating_add(1);
    }
    right
}

// Whether these pairs are new.
fn filled(map: &Map, guard: &mut Guard) -> bool
    requires { guard.old.table ≡ map.now.table }
    ensures { guard.new.table ≡ guard.old.table }
{
    let mut all = true;
    for (key, value) in [(5000, 3), (u64::MAX, 4), (10, 1), (300, 2)] {
        all = all && map.try_insert(guard, key, value) == Ok(None);
    }
    all
}

#[test]
fn ranges_both_ways(rt: HostRuntime) -> Result<(), Fail> {
    for (shards, tries) in [
        (Shards::One, true),
        (Shards::One, false),
        (Shards::SixtyFour, true),
        (Shards::SixtyFour, false),
    ] {
        let map: Map = Congee::new(rt.alloc(), shards, u64::MAX)?;
        let mut guard = map.pin()?;
        assert!(rt; filled(&map, &mut guard));
        assert!(rt; right_rows(&rt, &map, &mut guard, tries) == ROWS.len());
    }
    Ok(())
}

// How many pairs there are, whether there is none, and the bytes charged.
fn counted(map: &Map, guard: &mut Guard) -> Option<(u128, bool, u128)>
    requires { guard.old.table ≡ map.now.table }
    ensures { guard.new.table ≡ guard.old.table }
{
    let count = map.try_value_count(guard).ok()?;
    let empty = map.try_is_empty(guard).ok()?;
    Some((count, empty, map.try_charged(guard).ok()?))
}

// How many pairs there are, whether there is none, and the bytes charged, by the forms that wait.
fn counts<R: Wait>(rt: &R, map: &Map, guard: &mut Guard) -> (u128, bool, u128)
    requires { guard.old.table ≡ map.now.table }
    ensures { guard.new.table ≡ guard.old.table }
{
    let count = map.value_count(rt, guard);
    let empty = map.is_empty(rt, guard);
    (count, empty, map.charged(rt, guard))
}

// Whether a new map is charged for its roots alone, 2,104 bytes each. Whether four pairs are counted and cleared. Whether
// they are once more, by the other form.
fn cleared<R: Wait>(rt: &R, map: &Map, guard: &mut Guard, roots: u128) -> (bool, bool, bool)
    requires { guard.old.table ≡ map.now.table }
    ensures { guard.new.table ≡ guard.old.table }
{
    let empty = (0, true, roots);
    let new = counted(map, guard) == Some(empty) && counts(rt, map, guard) == empty;
    let four = filled(map, guard) && counts(rt, map, guard).0 == 4 && !map.is_empty(rt, guard);
    let tried = map.try_clear(guard) == Ok(()) && counts(rt, map, guard) == empty;
    let again = filled(map, guard);
    map.clear(rt, guard);
    (
        new,
        four && tried,
        again && counted(map, guard) == Some(empty),
    )
}

#[test]
fn counts_charges_and_removals_of_all(rt: HostRuntime) -> Result<(), Fail> {
    for (shards, roots) in [(Shards::One, 2104), (Shards::SixtyFour, 64 * 2104)] {
        let map: Map = Congee::new(rt.alloc(), shards, u64::MAX)?;
        let mut guard = map.pin()?;
        assert!(rt; cleared(&rt, &map, &mut guard, roots) == (true, true, true));
    }
    Ok(())
}
