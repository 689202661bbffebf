//! What lies under the lock answers otherwise once, at each of its events: no answer is made up, and each call ends.

ghost use Rattle.std.specs.Prelude.{◌≡◌, ◌+◌, ◌^◌};

use crate::tests::faulty::{Fault, Faulty, Plan};
use node_table::allocator::DefaultAllocator;
use share_backend::snapshots::{Made, Pages};
use share_faces::typed_congee::{Congee, Guard};
use share_machine::events::Events;
use share_state::share::Share;
use share_tree::direct::Direct;
use spec_map::error::OOMError;
use std::alloc::Global;
use std::marker::Brand;
use std::sync::Wait;
use std::sync::ledger::{Blank, Ledger};
use std::test::Fail;

type Machine = Faulty<Events<u64, DefaultAllocator>>;

type Tree = Faulty<Direct<u64, DefaultAllocator>>;

type Map<L, M> = Congee<L, u64, u64, M>;

// A faulty map makes this many events at most in a run without a fault, with the machine and with the tree below it.
const MACHINE_EVENTS: u64 = 400;

const TREE_EVENTS: u64 = 100;

// What an insertion replaced, and how often it was refused before that.
type Inserted = (Option<u64>, u64);

// A counted insertion, which is made again where it is refused.
fn insert<L: Ledger, M: Pages, R: Wait>(
    rt: &R,
    map: &Map<L, M>,
    guard: &mut Guard<'_, L, M>,
    share: &mut Share<L>,
    key: u64,
    value: u64,
) -> Result<Inserted, OOMError>
    requires { guard.old.table ≡ map.now }
    ensures { guard.new.table ≡ guard.old.table }
{
    match map.insert_counted(rt, guard, share, key, value) {
        Ok(before) => Ok((before, 0)),
        Err(_) => Ok((map.insert_counted(rt, guard, share, key, value)?, 1)),
    }
}

// Adds to a value; an absent one counts as 0.
fn add<L: Ledger, M: Pages, R: Wait>(
    rt: &R,
    map: &Map<L, M>,
    guard: &mut Guard<'_, L, M>,
    key: u64,
    more: u64,
) -> Result<Inserted, OOMError>
    requires { guard.old.table ≡ map.now }
    ensures { guard.new.table ≡ guard.old.table }
{
    let mut sum = |old: Option<u64>| -> u64 { old.unwrap_or(0).wrapping_add(more) };
    match map.compute_or_insert(rt, guard, key, &mut sum) {
        Ok(before) => Ok((before, 0)),
        Err(_) => Ok((map.compute_or_insert(rt, guard, key, &mut sum)?, 1)),
    }
}

// Four calls that can be refused: the values that they replaced, and how many were refused.
fn stores<L: Ledger, M: Pages, R: Wait>(
    rt: &R,
    map: &Map<L, M>,
    guard: &mut Guard<'_, L, M>,
    share: &mut Share<L>,
) -> Result<([Option<u64>; 4], u64), OOMError>
    requires { guard.old.table ≡ map.now }
    ensures { guard.new.table ≡ guard.old.table }
{
    let (a, once) = insert(rt, map, guard, share, 1, 10)?;
    let (b, twice) = insert(rt, map, guard, share, 256, 20)?;
    let (c, thrice) = add(rt, map, guard, 2, 5)?;
    let (d, again) = add(rt, map, guard, 1, 101)?;
    let refused = once
        .wrapping_add(twice)
        .wrapping_add(thrice)
        .wrapping_add(again);
    Ok(([a, b, c, d], refused))
}

// Calls that can't be refused, and change the values of 1, 2 and 256, which were 111, 5 and 20, to 7 and none.
fn change_well<L: Ledger, M: Pages, R: Wait>(
    rt: &R,
    map: &Map<L, M>,
    guard: &mut Guard<'_, L, M>,
    share: &mut Share<L>,
) -> bool
    requires { guard.old.table ≡ map.now }
    ensures { guard.new.table ≡ guard.old.table }
{
    let mut half = |old: u64| -> Option<u64> { Some(old / 2) };
    let mut none = |_old: u64| -> Option<u64> { None };
    map.get(rt, guard, &1) == Some(111)
        && map.compute_if_present(rt, guard, &256, &mut half) == Some((20, Some(10)))
        && map.compare_exchange(rt, guard, &1, &111, Some(7)) == Ok(Some(7))
        && map.compare_exchange(rt, guard, &1, &111, None) == Err(Some(7))
        && map.remove_counted(rt, guard, share, &256) == Some(10)
        && map.compute_if_present(rt, guard, &2, &mut none) == Some((5, None))
        && map.compute_if_present(rt, guard, &2, &mut half) == None
        && map.remove(rt, guard, &256) == None
}

// Whether a range, the keys and the counts have the pair (1, 7) alone.
fn has_one_pair<L: Ledger, M: Pages, R: Wait>(
    rt: &R,
    map: &Map<L, M>,
    guard: &mut Guard<'_, L, M>,
    alloc: Global,
) -> Result<bool, OOMError>
    requires { guard.old.table ≡ map.now }
    ensures { guard.new.table ≡ guard.old.table }
{
    let mut buffer = [(0, 0); 4];
    let found = map.range(rt, guard, &0, &1000, &mut buffer);
    let keys = map.keys(rt, alloc)?;
    Ok(
        found == 1
            && buffer[0] == (1, 7)
            && buffer[1] == (0, 0)
            && keys.len() == 1
            && keys[0] == 1
            && map.value_count(rt) == 1
            && map.stats(rt)?.kv_pairs == 1,
    )
}

// How many calls were refused in a run of all of them; `None` if another answer is wrong.
fn run<L: Ledger, M: Pages, R: Wait>(
    rt: &R,
    map: &Map<L, M>,
    share: &mut Share<L>,
    alloc: Global,
) -> Result<Option<u64>, Fail> {
    let mut guard = map.pin(rt)?;
    let (replaced, refused) = stores(rt, map, &mut guard, share)?;
    if replaced != [None, None, None, Some(10)] {
        return Ok(None);
    }
    let changes = change_well(rt, map, &mut guard, share);
    let one = has_one_pair(rt, map, &mut guard, alloc)?;
    map.unpin(rt, guard);
    Ok(if changes && one { Some(refused) } else { None })
}

// How many calls were refused in a run of all of them on a map with this plan. `None` if another answer is wrong, or if
// the share doesn't settle at one pair.
fn run_with<L: Ledger, M: Pages + Made<u64, u64, (DefaultAllocator, Plan)>, R: Wait>(
    rt: &R,
    alloc: Global,
    blank: Blank,
    plan: Plan,
) -> Result<Option<u64>, Fail>
    requires name { blank.name ≡ L.name }
    requires parts { blank.parts ≡ L.parts }
    requires whole { L.parts ≡ 2 ^ 63 + 1 }
{
    let (map, mut share) = Map::<L, M>::new(alloc, blank, (DefaultAllocator {}, plan))?;
    let refused = run(rt, &map, &mut share, alloc)?;
    match map.settle(rt, share) {
        Ok(1) => Ok(refused),
        _ => Ok(None),
    }
}

// Each fault, and how many calls are refused by it if it comes at each event in turn: each of the four that can be has
// one first event, and one after that.
const FAULTS: [(Fault, u64); 6] = [
    (Fault::NoStart, 4),
    (Fault::Stalls, 0),
    (Fault::Forgets, 0),
    (Fault::Refuses, 4),
    (Fault::Asks, 0),
    (Fault::AsksAndForgets, 0),
];

// How many calls were refused in all runs, the fault coming at each event in turn; `None` if one has a wrong answer.
fn refused_by<M: Pages + Made<u64, u64, (DefaultAllocator, Plan)>, R: Wait>(
    rt: &R,
    alloc: Global,
    fault: Fault,
    events: u64,
) -> Result<Option<u64>, Fail> {
    let mut all = 0u64;
    for at in 0..events {
        let plan = Plan { fault, at };
        match run_with::<Brand, M, R>(rt, alloc, Blank::new((1 << 63) + 1), plan)? {
            Some(refused) => all = all.wrapping_add(refused),
            None => return Ok(None),
        }
    }
    Ok(Some(all))
}

#[test]
fn the_machine_answers_otherwise_once(rt: HostRuntime) -> Result<(), Fail> {
    for (fault, refused) in FAULTS {
        let found = refused_by::<Machine, _>(&rt, rt.alloc(), fault, MACHINE_EVENTS)?;
        assert!(rt; found == Some(refused), "{fault:?} {found:?}");
    }
    Ok(())
}

#[test]
fn the_tree_answers_otherwise_once(rt: HostRuntime) -> Result<(), Fail> {
    for (fault, refused) in FAULTS {
        let found = refused_by::<Tree, _>(&rt, rt.alloc(), fault, TREE_EVENTS)?;
        assert!(rt; found == Some(refused), "{fault:?} {found:?}");
    }
    Ok(())
}
