//! Guards that meet, and one that learns what another has noted.

ghost use Rattle.std.specs.Prelude.{◌≡◌, ◌+◌, ◌^◌};

use congee::{DefaultAllocator, locked, shared};
use share_backend::snapshots::{Owners, Pages};
use share_faces::congee_arc::{CongeeArc, OwnerGuard};
use share_faces::typed_congee::{Congee, Guard};
use std::alloc::Global;
use std::marker::Brand;
use std::sync::ledger::{Blank, Ledger};
use std::sync::{Arc, Wait};
use std::test::Fail;

// What a finds at 2 and b removes at 1 once they have met, what a finds at 1 then, and what c finds at 2, which has learnt
// what b noted.
const FOUND: [Option<u64>; 4] = [Some(20), Some(10), None, Some(20)];

fn by_three<L: Ledger, M: Pages, R: Wait>(
    rt: &R,
    map: &Congee<L, u64, u64, M>,
    a: &mut Guard<'_, L, M>,
    b: &mut Guard<'_, L, M>,
    c: &mut Guard<'_, L, M>,
    by_events: bool,
) -> [Option<u64>; 4]
    requires a { a.old.table ≡ map.now }
    requires b { b.old.table ≡ map.now }
    requires c { c.old.table ≡ map.now }
{
    if by_events {
        shared::meet(a, b);
    } else {
        locked::meet(a, b);
    }
    let found = map.get(rt, a, &2);
    let removed = map.remove(rt, b, &1);
    c.learn(&mut b.note());
    [found, removed, map.get(rt, a, &1), map.get(rt, c, &2)]
}

// What they find, where a has stored 10 at 1 and b 20 at 2.
fn of_numbers<L: Ledger, M: Pages, R: Wait>(
    rt: &R,
    map: &Congee<L, u64, u64, M>,
    by_events: bool,
) -> Result<[Option<u64>; 4], Fail> {
    let mut a = map.pin(rt)?;
    let mut b = map.pin(rt)?;
    map.insert(rt, &mut a, 1, 10)?;
    map.insert(rt, &mut b, 2, 20)?;
    let mut c = map.pin_waiting(rt)?;
    Ok(by_three(rt, map, &mut a, &mut b, &mut c, by_events))
}

fn numbers_over_events<L: Ledger, R: Wait>(
    rt: &R,
    alloc: Global,
    blank: Blank,
) -> Result<[Option<u64>; 4], Fail>
    requires name { blank.name ≡ L.name }
    requires parts { blank.parts ≡ L.parts }
    requires whole { L.parts ≡ 2 ^ 63 + 1 }
{
    let (map, _) = shared::Congee::<L, u64, u64>::new(alloc, blank, DefaultAllocator {})?;
    of_numbers(rt, &map, true)
}

fn numbers_over_tree<L: Ledger, R: Wait>(
    rt: &R,
    alloc: Global,
    blank: Blank,
) -> Result<[Option<u64>; 4], Fail>
    requires name { blank.name ≡ L.name }
    requires parts { blank.parts ≡ L.parts }
    requires whole { L.parts ≡ 2 ^ 63 + 1 }
{
    let (map, _) = locked::Congee::<L, u64, u64>::new(alloc, blank, DefaultAllocator {})?;
    of_numbers(rt, &map, false)
}

#[test]
fn guards_of_numbers_meet(rt: HostRuntime) -> Result<(), Fail> {
    let events = numbers_over_events::<Brand, _>(&rt, rt.alloc(), Blank::new((1 << 63) + 1))?;
    assert!(rt; events == FOUND);
    let tree = numbers_over_tree::<Brand, _>(&rt, rt.alloc(), Blank::new((1 << 63) + 1))?;
    assert!(rt; tree == FOUND);
    Ok(())
}

// The value that an owner has.
fn value_of(owner: Option<Arc<u64>>) -> Option<u64> {
    match owner {
        Some(owner) => Some(*owner),
        None => None,
    }
}

fn owners_by_three<L: Ledger, M: Owners<u64>, R: Wait>(
    rt: &R,
    map: &CongeeArc<L, u64, u64, M>,
    a: &mut OwnerGuard<'_, L, u64, M>,
    b: &mut OwnerGuard<'_, L, u64, M>,
    c: &mut OwnerGuard<'_, L, u64, M>,
    by_events: bool,
) -> Result<[Option<u64>; 4], Fail>
    requires a { a.old.table ≡ map.now }
    requires b { b.old.table ≡ map.now }
    requires c { c.old.table ≡ map.now }
{
    if by_events {
        shared::meet_owners(a, b);
    } else {
        locked::meet_owners(a, b);
    }
    let found = map.get(rt, a, 2)?;
    let removed = map.remove(rt, b, 1);
    c.learn(&mut b.note());
    let gone = map.get(rt, a, 1)?;
    let learnt = map.get(rt, c, 2)?;
    Ok([
        value_of(found),
        value_of(removed),
        value_of(gone),
        value_of(learnt),
    ])
}

fn store<L: Ledger, M: Owners<u64>, R: Wait>(
    rt: &R,
    alloc: Global,
    map: &CongeeArc<L, u64, u64, M>,
    guard: &mut OwnerGuard<'_, L, u64, M>,
    key: u64,
    value: u64,
) -> Result<(), Fail>
    requires { guard.old.table ≡ map.now }
    ensures { guard.new.table ≡ guard.old.table }
{
    map.insert(rt, guard, key, Arc::new(alloc, value)?)?;
    Ok(())
}

fn of_owners<L: Ledger, M: Owners<u64>, R: Wait>(
    rt: &R,
    alloc: Global,
    map: &CongeeArc<L, u64, u64, M>,
    by_events: bool,
) -> Result<[Option<u64>; 4], Fail> {
    let mut a = map.pin_waiting(rt)?;
    let mut b = map.pin(rt)?;
    store(rt, alloc, map, &mut a, 1, 10)?;
    store(rt, alloc, map, &mut b, 2, 20)?;
    let mut c = map.pin(rt)?;
    owners_by_three(rt, map, &mut a, &mut b, &mut c, by_events)
}

fn owners_over_events<L: Ledger, R: Wait>(
    rt: &R,
    alloc: Global,
    blank: Blank,
) -> Result<[Option<u64>; 4], Fail>
    requires name { blank.name ≡ L.name }
    requires parts { blank.parts ≡ L.parts }
    requires whole { L.parts ≡ 2 ^ 63 + 1 }
{
    let (map, _) = shared::CongeeArc::<L, u64, u64>::new(alloc, blank)?;
    of_owners(rt, alloc, &map, true)
}

fn owners_over_tree<L: Ledger, R: Wait>(
    rt: &R,
    alloc: Global,
    blank: Blank,
) -> Result<[Option<u64>; 4], Fail>
    requires name { blank.name ≡ L.name }
    requires parts { blank.parts ≡ L.parts }
    requires whole { L.parts ≡ 2 ^ 63 + 1 }
{
    let (map, _) = locked::CongeeArc::<L, u64, u64>::new(alloc, blank)?;
    of_owners(rt, alloc, &map, false)
}

#[test]
fn guards_of_owners_meet(rt: HostRuntime) -> Result<(), Fail> {
    let events = owners_over_events::<Brand, _>(&rt, rt.alloc(), Blank::new((1 << 63) + 1))?;
    assert!(rt; events == FOUND);
    let tree = owners_over_tree::<Brand, _>(&rt, rt.alloc(), Blank::new((1 << 63) + 1))?;
    assert!(rt; tree == FOUND);
    Ok(())
}
