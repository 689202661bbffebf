//! One thread: each call by hand values, and each owner comes back.
ghost use Rattle.live_payloads.specs.Payloads.{IsGuardOf};

use super::{Guard, Inserted, Map, get, insert, remove};
use live_payloads::live::{Lent, meet};
use std::alloc::Global;
use std::sync::{Arc, Wait};
use std::test::Fail;

// Two keys with owners of one number and of another. Whether each call returned what it should.
fn came_and_went<R: Wait>(
    rt: &R,
    alloc: Global,
    map: &Map,
    guard: &mut Guard,
    seven: &Arc<u64>,
    eight: &Arc<u64>,
) -> bool
    requires { IsGuardOf map.now guard.old }
    ensures { IsGuardOf map.now guard.new }
{
    let new = insert(rt, alloc, map, guard, 1, seven) == Inserted::New;
    let other = insert(rt, alloc, map, guard, 300, seven) == Inserted::New;
    let found = get(rt, map, guard, 1) == Some(7);
    let replaced = insert(rt, alloc, map, guard, 1, eight) == Inserted::Replaced(7);
    let counts = Arc::strong_count(seven) == 2 && Arc::strong_count(eight) == 2;
    let now = get(rt, map, guard, 1) == Some(8) && get(rt, map, guard, 300) == Some(7);
    let removed = remove(rt, map, guard, 1) == Some(8);
    let absent = get(rt, map, guard, 1).is_none() && remove(rt, map, guard, 1).is_none();
    new && other && found && replaced && counts && now && removed && absent
}

#[test]
fn payloads_come_and_go(rt: HostRuntime) -> Result<(), Fail> {
    let map: Map = Map::new(rt.alloc())?;
    let mut guard = map.pin();
    let seven = Arc::new(rt.alloc(), 7u64)?;
    let eight = Arc::new(rt.alloc(), 8u64)?;
    assert!(rt; came_and_went(&rt, rt.alloc(), &map, &mut guard, &seven, &eight));
    assert!(rt; Arc::strong_count(&seven) == 2 && Arc::strong_count(&eight) == 1);
    map.unpin(guard);
    drop(map);
    assert!(rt; Arc::strong_count(&seven) == 1);
    Ok(())
}

// The number of what is lent.
fn number_of(lent: Option<Lent<'_, Arc<u64>>>) -> Option<u64> {
    let lent = lent?;
    Some(**lent.get())
}

// Inserts an owner by a call that gives up: the number before, or that it was refused.
fn tried_insert<R: Wait>(
    rt: &R,
    alloc: Global,
    map: &Map,
    guard: &mut Guard,
    owner: &Arc<u64>,
) -> Inserted
    requires { IsGuardOf map.now guard.old }
    ensures { IsGuardOf map.now guard.new }
{
    let Ok(one) = Arc::try_clone(owner) else {
        return Inserted::Refused;
    };
    let Ok(before) = map.try_insert(rt, alloc, guard, 5, one) else {
        return Inserted::Refused;
    };
    match number_of(before) {
        Some(number) => Inserted::Replaced(number),
        None => Inserted::New,
    }
}

// The number of the key's owner by a call that gives up, or 0 where it was busy.
fn tried_get(map: &Map, guard: &mut Guard) -> Option<u64>
    requires { IsGuardOf map.now guard.old }
    ensures { IsGuardOf map.now guard.new }
{
    let Ok(found) = map.try_get(guard, &5) else {
        return Some(0);
    };
    number_of(found)
}

// Removes the key by a call that gives up: the number before, or 0 where it was busy.
fn tried_remove<R: Wait>(rt: &R, map: &Map, guard: &mut Guard) -> Option<u64>
    requires { IsGuardOf map.now guard.old }
    ensures { IsGuardOf map.now guard.new }
{
    let Ok(before) = map.try_remove(rt, guard, &5) else {
        return Some(0);
    };
    number_of(before)
}

// Calls that give up, where no other thread writes.
fn tried<R: Wait>(
    rt: &R,
    alloc: Global,
    map: &Map,
    guard: &mut Guard,
    seven: &Arc<u64>,
    eight: &Arc<u64>,
) -> bool
    requires { IsGuardOf map.now guard.old }
    ensures { IsGuardOf map.now guard.new }
{
    let none = tried_get(map, guard).is_none();
    let new = tried_insert(rt, alloc, map, guard, seven) == Inserted::New;
    let found = tried_get(map, guard) == Some(7);
    let replaced = tried_insert(rt, alloc, map, guard, eight) == Inserted::Replaced(7);
    let removed = tried_remove(rt, map, guard) == Some(8);
    let absent = tried_remove(rt, map, guard).is_none();
    none && new && found && replaced && removed && absent
}

#[test]
fn calls_that_give_up_return_the_same(rt: HostRuntime) -> Result<(), Fail> {
    let map: Map = Map::new(rt.alloc())?;
    let mut guard = map.pin();
    let seven = Arc::new(rt.alloc(), 7u64)?;
    let eight = Arc::new(rt.alloc(), 8u64)?;
    assert!(rt; tried(&rt, rt.alloc(), &map, &mut guard, &seven, &eight));
    assert!(rt; Arc::strong_count(&seven) == 1 && Arc::strong_count(&eight) == 1);
    map.unpin(guard);
    Ok(())
}

// A payload is lent while its key is removed and gets another one.
fn outlives<R: Wait>(
    rt: &R,
    alloc: Global,
    map: &Map,
    guard: &mut Guard,
    seven: &Arc<u64>,
    eight: &Arc<u64>,
) -> bool
    requires { IsGuardOf map.now guard.old }
    ensures { IsGuardOf map.now guard.new }
{
    let Some(lent) = map.get(rt, guard, &9) else {
        return false;
    };
    let removed = remove(rt, map, guard, 9) == Some(7);
    let new = insert(rt, alloc, map, guard, 9, eight) == Inserted::New;
    let now = get(rt, map, guard, 9) == Some(8);
    removed && new && now && **lent.get() == 7 && Arc::strong_count(seven) == 2
}

#[test]
fn a_lent_payload_outlives_its_key(rt: HostRuntime) -> Result<(), Fail> {
    let map: Map = Map::new(rt.alloc())?;
    let mut guard = map.pin();
    let seven = Arc::new(rt.alloc(), 7u64)?;
    let eight = Arc::new(rt.alloc(), 8u64)?;
    assert!(rt; insert(&rt, rt.alloc(), &map, &mut guard, 9, &seven) == Inserted::New);
    assert!(rt; outlives(&rt, rt.alloc(), &map, &mut guard, &seven, &eight));
    assert!(rt; Arc::strong_count(&seven) == 1 && Arc::strong_count(&eight) == 2);
    map.unpin(guard);
    Ok(())
}

// A removed payload is taken out of its slot once nobody else reads it.
fn taken<R: Wait>(rt: &R, map: &Map, guard: &mut Guard) -> Option<Arc<u64>>
    requires { IsGuardOf map.now guard.old }
    ensures { IsGuardOf map.now guard.new }
{
    let lent = map.get(rt, guard, &9)?;
    let removed = map.remove(rt, guard, &9)?;
    let Err(back) = guard.take(rt, removed) else {
        return None;
    };
    drop(lent);
    guard.take(rt, back).ok()
}

#[test]
fn a_removed_payload_is_taken_out(rt: HostRuntime) -> Result<(), Fail> {
    let map: Map = Map::new(rt.alloc())?;
    let mut guard = map.pin();
    let seven = Arc::new(rt.alloc(), 7u64)?;
    assert!(rt; insert(&rt, rt.alloc(), &map, &mut guard, 9, &seven) == Inserted::New);
    let owner = taken(&rt, &map, &mut guard).ok_or("taken")?;
    assert!(rt; *owner == 7 && Arc::strong_count(&seven) == 2);
    drop(owner);
    assert!(rt; Arc::strong_count(&seven) == 1);
    map.unpin(guard);
    Ok(())
}

// Two guards, of which one inserts before they meet, and the other reads then.
fn met<R: Wait>(rt: &R, alloc: Global, map: &Map, seven: &Arc<u64>) -> bool {
    let mut a = map.pin();
    let mut b = map.pin();
    let new = insert(rt, alloc, map, &mut a, 4, seven) == Inserted::New;
    meet(&mut a, &mut b);
    let found = get(rt, map, &mut b, 4) == Some(7);
    let removed = remove(rt, map, &mut a, 4) == Some(7);
    map.unpin(a);
    map.unpin(b);
    new && found && removed
}

#[test]
fn guards_meet(rt: HostRuntime) -> Result<(), Fail> {
    let map: Map = Map::new(rt.alloc())?;
    let seven = Arc::new(rt.alloc(), 7u64)?;
    assert!(rt; met(&rt, rt.alloc(), &map, &seven));
    assert!(rt; Arc::strong_count(&seven) == 1);
    Ok(())
}
