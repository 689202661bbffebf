//! Each call by one thread, by one handle or by two.
ghost use Rattle.std.specs.Prelude.{◌≡◌, IfSome};
ghost use Rattle.live_owners.specs.Owners.{IsHandleOf};

use live_owners::handle::{Lent, OwnersHandle, Previous};
use live_owners::map::LiveOwners;
use std::alloc::Global;
use std::test::Fail;

// A handle, where one of the places is free.
pub fn handle_of(alloc: Global, map: &LiveOwners) -> Option<OwnersHandle>
    ensures { IfSome result (λ handle. IsHandleOf map.now handle) }
{
    map.handle(alloc).ok()?
}

pub fn all(steps: &[bool]) -> bool {
    for step in steps {
        if !*step {
            return false;
        }
    }
    true
}

// An absent key gets an owner, which is found then.
fn stored(alloc: Global, map: &LiveOwners, handle: &mut OwnersHandle) -> bool
    requires { IsHandleOf map.now handle.old }
    ensures { IsHandleOf map.now handle.new }
{
    let lent = Lent {
        ticket: 0,
        owner: 41,
    };
    let steps = [
        map.get(handle, 5) == Ok(None),
        map.insert(alloc, handle, 5, 41) == Ok(None),
        map.get(handle, 5) == Ok(Some(lent)),
        map.get(handle, 4) == Ok(None),
    ];
    all(&steps)
}

// A present key gets another owner. The one before comes back once the handle has it lent no more.
fn replaced(alloc: Global, map: &LiveOwners, handle: &mut OwnersHandle) -> bool
    requires { IsHandleOf map.now handle.old }
    ensures { IsHandleOf map.now handle.new }
{
    let before = Previous {
        ticket: 0,
        owner: Some(41),
    };
    let replaced = map.insert(alloc, handle, 5, 42) == Ok(Some(before));
    let kept = map.pending(handle) == 1 && map.reclaim(handle).is_none();
    map.end(handle);
    let back = map.reclaim(handle) == Some((0, 41));
    let once = map.reclaim(handle).is_none();
    all(&[replaced, kept, back, once])
}

// The key is removed while another handle has its owner lent. The owner comes back once that loan has ended, too.
fn removed(map: &LiveOwners, a: &mut OwnersHandle, b: &mut OwnersHandle) -> bool
    requires { IsHandleOf map.now a.old × IsHandleOf map.now b.old }
    ensures { IsHandleOf map.now a.new × IsHandleOf map.now b.new }
{
    let lent = Lent {
        ticket: 1,
        owner: 42,
    };
    let before = Previous {
        ticket: 1,
        owner: Some(42),
    };
    let found = map.get(b, 5) == Ok(Some(lent));
    let removed = map.remove(a, 5) == Ok(Some(before));
    map.end(a);
    let kept = map.reclaim(a).is_none() && map.reclaim(b).is_none();
    map.end(b);
    all(&[found, removed, kept, map.reclaim(a) == Some((1, 42))])
}

fn absent(map: &LiveOwners, handle: &mut OwnersHandle) -> bool
    requires { IsHandleOf map.now handle.old }
    ensures { IsHandleOf map.now handle.new }
{
    let steps = [
        map.get(handle, 5) == Ok(None),
        map.remove(handle, 5) == Ok(None),
        map.reclaim(handle).is_none(),
        map.drain(handle) == Ok(None),
    ];
    all(&steps)
}

fn in_turn(alloc: Global, map: &LiveOwners) -> Option<bool> {
    let mut a = handle_of(alloc, map)?;
    let mut b = handle_of(alloc, map)?;
    let stored = stored(alloc, map, &mut a);
    let replaced = replaced(alloc, map, &mut a);
    let removed = removed(map, &mut a, &mut b);
    let absent = absent(map, &mut a);
    map.leave(a);
    map.leave(b);
    Some(all(&[stored, replaced, removed, absent]))
}

#[test]
fn an_owner_comes_back_once_nobody_has_it_lent(rt: HostRuntime) -> Result<(), Fail> {
    let map = LiveOwners::new(rt.alloc(), u64::MAX)?;
    assert!(rt; in_turn(rt.alloc(), &map) == Some(true));
    Ok(())
}

// Inserts an owner at each of so many keys: whether each was absent.
fn inserted(alloc: Global, map: &LiveOwners, handle: &mut OwnersHandle, count: u64) -> bool
    requires { IsHandleOf map.now handle.old }
    ensures { IsHandleOf map.now handle.new }
{
    for key in 0..count {
        if map.insert(alloc, handle, key, key.wrapping_add(1000)) != Ok(None) {
            return false;
        }
    }
    true
}

// What comes out of the map in the end: how many owners, and their sum.
pub fn drained(map: &LiveOwners, handle: &mut OwnersHandle) -> (u64, u64)
    requires { IsHandleOf map.now handle.old }
    ensures { IsHandleOf map.now handle.new }
{
    let mut count = 0u64;
    let mut sum = 0u64;
    for _ in 0..1_000_000u32 {
        let Ok(Some((_, owner))) = map.drain(handle) else {
            return (count, sum);
        };
        count = count.wrapping_add(1);
        sum = sum.wrapping_add(owner);
    }
    (0, 0)
}

// A handle leaves with tickets that it has retired, and another one drains the map.
fn left(alloc: Global, map: &LiveOwners, count: u64) -> Option<(u64, u64)> {
    let mut a = handle_of(alloc, map)?;
    let inserted = inserted(alloc, map, &mut a, count);
    let removed = map.remove(&mut a, 7).is_ok();
    map.leave(a);
    let mut b = handle_of(alloc, map)?;
    let (drained, sum) = drained(map, &mut b);
    map.leave(b);
    if inserted && removed {
        Some((drained, sum))
    } else {
        None
    }
}

#[test]
fn the_last_handle_gets_each_owner(rt: HostRuntime) -> Result<(), Fail> {
    let map = LiveOwners::new(rt.alloc(), u64::MAX)?;
    assert!(rt; left(rt.alloc(), &map, 600) == Some((600, 779_700)));
    Ok(())
}
