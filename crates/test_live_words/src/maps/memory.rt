//! Calls that need memory, where an allocation is refused. They succeed at the next try, and no owner is lost.
ghost use Rattle.std.specs.Prelude.{◌≡◌, IfSome};
ghost use Rattle.live_owners.specs.Owners.{IsHandleOf};

use crate::maps::alone::drained;
use live_growth::map::Refusal;
use live_owners::handle::OwnersHandle;
use live_owners::map::LiveOwners;
use std::alloc::Global;

const COUNT: u64 = 300;

// A map, also where memory is refused once.
fn made(alloc: Global) -> Option<LiveOwners> {
    match LiveOwners::new(alloc, u64::MAX) {
        Ok(map) => Some(map),
        Err(_) => LiveOwners::new(alloc, u64::MAX).ok(),
    }
}

// A handle, also where memory is refused once.
fn entered(alloc: Global, map: &LiveOwners) -> Option<OwnersHandle>
    ensures { IfSome result (λ handle. IsHandleOf map.now handle) }
{
    match map.handle(alloc) {
        Ok(handle) => handle,
        Err(_) => map.handle(alloc).ok()?,
    }
}

// Inserts an owner, also where memory is refused once: then it is given back.
fn inserted(alloc: Global, map: &LiveOwners, handle: &mut OwnersHandle, owner: u64) -> bool
    requires { IsHandleOf map.now handle.old }
    ensures { IsHandleOf map.now handle.new }
{
    let key = owner.wrapping_mul(0x1_0001);
    match map.insert(alloc, handle, key, owner) {
        Ok(before) => before.is_none(),
        Err(refused) => {
            let again = map.insert(alloc, handle, key, owner) == Ok(None);
            refused == (Refusal::OutOfMemory, Some(owner)) && again
        }
    }
}

// Inserts owners: whether each was inserted.
fn filled(alloc: Global, map: &LiveOwners, handle: &mut OwnersHandle) -> bool
    requires { IsHandleOf map.now handle.old }
    ensures { IsHandleOf map.now handle.new }
{
    for owner in 0..COUNT {
        if !inserted(alloc, map, handle, owner) {
            return false;
        }
    }
    true
}

fn filled_by_one(alloc: Global) -> Option<(u64, u64)> {
    let map = made(alloc)?;
    let mut handle = entered(alloc, &map)?;
    let filled = filled(alloc, &map, &mut handle);
    let left = drained(&map, &mut handle);
    map.leave(handle);
    if filled { Some(left) } else { None }
}

// It passes whichever allocation is refused.
#[test]
fn refused_memory_loses_no_owner(rt: HostRuntime) {
    assert!(rt; filled_by_one(rt.alloc()) == Some((COUNT, 44_850)));
}
