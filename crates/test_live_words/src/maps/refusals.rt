//! Insertions that are refused: the owner is the caller's again, and is not in the map.
ghost use Rattle.std.specs.Prelude.{◌≡◌};
ghost use Rattle.live_owners.specs.Owners.{IsHandleOf};

use crate::maps::alone::{drained, handle_of};
use live_growth::map::Refusal;
use live_owners::handle::OwnersHandle;
use live_owners::map::LiveOwners;
use std::alloc::Global;
use std::test::Fail;

// Inserts owners at keys that share no node until one is refused, whose key is absent then: how many were inserted.
fn filled(alloc: Global, map: &LiveOwners, handle: &mut OwnersHandle) -> Option<u64>
    requires { IsHandleOf map.now handle.old }
    ensures { IsHandleOf map.now handle.new }
{
    for i in 0..100_000u64 {
        match map.insert(alloc, handle, i.wrapping_mul(0x1_0001), i) {
            Ok(_) => {}
            Err((Refusal::OutOfMemory, Some(owner))) if owner == i => return Some(i),
            Err(_) => return None,
        }
    }
    None
}

// A map of few bytes refuses at some insertion. In the end each owner but the refused ones comes back.
fn refused(alloc: Global, map: &LiveOwners) -> Option<bool> {
    let mut handle = handle_of(alloc, map)?;
    let first = filled(alloc, map, &mut handle)?;
    let second = map.insert(alloc, &mut handle, u64::MAX, 77);
    let (count, _) = drained(map, &mut handle);
    let pending = map.pending(&handle);
    map.leave(handle);
    Some(second == Err((Refusal::OutOfMemory, Some(77))) && count == first && pending == 0)
}

#[test]
fn a_refused_owner_is_given_back(rt: HostRuntime) -> Result<(), Fail> {
    let map = LiveOwners::new(rt.alloc(), 24_576)?;
    assert!(rt; refused(rt.alloc(), &map) == Some(true));
    Ok(())
}
