//! Exchanges and removals by ticket, and `get_or_insert`, by one thread.
ghost use Rattle.std.specs.Prelude.{◌≡◌};
ghost use Rattle.live_owners.specs.Owners.{IsHandleOf};

use crate::maps::alone::{all, drained, handle_of};
use live_owners::handle::{Lent, OwnersHandle, Previous};
use live_owners::map::LiveOwners;
use std::alloc::Global;
use std::test::Fail;

// The ticket of the first slot, once that was used.
const SECOND: u64 = 0x1_0000_0000;

// An absent key is not exchanged, and its owner's slot is used again. Then it gets an owner, once.
fn added(alloc: Global, map: &LiveOwners, handle: &mut OwnersHandle) -> bool
    requires { IsHandleOf map.now handle.old }
    ensures { IsHandleOf map.now handle.new }
{
    let lent = Lent {
        ticket: SECOND,
        owner: 41,
    };
    let steps = [
        map.compare_exchange(alloc, handle, 5, 0, 40) == Ok(Err(Some(40))),
        map.get_or_insert(alloc, handle, 5, 41) == Ok(None),
        map.get_or_insert(alloc, handle, 5, 42) == Ok(Some(lent)),
    ];
    all(&steps)
}

// The ticket is exchanged, and only once. The owner before comes back.
fn exchanged(alloc: Global, map: &LiveOwners, handle: &mut OwnersHandle) -> bool
    requires { IsHandleOf map.now handle.old }
    ensures { IsHandleOf map.now handle.new }
{
    let before = Previous {
        ticket: SECOND,
        owner: Some(41),
    };
    let made = map.compare_exchange(alloc, handle, 5, SECOND, 43) == Ok(Ok(before));
    let kept = map.reclaim(handle).is_none();
    let lost = map.compare_exchange(alloc, handle, 5, SECOND, 44) == Ok(Err(Some(44)));
    map.end(handle);
    let back = map.reclaim(handle) == Some((SECOND, 41));
    all(&[made, kept, lost, back])
}

// The key is removed by its own ticket alone.
fn removed(map: &LiveOwners, handle: &mut OwnersHandle) -> bool
    requires { IsHandleOf map.now handle.old }
    ensures { IsHandleOf map.now handle.new }
{
    let Ok(Some(lent)) = map.get(handle, 5) else {
        return false;
    };
    let ticket = lent.ticket;
    let before = Previous {
        ticket,
        owner: Some(43),
    };
    let steps = [
        map.compare_remove(handle, 5, SECOND) == Ok(None),
        map.compare_remove(handle, 6, ticket) == Ok(None),
        map.compare_remove(handle, 5, ticket) == Ok(Some(before)),
        map.compare_remove(handle, 5, ticket) == Ok(None),
        map.get(handle, 5) == Ok(None),
    ];
    all(&steps)
}

fn in_turn(alloc: Global, map: &LiveOwners) -> Option<(u64, u64)> {
    let mut handle = handle_of(alloc, map)?;
    let added = added(alloc, map, &mut handle);
    let exchanged = exchanged(alloc, map, &mut handle);
    let removed = removed(map, &mut handle);
    let left = drained(map, &mut handle);
    map.leave(handle);
    if added && exchanged && removed {
        Some(left)
    } else {
        None
    }
}

#[test]
fn an_owner_is_exchanged_by_its_ticket(rt: HostRuntime) -> Result<(), Fail> {
    let map = LiveOwners::new(rt.alloc(), u64::MAX)?;
    assert!(rt; in_turn(rt.alloc(), &map) == Some((1, 43)));
    Ok(())
}
