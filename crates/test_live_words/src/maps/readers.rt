//! Keys in their order: the next one, the one before, pages, a count, and the owner of a ticket.
ghost use Rattle.std.specs.Prelude.{◌≡◌};
ghost use Rattle.live_owners.specs.Owners.{IsHandleOf};

use crate::maps::alone::{all, handle_of};
use live_owners::handle::OwnersHandle;
use live_owners::map::LiveOwners;
use std::alloc::Global;
use std::test::Fail;

const KEYS: [u64; 5] = [5, 255, 256, 70_000, u64::MAX];

// A key, the next one from it on, and the one before from it down.
const SEARCHES: [(u64, Option<u64>, Option<u64>); 8] = [
    (0, Some(5), None),
    (5, Some(5), Some(5)),
    (6, Some(255), Some(5)),
    (255, Some(255), Some(255)),
    (257, Some(70_000), Some(256)),
    (70_001, Some(u64::MAX), Some(70_000)),
    (u64::MAX - 1, Some(u64::MAX), Some(70_000)),
    (u64::MAX, Some(u64::MAX), Some(u64::MAX)),
];

fn stored(alloc: Global, map: &LiveOwners, handle: &mut OwnersHandle) -> bool
    requires { IsHandleOf map.now handle.old }
    ensures { IsHandleOf map.now handle.new }
{
    for key in KEYS {
        if map.insert(alloc, handle, key, key ^ 1000) != Ok(None) {
            return false;
        }
    }
    true
}

// The key that a search finds, whose owner is lent then.
fn found(map: &LiveOwners, handle: &mut OwnersHandle, up: bool, from: u64) -> Option<u64>
    requires { IsHandleOf map.now handle.old }
    ensures { IsHandleOf map.now handle.new }
{
    let pair = if up {
        map.ceiling(handle, from)
    } else {
        map.floor(handle, from)
    };
    let (key, ticket) = pair.ok()??;
    let owner = map.lend(handle, ticket)?;
    if owner == key ^ 1000 { Some(key) } else { None }
}

// How many searches find another key.
fn wrong(map: &LiveOwners, handle: &mut OwnersHandle) -> u32
    requires { IsHandleOf map.now handle.old }
    ensures { IsHandleOf map.now handle.new }
{
    let mut wrong = 0u32;
    for (key, next, before) in SEARCHES {
        if found(map, handle, true, key) != next || found(map, handle, false, key) != before {
            wrong = wrong.wrapping_add(1);
        }
    }
    wrong
}

// Pages in both directions, which end where they are full, and the count.
fn paged(map: &LiveOwners, handle: &mut OwnersHandle) -> bool
    requires { IsHandleOf map.now handle.old }
    ensures { IsHandleOf map.now handle.new }
{
    let mut up = [(0, 0); 3];
    let mut down = [(0, 0); 3];
    let steps = [
        map.range_inclusive(handle, 6, u64::MAX, &mut up) == Ok(3),
        up[0].0 == 255 && up[1].0 == 256 && up[2].0 == 70_000,
        map.range_descending(handle, 5, 300, &mut down) == Ok(3),
        down[0].0 == 256 && down[1].0 == 255 && down[2].0 == 5,
        map.range_inclusive(handle, 6, 255, &mut up) == Ok(1),
        map.count(handle) == Ok(5),
    ];
    all(&steps)
}

// A ticket has no owner once its key was removed.
fn ended(map: &LiveOwners, handle: &mut OwnersHandle) -> bool
    requires { IsHandleOf map.now handle.old }
    ensures { IsHandleOf map.now handle.new }
{
    let Ok(Some((key, ticket))) = map.floor(handle, 300) else {
        return false;
    };
    let steps = [
        map.lend(handle, ticket) == Some(256 ^ 1000),
        map.remove(handle, key).is_ok(),
        map.lend(handle, ticket).is_none(),
        found(map, handle, false, 300) == Some(255),
        map.count(handle) == Ok(4),
    ];
    all(&steps)
}

fn in_order(alloc: Global, map: &LiveOwners) -> Option<bool> {
    let mut handle = handle_of(alloc, map)?;
    let none = map.ceiling(&mut handle, 0) == Ok(None) && map.floor(&mut handle, 9) == Ok(None);
    let stored = stored(alloc, map, &mut handle);
    let found = wrong(map, &mut handle) == 0;
    let paged = paged(map, &mut handle);
    let ended = ended(map, &mut handle);
    map.leave(handle);
    Some(all(&[none, stored, found, paged, ended]))
}

#[test]
fn keys_are_found_in_their_order(rt: HostRuntime) -> Result<(), Fail> {
    let map = LiveOwners::new(rt.alloc(), u64::MAX)?;
    assert!(rt; in_order(rt.alloc(), &map) == Some(true));
    Ok(())
}
