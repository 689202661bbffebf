//! Four threads insert owners, exchange them, look them up, remove them and have them back, at 16 keys. In the end each owner has
//! come back once, and none while it was lent.
ghost use Rattle.std.specs.Prelude.{◌≡◌};
ghost use Rattle.live_owners.specs.Owners.{IsHandleOf};

use crate::maps::alone::handle_of;
use live_owners::handle::OwnersHandle;
use live_owners::map::LiveOwners;
use std::alloc::Global;
use std::sync::atomic::AtomicU64;
use std::sync::atomic::Ordering::SeqCst;
use std::test::Fail;
use std::thread::{Threads, join};

// How many keys there are. An owner's number is its key by this.
const KEYS: u64 = 16;

// How many turns each thread makes.
const TURNS: u64 = 10_000;

// What the threads share: the map, and how often each owner came back.
#[derive(Drop)]
struct Shared {
    map: LiveOwners,
    back: Vec<AtomicU64>,
}

fn new_shared(alloc: Global) -> Option<Shared> {
    let mut back = Vec::new(alloc);
    for _ in 0..TURNS.wrapping_mul(4) {
        back.push(AtomicU64::new(0)).ok()?;
    }
    Some(Shared {
        map: LiveOwners::new(alloc, u64::MAX).ok()?,
        back,
    })
}

// Counts an owner that has come back.
fn count(shared: &Shared, owner: u64) -> bool {
    match shared.back.get(owner as usize) {
        Some(times) => times.fetch_add(1, SeqCst) == 0,
        None => false,
    }
}

// Counts the owners that have come back: whether each did for the first time.
fn counted(shared: &Shared, handle: &mut OwnersHandle) -> bool
    requires { IsHandleOf shared.now.map handle.old }
    ensures { IsHandleOf shared.now.map handle.new }
{
    for _ in 0..100_000u32 {
        let Some((_, owner)) = shared.map.reclaim(handle) else {
            return true;
        };
        if !count(shared, owner) {
            return false;
        }
    }
    false
}

// Whether an owner is one of the key, and hasn't come back.
fn is_there(shared: &Shared, owner: u64, key: u64) -> bool {
    let Some(times) = shared.back.get(owner as usize) else {
        return false;
    };
    let mut kept = owner % KEYS == key;
    for _ in 0..4u32 {
        kept = kept && times.load(SeqCst) == 0;
    }
    kept
}

// Inserts an owner. The one before is lent, and still there.
fn inserted(shared: &Shared, alloc: Global, handle: &mut OwnersHandle, owner: u64) -> bool
    requires { IsHandleOf shared.now.map handle.old }
    ensures { IsHandleOf shared.now.map handle.new }
{
    match shared.map.insert(alloc, handle, owner % KEYS, owner) {
        Ok(Some(before)) => match before.owner {
            Some(old) => is_there(shared, old, owner % KEYS),
            None => false,
        },
        Ok(None) => true,
        Err((_, back)) => back == Some(owner) && count(shared, owner),
    }
}

// Stores an owner where its key has none. Else the one that is there is lent, and the owner is back.
fn added(shared: &Shared, alloc: Global, handle: &mut OwnersHandle, owner: u64) -> bool
    requires { IsHandleOf shared.now.map handle.old }
    ensures { IsHandleOf shared.now.map handle.new }
{
    match shared.map.get_or_insert(alloc, handle, owner % KEYS, owner) {
        Ok(Some(lent)) => is_there(shared, lent.owner, owner % KEYS) && count(shared, owner),
        Ok(None) => true,
        Err((_, back)) => back == Some(owner) && count(shared, owner),
    }
}

// Exchanges the owner of a key for another one. That one is back where another thread was first.
fn exchanged(shared: &Shared, alloc: Global, handle: &mut OwnersHandle, owner: u64) -> bool
    requires { IsHandleOf shared.now.map handle.old }
    ensures { IsHandleOf shared.now.map handle.new }
{
    let key = owner % KEYS;
    let Ok(Some(lent)) = shared.map.get(handle, key) else {
        return count(shared, owner);
    };
    let ticket = lent.ticket;
    match shared
        .map
        .compare_exchange(alloc, handle, key, ticket, owner)
    {
        Ok(Ok(before)) => before.owner == Some(lent.owner) && is_there(shared, lent.owner, key),
        Ok(Err(back)) => back == Some(owner) && count(shared, owner),
        Err((_, back)) => back == Some(owner) && count(shared, owner),
    }
}

// Removes a key. The owner before is lent, and still there.
fn removed(shared: &Shared, handle: &mut OwnersHandle, key: u64) -> bool
    requires { IsHandleOf shared.now.map handle.old }
    ensures { IsHandleOf shared.now.map handle.new }
{
    match shared.map.remove(handle, key) {
        Ok(Some(before)) => match before.owner {
            Some(old) => is_there(shared, old, key),
            None => false,
        },
        _ => true,
    }
}

// Looks a key up. The owner is lent, and still there.
fn found(shared: &Shared, handle: &mut OwnersHandle, key: u64) -> bool
    requires { IsHandleOf shared.now.map handle.old }
    ensures { IsHandleOf shared.now.map handle.new }
{
    match shared.map.get(handle, key) {
        Ok(Some(lent)) => is_there(shared, lent.owner, key),
        _ => true,
    }
}

// One turn of a thread, which hands in an owner of its own now and then.
fn turn(shared: &Shared, alloc: Global, handle: &mut OwnersHandle, owner: u64, seed: u64) -> bool
    requires { IsHandleOf shared.now.map handle.old }
    ensures { IsHandleOf shared.now.map handle.new }
{
    match seed % 8 {
        0 => inserted(shared, alloc, handle, owner),
        1 => added(shared, alloc, handle, owner),
        2 => exchanged(shared, alloc, handle, owner),
        3 => removed(shared, handle, seed / 64 % KEYS),
        4 => {
            shared.map.end(handle);
            counted(shared, handle)
        }
        _ => found(shared, handle, seed / 64 % KEYS),
    }
}

fn seed_after(seed: u64) -> u64 {
    let mut seed = seed;
    seed ^= seed << 13;
    seed ^= seed >> 7;
    seed ^= seed << 17;
    seed
}

// How many owners a thread has handed in, if all its turns were right.
fn turns(shared: &Shared, alloc: Global, number: u64) -> Option<u64> {
    let mut handle = handle_of(alloc, &shared.map)?;
    let made = all_turns(shared, alloc, &mut handle, number);
    shared.map.leave(handle);
    made
}

fn all_turns(shared: &Shared, alloc: Global, handle: &mut OwnersHandle, number: u64) -> Option<u64>
    requires { IsHandleOf shared.now.map handle.old }
    ensures { IsHandleOf shared.now.map handle.new }
{
    let mut seed = number.wrapping_add(1).wrapping_mul(1000);
    let mut count = 0u64;
    for i in 0..TURNS {
        seed = seed_after(seed);
        let owner = number.wrapping_mul(TURNS).wrapping_add(i);
        if !turn(shared, alloc, handle, owner, seed) {
            return None;
        }
        if seed % 8 < 3 {
            count = count.wrapping_add(1);
        }
    }
    Some(count)
}

fn by_four<R: Threads + Sync>(rt: &R, alloc: Global, shared: &Shared) -> Option<u64> {
    let ((a, b), (c, d)) = join(
        rt,
        || { join(rt, || turns(shared, alloc, 0), || turns(shared, alloc, 1)) },
        || { join(rt, || turns(shared, alloc, 2), || turns(shared, alloc, 3)) },
    );
    Some(a?.wrapping_add(b?).wrapping_add(c?).wrapping_add(d?))
}

// Drains the map, and counts what comes back then.
fn emptied(shared: &Shared, handle: &mut OwnersHandle) -> bool
    requires { IsHandleOf shared.now.map handle.old }
    ensures { IsHandleOf shared.now.map handle.new }
{
    for _ in 0..100_000u32 {
        match shared.map.drain(handle) {
            Ok(Some((_, owner))) => {
                if !count(shared, owner) {
                    return false;
                }
            }
            Ok(None) => return true,
            Err(_) => return false,
        }
    }
    false
}

fn emptied_by_one(shared: &Shared, alloc: Global) -> Option<bool> {
    let mut handle = handle_of(alloc, &shared.map)?;
    let right = emptied(shared, &mut handle);
    shared.map.leave(handle);
    Some(right)
}

// How many owners have come back, if none did twice.
fn once(shared: &Shared) -> Option<u64> {
    let mut count = 0u64;
    for times in &shared.back {
        let times = times.load(SeqCst);
        if times > 1 {
            return None;
        }
        count = count.wrapping_add(times);
    }
    Some(count)
}

#[test]
fn each_owner_comes_back_once(rt: HostRuntime) -> Result<(), Fail> {
    let shared = new_shared(rt.alloc()).ok_or("memory")?;
    let handed_in = by_four(&rt, rt.alloc(), &shared);
    assert!(rt; emptied_by_one(&shared, rt.alloc()) == Some(true));
    assert!(rt; handed_in.is_some() && once(&shared) == handed_in);
    Ok(())
}
