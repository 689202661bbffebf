//! Four threads put owners in, lend them, and have them back, at few places. In the end each owner has come back once, and none
//! while it was lent.
ghost use Rattle.std.specs.Prelude.{◌≡◌};

use std::alloc::Global;
use std::sync::atomic::AtomicU64;
use std::sync::atomic::Ordering::SeqCst;
use std::test::Fail;
use std::thread::{Threads, join};
use word_owners::handle::Handle;
use word_owners::owners::Owners;

// How many places there are. Each has 0, or one more than a ticket.
const PLACES: u64 = 8;

// How many turns each thread makes.
const TURNS: u64 = 20_000;

// What the threads share: the table, the places, and how often each owner came back. An owner's number is its place by this.
#[derive(Drop)]
struct Shared {
    owners: Owners,
    places: Vec<AtomicU64>,
    back: Vec<AtomicU64>,
}

fn zeros(alloc: Global, count: u64) -> Option<Vec<AtomicU64>> {
    let mut numbers = Vec::new(alloc);
    for _ in 0..count {
        numbers.push(AtomicU64::new(0)).ok()?;
    }
    Some(numbers)
}

fn new_shared(alloc: Global) -> Option<Shared> {
    Some(Shared {
        owners: Owners::new(alloc).ok()?,
        places: zeros(alloc, PLACES)?,
        back: zeros(alloc, TURNS.wrapping_mul(4))?,
    })
}

// Counts the owners that have come back: whether each was there.
fn counted(shared: &Shared, handle: &mut Handle) -> bool
    requires { handle.old.book ≡ shared.now.owners }
    ensures { handle.new.book ≡ shared.now.owners }
{
    for _ in 0..100_000u32 {
        let Some((_, owner)) = shared.owners.reclaim(handle) else {
            return true;
        };
        let Some(times) = shared.back.get(owner as usize) else {
            return false;
        };
        times.fetch_add(1, SeqCst);
    }
    false
}

// Takes what is at a place out of it, and puts a number there.
fn replaced(shared: &Shared, handle: &mut Handle, place: &AtomicU64, number: u64) -> bool
    requires { handle.old.book ≡ shared.now.owners }
    ensures { handle.new.book ≡ shared.now.owners }
{
    let before = place.swap(number, SeqCst);
    let Some(ticket) = before.checked_sub(1) else {
        return true;
    };
    shared.owners.retire(handle, ticket)
}

// Inserts an owner, and puts it at a place.
fn inserted(
    shared: &Shared,
    alloc: Global,
    handle: &mut Handle,
    place: &AtomicU64,
    owner: u64,
) -> bool
    requires { handle.old.book ≡ shared.now.owners }
    ensures { handle.new.book ≡ shared.now.owners }
{
    let Ok(ticket) = shared.owners.insert(alloc, handle, owner) else {
        return false;
    };
    if !replaced(shared, handle, place, ticket.wrapping_add(1)) {
        return false;
    }
    shared.owners.pending(handle) < 40 || counted(shared, handle)
}

// Lends what is at a place: whether it is one of that place, and doesn't come back meanwhile.
fn lent(shared: &Shared, handle: &mut Handle, place: &AtomicU64, at: u64) -> bool
    requires { handle.old.book ≡ shared.now.owners }
    ensures { handle.new.book ≡ shared.now.owners }
{
    let Some(ticket) = place.load(SeqCst).checked_sub(1) else {
        return true;
    };
    let Some(owner) = shared.owners.lend(handle, ticket) else {
        return true;
    };
    let Some(times) = shared.back.get(owner as usize) else {
        return false;
    };
    let mut kept = owner % PLACES == at;
    for _ in 0..4u32 {
        kept = kept && times.load(SeqCst) == 0;
    }
    shared.owners.end(handle);
    kept
}

// One turn of a thread, which inserts its own owner now and then.
fn turn(shared: &Shared, alloc: Global, handle: &mut Handle, owner: u64, seed: u64) -> bool
    requires { handle.old.book ≡ shared.now.owners }
    ensures { handle.new.book ≡ shared.now.owners }
{
    let at = if seed % 4 == 0 {
        owner % PLACES
    } else {
        seed / 64 % PLACES
    };
    let Some(place) = shared.places.get(at as usize) else {
        return false;
    };
    if seed % 4 == 0 {
        inserted(shared, alloc, handle, place, owner)
    } else {
        lent(shared, handle, place, at)
    }
}

fn seed_after(seed: u64) -> u64 {
    let mut seed = seed;
    seed ^= seed << 13;
    seed ^= seed >> 7;
    seed ^= seed << 17;
    seed
}

// How many owners a thread has inserted, if all its turns were right.
fn turns(shared: &Shared, alloc: Global, number: u64) -> Option<u64> {
    let mut handle = shared.owners.handle(alloc).ok()??;
    let mut seed = number.wrapping_add(1).wrapping_mul(1000);
    let mut count = 0u64;
    for i in 0..TURNS {
        seed = seed_after(seed);
        let owner = number.wrapping_mul(TURNS).wrapping_add(i);
        if !turn(shared, alloc, &mut handle, owner, seed) {
            return None;
        }
        if seed % 4 == 0 {
            count = count.wrapping_add(1);
        }
    }
    shared.owners.leave(handle);
    Some(count)
}

fn by_four<R: Threads + Sync>(rt: &R, alloc: Global, shared: &Shared) -> Option<u64> {
    let ((a, b), (c, d)) = join(
        rt,
        || { join(rt, || turns(shared, alloc, 0), || turns(shared, alloc, 1)) },
        || { join(rt, || turns(shared, alloc, 2), || turns(shared, alloc, 3)) },
    );
    Some(a?.wrapping_add(b?).wrapping_add(c?).wrapping_add(d?))
}

// Empties all places, and counts what comes back then.
fn emptied(shared: &Shared, alloc: Global) -> Option<bool> {
    let mut handle = shared.owners.handle(alloc).ok()??;
    for place in &shared.places {
        if !replaced(shared, &mut handle, place, 0) {
            return None;
        }
    }
    let right = counted(shared, &mut handle);
    shared.owners.leave(handle);
    Some(right)
}

// How many owners have come back, if none did twice.
fn once(shared: &Shared) -> Option<u64> {
    let mut count = 0u64;
    for times in &shared.back {
        let times = times.load(SeqCst);
        if times > 1 {
            return None;
        }
        count = count.wrapping_add(times);
    }
    Some(count)
}

#[test]
fn each_owner_comes_back_once(rt: HostRuntime) -> Result<(), Fail> {
    let shared = new_shared(rt.alloc()).ok_or("memory")?;
    let inserted = by_four(&rt, rt.alloc(), &shared);
    assert!(rt; emptied(&shared, rt.alloc()) == Some(true));
    assert!(rt; inserted.is_some() && once(&shared) == inserted);
    Ok(())
}
