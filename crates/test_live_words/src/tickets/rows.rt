//! More retired tickets than a handle keeps, and tickets that a handle leaves to others.
ghost use Rattle.std.specs.Prelude.{◌≡◌};

use crate::tickets::alone::handle_of;
use std::alloc::Global;
use std::test::Fail;
use word_owners::handle::Handle;
use word_owners::owners::Owners;

const COUNT: u64 = 1000;

// Inserts owners from one number on, and retires all tickets then: the sum of these numbers.
fn retired(alloc: Global, owners: &Owners, handle: &mut Handle, from: u64) -> Option<u64>
    requires { handle.old.book ≡ owners.now }
    ensures { handle.new.book ≡ owners.now }
{
    let tickets = inserted(alloc, owners, handle, from)?;
    let mut sum = 0u64;
    for i in 0..tickets.len() {
        if !owners.retire(handle, tickets[i]) {
            return None;
        }
        sum = sum.wrapping_add(from.wrapping_add(i as u64));
    }
    Some(sum)
}

fn inserted(alloc: Global, owners: &Owners, handle: &mut Handle, from: u64) -> Option<Vec<u64>>
    requires { handle.old.book ≡ owners.now }
    ensures { handle.new.book ≡ owners.now }
{
    let mut tickets = Vec::new(alloc);
    for i in 0..COUNT {
        let ticket = owners.insert(alloc, handle, from.wrapping_add(i)).ok()?;
        tickets.push(ticket).ok()?;
    }
    Some(tickets)
}

// Has owners back until there are no more: how many, and their sum.
fn drained(owners: &Owners, handle: &mut Handle) -> (u64, u64)
    requires { handle.old.book ≡ owners.now }
    ensures { handle.new.book ≡ owners.now }
{
    let mut count = 0u64;
    let mut sum = 0u64;
    for _ in 0..10_000u32 {
        let Some((_, owner)) = owners.reclaim(handle) else {
            return (count, sum);
        };
        count = count.wrapping_add(1);
        sum = sum.wrapping_add(owner);
    }
    (count, sum)
}

// Whether all of them come back, twice, and from the same slots.
fn all_back(alloc: Global, owners: &Owners) -> Option<bool> {
    let mut handle = owners.handle(alloc).ok()??;
    let sum = retired(alloc, owners, &mut handle, 5)?;
    let first = drained(owners, &mut handle) == (COUNT, sum);
    let sum = retired(alloc, owners, &mut handle, 5000)?;
    let second = drained(owners, &mut handle) == (COUNT, sum);
    let ticket = owners.insert(alloc, &mut handle, 1).ok()?;
    owners.leave(handle);
    Some(first && second && ticket % 0x1_0000_0000 < COUNT)
}

#[test]
fn a_thousand_owners_come_back(rt: HostRuntime) -> Result<(), Fail> {
    let owners = Owners::new(rt.alloc())?;
    assert!(rt; all_back(rt.alloc(), &owners) == Some(true));
    Ok(())
}

// Whether a retired ticket that nobody keeps comes back to a new handle, once it is no longer lent.
fn adopted(alloc: Global, owners: &Owners, lender: Handle, ticket: u64) -> Option<bool>
    requires { lender.book ≡ owners.now }
{
    let mut handle = handle_of(alloc, owners)?;
    let kept = owners.reclaim(&mut handle).is_none() && owners.reclaim(&mut handle).is_none();
    owners.leave(lender);
    let back = owners.reclaim(&mut handle) == Some((ticket, 7));
    let once = owners.reclaim(&mut handle).is_none();
    owners.leave(handle);
    Some(kept && back && once)
}

// Whether a ticket that a handle has left comes back to another.
fn left(alloc: Global, owners: &Owners) -> Option<bool> {
    let mut a = handle_of(alloc, owners)?;
    let mut b = handle_of(alloc, owners)?;
    let ticket = owners.insert(alloc, &mut a, 7).ok()?;
    let lent = owners.lend(&mut b, ticket) == Some(7);
    let retired = owners.retire(&mut a, ticket);
    owners.leave(a);
    let back = adopted(alloc, owners, b, ticket)?;
    Some(lent && retired && back)
}

#[test]
fn a_ticket_is_left_to_others(rt: HostRuntime) -> Result<(), Fail> {
    let owners = Owners::new(rt.alloc())?;
    assert!(rt; left(rt.alloc(), &owners) == Some(true));
    Ok(())
}
