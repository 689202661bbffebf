//! One owner from its insertion until it comes back, and slots that are used again.
ghost use Rattle.std.specs.Prelude.{◌≡◌, IfSome};

use std::alloc::Global;
use std::test::Fail;
use word_owners::handle::Handle;
use word_owners::owners::Owners;

const HALF: u64 = 0x1_0000_0000;

// A handle, where one of the hazards is free.
pub fn handle_of(alloc: Global, owners: &Owners) -> Option<Handle>
    ensures { IfSome result (λ handle. handle.book ≡ owners.now) }
{
    owners.handle(alloc).ok()?
}

// Inserts an owner, lends it and retires its ticket, which doesn't come back yet. Returns the ticket.
fn lent_once(alloc: Global, owners: &Owners, a: &mut Handle, b: &mut Handle) -> Option<u64>
    requires { (a.old.book ≡ owners.now) × (b.old.book ≡ owners.now) }
    ensures { (a.new.book ≡ owners.now) × (b.new.book ≡ owners.now) }
{
    let ticket = owners.insert(alloc, a, 41).ok()?;
    let lent = owners.lend(b, ticket) == Some(41);
    let early = owners.reclaim(a).is_none();
    let retired = owners.retire(a, ticket) && !owners.retire(b, ticket);
    let kept = owners.reclaim(a).is_none();
    let refused = owners.lend(a, ticket).is_none();
    if lent && early && retired && kept && refused {
        Some(ticket)
    } else {
        None
    }
}

// Whether the owner comes back once nobody has it lent, and only once.
fn back_once(owners: &Owners, a: &mut Handle, b: &mut Handle, ticket: u64) -> bool
    requires { (a.old.book ≡ owners.now) × (b.old.book ≡ owners.now) }
    ensures { (a.new.book ≡ owners.now) × (b.new.book ≡ owners.now) }
{
    owners.end(b);
    let back = owners.reclaim(a) == Some((ticket, 41));
    let once = owners.reclaim(a).is_none() && owners.reclaim(b).is_none();
    back && once && owners.lend(b, ticket).is_none()
}

// Passes an owner through a slot: its ticket, and the next ticket, which is of the same slot.
fn passed(alloc: Global, owners: &Owners) -> Option<(u64, u64)> {
    let mut a = handle_of(alloc, owners)?;
    let mut b = handle_of(alloc, owners)?;
    let ticket = lent_once(alloc, owners, &mut a, &mut b)?;
    if !back_once(owners, &mut a, &mut b, ticket) {
        return None;
    }
    let next = owners.insert(alloc, &mut a, 42).ok()?;
    owners.leave(a);
    owners.leave(b);
    Some((ticket, next))
}

#[test]
fn an_owner_comes_back_once_nobody_has_it_lent(rt: HostRuntime) -> Result<(), Fail> {
    let owners = Owners::new(rt.alloc())?;
    assert!(rt; passed(rt.alloc(), &owners) == Some((0, HALF)));
    Ok(())
}

// Inserts an owner, and has it back: its ticket.
fn turned(alloc: Global, owners: &Owners, handle: &mut Handle, owner: u64) -> Option<u64>
    requires { handle.old.book ≡ owners.now }
    ensures { handle.new.book ≡ owners.now }
{
    let ticket = owners.insert(alloc, handle, owner).ok()?;
    if owners.retire(handle, ticket) && owners.reclaim(handle) == Some((ticket, owner)) {
        Some(ticket)
    } else {
        None
    }
}

// The slot that is used as the n-th of the first segments. Each has 128 slots there, and numbers for 16,384.
fn slot_of(n: u64) -> u64 {
    (n / 128).wrapping_mul(16_384).wrapping_add(n % 128)
}

// Passes owners through slots that are used three times each: how many of them got the ticket that they should.
fn right(alloc: Global, owners: &Owners, count: u64) -> Option<u64> {
    let mut handle = owners.handle(alloc).ok()??;
    for n in 0..count {
        let expected = (n % 3).wrapping_mul(HALF).wrapping_add(slot_of(n / 3));
        if turned(alloc, owners, &mut handle, n) != Some(expected) {
            return Some(n);
        }
    }
    owners.leave(handle);
    Some(count)
}

#[test]
fn a_slot_ends_with_its_last_generation(rt: HostRuntime) -> Result<(), Fail> {
    let owners = Owners::with_uses(rt.alloc(), 3)?;
    assert!(rt; right(rt.alloc(), &owners, 900) == Some(900));
    Ok(())
}

// Makes handles that don't leave: how many there are.
fn made(alloc: Global, owners: &Owners) -> u64 {
    let mut count = 0u64;
    for _ in 0..100u32 {
        if let Ok(Some(handle)) = owners.handle(alloc) {
            drop(handle);
            count = count.wrapping_add(1);
        }
    }
    count
}

#[test]
fn a_hazard_is_free_again_once_its_handle_leaves(rt: HostRuntime) -> Result<(), Fail> {
    let owners = Owners::new(rt.alloc())?;
    let first = owners.handle(rt.alloc())?.ok_or("first")?;
    assert!(rt; made(rt.alloc(), &owners) == 63);
    owners.leave(first);
    assert!(rt; made(rt.alloc(), &owners) == 1);
    Ok(())
}
