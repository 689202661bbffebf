//! Calls that need memory, where an allocation is refused. They succeed at the next try.
ghost use Rattle.std.specs.Prelude.{◌≡◌};

use std::alloc::Global;
use word_owners::handle::Handle;
use word_owners::owners::{Lack, Owners};

const COUNT: u64 = 600;

// A table, also where memory is refused once.
fn made(alloc: Global) -> Option<Owners> {
    match Owners::new(alloc) {
        Ok(owners) => Some(owners),
        Err(_) => Owners::new(alloc).ok(),
    }
}

// Inserts an owner, also where memory is refused once.
fn inserted(alloc: Global, owners: &Owners, handle: &mut Handle, owner: u64) -> bool
    requires { handle.old.book ≡ owners.now }
    ensures { handle.new.book ≡ owners.now }
{
    match owners.insert(alloc, handle, owner) {
        Ok(_) => true,
        Err(lack) => lack == Lack::Memory && owners.insert(alloc, handle, owner).is_ok(),
    }
}

// Inserts owners by a handle: how many.
fn filled(alloc: Global, owners: &Owners, handle: Handle) -> u64
    requires { handle.book ≡ owners.now }
{
    let mut handle = handle;
    for owner in 0..COUNT {
        if !inserted(alloc, owners, &mut handle, owner) {
            return owner;
        }
    }
    owners.leave(handle);
    COUNT
}

fn filled_by_one(alloc: Global) -> Option<u64> {
    let owners = made(alloc)?;
    let handle = match owners.handle(alloc) {
        Ok(made) => made?,
        Err(_) => owners.handle(alloc).ok()??,
    };
    Some(filled(alloc, &owners, handle))
}

// It passes whichever allocation is refused.
#[test]
fn refused_memory_loses_no_slot(rt: HostRuntime) {
    assert!(rt; filled_by_one(rt.alloc()) == Some(COUNT));
}
