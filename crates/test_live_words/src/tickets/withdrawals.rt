//! An owner whose ticket nobody was shown comes back at once, and its slot is used again.
ghost use Rattle.std.specs.Prelude.{◌≡◌};

use crate::tickets::alone::handle_of;
use std::alloc::Global;
use std::test::Fail;
use word_owners::handle::Handle;
use word_owners::owners::Owners;

const HALF: u64 = 0x1_0000_0000;

// Inserts an owner and withdraws it: whether it came back, once.
fn withdrawn(alloc: Global, owners: &Owners, handle: &mut Handle, expected: u64) -> bool
    requires { handle.old.book ≡ owners.now }
    ensures { handle.new.book ≡ owners.now }
{
    let Ok(ticket) = owners.insert(alloc, handle, 41) else {
        return false;
    };
    let back = owners.withdraw(handle, ticket) == Some(41);
    let once = owners.withdraw(handle, ticket).is_none() && owners.reclaim(handle).is_none();
    ticket == expected && back && once && owners.pending(handle) == 0
}

// Withdraws an owner that another handle has lent all the same: it comes back once that loan has ended.
fn lent_all_the_same(alloc: Global, owners: &Owners, a: &mut Handle, b: &mut Handle) -> bool
    requires { (a.old.book ≡ owners.now) × (b.old.book ≡ owners.now) }
    ensures { (a.new.book ≡ owners.now) × (b.new.book ≡ owners.now) }
{
    let Ok(ticket) = owners.insert(alloc, a, 42) else {
        return false;
    };
    let lent = owners.lend(b, ticket) == Some(42);
    let kept = owners.withdraw(a, ticket).is_none() && owners.reclaim(a).is_none();
    owners.end(b);
    lent && kept && owners.reclaim(a) == Some((ticket, 42))
}

fn both(alloc: Global, owners: &Owners) -> Option<bool> {
    let mut a = handle_of(alloc, owners)?;
    let mut b = handle_of(alloc, owners)?;
    let first = withdrawn(alloc, owners, &mut a, 0);
    let again = withdrawn(alloc, owners, &mut a, HALF);
    let lent = lent_all_the_same(alloc, owners, &mut a, &mut b);
    owners.leave(a);
    owners.leave(b);
    Some(first && again && lent)
}

#[test]
fn a_withdrawn_owner_comes_back_at_once(rt: HostRuntime) -> Result<(), Fail> {
    let owners = Owners::new(rt.alloc())?;
    assert!(rt; both(rt.alloc(), &owners) == Some(true));
    Ok(())
}
