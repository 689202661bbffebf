//! One thread: what is inserted is lent, and each owner comes back.
ghost use Rattle.std.specs.Prelude.{◌≡◌};

use std::alloc::Global;
use std::sync::{Arc, Wait};
use std::test::Fail;
use word_slots::log::SeenLog;
use word_slots::slots::Slots;

type Owners = Slots<Arc<u64>>;

// Inserts a further owner: its ticket.
fn inserted(
    alloc: Global,
    slots: &Owners,
    seen: &mut SeenLog<Arc<u64>>,
    owner: &Arc<u64>,
) -> Option<u64>
    requires { seen.old.book ≡ slots.now }
    ensures { seen.new.book ≡ seen.old.book }
{
    let one = Arc::try_clone(owner).ok()?;
    slots.insert(alloc, seen, 0, one).ok()
}

// A ticket that is retired while its value is lent is lent no more, and the value stays. Whether all was right.
fn stays<R: Wait>(
    rt: &R,
    slots: &Owners,
    seen: &mut SeenLog<Arc<u64>>,
    ticket: u64,
    owner: &Arc<u64>,
) -> bool
    requires { seen.old.book ≡ slots.now }
    ensures { seen.new.book ≡ seen.old.book }
{
    let Some(lent) = slots.lend(ticket) else {
        return false;
    };
    let retired = slots.retire(rt, ticket);
    let refused = slots.lend(ticket).is_none();
    let Err(back) = retired.into_inner(rt, seen) else {
        return false;
    };
    drop(back);
    refused && **lent.get() == 42 && Arc::strong_count(owner) == 2
}

#[test]
fn a_value_is_lent_until_its_last_reader(rt: HostRuntime) -> Result<(), Fail> {
    let slots: Owners = Slots::new(rt.alloc())?;
    let mut seen = slots.seen();
    let owner = Arc::new(rt.alloc(), 42u64)?;
    let ticket = inserted(rt.alloc(), &slots, &mut seen, &owner).ok_or("inserted")?;
    assert_eq!(rt; (ticket, Arc::strong_count(&owner)), (0, 2));
    assert!(rt; stays(&rt, &slots, &mut seen, ticket, &owner));
    assert_eq!(rt; Arc::strong_count(&owner), 1);
    let again = inserted(rt.alloc(), &slots, &mut seen, &owner).ok_or("again")?;
    assert_eq!(rt; again, 0x1_0000_0000);
    assert!(rt; slots.lend(ticket).is_none());
    Ok(())
}

#[test]
fn a_value_is_taken_out(rt: HostRuntime) -> Result<(), Fail> {
    let slots: Owners = Slots::new(rt.alloc())?;
    let mut seen = slots.seen();
    let owner = Arc::new(rt.alloc(), 42u64)?;
    let ticket = inserted(rt.alloc(), &slots, &mut seen, &owner).ok_or("inserted")?;
    let taken = slots.take(&rt, &mut seen, ticket);
    assert_eq!(rt; (*taken, Arc::strong_count(&owner)), (42, 2));
    drop(taken);
    assert_eq!(rt; Arc::strong_count(&owner), 1);
    Ok(())
}

#[test]
fn a_table_drops_its_values(rt: HostRuntime) -> Result<(), Fail> {
    let slots: Owners = Slots::new(rt.alloc())?;
    let mut seen = slots.seen();
    let owner = Arc::new(rt.alloc(), 42u64)?;
    for _ in 0..200u32 {
        assert!(rt; inserted(rt.alloc(), &slots, &mut seen, &owner).is_some());
    }
    assert_eq!(rt; Arc::strong_count(&owner), 201);
    drop(slots);
    assert_eq!(rt; Arc::strong_count(&owner), 1);
    Ok(())
}
