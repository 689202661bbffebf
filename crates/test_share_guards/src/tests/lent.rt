//! Seats of the lock, while another thread is just being given one.

ghost use Rattle.std.specs.Prelude.{◌≡◌, [], None, false};

use share_rule::lock::Lock;
use share_rule::rule::Protected;
use std::alloc::Global;
use std::test::Fail;

// What lies under the lock: an empty map, and no number.
#[derive(Drop)]
struct Nothing;

impl Protected<u64, u64> for Nothing {
    ghost use Rattle.std.specs.Prelude.{◌≡◌, [], None, false};

    ghost same = { λ _ _. false };

    ghost content = { λ _ m. m ≡ [] };

    ghost place = { λ _ _. None };
}

// Whether a seat is had while the one that the others are made from is lent, and whether one is had after that.
fn before_and_after(alloc: Global) -> Result<(bool, bool), Fail> {
    let lock = Lock::<u64, u64, Nothing>::new(alloc, Nothing)?;
    let lent = lock.resting_seat().ok_or("no seat rested")?;
    let before = lock.seat().is_some();
    lock.leave(lent);
    Ok((before, lock.seat().is_some()))
}

#[test]
fn no_seat_while_one_is_lent(rt: HostRuntime) -> Result<(), Fail> {
    let found = before_and_after(rt.alloc())?;
    assert!(rt; found == (false, true));
    Ok(())
}
