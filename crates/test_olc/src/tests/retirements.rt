//! Pins whose count of retirements is at its last values.

use olc_words::epoch::Pins;
use spec_map::error::OOMError;
use std::alloc::Global;
use std::test::Fail;

// What is found of two retirements, of which the last that can be counted is the first.
#[derive(Drop)]
struct Found {
    // The pin of a call that started between them, and the counts after each.
    counts: [u64; 3],
    // Whether these may be reclaimed: the first slot beside the first call; the first and the second beside the calls that
    // started after the retirements; the second once no call is in flight.
    may: [bool; 4],
    // What is reclaimed next, then and once the first slot is forgotten.
    next: [Option<usize>; 2],
}

// Two nodes are retired, the first beside a call in flight. A call starts after each.
fn made_by_two(alloc: Global) -> Result<Found, OOMError> {
    let mut pins = Pins::at_count(alloc, u64::MAX - 1);
    pins.admit(3)?;
    pins.admit(4)?;
    pins.enter(5)?;
    pins.retire(3);
    let first_count = pins.count();
    let beside_the_first = pins.may_reclaim(3);
    pins.enter(6)?;
    pins.leave(5);
    pins.retire(4);
    pins.enter(7)?;
    let counts = [pins.pin(6).unwrap_or(0), first_count, pins.count()];
    let (first, second) = (pins.may_reclaim(3), pins.may_reclaim(4));
    let next = pins.reclaimable();
    pins.leave(6);
    pins.leave(7);
    let may = [beside_the_first, first, second, pins.may_reclaim(4)];
    if pins.may_reclaim(3) {
        pins.forget(3);
    }
    let next = [next, pins.reclaimable()];
    Ok(Found { counts, may, next })
}

#[test]
fn the_last_counted_retirement_is_reclaimed_and_the_next_never(
    rt: HostRuntime,
) -> Result<(), Fail> {
    let found = made_by_two(rt.alloc())?;
    assert!(rt; found.counts == [u64::MAX; 3]);
    assert!(rt; found.may == [false, true, false, false]);
    assert!(rt; found.next == [Some(3), None]);
    Ok(())
}
