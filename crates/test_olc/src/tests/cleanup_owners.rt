//! Cleanups over owners of shared values: which shares they take and free.

use crate::tests::events::WHOLE;
use crate::tests::machine::event;
use crate::tests::range_owners::{Rationed, Scarce, have_owners, store_rationed};
use node_table::allocator::Budget;
use olc_machine::machine::Machine;
use spec_olc::types::{Kind, Op, Outcome, StartError};
use std::alloc::Global;
use std::cell::Cell;
use std::sync::Arc;
use std::test::Fail;

// The keys of a leaf of five, and of one of 17.
const FIVE: [u64; 5] = [0, 1, 2, 3, 4];

const SEVENTEEN: [u64; 17] = [0, 1, 2, 3, 4, 5, 6, 7, 8, 9, 10, 11, 12, 13, 14, 15, 16];

// The events of a removal.
#[derive(Clone, Copy)]
struct Summary {
    events: usize,
    decided: bool,
    refused: bool,
    // Whether a smaller node was made.
    made: bool,
}

// What a call alone that removes a key may do: so many events at most, and so many shares once it is decided.
#[derive(Clone, Copy)]
struct May<'a> {
    events: usize,
    left: &'a Cell<u64>,
    shares: u64,
}

fn all<'a>(left: &'a Cell<u64>) -> May<'a> {
    May {
        events: WHOLE,
        left,
        shares: u64::MAX,
    }
}

// Removes a key.
fn remove(machine: &mut Rationed<'_>, key: u64, may: May<'_>) -> Result<Summary, StartError> {
    let op: Op<Scarce<'_>> = Op::Remove(key);
    machine.start(0, &op)?;
    let mut summary = Summary {
        events: 1,
        decided: false,
        refused: false,
        made: false,
    };
    for _ in 1..may.events {
        if !machine.is_in_flight(0) {
            break;
        }
        let (report, outcome) = machine.step(0, &op, event());
        summary.events = summary.events.saturating_add(1);
        if let Outcome::Decided(_) = outcome {
            summary.decided = true;
            may.left.set(may.shares);
        }
        summary.refused |= matches!(outcome, Outcome::Refused);
        summary.made |= report.kind == Kind::Make && report.slot.is_some();
    }
    Ok(summary)
}

// Removes the keys from one on below another.
fn remove_all(
    machine: &mut Rationed<'_>,
    left: &Cell<u64>,
    from: u64,
    to: u64,
) -> Result<(), StartError> {
    for key in from..to {
        remove(machine, key, all(left))?;
    }
    for _ in 0..WHOLE {
        machine.reclaim_next();
    }
    Ok(())
}

// Whether the values of the first so many keys have two owners, and those behind them one.
fn are_split(values: &[Arc<u64>], stored: u64) -> bool {
    for value in values {
        let owners = if **value < stored { 2 } else { 1 };
        if Arc::strong_count(value) != owners {
            return false;
        }
    }
    true
}

// Whether one of 13 keys is removed, with so many shares for the twelve that the smaller leaf has, and the next one with
// all: both end as decided; the leaf is made where there are enough shares, and else by the next removal.
fn remove_right(machine: &mut Rationed<'_>, may: May<'_>) -> Result<bool, StartError> {
    let enough = may.shares >= 12;
    let first = remove(machine, 12, may)?;
    may.left.set(u64::MAX);
    let next = remove(machine, 11, all(may.left))?;
    remove_all(machine, may.left, 17, 17)?;
    let events = if enough { 25 } else { 24 };
    Ok(
        first.decided
            && !first.refused
            && first.made == enough
            && next.made == !enough
            && first.events == events,
    )
}

// Whether `remove_right` holds on a machine of 13 keys with so many shares, and each value has its owners in the end.
fn ends_with(alloc: Global, shares: u64) -> Result<bool, Fail> {
    let left = Cell::new(u64::MAX);
    let mut machine = Machine::new(alloc, Budget::new(1 << 16))?;
    let values = store_rationed(&mut machine, alloc, &left, &SEVENTEEN)?;
    remove_all(&mut machine, &left, 13, 17)?;
    let may = May {
        shares,
        ..all(&left)
    };
    Ok(remove_right(&mut machine, may)? && are_split(&values, 11))
}

#[test]
fn a_refused_share_ends_a_cleanup(rt: HostRuntime) -> Result<(), Fail> {
    for shares in 0..14 {
        assert!(rt; ends_with(rt.alloc(), shares)?);
    }
    Ok(())
}

// The values that were stored in a machine which ended with a cleanup in flight, after so many events of its call.
fn outlived(alloc: Global, events: usize) -> Result<Vec<Arc<u64>>, Fail> {
    let left = Cell::new(u64::MAX);
    let mut machine = Machine::new(alloc, Budget::new(1 << 16))?;
    let values = store_rationed(&mut machine, alloc, &left, &FIVE)?;
    remove_all(&mut machine, &left, 4, 5)?;
    let may = May {
        events,
        ..all(&left)
    };
    remove(&mut machine, 3, may)?;
    Ok(values)
}

// Whether a cleanup in flight leaves no owner behind, at none of its places.
fn leaves_none_behind(alloc: Global) -> Result<bool, Fail> {
    for events in 1..26 {
        if !have_owners(&outlived(alloc, events)?, 1) {
            return Ok(false);
        }
    }
    Ok(true)
}

#[test]
fn a_cleanup_gives_each_share_back(rt: HostRuntime) -> Result<(), Fail> {
    assert!(rt; leaves_none_behind(rt.alloc())?);
    Ok(())
}
