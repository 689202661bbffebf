//! Each call of the machine once, on machines of few pairs.
//!
//! A test owns no machine, since the check expands the drop of each owned value at each assertion: one helper works on
//! a machine that it borrows, and a second one makes that machine and returns a small value.

use crate::tests::events::{MANY, WHOLE};
use node_table::allocator::{Budget, DefaultAllocator};
use olc_machine::machine::Machine;
use spec_map::error::OOMError;
use spec_node::child::Child;
use spec_olc::types::{Env, Kind, Op, Outcome, Reply, Seen, StartError};
use std::alloc::Global;
use std::sync::Arc;
use std::test::Fail;

/// A machine of numbers that no budget limits.
pub(super) type Numbers = Machine<u64, DefaultAllocator>;

/// An event that brings nothing.
pub(super) fn event<P: Drop>() -> Env<P> {
    let child: Option<Child<P>> = None;
    let torn = Seen {
        child,
        count: 0,
        full: false,
    };
    Env {
        torn,
        fail: false,
        answer: None,
    }
}

// Inserts a pair by a call of number 0 that runs alone.
fn insert(machine: &mut Numbers, key: u64, value: u64) -> Result<(), StartError> {
    let op = Op::Insert(key, value);
    machine.start(0, &op)?;
    for _ in 0..MANY {
        let (_, _) = machine.step(0, &op, event());
    }
    Ok(())
}

fn insert_all(machine: &mut Numbers, pairs: &[(u64, u64)]) -> Result<(), StartError> {
    for (key, value) in pairs {
        insert(machine, *key, *value)?;
    }
    Ok(())
}

// A machine that stores these pairs.
fn of_pairs(alloc: Global, pairs: &[(u64, u64)]) -> Result<Numbers, Fail> {
    let mut machine = Machine::new(alloc, DefaultAllocator {})?;
    insert_all(&mut machine, pairs)?;
    Ok(machine)
}

const ONE: [(u64, u64); 1] = [(1, 42)];

// The kinds of the events of a Get of the one pair, after its start.
const COURSE: [Kind; 8] = [
    Kind::Take,
    Kind::Read,
    Kind::Check,
    Kind::Take,
    Kind::Check,
    Kind::Read,
    Kind::Check,
    Kind::Finish,
];

// Whether the call of number 7 has read 42 last, the only child of its node.
fn has_seen(machine: &Numbers) -> bool {
    match machine.seen(7) {
        Some(
            Seen {
                child: Some(Child::Payload(value)),
                count,
                full,
            },
        ) => *value == 42 && *count == 1 && !*full,
        _ => false,
    }
}

// How many events of the call have the kinds that they should have; the last Read, and the reply, count once more.
fn follow(machine: &mut Numbers) -> u64 {
    let mut right = 0u64;
    for kind in COURSE {
        let (report, outcome) = machine.step(7, &Op::Get(1), event());
        if report.kind == kind {
            right = right.saturating_add(1);
        }
        if kind == Kind::Read && has_seen(machine)
            || matches!(outcome, Outcome::Decided(Reply::Old(Some(42))))
        {
            right = right.saturating_add(1);
        }
    }
    right
}

fn finds(machine: &mut Numbers) -> bool {
    let started = machine.start(7, &Op::Get(1)).is_ok() && machine.is_in_flight(7);
    started && follow(machine) == 10 && !machine.is_in_flight(7)
}

fn finds_one(alloc: Global) -> Result<bool, Fail> {
    let mut machine = of_pairs(alloc, &ONE)?;
    Ok(finds(&mut machine))
}

#[test]
fn a_get_takes_its_course(rt: HostRuntime) -> Result<(), Fail> {
    assert!(rt; finds_one(rt.alloc())?);
    Ok(())
}

// Whether number 0 is stepped by this call.
fn is_stepped(machine: &mut Numbers, op: &Op<u64>) -> bool {
    let (_, outcome) = machine.step(0, op, event());
    !matches!(outcome, Outcome::Unknown)
}

// Whether no call but the one in flight is stepped, and none is started beside it.
fn keeps_to_its_call(machine: &mut Numbers) -> bool {
    let before = is_stepped(machine, &Op::Get(1));
    let started = machine.start(0, &Op::Get(1)).is_ok();
    let other_key = is_stepped(machine, &Op::Get(2));
    let other_kind = is_stepped(machine, &Op::Remove(1));
    let again = matches!(machine.start(0, &Op::Get(1)), Err(StartError::InFlight));
    let itself = is_stepped(machine, &Op::Get(1));
    !before && started && !other_key && !other_kind && again && itself && machine.seen(0).is_none()
}

fn keeps_to_one(alloc: Global) -> Result<bool, Fail> {
    let mut machine = of_pairs(alloc, &ONE)?;
    Ok(keeps_to_its_call(&mut machine))
}

#[test]
fn only_the_call_in_flight_is_stepped(rt: HostRuntime) -> Result<(), Fail> {
    assert!(rt; keeps_to_one(rt.alloc())?);
    Ok(())
}

// The numbers that are seated: the first, one beside a call in flight, and one after the first was unseated.
fn seats(machine: &mut Numbers) -> Result<(u64, u64, u64), Fail> {
    let first = machine.seat()?;
    machine.start(1, &Op::Get(1))?;
    let second = machine.seat()?;
    machine.unseat(first);
    Ok((first, second, machine.seat()?))
}

fn are_least(alloc: Global) -> Result<bool, Fail> {
    let mut machine = of_pairs(alloc, &ONE)?;
    Ok(seats(&mut machine)? == (0, 2, 0))
}

#[test]
fn seats_are_the_least_free_numbers(rt: HostRuntime) -> Result<(), Fail> {
    assert!(rt; are_least(rt.alloc())?);
    Ok(())
}

// Whether a machine has these pairs by their list and by their count.
fn shows(machine: &Numbers, alloc: Global, pairs: &[(u64, u64)]) -> Result<bool, OOMError> {
    machine.law_well_formed();
    let content = machine.content(alloc)?;
    let keys: Vec<u64> = machine.keys(alloc)?;
    Ok(
        content.as_slice() == pairs
            && keys.len() == pairs.len()
            && machine.entry_count() == pairs.len() as u128,
    )
}

fn shows_all(alloc: Global, pairs: &[(u64, u64)]) -> Result<bool, Fail> {
    let machine = of_pairs(alloc, pairs)?;
    Ok(shows(&machine, alloc, pairs)?)
}

#[test]
fn the_content_is_all_that_is_stored(rt: HostRuntime) -> Result<(), Fail> {
    assert!(rt; shows_all(rt.alloc(), &[])?);
    assert!(rt; shows_all(rt.alloc(), &ONE)?);
    assert!(rt; shows_all(rt.alloc(), &THREE)?);
    Ok(())
}

fn has_room_for_the_root(alloc: Global, bytes: u64) -> bool {
    let machine: Result<Machine<u64, Budget>, OOMError> = Machine::new(alloc, Budget::new(bytes));
    machine.is_ok()
}

#[test]
fn the_root_is_charged(rt: HostRuntime) {
    assert!(rt; !has_room_for_the_root(rt.alloc(), 2103));
    assert!(rt; has_room_for_the_root(rt.alloc(), 2104));
}

const THREE: [(u64, u64); 3] = [(0, 0), (1, 1), (256, 5)];

// How many nodes and how many entries a level has, by form.
type Level = ([u64; 4], [u64; 4]);

// The root's level first: two leaves below an inner node, and what is left once the only key of the second leaf is
// removed.
const TWO_LEAVES: [Level; 3] = [
    ([0, 0, 0, 1], [0, 0, 0, 1]),
    ([1, 0, 0, 0], [2, 0, 0, 0]),
    ([2, 0, 0, 0], [3, 0, 0, 0]),
];

const ONE_LEAF: [Level; 3] = [
    ([0, 0, 0, 1], [0, 0, 0, 1]),
    ([1, 0, 0, 0], [1, 0, 0, 0]),
    ([1, 0, 0, 0], [2, 0, 0, 0]),
];

// Whether the statistics are these.
fn has_stats(machine: &Numbers, levels: &[Level], pairs: u64) -> Result<bool, OOMError> {
    let stats = machine.stats()?;
    let told = stats.levels.as_slice();
    let agree = told
        .iter()
        .zip(levels)
        .all(|(told, level)| (told.nodes, told.entries) == *level);
    Ok(agree && told.len() == levels.len() && stats.kv_pairs == pairs)
}

// Whether a removal that runs alone ends.
fn removes(machine: &mut Numbers, key: u64) -> bool {
    let op = Op::Remove(key);
    let started = machine.start(0, &op).is_ok();
    for _ in 0..WHOLE {
        machine.step(0, &op, event());
    }
    started && !machine.is_in_flight(0)
}

// Whether the leaf of the removed key isn't counted any more, though it keeps its slot until it is reclaimed, once.
fn counts_what_is_reached(machine: &mut Numbers) -> Result<bool, OOMError> {
    let before = has_stats(machine, &TWO_LEAVES, 3)? && !machine.reclaim_next();
    let removed = removes(machine, 256) && has_stats(machine, &ONE_LEAF, 2)?;
    let reclaimed = machine.reclaim_next() && !machine.reclaim_next();
    Ok(before && removed && reclaimed && has_stats(machine, &ONE_LEAF, 2)?)
}

fn counts_two_leaves(alloc: Global) -> Result<bool, Fail> {
    let mut machine = of_pairs(alloc, &THREE)?;
    Ok(counts_what_is_reached(&mut machine)?)
}

#[test]
fn a_removed_leaf_is_not_counted(rt: HostRuntime) -> Result<(), Fail> {
    assert!(rt; counts_two_leaves(rt.alloc())?);
    Ok(())
}

// Whether the leaf in slot 1 is reclaimed by its number, and not before it is retired.
fn reclaims_a_slot(machine: &mut Numbers) -> bool {
    let before = machine.reclaim(1);
    let removed = removes(machine, 1);
    !before && removed && machine.reclaim(1) && !machine.reclaim(1)
}

fn reclaims_one(alloc: Global) -> Result<bool, Fail> {
    let mut machine = of_pairs(alloc, &ONE)?;
    Ok(reclaims_a_slot(&mut machine))
}

#[test]
fn a_removed_leaf_is_reclaimed_by_its_slot(rt: HostRuntime) -> Result<(), Fail> {
    assert!(rt; reclaims_one(rt.alloc())?);
    Ok(())
}

// The first pair from a key on.
fn pair_from(machine: &Numbers, start: u64) -> Option<(u64, u64)> {
    let (key, payload) = machine.pair_from(start)?;
    Some((key, *payload))
}

fn finds_pairs(alloc: Global) -> Result<bool, Fail> {
    let machine = of_pairs(alloc, &THREE)?;
    Ok(
        pair_from(&machine, 0) == Some((0, 0))
            && pair_from(&machine, 2) == Some((256, 5))
            && pair_from(&machine, 257).is_none(),
    )
}

#[test]
fn pairs_from_a_key_on_are_found(rt: HostRuntime) -> Result<(), Fail> {
    assert!(rt; finds_pairs(rt.alloc())?);
    Ok(())
}

/// A machine whose payloads are shared.
pub(super) type Shared = Machine<Arc<u64>, Budget>;

// The previous value of the key, or the current one that an exchange didn't replace, if the outcome decides a call.
fn number(outcome: Outcome<Arc<u64>>) -> Option<u64> {
    match outcome {
        Outcome::Decided(Reply::Old(Some(value))) => Some(*value),
        Outcome::Decided(Reply::Exchanged(Err(Some(value)))) => Some(*value),
        _ => None,
    }
}

// The number in the reply to a call alone.
fn reply_alone(machine: &mut Shared, op: &Op<Arc<u64>>) -> Option<u64> {
    if machine.start(0, op).is_err() {
        return None;
    }
    let mut told = None;
    for _ in 0..14 {
        let (_, outcome) = machine.step(0, op, event());
        told = told.or(number(outcome));
    }
    told
}

// Whether an exchange of another payload than the stored one, which is never the same, leaves that to a removal.
fn keeps_and_removes(machine: &mut Shared, alloc: Global) -> Result<bool, Fail> {
    let stored = Op::Insert(1, Arc::new(alloc, 42)?);
    reply_alone(machine, &stored);
    let other = Op::CompareExchange(1, Arc::new(alloc, 42)?, None);
    let exchanged = reply_alone(machine, &other);
    let remove: Op<Arc<u64>> = Op::Remove(1);
    Ok(exchanged == Some(42) && reply_alone(machine, &remove) == Some(42))
}

fn keeps_shared(alloc: Global) -> Result<bool, Fail> {
    let mut machine = Machine::new(alloc, Budget::new(4096))?;
    Ok(keeps_and_removes(&mut machine, alloc)? && machine.entry_count() == 0)
}

#[test]
fn shared_payloads_are_kept_and_removed(rt: HostRuntime) -> Result<(), Fail> {
    assert!(rt; keeps_shared(rt.alloc())?);
    Ok(())
}
