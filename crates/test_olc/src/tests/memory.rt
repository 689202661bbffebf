//! Runs in which the machine's own memory is refused once.
//!
//! `rt try --test --fail-alloc N` refuses the Nth request of each test. What is refused here is asked for once more, so
//! that these tests pass for every N: a refusal is reported, and changes nothing else.

use crate::tests::history::is_content;
use crate::tests::machine::{Numbers, event};
use node_table::allocator::DefaultAllocator;
use olc_machine::machine::Machine;
use spec_map::error::OOMError;
use spec_olc::types::{Op, Outcome, Reply};
use std::alloc::{AllocError, Global};
use std::collections::BTreeMap;
use std::test::Fail;

// 60 keys of one leaf, 60 below one inner node, 40 sparse ones, and the first ones again.
fn key_at(id: u64) -> u64 {
    if id < 60 {
        id
    } else if id < 120 {
        id.wrapping_sub(59).wrapping_mul(256)
    } else if id < 160 {
        id.wrapping_mul(0x9e37_79b9_7f4a_7c15)
    } else {
        id.wrapping_sub(160)
    }
}

// Puts the number's pair into the map, and returns the previous value of its key.
fn put(map: &mut BTreeMap<u64, u64>, id: u64) -> Result<Option<u64>, AllocError> {
    if let Ok(before) = map.insert(key_at(id), id) {
        return Ok(before);
    }
    Ok(map.insert(key_at(id), id)?)
}

// The results of the insertions so far.
#[derive(Clone, Copy)]
struct Told {
    started: u64,
    decided: u64,
    refused: u64,
    // Whether each reply was the map's.
    agrees: bool,
}

fn nothing() -> Told {
    Told {
        started: 0,
        decided: 0,
        refused: 0,
        agrees: true,
    }
}

impl Told {
    // Starts the insertion of a number's pair.
    fn start(&mut self, machine: &mut Numbers, id: u64) {
        self.started = self.started.wrapping_add(1);
        if machine.start(id, &Op::Insert(key_at(id), id)).is_err() {
            self.refused = self.refused.wrapping_add(1);
        }
    }

    // One event of it. Where it decides, the map gets the pair too. Returns whether it goes on.
    fn step(
        &mut self,
        machine: &mut Numbers,
        map: &mut BTreeMap<u64, u64>,
        id: u64,
    ) -> Result<bool, AllocError> {
        match machine.step(id, &Op::Insert(key_at(id), id), event()) {
            (_, Outcome::Decided(Reply::Old(before))) => {
                self.decided = self.decided.wrapping_add(1);
                self.agrees = self.agrees && put(map, id)? == before;
            }
            (_, Outcome::Refused) => self.refused = self.refused.wrapping_add(1),
            _ => {}
        }
        Ok(machine.is_in_flight(id))
    }

    // One event of each of so many from a number on. Returns whether any goes on.
    fn step_each(
        &mut self,
        machine: &mut Numbers,
        map: &mut BTreeMap<u64, u64>,
        from: u64,
        width: u64,
    ) -> Result<bool, AllocError> {
        let mut goes_on = false;
        for i in 0..width {
            goes_on |= self.step(machine, map, from.wrapping_add(i))?;
        }
        Ok(goes_on)
    }

    // So many insertions from a number on, one event of each in turn.
    fn insert(
        &mut self,
        machine: &mut Numbers,
        map: &mut BTreeMap<u64, u64>,
        from: u64,
        width: u64,
    ) -> Result<(), AllocError> {
        for i in 0..width {
            self.start(machine, from.wrapping_add(i));
        }
        for _ in 0..400 {
            if !self.step_each(machine, map, from, width)? {
                break;
            }
        }
        Ok(())
    }

    // So many insertions from a number on, one event of each in turn, and then again those that the map lacks.
    fn insert_all(
        &mut self,
        machine: &mut Numbers,
        map: &mut BTreeMap<u64, u64>,
        from: u64,
        width: u64,
    ) -> Result<(), AllocError> {
        self.insert(machine, map, from, width)?;
        for i in 0..width {
            let id = from.wrapping_add(i);
            if map.get(&key_at(id)) != Some(&id) {
                self.insert(machine, map, id, 1)?;
            }
        }
        Ok(())
    }

    // Whether so many insertions were decided with the map's replies, and all others were refused, one at most.
    fn is_right(&self, decided: u64) -> bool {
        self.agrees
            && self.decided == decided
            && self.refused <= 1
            && self.started == self.decided.wrapping_add(self.refused)
    }
}

fn content(machine: &Numbers, alloc: Global) -> Result<Vec<(u64, u64)>, OOMError> {
    if let Ok(content) = machine.content(alloc) {
        return Ok(content);
    }
    machine.content(alloc)
}

// Whether so many insertions in so many rounds are right on this machine, and leave the map's content.
fn are_right(
    machine: &mut Numbers,
    alloc: Global,
    rounds: u64,
    width: u64,
) -> Result<bool, OOMError> {
    let mut map = BTreeMap::new(alloc);
    let mut told = nothing();
    for round in 0..rounds {
        told.insert_all(machine, &mut map, round.wrapping_mul(width), width)?;
    }
    let content = content(machine, alloc)?;
    Ok(told.is_right(192) && map.len() == 160 && is_content(&map, &content))
}

fn fresh(alloc: Global) -> Result<Numbers, OOMError> {
    if let Ok(machine) = Machine::new(alloc, DefaultAllocator {}) {
        return Ok(machine);
    }
    Machine::new(alloc, DefaultAllocator {})
}

// Whether so many insertions in so many rounds are right on a fresh machine, and leave the map's content.
fn are_right_on_a_machine(alloc: Global, rounds: u64, width: u64) -> Result<bool, OOMError> {
    let mut machine = fresh(alloc)?;
    are_right(&mut machine, alloc, rounds, width)
}

#[test]
fn one_refusal_loses_one_insertion_at_most(rt: HostRuntime) -> Result<(), Fail> {
    assert!(rt; are_right_on_a_machine(rt.alloc(), 192, 1)?);
    Ok(())
}

#[test]
fn one_refusal_of_many_at_once_too(rt: HostRuntime) -> Result<(), Fail> {
    assert!(rt; are_right_on_a_machine(rt.alloc(), 12, 16)?);
    Ok(())
}

// Whether numbers are seated one after another, and each starts.
fn are_seated(machine: &mut Numbers) -> Result<bool, OOMError> {
    for id in 0..40 {
        let seat = match machine.seat() {
            Ok(seat) => seat,
            Err(_) => machine.seat()?,
        };
        if seat != id || machine.start(id, &Op::Get(id)).is_err() {
            return Ok(false);
        }
    }
    Ok(true)
}

fn are_seated_on_a_machine(alloc: Global) -> Result<bool, OOMError> {
    let mut machine = fresh(alloc)?;
    are_seated(&mut machine)
}

#[test]
fn a_refused_seat_leaves_its_number(rt: HostRuntime) -> Result<(), Fail> {
    assert!(rt; are_seated_on_a_machine(rt.alloc())?);
    Ok(())
}
