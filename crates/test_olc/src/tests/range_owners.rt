//! Ranges over owners of shared values: which shares they take, pass on and drop.

ghost use Rattle.std.specs.Prelude.{◌≡◌, ℕ, false, refl};
ghost use Rattle.std.specs.Arc.{arc_value};
ghost use Rattle.std.proofs.Common.{rules, ◌∙◌};
ghost use Rattle.std.proofs.lemmas.Bool.{false≢true};

use crate::tests::events::WHOLE;
use crate::tests::machine::{Shared, event};
use node_table::allocator::Budget;
use olc_machine::machine::Machine;
use spec_map::error::OOMError;
use spec_map::payload::Payload;
use spec_olc::payload::HasMeaning;
use spec_olc::types::{Op, Outcome, StartError};
use std::alloc::Global;
use std::cell::Cell;
use std::sync::Arc;
use std::test::Fail;

// Keys of three leaves, ascending.
const SHARED_KEYS: [u64; 4] = [1, 2, 256, 1 << 40];

// Values that are stored at these keys, each with one more owner.
fn store(machine: &mut Shared, alloc: Global) -> Result<Vec<Arc<u64>>, Fail> {
    let mut values = Vec::new(alloc);
    for key in SHARED_KEYS {
        let value = Arc::new(alloc, key)?;
        let op = Op::Insert(key, value.share()?);
        values.push(value)?;
        machine.start(0, &op)?;
        for _ in 0..WHOLE {
            machine.step(0, &op, event());
        }
    }
    Ok(values)
}

// How many pairs a range of all keys gives in so many events.
fn give(machine: &mut Shared, count: usize) -> Result<usize, StartError> {
    let op: Op<Arc<u64>> = Op::Range(0, u64::MAX, 99);
    machine.start(1, &op)?;
    let mut pairs = 0usize;
    for _ in 0..count {
        let (_, outcome) = machine.step(1, &op, event());
        if let Outcome::Pair(..) = outcome {
            pairs = pairs.saturating_add(1);
        }
    }
    Ok(pairs)
}

// Whether each value has so many owners.
pub(super) fn have_owners(values: &[Arc<u64>], count: usize) -> bool {
    for value in values {
        if Arc::strong_count(value) != count {
            return false;
        }
    }
    true
}

// Whether a range that ends gives all values, and leaves each with the owners that it had.
fn frees(alloc: Global) -> Result<bool, Fail> {
    let mut machine = Machine::new(alloc, Budget::new(1 << 16))?;
    let values = store(&mut machine, alloc)?;
    let before = have_owners(&values, 2);
    let pairs = give(&mut machine, 200)?;
    Ok(before && pairs == 4 && !machine.is_in_flight(1) && have_owners(&values, 2))
}

// The values that were stored in a machine which ended with a range in flight, after so many of its events.
fn outlived(alloc: Global, count: usize) -> Result<Vec<Arc<u64>>, Fail> {
    let mut machine = Machine::new(alloc, Budget::new(1 << 16))?;
    let values = store(&mut machine, alloc)?;
    give(&mut machine, count)?;
    Ok(values)
}

// Whether a range in flight leaves no owner behind, at none of its places.
fn leaves_none_behind(alloc: Global) -> Result<bool, Fail> {
    for count in 0..60 {
        if !have_owners(&outlived(alloc, count)?, 1) {
            return Ok(false);
        }
    }
    Ok(true)
}

#[test]
fn a_range_gives_each_share_back(rt: HostRuntime) -> Result<(), Fail> {
    assert!(rt; frees(rt.alloc())?);
    assert!(rt; leaves_none_behind(rt.alloc())?);
    Ok(())
}

/// An owner of a number, which is shared as often as a cell still allows.
#[derive(Drop)]
pub(super) struct Scarce<'a> {
    pub(super) number: Arc<u64>,
    pub(super) left: &'a Cell<u64>,
}

impl<'a> Payload for Scarce<'a> {
    ghost alike = { λ x y. arc_value y.number ≡ arc_value x.number };

    ghost tells_same = { λ _ _. false };

    ghost always_shared = { ⊥ };

    /// Refused once the cell has 0; else takes one from it.
    fn share(&self) -> Result<Scarce<'a>, OOMError> {
        let left = self.left.get();
        if left == 0 {
            return Err(OOMError::new());
        }
        self.left.set(left - 1);
        Ok(Scarce {
            number: self.number.share()?,
            left: self.left,
        })
    }

    fn same(&self, _other: &Scarce<'a>) -> bool {
        false
    }

    ghost alike_itself = { λ x. refl };

    ghost alike_onward = { λ x y z first second. second ∙ first };

    ghost same_is_equal = { Prim.search rules };
}

impl<'a> HasMeaning for Scarce<'a> {
    ghost Meaning = { ℕ };

    ghost meaning = { λ x. arc_value x.number };

    ghost same_meaning = { λ _ _. false };

    ghost alike_in_meaning = { λ x y e. e };

    ghost same_by_meaning = { λ x y. refl };

    ghost same_is_equal_meaning = { λ x y e. absurd (false≢true e) };
}

pub(super) type Rationed<'a> = Machine<Scarce<'a>, Budget>;

// What the events of a range report: how many pairs, whether they are the first of the stored ones, and whether the
// range is refused.
#[derive(Drop)]
struct Told {
    pairs: usize,
    right: bool,
    refused: bool,
}

impl Told {
    fn hear(&mut self, outcome: Outcome<Scarce<'_>>) {
        match outcome {
            Outcome::Pair(key, value) => {
                let awaited = SHARED_KEYS.get(self.pairs).copied();
                self.right = self.right && awaited == Some(key) && *value.number == key;
                self.pairs = self.pairs.saturating_add(1);
            }
            Outcome::Refused => self.refused = true,
            _ => {}
        }
    }
}

// What a range of all keys has reported at its end.
fn tell(machine: &mut Rationed<'_>) -> Result<Told, StartError> {
    let op: Op<Scarce<'_>> = Op::Range(0, u64::MAX, 99);
    machine.start(1, &op)?;
    let mut told = Told {
        pairs: 0,
        right: true,
        refused: false,
    };
    for _ in 0..200 {
        let (_, outcome) = machine.step(1, &op, event());
        told.hear(outcome);
    }
    Ok(told)
}

/// Values that are stored at these keys, each with one more owner.
pub(super) fn store_rationed<'a>(
    machine: &mut Rationed<'a>,
    alloc: Global,
    left: &'a Cell<u64>,
    keys: &[u64],
) -> Result<Vec<Arc<u64>>, Fail> {
    let mut values = Vec::new(alloc);
    for key in keys {
        let value = Arc::new(alloc, *key)?;
        let number = value.share()?;
        let op = Op::Insert(*key, Scarce { number, left });
        values.push(value)?;
        machine.start(0, &op)?;
        for _ in 0..WHOLE {
            machine.step(0, &op, event());
        }
    }
    Ok(values)
}

// Whether a range that gets so many shares, of which it takes two for each pair, gives the pairs that they are enough
// for, is refused if that isn't all, ends, and leaves each value with the owners that it had.
fn ends_with(alloc: Global, shares: u64) -> Result<bool, Fail> {
    let left = Cell::new(u64::MAX);
    let mut machine = Machine::new(alloc, Budget::new(1 << 16))?;
    let values = store_rationed(&mut machine, alloc, &left, &SHARED_KEYS)?;
    left.set(shares);
    let told = tell(&mut machine)?;
    let as_many = told.pairs as u64 == shares / 2 && told.refused == (shares < 8);
    Ok(told.right && as_many && !machine.is_in_flight(1) && have_owners(&values, 2))
}

#[test]
fn a_refused_share_ends_a_range(rt: HostRuntime) -> Result<(), Fail> {
    for shares in 0..10 {
        assert!(rt; ends_with(rt.alloc(), shares)?);
    }
    Ok(())
}
