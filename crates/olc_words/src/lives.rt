//! What is known of each slot, in a vector by slot: a slab gives freed slots out again before new ones, so slots are
//! small and dense, and each is found in one step, where a map would be searched.
//!
//! Tested in `test_olc`.

ghost use Rattle.std.specs.Prelude.{◌≡◌, ℕ, ◌<◌, Some, None, IsSome, OnOk, OnErr, length, []};
ghost use Rattle.olc_words.specs.Epoch.{admitted, entry_at};
ghost use Rattle.olc_words.specs.Lives.{life_in, lives_from, SetsLife};

use crate::epoch::Life;
use spec_map::error::OOMError;
use std::alloc::Global;
use std::marker::Model;

// What is at a slot, in 16 bytes where an `Option<Life>` has 32.
#[derive(Clone, Copy)]
enum Place {
    Empty,
    Occupied,
    Counted(u64),
    Uncounted,
}

impl Place {
    fn of(life: Life) -> Self
        ensures { life_in result ≡ Some life }
    {
        match life {
            Life::InUse => Place::Occupied,
            Life::Retired(Some(stamp)) => Place::Counted(stamp),
            Life::Retired(None) => Place::Uncounted,
        }
    }

    fn life(self) -> Option<Life>
        ensures { result ≡ life_in self }
    {
        match self {
            Place::Empty => None,
            Place::Occupied => Some(Life::InUse),
            Place::Counted(stamp) => Some(Life::Retired(Some(stamp))),
            Place::Uncounted => Some(Life::Retired(None)),
        }
    }
}

// Lengthens the places until the slot is one of them. A refusal changes nothing.
fn reach(places: &mut Vec<Place>, slot: usize) -> Result<(), OOMError>
    ensures lives { lives_from 0 places.new.items ≡ lives_from 0 places.old.items }
    ensures ok { OnOk result (slot < length places.new.items) }
{
    if slot >= places.len() {
        let Some(len) = slot.checked_add(1) else {
            return Err(OOMError::new());
        };
        places.resize(len, Place::Empty)?;
    }
    Ok(())
}

/// The lives of the admitted slots.
#[derive(Drop)]
pub struct Lives {
    places: Vec<Place>,
}

impl Model for Lives {
    ghost use Rattle.std.specs.Prelude.{ℕ, List};
    ghost use Rattle.olc_words.specs.declared.epoch.Life.{Life};
    ghost use Rattle.olc_words.specs.Lives.{lives_from};

    ghost Value = { List (ℕ × Life) };

    ghost view = { λ l. lives_from 0 l.places.items };
}

impl Lives {
    /// No slot is admitted. Takes no memory.
    pub fn new(alloc: Global) -> Self
        ensures { result ≡ [] }
    {
        Lives {
            places: Vec::new(alloc),
        }
    }

    /// The life of a slot; `None` where it isn't admitted.
    pub fn at(&self, slot: usize) -> Option<Life>
        ensures { result ≡ entry_at self.now slot }
    {
        match self.places.get(slot) {
            Some(place) => place.life(),
            None => None,
        }
    }

    /// Each admitted slot is below this one.
    pub fn end(&self) -> usize
        ensures { (slot : ℕ) → IsSome (entry_at self.now slot) → slot < result }
    {
        self.places.len()
    }

    /// Takes a slot in use. One that was admitted before stays as it was. A refusal changes nothing.
    pub fn admit(&mut self, slot: usize) -> Result<(), OOMError>
        ensures ok { OnOk result
            (SetsLife self.old self.new slot (Some (admitted (entry_at self.old slot)))) }
        ensures err { OnErr result (self.new ≡ self.old) }
    {
        if self.at(slot).is_none() {
            reach(&mut self.places, slot)?;
            self.places[slot] = Place::Occupied;
        }
        Ok(())
    }

    /// Gives an admitted slot another life.
    pub fn put(&mut self, slot: usize, life: Life)
        requires { IsSome (entry_at self.old slot) }
        ensures { SetsLife self.old self.new slot (Some life) }
    {
        self.places[slot] = Place::of(life);
    }

    /// Forgets a slot, and returns its life.
    pub fn remove(&mut self, slot: usize) -> Option<Life>
        ensures value { result ≡ entry_at self.old slot }
        ensures gone { SetsLife self.old self.new slot None }
    {
        let life = self.at(slot);
        if life.is_some() {
            self.places[slot] = Place::Empty;
        }
        life
    }
}
