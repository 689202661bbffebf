//! Pins: which calls are in flight, since when, and which retired nodes none of them can still step on.
//!
//! A pin is the count of retirements at a call's start. A node that was retired when the count was n may be reclaimed
//! once every call in flight has a pin above n. The count saturates at `2^64 - 1`; nodes that are retired from then on
//! are kept until the tree is dropped.
//!
//! Tested in `test_olc`.

ghost use Rattle.std.specs.Prelude.{◌≡◌, ℕ, ◌<◌, ◌≤◌, ◌⊎◌, ◌↔◌, true, false, IsTrue, Some, None, IsSome, IfSome, IfNone, IsOk, OnOk, OnErr, []};
ghost use Rattle.olc_words.specs.Epoch.{is_seated, pin_of, life_of, ChangesSeat, ChangesLife, admitted, StartedAfter, AllStartedAfter, IsReclaimable};
ghost use Rattle.std.specs.VecDeque.{deque_capacity};
ghost use Rattle.spec_olc.specs.Retirement.{stamp_at, count_after};
ghost use Rattle.olc_words.specs.Waiting.{Ascends, Waits, IsFirstWaiting, IsListed, IsWithout};

use crate::lives::Lives;
use spec_map::error::OOMError;
use std::alloc::Global;
use std::collections::{BTreeMap, VecDeque};
use std::marker::Model;

/// A number's place: whether room is kept for it, and the pin of its call in flight.
#[derive(Clone, Copy)]
pub struct Seat {
    pub seated: bool,
    pub pin: Option<u64>,
}

/// Whether the node in an admitted slot is retired, and at which count; `None` where that wasn't counted any more.
#[derive(Clone, Copy)]
pub enum Life {
    InUse,
    Retired(Option<u64>),
}

/// The pins of calls in flight, and the slots of nodes.
///
/// Stamps ascend in the order of retirement, so of the retired slots the one that was retired first decides: if it may
/// not be reclaimed, none may. `waiting` has them in that order, and `whole` is true if it has all of them. It becomes
/// false only when there is no room for one; from then on a slot is searched for.
#[derive(Drop)]
pub struct Pins {
    seats: BTreeMap<u64, Seat>,
    slots: Lives,
    count: u64,
    waiting: VecDeque<(u64, usize)>,
    whole: bool,
}

impl Model for Pins {
    ghost use Rattle.olc_words.specs.Epoch.{PinsView};
    ghost use Rattle.olc_words.specs.Waiting.{IsQueue};

    ghost Value = { PinsView };

    ghost view = { λ p. record {
      seats = p.seats.entries;
      slots = p.slots;
      count = p.count;
    } };

    ghost invariant = { λ p. IsQueue p.slots p.count p.waiting.items p.whole };
}

// Whether the call of a seat, if one is in flight, started after the retirement with this stamp.
fn started_after(seat: &Seat, stamp: u64) -> bool
    ensures { IsTrue result ↔ StartedAfter stamp seat.now.pin }
{
    match seat.pin {
        Some(pin) => stamp < pin,
        None => true,
    }
}

// The stamp of a node that is retired now, while retirements are counted.
fn stamp_of(count: u64) -> Option<u64>
    ensures { result ≡ stamp_at count }
{
    if count < u64::MAX { Some(count) } else { None }
}

// Whether it is retired, and that was counted.
fn is_counted(life: &Option<Life>) -> bool
    ensures { IsTrue result ↔ ((stamp : ℕ) × (life.now ≡ Some (Life.Retired (Some stamp)))) }
{
    match life {
        Some(Life::Retired(Some(_))) => true,
        Some(Life::Retired(None)) => false,
        Some(Life::InUse) => false,
        None => false,
    }
}

// What was retired first, with its stamp.
fn first_of(waiting: &VecDeque<(u64, usize)>) -> Option<(u64, usize)>
    ensures { IsFirstWaiting waiting.now.items result }
{
    waiting.front().copied()
}

// Puts a slot behind those that wait, and returns whether all are among them.
fn listed(waiting: &mut VecDeque<(u64, usize)>, whole: bool, stamp: u64, slot: usize) -> bool
    ensures { IsListed whole stamp slot waiting.old.items waiting.new.items result }
{
    match waiting.push_back((stamp, slot)) {
        Ok(()) => whole,
        Err(_) => false,
    }
}

// Room for all slots to wait, so that a retirement takes no memory. Doubles it, since `reserve` makes no more than it
// is asked for once the queue doesn't begin at the start of its block.
fn make_room(waiting: &mut VecDeque<(u64, usize)>, slots: usize) -> Result<(), OOMError>
    ensures items { waiting.new.items ≡ waiting.old.items }
    ensures room { OnOk result (slots ≤ deque_capacity waiting.new) }
{
    let room = waiting.capacity();
    if room < slots {
        let more = slots.max(room.saturating_mul(2)) - waiting.len();
        waiting.reserve(more)?;
    }
    Ok(())
}

// Takes a slot out of those that wait.
fn take_out(waiting: &mut VecDeque<(u64, usize)>, slot: usize)
    requires ordered { (high : ℕ) × Ascends 0 waiting.old.items high }
    requires once { (a b : ℕ) → Waits a slot waiting.old.items → Waits b slot waiting.old.items
        → a ≡ b }
    ensures { IsWithout slot waiting.old.items waiting.new.items }
{
    let Some((_, first)) = first_of(waiting) else {
        return;
    };
    if first == slot {
        waiting.pop_front();
    } else {
        waiting.retain(|pair| pair.1 != slot);
    }
}

impl Pins {
    /// No number is seated, no slot admitted, and nothing was retired. Takes no memory.
    pub fn new(alloc: Global) -> Self
        ensures { result ≡ record { seats = []; slots = []; count = 0 } }
    {
        Self::at_count(alloc, 0)
    }

    /// As `new`, but so many nodes count as retired already, and their slots as forgotten. Takes no memory.
    pub fn at_count(alloc: Global, count: u64) -> Self
        ensures { result ≡ record { seats = []; slots = []; count = count } }
    {
        Pins {
            seats: BTreeMap::new(alloc),
            slots: Lives::new(alloc),
            count,
            waiting: VecDeque::new(alloc),
            whole: true,
        }
    }

    // The seat of a number; an empty one where it has none.
    fn seat_at(&self, id: u64) -> Seat
        ensures seated { result.seated ≡ is_seated self.now id }
        ensures pin { result.pin ≡ pin_of self.now id }
    {
        match self.seats.get(&id) {
            Some(seat) => *seat,
            None => Seat {
                seated: false,
                pin: None,
            },
        }
    }

    /// Whether room is kept for a number.
    pub fn is_seated(&self, id: u64) -> bool
        ensures { result ≡ is_seated self.now id }
    {
        self.seat_at(id).seated
    }

    /// The pin of a number in flight.
    pub fn pin(&self, id: u64) -> Option<u64>
        ensures { result ≡ pin_of self.now id }
    {
        self.seat_at(id).pin
    }

    /// How many nodes were retired, at most `2^64 - 1`.
    pub fn count(&self) -> u64
        ensures { result ≡ self.now.count }
    {
        self.count
    }

    /// Keeps room for a number, so that `enter` finds it. A refusal changes nothing.
    pub fn seat(&mut self, id: u64) -> Result<(), OOMError>
        ensures ok { OnOk result (ChangesSeat self.old self.new id true (pin_of self.old id)) }
        ensures err { OnErr result (self.new ≡ self.old) }
    {
        match self.seats.get_mut(&id) {
            Some(seat) => seat.seated = true,
            None => {
                self.seats.insert(
                    id,
                    Seat {
                        seated: true,
                        pin: None,
                    },
                )?;
            }
        }
        Ok(())
    }

    /// Frees a number's room. A call in flight keeps its pin, and for a number that isn't seated nothing changes.
    pub fn unseat(&mut self, id: u64)
        ensures { ChangesSeat self.old self.new id false (pin_of self.old id) }
    {
        match self.seats.get_mut(&id) {
            Some(seat) if seat.pin.is_some() => seat.seated = false,
            _ => {
                self.seats.remove(&id);
            }
        }
    }

    /// Pins a call of this number at the count of now. Refused only for a number that isn't seated, and then nothing
    /// changes.
    pub fn enter(&mut self, id: u64) -> Result<(), OOMError>
        requires { pin_of self.old id ≡ None }
        ensures ok { OnOk result
            (ChangesSeat self.old self.new id (is_seated self.old id) (Some self.old.count)) }
        ensures err { OnErr result (self.new ≡ self.old) }
        ensures granted { is_seated self.old id ≡ true → IsOk result }
    {
        let pin = Some(self.count);
        match self.seats.get_mut(&id) {
            Some(seat) => seat.pin = pin,
            None => {
                self.seats.insert(id, Seat { seated: false, pin })?;
            }
        }
        Ok(())
    }

    /// Ends the call of this number.
    pub fn leave(&mut self, id: u64)
        requires { IsSome (pin_of self.old id) }
        ensures { ChangesSeat self.old self.new id (is_seated self.old id) None }
    {
        match self.seats.get_mut(&id) {
            Some(seat) if seat.seated => seat.pin = None,
            _ => {
                self.seats.remove(&id);
            }
        }
    }

    /// Keeps room for a slot, so that its node can be retired. A refusal changes nothing.
    pub fn admit(&mut self, slot: usize) -> Result<(), OOMError>
        ensures ok { OnOk result
            (ChangesLife self.old self.new slot (Some (admitted (life_of self.old slot)))) }
        ensures count { self.new.count ≡ self.old.count }
        ensures err { OnErr result (self.new ≡ self.old) }
    {
        let slots = self.slots.end().max(slot.saturating_add(1));
        make_room(&mut self.waiting, slots)?;
        self.slots.admit(slot)?;
        Ok(())
    }

    /// Marks the node of an admitted slot as retired, with the count of now, and counts it. Takes no memory.
    pub fn retire(&mut self, slot: usize)
        requires { life_of self.old slot ≡ Some Life.InUse }
        ensures life { ChangesLife self.old self.new slot
            (Some (Life.Retired (stamp_at self.old.count))) }
        ensures count { self.new.count ≡ count_after self.old.count }
    {
        let count = self.count;
        let whole = self.whole;
        let stamp = stamp_of(count);
        self.slots.put(slot, Life::Retired(stamp));
        if count < u64::MAX {
            let whole = listed(&mut self.waiting, whole, count, slot);
            self.whole = whole;
            self.count = count + 1;
        }
    }

    /// Whether the slot's node is retired and no call in flight can still step on it.
    pub fn may_reclaim(&self, slot: usize) -> bool
        ensures { IsTrue result ↔ IsReclaimable self.now slot }
    {
        match self.slots.at(slot) {
            Some(Life::Retired(Some(stamp))) => self.all_started_after(stamp),
            _ => false,
        }
    }

    /// A slot that may be reclaimed, if there is one: the one that was retired first. Looks only at it and the pins.
    pub fn reclaimable(&self) -> Option<usize>
        ensures some { IfSome result (λ slot. IsReclaimable self.now slot) }
        ensures none { IfNone result ((slot : ℕ) → IsReclaimable self.now slot → ⊥) }
    {
        let first = first_of(&self.waiting);
        if !self.whole {
            return self.searched();
        }
        let (stamp, slot) = first?;
        if self.all_started_after(stamp) {
            Some(slot)
        } else {
            None
        }
    }

    // A slot that may be reclaimed, if there is one. Looks at the slots in turn.
    fn searched(&self) -> Option<usize>
        ensures some { IfSome result (λ slot. IsReclaimable self.now slot) }
        ensures none { IfNone result ((slot : ℕ) → IsReclaimable self.now slot → ⊥) }
    {
        (0..self.slots.end()).find(|slot| self.may_reclaim(*slot))
    }

    // Whether every call in flight started after the retirement with this stamp.
    fn all_started_after(&self, stamp: u64) -> bool
        ensures { IsTrue result ↔ AllStartedAfter stamp self.now }
    {
        self.seats.values().all(|seat| started_after(seat, stamp))
    }

    /// Forgets a slot whose node is gone.
    pub fn forget(&mut self, slot: usize)
        requires { (life_of self.old slot ≡ Some Life.InUse) ⊎ IsReclaimable self.old slot }
        ensures life { ChangesLife self.old self.new slot None }
        ensures count { self.new.count ≡ self.old.count }
    {
        let life = self.slots.remove(slot);
        if is_counted(&life) {
            take_out(&mut self.waiting, slot);
        }
    }
}
