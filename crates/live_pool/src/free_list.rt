//! Nodes that guards have left over, for all guards.
//!
//! A node that is no part of the map any more is named in the free list of its form. Beside the names is a seat that has met these
//! nodes.
//! Whoever adds a name or takes one meets that seat, and so either knows where the node is.
ghost use Rattle.std.specs.Prelude.{◌≡◌, ◌<◌, [], IfSome};
ghost use Rattle.live_nodes.specs.Seats.{Each};
ghost use Rattle.live_reads.specs.Paths.{Sights, Keeps};
ghost use Rattle.live_pool.specs.FreeLists.{IsFreeList};

use crate::slot::swap;
use crate::succession::inform;
use counted_slot::{Counted, FREE, Fits, MARKED, PRESENT};
use live_growth::map::Congee;
use live_reads::path::Seat;
use std::alloc::Global;

/// Names of nodes of one form.
#[derive(Drop)]
pub struct FreeList {
    keeper: Seat,
    names: Vec<u64>,
}

impl Fits for FreeList {
    ghost use Rattle.live_pool.specs.FreeLists.{IsFreeList};

    type Tag = Congee;

    ghost fits = { λ book free_list. IsFreeList book free_list.keeper.book free_list.keeper.view free_list.names.items };
}

impl FreeList {
    /// No names.
    pub fn none(map: &Congee, alloc: Global) -> FreeList
        ensures { IsFreeList map.now result.keeper.book result.keeper.view result.names.items }
    {
        FreeList {
            keeper: map.nodes.enter(),
            names: Vec::new(alloc),
        }
    }

    // Whether a name is added. It isn't where there is no memory for it.
    fn add(&mut self, name: u64, seat: &mut Seat) -> bool
        requires book { seat.old.book ≡ self.old.keeper.book }
        requires free_list { Each (Sights self.old.keeper.view) self.old.names.items }
        requires met { Sights seat.old.view name }
        ensures seat { (seat.new.book ≡ seat.old.book) × (seat.new.id ≡ seat.old.id)
            × Keeps seat.old.view seat.new.view × (seat.new.view.client.seen ≡ seat.old.view.client.seen) }
        ensures free_list { (self.new.keeper.book ≡ self.old.keeper.book) × Each (Sights self.new.keeper.view) self.new.names.items }
    {
        inform(seat, &mut self.keeper);
        self.names.push(name).is_ok()
    }

    // A name, if there is one.
    fn take(&mut self, seat: &mut Seat) -> Option<u64>
        requires book { seat.old.book ≡ self.old.keeper.book }
        requires free_list { Each (Sights self.old.keeper.view) self.old.names.items }
        ensures seat { (seat.new.book ≡ seat.old.book) × (seat.new.id ≡ seat.old.id)
            × Keeps seat.old.view seat.new.view × (seat.new.view.client.seen ≡ seat.old.view.client.seen) }
        ensures name { IfSome result (Sights seat.new.view) }
        ensures free_list { (self.new.keeper.book ≡ self.old.keeper.book) × Each (Sights self.new.keeper.view) self.new.names.items }
    {
        inform(seat, &mut self.keeper);
        self.names.pop()
    }
}

// Takes a free list out of its slot, whose word is this one.
fn open(slot: &Counted<FreeList>, word: u64, map: &Congee, alloc: Global) -> Option<FreeList>
    requires word { word < 3 }
    requires map { slot.now ≡ map.now }
    ensures { IfSome result (λ s. IsFreeList map.now s.keeper.book s.keeper.view s.names.items) }
{
    if slot.load() != word {
        return None;
    }
    match swap(slot, word, FreeList::none(map, alloc), MARKED) {
        Ok(free_list) => Some(free_list),
        Err(_) => None,
    }
}

// Takes a free list out of its slot, whether it has names or not.
fn open_any(slot: &Counted<FreeList>, map: &Congee, alloc: Global) -> Option<FreeList>
    requires map { slot.now ≡ map.now }
    ensures { IfSome result (λ s. IsFreeList map.now s.keeper.book s.keeper.view s.names.items) }
{
    if let Some(free_list) = open(slot, PRESENT, map, alloc) {
        return Some(free_list);
    }
    open(slot, FREE, map, alloc)
}

// Puts it back.
fn close(slot: &Counted<FreeList>, free_list: FreeList)
    requires { IsFreeList slot.now free_list.keeper.book free_list.keeper.view free_list.names.items }
{
    let word = if free_list.names.is_empty() {
        FREE
    } else {
        PRESENT
    };
    drop(swap(slot, MARKED, free_list, word));
}

/// Whether a name was added to the free list in this slot. It isn't where another thread is at it, or where there is no memory.
pub fn add_to(
    slot: &Counted<FreeList>,
    map: &Congee,
    alloc: Global,
    name: u64,
    seat: &mut Seat,
) -> bool
    requires map { (slot.now ≡ map.now) × (seat.old.book ≡ map.now) }
    requires met { Sights seat.old.view name }
    ensures seat { (seat.new.book ≡ seat.old.book) × (seat.new.id ≡ seat.old.id)
        × Keeps seat.old.view seat.new.view × (seat.new.view.client.seen ≡ seat.old.view.client.seen) }
{
    let Some(mut free_list) = open_any(slot, map, alloc) else {
        return false;
    };
    let added = free_list.add(name, seat);
    close(slot, free_list);
    added
}

/// A name out of the free list in this slot. `None` where there is none, or another thread is at it.
pub fn take_from(
    slot: &Counted<FreeList>,
    map: &Congee,
    alloc: Global,
    seat: &mut Seat,
) -> Option<u64>
    requires map { (slot.now ≡ map.now) × (seat.old.book ≡ map.now) }
    ensures seat { (seat.new.book ≡ seat.old.book) × (seat.new.id ≡ seat.old.id)
        × Keeps seat.old.view seat.new.view × (seat.new.view.client.seen ≡ seat.old.view.client.seen) }
    ensures met { IfSome result (Sights seat.new.view) }
{
    let mut free_list = open(slot, PRESENT, map, alloc)?;
    let name = free_list.take(seat);
    close(slot, free_list);
    name
}
