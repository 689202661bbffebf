//! Nodes of the free lists for a call that lacks one, before it gets words for new ones.
ghost use Rattle.std.specs.Prelude.{◌≡◌};
ghost use Rattle.live_growth.specs.Calls.{IsReady};

use crate::free_list::take_from;
use crate::pool::{FORMS, Pool, STRIPES};
use live_growth::free_nodes::Forms;
use live_growth::insert::make_room;
use live_growth::link::Room;
use live_growth::refill::Refills;
use live_reads::path::{Nodes, Seat};
use node_base::base_node::NodeType;
use std::alloc::Global;
use std::hint::spin_loop;

/// How often a free list is looked for, where other threads are at some.
const LOOKS: u32 = 30;

/// The pool's free lists, and an allocator for further words where these have no node.
#[derive(Drop)]
pub struct Supply<'a> {
    pub pool: &'a Pool,
    pub alloc: Global,
}

impl<'a> Refills for Supply<'a> {
    ghost serves = { λ s b. s.pool.now ≡ b };

    fn refill(&self, nodes: &Nodes, room: &mut Room, seat: &mut Seat) -> bool {
        let before = room.spare;
        self.pool.supply(Forms::all(), room, seat);
        self.pool.supply_further(room, seat);
        if room.spare != before {
            return true;
        }
        make_room(nodes, self.alloc, room, seat)
    }
}

impl Pool {
    /// A node of each of these forms that the room has none of, if there is one, and a second one of the smallest.
    pub(crate) fn supply(&self, forms: Forms, room: &mut Room, seat: &mut Seat)
        requires book { seat.old.book ≡ self.now }
        requires ready { IsReady seat.old.view room.old }
        ensures seat { (seat.new.book ≡ seat.old.book) × (seat.new.id ≡ seat.old.id) }
        ensures ready { IsReady seat.new.view room.new }
        ensures seen { seat.new.view.client.seen ≡ seat.old.view.client.seen }
    {
        for form in FORMS {
            if forms.has(form) && room.spare.get(form) == 0 {
                self.supply_one(room, seat, form);
            }
        }
        if forms.n4 && room.spare.second == 0 {
            self.supply_one(room, seat, NodeType::N4);
        }
    }

    // A further node of a larger form, where the room has one such node alone: a call may need two.
    fn supply_further(&self, room: &mut Room, seat: &mut Seat)
        requires book { seat.old.book ≡ self.now }
        requires ready { IsReady seat.old.view room.old }
        ensures seat { (seat.new.book ≡ seat.old.book) × (seat.new.id ≡ seat.old.id) }
        ensures ready { IsReady seat.new.view room.new }
        ensures seen { seat.new.view.client.seen ≡ seat.old.view.client.seen }
    {
        let spare = room.spare;
        if spare.smallest() != 0 {
            return;
        }
        match (spare.n16 != 0, spare.n48 != 0, spare.n256 != 0) {
            (true, false, false) => self.supply_one(room, seat, NodeType::N16),
            (false, true, false) => self.supply_one(room, seat, NodeType::N48),
            (false, false, true) => self.supply_one(room, seat, NodeType::N256),
            _ => {}
        }
    }

    // A node of a form, if a free list has one.
    fn supply_one(&self, room: &mut Room, seat: &mut Seat, form: NodeType)
        requires book { seat.old.book ≡ self.now }
        requires ready { IsReady seat.old.view room.old }
        ensures seat { (seat.new.book ≡ seat.old.book) × (seat.new.id ≡ seat.old.id) }
        ensures ready { IsReady seat.new.view room.new }
        ensures seen { seat.new.view.client.seen ≡ seat.old.view.client.seen }
    {
        for _ in 0..LOOKS {
            if !self.may_have(form) || self.supply_once(room, seat, form) {
                return;
            }
            spin_loop();
        }
    }

    // A node of a form out of the first free list of it that has one. Whether there was one.
    fn supply_once(&self, room: &mut Room, seat: &mut Seat, form: NodeType) -> bool
        requires book { seat.old.book ≡ self.now }
        requires ready { IsReady seat.old.view room.old }
        ensures seat { (seat.new.book ≡ seat.old.book) × (seat.new.id ≡ seat.old.id) }
        ensures ready { IsReady seat.new.view room.new }
        ensures seen { seat.new.view.client.seen ≡ seat.old.view.client.seen }
    {
        for stripe in 0..STRIPES {
            if self.supply_at(room, seat, form, stripe) {
                return true;
            }
        }
        false
    }

    // A node of a form out of its free list in a stripe. Whether there was one.
    fn supply_at(&self, room: &mut Room, seat: &mut Seat, form: NodeType, stripe: usize) -> bool
        requires book { seat.old.book ≡ self.now }
        requires ready { IsReady seat.old.view room.old }
        ensures seat { (seat.new.book ≡ seat.old.book) × (seat.new.id ≡ seat.old.id) }
        ensures ready { IsReady seat.new.view room.new }
        ensures seen { seat.new.view.client.seen ≡ seat.old.view.client.seen }
    {
        let Some(slot) = self.free_list_at(form, stripe) else {
            return false;
        };
        if let Some(name) = take_from(slot, &self.map, self.alloc, seat) {
            let _ = room.spare.keep(name);
            return true;
        }
        false
    }
}
