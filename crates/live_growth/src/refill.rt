//! Where a call that lacks a node gets nodes to use again, or room for new ones.
ghost use Rattle.std.specs.Prelude.{◌≡◌, ⊤};
ghost use Rattle.word_book.specs.Book.{Book};
ghost use Rattle.live_growth.specs.Calls.{IsReady};

use crate::insert::make_room;
use crate::link::Room;
use live_reads::path::{Nodes, Seat};
use std::alloc::Global;

/// What a call asks that lacks a node.
pub trait Refills {
    // It has nodes, or words for them, of that map.
    ghost serves: { Self → Book → Type 0 };

    /// Puts nodes to use again, or words for new ones, into the room. `false` where there are none, nor a larger node in place of
    /// the one that is lacking.
    fn refill(&self, nodes: &Nodes, room: &mut Room, seat: &mut Seat) -> bool
        requires serves { serves self.now nodes.now }
        requires book { seat.old.book ≡ nodes.now }
        requires ready { IsReady seat.old.view room.old }
        ensures seat { (seat.new.book ≡ seat.old.book) × (seat.new.id ≡ seat.old.id) }
        ensures ready { IsReady seat.new.view room.new }
        ensures seen { seat.new.view.client.seen ≡ seat.old.view.client.seen };
}

/// An allocator has memory for further words.
impl Refills for Global {
    ghost serves = { λ _ _. ⊤ };

    fn refill(&self, nodes: &Nodes, room: &mut Room, seat: &mut Seat) -> bool {
        make_room(nodes, *self, room, seat)
    }
}
