//! Nodes that are made of a seat's room.
ghost use Rattle.std.specs.Prelude.{◌≡◌, ℕ, ◌+◌, ◌-◌, ◌<◌, ◌≤◌, ◌^◌, length};
ghost use Rattle.word_segments.specs.Segments.{AreWords};
ghost use Rattle.live_layout.specs.Encodes.{words_of};
ghost use Rattle.live_reads.specs.Paths.{Sights};
ghost use Rattle.live_growth.specs.Rooms.{HasRoom, HasMade, HasGrown};
ghost use Rattle.live_growth.specs.Calls.{IsReady};

use crate::link::Room;
use live_layout::form::{word_below, words_in};
use live_nodes::map_law::{HasForm, MapLaw, MapView, New};
use live_nodes::room;
use live_reads::path::{Cell, Nodes, Seat};
use node_base::base_node::NodeType;
use std::marker::Brand;

/// Makes a node of this form of the first words of the seat's room, which begins with the word `start`. It is obsolete. Its name.
fn make<F: HasForm>(words: &[Cell], start: u64, form: NodeType, seat: &mut Seat) -> u64
    requires form { F.form ≡ form }
    requires room { (left : ℕ) × HasRoom seat.old.view start left × (words_of form + 1 ≤ left) }
    requires words { (length words.now ≡ words_of form + 1)
        × AreWords start seat.old.book words.now }
    requires start { start < 2 ^ 48 }
    ensures seat { (seat.new.book ≡ seat.old.book) × (seat.new.id ≡ seat.old.id) }
    ensures made { HasMade seat.old.view seat.new.view form result }
    ensures room { (left : ℕ) → HasRoom seat.old.view start left → words_of form + 1 ≤ left
        → HasRoom seat.new.view (start + words_of form + 1) (left - (words_of form + 1)) }
{
    room::put::<MapView, MapLaw>(&words[0], 3, seat);
    room::make::<MapView, MapLaw, New<F>>(&words[words_in(form)], 0, seat);
    word_below(start, form)
}

/// Makes a node of this form of the seat's room, and keeps its name for the next node of that form. It is obsolete, as one that is
/// used again. Its name, or 0 where there is too little room.
pub fn make_node(nodes: &Nodes, form: NodeType, room: &mut Room, seat: &mut Seat) -> u64
    requires book { seat.old.book ≡ nodes.now }
    requires ready { IsReady seat.old.view room.old }
    ensures seat { (seat.new.book ≡ seat.old.book) × (seat.new.id ≡ seat.old.id) }
    ensures ready { IsReady seat.new.view room.new }
    ensures grown { HasGrown seat.old.view seat.new.view }
    ensures made { 1 ≤ result → Sights seat.new.view result }
{
    let count = words_in(form) + 1;
    if room.start >= 1 << 48 || room.left < count as u64 {
        return 0;
    }
    let Some(words) = nodes.span(room.start, count) else {
        return 0;
    };
    let name = make::<Brand>(words, room.start, form, seat);
    room.start += count as u64;
    room.left -= count as u64;
    let _ = room.spare.keep(name);
    name
}

/// The name of an obsolete node for a new one: this one, which may be used again, or where it is 0, one of this form that is made
/// now. 0 where there is too little room for that.
pub fn spare_or_made(
    nodes: &Nodes,
    spare: u64,
    form: NodeType,
    room: &mut Room,
    seat: &mut Seat,
) -> u64
    requires book { seat.old.book ≡ nodes.now }
    requires ready { IsReady seat.old.view room.old }
    requires spare { 1 ≤ spare → Sights seat.old.view spare }
    ensures seat { (seat.new.book ≡ seat.old.book) × (seat.new.id ≡ seat.old.id) }
    ensures ready { IsReady seat.new.view room.new }
    ensures grown { HasGrown seat.old.view seat.new.view }
    ensures sighted { 1 ≤ result → Sights seat.new.view result }
{
    room.is_changed = true;
    room.used.add(form);
    if spare != 0 {
        return spare;
    }
    make_node(nodes, form, room, seat)
}
