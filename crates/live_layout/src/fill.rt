//! The words of a new node are filled: without children, or with those of another node.

ghost use Rattle.std.specs.Prelude.{◌≡◌, ◌≢◌, ◌+◌, ◌<◌, ◌≤◌, ℕ, List, length, Some, None};
ghost use Rattle.node_base.specs.Form.{limit, form_place, next_form, smaller_form};
ghost use Rattle.node_base.specs.declared.base_node.NodeType.TheVariants.{N4, N256};
ghost use Rattle.spec_node.specs.TableNode.{TableNode};
ghost use Rattle.live_layout.specs.Words.{at, Stays, Apart};
ghost use Rattle.live_layout.specs.Head.{IsHead};
ghost use Rattle.live_layout.specs.ListCells.{count, first};
ghost use Rattle.live_layout.specs.Encodes.{words_of, counted, most, IsCounted, HasRoom, Encodes, in_form, empty_node};

use crate::form::{place_of, room_of};
use crate::head::{head, with_form};
use crate::words::WriteWords;
use crate::{list, moves, places};
use node_base::base_node::NodeType;

/// A node of this form without children.
pub fn lay<S, E: WriteWords<S>>(to: &E, form: NodeType, prefix: &[u8], seat: &mut S)
    requires may { E.may_write to.now seat.old }
    requires long { length (E.words to.now seat.old) ≡ words_of form }
    requires short { length prefix.now ≤ 7 }
    ensures seat { Stays E.may_write E.rest to.now seat.old seat.new }
    ensures long { length (E.words to.now seat.new) ≡ words_of form }
    ensures left { HasRoom form (E.words to.now seat.new) }
    ensures is { Encodes (E.words to.now seat.new) (empty_node form prefix.now) }
{
    to.set(0, head(place_of(form), prefix), seat);
    match room_of(form) {
        Some(room) => list::clear(to, room, seat),
        None => places::clear(to, seat),
    }
}

// The head of a new node with the same prefix.
fn lay_head<S, D: WriteWords<S>, E: WriteWords<S>>(from: &D, to: &E, form: NodeType, seat: &mut S)
    requires may { D.may_write from.now seat.old × E.may_write to.now seat.old }
    requires some { (0 < length (D.words from.now seat.old))
        × (0 < length (E.words to.now seat.old)) }
    ensures seat { Stays E.may_write E.rest to.now seat.old seat.new }
    ensures long { length (E.words to.now seat.new) ≡ length (E.words to.now seat.old) }
    ensures is { (was : ℕ) (prefix : List ℕ) → IsHead (at (D.words from.now seat.old) 0) was prefix
        → IsHead (at (E.words to.now seat.new) 0) (form_place form) prefix }
{
    let head = from.get(0, seat);
    to.set(0, with_form(head, place_of(form)), seat);
}

// The children of a list in another list.
fn copy_list<S, D: WriteWords<S>, E: WriteWords<S>>(
    from: &D,
    room: usize,
    to: &E,
    other_room: usize,
    other: NodeType,
    seat: &mut S,
)
    requires rooms { (room ≤ 48) × (other_room ≤ 48) × (limit other ≡ Some other_room) }
    requires may { D.may_write from.now seat.old × E.may_write to.now seat.old }
    requires apart { Apart D.may_write D.words E.rest from.now to.now }
    requires long { (length (D.words from.now seat.old) ≡ first room + room)
        × (length (E.words to.now seat.old) ≡ first other_room + other_room) }
    requires few { (count (D.words from.now seat.old) ≤ room)
        × (count (D.words from.now seat.old) ≤ other_room) }
    ensures seat { Stays E.may_write E.rest to.now seat.old seat.new }
    ensures long { length (E.words to.now seat.new) ≡ first other_room + other_room }
    ensures counts { count (E.words to.now seat.new) ≡ count (D.words from.now seat.old) }
    ensures is { (n : TableNode ℕ) → Encodes (D.words from.now seat.old) n
        → limit n.form ≡ Some room
        → Encodes (E.words to.now seat.new) (in_form n other) }
{
    lay_head(from, to, other, seat);
    list::copy(from, room, to, other_room, seat);
}

// The children of a list in places.
fn spread_list<S, D: WriteWords<S>, E: WriteWords<S>>(from: &D, room: usize, to: &E, seat: &mut S)
    requires room { room ≤ 48 }
    requires may { D.may_write from.now seat.old × E.may_write to.now seat.old }
    requires apart { Apart D.may_write D.words E.rest from.now to.now }
    requires long { (length (D.words from.now seat.old) ≡ first room + room)
        × (length (E.words to.now seat.old) ≡ 262) }
    requires few { count (D.words from.now seat.old) ≤ room }
    ensures seat { Stays E.may_write E.rest to.now seat.old seat.new }
    ensures long { length (E.words to.now seat.new) ≡ 262 }
    ensures counts { at (E.words to.now seat.new) 1 ≡ count (D.words from.now seat.old) }
    ensures is { (n : TableNode ℕ) → Encodes (D.words from.now seat.old) n
        → limit n.form ≡ Some room
        → Encodes (E.words to.now seat.new) (in_form n N256) }
{
    lay_head(from, to, NodeType::N256, seat);
    moves::spread(from, room, to, seat);
}

// The children of places in a list.
fn gather_places<S, D: WriteWords<S>, E: WriteWords<S>>(
    from: &D,
    to: &E,
    room: usize,
    other: NodeType,
    seat: &mut S,
)
    requires room { (room ≤ 48) × (limit other ≡ Some room) }
    requires may { D.may_write from.now seat.old × E.may_write to.now seat.old }
    requires apart { Apart D.may_write D.words E.rest from.now to.now }
    requires long { (length (D.words from.now seat.old) ≡ 262)
        × (length (E.words to.now seat.old) ≡ first room + room) }
    requires few { at (D.words from.now seat.old) 1 ≤ room }
    ensures seat { Stays E.may_write E.rest to.now seat.old seat.new }
    ensures long { length (E.words to.now seat.new) ≡ first room + room }
    ensures is { (n : TableNode ℕ) → Encodes (D.words from.now seat.old) n → limit n.form ≡ None
        → Encodes (E.words to.now seat.new) (in_form n other) }
{
    lay_head(from, to, other, seat);
    moves::gather(from, to, room, seat);
}

/// A node of the next form, with the same children. It has room for one more.
pub fn grow<S, D: WriteWords<S>, E: WriteWords<S>>(from: &D, form: NodeType, to: &E, seat: &mut S)
    requires form { form ≢ N256 }
    requires may { D.may_write from.now seat.old × E.may_write to.now seat.old }
    requires apart { Apart D.may_write D.words E.rest from.now to.now }
    requires long { (length (D.words from.now seat.old) ≡ words_of form)
        × (length (E.words to.now seat.old) ≡ words_of (next_form form)) }
    requires few { IsCounted form (D.words from.now seat.old) }
    ensures seat { Stays E.may_write E.rest to.now seat.old seat.new }
    ensures long { length (E.words to.now seat.new) ≡ words_of (next_form form) }
    ensures left { HasRoom (next_form form) (E.words to.now seat.new) }
    ensures is { (n : TableNode ℕ) → Encodes (D.words from.now seat.old) n → n.form ≡ form
        → Encodes (E.words to.now seat.new) (in_form n (next_form form)) }
{
    match form {
        NodeType::N4 => copy_list(from, 4, to, 16, NodeType::N16, seat),
        NodeType::N16 => copy_list(from, 16, to, 48, NodeType::N48, seat),
        NodeType::N48 => spread_list(from, 48, to, seat),
        NodeType::N256 => unreachable!(),
    }
}

/// A node of a larger form, with the same children.
pub fn grow_to<S, D: WriteWords<S>, E: WriteWords<S>>(
    from: &D,
    form: NodeType,
    to: &E,
    wider: NodeType,
    seat: &mut S,
)
    requires wider { form_place form < form_place wider }
    requires may { D.may_write from.now seat.old × E.may_write to.now seat.old }
    requires apart { Apart D.may_write D.words E.rest from.now to.now }
    requires long { (length (D.words from.now seat.old) ≡ words_of form)
        × (length (E.words to.now seat.old) ≡ words_of wider) }
    requires few { IsCounted form (D.words from.now seat.old) }
    ensures seat { Stays E.may_write E.rest to.now seat.old seat.new }
    ensures long { length (E.words to.now seat.new) ≡ words_of wider }
    ensures is { (n : TableNode ℕ) → Encodes (D.words from.now seat.old) n → n.form ≡ form
        → Encodes (E.words to.now seat.new) (in_form n wider) }
{
    match form {
        NodeType::N4 => match wider {
            NodeType::N4 => unreachable!(),
            NodeType::N16 => copy_list(from, 4, to, 16, NodeType::N16, seat),
            NodeType::N48 => copy_list(from, 4, to, 48, NodeType::N48, seat),
            NodeType::N256 => spread_list(from, 4, to, seat),
        },
        NodeType::N16 => match wider {
            NodeType::N4 | NodeType::N16 => unreachable!(),
            NodeType::N48 => copy_list(from, 16, to, 48, NodeType::N48, seat),
            NodeType::N256 => spread_list(from, 16, to, seat),
        },
        NodeType::N48 => match wider {
            NodeType::N4 | NodeType::N16 | NodeType::N48 => unreachable!(),
            NodeType::N256 => spread_list(from, 48, to, seat),
        },
        NodeType::N256 => unreachable!(),
    }
}

/// A node of the form before, with the same children, of which there are few enough.
pub fn shrink<S, D: WriteWords<S>, E: WriteWords<S>>(from: &D, form: NodeType, to: &E, seat: &mut S)
    requires form { form ≢ N4 }
    requires may { D.may_write from.now seat.old × E.may_write to.now seat.old }
    requires apart { Apart D.may_write D.words E.rest from.now to.now }
    requires long { (length (D.words from.now seat.old) ≡ words_of form)
        × (length (E.words to.now seat.old) ≡ words_of (smaller_form form)) }
    requires few { counted (limit form) (D.words from.now seat.old)
        ≤ most (limit (smaller_form form)) }
    ensures seat { Stays E.may_write E.rest to.now seat.old seat.new }
    ensures long { length (E.words to.now seat.new) ≡ words_of (smaller_form form) }
    ensures is { (n : TableNode ℕ) → Encodes (D.words from.now seat.old) n → n.form ≡ form
        → Encodes (E.words to.now seat.new) (in_form n (smaller_form form)) }
{
    match form {
        NodeType::N4 => unreachable!(),
        NodeType::N16 => copy_list(from, 16, to, 4, NodeType::N4, seat),
        NodeType::N48 => copy_list(from, 48, to, 16, NodeType::N16, seat),
        NodeType::N256 => gather_places(from, to, 48, NodeType::N48, seat),
    }
}
