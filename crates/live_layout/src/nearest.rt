//! The nearest child from a byte on.

ghost use Rattle.std.specs.Prelude.{◌≡◌, ℕ, ◌+◌, ◌/◌, ◌<◌, ◌≤◌, List, Some, None, IfSome};
ghost use Rattle.spec_node.specs.TableNode.{TableNode};
ghost use Rattle.live_layout.specs.Words.{at, Stays};
ghost use Rattle.live_layout.specs.ListCells.{count, key, first, HasList};
ghost use Rattle.live_layout.specs.PlaceCells.{HasPlaces};
ghost use Rattle.live_layout.specs.Encodes.{words_of, Encodes};
ghost use Rattle.live_layout.specs.Order.{IsNearest, HasNearest};
ghost use Rattle.live_layout.specs.inner.Best.{turned, IsBest, IsMarked};

use crate::form::room_of;
use crate::lanes::lane_of;
use crate::list::first_child;
use crate::words::ReadWords;
use node_base::base_node::NodeType;
use node_base::mask::{last_marked, next_marked};

// Downwards, bytes are counted from the other end.
fn turn(byte: u8, up: bool) -> u8
    ensures { result ≡ turned up byte }
{
    if up { byte } else { 255 - byte }
}

// The better of two: a byte and its place.
fn nearer(best: Option<(u8, usize)>, least: u8, byte: u8, place: usize) -> Option<(u8, usize)>
    ensures inside { IfSome best (λ e. e.1 < place) → IfSome result (λ e. e.1 < place + 1) }
    ensures is { (f : ℕ → ℕ) → f place ≡ byte → IsBest f least place best
        → IsBest f least (place + 1) result }
{
    if byte < least {
        return best;
    }
    match best {
        Some((other, _)) if other <= byte => best,
        _ => Some((byte, place)),
    }
}

// The word that has the key at this place, by the one that has the key before.
fn keys_at<S, R: ReadWords<S>>(cells: &R, keys: u64, place: usize, seat: &mut S) -> u64
    requires may { R.may_read cells.now seat.old }
    requires inside { (place < 256) × (1 + (place + 1) / 8 < R.long cells.now) }
    ensures seat { Stays R.may_read R.rest cells.now seat.old seat.new }
    ensures is { (c : List ℕ) → R.agrees cells.now seat.new c → at c (1 + place / 8) ≡ keys
        → at c (1 + (place + 1) / 8) ≡ result }
    ensures kept { (c : List ℕ) → R.agrees cells.now seat.new c → R.agrees cells.now seat.old c }
{
    let at = place + 1;
    if at % 8 == 0 {
        return cells.word(1 + at / 8, seat);
    }
    keys
}

// The nearest key of a list from this one on, turned, and its place.
fn nearest_place<S, R: ReadWords<S>>(
    cells: &R,
    room: usize,
    up: bool,
    from: u8,
    seat: &mut S,
) -> Option<(u8, usize)>
    requires room { room ≤ 48 }
    requires cells { R.may_read cells.now seat.old × (R.long cells.now ≡ first room + room) }
    ensures seat { Stays R.may_read R.rest cells.now seat.old seat.new }
    ensures inside { IfSome result (λ best. best.1 < room) }
    ensures is { (c : List ℕ) → R.agrees cells.now seat.new c → count c ≤ room
        → IsBest (λ j. turned up (key c j)) (turned up from) (count c) result }
    ensures kept { (c : List ℕ) → R.agrees cells.now seat.new c → R.agrees cells.now seat.old c }
{
    let least = turn(from, up);
    let mut keys = cells.word(1, seat);
    let all = (lane_of(keys, 0) as usize).min(room);
    let mut best = None;
    for i in 0..all {
        keys = keys_at(cells, keys, i, seat);
        let byte = turn(lane_of(keys, (i + 1) % 8), up);
        best = nearer(best, least, byte, i);
    }
    best
}

// The nearest child of a list.
fn in_list<S, R: ReadWords<S>>(
    cells: &R,
    room: usize,
    up: bool,
    from: u8,
    seat: &mut S,
) -> Option<(u8, u64)>
    requires room { room ≤ 48 }
    requires cells { R.may_read cells.now seat.old × (R.long cells.now ≡ first room + room) }
    ensures seat { Stays R.may_read R.rest cells.now seat.old seat.new }
    ensures is { (c : List ℕ) (es : List (ℕ × ℕ)) → R.agrees cells.now seat.new c
        → HasList room c es → IsNearest up es from result }
    ensures kept { (c : List ℕ) → R.agrees cells.now seat.new c → R.agrees cells.now seat.old c }
{
    let (byte, place) = nearest_place(cells, room, up, from, seat)?;
    let word = cells.word(first_child(room) + place, seat);
    Some((turn(byte, up), word))
}

// The nearest byte that has a mark.
fn nearest_mark(marks: &[u64; 4], up: bool, from: u8) -> Option<u8>
    ensures { IsMarked up marks.now from result }
{
    if up {
        next_marked(marks, from as usize)
    } else {
        last_marked(marks, from as usize + 1)
    }
}

// The nearest child of a node with a place for each byte.
fn in_places<S, R: ReadWords<S>>(cells: &R, up: bool, from: u8, seat: &mut S) -> Option<(u8, u64)>
    requires cells { R.may_read cells.now seat.old × (R.long cells.now ≡ 262) }
    ensures seat { Stays R.may_read R.rest cells.now seat.old seat.new }
    ensures is { (c : List ℕ) (es : List (ℕ × ℕ)) → R.agrees cells.now seat.new c
        → HasPlaces c es → IsNearest up es from result }
    ensures kept { (c : List ℕ) → R.agrees cells.now seat.new c → R.agrees cells.now seat.old c }
{
    let a = cells.word(2, seat);
    let b = cells.word(3, seat);
    let c = cells.word(4, seat);
    let d = cells.word(5, seat);
    let byte = nearest_mark(&[a, b, c, d], up, from)?;
    let word = cells.word(6 + byte as usize, seat);
    Some((byte, word))
}

/// The nearest child from a byte on, upwards or downwards, of a node of this form: its byte and its word. A list is read
/// whole, but for the other children's words.
//
// (Pages call this for each pair, with a direction that is known there. A call without inlining takes twice the instructions.)
#[inline(always)]
pub fn nearest<S, R: ReadWords<S>>(
    cells: &R,
    form: NodeType,
    up: bool,
    from: u8,
    seat: &mut S,
) -> Option<(u8, u64)>
    requires cells { R.may_read cells.now seat.old × (R.long cells.now ≡ words_of form) }
    ensures seat { Stays R.may_read R.rest cells.now seat.old seat.new }
    ensures is { (c : List ℕ) (n : TableNode ℕ) → R.agrees cells.now seat.new c → Encodes c n
        → n.form ≡ form → HasNearest up n.children from result }
    ensures kept { (c : List ℕ) → R.agrees cells.now seat.new c → R.agrees cells.now seat.old c }
{
    match room_of(form) {
        Some(room) => in_list(cells, room, up, from, seat),
        None => in_places(cells, up, from, seat),
    }
}
