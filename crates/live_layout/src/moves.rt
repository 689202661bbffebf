//! From one layout to the other.

ghost use Rattle.std.specs.Prelude.{◌≡◌, ℕ, ◌+◌, ◌≤◌, List, length};
ghost use Rattle.spec_map.specs.Map.{between};
ghost use Rattle.live_layout.specs.Words.{at, Stays, Apart};
ghost use Rattle.live_layout.specs.ListCells.{count, first, HasList};
ghost use Rattle.live_layout.specs.PlaceCells.{HasPlaces};

use crate::list::{clear as clear_list, count_of, first_child, key_at, put as put_last};
use crate::places::{clear, is_set, put};
use crate::words::WriteWords;

/// Gives places to the children of a list. The head there stays.
pub fn spread<S, D: WriteWords<S>, E: WriteWords<S>>(from: &D, room: usize, to: &E, seat: &mut S)
    requires room { room ≤ 48 }
    requires may { D.may_write from.now seat.old × E.may_write to.now seat.old }
    requires apart { Apart D.may_write D.words E.rest from.now to.now }
    requires long { (length (D.words from.now seat.old) ≡ first room + room)
        × (length (E.words to.now seat.old) ≡ 262) }
    requires few { count (D.words from.now seat.old) ≤ room }
    ensures seat { Stays E.may_write E.rest to.now seat.old seat.new }
    ensures long { length (E.words to.now seat.new) ≡ 262 }
    ensures counts { at (E.words to.now seat.new) 1 ≡ count (D.words from.now seat.old) }
    ensures head { at (E.words to.now seat.new) 0 ≡ at (E.words to.now seat.old) 0 }
    ensures is { (es : List (ℕ × ℕ)) → HasList room (D.words from.now seat.old) es
        → HasPlaces (E.words to.now seat.new) es }
{
    clear(to, seat);
    let count = count_of(from, seat);
    for i in 0..count {
        let byte = key_at(from, i, seat);
        let child = from.get(first_child(room) + i, seat);
        put(to, byte, child, seat);
    }
}

// Puts a key's child, if it has one, behind those of the keys before.
fn gather_one<S, D: WriteWords<S>, E: WriteWords<S>>(
    from: &D,
    to: &E,
    room: usize,
    byte: u8,
    seat: &mut S,
)
    requires room { room ≤ 48 }
    requires may { D.may_write from.now seat.old × E.may_write to.now seat.old }
    requires long { (length (D.words from.now seat.old) ≡ 262)
        × (length (E.words to.now seat.old) ≡ first room + room) }
    requires few { at (D.words from.now seat.old) 1 ≤ room }
    ensures seat { Stays E.may_write E.rest to.now seat.old seat.new }
    ensures long { length (E.words to.now seat.new) ≡ first room + room }
    ensures head { at (E.words to.now seat.new) 0 ≡ at (E.words to.now seat.old) 0 }
    ensures is { (es : List (ℕ × ℕ)) → HasPlaces (D.words from.now seat.old) es
        → HasList room (E.words to.now seat.old) (between es 0 byte)
        → HasList room (E.words to.now seat.new) (between es 0 (byte + 1)) }
{
    let marks = from.get(2 + byte as usize / 64, seat);
    if !is_set(marks, byte as usize % 64) {
        return;
    }
    if count_of(to, seat) >= room {
        return;
    }
    let child = from.get(6 + byte as usize, seat);
    put_last(to, room, byte, child, seat);
}

/// Makes a list of the children in places, of which there are few. The head there stays.
pub fn gather<S, D: WriteWords<S>, E: WriteWords<S>>(from: &D, to: &E, room: usize, seat: &mut S)
    requires room { room ≤ 48 }
    requires may { D.may_write from.now seat.old × E.may_write to.now seat.old }
    requires apart { Apart D.may_write D.words E.rest from.now to.now }
    requires long { (length (D.words from.now seat.old) ≡ 262)
        × (length (E.words to.now seat.old) ≡ first room + room) }
    requires few { at (D.words from.now seat.old) 1 ≤ room }
    ensures seat { Stays E.may_write E.rest to.now seat.old seat.new }
    ensures long { length (E.words to.now seat.new) ≡ first room + room }
    ensures head { at (E.words to.now seat.new) 0 ≡ at (E.words to.now seat.old) 0 }
    ensures is { (es : List (ℕ × ℕ)) → HasPlaces (D.words from.now seat.old) es
        → HasList room (E.words to.now seat.new) es }
{
    clear_list(to, room, seat);
    for b in 0..256usize {
        gather_one(from, to, room, b as u8, seat);
    }
}
