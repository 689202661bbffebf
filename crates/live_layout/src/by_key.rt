//! The child of a key is searched for and changed in one call, where it has one.

ghost use Rattle.std.specs.Prelude.{◌≡◌, ℕ, ◌+◌, ◌≤◌, List, length, IfSome, IfNone};
ghost use Rattle.spec_map.specs.Map.{lookup, put, without};
ghost use Rattle.live_layout.specs.Words.{at, Stays};
ghost use Rattle.live_layout.specs.ListCells.{count, first, HasList};
ghost use Rattle.live_layout.specs.PlaceCells.{HasPlaces};

use crate::list::{self, first_child};
use crate::places;
use crate::words::{AsReadWords, WriteWords};

/// Gives a key of a list that has a child another one. The word before, or `None` where it has none.
pub fn change_in_list<S, D: WriteWords<S>>(
    draft: &D,
    room: usize,
    byte: u8,
    child: u64,
    seat: &mut S,
) -> Option<u64>
    requires room { room ≤ 48 }
    requires may { D.may_write draft.now seat.old }
    requires long { length (D.words draft.now seat.old) ≡ first room + room }
    ensures seat { Stays D.may_write D.rest draft.now seat.old seat.new }
    ensures long { length (D.words draft.now seat.new) ≡ length (D.words draft.now seat.old) }
    ensures head { at (D.words draft.now seat.new) 0 ≡ at (D.words draft.now seat.old) 0 }
    ensures was { (es : List (ℕ × ℕ)) → HasList room (D.words draft.now seat.old) es
        → lookup es byte ≡ result }
    ensures is { IfSome result (λ _. (es : List (ℕ × ℕ))
        → HasList room (D.words draft.now seat.old) es
        → HasList room (D.words draft.now seat.new) (put es byte child)) }
    ensures none { IfNone result (D.words draft.now seat.new ≡ D.words draft.now seat.old) }
{
    let long = first_child(room) + room;
    let cells = AsReadWords { draft, long };
    let (place, word) = list::find(&cells, room, byte, seat)?;
    list::change(draft, room, place, child, seat);
    Some(word)
}

/// Takes a key's child out of a list. Its word, or `None` where it has none.
pub fn take_from_list<S, D: WriteWords<S>>(
    draft: &D,
    room: usize,
    byte: u8,
    seat: &mut S,
) -> Option<u64>
    requires room { room ≤ 48 }
    requires may { D.may_write draft.now seat.old }
    requires long { length (D.words draft.now seat.old) ≡ first room + room }
    requires few { count (D.words draft.now seat.old) ≤ room }
    ensures seat { Stays D.may_write D.rest draft.now seat.old seat.new }
    ensures long { length (D.words draft.now seat.new) ≡ length (D.words draft.now seat.old) }
    ensures head { at (D.words draft.now seat.new) 0 ≡ at (D.words draft.now seat.old) 0 }
    ensures was { (es : List (ℕ × ℕ)) → HasList room (D.words draft.now seat.old) es
        → lookup es byte ≡ result }
    ensures is { IfSome result (λ _. (es : List (ℕ × ℕ))
        → HasList room (D.words draft.now seat.old) es
        → HasList room (D.words draft.now seat.new) (without es byte)) }
    ensures none { IfNone result (D.words draft.now seat.new ≡ D.words draft.now seat.old) }
{
    let long = first_child(room) + room;
    let cells = AsReadWords { draft, long };
    let (place, word) = list::find(&cells, room, byte, seat)?;
    list::take(draft, room, place, seat);
    Some(word)
}

/// Gives a key with a place that has a child another one. The word before, or `None` where it has none.
pub fn change_in_places<S, D: WriteWords<S>>(
    draft: &D,
    byte: u8,
    child: u64,
    seat: &mut S,
) -> Option<u64>
    requires may { D.may_write draft.now seat.old }
    requires long { length (D.words draft.now seat.old) ≡ 262 }
    ensures seat { Stays D.may_write D.rest draft.now seat.old seat.new }
    ensures long { length (D.words draft.now seat.new) ≡ length (D.words draft.now seat.old) }
    ensures head { at (D.words draft.now seat.new) 0 ≡ at (D.words draft.now seat.old) 0 }
    ensures was { (es : List (ℕ × ℕ)) → HasPlaces (D.words draft.now seat.old) es
        → lookup es byte ≡ result }
    ensures is { IfSome result (λ _. (es : List (ℕ × ℕ)) → HasPlaces (D.words draft.now seat.old) es
        → HasPlaces (D.words draft.now seat.new) (put es byte child)) }
    ensures none { IfNone result (D.words draft.now seat.new ≡ D.words draft.now seat.old) }
{
    let cells = AsReadWords { draft, long: 262 };
    let word = places::find(&cells, byte, seat)?;
    places::change(draft, byte, child, seat);
    Some(word)
}

/// Takes a key's child out of its place. Its word, or `None` where it has none.
pub fn take_from_places<S, D: WriteWords<S>>(draft: &D, byte: u8, seat: &mut S) -> Option<u64>
    requires may { D.may_write draft.now seat.old }
    requires long { length (D.words draft.now seat.old) ≡ 262 }
    ensures seat { Stays D.may_write D.rest draft.now seat.old seat.new }
    ensures long { length (D.words draft.now seat.new) ≡ length (D.words draft.now seat.old) }
    ensures head { at (D.words draft.now seat.new) 0 ≡ at (D.words draft.now seat.old) 0 }
    ensures was { (es : List (ℕ × ℕ)) → HasPlaces (D.words draft.now seat.old) es
        → lookup es byte ≡ result }
    ensures is { IfSome result (λ _. (es : List (ℕ × ℕ)) → HasPlaces (D.words draft.now seat.old) es
        → HasPlaces (D.words draft.now seat.new) (without es byte)) }
    ensures none { IfNone result (D.words draft.now seat.new ≡ D.words draft.now seat.old) }
{
    let cells = AsReadWords { draft, long: 262 };
    let word = places::find(&cells, byte, seat)?;
    places::take(draft, byte, seat);
    Some(word)
}
