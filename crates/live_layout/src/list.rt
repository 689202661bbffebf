//! The list of a node that has room for a few children.

ghost use Rattle.std.specs.Prelude.{◌≡◌, ℕ, ◌+◌, ◌/◌, ◌<◌, ◌≤◌, List, [], length, Some, None, IfSome, IsTrue, ◌↔◌, slice_set};
ghost use Rattle.spec_map.specs.Map.{lookup, put, without};
ghost use Rattle.live_layout.specs.Words.{at, Stays, Looks, Apart};
ghost use Rattle.live_layout.specs.ListCells.{count, first, key, child, HasList, IsFound, word_found};
ghost use Rattle.live_layout.specs.inner.Stores.{StoresKey, Stores};

use crate::lanes::{find_lane, lane_of, with_lane};
use crate::words::{ReadWords, WriteWords};

/// Where the children's words begin, if there is room for so many.
pub fn first_child(room: usize) -> usize
    requires { room ≤ 48 }
    ensures { result ≡ first room }
{
    1 + (room + 8) / 8
}

/// The place of a key's child, and its word. It reads the words of keys up to that of the key, and the child's.
pub fn find<S, R: ReadWords<S>>(
    cells: &R,
    room: usize,
    byte: u8,
    seat: &mut S,
) -> Option<(usize, u64)>
    requires room { room ≤ 48 }
    requires cells { R.may_read cells.now seat.old × (R.long cells.now ≡ first room + room) }
    ensures seat { Stays R.may_read R.rest cells.now seat.old seat.new }
    ensures inside { IfSome result (λ found. found.0 < room) }
    ensures found { (c : List ℕ) → R.agrees cells.now seat.new c → count c ≤ room
        → IsFound room c byte result }
    ensures is { (c : List ℕ) (es : List (ℕ × ℕ)) → R.agrees cells.now seat.new c
        → HasList room c es
        → lookup es byte ≡ word_found result }
    ensures kept { (c : List ℕ) → R.agrees cells.now seat.new c → R.agrees cells.now seat.old c }
{
    let keys = cells.word(1, seat);
    let all = (lane_of(keys, 0) as usize).min(room);
    if let Some(j) = find_lane(keys, 1, (all + 1).min(8), byte) {
        let place = j - 1;
        let word = cells.word(first_child(room) + place, seat);
        return Some((place, word));
    }
    for w in 1..(all + 8) / 8 {
        let keys = cells.word(1 + w, seat);
        if let Some(j) = find_lane(keys, 0, (all + 1 - 8 * w).min(8), byte) {
            let place = 8 * w + j - 1;
            let word = cells.word(first_child(room) + place, seat);
            return Some((place, word));
        }
    }
    None
}

/// How many children there are.
pub fn count_of<S, D: WriteWords<S>>(draft: &D, seat: &mut S) -> usize
    requires draft { D.may_write draft.now seat.old × (1 < length (D.words draft.now seat.old)) }
    ensures seat { Looks D.may_write D.words draft.now seat.old seat.new }
    ensures is { result ≡ count (D.words draft.now seat.old) }
    ensures few { result < 256 }
{
    lane_of(draft.get(1, seat), 0) as usize
}

// The key of the child at a place.
pub(crate) fn key_at<S, D: WriteWords<S>>(draft: &D, place: usize, seat: &mut S) -> u8
    requires place { place < 48 }
    requires may { D.may_write draft.now seat.old }
    requires inside { 1 + (place + 1) / 8 < length (D.words draft.now seat.old) }
    ensures seat { Looks D.may_write D.words draft.now seat.old seat.new }
    ensures is { result ≡ key (D.words draft.now seat.old) place }
{
    let keys = draft.get(1 + (place + 1) / 8, seat);
    lane_of(keys, (place + 1) % 8)
}

/// Whether there is no room for another child.
pub fn is_full<S, D: WriteWords<S>>(draft: &D, room: usize, seat: &mut S) -> bool
    requires draft { D.may_write draft.now seat.old × (1 < length (D.words draft.now seat.old)) }
    ensures seat { Looks D.may_write D.words draft.now seat.old seat.new }
    ensures is { IsTrue result ↔ (room ≤ count (D.words draft.now seat.old)) }
{
    count_of(draft, seat) >= room
}

// Stores the key of a place and the count: by one store where both are in one word.
fn store_key<S, D: WriteWords<S>>(draft: &D, place: usize, byte: u8, count: u8, seat: &mut S)
    requires place { place < 48 }
    requires may { D.may_write draft.now seat.old }
    requires inside { 1 + (place + 1) / 8 < length (D.words draft.now seat.old) }
    ensures seat { Stays D.may_write D.rest draft.now seat.old seat.new }
    ensures is { StoresKey (D.words draft.now seat.old) (D.words draft.now seat.new) place byte count }
{
    let counted = with_lane(draft.get(1, seat), 0, count);
    let w = (place + 1) / 8;
    if w == 0 {
        draft.set(1, with_lane(counted, place + 1, byte), seat);
    } else {
        let keys = draft.get(1 + w, seat);
        draft.set(1 + w, with_lane(keys, (place + 1) % 8, byte), seat);
        draft.set(1, counted, seat);
    }
}

// Stores the key and the word of the child at a place, and the count.
fn store<S, D: WriteWords<S>>(
    draft: &D,
    room: usize,
    place: usize,
    byte: u8,
    child: u64,
    count: u8,
    seat: &mut S,
)
    requires room { (room ≤ 48) × (place < room) }
    requires may { D.may_write draft.now seat.old }
    requires long { length (D.words draft.now seat.old) ≡ first room + room }
    ensures seat { Stays D.may_write D.rest draft.now seat.old seat.new }
    ensures is { Stores room (D.words draft.now seat.old) (D.words draft.now seat.new) place byte child count }
{
    store_key(draft, place, byte, count, seat);
    draft.set(first_child(room) + place, child, seat);
}

/// Gives a key that has none a child.
pub fn put<S, D: WriteWords<S>>(draft: &D, room: usize, byte: u8, child: u64, seat: &mut S)
    requires room { room ≤ 48 }
    requires may { D.may_write draft.now seat.old }
    requires long { length (D.words draft.now seat.old) ≡ first room + room }
    requires left { count (D.words draft.now seat.old) < room }
    ensures seat { Stays D.may_write D.rest draft.now seat.old seat.new }
    ensures long { length (D.words draft.now seat.new) ≡ length (D.words draft.now seat.old) }
    ensures head { at (D.words draft.now seat.new) 0 ≡ at (D.words draft.now seat.old) 0 }
    ensures counts { count (D.words draft.now seat.new) ≡ count (D.words draft.now seat.old) + 1 }
    ensures is { (es : List (ℕ × ℕ)) → HasList room (D.words draft.now seat.old) es
        → lookup es byte ≡ None
        → HasList room (D.words draft.now seat.new) (put es byte child) }
{
    let count = count_of(draft, seat);
    store(draft, room, count, byte, child, count as u8 + 1, seat);
}

/// Gives the key of a place another child. One store.
pub fn change<S, D: WriteWords<S>>(draft: &D, room: usize, place: usize, child: u64, seat: &mut S)
    requires room { (room ≤ 48) × (place < room) }
    requires may { D.may_write draft.now seat.old }
    requires long { length (D.words draft.now seat.old) ≡ first room + room }
    ensures seat { Stays D.may_write D.rest draft.now seat.old seat.new }
    ensures stores { D.words draft.now seat.new
        ≡ slice_set (D.words draft.now seat.old) (first room + place) child }
    ensures is { (es : List (ℕ × ℕ)) → HasList room (D.words draft.now seat.old) es
        → place < count (D.words draft.now seat.old)
        → HasList room (D.words draft.now seat.new) (put es (key (D.words draft.now seat.old) place) child) }
{
    draft.set(first_child(room) + place, child, seat);
}

/// Takes the child at a place out. The last one comes there.
pub fn take<S, D: WriteWords<S>>(draft: &D, room: usize, place: usize, seat: &mut S)
    requires room { room ≤ 48 }
    requires may { D.may_write draft.now seat.old }
    requires long { length (D.words draft.now seat.old) ≡ first room + room }
    requires inside { (place < count (D.words draft.now seat.old))
        × (count (D.words draft.now seat.old) ≤ room) }
    ensures seat { Stays D.may_write D.rest draft.now seat.old seat.new }
    ensures long { length (D.words draft.now seat.new) ≡ length (D.words draft.now seat.old) }
    ensures head { at (D.words draft.now seat.new) 0 ≡ at (D.words draft.now seat.old) 0 }
    ensures counts { count (D.words draft.now seat.new) + 1 ≡ count (D.words draft.now seat.old) }
    ensures is { (es : List (ℕ × ℕ)) → HasList room (D.words draft.now seat.old) es
        → HasList room (D.words draft.now seat.new) (without es (key (D.words draft.now seat.old) place)) }
{
    let last = count_of(draft, seat) - 1;
    let byte = key_at(draft, last, seat);
    let child = draft.get(first_child(room) + last, seat);
    store(draft, room, place, byte, child, last as u8, seat);
}

/// No children. The head stays. One store.
pub fn clear<S, D: WriteWords<S>>(draft: &D, room: usize, seat: &mut S)
    requires room { room ≤ 48 }
    requires may { D.may_write draft.now seat.old }
    requires long { length (D.words draft.now seat.old) ≡ first room + room }
    ensures seat { Stays D.may_write D.rest draft.now seat.old seat.new }
    ensures long { length (D.words draft.now seat.new) ≡ length (D.words draft.now seat.old) }
    ensures head { at (D.words draft.now seat.new) 0 ≡ at (D.words draft.now seat.old) 0 }
    ensures is { HasList room (D.words draft.now seat.new) [] }
{
    let _ = room;
    draft.set(1, 0, seat);
}

/// Fills other words, with room for others to come, with the same children. The head there stays.
pub fn copy<S, D: WriteWords<S>, E: WriteWords<S>>(
    from: &D,
    room: usize,
    to: &E,
    other_room: usize,
    seat: &mut S,
)
    requires rooms { (room ≤ 48) × (other_room ≤ 48) }
    requires may { D.may_write from.now seat.old × E.may_write to.now seat.old }
    requires apart { Apart D.may_write D.words E.rest from.now to.now }
    requires long { (length (D.words from.now seat.old) ≡ first room + room)
        × (length (E.words to.now seat.old) ≡ first other_room + other_room) }
    requires few { (count (D.words from.now seat.old) ≤ room)
        × (count (D.words from.now seat.old) ≤ other_room) }
    ensures seat { Stays E.may_write E.rest to.now seat.old seat.new }
    ensures head { at (E.words to.now seat.new) 0 ≡ at (E.words to.now seat.old) 0 }
    ensures long { length (E.words to.now seat.new) ≡ first other_room + other_room }
    ensures counts { count (E.words to.now seat.new) ≡ count (D.words from.now seat.old) }
    ensures is { (es : List (ℕ × ℕ)) → HasList room (D.words from.now seat.old) es
        → HasList other_room (E.words to.now seat.new) es }
{
    let count = count_of(from, seat);
    for w in 0..(count + 8) / 8 {
        let keys = from.get(1 + w, seat);
        to.set(1 + w, keys, seat);
    }
    for i in 0..count {
        let child = from.get(first_child(room) + i, seat);
        to.set(first_child(other_room) + i, child, seat);
    }
}
