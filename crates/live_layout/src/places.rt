//! The places of a node that can have a child for each byte.

ghost use Rattle.std.specs.Prelude.{◌≡◌, ◌≢◌, ℕ, ◌+◌, ◌<◌, List, [], length, Some, None, IsSome, IsTrue, false, slice_set};
ghost use Rattle.std.specs.Int.{bit_at};
ghost use Rattle.spec_map.specs.Map.{lookup, put, without};
ghost use Rattle.live_layout.specs.Words.{at, Stays};
ghost use Rattle.live_layout.specs.PlaceCells.{HasPlaces, Keeps};

use crate::words::{ReadWords, WriteWords};

/// Whether a bit is set.
pub fn is_set(word: u64, bit: usize) -> bool
    requires { bit < 64 }
    ensures set { IsTrue result → bit_at word bit ≡ 1 }
    ensures clear { result ≡ false → bit_at word bit ≡ 0 }
{
    (word >> bit) & 1 == 1
}

// The word with a bit set.
fn with_bit(word: u64, bit: usize) -> u64
    requires { bit < 64 }
    ensures here { bit_at result bit ≡ 1 }
    ensures others { (k : ℕ) → k < 64 → k ≢ bit → bit_at result k ≡ bit_at word k }
{
    word | (1 << bit)
}

// The word with a bit cleared.
fn without_bit(word: u64, bit: usize) -> u64
    requires { bit < 64 }
    ensures here { bit_at result bit ≡ 0 }
    ensures others { (k : ℕ) → k < 64 → k ≢ bit → bit_at result k ≡ bit_at word k }
{
    word & !(1 << bit)
}

/// The word of a key's child. It reads a word of bits, and the child's.
pub fn find<S, R: ReadWords<S>>(cells: &R, byte: u8, seat: &mut S) -> Option<u64>
    requires cells { R.may_read cells.now seat.old × (R.long cells.now ≡ 262) }
    ensures seat { Stays R.may_read R.rest cells.now seat.old seat.new }
    ensures is { (c : List ℕ) (es : List (ℕ × ℕ)) → R.agrees cells.now seat.new c → HasPlaces c es
        → lookup es byte ≡ result }
    ensures kept { (c : List ℕ) → R.agrees cells.now seat.new c → R.agrees cells.now seat.old c }
{
    let marks = cells.word(2 + byte as usize / 64, seat);
    if is_set(marks, byte as usize % 64) {
        let word = cells.word(6 + byte as usize, seat);
        Some(word)
    } else {
        None
    }
}

/// Gives a key that has none a child. Three stores.
pub fn put<S, D: WriteWords<S>>(draft: &D, byte: u8, child: u64, seat: &mut S)
    requires may { D.may_write draft.now seat.old }
    requires long { length (D.words draft.now seat.old) ≡ 262 }
    requires left { at (D.words draft.now seat.old) 1 < 256 }
    ensures seat { Stays D.may_write D.rest draft.now seat.old seat.new }
    ensures others { Keeps (D.words draft.now seat.old) (D.words draft.now seat.new) byte }
    ensures counts { at (D.words draft.now seat.new) 1 ≡ at (D.words draft.now seat.old) 1 + 1 }
    ensures is { (es : List (ℕ × ℕ)) → HasPlaces (D.words draft.now seat.old) es
        → lookup es byte ≡ None
        → HasPlaces (D.words draft.now seat.new) (put es byte child) }
{
    let marks = with_bit(draft.get(2 + byte as usize / 64, seat), byte as usize % 64);
    let count = draft.get(1, seat);
    draft.set(2 + byte as usize / 64, marks, seat);
    draft.set(6 + byte as usize, child, seat);
    draft.set(1, count + 1, seat);
}

/// Gives a key that has one another child. One store.
pub fn change<S, D: WriteWords<S>>(draft: &D, byte: u8, child: u64, seat: &mut S)
    requires may { D.may_write draft.now seat.old }
    requires long { length (D.words draft.now seat.old) ≡ 262 }
    ensures seat { Stays D.may_write D.rest draft.now seat.old seat.new }
    ensures stores { D.words draft.now seat.new
        ≡ slice_set (D.words draft.now seat.old) (6 + byte) child }
    ensures is { (es : List (ℕ × ℕ)) → HasPlaces (D.words draft.now seat.old) es
        → IsSome (lookup es byte)
        → HasPlaces (D.words draft.now seat.new) (put es byte child) }
{
    draft.set(6 + byte as usize, child, seat);
}

/// Takes a key's child out. Two stores.
pub fn take<S, D: WriteWords<S>>(draft: &D, byte: u8, seat: &mut S)
    requires may { D.may_write draft.now seat.old }
    requires long { length (D.words draft.now seat.old) ≡ 262 }
    ensures seat { Stays D.may_write D.rest draft.now seat.old seat.new }
    ensures others { Keeps (D.words draft.now seat.old) (D.words draft.now seat.new) byte }
    ensures counts { 0 < at (D.words draft.now seat.old) 1
        → at (D.words draft.now seat.new) 1 + 1 ≡ at (D.words draft.now seat.old) 1 }
    ensures is { (es : List (ℕ × ℕ)) → HasPlaces (D.words draft.now seat.old) es
        → IsSome (lookup es byte)
        → HasPlaces (D.words draft.now seat.new) (without es byte) }
{
    let marks = without_bit(draft.get(2 + byte as usize / 64, seat), byte as usize % 64);
    let count = draft.get(1, seat);
    draft.set(2 + byte as usize / 64, marks, seat);
    draft.set(1, count.saturating_sub(1), seat);
}

/// No children. The head stays.
pub fn clear<S, D: WriteWords<S>>(draft: &D, seat: &mut S)
    requires may { D.may_write draft.now seat.old }
    requires long { length (D.words draft.now seat.old) ≡ 262 }
    ensures seat { Stays D.may_write D.rest draft.now seat.old seat.new }
    ensures long { length (D.words draft.now seat.new) ≡ 262 }
    ensures head { at (D.words draft.now seat.new) 0 ≡ at (D.words draft.now seat.old) 0 }
    ensures is { HasPlaces (D.words draft.now seat.new) [] }
{
    for i in 1..6 {
        draft.set(i, 0, seat);
    }
}
