//! The pairs of a leaf, into a buffer.

ghost use Rattle.std.specs.Prelude.{◌≡◌, ◌≢◌, ℕ, ◌+◌, ◌<◌, ◌≤◌, ◌^◌, true, List, take, drop, length, IfSome};
ghost use Rattle.spec_node.specs.TableNode.{TableNode};
ghost use Rattle.live_layout.specs.Words.{Stays};
ghost use Rattle.live_layout.specs.Encodes.{words_of, Encodes};
ghost use Rattle.live_layout.specs.Page.{IsNext, AreListed, pairs_of};

use crate::nearest::nearest;
use crate::words::ReadWords;
use node_base::base_node::NodeType;

/// What a page has for a pair.
pub trait RangeEntry: Copy {
    ghost use Rattle.std.specs.Prelude.{ℕ};

    /// The key and the value that it has.
    ghost pair: { Self → ℕ × ℕ };

    /// The entry of a pair.
    fn from_pair(key: u64, value: u64) -> Self
        ensures { pair result ≡ (key, value) };
}

impl RangeEntry for (u64, u64) {
    ghost pair = { λ p. p };

    fn from_pair(key: u64, value: u64) -> (u64, u64) {
        (key, value)
    }
}

/// Keys of a leaf, whose least key is `base`: those with the bytes from `first` to `last`.
#[derive(Clone, Copy, Debug, PartialEq, Eq)]
pub struct Part {
    pub base: u64,
    pub first: u8,
    pub last: u8,
}

/// The place behind the pairs in the buffer, and the last byte that was reached.
#[derive(Clone, Copy, Debug, PartialEq, Eq)]
pub struct Filled {
    pub count: usize,
    pub reached: u8,
}

// The next payload of a leaf from a byte on, up to another: its byte and itself.
#[inline(always)]
fn next_within<S, R: ReadWords<S>>(
    cells: &R,
    form: NodeType,
    from: u8,
    last: u8,
    seat: &mut S,
) -> Option<(u8, u64)>
    requires cells { R.may_read cells.now seat.old × (R.long cells.now ≡ words_of form) }
    ensures seat { Stays R.may_read R.rest cells.now seat.old seat.new }
    ensures inside { IfSome result (λ found. (from ≤ found.0) × (found.0 ≤ last)) }
    ensures is { (c : List ℕ) (n : TableNode ℕ) → R.agrees cells.now seat.new c → Encodes c n
        → n.form ≡ form → length n.prefix ≡ 7 → IsNext n from last result }
    ensures kept { (c : List ℕ) → R.agrees cells.now seat.new c → R.agrees cells.now seat.old c }
{
    let (byte, word) = nearest(cells, form, true, from, seat)?;
    if byte > last {
        return None;
    }
    if byte < from {
        return None;
    }
    Some((byte, word))
}

/// Writes a part of a leaf of this form into a buffer, from a place there on, ascending, until the buffer is full.
pub fn fill<S, R: ReadWords<S>, P: RangeEntry>(
    cells: &R,
    form: NodeType,
    part: Part,
    buffer: &mut [P],
    start: usize,
    seat: &mut S,
) -> Filled
    requires cells { R.may_read cells.now seat.old × (R.long cells.now ≡ words_of form) }
    requires part { (part.first ≤ part.last) × (part.base + 255 < 2 ^ 64) }
    requires start { start < length buffer.old }
    ensures seat { Stays R.may_read R.rest cells.now seat.old seat.new }
    ensures count { (start ≤ result.count) × (result.count ≤ length buffer.old) }
    ensures reached { (part.first ≤ result.reached) × (result.reached ≤ part.last) }
    ensures full { result.reached ≢ part.last → result.count ≡ length buffer.old }
    ensures before { take start (pairs_of P.pair buffer.new)
        ≡ take start (pairs_of P.pair buffer.old) }
    ensures is { (c : List ℕ) (n : TableNode ℕ) → R.agrees cells.now seat.new c → Encodes c n
        → n.form ≡ form → length n.prefix ≡ 7
        → AreListed n part.base part.first (result.reached + 1)
        (drop start (take result.count (pairs_of P.pair buffer.new))) }
    ensures kept { (c : List ℕ) → R.agrees cells.now seat.new c → R.agrees cells.now seat.old c }
{
    let mut from = part.first;
    for place in start..buffer.len() {
        let Some((byte, word)) = next_within(cells, form, from, part.last, seat) else {
            return Filled {
                count: place,
                reached: part.last,
            };
        };
        buffer[place] = P::from_pair(part.base + byte as u64, word);
        if byte == part.last {
            return Filled {
                count: place + 1,
                reached: byte,
            };
        }
        from = byte + 1;
    }
    Filled {
        count: buffer.len(),
        reached: from - 1,
    }
}
