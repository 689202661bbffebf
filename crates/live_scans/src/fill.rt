//! The pairs of a leaf into a buffer, upwards or downwards.
ghost use Rattle.std.specs.Prelude.{◌≡◌, ◌≢◌, ℕ, ◌+◌, ◌<◌, ◌≤◌, ◌^◌, cond, List, take, drop, length, reverse, IfSome};
ghost use Rattle.spec_node.specs.TableNode.{TableNode};
ghost use Rattle.live_layout.specs.Words.{Stays};
ghost use Rattle.live_layout.specs.Encodes.{words_of, Encodes};
ghost use Rattle.live_layout.specs.Page.{AreListed, pairs_of};
ghost use Rattle.live_scans.specs.inner.Directions.{ascending};
ghost use Rattle.live_scans.specs.inner.Fills.{IsPrevious};

use live_layout::nearest::nearest;
use live_layout::page::{Filled, Part, RangeEntry, fill};
use live_layout::words::ReadWords;
use node_base::base_node::NodeType;

// The last payload of a leaf up to a byte, from another one on: its byte and itself.
#[inline(always)]
fn previous_within<S, R: ReadWords<S>>(
    cells: &R,
    form: NodeType,
    from: u8,
    first: u8,
    seat: &mut S,
) -> Option<(u8, u64)>
    requires cells { R.may_read cells.now seat.old × (R.long cells.now ≡ words_of form) }
    ensures seat { Stays R.may_read R.rest cells.now seat.old seat.new }
    ensures inside { IfSome result (λ found. (first ≤ found.0) × (found.0 ≤ from)) }
    ensures is { (c : List ℕ) (n : TableNode ℕ) → R.agrees cells.now seat.new c → Encodes c n
        → n.form ≡ form → length n.prefix ≡ 7 → IsPrevious n from first result }
    ensures kept { (c : List ℕ) → R.agrees cells.now seat.new c → R.agrees cells.now seat.old c }
{
    let (byte, word) = nearest(cells, form, false, from, seat)?;
    if byte < first {
        return None;
    }
    if byte > from {
        return None;
    }
    Some((byte, word))
}

// Writes a part of a leaf of this form into a buffer, from a place there on, descending, until the buffer is full.
fn fill_down<S, R: ReadWords<S>, P: RangeEntry>(
    cells: &R,
    form: NodeType,
    part: Part,
    buffer: &mut [P],
    start: usize,
    seat: &mut S,
) -> Filled
    requires cells { R.may_read cells.now seat.old × (R.long cells.now ≡ words_of form) }
    requires part { (part.first ≤ part.last) × (part.base + 255 < 2 ^ 64) }
    requires start { start < length buffer.old }
    ensures seat { Stays R.may_read R.rest cells.now seat.old seat.new }
    ensures count { (start ≤ result.count) × (result.count ≤ length buffer.old) }
    ensures reached { (part.first ≤ result.reached) × (result.reached ≤ part.last) }
    ensures full { result.reached ≢ part.first → result.count ≡ length buffer.old }
    ensures before { take start (pairs_of P.pair buffer.new)
        ≡ take start (pairs_of P.pair buffer.old) }
    ensures is { (c : List ℕ) (n : TableNode ℕ) → R.agrees cells.now seat.new c → Encodes c n
        → n.form ≡ form → length n.prefix ≡ 7
        → AreListed n part.base result.reached (part.last + 1)
        (reverse (drop start (take result.count (pairs_of P.pair buffer.new)))) }
    ensures kept { (c : List ℕ) → R.agrees cells.now seat.new c → R.agrees cells.now seat.old c }
{
    let mut from = part.last;
    for place in start..buffer.len() {
        let Some((byte, word)) = previous_within(cells, form, from, part.first, seat) else {
            return Filled {
                count: place,
                reached: part.first,
            };
        };
        buffer[place] = P::from_pair(part.base + byte as u64, word);
        if byte == part.first {
            return Filled {
                count: place + 1,
                reached: byte,
            };
        }
        from = byte - 1;
    }
    Filled {
        count: buffer.len(),
        reached: from + 1,
    }
}

/// Writes a part of a leaf of this form into a buffer, from a place there on, upwards (`true`) or downwards, until the buffer is
/// full.
pub fn fill_on<S, R: ReadWords<S>, P: RangeEntry>(
    cells: &R,
    form: NodeType,
    up: bool,
    part: Part,
    buffer: &mut [P],
    start: usize,
    seat: &mut S,
) -> Filled
    requires cells { R.may_read cells.now seat.old × (R.long cells.now ≡ words_of form) }
    requires part { (part.first ≤ part.last) × (part.base + 255 < 2 ^ 64) }
    requires start { start < length buffer.old }
    ensures seat { Stays R.may_read R.rest cells.now seat.old seat.new }
    ensures count { (start ≤ result.count) × (result.count ≤ length buffer.old) }
    ensures reached { (part.first ≤ result.reached) × (result.reached ≤ part.last) }
    ensures full { result.reached ≢ cond up part.last part.first → result.count ≡ length buffer.old }
    ensures before { take start (pairs_of P.pair buffer.new)
        ≡ take start (pairs_of P.pair buffer.old) }
    ensures is { (c : List ℕ) (n : TableNode ℕ) → R.agrees cells.now seat.new c → Encodes c n
        → n.form ≡ form → length n.prefix ≡ 7
        → AreListed n part.base (cond up part.first result.reached)
        (cond up (result.reached + 1) (part.last + 1))
        (ascending up (drop start (take result.count (pairs_of P.pair buffer.new)))) }
    ensures kept { (c : List ℕ) → R.agrees cells.now seat.new c → R.agrees cells.now seat.old c }
{
    if up {
        return fill(cells, form, part, buffer, start, seat);
    }
    fill_down(cells, form, part, buffer, start, seat)
}
