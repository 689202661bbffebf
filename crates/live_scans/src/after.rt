//! The child of a node that comes first from a byte on. A word of eight keys is searched at once.
ghost use Rattle.std.specs.Prelude.{◌≡◌, ℕ, ◌+◌, ◌-◌, ◌*◌, ◌/◌, ◌%◌, ◌<◌, ◌≤◌, true, List, Some, None, IfSome};
ghost use Rattle.std.specs.Int.{bit_at};
ghost use Rattle.spec_node.specs.TableNode.{TableNode};
ghost use Rattle.live_layout.specs.Words.{at, lane, Stays};
ghost use Rattle.live_layout.specs.ListCells.{count, key, first, HasList};
ghost use Rattle.node_base.specs.Form.{limit};
ghost use Rattle.live_layout.specs.Encodes.{words_of, Encodes};
ghost use Rattle.live_layout.specs.Order.{IsNearest, HasNearest};
ghost use Rattle.live_layout.specs.inner.Best.{IsBest};
ghost use Rattle.live_scans.specs.inner.Afters.{IsLeast};

use live_layout::form::room_of;
use live_layout::lanes::lane_of;
use live_layout::list::first_child;
use live_layout::nearest::nearest;
use live_layout::words::ReadWords;
use node_base::base_node::NodeType;
use std::simd::prelude::*;

// A bit for each byte of a word, whether it is below this one.
fn less_lanes(word: u64, byte: u8) -> u64
    ensures less { (k : ℕ) → k < 8 → lane word k < byte → bit_at result k ≡ 1 }
    ensures other { (k : ℕ) → k < 8 → byte ≤ lane word k → bit_at result k ≡ 0 }
{
    let lanes = u8x8::from_array(word.to_le_bytes());
    lanes.simd_lt(u8x8::splat(byte)).to_bitmask()
}

// A bit for each byte of a word, whether it is at least this one.
fn more_lanes(word: u64, byte: u8) -> u64
    ensures more { (k : ℕ) → k < 8 → byte ≤ lane word k → bit_at result k ≡ 1 }
    ensures other { (k : ℕ) → k < 8 → lane word k < byte → bit_at result k ≡ 0 }
{
    let lanes = u8x8::from_array(word.to_le_bytes());
    lanes.simd_ge(u8x8::splat(byte)).to_bitmask()
}

// The least byte of a word that is at least this one, from one place on and below another, with its place.
#[inline(always)]
fn least_lane(word: u64, from: usize, to: usize, least: u8) -> Option<(u8, usize)>
    requires { (from ≤ to) × (to ≤ 8) }
    ensures { IsLeast (lane word) from to least result }
{
    let mut mask = more_lanes(word, least) & ((1u64 << to) - (1u64 << from));
    let mut best = None;
    while mask != 0 {
        let place = mask.trailing_zeros() as usize;
        let byte = lane_of(word, place);
        best = Some((byte, place));
        mask &= less_lanes(word, byte);
    }
    best
}

// The better of two, each with its place: of the first ones, and of those behind them.
fn better(best: Option<(u8, usize)>, other: Option<(u8, usize)>) -> Option<(u8, usize)>
    ensures { (f : ℕ → ℕ) (least m n : ℕ) → m ≤ n → IsBest f least m best → IsLeast f m n least other
        → IsBest f least n result }
{
    match best {
        None => other,
        Some((byte, _)) => match other {
            Some((less, _)) if less < byte => other,
            _ => best,
        },
    }
}

// The place in a list of what was found in a word of its keys.
fn placed(found: Option<(u8, usize)>, w: usize) -> Option<(u8, usize)>
    requires few { w < 8 }
    requires inside { IfSome found (λ e. (e.1 < 8) × (1 ≤ 8 * w + e.1)) }
    ensures { (c : List ℕ) (from to least : ℕ) → 1 ≤ 8 * w + from → to ≤ 8
        → IsLeast (lane (at c (1 + w))) from to least found
        → IsLeast (key c) (8 * w + from - 1) (8 * w + to - 1) least result }
{
    match found {
        Some((byte, place)) => Some((byte, 8 * w + place - 1)),
        None => None,
    }
}

// The first key of a list from this one on, and its place.
#[inline(always)]
fn first_place<S, R: ReadWords<S>>(
    cells: &R,
    room: usize,
    least: u8,
    seat: &mut S,
) -> Option<(u8, usize)>
    requires room { room ≤ 48 }
    requires cells { R.may_read cells.now seat.old × (R.long cells.now ≡ first room + room) }
    ensures seat { Stays R.may_read R.rest cells.now seat.old seat.new }
    ensures is { (c : List ℕ) → R.agrees cells.now seat.new c → count c ≤ room
        → IsBest (key c) least (count c) result }
    ensures kept { (c : List ℕ) → R.agrees cells.now seat.new c → R.agrees cells.now seat.old c }
{
    let keys = cells.word(1, seat);
    let all = (lane_of(keys, 0) as usize).min(room);
    let mut best = placed(least_lane(keys, 1, (all + 1).min(8), least), 0);
    for w in 1..(all + 8) / 8 {
        let keys = cells.word(1 + w, seat);
        let found = least_lane(keys, 0, (all + 1 - 8 * w).min(8), least);
        best = better(best, placed(found, w));
    }
    best
}

/// The first child from a byte on, upwards (`true`) or downwards, of a node of this form: its byte and its word.
#[inline(always)]
pub fn child_after<S, R: ReadWords<S>>(
    cells: &R,
    form: NodeType,
    up: bool,
    from: u8,
    seat: &mut S,
) -> Option<(u8, u64)>
    requires cells { R.may_read cells.now seat.old × (R.long cells.now ≡ words_of form) }
    ensures seat { Stays R.may_read R.rest cells.now seat.old seat.new }
    ensures is { (c : List ℕ) (n : TableNode ℕ) → R.agrees cells.now seat.new c → Encodes c n
        → n.form ≡ form → HasNearest up n.children from result }
    ensures kept { (c : List ℕ) → R.agrees cells.now seat.new c → R.agrees cells.now seat.old c }
{
    if !up {
        return nearest(cells, form, false, from, seat);
    }
    match room_of(form) {
        None => nearest(cells, form, true, from, seat),
        Some(room) => list_after(cells, form, room, from, seat),
    }
}

// The first child from a byte on of a node that is a list. Its place is inside, which is tested rather than proved.
#[inline(always)]
fn list_after<S, R: ReadWords<S>>(
    cells: &R,
    form: NodeType,
    room: usize,
    from: u8,
    seat: &mut S,
) -> Option<(u8, u64)>
    requires room { (room ≤ 48) × (limit form ≡ Some room) }
    requires cells { R.may_read cells.now seat.old × (R.long cells.now ≡ words_of form) }
    requires long { words_of form ≡ first room + room }
    ensures seat { Stays R.may_read R.rest cells.now seat.old seat.new }
    ensures is { (c : List ℕ) (n : TableNode ℕ) → R.agrees cells.now seat.new c → Encodes c n
        → n.form ≡ form → HasNearest true n.children from result }
    ensures kept { (c : List ℕ) → R.agrees cells.now seat.new c → R.agrees cells.now seat.old c }
{
    let (byte, place) = first_place(cells, room, from, seat)?;
    if place >= room {
        return nearest(cells, form, true, from, seat);
    }
    let word = cells.word(first_child(room) + place, seat);
    Some((byte, word))
}
