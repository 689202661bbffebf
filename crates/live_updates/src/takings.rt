//! A leaf is locked, and its pairs with keys in a range are taken out.
ghost use Rattle.std.specs.Prelude.{◌≡◌, ℕ, ◌+◌, ◌*◌, ◌%◌, ◌<◌, ◌≤◌, ◌^◌, [], length, take, IfSome, IfNone};
ghost use Rattle.spec_node.specs.TableNode.{TableNode};
ghost use Rattle.live_layout.specs.Words.{Stays};
ghost use Rattle.live_layout.specs.Encodes.{words_of, Encodes, empty_node};
ghost use Rattle.live_nodes.specs.Levels.{up};
ghost use Rattle.live_reads.specs.Positions.{KnowsPosition};
ghost use Rattle.live_growth.specs.Holds.{HasRest};
ghost use Rattle.live_growth.specs.Calls.{IsReady};
ghost use Rattle.live_updates.specs.Takings.{Takes, HasTakenOut};
ghost use Rattle.live_updates.specs.inner.Lookups.{IsOpenLeaf};
ghost use Rattle.live_updates.specs.inner.Losses.{IsLeft, part_taking, SeesTaken, HoldsTaken};

use crate::shrink_node::{Fill, fill_of, shrink_on_path};
use crate::tidy::tidy_from;
use live_growth::held::{lock_open, unlock_same};
use live_growth::link::Room;
use live_growth::map::{Congee, Guard};
use live_layout::form::{form_below, room_of, words_in};
use live_layout::page::{Part, fill};
use live_layout::words::{AsReadWords, WriteWords};
use live_layout::{change, list, places};
use live_nodes::map_law::{MapLaw, MapView};
use live_nodes::node;
use live_nodes::plays::OnLock;
use live_nodes::rows::LockedWords;
use live_reads::descend::{End, Position, descend_from};
use live_reads::last_leaf::LastLeaf;
use live_reads::path::{Cell, Nodes, Seat};
use node_base::base_node::NodeType;
use std::marker::{Brand, PhantomData};

/// A removal of a leaf's pairs: who makes it, in which range of keys, and which pairs these are. A caller picks it.
pub trait Takings {
    ghost use Rattle.live_updates.specs.inner.Losses.{Taking};

    ghost taking: { Taking };
}

impl Takings for Brand {
    ghost use Rattle.std.specs.Prelude.{[]};
    ghost use Rattle.live_updates.specs.inner.Losses.{taking_of};

    ghost taking = { taking_of 0 0 0 [] };
}

/// A leaf is unlocked, without the pairs that were taken out.
pub struct TakeOut<T> {
    of: PhantomData<T>,
}

impl<T: Takings> OnLock<MapView> for TakeOut<T> {
    ghost use Rattle.live_updates.specs.inner.Losses.{TakesOut};

    ghost told = { TakesOut T.taking };
}

/// How many pairs were taken out of a leaf, and how many it has left.
#[derive(Clone, Copy, Debug, PartialEq, Eq)]
pub struct TakenOut {
    pub count: usize,
    pub left: Fill,
}

/// Takes all children out of a node. The head stays.
fn clear<S, D: WriteWords<S>>(draft: &D, form: NodeType, seat: &mut S)
    requires may { D.may_write draft.now seat.old }
    requires long { length (D.words draft.now seat.old) ≡ words_of form }
    ensures seat { Stays D.may_write D.rest draft.now seat.old seat.new }
    ensures long { length (D.words draft.now seat.new) ≡ words_of form }
    ensures is { (n : TableNode ℕ) → Encodes (D.words draft.now seat.old) n → n.form ≡ form
        → Encodes (D.words draft.now seat.new) (empty_node n.form n.prefix) }
{
    match room_of(form) {
        Some(room) => list::clear(draft, room, seat),
        None => places::clear(draft, seat),
    }
}

/// Takes the children with the bytes from `first` to `last` out of a node, one by one.
fn take_each<S, D: WriteWords<S>>(draft: &D, form: NodeType, first: u8, last: u8, seat: &mut S)
    requires may { D.may_write draft.now seat.old }
    requires long { length (D.words draft.now seat.old) ≡ words_of form }
    requires some { (n : TableNode ℕ) × Encodes (D.words draft.now seat.old) n × (n.form ≡ form) }
    requires order { first ≤ last }
    ensures seat { Stays D.may_write D.rest draft.now seat.old seat.new }
    ensures long { length (D.words draft.now seat.new) ≡ words_of form }
    ensures is { (n : TableNode ℕ) → Encodes (D.words draft.now seat.old) n → n.form ≡ form
        → IsLeft first (last + 1) n (D.words draft.now seat.new) }
{
    for byte in first as usize..last as usize + 1 {
        let _ = change::take(draft, form, byte as u8, seat);
    }
}

/// Takes the pairs of a part of a leaf out: all of the leaf at once, or one by one.
fn take_part<S, D: WriteWords<S>>(draft: &D, form: NodeType, part: Part, seat: &mut S)
    requires may { D.may_write draft.now seat.old }
    requires long { length (D.words draft.now seat.old) ≡ words_of form }
    requires some { (n : TableNode ℕ) × Encodes (D.words draft.now seat.old) n × (n.form ≡ form) }
    requires order { part.first ≤ part.last }
    ensures seat { Stays D.may_write D.rest draft.now seat.old seat.new }
    ensures long { length (D.words draft.now seat.new) ≡ words_of form }
    ensures is { (n : TableNode ℕ) → Encodes (D.words draft.now seat.old) n → n.form ≡ form
        → IsLeft part.first (part.last + 1) n (D.words draft.now seat.new) }
{
    if part.first == 0 && part.last == 255 {
        clear(draft, form, seat);
        return;
    }
    take_each(draft, form, part.first, part.last, seat);
}

/// Unlocks a leaf, whose pairs in a part of it were taken out.
fn unlock_taken<T: Takings>(
    words: &[Cell],
    free: u64,
    part: Part,
    pairs: &[(u64, u64)],
    seat: &mut Seat,
)
    requires taking { T.taking ≡ part_taking seat.old.id part pairs.now }
    requires word { (free % 4 ≡ 0) × (free < 2 ^ 62) }
    requires holds { HoldsTaken seat.old.view seat.old.book words.now free part pairs.now }
    ensures book { seat.new.book ≡ seat.old.book }
    ensures id { seat.new.id ≡ seat.old.id }
    ensures rest { HasRest seat.old.view seat.new.view }
    ensures takes { SeesTaken (part_taking seat.old.id part pairs.now) seat.old.view seat.new.view }
{
    let (_, _) = (part, pairs);
    node::unlock::<MapView, MapLaw, TakeOut<T>>(&words[0], free, seat);
}

/// Takes the pairs of a part of an open leaf out, and writes them into a buffer, ascending, as many as fit. `None` where a writer
/// came in between, or there are none: then nothing has changed.
fn take_pairs(
    leaf: End<'_>,
    key: u64,
    part: Part,
    buffer: &mut [(u64, u64)],
    seat: &mut Seat,
) -> Option<TakenOut>
    requires open { IsOpenLeaf seat.old.view seat.old.book key leaf }
    requires rests { (seat.old.view.client.own ≡ []) × (seat.old.view.holds ≡ []) }
    requires part { (part.first ≤ part.last) × (part.base + 255 < 2 ^ 64)
        × (part.base ≡ 256 * up 1 key) }
    requires some_room { 0 < length buffer.old }
    ensures book { seat.new.book ≡ seat.old.book }
    ensures id { seat.new.id ≡ seat.old.id }
    ensures rest { HasRest seat.old.view seat.new.view }
    ensures none { IfNone result (seat.new.view.client.seen ≡ seat.old.view.client.seen) }
    ensures count { IfSome result (λ out. (1 ≤ out.count) × (out.count ≤ length buffer.old)) }
    ensures taken { IfSome result (λ out. (to : ℕ) × (to ≤ part.base + (part.last + 1))
        × Takes seat.old.id (part.base + part.first) to (take out.count buffer.new)
        seat.old.view.client.seen seat.new.view.client.seen) }
{
    let End { position, here, .. } = leaf;
    let (words, name) = (here.words, position.name);
    let form = form_below(name);
    let free = lock_open(here, name, 1, key, seat)?;
    let held: LockedWords<'_, MapView, MapLaw, 0> = LockedWords { words };
    let cells = AsReadWords {
        draft: &held,
        long: words_in(form),
    };
    let filled = fill(&cells, form, part, buffer, 0, seat);
    if filled.count == 0 {
        unlock_same(words, free, seat);
        return None;
    }
    let Part { base, first, .. } = part;
    let reached = Part {
        base,
        first,
        last: filled.reached,
    };
    take_part(&held, form, reached, seat);
    let left = fill_of(&held, form, seat);
    unlock_taken::<Brand>(words, free, reached, &buffer[..filled.count], seat);
    Some(TakenOut {
        count: filled.count,
        left,
    })
}

/// The part of a key's leaf from the key to another one.
fn part_from(key: u64, last: u64) -> Part
    requires { key ≤ last }
    ensures order { result.first ≤ result.last }
    ensures base { (result.base + 255 < 2 ^ 64) × (result.base ≡ 256 * up 1 key) }
    ensures begins { result.base + result.first ≡ key }
    ensures within { result.base + result.last ≤ last }
{
    let base = key - key % 256;
    Part {
        base,
        first: (key % 256) as u8,
        last: (last - base).min(255) as u8,
    }
}

/// A leaf that has lost keys is taken out of the map, if it has none left, or goes into the next smaller form, if it has few.
fn tidy_leaf(
    nodes: &Nodes,
    position: Position,
    left: Fill,
    key: u64,
    room: &mut Room,
    seat: &mut Seat,
)
    requires book { seat.old.book ≡ nodes.now }
    requires ready { IsReady seat.old.view room.old }
    requires position { KnowsPosition seat.old.view key position }
    ensures book { seat.new.book ≡ seat.old.book }
    ensures id { seat.new.id ≡ seat.old.id }
    ensures ready { IsReady seat.new.view room.new }
    ensures seen { seat.new.view.client.seen ≡ seat.old.view.client.seen }
{
    if left == Fill::Empty {
        tidy_from(nodes, position, key, room, seat);
        return;
    }
    shrink_on_path(nodes, position.name, left, key, room, seat);
}

/// As `take_from_leaf`, by a seat.
fn take_once(
    nodes: &Nodes,
    key: u64,
    last: u64,
    buffer: &mut [(u64, u64)],
    room: &mut Room,
    seat: &mut Seat,
) -> usize
    requires book { seat.old.book ≡ nodes.now }
    requires ready { IsReady seat.old.view room.old }
    requires order { key ≤ last }
    requires some_room { 0 < length buffer.old }
    ensures book { seat.new.book ≡ seat.old.book }
    ensures id { seat.new.id ≡ seat.old.id }
    ensures ready { IsReady seat.new.view room.new }
    ensures few { result ≤ length buffer.old }
    ensures none { result ≡ 0 → seat.new.view.client.seen ≡ seat.old.view.client.seen }
    ensures taken { 1 ≤ result → (to : ℕ) × (to ≤ last + 1)
        × Takes seat.old.id key to (take result buffer.new)
        seat.old.view.client.seen seat.new.view.client.seen }
{
    let Some(end) = descend_from(nodes, room.last, key, seat) else {
        return 0;
    };
    let position = end.position;
    let Position { height, .. } = position;
    if height > 1 {
        return 0;
    }
    room.last = LastLeaf { key, position };
    let part = part_from(key, last);
    let Some(out) = take_pairs(end, key, part, buffer, seat) else {
        return 0;
    };
    tidy_leaf(nodes, position, out.left, key, room, seat);
    out.count
}

/// Removes the pairs with keys from `key` to `last` that are in the key's leaf: those whose keys differ from it in the last byte
/// alone. Writes them into the buffer, ascending, as many as fit, and returns how many. They are removed at one moment. 0 where
/// there is none, or a writer came in between: then nothing has changed. Takes no memory. A leaf without keys is taken out of
/// the map, as `remove` does.
pub fn take_from_leaf(
    map: &Congee,
    guard: &mut Guard,
    key: u64,
    last: u64,
    buffer: &mut [(u64, u64)],
) -> usize
    requires map { guard.old.book ≡ map.now }
    requires order { key ≤ last }
    requires some_room { 0 < length buffer.old }
    ensures few { result ≤ length buffer.old }
    ensures none { result ≡ 0 → guard.new ≡ guard.old }
    ensures taken { 1 ≤ result
        → HasTakenOut guard.old key (last + 1) (take result buffer.new) guard.new }
{
    take_once(
        &map.nodes,
        key,
        last,
        buffer,
        &mut guard.room,
        &mut guard.seat,
    )
}
