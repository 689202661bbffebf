//! The path on from a key below a node, upwards (`true`) or downwards: to the next node, or past keys that are absent.
ghost use Rattle.std.specs.Prelude.{◌≡◌, ◌≢◌, ℕ, ◌+◌, ◌-◌, ◌*◌, ◌<◌, ◌≤◌, true, false, length, take, Some, IfSome, IsTrue};
ghost use Rattle.spec_node.specs.declared.child.Child.TheVariants.{Node};
ghost use Rattle.live_layout.specs.Encodes.{IsWord};
ghost use Rattle.live_layout.specs.Order.{IsFrom};
ghost use Rattle.live_layout.specs.Page.{pairs_of};
ghost use Rattle.live_nodes.specs.Levels.{up};
ghost use Rattle.live_nodes.specs.Levels as levels;
ghost use Rattle.live_reads.specs.Paths.{Sights, IsOpen, Keeps};
ghost use Rattle.live_reads.specs.Mismatches.{first_number};
ghost use Rattle.live_scans.specs.inner.Moments.{SeesMore, HasNone, IsPassed};
ghost use Rattle.live_scans.specs.inner.Nexts.{IsNear, IsNext, IsLower, IsOutside, Chooses, Enters, Visits};

use crate::after::child_after;
use crate::beside::read_beside;
use crate::bound::{Request, Step, is_beyond};
use crate::keys::{end_byte, end_of, ends_leaf, floor_of, key_before, span, upper};
use crate::on_check::Whole;
use crate::position::Position;
use live_layout::form::{form_below, slot_below};
use live_layout::page::RangeEntry;
use live_layout::words::ReadWords;
use live_nodes::map_law::{Above, Asks, Below, Head, Look, MapLaw, MapView};
use live_nodes::node;
use live_nodes::rows::SharedWords;
use live_reads::path::{Nodes, Opened, Seat, byte_at, open};
use live_reads::prefix_match::{PrefixMatch, compare};
use std::marker::Brand;

/// A node below an open one, which is open, too, with a key that begins like it.
#[derive(Clone, Copy)]
pub struct Lower<'a> {
    pub node: Position,
    pub here: Opened<'a>,
}

/// What is next from a key on: none up to another one, which is the last of a leaf in that direction, or a node, with the first of its
/// keys that isn't passed.
#[derive(Clone, Copy, Debug, PartialEq, Eq)]
pub enum Turn {
    Past(u64),
    Goes(Position),
}

/// What a visit of a node has come to: no keys up to another one, a node below, which is open, or pairs that were read of a leaf.
#[derive(Clone, Copy)]
pub enum Visit<'a> {
    Past(u64),
    Goes(Lower<'a>),
    Read(Step, Position),
}

/// The child of an open node that is nearest to the key's byte: the byte and the word.
#[inline(always)]
fn nearest_child(here: Opened<'_>, at: Position, up: bool, seat: &mut Seat) -> Option<(u8, u64)>
    requires open { IsOpen seat.old.view seat.old.book here.words.now here.taken at.name at.key at.height }
    requires height { (2 ≤ at.height) × (at.height ≤ 8) }
    ensures book { seat.new.book ≡ seat.old.book }
    ensures id { seat.new.id ≡ seat.old.id }
    ensures keeps { Keeps seat.old.view seat.new.view }
    ensures seen { seat.new.view.client.seen ≡ seat.old.view.client.seen }
    ensures near { IsNear up seat.new.view seat.new.book here.entry.words.now here.entry.taken at result }
{
    let row = SharedWords { words: here.words };
    child_after(
        &row,
        form_below(at.name),
        up,
        byte_at(at.key, at.height),
        seat,
    )
}

/// Meets the nearest child of an open node, which has a key under the same byte. `false` where a writer came in between.
#[inline(always)]
fn meet_under<A: Asks>(
    here: Opened<'_>,
    at: Position,
    child: (u8, u64),
    to: u64,
    up: bool,
    seat: &mut Seat,
) -> bool
    requires asks { (A.ask.key ≡ to) × (A.ask.caller ≡ seat.old.id) }
    requires to { levels.up (at.height - 1) to ≡ 256 * levels.up at.height at.key + child.0 }
    requires near { IsNear up seat.old.view seat.old.book here.words.now here.taken at (Some child) }
    requires height { (2 ≤ at.height) × (at.height ≤ 8) }
    ensures book { seat.new.book ≡ seat.old.book }
    ensures id { seat.new.id ≡ seat.old.id }
    ensures keeps { Keeps seat.old.view seat.new.view }
    ensures seen { seat.new.view.client.seen ≡ seat.old.view.client.seen }
    ensures near { IsTrue result → IsNear up seat.new.view seat.new.book here.entry.words.now here.entry.taken
        at (Some child) }
    ensures met { IsTrue result → ((s : ℕ) × IsWord child.1 (Node s) × Sights seat.new.view s) }
{
    let (_, _) = (to, up);
    let Opened { words, taken } = here;
    node::check::<MapView, MapLaw, Look<A>>(&words[0], taken, seat)
}

/// Opens a child of an open node, and watches it there. `None` where a writer came in between.
#[inline(always)]
fn watch_next<'a, N: Above>(
    nodes: &'a Nodes,
    here: Opened<'_>,
    at: Position,
    child: (u8, u64),
    up: bool,
    seat: &mut Seat,
) -> Option<Lower<'a>>
    requires book { seat.old.book ≡ nodes.now }
    requires near { IsNear up seat.old.view seat.old.book here.words.now here.taken at (Some child) }
    requires height { (2 ≤ at.height) × (at.height ≤ 8) }
    requires met { (s : ℕ) × IsWord child.1 (Node s) × Sights seat.old.view s }
    requires above { (N.number ≡ first_number seat.old.view.reads) × (N.word ≡ Some here.taken) }
    ensures book { seat.new.book ≡ seat.old.book }
    ensures id { seat.new.id ≡ seat.old.id }
    ensures keeps { Keeps seat.old.view seat.new.view }
    ensures seen { seat.new.view.client.seen ≡ seat.old.view.client.seen }
    ensures next { IfSome result (λ l. let there = l.here
        in IsNext up seat.new.view seat.new.book here.entry.words.now here.entry.taken at child
        l.node there.words.now there.taken) }
{
    let _ = up;
    let below = slot_below(child.1);
    if below == at.name {
        return None;
    }
    let there = open(nodes, below, seat)?;
    let row = SharedWords { words: there.words };
    let head = row.word(0, seat);
    if !node::check::<MapView, MapLaw, Below<N>>(&there.words[0], there.taken, seat) {
        return None;
    }
    let first = floor_of(head);
    match compare(head, first) {
        PrefixMatch::Covers(height) => Some(Lower {
            node: Position {
                name: below,
                height,
                key: first,
            },
            here: there,
        }),
        PrefixMatch::Leaves(_, _) => None,
    }
}

/// Whether an open node is what it was. So no other keys are there, up to a child's byte, than those of the child.
#[inline(always)]
pub fn is_still<A: Asks>(
    here: Opened<'_>,
    at: Position,
    child: (u8, u64),
    lower: Lower<'_>,
    up: bool,
    seat: &mut Seat,
) -> bool
    requires asks { A.ask.caller ≡ seat.old.id }
    requires height { (2 ≤ at.height) × (at.height ≤ 8) }
    requires next { IsNext up seat.old.view seat.old.book here.words.now here.taken at child
        lower.node lower.here.words.now lower.here.taken }
    ensures book { seat.new.book ≡ seat.old.book }
    ensures id { seat.new.id ≡ seat.old.id }
    ensures keeps { Keeps seat.old.view seat.new.view }
    ensures seen { SeesMore seat.new.view.client.seen seat.old.id seat.old.view.client.seen }
    ensures none { IsTrue result → HasNone seat.old.id seat.old.view seat.new.view
        (IsOutside up at child.0 lower.entry.node) }
    ensures lower { IsTrue result → IsLower up seat.new.view seat.new.book here.entry.words.now here.entry.taken
        at child lower.entry.node lower.entry.here.words.now lower.entry.here.taken }
{
    let (_, _) = (child, up);
    let Opened { words, taken } = here;
    node::check::<MapView, MapLaw, Whole<A>>(&words[0], taken, seat)
}

/// Whether a node is still what its head says. It stays open, and so does the node above.
#[inline(always)]
fn arrive(
    here: Opened<'_>,
    at: Position,
    child: (u8, u64),
    lower: Lower<'_>,
    up: bool,
    seat: &mut Seat,
) -> bool
    requires lower { IsLower up seat.old.view seat.old.book here.words.now here.taken at child
        lower.node lower.here.words.now lower.here.taken }
    ensures book { seat.new.book ≡ seat.old.book }
    ensures id { seat.new.id ≡ seat.old.id }
    ensures keeps { Keeps seat.old.view seat.new.view }
    ensures seen { seat.new.view.client.seen ≡ seat.old.view.client.seen }
    ensures opened { IsTrue result → IsOpen seat.new.view seat.new.book lower.entry.here.words.now lower.entry.here.taken
        lower.entry.node.name lower.entry.node.key lower.entry.node.height }
    ensures lower { IsTrue result → IsLower up seat.new.view seat.new.book here.entry.words.now here.entry.taken
        at child lower.entry.node lower.entry.here.words.now lower.entry.here.taken }
{
    let (_, _, _, _) = (here, at, child, up);
    let Opened { words, taken } = lower.here;
    node::check::<MapView, MapLaw, Head>(&words[0], taken, seat)
}

// Where to go on upwards: at the node below, if its keys come after this one, or behind its byte.
#[inline(always)]
fn choose_up(at: Position, byte: u8, to: u64, lower: Position) -> Option<Turn>
    requires height { (at.height ≤ 8) × (1 ≤ lower.height) × (lower.height < at.height) }
    requires to { up (at.height - 1) to ≡ 256 * up at.height at.key + byte }
    requires apart { up lower.height at.key ≢ up lower.height lower.key }
    ensures { Chooses true at byte lower result }
{
    let low = lower.height;
    let first = lower.key;
    if first < at.key {
        if to < at.key || to % 256 != 255 {
            return None;
        }
        return Some(Turn::Past(to));
    }
    if first == at.key || first % 256 != 0 {
        return None;
    }
    if upper(first - 1, low) == upper(first, low) {
        return None;
    }
    if upper(first, at.height - 1) != upper(to, at.height - 1) {
        return None;
    }
    Some(Turn::Goes(lower))
}

// Where to go on downwards: at the node below, if its keys come before this one, or behind its byte.
fn choose_down(at: Position, byte: u8, to: u64, lower: Position) -> Option<Turn>
    requires height { (at.height ≤ 8) × (1 ≤ lower.height) × (lower.height < at.height) }
    requires to { up (at.height - 1) to ≡ 256 * up at.height at.key + byte }
    requires apart { up lower.height at.key ≢ up lower.height lower.key }
    ensures { Chooses false at byte lower result }
{
    let low = lower.height;
    if lower.key > at.key {
        if to > at.key || to % 256 != 0 {
            return None;
        }
        return Some(Turn::Past(to));
    }
    let last = lower.key | (span(low) - 1);
    if last >= at.key || last % 256 != 255 {
        return None;
    }
    if upper(last, low) != upper(lower.key, low) || upper(last + 1, low) == upper(last, low) {
        return None;
    }
    if upper(last, at.height - 1) != upper(to, at.height - 1) {
        return None;
    }
    Some(Turn::Goes(Position {
        name: lower.name,
        height: low,
        key: last,
    }))
}

// Where to go on: at the node below, if it has this key or one behind it, or behind its byte.
#[inline(always)]
fn choose(at: Position, byte: u8, to: u64, lower: Position, up: bool) -> Option<Turn>
    requires height { (2 ≤ at.height) × (at.height ≤ 8) }
    requires to { levels.up (at.height - 1) to ≡ 256 * levels.up at.height at.key + byte }
    ensures { Chooses up at byte lower result }
{
    let low = lower.height;
    if low < 1 || low >= at.height {
        return None;
    }
    if upper(at.key, low) == upper(lower.key, low) {
        return Some(Turn::Goes(Position {
            name: lower.name,
            height: low,
            key: at.key,
        }));
    }
    if up {
        return choose_up(at, byte, to, lower);
    }
    choose_down(at, byte, to, lower)
}

// What is next behind the keys that a node has before a child: the child, or its pairs, if it is a leaf. `None` where a writer came
// in between.
fn enter_lower<'a, A: Asks, P: RangeEntry>(
    here: Opened<'_>,
    at: Position,
    child: (u8, u64),
    lower: Lower<'a>,
    request: Request,
    buffer: &mut [P],
    seat: &mut Seat,
) -> Option<Visit<'a>>
    requires asks { A.ask.caller ≡ seat.old.id }
    requires height { (2 ≤ at.height) × (at.height ≤ 8) }
    requires lower { IsLower request.bound.up seat.old.view seat.old.book here.words.now here.taken at child
        lower.node lower.here.words.now lower.here.taken }
    requires low { (1 ≤ lower.node.height) × (lower.node.height < at.height) }
    requires order { IsFrom request.bound.up at.key lower.node.key }
    requires within { IsFrom request.bound.up lower.node.key request.bound.limit }
    requires start { request.start < length buffer.old }
    ensures before { take request.start (pairs_of P.pair buffer.new)
        ≡ take request.start (pairs_of P.pair buffer.old) }
    ensures book { seat.new.book ≡ seat.old.book }
    ensures id { seat.new.id ≡ seat.old.id }
    ensures keeps { Keeps seat.old.view seat.new.view }
    ensures seen { SeesMore seat.new.view.client.seen seat.old.id seat.old.view.client.seen }
    ensures enters { Enters request.bound.up seat.old.id seat.old.view seat.new.view seat.new.book lower.entry.node
        request.bound.limit request.start (pairs_of P.pair buffer.new) result }
{
    if !arrive(here, at, child, lower, request.bound.up, seat) {
        return None;
    }
    if lower.node.height == 1 {
        let step = read_beside::<A, P>(here, at, child, lower, request, buffer, seat)?;
        return Some(Visit::Read(step, lower.node));
    }
    Some(Visit::Goes(lower))
}

/// What is next where an open node has a child from the key's byte on. `None` where a writer came in between.
fn beside<'a, A: Asks, P: RangeEntry>(
    nodes: &'a Nodes,
    here: Opened<'_>,
    at: Position,
    child: (u8, u64),
    request: Request,
    buffer: &mut [P],
    seat: &mut Seat,
) -> Option<Visit<'a>>
    requires book { seat.old.book ≡ nodes.now }
    requires asks { A.ask.caller ≡ seat.old.id }
    requires near { IsNear request.bound.up seat.old.view seat.old.book here.words.now here.taken at (Some child) }
    requires height { (2 ≤ at.height) × (at.height ≤ 8) }
    requires order { IsFrom request.bound.up at.key request.bound.limit }
    requires start { request.start < length buffer.old }
    ensures before { take request.start (pairs_of P.pair buffer.new)
        ≡ take request.start (pairs_of P.pair buffer.old) }
    ensures book { seat.new.book ≡ seat.old.book }
    ensures id { seat.new.id ≡ seat.old.id }
    ensures keeps { Keeps seat.old.view seat.new.view }
    ensures seen { SeesMore seat.new.view.client.seen seat.old.id seat.old.view.client.seen }
    ensures visits { Visits request.bound.up seat.old.id seat.old.view seat.new.view seat.new.book at
        request.bound.limit request.start (pairs_of P.pair buffer.new) result }
{
    let up = request.bound.up;
    let to = end_of(at.key, at.height, child.0, up);
    if !meet_under::<Brand>(here, at, child, to, up, seat) {
        return None;
    }
    let lower = watch_next::<Brand>(nodes, here, at, child, up, seat)?;
    if !is_still::<A>(here, at, child, lower, up, seat) {
        return None;
    }
    match choose(at, child.0, to, lower.node, up)? {
        Turn::Past(last) => Some(Visit::Past(last)),
        Turn::Goes(node) => {
            if is_beyond(node.key, request.bound) {
                return Some(Visit::Past(key_before(node.key, up)));
            }
            let lower = Lower {
                node,
                here: lower.here,
            };
            enter_lower::<A, P>(here, at, child, lower, request, buffer, seat)
        }
    }
}

// The last key of a node that is open, in that direction, where it has no child from the key's byte on. `None` where a writer came in
// between.
fn behind<A: Asks>(here: Opened<'_>, at: Position, up: bool, seat: &mut Seat) -> Option<u64>
    requires asks { A.ask.caller ≡ seat.old.id }
    requires near { IsNear up seat.old.view seat.old.book here.words.now here.taken at None }
    requires height { (2 ≤ at.height) × (at.height ≤ 8) }
    ensures book { seat.new.book ≡ seat.old.book }
    ensures id { seat.new.id ≡ seat.old.id }
    ensures keeps { Keeps seat.old.view seat.new.view }
    ensures seen { SeesMore seat.new.view.client.seen seat.old.id seat.old.view.client.seen }
    ensures passed { IfSome result (IsPassed up seat.old.id seat.old.view seat.new.view at.key) }
{
    let Opened { words, taken } = here;
    if !node::check::<MapView, MapLaw, Whole<A>>(&words[0], taken, seat) {
        return None;
    }
    let last = end_of(at.key, at.height, end_byte(up), up);
    if !ends_leaf(at.key, last, up) {
        return None;
    }
    Some(last)
}

/// What is next from a key on below an open node that has keys which begin like it. If that is a leaf, its pairs are written into
/// the buffer. `None` where a writer came in between.
pub fn visit_node<'a, A: Asks, P: RangeEntry>(
    nodes: &'a Nodes,
    at: Position,
    here: Opened<'_>,
    request: Request,
    buffer: &mut [P],
    seat: &mut Seat,
) -> Option<Visit<'a>>
    requires book { seat.old.book ≡ nodes.now }
    requires asks { A.ask.caller ≡ seat.old.id }
    requires open { IsOpen seat.old.view seat.old.book here.words.now here.taken at.name at.key at.height }
    requires height { (2 ≤ at.height) × (at.height ≤ 8) }
    requires order { IsFrom request.bound.up at.key request.bound.limit }
    requires start { request.start < length buffer.old }
    ensures before { take request.start (pairs_of P.pair buffer.new)
        ≡ take request.start (pairs_of P.pair buffer.old) }
    ensures book { seat.new.book ≡ seat.old.book }
    ensures id { seat.new.id ≡ seat.old.id }
    ensures keeps { Keeps seat.old.view seat.new.view }
    ensures seen { SeesMore seat.new.view.client.seen seat.old.id seat.old.view.client.seen }
    ensures visits { Visits request.bound.up seat.old.id seat.old.view seat.new.view seat.new.book at
        request.bound.limit request.start (pairs_of P.pair buffer.new) result }
{
    let up = request.bound.up;
    match nearest_child(here, at, up, seat) {
        None => {
            let last = behind::<A>(here, at, up, seat)?;
            Some(Visit::Past(last))
        }
        Some(child) => beside::<A, P>(nodes, here, at, child, request, buffer, seat),
    }
}
