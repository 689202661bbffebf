//! Pages of a range, leaf by leaf, upwards or downwards.
ghost use Rattle.std.specs.Prelude.{◌≡◌, ◌<◌, length, take, IfSome};
ghost use Rattle.live_layout.specs.Order.{IsFrom};
ghost use Rattle.live_layout.specs.Page.{pairs_of};
ghost use Rattle.live_nodes.specs.Seats.{SeatView};
ghost use Rattle.live_nodes.specs.Views.{View};
ghost use Rattle.live_reads.specs.Paths.{KnowsRootWord, Keeps};
ghost use Rattle.live_reads.specs.Positions.{KnowsLast};
ghost use Rattle.live_scans.specs.inner.Moments.{SeesMore};
ghost use Rattle.live_scans.specs.inner.Steps.{IsStep, IsPage};
ghost use Rattle.live_scans.specs.inner.Stops.{IsPosition, IsTrail, IsLeafAt};

use crate::bound::{Bound, Request, Step, key_after, nearer, part_of};
use crate::leaf::leaf_page;
use crate::next::{Visit, visit_node};
use crate::position::{PathNode, Position, Trail, know, open_known};
use crate::seek::begin;
use live_growth::map::TRIES;
use live_layout::page::RangeEntry;
use live_nodes::map_law::Asks;
use live_reads::descend;
use live_reads::last_leaf::LastLeaf;
use live_reads::path::{Nodes, Seat};
use std::marker::Brand;

/// Where a reader goes on: at the nodes of its last step, and in the leaf that its guard has come to last.
#[derive(Clone, Copy)]
pub struct Onward<'a> {
    pub trail: Option<Trail<'a>>,
    pub last: LastLeaf,
}

/// A step, the nodes above where it has come to, and the leaf that it has read, if the guard hasn't come to that last.
#[derive(Clone, Copy)]
pub struct Stepped<'a> {
    pub step: Step,
    pub trail: Trail<'a>,
    pub leaf: Option<Position>,
}

// One step from a node on: a part of a leaf is written into the buffer, or keys are passed that are absent. `None` where a writer came
// in between.
fn step_from<'a, A: Asks, P: RangeEntry>(
    nodes: &'a Nodes,
    trail: Trail<'a>,
    request: Request,
    buffer: &mut [P],
    seat: &mut Seat,
) -> Option<Stepped<'a>>
    requires book { seat.old.book ≡ nodes.now }
    requires asks { A.ask.caller ≡ seat.old.id }
    requires trail { IsTrail seat.old.view seat.old.book trail }
    requires order { IsFrom request.bound.up trail.low.at.key request.bound.limit }
    requires start { request.start < length buffer.old }
    ensures before { take request.start (pairs_of P.pair buffer.new)
        ≡ take request.start (pairs_of P.pair buffer.old) }
    ensures book { seat.new.book ≡ seat.old.book }
    ensures id { seat.new.id ≡ seat.old.id }
    ensures keeps { Keeps seat.old.view seat.new.view }
    ensures seen { SeesMore seat.new.view.client.seen seat.old.id seat.old.view.client.seen }
    ensures trail { IfSome result (λ s. IsTrail seat.new.view seat.new.book s.trail) }
    ensures leaf { IfSome result (λ s. IfSome s.leaf (IsLeafAt seat.new.view)) }
    ensures step { IfSome result (λ s. IsStep request.bound.up seat.old.id seat.old.view seat.new.view
        trail.entry.low.at.key request.bound.limit request.start (pairs_of P.pair buffer.new) s.step.count s.step.last) }
{
    let known = know(nodes, trail.low, seat)?;
    let mut here = open_known(trail.low.at, known, seat)?;
    let low = PathNode {
        at: trail.low.at,
        known: Some(known),
    };
    let mut at = Trail {
        low,
        high: trail.high,
    };
    loop {
        match visit_node::<A, P>(nodes, at.low.at, here, request, buffer, seat)? {
            Visit::Past(last) => {
                return Some(Stepped {
                    step: Step {
                        count: request.start,
                        last: nearer(last, request.bound),
                    },
                    trail: at,
                    leaf: None,
                });
            }
            Visit::Read(step, leaf) => {
                return Some(Stepped {
                    step,
                    trail: at,
                    leaf: Some(leaf),
                });
            }
            Visit::Goes(lower) => {
                let low = PathNode {
                    at: lower.node,
                    known: None,
                };
                at = Trail { low, high: at.low };
                here = lower.here;
            }
        }
    }
}

// One step from a key on: a part of a leaf is written into the buffer, or keys are passed that are absent. `None` where a writer
// came in between.
#[inline(always)]
fn try_step<'a, P: RangeEntry>(
    nodes: &'a Nodes,
    trail: Option<Trail<'a>>,
    key: u64,
    request: Request,
    buffer: &mut [P],
    seat: &mut Seat,
) -> Option<Stepped<'a>>
    requires book { seat.old.book ≡ nodes.now }
    requires root_word { KnowsRootWord seat.old.view }
    requires trail { IfSome trail (IsTrail seat.old.view seat.old.book) }
    requires order { IsFrom request.bound.up key request.bound.limit }
    requires start { request.start < length buffer.old }
    ensures before { take request.start (pairs_of P.pair buffer.new)
        ≡ take request.start (pairs_of P.pair buffer.old) }
    ensures book { seat.new.book ≡ seat.old.book }
    ensures id { seat.new.id ≡ seat.old.id }
    ensures keeps { Keeps seat.old.view seat.new.view }
    ensures seen { SeesMore seat.new.view.client.seen seat.old.id seat.old.view.client.seen }
    ensures trail { IfSome result (λ s. IsTrail seat.new.view seat.new.book s.trail) }
    ensures leaf { IfSome result (λ s. IfSome s.leaf (IsLeafAt seat.new.view)) }
    ensures step { IfSome result (λ s. IsStep request.bound.up seat.old.id seat.old.view seat.new.view
        key request.bound.limit request.start (pairs_of P.pair buffer.new) s.step.count s.step.last) }
{
    let at = begin(nodes, trail, key, seat)?;
    step_from::<Brand, P>(nodes, at, request, buffer, seat)
}

// One step from a key on in the leaf that a guard has come to last: a part of the leaf is written into the buffer. `None` where the
// key is one of another leaf, or a writer came in between.
fn step_last<'a, P: RangeEntry>(
    nodes: &'a Nodes,
    last: LastLeaf,
    key: u64,
    request: Request,
    buffer: &mut [P],
    seat: &mut Seat,
) -> Option<Stepped<'a>>
    requires book { seat.old.book ≡ nodes.now }
    requires last { KnowsLast seat.old.view last }
    requires order { IsFrom request.bound.up key request.bound.limit }
    requires start { request.start < length buffer.old }
    ensures before { take request.start (pairs_of P.pair buffer.new)
        ≡ take request.start (pairs_of P.pair buffer.old) }
    ensures book { seat.new.book ≡ seat.old.book }
    ensures id { seat.new.id ≡ seat.old.id }
    ensures keeps { Keeps seat.old.view seat.new.view }
    ensures seen { SeesMore seat.new.view.client.seen seat.old.id seat.old.view.client.seen }
    ensures trail { IfSome result (λ s. IsTrail seat.new.view seat.new.book s.trail) }
    ensures leaf { IfSome result (λ s. IfSome s.leaf (IsLeafAt seat.new.view)) }
    ensures step { IfSome result (λ s. IsStep request.bound.up seat.old.id seat.old.view seat.new.view
        key request.bound.limit request.start (pairs_of P.pair buffer.new) s.step.count s.step.last) }
{
    let Request { bound, start } = request;
    if last.position.name == 0 || last.key / 256 != key / 256 {
        return None;
    }
    let name = last.position.name;
    let part = part_of(key, bound);
    let filled = leaf_page::<Brand, P>(nodes, name, bound.up, part, buffer, start, seat)?;
    let at = Position {
        name: last.position.above,
        height: last.position.level,
        key: last.key,
    };
    let low = PathNode { at, known: None };
    Some(Stepped {
        step: Step {
            count: filled.count,
            last: part.base + filled.reached as u64,
        },
        trail: Trail { low, high: low },
        leaf: None,
    })
}

/// One step from a key on, in some tries: in the leaf that the guard has come to last, then from its trail on, and then from the root
/// on. A part of a leaf is written into the buffer, or keys are passed that are absent. `None` where too many writers came in between.
pub fn read_on<'a, P: RangeEntry>(
    nodes: &'a Nodes,
    onward: Onward<'a>,
    key: u64,
    request: Request,
    buffer: &mut [P],
    seat: &mut Seat,
) -> Option<Stepped<'a>>
    requires book { seat.old.book ≡ nodes.now }
    requires root_word { KnowsRootWord seat.old.view }
    requires trail { IfSome onward.trail (IsTrail seat.old.view seat.old.book) }
    requires last { KnowsLast seat.old.view onward.last }
    requires order { IsFrom request.bound.up key request.bound.limit }
    requires start { request.start < length buffer.old }
    ensures before { take request.start (pairs_of P.pair buffer.new)
        ≡ take request.start (pairs_of P.pair buffer.old) }
    ensures book { seat.new.book ≡ seat.old.book }
    ensures id { seat.new.id ≡ seat.old.id }
    ensures keeps { Keeps seat.old.view seat.new.view }
    ensures seen { SeesMore seat.new.view.client.seen seat.old.id seat.old.view.client.seen }
    ensures trail { IfSome result (λ s. IsTrail seat.new.view seat.new.book s.trail) }
    ensures leaf { IfSome result (λ s. IfSome s.leaf (IsLeafAt seat.new.view)) }
    ensures step { IfSome result (λ s. IsStep request.bound.up seat.old.id seat.old.view seat.new.view
        key request.bound.limit request.start (pairs_of P.pair buffer.new) s.step.count s.step.last) }
{
    let Onward { trail, last } = onward;
    if let Some(stepped) = step_last(nodes, last, key, request, buffer, seat) {
        return Some(stepped);
    }
    let mut at = trail;
    for _ in 0..TRIES {
        if let Some(stepped) = try_step(nodes, at, key, request, buffer, seat) {
            return Some(stepped);
        }
        at = None;
    }
    None
}

// The leaf that a caller has come to last after a step, which may have read one: that is as one below the root, since the node above
// isn't kept.
fn leaf_after(root: Position, leaf: Option<Position>, last: LastLeaf) -> LastLeaf
    requires root { root.height ≡ 8 }
    ensures { (v : SeatView View) → IsPosition v root → IfSome leaf (IsLeafAt v) → KnowsLast v last → KnowsLast v result }
{
    let Some(leaf) = leaf else {
        return last;
    };
    LastLeaf {
        key: leaf.key,
        position: descend::Position {
            above: root.name,
            level: 8,
            name: leaf.name,
            height: 1,
        },
    }
}

/// The pairs with keys from this one up to a limit, in the order of that direction, until the buffer is full. It goes on from the
/// root, or in the leaf that the guard has come to last. The last leaf that was read is that one then. `None` where too many writers
/// came in between.
pub fn page<P: RangeEntry>(
    nodes: &Nodes,
    root: Position,
    last: &mut LastLeaf,
    key: u64,
    bound: Bound,
    buffer: &mut [P],
    seat: &mut Seat,
) -> Option<Step>
    requires book { seat.old.book ≡ nodes.now }
    requires root_word { KnowsRootWord seat.old.view }
    requires root { IsPosition seat.old.view root × (root.height ≡ 8) }
    requires last { KnowsLast seat.old.view last.old }
    requires order { IsFrom bound.up key bound.limit }
    requires room { 0 < length buffer.old }
    ensures book { seat.new.book ≡ seat.old.book }
    ensures id { seat.new.id ≡ seat.old.id }
    ensures keeps { Keeps seat.old.view seat.new.view }
    ensures seen { SeesMore seat.new.view.client.seen seat.old.id seat.old.view.client.seen }
    ensures last { KnowsLast seat.new.view last.new }
    ensures page { IfSome result (λ s. IsPage bound.up seat.old.id seat.old.view seat.new.view
        key bound.limit (pairs_of P.pair buffer.new) s.count s.last) }
{
    let mut count = 0;
    let mut from = key;
    let low = PathNode {
        at: root,
        known: None,
    };
    let mut at = Some(Trail { low, high: low });
    loop {
        let onward = Onward {
            trail: at,
            last: *last,
        };
        let request = Request {
            bound,
            start: count,
        };
        let stepped = read_on(nodes, onward, from, request, buffer, seat)?;
        *last = leaf_after(root, stepped.leaf, *last);
        let step = stepped.step;
        if step.count == buffer.len() {
            return Some(step);
        }
        if step.last == bound.limit {
            return Some(step);
        }
        count = step.count;
        from = key_after(step.last, bound);
        at = Some(stepped.trail);
    }
}
