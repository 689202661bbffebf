//! The pairs of a leaf, and the keys behind it that aren't there, in one visit of the node above.
ghost use Rattle.std.specs.Prelude.{◌≡◌, ◌<◌, ◌≤◌, length, take, Some, IfSome, IsTrue};
ghost use Rattle.live_layout.specs.Order.{IsFrom};
ghost use Rattle.live_layout.specs.Page.{pairs_of};
ghost use Rattle.live_reads.specs.Paths.{Keeps};
ghost use Rattle.live_scans.specs.inner.Moments.{SeesMore, HasNone};
ghost use Rattle.live_scans.specs.inner.Nexts.{IsNext, IsLower, IsOutside, second_number};
ghost use Rattle.live_scans.specs.inner.Steps.{IsStep};

use crate::bound::{Request, Step, nearer, part_of};
use crate::keys::{end_byte, end_of, ends_leaf};
use crate::leaf::read_leaf;
use crate::next::{Lower, is_still};
use crate::position::Position;
use live_layout::page::RangeEntry;
use live_nodes::map_law::{Above, Asks, Below, MapLaw, MapView};
use live_nodes::node;
use live_reads::path::{Opened, Seat};
use std::marker::Brand;

// Whether a child that is open is what it was. It is watched below the node above, which is open, too.
fn watch_again<N: Above>(
    here: Opened<'_>,
    at: Position,
    child: (u8, u64),
    lower: Lower<'_>,
    up: bool,
    seat: &mut Seat,
) -> bool
    requires height { (2 ≤ at.height) × (at.height ≤ 8) }
    requires lower { IsLower up seat.old.view seat.old.book here.words.now here.taken at child
        lower.node lower.here.words.now lower.here.taken }
    requires above { (N.number ≡ second_number seat.old.view.reads) × (N.word ≡ Some here.taken) }
    ensures book { seat.new.book ≡ seat.old.book }
    ensures id { seat.new.id ≡ seat.old.id }
    ensures keeps { Keeps seat.old.view seat.new.view }
    ensures seen { seat.new.view.client.seen ≡ seat.old.view.client.seen }
    ensures next { IsTrue result → IsNext up seat.new.view seat.new.book here.entry.words.now here.entry.taken
        at child lower.entry.node lower.entry.here.words.now lower.entry.here.taken }
{
    let _ = up;
    let Opened { words, taken } = lower.here;
    node::check::<MapView, MapLaw, Below<N>>(&words[0], taken, seat)
}

// Whether a node above a child is what it was, and the child, too. So no other keys are there, up to the child's byte, than those of
// the child.
fn has_no_other<A: Asks>(
    here: Opened<'_>,
    at: Position,
    child: (u8, u64),
    lower: Lower<'_>,
    up: bool,
    seat: &mut Seat,
) -> bool
    requires asks { A.ask.caller ≡ seat.old.id }
    requires height { (2 ≤ at.height) × (at.height ≤ 8) }
    requires lower { IsLower up seat.old.view seat.old.book here.words.now here.taken at child
        lower.node lower.here.words.now lower.here.taken }
    ensures book { seat.new.book ≡ seat.old.book }
    ensures id { seat.new.id ≡ seat.old.id }
    ensures keeps { Keeps seat.old.view seat.new.view }
    ensures seen { SeesMore seat.new.view.client.seen seat.old.id seat.old.view.client.seen }
    ensures none { IsTrue result → HasNone seat.old.id seat.old.view seat.new.view
        (IsOutside up at child.0 lower.entry.node) }
{
    if !watch_again::<Brand>(here, at, child, lower, up, seat) {
        return false;
    }
    is_still::<A>(here, at, child, lower, up, seat)
}

/// Writes the pairs of a leaf into the buffer, and passes the keys behind it that begin with the same byte, if no writer came in
/// between. `None` where one came before that.
pub fn read_beside<A: Asks, P: RangeEntry>(
    here: Opened<'_>,
    at: Position,
    child: (u8, u64),
    lower: Lower<'_>,
    request: Request,
    buffer: &mut [P],
    seat: &mut Seat,
) -> Option<Step>
    requires asks { A.ask.caller ≡ seat.old.id }
    requires height { (2 ≤ at.height) × (at.height ≤ 8) }
    requires lower { IsLower request.bound.up seat.old.view seat.old.book here.words.now here.taken at child
        lower.node lower.here.words.now lower.here.taken }
    requires leaf { lower.node.height ≡ 1 }
    requires order { IsFrom request.bound.up at.key lower.node.key }
    requires within { IsFrom request.bound.up lower.node.key request.bound.limit }
    requires start { request.start < length buffer.old }
    ensures before { take request.start (pairs_of P.pair buffer.new)
        ≡ take request.start (pairs_of P.pair buffer.old) }
    ensures book { seat.new.book ≡ seat.old.book }
    ensures id { seat.new.id ≡ seat.old.id }
    ensures keeps { Keeps seat.old.view seat.new.view }
    ensures seen { SeesMore seat.new.view.client.seen seat.old.id seat.old.view.client.seen }
    ensures step { IfSome result (λ s. IsStep request.bound.up seat.old.id seat.old.view seat.new.view
        lower.entry.node.key request.bound.limit request.start (pairs_of P.pair buffer.new) s.count s.last) }
{
    let bound = request.bound;
    let part = part_of(lower.node.key, bound);
    let name = lower.node.name;
    let filled = read_leaf::<A, P>(
        lower.here,
        name,
        bound.up,
        part,
        buffer,
        request.start,
        seat,
    )?;
    let step = Step {
        count: filled.count,
        last: part.base + filled.reached as u64,
    };
    if filled.count == buffer.len() || filled.reached != end_byte(bound.up) {
        return Some(step);
    }
    let to = end_of(at.key, at.height, child.0, bound.up);
    if !ends_leaf(step.last, to, bound.up) {
        return Some(step);
    }
    if !has_no_other::<A>(here, at, child, lower, bound.up, seat) {
        return Some(step);
    }
    Some(Step {
        count: filled.count,
        last: nearer(to, bound),
    })
}
