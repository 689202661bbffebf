//! A key that is absent gets a value.
ghost use Rattle.std.specs.Prelude.{◌≡◌, ◌≤◌, Some, None};
ghost use Rattle.live_reads.specs.Paths.{Names};
ghost use Rattle.live_reads.specs.Positions.{KnowsPosition};
ghost use Rattle.live_growth.specs.Calls.{IsReady};
ghost use Rattle.live_nodes.specs.Seats.{SeatView};
ghost use Rattle.live_nodes.specs.Views.{View};
ghost use Rattle.live_updates.specs.inner.Lookups.{IsOpenLeaf};
ghost use Rattle.live_updates.specs.inner.Updates.{Update, IsUpdate};
ghost use Rattle.live_updates.specs.inner.Ends.{Tries, Enters};

use crate::leaf::{Missed, Updates, update_here};
use live_growth::insert::{enlarge, extend, part, reach};
use live_growth::link::Room;
use live_growth::map::{Refusal, TRIES};
use live_growth::refill::Refills;
use live_reads::descend::{End, Position, descend_from};
use live_reads::path::{Nodes, Seat};

/// How a try ends: the key has the value, it has another one already, it is to be tried again, or a node is lacking.
#[derive(Clone, Copy, Debug, PartialEq, Eq)]
pub enum Tried {
    Entered,
    Present,
    Again,
    Lacks,
}

/// How a try ends that came nearer, or lacks a node.
fn tried_with(lacks: bool) -> Tried
    ensures { (u : Update) (v w : SeatView View) → w.client.seen ≡ v.client.seen
        → Tries u result v w }
{
    if lacks { Tried::Lacks } else { Tried::Again }
}

/// Gives an absent key of an open leaf a value, or makes room there for it.
fn enter_at<U: Updates>(
    nodes: &Nodes,
    leaf: End<'_>,
    key: u64,
    value: u64,
    room: &mut Room,
    seat: &mut Seat,
) -> Tried
    requires book { seat.old.book ≡ nodes.now }
    requires asks { (U.update.key ≡ key) × (U.update.caller ≡ seat.old.id) }
    requires values { (U.update.old ≡ None) × (U.update.new ≡ Some value) }
    requires legal { IsUpdate U.update }
    requires ready { IsReady seat.old.view room.old }
    requires leaf { IsOpenLeaf seat.old.view seat.old.book key leaf }
    ensures book { seat.new.book ≡ seat.old.book }
    ensures id { seat.new.id ≡ seat.old.id }
    ensures ready { IsReady seat.new.view room.new }
    ensures tries { Tries U.update result seat.old.view seat.new.view }
{
    match update_here::<U>(leaf, key, None, Some(value), seat) {
        None => Tried::Entered,
        Some(Missed::Changed) => Tried::Present,
        Some(Missed::Full) => {
            let lacks = enlarge(nodes, leaf.position, key, room, seat);
            tried_with(lacks)
        }
        Some(Missed::Busy) => Tried::Again,
    }
}

/// Gives an absent key a value in its new leaf, which is below the node at which the key's path has ended.
fn enter_new<U: Updates>(
    nodes: &Nodes,
    above: Position,
    name: u64,
    key: u64,
    value: u64,
    room: &mut Room,
    seat: &mut Seat,
) -> Tried
    requires book { seat.old.book ≡ nodes.now }
    requires asks { (U.update.key ≡ key) × (U.update.caller ≡ seat.old.id) }
    requires values { (U.update.old ≡ None) × (U.update.new ≡ Some value) }
    requires legal { IsUpdate U.update }
    requires ready { IsReady seat.old.view room.old }
    requires above { KnowsPosition seat.old.view key above }
    requires inner { 2 ≤ above.height }
    requires named { Names seat.old.view name key 1 }
    ensures book { seat.new.book ≡ seat.old.book }
    ensures id { seat.new.id ≡ seat.old.id }
    ensures ready { IsReady seat.new.view room.new }
    ensures tries { Tries U.update result seat.old.view seat.new.view }
{
    let Some(leaf) = reach(nodes, above, name, key, seat) else {
        return Tried::Again;
    };
    enter_at::<U>(nodes, leaf, key, value, room, seat)
}

/// Makes a leaf for an absent key below the node at which the key's path has ended, and gives the key a value there.
#[inline(never)]
fn enter_below<U: Updates>(
    nodes: &Nodes,
    above: Position,
    key: u64,
    value: u64,
    room: &mut Room,
    seat: &mut Seat,
) -> Tried
    requires book { seat.old.book ≡ nodes.now }
    requires asks { (U.update.key ≡ key) × (U.update.caller ≡ seat.old.id) }
    requires values { (U.update.old ≡ None) × (U.update.new ≡ Some value) }
    requires legal { IsUpdate U.update }
    requires ready { IsReady seat.old.view room.old }
    requires above { KnowsPosition seat.old.view key above }
    requires inner { 2 ≤ above.height }
    ensures book { seat.new.book ≡ seat.old.book }
    ensures id { seat.new.id ≡ seat.old.id }
    ensures ready { IsReady seat.new.view room.new }
    ensures tries { Tries U.update result seat.old.view seat.new.view }
{
    match extend(nodes, above, key, room, seat) {
        Ok(name) => enter_new::<U>(nodes, above, name, key, value, room, seat),
        Err(refusal) => tried_with(refusal == Refusal::OutOfMemory),
    }
}

/// Gives an absent key a value, or comes nearer to it by a node. A node where two paths part is made together with the key's leaf.
fn enter_once<U: Updates>(
    nodes: &Nodes,
    key: u64,
    value: u64,
    room: &mut Room,
    seat: &mut Seat,
) -> Tried
    requires book { seat.old.book ≡ nodes.now }
    requires asks { (U.update.key ≡ key) × (U.update.caller ≡ seat.old.id) }
    requires values { (U.update.old ≡ None) × (U.update.new ≡ Some value) }
    requires legal { IsUpdate U.update }
    requires ready { IsReady seat.old.view room.old }
    ensures book { seat.new.book ≡ seat.old.book }
    ensures id { seat.new.id ≡ seat.old.id }
    ensures ready { IsReady seat.new.view room.new }
    ensures tries { Tries U.update result seat.old.view seat.new.view }
{
    let Some(end) = descend_from(nodes, room.last, key, seat) else {
        return Tried::Again;
    };
    let End {
        position,
        mismatch,
        ..
    } = end;
    if let Some(mismatch) = mismatch {
        return match part(nodes, position, mismatch, key, room, seat) {
            Ok(below) => enter_below::<U>(nodes, below, key, value, room, seat),
            Err(refusal) => tried_with(refusal == Refusal::OutOfMemory),
        };
    }
    if position.height > 1 {
        return enter_below::<U>(nodes, position, key, value, room, seat);
    }
    enter_at::<U>(nodes, end, key, value, room, seat)
}

/// Gives an absent key a value, as by `enter_once`. Where a node is lacking, more are asked for instead. `Lacks` where there are
/// none, nor a larger one.
fn try_enter<U: Updates, R: Refills>(
    nodes: &Nodes,
    from: &R,
    key: u64,
    value: u64,
    room: &mut Room,
    seat: &mut Seat,
) -> Tried
    requires serves { R.serves from.now nodes.now }
    requires book { seat.old.book ≡ nodes.now }
    requires asks { (U.update.key ≡ key) × (U.update.caller ≡ seat.old.id) }
    requires values { (U.update.old ≡ None) × (U.update.new ≡ Some value) }
    requires legal { IsUpdate U.update }
    requires ready { IsReady seat.old.view room.old }
    ensures book { seat.new.book ≡ seat.old.book }
    ensures id { seat.new.id ≡ seat.old.id }
    ensures ready { IsReady seat.new.view room.new }
    ensures tries { Tries U.update result seat.old.view seat.new.view }
{
    let tried = enter_once::<U>(nodes, key, value, room, seat);
    if tried == Tried::Lacks && from.refill(nodes, room, seat) {
        return Tried::Again;
    }
    tried
}

/// Gives an absent key a value. `false` where it has one already.
pub fn enter<U: Updates, R: Refills>(
    nodes: &Nodes,
    from: &R,
    key: u64,
    value: u64,
    room: &mut Room,
    seat: &mut Seat,
) -> Result<bool, Refusal>
    requires serves { R.serves from.now nodes.now }
    requires book { seat.old.book ≡ nodes.now }
    requires asks { (U.update.key ≡ key) × (U.update.caller ≡ seat.old.id) }
    requires values { (U.update.old ≡ None) × (U.update.new ≡ Some value) }
    requires legal { IsUpdate U.update }
    requires ready { IsReady seat.old.view room.old }
    ensures book { seat.new.book ≡ seat.old.book }
    ensures id { seat.new.id ≡ seat.old.id }
    ensures ready { IsReady seat.new.view room.new }
    ensures enters { Enters U.update result seat.old.view seat.new.view }
{
    for _ in 0..TRIES {
        match try_enter::<U, R>(nodes, from, key, value, room, seat) {
            Tried::Entered => return Ok(true),
            Tried::Present => return Ok(false),
            Tried::Lacks => return Err(Refusal::OutOfMemory),
            Tried::Again => {}
        }
    }
    Err(Refusal::Busy)
}
