//! An insertion.
ghost use Rattle.std.specs.Prelude.{◌≡◌, ◌<◌, ◌≤◌, Some, IfSome, IfOk};
ghost use Rattle.live_nodes.specs.Views.{ask};
ghost use Rattle.live_reads.specs.Paths.{Names, IsOpen, Keeps};
ghost use Rattle.live_reads.specs.Positions.{KnowsPosition, HasMismatch};
ghost use Rattle.live_growth.specs.Rooms.{HasGrown};
ghost use Rattle.live_growth.specs.Calls.{IsReady, Inserts};

use crate::grow_node::grow_node;
use crate::link::{NEW, Room, link};
use crate::map::Refusal;
use crate::refill::Refills;
use crate::room::spare_or_made;
use crate::split::split;
use crate::write::{Hindrance, insert_here};
use live_layout::form::{form_below, next_of};
use live_reads::descend::{End, Position, descend_from};
use live_reads::last_leaf::LastLeaf;
use live_reads::path::{Nodes, Seat};
use live_reads::prefix_match::{Mismatch, enter};
use std::alloc::{AllocError, Global};
use std::marker::Brand;

/// More room, where there is too little for a node of some form, unless there is a node of each form to be used again. What was left
/// of the room is lost, so call that where a node is lacking. `false` where another thread is just making some room.
pub fn reserve(
    nodes: &Nodes,
    alloc: Global,
    room: &mut Room,
    seat: &mut Seat,
) -> Result<bool, AllocError>
    requires book { seat.old.book ≡ nodes.now }
    requires ready { IsReady seat.old.view room.old }
    ensures book { seat.new.book ≡ seat.old.book }
    ensures id { seat.new.id ≡ seat.old.id }
    ensures ready { IsReady seat.new.view room.new }
    ensures seen { seat.new.view.client.seen ≡ seat.old.view.client.seen }
{
    if room.left >= 263 || room.spare.is_full() {
        return Ok(true);
    }
    let Some(grown) = nodes.grow(alloc, seat)? else {
        return Ok(false);
    };
    room.start = grown.start;
    room.left = grown.count as u64;
    Ok(true)
}

/// Puts a larger node in the place of this one, below the node above. A node that may be used again is taken, where there is one,
/// or one of the next form is made. `false` where a writer came in between, or there is neither.
fn replace(nodes: &Nodes, position: Position, key: u64, room: &mut Room, seat: &mut Seat) -> bool
    requires book { seat.old.book ≡ nodes.now }
    requires ready { IsReady seat.old.view room.old }
    requires position { KnowsPosition seat.old.view key position }
    requires lower { position.height < 8 }
    ensures book { seat.new.book ≡ seat.old.book }
    ensures id { seat.new.id ≡ seat.old.id }
    ensures ready { IsReady seat.new.view room.new }
    ensures grown { HasGrown seat.old.view seat.new.view }
{
    let form = form_below(position.name);
    let spare = spare_or_made(nodes, room.spare_above(form), next_of(form), room, seat);
    if spare == 0 {
        return false;
    }
    grow_node::<Brand>(nodes, position, key, spare, &mut room.spare, seat)
}

/// Puts a larger node in the place of a full one, which may be used again. The root has the largest form, and stays. Whether
/// a node is lacking for that. The next path begins at the root, since the node above may be another one by now.
pub fn enlarge(
    nodes: &Nodes,
    position: Position,
    key: u64,
    room: &mut Room,
    seat: &mut Seat,
) -> bool
    requires book { seat.old.book ≡ nodes.now }
    requires ready { IsReady seat.old.view room.old }
    requires position { KnowsPosition seat.old.view key position }
    ensures book { seat.new.book ≡ seat.old.book }
    ensures id { seat.new.id ≡ seat.old.id }
    ensures ready { IsReady seat.new.view room.new }
    ensures seen { seat.new.view.client.seen ≡ seat.old.view.client.seen }
{
    if position.height >= 8 {
        return false;
    }
    let form = form_below(position.name);
    if room.lacks(room.spare_above(form), next_of(form)) {
        return true;
    }
    room.last = LastLeaf::none();
    if replace(nodes, position, key, room, seat) {
        let _ = room.spare.keep(position.name);
    }
    false
}

/// Makes an empty leaf for a key below a node. A node that may be used again is taken, where there is one, or one is made. The
/// leaf's name.
fn lead_on(
    nodes: &Nodes,
    position: Position,
    key: u64,
    room: &mut Room,
    seat: &mut Seat,
) -> Result<u64, Hindrance>
    requires book { seat.old.book ≡ nodes.now }
    requires ready { IsReady seat.old.view room.old }
    requires position { KnowsPosition seat.old.view key position }
    requires inner { 2 ≤ position.height }
    ensures book { seat.new.book ≡ seat.old.book }
    ensures id { seat.new.id ≡ seat.old.id }
    ensures ready { IsReady seat.new.view room.new }
    ensures grown { HasGrown seat.old.view seat.new.view }
    ensures leaf { IfOk result (λ leaf. Names seat.new.view leaf key 1) }
{
    let spare = spare_or_made(nodes, room.spare_for_new(), NEW, room, seat);
    if spare == 0 {
        return Err(Hindrance::Busy);
    }
    link::<Brand>(
        nodes,
        position.name,
        position.height,
        key,
        spare,
        &mut room.spare,
        seat,
    )?;
    Ok(spare)
}

/// Makes a new leaf for a key: its name. `Busy` where there is only room for one then, or a writer came in between. `OutOfMemory`
/// where a node is lacking.
pub fn extend(
    nodes: &Nodes,
    position: Position,
    key: u64,
    room: &mut Room,
    seat: &mut Seat,
) -> Result<u64, Refusal>
    requires book { seat.old.book ≡ nodes.now }
    requires ready { IsReady seat.old.view room.old }
    requires position { KnowsPosition seat.old.view key position }
    requires inner { 2 ≤ position.height }
    ensures book { seat.new.book ≡ seat.old.book }
    ensures id { seat.new.id ≡ seat.old.id }
    ensures ready { IsReady seat.new.view room.new }
    ensures seen { seat.new.view.client.seen ≡ seat.old.view.client.seen }
    ensures leaf { IfOk result (λ leaf. Names seat.new.view leaf key 1
        × KnowsPosition seat.new.view key position) }
{
    if room.lacks(room.spare_for_new(), NEW) {
        return Err(Refusal::OutOfMemory);
    }
    match lead_on(nodes, position, key, room, seat) {
        Ok(leaf) => Ok(leaf),
        Err(Hindrance::Full) => Err(refusal_of(enlarge(nodes, position, key, room, seat))),
        Err(Hindrance::Busy) => Err(Refusal::Busy),
    }
}

/// Opens a new leaf of a key below a node, at which the key's path has ended. `None` where a writer came in between.
pub fn reach<'a>(
    nodes: &'a Nodes,
    above: Position,
    name: u64,
    key: u64,
    seat: &mut Seat,
) -> Option<End<'a>>
    requires book { seat.old.book ≡ nodes.now }
    requires above { KnowsPosition seat.old.view key above }
    requires inner { 2 ≤ above.height }
    requires named { Names seat.old.view name key 1 }
    ensures book { seat.new.book ≡ seat.old.book }
    ensures id { seat.new.id ≡ seat.old.id }
    ensures keeps { Keeps seat.old.view seat.new.view }
    ensures seen { seat.new.view.client.seen ≡ seat.old.view.client.seen }
    ensures leaf { IfSome result (λ end. let here = end.here
        in KnowsPosition seat.new.view key end.position × (end.position.height ≡ 1)
        × IsOpen seat.new.view seat.new.book here.words.now here.taken end.position.name key 1) }
{
    let here = enter(nodes, name, 1, key, seat)?;
    let position = Position {
        above: above.name,
        level: above.height,
        name,
        height: 1,
    };
    Some(End {
        position,
        here,
        mismatch: None,
    })
}

/// Why a call isn't made as yet.
fn refusal_of(lacks: bool) -> Refusal {
    if lacks {
        Refusal::OutOfMemory
    } else {
        Refusal::Busy
    }
}

/// Gives a key of an open leaf a value, or makes room there for it: `Busy`. So it is too where a writer came in between.
/// `OutOfMemory` where a node is lacking.
#[inline(always)]
fn insert_at(
    nodes: &Nodes,
    end: End<'_>,
    key: u64,
    value: u64,
    room: &mut Room,
    seat: &mut Seat,
) -> Result<Option<u64>, Refusal>
    requires book { seat.old.book ≡ nodes.now }
    requires ready { IsReady seat.old.view room.old }
    requires position { KnowsPosition seat.old.view key end.position }
    requires leaf { let here = end.here
        in IsOpen seat.old.view seat.old.book here.words.now here.taken end.position.name key 1 }
    requires low { end.position.height ≡ 1 }
    ensures book { seat.new.book ≡ seat.old.book }
    ensures id { seat.new.id ≡ seat.old.id }
    ensures ready { IsReady seat.new.view room.new }
    ensures inserts { Inserts (ask seat.old.id key value 1) result seat.old.view seat.new.view }
{
    let End { position, here, .. } = end;
    room.last = LastLeaf { key, position };
    match insert_here::<Brand>(here, position.name, key, value, seat) {
        Ok(old) => Ok(old),
        Err(Hindrance::Full) => Err(refusal_of(enlarge(nodes, position, key, room, seat))),
        Err(Hindrance::Busy) => Err(Refusal::Busy),
    }
}

/// Makes a node where the key's path leaves that of a node below. A node that may be used again is taken, where there is one, or one
/// is made. Where the new node is. `Busy` where a writer came in between. `OutOfMemory` where a node is lacking for that: the key may
/// be present by then, and need none.
pub fn part(
    nodes: &Nodes,
    position: Position,
    mismatch: Mismatch,
    key: u64,
    room: &mut Room,
    seat: &mut Seat,
) -> Result<Position, Refusal>
    requires book { seat.old.book ≡ nodes.now }
    requires ready { IsReady seat.old.view room.old }
    requires position { KnowsPosition seat.old.view key position }
    requires mismatches { HasMismatch seat.old.view key position.height (Some mismatch) }
    ensures book { seat.new.book ≡ seat.old.book }
    ensures id { seat.new.id ≡ seat.old.id }
    ensures ready { IsReady seat.new.view room.new }
    ensures seen { seat.new.view.client.seen ≡ seat.old.view.client.seen }
    ensures parted { IfOk result (λ below. KnowsPosition seat.new.view key below
        × (2 ≤ below.height)) }
{
    if room.lacks(room.spare_for_new(), NEW) {
        return Err(Refusal::OutOfMemory);
    }
    let spare = spare_or_made(nodes, room.spare_for_new(), NEW, room, seat);
    if spare == 0 {
        return Err(Refusal::Busy);
    }
    let parted = split::<Brand>(nodes, position, mismatch, key, spare, &mut room.spare, seat);
    if !parted {
        return Err(Refusal::Busy);
    }
    Ok(Position {
        above: position.name,
        level: position.height,
        name: spare,
        height: mismatch.at,
    })
}

/// Gives a key a value in its new leaf, which is below the node at which the key's path has ended. `Busy` and `OutOfMemory` as by
/// `insert_at`.
fn insert_new(
    nodes: &Nodes,
    above: Position,
    name: u64,
    key: u64,
    value: u64,
    room: &mut Room,
    seat: &mut Seat,
) -> Result<Option<u64>, Refusal>
    requires book { seat.old.book ≡ nodes.now }
    requires ready { IsReady seat.old.view room.old }
    requires above { KnowsPosition seat.old.view key above }
    requires inner { 2 ≤ above.height }
    requires named { Names seat.old.view name key 1 }
    ensures book { seat.new.book ≡ seat.old.book }
    ensures id { seat.new.id ≡ seat.old.id }
    ensures ready { IsReady seat.new.view room.new }
    ensures inserts { Inserts (ask seat.old.id key value 1) result seat.old.view seat.new.view }
{
    let Some(leaf) = reach(nodes, above, name, key, seat) else {
        return Err(Refusal::Busy);
    };
    insert_at(nodes, leaf, key, value, room, seat)
}

/// Makes a leaf for a key below the node at which the key's path has ended, and gives the key a value there. `Busy` and `OutOfMemory`
/// as by `insert_at`.
#[inline(never)]
fn insert_below(
    nodes: &Nodes,
    above: Position,
    key: u64,
    value: u64,
    room: &mut Room,
    seat: &mut Seat,
) -> Result<Option<u64>, Refusal>
    requires book { seat.old.book ≡ nodes.now }
    requires ready { IsReady seat.old.view room.old }
    requires above { KnowsPosition seat.old.view key above }
    requires inner { 2 ≤ above.height }
    ensures book { seat.new.book ≡ seat.old.book }
    ensures id { seat.new.id ≡ seat.old.id }
    ensures ready { IsReady seat.new.view room.new }
    ensures inserts { Inserts (ask seat.old.id key value 1) result seat.old.view seat.new.view }
{
    let name = extend(nodes, above, key, room, seat)?;
    insert_new(nodes, above, name, key, value, room, seat)
}

/// Inserts a value, or comes nearer to it by a node: `Busy`. So it is too where a writer came in between. `OutOfMemory` where
/// a node is lacking. A node where two paths part is made together with the key's leaf.
fn insert_once(
    nodes: &Nodes,
    key: u64,
    value: u64,
    room: &mut Room,
    seat: &mut Seat,
) -> Result<Option<u64>, Refusal>
    requires book { seat.old.book ≡ nodes.now }
    requires ready { IsReady seat.old.view room.old }
    ensures book { seat.new.book ≡ seat.old.book }
    ensures id { seat.new.id ≡ seat.old.id }
    ensures ready { IsReady seat.new.view room.new }
    ensures inserts { Inserts (ask seat.old.id key value 1) result seat.old.view seat.new.view }
{
    let Some(end) = descend_from(nodes, room.last, key, seat) else {
        return Err(Refusal::Busy);
    };
    let End {
        position,
        mismatch,
        ..
    } = end;
    if let Some(mismatch) = mismatch {
        let below = part(nodes, position, mismatch, key, room, seat)?;
        return insert_below(nodes, below, key, value, room, seat);
    }
    if position.height > 1 {
        return insert_below(nodes, position, key, value, room, seat);
    }
    insert_at(nodes, end, key, value, room, seat)
}

/// More room where a node is lacking. Without memory for that, larger nodes serve from then on. `false` where they do already.
pub fn make_room(nodes: &Nodes, alloc: Global, room: &mut Room, seat: &mut Seat) -> bool
    requires book { seat.old.book ≡ nodes.now }
    requires ready { IsReady seat.old.view room.old }
    ensures book { seat.new.book ≡ seat.old.book }
    ensures id { seat.new.id ≡ seat.old.id }
    ensures ready { IsReady seat.new.view room.new }
    ensures seen { seat.new.view.client.seen ≡ seat.old.view.client.seen }
{
    let is_last = reserve(nodes, alloc, room, seat).is_err();
    let was_last = room.is_last;
    room.is_last = is_last;
    !(is_last & was_last)
}

/// Inserts a value, as by `insert_once`. Where a node is lacking, more are asked for instead: `Busy`. `OutOfMemory` where there are
/// none, nor a larger one.
pub(crate) fn try_insert<R: Refills>(
    nodes: &Nodes,
    from: &R,
    key: u64,
    value: u64,
    room: &mut Room,
    seat: &mut Seat,
) -> Result<Option<u64>, Refusal>
    requires serves { R.serves from.now nodes.now }
    requires book { seat.old.book ≡ nodes.now }
    requires ready { IsReady seat.old.view room.old }
    ensures book { seat.new.book ≡ seat.old.book }
    ensures id { seat.new.id ≡ seat.old.id }
    ensures ready { IsReady seat.new.view room.new }
    ensures inserts { Inserts (ask seat.old.id key value 1) result seat.old.view seat.new.view }
{
    let tried = insert_once(nodes, key, value, room, seat);
    if tried == Err(Refusal::OutOfMemory) && from.refill(nodes, room, seat) {
        return Err(Refusal::Busy);
    }
    tried
}
