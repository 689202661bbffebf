//! A node of few children is replaced by one of the next smaller form.
ghost use Rattle.std.specs.Prelude.{◌≡◌, ◌↔◌, ◌<◌, ◌≤◌, [], length};
ghost use Rattle.node_base.specs.Form.{limit, few_in};
ghost use Rattle.live_layout.specs.Words.{Looks};
ghost use Rattle.live_layout.specs.Encodes.{words_of, counted};
ghost use Rattle.live_nodes.specs.Seats.{SeatView};
ghost use Rattle.live_nodes.specs.Views.{View};
ghost use Rattle.live_reads.specs.Paths.{Sights};
ghost use Rattle.live_growth.specs.Calls.{IsReady};
ghost use Rattle.live_growth.specs.Rooms.{HasGrown};
ghost use Rattle.live_growth.specs.FreeNodes.{HasFreeNodes};
ghost use Rattle.live_reads.specs.Positions.{KnowsPosition};
ghost use Rattle.live_updates.specs.declared.shrink_node.Fill.TheVariants.{Empty, Few, Enough};

use live_growth::free_nodes::FreeNodes;
use live_growth::held::reclaim;
use live_growth::link::Room;
use live_growth::replace::{Reclaimed, Resizes, replace};
use live_growth::two::{lock_two, unlock_two};
use live_layout::fill::shrink;
use live_layout::form::{form_below, place_of, room_of, smaller_of};
use live_layout::list;
use live_layout::words::WriteWords;
use live_nodes::map_law::{Asks, MapLaw, MapView};
use live_nodes::rows::LockedWords;
use live_reads::descend::{End, Position, descend};
use live_reads::path::{Nodes, Seat, words_at};
use node_base::base_node::NodeType;
use std::marker::Brand;

/// How many children a node has: none, few for its form, or enough.
#[derive(Clone, Copy, Debug, PartialEq, Eq)]
pub enum Fill {
    Empty,
    Few,
    Enough,
}

/// With so many children at most, a node of this form has few. The next larger form has more then, so that an insertion doesn't
/// make it grow at once.
fn few_of(form: NodeType) -> u64
    ensures { result ≡ few_in form }
{
    match form {
        NodeType::N4 => 0,
        NodeType::N16 => 3,
        NodeType::N48 => 12,
        NodeType::N256 => 36,
    }
}

/// How many children a node has.
fn count_in<S, D: WriteWords<S>>(draft: &D, form: NodeType, seat: &mut S) -> u64
    requires may { D.may_write draft.now seat.old }
    requires long { length (D.words draft.now seat.old) ≡ words_of form }
    ensures seat { Looks D.may_write D.words draft.now seat.old seat.new }
    ensures is { result ≡ counted (limit form) (D.words draft.now seat.old) }
{
    match room_of(form) {
        Some(_) => list::count_of(draft, seat) as u64,
        None => draft.get(1, seat),
    }
}

/// Whether a node has no children, few or enough.
pub fn fill_of<S, D: WriteWords<S>>(draft: &D, form: NodeType, seat: &mut S) -> Fill
    requires may { D.may_write draft.now seat.old }
    requires long { length (D.words draft.now seat.old) ≡ words_of form }
    ensures seat { Looks D.may_write D.words draft.now seat.old seat.new }
    ensures empty { (result ≡ Empty) ↔ (counted (limit form) (D.words draft.now seat.old) ≡ 0) }
    ensures few { result ≡ Few → counted (limit form) (D.words draft.now seat.old) ≤ few_in form }
    ensures enough { result ≡ Enough
        → few_in form < counted (limit form) (D.words draft.now seat.old) }
{
    let count = count_in(draft, form, seat);
    if count == 0 {
        return Fill::Empty;
    }
    if count <= few_of(form) {
        Fill::Few
    } else {
        Fill::Enough
    }
}

/// Into the next smaller form.
struct Shrinks;

impl Resizes for Shrinks {
    ghost use Rattle.std.specs.Prelude.{◌≡◌, ◌≢◌, ◌≤◌};
    ghost use Rattle.node_base.specs.Form.{limit, smaller_form};
    ghost use Rattle.node_base.specs.declared.base_node.NodeType.TheVariants.{N4};
    ghost use Rattle.live_layout.specs.Encodes.{counted, most};

    ghost asks = { λ form other c. (form ≢ N4) × (other ≡ smaller_form form)
        × (counted (limit form) c ≤ most (limit (smaller_form form))) };

    fn resize<S, D: WriteWords<S>, E: WriteWords<S>>(
        from: &D,
        form: NodeType,
        to: &E,
        other: NodeType,
        seat: &mut S,
    ) {
        let _ = other;
        shrink(from, form, to, seat)
    }
}

/// Puts a node of the next smaller form in the place of one with few children, below the node above, on the path of a key. It is
/// one that is used again, whose name is kept as a spare one. It is kept no longer once it is locked. `false` where there are more
/// children, or a writer is busy at one of the nodes.
fn shrink_node<A: Asks>(
    nodes: &Nodes,
    position: Position,
    key: u64,
    spare: u64,
    free_nodes: &mut FreeNodes,
    seat: &mut Seat,
) -> bool
    requires book { seat.old.book ≡ nodes.now }
    requires asks { (A.ask.key ≡ key) × (A.ask.height ≡ position.height) }
    requires position { KnowsPosition seat.old.view key position }
    requires below { position.height < 8 }
    requires rests { (seat.old.view.client.own ≡ []) × (seat.old.view.holds ≡ []) }
    requires spare { Sights seat.old.view spare }
    ensures book { seat.new.book ≡ seat.old.book }
    ensures id { seat.new.id ≡ seat.old.id }
    ensures grown { HasGrown seat.old.view seat.new.view }
    ensures room { seat.new.view.room ≡ seat.old.view.room }
    ensures free_nodes { (v : SeatView View) → HasFreeNodes v free_nodes.old
        → HasFreeNodes v free_nodes.new }
{
    let form = form_below(position.name);
    if form == NodeType::N4 || spare >= 1 << 56 {
        return false;
    }
    let kind = form_below(spare);
    if place_of(kind) != place_of(smaller_of(form)) {
        return false;
    }
    let Some(words_above) = words_at(nodes, position.above) else {
        return false;
    };
    let Some(words) = words_at(nodes, position.name) else {
        return false;
    };
    let Some(others) = words_at(nodes, spare) else {
        return false;
    };
    let Some(two) = lock_two(words, words_above, position, key, seat) else {
        return false;
    };
    let held: LockedWords<'_, MapView, MapLaw, 0> = LockedWords { words };
    let Fill::Few = fill_of(&held, form, seat) else {
        unlock_two(words, words_above, two, seat);
        return false;
    };
    free_nodes.forget(spare);
    let Some(back) = reclaim(others, spare, seat) else {
        unlock_two(words, words_above, two, seat);
        return false;
    };
    let smaller = Reclaimed {
        name: spare,
        words: others,
        free: back,
    };
    replace::<A, Shrinks>(words, words_above, position, key, two, smaller, seat);
    true
}

/// Shrinks the node at which a key's path ends, if it is this one and isn't the root.
fn shrink_end(nodes: &Nodes, name: u64, spare: u64, key: u64, room: &mut Room, seat: &mut Seat)
    requires book { seat.old.book ≡ nodes.now }
    requires ready { IsReady seat.old.view room.old }
    requires spare { Sights seat.old.view spare }
    ensures book { seat.new.book ≡ seat.old.book }
    ensures id { seat.new.id ≡ seat.old.id }
    ensures ready { IsReady seat.new.view room.new }
    ensures seen { seat.new.view.client.seen ≡ seat.old.view.client.seen }
{
    let Some(
        End {
            position,
            mismatch,
            ..
        },
    ) = descend(nodes, key, seat)
    else {
        return;
    };
    if position.name != name || mismatch.is_some() || position.height >= 8 {
        return;
    }
    room.is_changed = true;
    room.used.add(form_below(spare));
    if shrink_node::<Brand>(nodes, position, key, spare, &mut room.spare, seat) {
        let _ = room.spare.keep(position.name);
    }
}

/// Puts a node of the next smaller form in the place of this one, at which a key's path ends, if it is left with few children. It
/// takes no memory: where no such node is to be used again, or there is no place for the name of the other one, it stays. So it
/// does where a writer comes in between.
pub fn shrink_on_path(
    nodes: &Nodes,
    name: u64,
    fill: Fill,
    key: u64,
    room: &mut Room,
    seat: &mut Seat,
)
    requires book { seat.old.book ≡ nodes.now }
    requires ready { IsReady seat.old.view room.old }
    ensures book { seat.new.book ≡ seat.old.book }
    ensures id { seat.new.id ≡ seat.old.id }
    ensures ready { IsReady seat.new.view room.new }
    ensures seen { seat.new.view.client.seen ≡ seat.old.view.client.seen }
{
    if fill != Fill::Few {
        return;
    }
    let form = form_below(name);
    let spare = room.spare.get(smaller_of(form));
    if spare == 0 || (room.spare.get(form) != 0 && room.spare.more != 0) {
        return;
    }
    shrink_end(nodes, name, spare, key, room, seat);
}
