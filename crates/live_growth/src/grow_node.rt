//! A full node grows: a larger one takes its place below the node above.
ghost use Rattle.std.specs.Prelude.{◌≡◌, ◌<◌, ◌≤◌, [], length, IsTrue};
ghost use Rattle.live_layout.specs.Words.{Looks};
ghost use Rattle.live_layout.specs.Encodes.{words_of};
ghost use Rattle.live_nodes.specs.Seats.{SeatView};
ghost use Rattle.live_nodes.specs.Views.{View};
ghost use Rattle.live_reads.specs.Paths.{Sights};
ghost use Rattle.live_reads.specs.Positions.{KnowsPosition};
ghost use Rattle.live_growth.specs.FreeNodes.{HasFreeNodes, Lacks};
ghost use Rattle.live_growth.specs.Holds.{HasWordOf};
ghost use Rattle.live_growth.specs.Rooms.{HasGrown};

use crate::free_nodes::FreeNodes;
use crate::held::reclaim;
use crate::replace::{Enlarges, Reclaimed, replace};
use crate::two::{lock_two, unlock_two};
use live_layout::form::{form_below, place_of, slot_below, words_in};
use live_layout::search::find;
use live_layout::words::{AsReadWords, WriteWords};
use live_nodes::map_law::Asks;
use live_reads::descend::Position;
use live_reads::path::{Nodes, Seat, words_at};
use node_base::base_node::NodeType;

/// Whether a byte has the node with this name as its child.
pub fn leads_to<S, D: WriteWords<S>>(
    draft: &D,
    form: NodeType,
    byte: u8,
    name: u64,
    seat: &mut S,
) -> bool
    requires may { D.may_write draft.now seat.old }
    requires long { length (D.words draft.now seat.old) ≡ words_of form }
    ensures seat { Looks D.may_write D.words draft.now seat.old seat.new }
    ensures some { IsTrue result → HasWordOf (D.words draft.now seat.old) form byte name }
{
    let long = words_in(form);
    let cells = AsReadWords { draft, long };
    match find(&cells, form, byte, seat) {
        Some(word) => slot_below(word) == name,
        None => false,
    }
}

/// Puts a larger node, which was obsolete, in the place of this one, below the node above, on the path of a key. The name of the
/// larger node is kept as a spare one until it is locked. `false` where the spare one isn't larger, or a writer is busy at one of
/// them.
pub fn grow_node<A: Asks>(
    nodes: &Nodes,
    position: Position,
    key: u64,
    spare: u64,
    free_nodes: &mut FreeNodes,
    seat: &mut Seat,
) -> bool
    requires book { seat.old.book ≡ nodes.now }
    requires asks { (A.ask.key ≡ key) × (A.ask.height ≡ position.height) }
    requires position { KnowsPosition seat.old.view key position }
    requires below { position.height < 8 }
    requires rests { (seat.old.view.client.own ≡ []) × (seat.old.view.holds ≡ []) }
    requires spare { Sights seat.old.view spare }
    ensures seat { (seat.new.book ≡ seat.old.book) × (seat.new.id ≡ seat.old.id) }
    ensures grown { HasGrown seat.old.view seat.new.view }
    ensures room { seat.new.view.room ≡ seat.old.view.room }
    ensures free_nodes { (v : SeatView View) → HasFreeNodes v free_nodes.old
        → HasFreeNodes v free_nodes.new }
    ensures gone { IsTrue result → 1 ≤ spare → Lacks free_nodes.new spare }
{
    let form = form_below(position.name);
    let wider = form_below(spare);
    if place_of(wider) <= place_of(form) || spare >= 1 << 56 {
        return false;
    }
    let Some(words_above) = words_at(nodes, position.above) else {
        return false;
    };
    let Some(words) = words_at(nodes, position.name) else {
        return false;
    };
    let Some(others) = words_at(nodes, spare) else {
        return false;
    };
    let Some(two) = lock_two(words, words_above, position, key, seat) else {
        return false;
    };
    free_nodes.forget(spare);
    let Some(back) = reclaim(others, spare, seat) else {
        unlock_two(words, words_above, two, seat);
        return false;
    };
    let larger = Reclaimed {
        name: spare,
        words: others,
        free: back,
    };
    replace::<A, Enlarges>(words, words_above, position, key, two, larger, seat);
    true
}
