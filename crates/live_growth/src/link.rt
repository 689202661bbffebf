//! A new node comes below another.
ghost use Rattle.std.specs.Prelude.{◌≡◌, ℕ, ◌≤◌, [], length, None, IfNone, IfOk};
ghost use Rattle.spec_node.specs.TableNode.{TableNode};
ghost use Rattle.spec_map.specs.Map.{lookup};
ghost use Rattle.live_layout.specs.Words.{Looks};
ghost use Rattle.live_layout.specs.Encodes.{words_of, Encodes, HasRoom as HasSpace};
ghost use Rattle.live_nodes.specs.Seats.{SeatView};
ghost use Rattle.live_nodes.specs.Views.{View};
ghost use Rattle.live_reads.specs.Paths.{Names, Sights};
ghost use Rattle.live_growth.specs.FreeNodes.{HasFreeNodes};
ghost use Rattle.live_growth.specs.Rooms.{HasGrown};

use crate::free_nodes::{Forms, FreeNodes};
use crate::held::{lock_node, reclaim, unlock_again, unlock_same};
use crate::write::Hindrance;
use live_layout::change::{is_full, put};
use live_layout::fill::lay;
use live_layout::form::{form_below, next_of, word_below, words_in};
use live_layout::search::find;
use live_layout::words::{AsReadWords, WriteWords};
use live_nodes::map_law::{Asks, MapLaw, MapView, Same};
use live_nodes::node;
use live_nodes::rows::LockedWords;
use live_reads::last_leaf::LastLeaf;
use live_reads::path::{Nodes, Seat, byte_at, bytes_of, words_at};
use node_base::base_node::NodeType;
use std::marker::Brand;

/// The form of a new node: the smallest.
pub const NEW: NodeType = NodeType::N4;

/// A seat's room: the first of its words, how many there are at least, and nodes that it may use again. With it a key is kept
/// whose path may lead to a node without children, since a writer came in between. `is_last` where there was no memory for more room
/// when one was asked for: a larger node serves then for one that is lacking. `is_changed` where a node was made, used again or taken
/// out since the room was last put in order, and `used` has the forms of which nodes were made or used again. `last` is the leaf that
/// the seat has come to last.
#[derive(Clone, Copy, Debug, PartialEq, Eq)]
pub struct Room {
    pub start: u64,
    pub left: u64,
    pub spare: FreeNodes,
    pub cleanup_due: Option<u64>,
    pub is_last: bool,
    pub is_changed: bool,
    pub used: Forms,
    pub last: LastLeaf,
}

impl Room {
    /// The name of the node that is the next new one: of the smallest form, or of a larger one where there is neither such a
    /// one nor room, nor memory for more. 0 for none.
    pub fn spare_for_new(&self) -> u64
        ensures { (v : SeatView View) → HasFreeNodes v self.now.spare → 1 ≤ result
            → Sights v result }
    {
        let spare = self.spare.smallest();
        if !self.is_last || !self.lacks(spare, NEW) {
            return spare;
        }
        let larger = self.spare.larger(NEW);
        if larger != 0 {
            return larger;
        }
        self.spare.more
    }

    /// The name of the node that takes the place of a full one of this form: of the next form, or of a larger one where there is
    /// neither such a one nor room, nor memory for more. 0 for none.
    pub fn spare_above(&self, form: NodeType) -> u64
        ensures { (v : SeatView View) → HasFreeNodes v self.now.spare → 1 ≤ result
            → Sights v result }
    {
        let spare = self.spare.get(next_of(form));
        if self.is_last && self.lacks(spare, next_of(form)) {
            return self.spare.larger(form);
        }
        spare
    }

    /// Whether there is neither this node to be used again nor room for a new one of this form.
    pub fn lacks(&self, spare: u64, form: NodeType) -> bool {
        spare == 0 && self.left <= words_in(form) as u64
    }
}

/// Why no child can be put under a byte: there is one, so a writer came in between, or no room. `None` where it can.
fn obstacle<S, D: WriteWords<S>>(
    draft: &D,
    form: NodeType,
    byte: u8,
    seat: &mut S,
) -> Option<Hindrance>
    requires may { D.may_write draft.now seat.old }
    requires long { length (D.words draft.now seat.old) ≡ words_of form }
    ensures seat { Looks D.may_write D.words draft.now seat.old seat.new }
    ensures none { IfNone result (HasSpace form (D.words draft.now seat.old)
        × ((n : TableNode ℕ) → Encodes (D.words draft.now seat.old) n → n.form ≡ form
        → lookup n.children byte ≡ None)) }
{
    let long = words_in(form);
    let cells = AsReadWords { draft, long };
    if find(&cells, form, byte, seat).is_some() {
        return Some(Hindrance::Busy);
    }
    if is_full(draft, form, seat) {
        return Some(Hindrance::Full);
    }
    None
}

/// Makes an empty leaf for a key below this node, where there is none, of an obsolete node. The name of that one is kept as a spare
/// one until it is locked. It is the leaf's then.
pub fn link<A: Asks>(
    nodes: &Nodes,
    name: u64,
    height: usize,
    key: u64,
    spare: u64,
    free_nodes: &mut FreeNodes,
    seat: &mut Seat,
) -> Result<(), Hindrance>
    requires book { seat.old.book ≡ nodes.now }
    requires asks { (A.ask.key ≡ key) × (A.ask.height ≡ 1) }
    requires named { Names seat.old.view name key height }
    requires height { (2 ≤ height) × (height ≤ 8) }
    requires rests { (seat.old.view.client.own ≡ []) × (seat.old.view.holds ≡ []) }
    requires spare { Sights seat.old.view spare }
    ensures book { seat.new.book ≡ seat.old.book }
    ensures id { seat.new.id ≡ seat.old.id }
    ensures grown { HasGrown seat.old.view seat.new.view }
    ensures room { seat.new.view.room ≡ seat.old.view.room }
    ensures free_nodes { (v : SeatView View) → HasFreeNodes v free_nodes.old
        → HasFreeNodes v free_nodes.new }
    ensures linked { IfOk result (λ _. Names seat.new.view spare key 1) }
{
    if spare >= 1 << 56 {
        return Err(Hindrance::Busy);
    }
    let Some(words) = words_at(nodes, name) else {
        return Err(Hindrance::Busy);
    };
    let Some(others) = words_at(nodes, spare) else {
        return Err(Hindrance::Busy);
    };
    let form = form_below(name);
    let kind = form_below(spare);
    let byte = byte_at(key, height);
    let bytes = bytes_of(key);
    let Some(free) = lock_node(words, name, height, key, seat) else {
        return Err(Hindrance::Busy);
    };
    let parent: LockedWords<'_, MapView, MapLaw, 0> = LockedWords { words };
    if let Some(hindrance) = obstacle(&parent, form, byte, seat) {
        unlock_same(words, free, seat);
        return Err(hindrance);
    }
    free_nodes.forget(spare);
    let Some(again) = reclaim(others, spare, seat) else {
        unlock_same(words, free, seat);
        return Err(Hindrance::Busy);
    };
    let child: LockedWords<'_, MapView, MapLaw, 0> = LockedWords { words: others };
    lay(&child, kind, &bytes[..7], seat);
    let held: LockedWords<'_, MapView, MapLaw, 1> = LockedWords { words };
    put(&held, form, byte, word_below(spare, kind), seat);
    unlock_again::<A, Brand>(&words[0], free, seat);
    node::unlock::<MapView, MapLaw, Same>(&others[0], again, seat);
    Ok(())
}
