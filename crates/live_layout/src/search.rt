//! The search for a byte's child.

ghost use Rattle.std.specs.Prelude.{◌≡◌, ◌+◌, ◌≤◌, ℕ, List, length};
ghost use Rattle.spec_map.specs.Map.{lookup};
ghost use Rattle.spec_node.specs.TableNode.{TableNode};
ghost use Rattle.live_layout.specs.Words.{Stays};
ghost use Rattle.live_layout.specs.ListCells.{first, HasList};
ghost use Rattle.live_layout.specs.Encodes.{words_of, Encodes, IsBelow, payload_of};

use crate::form::room_of;
use crate::words::ReadWords;
use crate::{list, places};
use node_base::base_node::NodeType;

/// The word of the child under a byte, of a node of this form. A leaf's is the payload itself.
#[inline(always)]
pub fn find<S, R: ReadWords<S>>(cells: &R, form: NodeType, byte: u8, seat: &mut S) -> Option<u64>
    requires cells { R.may_read cells.now seat.old × (R.long cells.now ≡ words_of form) }
    ensures seat { Stays R.may_read R.rest cells.now seat.old seat.new }
    ensures is { (c : List ℕ) (n : TableNode ℕ) → R.agrees cells.now seat.new c → Encodes c n
        → n.form ≡ form
        → IsBelow (lookup n.children byte) result }
    ensures payload { (c : List ℕ) (n : TableNode ℕ) → R.agrees cells.now seat.new c
        → Encodes c n → n.form ≡ form
        → length n.prefix ≡ 7 → payload_of (lookup n.children byte) ≡ result }
    ensures kept { (c : List ℕ) → R.agrees cells.now seat.new c → R.agrees cells.now seat.old c }
{
    match room_of(form) {
        Some(room) => in_list(cells, room, byte, seat),
        None => places::find(cells, byte, seat),
    }
}

// The word of the byte's child in a list.
#[inline(always)]
fn in_list<S, R: ReadWords<S>>(cells: &R, room: usize, byte: u8, seat: &mut S) -> Option<u64>
    requires room { room ≤ 48 }
    requires cells { R.may_read cells.now seat.old × (R.long cells.now ≡ first room + room) }
    ensures seat { Stays R.may_read R.rest cells.now seat.old seat.new }
    ensures is { (c : List ℕ) (es : List (ℕ × ℕ)) → R.agrees cells.now seat.new c
        → HasList room c es
        → lookup es byte ≡ result }
    ensures kept { (c : List ℕ) → R.agrees cells.now seat.new c → R.agrees cells.now seat.old c }
{
    match list::find(cells, room, byte, seat) {
        Some((_, word)) => Some(word),
        None => None,
    }
}
