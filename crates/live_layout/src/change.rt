//! The changes of a node that stays in its form.

ghost use Rattle.std.specs.Prelude.{◌≡◌, ◌↔◌, ◌≤◌, ℕ, length, Some, None, IfSome, IfNone, IsTrue, false};
ghost use Rattle.spec_map.specs.Map.{lookup};
ghost use Rattle.node_base.specs.Form.{limit};
ghost use Rattle.spec_node.specs.TableNode.{TableNode, Child, MayHave};
ghost use Rattle.live_layout.specs.Words.{Stays, Looks};
ghost use Rattle.live_layout.specs.Encodes.{words_of, most, IsCounted, HasRoom, Encodes, IsBelow, IsWord, with_child};

use crate::form::room_of;
use crate::words::WriteWords;
use crate::{by_key, list, places};
use node_base::base_node::NodeType;

/// Whether there is no room for another child.
pub fn is_full<S, D: WriteWords<S>>(draft: &D, form: NodeType, seat: &mut S) -> bool
    requires may { D.may_write draft.now seat.old }
    requires long { length (D.words draft.now seat.old) ≡ words_of form }
    ensures seat { Looks D.may_write D.words draft.now seat.old seat.new }
    ensures left { result ≡ false → HasRoom form (D.words draft.now seat.old) }
    ensures full { (n : TableNode ℕ) → Encodes (D.words draft.now seat.old) n → n.form ≡ form
        → (IsTrue result ↔ (most (limit form) ≤ length n.children)) }
{
    match room_of(form) {
        Some(room) => list::is_full(draft, room, seat),
        None => draft.get(1, seat) >= 256,
    }
}

/// Gives a byte that has none a child, where there is room. Three stores, or two where a list has few children.
pub fn put<S, D: WriteWords<S>>(draft: &D, form: NodeType, byte: u8, child: u64, seat: &mut S)
    requires may { D.may_write draft.now seat.old }
    requires long { length (D.words draft.now seat.old) ≡ words_of form }
    requires left { HasRoom form (D.words draft.now seat.old) }
    ensures seat { Stays D.may_write D.rest draft.now seat.old seat.new }
    ensures long { length (D.words draft.now seat.new) ≡ words_of form }
    ensures is { (n : TableNode ℕ) (x : Child ℕ) → Encodes (D.words draft.now seat.old) n
        → n.form ≡ form
        → IsWord child x → MayHave n.prefix x → lookup n.children byte ≡ None
        → Encodes (D.words draft.now seat.new) (with_child n byte (Some x)) }
{
    match room_of(form) {
        Some(room) => list::put(draft, room, byte, child, seat),
        None => places::put(draft, byte, child, seat),
    }
}

/// Gives a byte that has a child another one, by one store. The word before, or `None` where it has none.
pub fn change<S, D: WriteWords<S>>(
    draft: &D,
    form: NodeType,
    byte: u8,
    child: u64,
    seat: &mut S,
) -> Option<u64>
    requires may { D.may_write draft.now seat.old }
    requires long { length (D.words draft.now seat.old) ≡ words_of form }
    ensures seat { Stays D.may_write D.rest draft.now seat.old seat.new }
    ensures long { length (D.words draft.now seat.new) ≡ words_of form }
    ensures was { (n : TableNode ℕ) → Encodes (D.words draft.now seat.old) n → n.form ≡ form
        → IsBelow (lookup n.children byte) result }
    ensures is { IfSome result (λ _. (n : TableNode ℕ) (x : Child ℕ)
        → Encodes (D.words draft.now seat.old) n
        → n.form ≡ form → IsWord child x → MayHave n.prefix x
        → Encodes (D.words draft.now seat.new) (with_child n byte (Some x))) }
    ensures none { IfNone result (D.words draft.now seat.new ≡ D.words draft.now seat.old) }
{
    match room_of(form) {
        Some(room) => by_key::change_in_list(draft, room, byte, child, seat),
        None => by_key::change_in_places(draft, byte, child, seat),
    }
}

/// Takes a byte's child out. Its word, or `None` where the byte has none.
pub fn take<S, D: WriteWords<S>>(draft: &D, form: NodeType, byte: u8, seat: &mut S) -> Option<u64>
    requires may { D.may_write draft.now seat.old }
    requires long { length (D.words draft.now seat.old) ≡ words_of form }
    requires few { IsCounted form (D.words draft.now seat.old) }
    ensures seat { Stays D.may_write D.rest draft.now seat.old seat.new }
    ensures long { length (D.words draft.now seat.new) ≡ words_of form }
    ensures was { (n : TableNode ℕ) → Encodes (D.words draft.now seat.old) n → n.form ≡ form
        → IsBelow (lookup n.children byte) result }
    ensures is { IfSome result (λ _. (n : TableNode ℕ) → Encodes (D.words draft.now seat.old) n
        → n.form ≡ form
        → Encodes (D.words draft.now seat.new) (with_child n byte None)) }
    ensures none { IfNone result (D.words draft.now seat.new ≡ D.words draft.now seat.old) }
{
    match room_of(form) {
        Some(room) => by_key::take_from_list(draft, room, byte, seat),
        None => by_key::take_from_places(draft, byte, seat),
    }
}
