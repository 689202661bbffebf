//! Forms, as words have them.

ghost use Rattle.std.specs.Prelude.{◌≡◌, ℕ, ◌+◌, ◌*◌, ◌^◌, ◌<◌, ◌≤◌, List, IfSome};
ghost use Rattle.node_base.specs.Form.{limit, form_place, next_form, smaller_form};
ghost use Rattle.node_base.specs.declared.base_node.NodeType.{NodeType};
ghost use Rattle.live_layout.specs.Head.{IsHead};
ghost use Rattle.spec_node.specs.declared.child.Child.TheVariants.{Node};
ghost use Rattle.live_layout.specs.Encodes.{words_of, IsWord};

use crate::head::form_of;
use crate::list::first_child;
use node_base::base_node::NodeType;

/// How many children have room in the list of a node of this form. `None` for the form that has a place for each byte.
pub fn room_of(form: NodeType) -> Option<usize>
    ensures is { result ≡ limit form }
    ensures few { IfSome result (λ room. (0 < room) × (room ≤ 48)) }
{
    match form {
        NodeType::N4 => Some(4),
        NodeType::N16 => Some(16),
        NodeType::N48 => Some(48),
        NodeType::N256 => None,
    }
}

/// How many words a node of this form has: 6, 20, 56 or 262.
pub fn words_in(form: NodeType) -> usize
    ensures { result ≡ words_of form }
{
    match room_of(form) {
        Some(room) => first_child(room) + room,
        None => 262,
    }
}

/// The form's place among the forms.
pub fn place_of(form: NodeType) -> u8
    ensures is { result ≡ form_place form }
    ensures few { result < 4 }
{
    match form {
        NodeType::N4 => 0,
        NodeType::N16 => 1,
        NodeType::N48 => 2,
        NodeType::N256 => 3,
    }
}

// The form with a place among the forms. It is some form for a number that is no place.
fn form_at(place: u64) -> NodeType
    ensures { (form : NodeType) → place ≡ form_place form → result ≡ form }
{
    match place {
        0 => NodeType::N4,
        1 => NodeType::N16,
        2 => NodeType::N48,
        _ => NodeType::N256,
    }
}

/// The form of a node with this head. It is some form for a word that is no head.
pub fn form_in(head: u64) -> NodeType
    ensures { (form : NodeType) (prefix : List ℕ) → IsHead head (form_place form) prefix
        → result ≡ form }
{
    form_at(form_of(head) as u64)
}

/// The word of a node below, by its slot and its form.
pub fn word_below(slot: u64, form: NodeType) -> u64
    requires { slot < 2 ^ 56 }
    ensures child { IsWord result (Node slot) }
    ensures is { result ≡ 256 * slot + form_place form }
{
    256 * slot + place_of(form) as u64
}

/// The slot of the node below that a word names.
pub fn slot_below(word: u64) -> u64
    ensures { (slot : ℕ) → IsWord word (Node slot) → result ≡ slot }
{
    word / 256
}

/// The form of the node below that a word names.
pub fn form_below(word: u64) -> NodeType
    ensures { (slot : ℕ) (form : NodeType) → word ≡ 256 * slot + form_place form → result ≡ form }
{
    form_at(word % 256)
}

/// The form that a full node grows into.
pub fn next_of(form: NodeType) -> NodeType
    ensures { result ≡ next_form form }
{
    match form {
        NodeType::N4 => NodeType::N16,
        NodeType::N16 => NodeType::N48,
        NodeType::N48 | NodeType::N256 => NodeType::N256,
    }
}

/// The form that a node of few children goes into.
pub fn smaller_of(form: NodeType) -> NodeType
    ensures { result ≡ smaller_form form }
{
    match form {
        NodeType::N4 | NodeType::N16 => NodeType::N4,
        NodeType::N48 => NodeType::N16,
        NodeType::N256 => NodeType::N48,
    }
}
