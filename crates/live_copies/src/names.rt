//! The children of a node that is locked, by their names.
ghost use Rattle.std.specs.Prelude.{◌≡◌, ℕ, ◌<◌, length, slice_index, IsTrue};
ghost use Rattle.live_layout.specs.Words.{Looks};
ghost use Rattle.live_layout.specs.Encodes.{words_of};
ghost use Rattle.live_copies.specs.inner.Noted.{HasNamed};

use live_layout::form::{slot_below, words_in};
use live_layout::search::find;
use live_layout::words::{AsReadWords, WriteWords};
use node_base::base_node::NodeType;

// Whether the child under a byte has this name. 0 is for none.
fn has_child<S, D: WriteWords<S>>(
    draft: &D,
    form: NodeType,
    byte: u8,
    name: u64,
    seat: &mut S,
) -> bool
    requires may { D.may_write draft.now seat.old }
    requires long { length (D.words draft.now seat.old) ≡ words_of form }
    ensures seat { Looks D.may_write D.words draft.now seat.old seat.new }
    ensures is { IsTrue result → HasNamed (D.words draft.now seat.old) form byte name }
{
    let long = words_in(form);
    let cells = AsReadWords { draft, long };
    match find(&cells, form, byte, seat) {
        Some(word) => name != 0 && slot_below(word) == name,
        None => name == 0,
    }
}

/// Whether an inner node has these children and no others. 0 is for none.
pub(crate) fn has_children<S, D: WriteWords<S>>(
    draft: &D,
    form: NodeType,
    names: &[u64; 256],
    seat: &mut S,
) -> bool
    requires may { D.may_write draft.now seat.old }
    requires long { length (D.words draft.now seat.old) ≡ words_of form }
    ensures seat { Looks D.may_write D.words draft.now seat.old seat.new }
    ensures are { IsTrue result → (b : ℕ) → b < 256
        → HasNamed (D.words draft.now seat.old) form b (slice_index names.now b) }
{
    for byte in 0..256usize {
        if !has_child(draft, form, byte as u8, names[byte], seat) {
            return false;
        }
    }
    true
}
