//! A value is written into a leaf.
ghost use Rattle.std.specs.Prelude.{◌≡◌, ℕ, [], length, IfOk, OnErr};
ghost use Rattle.spec_node.specs.TableNode.{TableNode};
ghost use Rattle.live_layout.specs.Words.{Stays};
ghost use Rattle.live_layout.specs.Encodes.{words_of, Encodes};
ghost use Rattle.live_reads.specs.Paths.{IsOpen};
ghost use Rattle.live_growth.specs.Holds.{HasRest, IsWritten, IsDone};

use crate::held::{lock_open, unlock_same};
use live_layout::change::{change, is_full, put};
use live_layout::form::form_below;
use live_layout::words::WriteWords;
use live_nodes::map_law::{Asks, Insert, MapLaw, MapView};
use live_nodes::node;
use live_nodes::rows::LockedWords;
use live_reads::path::{Opened, Seat, byte_at};
use node_base::base_node::NodeType;

/// Gives a byte of a leaf a value: the one before. `None` where there is no room, and then nothing is written.
fn write<S, D: WriteWords<S>>(
    draft: &D,
    form: NodeType,
    byte: u8,
    x: u64,
    seat: &mut S,
) -> Option<Option<u64>>
    requires may { D.may_write draft.now seat.old }
    requires long { length (D.words draft.now seat.old) ≡ words_of form }
    ensures seat { Stays D.may_write D.rest draft.now seat.old seat.new }
    ensures long { length (D.words draft.now seat.new) ≡ words_of form }
    ensures is { (n : TableNode ℕ) → Encodes (D.words draft.now seat.old) n → n.form ≡ form
        → length n.prefix ≡ 7
        → IsWritten byte x result (D.words draft.now seat.old) (D.words draft.now seat.new) n }
{
    if let Some(old) = change(draft, form, byte, x, seat) {
        return Some(Some(old));
    }
    if is_full(draft, form, seat) {
        return None;
    }
    put(draft, form, byte, x, seat);
    Some(None)
}

/// Why nothing was inserted.
#[derive(Clone, Copy, Debug, PartialEq, Eq)]
pub enum Hindrance {
    Full,
    Busy,
}

/// Gives a key of an open leaf a value. Another writer may have come in between, or the leaf is full.
#[inline(always)]
pub fn insert_here<A: Asks>(
    here: Opened<'_>,
    name: u64,
    key: u64,
    value: u64,
    seat: &mut Seat,
) -> Result<Option<u64>, Hindrance>
    requires asks { (A.ask.key ≡ key) × (A.ask.value ≡ value) × (A.ask.caller ≡ seat.old.id) }
    requires open { IsOpen seat.old.view seat.old.book here.words.now here.taken name key 1 }
    requires rests { (seat.old.view.client.own ≡ []) × (seat.old.view.holds ≡ []) }
    ensures book { seat.new.book ≡ seat.old.book }
    ensures id { seat.new.id ≡ seat.old.id }
    ensures rest { HasRest seat.old.view seat.new.view }
    ensures done { IfOk result (λ old. IsDone A.ask old seat.old.view seat.new.view) }
    ensures seen { OnErr result (seat.new.view.client.seen ≡ seat.old.view.client.seen) }
{
    let words = here.words;
    let form = form_below(name);
    let byte = byte_at(key, 1);
    let Some(free) = lock_open(here, name, 1, key, seat) else {
        return Err(Hindrance::Busy);
    };
    let held: LockedWords<'_, MapView, MapLaw, 0> = LockedWords { words };
    let Some(old) = write(&held, form, byte, value, seat) else {
        unlock_same(words, free, seat);
        return Err(Hindrance::Full);
    };
    node::unlock::<MapView, MapLaw, Insert<A>>(&words[0], free, seat);
    Ok(old)
}
