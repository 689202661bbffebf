//! Writes at the call's node: a payload into a leaf, a new leaf below an inner node.
//!
//! Tested in `tools/dev/try-schedules` and `test_olc/refusals`.

ghost use Rattle.std.specs.Prelude.{◌≡◌, ◌+◌, ◌≤◌, ◌^◌, IsTrue, Some, None, IsSome, length};
ghost use Rattle.node_base.specs.Form.{Fits};
ghost use Rattle.spec_olc.specs.Calls.{bytes_of};
ghost use Rattle.spec_olc.specs.Local.{payload_in};
ghost use Rattle.spec_olc.specs.Meaning.{in_some};
ghost use Rattle.spec_olc.specs.declared.types.Env.{Env};
ghost use Rattle.olc_state.specs.inner.Facts.{stored_sizes};
ghost use Rattle.olc_state.specs.inner.Meant.{meant_table};
ghost use Rattle.olc_state.specs.inner.Stocks.{CountsEntries, IsStoreSound, KnowsAt, MovesBy};
ghost use Rattle.olc_state.specs.inner.Slots.{SetsNode};
ghost use Rattle.olc_state.specs.inner.Tables.{byte_at};
ghost use Rattle.olc_state.specs.inner.World.{PlacedNode, entry};
ghost use Rattle.olc_write.specs.inner.Storing.{entries_with, with_payload};

use crate::leaving::left_by;
use crate::storing::take_stored;
use node_table::allocator::Allocator;
use olc_state::stage::{Spot, Stage, Task};
use olc_state::stepped::{Stepped, changed, node_at, report};
use olc_state::stock::Stock;
use olc_state::store::Store;
use olc_state::tail::Tail;
use spec_node::child::Child;
use spec_olc::payload::HasMeaning;
use spec_olc::types::Kind;

/// Puts a payload into the held leaf, or removes one, which decides the call.
pub(crate) fn write<P: HasMeaning, A: Allocator>(
    stock: &mut Stock<P, A>,
    pin: u64,
    task: &mut Task<P>,
    spot: Spot,
) -> Stepped<P>
    requires kept { IsStoreSound P.meaning A.charge stock.old }
    requires facts { KnowsAt P.meaning A.charge P.always_shared P.same_meaning
        stock.old pin task.old (Tail.Write spot) }
    requires counted { CountsEntries P.meaning A.charge stock.old }
    ensures moves { (env : Env P) → MovesBy P.meaning A.charge P.always_shared
        P.same_meaning stock.old stock.new pin task.old (Tail.Write spot) env
        (record { stage = result.stage; task = task.new }) result.report result.outcome }
{
    let slot = spot.slot;
    let byte = byte_below(&stock.store, slot, task.outline.key());
    let value = take_stored(task);
    let stores = value.is_some();
    let before = set_payload(&mut stock.store, slot, byte, value);
    stock.entries = counted(stock.entries, before.is_some(), stores);
    let left = left_by(&stock.store, slot, stores);
    let report = report(Kind::Write, slot, 0, true);
    changed(task, Stage::Tail(Tail::Unlock(spot, left)), report, before)
}

// Puts a payload under a byte of a leaf, or removes the one there, and returns the previous one.
fn set_payload<P: HasMeaning>(
    store: &mut Store<P>,
    slot: usize,
    byte: u8,
    value: Option<P>,
) -> Option<P>
    requires at { (a : PlacedNode P.Meaning) × (meant_table P.meaning store.old slot ≡ Some a)
        × (length a.node.prefix ≡ 7)
        × (entry a byte ≡ None → Fits a.node.form (length a.node.children + 1))
        × (value ≡ None → IsSome (entry a byte)) }
    ensures sets { (a : PlacedNode P.Meaning) → meant_table P.meaning store.old slot ≡ Some a
        → SetsNode P.meaning store.old store.new slot
        (Some (with_payload a byte (in_some P.meaning value))) }
    ensures before { (a : PlacedNode P.Meaning) → meant_table P.meaning store.old slot ≡ Some a
        → in_some P.meaning result ≡ payload_in (entry a byte) }
    ensures sizes { stored_sizes store.new.nodes.slots ≡ stored_sizes store.old.nodes.slots }
    ensures lives { store.new.pins ≡ store.old.pins }
{
    let before = match value {
        Some(value) => store.put_child(slot, byte, Child::Payload(value)),
        None => Some(store.take_child(slot, byte)),
    };
    payload_of(before)
}

// How many pairs there are once a key has a value, or none.
fn counted(entries: u128, had: bool, has: bool) -> u128
    requires few { entries ≤ 2 ^ 64 }
    requires some { IsTrue had → 1 ≤ entries }
    ensures { result ≡ entries_with entries had has }
{
    match (had, has) {
        (false, true) => entries + 1,
        (true, false) => entries - 1,
        _ => entries,
    }
}

/// Links the new leaf below the held inner node, which decides the call.
pub(crate) fn link<P: HasMeaning, A: Allocator>(
    stock: &mut Stock<P, A>,
    pin: u64,
    task: &mut Task<P>,
    spot: Spot,
    leaf: usize,
) -> Stepped<P>
    requires kept { IsStoreSound P.meaning A.charge stock.old }
    requires facts { KnowsAt P.meaning A.charge P.always_shared P.same_meaning
        stock.old pin task.old (Tail.Link spot leaf) }
    requires counted { CountsEntries P.meaning A.charge stock.old }
    ensures moves { (env : Env P) → MovesBy P.meaning A.charge P.always_shared
        P.same_meaning stock.old stock.new pin task.old (Tail.Link spot leaf) env
        (record { stage = result.stage; task = task.new }) result.report result.outcome }
{
    let slot = spot.slot;
    let byte = byte_below(&stock.store, slot, task.outline.key());
    stock.store.publish(leaf);
    stock.store.put_child(slot, byte, Child::Node(leaf));
    stock.entries = stock.entries + 1;
    let report = report(Kind::Write, slot, 0, true);
    changed(task, Stage::Tail(Tail::Unlock(spot, None)), report, None)
}

/// The byte under which a key goes on below the node in a slot.
pub fn byte_below<P: HasMeaning>(store: &Store<P>, slot: usize, key: u64) -> u8
    requires { (a : PlacedNode P.Meaning) × (meant_table P.meaning store.now slot ≡ Some a)
        × (length a.node.prefix ≤ 7) }
    ensures byte { (a : PlacedNode P.Meaning) → meant_table P.meaning store.now slot ≡ Some a
        → result ≡ byte_at a (bytes_of key) }
    ensures within { (a : PlacedNode P.Meaning) → meant_table P.meaning store.now slot ≡ Some a
        → Fits a.node.form (length a.node.children) }
{
    let bytes = key.to_be_bytes();
    bytes[node_at(store, slot).node.base().prefix().len()]
}

// The payload that a leaf had under a byte.
pub(crate) fn payload_of<P: Drop>(child: Option<Child<P>>) -> Option<P>
    ensures { result ≡ payload_in child }
{
    match child {
        Some(Child::Payload(payload)) => Some(payload),
        _ => None,
    }
}
