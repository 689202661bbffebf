//! A leaf is locked, and a key there gets another value, or none.
ghost use Rattle.std.specs.Prelude.{◌≡◌, ℕ, [], length, Some, None};
ghost use Rattle.spec_map.specs.Map.{lookup};
ghost use Rattle.spec_node.specs.TableNode.{TableNode};
ghost use Rattle.live_layout.specs.Words.{Stays, Looks};
ghost use Rattle.live_layout.specs.Encodes.{words_of, IsCounted, Encodes};
ghost use Rattle.live_growth.specs.Holds.{HasRest};
ghost use Rattle.live_growth.specs.Calls.{IsReady};
ghost use Rattle.live_updates.specs.inner.Lookups.{IsLeafWith};
ghost use Rattle.live_updates.specs.inner.Updates.{HasExpected, IsUpdate, IsSet, Updated, missed_by};

use crate::shrink_node::{Fill, fill_of, shrink_on_path};
use crate::tidy::tidy_from;
use live_growth::held::{lock_open, unlock_same};
use live_growth::link::Room;
use live_layout::change::{change, is_full, put, take};
use live_layout::form::{form_below, words_in};
use live_layout::search::find;
use live_layout::words::{AsReadWords, WriteWords};
use live_nodes::map_law::{MapLaw, MapView};
use live_nodes::node;
use live_nodes::plays::OnLock;
use live_nodes::rows::LockedWords;
use live_reads::descend::End;
use live_reads::path::{Nodes, Seat, byte_at};
use node_base::base_node::NodeType;
use std::marker::{Brand, PhantomData};

/// Why nothing was written: the key has another value than the expected one, the leaf has no room for another key, or another
/// writer is busy there.
#[derive(Clone, Copy, Debug, PartialEq, Eq)]
pub enum Missed {
    Changed,
    Full,
    Busy,
}

/// An update: who makes it, with which key and values, and its entry. A caller picks it.
pub trait Updates {
    ghost use Rattle.live_updates.specs.inner.Updates.{Update};

    ghost update: { Update };
}

impl Updates for Brand {
    ghost use Rattle.std.specs.Prelude.{None};
    ghost use Rattle.live_updates.specs.inner.Updates.{update_of};
    ghost use Rattle.live_updates.specs.Entries.{removed};

    ghost update = { update_of 0 0 None None (removed 0 0 None) };
}

/// A leaf is unlocked, with a value in the place of the expected one.
pub struct Write<U> {
    of: PhantomData<U>,
}

impl<U: Updates> OnLock<MapView> for Write<U> {
    ghost use Rattle.live_updates.specs.inner.Updates.{Writes};

    ghost told = { Writes U.update };
}

/// Gives a byte of a leaf another value in the place of the one that it has.
fn replace<S, D: WriteWords<S>>(
    draft: &D,
    form: NodeType,
    byte: u8,
    old: u64,
    new: u64,
    seat: &mut S,
) -> Option<Missed>
    requires may { D.may_write draft.now seat.old }
    requires long { length (D.words draft.now seat.old) ≡ words_of form }
    requires known { (n : TableNode ℕ) → Encodes (D.words draft.now seat.old) n → n.form ≡ form
        → length n.prefix ≡ 7 → HasExpected (lookup n.children byte) (Some old) }
    ensures seat { Stays D.may_write D.rest draft.now seat.old seat.new }
    ensures long { length (D.words draft.now seat.new) ≡ words_of form }
    ensures is { (n : TableNode ℕ) → Encodes (D.words draft.now seat.old) n → n.form ≡ form
        → length n.prefix ≡ 7
        → IsSet byte (Some old) (Some new) result (D.words draft.now seat.old)
        (D.words draft.now seat.new) n }
{
    let _ = old;
    if change(draft, form, byte, new, seat).is_none() {
        return Some(Missed::Changed);
    }
    None
}

/// Takes the value out of a leaf that a byte has.
fn take_out<S, D: WriteWords<S>>(
    draft: &D,
    form: NodeType,
    byte: u8,
    old: u64,
    seat: &mut S,
) -> Option<Missed>
    requires may { D.may_write draft.now seat.old }
    requires long { length (D.words draft.now seat.old) ≡ words_of form }
    requires few { IsCounted form (D.words draft.now seat.old) }
    requires known { (n : TableNode ℕ) → Encodes (D.words draft.now seat.old) n → n.form ≡ form
        → length n.prefix ≡ 7 → HasExpected (lookup n.children byte) (Some old) }
    ensures seat { Stays D.may_write D.rest draft.now seat.old seat.new }
    ensures long { length (D.words draft.now seat.new) ≡ words_of form }
    ensures is { (n : TableNode ℕ) → Encodes (D.words draft.now seat.old) n → n.form ≡ form
        → length n.prefix ≡ 7
        → IsSet byte (Some old) None result (D.words draft.now seat.old)
        (D.words draft.now seat.new) n }
{
    let _ = old;
    if take(draft, form, byte, seat).is_none() {
        return Some(Missed::Changed);
    }
    None
}

/// Gives a byte of a leaf a value, if it has none, and there is room.
fn put_in<S, D: WriteWords<S>>(
    draft: &D,
    form: NodeType,
    byte: u8,
    new: u64,
    seat: &mut S,
) -> Option<Missed>
    requires may { D.may_write draft.now seat.old }
    requires long { length (D.words draft.now seat.old) ≡ words_of form }
    ensures seat { Stays D.may_write D.rest draft.now seat.old seat.new }
    ensures long { length (D.words draft.now seat.new) ≡ words_of form }
    ensures is { (n : TableNode ℕ) → Encodes (D.words draft.now seat.old) n → n.form ≡ form
        → length n.prefix ≡ 7
        → IsSet byte None (Some new) result (D.words draft.now seat.old)
        (D.words draft.now seat.new) n }
{
    let long = words_in(form);
    let cells = AsReadWords { draft, long };
    if find(&cells, form, byte, seat).is_some() {
        return Some(Missed::Changed);
    }
    if is_full(draft, form, seat) {
        return Some(Missed::Full);
    }
    put(draft, form, byte, new, seat);
    None
}

/// Gives a byte of a leaf what it is to have, if it has what is expected. A value that is expected is known to be there. Where both
/// are nothing, nothing is written.
fn set<S, D: WriteWords<S>>(
    draft: &D,
    form: NodeType,
    byte: u8,
    old: Option<u64>,
    new: Option<u64>,
    seat: &mut S,
) -> Option<Missed>
    requires may { D.may_write draft.now seat.old }
    requires long { length (D.words draft.now seat.old) ≡ words_of form }
    requires few { IsCounted form (D.words draft.now seat.old) }
    requires known { (n : TableNode ℕ) → Encodes (D.words draft.now seat.old) n → n.form ≡ form
        → length n.prefix ≡ 7 → HasExpected (lookup n.children byte) old }
    ensures seat { Stays D.may_write D.rest draft.now seat.old seat.new }
    ensures long { length (D.words draft.now seat.new) ≡ words_of form }
    ensures is { (n : TableNode ℕ) → Encodes (D.words draft.now seat.old) n → n.form ≡ form
        → length n.prefix ≡ 7
        → IsSet byte old new result (D.words draft.now seat.old) (D.words draft.now seat.new) n }
{
    match (old, new) {
        (Some(old), Some(new)) => replace(draft, form, byte, old, new, seat),
        (Some(old), None) => take_out(draft, form, byte, old, seat),
        (None, Some(new)) => put_in(draft, form, byte, new, seat),
        (None, None) => Some(Missed::Changed),
    }
}

/// How many keys a leaf has, where one was taken out.
fn left_in<S, D: WriteWords<S>>(draft: &D, form: NodeType, new: Option<u64>, seat: &mut S) -> Fill
    requires may { D.may_write draft.now seat.old }
    requires long { length (D.words draft.now seat.old) ≡ words_of form }
    ensures seat { Looks D.may_write D.words draft.now seat.old seat.new }
{
    if new.is_some() {
        return Fill::Enough;
    }
    fill_of(draft, form, seat)
}

/// Gives a key of an open leaf what it is to have, if it has what is expected. Otherwise nothing is written. How many keys the leaf
/// has then, where one was taken out.
#[inline(always)]
fn update_leaf<U: Updates>(
    leaf: End<'_>,
    key: u64,
    old: Option<u64>,
    new: Option<u64>,
    seat: &mut Seat,
) -> Result<Fill, Missed>
    requires asks { (U.update.key ≡ key) × (U.update.caller ≡ seat.old.id) }
    requires values { (U.update.old ≡ old) × (U.update.new ≡ new) }
    requires legal { IsUpdate U.update }
    requires open { IsLeafWith seat.old.view seat.old.book key leaf old }
    requires rests { (seat.old.view.client.own ≡ []) × (seat.old.view.holds ≡ []) }
    ensures book { seat.new.book ≡ seat.old.book }
    ensures id { seat.new.id ≡ seat.old.id }
    ensures rest { HasRest seat.old.view seat.new.view }
    ensures updated { Updated U.update (missed_by result) seat.old.view seat.new.view }
{
    let End { position, here, .. } = leaf;
    let (words, name) = (here.words, position.name);
    let form = form_below(name);
    let byte = byte_at(key, 1);
    let Some(free) = lock_open(here, name, 1, key, seat) else {
        return Err(Missed::Busy);
    };
    let held: LockedWords<'_, MapView, MapLaw, 0> = LockedWords { words };
    if let Some(missed) = set(&held, form, byte, old, new, seat) {
        unlock_same(words, free, seat);
        return Err(missed);
    }
    let left = left_in(&held, form, new, seat);
    node::unlock::<MapView, MapLaw, Write<U>>(&words[0], free, seat);
    Ok(left)
}

/// Gives a key of an open leaf what it is to have, if it has what is expected. Otherwise nothing is written.
pub fn update_here<U: Updates>(
    leaf: End<'_>,
    key: u64,
    old: Option<u64>,
    new: Option<u64>,
    seat: &mut Seat,
) -> Option<Missed>
    requires asks { (U.update.key ≡ key) × (U.update.caller ≡ seat.old.id) }
    requires values { (U.update.old ≡ old) × (U.update.new ≡ new) }
    requires legal { IsUpdate U.update }
    requires open { IsLeafWith seat.old.view seat.old.book key leaf old }
    requires rests { (seat.old.view.client.own ≡ []) × (seat.old.view.holds ≡ []) }
    ensures book { seat.new.book ≡ seat.old.book }
    ensures id { seat.new.id ≡ seat.old.id }
    ensures rest { HasRest seat.old.view seat.new.view }
    ensures updated { Updated U.update result seat.old.view seat.new.view }
{
    match update_leaf::<U>(leaf, key, old, new, seat) {
        Ok(_) => None,
        Err(missed) => Some(missed),
    }
}

/// Gives a key of an open leaf what it is to have, if it has what is expected. Otherwise nothing is written. A leaf without keys is
/// taken out of the map, and one that is left with few goes into the next smaller form.
pub fn exchange_here<U: Updates>(
    nodes: &Nodes,
    leaf: End<'_>,
    key: u64,
    old: Option<u64>,
    new: Option<u64>,
    room: &mut Room,
    seat: &mut Seat,
) -> Option<Missed>
    requires book { seat.old.book ≡ nodes.now }
    requires asks { (U.update.key ≡ key) × (U.update.caller ≡ seat.old.id) }
    requires values { (U.update.old ≡ old) × (U.update.new ≡ new) }
    requires legal { IsUpdate U.update }
    requires ready { IsReady seat.old.view room.old }
    requires open { IsLeafWith seat.old.view seat.old.book key leaf old }
    ensures book { seat.new.book ≡ seat.old.book }
    ensures id { seat.new.id ≡ seat.old.id }
    ensures ready { IsReady seat.new.view room.new }
    ensures updated { Updated U.update result seat.old.view seat.new.view }
{
    match update_leaf::<U>(leaf, key, old, new, seat) {
        Ok(Fill::Empty) => {
            tidy_from(nodes, leaf.position, key, room, seat);
            None
        }
        Ok(left) => {
            shrink_on_path(nodes, leaf.position.name, left, key, room, seat);
            None
        }
        Err(missed) => Some(missed),
    }
}
