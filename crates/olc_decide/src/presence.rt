//! What a point call does if its key is present.
//!
//! Tested in `tools/dev/try-schedules`.

ghost use Rattle.std.specs.Prelude.{◌≡◌, None};
ghost use Rattle.spec_node.specs.TableNode.{seen};
ghost use Rattle.spec_olc.specs.Meaning.{child_of, in_some, op_of};
ghost use Rattle.spec_olc.specs.Calls.{IsPoint};
ghost use Rattle.olc_state.specs.inner.Effects.{HasClosure};
ghost use Rattle.olc_state.specs.inner.TailFacts.{path_to};
ghost use Rattle.olc_decide.specs.inner.Judged.{IsExchange, IsJudgedExchange, IsGet, IsInsert, IsJudged, IsRemove, handed, removing};
ghost use Rattle.olc_decide.specs.inner.Leaf.{ChecksLeaf, IsAtPayload};

use crate::finding::asking;
use olc_descend::looking::child_at;
use olc_state::stage::{Path, Stage, Task};
use olc_state::stepped::{Stepped, changed, decided, going, node_at, report};
use olc_state::store::Store;
use olc_state::tail::{Case, Large, NodePair, Small, Tail};
use spec_node::child::ChildRef;
use spec_olc::payload::HasMeaning;
use spec_olc::types::{Kind, Op, Reply};

/// The path to the lower of two nodes.
pub(crate) fn path_to(pair: NodePair) -> Path
    ensures { result ≡ path_to pair }
{
    Path {
        above: Some(pair.above),
        here: pair.here,
    }
}

/// The tail of a call that removes the payload: the only one of its leaf is removed with the leaf.
pub(crate) fn removing(pair: NodePair, only: bool) -> Tail
    ensures { result ≡ removing pair only }
{
    if only {
        Tail::UpgradeAbove(pair, Large::Detach)
    } else {
        Tail::Upgrade(path_to(pair), Small::Entry)
    }
}

/// Check of a leaf by a point call whose key is present.
pub(crate) fn present<P: HasMeaning>(
    store: &Store<P>,
    pin: u64,
    task: &mut Task<P>,
    pair: NodePair,
    only: bool,
) -> Stepped<P>
    requires at { IsAtPayload P.always_shared P.same_meaning P.meaning store.now pin task.old pair only }
    requires point { IsPoint task.old.outline }
    ensures reads { ChecksLeaf P.always_shared P.same_meaning P.meaning store.now pin task.old pair task.new result }
{
    match &task.outline {
        Op::Get(_) => get(store, pin, task, pair, only),
        Op::Insert(..) => insert(store, pin, task, pair, only),
        Op::Remove(_) => remove(store, pin, task, pair, only),
        Op::CompareExchange(..) => exchange(store, pin, task, pair, only),
        Op::ComputeIfPresent(_) => ask(store, pin, task, pair, only),
        Op::ComputeOrInsert(..) => ask(store, pin, task, pair, only),
        Op::Range(..) => unreachable!(),
    }
}

// A Get is decided with the share that its Read has kept.
fn get<P: HasMeaning>(
    store: &Store<P>,
    pin: u64,
    task: &mut Task<P>,
    pair: NodePair,
    only: bool,
) -> Stepped<P>
    requires at { IsAtPayload P.always_shared P.same_meaning P.meaning store.now pin task.old pair only }
    requires get { IsGet task.old.outline }
    ensures reads { ChecksLeaf P.always_shared P.same_meaning P.meaning store.now pin task.old pair task.new result }
{
    let report = report(Kind::Check, pair.here.slot, 0, true);
    let reply = Reply::Old(task.spare.take());
    decided(task, Stage::Finish, report, reply)
}

// A Remove has to write.
fn remove<P: HasMeaning>(
    store: &Store<P>,
    pin: u64,
    task: &mut Task<P>,
    pair: NodePair,
    only: bool,
) -> Stepped<P>
    requires at { IsAtPayload P.always_shared P.same_meaning P.meaning store.now pin task.old pair only }
    requires remove { IsRemove task.old.outline }
    ensures reads { ChecksLeaf P.always_shared P.same_meaning P.meaning store.now pin task.old pair task.new result }
{
    let report = report(Kind::Check, pair.here.slot, 0, true);
    going(Stage::Tail(removing(pair, only)), report)
}

// A call with a closure asks it.
fn ask<P: HasMeaning>(
    store: &Store<P>,
    pin: u64,
    task: &mut Task<P>,
    pair: NodePair,
    only: bool,
) -> Stepped<P>
    requires at { IsAtPayload P.always_shared P.same_meaning P.meaning store.now pin task.old pair only }
    requires asks { HasClosure task.old.outline }
    ensures reads { ChecksLeaf P.always_shared P.same_meaning P.meaning store.now pin task.old pair task.new result }
{
    let report = report(Kind::Check, pair.here.slot, 0, true);
    asking(task, Case::Present(pair, only), report)
}

// An Insert has to write, unless its payload is the current value already.
fn insert<P: HasMeaning>(
    store: &Store<P>,
    pin: u64,
    task: &mut Task<P>,
    pair: NodePair,
    only: bool,
) -> Stepped<P>
    requires at { IsAtPayload P.always_shared P.same_meaning P.meaning store.now pin task.old pair only }
    requires insert { IsInsert task.old.outline }
    ensures reads { ChecksLeaf P.always_shared P.same_meaning P.meaning store.now pin task.old pair task.new result }
{
    let report = report(Kind::Check, pair.here.slot, 0, true);
    let node = &node_at(store, pair.here.slot).node;
    match judge(task, child_at(node, task.outline.key())) {
        Judged::Same => {
            let before = handed(task);
            changed(task, Stage::Finish, report, before)
        }
        _ => going(
            Stage::Tail(Tail::Upgrade(path_to(pair), Small::Entry)),
            report,
        ),
    }
}

// A CompareExchange is decided if another payload is stored, or the new one already. Otherwise it has to write.
fn exchange<P: HasMeaning>(
    store: &Store<P>,
    pin: u64,
    task: &mut Task<P>,
    pair: NodePair,
    only: bool,
) -> Stepped<P>
    requires at { IsAtPayload P.always_shared P.same_meaning P.meaning store.now pin task.old pair only }
    requires exchange { IsExchange task.old.outline }
    ensures reads { ChecksLeaf P.always_shared P.same_meaning P.meaning store.now pin task.old pair task.new result }
{
    let report = report(Kind::Check, pair.here.slot, 0, true);
    let node = &node_at(store, pair.here.slot).node;
    match judge(task, child_at(node, task.outline.key())) {
        Judged::Other => {
            let reply = Reply::Exchanged(Err(task.spare.take()));
            decided(task, Stage::Finish, report, reply)
        }
        Judged::Same => changed(task, Stage::Finish, report, None),
        Judged::Stores => going(
            Stage::Tail(Tail::Upgrade(path_to(pair), Small::Entry)),
            report,
        ),
        Judged::Removes => going(Stage::Tail(removing(pair, only)), report),
    }
}

/// What a call without a closure does with the current payload of its key.
#[derive(Clone, Copy)]
pub enum Judged {
    /// It isn't the expected one.
    Other,
    /// It is the one that the call would store.
    Same,
    /// The call replaces it with its own.
    Stores,
    /// The call removes it.
    Removes,
}

// What an Insert or a CompareExchange does with the current value of its key.
fn judge<P: HasMeaning>(task: &Task<P>, current: Option<ChildRef<'_, P>>) -> Judged
    ensures { IsJudged P.same_meaning (in_some (op_of P.meaning) task.now.op)
        (in_some (child_of P.meaning) (seen current.entry)) result }
{
    let Some(ChildRef::Payload(current)) = current else {
        return Judged::Other;
    };
    match &task.op {
        Some(Op::Insert(_, value)) => {
            if value.same(current) {
                Judged::Same
            } else {
                Judged::Stores
            }
        }
        Some(Op::CompareExchange(_, old, new)) => exchanged(old, new, current),
        _ => Judged::Other,
    }
}

// What a CompareExchange does with the current value of its key.
fn exchanged<P: HasMeaning>(old: &P, new: &Option<P>, current: &P) -> Judged
    ensures { IsJudgedExchange P.same_meaning (P.meaning old.now) (in_some P.meaning new.now)
        (P.meaning current.now) result }
{
    if !current.same(old) {
        return Judged::Other;
    }
    match new {
        None => Judged::Removes,
        Some(new) => {
            if new.same(current) {
                Judged::Same
            } else {
                Judged::Stores
            }
        }
    }
}

// The payload of an Insert, which is taken from it.
fn handed<P: Drop>(task: &mut Task<P>) -> Option<P>
    ensures value { result ≡ handed task.old.op }
    ensures rest { task.new ≡ record task.old { op = None } }
{
    match task.op.take() {
        Some(Op::Insert(_key, value)) => Some(value),
        _ => None,
    }
}
