//! What a call finds at a node on its key's path, and what it does if its key is absent.
//!
//! Tested in `tools/dev/try-schedules`.

ghost use Rattle.std.specs.Prelude.{◌≡◌, ◌↔◌, IsTrue, Some, None, false};
ghost use Rattle.spec_olc.specs.declared.types.Env.{Env};
ghost use Rattle.olc_state.specs.inner.Tables.{IsPlaced};
ghost use Rattle.olc_state.specs.inner.Meant.{meant_table};
ghost use Rattle.spec_olc.specs.Calls.{IsPoint};
ghost use Rattle.olc_state.specs.inner.Tasks.{key_bytes};
ghost use Rattle.olc_state.specs.inner.World.{PlacedNode};
ghost use Rattle.olc_decide.specs.inner.Met.{IsAbsence, IsAbsent, IsMetBy, IsRoom, reply_absent, tail_for};
ghost use Rattle.olc_state.specs.inner.TailFacts.{found};
ghost use Rattle.olc_descend.specs.inner.Reads.{KnowsMeant, ReadsOnly};

use olc_descend::looking::child_at;
use olc_state::stage::{Path, Spot, Stage, Stored, Task};
use olc_state::stepped::{Stepped, asks, decided, going, node_at, report};
use olc_state::store::Store;
use olc_state::tail::{Case, Large, NodePair, Small, Tail};
use spec_node::child::ChildRef;
use spec_olc::payload::HasMeaning;
use spec_olc::types::{Asking, Kind, Op, Outcome, Reply, Report};

/// What a call finds at a node on its key's path.
#[derive(Clone, Copy)]
pub enum Met {
    /// A node is stored under its byte, and the call goes down to it.
    Below(usize),
    /// Nothing is stored there, and this is what an entry needs.
    Absent(Case),
    /// A payload is stored there; `true` if it is the only one of its leaf.
    Present(NodePair, bool),
}

/// What a call finds at the current node, whose word is the remembered one.
pub(crate) fn meet<P: HasMeaning>(store: &Store<P>, pin: u64, task: &Task<P>, path: Path) -> Met
    requires placed { IsPlaced (meant_table P.meaning store.now) store.now.root }
    requires facts { KnowsMeant P.always_shared P.same_meaning P.meaning store.now pin
        (record { stage = Stage.Check path; task = task.now }) }
    requires at_key { (a : PlacedNode P.Meaning) → meant_table P.meaning store.now path.here.slot ≡ Some a
        → a.word ≡ path.here.word }
    ensures { (a : PlacedNode P.Meaning) → meant_table P.meaning store.now path.here.slot ≡ Some a
        → IsMetBy path a (key_bytes task.now) result }
{
    let stored = node_at(store, path.here.slot);
    match child_at(&stored.node, task.outline.key()) {
        Some(ChildRef::Node(slot)) => Met::Below(slot),
        Some(ChildRef::Payload(_)) => {
            let Some(above) = path.above else {
                unreachable!()
            };
            let pair = NodePair {
                above,
                here: path.here,
            };
            Met::Present(pair, stored.node.base().value_count() == 1)
        }
        None => match room_for(stored) {
            RoomNeeded::Small(small) => Met::Absent(Case::Small(path, small)),
            RoomNeeded::Large(large) => {
                let Some(above) = path.above else {
                    unreachable!()
                };
                let pair = NodePair {
                    above,
                    here: path.here,
                };
                Met::Absent(Case::Large(pair, large))
            }
        },
    }
}

/// What an entry needs at a node that has none under the key's byte.
#[derive(Clone, Copy)]
enum RoomNeeded {
    Small(Small),
    Large(Large),
}

// What an entry needs, by the node's room and its place.
fn room_for<P: Drop>(stored: &Stored<P>) -> RoomNeeded
    ensures { IsRoom stored.now.node result }
{
    let node = &stored.node;
    match (node.is_full(), node.is_leaf()) {
        (true, true) => RoomNeeded::Large(Large::GrowLeaf),
        (true, false) => RoomNeeded::Large(Large::GrowInner),
        (false, true) => RoomNeeded::Small(Small::Entry),
        (false, false) => RoomNeeded::Small(Small::Leaf),
    }
}

/// What a call does if its key is absent.
#[derive(Clone, Copy)]
enum Absence {
    /// It changes nothing.
    Leaves,
    /// It stores its payload.
    Stores,
    /// It asks its closure.
    Asks,
}

// What a call of this kind does if its key is absent.
fn when_absent(outline: &Op<()>) -> Absence
    ensures { IsAbsence outline.now result }
{
    match outline {
        Op::Insert(..) => Absence::Stores,
        Op::ComputeOrInsert(..) => Absence::Asks,
        _ => Absence::Leaves,
    }
}

// The reply to a call of this kind, which changes nothing if its key is absent.
fn reply_absent<P>(outline: &Op<()>) -> Reply<P>
    ensures { result ≡ reply_absent outline.now }
{
    match outline {
        Op::ComputeIfPresent(_) => Reply::Computed(None),
        Op::CompareExchange(..) => Reply::Exchanged(Err(None)),
        _ => Reply::Old(None),
    }
}

// The tail of a call that stores at an absent key.
pub(crate) fn tail_for(case: Case) -> Tail
    ensures { result ≡ tail_for case }
{
    match case {
        Case::Small(path, small) => Tail::Upgrade(path, small),
        Case::Large(pair, large) => Tail::UpgradeAbove(pair, large),
        Case::Present(pair, _) => Tail::UpgradeAbove(pair, Large::Detach),
    }
}

// A call that asks its closure, with the shares that its last Read has kept.
pub(crate) fn asking<P: Drop>(task: &mut Task<P>, case: Case, report: Report) -> Stepped<P>
    ensures task { task.new ≡ record task.old {
      spare = None;
      question = None;
      asking = Asking.Wants task.old.spare;
    } }
    ensures event { result ≡ record {
      stage = Stage.Answer case;
      report = report;
      outcome = Outcome.Ask task.old.question;
    } }
{
    let question = task.question.take();
    let old = task.spare.take();
    asks(task, case, report, question, old)
}

/// Check of the current node by a point call whose key is absent.
pub(crate) fn absent_here<P: HasMeaning>(
    store: &Store<P>,
    pin: u64,
    task: &mut Task<P>,
    path: Path,
    case: Case,
) -> Stepped<P>
    requires placed { IsPlaced (meant_table P.meaning store.now) store.now.root }
    requires facts { KnowsMeant P.always_shared P.same_meaning P.meaning store.now pin
        (record { stage = Stage.Check path; task = task.old }) }
    requires at_key { (a : PlacedNode P.Meaning) → meant_table P.meaning store.now path.here.slot ≡ Some a
        → a.word ≡ path.here.word }
    requires absent { (a : PlacedNode P.Meaning) → meant_table P.meaning store.now path.here.slot ≡ Some a
        → (found a (key_bytes task.old) ≡ None) × IsAbsent path a (key_bytes task.old) case }
    requires point { IsPoint task.old.outline }
    ensures reads { (env : Env P) → ReadsOnly P.always_shared P.same_meaning P.meaning store.now pin
        (record { stage = Stage.Check path; task = task.old }) env
        (record { stage = result.stage; task = task.new }) result.report result.outcome }
{
    let report = report(Kind::Check, path.here.slot, 0, true);
    match when_absent(&task.outline) {
        Absence::Leaves => {
            let reply = reply_absent(&task.outline);
            decided(task, Stage::Finish, report, reply)
        }
        Absence::Stores => going(Stage::Tail(tail_for(case)), report),
        Absence::Asks => asking(task, case, report),
    }
}

/// Check of the parent of a node off the key's path, by a point call.
pub(crate) fn absent_above<P: HasMeaning>(
    store: &Store<P>,
    pin: u64,
    task: &mut Task<P>,
    path: Path,
    below: Spot,
) -> Stepped<P>
    requires placed { IsPlaced (meant_table P.meaning store.now) store.now.root }
    requires facts { KnowsMeant P.always_shared P.same_meaning P.meaning store.now pin
        (record { stage = Stage.CheckAbove path below false; task = task.old }) }
    requires at_key { (a : PlacedNode P.Meaning) → meant_table P.meaning store.now path.here.slot ≡ Some a
        → a.word ≡ path.here.word }
    requires point { IsPoint task.old.outline }
    ensures reads { (env : Env P) → ReadsOnly P.always_shared P.same_meaning P.meaning store.now pin
        (record { stage = Stage.CheckAbove path below false; task = task.old }) env
        (record { stage = result.stage; task = task.new }) result.report result.outcome }
{
    let report = report(Kind::Check, path.here.slot, 0, true);
    let pair = NodePair {
        above: path.here,
        here: below,
    };
    match when_absent(&task.outline) {
        Absence::Leaves => {
            let reply = reply_absent(&task.outline);
            decided(task, Stage::Finish, report, reply)
        }
        Absence::Stores => {
            let tail = Tail::UpgradeAbove(pair, Large::Split);
            going(Stage::Tail(tail), report)
        }
        Absence::Asks => asks(task, Case::Large(pair, Large::Split), report, None, None),
    }
}
