//! Check: whether a node's word is still the remembered one. If it isn't, the call cleans up no more.
//!
//! Tested in `tools/dev/try-schedules`.

ghost use Rattle.spec_olc.specs.Calls.{bytes_of};
ghost use Rattle.spec_olc.specs.declared.types.Env.{Env};
ghost use Rattle.olc_state.specs.inner.Meant.{meant_table};
ghost use Rattle.olc_state.specs.inner.Tables.{IsPlaced};
ghost use Rattle.olc_descend.specs.inner.Reads.{KnowsMeant, ReadsOnly};
ghost use Rattle.olc_seek.specs.inner.Sought.{IsFound};

use node_table::tree_node::TreeNode;
use olc_descend::looking::child_at;
use olc_state::cleanup::{Cleanup, Seek, Tidy};
use olc_state::stage::{Path, Spot, Stage, Task};
use olc_state::stepped::{Stepped, forgets, going, has_word, node_at, report};
use olc_state::store::Store;
use olc_state::tail::NodePair;
use spec_node::child::ChildRef;
use spec_olc::payload::HasMeaning;
use spec_olc::types::Kind;

/// What a call that cleans up finds at a node on its key's path.
#[derive(Clone, Copy)]
pub enum Found {
    /// The node that it looks for, with its parent.
    Here(NodePair),
    /// A node under the key's byte: it goes down to that one.
    Below(usize),
    /// No node to clean up.
    Nothing,
}

/// Check of the current node after a Read.
pub(crate) fn check<P: HasMeaning>(
    store: &Store<P>,
    pin: u64,
    task: &mut Task<P>,
    cleanup: Cleanup,
    path: Path,
) -> Stepped<P>
    requires placed { IsPlaced (meant_table P.meaning store.now) store.now.root }
    requires facts { KnowsMeant P.always_shared P.same_meaning P.meaning store.now pin
        (record { stage = Stage.Seek cleanup (Seek.Check path); task = task.old }) }
    ensures { (env : Env P) → ReadsOnly P.always_shared P.same_meaning P.meaning store.now pin
        (record { stage = Stage.Seek cleanup (Seek.Check path); task = task.old }) env
        (record { stage = result.stage; task = task.new }) result.report result.outcome }
{
    let slot = path.here.slot;
    let node = node_at(store, slot);
    if !has_word(node, path.here) {
        let report = report(Kind::Check, slot, 0, false);
        return forgets(task, Stage::Finish, report);
    }
    let report = report(Kind::Check, slot, 0, true);
    match find(&node.node, task.outline.key(), cleanup.length, path) {
        Found::Here(pair) => going(Stage::Tidy(cleanup, Tidy::UpgradeAbove(pair)), report),
        Found::Below(slot) => going(Stage::Seek(cleanup, Seek::TakeBelow(path, slot)), report),
        Found::Nothing => going(Stage::Finish, report),
    }
}

// What the call finds, if it looks for the node whose prefix has this length. The root stays as it is.
fn find<P: Drop>(node: &TreeNode<P>, key: u64, length: usize, path: Path) -> Found
    ensures { IsFound node.now (bytes_of key) length path result }
{
    if node.base().prefix().len() >= length {
        return match path.above {
            Some(above) => Found::Here(NodePair {
                above,
                here: path.here,
            }),
            None => Found::Nothing,
        };
    }
    match child_at(node, key) {
        Some(ChildRef::Node(slot)) => Found::Below(slot),
        _ => Found::Nothing,
    }
}

/// Check of the parent of the child that was taken.
pub(crate) fn check_above<P: HasMeaning>(
    store: &Store<P>,
    pin: u64,
    task: &mut Task<P>,
    cleanup: Cleanup,
    path: Path,
    below: Spot,
    fits: bool,
) -> Stepped<P>
    requires placed { IsPlaced (meant_table P.meaning store.now) store.now.root }
    requires facts { KnowsMeant P.always_shared P.same_meaning P.meaning store.now pin
        (record { stage = Stage.Seek cleanup (Seek.CheckAbove path below fits); task = task.old }) }
    ensures { (env : Env P) → ReadsOnly P.always_shared P.same_meaning P.meaning store.now pin
        (record { stage = Stage.Seek cleanup (Seek.CheckAbove path below fits); task = task.old }) env
        (record { stage = result.stage; task = task.new }) result.report result.outcome }
{
    let slot = path.here.slot;
    if !has_word(node_at(store, slot), path.here) {
        let report = report(Kind::Check, slot, 0, false);
        return forgets(task, Stage::Finish, report);
    }
    let report = report(Kind::Check, slot, 0, true);
    if fits {
        let above = Some(path.here);
        let next = Seek::Read(Path { above, here: below });
        going(Stage::Seek(cleanup, next), report)
    } else {
        going(Stage::Finish, report)
    }
}
