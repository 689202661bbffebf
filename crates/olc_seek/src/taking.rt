//! Take: the word of the root, or of the node that was read, which is remembered if it is free. If it isn't, the call
//! cleans up no more.
//!
//! Tested in `tools/dev/try-schedules`.

ghost use Rattle.std.specs.Prelude.{◌↔◌, IsTrue};
ghost use Rattle.spec_olc.specs.Calls.{bytes_of};
ghost use Rattle.spec_olc.specs.declared.types.Env.{Env};
ghost use Rattle.olc_state.specs.inner.CleanupFacts.{ReachesTo};
ghost use Rattle.olc_state.specs.inner.Meant.{meant_table};
ghost use Rattle.olc_state.specs.inner.Tables.{IsPlaced};
ghost use Rattle.olc_descend.specs.inner.Reads.{KnowsMeant, ReadsOnly};

use node_table::tree_node::TreeNode;
use olc_descend::taking::is_on_path;
use olc_state::cleanup::{Cleanup, Seek};
use olc_state::stage::{Path, Spot, Stage, Task};
use olc_state::stepped::{Stepped, forgets, going, node_at, report};
use olc_state::store::Store;
use spec_olc::payload::HasMeaning;
use spec_olc::types::Kind;

/// Take of the root.
pub(crate) fn take_root<P: HasMeaning>(
    store: &Store<P>,
    pin: u64,
    task: &mut Task<P>,
    cleanup: Cleanup,
) -> Stepped<P>
    requires placed { IsPlaced (meant_table P.meaning store.now) store.now.root }
    requires facts { KnowsMeant P.always_shared P.same_meaning P.meaning store.now pin
        (record { stage = Stage.Seek cleanup Seek.TakeRoot; task = task.old }) }
    ensures { (env : Env P) → ReadsOnly P.always_shared P.same_meaning P.meaning store.now pin
        (record { stage = Stage.Seek cleanup Seek.TakeRoot; task = task.old }) env
        (record { stage = result.stage; task = task.new }) result.report result.outcome }
{
    let slot = store.root;
    let word = node_at(store, slot).word;
    if word.is_free() {
        let here = Spot {
            slot,
            word: word.number(),
        };
        let next = Seek::Read(Path { above: None, here });
        let report = report(Kind::Take, slot, word.number(), true);
        going(Stage::Seek(cleanup, next), report)
    } else {
        let report = report(Kind::Take, slot, word.number(), false);
        forgets(task, Stage::Finish, report)
    }
}

/// Take of the child that was read.
pub(crate) fn take_below<P: HasMeaning>(
    store: &Store<P>,
    pin: u64,
    task: &mut Task<P>,
    cleanup: Cleanup,
    path: Path,
    slot: usize,
) -> Stepped<P>
    requires placed { IsPlaced (meant_table P.meaning store.now) store.now.root }
    requires facts { KnowsMeant P.always_shared P.same_meaning P.meaning store.now pin
        (record { stage = Stage.Seek cleanup (Seek.TakeBelow path slot); task = task.old }) }
    ensures { (env : Env P) → ReadsOnly P.always_shared P.same_meaning P.meaning store.now pin
        (record { stage = Stage.Seek cleanup (Seek.TakeBelow path slot); task = task.old }) env
        (record { stage = result.stage; task = task.new }) result.report result.outcome }
{
    let node = node_at(store, slot);
    let word = node.word;
    if word.is_free() {
        let fits = leads_on(&node.node, task.outline.key(), cleanup.length);
        let below = Spot {
            slot,
            word: word.number(),
        };
        let next = Seek::CheckAbove(path, below, fits);
        let report = report(Kind::Take, slot, word.number(), true);
        going(Stage::Seek(cleanup, next), report)
    } else {
        let report = report(Kind::Take, slot, word.number(), false);
        forgets(task, Stage::Finish, report)
    }
}

// Whether a node's prefix begins the key, and isn't longer than the one that is looked for.
fn leads_on<P: Drop>(node: &TreeNode<P>, key: u64, length: usize) -> bool
    ensures { IsTrue result ↔ ReachesTo (bytes_of key) length node.now }
{
    node.base().prefix().len() <= length && is_on_path(node, key)
}
