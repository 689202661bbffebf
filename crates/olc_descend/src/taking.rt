//! Take: the word of the root, or of the node that was read, which is remembered if it is free.
//!
//! Tested in `test_olc` and `tools/dev/try-schedules`.

ghost use Rattle.std.specs.Prelude.{◌↔◌, IsTrue};
ghost use Rattle.spec_node.specs.Key.{Begins};
ghost use Rattle.spec_olc.specs.Calls.{bytes_of};
ghost use Rattle.spec_olc.specs.declared.types.Env.{Env};
ghost use Rattle.olc_state.specs.inner.Tables.{IsPlaced};
ghost use Rattle.olc_state.specs.inner.Meant.{meant_table};
ghost use Rattle.olc_descend.specs.inner.Reads.{KnowsMeant, ReadsOnly};

use node_table::tree_node::TreeNode;
use olc_state::stage::{Path, Spot, Stage, Task};
use olc_state::stepped::{Stepped, back, going, node_at, report};
use olc_state::store::Store;
use spec_olc::payload::HasMeaning;
use spec_olc::types::Kind;

/// Take of the root.
pub fn take_root<P: HasMeaning>(store: &Store<P>, pin: u64, task: &mut Task<P>) -> Stepped<P>
    requires placed { IsPlaced (meant_table P.meaning store.now) store.now.root }
    requires facts { KnowsMeant P.always_shared P.same_meaning P.meaning store.now pin
        (record { stage = Stage.TakeRoot; task = task.old }) }
    ensures reads { (env : Env P) → ReadsOnly P.always_shared P.same_meaning P.meaning store.now pin
        (record { stage = Stage.TakeRoot; task = task.old }) env
        (record { stage = result.stage; task = task.new }) result.report result.outcome }
{
    let slot = store.root;
    let word = node_at(store, slot).word;
    if word.is_free() {
        let here = Spot {
            slot,
            word: word.number(),
        };
        let report = report(Kind::Take, slot, word.number(), true);
        going(Stage::Read(Path { above: None, here }), report)
    } else {
        let report = report(Kind::Take, slot, word.number(), false);
        back(task, report)
    }
}

/// Take of the child that was read.
pub fn take_below<P: HasMeaning>(
    store: &Store<P>,
    pin: u64,
    task: &mut Task<P>,
    path: Path,
    slot: usize,
) -> Stepped<P>
    requires placed { IsPlaced (meant_table P.meaning store.now) store.now.root }
    requires facts { KnowsMeant P.always_shared P.same_meaning P.meaning store.now pin
        (record { stage = Stage.TakeBelow path slot; task = task.old }) }
    ensures reads { (env : Env P) → ReadsOnly P.always_shared P.same_meaning P.meaning store.now pin
        (record { stage = Stage.TakeBelow path slot; task = task.old }) env
        (record { stage = result.stage; task = task.new }) result.report result.outcome }
{
    let node = node_at(store, slot);
    let word = node.word;
    if word.is_free() {
        let fits = is_on_path(&node.node, task.outline.key());
        let below = Spot {
            slot,
            word: word.number(),
        };
        let report = report(Kind::Take, slot, word.number(), true);
        going(Stage::CheckAbove(path, below, fits), report)
    } else {
        let report = report(Kind::Take, slot, word.number(), false);
        back(task, report)
    }
}

/// Whether a node's prefix begins the key.
pub fn is_on_path<P: Drop>(node: &TreeNode<P>, key: u64) -> bool
    ensures { IsTrue result ↔ Begins node.now.prefix (bytes_of key) }
{
    let bytes = key.to_be_bytes();
    begins(node.base().prefix(), &bytes)
}

// Whether the bytes begin with the prefix.
fn begins(prefix: &[u8], bytes: &[u8]) -> bool
    ensures { IsTrue result ↔ Begins prefix.now bytes.now }
{
    bytes.starts_with(prefix)
}
