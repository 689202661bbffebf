//! Read: the child under the key's byte of the current node. If a share of a payload is refused, it reports no child,
//! as a call that cleans up doesn't look at payloads.
//!
//! Tested in `tools/dev/try-schedules`.

ghost use Rattle.std.specs.Prelude.{◌≡◌, Some};
ghost use Rattle.spec_olc.specs.Calls.{bytes_of};
ghost use Rattle.spec_olc.specs.Meaning.{seen_of};
ghost use Rattle.spec_olc.specs.declared.types.Env.{Env};
ghost use Rattle.olc_state.specs.inner.Meant.{meant_node, meant_table};
ghost use Rattle.olc_state.specs.inner.Tables.{IsPlaced};
ghost use Rattle.olc_descend.specs.inner.Reads.{KnowsMeant, ReadsOnly};
ghost use Rattle.olc_seek.specs.inner.Sought.{IsSought};

use node_table::tree_node::TreeNode;
use olc_descend::looking::{Looked, Shares, child_at, noted, shared};
use olc_state::cleanup::{Cleanup, Seek};
use olc_state::stage::{Path, Stage, Task};
use olc_state::stepped::{Stepped, going, has_word, node_at, report};
use olc_state::store::Store;
use spec_olc::payload::HasMeaning;
use spec_olc::types::{Kind, Outcome, Report, Seen};

/// Read of the current node, which reports `torn` if the node's word isn't the remembered one.
pub(crate) fn read<P: HasMeaning>(
    store: &Store<P>,
    pin: u64,
    task: &mut Task<P>,
    cleanup: Cleanup,
    path: Path,
    torn: Seen<P>,
) -> Stepped<P>
    requires placed { IsPlaced (meant_table P.meaning store.now) store.now.root }
    requires facts { KnowsMeant P.always_shared P.same_meaning P.meaning store.now pin
        (record { stage = Stage.Seek cleanup (Seek.Read path); task = task.old }) }
    ensures { (env : Env P) → env.torn ≡ torn
        → ReadsOnly P.always_shared P.same_meaning P.meaning store.now pin
        (record { stage = Stage.Seek cleanup (Seek.Read path); task = task.old }) env
        (record { stage = result.stage; task = task.new }) result.report result.outcome }
{
    let slot = path.here.slot;
    let node = node_at(store, slot);
    let report = report(Kind::Read, slot, 0, true);
    let next = Stage::Seek(cleanup, Seek::Check(path));
    if has_word(node, path.here) {
        let seen = look(&node.node, task.outline.key(), torn);
        sees(task, next, seen, report)
    } else {
        sees(task, next, torn, report)
    }
}

// A Read after which the call goes on from this stage.
fn sees<P: Drop>(task: &mut Task<P>, next: Stage, seen: Seen<P>, report: Report) -> Stepped<P>
    ensures task { task.new ≡ record task.old { last = Some seen } }
    ensures event { result ≡ record { stage = next; report = report; outcome = Outcome.Going } }
{
    task.last = Some(seen);
    going(next, report)
}

// What a Read of a node reports whose word is the remembered one; what a torn Read would have reported is dropped.
fn look<P: HasMeaning>(node: &TreeNode<P>, key: u64, _torn: Seen<P>) -> Seen<P>
    ensures { IsSought P.always_shared (meant_node P.meaning node.now) (bytes_of key)
        (seen_of P.meaning result) }
{
    match shared(child_at(node, key), false) {
        Ok(shares) => seen_in(noted(node, shares)),
        Err(_) => seen_in(noted(
            node,
            Shares {
                child: None,
                spare: None,
                question: None,
            },
        )),
    }
}

// What was found, without the shares that only other calls keep.
fn seen_in<P: Drop>(found: Looked<P>) -> Seen<P>
    ensures { result ≡ found.seen }
{
    let Looked {
        seen,
        spare: _,
        question: _,
    } = found;
    seen
}
