//! Read: the child under the key's byte of the current node, with one more share of a payload.
//!
//! Tested in `test_olc` and `tools/dev/try-schedules`.

ghost use Rattle.std.specs.Prelude.{◌≡◌, ◌↔◌, IsTrue, Some, None, IsOk, IfOk, IfErr, IfSome, IfNone, length};
ghost use Rattle.spec_map.specs.Map.{lookup};
ghost use Rattle.spec_node.specs.Key.{next_byte};
ghost use Rattle.spec_node.specs.TableNode.{seen};
ghost use Rattle.spec_olc.specs.Calls.{IsPoint, bytes_of};
ghost use Rattle.spec_olc.specs.Local.{SharesNone, payload_in};
ghost use Rattle.spec_olc.specs.Meaning.{in_some, child_of, seen_of, outcome_of};
ghost use Rattle.spec_olc.specs.declared.types.Env.{Env};
ghost use Rattle.olc_state.specs.inner.Effects.{HasClosure};
ghost use Rattle.olc_state.specs.inner.Tables.{IsPlaced};
ghost use Rattle.olc_state.specs.inner.Meant.{meant_node, meant_record, meant_table, meant_task};
ghost use Rattle.olc_descend.specs.inner.Looked.{HasPayload, IsFull, IsLooking, IsUnseen, IsWholeRead};
ghost use Rattle.olc_descend.specs.inner.Reads.{KnowsMeant, ReadsOnly};

use node_table::tree_node::TreeNode;
use olc_state::stage::{Path, Stage, Task};
use olc_state::stepped::{Stepped, has_word, node_at, refused, report, saw};
use olc_state::store::Store;
use spec_map::error::OOMError;
use spec_node::child::{Child, ChildRef};
use spec_olc::payload::HasMeaning;
use spec_olc::types::{Kind, Op, Report, Seen};

/// Read of the current node by a point call, which reports `torn` if the node's word isn't the remembered one.
pub fn read<P: HasMeaning>(
    store: &Store<P>,
    pin: u64,
    task: &mut Task<P>,
    path: Path,
    torn: Seen<P>,
) -> Stepped<P>
    requires placed { IsPlaced (meant_table P.meaning store.now) store.now.root }
    requires facts { KnowsMeant P.always_shared P.same_meaning P.meaning store.now pin
        (record { stage = Stage.Read path; task = task.old }) }
    requires point { IsPoint task.old.outline }
    ensures reads { (env : Env P) → env.torn ≡ torn
        → ReadsOnly P.always_shared P.same_meaning P.meaning store.now pin
        (record { stage = Stage.Read path; task = task.old }) env
        (record { stage = result.stage; task = task.new }) result.report result.outcome }
{
    let slot = path.here.slot;
    let node = node_at(store, slot);
    let report = report(Kind::Read, slot, 0, true);
    if has_word(node, path.here) {
        read_whole(&node.node, task, path, torn, report)
    } else {
        saw(task, path, torn, None, None, report)
    }
}

// A Read of a node whose word is the remembered one; what a torn Read would have reported is dropped.
fn read_whole<P: HasMeaning>(
    node: &TreeNode<P>,
    task: &mut Task<P>,
    path: Path,
    _torn: Seen<P>,
    report: Report,
) -> Stepped<P>
    requires { IsPoint task.old.outline }
    ensures report { result.report ≡ report }
    ensures reports { IsWholeRead P.always_shared P.same_meaning (meant_node P.meaning node.now) path
        (meant_task P.meaning task.old) (meant_record P.meaning (record { stage = result.stage; task = task.new }))
        (outcome_of P.meaning result.outcome) }
{
    match look(node, &task.outline) {
        Some(found) => saw(task, path, found.seen, found.spare, found.question, report),
        None => refused(task, Stage::Finish, report),
    }
}

/// What a Read found, and, if that is a payload, one more share of it, and one for a closure.
#[derive(Drop)]
pub struct Looked<P> {
    pub seen: Seen<P>,
    pub spare: Option<P>,
    pub question: Option<P>,
}

// The child under the key's byte of a node. If a share is refused, a call that needs none reports no child, and
// another call gets `None`.
fn look<P: HasMeaning>(node: &TreeNode<P>, outline: &Op<()>) -> Option<Looked<P>>
    requires { IsPoint outline.now }
    ensures some { IfSome result (λ x. IsLooking P.always_shared P.same_meaning (meant_node P.meaning node.now)
        outline.now (seen_of P.meaning x.seen) (in_some P.meaning x.spare)
        (in_some P.meaning x.question)) }
    ensures none { IfNone result
        (IsUnseen P.always_shared P.same_meaning (meant_node P.meaning node.now) outline.now) }
{
    match shared(child_at(node, outline.key()), has_closure(outline)) {
        Ok(shares) => Some(noted(node, shares)),
        Err(_) => {
            if shares_none(outline) {
                Some(noted(
                    node,
                    Shares {
                        child: None,
                        spare: None,
                        question: None,
                    },
                ))
            } else {
                None
            }
        }
    }
}

/// The child under a key's byte of a node.
pub fn child_at<'a, P: Drop>(node: &'a TreeNode<P>, key: u64) -> Option<ChildRef<'a, P>>
    ensures { seen result ≡ lookup node.now.children (next_byte node.now.prefix (bytes_of key)) }
{
    let bytes = key.to_be_bytes();
    let byte = bytes[node.base().prefix().len()];
    node.get_child(byte)
}

/// A child, with the shares of its payload that a call keeps.
#[derive(Drop)]
pub struct Shares<P> {
    pub child: Option<Child<P>>,
    pub spare: Option<P>,
    pub question: Option<P>,
}

/// The child and one more share of its payload, and a third one if the call has a closure.
pub fn shared<P: HasMeaning>(
    child: Option<ChildRef<'_, P>>,
    asks: bool,
) -> Result<Shares<P>, OOMError>
    ensures child { IfOk result (λ x. in_some (child_of P.meaning) x.child
        ≡ in_some (child_of P.meaning) (seen child.entry)) }
    ensures spare { IfOk result (λ x. in_some P.meaning x.spare
        ≡ payload_in (in_some (child_of P.meaning) (seen child.entry))) }
    ensures question { IfOk result (λ x. IsTrue asks → in_some P.meaning x.question
        ≡ payload_in (in_some (child_of P.meaning) (seen child.entry))) }
    ensures payload { IfErr result (λ e. HasPayload (seen child.entry)) }
    ensures granted { P.always_shared → IsOk result }
{
    match child {
        None => Ok(Shares {
            child: None,
            spare: None,
            question: None,
        }),
        Some(ChildRef::Node(slot)) => Ok(Shares {
            child: Some(Child::Node(slot)),
            spare: None,
            question: None,
        }),
        Some(ChildRef::Payload(payload)) => {
            let shown = payload.share()?;
            let spare = payload.share()?;
            let question = share_if(payload, asks)?;
            Ok(Shares {
                child: Some(Child::Payload(shown)),
                spare: Some(spare),
                question,
            })
        }
    }
}

// A share of a payload, if one is asked for.
fn share_if<P: HasMeaning>(payload: &P, asks: bool) -> Result<Option<P>, OOMError>
    ensures meaning { IfOk result (λ x. IsTrue asks → in_some P.meaning x ≡ Some (P.meaning payload.now)) }
    ensures granted { P.always_shared → IsOk result }
{
    if asks {
        Ok(Some(payload.share()?))
    } else {
        Ok(None)
    }
}

/// The count of a node's children, and whether it is full, beside what was found.
pub fn noted<P: Drop>(node: &TreeNode<P>, shares: Shares<P>) -> Looked<P>
    ensures child { result.seen.child ≡ shares.child }
    ensures spare { result.spare ≡ shares.spare }
    ensures question { result.question ≡ shares.question }
    ensures count { result.seen.count ≡ length node.now.children }
    ensures full { IsFull node.now.form (length node.now.children) result.seen.full }
{
    let Shares {
        child,
        spare,
        question,
    } = shares;
    let seen = Seen {
        child,
        count: node.base().value_count(),
        full: node.is_full(),
    };
    Looked {
        seen,
        spare,
        question,
    }
}

// Whether a call of this kind has a closure.
fn has_closure(outline: &Op<()>) -> bool
    ensures { IsTrue result ↔ HasClosure outline.now }
{
    match outline {
        Op::ComputeIfPresent(_) | Op::ComputeOrInsert(..) => true,
        _ => false,
    }
}

// Whether a call of this kind shares no payload.
fn shares_none(outline: &Op<()>) -> bool
    ensures { IsTrue result ↔ SharesNone outline.now None }
{
    match outline {
        Op::Insert(..) => true,
        Op::Remove(_) => true,
        _ => false,
    }
}
