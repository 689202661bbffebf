//! What a call stores: its own payload, or its closure's answer.
//!
//! Tested in `tools/dev/try-schedules` and `test_olc/refusals`.

ghost use Rattle.std.specs.Prelude.{◌≡◌, IfSome, Some};
ghost use Rattle.olc_state.specs.inner.Meant.{meant_task};
ghost use Rattle.olc_state.specs.inner.TailFacts.{stores};
ghost use Rattle.olc_write.specs.inner.Storing.{answered};

use olc_state::stage::Task;
use spec_olc::payload::HasMeaning;
use spec_olc::types::{Asking, Op};
use std::mem;

/// What a call stores, taken out of the call; none if it removes.
pub(crate) fn take_stored<P: Drop>(task: &mut Task<P>) -> Option<P>
    ensures value { result ≡ stores task.old }
    ensures rest { task.new ≡ record task.old { op = task.new.op; asking = task.new.asking } }
{
    match task.op.take() {
        Some(Op::Insert(_, value)) => Some(value),
        Some(Op::CompareExchange(_, _, new)) => new,
        Some(Op::ComputeOrInsert(_, otherwise)) => answered(task, Some(otherwise)),
        Some(_) => answered(task, None),
        None => None,
    }
}

// The closure's answer, or `otherwise` if that is none; none if the closure wasn't called.
fn answered<P: Drop>(task: &mut Task<P>, otherwise: Option<P>) -> Option<P>
    ensures value { result ≡ answered task.old.asking otherwise }
    ensures rest { task.new ≡ record task.old { asking = task.new.asking } }
{
    match mem::replace(&mut task.asking, Asking::Fresh) {
        Asking::Given(_, answer) => answer.or(otherwise),
        _ => None,
    }
}

/// A share of what a call stores; none if it stores nothing, or if the share is refused.
pub(crate) fn share_stored<P: HasMeaning>(task: &Task<P>) -> Option<P>
    ensures { IfSome result (λ payload. (v : P.Meaning)
        → stores (meant_task P.meaning task.now) ≡ Some v → P.meaning payload ≡ v) }
{
    let stored = match (&task.op, &task.asking) {
        (Some(Op::Insert(_, value)), _) => value,
        (Some(Op::CompareExchange(_, _, Some(new))), _) => new,
        (Some(Op::ComputeIfPresent(_)), Asking::Given(_, Some(answer))) => answer,
        (Some(Op::ComputeOrInsert(..)), Asking::Given(_, Some(answer))) => answer,
        (Some(Op::ComputeOrInsert(_, otherwise)), Asking::Given(_, None)) => otherwise,
        _ => return None,
    };
    match stored.share() {
        Ok(share) => Some(share),
        Err(_) => None,
    }
}
