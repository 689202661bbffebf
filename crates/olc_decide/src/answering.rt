//! Answer: a call takes what its closure answered; and the Check that decides it if the answer is the current value.
//!
//! Tested in `tools/dev/try-schedules`.

ghost use Rattle.std.specs.Prelude.{◌≡◌, Option, Some, None, IfErr, IfOk, IsOk, IsSome, option_copied, true};
ghost use Rattle.spec_olc.specs.Kinds.{SharesAnswer, report_of};
ghost use Rattle.spec_olc.specs.Meaning.{asking_of, in_some, op_of};
ghost use Rattle.spec_olc.specs.declared.types.Env.{Env};
ghost use Rattle.olc_state.specs.inner.Meant.{meant_table, meant_task};
ghost use Rattle.olc_state.specs.inner.Tables.{IsPlaced};
ghost use Rattle.olc_descend.specs.inner.Reads.{KnowsMeant, ReadsOnly};
ghost use Rattle.olc_decide.specs.inner.Judged.{IsAfterAnswer, IsAgainst, IsJudgedAnswer, otherwise_of};

use crate::finding::tail_for;
use crate::presence::{Judged, path_to, removing};
use olc_state::stage::{Spot, Stage, Task};
use olc_state::stepped::{Stepped, back, changed, going, has_word, node_at, refused, report};
use olc_state::store::Store;
use olc_state::tail::{Case, Small, Tail};
use spec_map::error::OOMError;
use spec_olc::payload::HasMeaning;
use spec_olc::types::{Asking, Kind, Op, Outcome, Report};
use std::mem;

/// Takes the closure's answer, by which the call knows whether it has to write. The reply to a ComputeIfPresent
/// contains the answer, so that is shared.
pub(crate) fn answer<P: HasMeaning>(
    store: &Store<P>,
    pin: u64,
    task: &mut Task<P>,
    case: Case,
    answer: Option<P>,
) -> Stepped<P>
    requires placed { IsPlaced (meant_table P.meaning store.now) store.now.root }
    requires facts { KnowsMeant P.always_shared P.same_meaning P.meaning store.now pin
        (record { stage = Stage.Answer case; task = task.old }) }
    ensures reads { (env : Env P) → env.answer ≡ answer
        → ReadsOnly P.always_shared P.same_meaning P.meaning store.now pin
        (record { stage = Stage.Answer case; task = task.old }) env
        (record { stage = result.stage; task = task.new }) result.report result.outcome }
{
    let Ok(returns) = returned(task, &answer) else {
        return refused(task, Stage::Finish, answered());
    };
    let stage = after_answer(task, case, &answer);
    given(task, stage, answer, returns)
}

// What an Answer reports.
fn answered() -> Report
    ensures { result ≡ report_of Kind.Answer None 0 true }
{
    Report {
        kind: Kind::Answer,
        slot: None,
        word: 0,
        ok: true,
    }
}

// A share of the answer, if the reply contains it.
fn returned<P: HasMeaning>(task: &Task<P>, answer: &Option<P>) -> Result<Option<P>, OOMError>
    ensures kept { IfOk result (λ returns. SharesAnswer task.now.outline
        → in_some P.meaning returns ≡ in_some P.meaning answer.now) }
    ensures shares { IfErr result (λ e. SharesAnswer task.now.outline) }
    ensures some { IfErr result (λ e. IsSome answer.now) }
    ensures granted { P.always_shared → IsOk result }
{
    match (&task.outline, answer) {
        (Op::ComputeIfPresent(_), Some(answer)) => Ok(Some(answer.share()?)),
        _ => Ok(None),
    }
}

// The call with its closure's answer.
fn given<P: Drop>(
    task: &mut Task<P>,
    stage: Stage,
    answer: Option<P>,
    returns: Option<P>,
) -> Stepped<P>
    requires { (old : Option P) × (task.old.asking ≡ Asking.Wants old) }
    ensures task { (old : Option P) → task.old.asking ≡ Asking.Wants old
        → task.new ≡ record task.old { returns = returns; asking = Asking.Given old answer } }
    ensures event { result ≡ record {
      stage = stage;
      report = report_of Kind.Answer None 0 true;
      outcome = Outcome.Going;
    } }
{
    let Asking::Wants(old) = mem::replace(&mut task.asking, Asking::Fresh) else {
        unreachable!()
    };
    task.returns = returns;
    task.asking = Asking::Given(old, answer);
    going(stage, answered())
}

// What comes after an answer.
fn after_answer<P: HasMeaning>(task: &Task<P>, case: Case, answer: &Option<P>) -> Stage
    ensures { IsAfterAnswer P.same_meaning (meant_task P.meaning task.now) case (in_some P.meaning answer.now)
        result }
{
    let Case::Present(pair, only) = case else {
        return Stage::Tail(tail_for(case));
    };
    match judge(task, answer) {
        Judged::Same => Stage::Confirm(pair.here),
        Judged::Removes => Stage::Tail(removing(pair, only)),
        _ => Stage::Tail(Tail::Upgrade(path_to(pair), Small::Entry)),
    }
}

// What a call does with the payload that its closure was asked with.
fn judge<P: HasMeaning>(task: &Task<P>, answer: &Option<P>) -> Judged
    ensures { IsJudgedAnswer P.same_meaning (in_some (op_of P.meaning) task.now.op)
        (asking_of P.meaning task.now.asking) (in_some P.meaning answer.now) result }
{
    match answer {
        Some(value) => against(&task.asking, value),
        None => match otherwise(&task.op) {
            Some(value) => against(&task.asking, value),
            None => Judged::Removes,
        },
    }
}

// What a call stores if its closure returns `None`.
fn otherwise<P>(op: &Option<Op<P>>) -> Option<&P>
    ensures { option_copied result ≡ otherwise_of op.now }
{
    match op {
        Some(Op::ComputeOrInsert(_, value)) => Some(value),
        _ => None,
    }
}

// Whether a value is what the closure was asked with.
fn against<P: HasMeaning>(asking: &Asking<P>, value: &P) -> Judged
    ensures { IsAgainst P.same_meaning (asking_of P.meaning asking.now) (P.meaning value.now) result }
{
    match asking {
        Asking::Wants(Some(old)) => {
            if value.same(old) {
                Judged::Same
            } else {
                Judged::Stores
            }
        }
        _ => Judged::Stores,
    }
}

/// Check of the node where the closure's answer is the current value already, which decides the call.
pub(crate) fn confirm<P: HasMeaning>(
    store: &Store<P>,
    pin: u64,
    task: &mut Task<P>,
    spot: Spot,
) -> Stepped<P>
    requires placed { IsPlaced (meant_table P.meaning store.now) store.now.root }
    requires facts { KnowsMeant P.always_shared P.same_meaning P.meaning store.now pin
        (record { stage = Stage.Confirm spot; task = task.old }) }
    ensures reads { (env : Env P) → ReadsOnly P.always_shared P.same_meaning P.meaning store.now pin
        (record { stage = Stage.Confirm spot; task = task.old }) env
        (record { stage = result.stage; task = task.new }) result.report result.outcome }
{
    let slot = spot.slot;
    if !has_word(node_at(store, slot), spot) {
        let report = report(Kind::Check, slot, 0, false);
        return back(task, report);
    }
    let report = report(Kind::Check, slot, 0, true);
    let before = asked(task);
    changed(task, Stage::Finish, report, before)
}

// What the closure was asked with, which is taken from the call.
fn asked<P: Drop>(task: &mut Task<P>) -> Option<P>
    ensures old { (old answer : Option P) → task.old.asking ≡ Asking.Given old answer
        → result ≡ old }
    ensures rest { task.new ≡ record task.old { asking = task.new.asking } }
{
    match mem::replace(&mut task.asking, Asking::Fresh) {
        Asking::Given(old, _answer) => old,
        _ => None,
    }
}
