//! What an event leaves of its call, which is changed in place: it goes on, goes back to the root, or has no work left.
//!
//! Tested in `test_olc` and `tools/dev/try-schedules`.

ghost use Rattle.std.specs.Prelude.{◌≡◌, ◌↔◌, IsTrue, Some, None, IsSome};
ghost use Rattle.spec_olc.specs.Kinds.{report_of};
ghost use Rattle.olc_state.specs.inner.Effects.{both_in, reply_with};
ghost use Rattle.olc_state.specs.inner.Meant.{meant_table, stands_as};
ghost use Rattle.olc_state.specs.inner.Tasks.{closed, restarted};

use crate::stage::{Path, Spot, Stage, Stored, Task};
use crate::store::Store;
use crate::tail::Case;
use olc_words::lock::Word64;
use spec_olc::payload::HasMeaning;
use spec_olc::types::{Asking, Kind, Op, Outcome, Progress, Reply, Report, Seen};

/// An event of a call: what the call does next, and what the event reports.
#[derive(Drop)]
pub struct Stepped<P> {
    pub stage: Stage,
    pub report: Report,
    pub outcome: Outcome<P>,
}

/// What a Take, a Check or a Read of a slot reports.
pub fn report(kind: Kind, slot: usize, word: u64, ok: bool) -> Report
    ensures { result ≡ report_of kind (Some slot) word ok }
{
    Report {
        kind,
        slot: Some(slot),
        word,
        ok,
    }
}

/// The node in a slot that has one.
pub fn node_at<P: HasMeaning>(store: &Store<P>, slot: usize) -> &Stored<P>
    requires { IsSome (meant_table P.meaning store.now slot) }
    ensures { stands_as P.meaning store.now slot result.now }
{
    let Some(node) = store.nodes.get(slot) else {
        unreachable!()
    };
    node
}

/// Whether a node's word is the remembered one.
pub fn has_word<P>(node: &Stored<P>, spot: Spot) -> bool
    ensures { IsTrue result ↔ (node.now.word ≡ spot.word) }
{
    node.word.matches(Word64::from_number(spot.word))
}

/// An event after which the call goes on.
pub fn going<P>(stage: Stage, report: Report) -> Stepped<P>
    ensures { result ≡ record { stage = stage; report = report; outcome = Outcome.Going } }
{
    Stepped {
        stage,
        report,
        outcome: Outcome::Going,
    }
}

/// An event after which the call goes on from this stage, and has forgotten what it has seen and asked.
pub fn forgets<P: Drop>(task: &mut Task<P>, stage: Stage, report: Report) -> Stepped<P>
    ensures task { task.new ≡ restarted task.old }
    ensures event { result ≡ record { stage = stage; report = report; outcome = Outcome.Going } }
{
    task.last = None;
    task.spare = None;
    task.question = None;
    task.asking = Asking::Fresh;
    going(stage, report)
}

/// An event after which the call goes back to the root.
pub fn back<P: Drop>(task: &mut Task<P>, report: Report) -> Stepped<P>
    ensures task { task.new ≡ restarted task.old }
    ensures event { result ≡ record {
      stage = Stage.TakeRoot;
      report = report;
      outcome = Outcome.Going;
    } }
{
    forgets(task, Stage::TakeRoot, report)
}

/// A Read after which the call goes on to its Check.
pub fn saw<P: Drop>(
    task: &mut Task<P>,
    path: Path,
    seen: Seen<P>,
    spare: Option<P>,
    question: Option<P>,
    report: Report,
) -> Stepped<P>
    ensures task { task.new ≡ record task.old {
      last = Some seen;
      spare = spare;
      question = question;
    } }
    ensures event { result ≡ record {
      stage = Stage.Check path;
      report = report;
      outcome = Outcome.Going;
    } }
{
    task.last = Some(seen);
    task.spare = spare;
    task.question = question;
    going(Stage::Check(path), report)
}

/// A Check at which the call's closure is called with `question`; the call keeps `old`, another share of it.
pub fn asks<P: Drop>(
    task: &mut Task<P>,
    case: Case,
    report: Report,
    question: Option<P>,
    old: Option<P>,
) -> Stepped<P>
    ensures task { task.new ≡ record task.old {
      spare = None;
      question = None;
      asking = Asking.Wants old;
    } }
    ensures event { result ≡ record {
      stage = Stage.Answer case;
      report = report;
      outcome = Outcome.Ask question;
    } }
{
    task.spare = None;
    task.question = None;
    task.asking = Asking::Wants(old);
    Stepped {
        stage: Stage::Answer(case),
        report,
        outcome: Outcome::Ask(question),
    }
}

/// A call without work only unlocks what it holds, and ends.
pub fn close<P: Drop>(task: &mut Task<P>, progress: Progress)
    ensures { task.new ≡ closed progress task.old }
{
    task.op = None;
    task.spare = None;
    task.question = None;
    task.returns = None;
    task.asking = Asking::Fresh;
    task.progress = progress;
}

/// An event that decides a call.
pub fn decided<P: Drop>(
    task: &mut Task<P>,
    stage: Stage,
    report: Report,
    reply: Reply<P>,
) -> Stepped<P>
    ensures task { task.new ≡ closed Progress.Decided task.old }
    ensures event { result ≡ record {
      stage = stage;
      report = report;
      outcome = Outcome.Decided reply;
    } }
{
    close(task, Progress::Decided);
    Stepped {
        stage,
        report,
        outcome: Outcome::Decided(reply),
    }
}

/// An event that is refused: the call only ends, from this stage.
pub fn refused<P: Drop>(task: &mut Task<P>, stage: Stage, report: Report) -> Stepped<P>
    ensures task { task.new ≡ closed Progress.Refused task.old }
    ensures event { result ≡ record {
      stage = stage;
      report = report;
      outcome = Outcome.Refused;
    } }
{
    close(task, Progress::Refused);
    Stepped {
        stage,
        report,
        outcome: Outcome::Refused,
    }
}

// The previous value of the key and the closure's answer.
fn both_in<P: Drop>(before: Option<P>, answer: Option<P>) -> Option<(P, Option<P>)>
    ensures { result ≡ both_in before answer }
{
    match before {
        None => None,
        Some(old) => Some((old, answer)),
    }
}

/// The reply to a call of this kind that changes the value of its key: `before` is the previous value, `returns` the
/// stored value if the reply returns it.
pub fn reply_with<P: Drop>(outline: &Op<()>, before: Option<P>, returns: Option<P>) -> Reply<P>
    ensures { result ≡ reply_with outline.now before returns }
{
    match outline {
        Op::ComputeIfPresent(_) => Reply::Computed(both_in(before, returns)),
        Op::CompareExchange(..) => Reply::Exchanged(Ok(returns)),
        _ => Reply::Old(before),
    }
}

/// An event that decides a call which has changed the value of its key, or whose new value is already the current one.
pub fn changed<P: Drop>(
    task: &mut Task<P>,
    stage: Stage,
    report: Report,
    before: Option<P>,
) -> Stepped<P>
    ensures task { task.new ≡ closed Progress.Decided task.old }
    ensures event { result ≡ record {
      stage = stage;
      report = report;
      outcome = Outcome.Decided (reply_with task.old.outline before task.old.returns);
    } }
{
    let returns = task.returns.take();
    let reply = reply_with(&task.outline, before, returns);
    decided(task, stage, report, reply)
}
