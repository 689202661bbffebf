//! What comes of an event: a line, or nothing.
//!
//! Tested in `test_serve` and `examples/schedules/`.

ghost use Rattle.std.specs.Prelude.{◌≡◌, ◌++◌, ◌+◌, ◌≤◌, length};
ghost use Rattle.std.specs.List.{flat_map};
ghost use Rattle.spec_text.specs.Lines.{ended};
ghost use Rattle.spec_text.specs.Texts.{ok_text, reply_text, outcome_texts, event_texts};

use spec_olc::trace::{Decision, Line};
use spec_olc::types::{Event, Op, Outcome, Reply};
use text_lines::pending::Pending;

/// Adds the text of an event: a line, or nothing.
pub(crate) fn add_event(
    pending: &mut Pending,
    event: &Event<u64>,
    line: &Line,
    decided: &[Decision],
)
    requires { length pending.old + 96 ≤ 8192 }
    ensures { pending.new
        ≡ pending.old ++ flat_map ended (event_texts event.now line.now decided.now) }
{
    match line {
        Line::Skipped => pending.add(b"skipped\n"),
        Line::Done(_, outcome, _) => match event {
            Event::Start(_, _) => {}
            Event::Step(id, _) => add_outcome(pending, *id, outcome, decided),
            Event::Reclaim(slot) => {
                pending.add(b"reclaimed ");
                pending.add_number(*slot as u64);
                pending.add(b"\n");
            }
        },
    }
}

// Adds the text of a step of a call: a line, or nothing.
fn add_outcome(pending: &mut Pending, id: u64, outcome: &Outcome<u64>, decided: &[Decision])
    requires { length pending.old + 96 ≤ 8192 }
    ensures { pending.new
        ≡ pending.old ++ flat_map ended (outcome_texts id outcome.now decided.now) }
{
    match outcome {
        Outcome::Decided(reply) => {
            let Some(decision) = decided.first() else {
                return;
            };
            pending.add_number(id);
            pending.add(b" ");
            add_reply(pending, &decision.op, reply);
            pending.add(b"\n");
        }
        Outcome::Pair(key, value) => {
            pending.add_number(id);
            pending.add(b" pair ");
            pending.add_number(*key);
            pending.add(b" ");
            pending.add_number(*value);
            pending.add(b"\n");
        }
        Outcome::Refused => {
            pending.add_number(id);
            pending.add(b" refused\n");
        }
        _ => {}
    }
}

/// Adds a reply as `congee run` writes it.
pub(crate) fn add_reply(pending: &mut Pending, op: &Op<u64>, reply: &Reply<u64>)
    requires { length pending.old + 64 ≤ 8192 }
    ensures text { pending.new ≡ pending.old ++ reply_text op.now reply.now }
    ensures short { length pending.new ≤ length pending.old + 48 }
{
    match reply {
        Reply::Old(before) => {
            add_ok(pending, op);
            pending.add_value(*before);
        }
        Reply::Computed(both) => pending.add_computed(*both),
        Reply::Exchanged(exchange) => pending.add_exchanged(*exchange),
    }
}

// Adds `ok`, if the call may insert a key, and so may be refused.
fn add_ok(pending: &mut Pending, op: &Op<u64>)
    requires { length pending.old + 3 ≤ 8192 }
    ensures text { pending.new ≡ pending.old ++ ok_text op.now }
    ensures short { length pending.new ≤ length pending.old + 3 }
{
    match op {
        Op::Insert(..) => pending.add(b"ok "),
        Op::ComputeOrInsert(..) => pending.add(b"ok "),
        _ => {}
    }
}
