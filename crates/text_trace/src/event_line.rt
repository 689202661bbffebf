//! The line of an event, with its fields.
//!
//! Tested in `test_serve` and `examples/schedules/`.

ghost use Rattle.std.specs.Prelude.{◌≡◌, ◌+◌, ◌≤◌, ◌∷◌, ◌++◌, length, codes, decimal};
ghost use Rattle.std.specs.List.{join_with_byte};
ghost use Rattle.spec_text.specs.Entry.{words_of_op, words_of_child};
ghost use Rattle.text_trace.specs.EventLine.{call_text, kind_text, slot_text, success_text, report_text, seen_text, found_text, outcome_text, details_text, event_line};

use crate::outcome::add_reply;
use spec_node::child::Child;
use spec_olc::trace::{Decision, Line};
use spec_olc::types::{Env, Event, Kind, Op, Outcome, Report, Seen};
use text_lines::pending::Pending;

/// Adds the line of an event, without its line feed; of `decided` the first is what it decides, if it does. At most 224
/// bytes.
pub(crate) fn add_event_line(
    pending: &mut Pending,
    number: u64,
    event: &Event<u64>,
    line: &Line,
    decided: &[Decision],
)
    requires { length pending.old + 256 ≤ 8192 }
    ensures text { pending.new ≡ pending.old ++ event_line number event.now line.now decided.now }
    ensures short { length pending.new ≤ length pending.old + 224 }
{
    pending.add_number(number);
    pending.add(b" ");
    add_call(pending, event);
    pending.add(b" ");
    add_line_report(pending, event, line);
    add_details(pending, event, line, decided);
}

// Adds the number of the event's call, or a dash.
fn add_call(pending: &mut Pending, event: &Event<u64>)
    requires { length pending.old + 20 ≤ 8192 }
    ensures text { pending.new ≡ pending.old ++ call_text event.now }
    ensures short { length pending.new ≤ length pending.old + 20 }
{
    match event {
        Event::Start(id, _) => pending.add_number(*id),
        Event::Step(id, _) => pending.add_number(*id),
        Event::Reclaim(_) => pending.add(b"-"),
    }
}

// Adds kind, slot and success.
fn add_line_report(pending: &mut Pending, event: &Event<u64>, line: &Line)
    requires { length pending.old + 40 ≤ 8192 }
    ensures text { pending.new ≡ pending.old ++ report_text event.now line.now }
    ensures short { length pending.new ≤ length pending.old + 40 }
{
    match line {
        Line::Done(report, _, _) => add_report(pending, report),
        Line::Skipped => match event {
            Event::Start(_, _) => pending.add(b"S start - skipped"),
            Event::Step(_, _) => pending.add(b"- step - skipped"),
            Event::Reclaim(slot) => {
                pending.add(b"X reclaim ");
                pending.add_number(*slot as u64);
                pending.add(b" skipped");
            }
        },
    }
}

// The same of an event that was done.
fn add_report(pending: &mut Pending, report: &Report)
    requires { length pending.old + 40 ≤ 8192 }
    ensures text { pending.new ≡ pending.old ++ kind_text report.now.kind ++ codes " "
        ++ slot_text report.now.slot ++ codes " " ++ success_text report.now.ok }
    ensures short { length pending.new ≤ length pending.old + 40 }
{
    add_kind(pending, report.kind);
    pending.add(b" ");
    add_slot(pending, report.slot);
    pending.add(b" ");
    match report.ok {
        true => pending.add(b"ok"),
        false => pending.add(b"failed"),
    }
}

// Adds the letter and the word of a kind.
fn add_kind(pending: &mut Pending, kind: Kind)
    requires { length pending.old + 10 ≤ 8192 }
    ensures text { pending.new ≡ pending.old ++ kind_text kind }
    ensures short { length pending.new ≤ length pending.old + 10 }
{
    match kind {
        Kind::Start => pending.add(b"S start"),
        Kind::Take => pending.add(b"T take"),
        Kind::Check => pending.add(b"C check"),
        Kind::Read => pending.add(b"R read"),
        Kind::Upgrade => pending.add(b"U upgrade"),
        Kind::Make => pending.add(b"A make"),
        Kind::Write => pending.add(b"W write"),
        Kind::Obsolete => pending.add(b"O obsolete"),
        Kind::Unlock => pending.add(b"L unlock"),
        Kind::Answer => pending.add(b"Q answer"),
        Kind::Finish => pending.add(b"F finish"),
        Kind::Reclaim => pending.add(b"X reclaim"),
    }
}

// Adds the slot that an event touches, or a dash.
fn add_slot(pending: &mut Pending, slot: Option<usize>)
    requires { length pending.old + 20 ≤ 8192 }
    ensures text { pending.new ≡ pending.old ++ slot_text slot }
    ensures short { length pending.new ≤ length pending.old + 20 }
{
    match slot {
        None => pending.add(b"-"),
        Some(slot) => pending.add_number(slot as u64),
    }
}

// Adds the call that starts, or what a step found and what came of it.
fn add_details(pending: &mut Pending, event: &Event<u64>, line: &Line, decided: &[Decision])
    requires { length pending.old + 152 ≤ 8192 }
    ensures text { pending.new ≡ pending.old ++ details_text event.now line.now decided.now }
    ensures short { length pending.new ≤ length pending.old + 136 }
{
    match event {
        Event::Start(_, op) => {
            pending.add(b" ");
            add_op(pending, op);
        }
        Event::Step(_, env) => match line {
            Line::Done(report, outcome, seen) => {
                add_found(pending, report, env, seen);
                add_outcome(pending, outcome, decided);
            }
            Line::Skipped => {}
        },
        Event::Reclaim(_) => {}
    }
}

// Adds a call, by its words in a schedule.
fn add_op(pending: &mut Pending, op: &Op<u64>)
    requires { length pending.old + 80 ≤ 8192 }
    ensures text { pending.new ≡ pending.old ++ join_with_byte 32 (words_of_op op.now) }
    ensures short { length pending.new ≤ length pending.old + 80 }
{
    match op {
        Op::Get(key) => add_name(pending, b"get ", *key),
        Op::Insert(key, value) => {
            add_name(pending, b"insert ", *key);
            add_next(pending, *value);
        }
        Op::Remove(key) => add_name(pending, b"remove ", *key),
        Op::ComputeIfPresent(key) => add_name(pending, b"present ", *key),
        Op::ComputeOrInsert(key, otherwise) => {
            add_name(pending, b"orinsert ", *key);
            add_next(pending, *otherwise);
        }
        Op::CompareExchange(key, old, new) => {
            add_name(pending, b"cas ", *key);
            add_next(pending, *old);
            pending.add(b" ");
            pending.add_value(*new);
        }
        Op::Range(start, end, limit) => {
            add_name(pending, b"range ", *start);
            add_next(pending, *end);
            add_next(pending, *limit);
        }
    }
}

// Adds the name of a call, and its key.
fn add_name(pending: &mut Pending, name: &[u8], key: u64)
    requires { length pending.old + length name.now + 20 ≤ 8192 }
    ensures text { pending.new ≡ pending.old ++ name.now ++ decimal key }
    ensures short { length pending.new ≤ length pending.old + length name.now + 20 }
{
    pending.add(name);
    pending.add_number(key);
}

// Adds one more number of a call.
fn add_next(pending: &mut Pending, number: u64)
    requires { length pending.old + 21 ≤ 8192 }
    ensures text { pending.new ≡ pending.old ++ 32 ∷ decimal number }
    ensures short { length pending.new ≤ length pending.old + 21 }
{
    pending.add(b" ");
    pending.add_number(number);
}

// Adds what a Take, a Read or an Answer has beside its outcome.
fn add_found(pending: &mut Pending, report: &Report, env: &Env<u64>, seen: &Option<Seen<u64>>)
    requires { length pending.old + 72 ≤ 8192 }
    ensures text { pending.new
        ≡ pending.old ++ found_text report.now.kind report.now.word env.now seen.now }
    ensures short { length pending.new ≤ length pending.old + 72 }
{
    match report.kind {
        Kind::Take => {
            pending.add(b" word ");
            pending.add_number(report.word);
        }
        Kind::Read => add_seen(pending, seen),
        Kind::Answer => {
            pending.add(b" answer ");
            pending.add_value(env.answer);
        }
        _ => {}
    }
}

// Adds what a Read reports.
fn add_seen(pending: &mut Pending, seen: &Option<Seen<u64>>)
    requires { length pending.old + 72 ≤ 8192 }
    ensures text { pending.new ≡ pending.old ++ seen_text seen.now }
    ensures short { length pending.new ≤ length pending.old + 72 }
{
    let Some(seen) = seen else {
        return;
    };
    pending.add(b" sees ");
    add_child(pending, &seen.child);
    pending.add(b" count ");
    pending.add_number(seen.count as u64);
    if seen.full {
        pending.add(b" full");
    }
}

// Adds a child, by its words in a schedule.
fn add_child(pending: &mut Pending, child: &Option<Child<u64>>)
    requires { length pending.old + 26 ≤ 8192 }
    ensures text { pending.new ≡ pending.old ++ join_with_byte 32 (words_of_child child.now) }
    ensures short { length pending.new ≤ length pending.old + 26 }
{
    match child {
        None => pending.add(b"none"),
        Some(Child::Payload(value)) => {
            pending.add(b"value ");
            pending.add_number(*value);
        }
        Some(Child::Node(slot)) => {
            pending.add(b"node ");
            pending.add_number(*slot as u64);
        }
    }
}

// Adds what comes of a step, if the call doesn't just go on.
fn add_outcome(pending: &mut Pending, outcome: &Outcome<u64>, decided: &[Decision])
    requires { length pending.old + 80 ≤ 8192 }
    ensures text { pending.new ≡ pending.old ++ outcome_text outcome.now decided.now }
    ensures short { length pending.new ≤ length pending.old + 64 }
{
    match outcome {
        Outcome::Going => {}
        Outcome::Ask(old) => {
            pending.add(b" asks ");
            pending.add_value(*old);
        }
        Outcome::Pair(key, value) => {
            pending.add(b" pair ");
            pending.add_number(*key);
            pending.add(b" ");
            pending.add_number(*value);
        }
        Outcome::Decided(reply) => {
            let Some(decision) = decided.first() else {
                return;
            };
            pending.add(b" decided ");
            add_reply(pending, &decision.op, reply);
        }
        Outcome::Refused => pending.add(b" refused"),
        Outcome::Done => pending.add(b" ended"),
        Outcome::Unknown => {}
    }
}
