//! Replay of a schedule on a fresh machine.
//!
//! Tested in `test_olc` and `tools/dev/try-schedules`.

ghost use Rattle.std.specs.Prelude.{◌≡◌, ◌++◌, ℕ, IfOk, OnOk};
ghost use Rattle.spec_olc.specs.Calls.{asked_of};
ghost use Rattle.spec_olc.specs.Replay.{IsReplayed};
ghost use Rattle.spec_olc.specs.Runs.{decided_by, same_number};
ghost use Rattle.spec_olc.specs.State.{CallState};
ghost use Rattle.spec_olc.specs.declared.types.Event.TheVariants as event;
ghost use Rattle.olc_state.specs.inner.Facts.{IsSoundWorld};
ghost use Rattle.olc_machine.specs.inner.Inside.{inside};
ghost use Rattle.olc_replay.specs.inner.Played.{IsHappening, noted};

use crate::copies::{
    asked_of, copy_env, copy_op, copy_reply, copy_returned, copy_some_op, last_read,
};
use node_table::allocator::{Allocator, DefaultAllocator};
use olc_machine::inner::Inner;
use spec_map::error::OOMError;
use spec_olc::trace::{Decision, Line, Trace};
use spec_olc::types::{Env, Event, Kind, Op, Outcome, Report};
use std::alloc::{AllocError, Global};

/// The line of one event, and its decision, if it made one.
#[derive(Drop)]
struct Happened {
    line: Line,
    decided: Option<Decision>,
}

// An event that isn't enabled.
fn skipped() -> Happened
    ensures { result ≡ record { line = Line.Skipped; decided = None } }
{
    Happened {
        line: Line::Skipped,
        decided: None,
    }
}

// The decision of a call that still has its payloads, by the outcome of its event.
fn decision(
    id: u64,
    op: Option<Op<u64>>,
    asked: Option<(Option<u64>, Option<u64>)>,
    outcome: &Outcome<u64>,
) -> Option<Decision>
    ensures { (call : CallState ℕ) → call.op ≡ op → asked_of call.asking ≡ asked
        → noted result ≡ decided_by id (Some call) outcome.now }
{
    match outcome {
        Outcome::Decided(reply) => match op {
            None => None,
            Some(op) => Some(Decision {
                id,
                op,
                asked,
                reply: copy_reply(reply),
            }),
        },
        _ => None,
    }
}

// A Start: skipped if the number is in flight.
fn start<A: Allocator>(
    machine: &mut Inner<u64, A>,
    id: u64,
    op: &Op<u64>,
) -> Result<Happened, OOMError>
    requires sound { IsSoundWorld (Unit {0}) same_number (inside A.charge machine.old) }
    ensures { IfOk result (λ h. IsHappening (inside A.charge machine.old) (event.Start id op.now)
        h.line h.decided (inside A.charge machine.new)) }
{
    if machine.is_in_flight(id) {
        return Ok(skipped());
    }
    let report = machine.begin(id, copy_op(op), copy_returned(op))?;
    Ok(Happened {
        line: Line::Done(report, Outcome::Going, None),
        decided: None,
    })
}

// A Step: skipped if the number isn't in flight.
fn step<A: Allocator>(machine: &mut Inner<u64, A>, id: u64, env: &Env<u64>) -> Happened
    requires sound { IsSoundWorld (Unit {0}) same_number (inside A.charge machine.old) }
    ensures { IsHappening (inside A.charge machine.old) (event.Step id env.now)
        result.line result.decided (inside A.charge machine.new) }
{
    let Some(call) = machine.call(id) else {
        return skipped();
    };
    let op = copy_some_op(&call.task.op);
    let asked = asked_of(&call.task.asking);
    let (report, outcome) = machine.proceed(id, copy_env(env));
    let seen = last_read(report.kind, machine.call(id));
    let decided = decision(id, op, asked, &outcome);
    Happened {
        line: Line::Done(report, outcome, seen),
        decided,
    }
}

// A Reclaim: skipped if the slot may not be reclaimed.
fn reclaim<A: Allocator>(machine: &mut Inner<u64, A>, slot: usize) -> Happened
    requires sound { IsSoundWorld (Unit {0}) same_number (inside A.charge machine.old) }
    ensures { IsHappening (inside A.charge machine.old) (event.Reclaim slot)
        result.line result.decided (inside A.charge machine.new) }
{
    if !machine.reclaim(slot) {
        return skipped();
    }
    let report = Report {
        kind: Kind::Reclaim,
        slot: Some(slot),
        word: 0,
        ok: true,
    };
    Happened {
        line: Line::Done(report, Outcome::Going, None),
        decided: None,
    }
}

// One event of the schedule.
fn happen<A: Allocator>(
    machine: &mut Inner<u64, A>,
    event: &Event<u64>,
) -> Result<Happened, OOMError>
    requires sound { IsSoundWorld (Unit {0}) same_number (inside A.charge machine.old) }
    ensures { IfOk result (λ h. IsHappening (inside A.charge machine.old) event.now
        h.line h.decided (inside A.charge machine.new)) }
{
    match event {
        Event::Start(id, op) => start(machine, *id, op),
        Event::Step(id, env) => Ok(step(machine, *id, env)),
        Event::Reclaim(slot) => Ok(reclaim(machine, *slot)),
    }
}

// Appends a decision, if there is one.
fn note(decided: &mut Vec<Decision>, decision: Option<Decision>) -> Result<(), AllocError>
    ensures { OnOk result (decided.new.items ≡ decided.old.items ++ noted decision) }
{
    match decision {
        None => Ok(()),
        Some(decision) => Ok(decided.push(decision)?),
    }
}

/// Runs a schedule on a fresh machine with this budget.
///
/// An event that is not enabled is `Skipped` and changes nothing. `OOMError` if memory is missing for the root, for a
/// `Start` or for the trace itself; then there is no trace.
pub fn replay_with<A: Allocator>(
    alloc: Global,
    budget: A,
    events: &[Event<u64>],
) -> Result<Trace, OOMError>
    ensures { IfOk result (λ trace. IsReplayed events.now trace.lines.items trace.decided.items
        trace.content.items) }
{
    let mut machine = Inner::new(alloc, budget)?;
    let mut lines = Vec::with_capacity(alloc, events.len())?;
    // a decided call has at least five events
    let mut decided = Vec::with_capacity(alloc, events.len() / 5)?;
    for event in events {
        let happened = happen(&mut machine, event)?;
        lines.push(happened.line)?;
        note(&mut decided, happened.decided)?;
    }
    let content = machine.content(alloc)?;
    Ok(Trace {
        lines,
        decided,
        content,
    })
}

/// Runs a schedule on a fresh machine that no budget limits.
///
/// An event that is not enabled is `Skipped` and changes nothing. `OOMError` if memory is missing for the root, for a
/// `Start` or for the trace itself; then there is no trace.
pub fn replay(alloc: Global, events: &[Event<u64>]) -> Result<Trace, OOMError>
    ensures { IfOk result (λ trace. IsReplayed events.now trace.lines.items trace.decided.items
        trace.content.items) }
{
    replay_with(alloc, DefaultAllocator {}, events)
}
