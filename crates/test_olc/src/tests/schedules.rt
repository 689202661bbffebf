//! Whole schedules: what of a trace no text shows, and the budgets of a replay.

use crate::tests::events::{Call, MANY, push_call, push_pairs, push_steps, push_whole};
use crate::tests::history::is_legal;
use node_table::allocator::Budget;
use olc_replay::replay::{replay, replay_with};
use spec_map::error::OOMError;
use spec_olc::trace::{Line, Trace};
use spec_olc::types::{Event, Kind, Op, Outcome, Report};
use std::alloc::{AllocError, Global};
use std::test::Fail;

// The pair of 42 at 1, and a call of number 2 whose closure has answered so.
fn push_asked(events: &mut Vec<Event<u64>>, answer: Option<u64>) -> Result<(), AllocError> {
    push_pairs(events, &[(1, 42)])?;
    push_call(events, 2, Call::IfPresent(1), 8, answer)
}

// The pair is removed before the call locks its leaf, so it finds nothing then.
fn push_lost_at_once(events: &mut Vec<Event<u64>>) -> Result<(), AllocError> {
    push_asked(events, Some(50))?;
    push_whole(events, Call::Remove(1))?;
    push_steps(events, 2, MANY, Some(50))
}

// The leaf gets another pair, so the call has to unlock its parent again; then the pair is removed.
fn push_lost_between(events: &mut Vec<Event<u64>>) -> Result<(), AllocError> {
    push_asked(events, None)?;
    push_whole(events, Call::Insert(2, 43))?;
    push_steps(events, 2, 3, None)?;
    push_whole(events, Call::Remove(1))?;
    push_steps(events, 2, MANY, None)
}

// Whether so many calls are decided, as the plain map has it: a decision names what its closure was asked, if it was.
fn are_decided(alloc: Global, events: &[Event<u64>], count: usize) -> Result<bool, OOMError> {
    let trace = replay(alloc, events)?;
    Ok(trace.decided.len() == count && is_legal(alloc, &trace)?)
}

fn forgets_at_once(alloc: Global) -> Result<bool, OOMError> {
    let mut events = Vec::new(alloc);
    push_lost_at_once(&mut events)?;
    are_decided(alloc, &events, 3)
}

fn forgets_between(alloc: Global) -> Result<bool, OOMError> {
    let mut events = Vec::new(alloc);
    push_lost_between(&mut events)?;
    are_decided(alloc, &events, 4)
}

#[test]
fn an_answer_that_is_lost_is_not_in_the_decision(rt: HostRuntime) -> Result<(), Fail> {
    assert!(rt; forgets_at_once(rt.alloc())?);
    assert!(rt; forgets_between(rt.alloc())?);
    Ok(())
}

// Whether the second and the third line are those of a Take of the root and of a Read that saw nothing there.
fn has_read_nothing(trace: &Trace) -> bool {
    let taken = Report {
        kind: Kind::Take,
        slot: Some(0),
        word: 0,
        ok: true,
    };
    match (trace.lines.get(1), trace.lines.get(2)) {
        (
            Some(Line::Done(take, Outcome::Going, None)),
            Some(Line::Done(_, Outcome::Going, Some(seen))),
        ) => *take == taken && seen.child.is_none() && seen.count == 0 && !seen.full,
        _ => false,
    }
}

fn reads_nothing(alloc: Global) -> Result<bool, OOMError> {
    let mut events = Vec::new(alloc);
    events.push(Event::Start(0, Op::Get(1)))?;
    push_steps(&mut events, 0, 2, None)?;
    let trace = replay_with(alloc, Budget::new(2104), &events)?;
    Ok(has_read_nothing(&trace))
}

#[test]
fn a_read_reports_what_it_saw(rt: HostRuntime) -> Result<(), Fail> {
    assert!(rt; reads_nothing(rt.alloc())?);
    Ok(())
}

#[test]
fn a_budget_without_room_for_the_root(rt: HostRuntime) {
    assert!(rt; replay_with(rt.alloc(), Budget::new(2103), &[]).is_err());
}
