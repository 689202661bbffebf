//! The events of schedules, and the letters of what they do.
//!
//! A letter denotes an event, a small one if a word isn't free or isn't the remembered one, an upgrade fails, or a node
//! is refused: Start, Take, Read, Check, Upgrade, mAke, Write, Obsolete, unLock, Finish.

use spec_node::child::Child;
use spec_olc::trace::{Line, Trace};
use spec_olc::types::{Env, Event, Kind, Op, Outcome, Report, Seen};
use std::alloc::AllocError;

/// More events than a call takes that is alone and cleans up nothing.
pub(super) const MANY: usize = 45;

/// More events than a call takes that is alone and may clean up.
pub(super) const WHOLE: usize = 120;

/// A call, as a constant may have it.
#[derive(Clone, Copy)]
pub(super) enum Call {
    Insert(u64, u64),
    Remove(u64),
    IfPresent(u64),
    Exchange(u64, u64, Option<u64>),
}

impl Call {
    fn op(self) -> Op<u64> {
        match self {
            Call::Insert(key, value) => Op::Insert(key, value),
            Call::Remove(key) => Op::Remove(key),
            Call::IfPresent(key) => Op::ComputeIfPresent(key),
            Call::Exchange(key, old, new) => Op::CompareExchange(key, old, new),
        }
    }
}

/// What is stored at first.
#[derive(Clone, Copy)]
pub(super) enum Setting<'a> {
    /// So many keys are inserted from 0 on, each so far from the one before, with its number as its value; so many of
    /// them are left when the last ones are removed again.
    Keys(u64, u64, u64),
    /// These pairs are inserted, and of them these keys removed again.
    Pairs(&'a [(u64, u64)], &'a [u64]),
}

// An event of a number's call, whose closure is answered so.
fn event(id: u64, answer: Option<u64>) -> Event<u64> {
    let child: Option<Child<u64>> = None;
    let torn = Seen {
        child,
        count: 0,
        full: false,
    };
    Event::Step(
        id,
        Env {
            torn,
            fail: false,
            answer,
        },
    )
}

/// So many events of a number's call, whose closure is answered so.
pub(super) fn push_steps(
    events: &mut Vec<Event<u64>>,
    id: u64,
    steps: usize,
    answer: Option<u64>,
) -> Result<(), AllocError> {
    for _ in 0..steps {
        events.push(event(id, answer))?;
    }
    Ok(())
}

/// The start of a number's call, and so many events of it, whose closure is answered so.
pub(super) fn push_call(
    events: &mut Vec<Event<u64>>,
    id: u64,
    call: Call,
    steps: usize,
    answer: Option<u64>,
) -> Result<(), AllocError> {
    events.push(Event::Start(id, call.op()))?;
    push_steps(events, id, steps, answer)
}

/// A whole call of number 1, whose closure answers `None`.
pub(super) fn push_whole(events: &mut Vec<Event<u64>>, call: Call) -> Result<(), AllocError> {
    push_call(events, 1, call, WHOLE, None)
}

/// Whole insertions of these pairs.
pub(super) fn push_pairs(
    events: &mut Vec<Event<u64>>,
    pairs: &[(u64, u64)],
) -> Result<(), AllocError> {
    for (key, value) in pairs {
        push_call(events, 0, Call::Insert(*key, *value), MANY, None)?;
    }
    Ok(())
}

fn push_keys(
    events: &mut Vec<Event<u64>>,
    grown: u64,
    left: u64,
    apart: u64,
) -> Result<(), AllocError> {
    for number in 0..grown {
        let insert = Call::Insert(number.wrapping_mul(apart), number);
        push_call(events, 0, insert, MANY, None)?;
    }
    for number in left..grown {
        let remove = Call::Remove(number.wrapping_mul(apart));
        push_call(events, 0, remove, MANY, None)?;
    }
    Ok(())
}

/// The events after which a setting is stored.
pub(super) fn push_setting(
    events: &mut Vec<Event<u64>>,
    setting: Setting<'_>,
) -> Result<(), AllocError> {
    match setting {
        Setting::Keys(grown, left, apart) => push_keys(events, grown, left, apart),
        Setting::Pairs(pairs, gone) => {
            push_pairs(events, pairs)?;
            for key in gone {
                push_call(events, 0, Call::Remove(*key), MANY, None)?;
            }
            Ok(())
        }
    }
}

// The letter of a kind.
fn letter(kind: Kind) -> char {
    match kind {
        Kind::Start => 'S',
        Kind::Take => 'T',
        Kind::Read => 'R',
        Kind::Check => 'C',
        Kind::Upgrade => 'U',
        Kind::Make => 'A',
        Kind::Write => 'W',
        Kind::Obsolete => 'O',
        Kind::Unlock => 'L',
        Kind::Answer => 'Q',
        Kind::Finish => 'F',
        Kind::Reclaim => 'X',
    }
}

fn has_failed(report: &Report, outcome: &Outcome<u64>) -> bool {
    !report.ok
        || report.kind == Kind::Make && report.slot.is_none()
        || matches!(outcome, Outcome::Refused)
}

/// The letters of the lines from one on; skipped ones have none.
pub(super) fn push_letters(
    letters: &mut String,
    trace: &Trace,
    from: usize,
) -> Result<(), AllocError> {
    for line in trace.lines.iter().skip(from) {
        if let Line::Done(report, outcome, _) = line {
            let mark = letter(report.kind);
            let failed = has_failed(report, outcome);
            letters.push(if failed {
                mark.to_ascii_lowercase()
            } else {
                mark
            })?;
        }
    }
    Ok(())
}
