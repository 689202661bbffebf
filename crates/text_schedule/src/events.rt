//! The events that entries denote.
//!
//! Tested in `test_serve` and `tools/dev/try-schedules`.

ghost use Rattle.std.specs.Prelude.{◌≡◌, ◌++◌, ◌∷◌, [], true, length, OnOk};
ghost use Rattle.spec_text.specs.declared.entry.Entry.TheVariants.{Steps};
ghost use Rattle.spec_text.specs.Events.{plain, torn_to, events_of};

use spec_node::child::Child;
use spec_olc::types::{Env, Event, Seen};
use spec_text::entry::Entry;
use std::alloc::AllocError;

/// How many events an entry denotes.
pub fn event_count(entry: &Entry) -> u64
    ensures { result ≡ length (events_of entry.now) }
{
    match entry {
        Entry::Steps(_, count) => *count,
        _ => 1,
    }
}

/// Appends the events of an entry.
pub fn add_events(events: &mut Vec<Event<u64>>, entry: Entry) -> Result<(), AllocError>
    ensures { OnOk result (events.new.items ≡ events.old.items ++ events_of entry) }
{
    match entry {
        Entry::Start(id, op) => push(events, Event::Start(id, op)),
        Entry::Step(id) => push(events, Event::Step(id, plain())),
        Entry::Steps(id, count) => push_steps(events, id, count),
        Entry::Torn(id, child) => push(events, Event::Step(id, torn(child))),
        Entry::Fail(id) => push(events, Event::Step(id, failing())),
        Entry::Answer(id, answer) => push(events, Event::Step(id, answering(answer))),
        Entry::Reclaim(slot) => push(events, Event::Reclaim(slot)),
    }
}

fn push(events: &mut Vec<Event<u64>>, event: Event<u64>) -> Result<(), AllocError>
    ensures { OnOk result (events.new.items ≡ events.old.items ++ event ∷ []) }
{
    Ok(events.push(event)?)
}

fn push_steps(events: &mut Vec<Event<u64>>, id: u64, count: u64) -> Result<(), AllocError>
    ensures { OnOk result (events.new.items ≡ events.old.items ++ events_of (Steps id count)) }
{
    for _ in 0..count {
        push(events, Event::Step(id, plain()))?;
    }
    Ok(())
}

fn torn(child: Option<Child<u64>>) -> Env<u64>
    ensures { result ≡ record plain { torn = torn_to child } }
{
    Env {
        torn: Seen {
            child,
            count: 0,
            full: false,
        },
        fail: false,
        answer: None,
    }
}

fn plain() -> Env<u64>
    ensures { result ≡ plain }
{
    torn(None)
}

fn failing() -> Env<u64>
    ensures { result ≡ record plain { fail = true } }
{
    Env {
        fail: true,
        ..plain()
    }
}

fn answering(answer: Option<u64>) -> Env<u64>
    ensures { result ≡ record plain { answer = answer } }
{
    Env { answer, ..plain() }
}
