//! The text of a replayed schedule, in more or less detail.
//!
//! Tested in `test_serve` and `examples/schedules/`.

ghost use Rattle.std.specs.Prelude.{◌≡◌, ◌++◌, ◌+◌, ◌≤◌, [], length, drop, Err, IfOk, OnOk, OnErr, true, vec_len, vec_capacity};
ghost use Rattle.std.specs.List.{flat_map};
ghost use Rattle.spec_text.specs.Lines.{ended};
ghost use Rattle.spec_text.specs.Texts.{decided_after, content_text};
ghost use Rattle.text_lines.specs.Watched.{SendsTo, SendsPart};
ghost use Rattle.text_trace.specs.Detail.{after_first, map_after, content_lines, event_lines, lines_from, detailed_text};
ghost use Rattle.text_trace.specs.declared.printing.TraceError.TheVariants as error;
ghost use Rattle.text_trace.specs.inner.Kept.{HasRoom, kept_after, text_after};

use crate::content::make_call;
use crate::detail::Detail;
use crate::event_line::add_event_line;
use crate::outcome::add_event;
use spec_olc::trace::{Decision, Line, Trace};
use spec_olc::types::{Event, Outcome};
use std::alloc::{AllocError, Global};
use std::io::Write;
use text_lines::listing::put_pairs;
use text_lines::pending::Pending;
use text_lines::watched::{Failed, Watched};

/// Why the text of a trace wasn't written.
#[derive(Clone, Copy, Debug, PartialEq, Eq)]
pub enum TraceError {
    /// There was no memory for the contents that are to be shown. Nothing was written.
    Oom,
    /// A write failed. A beginning of the text may have gone out.
    Write,
}

/// Writes the text of a trace. Only contents take memory: 16 bytes for each decided call.
pub fn write_trace<W: Write>(
    alloc: Global,
    output: &mut Watched<W>,
    detail: Detail,
    events: &[Event<u64>],
    trace: &Trace,
) -> Result<(), TraceError>
    requires { length events.now ≡ length trace.now.lines.items }
    ensures ok { OnOk result (SendsTo W.contents output.old output.new
        (detailed_text detail events.now trace.now.lines.items trace.now.decided.items
        trace.now.content.items) []) }
    ensures kept { OnOk result (output.new.failed ≡ output.old.failed) }
    ensures oom { result ≡ Err error.Oom → output.new ≡ output.old }
    ensures broken { result ≡ Err error.Write → SendsPart W.contents output.old output.new
        (detailed_text detail events.now trace.now.lines.items trace.now.decided.items
        trace.now.content.items) }
    ensures failed { result ≡ Err error.Write → output.new.failed ≡ true }
{
    let Ok(mut pairs) = room_for_contents(alloc, detail, &trace.decided) else {
        return Err(TraceError::Oom);
    };
    match write_all(output, detail, events, trace, &mut pairs) {
        Ok(()) => Ok(()),
        Err(_) => Err(TraceError::Write),
    }
}

// A vector in which each content has room, if contents are to be shown: no call adds more than one key.
fn room_for_contents(
    alloc: Global,
    detail: Detail,
    decided: &[Decision],
) -> Result<Vec<(u64, u64)>, AllocError>
    ensures empty { IfOk result (λ pairs. pairs.items ≡ []) }
    ensures room { IfOk result (λ pairs.
        HasRoom detail (vec_len pairs) (vec_capacity pairs) decided.now) }
{
    match detail {
        Detail::Contents => Vec::with_capacity(alloc, decided.len()),
        _ => Ok(Vec::new(alloc)),
    }
}

// Writes the text. At an `Err` a first part of it was written.
fn write_all<W: Write>(
    output: &mut Watched<W>,
    detail: Detail,
    events: &[Event<u64>],
    trace: &Trace,
    pairs: &mut Vec<(u64, u64)>,
) -> Result<(), Failed>
    requires each { length events.now ≡ length trace.now.lines.items }
    requires room { HasRoom detail (vec_len pairs.old) (vec_capacity pairs.old)
        trace.now.decided.items }
    ensures ok { OnOk result (SendsTo W.contents output.old output.new
        (text_after detail pairs.old.items events.now trace.now.lines.items trace.now.decided.items
        trace.now.content.items) []) }
    ensures err { OnErr result (SendsPart W.contents output.old output.new
        (text_after detail pairs.old.items events.now trace.now.lines.items trace.now.decided.items
        trace.now.content.items)) }
    ensures kept { OnOk result (output.new.failed ≡ output.old.failed) }
    ensures failed { OnErr result (output.new.failed ≡ true) }
{
    let mut pending = Pending::new();
    put_events(
        &mut pending,
        output,
        detail,
        events,
        &trace.lines,
        &trace.decided,
        pairs,
    )?;
    put_content(&mut pending, output, &trace.content)?;
    pending.send_to(output)?;
    output.flush()
}

// Adds the lines of the events, and writes what is pending whenever there is no room.
fn put_events<W: Write>(
    pending: &mut Pending,
    output: &mut Watched<W>,
    detail: Detail,
    events: &[Event<u64>],
    lines: &[Line],
    decided: &[Decision],
    pairs: &mut Vec<(u64, u64)>,
) -> Result<(), Failed>
    requires each { length events.now ≡ length lines.now }
    requires room { HasRoom detail (vec_len pairs.old) (vec_capacity pairs.old) decided.now }
    ensures ok { OnOk result (SendsTo W.contents output.old output.new
        (pending.old ++ flat_map ended (lines_from detail 1 pairs.old.items events.now lines.now
        decided.now)) pending.new) }
    ensures err { OnErr result (SendsPart W.contents output.old output.new
        (pending.old ++ flat_map ended (lines_from detail 1 pairs.old.items events.now lines.now
        decided.now))) }
    ensures kept { OnOk result (output.new.failed ≡ output.old.failed) }
    ensures failed { OnErr result (output.new.failed ≡ true) }
{
    let mut later = decided;
    for (i, line) in lines.iter().enumerate() {
        make_room(pending, output)?;
        add_lines(pending, detail, i as u64 + 1, &events[i], line, later);
        put_content_after(pending, output, detail, line, later, pairs)?;
        later = after(line, later);
    }
    Ok(())
}

// Makes room for 256 bytes, which the line of an event never fills: writes all that is kept where there is less. At an
// `Err` a first part of it was written.
fn make_room<W: Write>(pending: &mut Pending, output: &mut Watched<W>) -> Result<(), Failed>
    ensures sent { OnOk result (SendsTo W.contents output.old output.new pending.old pending.new) }
    ensures room { OnOk result (length pending.new + 256 ≤ 8192) }
    ensures broken { OnErr result (SendsPart W.contents output.old output.new pending.old) }
    ensures kept { OnOk result (output.new.failed ≡ output.old.failed) }
    ensures failed { OnErr result (output.new.failed ≡ true) }
{
    if pending.room() < 256 {
        return pending.send_to(output);
    }
    Ok(())
}

// Adds the lines of an event alone: what comes of it, or all of it.
fn add_lines(
    pending: &mut Pending,
    detail: Detail,
    number: u64,
    event: &Event<u64>,
    line: &Line,
    decided: &[Decision],
)
    requires { length pending.old + 256 ≤ 8192 }
    ensures { pending.new
        ≡ pending.old ++ flat_map ended (event_lines detail number event.now line.now decided.now) }
{
    match detail {
        Detail::Outcomes => add_event(pending, event, line, decided),
        _ => {
            add_event_line(pending, number, event, line, decided);
            pending.add(b"\n");
        }
    }
}

// Where contents are shown, makes the call that a line decides on the content, and adds that.
fn put_content_after<W: Write>(
    pending: &mut Pending,
    output: &mut Watched<W>,
    detail: Detail,
    line: &Line,
    decided: &[Decision],
    pairs: &mut Vec<(u64, u64)>,
) -> Result<(), Failed>
    requires room { HasRoom detail (vec_len pairs.old) (vec_capacity pairs.old) decided.now }
    ensures ok { OnOk result (SendsTo W.contents output.old output.new (pending.old ++ flat_map ended
        (content_lines detail line.now (map_after line.now decided.now pairs.old.items)))
        pending.new) }
    ensures err { OnErr result (SendsPart W.contents output.old output.new (pending.old
        ++ flat_map ended (content_lines detail line.now
        (map_after line.now decided.now pairs.old.items)))) }
    ensures content { OnOk result
        (pairs.new.items ≡ kept_after detail line.now decided.now pairs.old.items) }
    ensures room_left { OnOk result (HasRoom detail (vec_len pairs.new) (vec_capacity pairs.new)
        (decided_after line.now decided.now)) }
    ensures kept { OnOk result (output.new.failed ≡ output.old.failed) }
    ensures failed { OnErr result (output.new.failed ≡ true) }
{
    match detail {
        Detail::Contents => match line {
            Line::Done(_, outcome, _) => match outcome {
                Outcome::Decided(_) => put_next_content(pending, output, decided, pairs),
                _ => Ok(()),
            },
            Line::Skipped => Ok(()),
        },
        _ => Ok(()),
    }
}

// Makes the first of the decided calls on the content, and adds that.
fn put_next_content<W: Write>(
    pending: &mut Pending,
    output: &mut Watched<W>,
    decided: &[Decision],
    pairs: &mut Vec<(u64, u64)>,
) -> Result<(), Failed>
    requires room { vec_len pairs.old + length decided.now ≤ vec_capacity pairs.old }
    ensures ok { OnOk result (SendsTo W.contents output.old output.new (pending.old
        ++ ended (content_text (after_first decided.now pairs.old.items))) pending.new) }
    ensures err { OnErr result (SendsPart W.contents output.old output.new (pending.old
        ++ ended (content_text (after_first decided.now pairs.old.items)))) }
    ensures content { OnOk result (pairs.new.items ≡ after_first decided.now pairs.old.items) }
    ensures room_left { OnOk result
        (vec_len pairs.new + length (drop 1 decided.now) ≤ vec_capacity pairs.new) }
    ensures kept { OnOk result (output.new.failed ≡ output.old.failed) }
    ensures failed { OnErr result (output.new.failed ≡ true) }
{
    make_first_call(pairs, decided);
    put_content(pending, output, pairs)
}

// Makes the first of the decided calls on the content.
fn make_first_call(pairs: &mut Vec<(u64, u64)>, decided: &[Decision])
    requires room { vec_len pairs.old + length decided.now ≤ vec_capacity pairs.old }
    ensures content { pairs.new.items ≡ after_first decided.now pairs.old.items }
    ensures room_left { vec_len pairs.new + length (drop 1 decided.now) ≤ vec_capacity pairs.new }
{
    match decided {
        [] => {}
        [decision, ..] => make_call(pairs, decision),
    }
}

// The decided calls that come after a line.
fn after<'a>(line: &Line, decided: &'a [Decision]) -> &'a [Decision]
    ensures { result.now ≡ decided_after line.now decided.now }
{
    match line {
        Line::Done(_, Outcome::Decided(_), _) if !decided.is_empty() => &decided[1..],
        _ => decided,
    }
}

// Adds the content, and writes what is pending whenever there is no room.
fn put_content<W: Write>(
    pending: &mut Pending,
    output: &mut Watched<W>,
    content: &[(u64, u64)],
) -> Result<(), Failed>
    ensures ok { OnOk result (SendsTo W.contents output.old output.new
        (pending.old ++ ended (content_text content.now)) pending.new) }
    ensures err { OnErr result (SendsPart W.contents output.old output.new
        (pending.old ++ ended (content_text content.now))) }
    ensures kept { OnOk result (output.new.failed ≡ output.old.failed) }
    ensures failed { OnErr result (output.new.failed ≡ true) }
{
    pending.make_room(output)?;
    pending.add(b"content");
    put_pairs(pending, output, content)?;
    pending.add(b"\n");
    Ok(())
}
