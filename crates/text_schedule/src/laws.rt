//! Laws that follow from the definitions alone, for readers who ask whether to believe the
//! definitions.

ghost use Rattle.std.specs.Prelude.{◌≡◌, ◌↔◌, ℕ, ◌<◌, List, [], Result, length, map};
ghost use Rattle.std.specs.List.{join_with_byte};
ghost use Rattle.spec_text.specs.declared.entry.Entry.{Entry};
ghost use Rattle.spec_text.specs.Entry.{words_of_entry, SpellsEntry, IsNoEntry};
ghost use Rattle.spec_map.specs.Map.{Pairs};
ghost use Rattle.spec_olc.specs.Replay.{IsReplayed};
ghost use Rattle.spec_olc.specs.declared.trace.Decision.{Decision};
ghost use Rattle.spec_olc.specs.declared.trace.Line.{Line};
ghost use Rattle.spec_olc.specs.declared.types.Event.{Event};
ghost use Rattle.spec_text.specs.Texts.{replies_in_lines, number_and_reply};
ghost use Rattle.text_trace.specs.declared.detail.Detail.{Detail};
ghost use Rattle.text_schedule.specs.Schedule.{EndsSchedule};
ghost use Rattle.text_schedule.specs.inner.AtEnd.{map_at_end};
ghost use Rattle.text_schedule.specs.inner.EntryReading.{EntryIsWithin};
ghost use Rattle.text_schedule.specs.inner.Parts.{EndsScheduleByParts};

use crate::schedule::ScheduleError;
use std::io::{Read, Write};
use text_lines::watched::Watched;

/// A line parses as one entry at most.
pub fn one_entry()
    ensures { (line : List ℕ) (one other : Entry)
        → SpellsEntry line one → SpellsEntry line other → one ≡ other }
{}

/// A line is an entry where it is its words, its numbers have 64 bits, and from 1 to 10000 steps are asked for: a row
/// for each entry.
pub fn entry_bounds()
    ensures { (line : List ℕ) (entry : Entry) → SpellsEntry line entry
        ↔ ((line ≡ join_with_byte 32 (words_of_entry entry)) × EntryIsWithin entry) }
{}

/// A line of more than 256 bytes is no entry.
pub fn long_lines()
    ensures { (line : List ℕ) → 256 < length line → IsNoEntry line }
{}

/// The lines of a replayed schedule contain its decided calls: each once, in order, with its number and reply.
pub fn decided_lines()
    ensures { (events : List (Event ℕ)) (lines : List Line) (decided : List Decision)
        (content : Pairs ℕ) → IsReplayed events lines decided content
        → replies_in_lines events lines ≡ map number_and_reply decided }
{}

/// The contents that a trace shows come to the content at its end: the map after the last decided call.
pub fn contents_come_to_the_content()
    ensures { (events : List (Event ℕ)) (lines : List Line) (decided : List Decision)
        (content : Pairs ℕ) → IsReplayed events lines decided content
        → map_at_end [] lines decided ≡ content }
{}

/// How a schedule ends, in parts, which repeat what was read.
pub fn a_schedule_in_parts<R: Read, W: Write>()
    ensures { (detail : Detail) (input input' : Watched R) (output output' : Watched W)
        (result : Result (Unit {0}) ScheduleError)
        → EndsSchedule detail R.remaining W.contents input input' output output' result
        → EndsScheduleByParts detail R.remaining W.contents input input' output output' result }
{}
