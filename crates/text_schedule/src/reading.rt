//! Parses lines as the events of a schedule.
//!
//! Tested in `test_serve` and `tools/dev/try-schedules`.

ghost use Rattle.std.specs.Prelude.{◌≡◌, ℕ, ◌+◌, ◌<◌, ◌++◌, ◌∷◌, List, [], length, Option, Some, Err, IfOk, IfErr, OnOk, IfSome, IfNone, true};
ghost use Rattle.spec_text.specs.Entry.{SpellsEntry, IsNoEntry};
ghost use Rattle.text_lines.specs.inner.Kept.{IsKeptOf};
ghost use Rattle.text_schedule.specs.declared.schedule.ScheduleError.TheVariants.{Read as ReadFailed};
ghost use Rattle.text_schedule.specs.inner.Reading.{HasParsed, HasReadBytes, ReadsInput, ParseAll, Fault, FaultIn, FaultAtEnd, ReadTurnsTo, EndsReading};

use crate::entry::entry_of;
use crate::events::{add_events, event_count};
use crate::schedule::ScheduleError;
use spec_olc::types::Event;
use spec_text::entry::Entry;
use std::alloc::Global;
use std::io::Read;
use text_lines::line::LineBuffer;
use text_lines::watched::Watched;

/// How many events a schedule may have.
pub const MAX_EVENTS: u64 = 100000;

/// How many bytes are read at once.
const CHUNK: usize = 8192;

/// What has been read of a schedule.
#[derive(Drop)]
struct Reading {
    // The current line, which hasn't ended.
    line: LineBuffer,
    // How many lines came before it.
    lines: u64,
    // The events of these.
    events: Vec<Event<u64>>,
}

/// Reads all lines, and returns their events. The first fault ends it.
pub(crate) fn read_schedule<R: Read>(
    alloc: Global,
    input: &mut Watched<R>,
) -> Result<Vec<Event<u64>>, ScheduleError>
    ensures { EndsReading R.remaining (λ events. events.items) input.old input.new result }
{
    let mut reading = Reading::new(alloc);
    loop {
        match reading.turn(input) {
            Ok(true) => {}
            Ok(false) => break,
            Err(error) => return Err(error),
        }
    }
    reading.end()
}

impl Reading {
    fn new(alloc: Global) -> Self
        ensures { HasReadBytes [] result }
    {
        Reading {
            line: LineBuffer::new(),
            lines: 0,
            events: Vec::new(alloc),
        }
    }

    // Reads once, and takes what was read. Returns false at the end of the input.
    fn turn<R: Read>(&mut self, input: &mut Watched<R>) -> Result<bool, ScheduleError>
        ensures turns { (first : Option (List ℕ))
            → ReadsInput first (R.remaining input.old.inner) self.old
            → ReadTurnsTo self.new first (R.remaining input.new.inner) result }
        ensures fewer { OnOk result (input.new.calls_left < input.old.calls_left) }
        ensures kept { (result ≡ Err ReadFailed → ⊥) → input.new.failed ≡ input.old.failed }
        ensures read_failed { result ≡ Err ReadFailed → (input.new.failed ≡ true) }
    {
        let mut chunk = [0; CHUNK];
        let Ok(count) = input.read(&mut chunk) else {
            return Err(ScheduleError::Read);
        };
        if let Err(error) = self.take_all(&chunk[..count]) {
            return Err(error);
        }
        Ok(count > 0)
    }

    // Takes the next bytes, and parses the lines that end in them.
    fn take_all(&mut self, bytes: &[u8]) -> Result<(), ScheduleError>
        ensures ok { (before : List ℕ) → HasReadBytes before self.old
            → OnOk result (HasReadBytes (before ++ bytes.now) self.new) }
        ensures err { (before : List ℕ) → HasReadBytes before self.old
            → IfErr result (FaultIn (before ++ bytes.now)) }
        ensures no_read { result ≡ Err ReadFailed → ⊥ }
    {
        for byte in bytes {
            if let Err(error) = self.take(*byte) {
                return Err(error);
            }
        }
        Ok(())
    }

    fn take(&mut self, byte: u8) -> Result<(), ScheduleError>
        ensures ok { (before : List ℕ) → HasReadBytes before self.old
            → OnOk result (HasReadBytes (before ++ byte ∷ []) self.new) }
        ensures err { (before : List ℕ) → HasReadBytes before self.old
            → IfErr result (FaultIn (before ++ byte ∷ [])) }
        ensures no_read { result ≡ Err ReadFailed → ⊥ }
    {
        if byte == b'\n' {
            return self.judge();
        }
        self.line.push(byte);
        Ok(())
    }

    // Parses the current line, which ends here, and appends its events.
    fn judge(&mut self) -> Result<(), ScheduleError>
        ensures ok { (line : List ℕ) (lines : List (List ℕ)) → IsKeptOf self.old.line line
            → HasParsed lines self.old → OnOk result (HasParsed (lines ++ line ∷ []) self.new) }
        ensures next { OnOk result (self.new.line ≡ Some []) }
        ensures err { (line : List ℕ) (lines : List (List ℕ)) → IsKeptOf self.old.line line
            → HasParsed lines self.old
            → IfErr result (λ e. Fault e (length lines + 1) line self.old.events.items) }
        ensures no_read { result ≡ Err ReadFailed → ⊥ }
    {
        // There are no more lines than events, so neither sum saturates.
        let number = self.lines.saturating_add(1);
        let Some(entry) = self.entry() else {
            return Err(ScheduleError::Line(number));
        };
        let count = event_count(&entry);
        if count.saturating_add(self.events.len() as u64) > MAX_EVENTS {
            return Err(ScheduleError::Events);
        }
        let Ok(()) = add_events(&mut self.events, entry) else {
            return Err(ScheduleError::Oom);
        };
        self.lines = number;
        self.line.clear();
        Ok(())
    }

    // The entry of the current line, if the line ends here.
    fn entry(&self) -> Option<Entry>
        ensures parsed { (line : List ℕ) → IsKeptOf self.now.line line
            → IfSome result (SpellsEntry line) }
        ensures bad { (line : List ℕ) → IsKeptOf self.now.line line → IfNone result (IsNoEntry line) }
    {
        entry_of(self.line.text()?)
    }

    // Parses the last line, if it has no line feed, and returns the events of all lines.
    fn end(self) -> Result<Vec<Event<u64>>, ScheduleError>
        ensures ok { (bytes : List ℕ) → HasReadBytes bytes self
            → IfOk result (λ events. ParseAll bytes events.items) }
        ensures err { (bytes : List ℕ) → HasReadBytes bytes self → IfErr result (FaultAtEnd bytes) }
        ensures no_read { result ≡ Err ReadFailed → ⊥ }
    {
        let mut reading = self;
        if !reading.line.is_empty() {
            if let Err(error) = reading.judge() {
                return Err(error);
            }
        }
        let Reading {
            line: _,
            lines: _,
            events,
        } = reading;
        Ok(events)
    }
}
