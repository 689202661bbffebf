//! How far a long run is, for whoever waits for it at a terminal.
//!
//! Tested in `test_serve`.

ghost use Rattle.std.specs.Prelude.{◌≡◌, ◌≤◌, ℕ, List, Option, length};

use std::io::{IsTerminal, Read, Result, Write};
use std::time::{Clock, Instant};
use text_lines::pending::Pending;

/// How long nothing is shown, in milliseconds.
const SILENT: u128 = 2000;

/// How long a line stays as it is, in milliseconds.
const STEADY: u128 = 200;

/// A reader that may show how many lines were read of it.
#[derive(Drop)]
pub struct Metered<R, M> {
    inner: R,
    meter: Option<M>,
}

impl<R, M> Metered<R, M> {
    /// Without a meter nothing is shown.
    pub fn new(inner: R, meter: Option<M>) -> Self
        ensures { result.inner ≡ inner }
    {
        Metered { inner, meter }
    }
}

impl<R: Read, E: Write + Drop, C: Clock> Read for Metered<R, Meter<'_, E, C>> {
    ghost remaining = { λ m. R.remaining m.inner };

    fn read(&mut self, buf: &mut [u8]) -> Result<usize> {
        let count = self.inner.read(buf)?;
        if let Some(meter) = &mut self.meter {
            meter.count(&buf[..count]);
        }
        Ok(count)
    }
}

/// Shows on a terminal how many lines were read, and how many of them in a second.
///
/// It shows nothing in the first two seconds, and then one line, which the next thing that is written there takes the
/// place of; at the end of what is read the line goes.
#[derive(Drop)]
pub struct Meter<'a, E, C> {
    terminal: E,
    clock: &'a C,
    start: Instant,
    shown: Option<Instant>,
    lines: u64,
}

impl<'a, E: Write + Drop, C: Clock> Meter<'a, E, C> {
    /// The time begins now. `None` where there is no clock.
    pub fn new(terminal: E, clock: &'a C) -> Option<Self> {
        Some(Meter {
            terminal,
            clock,
            start: Instant::now(clock).ok()?,
            shown: None,
            lines: 0,
        })
    }

    /// Counts the lines of what was read, which is nothing at the end.
    pub fn count(&mut self, bytes: &[u8]) {
        if bytes.is_empty() {
            self.clear();
        } else if let Ok(now) = Instant::now(self.clock) {
            self.count_at(bytes, now);
        }
    }

    // Counts the lines of what was read. Shows their number where that is due at this time.
    fn count_at(&mut self, bytes: &[u8], now: Instant) {
        for byte in bytes {
            if *byte == b'\n' {
                self.lines = self.lines.saturating_add(1);
            }
        }
        if self.is_due(now) {
            self.shown = Some(now);
            self.show(now);
        }
    }

    fn is_due(&self, now: Instant) -> bool {
        match self.shown {
            None => SILENT <= now.duration_since(self.start).as_millis(),
            Some(shown) => STEADY <= now.duration_since(shown).as_millis(),
        }
    }

    // Writes the line, and goes back to its beginning.
    fn show(&mut self, now: Instant) {
        let millis = now.duration_since(self.start).as_millis().max(1);
        let mut text = Pending::new();
        text.add(b"\x1b[K");
        text.add_number(self.lines);
        text.add(b" lines, ");
        text.add_count(u128::from(self.lines) * 1000 / millis);
        text.add(b" a second\r");
        let _ = self.terminal.write_all(text.as_slice());
    }

    // Takes the line away, if there is one.
    fn clear(&mut self) {
        if self.shown.is_some() {
            self.shown = None;
            let _ = self.terminal.write_all(b"\x1b[K");
        }
    }
}

/// A meter on standard error, where that is a terminal and no other stream is at one: neither what is typed nor the
/// answers stand in its place.
pub fn meter_of<'a, I: IsTerminal, O: IsTerminal, E: IsTerminal + Write + Drop, C: Clock>(
    input: &I,
    output: &O,
    errors: E,
    clock: &'a C,
) -> Option<Meter<'a, E, C>> {
    if !errors.is_terminal() || input.is_terminal() || output.is_terminal() {
        return None;
    }
    Meter::new(errors, clock)
}
