//! An output that nobody reads any more, as behind `congee run | head -1`. The program then ends without a word, as
//! filters do.
//!
//! Tested in `test_serve` and `tools/dev/try-program`.

ghost use Rattle.std.specs.Prelude.{◌≡◌};

use std::cell::Cell;
use std::io::{Error, ErrorKind, Result, Write};

/// A writer which notes that nobody reads any more what it writes.
#[derive(Drop)]
pub struct Piped<'a, W> {
    inner: W,
    gone: &'a Cell<bool>,
}

impl<'a, W> Piped<'a, W> {
    pub fn new(inner: W, gone: &'a Cell<bool>) -> Self
        ensures { result.inner ≡ inner }
    {
        Piped { inner, gone }
    }

    // Notes it where a call failed so.
    fn note<T>(&self, made: &Result<T>) {
        if let Err(error) = made {
            if error.kind() == ErrorKind::BrokenPipe {
                self.gone.set(true);
            }
        }
    }
}

impl<W: Write> Write for Piped<'_, W> {
    ghost contents = { λ p. W.contents p.inner };

    fn write(&mut self, buf: &[u8]) -> Result<usize> {
        let made = self.inner.write(buf);
        self.note(&made);
        made
    }

    fn flush(&mut self) -> Result<()> {
        let made = self.inner.flush();
        self.note(&made);
        made
    }
}

/// A writer that writes nothing once that is noted.
#[derive(Drop)]
pub struct Hushed<'a, E> {
    inner: E,
    gone: &'a Cell<bool>,
}

impl<'a, E> Hushed<'a, E> {
    pub fn new(inner: E, gone: &'a Cell<bool>) -> Self
        ensures { result.inner ≡ inner }
    {
        Hushed { inner, gone }
    }
}

impl<E: Write> Write for Hushed<'_, E> {
    ghost contents = { λ h. E.contents h.inner };

    fn write(&mut self, buf: &[u8]) -> Result<usize> {
        if self.gone.get() {
            return Err(Error::from(ErrorKind::BrokenPipe));
        }
        self.inner.write(buf)
    }

    fn flush(&mut self) -> Result<()> {
        self.inner.flush()
    }
}
