//! Readers and writers that break off.

use std::alloc::Global;
use std::io;
use std::io::{ErrorKind, Read, Write};

/// Gives its bytes, a few at a time. Before the rest of them it fails once, or reports once that there are no more.
#[derive(Drop)]
pub struct Torn<'a> {
    first: &'a [u8],
    rest: &'a [u8],
    at_once: usize,
    fails: bool,
}

impl<'a> Torn<'a> {
    /// All of it, a byte at a time.
    pub fn whole(first: &'a [u8]) -> Torn<'a> {
        Torn::pausing(first, b"")
    }

    /// A byte at a time, and it reports that there are no more before the rest.
    pub fn pausing(first: &'a [u8], rest: &'a [u8]) -> Torn<'a> {
        Torn {
            first,
            rest,
            at_once: 1,
            fails: false,
        }
    }

    /// It fails before the rest.
    pub fn failing(first: &'a [u8], rest: &'a [u8], at_once: usize) -> Torn<'a> {
        Torn {
            first,
            rest,
            at_once,
            fails: true,
        }
    }
}

impl Read for Torn<'_> {
    fn read(&mut self, buf: &mut [u8]) -> io::Result<usize> {
        let n = self.first.len().min(self.at_once).min(buf.len());
        if n > 0 {
            return self.first.read(&mut buf[..n]);
        }
        self.first = self.rest;
        if self.fails {
            return Err(io::Error::from(ErrorKind::BrokenPipe));
        }
        Ok(0)
    }
}

/// Takes so many bytes, a few at a time, and then none, or fails.
#[derive(Drop)]
pub struct Full {
    pub taken: Vec<u8>,
    room: usize,
    at_once: usize,
    fails: bool,
}

impl Full {
    /// At its end it takes none, or fails, and at a flush then.
    pub fn new(alloc: Global, room: usize, at_once: usize, fails: bool) -> Full {
        Full {
            taken: Vec::new(alloc),
            room,
            at_once,
            fails,
        }
    }
}

impl Write for Full {
    fn write(&mut self, buf: &[u8]) -> io::Result<usize> {
        let n = buf.len().min(self.at_once).min(self.room);
        if n == 0 && self.fails {
            return Err(io::Error::from(ErrorKind::BrokenPipe));
        }
        self.taken.extend_from_slice(&buf[..n])?;
        self.room -= n;
        Ok(n)
    }

    fn flush(&mut self) -> io::Result<()> {
        if self.fails {
            return Err(io::Error::from(ErrorKind::BrokenPipe));
        }
        Ok(())
    }
}
