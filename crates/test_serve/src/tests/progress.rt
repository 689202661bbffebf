//! The line of progress, at times of their own.

use std::alloc::{AllocError, Global};
use std::cell::Cell;
use std::io;
use std::io::{ErrorKind, IsTerminal, Read, Write};
use std::test::Fail;
use std::time::{Clock, Duration};
use text_serve::progress::{Meter, Metered, meter_of};

/// A clock that shows these milliseconds, or none.
#[derive(Drop)]
struct Shows(Cell<Option<u64>>);

impl Clock for Shows {
    fn monotonic(&self) -> io::Result<Duration> {
        match self.0.get() {
            Some(millis) => Ok(Duration::from_millis(millis)),
            None => Err(io::Error::from(ErrorKind::Unsupported)),
        }
    }

    fn since_1970(&self) -> io::Result<Duration> {
        self.monotonic()
    }
}

// What is shown where these bytes are read at these milliseconds, of which the clock shows none at some.
fn shown(alloc: Global, reads: &[(Option<u64>, &str)]) -> Result<Vec<u8>, AllocError> {
    let mut terminal = Vec::new(alloc);
    let clock = Shows(Cell::new(Some(7000)));
    if let Some(mut meter) = Meter::new(&mut terminal, &clock) {
        for (millis, bytes) in reads {
            clock.0.set(*millis);
            meter.count(bytes.as_bytes());
        }
    }
    Ok(terminal)
}

/// What is read at which milliseconds, the first of which are 7000, and what is shown.
const SHOWN: [(&[(Option<u64>, &str)], &str); 4] = [
    // nothing is shown in the first two seconds
    (
        &[
            (Some(7000), "get 1\nget 2\n"),
            (Some(8999), "get 3\nget"),
            (Some(8999), ""),
        ],
        "",
    ),
    // a line is shown and goes at the end
    (
        &[
            (Some(7100), "get 1\nget 2\nge"),
            (Some(9000), "t 3\n"),
            (Some(9199), "get 4\n"),
            (Some(9200), "get 5\n"),
            (Some(12_000), "\n\n\n\n\n"),
            (Some(12_000), ""),
            (Some(12_000), ""),
        ],
        "\x1b[K3 lines, 1 a second\r\x1b[K5 lines, 2 a second\r\x1b[K10 lines, 2 a second\r\x1b[K",
    ),
    // where the clock goes back, no time has passed
    (&[(Some(6000), "get 1\n"), (Some(0), "get 2\n")], ""),
    // where there is no time, nothing is counted, nor shown
    (
        &[
            (None, "get 1\n"),
            (Some(9000), "get 2\n"),
            (None, "get 3\n"),
            (None, ""),
        ],
        "\x1b[K1 lines, 0 a second\r\x1b[K",
    ),
];

#[test]
fn lines_of_progress(rt: HostRuntime) -> Result<(), Fail> {
    for (reads, wanted) in SHOWN {
        let is_so = shown(rt.alloc(), reads)?.as_slice() == wanted.as_bytes();
        assert!(rt; is_so, "at {wanted:?}");
    }
    Ok(())
}

/// A stream, and whether it is at a terminal.
#[derive(Drop)]
pub struct Stream(pub bool);

impl IsTerminal for Stream {
    fn is_terminal(&self) -> bool {
        self.0
    }
}

impl Write for Stream {
    fn write(&mut self, buf: &[u8]) -> io::Result<usize> {
        Ok(buf.len())
    }

    fn flush(&mut self) -> io::Result<()> {
        Ok(())
    }
}

/// Whether input, output and standard error are at a terminal, and whether there is a clock.
const STREAMS: [(bool, bool, bool, bool); 6] = [
    (false, false, true, true),
    (false, false, false, true),
    (true, false, true, true),
    (false, true, true, true),
    (true, true, true, true),
    (false, false, true, false),
];

// Whether there is a meter in the first case alone.
fn is_metered() -> bool {
    let mut right = true;
    let mut wanted = true;
    for (input, output, errors, has_clock) in STREAMS {
        let clock = Shows(Cell::new(if has_clock { Some(0) } else { None }));
        let meter = meter_of(&Stream(input), &Stream(output), Stream(errors), &clock);
        right = right && meter.is_some() == wanted;
        wanted = false;
    }
    right
}

#[test]
fn a_meter_is_at_a_terminal_of_its_own(rt: HostRuntime) {
    assert!(rt; is_metered());
}

// Whether a metered reader gives what its reader gives, by four bytes and then by four, and its meter counts that.
fn is_handed_on(alloc: Global) -> io::Result<bool> {
    let mut terminal = Vec::new(alloc);
    let clock = Shows(Cell::new(Some(0)));
    let meter = Meter::new(&mut terminal, &clock);
    let mut reader = Metered::new("get 1\n".as_bytes(), meter);
    clock.0.set(Some(4000));
    let mut bytes = [0; 8];
    let first = reader.read(&mut bytes[..4])?;
    clock.0.set(Some(5000));
    let second = reader.read(&mut bytes[4..])?;
    let third = reader.read(&mut bytes[6..])?;
    let is_read = first == 4 && second == 2 && third == 0 && bytes.starts_with(b"get 1\n");
    drop(reader);
    let shown = "\x1b[K0 lines, 0 a second\r\x1b[K1 lines, 0 a second\r\x1b[K";
    Ok(is_read && terminal.as_slice() == shown.as_bytes())
}

#[test]
fn a_metered_reader_gives_what_its_reader_gives(rt: HostRuntime) -> Result<(), Fail> {
    assert!(rt; is_handed_on(rt.alloc())?);
    Ok(())
}
