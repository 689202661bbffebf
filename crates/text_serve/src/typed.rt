//! What a run at a terminal has beside its answers: an empty line and one that begins with `#` are passed over, and what is
//! wrong with a bad line is shown.
//!
//! Tested in `test_serve`.

use std::io::{Error, ErrorKind, IsTerminal, Read, Result, Write};
use text_lines::pending::Pending;
use text_lines::words::Words;
use text_run::command::command_of;

/// How each line of a run goes.
const FORMS: [(&str, &str); 14] = [
    ("get", "get K"),
    ("insert", "insert K V"),
    ("remove", "remove K"),
    (
        "cas",
        "cas K OLD NEW, where OLD and NEW are numbers or none",
    ),
    ("add", "add K D"),
    ("put", "put K D"),
    ("range", "range A B N, where N is 4096 at most"),
    ("keys", "keys"),
    ("empty", "empty"),
    ("count", "count"),
    ("first", "first"),
    ("last", "last"),
    ("floor", "floor K"),
    ("ceiling", "ceiling K"),
];

/// A reader of what may be typed at a terminal.
#[derive(Drop)]
pub struct Typed<R, E> {
    inner: R,
    hints: Option<Hints<E>>,
}

impl<R, E> Typed<R, E> {
    /// Without hints it gives what its reader gives.
    pub fn new(inner: R, hints: Option<Hints<E>>) -> Self {
        Typed { inner, hints }
    }
}

impl<R: Read, E: Write + Drop> Read for Typed<R, E> {
    fn read(&mut self, buf: &mut [u8]) -> Result<usize> {
        let Some(hints) = &mut self.hints else {
            return self.inner.read(buf);
        };
        for _ in 0..u64::MAX {
            let count = self.inner.read(buf)?;
            let kept = hints.sift(&mut buf[..count]).min(count);
            if kept > 0 || count == 0 {
                return Ok(kept);
            }
        }
        Err(Error::from(ErrorKind::Other))
    }
}

/// Looks at the lines of a run before it reads them, and shows on a terminal what is wrong with a bad one.
#[derive(Drop)]
pub struct Hints<E> {
    terminal: E,
    line: Pending,
    is_at_start: bool,
    is_passed_over: bool,
}

impl<E: Write + Drop> Hints<E> {
    /// A line is about to begin.
    pub fn new(terminal: E) -> Self {
        Hints {
            terminal,
            line: Pending::new(),
            is_at_start: true,
            is_passed_over: false,
        }
    }

    // Moves the bytes of all lines that aren't passed over to the front, and returns how many they are.
    fn sift(&mut self, bytes: &mut [u8]) -> usize {
        let mut kept = 0;
        for at in 0..bytes.len() {
            let byte = bytes[at];
            if self.takes(byte) {
                if let Some(place) = bytes.get_mut(kept) {
                    *place = byte;
                    kept += 1;
                }
            }
        }
        kept
    }

    // Whether the run gets this byte.
    fn takes(&mut self, byte: u8) -> bool {
        if self.is_at_start {
            self.is_passed_over = byte == b'\n' || byte == b'#';
        }
        self.is_at_start = byte == b'\n';
        if self.is_passed_over {
            return false;
        }
        if byte == b'\n' {
            self.look();
            self.line.clear();
        } else if self.line.room() > 0 {
            self.line.add(&[byte]);
        }
        true
    }

    // Shows what is wrong with the line that has ended, if something is.
    fn look(&mut self) {
        if command_of(self.line.as_slice()).is_some() {
            return;
        }
        match form_of(self.line.as_slice()) {
            Some(form) => {
                let _ = self.terminal.write_all(b"congee: not as in: ");
                let _ = self.terminal.write_all(form.as_bytes());
                let numbers = b". Numbers are from 0 to 18446744073709551615\n";
                let _ = self.terminal.write_all(numbers);
            }
            None => {
                let other = b"congee: no line begins so. congee run --help lists them\n";
                let _ = self.terminal.write_all(other);
            }
        }
    }
}

// How a line with this one's first word goes.
fn form_of(line: &[u8]) -> Option<&'static str> {
    let mut words = Words::new(line);
    let name = words.next_word()?;
    for (word, form) in FORMS {
        if name == word.as_bytes() {
            return Some(form);
        }
    }
    None
}

/// Hints on standard error, where that, what is read and what is written are at a terminal, for the words of a run.
pub fn hints_of<I: IsTerminal, O: IsTerminal, E: IsTerminal + Write + Drop>(
    input: &I,
    output: &O,
    errors: E,
    words: &[String],
) -> Option<Hints<E>> {
    let is_run = words.first().is_some_and(|word| word.as_str() == "run");
    if !is_run || !errors.is_terminal() || !input.is_terminal() || !output.is_terminal() {
        return None;
    }
    Some(Hints::new(errors))
}
