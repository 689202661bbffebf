//! Whole runs over streams in memory.

mod faults;
mod pipes;
mod progress;
mod rows;
mod schedules;
mod statistics;
mod streams;
mod typed;
mod usage;
mod words;

use crate::tests::streams::Full;
use std::alloc::{AllocError, Global};
use std::io::{Read, Write};
use text_lines::watched::Watched;
use text_serve::serve::serve;

const RUN: &[&str] = &["run"];

const SCHEDULE: &[&str] = &["schedule"];

const EVENTS: &[&str] = &["trace"];

const CONTENTS: &[&str] = &["trace", "--content"];

const BROKEN: &str = "congee: input or output failed\n";

const SMALL_LIMIT: &str = "congee: LIMIT is at least 2104, the bytes of an empty map\n";

/// The words after the program's name, what is read, the exit status, what is written, and the text on standard error.
type Row = (
    &'static [&'static str],
    &'static str,
    u8,
    &'static str,
    &'static str,
);

/// The outcome of a run. It is `Copy`: what a run owns stays in helpers that return it or a `bool`, since each
/// assertion beside an owned value makes a test more expensive to prove.
#[derive(Clone, Copy)]
struct Outcome<'a> {
    status: u8,
    written: &'a [u8],
    stderr: &'a str,
    reader_failed: bool,
    writer_failed: bool,
}

impl<'a> Outcome<'a> {
    // No stream failed.
    fn of(status: u8, written: &'a str, stderr: &'a str) -> Outcome<'a> {
        Outcome {
            status,
            written: written.as_bytes(),
            stderr,
            reader_failed: false,
            writer_failed: false,
        }
    }

    // A read failed.
    fn unread(written: &'a str) -> Outcome<'a> {
        Outcome {
            reader_failed: true,
            ..Outcome::of(1, written, BROKEN)
        }
    }
}

fn words_of(alloc: Global, words: &[&str]) -> Result<Vec<String>, AllocError> {
    let mut list = Vec::new(alloc);
    for word in words {
        list.push(String::from_str(alloc, word)?)?;
    }
    Ok(list)
}

// Whether a run of the words has this status, writes this to `errors`, and its streams failed or not.
fn ends<R: Read + Drop, W: Write>(
    alloc: Global,
    words: &[String],
    reader: R,
    writer: &mut W,
    wanted: Outcome<'_>,
) -> bool {
    let mut input = Watched::new(reader);
    let mut output = Watched::new(writer);
    let mut errors = Full::new(alloc, 1000, 1, false);
    let status = serve(alloc, words, &mut input, &mut output, &mut errors);
    status == wanted.status
        && errors.taken.as_slice() == wanted.stderr.as_bytes()
        && input.failed() == wanted.reader_failed
        && output.failed() == wanted.writer_failed
}

// Whether a run of the words has this outcome.
fn gives<R: Read + Drop>(
    alloc: Global,
    words: &[&str],
    reader: R,
    wanted: Outcome<'_>,
) -> Result<bool, AllocError> {
    let list = words_of(alloc, words)?;
    let mut written = Vec::new(alloc);
    let ends = ends(alloc, &list, reader, &mut written, wanted);
    Ok(ends && written.as_slice() == wanted.written)
}

// The input of the first row whose run has another outcome.
fn wrong_row(alloc: Global, rows: &[Row]) -> Result<Option<&'static str>, AllocError> {
    for (words, input, status, written, stderr) in rows {
        let wanted = Outcome::of(*status, written, stderr);
        if !gives(alloc, words, input.as_bytes(), wanted)? {
            return Ok(Some(*input));
        }
    }
    Ok(None)
}
