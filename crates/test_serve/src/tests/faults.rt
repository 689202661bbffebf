//! Streams that break off, at each of their bytes.

use crate::tests::streams::{Full, Torn};
use crate::tests::{BROKEN, CONTENTS, EVENTS, Outcome, RUN, SCHEDULE, ends, gives, words_of};
use std::alloc::{AllocError, Global};
use std::test::Fail;

/// A torn read, which the check after it finds out.
const TORN: &str =
    "start 0 insert 1 42\nstep 0 8\nstart 1 get 1\nstep 1 5\nstart 2 insert 1 43\nstep 2 8\ntorn 1 value 999\nstep 2 3\nstep 1 9\n";

const TORN_TEXT: &str = "0 ok none\n2 ok 42\n1 43\ncontent 1=43\n";

const TORN_TRACE: &str = "1 0 S start - ok insert 1 42\n\
     2 0 T take 0 ok word 0\n\
     3 0 R read 0 ok sees none count 0\n\
     4 0 C check 0 ok\n\
     5 0 U upgrade 0 ok\n\
     6 0 A make 1 ok\n\
     7 0 W write 0 ok decided ok none\n\
     8 0 L unlock 0 ok\n\
     9 0 F finish - ok ended\n\
     10 1 S start - ok get 1\n\
     11 1 T take 0 ok word 4\n\
     12 1 R read 0 ok sees node 1 count 1\n\
     13 1 C check 0 ok\n\
     14 1 T take 1 ok word 0\n\
     15 1 C check 0 ok\n\
     16 2 S start - ok insert 1 43\n\
     17 2 T take 0 ok word 4\n\
     18 2 R read 0 ok sees node 1 count 1\n\
     19 2 C check 0 ok\n\
     20 2 T take 1 ok word 0\n\
     21 2 C check 0 ok\n\
     22 2 R read 1 ok sees value 42 count 1\n\
     23 2 C check 1 ok\n\
     24 2 U upgrade 1 ok\n\
     25 1 R read 1 ok sees value 999 count 0\n\
     26 2 W write 1 ok decided ok 42\n\
     27 2 L unlock 1 ok\n\
     28 2 F finish - ok ended\n\
     29 1 C check 1 failed\n\
     30 1 T take 0 ok word 4\n\
     31 1 R read 0 ok sees node 1 count 1\n\
     32 1 C check 0 ok\n\
     33 1 T take 1 ok word 4\n\
     34 1 C check 0 ok\n\
     35 1 R read 1 ok sees value 43 count 1\n\
     36 1 C check 1 ok decided 43\n\
     37 1 F finish - ok ended\n\
     content 1=43\n";

/// How many bytes are given before the fault, and what is written: the answers of the lines that have ended.
const FAULTS: [(usize, &str); 11] = [
    (0, ""),
    (11, ""),
    (12, "ok none\n"),
    (15, "ok none\n"),
    (17, "ok none\n"),
    (18, "ok none\n42\n"),
    (24, "ok none\n42\nbad line\n"),
    (25, "ok none\n42\nbad line\nbad line\n"),
    (29, "ok none\n42\nbad line\nbad line\n"),
    (30, "ok none\n42\nbad line\nbad line\n1 1\n"),
    (35, "ok none\n42\nbad line\nbad line\n1 1\n"),
];

// At how many bytes at once a run has another outcome, where a read fails after so many bytes; or 0.
fn wrong_fault(alloc: Global, at: usize, written: &str) -> Result<usize, AllocError> {
    let lines = b"insert 1 42\nget 1\nget x\n\nkeys\nempty".as_slice();
    let (first, rest) = lines.split_at(at.min(lines.len()));
    for at_once in [1, 2, 3, 7, 100] {
        let input = Torn::failing(first, rest, at_once);
        if !gives(alloc, RUN, input, Outcome::unread(written))? {
            return Ok(at_once);
        }
    }
    Ok(0)
}

#[test]
fn torn_input(rt: HostRuntime) -> Result<(), Fail> {
    for (at, written) in FAULTS {
        let wrong = wrong_fault(rt.alloc(), at, written)?;
        assert!(rt; wrong == 0, "{wrong} at once, {at} before the fault");
    }
    Ok(())
}

/// What is given before a read of none is the whole input, and its rest is a line.
const ENDS: [(usize, &str); 4] = [
    (0, ""),
    (5, "bad line\n"),
    (11, "ok none\n"),
    (12, "ok none\n"),
];

#[test]
fn input_that_ends_early(rt: HostRuntime) -> Result<(), Fail> {
    for (at, written) in ENDS {
        let lines = b"insert 1 42\nget 1\n".as_slice();
        let (first, rest) = lines.split_at(at.min(lines.len()));
        let input = Torn::pausing(first, rest);
        let is_so = gives(rt.alloc(), RUN, input, Outcome::of(0, written, ""))?;
        assert!(rt; is_so, "{at} before the end");
    }
    Ok(())
}

// Whether a read that fails in this schedule is reported, at each number of bytes at once, and nothing is written.
fn breaks_off(alloc: Global, words: &[&str], input: &[u8]) -> Result<bool, AllocError> {
    for at_once in [1, 2, 3, 4, 100] {
        let input = Torn::failing(input, b"", at_once);
        if !gives(alloc, words, input, Outcome::unread(""))? {
            return Ok(false);
        }
    }
    Ok(true)
}

// A read fails after each number of bytes of a schedule.
#[test]
fn broken_schedules(rt: HostRuntime) -> Result<(), Fail> {
    let text = TORN.as_bytes();
    for count in 0..text.len() {
        let is_so = breaks_off(rt.alloc(), SCHEDULE, &text[..count])?;
        assert!(rt; is_so, "after {count}");
    }
    Ok(())
}

// A read fails in a line, whatever was read of it; a bad line before that is reported.
#[test]
fn torn_lines(rt: HostRuntime) -> Result<(), Fail> {
    let torn = b"start 0 insert 1 42\nstep 0 8\nwalk";
    let of_schedule = breaks_off(rt.alloc(), SCHEDULE, torn)?;
    let of_trace = breaks_off(rt.alloc(), CONTENTS, torn)?;
    assert!(rt; of_schedule && of_trace);
    for at_once in 1..5 {
        let input = Torn::failing(b"walk\nstart 1", b"", at_once);
        let wanted = Outcome::of(4, "", "congee: bad line 1\n");
        let is_so = gives(rt.alloc(), SCHEDULE, input, wanted)?;
        assert!(rt; is_so, "{at_once} at once");
    }
    Ok(())
}

// Whether what these words ask for, at a writer with room for so many bytes, breaks off, and has written the first ones
// of these.
fn fills(
    alloc: Global,
    words: &[&str],
    input: &[u8],
    wanted: &[u8],
    room: usize,
    fails: bool,
) -> Result<bool, AllocError> {
    let list = words_of(alloc, words)?;
    let mut output = Full::new(alloc, room, 7, fails);
    let ending = Outcome {
        writer_failed: true,
        ..Outcome::of(1, "", BROKEN)
    };
    let ends = ends(alloc, &list, input, &mut output, ending);
    Ok(ends && output.taken.len() == room && wanted.starts_with(output.taken.as_slice()))
}

// The first room for less than all of it with which it doesn't; or the room for all.
fn wrong_room(
    alloc: Global,
    words: &[&str],
    input: &str,
    wanted: &str,
    fails: bool,
) -> Result<usize, AllocError> {
    let (input, wanted) = (input.as_bytes(), wanted.as_bytes());
    for room in 0..wanted.len() {
        if !fills(alloc, words, input, wanted, room, fails)? {
            return Ok(room);
        }
    }
    Ok(wanted.len())
}

const RUN_INPUT: &str = "insert 1 42\nget 1\n";

const RUN_TEXT: &str = "ok none\n42\n";

#[test]
fn full_output(rt: HostRuntime) -> Result<(), Fail> {
    let room = wrong_room(rt.alloc(), RUN, RUN_INPUT, RUN_TEXT, false)?;
    assert!(rt; room == RUN_TEXT.len(), "room for {room}");
    let room = wrong_room(rt.alloc(), RUN, RUN_INPUT, RUN_TEXT, true)?;
    assert!(rt; room == RUN_TEXT.len(), "room for {room} before it fails");
    // (with room for all, the flush at the end fails)
    let (input, wanted) = (RUN_INPUT.as_bytes(), RUN_TEXT.as_bytes());
    assert!(rt; fills(rt.alloc(), RUN, input, wanted, wanted.len(), true)?);
    Ok(())
}

#[test]
fn full_schedules(rt: HostRuntime) -> Result<(), Fail> {
    let room = wrong_room(rt.alloc(), SCHEDULE, TORN, TORN_TEXT, false)?;
    assert!(rt; room == TORN_TEXT.len(), "room for {room}");
    let room = wrong_room(rt.alloc(), EVENTS, TORN, TORN_TRACE, false)?;
    assert!(rt; room == TORN_TRACE.len(), "room for {room} of a trace");
    Ok(())
}

// Lines that insert the keys below a number, each with itself as its value, and then this one.
fn add_inserted(input: &mut String, count: u64, last: &str) -> Result<(), AllocError> {
    for key in 0..count {
        writeln!(input, "insert {key} {key}")?;
    }
    input.push_str(last)
}

// What those lines are answered: all keys, or all pairs.
fn add_listed(text: &mut String, count: u64, with_values: bool) -> Result<(), AllocError> {
    for _ in 0..count {
        text.push_str("ok none\n")?;
    }
    write!(text, "{count}")?;
    for key in 0..count {
        write!(text, " {key}")?;
        if with_values {
            write!(text, "={key}")?;
        }
    }
    text.push_str("\n")
}

// Whether such lines are answered in full to a writer with room, or in part to one that is full after so many bytes.
fn gives_list(
    alloc: Global,
    line: &str,
    with_values: bool,
    room: Option<usize>,
) -> Result<bool, AllocError> {
    let mut input = String::new(alloc);
    let mut wanted = String::new(alloc);
    add_inserted(&mut input, 4000, line)?;
    add_listed(&mut wanted, 4000, with_values)?;
    match room {
        None => gives(
            alloc,
            RUN,
            Torn::whole(input.as_bytes()),
            Outcome::of(0, wanted.as_str(), ""),
        ),
        Some(room) => fills(alloc, RUN, input.as_bytes(), wanted.as_bytes(), room, false),
    }
}

/// A line with a long answer, whether that has values, and the room for it: all, or it is full in the middle of the list.
const LISTS: [(&str, bool, Option<usize>); 8] = [
    ("keys\n", false, None),
    ("keys\n", false, Some(33_000)),
    ("keys\n", false, Some(40_000)),
    ("keys\n", false, Some(50_000)),
    ("range 0 5000 4096\n", true, None),
    ("range 0 5000 4096\n", true, Some(33_000)),
    ("range 0 5000 4096\n", true, Some(40_000)),
    ("range 0 5000 4096\n", true, Some(50_000)),
];

#[test]
fn answers_longer_than_the_buffer(rt: HostRuntime) -> Result<(), Fail> {
    for (line, with_values, room) in LISTS {
        assert!(rt;
            gives_list(rt.alloc(), line, with_values, room)?,
            "at {line} in {room:?}"
        );
    }
    Ok(())
}
