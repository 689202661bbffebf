//! What is typed at a terminal.

use crate::tests::progress::Stream;
use crate::tests::streams::Torn;
use crate::tests::words_of;
use std::alloc::{AllocError, Global};
use std::io::Read;
use std::test::Fail;
use text_serve::typed::{Hints, Typed, hints_of};

/// What is typed, what the run gets of it, and what is shown.
const TYPED: [(&str, &str, &str); 6] = [
    ("get 1\n\n# a remark\nget 2", "get 1\nget 2", ""),
    ("\n\n#\n", "", ""),
    (
        "get\nget 01\n",
        "get\nget 01\n",
        "congee: not as in: get K. Numbers are from 0 to 18446744073709551615\n\
         congee: not as in: get K. Numbers are from 0 to 18446744073709551615\n",
    ),
    (
        " get 1\nwalk\n",
        " get 1\nwalk\n",
        "congee: no line begins so. congee run --help lists them\n\
         congee: no line begins so. congee run --help lists them\n",
    ),
    (
        "range 1 2 4097\n",
        "range 1 2 4097\n",
        "congee: not as in: range A B N, where N is 4096 at most. Numbers are from 0 to 18446744073709551615\n",
    ),
    (
        "insert 1 2\n #\n",
        "insert 1 2\n #\n",
        "congee: no line begins so. congee run --help lists them\n",
    ),
];

// Whether the run gets this, and this is shown, where so many bytes are typed at once. Without hints it gets all.
fn is_sifted(alloc: Global, row: (&str, &str, &str), at_once: usize) -> Result<bool, AllocError> {
    let (typed, wanted, shown) = row;
    let mut terminal = Vec::new(alloc);
    let hints = Hints::new(&mut terminal);
    let mut reader = Typed::new(Torn::failing(typed.as_bytes(), b"", at_once), Some(hints));
    let mut bytes = [0; 100];
    let mut got = Vec::new(alloc);
    for _ in 0..100 {
        let count = reader.read(&mut bytes).unwrap_or(0);
        got.extend_from_slice(&bytes[..count])?;
    }
    drop(reader);
    Ok(got.as_slice() == wanted.as_bytes() && terminal.as_slice() == shown.as_bytes())
}

#[test]
fn lines_at_a_terminal(rt: HostRuntime) -> Result<(), Fail> {
    for row in TYPED {
        for at_once in [1, 5, 100] {
            let is_so = is_sifted(rt.alloc(), row, at_once)?;
            assert!(rt; is_so, "at {row:?}");
        }
    }
    Ok(())
}

/// The words, and whether input, output and standard error are at a terminal. There are hints in the first two cases alone.
const STREAMS: [(&[&str], bool, bool, bool); 7] = [
    (&["run"], true, true, true),
    (&["run", "4096"], true, true, true),
    (&["run"], false, true, true),
    (&["run"], true, false, true),
    (&["run"], true, true, false),
    (&["schedule"], true, true, true),
    (&[], true, true, true),
];

// Whether there are hints in those two cases alone.
fn are_hinted(alloc: Global) -> Result<bool, AllocError> {
    let mut right = true;
    for (at, (words, input, output, errors)) in STREAMS.iter().enumerate() {
        let list = words_of(alloc, words)?;
        let hints = hints_of(&Stream(*input), &Stream(*output), Stream(*errors), &list);
        right = right && hints.is_some() == (at < 2);
    }
    Ok(right)
}

#[test]
fn hints_are_for_runs_at_a_terminal(rt: HostRuntime) -> Result<(), Fail> {
    assert!(rt; are_hinted(rt.alloc())?);
    Ok(())
}
