//! Rows of `congee run`, worked out by hand.

use crate::tests::streams::Torn;
use crate::tests::{Outcome, RUN, Row, SMALL_LIMIT, gives, wrong_row};
use std::alloc::{AllocError, Global};
use std::io::Read;
use std::test::Fail;
use text_lines::watched::Watched;

#[test]
fn watched_reader(rt: HostRuntime) -> Result<(), Fail> {
    let mut input = Watched::new("get 1".as_bytes());
    let mut name = [0; 4];
    let count = input.read(&mut name)?;
    let failed = input.failed();
    assert!(rt; count == 4 && !failed && input.into_inner() == b"1".as_slice());
    Ok(())
}

const ANSWERS: &[Row] = &[
    (RUN, "insert 1 42\nget 1\n", 0, "ok none\n42\n", ""),
    (
        RUN,
        "insert 1 42\nget 1\ninsert 1 43\nget 1",
        0,
        "ok none\n42\nok 42\n43\n",
        "",
    ),
    (RUN, "insert 01 2\n", 0, "bad line\n", ""),
    (RUN, "get 1", 0, "none\n", ""),
    (RUN, "", 0, "", ""),
    (
        RUN,
        "first\nlast\ncount\nfloor 5\nceiling 5\n",
        0,
        "none\nnone\n0\nnone\nnone\n",
        "",
    ),
    (
        RUN,
        "insert 3 30\ninsert 18446744073709551615 1\ninsert 300 7\nfirst\nlast\ncount\nfloor 2\nfloor 3\nfloor 299\n\
             ceiling 4\nceiling 301\nceiling 18446744073709551615\nremove 3\nfirst\ncount\n",
        0,
        "ok none\nok none\nok none\n3=30\n18446744073709551615=1\n3\nnone\n3=30\n3=30\n\
             300=7\n18446744073709551615=1\n18446744073709551615=1\n30\n300=7\n2\n",
        "",
    ),
    (
        RUN,
        "first 1\nlast 1\ncount 1\nfloor\nfloor 1 2\nfloor x\nceiling\nceiling 01\n",
        0,
        "bad line\nbad line\nbad line\nbad line\nbad line\nbad line\nbad line\nbad line\n",
        "",
    ),
    (RUN, "\n", 0, "bad line\n", ""),
    (
        RUN,
        "get 1\nget x\nGET 1\n\nget  1\nget 1 \n get 1\nget 1\r\nget +1\n",
        0,
        "none\nbad line\nbad line\nbad line\nbad line\nbad line\nbad line\nbad line\nbad line\n",
        "",
    ),
    (
        RUN,
        "insert 18446744073709551615 0\nget 18446744073709551615\nget 18446744073709551616\n",
        0,
        "ok none\n0\nbad line\n",
        "",
    ),
    (
        RUN,
        "insert 5 18446744073709551615\nadd 5 1\nget 5\nput 7 3\nput 7 4\nget 7\nadd 9 1\n",
        0,
        "ok none\n18446744073709551615 none\nnone\nok none\nok 3\n7\nnone\n",
        "",
    ),
    (
        RUN,
        "put 7 18446744073709551615\nput 7 4\nget 7\nadd 7 0\nadd 7 1\nget 7\n",
        0,
        "ok none\nok 18446744073709551615\n18446744073709551615\n18446744073709551615 18446744073709551615\n18446744073709551615 none\nnone\n",
        "",
    ),
    (
        RUN,
        "insert 1 42\ncas 1 41 43\ncas 1 42 43\nget 1\ncas 1 43 none\ncas 1 43 44\nget 1\n",
        0,
        "ok none\nerr 42\nok 43\n43\nok none\nerr none\nnone\n",
        "",
    ),
    (
        RUN,
        "empty\ninsert 1 1\ninsert 256 2\nempty\nremove 1\nremove 1\nremove 256\nempty\n",
        0,
        "true\nok none\nok none\nfalse\n1\nnone\n2\ntrue\n",
        "",
    ),
    (
        RUN,
        "insert 1 42\nget 1\ninsert 1 43\nrange 0 10 8\ncas 1 43 none\nget 1\nget x\nkeys\nempty\n",
        0,
        "ok none\n42\nok 42\n1 1=43\nok none\nnone\nbad line\n0\ntrue\n",
        "",
    ),
    (RUN, "get 1\nkeys", 0, "none\n0\n", ""),
    (
        RUN,
        "insert 300 3\ninsert 2 18446744073709551615\ninsert 18446744073709551615 7\nkeys\nrange 0 18446744073709551615 9\nrange 2 300 9\nrange 2 301 1\n",
        0,
        "ok none\nok none\nok none\n3 2 300 18446744073709551615\n2 2=18446744073709551615 300=3\n1 2=18446744073709551615\n1 2=18446744073709551615\n",
        "",
    ),
    (
        RUN,
        "insert 5 5\nrange 0 5 8\nrange 0 6 8\nrange 6 0 8\nrange 0 6 0\nrange 0 6 4096\nrange 0 6 4097\nrange 0 6\nrange 0 6 1 1\nrange 0 x 1\nkeys 1\nkeys \n",
        0,
        "ok none\n0\n1 5=5\n0\n0\n1 5=5\nbad line\nbad line\nbad line\nbad line\nbad line\nbad line\n",
        "",
    ),
    (
        RUN,
        "empty 1\nremove\nremove none\ncas 1 none 2\ncas 1 2\nadd 1 none\nput 1\n",
        0,
        "bad line\nbad line\nbad line\nbad line\nbad line\nbad line\nbad line\n",
        "",
    ),
];

#[test]
fn answers(rt: HostRuntime) -> Result<(), Fail> {
    let wrong = wrong_row(rt.alloc(), ANSWERS)?;
    assert!(rt; wrong.is_none(), "at {wrong:?}");
    Ok(())
}

// A line of this length between two commands.
fn long_line(alloc: Global, len: usize) -> Result<Vec<u8>, AllocError> {
    let mut input = Vec::new(alloc);
    input.extend_from_slice(b"insert 1 42\n")?;
    for _ in 0..len {
        input.push(b'1')?;
    }
    input.extend_from_slice(b"\nget 1\n")?;
    Ok(input)
}

fn serves_long_line(alloc: Global, len: usize) -> Result<bool, AllocError> {
    let input = long_line(alloc, len)?;
    let wanted = Outcome::of(0, "ok none\nbad line\n42\n", "");
    gives(alloc, &["run"], input.as_slice(), wanted)
}

#[test]
fn long_lines(rt: HostRuntime) -> Result<(), Fail> {
    for len in [256, 257, 5000] {
        assert!(rt; serves_long_line(rt.alloc(), len)?, "at {len}");
    }
    Ok(())
}

const LIMITED: &str = "insert 0 100\ninsert 18446744073709551615 100\nget 0\ninsert 0 7\nput 5 1\n";

/// A limit, the exit status, and what is written.
const LIMITS: [(&str, u8, &str); 7] = [
    ("2103", 3, ""),
    ("0", 3, ""),
    ("2104", 0, "oom\noom\nnone\noom\noom\n"),
    ("2168", 0, "ok none\noom\n100\nok 100\nok none\n"),
    ("2296", 0, "ok none\nok none\n100\nok 100\nok none\n"),
    ("5000", 0, "ok none\nok none\n100\nok 100\nok none\n"),
    (
        "18446744073709551615",
        0,
        "ok none\nok none\n100\nok 100\nok none\n",
    ),
];

#[test]
fn limits(rt: HostRuntime) -> Result<(), Fail> {
    for (limit, status, written) in LIMITS {
        let stderr = if status == 0 { "" } else { SMALL_LIMIT };
        let wanted = Outcome::of(status, written, stderr);
        let is_so = gives(rt.alloc(), &["run", limit], LIMITED.as_bytes(), wanted)?;
        assert!(rt; is_so, "at {limit}");
    }
    Ok(())
}
