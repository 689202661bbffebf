//! The statistics at the end of a run.

use crate::tests::{RUN, Row, SMALL_LIMIT, wrong_row};
use std::test::Fail;

const EMPTY: &str = "\
     Level: 0 --- || N4:        0,     0.00 || N16:        0,     0.00 || N48:        0,     0.00 || N256:        1,     0.00 ||\n\
     Overall node count: 1, entry count: 0\n\
     Load factor: 0.00 (too low)\n\
     Active memory usage: 0 Mb\n\
     KV count: 0\n\
     Charged: 2104 bytes\n";

const ONE_PAIR: &str = "\
     Level: 0 --- || N4:        0,     0.00 || N16:        0,     0.00 || N48:        0,     0.00 || N256:        1,     0.00 ||\n\
     Level: 1 --- || N4:        1,     0.25 || N16:        0,     0.00 || N48:        0,     0.00 || N256:        0,     0.00 ||\n\
     Overall node count: 2, entry count: 2\n\
     Load factor: 0.13 (too low)\n\
     Active memory usage: 0 Mb\n\
     KV count: 1\n\
     Charged: 2168 bytes\n";

const COUNTED: &[&str] = &["run", "--stats"];

/// With a limit and without; a run that breaks off has none.
const ROWS: &[Row] = &[
    (COUNTED, "", 0, "", EMPTY),
    (COUNTED, "insert 1 42\nget 1", 0, "ok none\n42\n", ONE_PAIR),
    (
        &["run", "--stats", "2104"],
        "insert 1 42\nget 1\n",
        0,
        "oom\nnone\n",
        EMPTY,
    ),
    (
        &["run", "--stats", "2168"],
        "insert 1 42\nget 1\n",
        0,
        "ok none\n42\n",
        ONE_PAIR,
    ),
    (RUN, "insert 1 42\nget 1\n", 0, "ok none\n42\n", ""),
    (&["run", "--stats", "2103"], "get 1\n", 3, "", SMALL_LIMIT),
];

#[test]
fn statistics_of_a_run(rt: HostRuntime) -> Result<(), Fail> {
    let wrong = wrong_row(rt.alloc(), ROWS)?;
    assert!(rt; wrong.is_none(), "at {wrong:?}");
    Ok(())
}
