//! Schedules and traces, as rows worked out by hand; `examples/schedules` has more.

use crate::tests::{CONTENTS, EVENTS, Row, SCHEDULE, wrong_row};
use std::test::Fail;

const TOO_MANY: &str = "congee: too many events\n";

/// The second upgrade of a removal fails, and it begins again.
const FAILED: &str =
    "start 0 insert 1 42\nstep 0 8\nstart 1 remove 1\nstep 1 8\nfail 1\nstep 1 14\nreclaim 1\n";

const REPLAYED: &[Row] = &[
    (SCHEDULE, "", 0, "content\n", ""),
    // a torn read, which the check after it finds out
    (
        SCHEDULE,
        "start 0 insert 1 42\nstep 0 8\nstart 1 get 1\nstep 1 5\nstart 2 insert 1 43\nstep 2 8\ntorn 1 value 999\nstep 2 3\nstep 1 9\n",
        0,
        "0 ok none\n2 ok 42\n1 43\ncontent 1=43\n",
        "",
    ),
    // a leaf grows under a reader, and is reclaimed once that has ended
    (
        SCHEDULE,
        "start 0 insert 0 0\nstep 0 8\nstart 0 insert 1 1\nstep 0 11\nstart 0 insert 2 2\nstep 0 11\nstart 0 insert 3 3\nstep 0 11\nstart 1 get 2\nstep 1 5\nstart 2 insert 4 4\nstep 2 14\nreclaim 1\ntorn 1 none\nstep 1 9\nreclaim 1\n",
        0,
        "0 ok none\n0 ok none\n0 ok none\n0 ok none\n2 ok none\nskipped\n1 2\nreclaimed 1\ncontent 0=0 1=1 2=2 3=3 4=4\n",
        "",
    ),
    (
        SCHEDULE,
        FAILED,
        0,
        "0 ok none\n1 42\nreclaimed 1\ncontent\n",
        "",
    ),
    // a range that passes over an inner node which was emptied and isn't taken out yet
    (
        SCHEDULE,
        "start 0 insert 1 1\nstep 0 8\nstart 0 insert 256 2\nstep 0 13\nstart 0 insert 65536 3\nstep 0 13\nstart 0 remove 1\nstep 0 21\nstart 0 remove 256\nstep 0 20\nstart 1 range 0 131072 1\nstep 1 23\n",
        0,
        "0 ok none\n0 ok none\n0 ok none\n0 1\n0 2\n1 pair 65536 3\ncontent 65536=3\n",
        "",
    ),
    (EVENTS, "", 0, "content\n", ""),
    (CONTENTS, "", 0, "content\n", ""),
    // as much of a call as shows each detail
    (
        EVENTS,
        "start 0 get 7\nstep 0 5\n",
        0,
        "1 0 S start - ok get 7\n2 0 T take 0 ok word 0\n3 0 R read 0 ok sees none count 0\n4 0 C check 0 ok decided none\n\
         5 0 F finish - ok ended\n6 0 - step - skipped\ncontent\n",
        "",
    ),
    (
        CONTENTS,
        "start 0 get 7\nstep 0 5\n",
        0,
        "1 0 S start - ok get 7\n2 0 T take 0 ok word 0\n3 0 R read 0 ok sees none count 0\n4 0 C check 0 ok decided none\n\
         content\n5 0 F finish - ok ended\n6 0 - step - skipped\ncontent\n",
        "",
    ),
];

#[test]
fn replays(rt: HostRuntime) -> Result<(), Fail> {
    let wrong = wrong_row(rt.alloc(), REPLAYED)?;
    assert!(rt; wrong.is_none(), "at {wrong:?}");
    Ok(())
}

/// The first fault in the order of the lines decides. Ten times as many steps as a line may have are as many as there may be.
const FAULTS: &[Row] = &[
    (
        SCHEDULE,
        "start 1 get 1\nstep  1\n",
        4,
        "",
        "congee: bad line 2\n",
    ),
    (
        SCHEDULE,
        "start 0 insert 1 42\nstep 0 8\nget 1",
        4,
        "",
        "congee: bad line 3\n",
    ),
    (
        SCHEDULE,
        "step 1 10000\nstep 1 10000\nstep 1 10000\nstep 1 10000\nstep 1 10000\nstep 1 10000\nstep 1 10000\nstep 1 10000\nstep 1 10000\nstep 1 10000\nstep 1\n",
        4,
        "",
        TOO_MANY,
    ),
    (
        SCHEDULE,
        "step 1 10000\nstep 1 10000\nstep 1 10000\nstep 1 10000\nstep 1 10000\nstep 1 10000\nstep 1 10000\nstep 1 10000\nstep 1 10000\nstep 1 10000\nfail 1\nx\n",
        4,
        "",
        TOO_MANY,
    ),
    (
        SCHEDULE,
        "step 1 10000\nstep 1 10000\nstep 1 10000\nstep 1 10000\nstep 1 10000\nstep 1 10000\nstep 1 10000\nstep 1 10000\nstep 1 10000\nstep 1 10000\nx\nfail 1\n",
        4,
        "",
        "congee: bad line 11\n",
    ),
    (EVENTS, "\n", 4, "", "congee: bad line 1\n"),
    (
        CONTENTS,
        "start 0 insert 1 42\nstep 0 8\nget 1",
        4,
        "",
        "congee: bad line 3\n",
    ),
    (
        CONTENTS,
        "step 1 10000\nstep 1 10000\nstep 1 10000\nstep 1 10000\nstep 1 10000\nstep 1 10000\nstep 1 10000\nstep 1 10000\nstep 1 10000\nstep 1 10000\nfail 1\n",
        4,
        "",
        TOO_MANY,
    ),
];

#[test]
fn first_fault(rt: HostRuntime) -> Result<(), Fail> {
    let wrong = wrong_row(rt.alloc(), FAULTS)?;
    assert!(rt; wrong.is_none(), "at {wrong:?}");
    Ok(())
}
