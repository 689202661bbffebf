//! Words that ask for nothing, and the lines of a run.

use crate::tests::streams::Full;
use crate::tests::{Outcome, gives, words_of};
use std::alloc::{AllocError, Global};
use std::test::Fail;
use text_lines::watched::Watched;
use text_serve::serve::serve;

const USAGE: &str =
    "usage: congee run [--stats] [LIMIT] | congee schedule | congee trace [--content]\n";

const OTHERS: [&[&str]; 18] = [
    &[],
    &["walk"],
    &["walk", "1"],
    &["run", "01"],
    &["run", ""],
    &["run", "+1"],
    &["run", "18446744073709551616"],
    &["schedule", "1"],
    &["schedule", "--content"],
    &["trace", "1"],
    &["trace", "--content", "1"],
    &["--content"],
    &["run", "1", "2"],
    &["run\n"],
    &["run", "4096", "--stats"],
    &["run", "--stats", "01"],
    &["run", "--stats", "--stats"],
    &["run", "--stats", "4096", "4096"],
];

#[test]
fn usage(rt: HostRuntime) -> Result<(), Fail> {
    for words in OTHERS {
        let input = "insert 1 1\n".as_bytes();
        let is_so = gives(rt.alloc(), words, input, Outcome::of(2, "", USAGE))?;
        assert!(rt; is_so, "at {words:?}");
    }
    Ok(())
}

// Whether the lines of a run are written, and nothing is read.
fn helps(alloc: Global) -> Result<bool, AllocError> {
    let words = words_of(alloc, &["run", "--help"])?;
    let mut input = Watched::new("get 1\n".as_bytes());
    let mut written = Vec::new(alloc);
    let mut errors = Full::new(alloc, 0, 1, false);
    let mut output = Watched::new(&mut written);
    let status = serve(alloc, &words, &mut input, &mut output, &mut errors);
    let starts = written.starts_with(b"get K            the value at K, or none\ninsert K V");
    let ends = written.ends_with(
        b"ceiling K        the pair of the least key that is at least K\n",
    );
    Ok(status == 0 && starts && ends && input.into_inner() == b"get 1\n".as_slice())
}

#[test]
fn help_of_a_run(rt: HostRuntime) -> Result<(), Fail> {
    assert!(rt; helps(rt.alloc())?);
    Ok(())
}
