//! An output that nobody reads any more, and one that fails otherwise.

use crate::tests::streams::Full;
use crate::tests::words_of;
use std::alloc::{AllocError, Global};
use std::cell::Cell;
use std::test::Fail;
use text_lines::watched::Watched;
use text_serve::pipes::{Hushed, Piped};
use text_serve::serve::serve;

// What is on standard error after a run over an output that takes so many bytes, and then none or breaks.
fn told(alloc: Global, room: usize, breaks: bool) -> Result<Vec<u8>, AllocError> {
    let words = words_of(alloc, &["run"])?;
    let gone = Cell::new(false);
    let mut errors = Full::new(alloc, 1000, 1, false);
    let mut input = Watched::new("get 1\nget 2\n".as_bytes());
    let mut output = Watched::new(Piped::new(Full::new(alloc, room, 1, breaks), &gone));
    let status = serve(
        alloc,
        &words,
        &mut input,
        &mut output,
        &mut Hushed::new(&mut errors, &gone),
    );
    errors.taken.push(b'0' + status)?;
    Ok(errors.taken)
}

#[test]
fn nobody_reads(rt: HostRuntime) -> Result<(), Fail> {
    assert!(rt; told(rt.alloc(), 3, true)?.as_slice() == b"1".as_slice());
    assert!(rt;
        told(rt.alloc(), 3, false)?.as_slice() == b"congee: input or output failed\n1".as_slice()
    );
    assert!(rt; told(rt.alloc(), 1000, true)?.as_slice() == b"1".as_slice());
    Ok(())
}
