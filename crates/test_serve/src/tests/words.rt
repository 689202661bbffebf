//! The words that the program is called with.

use std::alloc::{AllocError, Global};
use std::env::{Env, FillError};
use std::test::Fail;
use text_serve::words::words_of;

/// What a program was called with, its name first.
#[derive(Drop)]
struct Called(&'static [&'static [u8]]);

impl Env for Called {
    fn arg(&self, i: usize, buf: &mut [u8]) -> Result<usize, FillError> {
        let word = self.0.get(i).ok_or(FillError::NotPresent)?;
        if buf.len() < word.len() {
            return Err(FillError::TooLong);
        }
        buf[..word.len()].copy_from_slice(word);
        Ok(word.len())
    }

    fn var(&self, _name: &str, _buf: &mut [u8]) -> Result<usize, FillError> {
        Err(FillError::NotPresent)
    }

    fn var_at(&self, _i: usize, _buf: &mut [u8]) -> Result<usize, FillError> {
        Err(FillError::NotPresent)
    }
}

/// What it was called with, and its words. Of words that are no text there are none.
const CALLED: [(&[&[u8]], &[&str]); 5] = [
    (&[], &[]),
    (&[b"congee"], &[]),
    (&[b"congee", b"run", b"--stats"], &["run", "--stats"]),
    (&[b"congee", b"", b"a  word\n"], &["", "a  word\n"]),
    (&[b"congee", b"run", b"\xff"], &[]),
];

fn has_words(
    alloc: Global,
    called: &'static [&'static [u8]],
    wanted: &[&str],
) -> Result<bool, AllocError> {
    let words = words_of(&(Called(called), alloc))?;
    let mut right = words.len() == wanted.len();
    for (word, wanted) in words.iter().zip(wanted) {
        right = right && word.as_str() == *wanted;
    }
    Ok(right)
}

#[test]
fn words_after_the_name(rt: HostRuntime) -> Result<(), Fail> {
    for (called, wanted) in CALLED {
        assert!(rt; has_words(rt.alloc(), called, wanted)?, "of {wanted:?}");
    }
    Ok(())
}
