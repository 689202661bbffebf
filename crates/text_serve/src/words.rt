//! What the program was called with.
//!
//! Tested in `test_serve`.

use std::alloc::AllocError;
use std::env;
use std::env::Env;
use std::io::ErrorKind;

/// The words after the program's name. If one of them isn't text there are none, and nothing is
/// served. An error means that there is no memory.
pub fn words_of<R: Env + AllocGlobal>(rt: &R) -> Result<Vec<String>, AllocError> {
    match env::args(rt) {
        Ok(mut all) => {
            let _ = all.next();
            all.collect(rt.alloc())
        }
        Err(error) if error.kind() == ErrorKind::OutOfMemory => Err(AllocError),
        Err(_) => Ok(Vec::new(rt.alloc())),
    }
}
