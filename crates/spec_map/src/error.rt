//! The one error of the project: out of memory.
//!
//! Tested in `congee_nodes` and `test_owned`.

ghost use Rattle.std.specs.Prelude.{Some, codes};

use std::alloc::{AllocError, AllocFailed};
use std::error::Error;
use std::fmt;

const TEXT: &str = "Allocator is out of memory!";

/// A budget refused a node, or memory was missing.
///
/// `Display` and `Debug` both print `Allocator is out of memory!`.
#[derive(Clone, Copy, PartialEq, Eq)]
pub struct OOMError {}

impl OOMError {
    /// Takes no memory.
    pub fn new() -> Self {
        OOMError {}
    }
}

impl fmt::Display for OOMError {
    ghost output = { λ _. Some (codes "Allocator is out of memory!") };

    fn fmt<W: fmt::Write>(&self, f: &mut fmt::Formatter<W>) -> fmt::Result {
        f.write_str(TEXT)
    }
}

impl fmt::Debug for OOMError {
    ghost debug_output = { λ _. Some (codes "Allocator is out of memory!") };

    fn fmt<W: fmt::Write>(&self, f: &mut fmt::Formatter<W>) -> fmt::Result {
        f.write_str(TEXT)
    }
}

impl Error for OOMError {}

impl From<AllocError> for OOMError {
    fn from(_error: AllocError) -> Self {
        OOMError::new()
    }
}

impl<T: Drop> From<AllocFailed<T>> for OOMError {
    fn from(_failed: AllocFailed<T>) -> Self {
        OOMError::new()
    }
}
