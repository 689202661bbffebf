//! The error of an insertion of several pairs.
//!
//! Tested in `test_owned/bulk`.

ghost use Rattle.std.specs.Prelude.{Some, codes};

use spec_map::error::OOMError;
use std::error::Error;
use std::fmt;

const TEXT: &str = "Allocator is out of memory after some of the pairs!";

/// A budget refused a node for one of several pairs, or memory was missing.
///
/// `Display` and `Debug` both print `Allocator is out of memory after some of the pairs!`.
#[derive(Clone, Copy, PartialEq, Eq)]
pub struct InsertManyError {
    /// How many pairs were inserted: all before the refused one.
    pub inserted: usize,
}

impl fmt::Display for InsertManyError {
    ghost output = { λ _. Some (codes "Allocator is out of memory after some of the pairs!") };

    fn fmt<W: fmt::Write>(&self, f: &mut fmt::Formatter<W>) -> fmt::Result {
        f.write_str(TEXT)
    }
}

impl fmt::Debug for InsertManyError {
    ghost debug_output = { λ _. Some (codes "Allocator is out of memory after some of the pairs!") };

    fn fmt<W: fmt::Write>(&self, f: &mut fmt::Formatter<W>) -> fmt::Result {
        f.write_str(TEXT)
    }
}

impl Error for InsertManyError {}

impl From<InsertManyError> for OOMError {
    fn from(_error: InsertManyError) -> Self {
        OOMError::new()
    }
}
