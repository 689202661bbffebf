//! Why a guard wasn't given.
//!
//! Tested in `test_share_guards` and `share_maps/guards`.

use spec_map::error::OOMError;
use std::error::Error;
use std::fmt;

/// Why a map gave no guard. Nothing has changed.
#[derive(Clone, Copy, Debug, PartialEq, Eq)]
pub enum PinError {
    /// Memory for the guard's calls was missing.
    Oom(OOMError),
    /// The map had no seat to give: another thread is just being given one.
    NoSeat,
}

impl fmt::Display for PinError {
    fn fmt<W: fmt::Write>(&self, f: &mut fmt::Formatter<W>) -> fmt::Result {
        match self {
            PinError::Oom(error) => error.fmt(f),
            PinError::NoSeat => f.write_str("No seat is free!"),
        }
    }
}

impl Error for PinError {}
