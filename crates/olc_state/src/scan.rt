//! How far a range is, and what it does next.
//!
//! Tested in `test_olc` and `tools/dev/try-schedules`.

use crate::stage::Spot;

/// How far a range is. All keys that it may still return are at its cursor or above, and it searches from its reach on.
#[derive(Clone, Copy)]
pub struct RangeProgress {
    pub cursor: u64,
    pub reach: u64,
    /// How many pairs it has returned.
    pub given: u64,
}

/// The next event of a range.
#[derive(Clone, Copy)]
pub enum Scan {
    TakeRoot,
    Read(Spot),
    Check(Spot),
    /// The slot that was read.
    TakeBelow(Spot, usize),
    /// The node that was taken, and the key from which the range would search there; none if its cursor is past all of
    /// its keys.
    CheckAbove(Spot, Spot, Option<u64>),
    Finish,
}
