//! The entries of a schedule.

use spec_node::child::Child;
use spec_olc::types::Op;

/// The entry of a line. The first number of each but `Reclaim` is that of a call.
#[derive(Drop)]
pub enum Entry {
    /// A call begins.
    Start(u64, Op<u64>),
    /// One plain step of a call: a torn read reports no child, no upgrade is made to fail, and a closure answers
    /// `None`.
    Step(u64),
    /// This many plain steps of a call, from 1 to 10000.
    Steps(u64, u64),
    /// A step at which a torn read reports this child, a count of 0 children, and a node that isn't full.
    Torn(u64, Option<Child<u64>>),
    /// A step at which an upgrade fails.
    Fail(u64),
    /// A step at which a closure answers this.
    Answer(u64, Option<u64>),
    /// The node in a slot is reclaimed.
    Reclaim(usize),
}
