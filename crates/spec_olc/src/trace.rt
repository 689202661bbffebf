//! The trace of a replayed schedule.

use crate::types::{Op, Outcome, Reply, Report, Seen};

/// The result of one event of a schedule.
#[derive(Drop)]
pub enum Line {
    /// Its report and outcome, and what the call saw if the event was a Read.
    Done(Report, Outcome<u64>, Option<Seen<u64>>),
    /// It wasn't enabled, and changed nothing.
    Skipped,
}

/// A decided call: its number, the call as it started, what its closure was called with and answered, and its reply.
#[derive(Drop)]
pub struct Decision {
    pub id: u64,
    pub op: Op<u64>,
    pub asked: Option<(Option<u64>, Option<u64>)>,
    pub reply: Reply<u64>,
}

/// A line for each event, the decided calls in the order of the events that decide them, and the pairs that are stored
/// at the end.
#[derive(Drop)]
pub struct Trace {
    pub lines: Vec<Line>,
    pub decided: Vec<Decision>,
    pub content: Vec<(u64, u64)>,
}
