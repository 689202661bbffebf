//! How much the text of a trace shows.
//!
//! Tested in `test_serve` and `examples/schedules/`.

/// What is written of a replayed schedule. The content at the end is written last in each.
#[derive(Clone, Copy, Debug, PartialEq, Eq)]
pub enum Detail {
    /// What comes of the events: a line for each decided or refused call, pair of a range, reclaim and skipped event.
    Outcomes,
    /// A line for each event.
    Events,
    /// A line for each event, and the content after each that decides a call.
    Contents,
}
