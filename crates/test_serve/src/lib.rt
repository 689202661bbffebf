//! Tests of the program over streams in memory: its rows and statuses, faults of each stream, the statistics of a run, its progress,
//! and the words that it is called with.
#![tactic(auto)]

#[cfg(test)]
mod tests;
