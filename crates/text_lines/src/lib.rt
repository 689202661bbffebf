//! Lines of text, in and out: the bytes of a line, its words, numbers and values, and streams that note a failure.
//!
//! Tested in `test_serve`.
#![tactic(auto)]

pub mod laws;
pub mod line;
pub mod listing;
pub mod number;
pub mod pending;
pub mod streams;
pub mod watched;
pub mod words;
