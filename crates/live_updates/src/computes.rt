//! Calls that store what a closure returns, and insertions where a key is absent.

pub mod absent;
pub mod present;
