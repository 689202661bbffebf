//! Tests of words that threads share, and of owners that a map of such words names by tickets.
#![tactic(auto)]

#[cfg(test)]
mod maps;
#[cfg(test)]
mod tickets;
#[cfg(test)]
mod words;
