//! Tests of the maps with one owner, of their calls as data, and of the table of rows, by the names that users have.
#![tactic(auto)]

#[cfg(test)]
mod tests;
