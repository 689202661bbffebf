//! Tests of each call that `congee::shared` and `congee::locked` have alike, by the name that users have.
#![tactic(auto)]

#[cfg(test)]
mod tests;
