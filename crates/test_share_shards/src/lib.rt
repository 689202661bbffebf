//! Tests of the map in shards, by its face.
#![tactic(auto)]

#[cfg(test)]
mod tests;
