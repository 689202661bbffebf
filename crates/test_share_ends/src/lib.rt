//! Tests of the maps that threads share, beyond single keys: the calls of `congee::locked` that go by the order of keys or see the
//! whole map, and what becomes of pairs and guards of `congee::shared` and `congee::locked` (what a drainer has, guards that meet,
//! seats that are free again).
#![tactic(auto)]

#[cfg(test)]
mod tests;
