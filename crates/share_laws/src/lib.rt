//! What a caller may conclude from a history that it has seen: laws for programs with guards.
#![tactic(auto)]

pub mod laws;
