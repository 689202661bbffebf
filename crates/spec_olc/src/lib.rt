//! The protocol: how each kind of event changes the state of a machine, and what a run of a schedule is.
#![tactic(auto)]

pub mod laws;
pub mod op;
pub mod payload;
pub mod trace;
pub mod types;
