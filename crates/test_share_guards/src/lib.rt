//! Tests of guards that know what they have seen, and of maps where something misbehaves: what lies under the lock answers otherwise
//! than it would, closures and gates that don't return, and each call once with its memory refused.
#![tactic(auto)]

pub mod delay;
#[cfg(test)]
mod tests;
