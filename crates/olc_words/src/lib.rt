//! What calls of the protocol share: the lock word of a node, and the pins that keep retired nodes.
//!
//! Tested in `test_olc`.
#![tactic(auto)]

pub mod epoch;
mod lives;
pub mod lock;
