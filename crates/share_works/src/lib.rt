//! The work of holds on an ordered map of numbers, whatever else lies under the lock: its ends and neighbours, pops,
//! ranges and counts, and the removal of many pairs.
//!
//! Tested in `tools/c-library` and `test_share_ends`.
#![tactic(auto)]

pub mod ends;
pub mod hold;
pub mod map_state;
pub mod near;
pub mod ranges;
pub mod whole;
