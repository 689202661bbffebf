//! The calls that read many nodes of a tree in a table of links, and change none.
//!
//! Tested in `test_owned` and `tools/dev/try-commands`.
#![tactic(auto)]

mod backward;
pub mod nearest;
mod pair;
mod payloads;
mod places;
pub mod range_down;
pub mod range_scan;
pub mod statistics;
pub mod walk;
mod window;
