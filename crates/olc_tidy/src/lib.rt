//! The events of a cleanup at its node: it is taken out of the tree, or a smaller copy takes its place.
//!
//! The table in `olc_state::cleanup` lists which events follow one another.
//!
//! Tested in `tools/dev/try-schedules` and `test_olc/cleanup_owners`.
#![tactic(auto)]

mod copying;
mod putting;
pub mod tidying;
mod upgrading;
