//! The ordered map that everything else is specified by: the traits of keys and stored values, the refusal, and laws
//! of the definitions in `specs/` (maps, calls and legal runs).
//!
//! Tested in `congee_nodes` and `test_owned`.
#![tactic(auto)]

pub mod error;
pub mod laws;
pub mod near_laws;
pub mod payload;
pub mod traits;
