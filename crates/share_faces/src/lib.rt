//! The faces of the map that threads share, over any map under its lock: with typed keys and values, with numbers as
//! keys, and with owners as values.
//!
//! Tested in `share_maps` and `test_share_guards`.
#![tactic(auto)]

pub mod congee_arc;
pub mod typed_congee;
pub mod u64_congee;

pub use share_guards::pin::PinError;
pub use share_holds::gate::{Gate, NoGate};
pub use share_state::share::Share;
