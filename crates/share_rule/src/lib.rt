//! The lock of a shared map: one word and one slot of a table. Each seat at the table knows a history of the map's
//! operations, and what the map under the lock has of the seat's own number.
//!
//! Tested in `test_share_guards`.
#![tactic(auto)]

pub mod lock;
pub mod rule;
pub mod view;
pub mod work;
