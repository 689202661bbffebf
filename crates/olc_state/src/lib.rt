//! What the machine of the protocol has inside: nodes with lock words, calls in flight with what they remember, pins.
//!
//! Only the crates that make the protocol's events are built on it. What a user of the machine sees is in
//! `spec_olc`, and `specs/inner/Shown.antt` defines how it follows from the inside.
//!
//! Tested in `test_olc` and `tools/dev/try-schedules`.
#![tactic(auto)]

pub mod calls;
pub mod cleanup;
pub mod content;
pub mod scan;
pub mod stage;
pub mod stepped;
pub mod stock;
pub mod store;
pub mod tail;
