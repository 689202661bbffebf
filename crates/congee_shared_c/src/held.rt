//! The guard that a handle holds.
//!
//! Tested in `tools/c-library`.

use share_calls::guard::Guard;

/// A caller of a shared map, under a type of this crate.
#[derive(Drop)]
pub struct Held {
    pub guard: Guard,
}
