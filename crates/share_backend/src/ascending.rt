//! A map of numbers that finds the least pair from a key on, in one step.
//!
//! Tested in `test_share_faces/upward`.

ghost use Rattle.std.specs.Prelude.{◌≡◌, ℕ};
ghost use Rattle.spec_map.specs.Map.{Pairs};
ghost use Rattle.spec_map.specs.Near.{pair_near};
ghost use Rattle.share_backend.specs.Upward.{upward_of};

use crate::snapshots::Pages;

/// Where a pair is looked for, keys ascending.
#[derive(Clone, Copy, Drop)]
pub enum Upward {
    /// The least key.
    First,
    /// The least key that is at least this one.
    Ceiling(u64),
    /// The least key above this one.
    Above(u64),
}

/// A map of numbers that finds the least pair from a key on.
pub trait Ascending: Pages {
    /// The pair there.
    fn upward(&self, place: Upward) -> Option<(u64, u64)>
        ensures { (m : Pairs ℕ) → Self.content self.now m
            → result ≡ pair_near m (upward_of place) };
}
