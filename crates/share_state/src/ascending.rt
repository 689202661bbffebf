//! The state of a shared map of numbers whose map finds the least pair from a key on.
//!
//! Tested in `test_share_faces/upward`.

ghost use Rattle.std.specs.Prelude.{◌≡◌, ℕ};
ghost use Rattle.spec_map.specs.Map.{Pairs};
ghost use Rattle.spec_map.specs.Near.{pair_near};
ghost use Rattle.share_backend.specs.Upward.{upward_of};

use crate::state::LockedState;
use share_backend::ascending::{Ascending, Upward};
use std::sync::ledger::Ledger;

impl<L: Ledger, M: Ascending> LockedState<L, u64, u64, M> {
    /// The pair there.
    pub fn upward(&self, place: Upward) -> Option<(u64, u64)>
        ensures { (m : Pairs ℕ) → M.Lent.content self.now.under m
            → result ≡ pair_near m (upward_of place) }
    {
        self.under.upward(place)
    }
}
