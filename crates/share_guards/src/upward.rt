//! The least pair of a shared map of numbers from a key on: one hold of the lock, and an entry of the history.
//!
//! Tested in `test_share_faces/upward`.

ghost use Rattle.std.specs.Prelude.{◌≡◌};
ghost use Rattle.spec_map.specs.Call.{nearest, found};
ghost use Rattle.spec_olc.specs.Runs.{same_number};
ghost use Rattle.share_backend.specs.Upward.{upward_of};
ghost use Rattle.share_rule.specs.Known.{MadeCall};
ghost use Rattle.share_works.specs.Made.{returned};

use crate::raw::{Guard, Raw};
use share_backend::ascending::{Ascending, Upward};
use share_backend::lent::CallStage;
use share_rule::work::Work;
use share_state::state::LockedState;
use share_works::hold::hold;
use std::sync::Wait;
use std::sync::ledger::Ledger;

// Finds a pair.
#[derive(Drop)]
struct FindUpward {
    place: Upward,
    // the pair there, once the work is done
    pair: Option<(u64, u64)>,
}

impl<L: Ledger, M: Ascending> Work<u64, CallStage<u64>, LockedState<L, u64, u64, M>, ()>
    for FindUpward {
    ghost use Rattle.std.specs.Prelude.{◌≡◌, [], ◌∷◌};
    ghost use Rattle.spec_map.specs.Call.{nearest, found};
    ghost use Rattle.share_backend.specs.Upward.{upward_of};
    ghost use Rattle.share_works.specs.Made.{returned};

    ghost made = { λ w _. returned (nearest (upward_of w.place)) (found w.pair) ∷ [] };

    ghost does = { λ old _ _ new _. new.place ≡ old.place };

    fn work(&mut self, value: &mut LockedState<L, u64, u64, M>, buffer: &mut [()]) {
        let _ = buffer;
        self.pair = value.upward(self.place);
    }
}

impl<L: Ledger, M: Ascending> Raw<L, u64, u64, M> {
    /// The pair there.
    pub fn upward<R: Wait>(
        &self,
        rt: &R,
        guard: &mut Guard<'_, L, u64, u64, M>,
        place: Upward,
    ) -> Option<(u64, u64)>
        requires map { guard.old.table ≡ self.now }
        ensures made { MadeCall same_number guard.old
            (returned (nearest (upward_of place)) (found result)) guard.new }
    {
        // (what the checker needs to know of M)
        M::numbers_mean_themselves();
        let mut work = FindUpward { place, pair: None };
        hold(&self.lock, rt, &mut guard.seat, &mut work, &mut []);
        work.pair
    }
}
