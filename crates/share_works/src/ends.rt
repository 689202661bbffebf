//! The work that finds or removes a pair by where it is: at an end of the map, or next to a key.
//!
//! Tested in `tools/c-library` and `test_share_ends`.

ghost use Rattle.std.specs.Prelude.{◌≡◌};

use crate::map_state::MapState;
use crate::near::Near;
use share_rule::work::Work;

/// Finds a pair.
#[derive(Drop)]
pub struct Find {
    pub near: Near,
    /// The pair there, once the work is done.
    pub pair: Option<(u64, u64)>,
}

impl<N, S: MapState<N>> Work<u64, N, S, ()> for Find {
    ghost use Rattle.std.specs.Prelude.{◌≡◌, [], ◌∷◌};
    ghost use Rattle.spec_map.specs.Call.{nearest, found};
    ghost use Rattle.share_works.specs.Made.{returned};
    ghost use Rattle.share_works.specs.Ends.{near_of};

    ghost made = { λ w _. returned (nearest (near_of w.near)) (found w.pair) ∷ [] };

    ghost does = { λ old _ _ new _. new.near ≡ old.near };

    #[tactic(auto, using(crate::proofs::Popping::near_goes))]
    fn work(&mut self, value: &mut S, buffer: &mut [()]) {
        let _ = buffer;
        value.law_contains();
        self.pair = value.nearest(self.near);
    }
}

/// Removes the pair with the least key.
#[derive(Drop)]
pub struct PopFirst {
    /// That pair, once the work is done.
    pub pair: Option<(u64, u64)>,
}

impl<N, S: MapState<N>> Work<u64, N, S, ()> for PopFirst {
    ghost use Rattle.spec_map.specs.Call.{first};
    ghost use Rattle.share_works.specs.Ends.{popping};

    ghost made = { λ w _. popping first w.pair };

    ghost does = { λ old _ _ new _. Unit {0} };

    #[tactic(auto, using(crate::proofs::Popping::first_goes))]
    fn work(&mut self, value: &mut S, buffer: &mut [()]) {
        let _ = buffer;
        value.law_contains();
        self.pair = value.pop_first();
        value.law_contains();
    }
}

/// Removes the pair with the greatest key.
#[derive(Drop)]
pub struct PopLast {
    /// That pair, once the work is done.
    pub pair: Option<(u64, u64)>,
}

impl<N, S: MapState<N>> Work<u64, N, S, ()> for PopLast {
    ghost use Rattle.spec_map.specs.Call.{last};
    ghost use Rattle.share_works.specs.Ends.{popping};

    ghost made = { λ w _. popping last w.pair };

    ghost does = { λ old _ _ new _. Unit {0} };

    fn work(&mut self, value: &mut S, buffer: &mut [()]) {
        let _ = buffer;
        value.law_contains();
        self.pair = value.pop_last();
        value.law_contains();
    }
}
