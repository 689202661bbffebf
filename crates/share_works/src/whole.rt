//! The work on the whole map: its counts, and the removal of its pairs.
//!
//! Tested in `tools/c-library` and `test_share_ends`.

ghost use Rattle.std.specs.Prelude.{◌≡◌};

use crate::map_state::MapState;
use share_rule::work::Work;

/// Counts the pairs.
#[derive(Drop)]
pub struct Count {
    /// How many pairs there are, once the work is done.
    pub count: u128,
}

impl<N, S: MapState<N>> Work<u64, N, S, ()> for Count {
    ghost use Rattle.std.specs.Prelude.{[], ◌∷◌};
    ghost use Rattle.spec_map.specs.Call.{count, counted};
    ghost use Rattle.share_works.specs.Made.{returned};

    ghost made = { λ w _. returned count (counted w.count) ∷ [] };

    ghost does = { λ old _ _ new _. Unit {0} };

    #[tactic(auto, using(crate::proofs::Counting::count_goes))]
    fn work(&mut self, value: &mut S, buffer: &mut [()]) {
        let _ = buffer;
        value.law_contains();
        self.count = value.pair_count();
    }
}

/// Tests whether there is no pair.
#[derive(Drop)]
pub struct IsEmpty {
    /// The answer, once the work is done.
    pub empty: bool,
}

impl<N, S: MapState<N>> Work<u64, N, S, ()> for IsEmpty {
    ghost use Rattle.std.specs.Prelude.{[], ◌∷◌};
    ghost use Rattle.spec_map.specs.Call.{is_empty, tested};
    ghost use Rattle.share_works.specs.Made.{returned};

    ghost made = { λ w _. returned is_empty (tested w.empty) ∷ [] };

    ghost does = { λ old _ _ new _. Unit {0} };

    #[tactic(auto, using(crate::proofs::Counting::empty_goes))]
    fn work(&mut self, value: &mut S, buffer: &mut [()]) {
        let _ = buffer;
        value.law_contains();
        self.empty = value.pair_count() == 0;
    }
}

/// Removes all pairs.
#[derive(Drop)]
pub struct Clear;

impl<N, S: MapState<N>> Work<u64, N, S, ()> for Clear {
    ghost use Rattle.share_works.specs.Made.{clearing};

    ghost made = { λ w value. clearing (S.pairs value) };

    ghost does = { λ old _ _ new _. Unit {0} };

    fn work(&mut self, value: &mut S, buffer: &mut [()]) {
        let _ = buffer;
        value.law_contains();
        value.clear();
        value.law_contains();
    }
}

/// Removes the pairs of a range.
#[derive(Drop)]
pub struct RemoveRange {
    pub start: u64,
    pub end: u64,
    /// How many pairs were removed, once the work is done.
    pub removed: u128,
}

impl<N, S: MapState<N>> Work<u64, N, S, ()> for RemoveRange {
    ghost use Rattle.std.specs.Prelude.{◌≡◌, length};
    ghost use Rattle.spec_map.specs.Map.{between};
    ghost use Rattle.share_works.specs.Made.{range_removal};

    ghost made = { λ w value. range_removal w.start w.end (length (S.pairs value))
        (between (S.pairs value) w.start w.end) };

    ghost does = { λ old _ value new _. (new.start ≡ old.start) × (new.end ≡ old.end)
        × (new.removed ≡ length (between (S.pairs value) new.start new.end)) };

    fn work(&mut self, value: &mut S, buffer: &mut [()]) {
        let _ = buffer;
        value.law_contains();
        self.removed = value.remove_range(self.start, self.end);
        value.law_contains();
    }
}
