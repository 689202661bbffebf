//! The work that lists the pairs of a range: those of one moment.
//!
//! Tested in `tools/c-library` and `test_share_ends`.

ghost use Rattle.std.specs.Prelude.{◌≡◌};

use crate::map_state::MapState;
use share_rule::work::Work;
use tree_walk::range_scan::RangeEntry;

/// Writes the first pairs with `start <= key < end` to the buffer, ascending.
#[derive(Drop)]
pub struct Range {
    pub start: u64,
    pub end: u64,
    /// The buffer's length.
    pub room: usize,
    /// How many pairs were written, once the work is done.
    pub written: usize,
}

impl<N, S: MapState<N>, E: RangeEntry> Work<u64, N, S, E> for Range {
    ghost use Rattle.std.specs.Prelude.{◌≡◌, [], ◌∷◌, length, take};
    ghost use Rattle.spec_map.specs.Call.{range, ranged};
    ghost use Rattle.spec_map.specs.Map.{between};
    ghost use Rattle.share_works.specs.Made.{returned};
    ghost use Rattle.share_works.specs.inner.Written.{AreWritten};

    ghost made = { λ w value. returned (range w.start w.end w.room)
        (ranged (take w.room (between (S.pairs value) w.start w.end))) ∷ [] };

    ghost does = { λ old before value new after. (new.start ≡ old.start) × (new.end ≡ old.end)
        × (new.room ≡ old.room)
        × AreWritten E.entry (between (S.pairs value) new.start new.end) before new.written after };

    #[tactic(auto, using(crate::proofs::Writing::range_goes))]
    fn work(&mut self, value: &mut S, buffer: &mut [E]) {
        value.law_contains();
        self.written = value.page(self.start, self.end, buffer);
    }
}

/// As `Range`, with the pair at `last` too, which can be the greatest key.
#[derive(Drop)]
pub struct RangeInclusive {
    pub start: u64,
    pub last: u64,
    /// The buffer's length.
    pub room: usize,
    /// How many pairs were written, once the work is done.
    pub written: usize,
}

impl<N, S: MapState<N>, E: RangeEntry> Work<u64, N, S, E> for RangeInclusive {
    ghost use Rattle.std.specs.Prelude.{◌≡◌, ◌+◌, [], ◌∷◌, length, take};
    ghost use Rattle.spec_map.specs.Call.{range, ranged};
    ghost use Rattle.spec_map.specs.Map.{between};
    ghost use Rattle.share_works.specs.Made.{returned};
    ghost use Rattle.share_works.specs.inner.Written.{AreWritten};

    ghost made = { λ w value. returned (range w.start (w.last + 1) w.room)
        (ranged (take w.room (between (S.pairs value) w.start (w.last + 1)))) ∷ [] };

    ghost does = { λ old before value new after. (new.start ≡ old.start) × (new.last ≡ old.last)
        × (new.room ≡ old.room)
        × AreWritten E.entry (between (S.pairs value) new.start (new.last + 1))
        before new.written after };

    #[tactic(auto, using(crate::proofs::Writing::range_goes))]
    fn work(&mut self, value: &mut S, buffer: &mut [E]) {
        value.law_contains();
        self.written = value.page_inclusive(self.start, self.last, buffer);
    }
}

/// Writes the last pairs with `start <= key <= last` to the buffer, descending.
#[derive(Drop)]
pub struct RangeDescending {
    pub start: u64,
    pub last: u64,
    /// How many pairs were written, once the work is done.
    pub written: usize,
}

impl<N, S: MapState<N>, E: RangeEntry> Work<u64, N, S, E> for RangeDescending {
    ghost use Rattle.std.specs.Prelude.{◌≡◌, ◌+◌, length, reverse};
    ghost use Rattle.spec_map.specs.Map.{between};
    ghost use Rattle.share_works.specs.Made.{listing};
    ghost use Rattle.share_works.specs.inner.Written.{AreWritten};

    ghost made = { λ w value. listing w.start (w.last + 1) (length (S.pairs value))
        (between (S.pairs value) w.start (w.last + 1)) };

    ghost does = { λ old before value new after. (new.start ≡ old.start) × (new.last ≡ old.last)
        × AreWritten E.entry (reverse (between (S.pairs value) old.start (old.last + 1)))
        before new.written after };

    fn work(&mut self, value: &mut S, buffer: &mut [E]) {
        value.law_contains();
        self.written = value.page_descending(self.start, self.last, buffer);
    }
}
