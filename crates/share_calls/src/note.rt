//! A note of what a guard has seen, which another thread's guard can learn.
//!
//! Tested in `test_share_shards`.

ghost use Rattle.std.specs.Prelude.{◌≡◌};
ghost use Rattle.spec_olc.specs.Runs.{same_number};
ghost use Rattle.share_rule.specs.History.{StartsWith};
ghost use Rattle.share_rule.specs.Known.{SeenMore};

use crate::guard::Guard;
use share_moments::state::MapSeat;
use std::marker::Model;

/// A history that a guard has seen. It has no bytes and borrows nothing, so that it can be sent to another thread.
///
/// Contracts see which map it is of, and the history.
#[derive(Drop)]
pub struct Note {
    pub(crate) seat: MapSeat,
}

impl Model for Note {
    ghost use Rattle.std.specs.Prelude.{◌≡◌, ℕ};
    ghost use Rattle.spec_olc.specs.Runs.{same_number};
    ghost use Rattle.share_rule.specs.History.{IsLegalHistory};
    ghost use Rattle.share_rule.specs.Known.{Known};
    ghost use Rattle.share_shards.specs.inner.Steps.{IsIdle, known_of, seen_of};
    ghost use Rattle.share_visits.specs.Whole.{IsCount};

    ghost Value = { Known ℕ };

    ghost view = { λ n. known_of n.seat.table_id n.seat.me };

    ghost invariant = { λ n. IsCount n.seat.table_id.slots
        × IsIdle n.seat.me × IsLegalHistory same_number (seen_of n.seat.me.0) };
}

impl Guard {
    /// A note of what the guard has seen then. Takes no memory.
    #[tactic(auto, using(crate::proofs::Knowing::seen_more))]
    pub fn note(&mut self) -> Note
        ensures seen { SeenMore same_number self.old self.new }
        ensures map { result.table ≡ self.old.table }
        ensures noted { result.seen ≡ self.new.seen }
    {
        let mut seat = self.lock.seat();
        self.lock.meet(&mut self.seat, &mut seat);
        Note { seat }
    }

    /// What the guard has seen begins then with what was noted, too.
    #[tactic(auto, using(crate::proofs::Knowing::seen_more))]
    pub fn learn(&mut self, note: &mut Note)
        requires map { note.old.table ≡ self.old.table }
        ensures map { note.new.table ≡ note.old.table }
        ensures seen { SeenMore same_number self.old self.new }
        ensures learned { StartsWith self.new.seen note.old.seen }
        ensures noted { note.new.seen ≡ self.new.seen }
    {
        self.lock.meet(&mut self.seat, &mut note.seat);
    }
}
