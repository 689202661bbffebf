//! A note of what a guard has seen, which another thread's guard can learn.
//!
//! Tested in `test_share_ends` and `example_guards`.

ghost use Rattle.std.specs.Prelude.{◌≡◌};
ghost use Rattle.share_rule.specs.History.{StartsWith};
ghost use Rattle.share_rule.specs.Known.{SeenMore};

use crate::raw::Guard;
use share_backend::lent::Lent;
use share_holds::holds::MapSeat;
use std::marker::Model;
use std::sync::ledger::Ledger;

/// A history that a guard has seen. It has no bytes and borrows nothing, so that it can be sent to another thread.
///
/// Contracts see which map it is of, and the history.
#[derive(Drop)]
pub struct Note<L: Ledger, P, T, M: Lent<P, T>> {
    pub(crate) seat: MapSeat<L, P, T, M>,
}

impl<L: Ledger, P, T, M: Lent<P, T>> Model for Note<L, P, T, M> {
    ghost use Rattle.std.specs.Prelude.{◌≡◌};
    ghost use Rattle.share_rule.specs.History.{IsLegalHistory};
    ghost use Rattle.share_rule.specs.Known.{Known};
    ghost use Rattle.share_rule.specs.inner.Steps.{IsIdle, known_of, seen_of};

    ghost Value = { Known T };

    ghost view = { λ n. known_of n.seat.table_id n.seat.me };

    ghost invariant = { λ n. IsIdle n.seat.me × IsLegalHistory M.same (seen_of n.seat.me.0) };
}

impl<'a, L: Ledger, P: Drop, T, M: Lent<P, T>> Guard<'a, L, P, T, M> {
    /// A note of what the guard has seen then. Looks at the lock's word, and takes no memory.
    #[tactic(auto, using(share_works::proofs::Knowing::seen_more))]
    pub fn note(&mut self) -> Note<L, P, T, M>
        ensures seen { SeenMore M.same self.old self.new }
        ensures map { result.table ≡ self.old.table }
        ensures noted { result.seen ≡ self.new.seen }
    {
        let raw = self.raw;
        let mut seat = raw.lock.seat_beside(&mut self.seat);
        raw.lock.meet(&mut self.seat, &mut seat);
        Note { seat }
    }

    /// What the guard has seen begins then with what was noted, too. Looks at the lock's word.
    pub fn learn(&mut self, note: &mut Note<L, P, T, M>)
        requires map { note.old.table ≡ self.old.table }
        ensures map { note.new.table ≡ note.old.table }
        ensures seen { SeenMore M.same self.old self.new }
        ensures learned { StartsWith self.new.seen note.old.seen }
        ensures noted { note.new.seen ≡ self.new.seen }
    {
        let raw = self.raw;
        raw.lock.meet(&mut self.seat, &mut note.seat);
    }
}
