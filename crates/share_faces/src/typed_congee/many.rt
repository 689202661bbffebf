//! The insertion of many pairs, where the map under the lock inserts them in one step. The call takes one hold of the lock,
//! and is an entry of its guard's history for each pair.
//!
//! Tested in `test_share_ends`.

ghost use Rattle.std.specs.Prelude.{◌≡◌, ◌<◌, IfErr, OnOk, length, take};
ghost use Rattle.share_guards.specs.Many.{InsertsMany, numbers_of};

use super::{Congee, Guard};
use face_typed::many::InsertManyError;
use share_backend::ordered::Ordered;
use spec_map::traits::{Drainer, Word};
use std::sync::Wait;
use std::sync::ledger::Ledger;

impl<L: Ledger, K: Word, V: Word, M: Ordered, D: Drainer<K, V>> Congee<L, K, V, M, D> {
    /// Inserts the pairs in their order in one hold, so of two with one key the later one counts. Where memory is missing
    /// for one of them, those before it are in the map, and the error has their number; the rest may be inserted again
    /// from there. Other calls wait until all are inserted.
    pub fn insert_many<R: Wait>(
        &self,
        rt: &R,
        guard: &mut Guard<'_, L, M>,
        pairs: &[(K, V)],
    ) -> Result<(), InsertManyError>
        requires map { guard.old.table ≡ self.now }
        ensures map { guard.new.table ≡ guard.old.table }
        ensures made { OnOk result
            (InsertsMany guard.old (numbers_of K.number V.number pairs.now) guard.new) }
        ensures missed { IfErr result (λ error. (error.inserted < length pairs.now)
            × InsertsMany guard.old
            (take error.inserted (numbers_of K.number V.number pairs.now)) guard.new) }
    {
        match self.raw.insert_many(rt, guard, pairs) {
            Ok(()) => Ok(()),
            Err(inserted) => Err(InsertManyError { inserted }),
        }
    }
}
