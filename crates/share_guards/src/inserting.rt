//! The insertion of many pairs into a shared map of numbers: one hold of the lock, and an entry of the history for each.
//!
//! Tested in `test_share_ends`.

ghost use Rattle.std.specs.Prelude.{◌≡◌, ◌<◌, IfErr, OnOk, length, take};
ghost use Rattle.share_guards.specs.Many.{InsertsMany, numbers_of};

use crate::raw::{Guard, Raw};
use share_backend::lent::CallStage;
use share_backend::ordered::Ordered;
use share_rule::work::Work;
use share_state::state::LockedState;
use share_works::hold::hold;
use share_works::map_state::MapState;
use spec_map::traits::Word;
use std::sync::Wait;
use std::sync::ledger::Ledger;

#[derive(Drop)]
struct InsertMany<'a, K: Word, V: Word> {
    many: &'a [(K, V)],
    inserted: Result<(), usize>,
}

impl<'a, L: Ledger, M: Ordered, K: Word, V: Word> Work<
    u64,
    CallStage<u64>,
    LockedState<L, u64, u64, M>,
    (),
> for InsertMany<'a, K, V> {
    ghost use Rattle.std.specs.Prelude.{◌≡◌, ◌<◌, IfErr, length};
    ghost use Rattle.share_guards.specs.Many.{numbers_of};
    ghost use Rattle.share_guards.specs.inner.Trying.{inserting};

    ghost made = { λ w value. inserting w.inserted (M.pairs value.under)
        (numbers_of K.number V.number w.many.now) };

    ghost does = { λ old _ _ new _. (new.many.now ≡ old.many.now)
        × IfErr new.inserted (λ inserted. inserted < length old.many.now) };

    fn work(&mut self, value: &mut LockedState<L, u64, u64, M>, buffer: &mut [()]) {
        let _ = buffer;
        value.law_contains();
        self.inserted = value.insert_many(self.many);
        value.law_contains();
    }
}

impl<L: Ledger, M: Ordered> Raw<L, u64, u64, M> {
    /// Inserts the pairs in their order, so of two with one key the later one counts. Where memory is missing for one of
    /// them, those before it are in the map, and `Err` has their number.
    pub fn insert_many<R: Wait, K: Word, V: Word>(
        &self,
        rt: &R,
        guard: &mut Guard<'_, L, u64, u64, M>,
        many: &[(K, V)],
    ) -> Result<(), usize>
        requires map { guard.old.table ≡ self.now }
        ensures made { OnOk result
            (InsertsMany guard.old (numbers_of K.number V.number many.now) guard.new) }
        ensures missed { IfErr result (λ inserted. (inserted < length many.now)
            × InsertsMany guard.old (take inserted (numbers_of K.number V.number many.now))
            guard.new) }
    {
        M::numbers_mean_themselves();
        let mut work = InsertMany {
            many,
            inserted: Ok(()),
        };
        hold(&self.lock, rt, &mut guard.seat, &mut work, &mut []);
        work.inserted
    }
}
