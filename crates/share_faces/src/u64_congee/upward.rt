//! The least pair of a map of numbers, and a key's neighbours from it on, where the map under the lock finds them. Each call
//! takes one hold of the lock, and is an entry of its guard's history. None fails.
//!
//! Tested in `test_share_faces/upward`.

ghost use Rattle.std.specs.Prelude.{◌≡◌};
ghost use Rattle.spec_map.specs.Call.{first as first_end, ceiling as ceiling_of, above as above_of};
ghost use Rattle.share_faces.specs.Returned.{ReturnsPair};

use super::U64Congee;
use crate::typed_congee::Guard;
use share_backend::ascending::Ascending;
use spec_map::traits::Word;
use std::sync::Wait;
use std::sync::ledger::Ledger;

impl<L: Ledger, V: Word, M: Ascending> U64Congee<L, V, M> {
    /// The pair with the least key, its value read back from its number.
    pub fn first<R: Wait>(&self, rt: &R, guard: &mut Guard<'_, L, M>) -> Option<(u64, V)>
        requires map { guard.old.table ≡ self.now }
        ensures map { guard.new.table ≡ guard.old.table }
        ensures made { ReturnsPair (λ key. key) V.of_number guard.old first_end result guard.new }
    {
        self.map.first(rt, guard)
    }

    /// The pair with the least key that is at least this one, its value read back from its number.
    pub fn ceiling<R: Wait>(
        &self,
        rt: &R,
        guard: &mut Guard<'_, L, M>,
        key: u64,
    ) -> Option<(u64, V)>
        requires map { guard.old.table ≡ self.now }
        ensures map { guard.new.table ≡ guard.old.table }
        ensures made { ReturnsPair (λ key. key) V.of_number guard.old (ceiling_of key)
            result guard.new }
    {
        self.map.ceiling(rt, guard, &key)
    }

    /// The pair with the least key above this one, its value read back from its number.
    pub fn above<R: Wait>(&self, rt: &R, guard: &mut Guard<'_, L, M>, key: u64) -> Option<(u64, V)>
        requires map { guard.old.table ≡ self.now }
        ensures map { guard.new.table ≡ guard.old.table }
        ensures made { ReturnsPair (λ key. key) V.of_number guard.old (above_of key)
            result guard.new }
    {
        self.map.above(rt, guard, &key)
    }
}
