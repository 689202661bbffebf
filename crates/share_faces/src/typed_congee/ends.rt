//! The greatest pair of a map, the neighbours of a key below it, and pops, where the map under the lock finds pairs by their order. Each call
//! takes one hold of the lock, and is an entry of its guard's history. None fails.
//!
//! Tested in `test_share_ends`.

ghost use Rattle.std.specs.Prelude.{◌≡◌};
ghost use Rattle.spec_map.specs.Call.{first as first_end, last as last_end, floor as floor_of, below as below_of};
ghost use Rattle.spec_olc.specs.Meaning.{in_some};
ghost use Rattle.share_faces.specs.Returned.{ReturnsPair, ReturnsPopped};

use super::{Congee, Guard};
use share_backend::ordered::Ordered;
use share_works::near::Near;
use spec_map::traits::{Drainer, Word};
use std::sync::Wait;
use std::sync::ledger::Ledger;

// The pair that two numbers are read back as, if there is one.
pub(super) fn pair_read_back<K: Word, V: Word>(found: Option<(u64, u64)>) -> Option<(K, V)>
    ensures { result ≡ in_some (λ numbers. (K.of_number numbers.0, V.of_number numbers.1)) found }
{
    match found {
        Some((key, number)) => Some((K::from_u64(key), V::from_u64(number))),
        None => None,
    }
}

impl<L: Ledger, K: Word, V: Word, M: Ordered, D: Drainer<K, V>> Congee<L, K, V, M, D> {
    /// The pair with the greatest key, each read back from its number.
    pub fn last<R: Wait>(&self, rt: &R, guard: &mut Guard<'_, L, M>) -> Option<(K, V)>
        requires map { guard.old.table ≡ self.now }
        ensures map { guard.new.table ≡ guard.old.table }
        ensures made { ReturnsPair K.of_number V.of_number guard.old last_end result guard.new }
    {
        pair_read_back(self.raw.nearest(rt, guard, Near::Last))
    }

    /// The pair with the greatest key that is at most this one, each read back from its number.
    pub fn floor<R: Wait>(&self, rt: &R, guard: &mut Guard<'_, L, M>, key: &K) -> Option<(K, V)>
        requires map { guard.old.table ≡ self.now }
        ensures map { guard.new.table ≡ guard.old.table }
        ensures made { ReturnsPair K.of_number V.of_number guard.old (floor_of (K.number key.now))
            result guard.new }
    {
        pair_read_back(self.raw.nearest(rt, guard, Near::Floor(key.into_u64())))
    }

    /// The pair with the greatest key below this one, each read back from its number.
    pub fn below<R: Wait>(&self, rt: &R, guard: &mut Guard<'_, L, M>, key: &K) -> Option<(K, V)>
        requires map { guard.old.table ≡ self.now }
        ensures map { guard.new.table ≡ guard.old.table }
        ensures made { ReturnsPair K.of_number V.of_number guard.old (below_of (K.number key.now))
            result guard.new }
    {
        pair_read_back(self.raw.nearest(rt, guard, Near::Below(key.into_u64())))
    }

    /// Removes the pair with the least key, and returns it, each read back from its number.
    pub fn pop_first<R: Wait>(&self, rt: &R, guard: &mut Guard<'_, L, M>) -> Option<(K, V)>
        requires map { guard.old.table ≡ self.now }
        ensures map { guard.new.table ≡ guard.old.table }
        ensures made { ReturnsPopped K.of_number V.of_number guard.old first_end result guard.new }
    {
        pair_read_back(self.raw.pop_first(rt, guard))
    }

    /// Removes the pair with the greatest key, and returns it, each read back from its number.
    pub fn pop_last<R: Wait>(&self, rt: &R, guard: &mut Guard<'_, L, M>) -> Option<(K, V)>
        requires map { guard.old.table ≡ self.now }
        ensures map { guard.new.table ≡ guard.old.table }
        ensures made { ReturnsPopped K.of_number V.of_number guard.old last_end result guard.new }
    {
        pair_read_back(self.raw.pop_last(rt, guard))
    }
}
