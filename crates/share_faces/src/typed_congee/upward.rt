//! The least pair, and a key's neighbours from it on, where the map under the lock finds them. Each call takes one hold of
//! the lock, and is an entry of its guard's history. None fails.
//!
//! Tested in `test_share_faces/upward`.

ghost use Rattle.std.specs.Prelude.{◌≡◌};
ghost use Rattle.spec_map.specs.Call.{first as first_end, ceiling as ceiling_of, above as above_of};
ghost use Rattle.share_faces.specs.Returned.{ReturnsPair};

use super::ends::pair_read_back;
use super::{Congee, Guard};
use share_backend::ascending::{Ascending, Upward};
use spec_map::traits::{Drainer, Word};
use std::sync::Wait;
use std::sync::ledger::Ledger;

impl<L: Ledger, K: Word, V: Word, M: Ascending, D: Drainer<K, V>> Congee<L, K, V, M, D> {
    /// The pair with the least key, each read back from its number.
    pub fn first<R: Wait>(&self, rt: &R, guard: &mut Guard<'_, L, M>) -> Option<(K, V)>
        requires map { guard.old.table ≡ self.now }
        ensures map { guard.new.table ≡ guard.old.table }
        ensures made { ReturnsPair K.of_number V.of_number guard.old first_end result guard.new }
    {
        pair_read_back(self.raw.upward(rt, guard, Upward::First))
    }

    /// The pair with the least key that is at least this one, each read back from its number.
    pub fn ceiling<R: Wait>(&self, rt: &R, guard: &mut Guard<'_, L, M>, key: &K) -> Option<(K, V)>
        requires map { guard.old.table ≡ self.now }
        ensures map { guard.new.table ≡ guard.old.table }
        ensures made { ReturnsPair K.of_number V.of_number guard.old (ceiling_of (K.number key.now))
            result guard.new }
    {
        pair_read_back(self.raw.upward(rt, guard, Upward::Ceiling(key.into_u64())))
    }

    /// The pair with the least key above this one, each read back from its number.
    pub fn above<R: Wait>(&self, rt: &R, guard: &mut Guard<'_, L, M>, key: &K) -> Option<(K, V)>
        requires map { guard.old.table ≡ self.now }
        ensures map { guard.new.table ≡ guard.old.table }
        ensures made { ReturnsPair K.of_number V.of_number guard.old (above_of (K.number key.now))
            result guard.new }
    {
        pair_read_back(self.raw.upward(rt, guard, Upward::Above(key.into_u64())))
    }
}
