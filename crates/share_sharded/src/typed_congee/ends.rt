//! The ends of a map, the neighbours of a key, and pops: each one moment of the whole map.
//!
//! Tested in `test_share_shards`.

ghost use Rattle.std.specs.Prelude.{◌≡◌, IfOk, OnErr};
ghost use Rattle.std.specs.Option.{option_map};
ghost use Rattle.spec_map.specs.Call.{first as first_end, last as last_end, floor as floor_of, below as below_of, ceiling as ceiling_of, above as above_of};
ghost use Rattle.share_sharded.specs.Returned.{ReturnsPair, ReturnsPopped};
ghost use Rattle.share_visits.specs.Near.{near_of};

use super::{Busy, Congee, Guard};
use crossbeam_utils::Backoff;
use share_visits::near::Near;
use spec_map::traits::Word;
use std::sync::Wait;

// The pair that two numbers are read back as, if there is one.
fn pair_read_back<K: Word, V: Word>(found: Option<(u64, u64)>) -> Option<(K, V)>
    ensures { result ≡ option_map (λ numbers. (K.of_number numbers.0, V.of_number numbers.1)) found }
{
    match found {
        Some((key, number)) => Some((K::from_u64(key), V::from_u64(number))),
        None => None,
    }
}

impl<K: Word, V: Word> Congee<K, V> {
    // The pair there, each read back from its number.
    fn try_nearest(&self, guard: &mut Guard, near: Near) -> Result<Option<(K, V)>, Busy>
        requires map { guard.old.table ≡ self.now.table }
        ensures map { guard.new.table ≡ guard.old.table }
        ensures made { IfOk result (λ pair.
            ReturnsPair K.of_number V.of_number guard.old (near_of near) pair guard.new) }
        ensures busy { OnErr result (guard.new ≡ guard.old) }
    {
        match guard.nearest(near) {
            Ok(found) => Ok(pair_read_back(found)),
            Err(_) => Err(Busy),
        }
    }

    /// The pair with the least key, each read back from its number.
    pub fn try_first(&self, guard: &mut Guard) -> Result<Option<(K, V)>, Busy>
        requires map { guard.old.table ≡ self.now.table }
        ensures map { guard.new.table ≡ guard.old.table }
        ensures made { IfOk result (λ pair. ReturnsPair K.of_number V.of_number guard.old
            first_end pair guard.new) }
        ensures busy { OnErr result (guard.new ≡ guard.old) }
    {
        self.try_nearest(guard, Near::First)
    }

    /// The pair with the least key, each read back from its number. Pauses and tries again while a lock that it needs
    /// is taken.
    pub fn first<R: Wait>(&self, rt: &R, guard: &mut Guard) -> Option<(K, V)>
        requires map { guard.old.table ≡ self.now.table }
        ensures map { guard.new.table ≡ guard.old.table }
        ensures made { ReturnsPair K.of_number V.of_number guard.old first_end
            result guard.new }
    {
        made!(rt, self.try_first(guard))
    }

    /// The pair with the greatest key, each read back from its number.
    pub fn try_last(&self, guard: &mut Guard) -> Result<Option<(K, V)>, Busy>
        requires map { guard.old.table ≡ self.now.table }
        ensures map { guard.new.table ≡ guard.old.table }
        ensures made { IfOk result (λ pair. ReturnsPair K.of_number V.of_number guard.old
            last_end pair guard.new) }
        ensures busy { OnErr result (guard.new ≡ guard.old) }
    {
        self.try_nearest(guard, Near::Last)
    }

    /// The pair with the greatest key, each read back from its number. Pauses and tries again while a lock that it
    /// needs is taken.
    pub fn last<R: Wait>(&self, rt: &R, guard: &mut Guard) -> Option<(K, V)>
        requires map { guard.old.table ≡ self.now.table }
        ensures map { guard.new.table ≡ guard.old.table }
        ensures made { ReturnsPair K.of_number V.of_number guard.old last_end
            result guard.new }
    {
        made!(rt, self.try_last(guard))
    }

    /// The pair with the greatest key that is at most this one, each read back from its number.
    pub fn try_floor(&self, guard: &mut Guard, key: &K) -> Result<Option<(K, V)>, Busy>
        requires map { guard.old.table ≡ self.now.table }
        ensures map { guard.new.table ≡ guard.old.table }
        ensures made { IfOk result (λ pair. ReturnsPair K.of_number V.of_number guard.old
            (floor_of (K.number key.now)) pair guard.new) }
        ensures busy { OnErr result (guard.new ≡ guard.old) }
    {
        self.try_nearest(guard, Near::Floor(key.into_u64()))
    }

    /// The pair with the greatest key that is at most this one, each read back from its number. Pauses and tries again
    /// while a lock that it needs is taken.
    pub fn floor<R: Wait>(&self, rt: &R, guard: &mut Guard, key: &K) -> Option<(K, V)>
        requires map { guard.old.table ≡ self.now.table }
        ensures map { guard.new.table ≡ guard.old.table }
        ensures made { ReturnsPair K.of_number V.of_number guard.old (floor_of (K.number key.now))
            result guard.new }
    {
        made!(rt, self.try_floor(guard, key))
    }

    /// The pair with the greatest key below this one, each read back from its number.
    pub fn try_below(&self, guard: &mut Guard, key: &K) -> Result<Option<(K, V)>, Busy>
        requires map { guard.old.table ≡ self.now.table }
        ensures map { guard.new.table ≡ guard.old.table }
        ensures made { IfOk result (λ pair. ReturnsPair K.of_number V.of_number guard.old
            (below_of (K.number key.now)) pair guard.new) }
        ensures busy { OnErr result (guard.new ≡ guard.old) }
    {
        self.try_nearest(guard, Near::Below(key.into_u64()))
    }

    /// The pair with the greatest key below this one, each read back from its number. Pauses and tries again while a
    /// lock that it needs is taken.
    pub fn below<R: Wait>(&self, rt: &R, guard: &mut Guard, key: &K) -> Option<(K, V)>
        requires map { guard.old.table ≡ self.now.table }
        ensures map { guard.new.table ≡ guard.old.table }
        ensures made { ReturnsPair K.of_number V.of_number guard.old (below_of (K.number key.now))
            result guard.new }
    {
        made!(rt, self.try_below(guard, key))
    }

    /// The pair with the least key that is at least this one, each read back from its number.
    pub fn try_ceiling(&self, guard: &mut Guard, key: &K) -> Result<Option<(K, V)>, Busy>
        requires map { guard.old.table ≡ self.now.table }
        ensures map { guard.new.table ≡ guard.old.table }
        ensures made { IfOk result (λ pair. ReturnsPair K.of_number V.of_number guard.old
            (ceiling_of (K.number key.now)) pair guard.new) }
        ensures busy { OnErr result (guard.new ≡ guard.old) }
    {
        self.try_nearest(guard, Near::Ceiling(key.into_u64()))
    }

    /// The pair with the least key that is at least this one, each read back from its number. Pauses and tries again
    /// while a lock that it needs is taken.
    pub fn ceiling<R: Wait>(&self, rt: &R, guard: &mut Guard, key: &K) -> Option<(K, V)>
        requires map { guard.old.table ≡ self.now.table }
        ensures map { guard.new.table ≡ guard.old.table }
        ensures made { ReturnsPair K.of_number V.of_number guard.old (ceiling_of (K.number key.now))
            result guard.new }
    {
        made!(rt, self.try_ceiling(guard, key))
    }

    /// The pair with the least key above this one, each read back from its number.
    pub fn try_above(&self, guard: &mut Guard, key: &K) -> Result<Option<(K, V)>, Busy>
        requires map { guard.old.table ≡ self.now.table }
        ensures map { guard.new.table ≡ guard.old.table }
        ensures made { IfOk result (λ pair. ReturnsPair K.of_number V.of_number guard.old
            (above_of (K.number key.now)) pair guard.new) }
        ensures busy { OnErr result (guard.new ≡ guard.old) }
    {
        self.try_nearest(guard, Near::Above(key.into_u64()))
    }

    /// The pair with the least key above this one, each read back from its number. Pauses and tries again while a lock
    /// that it needs is taken.
    pub fn above<R: Wait>(&self, rt: &R, guard: &mut Guard, key: &K) -> Option<(K, V)>
        requires map { guard.old.table ≡ self.now.table }
        ensures map { guard.new.table ≡ guard.old.table }
        ensures made { ReturnsPair K.of_number V.of_number guard.old (above_of (K.number key.now))
            result guard.new }
    {
        made!(rt, self.try_above(guard, key))
    }

    /// Removes the pair with the least key, and returns it, each read back from its number.
    pub fn try_pop_first(&self, guard: &mut Guard) -> Result<Option<(K, V)>, Busy>
        requires map { guard.old.table ≡ self.now.table }
        ensures map { guard.new.table ≡ guard.old.table }
        ensures made { IfOk result (λ pair. ReturnsPopped K.of_number V.of_number guard.old
            first_end pair guard.new) }
        ensures busy { OnErr result (guard.new ≡ guard.old) }
    {
        match guard.pop_first() {
            Ok(found) => Ok(pair_read_back(found)),
            Err(_) => Err(Busy),
        }
    }

    /// Removes the pair with the least key, and returns it, each read back from its number. Pauses and tries again
    /// while a lock that it needs is taken.
    pub fn pop_first<R: Wait>(&self, rt: &R, guard: &mut Guard) -> Option<(K, V)>
        requires map { guard.old.table ≡ self.now.table }
        ensures map { guard.new.table ≡ guard.old.table }
        ensures made { ReturnsPopped K.of_number V.of_number guard.old first_end result guard.new }
    {
        made!(rt, self.try_pop_first(guard))
    }

    /// Removes the pair with the greatest key, and returns it, each read back from its number.
    pub fn try_pop_last(&self, guard: &mut Guard) -> Result<Option<(K, V)>, Busy>
        requires map { guard.old.table ≡ self.now.table }
        ensures map { guard.new.table ≡ guard.old.table }
        ensures made { IfOk result (λ pair. ReturnsPopped K.of_number V.of_number guard.old
            last_end pair guard.new) }
        ensures busy { OnErr result (guard.new ≡ guard.old) }
    {
        match guard.pop_last() {
            Ok(found) => Ok(pair_read_back(found)),
            Err(_) => Err(Busy),
        }
    }

    /// Removes the pair with the greatest key, and returns it, each read back from its number. Pauses and tries again
    /// while a lock that it needs is taken.
    pub fn pop_last<R: Wait>(&self, rt: &R, guard: &mut Guard) -> Option<(K, V)>
        requires map { guard.old.table ≡ self.now.table }
        ensures map { guard.new.table ≡ guard.old.table }
        ensures made { ReturnsPopped K.of_number V.of_number guard.old last_end result guard.new }
    {
        made!(rt, self.try_pop_last(guard))
    }
}
