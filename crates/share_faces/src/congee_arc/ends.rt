//! The ends of a map of owners, the neighbours of a key, and pops, where the map under the lock finds pairs by their
//! order. Each call takes one hold of the lock, and is an entry of its guard's history.
//!
//! A pair that is found comes with one more owner, which needs room in the count of owners. Where there is none, the
//! call fails with `OOMError`, and is no entry. A pop returns the owner itself, and never fails.
//!
//! Tested in `test_share_ends`.

ghost use Rattle.std.specs.Prelude.{◌≡◌, IfOk, OnErr};
ghost use Rattle.std.specs.Arc.{arc_value};
ghost use Rattle.std.specs.Option.{option_map};
ghost use Rattle.spec_map.specs.Call.{first as first_end, last as last_end, floor as floor_of, below as below_of, ceiling as ceiling_of, above as above_of};
ghost use Rattle.share_works.specs.Ends.{near_of};
ghost use Rattle.share_faces.specs.Returned.{ReturnsOwner, ReturnsPoppedOwner};

use super::{CongeeArc, OwnerGuard};
use share_backend::owner_ends::OrderedOwners;
use share_works::near::Near;
use spec_map::error::OOMError;
use spec_map::traits::Word;
use std::sync::ledger::Ledger;
use std::sync::{Arc, Wait};

// The pair with its key read back from its number, if there is one.
fn key_read_back<K: Word, P: Drop>(found: Option<(u64, P)>) -> Option<(K, P)>
    ensures { result ≡ option_map (λ pair. (K.of_number pair.0, pair.1)) found }
{
    match found {
        Some((key, owner)) => Some((K::from_u64(key), owner)),
        None => None,
    }
}

impl<L: Ledger, K: Word, V: Send + Sync + Drop + 'static, M: OrderedOwners<V>> CongeeArc<
    L,
    K,
    V,
    M,
> {
    // The pair there.
    fn near<R: Wait>(
        &self,
        rt: &R,
        guard: &mut OwnerGuard<'_, L, V, M>,
        near: Near,
    ) -> Result<Option<(K, Arc<V>)>, OOMError>
        requires map { guard.old.table ≡ self.now }
        ensures map { guard.new.table ≡ guard.old.table }
        ensures made { IfOk result (λ pair. ReturnsOwner K.of_number (λ owner. arc_value owner)
            guard.old (near_of near) pair guard.new) }
        ensures unchanged { OnErr result (guard.new ≡ guard.old) }
    {
        let found = self.raw.owner_near(rt, guard, near)?;
        Ok(key_read_back(found))
    }

    /// The pair with the least key, with one more owner.
    pub fn first<R: Wait>(
        &self,
        rt: &R,
        guard: &mut OwnerGuard<'_, L, V, M>,
    ) -> Result<Option<(K, Arc<V>)>, OOMError>
        requires map { guard.old.table ≡ self.now }
        ensures map { guard.new.table ≡ guard.old.table }
        ensures made { IfOk result (λ pair. ReturnsOwner K.of_number (λ owner. arc_value owner)
            guard.old first_end pair guard.new) }
        ensures unchanged { OnErr result (guard.new ≡ guard.old) }
    {
        self.near(rt, guard, Near::First)
    }

    /// The pair with the greatest key, with one more owner.
    pub fn last<R: Wait>(
        &self,
        rt: &R,
        guard: &mut OwnerGuard<'_, L, V, M>,
    ) -> Result<Option<(K, Arc<V>)>, OOMError>
        requires map { guard.old.table ≡ self.now }
        ensures map { guard.new.table ≡ guard.old.table }
        ensures made { IfOk result (λ pair. ReturnsOwner K.of_number (λ owner. arc_value owner)
            guard.old last_end pair guard.new) }
        ensures unchanged { OnErr result (guard.new ≡ guard.old) }
    {
        self.near(rt, guard, Near::Last)
    }

    /// The pair with the greatest key that is at most this one, with one more owner.
    pub fn floor<R: Wait>(
        &self,
        rt: &R,
        guard: &mut OwnerGuard<'_, L, V, M>,
        key: K,
    ) -> Result<Option<(K, Arc<V>)>, OOMError>
        requires map { guard.old.table ≡ self.now }
        ensures map { guard.new.table ≡ guard.old.table }
        ensures made { IfOk result (λ pair. ReturnsOwner K.of_number (λ owner. arc_value owner)
            guard.old (floor_of (K.number key)) pair guard.new) }
        ensures unchanged { OnErr result (guard.new ≡ guard.old) }
    {
        self.near(rt, guard, Near::Floor(key.into_u64()))
    }

    /// The pair with the greatest key below this one, with one more owner.
    pub fn below<R: Wait>(
        &self,
        rt: &R,
        guard: &mut OwnerGuard<'_, L, V, M>,
        key: K,
    ) -> Result<Option<(K, Arc<V>)>, OOMError>
        requires map { guard.old.table ≡ self.now }
        ensures map { guard.new.table ≡ guard.old.table }
        ensures made { IfOk result (λ pair. ReturnsOwner K.of_number (λ owner. arc_value owner)
            guard.old (below_of (K.number key)) pair guard.new) }
        ensures unchanged { OnErr result (guard.new ≡ guard.old) }
    {
        self.near(rt, guard, Near::Below(key.into_u64()))
    }

    /// The pair with the least key that is at least this one, with one more owner.
    pub fn ceiling<R: Wait>(
        &self,
        rt: &R,
        guard: &mut OwnerGuard<'_, L, V, M>,
        key: K,
    ) -> Result<Option<(K, Arc<V>)>, OOMError>
        requires map { guard.old.table ≡ self.now }
        ensures map { guard.new.table ≡ guard.old.table }
        ensures made { IfOk result (λ pair. ReturnsOwner K.of_number (λ owner. arc_value owner)
            guard.old (ceiling_of (K.number key)) pair guard.new) }
        ensures unchanged { OnErr result (guard.new ≡ guard.old) }
    {
        self.near(rt, guard, Near::Ceiling(key.into_u64()))
    }

    /// The pair with the least key above this one, with one more owner.
    pub fn above<R: Wait>(
        &self,
        rt: &R,
        guard: &mut OwnerGuard<'_, L, V, M>,
        key: K,
    ) -> Result<Option<(K, Arc<V>)>, OOMError>
        requires map { guard.old.table ≡ self.now }
        ensures map { guard.new.table ≡ guard.old.table }
        ensures made { IfOk result (λ pair. ReturnsOwner K.of_number (λ owner. arc_value owner)
            guard.old (above_of (K.number key)) pair guard.new) }
        ensures unchanged { OnErr result (guard.new ≡ guard.old) }
    {
        self.near(rt, guard, Near::Above(key.into_u64()))
    }

    /// Removes the pair with the least key, and returns it with its owner.
    pub fn pop_first<R: Wait>(
        &self,
        rt: &R,
        guard: &mut OwnerGuard<'_, L, V, M>,
    ) -> Option<(K, Arc<V>)>
        requires map { guard.old.table ≡ self.now }
        ensures map { guard.new.table ≡ guard.old.table }
        ensures made { ReturnsPoppedOwner K.of_number (λ owner. arc_value owner)
            guard.old first_end result guard.new }
    {
        key_read_back(self.raw.pop_first_owner(rt, guard))
    }

    /// Removes the pair with the greatest key, and returns it with its owner.
    pub fn pop_last<R: Wait>(
        &self,
        rt: &R,
        guard: &mut OwnerGuard<'_, L, V, M>,
    ) -> Option<(K, Arc<V>)>
        requires map { guard.old.table ≡ self.now }
        ensures map { guard.new.table ≡ guard.old.table }
        ensures made { ReturnsPoppedOwner K.of_number (λ owner. arc_value owner)
            guard.old last_end result guard.new }
    {
        key_read_back(self.raw.pop_last_owner(rt, guard))
    }
}
