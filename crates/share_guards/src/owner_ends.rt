//! The ends of a shared map of owners, the neighbours of a key, and pops: each one hold of the lock, and an entry of the
//! history. A pair that is found comes with one more owner, a pair that is removed with its own.
//!
//! Tested in `test_share_ends`.

ghost use Rattle.std.specs.Prelude.{◌≡◌, IfOk, OnErr};
ghost use Rattle.std.specs.Arc.{arc_value};
ghost use Rattle.spec_map.specs.Call.{nearest, found, first, last};
ghost use Rattle.share_backend.specs.Owners.{never_same};
ghost use Rattle.share_rule.specs.Known.{MadeCall, MadeCalls};
ghost use Rattle.share_works.specs.Ends.{near_of};
ghost use Rattle.share_guards.specs.Many.{owned_pair, popping_owned};
ghost use Rattle.share_guards.specs.Operations.{returned};

use crate::raw::{Guard, Raw};
use share_backend::lent::CallStage;
use share_backend::owner_ends::OrderedOwners;
use share_rule::work::Work;
use share_state::state::LockedState;
use share_works::hold::hold;
use share_works::near::Near;
use spec_map::error::OOMError;
use std::sync::ledger::Ledger;
use std::sync::{Arc, Wait};

#[derive(Drop)]
struct Find<V: Drop> {
    near: Near,
    found: Result<Option<(u64, Arc<V>)>, OOMError>,
}

impl<L: Ledger, V: Drop, M: OrderedOwners<V>> Work<
    V,
    CallStage<V>,
    LockedState<L, Arc<V>, V, M>,
    (),
> for Find<V> {
    ghost use Rattle.std.specs.Prelude.{◌≡◌};
    ghost use Rattle.std.specs.Arc.{arc_value};
    ghost use Rattle.share_works.specs.Ends.{near_of};
    ghost use Rattle.share_guards.specs.inner.Trying.{finding};

    ghost made = { λ w _. finding (λ owner. arc_value owner) (near_of w.near) w.found };

    ghost does = { λ old _ _ new _. new.near ≡ old.near };

    fn work(&mut self, value: &mut LockedState<L, Arc<V>, V, M>, buffer: &mut [()]) {
        let _ = buffer;
        value.law_owners();
        self.found = value.owner_near(self.near);
    }
}

#[derive(Drop)]
struct PopFirst<V: Drop> {
    pair: Option<(u64, Arc<V>)>,
}

impl<L: Ledger, V: Drop, M: OrderedOwners<V>> Work<
    V,
    CallStage<V>,
    LockedState<L, Arc<V>, V, M>,
    (),
> for PopFirst<V> {
    ghost use Rattle.std.specs.Arc.{arc_value};
    ghost use Rattle.spec_map.specs.Call.{first};
    ghost use Rattle.share_guards.specs.Many.{owned_pair, popping_owned};

    ghost made = { λ w _. popping_owned first (owned_pair (λ owner. arc_value owner) w.pair) };

    ghost does = { λ old _ _ new _. Unit {0} };

    fn work(&mut self, value: &mut LockedState<L, Arc<V>, V, M>, buffer: &mut [()]) {
        let _ = buffer;
        value.law_owners();
        self.pair = value.pop_first();
        value.law_owners();
    }
}

#[derive(Drop)]
struct PopLast<V: Drop> {
    pair: Option<(u64, Arc<V>)>,
}

impl<L: Ledger, V: Drop, M: OrderedOwners<V>> Work<
    V,
    CallStage<V>,
    LockedState<L, Arc<V>, V, M>,
    (),
> for PopLast<V> {
    ghost use Rattle.std.specs.Arc.{arc_value};
    ghost use Rattle.spec_map.specs.Call.{last};
    ghost use Rattle.share_guards.specs.Many.{owned_pair, popping_owned};

    ghost made = { λ w _. popping_owned last (owned_pair (λ owner. arc_value owner) w.pair) };

    ghost does = { λ old _ _ new _. Unit {0} };

    fn work(&mut self, value: &mut LockedState<L, Arc<V>, V, M>, buffer: &mut [()]) {
        let _ = buffer;
        value.law_owners();
        self.pair = value.pop_last();
        value.law_owners();
    }
}

impl<L: Ledger, V: Drop, M: OrderedOwners<V>> Raw<L, Arc<V>, V, M> {
    /// The pair there, with one more owner. `OOMError` if there is no room for it: then it is no entry.
    pub fn owner_near<R: Wait>(
        &self,
        rt: &R,
        guard: &mut Guard<'_, L, Arc<V>, V, M>,
        near: Near,
    ) -> Result<Option<(u64, Arc<V>)>, OOMError>
        requires map { guard.old.table ≡ self.now }
        ensures made { IfOk result (λ pair. MadeCall never_same guard.old
            (returned (nearest (near_of near))
            (found (owned_pair (λ owner. arc_value owner) pair))) guard.new) }
        ensures unchanged { OnErr result (guard.new ≡ guard.old) }
    {
        // (what the checker needs to know of M)
        M::owners_mean_their_values();
        let mut work = Find {
            near,
            found: Err(OOMError::new()),
        };
        hold(&self.lock, rt, &mut guard.seat, &mut work, &mut []);
        work.found
    }

    /// Removes the pair with the least key, and returns it.
    pub fn pop_first_owner<R: Wait>(
        &self,
        rt: &R,
        guard: &mut Guard<'_, L, Arc<V>, V, M>,
    ) -> Option<(u64, Arc<V>)>
        requires map { guard.old.table ≡ self.now }
        ensures made { MadeCalls never_same guard.old
            (popping_owned first (owned_pair (λ owner. arc_value owner) result)) guard.new }
    {
        M::owners_mean_their_values();
        let mut work = PopFirst { pair: None };
        hold(&self.lock, rt, &mut guard.seat, &mut work, &mut []);
        work.pair
    }

    /// Removes the pair with the greatest key, and returns it.
    pub fn pop_last_owner<R: Wait>(
        &self,
        rt: &R,
        guard: &mut Guard<'_, L, Arc<V>, V, M>,
    ) -> Option<(u64, Arc<V>)>
        requires map { guard.old.table ≡ self.now }
        ensures made { MadeCalls never_same guard.old
            (popping_owned last (owned_pair (λ owner. arc_value owner) result)) guard.new }
    {
        M::owners_mean_their_values();
        let mut work = PopLast { pair: None };
        hold(&self.lock, rt, &mut guard.seat, &mut work, &mut []);
        work.pair
    }
}
