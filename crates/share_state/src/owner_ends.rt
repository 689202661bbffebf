//! The state of a shared map of owners whose map finds and removes pairs by their order. What a pop takes out is booked on
//! the share that the state keeps.
//!
//! Tested in `test_share_ends`.

ghost use Rattle.std.specs.Prelude.{◌≡◌, ◌≤◌, ◌^◌, ℕ, IfOk, length};
ghost use Rattle.std.specs.Arc.{arc_value};
ghost use Rattle.std.specs.Option.{option_map};
ghost use Rattle.spec_map.specs.Map.{Pairs, IsMap};
ghost use Rattle.spec_map.specs.Near.{first_of, last_of, pair_near, without_pair};
ghost use Rattle.share_works.specs.Ends.{near_of};

use crate::state::LockedState;
use share_backend::owner_ends::OrderedOwners;
use share_ledger::take_to;
use share_works::near::Near;
use spec_map::error::OOMError;
use std::sync::Arc;
use std::sync::ledger::Ledger;

impl<L: Ledger, V: Drop, M: OrderedOwners<V>> LockedState<L, Arc<V>, V, M> {
    /// The law that the pairs ascend, each key once, and that they alone are stored.
    pub fn law_owners(&self)
        ensures ordered { IsMap (M.pairs self.now.under) }
        ensures content { M.content self.now.under (M.pairs self.now.under) }
        ensures only { (m : Pairs V) → M.content self.now.under m → m ≡ M.pairs self.now.under }
    {
        self.under.law_contains();
    }

    // The pair there, its owner lent.
    fn lent(&self, near: Near) -> Option<(u64, &Arc<V>)>
        ensures { option_map (λ lent. (lent.0, arc_value lent.1.now)) result
            ≡ pair_near (M.pairs self.now.under) (near_of near) }
    {
        match near {
            Near::First => self.under.first(),
            Near::Last => self.under.last(),
            Near::Floor(key) => self.under.floor(key),
            Near::Below(key) => self.under.below(key),
            Near::Ceiling(key) => self.under.ceiling(key),
            Near::Above(key) => self.under.above(key),
        }
    }

    /// The pair there, with one more owner. `OOMError` if there is no room for it.
    pub fn owner_near(&self, near: Near) -> Result<Option<(u64, Arc<V>)>, OOMError>
        ensures { IfOk result (λ found. option_map (λ pair. (pair.0, arc_value pair.1)) found
            ≡ pair_near (M.pairs self.now.under) (near_of near)) }
    {
        match self.lent(near) {
            None => Ok(None),
            Some((key, owner)) => Ok(Some((key, owner.clone()?))),
        }
    }

    /// Removes the pair with the least key, and returns it.
    pub fn pop_first(&mut self) -> Option<(u64, Arc<V>)>
        ensures pair { option_map (λ pair. (pair.0, arc_value pair.1)) result
            ≡ first_of (M.pairs self.old.under) }
        ensures pairs { M.pairs self.new.under
            ≡ without_pair (M.pairs self.old.under) (first_of (M.pairs self.old.under)) }
        ensures places { (k : ℕ) → M.place self.new.under k ≡ M.place self.old.under k }
    {
        let LockedState {
            under,
            book,
            own,
            of: _,
        } = self;
        let before = count_of(under);
        let popped = under.pop_first();
        take_to(book, own, before, count_of(under));
        popped
    }

    /// Removes the pair with the greatest key, and returns it.
    pub fn pop_last(&mut self) -> Option<(u64, Arc<V>)>
        ensures pair { option_map (λ pair. (pair.0, arc_value pair.1)) result
            ≡ last_of (M.pairs self.old.under) }
        ensures pairs { M.pairs self.new.under
            ≡ without_pair (M.pairs self.old.under) (last_of (M.pairs self.old.under)) }
        ensures places { (k : ℕ) → M.place self.new.under k ≡ M.place self.old.under k }
    {
        let LockedState {
            under,
            book,
            own,
            of: _,
        } = self;
        let before = count_of(under);
        let popped = under.pop_last();
        take_to(book, own, before, count_of(under));
        popped
    }
}

// The number of a map's pairs, of which there are 2 to the 64 at most.
#[tactic(auto, using(share_backend::proofs::Counting::few))]
fn count_of<V, M: OrderedOwners<V>>(map: &M) -> u128
    ensures count { result ≡ M.entries map.now }
    ensures pairs { result ≡ length (M.pairs map.now) }
    ensures few { result ≤ 2 ^ 64 }
{
    map.law_contains();
    map.entry_count()
}
