//! The list of a shared map's keys, as an entry of the history.
//!
//! Tested in `test_share_ends`.

ghost use Rattle.std.specs.Prelude.{◌≡◌, ℕ, List, IfOk, OnErr, map};
ghost use Rattle.spec_map.specs.Call.{keys, listed};
ghost use Rattle.spec_olc.specs.Runs.{same_number};
ghost use Rattle.share_rule.specs.Known.{MadeCall};
ghost use Rattle.share_works.specs.Made.{returned};

use crate::raw::{Guard, Raw};
use share_backend::lent::CallStage;
use share_backend::ordered::Ordered;
use share_rule::work::Work;
use share_state::state::LockedState;
use share_works::hold::hold;
use share_works::map_state::MapState;
use spec_map::error::OOMError;
use spec_map::traits::Word;
use std::alloc::Global;
use std::sync::Wait;
use std::sync::ledger::Ledger;

#[derive(Drop)]
struct ListKeys<K: Word> {
    alloc: Global,
    keys: Result<Vec<K>, OOMError>,
}

impl<L: Ledger, M: Ordered, K: Word> Work<u64, CallStage<u64>, LockedState<L, u64, u64, M>, ()>
    for ListKeys<K> {
    ghost use Rattle.std.specs.Prelude.{◌≡◌, ℕ, IfOk, map};
    ghost use Rattle.share_guards.specs.inner.Listing.{listing_keys};

    ghost made = { λ w value. listing_keys w.keys (M.pairs value.under) };

    ghost does = { λ old _ value new _. IfOk new.keys (λ keys.
        keys.items ≡ map K.of_number (map (λ (pair : ℕ × ℕ). pair.0) (M.pairs value.under))) };

    fn work(&mut self, value: &mut LockedState<L, u64, u64, M>, buffer: &mut [()]) {
        let _ = buffer;
        value.law_contains();
        self.keys = value.keys(self.alloc);
    }
}

impl<L: Ledger, M: Ordered> Raw<L, u64, u64, M> {
    /// The keys, ascending, each read back from its number. `OOMError` if there is no memory for the list: then it is no
    /// entry.
    pub fn keys_recorded<R: Wait, K: Word>(
        &self,
        rt: &R,
        guard: &mut Guard<'_, L, u64, u64, M>,
        alloc: Global,
    ) -> Result<Vec<K>, OOMError>
        requires map { guard.old.table ≡ self.now }
        ensures made { IfOk result (λ found. (numbers : List ℕ)
            × MadeCall same_number guard.old (returned keys (listed numbers)) guard.new
            × (found.items ≡ map K.of_number numbers)) }
        ensures unchanged { OnErr result (guard.new ≡ guard.old) }
    {
        M::numbers_mean_themselves();
        let mut work = ListKeys {
            alloc,
            keys: Err(OOMError::new()),
        };
        hold(&self.lock, rt, &mut guard.seat, &mut work, &mut []);
        work.keys
    }
}
