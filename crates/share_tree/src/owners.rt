//! The map of owners under a lock.
//!
//! Tested in `share_maps` and `test_share_guards/changes`.

ghost use Rattle.std.specs.Prelude.{◌≡◌, ◌≢◌, ℕ, Some, length, false};
ghost use Rattle.std.specs.Arc.{arc_value};
ghost use Rattle.share_backend.specs.Changing.{Counts, reply_in};
ghost use Rattle.share_backend.specs.Stages.{Changes, IsOf, Turns};
ghost use Rattle.share_backend.specs.declared.lent.CallStage.{CallStage};
ghost use Rattle.spec_map.specs.Map.{Pairs};
ghost use Rattle.node_table.specs.inner.Kinds.{mapped};
ghost use Rattle.spec_olc.specs.Calls.{outline_of};
ghost use Rattle.spec_olc.specs.Meaning.{in_some, outcome_of};
ghost use Rattle.share_tree.specs.Seats.{seat_place_in};

use crate::direct::Direct;
use node_stats::NodeStats;
use node_table::allocator::Allocator;
use share_backend::event::EventResult;
use share_backend::lent::Lent;
use share_backend::snapshots::{Made, Owners, Snapshots};
use spec_map::error::OOMError;
use spec_map::traits::Word;
use spec_olc::types::{Env, Op, StartError};
use std::alloc::Global;
use std::sync::Arc;

impl<V: Drop, A: Allocator> Lent<Arc<V>, V> for Direct<Arc<V>, A> {
    ghost use Rattle.std.specs.Prelude.{◌≡◌, false, length};
    ghost use Rattle.std.specs.Arc.{arc_value};
    ghost use Rattle.node_table.specs.inner.Kinds.{mapped};
    ghost use Rattle.share_tree.specs.Seats.{seat_place_in};

    ghost meaning = { λ x. arc_value x };

    ghost same = { λ _ _. false };

    ghost content = { λ d m. m ≡ mapped (λ x. arc_value x) d.pairs };

    ghost entries = { λ d. length d.pairs };

    ghost place = { λ d. seat_place_in (λ x. arc_value x) d.seats };

    fn law_one_content(&self) {}

    fn again(answer: &Arc<V>) -> Result<Arc<V>, OOMError> {
        Ok(answer.clone()?)
    }

    fn seat(&mut self) -> Result<u64, OOMError> {
        self.take_seat()
    }

    fn unseat(&mut self, id: u64) {
        self.leave_seat(id);
    }

    fn open(&mut self, id: u64, op: &Op<Arc<V>>) -> Result<EventResult<Arc<V>>, StartError> {
        self.begin(id, op)
    }

    fn step(&mut self, id: u64, op: &Op<Arc<V>>, env: Env<Arc<V>>) -> EventResult<Arc<V>>
        ensures turns { (p : CallStage V) → seat_place_in (λ x. arc_value x) self.old.seats id ≡ Some p
            → IsOf (outline_of op.now) p
            → Turns p (in_some (λ x. arc_value x) env.answer) result.report.kind
            (seat_place_in (λ x. arc_value x) self.new.seats id)
            (outcome_of (λ x. arc_value x) result.outcome) }
        ensures content { (p : CallStage V) → seat_place_in (λ x. arc_value x) self.old.seats id ≡ Some p
            → IsOf (outline_of op.now) p
            → (m : Pairs V) → m ≡ mapped (λ x. arc_value x) self.old.pairs
            → (n : Pairs V) × (n ≡ mapped (λ x. arc_value x) self.new.pairs)
            × Changes (λ _ _. false) p m n (outcome_of (λ x. arc_value x) result.outcome) }
        ensures counts { Counts op.now (reply_in result.outcome)
            (length self.old.pairs) (length self.new.pairs) }
        ensures others { (p : CallStage V) → seat_place_in (λ x. arc_value x) self.old.seats id ≡ Some p
            → IsOf (outline_of op.now) p → (k : ℕ) → k ≢ id
            → seat_place_in (λ x. arc_value x) self.new.seats k
            ≡ seat_place_in (λ x. arc_value x) self.old.seats k }
    {
        self.go_on(id, op, env)
    }

    fn reclaim_next(&mut self) -> bool {
        false
    }
}

impl<V: Drop, A: Allocator> Made<Arc<V>, V, A> for Direct<Arc<V>, A> {
    fn made(alloc: Global, budget: A) -> Result<Self, OOMError> {
        Direct::empty(alloc, budget)
    }
}

impl<V: Drop, A: Allocator> Snapshots<Arc<V>, V> for Direct<Arc<V>, A> {
    ghost nodes = { λ d. d.nodes };

    fn entry_count(&self) -> u128 {
        self.pair_count()
    }

    fn keys<K: Word>(&self, _alloc: Global) -> Result<Vec<K>, OOMError> {
        self.all_keys()
    }

    fn pair_from(&self, start: u64) -> Option<(u64, &Arc<V>)> {
        self.least_from(start)
    }

    fn stats(&self) -> Result<NodeStats, OOMError> {
        self.sums()
    }
}

impl<V: Drop, A: Allocator> Owners<V> for Direct<Arc<V>, A> {
    fn owners_mean_their_values() {}
}
