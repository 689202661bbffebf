//! The machine of shared owners under the lock.
//!
//! Tested in `share_maps`.

ghost use Rattle.std.specs.Prelude.{◌≡◌, ◌≢◌, ℕ, Some, false};
ghost use Rattle.std.specs.Arc.{arc_value};
ghost use Rattle.spec_map.specs.Map.{Pairs};
ghost use Rattle.spec_olc.specs.Calls.{outline_of};
ghost use Rattle.spec_olc.specs.Content.{IsContent};
ghost use Rattle.spec_olc.specs.Meaning.{in_some, meant, outcome_of};
ghost use Rattle.share_backend.specs.declared.lent.CallStage.{CallStage};
ghost use Rattle.share_backend.specs.Changing.{Counts, reply_in};
ghost use Rattle.share_backend.specs.Stages.{Changes, IsOf, Turns};
ghost use Rattle.share_machine.specs.Places.{place_in};

use crate::calls;
use crate::events::Events;
use node_stats::NodeStats;
use node_table::allocator::Allocator;
use share_backend::event::EventResult;
use share_backend::lent::Lent;
use share_backend::snapshots::{Made, Owners, Snapshots};
use spec_map::error::OOMError;
use spec_map::traits::Word;
use spec_olc::types::{Env, Op, StartError};
use std::alloc::Global;
use std::sync::Arc;

impl<V: Drop, A: Allocator> Lent<Arc<V>, V> for Events<Arc<V>, A> {
    ghost use Rattle.std.specs.Prelude.{false};
    ghost use Rattle.std.specs.Arc.{arc_value};
    ghost use Rattle.spec_olc.specs.Content.{IsContent};
    ghost use Rattle.spec_olc.specs.Meaning.{meant};
    ghost use Rattle.share_machine.specs.Places.{place_in};

    ghost meaning = { λ x. arc_value x };

    ghost same = { λ _ _. false };

    ghost content = { λ s. IsContent (meant (λ x. arc_value x) s.machine) };

    ghost entries = { λ s. s.machine.entries };

    ghost place = { λ s. place_in (meant (λ x. arc_value x) s.machine) };

    fn law_one_content(&self) {}

    fn again(answer: &Arc<V>) -> Result<Arc<V>, OOMError> {
        Ok(answer.clone()?)
    }

    fn seat(&mut self) -> Result<u64, OOMError> {
        calls::seat(&mut self.machine)
    }

    fn unseat(&mut self, id: u64) {
        calls::unseat(&mut self.machine, id);
    }

    fn open(&mut self, id: u64, op: &Op<Arc<V>>) -> Result<EventResult<Arc<V>>, StartError> {
        calls::open(&mut self.machine, id, op)
    }

    fn step(&mut self, id: u64, op: &Op<Arc<V>>, env: Env<Arc<V>>) -> EventResult<Arc<V>>
        ensures turns { (p : CallStage V) → place_in (meant (λ x. arc_value x) self.old.machine) id ≡ Some p
            → IsOf (outline_of op.now) p
            → Turns p (in_some (λ x. arc_value x) env.answer) result.report.kind
            (place_in (meant (λ x. arc_value x) self.new.machine) id) (outcome_of (λ x. arc_value x) result.outcome) }
        ensures content { (p : CallStage V) → place_in (meant (λ x. arc_value x) self.old.machine) id ≡ Some p
            → IsOf (outline_of op.now) p
            → (m : Pairs V) → IsContent (meant (λ x. arc_value x) self.old.machine) m
            → (n : Pairs V) × IsContent (meant (λ x. arc_value x) self.new.machine) n
            × Changes (λ _ _. false) p m n (outcome_of (λ x. arc_value x) result.outcome) }
        ensures counts { Counts op.now (reply_in result.outcome)
            self.old.machine.entries self.new.machine.entries }
        ensures others { (p : CallStage V) → place_in (meant (λ x. arc_value x) self.old.machine) id ≡ Some p
            → IsOf (outline_of op.now) p → (k : ℕ) → k ≢ id
            → place_in (meant (λ x. arc_value x) self.new.machine) k ≡ place_in (meant (λ x. arc_value x) self.old.machine) k }
    {
        calls::step(&mut self.machine, id, op, env)
    }

    fn reclaim_next(&mut self) -> bool {
        self.machine.reclaim_next()
    }
}

impl<V: Drop, A: Allocator> Made<Arc<V>, V, A> for Events<Arc<V>, A> {
    fn made(alloc: Global, budget: A) -> Result<Self, OOMError> {
        calls::made(alloc, budget)
    }
}

impl<V: Drop, A: Allocator> Snapshots<Arc<V>, V> for Events<Arc<V>, A> {
    ghost use Rattle.spec_olc.specs.Meaning.{meant};
    ghost use Rattle.olc_machine.specs.Shape.{reachable};
    ghost use Rattle.std.specs.Arc.{arc_value};

    ghost nodes = { λ s. reachable (meant (λ x. arc_value x) s.machine) };

    fn entry_count(&self) -> u128 {
        self.machine.entry_count()
    }

    fn keys<K: Word>(&self, alloc: Global) -> Result<Vec<K>, OOMError> {
        calls::keys(&self.machine, alloc)
    }

    fn pair_from(&self, start: u64) -> Option<(u64, &Arc<V>)> {
        calls::pair_from(&self.machine, start)
    }

    fn stats(&self) -> Result<NodeStats, OOMError> {
        self.machine.stats()
    }
}

impl<V: Drop, A: Allocator> Owners<V> for Events<Arc<V>, A> {
    fn owners_mean_their_values() {}
}
