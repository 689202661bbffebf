//! The machine under the lock.
//!
//! Tested in `share_maps`.

ghost use Rattle.std.specs.Prelude.{◌≡◌, ◌≢◌, ℕ, Some};
ghost use Rattle.spec_map.specs.Map.{Pairs};
ghost use Rattle.spec_olc.specs.Calls.{outline_of};
ghost use Rattle.spec_olc.specs.Content.{IsContent};
ghost use Rattle.spec_olc.specs.Meaning.{in_some, meant, outcome_of};
ghost use Rattle.spec_olc.specs.Runs.{same_number};
ghost use Rattle.share_backend.specs.declared.lent.CallStage.{CallStage};
ghost use Rattle.share_backend.specs.Changing.{Counts, reply_in};
ghost use Rattle.share_backend.specs.Stages.{Changes, IsOf, Turns};
ghost use Rattle.share_machine.specs.Places.{place_in};

use crate::calls;
use crate::events::Events;
use node_stats::NodeStats;
use node_table::allocator::Allocator;
use share_backend::event::EventResult;
use share_backend::lent::Lent;
use share_backend::snapshots::{Made, Pages, Snapshots};
use spec_map::error::OOMError;
use spec_map::traits::Word;
use spec_olc::types::{Env, Op, StartError};
use std::alloc::Global;
use tree_walk::range_scan::RangeEntry;

impl<A: Allocator> Lent<u64, u64> for Events<u64, A> {
    ghost use Rattle.spec_olc.specs.Content.{IsContent};
    ghost use Rattle.spec_olc.specs.Meaning.{meant};
    ghost use Rattle.spec_olc.specs.Runs.{same_number};
    ghost use Rattle.share_machine.specs.Places.{place_in};

    ghost meaning = { λ x. x };

    ghost same = { same_number };

    ghost content = { λ s. IsContent (meant (λ x. x) s.machine) };

    ghost entries = { λ s. s.machine.entries };

    ghost place = { λ s. place_in (meant (λ x. x) s.machine) };

    fn law_one_content(&self) {}

    fn again(answer: &u64) -> Result<u64, OOMError> {
        Ok(*answer)
    }

    fn seat(&mut self) -> Result<u64, OOMError> {
        calls::seat(&mut self.machine)
    }

    fn unseat(&mut self, id: u64) {
        calls::unseat(&mut self.machine, id);
    }

    fn open(&mut self, id: u64, op: &Op<u64>) -> Result<EventResult<u64>, StartError> {
        calls::open(&mut self.machine, id, op)
    }

    fn step(&mut self, id: u64, op: &Op<u64>, env: Env<u64>) -> EventResult<u64>
        ensures turns { (p : CallStage ℕ) → place_in (meant (λ x. x) self.old.machine) id ≡ Some p
            → IsOf (outline_of op.now) p
            → Turns p (in_some (λ x. x) env.answer) result.report.kind
            (place_in (meant (λ x. x) self.new.machine) id) (outcome_of (λ x. x) result.outcome) }
        ensures content { (p : CallStage ℕ) → place_in (meant (λ x. x) self.old.machine) id ≡ Some p
            → IsOf (outline_of op.now) p
            → (m : Pairs ℕ) → IsContent (meant (λ x. x) self.old.machine) m
            → (n : Pairs ℕ) × IsContent (meant (λ x. x) self.new.machine) n
            × Changes same_number p m n (outcome_of (λ x. x) result.outcome) }
        ensures counts { Counts op.now (reply_in result.outcome)
            self.old.machine.entries self.new.machine.entries }
        ensures others { (p : CallStage ℕ) → place_in (meant (λ x. x) self.old.machine) id ≡ Some p
            → IsOf (outline_of op.now) p → (k : ℕ) → k ≢ id
            → place_in (meant (λ x. x) self.new.machine) k ≡ place_in (meant (λ x. x) self.old.machine) k }
    {
        calls::step(&mut self.machine, id, op, env)
    }

    fn reclaim_next(&mut self) -> bool {
        self.machine.reclaim_next()
    }
}

impl<A: Allocator> Made<u64, u64, A> for Events<u64, A> {
    fn made(alloc: Global, budget: A) -> Result<Self, OOMError> {
        calls::made(alloc, budget)
    }
}

impl<A: Allocator> Snapshots<u64, u64> for Events<u64, A> {
    ghost use Rattle.spec_olc.specs.Meaning.{meant};
    ghost use Rattle.olc_machine.specs.Shape.{reachable};

    ghost nodes = { λ s. reachable (meant (λ x. x) s.machine) };

    fn entry_count(&self) -> u128 {
        self.machine.entry_count()
    }

    fn keys<K: Word>(&self, alloc: Global) -> Result<Vec<K>, OOMError> {
        calls::keys(&self.machine, alloc)
    }

    fn pair_from(&self, start: u64) -> Option<(u64, &u64)> {
        calls::pair_from(&self.machine, start)
    }

    fn stats(&self) -> Result<NodeStats, OOMError> {
        self.machine.stats()
    }
}

impl<A: Allocator> Pages for Events<u64, A> {
    ghost use Rattle.std.specs.Prelude.{false};

    ghost at_once = { false };

    fn numbers_mean_themselves() {}

    // A range is a call of many events.
    fn page<E: RangeEntry>(&self, _start: u64, _end: u64, _buffer: &mut [E]) -> Option<usize> {
        None
    }
}
