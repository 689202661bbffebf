//! The map of numbers under a lock.
//!
//! Tested in `share_maps` and `test_share_guards/changes`.

ghost use Rattle.std.specs.Prelude.{◌≡◌, ◌≢◌, ℕ, Some, length};
ghost use Rattle.share_backend.specs.Changing.{Counts, reply_in};
ghost use Rattle.share_backend.specs.Stages.{Changes, IsOf, Turns};
ghost use Rattle.share_backend.specs.declared.lent.CallStage.{CallStage};
ghost use Rattle.spec_map.specs.Map.{Pairs};
ghost use Rattle.node_table.specs.inner.Kinds.{mapped};
ghost use Rattle.spec_olc.specs.Calls.{outline_of};
ghost use Rattle.spec_olc.specs.Meaning.{in_some, outcome_of};
ghost use Rattle.spec_olc.specs.Runs.{same_number};
ghost use Rattle.share_tree.specs.Seats.{seat_place_in};

use crate::direct::Direct;
use node_stats::NodeStats;
use node_table::allocator::Allocator;
use share_backend::event::EventResult;
use share_backend::lent::Lent;
use share_backend::snapshots::{Made, Pages, Snapshots};
use spec_map::error::OOMError;
use spec_map::traits::Word;
use spec_olc::types::{Env, Op, StartError};
use std::alloc::Global;
use tree_walk::range_scan::RangeEntry;

impl<A: Allocator> Lent<u64, u64> for Direct<u64, A> {
    ghost use Rattle.std.specs.Prelude.{◌≡◌, length};
    ghost use Rattle.node_table.specs.inner.Kinds.{mapped};
    ghost use Rattle.spec_olc.specs.Runs.{same_number};
    ghost use Rattle.share_tree.specs.Seats.{seat_place_in};

    ghost meaning = { λ x. x };

    ghost same = { same_number };

    ghost content = { λ d m. m ≡ mapped (λ x. x) d.pairs };

    ghost entries = { λ d. length d.pairs };

    ghost place = { λ d. seat_place_in (λ x. x) d.seats };

    fn law_one_content(&self) {}

    fn again(answer: &u64) -> Result<u64, OOMError> {
        Ok(*answer)
    }

    fn seat(&mut self) -> Result<u64, OOMError> {
        self.take_seat()
    }

    fn unseat(&mut self, id: u64) {
        self.leave_seat(id);
    }

    fn open(&mut self, id: u64, op: &Op<u64>) -> Result<EventResult<u64>, StartError> {
        self.begin(id, op)
    }

    fn step(&mut self, id: u64, op: &Op<u64>, env: Env<u64>) -> EventResult<u64>
        ensures turns { (p : CallStage ℕ) → seat_place_in (λ x. x) self.old.seats id ≡ Some p
            → IsOf (outline_of op.now) p
            → Turns p (in_some (λ x. x) env.answer) result.report.kind
            (seat_place_in (λ x. x) self.new.seats id) (outcome_of (λ x. x) result.outcome) }
        ensures content { (p : CallStage ℕ) → seat_place_in (λ x. x) self.old.seats id ≡ Some p
            → IsOf (outline_of op.now) p → (m : Pairs ℕ) → m ≡ mapped (λ x. x) self.old.pairs
            → (n : Pairs ℕ) × (n ≡ mapped (λ x. x) self.new.pairs)
            × Changes same_number p m n (outcome_of (λ x. x) result.outcome) }
        ensures counts { Counts op.now (reply_in result.outcome)
            (length self.old.pairs) (length self.new.pairs) }
        ensures others { (p : CallStage ℕ) → seat_place_in (λ x. x) self.old.seats id ≡ Some p
            → IsOf (outline_of op.now) p → (k : ℕ) → k ≢ id
            → seat_place_in (λ x. x) self.new.seats k ≡ seat_place_in (λ x. x) self.old.seats k }
    {
        self.go_on(id, op, env)
    }

    fn reclaim_next(&mut self) -> bool {
        false
    }
}

impl<A: Allocator> Made<u64, u64, A> for Direct<u64, A> {
    fn made(alloc: Global, budget: A) -> Result<Self, OOMError> {
        Direct::empty(alloc, budget)
    }
}

impl<A: Allocator> Snapshots<u64, u64> for Direct<u64, A> {
    ghost nodes = { λ d. d.nodes };

    fn entry_count(&self) -> u128 {
        self.pair_count()
    }

    fn keys<K: Word>(&self, _alloc: Global) -> Result<Vec<K>, OOMError> {
        self.all_keys()
    }

    fn pair_from(&self, start: u64) -> Option<(u64, &u64)> {
        self.least_from(start)
    }

    fn stats(&self) -> Result<NodeStats, OOMError> {
        self.sums()
    }
}

impl<A: Allocator> Pages for Direct<u64, A> {
    ghost use Rattle.std.specs.Prelude.{true};

    ghost at_once = { true };

    fn numbers_mean_themselves() {}

    fn page<E: RangeEntry>(&self, start: u64, end: u64, buffer: &mut [E]) -> Option<usize> {
        Some(self.page_of(start, end, buffer))
    }
}
