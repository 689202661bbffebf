//! A map under a lock that seats one number at a time.

ghost use Rattle.std.specs.Prelude.{◌≡◌, ◌≢◌, ℕ, Some};
ghost use Rattle.share_backend.specs.Changing.{Counts, reply_in};
ghost use Rattle.share_backend.specs.Stages.{Changes, IsOf, Turns};
ghost use Rattle.share_backend.specs.declared.lent.CallStage.{CallStage};
ghost use Rattle.spec_map.specs.Map.{Pairs};
ghost use Rattle.spec_olc.specs.Calls.{outline_of};
ghost use Rattle.spec_olc.specs.Meaning.{in_some, outcome_of};

use congee::{DefaultAllocator, NodeStats};
use share_backend::event::EventResult;
use share_backend::lent::Lent;
use share_backend::snapshots::{Made, Owners, Pages, Snapshots};
use share_tree::direct::Direct;
use spec_map::error::OOMError;
use spec_map::traits::Word;
use spec_olc::types::{Env, Op, StartError};
use std::alloc::Global;
use std::sync::Arc;
use tree_walk::range_scan::RangeEntry;

/// It refuses a number while one is seated. All else is as the map has it.
#[derive(Drop)]
pub(crate) struct OneSeat<M> {
    under: M,
    taken: bool,
}

impl<P, T, M: Lent<P, T>> Lent<P, T> for OneSeat<M> {
    ghost meaning = { M.meaning };

    ghost same = { M.same };

    ghost content = { λ s. M.content s.under };

    ghost entries = { λ s. M.entries s.under };

    ghost place = { λ s. M.place s.under };

    fn law_one_content(&self) {
        self.under.law_one_content();
    }

    fn again(answer: &P) -> Result<P, OOMError> {
        M::again(answer)
    }

    fn seat(&mut self) -> Result<u64, OOMError> {
        if self.taken {
            return Err(OOMError::new());
        }
        let id = self.under.seat()?;
        self.taken = true;
        Ok(id)
    }

    fn unseat(&mut self, id: u64) {
        self.taken = false;
        self.under.unseat(id);
    }

    fn open(&mut self, id: u64, op: &Op<P>) -> Result<EventResult<P>, StartError> {
        self.under.open(id, op)
    }

    fn step(&mut self, id: u64, op: &Op<P>, env: Env<P>) -> EventResult<P>
        ensures turns { (p : CallStage T) → M.place self.old.under id ≡ Some p
            → IsOf (outline_of op.now) p
            → Turns p (in_some M.meaning env.answer) result.report.kind
            (M.place self.new.under id) (outcome_of M.meaning result.outcome) }
        ensures content { (p : CallStage T) → M.place self.old.under id ≡ Some p
            → IsOf (outline_of op.now) p
            → (m : Pairs T) → M.content self.old.under m
            → (n : Pairs T) × M.content self.new.under n
            × Changes M.same p m n (outcome_of M.meaning result.outcome) }
        ensures counts { Counts op.now (reply_in result.outcome)
            (M.entries self.old.under) (M.entries self.new.under) }
        ensures others { (p : CallStage T) → M.place self.old.under id ≡ Some p
            → IsOf (outline_of op.now) p → (k : ℕ) → k ≢ id
            → M.place self.new.under k ≡ M.place self.old.under k }
    {
        self.under.step(id, op, env)
    }

    fn reclaim_next(&mut self) -> bool {
        self.under.reclaim_next()
    }
}

impl<P, T, A, M: Made<P, T, A>> Made<P, T, A> for OneSeat<M> {
    fn made(alloc: Global, budget: A) -> Result<Self, OOMError> {
        Ok(OneSeat {
            under: M::made(alloc, budget)?,
            taken: false,
        })
    }
}

impl<P, T, M: Snapshots<P, T>> Snapshots<P, T> for OneSeat<M> {
    ghost nodes = { λ s. M.nodes s.under };

    fn entry_count(&self) -> u128 {
        self.under.entry_count()
    }

    fn keys<K: Word>(&self, alloc: Global) -> Result<Vec<K>, OOMError> {
        self.under.keys(alloc)
    }

    fn pair_from(&self, start: u64) -> Option<(u64, &P)> {
        self.under.pair_from(start)
    }

    fn stats(&self) -> Result<NodeStats, OOMError> {
        self.under.stats()
    }
}

impl<M: Pages> Pages for OneSeat<M> {
    ghost at_once = { M.at_once };

    fn numbers_mean_themselves() {
        M::numbers_mean_themselves();
    }

    fn page<E: RangeEntry>(&self, start: u64, end: u64, buffer: &mut [E]) -> Option<usize> {
        self.under.page(start, end, buffer)
    }
}

// (a contract can't be stated of owners of a type parameter here)
impl Owners<u64> for OneSeat<Direct<Arc<u64>, DefaultAllocator>> {
    fn owners_mean_their_values() {
        <Direct<Arc<u64>, DefaultAllocator> as Owners<u64>>::owners_mean_their_values();
    }
}
