//! A map under a lock that refuses every second number.

ghost use Rattle.std.specs.Prelude.{◌≡◌, ◌≢◌, ℕ, Some};
ghost use Rattle.share_backend.specs.Changing.{Counts, reply_in};
ghost use Rattle.share_backend.specs.Stages.{Changes, IsOf, Turns};
ghost use Rattle.share_backend.specs.declared.lent.CallStage.{CallStage};
ghost use Rattle.spec_map.specs.Map.{Pairs};
ghost use Rattle.spec_olc.specs.Calls.{outline_of};
ghost use Rattle.spec_olc.specs.Meaning.{in_some, outcome_of};

use share_backend::event::EventResult;
use share_backend::lent::Lent;
use share_backend::snapshots::Made;
use spec_map::error::OOMError;
use spec_olc::types::{Env, Op, StartError};
use std::alloc::Global;

/// It grants the first number, refuses the second one, and so on. All else is as the map has it.
#[derive(Drop)]
pub(crate) struct Refusing<M> {
    under: M,
    refuses: bool,
}

impl<M: Lent<u64, u64>> Lent<u64, u64> for Refusing<M> {
    ghost meaning = { M.meaning };

    ghost same = { M.same };

    ghost content = { λ r. M.content r.under };

    ghost entries = { λ r. M.entries r.under };

    ghost place = { λ r. M.place r.under };

    fn law_one_content(&self) {
        self.under.law_one_content();
    }

    fn again(answer: &u64) -> Result<u64, OOMError> {
        M::again(answer)
    }

    fn seat(&mut self) -> Result<u64, OOMError> {
        let refused = self.refuses;
        self.refuses = !refused;
        if refused {
            return Err(OOMError::new());
        }
        self.under.seat()
    }

    fn unseat(&mut self, id: u64) {
        self.under.unseat(id);
    }

    fn open(&mut self, id: u64, op: &Op<u64>) -> Result<EventResult<u64>, StartError> {
        self.under.open(id, op)
    }

    fn step(&mut self, id: u64, op: &Op<u64>, env: Env<u64>) -> EventResult<u64>
        ensures turns { (p : CallStage ℕ) → M.place self.old.under id ≡ Some p
            → IsOf (outline_of op.now) p
            → Turns p (in_some M.meaning env.answer) result.report.kind
            (M.place self.new.under id) (outcome_of M.meaning result.outcome) }
        ensures content { (p : CallStage ℕ) → M.place self.old.under id ≡ Some p
            → IsOf (outline_of op.now) p
            → (m : Pairs ℕ) → M.content self.old.under m
            → (n : Pairs ℕ) × M.content self.new.under n
            × Changes M.same p m n (outcome_of M.meaning result.outcome) }
        ensures counts { Counts op.now (reply_in result.outcome)
            (M.entries self.old.under) (M.entries self.new.under) }
        ensures others { (p : CallStage ℕ) → M.place self.old.under id ≡ Some p
            → IsOf (outline_of op.now) p → (k : ℕ) → k ≢ id
            → M.place self.new.under k ≡ M.place self.old.under k }
    {
        self.under.step(id, op, env)
    }

    fn reclaim_next(&mut self) -> bool {
        self.under.reclaim_next()
    }
}

impl<A, M: Made<u64, u64, A>> Made<u64, u64, A> for Refusing<M> {
    fn made(alloc: Global, budget: A) -> Result<Self, OOMError> {
        Ok(Refusing {
            under: M::made(alloc, budget)?,
            refuses: false,
        })
    }
}
