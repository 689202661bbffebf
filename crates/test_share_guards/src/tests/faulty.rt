//! A map that answers once otherwise than the map below it would, and keeps to the interface all the same.
//!
//! A call's first event is kept back: the map below gets it with the second. So a call can be forgotten, refused or asked
//! a wrong question before the map below knows of it.

ghost use Rattle.std.specs.Prelude.{◌≡◌, ◌≢◌, ℕ, Option, Some, None};
ghost use Rattle.spec_map.specs.Map.{Pairs};
ghost use Rattle.spec_olc.specs.Calls.{outline_of};
ghost use Rattle.spec_olc.specs.Meaning.{in_some, outcome_of};
ghost use Rattle.share_backend.specs.Changing.{Counts, reply_in};
ghost use Rattle.share_backend.specs.Stages.{Changes, IsOf, Turns};
ghost use Rattle.share_backend.specs.declared.lent.CallStage.{CallStage};
ghost use Rattle.share_backend.specs.declared.lent.CallStage.TheVariants.{Ready};
ghost use Rattle.test_share_guards.specs.Delays.{IsDelayOf, placed, stage_by};

use crate::delay::{Delay, Delayed};
use node_stats::NodeStats;
use share_backend::event::EventResult;
use share_backend::lent::Lent;
use share_backend::snapshots::{Made, Pages, Snapshots};
use spec_map::error::OOMError;
use spec_map::traits::Word;
use spec_olc::types::{Env, Kind, Op, Outcome, Report, StartError};
use std::alloc::Global;
use tree_walk::range_scan::RangeEntry;

/// What an event answers in place of what it would.
#[derive(Clone, Copy, Debug, PartialEq, Eq)]
pub enum Fault {
    /// A first event is refused.
    NoStart,
    /// Nothing happens, as at a Take of a locked node.
    Stalls,
    /// The call is unknown.
    Forgets,
    /// The call is refused.
    Refuses,
    /// The closure is asked with a value that nobody stored.
    Asks,
    /// The closure is asked with a value that nobody stored, and then the call is unknown.
    AsksAndForgets,
}

/// What fails, and at which of the events, counted from 1.
#[derive(Clone, Copy)]
pub struct Plan {
    pub fault: Fault,
    pub at: u64,
}

/// The value with which a closure is asked wrongly.
pub const WRONG: u64 = 7777;

/// A map that follows a plan over another one.
#[derive(Drop)]
pub struct Faulty<M> {
    under: M,
    delayed: Option<Delayed>,
    plan: Plan,
    events: u64,
}

fn copied(op: &Op<u64>) -> Op<u64>
    ensures { result ≡ op.now }
{
    match op {
        Op::Get(key) => Op::Get(*key),
        Op::Insert(key, value) => Op::Insert(*key, *value),
        Op::Remove(key) => Op::Remove(*key),
        Op::ComputeIfPresent(key) => Op::ComputeIfPresent(*key),
        Op::ComputeOrInsert(key, otherwise) => Op::ComputeOrInsert(*key, *otherwise),
        Op::CompareExchange(key, old, new) => Op::CompareExchange(*key, *old, *new),
        Op::Range(start, end, limit) => Op::Range(*start, *end, *limit),
    }
}

// An event with this outcome, as at a node that is locked.
fn event(outcome: Outcome<u64>) -> EventResult<u64>
    ensures outcome { result.outcome ≡ outcome }
    ensures kind { result.report.kind ≡ Kind.Take }
{
    EventResult {
        report: Report {
            kind: Kind::Take,
            ok: false,
            slot: None,
            word: 0,
        },
        outcome,
    }
}

// An event of the map below, or none.
fn passed<M: Lent<u64, u64>>(
    under: &mut M,
    stalls: bool,
    id: u64,
    op: &Op<u64>,
    env: Env<u64>,
) -> EventResult<u64>
    ensures turns { (p : CallStage ℕ) → M.place under.old id ≡ Some p
        → IsOf (outline_of op.now) p
        → Turns p (in_some M.meaning env.answer) result.report.kind
        (M.place under.new id) (outcome_of M.meaning result.outcome) }
    ensures content { (p : CallStage ℕ) → M.place under.old id ≡ Some p
        → IsOf (outline_of op.now) p
        → (m : Pairs ℕ) → M.content under.old m
        → (n : Pairs ℕ) × M.content under.new n
        × Changes M.same p m n (outcome_of M.meaning result.outcome) }
    ensures counts { Counts op.now (reply_in result.outcome)
        (M.entries under.old) (M.entries under.new) }
    ensures others { (p : CallStage ℕ) → M.place under.old id ≡ Some p
        → IsOf (outline_of op.now) p
        → (k : ℕ) → k ≢ id → M.place under.new k ≡ M.place under.old k }
{
    if stalls {
        return event(Outcome::Going);
    }
    under.step(id, op, env)
}

impl<M: Lent<u64, u64>> Faulty<M> {
    // The fault of the next event, if it has one.
    fn fault(&mut self) -> Option<Fault>
        ensures under { self.new.under ≡ self.old.under }
        ensures delayed { self.new.delayed ≡ self.old.delayed }
    {
        self.events = self.events.wrapping_add(1);
        if self.events == self.plan.at {
            Some(self.plan.fault)
        } else {
            None
        }
    }

    // The first event of a delayed call reaches the map below.
    fn begun(&mut self, id: u64, op: Op<u64>) -> EventResult<u64>
        requires free { self.old.delayed ≡ None }
        ensures turns { M.place self.old.under id ≡ Some Ready → (answer : Option ℕ)
            → Turns (stage_by M.meaning op Delay.Begun) answer result.report.kind
            (placed M.meaning self.new.delayed id (M.place self.new.under id))
            (outcome_of M.meaning result.outcome) }
        ensures content { (m : Pairs ℕ) → M.content self.old.under m
            → (n : Pairs ℕ) × M.content self.new.under n
            × Changes M.same (stage_by M.meaning op Delay.Begun) m n
            (outcome_of M.meaning result.outcome) }
        ensures counts { Counts op (reply_in result.outcome)
            (M.entries self.old.under) (M.entries self.new.under) }
        ensures others { (k : ℕ) → k ≢ id → M.place self.new.under k ≡ M.place self.old.under k }
        ensures delay { IsDelayOf id self.new.delayed }
    {
        match self.under.open(id, &op) {
            Ok(
                EventResult {
                    outcome: Outcome::Decided(reply),
                    ..
                },
            ) => {
                self.delayed = Some(Delayed {
                    id,
                    op,
                    stage: Delay::Settled,
                });
                event(Outcome::Decided(reply))
            }
            Ok(EventResult { outcome, .. }) => event(outcome),
            Err(StartError::Oom(_)) => {
                self.delayed = Some(Delayed {
                    id,
                    op,
                    stage: Delay::Denied,
                });
                event(Outcome::Refused)
            }
            Err(StartError::InFlight) => event(Outcome::Unknown),
        }
    }

    // The call stays delayed, at another stage.
    fn keep(
        &mut self,
        id: u64,
        op: Op<u64>,
        stage: Delay,
        outcome: Outcome<u64>,
    ) -> EventResult<u64>
        ensures delayed { self.new.delayed ≡ Some (record { id = id; op = op; stage = stage }) }
        ensures under { self.new.under ≡ self.old.under }
        ensures outcome { result.outcome ≡ outcome }
        ensures kind { result.report.kind ≡ Kind.Take }
    {
        self.delayed = Some(Delayed { id, op, stage });
        event(outcome)
    }

    // The next event of a delayed call.
    fn turned(&mut self, delayed: Delayed, fault: Option<Fault>) -> EventResult<u64>
        requires free { self.old.delayed ≡ None }
        ensures turns { M.place self.old.under delayed.id ≡ Some Ready → (answer : Option ℕ)
            → Turns (stage_by M.meaning delayed.op delayed.stage) answer result.report.kind
            (placed M.meaning self.new.delayed delayed.id (M.place self.new.under delayed.id))
            (outcome_of M.meaning result.outcome) }
        ensures content { (m : Pairs ℕ) → M.content self.old.under m
            → (n : Pairs ℕ) × M.content self.new.under n
            × Changes M.same (stage_by M.meaning delayed.op delayed.stage) m n
            (outcome_of M.meaning result.outcome) }
        ensures counts { Counts delayed.op (reply_in result.outcome)
            (M.entries self.old.under) (M.entries self.new.under) }
        ensures others { (k : ℕ) → k ≢ delayed.id
            → M.place self.new.under k ≡ M.place self.old.under k }
        ensures delay { IsDelayOf delayed.id self.new.delayed }
    {
        let Delayed { id, op, stage } = delayed;
        if fault == Some(Fault::Stalls) {
            return self.keep(id, op, stage, Outcome::Going);
        }
        if fault == Some(Fault::Forgets) {
            return event(Outcome::Unknown);
        }
        match stage {
            Delay::Begun => match fault {
                Some(Fault::Refuses) => self.keep(id, op, Delay::Denied, Outcome::Refused),
                Some(Fault::Asks | Fault::AsksAndForgets) => {
                    let wrong = Some(WRONG);
                    self.keep(id, op, Delay::Asked(wrong), Outcome::Ask(wrong))
                }
                _ => self.begun(id, op),
            },
            Delay::Asked(_) if self.plan.fault == Fault::AsksAndForgets => event(Outcome::Unknown),
            Delay::Asked(_) => self.keep(id, op, Delay::Begun, Outcome::Going),
            Delay::Settled | Delay::Denied => event(Outcome::Done),
        }
    }
}

impl<M: Lent<u64, u64>> Lent<u64, u64> for Faulty<M> {
    ghost use Rattle.test_share_guards.specs.Delays.{placed};

    ghost meaning = { M.meaning };

    ghost same = { M.same };

    ghost content = { λ f. M.content f.under };

    ghost entries = { λ f. M.entries f.under };

    ghost place = { λ f id. placed M.meaning f.delayed id (M.place f.under id) };

    fn law_one_content(&self) {
        self.under.law_one_content();
    }

    fn again(answer: &u64) -> Result<u64, OOMError> {
        M::again(answer)
    }

    fn seat(&mut self) -> Result<u64, OOMError> {
        let id = self.under.seat()?;
        if let Some(delayed) = &self.delayed {
            if delayed.id == id {
                self.delayed = None;
            }
        }
        Ok(id)
    }

    fn unseat(&mut self, id: u64) {
        self.under.unseat(id);
    }

    fn open(&mut self, id: u64, op: &Op<u64>) -> Result<EventResult<u64>, StartError> {
        let fault = self.fault();
        if fault == Some(Fault::NoStart) {
            return Err(StartError::Oom(OOMError::new()));
        }
        match &self.delayed {
            Some(delayed) if delayed.id == id => Err(StartError::InFlight),
            Some(_) => self.under.open(id, op),
            None => Ok(self.keep(id, copied(op), Delay::Begun, Outcome::Going)),
        }
    }

    fn step(&mut self, id: u64, op: &Op<u64>, env: Env<u64>) -> EventResult<u64>
        ensures turns { (p : CallStage ℕ)
            → placed M.meaning self.old.delayed id (M.place self.old.under id) ≡ Some p
            → IsOf (outline_of op.now) p
            → Turns p (in_some M.meaning env.answer) result.report.kind
            (placed M.meaning self.new.delayed id (M.place self.new.under id))
            (outcome_of M.meaning result.outcome) }
        ensures content { (p : CallStage ℕ)
            → placed M.meaning self.old.delayed id (M.place self.old.under id) ≡ Some p
            → IsOf (outline_of op.now) p
            → (m : Pairs ℕ) → M.content self.old.under m
            → (n : Pairs ℕ) × M.content self.new.under n
            × Changes M.same p m n (outcome_of M.meaning result.outcome) }
        ensures counts { Counts op.now (reply_in result.outcome)
            (M.entries self.old.under) (M.entries self.new.under) }
        ensures others { (p : CallStage ℕ)
            → placed M.meaning self.old.delayed id (M.place self.old.under id) ≡ Some p
            → IsOf (outline_of op.now) p → (k : ℕ) → k ≢ id
            → placed M.meaning self.new.delayed k (M.place self.new.under k)
            ≡ placed M.meaning self.old.delayed k (M.place self.old.under k) }
    {
        let fault = self.fault();
        let stalls = fault == Some(Fault::Stalls);
        let Some(delayed) = self.delayed.take() else {
            return passed(&mut self.under, stalls, id, op, env);
        };
        if delayed.id != id {
            let made = passed(&mut self.under, stalls, id, op, env);
            self.delayed = Some(delayed);
            return made;
        }
        if !op.has_outline(&delayed.op.outline()) {
            self.delayed = Some(delayed);
            return event(Outcome::Unknown);
        }
        self.turned(delayed, fault)
    }

    fn reclaim_next(&mut self) -> bool {
        self.under.reclaim_next()
    }
}

impl<A, M: Made<u64, u64, A>> Made<u64, u64, (A, Plan)> for Faulty<M> {
    fn made(alloc: Global, budget: (A, Plan)) -> Result<Self, OOMError> {
        let (budget, plan) = budget;
        Ok(Faulty {
            under: M::made(alloc, budget)?,
            delayed: None,
            plan,
            events: 0,
        })
    }
}

impl<M: Snapshots<u64, u64>> Snapshots<u64, u64> for Faulty<M> {
    ghost nodes = { λ f. M.nodes f.under };

    fn entry_count(&self) -> u128 {
        self.under.entry_count()
    }

    fn keys<K: Word>(&self, alloc: Global) -> Result<Vec<K>, OOMError> {
        self.under.keys(alloc)
    }

    fn pair_from(&self, start: u64) -> Option<(u64, &u64)> {
        self.under.pair_from(start)
    }

    fn stats(&self) -> Result<NodeStats, OOMError> {
        self.under.stats()
    }
}

impl<M: Pages> Pages for Faulty<M> {
    ghost at_once = { M.at_once };

    fn numbers_mean_themselves() {
        M::numbers_mean_themselves();
    }

    fn page<E: RangeEntry>(&self, start: u64, end: u64, buffer: &mut [E]) -> Option<usize> {
        self.under.page(start, end, buffer)
    }
}
