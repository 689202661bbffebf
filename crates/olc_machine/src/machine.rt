//! The machine: nodes, calls in flight, pins and a budget.
//!
//! Tested in `test_olc` and `tools/dev/try-schedules`.

ghost use Rattle.std.specs.Prelude.{◌≡◌, ◌↔◌, ◌+◌, ◌<◌, ◌^◌, ℕ, true, false, Some, None, IsSome, Err, IfOk, IsOk, OnErr, IsTrue, option_copied, length, map};
ghost use Rattle.spec_map.specs.Map.{Pairs, lookup};
ghost use Rattle.node_table.specs.Charge.{add_charge};
ghost use Rattle.node_table.specs.inner.Kinds.{mapped};
ghost use Rattle.spec_olc.specs.Content.{IsContent};
ghost use Rattle.spec_olc.specs.Deciding.{IsContentStep};
ghost use Rattle.spec_olc.specs.Kinds.{IsReclaim, IsStart, IsStep, MayReclaim, report_of};
ghost use Rattle.spec_olc.specs.Lists.{is_in};
ghost use Rattle.spec_olc.specs.Meaning.{env_of, in_some, meant, op_of, outcome_of};
ghost use Rattle.spec_olc.specs.Runs.{fresh};
ghost use Rattle.spec_olc.specs.Seats.{IsHanded, IsReseated, IsSeating, seen_in};
ghost use Rattle.spec_olc.specs.WellFormed.{IsWellFormed};
ghost use Rattle.node_stats.specs.LevelCounts.{capped};
ghost use Rattle.node_stats.specs.Stats.{IsTally};
ghost use Rattle.node_stats.specs.StatsText.{all_entries, all_nodes};
ghost use Rattle.node_stats.specs.Stays.{NoCountSaturates};
ghost use Rattle.node_stats.specs.Visits.{visits_below};
ghost use Rattle.tree_walk.specs.Scan.{from_key, first_pair};
ghost use Rattle.olc_machine.specs.First.{meant_pair};
ghost use Rattle.olc_machine.specs.Shape.{reachable};
ghost use Rattle.olc_machine.specs.Whole.{AllHaveTheirOps};
ghost use Rattle.olc_state.specs.inner.Effects.{returned_at};

use crate::inner::Inner;
use node_stats::NodeStats;
use node_table::allocator::Allocator;
use spec_map::error::OOMError;
use spec_map::traits::Word;
use spec_olc::payload::HasMeaning;
use spec_olc::types::{Env, Kind, Op, Outcome, Report, Seen, StartError};
use std::alloc::Global;
use std::marker::Model;

// The report of no event.
fn unknown() -> Report {
    Report {
        kind: Kind::Start,
        slot: None,
        word: 0,
        ok: false,
    }
}

// A share of what the reply to a call will contain besides what the call finds:
// the value that a CompareExchange stores.
fn returned<P: HasMeaning>(op: &Op<P>) -> Result<Option<P>, OOMError>
    ensures meaning { IfOk result (λ returns.
        in_some P.meaning returns ≡ returned_at (op_of P.meaning op.now)) }
    ensures granted { P.always_shared → IsOk result }
{
    match op {
        Op::CompareExchange(_, _, Some(new)) => Ok(Some(new.share()?)),
        _ => Ok(None),
    }
}

/// A tree under the protocol, which makes one event of one call at a time.
///
/// Calls are known by numbers. A number may be seated, so that its calls find room, and has one call in flight at most.
#[derive(Drop)]
pub struct Machine<P: HasMeaning, A: Allocator> {
    inner: Inner<P, A>,
}

impl<P: HasMeaning, A: Allocator> Model for Machine<P, A> {
    ghost use Rattle.spec_olc.specs.State.{State};
    ghost use Rattle.olc_state.specs.inner.Facts.{IsSoundWorld};
    ghost use Rattle.olc_machine.specs.inner.Inside.{state_in, meant_in};

    ghost Value = { State P };

    ghost view = { λ m. state_in A.charge m.inner };

    ghost invariant = { λ m. IsSoundWorld P.always_shared P.same_meaning (meant_in P.meaning A.charge m.inner) };
}

impl<P: HasMeaning, A: Allocator> Machine<P, A> {
    /// A machine whose tree has the root alone, for which the budget is charged. `OOMError` if the budget refuses it or
    /// memory is missing.
    pub fn new(alloc: Global, budget: A) -> Result<Self, OOMError>
        ensures fresh { IfOk result (λ m. (root : ℕ)
            × (m ≡ fresh root (add_charge (A.charge budget) 2104))) }
    {
        Ok(Machine {
            inner: Inner::new(alloc, budget)?,
        })
    }

    /// Whether a number has a call in flight.
    pub fn is_in_flight(&self, id: u64) -> bool
        ensures { IsTrue result ↔ IsSome (lookup self.now.calls id) }
    {
        self.inner.is_in_flight(id)
    }

    /// Keeps room for the calls of the least number that is neither seated nor in flight, and returns it.
    ///
    /// A refusal changes nothing. It comes if there is no memory, or if all numbers are taken.
    pub fn seat(&mut self) -> Result<u64, OOMError>
        ensures ok { IfOk result (λ id. IsSeating self.old self.new id) }
        ensures err { OnErr result (self.new ≡ self.old) }
    {
        self.inner.seat()
    }

    /// Frees a number's room. A call in flight goes on. If the number isn't seated, nothing changes.
    pub fn unseat(&mut self, id: u64)
        ensures { IsReseated self.old self.new id false }
    {
        self.inner.unseat(id);
    }

    /// Begins a call of a number, which is pinned at the count of retirements. The call's payloads are shared.
    ///
    /// `InFlight` exactly if the number's last call hasn't ended. `Oom` if there is no memory for the call or a share
    /// is refused, which can't happen for a seated number over `u64`. Either leaves everything unchanged.
    pub fn start(&mut self, id: u64, op: &Op<P>) -> Result<Report, StartError>
        ensures ok { IfOk result (λ report. IsStart (meant P.meaning self.old)
            (meant P.meaning self.new) id (op_of P.meaning op.now) report) }
        ensures err { OnErr result (self.new ≡ self.old) }
        ensures in_flight { (result ≡ Err StartError.InFlight)
            ↔ IsSome (lookup self.old.calls id) }
        ensures granted { P.always_shared → IsTrue (is_in id self.old.seats)
            → lookup self.old.calls id ≡ None → IsOk result }
    {
        if self.is_in_flight(id) {
            return Err(StartError::InFlight);
        }
        let op = match op.share() {
            Ok(op) => op,
            Err(error) => return Err(StartError::Oom(error)),
        };
        let returns = match returned(&op) {
            Ok(returns) => returns,
            Err(error) => return Err(StartError::Oom(error)),
        };
        let report = match self.inner.begin(id, op, returns) {
            Ok(report) => report,
            Err(error) => return Err(StartError::Oom(error)),
        };
        Ok(report)
    }

    /// One event of the call of a number.
    ///
    /// `Unknown` exactly if no call of the same kind and keys as `op` is in flight under the number. Then nothing is
    /// done, and the report has no meaning. What is done, answered and stored follows from the call as it started: the
    /// payloads in `op` are ignored, and so is what the event doesn't use of `env`.
    pub fn step(&mut self, id: u64, op: &Op<P>, env: Env<P>) -> (Report, Outcome<P>)
        ensures known { (result.1 ≡ Outcome.Unknown) ↔ (IsHanded self.old id op.now → ⊥) }
        ensures unknown { result.1 ≡ Outcome.Unknown → self.new ≡ self.old }
        ensures event { IsHanded self.old id op.now
            → IsStep P.always_shared P.same_meaning (meant P.meaning self.old)
            (meant P.meaning self.new) id (env_of P.meaning env) result.0
            (outcome_of P.meaning result.1) }
        ensures content { IsHanded self.old id op.now → (m : Pairs P.Meaning)
            → IsContent (meant P.meaning self.old) m
            → IsContentStep P.same_meaning m (meant P.meaning self.old) (meant P.meaning self.new) id
            (outcome_of P.meaning result.1) }
    {
        if !self.is_handed(id, op) {
            return (unknown(), Outcome::Unknown);
        }
        self.inner.proceed(id, env)
    }

    // Whether a call of the same kind and keys as `op` is in flight under a number.
    fn is_handed(&self, id: u64, op: &Op<P>) -> bool
        ensures { IsTrue result ↔ IsHanded self.now id op.now }
    {
        self.inner.is_handed(id, op)
    }

    /// What the last Read of a number's call has reported since the call last
    /// restarted at the root; `None` without one.
    pub fn seen(&self, id: u64) -> Option<&Seen<P>>
        ensures { option_copied result ≡ seen_in (lookup self.now.calls id) }
    {
        self.inner.seen(id)
    }

    /// Reclaims the slot of a retired node, frees the node and uncharges its size. Returns true exactly if its
    /// retirement was counted and every call in flight has started after it. Otherwise changes nothing.
    ///
    /// Looks at the pin of each call in flight.
    pub fn reclaim(&mut self, slot: usize) -> bool
        ensures exactly { IsTrue result ↔ MayReclaim (meant P.meaning self.old) slot }
        ensures event { IsTrue result → IsReclaim (meant P.meaning self.old)
            (meant P.meaning self.new) slot (report_of Kind.Reclaim (Some slot) 0 true) }
        ensures content { IsTrue result → (m : Pairs P.Meaning)
            → IsContent (meant P.meaning self.old) m → IsContent (meant P.meaning self.new) m }
        ensures other { result ≡ false → self.new ≡ self.old }
    {
        self.inner.reclaim(slot)
    }

    /// Reclaims one slot that may be reclaimed, if there is one. Otherwise changes nothing.
    ///
    /// Looks only at the oldest retired node: if it may not be reclaimed, none may. (If memory for the queue of retired
    /// nodes was refused once, it looks at the slots in turn.)
    pub fn reclaim_next(&mut self) -> bool
        ensures some { IsTrue result → (slot : ℕ) × IsReclaim (meant P.meaning self.old)
            (meant P.meaning self.new) slot (report_of Kind.Reclaim (Some slot) 0 true) }
        ensures content { IsTrue result → (m : Pairs P.Meaning)
            → IsContent (meant P.meaning self.old) m → IsContent (meant P.meaning self.new) m }
        ensures none { result ≡ false → (slot : ℕ)
            → MayReclaim (meant P.meaning self.old) slot → ⊥ }
        ensures other { result ≡ false → self.new ≡ self.old }
    {
        match self.inner.reclaimable() {
            Some(slot) => self.inner.reclaim(slot),
            None => false,
        }
    }

    /// The number of pairs that are stored.
    pub fn entry_count(&self) -> u128
        ensures count { result ≡ self.now.entries }
        ensures content { (m : Pairs P.Meaning)
            × IsContent (meant P.meaning self.now) m × (result ≡ length m) }
    {
        self.inner.stock.entries
    }

    /// All pairs that are stored, keys ascending, each with a share of its payload.
    ///
    /// One walk over all reachable nodes, at most eight of them below one another. `OOMError` if memory for the vector
    /// is missing or a share is refused.
    pub fn content(&self, alloc: Global) -> Result<Vec<(u64, P)>, OOMError>
        ensures { IfOk result (λ pairs.
            IsContent (meant P.meaning self.now) (mapped P.meaning pairs.items)) }
    {
        self.inner.content(alloc)
    }

    /// The least pair whose key isn't below `start`, if there is one.
    ///
    /// One path through the tree, and paths below nodes that a removal has left without children. Takes no memory.
    pub fn pair_from(&self, start: u64) -> Option<(u64, &P)>
        ensures { (m : Pairs P.Meaning) × IsContent (meant P.meaning self.now) m
            × (meant_pair P.meaning result ≡ first_pair (from_key start m)) }
    {
        self.inner.pair_from(start)
    }

    /// The keys of all pairs that are stored, ascending, each read back from its number.
    ///
    /// One walk over all reachable nodes, at most eight of them below one another. `OOMError` if memory for the vector
    /// is missing. No payload is shared.
    pub fn keys<K: Word>(&self, alloc: Global) -> Result<Vec<K>, OOMError>
        ensures { IfOk result (λ keys. (m : Pairs P.Meaning)
            × IsContent (meant P.meaning self.now) m
            × (keys.items ≡ map K.of_number (map (λ pair. pair.0) m))) }
    {
        self.inner.keys(alloc)
    }

    /// The sums over the reachable nodes by level and form, and the number of pairs.
    ///
    /// One walk over all reachable nodes, at most eight of them below one
    /// another. `OOMError` if memory for the levels is missing.
    pub fn stats(&self) -> Result<NodeStats, OOMError>
        ensures levels { IfOk result (λ stats.
            IsTally (visits_below 0 (reachable (meant P.meaning self.now))) stats.levels) }
        ensures pairs { IfOk result (λ stats. stats.kv_pairs ≡ capped self.now.entries) }
        ensures entries { IfOk result (λ stats.
            NoCountSaturates (visits_below 0 (reachable (meant P.meaning self.now)))
            → self.now.entries < 2 ^ 64
            → all_entries stats.levels + 1 ≡ stats.kv_pairs + all_nodes stats.levels) }
    {
        self.inner.stats()
    }

    /// The law that a machine is well formed, whatever its calls have done.
    pub fn law_well_formed(&self)
        ensures { IsWellFormed (meant P.meaning self.now) }
    {
        let _ = &self.inner;
    }

    /// The law that a call without a reply has its payloads, and the kind and keys that it is known by.
    pub fn calls_are_whole(&self)
        ensures { AllHaveTheirOps (meant P.meaning self.now) }
    {
        let _ = &self.inner;
    }
}
