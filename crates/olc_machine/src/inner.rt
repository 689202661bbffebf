//! What a machine has inside, and the events of one call.
//!
//! Tested in `test_olc` and `tools/dev/try-schedules`.

ghost use Rattle.std.specs.Prelude.{◌≡◌, ◌↔◌, ℕ, ◌+◌, ◌<◌, ◌^◌, true, false, Some, None, IsSome, IfSome, IfNone, IfOk, IsOk, OnOk, OnErr, IsTrue, option_copied, map};
ghost use Rattle.spec_map.specs.Map.{Pairs, lookup};
ghost use Rattle.node_table.specs.Charge.{add_charge};
ghost use Rattle.node_table.specs.inner.Kinds.{mapped};
ghost use Rattle.spec_olc.specs.Calls.{key_of};
ghost use Rattle.spec_olc.specs.Content.{IsContent};
ghost use Rattle.spec_olc.specs.Kinds.{MayReclaim, report_of};
ghost use Rattle.spec_olc.specs.Meaning.{env_of, in_some, meant, op_of, outcome_of};
ghost use Rattle.spec_olc.specs.Runs.{fresh};
ghost use Rattle.spec_olc.specs.Seats.{IsHanded, IsTaken, IsReseated, IsSeating, seen_in};
ghost use Rattle.olc_state.specs.inner.Facts.{IsSoundWorld};
ghost use Rattle.olc_state.specs.inner.Effects.{returned_at};
ghost use Rattle.olc_state.specs.inner.Meant.{meant_record};
ghost use Rattle.olc_state.specs.inner.Scans.{IsAtEnd};
ghost use Rattle.olc_state.specs.inner.Shown.{state_of};
ghost use Rattle.olc_state.specs.declared.stage.Record.{Record};
ghost use Rattle.olc_state.specs.inner.Stocks.{CountsEntries, IsStoreSound, StockKnows};
ghost use Rattle.olc_state.specs.inner.Turns.{IsBegun, IsFreed, IsTurn};
ghost use Rattle.olc_machine.specs.inner.Happening.{Happens};
ghost use Rattle.olc_state.specs.inner.World.{record_of};
ghost use Rattle.olc_words.specs.Epoch.{is_seated};
ghost use Rattle.node_stats.specs.LevelCounts.{capped};
ghost use Rattle.node_stats.specs.Stats.{IsTally};
ghost use Rattle.node_stats.specs.StatsText.{all_entries, all_nodes};
ghost use Rattle.node_stats.specs.Stays.{NoCountSaturates};
ghost use Rattle.node_stats.specs.Visits.{visits_below};
ghost use Rattle.tree_walk.specs.Scan.{from_key, first_pair};
ghost use Rattle.olc_machine.specs.First.{meant_pair};
ghost use Rattle.olc_machine.specs.Shape.{reachable};
ghost use Rattle.olc_machine.specs.inner.Inside.{IsBegunBy, inside, state_in, meant_in};

use crate::ahead::pair_from;
use crate::counting::count;
use crate::listing::push_keys;
use node_base::base_node::{NodeSize, NodeType};
use node_stats::NodeStats;
use node_table::allocator::Allocator;
use node_table::tree_node::TreeNode;
use olc_decide::advance::{advance, is_at_end};
use olc_scan::course::first_stage;
use olc_state::calls::{Places, call_at, forget, put, reserve};
use olc_state::content::content;
use olc_state::stage::{NodeLife, Record, Stage, Stored, Task};
use olc_state::stepped::Stepped;
use olc_state::stock::Stock;
use olc_state::store::Store;
use olc_tidy::tidying::tidy_on;
use olc_words::epoch::Pins;
use olc_words::lock::Word64;
use olc_write::writing::write_on;
use slab::Slab;
use spec_map::error::OOMError;
use spec_map::traits::Word;
use spec_olc::payload::HasMeaning;
use spec_olc::types::{Asking, Env, Kind, Op, Outcome, Progress, Report, Seen};
use std::alloc::Global;
use std::collections::BTreeMap;

/// What the events of all calls change, and the calls in flight. All of it is private to the machine.
#[derive(Drop)]
pub struct Inner<P, A> {
    pub stock: Stock<P, A>,
    pub calls: Places<P>,
}

// The report of a start.
fn started() -> Report
    ensures { result ≡ report_of Kind.Start None 0 true }
{
    Report {
        kind: Kind::Start,
        slot: None,
        word: 0,
        ok: true,
    }
}

// The record of a call that begins.
fn begun<P: HasMeaning>(op: Op<P>, returns: Option<P>) -> Record<P>
    requires { in_some P.meaning returns ≡ returned_at (op_of P.meaning op) }
    ensures begins { IsBegunBy (op_of P.meaning op) (meant_record P.meaning result) }
    ensures small { key_of (op_of P.meaning op) < 2 ^ 64 }
{
    let _key = op.key();
    let outline = op.outline();
    Record {
        stage: first_stage(&outline),
        task: Task {
            outline,
            op: Some(op),
            last: None,
            spare: None,
            question: None,
            returns,
            asking: Asking::Fresh,
            progress: Progress::Open,
        },
    }
}

// The report of a call's last event.
fn ended() -> Report
    ensures { result ≡ report_of Kind.Finish None 0 true }
{
    Report {
        kind: Kind::Finish,
        slot: None,
        word: 0,
        ok: true,
    }
}

// The next event of a call that goes on after it, and is changed where it is.
fn go_on<P: HasMeaning, A: Allocator>(
    stock: &mut Stock<P, A>,
    pin: u64,
    call: &mut Record<P>,
    env: Env<P>,
) -> (Report, Outcome<P>)
    requires kept { IsStoreSound P.meaning A.charge stock.old }
    requires facts { StockKnows P.meaning A.charge P.always_shared P.same_meaning
        stock.old pin call.old }
    requires counted { CountsEntries P.meaning A.charge stock.old }
    requires goes_on { IsAtEnd call.old.stage → ⊥ }
    ensures { Happens P.meaning A.charge P.always_shared P.same_meaning stock.old stock.new pin
        call.old env (Some call.new) result.0 result.1 }
{
    let stage = call.stage;
    if let Stage::Tail(tail) = stage {
        let Stepped {
            stage: next,
            report,
            outcome,
        } = write_on(stock, pin, &mut call.task, tail, env.fail);
        call.stage = next;
        return (report, outcome);
    }
    if let Stage::Tidy(cleanup, tidy) = stage {
        let Stepped {
            stage: next,
            report,
            outcome,
        } = tidy_on(stock, pin, &mut call.task, cleanup, tidy, env.fail);
        call.stage = next;
        return (report, outcome);
    }
    let Stepped {
        stage: next,
        report,
        outcome,
    } = advance(&stock.store, pin, &mut call.task, stage, env);
    call.stage = next;
    (report, outcome)
}

// The next event of the call in a place, which is empty after the call's last event.
fn happen<P: HasMeaning, A: Allocator>(
    stock: &mut Stock<P, A>,
    pin: u64,
    place: &mut Option<Record<P>>,
    env: Env<P>,
) -> (Report, Outcome<P>)
    requires kept { IsStoreSound P.meaning A.charge stock.old }
    requires full { IsSome place.old }
    requires facts { (call : Record P) → place.old ≡ Some call → StockKnows P.meaning A.charge
        P.always_shared P.same_meaning stock.old pin call }
    requires counted { CountsEntries P.meaning A.charge stock.old }
    ensures { (call : Record P) → place.old ≡ Some call → Happens P.meaning A.charge P.always_shared
        P.same_meaning stock.old stock.new pin call env place.new result.0 result.1 }
{
    let Some(call) = place else { unreachable!() };
    if is_at_end(&call.stage) {
        *place = None;
        return (ended(), Outcome::Done);
    }
    go_on(stock, pin, call, env)
}

impl<P: HasMeaning, A: Allocator> Inner<P, A> {
    /// The root alone, for which the budget is charged. `OOMError` if the budget refuses it or memory is missing.
    pub fn new(alloc: Global, mut budget: A) -> Result<Self, OOMError>
        ensures sound { IfOk result (λ m. IsSoundWorld P.always_shared P.same_meaning (meant_in P.meaning A.charge m)) }
        ensures fresh { IfOk result (λ m. (root : ℕ)
            × (state_in A.charge m ≡ fresh root (add_charge (A.charge budget) 2104))) }
    {
        budget.allocate(NodeSize::of(NodeType::N256))?;
        let mut nodes = Slab::new(alloc);
        nodes.reserve(1)?;
        let root = nodes.insert_reserved(Stored {
            word: Word64::from_number(0),
            place: NodeLife::Linked,
            node: TreeNode::root(alloc)?,
        });
        let mut pins = Pins::new(alloc);
        pins.admit(root)?;
        Ok(Inner {
            stock: Stock {
                store: Store { nodes, root, pins },
                entries: 0,
                alloc,
                budget,
            },
            calls: BTreeMap::new(alloc),
        })
    }

    /// The record of a number's call in flight.
    pub fn call(&self, id: u64) -> Option<&Record<P>>
        ensures { option_copied result ≡ record_of (inside A.charge self.now) id }
    {
        call_at(&self.calls, id)
    }

    /// Whether a number has a call in flight.
    pub fn is_in_flight(&self, id: u64) -> bool
        ensures { IsTrue result ↔ IsSome (record_of (inside A.charge self.now) id) }
    {
        call_at(&self.calls, id).is_some()
    }

    // Whether a number is seated or has a call in flight.
    fn is_taken(&self, id: u64) -> bool
        requires sound { IsSoundWorld P.always_shared P.same_meaning (meant_in P.meaning A.charge self.now) }
        ensures { IsTrue result ↔ IsTaken (state_in A.charge self.now) id }
    {
        self.stock.store.pins.is_seated(id) || self.is_in_flight(id)
    }

    // The least number that is neither seated nor in flight, if there is one.
    fn least_free(&self) -> Option<u64>
        requires sound { IsSoundWorld P.always_shared P.same_meaning (meant_in P.meaning A.charge self.now) }
        ensures free { IfSome result (λ id. IsTaken (state_in A.charge self.now) id → ⊥) }
        ensures least { IfSome result (λ id. (lesser : ℕ) → lesser < id
            → IsTaken (state_in A.charge self.now) lesser) }
    {
        let mut id = 0;
        while self.is_taken(id) {
            if id == u64::MAX {
                return None;
            }
            id += 1;
        }
        Some(id)
    }

    /// Keeps room for the calls of the least number that is neither seated nor in flight, and returns it.
    pub fn seat(&mut self) -> Result<u64, OOMError>
        requires sound { IsSoundWorld P.always_shared P.same_meaning (meant_in P.meaning A.charge self.old) }
        ensures stays { IsSoundWorld P.always_shared P.same_meaning (meant_in P.meaning A.charge self.new) }
        ensures ok { IfOk result (λ id.
            IsSeating (state_in A.charge self.old) (state_in A.charge self.new) id) }
        ensures err { OnErr result (state_in A.charge self.new ≡ state_in A.charge self.old) }
    {
        let Some(id) = self.least_free() else {
            return Err(OOMError::new());
        };
        self.keep_room(id)?;
        Ok(id)
    }

    // Seats a number that isn't taken.
    fn keep_room(&mut self, id: u64) -> Result<(), OOMError>
        requires sound { IsSoundWorld P.always_shared P.same_meaning (meant_in P.meaning A.charge self.old) }
        requires free { IsTaken (state_in A.charge self.old) id → ⊥ }
        ensures stays { IsSoundWorld P.always_shared P.same_meaning (meant_in P.meaning A.charge self.new) }
        ensures ok { OnOk result
            (IsReseated (state_in A.charge self.old) (state_in A.charge self.new) id true) }
        ensures err { OnErr result (state_in A.charge self.new ≡ state_in A.charge self.old) }
    {
        reserve(&mut self.calls, id)?;
        let Ok(()) = self.stock.store.pins.seat(id) else {
            forget(&mut self.calls, id);
            return Err(OOMError::new());
        };
        Ok(())
    }

    /// Frees a number's room. A call in flight goes on.
    pub fn unseat(&mut self, id: u64)
        requires sound { IsSoundWorld P.always_shared P.same_meaning (meant_in P.meaning A.charge self.old) }
        ensures stays { IsSoundWorld P.always_shared P.same_meaning (meant_in P.meaning A.charge self.new) }
        ensures seats { IsReseated (state_in A.charge self.old) (state_in A.charge self.new) id
            false }
    {
        if self.is_in_flight(id) {
            self.stock.store.pins.unseat(id);
            return;
        }
        self.stock.store.pins.unseat(id);
        forget(&mut self.calls, id);
    }

    /// Takes a number's pin and makes its record. All memory is taken before anything changes. `returns` is a share of
    /// what the reply to the call will contain besides what the call finds.
    pub fn begin(&mut self, id: u64, op: Op<P>, returns: Option<P>) -> Result<Report, OOMError>
        requires sound { IsSoundWorld P.always_shared P.same_meaning (meant_in P.meaning A.charge self.old) }
        requires free { record_of (inside A.charge self.old) id ≡ None }
        requires returns { in_some P.meaning returns ≡ returned_at (op_of P.meaning op) }
        ensures stays { IsSoundWorld P.always_shared P.same_meaning (meant_in P.meaning A.charge self.new) }
        ensures ok { IfOk result (λ report. IsBegun P.always_shared P.same_meaning
            (meant_in P.meaning A.charge self.old) (meant_in P.meaning A.charge self.new) id
            (op_of P.meaning op) report) }
        ensures err { OnErr result (state_in A.charge self.new ≡ state_in A.charge self.old) }
        ensures granted { is_seated self.old.stock.store.pins id ≡ true → IsOk result }
    {
        self.stock.store.pins.enter(id)?;
        let call = begun(op, returns);
        let Ok(()) = put(&mut self.calls, id, call) else {
            self.stock.store.pins.leave(id);
            return Err(OOMError::new());
        };
        Ok(started())
    }

    /// Whether a call of the same kind and keys as `op` is in flight under a number.
    pub fn is_handed(&self, id: u64, op: &Op<P>) -> bool
        requires sound { IsSoundWorld P.always_shared P.same_meaning (meant_in P.meaning A.charge self.now) }
        ensures { IsTrue result ↔ IsHanded (state_in A.charge self.now) id op.now }
    {
        match call_at(&self.calls, id) {
            Some(call) => op.has_outline(&call.task.outline),
            None => false,
        }
    }

    /// What the last Read of a number's call has reported since the call last restarted at the root.
    pub fn seen(&self, id: u64) -> Option<&Seen<P>>
        requires sound { IsSoundWorld P.always_shared P.same_meaning (meant_in P.meaning A.charge self.now) }
        ensures { option_copied result ≡ seen_in (lookup (state_in A.charge self.now).calls id) }
    {
        match call_at(&self.calls, id) {
            Some(call) => call.task.last.as_ref(),
            None => None,
        }
    }

    /// All pairs that are stored, keys ascending, each with a share of its payload.
    pub fn content(&self, alloc: Global) -> Result<Vec<(u64, P)>, OOMError>
        requires sound { IsSoundWorld P.always_shared P.same_meaning (meant_in P.meaning A.charge self.now) }
        ensures { IfOk result (λ pairs. IsContent
            (meant P.meaning (state_in A.charge self.now)) (mapped P.meaning pairs.items)) }
    {
        let pairs = content(&self.stock.store, alloc)?;
        Ok(pairs)
    }

    /// The least pair whose key isn't below `start`, if there is one.
    pub fn pair_from(&self, start: u64) -> Option<(u64, &P)>
        requires sound { IsSoundWorld P.always_shared P.same_meaning (meant_in P.meaning A.charge self.now) }
        ensures { (m : Pairs P.Meaning)
            × IsContent (meant P.meaning (state_in A.charge self.now)) m
            × (meant_pair P.meaning result ≡ first_pair (from_key start m)) }
    {
        pair_from(&self.stock.store.nodes, self.stock.store.root, start)
    }

    /// The keys of all pairs that are stored, ascending, each read back from its number.
    pub fn keys<K: Word>(&self, alloc: Global) -> Result<Vec<K>, OOMError>
        requires sound { IsSoundWorld P.always_shared P.same_meaning (meant_in P.meaning A.charge self.now) }
        ensures { IfOk result (λ keys. (m : Pairs P.Meaning)
            × IsContent (meant P.meaning (state_in A.charge self.now)) m
            × (keys.items ≡ map K.of_number (map (λ pair. pair.0) m))) }
    {
        let mut keys = Vec::new(alloc);
        push_keys(&self.stock.store.nodes, self.stock.store.root, &mut keys)?;
        Ok(keys)
    }

    /// The statistics of the reachable nodes.
    pub fn stats(&self) -> Result<NodeStats, OOMError>
        requires sound { IsSoundWorld P.always_shared P.same_meaning (meant_in P.meaning A.charge self.now) }
        ensures levels { IfOk result (λ stats. IsTally (visits_below 0
            (reachable (state_of (meant_in P.meaning A.charge self.now)))) stats.levels) }
        ensures pairs { IfOk result (λ stats. stats.kv_pairs ≡ capped self.now.stock.entries) }
        ensures entries { IfOk result (λ stats.
            NoCountSaturates (visits_below 0
            (reachable (state_of (meant_in P.meaning A.charge self.now))))
            → self.now.stock.entries < 2 ^ 64
            → all_entries stats.levels + 1 ≡ stats.kv_pairs + all_nodes stats.levels) }
    {
        let mut stats = count(&self.stock.store, self.stock.alloc)?;
        stats.add_pairs(u64::try_from(self.stock.entries).unwrap_or(u64::MAX));
        Ok(stats)
    }

    /// Makes the next event of the call of a number in flight. The calls of all other numbers stay unchanged.
    pub fn proceed(&mut self, id: u64, env: Env<P>) -> (Report, Outcome<P>)
        requires sound { IsSoundWorld P.always_shared P.same_meaning (meant_in P.meaning A.charge self.old) }
        requires flies { IsSome (record_of (inside A.charge self.old) id) }
        ensures { IsTurn P.always_shared P.same_meaning
            (meant_in P.meaning A.charge self.old) (meant_in P.meaning A.charge self.new) id
            (env_of P.meaning env) result.0 (outcome_of P.meaning result.1) }
    {
        let Some(pin) = self.stock.store.pins.pin(id) else {
            unreachable!()
        };
        let Some(place) = self.calls.get_mut(&id) else {
            unreachable!()
        };
        let event = happen(&mut self.stock, pin, place, env);
        if place.is_some() {
            return event;
        }
        self.stock.store.pins.leave(id);
        if !self.stock.store.pins.is_seated(id) {
            forget(&mut self.calls, id);
        }
        event
    }

    /// Reclaims the slot of a retired node, if no call in flight may step on it
    /// any more: frees the node, and uncharges its size.
    pub fn reclaim(&mut self, slot: usize) -> bool
        requires sound { IsSoundWorld P.always_shared P.same_meaning
            (meant_in P.meaning A.charge self.old) }
        ensures stays { IsSoundWorld P.always_shared P.same_meaning (meant_in P.meaning A.charge self.new) }
        ensures exactly { IsTrue result ↔ MayReclaim
            (state_of (meant_in P.meaning A.charge self.old)) slot }
        ensures freed { IsTrue result → IsFreed P.always_shared P.same_meaning
            (meant_in P.meaning A.charge self.old) (meant_in P.meaning A.charge self.new) slot
            (report_of Kind.Reclaim (Some slot) 0 true) }
        ensures other { result ≡ false → self.new ≡ self.old }
    {
        if !self.stock.store.pins.may_reclaim(slot) {
            return false;
        }
        self.free(slot);
        true
    }

    /// A slot that may be reclaimed, if there is one.
    pub fn reclaimable(&self) -> Option<usize>
        requires sound { IsSoundWorld P.always_shared P.same_meaning
            (meant_in P.meaning A.charge self.now) }
        ensures some { IfSome result (λ slot. MayReclaim
            (state_of (meant_in P.meaning A.charge self.now)) slot) }
        ensures none { IfNone result ((slot : ℕ)
            → MayReclaim
            (state_of (meant_in P.meaning A.charge self.now)) slot → ⊥) }
    {
        self.stock.store.pins.reclaimable()
    }

    // Takes a retired node out of its slot, frees it and uncharges its size.
    fn free(&mut self, slot: usize)
        requires sound { IsSoundWorld P.always_shared P.same_meaning
            (meant_in P.meaning A.charge self.old) }
        requires may { MayReclaim
            (state_of (meant_in P.meaning A.charge self.old)) slot }
        ensures freed { IsFreed P.always_shared P.same_meaning
            (meant_in P.meaning A.charge self.old) (meant_in P.meaning A.charge self.new) slot
            (report_of Kind.Reclaim (Some slot) 0 true) }
    {
        let node = self.stock.store.free(slot);
        let size = NodeSize::of(node.base().get_type());
        self.stock.budget.deallocate(size);
    }
}
