//! The tree with its seats.
//!
//! Tested in `share_maps` and `test_share_guards/changes`.

ghost use Rattle.std.specs.Prelude.{◌≡◌, ◌≢◌, ℕ, [], None, Some, Err, IfOk, OnErr, IsTrue, MatchOption, ◌++◌, length, map, min, take, drop};
ghost use Rattle.share_backend.specs.Changing.{Counts, reply_in, reply_opened};
ghost use Rattle.tree_walk.specs.Scan.{first_pair, from_key};
ghost use Rattle.share_backend.specs.Stages.{Changes, IsOf, Opens, Turns};
ghost use Rattle.share_backend.specs.declared.lent.CallStage.{CallStage};
ghost use Rattle.share_backend.specs.declared.lent.CallStage.TheVariants.{Ready, Running};
ghost use Rattle.spec_map.specs.Map.{Pairs, between, IsMap};
ghost use Rattle.node_table.specs.inner.Kinds.{mapped};
ghost use Rattle.spec_olc.specs.Calls.{outline_of};
ghost use Rattle.spec_olc.specs.Meaning.{in_some, op_of, outcome_of};
ghost use Rattle.spec_olc.specs.declared.types.Asking.TheVariants.{Fresh};
ghost use Rattle.node_stats.specs.LevelCounts.{capped};
ghost use Rattle.node_stats.specs.Stats.{IsTally};
ghost use Rattle.node_stats.specs.Visits.{visits_below};
ghost use Rattle.share_tree.specs.Seats.{seat_place_in};

use crate::calls;
use crate::counted::Counted;
use crate::opened::Opened;
use crate::seat::CallSeat;
use crate::turned::Turned;
use crate::turns::{is_of, turn};
use node_stats::NodeStats;
use node_table::allocator::Allocator;
use share_backend::event::EventResult;
use slab::Slab;
use spec_map::error::OOMError;
use spec_map::traits::Word;
use spec_olc::payload::HasMeaning;
use spec_olc::types::{Env, Kind, Op, Outcome, Report, StartError};
use std::alloc::Global;
use std::marker::Model;
use std::mem;
use tree_walk::range_scan::RangeEntry;

/// An ordered map from 64-bit keys to payloads, with a seat for each number that makes calls. It is shared under a
/// lock, by the trait `Lent`.
///
/// Each call but those with a closure is over after its first event, so it takes one hold of the lock. Beside the tree,
/// the map has a seat for each number and 512 bytes of counts. The budget `A` is charged for the tree's nodes alone.
///
/// Contracts see the pairs, the nodes (the root first, then the nodes below each
/// child in the order of the bytes), and the seats.
#[derive(Drop)]
pub struct Direct<P: HasMeaning, A: Allocator> {
    pub(crate) tree: Counted<P, A>,
    seats: Slab<CallSeat<P>>,
}

impl<P: HasMeaning, A: Allocator> Model for Direct<P, A> {
    ghost use Rattle.share_tree.specs.View.{DirectView};
    ghost use Rattle.share_tree.specs.inner.Current.{AreCurrent};

    ghost Value = { DirectView P };

    ghost view = { λ d. record { pairs = d.tree.pairs; nodes = d.tree.nodes; seats = d.seats } };

    ghost invariant = { λ d. AreCurrent P.meaning d.tree d.seats };
}

// An event that accesses no slot.
fn event<P>(kind: Kind, outcome: Outcome<P>) -> EventResult<P>
    ensures kind { result.report.kind ≡ kind }
    ensures outcome { result.outcome ≡ outcome }
{
    let report = Report {
        kind,
        slot: None,
        word: 0,
        ok: true,
    };
    EventResult { report, outcome }
}

// Whether a number has a call of this kind and with these keys.
fn runs<P: HasMeaning>(seats: &Slab<CallSeat<P>>, id: u64, op: &Op<P>) -> bool
    ensures seated { IsTrue result → (p : CallStage P.Meaning)
        × (seat_place_in P.meaning seats.now id ≡ Some p) × IsOf (outline_of op.now) p }
    ensures all { (p : CallStage P.Meaning) → seat_place_in P.meaning seats.now id ≡ Some p
        → IsOf (outline_of op.now) p → IsTrue result }
{
    match seats.get(id as usize) {
        Some(seat) => is_of(seat, op),
        None => false,
    }
}

impl<P: HasMeaning, A: Allocator> Direct<P, A> {
    /// An empty map with no number seated.
    pub(crate) fn empty(alloc: Global, budget: A) -> Result<Self, OOMError>
        ensures content { IfOk result (λ d. d.pairs ≡ []) }
        ensures places { IfOk result (λ d. (id : ℕ) → seat_place_in P.meaning d.seats id ≡ None) }
    {
        Ok(Direct {
            tree: Counted::new(alloc, budget)?,
            seats: Slab::new(alloc),
        })
    }

    /// Seats a number. Takes memory only if more numbers are seated than ever before.
    pub(crate) fn take_seat(&mut self) -> Result<u64, OOMError>
        ensures pairs { self.new.pairs ≡ self.old.pairs }
        ensures ok { IfOk result (λ id. (seat_place_in P.meaning self.old.seats id ≡ None)
            × (seat_place_in P.meaning self.new.seats id ≡ Some Ready)
            × ((k : ℕ) → k ≢ id
            → seat_place_in P.meaning self.new.seats k ≡ seat_place_in P.meaning self.old.seats k)) }
        ensures err { OnErr result ((k : ℕ)
            → seat_place_in P.meaning self.new.seats k ≡ seat_place_in P.meaning self.old.seats k) }
    {
        match self.seats.insert(CallSeat::Ready) {
            Ok(key) => Ok(key as u64),
            Err(_) => Err(OOMError::new()),
        }
    }

    /// Frees the seat of a number.
    pub(crate) fn leave_seat(&mut self, id: u64)
        ensures pairs { self.new.pairs ≡ self.old.pairs }
        ensures mine { seat_place_in P.meaning self.new.seats id ≡ None }
        ensures others { (k : ℕ) → k ≢ id
            → seat_place_in P.meaning self.new.seats k ≡ seat_place_in P.meaning self.old.seats k }
    {
        self.seats.try_remove(id as usize);
    }

    /// The first event of a call. A call that it decides keeps nothing for a later event, so its number's seat is read
    /// and not written: the whole call is one look-up of the seat and the tree's own call.
    pub(crate) fn begin(&mut self, id: u64, op: &Op<P>) -> Result<EventResult<P>, StartError>
        ensures opens { seat_place_in P.meaning self.old.seats id ≡ Some Ready → IfOk result (λ event.
            Opens (outline_of op.now) (op_of P.meaning op.now)
            (seat_place_in P.meaning self.new.seats id) (outcome_of P.meaning event.outcome)) }
        ensures content { IfOk result (λ event. (m : Pairs P.Meaning)
            → m ≡ mapped P.meaning self.old.pairs
            → (n : Pairs P.Meaning) × (n ≡ mapped P.meaning self.new.pairs)
            × Changes P.same_meaning (Running (outline_of op.now) (op_of P.meaning op.now) Fresh)
            m n (outcome_of P.meaning event.outcome)) }
        ensures counts { Counts op.now (reply_opened result)
            (length self.old.pairs) (length self.new.pairs) }
        ensures err { OnErr result ((k : ℕ)
            → seat_place_in P.meaning self.new.seats k ≡ seat_place_in P.meaning self.old.seats k) }
        ensures refused { OnErr result (self.new.pairs ≡ self.old.pairs) }
        ensures free { seat_place_in P.meaning self.old.seats id ≡ Some Ready
            → result ≢ Err StartError.InFlight }
        ensures others { (k : ℕ) → k ≢ id
            → seat_place_in P.meaning self.new.seats k ≡ seat_place_in P.meaning self.old.seats k }
    {
        match self.seats.get(id as usize) {
            Some(CallSeat::Ready) => {}
            Some(_) => return Err(StartError::InFlight),
            None => return Err(StartError::Oom(OOMError::new())),
        }
        self.tree.is_ordered();
        let opened = calls::open(&mut self.tree, op);
        self.tree.is_ordered();
        match opened {
            Ok(Opened::Over(reply)) => Ok(event(Kind::Start, Outcome::Decided(reply))),
            Ok(Opened::Asks(seat, shown)) => {
                let Some(place) = self.seats.get_mut(id as usize) else {
                    unreachable!()
                };
                *place = seat;
                Ok(event(Kind::Start, Outcome::Ask(shown)))
            }
            Err(error) => Err(StartError::Oom(error)),
        }
    }

    /// A later event of a call with a closure. All other calls are over after their first event.
    pub(crate) fn go_on(&mut self, id: u64, op: &Op<P>, env: Env<P>) -> EventResult<P>
        ensures turns { (p : CallStage P.Meaning) → seat_place_in P.meaning self.old.seats id ≡ Some p
            → IsOf (outline_of op.now) p
            → Turns p (in_some P.meaning env.answer) result.report.kind
            (seat_place_in P.meaning self.new.seats id) (outcome_of P.meaning result.outcome) }
        ensures content { (p : CallStage P.Meaning) → seat_place_in P.meaning self.old.seats id ≡ Some p
            → IsOf (outline_of op.now) p
            → (m : Pairs P.Meaning) → m ≡ mapped P.meaning self.old.pairs
            → (n : Pairs P.Meaning) × (n ≡ mapped P.meaning self.new.pairs)
            × Changes P.same_meaning p m n (outcome_of P.meaning result.outcome) }
        ensures counts { Counts op.now (reply_in result.outcome)
            (length self.old.pairs) (length self.new.pairs) }
        ensures others { (k : ℕ) → k ≢ id
            → seat_place_in P.meaning self.new.seats k ≡ seat_place_in P.meaning self.old.seats k }
    {
        if !runs(&self.seats, id, op) {
            return event(Kind::Finish, Outcome::Unknown);
        }
        let Some(place) = self.seats.get_mut(id as usize) else {
            unreachable!()
        };
        let before = mem::replace(place, CallSeat::Ready);
        self.tree.is_ordered();
        let Turned {
            seat,
            kind,
            outcome,
        } = turn(&mut self.tree, before, env.answer);
        self.tree.is_ordered();
        *place = seat;
        event(kind, outcome)
    }

    /// The number of pairs that are stored. Takes constant time.
    #[tactic(auto, using(crate::proofs::Mapped::keys_mapped, crate::proofs::Mapped::length_mapped))]
    pub(crate) fn pair_count(&self) -> u128
        ensures count { result ≡ length self.now.pairs }
        ensures content { (m : Pairs P.Meaning) × (m ≡ mapped P.meaning self.now.pairs)
            × (result ≡ length m) }
    {
        self.tree.tree().value_count()
    }

    /// The keys, ascending. The vector is made once, with room for all of them.
    pub(crate) fn all_keys<K: Word>(&self) -> Result<Vec<K>, OOMError>
        ensures { IfOk result (λ keys. (m : Pairs P.Meaning) × IsMap m
            × (m ≡ mapped P.meaning self.now.pairs)
            × (keys.items ≡ map K.of_number (map (λ pair. pair.0) m))) }
    {
        let keys = self.tree.tree().keys()?;
        Ok(keys)
    }

    /// The least pair from a key on: two walks down the tree.
    pub(crate) fn least_from(&self, start: u64) -> Option<(u64, &P)>
        ensures { (m : Pairs P.Meaning) × (m ≡ mapped P.meaning self.now.pairs)
            × MatchOption result (from_key start m ≡ [])
            (λ pair. first_pair (from_key start m) ≡ Some (pair.0, P.meaning pair.1.now)) }
    {
        match self.tree.tree().key_from(start) {
            None => None,
            Some(key) => match self.tree.look(key) {
                Some(stored) => Some((key, stored)),
                None => unreachable!(),
            },
        }
    }

    /// The sums over the nodes. Reads each node once.
    pub(crate) fn sums(&self) -> Result<NodeStats, OOMError>
        ensures levels { IfOk result (λ stats.
            IsTally (visits_below 0 self.now.nodes) stats.levels) }
        ensures pairs { IfOk result (λ stats. stats.kv_pairs ≡ capped (length self.now.pairs)) }
    {
        self.tree.tree().stats()
    }
}

impl<A: Allocator> Direct<u64, A> {
    /// The first pairs of a range, in one walk.
    pub(crate) fn page_of<E: RangeEntry>(&self, start: u64, end: u64, buffer: &mut [E]) -> usize
        ensures ordered { IsMap self.now.pairs }
        ensures count { result
            ≡ min (length buffer.old) (length (between self.now.pairs start end)) }
        ensures written { buffer.new ≡ take result (map (λ pair. E.entry pair.0 pair.1)
            (between self.now.pairs start end)) ++ drop result buffer.old }
    {
        let tree = self.tree.tree();
        tree.range(&start.to_be_bytes(), &end.to_be_bytes(), buffer)
    }
}
