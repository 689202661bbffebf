//! `Congee`, the map from keys to values that numbers represent, which threads share.
//!
//! Tested in `share_maps` and `test_share_guards`.

ghost use Rattle.std.specs.Prelude.{◌≡◌, ◌≢◌, ℕ, ◌≤◌, ◌+◌, ◌^◌, [], length, IfOk, IfSome, IsTrue, OnErr, MatchResult, map};
ghost use Rattle.spec_map.specs.Call.{count, counted, get, insert, remove};
ghost use Rattle.spec_map.specs.Map.{Pairs, IsMap};
ghost use Rattle.spec_olc.specs.Meaning.{in_some};
ghost use Rattle.spec_olc.specs.Runs.{same_number};
ghost use Rattle.share_state.specs.Held.{inserted, removed};
ghost use Rattle.share_rule.specs.Known.{MadeCall, SeenMore};
ghost use Rattle.share_holds.specs.Closures.{Reaches};
ghost use Rattle.share_holds.specs.Moments.{HasPage, HasRange};
ghost use Rattle.share_guards.specs.Operations.{computed_with, returned};
ghost use Rattle.share_faces.specs.Returned.{ReturnsExchanged, ReturnsInserted, ReturnsOld};

mod ends;
mod many;
mod ranges;
mod upward;

use node_stats::NodeStats;
use share_backend::snapshots::{Made, Pages};
use share_guards::pin::PinError;
use share_guards::raw::Raw;
use share_guards::{note, raw};
use share_holds::gate::{Gate, NoGate};
use share_state::purse::OwnPurse;
use share_state::share::Share;
use share_state::state::LockedState;
use spec_map::error::OOMError;
use spec_map::traits::{Drainer, NoDrain, Word};
use std::alloc::Global;
use std::marker::{Model, PhantomData};
use std::sync::Wait;
use std::sync::ledger::{Blank, Ledger};
use tree_walk::range_scan::RangeEntry;

/// A caller of a shared map of numbers. It belongs to one map, and makes one call at a time. Contracts see which map, the
/// caller's number, and the history that it has seen.
pub type Guard<'a, L, M> = raw::Guard<'a, L, u64, u64, M>;

/// A note of what a guard has seen.
pub type Note<L, M> = note::Note<L, u64, u64, M>;

/// An ordered map from keys to values, both of types that are written as 64-bit numbers, which threads share. Two keys
/// with one number are one key.
///
/// Each event of a call takes one hold of the map's lock. The map under the lock,
/// `M`, decides how many events a call takes. Closures and gates are called while the
/// lock is free, and closures may be called again: all but the closures of `extract_range`
/// and `retain`. That a call returns isn't claimed.
///
/// Contracts see which map it is. Each call is made by a guard of the map. What the guard has seen after a call is one
/// legal history of the map: it begins with what the guard had seen before, and ends with the call and its reply.
///
/// When the map is dropped, its drainer is called with each pair, keys ascending.
pub struct Congee<L: Ledger, K: Word, V: Word, M: Pages, D: Drainer<K, V> = NoDrain> {
    raw: Raw<L, u64, u64, M>,
    drainer: D,
    of: PhantomData<(K, V)>,
}

impl<L: Ledger, K: Word, V: Word, M: Pages, D: Drainer<K, V>> Model for Congee<L, K, V, M, D> {
    ghost use Rattle.std.specs.Prelude.{◌≡◌};
    ghost use Rattle.atomic_table.specs.Seated.{TableId, table_id_coded};
    ghost use Rattle.spec_olc.specs.Runs.{same_number};

    ghost Value = { TableId };

    ghost coded = { table_id_coded };

    ghost view = { λ m. m.raw };

    // a number in the map under the lock represents itself
    ghost invariant = { λ m. D.can_drain m.drainer × (M.Lent.meaning ≡ (λ n. n)) × (M.Lent.same ≡ same_number) };
}

fn read_back<V: Word>(number: Option<u64>) -> Option<V>
    ensures { result ≡ in_some V.of_number number }
{
    match number {
        Some(number) => Some(V::from_u64(number)),
        None => None,
    }
}

fn numbered<V: Word>(value: &Option<V>) -> Option<u64>
    ensures { result ≡ in_some V.number value.now }
{
    match value {
        Some(value) => Some(value.into_u64()),
        None => None,
    }
}

impl<L: Ledger, K: Word, V: Word, M: Pages> Congee<L, K, V, M> {
    /// An empty map, and the share with its whole weight. The allocator is charged for each node of the map's tree.
    /// `OOMError` if it or the machine has no memory for the map.
    pub fn new<A>(alloc: Global, blank: Blank, allocator: A) -> Result<(Self, Share<L>), OOMError>
    where
        M: Made<u64, u64, A>,
        requires name { blank.name ≡ L.name }
        requires parts { blank.parts ≡ L.parts }
        requires whole { L.parts ≡ 2 ^ 63 + 1 }
        ensures share { IfOk result (λ r. r.1 ≡ record { weight = 2 ^ 63; number = 0 }) }
    {
        Congee::new_with_drainer(alloc, blank, allocator, NoDrain {})
    }
}

impl<L: Ledger, K: Word, V: Word, M: Pages, D: Drainer<K, V>> Congee<L, K, V, M, D> {
    /// An empty map, and the share with its whole weight. When the map is dropped, the drainer is called with each pair
    /// that is left, keys ascending, each key and value read back from its number.
    pub fn new_with_drainer<A>(
        alloc: Global,
        blank: Blank,
        allocator: A,
        drainer: D,
    ) -> Result<(Self, Share<L>), OOMError>
    where
        M: Made<u64, u64, A>,
        requires name { blank.name ≡ L.name }
        requires parts { blank.parts ≡ L.parts }
        requires whole { L.parts ≡ 2 ^ 63 + 1 }
        requires drains { D.can_drain drainer }
        ensures share { IfOk result (λ r. r.1 ≡ record { weight = 2 ^ 63; number = 0 }) }
    {
        // (what the checker needs to know of M)
        M::numbers_mean_themselves();
        let (state, share) = LockedState::new(alloc, allocator, blank)?;
        Ok((
            Congee {
                raw: Raw::new(alloc, state)?,
                drainer,
                of: PhantomData,
            },
            share,
        ))
    }

    /// A guard that has seen nothing. Looks at the numbers that are seated, in turn. If there is none, nothing has changed.
    pub fn pin<R: Wait>(&self, rt: &R) -> Result<Guard<'_, L, M>, PinError>
        ensures { IfOk result (λ guard. (guard.table ≡ self.now) × (guard.seen ≡ [])) }
    {
        self.raw.pin(rt)
    }

    /// `pin` that waits while another thread is just being given a guard. `OOMError` if memory for its calls was missing:
    /// then nothing has changed.
    pub fn pin_waiting<R: Wait>(&self, rt: &R) -> Result<Guard<'_, L, M>, OOMError>
        ensures { IfOk result (λ guard. (guard.table ≡ self.now) × (guard.seen ≡ [])) }
    {
        self.raw.pin_waiting(rt)
    }

    /// Frees a caller's seat. A guard that is dropped instead keeps its seat until the map ends.
    pub fn unpin<R: Wait>(&self, rt: &R, guard: Guard<'_, L, M>)
        requires map { guard.table ≡ self.now }
    {
        guard.unpin(rt);
    }

    /// The current value of the key, read back from its number.
    pub fn get<R: Wait>(&self, rt: &R, guard: &mut Guard<'_, L, M>, key: &K) -> Option<V>
        requires map { guard.old.table ≡ self.now }
        ensures map { guard.new.table ≡ guard.old.table }
        ensures made { ReturnsOld V.of_number guard.old (get (K.number key.now)) result guard.new }
    {
        self.get_gated(rt, guard, key, &mut NoGate)
    }

    /// `get` with a gate, which is called after each event but the last of the call.
    pub fn get_gated<R: Wait, G: Gate>(
        &self,
        rt: &R,
        guard: &mut Guard<'_, L, M>,
        key: &K,
        gate: &mut G,
    ) -> Option<V>
        requires map { guard.old.table ≡ self.now }
        ensures map { guard.new.table ≡ guard.old.table }
        ensures made { ReturnsOld V.of_number guard.old (get (K.number key.now)) result guard.new }
    {
        read_back(self.raw.get_always(rt, guard, key.into_u64(), gate))
    }

    /// Stores a value at the key, and returns the previous one, read back from its number. `OOMError` if memory was
    /// missing: then the call changed nothing.
    pub fn insert<R: Wait>(
        &self,
        rt: &R,
        guard: &mut Guard<'_, L, M>,
        key: K,
        value: V,
    ) -> Result<Option<V>, OOMError>
        requires map { guard.old.table ≡ self.now }
        ensures map { guard.new.table ≡ guard.old.table }
        ensures made { IfOk result (λ before. ReturnsOld V.of_number guard.old
            (insert (K.number key) (V.number value)) before guard.new) }
        ensures refused { OnErr result (SeenMore same_number guard.old guard.new) }
        ensures unchanged { OnErr result (guard.new ≡ guard.old) }
    {
        self.insert_gated(rt, guard, key, value, &mut NoGate)
    }

    /// `insert` with a gate, which is called after each event but the last.
    pub fn insert_gated<R: Wait, G: Gate>(
        &self,
        rt: &R,
        guard: &mut Guard<'_, L, M>,
        key: K,
        value: V,
        gate: &mut G,
    ) -> Result<Option<V>, OOMError>
        requires map { guard.old.table ≡ self.now }
        ensures map { guard.new.table ≡ guard.old.table }
        ensures made { IfOk result (λ before. ReturnsOld V.of_number guard.old
            (insert (K.number key) (V.number value)) before guard.new) }
        ensures refused { OnErr result (SeenMore same_number guard.old guard.new) }
        ensures unchanged { OnErr result (guard.new ≡ guard.old) }
    {
        let before = self.raw.insert(
            rt,
            guard,
            key.into_u64(),
            value.into_u64(),
            &mut OwnPurse,
            gate,
        )?;
        Ok(read_back(before))
    }

    /// `insert`, which adds 1 to the share exactly if the key was absent.
    pub fn insert_counted<R: Wait>(
        &self,
        rt: &R,
        guard: &mut Guard<'_, L, M>,
        share: &mut Share<L>,
        key: K,
        value: V,
    ) -> Result<Option<V>, OOMError>
        requires map { guard.old.table ≡ self.now }
        ensures map { guard.new.table ≡ guard.old.table }
        ensures counted { share.new ≡ inserted result share.old }
        ensures made { IfOk result (λ before. ReturnsOld V.of_number guard.old
            (insert (K.number key) (V.number value)) before guard.new) }
        ensures refused { OnErr result (SeenMore same_number guard.old guard.new) }
        ensures unchanged { OnErr result (guard.new ≡ guard.old) }
    {
        let before = self.raw.insert(
            rt,
            guard,
            key.into_u64(),
            value.into_u64(),
            share,
            &mut NoGate,
        )?;
        Ok(read_back(before))
    }

    /// Removes the key, and returns the previous value, read back from its number. Tries again while memory is missing.
    pub fn remove<R: Wait>(&self, rt: &R, guard: &mut Guard<'_, L, M>, key: &K) -> Option<V>
        requires map { guard.old.table ≡ self.now }
        ensures map { guard.new.table ≡ guard.old.table }
        ensures made { ReturnsOld V.of_number guard.old (remove (K.number key.now)) result guard.new }
    {
        self.remove_gated(rt, guard, key, &mut NoGate)
    }

    /// `remove` with a gate, which is called after each event but the last.
    pub fn remove_gated<R: Wait, G: Gate>(
        &self,
        rt: &R,
        guard: &mut Guard<'_, L, M>,
        key: &K,
        gate: &mut G,
    ) -> Option<V>
        requires map { guard.old.table ≡ self.now }
        ensures map { guard.new.table ≡ guard.old.table }
        ensures made { ReturnsOld V.of_number guard.old (remove (K.number key.now)) result guard.new }
    {
        let before = self
            .raw
            .remove_always(rt, guard, key.into_u64(), &mut OwnPurse, gate);
        read_back(before)
    }

    /// `remove`, which subtracts 1 from the share exactly if a value was stored at the key.
    pub fn remove_counted<R: Wait>(
        &self,
        rt: &R,
        guard: &mut Guard<'_, L, M>,
        share: &mut Share<L>,
        key: &K,
    ) -> Option<V>
        requires map { guard.old.table ≡ self.now }
        ensures map { guard.new.table ≡ guard.old.table }
        ensures counted { share.new ≡ removed result share.old }
        ensures made { ReturnsOld V.of_number guard.old (remove (K.number key.now)) result guard.new }
    {
        let before = self
            .raw
            .remove_always(rt, guard, key.into_u64(), share, &mut NoGate);
        read_back(before)
    }

    /// Writes pairs, by their numbers, with keys from `start` on and below `end` to the buffer, ascending, as many as
    /// there are or as fit, and returns how many. The buffer's entries after them are unspecified. A range enters nothing in
    /// the history.
    pub fn range<R: Wait>(
        &self,
        rt: &R,
        guard: &mut Guard<'_, L, M>,
        start: &K,
        end: &K,
        buffer: &mut [(u64, u64)],
    ) -> usize
        requires map { guard.old.table ≡ self.now }
        ensures same { guard.new ≡ guard.old }
        ensures count { result ≤ length buffer.old }
        ensures written { HasRange same_number guard.old.seen (λ key value. (key, value))
            (K.number start.now) (K.number end.now) result buffer.new }
        ensures at_once { IsTrue M.at_once → HasPage same_number guard.old.seen
            (λ key value. (key, value)) (K.number start.now) (K.number end.now)
            buffer.old result buffer.new }
        ensures room { length buffer.new ≡ length buffer.old }
    {
        self.range_of(rt, guard, start.into_u64(), end.into_u64(), buffer)
    }

    /// Writes pairs as `range` does, as entries of the buffer's kind, with numbers of keys from `start` on and below
    /// `end`, and returns how many.
    pub fn range_of<R: Wait, E: RangeEntry>(
        &self,
        rt: &R,
        guard: &mut Guard<'_, L, M>,
        start: u64,
        end: u64,
        buffer: &mut [E],
    ) -> usize
        requires map { guard.old.table ≡ self.now }
        ensures same { guard.new ≡ guard.old }
        ensures count { result ≤ length buffer.old }
        ensures written { HasRange same_number guard.old.seen E.entry start end
            result buffer.new }
        ensures at_once { IsTrue M.at_once → HasPage same_number guard.old.seen E.entry
            start end buffer.old result buffer.new }
        ensures room { length buffer.new ≡ length buffer.old }
    {
        self.raw.range(rt, guard, start, end, buffer)
    }

    /// If the key is present, calls the closure with its value's number, and stores
    /// the answer. For `None` it removes the key. Returns both numbers, the old and
    /// the new one. The closure may be called again, and the last call counts.
    pub fn compute_if_present<R: Wait, F: FnMut(u64) -> Option<u64>>(
        &self,
        rt: &R,
        guard: &mut Guard<'_, L, M>,
        key: &K,
        f: &mut F,
    ) -> Option<(u64, Option<u64>)>
        requires map { guard.old.table ≡ self.now }
        requires callable { F.IsAlwaysCallable f.old }
        ensures callable { F.IsAlwaysCallable f.new }
        ensures reached { Reaches F.step f.old f.new }
        ensures map { guard.new.table ≡ guard.old.table }
        ensures made { MadeCall same_number guard.old (computed_with (K.number key.now) result) guard.new }
        ensures asked { IfSome result (λ pair. (state : F) × F.step state pair.0 pair.1 f.new) }
    {
        self.raw
            .compute_if_present_always(rt, guard, key.into_u64(), f)
    }

    /// Calls the closure with the number of the key's value, if the key is present, and stores the answer. Returns the
    /// previous value, read back from its number. The closure may be called again, and the last call counts. It may
    /// have been called before an `OOMError`.
    pub fn compute_or_insert<R: Wait, F: FnMut(Option<u64>) -> u64>(
        &self,
        rt: &R,
        guard: &mut Guard<'_, L, M>,
        key: K,
        f: &mut F,
    ) -> Result<Option<V>, OOMError>
        requires map { guard.old.table ≡ self.now }
        requires callable { F.IsAlwaysCallable f.old }
        ensures callable { F.IsAlwaysCallable f.new }
        ensures reached { Reaches F.step f.old f.new }
        ensures map { guard.new.table ≡ guard.old.table }
        ensures made { IfOk result (λ before.
            ReturnsInserted V.of_number guard.old F.step f.new (K.number key) before guard.new) }
        ensures refused { OnErr result (SeenMore same_number guard.old guard.new) }
        ensures unchanged { OnErr result (guard.new ≡ guard.old) }
    {
        // (the 0 would be stored if the closure returned no value, which it can't)
        let before = self.raw.compute_or_insert(rt, guard, key.into_u64(), 0, f)?;
        Ok(read_back(before))
    }

    /// If the number of `old` is stored at the key, stores `new`, or removes the key for `None`, and returns `Ok` with
    /// `new` itself. Otherwise changes nothing, and returns `Err` with the current value, read back from its number, or
    /// with `None` if the key is absent.
    pub fn compare_exchange<R: Wait>(
        &self,
        rt: &R,
        guard: &mut Guard<'_, L, M>,
        key: &K,
        old: &V,
        new: Option<V>,
    ) -> Result<Option<V>, Option<V>>
        requires map { guard.old.table ≡ self.now }
        ensures map { guard.new.table ≡ guard.old.table }
        ensures made { ReturnsExchanged V.of_number guard.old V.number (K.number key.now) (V.number old.now) new
            result guard.new }
    {
        let wanted = numbered(&new);
        match self
            .raw
            .compare_exchange_always(rt, guard, key.into_u64(), old.into_u64(), wanted)
        {
            Ok(_) => Ok(new),
            Err(current) => Err(read_back(current)),
        }
    }

    /// The number of pairs at one moment, exactly if the share has the whole weight: then the share is used up.
    /// Otherwise returns the share. By the contract of `LockedState::settle`, the number is that of the state under the
    /// lock.
    pub fn settle<R: Wait>(&self, rt: &R, share: Share<L>) -> Result<u128, Share<L>>
        ensures { MatchResult result (λ _. share.weight ≡ 2 ^ 63)
            (λ s. (share.weight ≢ 2 ^ 63) × (s ≡ share)) }
    {
        self.raw.settle(rt, share)
    }

    /// `settle` as an entry of the history, exactly if the share has the whole weight. Otherwise returns the share, and
    /// it is no entry.
    pub fn settle_recorded<R: Wait>(
        &self,
        rt: &R,
        guard: &mut Guard<'_, L, M>,
        share: Share<L>,
    ) -> Result<u128, Share<L>>
        requires map { guard.old.table ≡ self.now }
        ensures map { guard.new.table ≡ guard.old.table }
        ensures settled { MatchResult result
            (λ n. (share.weight ≡ 2 ^ 63)
            × MadeCall same_number guard.old (returned count (counted n)) guard.new)
            (λ s. (share.weight ≢ 2 ^ 63) × (s ≡ share) × (guard.new ≡ guard.old)) }
    {
        self.raw.settle_recorded(rt, guard, share)
    }

    /// The keys at one moment, ascending, each read back from its number.
    /// `OOMError` if there is no memory for the list.
    pub fn keys<R: Wait>(&self, rt: &R, alloc: Global) -> Result<Vec<K>, OOMError>
        ensures ascending { IfOk result (λ keys. (m : Pairs ℕ) × IsMap m
            × (keys.items ≡ map K.of_number (map (λ pair. pair.0) m))) }
    {
        self.raw.keys(rt, alloc)
    }

    /// The sums over the nodes that are reachable at one moment, by level and form, and the number of pairs.
    pub fn stats<R: Wait>(&self, rt: &R) -> Result<NodeStats, OOMError> {
        self.raw.stats(rt)
    }

    /// The number of pairs at one moment.
    pub fn value_count<R: Wait>(&self, rt: &R) -> u128 {
        self.raw.pair_count(rt)
    }

    /// Whether the map has no pair at one moment.
    pub fn is_empty<R: Wait>(&self, rt: &R) -> bool {
        self.raw.pair_count(rt) == 0
    }
}

impl<L: Ledger, K: Word, V: Word, M: Pages, D: Drainer<K, V>> Drop for Congee<L, K, V, M, D> {
    fn drop(self) {
        let Congee {
            raw,
            drainer,
            of: _,
        } = self;
        if !drainer.wants_pairs() {
            return;
        }
        if let Some(state) = raw.into_state() {
            drained(&state, &drainer);
        }
    }
}

/// Both guards, of one map, whose callers are two, have then seen one legal history, which begins with what each had seen.
pub fn meet<L: Ledger, M: Pages>(a: &mut Guard<'_, L, M>, b: &mut Guard<'_, L, M>)
    requires map { b.old.table ≡ a.old.table }
    ensures first { SeenMore same_number a.old a.new }
    ensures second { SeenMore same_number b.old b.new }
    ensures one { a.new.seen ≡ b.new.seen }
    ensures differ { a.old.caller ≢ b.old.caller }
{
    // (what the checker needs to know of M)
    M::numbers_mean_themselves();
    a.meet(b);
}

// Calls a drainer with each pair, keys ascending. Takes no memory.
fn drained<L: Ledger, K: Word, V: Word, M: Pages, D: Drainer<K, V>>(
    state: &LockedState<L, u64, u64, M>,
    drainer: &D,
)
    requires { D.can_drain drainer.now }
{
    let mut start = 0;
    // each key is the start once, and there are fewer pairs than 64-bit numbers
    for _ in 0..u64::MAX {
        let Some((key, number)) = state.pair_from(start) else {
            return;
        };
        drainer.drain(K::from_u64(key), V::from_u64(*number));
        if key == u64::MAX {
            return;
        }
        start = key + 1;
    }
}
