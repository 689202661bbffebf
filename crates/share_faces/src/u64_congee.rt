//! `U64Congee`, the map from numbers to values that numbers represent, which threads share.
//!
//! Tested in `share_maps` and `test_share_guards`.

ghost use Rattle.std.specs.Prelude.{◌≡◌, ◌≢◌, ℕ, ◌≤◌, ◌+◌, ◌^◌, [], length, IfOk, IsTrue, OnErr, MatchResult, map};
ghost use Rattle.std.specs.Int.{to_be_bytes, w64};
ghost use Rattle.spec_map.specs.Call.{count, counted, get, insert, remove};
ghost use Rattle.spec_map.specs.Map.{Pairs, IsMap};
ghost use Rattle.spec_olc.specs.Runs.{same_number};
ghost use Rattle.share_state.specs.Held.{inserted, removed};
ghost use Rattle.share_rule.specs.Known.{MadeCall, SeenMore};
ghost use Rattle.share_holds.specs.Moments.{HasPage, HasRange};
ghost use Rattle.share_guards.specs.Operations.{returned};
ghost use Rattle.share_faces.specs.Returned.{ReturnsOld};

mod ends;
mod upward;

use crate::typed_congee::{Congee, Guard};
use node_stats::NodeStats;
use node_table::allocator::DefaultAllocator;
use share_backend::snapshots::{Made, Pages};
use share_guards::pin::PinError;
use share_holds::gate::Gate;
use share_state::share::Share;
use spec_map::error::OOMError;
use spec_map::traits::Word;
use std::alloc::Global;
use std::marker::Model;
use std::sync::Wait;
use std::sync::ledger::{Blank, Ledger};

/// An ordered map from 64-bit numbers to values of a type that is written as a number, which threads share.
///
/// The map under its lock, `M`, decides how many events a call takes. Contracts see which map it is.
#[derive(Drop)]
pub struct U64Congee<L: Ledger, V: Word, M: Pages> {
    map: Congee<L, u64, V, M>,
}

impl<L: Ledger, V: Word, M: Pages> Model for U64Congee<L, V, M> {
    ghost use Rattle.atomic_table.specs.Seated.{TableId, table_id_coded};

    ghost Value = { TableId };

    ghost coded = { table_id_coded };

    ghost view = { λ m. m.map };
}

impl<L: Ledger, V: Word, M: Pages> U64Congee<L, V, M> {
    /// An empty map, and the share with its whole weight. `OOMError` if there is no memory for the map.
    pub fn new(alloc: Global, blank: Blank) -> Result<(Self, Share<L>), OOMError>
    where
        M: Made<u64, u64, DefaultAllocator>,
        requires name { blank.name ≡ L.name }
        requires parts { blank.parts ≡ L.parts }
        requires whole { L.parts ≡ 2 ^ 63 + 1 }
        ensures share { IfOk result (λ r. r.1 ≡ record { weight = 2 ^ 63; number = 0 }) }
    {
        U64Congee::new_in(alloc, blank, DefaultAllocator {})
    }

    /// An empty map, and the share with its whole weight. The allocator is charged for each node of the map's tree.
    /// `OOMError` if it or the machine has no memory for the map.
    pub fn new_in<A>(
        alloc: Global,
        blank: Blank,
        allocator: A,
    ) -> Result<(Self, Share<L>), OOMError>
    where
        M: Made<u64, u64, A>,
        requires name { blank.name ≡ L.name }
        requires parts { blank.parts ≡ L.parts }
        requires whole { L.parts ≡ 2 ^ 63 + 1 }
        ensures share { IfOk result (λ r. r.1 ≡ record { weight = 2 ^ 63; number = 0 }) }
    {
        let (map, share) = Congee::new(alloc, blank, allocator)?;
        Ok((U64Congee { map }, share))
    }

    /// A guard that has seen nothing. Looks at the numbers that are seated, in turn. If there is none, nothing has changed.
    pub fn pin<R: Wait>(&self, rt: &R) -> Result<Guard<'_, L, M>, PinError>
        ensures { IfOk result (λ guard. (guard.table ≡ self.now) × (guard.seen ≡ [])) }
    {
        self.map.pin(rt)
    }

    /// `pin` that waits while another thread is just being given a guard. `OOMError` if memory for its calls was missing:
    /// then nothing has changed.
    pub fn pin_waiting<R: Wait>(&self, rt: &R) -> Result<Guard<'_, L, M>, OOMError>
        ensures { IfOk result (λ guard. (guard.table ≡ self.now) × (guard.seen ≡ [])) }
    {
        self.map.pin_waiting(rt)
    }

    /// Frees a caller's seat. A guard that is dropped instead keeps its seat until the map ends.
    pub fn unpin<R: Wait>(&self, rt: &R, guard: Guard<'_, L, M>)
        requires map { guard.table ≡ self.now }
    {
        self.map.unpin(rt, guard);
    }

    /// The current value of the key, read back from its number.
    pub fn get<R: Wait>(&self, rt: &R, guard: &mut Guard<'_, L, M>, key: u64) -> Option<V>
        requires map { guard.old.table ≡ self.now }
        ensures map { guard.new.table ≡ guard.old.table }
        ensures made { ReturnsOld V.of_number guard.old (get key) result guard.new }
    {
        self.map.get(rt, guard, &key)
    }

    /// `get` with a gate, which is called after each event but the last of the call.
    pub fn get_gated<R: Wait, G: Gate>(
        &self,
        rt: &R,
        guard: &mut Guard<'_, L, M>,
        key: u64,
        gate: &mut G,
    ) -> Option<V>
        requires map { guard.old.table ≡ self.now }
        ensures map { guard.new.table ≡ guard.old.table }
        ensures made { ReturnsOld V.of_number guard.old (get key) result guard.new }
    {
        self.map.get_gated(rt, guard, &key, gate)
    }

    /// Stores a value at the key, and returns the previous one, read back from its number. `OOMError` if memory was
    /// missing: then the call changed nothing.
    pub fn insert<R: Wait>(
        &self,
        rt: &R,
        guard: &mut Guard<'_, L, M>,
        key: u64,
        val: V,
    ) -> Result<Option<V>, OOMError>
        requires map { guard.old.table ≡ self.now }
        ensures map { guard.new.table ≡ guard.old.table }
        ensures made { IfOk result (λ before. ReturnsOld V.of_number guard.old
            (insert key (V.number val)) before guard.new) }
        ensures refused { OnErr result (SeenMore same_number guard.old guard.new) }
        ensures unchanged { OnErr result (guard.new ≡ guard.old) }
    {
        self.map.insert(rt, guard, key, val)
    }

    /// `insert` with a gate, which is called after each event but the last.
    pub fn insert_gated<R: Wait, G: Gate>(
        &self,
        rt: &R,
        guard: &mut Guard<'_, L, M>,
        key: u64,
        val: V,
        gate: &mut G,
    ) -> Result<Option<V>, OOMError>
        requires map { guard.old.table ≡ self.now }
        ensures map { guard.new.table ≡ guard.old.table }
        ensures made { IfOk result (λ before. ReturnsOld V.of_number guard.old
            (insert key (V.number val)) before guard.new) }
        ensures refused { OnErr result (SeenMore same_number guard.old guard.new) }
        ensures unchanged { OnErr result (guard.new ≡ guard.old) }
    {
        self.map.insert_gated(rt, guard, key, val, gate)
    }

    /// `insert`, which adds 1 to the share exactly if the key was absent.
    pub fn insert_counted<R: Wait>(
        &self,
        rt: &R,
        guard: &mut Guard<'_, L, M>,
        share: &mut Share<L>,
        key: u64,
        val: V,
    ) -> Result<Option<V>, OOMError>
        requires map { guard.old.table ≡ self.now }
        ensures map { guard.new.table ≡ guard.old.table }
        ensures counted { share.new ≡ inserted result share.old }
        ensures made { IfOk result (λ before. ReturnsOld V.of_number guard.old
            (insert key (V.number val)) before guard.new) }
        ensures refused { OnErr result (SeenMore same_number guard.old guard.new) }
        ensures unchanged { OnErr result (guard.new ≡ guard.old) }
    {
        self.map.insert_counted(rt, guard, share, key, val)
    }

    /// Removes the key, and returns the previous value, read back from its number. Tries again while memory is missing.
    pub fn remove<R: Wait>(&self, rt: &R, guard: &mut Guard<'_, L, M>, key: u64) -> Option<V>
        requires map { guard.old.table ≡ self.now }
        ensures map { guard.new.table ≡ guard.old.table }
        ensures made { ReturnsOld V.of_number guard.old (remove key) result guard.new }
    {
        self.map.remove(rt, guard, &key)
    }

    /// `remove` with a gate, which is called after each event but the last.
    pub fn remove_gated<R: Wait, G: Gate>(
        &self,
        rt: &R,
        guard: &mut Guard<'_, L, M>,
        key: u64,
        gate: &mut G,
    ) -> Option<V>
        requires map { guard.old.table ≡ self.now }
        ensures map { guard.new.table ≡ guard.old.table }
        ensures made { ReturnsOld V.of_number guard.old (remove key) result guard.new }
    {
        self.map.remove_gated(rt, guard, &key, gate)
    }

    /// `remove`, which subtracts 1 from the share exactly if a value was stored at the key.
    pub fn remove_counted<R: Wait>(
        &self,
        rt: &R,
        guard: &mut Guard<'_, L, M>,
        share: &mut Share<L>,
        key: u64,
    ) -> Option<V>
        requires map { guard.old.table ≡ self.now }
        ensures map { guard.new.table ≡ guard.old.table }
        ensures counted { share.new ≡ removed result share.old }
        ensures made { ReturnsOld V.of_number guard.old (remove key) result guard.new }
    {
        self.map.remove_counted(rt, guard, share, &key)
    }

    /// Writes pairs with keys from `start` on and below `end` to the buffer, ascending, as many as there are or as fit,
    /// and returns how many: each key as its eight bytes, most significant first, and each value as its number. The
    /// buffer's entries after them are unspecified.
    pub fn range<R: Wait>(
        &self,
        rt: &R,
        guard: &mut Guard<'_, L, M>,
        start: u64,
        end: u64,
        buffer: &mut [([u8; 8], u64)],
    ) -> usize
        requires map { guard.old.table ≡ self.now }
        ensures same { guard.new ≡ guard.old }
        ensures count { result ≤ length buffer.old }
        ensures written { HasRange same_number guard.old.seen
            (λ key value. (to_be_bytes w64 key, value)) start end result buffer.new }
        ensures at_once { IsTrue M.at_once → HasPage same_number guard.old.seen
            (λ key value. (to_be_bytes w64 key, value)) start end
            buffer.old result buffer.new }
        ensures room { length buffer.new ≡ length buffer.old }
    {
        self.map.range_of(rt, guard, start, end, buffer)
    }

    /// The number of pairs at one moment, exactly if the share has the whole weight: then the share is used up.
    /// Otherwise returns the share. By the contract of `LockedState::settle`, the number is that of the state under the
    /// lock.
    pub fn settle<R: Wait>(&self, rt: &R, share: Share<L>) -> Result<u128, Share<L>>
        ensures { MatchResult result (λ _. share.weight ≡ 2 ^ 63)
            (λ s. (share.weight ≢ 2 ^ 63) × (s ≡ share)) }
    {
        self.map.settle(rt, share)
    }

    /// `settle` as an entry of the history, exactly if the share has the whole weight. Otherwise returns the share, and
    /// it is no entry.
    pub fn settle_recorded<R: Wait>(
        &self,
        rt: &R,
        guard: &mut Guard<'_, L, M>,
        share: Share<L>,
    ) -> Result<u128, Share<L>>
        requires map { guard.old.table ≡ self.now }
        ensures map { guard.new.table ≡ guard.old.table }
        ensures settled { MatchResult result
            (λ n. (share.weight ≡ 2 ^ 63)
            × MadeCall same_number guard.old (returned count (counted n)) guard.new)
            (λ s. (share.weight ≢ 2 ^ 63) × (s ≡ share) × (guard.new ≡ guard.old)) }
    {
        self.map.settle_recorded(rt, guard, share)
    }

    /// The keys at one moment, ascending. `OOMError` if there is no memory for the list.
    pub fn keys<R: Wait>(&self, rt: &R, alloc: Global) -> Result<Vec<u64>, OOMError>
        ensures ascending { IfOk result (λ keys. (m : Pairs ℕ) × IsMap m
            × (keys.items ≡ map (λ pair. pair.0) m)) }
    {
        self.map.keys(rt, alloc)
    }

    /// The sums over the nodes that are reachable at one moment, by level and form, and the number of pairs.
    pub fn stats<R: Wait>(&self, rt: &R) -> Result<NodeStats, OOMError> {
        self.map.stats(rt)
    }

    /// The number of pairs at one moment.
    pub fn value_count<R: Wait>(&self, rt: &R) -> u128 {
        self.map.value_count(rt)
    }

    /// Whether the map has no pair at one moment.
    pub fn is_empty<R: Wait>(&self, rt: &R) -> bool {
        self.map.is_empty(rt)
    }
}
