//! `Congee`, the map from keys to values that are stored as numbers.
//!
//! Tested in `test_owned/faces`.

ghost use Rattle.std.specs.Prelude.{◌≡◌, ◌≢◌, ℕ, [], Option, Some, None, Ok, Err, IfOk, OnOk, OnErr, IsTrue, ◌↔◌, ◌+◌, ◌<◌, ◌^◌, ◌++◌, length, min, map, take, drop, reverse, option_copied};
ghost use Rattle.std.specs.List.{FoldsTo};
ghost use Rattle.std.specs.Option.{option_map};
ghost use Rattle.spec_map.specs.Map.{lookup, put, without, with_answer, between, IsMap};
ghost use Rattle.congee_tree.specs.Stats.{AreStatsOf};
ghost use Rattle.spec_map.specs.Refusal.{NeedsNode};
ghost use Rattle.node_table.specs.Charge.{Covers};
ghost use Rattle.tree_path.specs.Charge.{charge_of};
ghost use Rattle.tree_edit.specs.TreeCalls.{IsNew, IsChargeOf};
ghost use Rattle.tree_edit.specs.Tree.{ChargesForNodes, StoresSame};

mod bulk;
pub mod iter;
mod near;

use congee_tree::by_number;
use congee_tree::tree::RawCongee;
use node_stats::NodeStats;
use node_table::allocator::{Allocator, DefaultAllocator};
use spec_map::error::OOMError;
use spec_map::traits::{Drainer, NoDrain, Word};
use std::alloc::Global;
use std::marker::{Brand, Model, PhantomData};
use std::sync::ledger::Blank;
use tree_walk::range_scan::RangeEntry;

/// An ordered map from keys to values, both of types that are written as 64-bit numbers. Two keys with one number are
/// one key.
///
/// Contracts see the pairs of the map by their numbers. A value that is returned is read back from its number; closures
/// take and return numbers.
///
/// The allocator `A` is charged for each node of the map's tree. When the map is dropped, its drainer is called with
/// each pair, keys ascending.
pub struct Congee<K: Word, V: Word, A: Allocator = DefaultAllocator, D: Drainer<K, V> = NoDrain> {
    tree: RawCongee<u64, A>,
    drainer: D,
    of: PhantomData<(K, V)>,
}

impl<K: Word, V: Word, A: Allocator, D: Drainer<K, V>> Model for Congee<K, V, A, D> {
    ghost use Rattle.std.specs.Prelude.{ℕ};
    ghost use Rattle.std.specs.Coded.{coded_ℕ};
    ghost use Rattle.tree_edit.specs.Tree.{TreeView, tree_code};

    ghost Value = { TreeView ℕ A };

    ghost coded = { tree_code coded_ℕ A.code };

    ghost view = { λ m. m.tree };

    ghost invariant = { λ m. D.can_drain m.drainer };
}

impl<K: Word, V: Word, A: Allocator> Congee<K, V, A> {
    /// An empty map, or `OOMError` where the allocator or the machine has no memory for it. It has no drainer: a drop
    /// reports its pairs to nobody.
    pub fn new(alloc: Global, allocator: A) -> Result<Self, OOMError>
        ensures { IfOk result (λ map. IsNew A.charge allocator map) }
    {
        Congee::new_with_drainer(alloc, allocator, NoDrain {})
    }
}

impl<K: Word, V: Word, A: Allocator, D: Drainer<K, V>> Congee<K, V, A, D> {
    /// An empty map, or `OOMError` where the allocator or the machine has no memory for it. When the map is dropped,
    /// the drainer is called with each pair that is left, keys ascending, each key and value read back from its number.
    pub fn new_with_drainer(alloc: Global, allocator: A, drainer: D) -> Result<Self, OOMError>
        requires { D.can_drain drainer }
        ensures { IfOk result (λ map. IsNew A.charge allocator map) }
    {
        Ok(Congee {
            tree: RawCongee::new(alloc, allocator)?,
            drainer,
            of: PhantomData,
        })
    }

    /// The value at the key, read back from its number. Takes no memory.
    pub fn get(&self, key: &K) -> Option<V>
        ensures { result ≡ option_map V.of_number (lookup self.now.pairs (K.number key.now)) }
    {
        let number = by_number::get::<Brand, u64, A>(&self.tree, key.into_u64(), Blank::new(1));
        read_back(number.copied())
    }

    /// Sets the value at the key, and returns the previous one, read back from its number. `OOMError` comes only for a
    /// new key that needs a node of its own or a larger one, where memory is missing for that, and leaves the map
    /// unchanged.
    pub fn insert(&mut self, key: K, value: V) -> Result<Option<V>, OOMError>
        ensures before { IfOk result
            (λ before. before ≡ option_map V.of_number (lookup self.old.pairs (K.number key))) }
        ensures ok { OnOk result
            (self.new.pairs ≡ put self.old.pairs (K.number key) (V.number value)) }
        ensures err { OnErr result (StoresSame self.old self.new) }
        ensures charge { ChargesForNodes A.charge self.old self.new }
        ensures refused { OnErr result (NeedsNode self.old.pairs (K.number key)) }
    {
        let before = by_number::insert::<Brand, u64, A>(
            &mut self.tree,
            key.into_u64(),
            value.into_u64(),
            Blank::new(1),
        )?;
        Ok(read_back(before))
    }

    /// Removes the key, and returns its value, read back from its number. Never fails: the nodes that are empty then
    /// are freed, and one that has few entries left shrinks where there is memory for that.
    pub fn remove(&mut self, key: &K) -> Option<V>
        ensures before { result
            ≡ option_map V.of_number (lookup self.old.pairs (K.number key.now)) }
        ensures pairs { self.new.pairs ≡ without self.old.pairs (K.number key.now) }
        ensures charge { ChargesForNodes A.charge self.old self.new }
    {
        let blank = Blank::new(1);
        read_back(by_number::remove::<Brand, u64, A>(&mut self.tree, key.into_u64(), blank))
    }

    /// The counts of the tree's nodes by level and form, and of its pairs. Reads each node once. `OOMError` comes where
    /// there is no memory for the levels, of which there are eight at most.
    ///
    /// Each entry of a node is a pair or leads to a node, and none leads to the root: where no count saturates at
    /// `u64::MAX`, the entries are the pairs plus the nodes minus 1.
    pub fn stats(&self) -> Result<NodeStats, OOMError>
        ensures { IfOk result (λ stats. AreStatsOf self.now stats) }
    {
        self.tree.stats()
    }

    /// How many pairs there are: 2 to the 64 at most. Takes constant time and no memory.
    pub fn value_count(&self) -> u128
        ensures { result ≡ length self.now.pairs }
    {
        self.tree.value_count()
    }

    /// The allocator, which is charged for each node of the map's tree.
    pub fn allocator(&self) -> &A
        ensures budget { result.now ≡ self.now.budget }
        ensures charged { Covers (A.charge self.now.budget) (charge_of self.now.nodes) }
    {
        self.tree.allocator()
    }

    /// The sum of the stated sizes of the nodes of the map's tree, which its allocator is charged for. No node but the
    /// root is empty, and an empty map has no other. Takes no memory.
    pub fn charged(&self) -> u128
        ensures { IsChargeOf self.now result }
    {
        self.tree.charged()
    }

    /// The law that the pairs ascend, each key once, and that the keys have 64 bits.
    pub fn law_ordered(&self)
        ensures { IsMap self.now.pairs }
    {
        self.tree.law_ordered();
    }

    /// Whether there is no pair. Takes no memory.
    pub fn is_empty(&self) -> bool
        ensures { IsTrue result ↔ (self.now.pairs ≡ []) }
    {
        self.tree.is_empty()
    }

    /// Writes the first pairs, by their numbers, with keys from `start` on and below `end` to the buffer, ascending, as
    /// many as there are or as fit, and returns how many. The rest of the buffer is unchanged. Takes no memory, and
    /// reads no more nodes than those pairs are in and two paths through the tree.
    pub fn range(&self, start: &K, end: &K, buffer: &mut [(u64, u64)]) -> usize
        ensures count { result ≡ min (length buffer.old)
            (length (between self.now.pairs (K.number start.now) (K.number end.now))) }
        ensures written { buffer.new
            ≡ take result (between self.now.pairs (K.number start.now) (K.number end.now))
            ++ drop result buffer.old }
    {
        self.range_of(start.into_u64(), end.into_u64(), buffer)
    }

    /// Writes the first pairs, as entries of the buffer's kind, with numbers of keys from `start` on and below `end` to
    /// the buffer, ascending, as many as there are or as fit, and returns how many. The rest of the buffer is
    /// unchanged. Takes no memory.
    pub fn range_of<E: RangeEntry>(&self, start: u64, end: u64, buffer: &mut [E]) -> usize
        ensures count { result
            ≡ min (length buffer.old) (length (between self.now.pairs start end)) }
        ensures written { buffer.new
            ≡ take result (map (λ pair. E.entry pair.0 pair.1) (between self.now.pairs start end))
            ++ drop result buffer.old }
    {
        self.tree
            .range(&start.to_be_bytes(), &end.to_be_bytes(), buffer)
    }

    /// As `range`, with the pair at `last` too, which can be the greatest key.
    pub fn range_inclusive(&self, start: &K, last: &K, buffer: &mut [(u64, u64)]) -> usize
        ensures count { result ≡ min (length buffer.old)
            (length (between self.now.pairs (K.number start.now) (K.number last.now + 1))) }
        ensures written { buffer.new
            ≡ take result (between self.now.pairs (K.number start.now) (K.number last.now + 1))
            ++ drop result buffer.old }
    {
        self.range_inclusive_of(start.into_u64(), last.into_u64(), buffer)
    }

    /// Writes the first pairs, as entries of the buffer's kind, with numbers of keys from `start` on and up to `last`
    /// to the buffer, ascending, as many as there are or as fit, and returns how many. The rest of the buffer is
    /// unchanged. Takes no memory.
    pub fn range_inclusive_of<E: RangeEntry>(
        &self,
        start: u64,
        last: u64,
        buffer: &mut [E],
    ) -> usize
        ensures count { result
            ≡ min (length buffer.old) (length (between self.now.pairs start (last + 1))) }
        ensures written { let pairs = between self.now.pairs start (last + 1) in
            let entries = map (λ pair. E.entry pair.0 pair.1) pairs in
            buffer.new ≡ take result entries ++ drop result buffer.old }
    {
        self.tree.range_inclusive(start, last, buffer)
    }

    /// Writes the last pairs, by their numbers, with keys from `start` on and up to `last` to the buffer, descending, as
    /// many as there are or as fit, and returns how many. The rest of the buffer is unchanged. Takes no memory, and
    /// reads no more nodes than those pairs are in and two paths through the tree.
    pub fn range_descending(&self, start: &K, last: &K, buffer: &mut [(u64, u64)]) -> usize
        ensures count { result ≡ min (length buffer.old)
            (length (between self.now.pairs (K.number start.now) (K.number last.now + 1))) }
        ensures written { let first = K.number start.now in
            let pairs = reverse (between self.now.pairs first (K.number last.now + 1)) in
            buffer.new ≡ take result pairs ++ drop result buffer.old }
    {
        self.range_descending_of(start.into_u64(), last.into_u64(), buffer)
    }

    /// Writes the last pairs, as entries of the buffer's kind, with numbers of keys from `start` on and up to `last` to
    /// the buffer, descending, as many as there are or as fit, and returns how many. The rest of the buffer is
    /// unchanged. Takes no memory.
    pub fn range_descending_of<E: RangeEntry>(
        &self,
        start: u64,
        last: u64,
        buffer: &mut [E],
    ) -> usize
        ensures count { result
            ≡ min (length buffer.old) (length (between self.now.pairs start (last + 1))) }
        ensures written { let pairs = reverse (between self.now.pairs start (last + 1)) in
            let entries = map (λ pair. E.entry pair.0 pair.1) pairs in
            buffer.new ≡ take result entries ++ drop result buffer.old }
    {
        self.tree.range_descending(start, last, buffer)
    }

    /// The keys, ascending, each read back from its number. `OOMError` comes where there is no memory for their list.
    pub fn keys(&self) -> Result<Vec<K>, OOMError>
        ensures { IfOk result
            (λ keys. keys.items ≡ map K.of_number (map (λ pair. pair.0) self.now.pairs)) }
    {
        self.tree.keys()
    }

    /// Calls the closure with each pair, keys ascending, each key and value read back from its number, and consumes the
    /// map. The map's own drainer isn't called. Takes no memory.
    pub fn drain<F: FnMut(K, V)>(self, f: &mut F)
        requires { F.IsAlwaysCallable f.old }
        ensures { FoldsTo
            (λ state pair next. F.step state (K.of_number pair.0) (V.of_number pair.1) tt next)
            f.old self.pairs f.new }
    {
        let Congee {
            tree,
            drainer: _,
            of: _,
        } = self;
        let mut pairs = tree.into_pairs();
        while let Some((key, number)) = pairs.next() {
            f(K::from_u64(key), V::from_u64(number));
        }
    }

    /// Where the key is present, calls the closure with its number, once, and stores what it returns; `None` removes
    /// the key. Returns both numbers, the old and the new one. Never fails.
    pub fn compute_if_present<F: FnMut(u64) -> Option<u64>>(
        &mut self,
        key: &K,
        f: &mut F,
    ) -> Option<(u64, Option<u64>)>
        requires { (current : ℕ) → lookup self.old.pairs (K.number key.now) ≡ Some current
            → F.pre f.old current }
        ensures absent { lookup self.old.pairs (K.number key.now) ≡ None
            → (result ≡ None) × (self.new.pairs ≡ self.old.pairs) × (f.new ≡ f.old) }
        ensures present { (current : ℕ) → lookup self.old.pairs (K.number key.now) ≡ Some current
            → (answer : Option ℕ) × F.step f.old current answer f.new
            × (result ≡ Some (current, answer))
            × (self.new.pairs ≡ with_answer self.old.pairs (K.number key.now) answer) }
        ensures charge { ChargesForNodes A.charge self.old self.new }
    {
        let mut answered = None;
        let mut keep = |current: &u64| -> Option<u64>
            requires { F.pre f.now current.now }
        {
            answered = f(*current);
            answered
        };
        let number = key.into_u64();
        let blank = Blank::new(1);
        let old = by_number::compute_if_present::<Brand, u64, A, _>(
            &mut self.tree,
            number,
            &mut keep,
            blank,
        )?;
        Some((old, answered))
    }

    /// Calls the closure once, with the key's current number if there is one, and stores what it returns. Returns the
    /// previous value, read back from its number. All memory is taken before the closure is called: `OOMError` comes
    /// only for a new key that needs a node of its own or a larger one, where memory is missing for that; then the
    /// closure wasn't called, and the map is unchanged.
    pub fn compute_or_insert<F: FnMut(Option<u64>) -> u64>(
        &mut self,
        key: K,
        f: &mut F,
    ) -> Result<Option<V>, OOMError>
        requires { F.pre f.old (lookup self.old.pairs (K.number key)) }
        ensures before { IfOk result
            (λ before. before ≡ option_map V.of_number (lookup self.old.pairs (K.number key))) }
        ensures ok { OnOk result ((answer : ℕ)
            × F.step f.old (lookup self.old.pairs (K.number key)) answer f.new
            × (self.new.pairs ≡ put self.old.pairs (K.number key) answer)) }
        ensures err { OnErr result (StoresSame self.old self.new) }
        ensures charge { ChargesForNodes A.charge self.old self.new }
        ensures not_called { OnErr result (f.new ≡ f.old) }
        ensures refused { OnErr result (NeedsNode self.old.pairs (K.number key)) }
    {
        let mut number = |current: Option<&u64>| -> u64
            requires { F.pre f.now (option_copied current) }
        { f(current.copied()) };
        let before = by_number::compute_or_insert::<Brand, u64, A, _>(
            &mut self.tree,
            key.into_u64(),
            &mut number,
            Blank::new(1),
        )?;
        Ok(read_back(before))
    }

    /// Where the key's current number is that of `old`, stores `new`, or removes the key for `None`, and returns `Ok`
    /// with `new` itself. Otherwise changes nothing, and returns `Err` with the current value, read back from its
    /// number, or with `None` where the key is absent. One path through the tree. Never fails.
    pub fn compare_exchange(
        &mut self,
        key: &K,
        old: &V,
        new: Option<V>,
    ) -> Result<Option<V>, Option<V>>
        ensures absent { lookup self.old.pairs (K.number key.now) ≡ None
            → (result ≡ Err None) × (self.new.pairs ≡ self.old.pairs) }
        ensures same { lookup self.old.pairs (K.number key.now) ≡ Some (V.number old.now)
            → (result ≡ Ok new)
            × (self.new.pairs
            ≡ with_answer self.old.pairs (K.number key.now) (option_map V.number new)) }
        ensures other { (current : ℕ) → lookup self.old.pairs (K.number key.now) ≡ Some current
            → current ≢ V.number old.now
            → (result ≡ Err (Some (V.of_number current))) × (self.new.pairs ≡ self.old.pairs) }
        ensures charge { ChargesForNodes A.charge self.old self.new }
    {
        let expected = old.into_u64();
        let wanted = numbered(&new);
        let current = self.exchange(key.into_u64(), expected, wanted);
        match current {
            None => Err(None),
            Some(number) if number == expected => Ok(new),
            Some(number) => Err(Some(V::from_u64(number))),
        }
    }

    // Stores `wanted` where the key's current number is `expected`, and stores the current number again where it is
    // another. Returns the previous number.
    fn exchange(&mut self, key: u64, expected: u64, wanted: Option<u64>) -> Option<u64>
        ensures ordered { IsMap self.old.pairs }
        ensures before { result ≡ lookup self.old.pairs key }
        ensures absent { lookup self.old.pairs key ≡ None → self.new.pairs ≡ self.old.pairs }
        ensures same { lookup self.old.pairs key ≡ Some expected
            → self.new.pairs ≡ with_answer self.old.pairs key wanted }
        ensures other { (current : ℕ) → lookup self.old.pairs key ≡ Some current
            → current ≢ expected → self.new.pairs ≡ put self.old.pairs key current }
        ensures charge { ChargesForNodes A.charge self.old self.new }
    {
        let mut choose = |current: &u64| -> Option<u64> {
            if *current == expected {
                return wanted;
            }
            Some(*current)
        };
        let blank = Blank::new(1);
        by_number::compute_if_present::<Brand, u64, A, _>(&mut self.tree, key, &mut choose, blank)
    }
}

impl<K: Word, V: Word, A: Allocator, D: Drainer<K, V>> Drop for Congee<K, V, A, D> {
    fn drop(self) {
        let Congee {
            tree,
            drainer,
            of: _,
        } = self;
        if !drainer.wants_pairs() {
            return;
        }
        let mut pairs = tree.into_pairs();
        while let Some((key, number)) = pairs.next() {
            drainer.drain(K::from_u64(key), V::from_u64(number));
        }
    }
}

// The value that a number is read back as, if there is one.
fn read_back<V: Word>(number: Option<u64>) -> Option<V>
    ensures { result ≡ option_map V.of_number number }
{
    match number {
        Some(number) => Some(V::from_u64(number)),
        None => None,
    }
}

// The number of a value, if there is one.
fn numbered<V: Word>(value: &Option<V>) -> Option<u64>
    ensures { result ≡ option_map V.number value.now }
{
    match value {
        Some(value) => Some(value.into_u64()),
        None => None,
    }
}
