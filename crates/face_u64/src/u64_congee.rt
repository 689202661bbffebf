//! `U64Congee`, the map from numbers to values that are stored as numbers.
//!
//! Tested in `test_owned/faces`.

ghost use Rattle.std.specs.Prelude.{◌≡◌, ℕ, [], ◌+◌, ◌++◌, length, min, map, take, drop, reverse, IfOk, OnOk, OnErr};
ghost use Rattle.std.specs.Int.{to_be_bytes, w64};
ghost use Rattle.std.specs.Option.{option_map};
ghost use Rattle.spec_map.specs.Map.{lookup, put, without, between, IsMap};
ghost use Rattle.spec_map.specs.Refusal.{NeedsNode};
ghost use Rattle.node_table.specs.Charge.{Covers};
ghost use Rattle.tree_path.specs.Charge.{charge_of};
ghost use Rattle.tree_edit.specs.TreeCalls.{IsNew, IsChargeOf};
ghost use Rattle.tree_edit.specs.Tree.{root_alone, ChargesForNodes, StoresSame};

mod bulk;
mod iter;
mod near;

use face_typed::typed_congee::Congee;
use node_table::allocator::{Allocator, DefaultAllocator};
use spec_map::error::OOMError;
use spec_map::traits::Word;
use std::alloc::Global;
use std::marker::Model;

/// An ordered map from 64-bit numbers to values of a type that is written as a number.
///
/// Contracts see the pairs of the map by their numbers. A value that is returned is read back from its number.
/// The allocator `A` is charged for each node of the map's tree.
#[derive(Drop)]
pub struct U64Congee<V: Word, A: Allocator = DefaultAllocator> {
    map: Congee<u64, V, A>,
}

impl<V: Word, A: Allocator> Model for U64Congee<V, A> {
    ghost use Rattle.std.specs.Prelude.{ℕ};
    ghost use Rattle.std.specs.Coded.{coded_ℕ};
    ghost use Rattle.tree_edit.specs.Tree.{TreeView, tree_code};

    ghost Value = { TreeView ℕ A };

    ghost coded = { tree_code coded_ℕ A.code };

    ghost view = { λ m. m.map };
}

impl<V: Word> U64Congee<V> {
    /// An empty map, or `OOMError` where there is no memory for it.
    pub fn new(alloc: Global) -> Result<Self, OOMError>
        ensures pairs { IfOk result (λ map. map.pairs ≡ []) }
        ensures nodes { IfOk result (λ map. map.nodes ≡ root_alone) }
    {
        U64Congee::new_in(alloc, DefaultAllocator {})
    }
}

impl<V: Word, A: Allocator> U64Congee<V, A> {
    /// An empty map, or `OOMError` where the allocator or the machine has no memory for it.
    pub fn new_in(alloc: Global, allocator: A) -> Result<Self, OOMError>
        ensures { IfOk result (λ map. IsNew A.charge allocator map) }
    {
        Ok(U64Congee {
            map: Congee::new(alloc, allocator)?,
        })
    }

    /// The law that the pairs ascend, each key once, and that the keys have 64 bits.
    pub fn law_ordered(&self)
        ensures { IsMap self.now.pairs }
    {
        self.map.law_ordered();
    }

    /// The value at the key, read back from its number. Takes no memory.
    pub fn get(&self, key: u64) -> Option<V>
        ensures { result ≡ option_map V.of_number (lookup self.now.pairs key) }
    {
        self.map.get(&key)
    }

    /// Sets the value at the key, and returns the previous one, read back from its number. `OOMError` comes only for a
    /// new key that needs a node of its own or a larger one, where memory is missing for that, and leaves the map
    /// unchanged.
    pub fn insert(&mut self, key: u64, val: V) -> Result<Option<V>, OOMError>
        ensures before { IfOk result
            (λ before. before ≡ option_map V.of_number (lookup self.old.pairs key)) }
        ensures ok { OnOk result (self.new.pairs ≡ put self.old.pairs key (V.number val)) }
        ensures err { OnErr result (StoresSame self.old self.new) }
        ensures charge { ChargesForNodes A.charge self.old self.new }
        ensures refused { OnErr result (NeedsNode self.old.pairs key) }
    {
        self.map.insert(key, val)
    }

    /// Removes the key, and returns its value, read back from its number. Never fails: the nodes that are empty then
    /// are freed, and one that has few entries left shrinks where there is memory for that.
    pub fn remove(&mut self, key: u64) -> Option<V>
        ensures before { result ≡ option_map V.of_number (lookup self.old.pairs key) }
        ensures pairs { self.new.pairs ≡ without self.old.pairs key }
        ensures charge { ChargesForNodes A.charge self.old self.new }
    {
        self.map.remove(&key)
    }

    /// The allocator, which is charged for each node of the map's tree.
    pub fn allocator(&self) -> &A
        ensures budget { result.now ≡ self.now.budget }
        ensures charged { Covers (A.charge self.now.budget) (charge_of self.now.nodes) }
    {
        self.map.allocator()
    }

    /// The sum of the stated sizes of the nodes of the map's tree, which its allocator is charged for. No node but the
    /// root is empty, and an empty map has no other. Takes no memory.
    pub fn charged(&self) -> u128
        ensures { IsChargeOf self.now result }
    {
        self.map.charged()
    }

    /// Writes the first pairs with keys from `start` on and below `end` to the buffer, ascending, as many as there are
    /// or as fit, and returns how many: each key as its eight bytes, most significant first, and each value as its
    /// number. The rest of the buffer is unchanged. Takes no memory, and reads no more nodes than those pairs are in
    /// and two paths through the tree.
    pub fn range(&self, start: u64, end: u64, buffer: &mut [([u8; 8], u64)]) -> usize
        ensures count { result
            ≡ min (length buffer.old) (length (between self.now.pairs start end)) }
        ensures written { buffer.new
            ≡ take result (map (λ pair. (to_be_bytes w64 pair.0, pair.1))
            (between self.now.pairs start end))
            ++ drop result buffer.old }
    {
        self.map.range_of(start, end, buffer)
    }

    /// As `range`, with the pair at `last` too, which can be the greatest key.
    pub fn range_inclusive(&self, start: u64, last: u64, buffer: &mut [([u8; 8], u64)]) -> usize
        ensures count { result
            ≡ min (length buffer.old) (length (between self.now.pairs start (last + 1))) }
        ensures written { let pairs = between self.now.pairs start (last + 1) in
            let entries = map (λ pair. (to_be_bytes w64 pair.0, pair.1)) pairs in
            buffer.new ≡ take result entries ++ drop result buffer.old }
    {
        self.map.range_inclusive_of(start, last, buffer)
    }

    /// Writes the last pairs with keys from `start` on and up to `last` to the buffer, descending, as many as there are
    /// or as fit, and returns how many: each as `range` does. The rest of the buffer is unchanged. Takes no memory, and
    /// reads no more nodes than those pairs are in and two paths through the tree.
    pub fn range_descending(&self, start: u64, last: u64, buffer: &mut [([u8; 8], u64)]) -> usize
        ensures count { result
            ≡ min (length buffer.old) (length (between self.now.pairs start (last + 1))) }
        ensures written { let pairs = reverse (between self.now.pairs start (last + 1)) in
            let entries = map (λ pair. (to_be_bytes w64 pair.0, pair.1)) pairs in
            buffer.new ≡ take result entries ++ drop result buffer.old }
    {
        self.map.range_descending_of(start, last, buffer)
    }
}
