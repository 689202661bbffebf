//! `CongeeArc`, the map from keys to shared values.
//!
//! Tested in `test_owned/shared_values` and `test_owned/leaks`.

ghost use Rattle.std.specs.Prelude.{◌≡◌, [], IfOk, IsTrue, ◌↔◌, map as each, option_copied};
ghost use Rattle.std.specs.Fn.{TakesAt};
ghost use Rattle.std.specs.Option.{ForSome};
ghost use Rattle.spec_map.specs.Map.{lookup, IsMap};
ghost use Rattle.node_table.specs.Charge.{Covers};
ghost use Rattle.tree_path.specs.Charge.{charge_of};
ghost use Rattle.tree_edit.specs.TreeCalls.{IsNew, IsChargeOf, Removes, Inserts, ComputesIfPresent};
ghost use Rattle.tree_edit.specs.Tree.{root_alone};

mod bulk;
pub mod iter;
mod near;
mod numbers;

use congee_tree::by_number;
use congee_tree::tree::RawCongee;
use node_table::allocator::{Allocator, DefaultAllocator};
use spec_map::error::OOMError;
use spec_map::payload::Payload;
use spec_map::traits::Word;
use std::alloc::Global;
use std::marker::{Brand, Model, PhantomData};
use std::sync::Arc;
use std::sync::ledger::Blank;

/// An ordered map from keys to owners of shared values. Two keys with one number are one key.
///
/// An owner that is passed in is stored itself, and the map makes no other. One that is replaced or removed is returned
/// to the caller, once; one for which memory is refused is dropped.
pub type CongeeArc<K, V, A = DefaultAllocator> = PayloadCongee<K, Arc<V>, A>;

/// An ordered map from keys that are written as 64-bit numbers to payloads, which are stored unchanged, and borrowed in
/// place.
///
/// Contracts see the pairs of the map, by the keys' numbers. The allocator `A` is charged for each node of the map's
/// tree.
#[derive(Drop)]
pub struct PayloadCongee<K: Word, P: Payload, A: Allocator = DefaultAllocator> {
    tree: RawCongee<P, A>,
    of: PhantomData<K>,
}

impl<K: Word, P: Payload, A: Allocator> Model for PayloadCongee<K, P, A> {
    ghost use Rattle.tree_edit.specs.Tree.{TreeView, tree_code};

    ghost Value = { TreeView P A };

    ghost coded = { tree_code P.code A.code };

    ghost view = { λ m. m.tree };
}

impl<K: Word, P: Payload> PayloadCongee<K, P> {
    /// An empty map, or `OOMError` where there is no memory for it.
    pub fn new(alloc: Global) -> Result<Self, OOMError>
        ensures pairs { IfOk result (λ map. map.pairs ≡ []) }
        ensures nodes { IfOk result (λ map. map.nodes ≡ root_alone) }
    {
        PayloadCongee::new_in(alloc, DefaultAllocator {})
    }
}

impl<K: Word, P: Payload, A: Allocator> PayloadCongee<K, P, A> {
    /// An empty map, or `OOMError` where the allocator or the machine has no memory for it.
    pub fn new_in(alloc: Global, allocator: A) -> Result<Self, OOMError>
        ensures { IfOk result (λ map. IsNew A.charge allocator map) }
    {
        Ok(PayloadCongee {
            tree: RawCongee::new(alloc, allocator)?,
            of: PhantomData,
        })
    }

    /// The law that the pairs ascend, each key once, and that the keys have 64 bits.
    pub fn law_ordered(&self)
        ensures { IsMap self.now.pairs }
    {
        self.tree.law_ordered();
    }

    /// Whether there is no pair. Takes no memory.
    pub fn is_empty(&self) -> bool
        ensures { IsTrue result ↔ (self.now.pairs ≡ []) }
    {
        self.tree.is_empty()
    }

    /// The allocator, which is charged for each node of the map's tree.
    pub fn allocator(&self) -> &A
        ensures budget { result.now ≡ self.now.budget }
        ensures charged { Covers (A.charge self.now.budget) (charge_of self.now.nodes) }
    {
        self.tree.allocator()
    }

    /// The sum of the stated sizes of the nodes of the map's tree, which its allocator is charged for. No node but the
    /// root is empty, and an empty map has no other. Takes no memory.
    pub fn charged(&self) -> u128
        ensures { IsChargeOf self.now result }
    {
        self.tree.charged()
    }

    /// The keys, ascending by their numbers, each read back. `OOMError` comes where there is no memory for the list.
    pub fn keys(&self) -> Result<Vec<K>, OOMError>
        ensures { IfOk result
            (λ keys. keys.items ≡ each K.of_number (each (λ pair. pair.0) self.now.pairs)) }
    {
        self.tree.keys()
    }

    /// The payload at the key. Takes no memory.
    pub fn get(&self, key: K) -> Option<&P>
        ensures { option_copied result ≡ lookup self.now.pairs (K.number key) }
    {
        by_number::get::<Brand, P, A>(&self.tree, key.into_u64(), Blank::new(1))
    }

    /// Sets the payload at the key, and returns the previous one. `OOMError` comes only for a new key that needs a node
    /// of its own or a larger one, where memory is missing for that. It leaves the map unchanged, and the given payload
    /// is dropped.
    pub fn insert(&mut self, key: K, payload: P) -> Result<Option<P>, OOMError>
        ensures { Inserts A.charge self.old (K.number key) payload result self.new }
    {
        let blank = Blank::new(1);
        by_number::insert::<Brand, P, A>(&mut self.tree, key.into_u64(), payload, blank)
    }

    /// Removes the key, and returns its payload. Never fails: the nodes that are empty then are freed, and one that has
    /// few entries left shrinks where there is memory for that.
    pub fn remove(&mut self, key: K) -> Option<P>
        ensures { Removes A.charge self.old (K.number key) result self.new }
    {
        let blank = Blank::new(1);
        by_number::remove::<Brand, P, A>(&mut self.tree, key.into_u64(), blank)
    }

    /// Where the key is present, calls the closure with its payload, once, and stores what it returns; `None` removes
    /// the key. Returns the previous payload. Never fails.
    pub fn compute_if_present<F: FnMut(&P) -> Option<P>>(&mut self, key: K, f: &mut F) -> Option<P>
        requires { ForSome (lookup self.old.pairs (K.number key)) (TakesAt F.FnMut f.old) }
        ensures { let number = K.number key in
            ComputesIfPresent A.charge self.old number F.FnMut f.old result f.new self.new }
    {
        let number = key.into_u64();
        let blank = Blank::new(1);
        by_number::compute_if_present::<Brand, P, A, F>(&mut self.tree, number, f, blank)
    }
}
