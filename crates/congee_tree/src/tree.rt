//! `RawCongee`, the adaptive radix tree under the typed faces (*The Adaptive Radix Tree*, Leis et al.): the tree of
//! `tree_edit`, and the walks over it.
//!
//! Tested in `test_owned` and `tools/dev/try-commands`.

ghost use Rattle.std.specs.Prelude.{◌≡◌, ◌+◌, ◌<◌, ◌≤◌, ◌^◌, ◌↔◌, [], length, IfOk, IsTrue, option_copied};
ghost use Rattle.std.specs.Fn.{TakesAt};
ghost use Rattle.std.specs.Option.{ForSome};
ghost use Rattle.std.specs.Int.{from_be_bytes, w64};
ghost use Rattle.node_table.specs.Charge.{Covers};
ghost use Rattle.tree_path.specs.Charge.{charge_of};
ghost use Rattle.tree_edit.specs.TreeCalls.{IsNew, IsChargeOf, Removes, Inserts, ComputesOrInserts, ComputesIfPresent, ReadsPath};
ghost use Rattle.tree_edit.specs.Closure.{TakesOption};
ghost use Rattle.spec_map.specs.Map.{IsMap};
ghost use Rattle.congee_tree.specs.Stats.{AreStatsOf};
ghost use Rattle.tree_edit.specs.Tree.{payload_at};

use crate::into_pairs::IntoPairs;
use node_stats::NodeStats;
use node_table::allocator::Allocator;
use spec_map::error::OOMError;
use spec_map::payload::Payload;
use spec_map::traits::Word;
use std::alloc::Global;
use std::marker::Model;
use std::sync::ledger::Ledger;
use tree_edit::tree::Tree;
use tree_path::reads::ReadCount;
use tree_walk::statistics::count_subtree;
use tree_walk::walk::{key_from, push_keys};

/// An ordered map from keys of eight bytes, most significant first, to payloads.
///
/// Contracts see the list of its pairs by the keys' numbers (byte order is numeric order), and the list of its nodes.
///
/// The budget is charged for each node from before it is made until it is freed, at the latest at the drop of the tree.
#[derive(Drop)]
pub struct RawCongee<P: Payload, A: Allocator> {
    pub(crate) tree: Tree<P, A>,
    /// No key is below this one. A removal of the first pair needn't search on its path.
    pub(crate) least: u64,
}

impl<P: Payload, A: Allocator> Model for RawCongee<P, A> {
    ghost use Rattle.std.specs.Prelude.{◌^◌};
    ghost use Rattle.spec_map.specs.Map.{Rises};
    ghost use Rattle.tree_edit.specs.Tree.{TreeView, tree_code};

    ghost Value = { TreeView P A };

    ghost coded = { tree_code P.code A.code };

    ghost view = { λ t. t.tree };

    ghost invariant = { λ t. Rises t.least (2 ^ 64) t.tree.pairs };
}

// The lesser one of a bound and a key.
#[inline(always)]
fn lowered(least: u64, key: &[u8; 8]) -> u64
    ensures bound { result ≤ least }
    ensures key { result ≤ from_be_bytes w64 key.now }
    ensures fits { from_be_bytes w64 key.now < 2 ^ 64 }
{
    least.min(u64::from_be_bytes(*key))
}

impl<P: Payload, A: Allocator> RawCongee<P, A> {
    /// An empty tree, or `OOMError` where the budget or the machine has no memory for its root.
    pub fn new(alloc: Global, budget: A) -> Result<Self, OOMError>
        ensures { IfOk result (λ tree. IsNew A.charge budget tree) }
    {
        Ok(RawCongee {
            tree: Tree::new(alloc, budget)?,
            least: 0,
        })
    }

    /// The payload at the key. Takes no memory. `reads` goes up by one for each node on the key's path.
    pub fn get<L: Ledger>(&self, key: &[u8; 8], reads: &mut ReadCount<L>) -> Option<&P>
        ensures value { option_copied result ≡ payload_at self.now key.now }
        ensures reads { ReadsPath self.now.nodes key.now reads.old reads.new }
    {
        self.tree.get(key, reads)
    }

    /// Sets the payload at the key, and returns the previous one. `OOMError` comes only for a new key that needs a node
    /// of its own or a larger one, where memory is missing for that, and leaves the tree unchanged; the given payload
    /// is dropped then. `reads` goes up by one for each node on the key's path.
    pub fn insert<L: Ledger>(
        &mut self,
        key: &[u8; 8],
        payload: P,
        reads: &mut ReadCount<L>,
    ) -> Result<Option<P>, OOMError>
        ensures inserts { let number = from_be_bytes w64 key.now in
            Inserts A.charge self.old number payload result self.new }
        ensures reads { ReadsPath self.old.nodes key.now reads.old reads.new }
    {
        self.least = lowered(self.least, key);
        self.tree.insert(key, payload, reads)
    }

    /// Sets the key's payload to what the closure returns for the current payload or `None`, and returns the previous
    /// one. The closure is called once, after all memory is taken. `OOMError` comes only for a new key that needs a
    /// node of its own or a larger one, where memory is missing for that; the tree is unchanged then, and the closure
    /// isn't called. `reads` goes up by one for each node on the key's path.
    pub fn compute_or_insert<F: FnMut(Option<&P>) -> P, L: Ledger>(
        &mut self,
        key: &[u8; 8],
        f: &mut F,
        reads: &mut ReadCount<L>,
    ) -> Result<Option<P>, OOMError>
        requires { TakesOption F.FnMut f.old (payload_at self.old key.now) }
        ensures computes { let number = from_be_bytes w64 key.now in
            ComputesOrInserts A.charge self.old number F.FnMut f.old result f.new self.new }
        ensures reads { ReadsPath self.old.nodes key.now reads.old reads.new }
    {
        self.least = lowered(self.least, key);
        self.tree.compute_or_insert(key, f, reads)
    }

    /// Removes the pair at the key, and returns its payload. Never fails: each node but the root that is empty then is
    /// freed, and the last one left on the path, unless it is the root, shrinks if it has few children and there is
    /// memory for that. `reads` goes up by one for each node on the key's path.
    pub fn remove<L: Ledger>(&mut self, key: &[u8; 8], reads: &mut ReadCount<L>) -> Option<P>
        ensures removes { Removes A.charge self.old (from_be_bytes w64 key.now) result self.new }
        ensures reads { ReadsPath self.old.nodes key.now reads.old reads.new }
    {
        self.tree.remove(key, reads)
    }

    /// Calls the closure on the key's payload, where the key is present: the payload that it returns replaces that one,
    /// and `None` removes the pair, as a removal does. Returns the previous payload. Never fails. `reads` goes up by
    /// one for each node on the key's path.
    pub fn compute_if_present<F: FnMut(&P) -> Option<P>, L: Ledger>(
        &mut self,
        key: &[u8; 8],
        f: &mut F,
        reads: &mut ReadCount<L>,
    ) -> Option<P>
        requires { ForSome (payload_at self.old key.now) (TakesAt F.FnMut f.old) }
        ensures ordered { IsMap self.old.pairs }
        ensures computes { let number = from_be_bytes w64 key.now in
            ComputesIfPresent A.charge self.old number F.FnMut f.old result f.new self.new }
        ensures reads { ReadsPath self.old.nodes key.now reads.old reads.new }
    {
        self.least = lowered(self.least, key);
        self.tree.compute_if_present(key, f, reads)
    }

    /// The law that the pairs ascend, each key once, and that the keys have 64 bits.
    pub fn law_ordered(&self)
        ensures { IsMap self.now.pairs }
    {
        let _ = self.tree.table();
    }

    /// Whether there is no pair.
    pub fn is_empty(&self) -> bool
        ensures { IsTrue result ↔ (self.now.pairs ≡ []) }
    {
        self.tree.value_count() == 0
    }

    /// How many pairs there are.
    pub fn value_count(&self) -> u128
        ensures { result ≡ length self.now.pairs }
    {
        self.tree.value_count()
    }

    /// The allocator, which is charged for each node of the tree.
    pub fn allocator(&self) -> &A
        ensures budget { result.now ≡ self.now.budget }
        ensures charged { Covers (A.charge self.now.budget) (charge_of self.now.nodes) }
    {
        self.tree.allocator()
    }

    /// The sum of the stated sizes of the tree's nodes, which its budget is charged for. No node but the root is empty,
    /// and in an empty tree there is no other.
    pub fn charged(&self) -> u128
        ensures { IsChargeOf self.now result }
    {
        self.tree.charged()
    }

    /// The counts of the tree's nodes by level and form, and of its pairs. Reads each node once. `OOMError` comes where
    /// there is no memory for the levels, of which there are eight at most.
    ///
    /// Each entry of a node is a pair or leads to a node, and none leads to the root: where no count saturates at
    /// `u64::MAX`, the entries are the pairs plus the nodes minus 1.
    pub fn stats(&self) -> Result<NodeStats, OOMError>
        ensures { IfOk result (λ stats. AreStatsOf self.now stats) }
    {
        let mut stats = NodeStats::empty(self.tree.memory());
        let (nodes, root) = self.tree.table();
        count_subtree(nodes, root, 0, &mut stats)?;
        stats.add_pairs(u64::try_from(self.tree.value_count()).unwrap_or(u64::MAX));
        Ok(stats)
    }
}

impl<P: Payload, A: Allocator> RawCongee<P, A> {
    ghost use Rattle.std.specs.Prelude.{◌≡◌, IfOk, map};
    ghost use Rattle.std.specs.List.{FoldsTo};
    ghost use Rattle.tree_walk.specs.Scan.{from_key, first_number};

    /// The keys, ascending, each read back from its number. The one vector is made with room for all of them;
    /// `OOMError` comes where there is no memory for it.
    pub fn keys<K: Word>(&self) -> Result<Vec<K>, OOMError>
        ensures { IfOk result (λ keys.
            keys.items ≡ map K.of_number (map (λ pair. pair.0) self.now.pairs)) }
    {
        let Ok(count) = usize::try_from(self.tree.value_count()) else {
            return Err(OOMError::new());
        };
        let mut keys = Vec::with_capacity(self.tree.memory(), count)?;
        let (nodes, root) = self.tree.table();
        push_keys(nodes, root, &mut keys);
        Ok(keys)
    }

    /// The least key that isn't below `start`. Takes no memory.
    pub fn key_from(&self, start: u64) -> Option<u64>
        ensures { result ≡ first_number (from_key start self.now.pairs) }
    {
        let (nodes, root) = self.tree.table();
        key_from(nodes, root, start)
    }

    /// The pairs by value, keys ascending.
    pub fn into_pairs(self) -> IntoPairs<P, A>
        ensures { result ≡ self.pairs }
    {
        IntoPairs::new(self)
    }

    /// Calls the closure with each pair, keys ascending, and consumes the tree. Takes no memory.
    pub fn drain<F: FnMut(u64, P)>(self, f: &mut F)
        requires { F.IsAlwaysCallable f.old }
        ensures { FoldsTo (λ state pair next. F.step state pair.0 pair.1 tt next) f.old self.pairs f.new }
    {
        let mut pairs = self.into_pairs();
        while let Some((key, payload)) = pairs.next() {
            f(key, payload);
        }
    }
}

impl<P: Payload, A: Allocator> RawCongee<P, A> {
    ghost use Rattle.std.specs.Prelude.{◌≡◌, []};
    ghost use Rattle.tree_edit.specs.Tree.{root_alone};

    /// The law that a tree without pairs has the root alone.
    pub fn law_empty(&self)
        ensures { self.now.pairs ≡ [] → self.now.nodes ≡ root_alone }
    {
        let _ = self.tree.table();
        let _ = self.tree.charged();
    }
}
