//! The ends of a tree's pairs, and the neighbours of a key.
//!
//! Tested in `test_owned/neighbours`.

ghost use Rattle.std.specs.Prelude.{◌≡◌, IfSome, IfNone, Some};
ghost use Rattle.std.specs.Int.{to_be_bytes, w64};
ghost use Rattle.std.specs.Option.{option_map};
ghost use Rattle.spec_map.specs.Near.{first_of, last_of, floor_of, below_of, ceiling_of, above_of};
ghost use Rattle.tree_edit.specs.Reduce.{LosesInPlace};
ghost use Rattle.tree_edit.specs.TreeCalls.{Removes};

use crate::tree::RawCongee;
use node_table::allocator::Allocator;
use spec_map::payload::Payload;
use tree_walk::nearest::{pair_from, pair_to};

// Each call reads one path, and beside it at most one that is a dead end: that of the key which is asked for.
impl<P: Payload, A: Allocator> RawCongee<P, A> {
    /// The pair with the least key. Takes no memory.
    pub fn first(&self) -> Option<(u64, &P)>
        ensures { option_map (λ found. (found.0, found.1.now)) result ≡ first_of self.now.pairs }
    {
        // For the proof: brings the order of the keys into scope.
        self.law_ordered();
        self.ceiling(0)
    }

    /// The pair with the greatest key. Takes no memory.
    pub fn last(&self) -> Option<(u64, &P)>
        ensures { option_map (λ found. (found.0, found.1.now)) result ≡ last_of self.now.pairs }
    {
        // For the proof: brings the order of the keys into scope.
        self.law_ordered();
        self.floor(u64::MAX)
    }

    /// The pair with the greatest key that is at most this one. Takes no memory.
    pub fn floor(&self, key: u64) -> Option<(u64, &P)>
        ensures { option_map (λ found. (found.0, found.1.now)) result ≡ floor_of self.now.pairs key }
    {
        let (nodes, root) = self.tree.table();
        pair_to(nodes, root, key)
    }

    /// The pair with the least key that is at least this one. Takes no memory.
    pub fn ceiling(&self, key: u64) -> Option<(u64, &P)>
        ensures { option_map (λ found. (found.0, found.1.now)) result
            ≡ ceiling_of self.now.pairs key }
    {
        let (nodes, root) = self.tree.table();
        pair_from(nodes, root, key)
    }

    /// The pair with the greatest key below this one. Takes no memory.
    pub fn below(&self, key: u64) -> Option<(u64, &P)>
        ensures { option_map (λ found. (found.0, found.1.now)) result ≡ below_of self.now.pairs key }
    {
        if key == 0 {
            return None;
        }
        self.floor(key - 1)
    }

    /// The pair with the least key above this one. Takes no memory.
    pub fn above(&self, key: u64) -> Option<(u64, &P)>
        ensures { option_map (λ found. (found.0, found.1.now)) result ≡ above_of self.now.pairs key }
    {
        if key == u64::MAX {
            return None;
        }
        self.ceiling(key + 1)
    }

    /// Removes the pair with the least key, and returns it. Never fails; it is a removal as any other.
    pub fn pop_first(&mut self) -> Option<(u64, P)>
        ensures pair { result ≡ first_of self.old.pairs }
        ensures removes { IfSome result (λ pair.
            Removes A.charge self.old pair.0 (Some pair.1) self.new) }
        ensures empty { IfNone result (self.new ≡ self.old) }
    {
        // For the proof: brings the order of the keys into scope.
        self.law_ordered();
        let (key, payload) = self.tree.pop_first(self.least)?;
        self.least = key.saturating_add(1);
        Some((key, payload))
    }

    // Removes the pair with the least key, and returns it. No node shrinks, so it takes no memory. Never fails.
    pub(crate) fn pop_first_in_place(&mut self) -> Option<(u64, P)>
        ensures pair { result ≡ first_of self.old.pairs }
        ensures removes { IfSome result (λ pair.
            Removes A.charge self.old pair.0 (Some pair.1) self.new) }
        ensures in_place { IfSome result (λ pair.
            LosesInPlace self.old.nodes (to_be_bytes w64 pair.0) self.new.nodes) }
        ensures empty { IfNone result (self.new ≡ self.old) }
    {
        // For the proof: brings the order of the keys into scope.
        self.law_ordered();
        let (key, payload) = self.tree.pop_first_in_place(self.least)?;
        self.least = key.saturating_add(1);
        Some((key, payload))
    }

    /// Removes the pair with the greatest key, and returns it. Never fails; it is a removal as any other.
    pub fn pop_last(&mut self) -> Option<(u64, P)>
        ensures pair { result ≡ last_of self.old.pairs }
        ensures removes { IfSome result (λ pair.
            Removes A.charge self.old pair.0 (Some pair.1) self.new) }
        ensures empty { IfNone result (self.new ≡ self.old) }
    {
        self.tree.pop_last()
    }
}
