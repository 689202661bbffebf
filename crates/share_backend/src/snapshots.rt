//! How a map under a lock is made, and what is read of it at one moment.
//!
//! Tested in `share_maps` and `test_share_guards`.

ghost use Rattle.std.specs.Prelude.{◌≡◌, ◌+◌, ℕ, [], Some, None, IfOk, IfSome, IsSome, IsTrue, MatchOption, length, map};
ghost use Rattle.std.specs.Arc.{arc_value};
ghost use Rattle.spec_map.specs.Map.{Pairs, IsMap};
ghost use Rattle.node_stats.specs.LevelCounts.{capped};
ghost use Rattle.node_stats.specs.Stats.{IsTally};
ghost use Rattle.node_stats.specs.Visits.{visits_below};
ghost use Rattle.spec_olc.specs.Runs.{same_number};
ghost use Rattle.tree_walk.specs.Scan.{from_key, first_pair};
ghost use Rattle.share_backend.specs.Owners.{never_same};
ghost use Rattle.share_backend.specs.Reads.{IsPage};

use crate::lent::Lent;
use node_stats::NodeStats;
use spec_map::error::OOMError;
use spec_map::traits::Word;
use std::alloc::Global;
use std::sync::Arc;
use tree_walk::range_scan::RangeEntry;

/// A map that can be made empty, its nodes charged to a budget.
pub trait Made<P, T, A>: Lent<P, T> {
    /// An empty map with no number seated, or `OOMError` if the budget or the machine has no memory for it.
    fn made(alloc: Global, budget: A) -> Result<Self, OOMError>
        ensures content { IfOk result (λ made. Self.content made []) }
        ensures entries { IfOk result (λ made. Self.entries made ≡ 0) }
        ensures places { IfOk result (λ made. (id : ℕ) → Self.place made id ≡ None) };
}

/// What is read of a map at one moment.
pub trait Snapshots<P, T>: Lent<P, T> {
    ghost use Rattle.std.specs.Prelude.{List};
    ghost use Rattle.node_table.specs.Table.{NodeInfo};

    // The nodes that are reachable.
    ghost nodes: { Self → List NodeInfo };

    /// The number of pairs that are stored.
    fn entry_count(&self) -> u128
        ensures count { result ≡ Self.entries self.now }
        ensures content { (m : Pairs T) × Self.content self.now m × (result ≡ length m) };

    /// The keys, ascending, each read back from its number. No payload is
    /// shared. `OOMError` if there is no memory for the list.
    fn keys<K: Word>(&self, alloc: Global) -> Result<Vec<K>, OOMError>
        ensures { IfOk result (λ keys. (m : Pairs T) × IsMap m × Self.content self.now m
            × (keys.items ≡ map K.of_number (map (λ pair. pair.0) m))) };

    /// The least pair whose key isn't below `start`, if there is one. Takes no memory.
    fn pair_from(&self, start: u64) -> Option<(u64, &P)>
        ensures { (m : Pairs T) × Self.content self.now m
            × MatchOption result (from_key start m ≡ [])
            (λ pair. first_pair (from_key start m) ≡ Some (pair.0, Self.meaning pair.1.now)) };

    /// The sums over the reachable nodes by level and form, and the number of pairs. `OOMError` if there is no memory
    /// for the levels.
    fn stats(&self) -> Result<NodeStats, OOMError>
        ensures levels { IfOk result (λ stats.
            IsTally (visits_below 0 (nodes self.now)) stats.levels) }
        ensures pairs { IfOk result (λ stats. stats.kv_pairs ≡ capped (Self.entries self.now)) };
}

/// A map of numbers, and what is read of it at one moment.
pub trait Pages: Snapshots<u64, u64> {
    ghost use Rattle.std.specs.Prelude.{Bool};

    // Whether a range is read at one moment: then each has its page.
    ghost at_once: { Bool };

    /// A number represents itself, and is compared as a number.
    fn numbers_mean_themselves()
        ensures meaning { Self.meaning ≡ (λ n. n) }
        ensures same { Self.same ≡ same_number };

    /// Writes the first pairs with `start <= key < end`, keys ascending, and returns their number: all of them, or as
    /// many as the buffer has places for. The places after them stay unchanged. `None` if a range is a call of many
    /// events: then nothing is written.
    fn page<E: RangeEntry>(&self, start: u64, end: u64, buffer: &mut [E]) -> Option<usize>
        ensures written { IfSome result (λ count. (m : Pairs ℕ) × Self.content self.now m
            × IsMap m × IsPage E.entry start end m buffer.old count buffer.new) }
        ensures none { result ≡ None → buffer.new ≡ buffer.old }
        ensures at_once { IsTrue at_once → IsSome result };
}

/// A map of owners.
pub trait Owners<V>: Snapshots<Arc<V>, V> {
    /// An owner represents the value that it owns, and is never found equal to another.
    fn owners_mean_their_values()
        ensures meaning { Self.meaning ≡ (λ owner. arc_value owner) }
        ensures same { Self.same ≡ never_same };
}
