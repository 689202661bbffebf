//! Statistics of a tree: how many nodes and entries each level has, and the text that shows them.
//!
//! A level is the number of nodes above. No number here is a float: a fraction is exact until it is printed in
//! hundredths.
//!
//! Tested in `congee_nodes/stats`.
#![tactic(auto)]

ghost use Rattle.std.specs.Prelude.{◌≡◌, ◌+◌, List, [], ◌∷◌, ◌++◌, OnOk, OnErr};
ghost use Rattle.node_stats.specs.LevelCounts.{capped};
ghost use Rattle.node_stats.specs.Stats.{Visit, visit, IsTally};

pub mod fraction;
pub mod laws;
pub mod levels;
mod text;

use crate::levels::Levels;
use node_base::base_node::NodeType;
use serde::Serialize;
use spec_map::error::OOMError;
use std::alloc::Global;

/// The counts of each level, the root's first, and the number of pairs.
///
/// A count saturates at `u64::MAX`. `Display` prints a line for each of the first eight levels and four lines of sums;
/// the sums are of those levels.
#[derive(Debug, Drop, Serialize)]
pub struct NodeStats {
    pub levels: Levels,
    pub kv_pairs: u64,
}

impl NodeStats {
    /// No levels and no pairs. Takes no memory; the list of levels keeps the allocator.
    #[tactic(auto, using(crate::proofs::TallyLaws::tally_empty))]
    pub fn empty(alloc: Global) -> Self
        ensures levels { result.levels ≡ [] }
        ensures tally { IsTally [] result.levels }
        ensures pairs { result.kv_pairs ≡ 0 }
    {
        NodeStats {
            levels: Levels::from_vec(Vec::new(alloc)),
            kv_pairs: 0,
        }
    }

    /// Counts one node with this many nodes above it. `OOMError` comes where there is no memory for its level.
    pub fn add_node(&mut self, level: usize, form: NodeType, entries: u64) -> Result<(), OOMError>
        ensures sums { OnOk result ((nodes : List Visit) → IsTally nodes self.old.levels
            → IsTally (nodes ++ visit level form entries ∷ []) self.new.levels) }
        ensures err { OnErr result (self.new.levels ≡ self.old.levels) }
        ensures pairs { self.new.kv_pairs ≡ self.old.kv_pairs }
    {
        self.levels.reach(level)?;
        self.levels.add_at(level, form, entries);
        Ok(())
    }

    /// Counts pairs.
    pub fn add_pairs(&mut self, count: u64)
        ensures pairs { self.new.kv_pairs ≡ capped (self.old.kv_pairs + count) }
        ensures levels { self.new.levels ≡ self.old.levels }
    {
        self.kv_pairs = self.kv_pairs.saturating_add(count);
    }
}
