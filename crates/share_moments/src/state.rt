//! What is under the locks.
//!
//! Tested in `tools/c-library`.

use face_typed::typed_congee::Congee;
use node_table::allocator::Budget;
use share_visits::near::Near;
use share_visits::part::{MapShard, Pages, PartLock, PartSeat};
use tree_walk::range_scan::RangeEntry;

/// How often a call tries a lock before it answers that it is busy: some microseconds.
pub const TRIES: u32 = 200;

/// The map under one lock: the whole map, or that of a shard.
#[derive(Drop)]
pub struct State {
    pub map: Congee<u64, u64, Budget>,
}

impl MapShard for State {
    ghost use Rattle.node_table.specs.Charge.{budget_charge};
    ghost use Rattle.tree_edit.specs.TreeCalls.{IsChargeOf};

    ghost pairs = { λ s. s.map.pairs };

    ghost charges = { λ s. IsChargeOf s.map };

    ghost limit = { λ s. (budget_charge s.map.budget).limit };

    #[tactic(auto, using(crate::proofs::Moments::few_pairs))]
    fn pair_count(&self) -> u128 {
        self.map.law_ordered();
        self.map.value_count()
    }

    fn nearest(&self, near: Near) -> Option<(u64, u64)> {
        match near {
            Near::First => self.map.first(),
            Near::Last => self.map.last(),
            Near::Floor(key) => self.map.floor(&key),
            Near::Below(key) => self.map.below(&key),
            Near::Ceiling(key) => self.map.ceiling(&key),
            Near::Above(key) => self.map.above(&key),
        }
    }

    #[tactic(auto, using(crate::proofs::Limits::within))]
    fn charge(&self) -> u128 {
        // For the checker: that the nodes' sizes are within what the budget is charged.
        let _ = self.map.allocator();
        self.map.charged()
    }

    #[tactic(auto, using(crate::proofs::Limits::same_limit))]
    fn remove_key(&mut self, key: u64) {
        let _ = self.map.remove(&key);
    }

    #[tactic(auto, using(crate::proofs::Limits::same_limit))]
    fn clear(&mut self) {
        self.map.clear();
    }
}

impl<E: RangeEntry> Pages<E> for State {
    ghost entry = { E.entry };

    fn entry_of(key: u64, value: u64) -> E {
        E::from_pair(key, value)
    }

    fn page(&self, start: u64, last: u64, buffer: &mut [E]) -> usize {
        self.map.range_inclusive_of(start, last, buffer)
    }

    fn page_back(&self, start: u64, last: u64, buffer: &mut [E]) -> usize {
        self.map.range_descending_of(start, last, buffer)
    }
}

/// The locks of a shared map.
pub type MapLock = PartLock<State>;

/// A seat at them.
pub type MapSeat = PartSeat<State>;
