//! The ends of a tree of owners with its seats, the neighbours of a key, and pops.
//!
//! Tested in `test_share_ends`.

use crate::direct::Direct;
use node_table::allocator::Allocator;
use share_backend::owner_ends::OrderedOwners;
use std::sync::Arc;

impl<V: Drop, A: Allocator> OrderedOwners<V> for Direct<Arc<V>, A> {
    ghost use Rattle.std.specs.Arc.{arc_value};
    ghost use Rattle.node_table.specs.inner.Kinds.{mapped};

    ghost pairs = { λ d. mapped (λ owner. arc_value owner) d.pairs };

    #[tactic(auto, using(crate::proofs::Mapped::length_mapped))]
    fn law_contains(&self) {
        self.tree.is_ordered();
    }

    fn first(&self) -> Option<(u64, &Arc<V>)> {
        self.tree.tree().first()
    }

    fn last(&self) -> Option<(u64, &Arc<V>)> {
        self.tree.tree().last()
    }

    fn floor(&self, key: u64) -> Option<(u64, &Arc<V>)> {
        self.tree.tree().floor(key)
    }

    fn below(&self, key: u64) -> Option<(u64, &Arc<V>)> {
        self.tree.tree().below(key)
    }

    fn ceiling(&self, key: u64) -> Option<(u64, &Arc<V>)> {
        self.tree.tree().ceiling(key)
    }

    fn above(&self, key: u64) -> Option<(u64, &Arc<V>)> {
        self.tree.tree().above(key)
    }

    fn pop_first(&mut self) -> Option<(u64, Arc<V>)> {
        self.take_first()
    }

    fn pop_last(&mut self) -> Option<(u64, Arc<V>)> {
        self.take_last()
    }
}
