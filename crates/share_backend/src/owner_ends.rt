//! A map of owners that finds and removes pairs by their order, each in one step.
//!
//! Tested in `test_share_ends`.

ghost use Rattle.std.specs.Prelude.{◌≡◌, ℕ, length};
ghost use Rattle.std.specs.Arc.{arc_value};
ghost use Rattle.std.specs.Option.{option_map};
ghost use Rattle.spec_map.specs.Map.{Pairs, IsMap};
ghost use Rattle.spec_map.specs.Near.{first_of, last_of, floor_of, below_of, ceiling_of, above_of, without_pair};

use crate::snapshots::Owners;
use std::sync::Arc;

/// A map of owners that finds and removes pairs by their order. Clauses see the values that are owned.
pub trait OrderedOwners<V>: Owners<V> {
    ghost use Rattle.spec_map.specs.Map.{Pairs};

    // Its pairs.
    ghost pairs: { Self → Pairs V };

    /// The law that these pairs ascend, each key once, and that they alone are stored.
    fn law_contains(&self)
        ensures ordered { IsMap (pairs self.now) }
        ensures entries { Self.entries self.now ≡ length (pairs self.now) }
        ensures content { Self.content self.now (pairs self.now) }
        ensures only { (m : Pairs V) → Self.content self.now m → m ≡ pairs self.now };

    /// The pair with the least key.
    fn first(&self) -> Option<(u64, &Arc<V>)>
        ensures { option_map (λ lent. (lent.0, arc_value lent.1.now)) result
            ≡ first_of (pairs self.now) };

    /// The pair with the greatest key.
    fn last(&self) -> Option<(u64, &Arc<V>)>
        ensures { option_map (λ lent. (lent.0, arc_value lent.1.now)) result
            ≡ last_of (pairs self.now) };

    /// The pair with the greatest key that is at most this one.
    fn floor(&self, key: u64) -> Option<(u64, &Arc<V>)>
        ensures { option_map (λ lent. (lent.0, arc_value lent.1.now)) result
            ≡ floor_of (pairs self.now) key };

    /// The pair with the greatest key below this one.
    fn below(&self, key: u64) -> Option<(u64, &Arc<V>)>
        ensures { option_map (λ lent. (lent.0, arc_value lent.1.now)) result
            ≡ below_of (pairs self.now) key };

    /// The pair with the least key that is at least this one.
    fn ceiling(&self, key: u64) -> Option<(u64, &Arc<V>)>
        ensures { option_map (λ lent. (lent.0, arc_value lent.1.now)) result
            ≡ ceiling_of (pairs self.now) key };

    /// The pair with the least key above this one.
    fn above(&self, key: u64) -> Option<(u64, &Arc<V>)>
        ensures { option_map (λ lent. (lent.0, arc_value lent.1.now)) result
            ≡ above_of (pairs self.now) key };

    /// Removes the pair with the least key, and returns it.
    fn pop_first(&mut self) -> Option<(u64, Arc<V>)>
        ensures pair { option_map (λ pair. (pair.0, arc_value pair.1)) result
            ≡ first_of (pairs self.old) }
        ensures pairs { pairs self.new ≡ without_pair (pairs self.old) (first_of (pairs self.old)) }
        ensures places { (k : ℕ) → Self.place self.new k ≡ Self.place self.old k };

    /// Removes the pair with the greatest key, and returns it.
    fn pop_last(&mut self) -> Option<(u64, Arc<V>)>
        ensures pair { option_map (λ pair. (pair.0, arc_value pair.1)) result
            ≡ last_of (pairs self.old) }
        ensures pairs { pairs self.new ≡ without_pair (pairs self.old) (last_of (pairs self.old)) }
        ensures places { (k : ℕ) → Self.place self.new k ≡ Self.place self.old k };
}
