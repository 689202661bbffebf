//! An ordered map of numbers under a lock, as the work of a hold sees it.
//!
//! Tested in `tools/c-library` and `test_share_ends`.

ghost use Rattle.std.specs.Prelude.{◌≡◌, ◌+◌, ℕ, [], length, reverse};
ghost use Rattle.congee_tree.specs.Bulk.{outside};
ghost use Rattle.spec_map.specs.Map.{Pairs, IsMap, between};
ghost use Rattle.spec_map.specs.Near.{first_of, last_of, pair_near, without_pair};
ghost use Rattle.share_works.specs.Ends.{near_of};
ghost use Rattle.share_works.specs.inner.Written.{AreWritten};

use crate::near::Near;
use share_rule::rule::Protected;
use tree_walk::range_scan::RangeEntry;

/// A value under a lock that is an ordered map of numbers. `N` is what it knows of a number of a caller.
pub trait MapState<N>: Protected<u64, N> {
    ghost use Rattle.std.specs.Prelude.{ℕ};
    ghost use Rattle.spec_map.specs.Map.{Pairs};

    // Its pairs.
    ghost pairs: { Self → Pairs ℕ };

    /// The law that these pairs ascend, each key once, and that it contains them and nothing else.
    fn law_contains(&self)
        ensures ordered { IsMap (pairs self.now) }
        ensures content { Self.content self.now (pairs self.now) }
        ensures only { (m : Pairs ℕ) → Self.content self.now m → m ≡ pairs self.now };

    /// How many pairs there are.
    fn pair_count(&self) -> u128
        ensures { result ≡ length (pairs self.now) };

    /// The pair there.
    fn nearest(&self, near: Near) -> Option<(u64, u64)>
        ensures { result ≡ pair_near (pairs self.now) (near_of near) };

    /// Writes the first pairs with keys from `start` on and below `end` to the buffer, ascending.
    fn page<E: RangeEntry>(&self, start: u64, end: u64, buffer: &mut [E]) -> usize
        ensures { AreWritten E.entry (between (pairs self.now) start end)
            buffer.old result buffer.new };

    /// Writes the first pairs with keys from `start` on and up to `last` to the buffer, ascending.
    fn page_inclusive<E: RangeEntry>(&self, start: u64, last: u64, buffer: &mut [E]) -> usize
        ensures { AreWritten E.entry (between (pairs self.now) start (last + 1))
            buffer.old result buffer.new };

    /// Writes the last pairs with keys from `start` to `last` to the buffer, descending.
    fn page_descending<E: RangeEntry>(&self, start: u64, last: u64, buffer: &mut [E]) -> usize
        ensures { AreWritten E.entry (reverse (between (pairs self.now) start (last + 1)))
            buffer.old result buffer.new };

    /// Removes the pair with the least key.
    fn pop_first(&mut self) -> Option<(u64, u64)>
        ensures pair { result ≡ first_of (pairs self.old) }
        ensures pairs { pairs self.new ≡ without_pair (pairs self.old) (first_of (pairs self.old)) }
        ensures places { (k : ℕ) → Self.place self.new k ≡ Self.place self.old k };

    /// Removes the pair with the greatest key.
    fn pop_last(&mut self) -> Option<(u64, u64)>
        ensures pair { result ≡ last_of (pairs self.old) }
        ensures pairs { pairs self.new ≡ without_pair (pairs self.old) (last_of (pairs self.old)) }
        ensures places { (k : ℕ) → Self.place self.new k ≡ Self.place self.old k };

    /// Removes all pairs.
    fn clear(&mut self)
        ensures pairs { pairs self.new ≡ [] }
        ensures places { (k : ℕ) → Self.place self.new k ≡ Self.place self.old k };

    /// Removes the pairs with keys from `start` on and below `end`, and returns how many.
    fn remove_range(&mut self, start: u64, end: u64) -> u128
        ensures count { result ≡ length (between (pairs self.old) start end) }
        ensures pairs { pairs self.new ≡ outside (pairs self.old) start end }
        ensures places { (k : ℕ) → Self.place self.new k ≡ Self.place self.old k };
}
