//! A map of numbers that finds and removes pairs by their order, each in one step.
//!
//! Tested in `test_share_ends`.

ghost use Rattle.std.specs.Prelude.{◌≡◌, ◌+◌, ◌<◌, ◌++◌, ℕ, [], length, map, min, take, drop, reverse, OnOk, IfErr};
ghost use Rattle.std.specs.List.{FoldsTo};
ghost use Rattle.congee_tree.specs.Bulk.{outside, put_all, Retains};
ghost use Rattle.spec_map.specs.Map.{Pairs, IsMap, between};
ghost use Rattle.spec_map.specs.Near.{first_of, last_of, floor_of, below_of, ceiling_of, above_of, without_pair};

use crate::ascending::Ascending;
use spec_map::traits::Word;
use tree_walk::range_scan::RangeEntry;

/// A map of numbers that finds and removes pairs by their order.
pub trait Ordered: Ascending {
    ghost use Rattle.std.specs.Prelude.{ℕ};
    ghost use Rattle.spec_map.specs.Map.{Pairs};

    // Its pairs.
    ghost pairs: { Self → Pairs ℕ };

    /// The law that these pairs ascend, each key once, and that they alone are stored.
    fn law_contains(&self)
        ensures ordered { IsMap (pairs self.now) }
        ensures entries { Self.entries self.now ≡ length (pairs self.now) }
        ensures content { Self.content self.now (pairs self.now) }
        ensures only { (m : Pairs ℕ) → Self.content self.now m → m ≡ pairs self.now };

    /// The pair with the least key.
    fn first(&self) -> Option<(u64, u64)>
        ensures { result ≡ first_of (pairs self.now) };

    /// The pair with the greatest key.
    fn last(&self) -> Option<(u64, u64)>
        ensures { result ≡ last_of (pairs self.now) };

    /// The pair with the greatest key that is at most this one.
    fn floor(&self, key: u64) -> Option<(u64, u64)>
        ensures { result ≡ floor_of (pairs self.now) key };

    /// The pair with the greatest key below this one.
    fn below(&self, key: u64) -> Option<(u64, u64)>
        ensures { result ≡ below_of (pairs self.now) key };

    /// The pair with the least key that is at least this one.
    fn ceiling(&self, key: u64) -> Option<(u64, u64)>
        ensures { result ≡ ceiling_of (pairs self.now) key };

    /// The pair with the least key above this one.
    fn above(&self, key: u64) -> Option<(u64, u64)>
        ensures { result ≡ above_of (pairs self.now) key };

    /// Writes the first pairs with `start <= key < end` to the buffer, ascending, and returns how many. The places after
    /// them stay unchanged.
    fn pairs_from<E: RangeEntry>(&self, start: u64, end: u64, buffer: &mut [E]) -> usize
        ensures count { result
            ≡ min (length buffer.old) (length (between (pairs self.now) start end)) }
        ensures written { let found = between (pairs self.now) start end in
            let entries = map (λ pair. E.entry pair.0 pair.1) found in
            buffer.new ≡ take result entries ++ drop result buffer.old };

    /// Writes the first pairs with `start <= key <= last` to the buffer, ascending, and returns how many. The places
    /// after them stay unchanged.
    fn pairs_to<E: RangeEntry>(&self, start: u64, last: u64, buffer: &mut [E]) -> usize
        ensures count { result
            ≡ min (length buffer.old) (length (between (pairs self.now) start (last + 1))) }
        ensures written { let found = between (pairs self.now) start (last + 1) in
            let entries = map (λ pair. E.entry pair.0 pair.1) found in
            buffer.new ≡ take result entries ++ drop result buffer.old };

    /// Writes the last pairs with `start <= key <= last` to the buffer, descending.
    fn pairs_down<E: RangeEntry>(&self, start: u64, last: u64, buffer: &mut [E]) -> usize
        ensures count { result
            ≡ min (length buffer.old) (length (between (pairs self.now) start (last + 1))) }
        ensures written { let found = reverse (between (pairs self.now) start (last + 1)) in
            let entries = map (λ pair. E.entry pair.0 pair.1) found in
            buffer.new ≡ take result entries ++ drop result buffer.old };

    /// Removes the pair with the least key, and returns it.
    fn pop_first(&mut self) -> Option<(u64, u64)>
        ensures pair { result ≡ first_of (pairs self.old) }
        ensures pairs { pairs self.new ≡ without_pair (pairs self.old) (first_of (pairs self.old)) }
        ensures places { (k : ℕ) → Self.place self.new k ≡ Self.place self.old k };

    /// Removes the pair with the greatest key, and returns it.
    fn pop_last(&mut self) -> Option<(u64, u64)>
        ensures pair { result ≡ last_of (pairs self.old) }
        ensures pairs { pairs self.new ≡ without_pair (pairs self.old) (last_of (pairs self.old)) }
        ensures places { (k : ℕ) → Self.place self.new k ≡ Self.place self.old k };

    /// Inserts the pairs in their order, so of two with one key the later one counts. Where memory is missing for one of
    /// them, those before it are in the map, and `Err` has their number.
    fn insert_many<K: Word, V: Word>(&mut self, many: &[(K, V)]) -> Result<(), usize>
        ensures ok { OnOk result
            (pairs self.new ≡ put_all K.number V.number (pairs self.old) many.now) }
        ensures err { IfErr result (λ inserted. (inserted < length many.now)
            × (pairs self.new ≡ put_all K.number V.number (pairs self.old)
            (take inserted many.now))) }
        ensures places { (k : ℕ) → Self.place self.new k ≡ Self.place self.old k };

    /// Removes all pairs.
    fn clear(&mut self)
        ensures pairs { pairs self.new ≡ [] }
        ensures places { (k : ℕ) → Self.place self.new k ≡ Self.place self.old k };

    /// Removes the pairs with `start <= key < end`, and returns how many.
    fn remove_range(&mut self, start: u64, end: u64) -> u128
        ensures count { result ≡ length (between (pairs self.old) start end) }
        ensures pairs { pairs self.new ≡ outside (pairs self.old) start end }
        ensures places { (k : ℕ) → Self.place self.new k ≡ Self.place self.old k };

    /// Removes the pairs with `start <= key <= last`, and returns how many.
    fn remove_range_inclusive(&mut self, start: u64, last: u64) -> u128
        ensures count { result ≡ length (between (pairs self.old) start (last + 1)) }
        ensures pairs { pairs self.new ≡ outside (pairs self.old) start (last + 1) }
        ensures places { (k : ℕ) → Self.place self.new k ≡ Self.place self.old k };

    /// Removes the pairs with `start <= key < end`, and calls the closure with each once, keys ascending.
    fn extract_range<F: FnMut(u64, u64)>(&mut self, start: u64, end: u64, f: &mut F)
        requires { F.IsAlwaysCallable f.old }
        ensures callable { F.IsAlwaysCallable f.new }
        ensures calls { FoldsTo (λ state pair next. F.step state pair.0 pair.1 tt next)
            f.old (between (pairs self.old) start end) f.new }
        ensures pairs { pairs self.new ≡ outside (pairs self.old) start end }
        ensures places { (k : ℕ) → Self.place self.new k ≡ Self.place self.old k };

    /// Asks the closure about each pair once, keys ascending, and removes those for which it returns false.
    fn retain<F: FnMut(u64, u64) -> bool>(&mut self, f: &mut F)
        requires { F.IsAlwaysCallable f.old }
        ensures callable { F.IsAlwaysCallable f.new }
        ensures retains { Retains (λ state pair stays next. F.step state pair.0 pair.1 stays next)
            f.old (pairs self.old) (pairs self.new) f.new }
        ensures places { (k : ℕ) → Self.place self.new k ≡ Self.place self.old k };
}
