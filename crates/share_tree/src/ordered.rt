//! The ends of a tree with its seats, the neighbours of a key, ranges both ways, and the removal of pairs by their order.
//!
//! Tested in `test_share_ends`.

ghost use Rattle.std.specs.Prelude.{◌≡◌, ◌+◌, ◌<◌, [], length, take, OnOk, IfErr};
ghost use Rattle.std.specs.List.{FoldsTo};
ghost use Rattle.std.specs.Option.{option_map};
ghost use Rattle.congee_tree.specs.Bulk.{outside, put_all, Retains};
ghost use Rattle.spec_map.specs.Map.{between};
ghost use Rattle.spec_map.specs.Near.{first_of, last_of, without_pair};

use crate::direct::Direct;
use congee_tree::tree::RawCongee;
use node_table::allocator::Allocator;
use share_backend::ordered::Ordered;
use spec_map::traits::Word;
use spec_olc::payload::HasMeaning;
use tree_walk::range_scan::RangeEntry;

impl<P: HasMeaning, A: Allocator> Direct<P, A> {
    /// Removes the pair with the least key.
    pub(crate) fn take_first(&mut self) -> Option<(u64, P)>
        ensures pair { result ≡ first_of self.old.pairs }
        ensures pairs { self.new.pairs ≡ without_pair self.old.pairs (first_of self.old.pairs) }
        ensures seats { self.new.seats ≡ self.old.seats }
    {
        self.tree.pop_first()
    }

    /// Removes the pair with the greatest key.
    pub(crate) fn take_last(&mut self) -> Option<(u64, P)>
        ensures pair { result ≡ last_of self.old.pairs }
        ensures pairs { self.new.pairs ≡ without_pair self.old.pairs (last_of self.old.pairs) }
        ensures seats { self.new.seats ≡ self.old.seats }
    {
        self.tree.pop_last()
    }

    /// Removes all pairs.
    pub(crate) fn take_all(&mut self)
        ensures pairs { self.new.pairs ≡ [] }
        ensures seats { self.new.seats ≡ self.old.seats }
    {
        self.tree.clear();
    }

    /// Removes the pairs with `start <= key < end`, and returns how many.
    pub(crate) fn take_range(&mut self, start: u64, end: u64) -> u128
        ensures count { result ≡ length (between self.old.pairs start end) }
        ensures pairs { self.new.pairs ≡ outside self.old.pairs start end }
        ensures seats { self.new.seats ≡ self.old.seats }
    {
        self.tree.remove_range(start, end)
    }

    /// Removes the pairs with `start <= key <= last`, and returns how many.
    pub(crate) fn take_range_inclusive(&mut self, start: u64, last: u64) -> u128
        ensures count { result ≡ length (between self.old.pairs start (last + 1)) }
        ensures pairs { self.new.pairs ≡ outside self.old.pairs start (last + 1) }
        ensures seats { self.new.seats ≡ self.old.seats }
    {
        self.tree.remove_range_inclusive(start, last)
    }

    /// The tree with one owner. The seats are gone.
    pub fn into_tree(self) -> RawCongee<P, A>
        ensures { result.pairs ≡ self.pairs }
    {
        self.tree.into_tree()
    }
}

impl<A: Allocator> Direct<u64, A> {
    /// Inserts the pairs in their order. Where memory is missing for one of them, those before it are in the tree, and
    /// `Err` has their number.
    pub(crate) fn put_many<K: Word, V: Word>(&mut self, many: &[(K, V)]) -> Result<(), usize>
        ensures ok { OnOk result
            (self.new.pairs ≡ put_all K.number V.number self.old.pairs many.now) }
        ensures err { IfErr result (λ inserted. (inserted < length many.now)
            × (self.new.pairs ≡ put_all K.number V.number self.old.pairs
            (take inserted many.now))) }
        ensures seats { self.new.seats ≡ self.old.seats }
    {
        self.tree.insert_many(many)
    }

    /// Removes the pairs with `start <= key < end`, and calls the closure with each, keys ascending.
    pub(crate) fn take_each<F: FnMut(u64, u64)>(&mut self, start: u64, end: u64, f: &mut F)
        requires { F.IsAlwaysCallable f.old }
        ensures callable { F.IsAlwaysCallable f.new }
        ensures calls { FoldsTo (λ state pair next. F.step state pair.0 pair.1 tt next)
            f.old (between self.old.pairs start end) f.new }
        ensures pairs { self.new.pairs ≡ outside self.old.pairs start end }
        ensures seats { self.new.seats ≡ self.old.seats }
    {
        self.tree.extract_range(start, end, f);
    }

    /// Asks the closure about each pair once, keys ascending, and removes those for which it returns false.
    pub(crate) fn take_unless<F: FnMut(u64, u64) -> bool>(&mut self, f: &mut F)
        requires { F.IsAlwaysCallable f.old }
        ensures callable { F.IsAlwaysCallable f.new }
        ensures retains { Retains (λ state pair stays next. F.step state pair.0 pair.1 stays next)
            f.old self.old.pairs self.new.pairs f.new }
        ensures seats { self.new.seats ≡ self.old.seats }
    {
        self.tree.retain(f);
    }
}

// The pair itself, if one was found.
fn copied(found: Option<(u64, &u64)>) -> Option<(u64, u64)>
    ensures { result ≡ option_map (λ lent. (lent.0, lent.1.now)) found.entry }
{
    let (key, number) = found?;
    Some((key, *number))
}

impl<A: Allocator> Ordered for Direct<u64, A> {
    ghost pairs = { λ d. d.pairs };

    fn law_contains(&self) {
        self.tree.is_ordered();
    }

    fn first(&self) -> Option<(u64, u64)> {
        copied(self.tree.tree().first())
    }

    fn last(&self) -> Option<(u64, u64)> {
        copied(self.tree.tree().last())
    }

    fn floor(&self, key: u64) -> Option<(u64, u64)> {
        copied(self.tree.tree().floor(key))
    }

    fn below(&self, key: u64) -> Option<(u64, u64)> {
        copied(self.tree.tree().below(key))
    }

    fn ceiling(&self, key: u64) -> Option<(u64, u64)> {
        copied(self.tree.tree().ceiling(key))
    }

    fn above(&self, key: u64) -> Option<(u64, u64)> {
        copied(self.tree.tree().above(key))
    }

    fn pairs_from<E: RangeEntry>(&self, start: u64, end: u64, buffer: &mut [E]) -> usize {
        self.page_of(start, end, buffer)
    }

    fn pairs_to<E: RangeEntry>(&self, start: u64, last: u64, buffer: &mut [E]) -> usize {
        self.tree.tree().range_inclusive(start, last, buffer)
    }

    fn pairs_down<E: RangeEntry>(&self, start: u64, last: u64, buffer: &mut [E]) -> usize {
        self.tree.tree().range_descending(start, last, buffer)
    }

    fn pop_first(&mut self) -> Option<(u64, u64)> {
        self.take_first()
    }

    fn pop_last(&mut self) -> Option<(u64, u64)> {
        self.take_last()
    }

    fn insert_many<K: Word, V: Word>(&mut self, many: &[(K, V)]) -> Result<(), usize> {
        self.put_many(many)
    }

    fn clear(&mut self) {
        self.take_all();
    }

    fn remove_range(&mut self, start: u64, end: u64) -> u128 {
        self.take_range(start, end)
    }

    fn remove_range_inclusive(&mut self, start: u64, last: u64) -> u128 {
        self.take_range_inclusive(start, last)
    }

    fn extract_range<F: FnMut(u64, u64)>(&mut self, start: u64, end: u64, f: &mut F) {
        self.take_each(start, end, f);
    }

    fn retain<F: FnMut(u64, u64) -> bool>(&mut self, f: &mut F) {
        self.take_unless(f);
    }
}
