//! Calls of `U64Congee` that change many pairs.
//!
//! Tested in `test_owned/bulk`.

ghost use Rattle.std.specs.Prelude.{◌≡◌, ℕ, [], ◌+◌, length, take, IfErr, OnOk, slice_get, IsSomeAnd};
ghost use Rattle.std.specs.List.{FoldsTo};
ghost use Rattle.congee_tree.specs.Bulk.{outside, Retains, put_all};
ghost use Rattle.spec_map.specs.Map.{between};
ghost use Rattle.spec_map.specs.Refusal.{NeedsNode};
ghost use Rattle.tree_edit.specs.Tree.{root_alone, ChargesForNodes};

use super::U64Congee;
use face_typed::many::InsertManyError;
use node_table::allocator::Allocator;
use spec_map::traits::Word;

impl<V: Word, A: Allocator> U64Congee<V, A> {
    /// Removes all pairs: the nodes of the map are those of a new one. Never fails. Frees node by node where the machine
    /// has memory for a new root beside the old one, which isn't charged. Else it reads one path for each pair.
    pub fn clear(&mut self)
        ensures pairs { self.new.pairs ≡ [] }
        ensures nodes { self.new.nodes ≡ root_alone }
        ensures charge { ChargesForNodes A.charge self.old self.new }
    {
        self.map.clear();
    }

    /// Gives memory back to the machine that is held for nodes that are gone: moves those that are left into a smaller
    /// table, where it has memory for that. A removal does so once three quarters of a table are free. Never fails.
    pub fn shrink_to_fit(&mut self)
        ensures { self.new ≡ self.old }
    {
        self.map.shrink_to_fit();
    }

    /// Removes the pairs with keys from `start` on and below `end`, each as `remove` does, and returns how many: 2 to
    /// the 64 at most. Never fails. Reads two paths through the tree for each leaf among them, and one more.
    pub fn remove_range(&mut self, start: u64, end: u64) -> u128
        ensures count { result ≡ length (between self.old.pairs start end) }
        ensures pairs { self.new.pairs ≡ outside self.old.pairs start end }
        ensures charge { ChargesForNodes A.charge self.old self.new }
    {
        self.map.remove_range(&start, &end)
    }

    /// As `remove_range`, with the pair at `last` too, which can be the greatest key. Reads one more path.
    pub fn remove_range_inclusive(&mut self, start: u64, last: u64) -> u128
        ensures count { result ≡ length (between self.old.pairs start (last + 1)) }
        ensures pairs { self.new.pairs ≡ outside self.old.pairs start (last + 1) }
        ensures charge { ChargesForNodes A.charge self.old self.new }
    {
        self.map.remove_range_inclusive(&start, &last)
    }

    /// Removes the pairs with keys from `start` on and below `end`, each as `remove` does, and calls the closure with
    /// each, keys ascending, each value read back from its number. Never fails. Reads two paths through the tree for
    /// each of them, and one more.
    pub fn extract_range<F: FnMut(u64, V)>(&mut self, start: u64, end: u64, f: &mut F)
        requires { F.IsAlwaysCallable f.old }
        ensures calls { FoldsTo
            (λ state pair next. F.step state pair.0 (V.of_number pair.1) tt next)
            f.old (between self.old.pairs start end) f.new }
        ensures pairs { self.new.pairs ≡ outside self.old.pairs start end }
        ensures charge { ChargesForNodes A.charge self.old self.new }
    {
        self.map.extract_range(&start, &end, f);
    }

    /// Calls the closure with each pair by its numbers, once, keys ascending, and removes those for which it returns
    /// false, each as `remove` does. Never fails. Reads at most four paths through the tree for each leaf, and one beside
    /// them that is a dead end.
    pub fn retain<F: FnMut(u64, u64) -> bool>(&mut self, f: &mut F)
        requires { F.IsAlwaysCallable f.old }
        ensures retains { Retains
            (λ state pair stays next. F.step state pair.0 pair.1 stays next)
            f.old self.old.pairs self.new.pairs f.new }
        ensures charge { ChargesForNodes A.charge self.old self.new }
    {
        self.map.retain(f);
    }

    /// Inserts the pairs in their order, so of two with one key the later one counts. Where memory is missing for one of
    /// them, those before it are in the map, and the error has their number; the rest is left out, and may be inserted
    /// again from there. Each pair costs what `insert` costs.
    pub fn insert_many(&mut self, pairs: &[(u64, V)]) -> Result<(), InsertManyError>
        ensures ok { OnOk result
            (self.new.pairs ≡ put_all (λ key. key) V.number self.old.pairs pairs.now) }
        ensures err { IfErr result (λ error. self.new.pairs
            ≡ put_all (λ key. key) V.number self.old.pairs (take error.inserted pairs.now)) }
        ensures refused { IfErr result (λ error. IsSomeAnd (slice_get pairs.now error.inserted)
            (λ pair. NeedsNode self.new.pairs pair.0)) }
        ensures charge { ChargesForNodes A.charge self.old self.new }
    {
        self.map.insert_many(pairs)
    }
}
