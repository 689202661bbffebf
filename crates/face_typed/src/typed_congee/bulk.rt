//! Calls of `Congee` that change many pairs.
//!
//! Tested in `test_owned/bulk`.

ghost use Rattle.std.specs.Prelude.{◌≡◌, ℕ, [], ◌+◌, ◌<◌, length, take, fold, IfOk, IfErr, OnOk, slice_get, IsSomeAnd};
ghost use Rattle.std.specs.List.{FoldsTo};
ghost use Rattle.congee_tree.specs.Bulk.{outside, Retains, put_all};
ghost use Rattle.spec_map.specs.Map.{Pairs, put, between};
ghost use Rattle.spec_map.specs.Refusal.{NeedsNode};
ghost use Rattle.tree_edit.specs.Tree.{root_alone, ChargesForNodes};

use super::Congee;
use crate::many::InsertManyError;
use node_table::allocator::Allocator;
use spec_map::traits::{Drainer, Word};
use std::marker::PhantomData;
use tree_edit::receiver::{Asker, Receiver};

/// The way to a closure of keys and values: it is called with those that the numbers mean.
pub struct Numbers<K, V> {
    of: PhantomData<(K, V)>,
}

impl<K: Word, V: Word, F: FnMut(K, V)> Receiver<u64, F> for Numbers<K, V> {
    ghost step = { λ f pair next. F.step f (K.of_number pair.0) (V.of_number pair.1) tt next };

    ghost ready = { λ f. F.IsAlwaysCallable f };

    fn receive(f: &mut F, key: u64, number: u64) {
        f(K::from_u64(key), V::from_u64(number));
    }
}

/// The way to a closure of numbers that is asked about pairs.
pub struct Asked {}

impl<F: FnMut(u64, u64) -> bool> Asker<u64, F> for Asked {
    ghost step = { λ f pair stays next. F.step f pair.0 pair.1 stays next };

    ghost ready = { λ f. F.IsAlwaysCallable f };

    fn ask(f: &mut F, key: u64, number: &u64) -> bool {
        f(key, *number)
    }
}

impl<K: Word, V: Word, A: Allocator, D: Drainer<K, V>> Congee<K, V, A, D> {
    /// Removes all pairs: the nodes of the map are those of a new one. Its drainer isn't called, now or later, since a
    /// pair that is removed is none that is left. Never fails. Frees node by node where the machine has memory for a new
    /// root beside the old one, which isn't charged. Else it reads one path through the tree for each pair.
    pub fn clear(&mut self)
        ensures pairs { self.new.pairs ≡ [] }
        ensures nodes { self.new.nodes ≡ root_alone }
        ensures charge { ChargesForNodes A.charge self.old self.new }
    {
        self.tree.clear();
    }

    /// Gives memory back to the machine that is held for nodes that are gone: moves those that are left into a smaller
    /// table, where it has memory for that. A removal does so once three quarters of a table are free. Never fails.
    pub fn shrink_to_fit(&mut self)
        ensures { self.new ≡ self.old }
    {
        self.tree.shrink_to_fit();
    }

    /// Removes the pairs with keys from `start` on and below `end`, each as `remove` does, and returns how many: 2 to
    /// the 64 at most. Never fails. Reads two paths through the tree for each leaf among them, and one more.
    pub fn remove_range(&mut self, start: &K, end: &K) -> u128
        ensures count { result
            ≡ length (between self.old.pairs (K.number start.now) (K.number end.now)) }
        ensures pairs { self.new.pairs
            ≡ outside self.old.pairs (K.number start.now) (K.number end.now) }
        ensures charge { ChargesForNodes A.charge self.old self.new }
    {
        self.tree.remove_range(start.into_u64(), end.into_u64())
    }

    /// As `remove_range`, with the pair at `last` too, which can be the greatest key. Reads one more path.
    pub fn remove_range_inclusive(&mut self, start: &K, last: &K) -> u128
        ensures count { result
            ≡ length (between self.old.pairs (K.number start.now) (K.number last.now + 1)) }
        ensures pairs { self.new.pairs
            ≡ outside self.old.pairs (K.number start.now) (K.number last.now + 1) }
        ensures charge { ChargesForNodes A.charge self.old self.new }
    {
        self.tree
            .remove_range_inclusive(start.into_u64(), last.into_u64())
    }

    /// Removes the pairs with keys from `start` on and below `end`, each as `remove` does, and calls the closure with
    /// each, keys ascending, each key and value read back from its number. Never fails. Reads two paths through the
    /// tree for each leaf among them, and one more.
    pub fn extract_range<F: FnMut(K, V)>(&mut self, start: &K, end: &K, f: &mut F)
        requires { F.IsAlwaysCallable f.old }
        ensures calls { FoldsTo
            (λ state pair next. F.step state (K.of_number pair.0) (V.of_number pair.1) tt next)
            f.old (between self.old.pairs (K.number start.now) (K.number end.now)) f.new }
        ensures pairs { self.new.pairs
            ≡ outside self.old.pairs (K.number start.now) (K.number end.now) }
        ensures charge { ChargesForNodes A.charge self.old self.new }
    {
        let first = start.into_u64();
        let past = end.into_u64();
        self.tree.extract_range::<F, Numbers<K, V>>(first, past, f);
    }

    /// Calls the closure with each pair by its numbers, once, keys ascending, and removes those for which it returns
    /// false, each as `remove` does. Never fails. Reads at most four paths through the tree for each leaf, and one beside
    /// them that is a dead end.
    pub fn retain<F: FnMut(u64, u64) -> bool>(&mut self, f: &mut F)
        requires { F.IsAlwaysCallable f.old }
        ensures retains { Retains
            (λ state pair stays next. F.step state pair.0 pair.1 stays next)
            f.old self.old.pairs self.new.pairs f.new }
        ensures charge { ChargesForNodes A.charge self.old self.new }
    {
        self.tree.retain::<F, Asked>(f);
    }

    /// Inserts the pairs in their order, so of two with one key the later one counts. Where memory is missing for one of
    /// them, those before it are in the map, and the error has their number; the rest is left out, and may be inserted
    /// again from there. Each pair costs what `insert` costs, and less where the pair before went into the same leaf.
    pub fn insert_many(&mut self, pairs: &[(K, V)]) -> Result<(), InsertManyError>
        ensures ok { OnOk result
            (self.new.pairs ≡ put_all K.number V.number self.old.pairs pairs.now) }
        ensures err { IfErr result (λ error. self.new.pairs
            ≡ put_all K.number V.number self.old.pairs (take error.inserted pairs.now)) }
        ensures refused { IfErr result (λ error. IsSomeAnd (slice_get pairs.now error.inserted)
            (λ pair. NeedsNode self.new.pairs (K.number pair.0))) }
        ensures charge { ChargesForNodes A.charge self.old self.new }
    {
        match self.tree.insert_many(pairs) {
            Ok(()) => Ok(()),
            Err(inserted) => Err(InsertManyError { inserted }),
        }
    }

    /// As `insert_many`, by the numbers of keys and values.
    pub fn insert_numbers(&mut self, pairs: &[(u64, u64)]) -> Result<(), InsertManyError>
        ensures ok { OnOk result
            (self.new.pairs ≡ put_all (λ key. key) (λ value. value) self.old.pairs pairs.now) }
        ensures err { IfErr result (λ error. self.new.pairs
            ≡ put_all (λ key. key) (λ value. value) self.old.pairs (take error.inserted pairs.now)) }
        ensures refused { IfErr result (λ error. IsSomeAnd (slice_get pairs.now error.inserted)
            (λ pair. NeedsNode self.new.pairs pair.0)) }
        ensures charge { ChargesForNodes A.charge self.old self.new }
    {
        if let Err(inserted) = self.tree.insert_many(pairs) {
            return Err(InsertManyError { inserted });
        }
        Ok(())
    }
}
