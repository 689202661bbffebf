//! Calls of `PayloadCongee` that remove many pairs.
//!
//! Tested in `test_owned/bulk`.

ghost use Rattle.std.specs.Prelude.{◌≡◌, [], ◌+◌, length};
ghost use Rattle.std.specs.List.{FoldsTo};
ghost use Rattle.congee_tree.specs.Bulk.{outside, Retains, CalledAtEntry};
ghost use Rattle.spec_map.specs.Map.{between};
ghost use Rattle.tree_edit.specs.Tree.{root_alone, ChargesForNodes};

use super::PayloadCongee;
use node_table::allocator::Allocator;
use spec_map::payload::Payload;
use spec_map::traits::Word;
use std::marker::PhantomData;
use tree_edit::receiver::{Asker, Receiver};

/// The way to a closure of keys and payloads: it is called with the keys that the numbers mean.
pub struct Keys<K> {
    of: PhantomData<K>,
}

impl<K: Word, P: Payload, F: FnMut(K, P)> Receiver<P, F> for Keys<K> {
    ghost step = { λ f pair next. F.step f (K.of_number pair.0) pair.1 tt next };

    ghost ready = { λ f. F.IsAlwaysCallable f };

    fn receive(f: &mut F, key: u64, payload: P) {
        f(K::from_u64(key), payload);
    }
}

impl<K: Word, P: Payload, F: FnMut(K, &P) -> bool> Asker<P, F> for Keys<K> {
    ghost step = { λ f pair stays next.
        CalledAtEntry F.FnMut f (K.of_number pair.0) pair.1 stays next };

    ghost ready = { λ f. F.IsAlwaysCallable f };

    fn ask(f: &mut F, key: u64, payload: &P) -> bool {
        f(K::from_u64(key), payload)
    }
}

impl<K: Word, P: Payload, A: Allocator> PayloadCongee<K, P, A> {
    /// Removes all pairs, and drops their payloads: the nodes of the map are those of a new one. Never fails. Frees node
    /// by node where the machine has memory for a new root beside the old one, which isn't charged. Else it reads one
    /// path for each pair.
    pub fn clear(&mut self)
        ensures pairs { self.new.pairs ≡ [] }
        ensures nodes { self.new.nodes ≡ root_alone }
        ensures charge { ChargesForNodes A.charge self.old self.new }
    {
        self.tree.clear();
    }

    /// Gives memory back to the machine that is held for nodes that are gone: moves those that are left into a smaller
    /// table, where it has memory for that. A removal does so once three quarters of a table are free. Never fails.
    pub fn shrink_to_fit(&mut self)
        ensures { self.new ≡ self.old }
    {
        self.tree.shrink_to_fit();
    }

    /// Removes the pairs with keys from `start` on and below `end`, each as `remove` does, drops their payloads, and
    /// returns how many they were: 2 to the 64 at most. Never fails. Reads two paths through the tree for each leaf
    /// among them, and one more.
    pub fn remove_range(&mut self, start: K, end: K) -> u128
        ensures count { result ≡ length (between self.old.pairs (K.number start) (K.number end)) }
        ensures pairs { self.new.pairs ≡ outside self.old.pairs (K.number start) (K.number end) }
        ensures charge { ChargesForNodes A.charge self.old self.new }
    {
        self.tree.remove_range(start.into_u64(), end.into_u64())
    }

    /// As `remove_range`, with the pair at `last` too, which can be the greatest key. Reads one more path.
    pub fn remove_range_inclusive(&mut self, start: K, last: K) -> u128
        ensures count { result
            ≡ length (between self.old.pairs (K.number start) (K.number last + 1)) }
        ensures pairs { self.new.pairs
            ≡ outside self.old.pairs (K.number start) (K.number last + 1) }
        ensures charge { ChargesForNodes A.charge self.old self.new }
    {
        self.tree
            .remove_range_inclusive(start.into_u64(), last.into_u64())
    }

    /// Removes the pairs with keys from `start` on and below `end`, each as `remove` does, and calls the closure with
    /// each, keys ascending, each key read back from its number. Never fails. Reads two paths through the tree for each
    /// leaf among them, and one more.
    pub fn extract_range<F: FnMut(K, P)>(&mut self, start: K, end: K, f: &mut F)
        requires { F.IsAlwaysCallable f.old }
        ensures calls { FoldsTo
            (λ state pair next. F.step state (K.of_number pair.0) pair.1 tt next)
            f.old (between self.old.pairs (K.number start) (K.number end)) f.new }
        ensures pairs { self.new.pairs ≡ outside self.old.pairs (K.number start) (K.number end) }
        ensures charge { ChargesForNodes A.charge self.old self.new }
    {
        let first = start.into_u64();
        let past = end.into_u64();
        self.tree.extract_range::<F, Keys<K>>(first, past, f);
    }

    /// Calls the closure with each pair, once, keys ascending, each key read back from its number, and removes those for
    /// which it returns false, each as `remove` does; their payloads are dropped. Never fails. Reads at most four paths
    /// through the tree for each leaf, and one beside them that is a dead end.
    pub fn retain<F: FnMut(K, &P) -> bool>(&mut self, f: &mut F)
        requires { F.IsAlwaysCallable f.old }
        ensures retains { Retains
            (λ state pair stays next.
            CalledAtEntry F.FnMut state (K.of_number pair.0) pair.1 stays next)
            f.old self.old.pairs self.new.pairs f.new }
        ensures charge { ChargesForNodes A.charge self.old self.new }
    {
        self.tree.retain::<F, Keys<K>>(f);
    }
}
