//! The ends of a map, and the neighbours of a key: each call returns a pair, or `None` where the map has none.
//!
//! Keys are in the order of their numbers. No call fails. Each reads one path through the tree, and beside it at most one
//! that is a dead end: that of the key which is asked for. It takes no memory; a pop is a removal besides, which may take
//! some for a smaller node.
//!
//! Tested in `test_owned/neighbours`.

ghost use Rattle.std.specs.Prelude.{◌≡◌, ℕ, Option};
ghost use Rattle.std.specs.Option.{option_map};
ghost use Rattle.spec_map.specs.Near.{first_of, last_of, floor_of, below_of, ceiling_of, above_of, without_pair};
ghost use Rattle.tree_edit.specs.Tree.{ChargesForNodes};

use super::Congee;
use node_table::allocator::Allocator;
use spec_map::traits::{Drainer, Word};

impl<K: Word, V: Word, A: Allocator, D: Drainer<K, V>> Congee<K, V, A, D> {
    /// The pair with the least key, each read back from its number.
    pub fn first(&self) -> Option<(K, V)>
        ensures { result ≡ option_map (λ pair. (K.of_number pair.0, V.of_number pair.1))
            (first_of self.now.pairs) }
    {
        read_back(self.tree.first())
    }

    /// The pair with the greatest key, each read back from its number.
    pub fn last(&self) -> Option<(K, V)>
        ensures { result ≡ option_map (λ pair. (K.of_number pair.0, V.of_number pair.1))
            (last_of self.now.pairs) }
    {
        read_back(self.tree.last())
    }

    /// The pair with the greatest key that is at most this one, each read back from its number.
    pub fn floor(&self, key: &K) -> Option<(K, V)>
        ensures { result ≡ option_map (λ pair. (K.of_number pair.0, V.of_number pair.1))
            (floor_of self.now.pairs (K.number key.now)) }
    {
        read_back(self.tree.floor(key.into_u64()))
    }

    /// The pair with the least key that is at least this one, each read back from its number.
    pub fn ceiling(&self, key: &K) -> Option<(K, V)>
        ensures { result ≡ option_map (λ pair. (K.of_number pair.0, V.of_number pair.1))
            (ceiling_of self.now.pairs (K.number key.now)) }
    {
        read_back(self.tree.ceiling(key.into_u64()))
    }

    /// The pair with the greatest key below this one, each read back from its number.
    pub fn below(&self, key: &K) -> Option<(K, V)>
        ensures { result ≡ option_map (λ pair. (K.of_number pair.0, V.of_number pair.1))
            (below_of self.now.pairs (K.number key.now)) }
    {
        read_back(self.tree.below(key.into_u64()))
    }

    /// The pair with the least key above this one, each read back from its number.
    pub fn above(&self, key: &K) -> Option<(K, V)>
        ensures { result ≡ option_map (λ pair. (K.of_number pair.0, V.of_number pair.1))
            (above_of self.now.pairs (K.number key.now)) }
    {
        read_back(self.tree.above(key.into_u64()))
    }

    /// Removes the pair with the least key, and returns it, each read back from its number. Never fails.
    pub fn pop_first(&mut self) -> Option<(K, V)>
        ensures pair { result ≡ option_map (λ pair. (K.of_number pair.0, V.of_number pair.1))
            (first_of self.old.pairs) }
        ensures pairs { self.new.pairs ≡ without_pair self.old.pairs (first_of self.old.pairs) }
        ensures charge { ChargesForNodes A.charge self.old self.new }
    {
        let (key, number) = self.tree.pop_first()?;
        Some((K::from_u64(key), V::from_u64(number)))
    }

    /// Removes the pair with the greatest key, and returns it, each read back from its number. Never fails.
    pub fn pop_last(&mut self) -> Option<(K, V)>
        ensures pair { result ≡ option_map (λ pair. (K.of_number pair.0, V.of_number pair.1))
            (last_of self.old.pairs) }
        ensures pairs { self.new.pairs ≡ without_pair self.old.pairs (last_of self.old.pairs) }
        ensures charge { ChargesForNodes A.charge self.old self.new }
    {
        let (key, number) = self.tree.pop_last()?;
        Some((K::from_u64(key), V::from_u64(number)))
    }
}

// The pair that two numbers are read back as, if there is one.
fn read_back<K: Word, V: Word>(found: Option<(u64, &u64)>) -> Option<(K, V)>
    ensures { let pair : Option (ℕ × ℕ) = option_map (λ lent. (lent.0, lent.1.now)) found.entry in
        result ≡ option_map (λ pair. (K.of_number pair.0, V.of_number pair.1)) pair }
{
    let (key, number) = found?;
    Some((K::from_u64(key), V::from_u64(*number)))
}
