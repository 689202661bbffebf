//! The ends of a map of numbers, and the neighbours of a key: those of `Congee`.
//!
//! Tested in `test_owned/neighbours`.

ghost use Rattle.std.specs.Prelude.{◌≡◌};
ghost use Rattle.std.specs.Option.{option_map};
ghost use Rattle.spec_map.specs.Near.{first_of, last_of, floor_of, below_of, ceiling_of, above_of, without_pair};
ghost use Rattle.tree_edit.specs.Tree.{ChargesForNodes};

use super::U64Congee;
use node_table::allocator::Allocator;
use spec_map::traits::Word;

impl<V: Word, A: Allocator> U64Congee<V, A> {
    /// The pair with the least key, the value read back from its number.
    pub fn first(&self) -> Option<(u64, V)>
        ensures { result ≡ option_map (λ pair. (pair.0, V.of_number pair.1))
            (first_of self.now.pairs) }
    {
        self.map.first()
    }

    /// The pair with the greatest key, the value read back from its number.
    pub fn last(&self) -> Option<(u64, V)>
        ensures { result ≡ option_map (λ pair. (pair.0, V.of_number pair.1))
            (last_of self.now.pairs) }
    {
        self.map.last()
    }

    /// The pair with the greatest key that is at most this one, the value read back from its number.
    pub fn floor(&self, key: u64) -> Option<(u64, V)>
        ensures { result ≡ option_map (λ pair. (pair.0, V.of_number pair.1))
            (floor_of self.now.pairs key) }
    {
        self.map.floor(&key)
    }

    /// The pair with the least key that is at least this one, the value read back from its number.
    pub fn ceiling(&self, key: u64) -> Option<(u64, V)>
        ensures { result ≡ option_map (λ pair. (pair.0, V.of_number pair.1))
            (ceiling_of self.now.pairs key) }
    {
        self.map.ceiling(&key)
    }

    /// The pair with the greatest key below this one, the value read back from its number.
    pub fn below(&self, key: u64) -> Option<(u64, V)>
        ensures { result ≡ option_map (λ pair. (pair.0, V.of_number pair.1))
            (below_of self.now.pairs key) }
    {
        self.map.below(&key)
    }

    /// The pair with the least key above this one, the value read back from its number.
    pub fn above(&self, key: u64) -> Option<(u64, V)>
        ensures { result ≡ option_map (λ pair. (pair.0, V.of_number pair.1))
            (above_of self.now.pairs key) }
    {
        self.map.above(&key)
    }

    /// Removes the pair with the least key, and returns it, the value read back from its number. Never fails.
    pub fn pop_first(&mut self) -> Option<(u64, V)>
        ensures pair { result ≡ option_map (λ pair. (pair.0, V.of_number pair.1))
            (first_of self.old.pairs) }
        ensures pairs { self.new.pairs ≡ without_pair self.old.pairs (first_of self.old.pairs) }
        ensures charge { ChargesForNodes A.charge self.old self.new }
    {
        self.map.pop_first()
    }

    /// Removes the pair with the greatest key, and returns it, the value read back from its number. Never fails.
    pub fn pop_last(&mut self) -> Option<(u64, V)>
        ensures pair { result ≡ option_map (λ pair. (pair.0, V.of_number pair.1))
            (last_of self.old.pairs) }
        ensures pairs { self.new.pairs ≡ without_pair self.old.pairs (last_of self.old.pairs) }
        ensures charge { ChargesForNodes A.charge self.old self.new }
    {
        self.map.pop_last()
    }
}
