//! The pairs of a map, one by one, for `for` loops and the adapters of iterators.
//!
//! Tested in `test_owned/iterators`.

ghost use Rattle.std.specs.Prelude.{◌≡◌, ◌+◌, map};
ghost use Rattle.std.specs.Iterator.{YieldsFirst, item_count};
ghost use Rattle.spec_map.specs.Map.{between};

use super::Congee;
use congee_tree::iter;
use node_table::allocator::Allocator;
use spec_map::traits::{Drainer, Word};
use std::marker::{Model, PhantomData};

/// The pairs of a range, keys ascending, each read back from its numbers. Contracts see the list of those that are left.
///
/// They are read in pages of 16. Each page reads two paths through the tree and the nodes between them, and takes no
/// memory.
#[derive(Drop)]
pub struct Iter<'a, K: Word, V: Word, A: Allocator> {
    pairs: iter::Iter<'a, A>,
    of: PhantomData<(K, V)>,
}

impl<'a, K: Word, V: Word, A: Allocator> Model for Iter<'a, K, V, A> {
    ghost use Rattle.std.specs.Prelude.{List, map};
    ghost use Rattle.std.specs.Coded.{coded×, coded_list};

    ghost Value = { List (K × V) };

    ghost coded = { coded_list (coded× K.code V.code) };

    ghost view = { λ left. map (λ pair. (K.of_number pair.0, V.of_number pair.1)) left.pairs };
}

impl<'a, K: Word, V: Word, A: Allocator> Iterator for Iter<'a, K, V, A> {
    type Item = (K, V);

    ghost next_gives = { YieldsFirst (λ left. left) };

    ghost remaining = { item_count (λ left. left) };

    fn next(&mut self) -> Option<(K, V)> {
        let (key, value) = self.pairs.next()?;
        Some((K::from_u64(key), V::from_u64(value)))
    }
}

impl<K: Word, V: Word, A: Allocator, D: Drainer<K, V>> Congee<K, V, A, D> {
    /// All pairs, keys ascending, each read back from its numbers. Takes no memory.
    pub fn iter(&self) -> Iter<'_, K, V, A>
        ensures { result
            ≡ map (λ pair. (K.of_number pair.0, V.of_number pair.1)) self.now.pairs }
    {
        Iter {
            pairs: self.tree.iter(),
            of: PhantomData,
        }
    }

    /// The pairs with `start <= key < end`, keys ascending, each read back from its numbers. Takes no memory.
    pub fn iter_range(&self, start: &K, end: &K) -> Iter<'_, K, V, A>
        ensures { let pairs = between self.now.pairs (K.number start.now) (K.number end.now) in
            result ≡ map (λ pair. (K.of_number pair.0, V.of_number pair.1)) pairs }
    {
        Iter {
            pairs: self.tree.iter_range(start.into_u64(), end.into_u64()),
            of: PhantomData,
        }
    }

    /// The pairs with `start <= key <= last`, keys ascending, each read back from its numbers. Takes no memory.
    pub fn iter_range_inclusive(&self, start: &K, last: &K) -> Iter<'_, K, V, A>
        ensures { let pairs = between self.now.pairs (K.number start.now) (K.number last.now + 1) in
            result ≡ map (λ pair. (K.of_number pair.0, V.of_number pair.1)) pairs }
    {
        Iter {
            pairs: self
                .tree
                .iter_range_inclusive(start.into_u64(), last.into_u64()),
            of: PhantomData,
        }
    }
}

impl<'a, K: Word, V: Word, A: Allocator, D: Drainer<K, V>> IntoIterator for &'a Congee<K, V, A, D> {
    type Item = (K, V);

    type IntoIter = Iter<'a, K, V, A>;

    ghost into_iter_gives = { λ congee left. left
        ≡ map (λ pair. (K.of_number pair.0, V.of_number pair.1)) congee.now.pairs };

    fn into_iter(self) -> Iter<'a, K, V, A> {
        self.iter()
    }
}
