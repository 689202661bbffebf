//! The pairs of a map, one by one, for `for` loops and the adapters of iterators.
//!
//! Tested in `test_owned/iterators`.

ghost use Rattle.std.specs.Prelude.{◌≡◌, ◌+◌, map};
ghost use Rattle.spec_map.specs.Map.{between};

use super::U64Congee;
use face_typed::typed_congee::iter::Iter;
use node_table::allocator::Allocator;
use spec_map::traits::Word;

impl<V: Word, A: Allocator> U64Congee<V, A> {
    /// All pairs, keys ascending, each value read back from its number. Takes no memory.
    pub fn iter(&self) -> Iter<'_, u64, V, A>
        ensures { result ≡ map (λ pair. (pair.0, V.of_number pair.1)) self.now.pairs }
    {
        self.map.iter()
    }

    /// The pairs with `start <= key < end`, keys ascending, each value read back from its number. Takes no memory.
    pub fn iter_range(&self, start: u64, end: u64) -> Iter<'_, u64, V, A>
        ensures { result
            ≡ map (λ pair. (pair.0, V.of_number pair.1)) (between self.now.pairs start end) }
    {
        self.map.iter_range(&start, &end)
    }

    /// The pairs with `start <= key <= last`, keys ascending, each value read back from its number. Takes no memory.
    pub fn iter_range_inclusive(&self, start: u64, last: u64) -> Iter<'_, u64, V, A>
        ensures { result
            ≡ map (λ pair. (pair.0, V.of_number pair.1)) (between self.now.pairs start (last + 1)) }
    {
        self.map.iter_range_inclusive(&start, &last)
    }
}

impl<'a, V: Word, A: Allocator> IntoIterator for &'a U64Congee<V, A> {
    type Item = (u64, V);

    type IntoIter = Iter<'a, u64, V, A>;

    ghost into_iter_gives = { λ congee left. left
        ≡ map (λ pair. (pair.0, V.of_number pair.1)) congee.now.pairs };

    fn into_iter(self) -> Iter<'a, u64, V, A> {
        self.iter()
    }
}
