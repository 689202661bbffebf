//! Removals of many pairs, leaf by leaf.
//!
//! A leaf is locked once for all its pairs. By the contracts each pair is popped: it is the first one behind the one before. So each
//! key that is there throughout the call is removed. A key that another thread inserts meanwhile may stay.
//!
//! Tested in `test_live_faces`.
ghost use Rattle.std.specs.Prelude.{◌≡◌, ℕ, ◌+◌, ◌^◌};
ghost use Rattle.live_pool.specs.Removals.{HasEmptied, HasExtracted};

use super::{Congee, Guard};
use live_pool::removals;
use live_pool::removals::Receiver;
use spec_map::traits::Word;
use std::marker::PhantomData;
use std::sync::Wait;

/// The way to a closure of keys and values: it is called with those that the numbers mean.
pub struct Numbers<K, V> {
    of: PhantomData<(K, V)>,
}

impl<K: Word, V: Word, F: FnMut(K, V)> Receiver<F> for Numbers<K, V> {
    ghost step = { λ f pair next. F.step f (K.of_number pair.0) (V.of_number pair.1) tt next };

    ghost ready = { λ f. F.IsAlwaysCallable f };

    fn receive(f: &mut F, key: u64, value: u64) {
        f(K::from_u64(key), V::from_u64(value));
    }
}

impl<K: Word, V: Word> Congee<K, V> {
    /// Removes the pairs with keys, by numbers, from `first` to `last`, both included, leaf by leaf, keys ascending. Returns how many
    /// this call removed: 2 to the 64 at most. Needs no memory. Pauses where too many writers come in between, and goes on.
    pub fn remove_range_inclusive<R: Wait>(
        &self,
        rt: &R,
        guard: &mut Guard,
        first: &K,
        last: &K,
    ) -> u128
        requires map { guard.old.book ≡ self.now }
        ensures map { guard.new.book ≡ guard.old.book }
        ensures emptied { HasEmptied (K.number first.now) (K.number last.now + 1)
            result guard.old guard.new }
    {
        removals::remove_range(rt, &self.pool, guard, first.into_u64(), last.into_u64())
    }

    /// Removes the pairs with keys, by numbers, from `first` to `last`, both included, leaf by leaf, keys ascending. Calls the closure
    /// with each once its leaf's pairs are removed, key and value read back from their numbers. Returns how many this call removed:
    /// 2 to the 64 at most. The closure may call the map by another guard. Needs no memory. Pauses where too many writers come in
    /// between, and goes on.
    pub fn extract_range_inclusive<R: Wait, F: FnMut(K, V)>(
        &self,
        rt: &R,
        guard: &mut Guard,
        first: &K,
        last: &K,
        f: &mut F,
    ) -> u128
        requires map { guard.old.book ≡ self.now }
        requires callable { F.IsAlwaysCallable f.old }
        ensures callable { F.IsAlwaysCallable f.new }
        ensures map { guard.new.book ≡ guard.old.book }
        ensures extracted { HasExtracted
            (λ state pair next. F.step state (K.of_number pair.0) (V.of_number pair.1) tt next)
            (K.number first.now) (K.number last.now + 1) result f.old guard.old f.new guard.new }
    {
        let (low, high) = (first.into_u64(), last.into_u64());
        removals::extract_range::<R, F, Numbers<K, V>>(rt, &self.pool, guard, low, high, f)
    }

    /// Removes all pairs, leaf by leaf, keys ascending. Returns how many this call removed: 2 to the 64 at most. Needs no memory, and
    /// frees none. Pauses where too many writers come in between, and goes on.
    pub fn clear<R: Wait>(&self, rt: &R, guard: &mut Guard) -> u128
        requires map { guard.old.book ≡ self.now }
        ensures map { guard.new.book ≡ guard.old.book }
        ensures emptied { HasEmptied 0 (2 ^ 64) result guard.old guard.new }
    {
        removals::remove_range(rt, &self.pool, guard, 0, u64::MAX)
    }
}
