//! The removal of the pairs for which a closure answers no.
//!
//! Pairs are read in pages, and the closure is asked about each while nothing is locked. A pair is removed with the value that
//! the closure was asked about, at a moment of its own. A key that another thread inserts meanwhile may stay unasked.
//!
//! Tested in `test_live_faces`.
ghost use Rattle.std.specs.Prelude.{◌≡◌, ℕ, ◌^◌};
ghost use Rattle.live_pool.specs.Retains.{HasRetained};

use super::{Congee, Guard};
use live_pool::retains;
use spec_map::traits::Word;
use std::sync::Wait;

impl<K: Word, V: Word> Congee<K, V> {
    /// Asks the closure about each pair by its numbers, keys ascending, and removes the pairs for which it answers false. Returns
    /// how many this call removed: 2 to the 64 at most. If another thread changed a pair's value in between, the closure is asked
    /// again, about the new one. The closure may call the map by another guard. Needs no memory. Pauses where too many writers
    /// come in between, and goes on.
    pub fn retain<R: Wait, F: FnMut(u64, u64) -> bool>(
        &self,
        rt: &R,
        guard: &mut Guard,
        f: &mut F,
    ) -> u128
        requires map { guard.old.book ≡ self.now }
        requires callable { F.IsAlwaysCallable f.old }
        ensures callable { F.IsAlwaysCallable f.new }
        ensures map { guard.new.book ≡ guard.old.book }
        ensures retained { HasRetained (λ state asked stays next. F.step state asked.0 asked.1 stays next)
            0 (2 ^ 64) result f.old guard.old f.new guard.new }
    {
        retains::retain(rt, &self.pool, guard, 0, u64::MAX, f)
    }
}
