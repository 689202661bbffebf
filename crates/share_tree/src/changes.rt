//! How often a map was changed.
//!
//! Tested in `share_maps` and `test_share_guards/changes`.

ghost use Rattle.std.specs.Prelude.{◌≡◌, ◌≢◌, ℕ, ◌+◌, ◌%◌, ◌≤◌, min};
ghost use Rattle.share_tree.specs.inner.Current.{change_count};

use std::marker::Model;

/// For each value of a key's low 6 bits, how often a pair with such a key was stored or removed. Each count saturates.
/// Takes 512 bytes.
#[derive(Drop)]
pub(crate) struct ChangeCounts {
    counts: [u64; 64],
}

impl Model for ChangeCounts {
    ghost use Rattle.std.specs.Prelude.{◌≡◌, ℕ, List, length};
    ghost use Rattle.std.specs.Coded.{coded_list, coded_ℕ};

    ghost Value = { List ℕ };

    ghost coded = { coded_list coded_ℕ };

    ghost view = { λ c. c.counts };

    ghost invariant = { λ c. length c.counts ≡ 64 };
}

impl ChangeCounts {
    /// No change yet.
    pub(crate) fn new() -> Self {
        ChangeCounts { counts: [0; 64] }
    }

    /// The count of a key.
    pub(crate) fn of(&self, key: u64) -> u64
        ensures { result ≡ change_count self.now key }
    {
        self.counts[(key % 64) as usize]
    }

    /// Counts a change at a key.
    pub(crate) fn raise(&mut self, key: u64)
        ensures small { change_count self.old key ≤ 18446744073709551615 }
        ensures own { (k : ℕ) → k % 64 ≡ key % 64
            → change_count self.new k ≡ min (change_count self.old k + 1) 18446744073709551615 }
        ensures others { (k : ℕ) → k % 64 ≢ key % 64
            → change_count self.new k ≡ change_count self.old k }
    {
        let place = (key % 64) as usize;
        self.counts[place] = self.counts[place].saturating_add(1);
    }

    /// Counts a change at each key.
    pub(crate) fn raise_all(&mut self)
        ensures small { (k : ℕ) → change_count self.old k ≤ 18446744073709551615 }
        ensures all { (k : ℕ) → change_count self.new k
            ≡ min (change_count self.old k + 1) 18446744073709551615 }
    {
        for key in 0..64 {
            self.raise(key);
        }
    }
}
