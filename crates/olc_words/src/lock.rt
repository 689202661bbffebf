//! The lock word of a node.
//!
//! A word is `4 * version + 2 * locked + obsolete` (*The ART of Practical Synchronization*, Leis et al.). Locking adds
//! 2, unlocking adds 2 more and so makes the next version, marking obsolete adds 1. A word never falls.
//!
//! Tested in `test_olc/lock`.

ghost use Rattle.std.specs.Prelude.{◌≡◌, ◌+◌, ◌<◌, ◌^◌, ◌↔◌, IsTrue, IfSome, IsSome};
ghost use Rattle.spec_olc.specs.Lock.{version, last_version, IsLocked, IsObsolete, IsFree, MayUpgrade};

use std::marker::Model;

/// A lock word: 8 bytes. Contracts see it as its number.
#[derive(Clone, Copy, Debug, PartialEq, Eq)]
pub struct Word64 {
    bits: u64,
}

impl Model for Word64 {
    ghost use Rattle.std.specs.Prelude.{ℕ};

    ghost Value = { ℕ };

    ghost view = { λ w. w.bits };

    ghost inverse = { λ n. record { bits = n } };
}

impl Word64 {
    /// The word with this number.
    pub fn from_number(number: u64) -> Self
        ensures { result ≡ number }
    {
        Word64 { bits: number }
    }

    /// The word's number.
    pub fn number(self) -> u64
        ensures { result ≡ self }
    {
        self.bits
    }

    /// Whether some call holds the node.
    pub fn is_locked(self) -> bool
        ensures { IsTrue result ↔ IsLocked self }
    {
        self.bits / 2 % 2 == 1
    }

    /// Whether the node was taken out of the tree for good.
    pub fn is_obsolete(self) -> bool
        ensures { IsTrue result ↔ IsObsolete self }
    {
        self.bits % 2 == 1
    }

    /// Whether it is neither locked nor obsolete.
    pub fn is_free(self) -> bool
        ensures { IsTrue result ↔ IsFree self }
    {
        self.bits % 4 == 0
    }

    /// Whether the word is the one that was remembered.
    pub fn matches(self, remembered: Word64) -> bool
        ensures { IsTrue result ↔ (self ≡ remembered) }
    {
        self.bits == remembered.bits
    }

    /// The locked word, or `None` where the word is another than the one remembered, is locked or obsolete, or has the
    /// last version, `2^62 - 1`.
    pub fn upgraded(self, remembered: Word64) -> Option<Word64>
        ensures word { IfSome result (λ w. w ≡ self + 2) }
        ensures exactly { IsSome result ↔ MayUpgrade self remembered }
    {
        if self.bits == remembered.bits && self.is_free() && self.bits / 4 != (1 << 62) - 1 {
            Some(Word64 {
                bits: self.bits + 2,
            })
        } else {
            None
        }
    }

    /// The word of the next version, no longer locked.
    pub fn unlocked(self) -> Word64
        requires locked { IsLocked self }
        requires room { version self < last_version }
        ensures { result ≡ self + 2 }
    {
        Word64 {
            bits: self.bits + 2,
        }
    }

    /// The word marked obsolete; it stays locked.
    pub fn obsoleted(self) -> Word64
        requires locked { IsLocked self }
        requires in_use { ¬ IsObsolete self }
        ensures { result ≡ self + 1 }
    {
        Word64 {
            bits: self.bits + 1,
        }
    }
}
