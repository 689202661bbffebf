//! The trait of keys and values, and drainers, which are called with the pairs of a map that is dropped.
//!
//! Tested in `congee_nodes` and `test_owned`.

ghost use Rattle.std.specs.Prelude.{◌≡◌, ℕ};

use std::marker::PhantomData;

/// A type whose values are read from a 64-bit number and written as one.
///
/// Both ways are functions of their argument. No round trip is asked: `from_u64(n).into_u64()` may be another
/// number than `n`, and two keys with one number are one entry of a map.
pub trait Word: Copy {
    /// The number that a value is written as.
    ghost number: { Self → ℕ };

    /// The value that a number is read as.
    ghost of_number: { ℕ → Self };

    fn from_u64(n: u64) -> Self
        ensures { result ≡ of_number n };

    fn into_u64(self) -> u64
        ensures { result ≡ number self };
}

impl Word for u64 {
    ghost number = { λ n. n };

    ghost of_number = { λ n. n };

    fn from_u64(n: u64) -> u64 {
        n
    }

    fn into_u64(self) -> u64 {
        self
    }
}

/// Is called with the pairs of a map.
pub trait Drainer<K, V>: Drop {
    /// `drain` may be called with every pair.
    ghost can_drain: { Self → Type 0 };

    fn drain(&self, k: K, v: V)
        requires { can_drain self.now };

    /// Whether `drain` is to be called. If not, the pairs aren't walked for it.
    fn wants_pairs(&self) -> bool {
        true
    }
}

/// Ignores the pairs.
#[derive(Drop)]
pub struct NoDrain {}

impl<K: Drop, V: Drop> Drainer<K, V> for NoDrain {
    ghost can_drain = { λ _. Unit {0} };

    fn drain(&self, _k: K, _v: V) {}

    fn wants_pairs(&self) -> bool {
        false
    }
}

/// Calls a closure with each pair.
#[derive(Drop)]
pub struct FnDrain<K, V, F> {
    /// The closure.
    pub call: F,
    of: PhantomData<(K, V)>,
}

impl<K, V, F: Fn(K, V)> FnDrain<K, V, F> {
    /// A drainer that calls this closure, which may be called with every pair.
    pub fn new(call: F) -> Self
        requires { F.IsAlwaysCallable call }
        ensures { result.call ≡ call }
    {
        FnDrain {
            call,
            of: PhantomData,
        }
    }
}

impl<K, V, F: Fn(K, V) + Drop> Drainer<K, V> for FnDrain<K, V, F> {
    ghost can_drain = { λ d. F.IsAlwaysCallable d.call };

    fn drain(&self, k: K, v: V) {
        (self.call)(k, v)
    }
}
