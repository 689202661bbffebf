//! The calls that put a new number together from the current one.
//!
//! Tested in `test_live_faces`.
ghost use Rattle.std.specs.Prelude.{◌≡◌, IfOk, IfErr, OnErr, unwrap_or};
ghost use Rattle.live_updates.specs.Refusals.{FoundNone, Refused};
ghost use Rattle.live_updates.specs.ClosureEntries.{sum_with};
ghost use Rattle.live_faces.specs.Returned.{ReturnsComputed};

use super::{Congee, Guard, Refusal, read_back};
use crossbeam_utils::Backoff;
use spec_map::error::OOMError;
use spec_map::traits::Word;
use std::alloc::Global;
use std::sync::Wait;

impl<K: Word, V: Word> Congee<K, V> {
    /// Adds to the number of the key's value, modulo 2 to the 64. A new key gets the number itself. Returns the previous
    /// value, read back from its number. `Refusal::Busy` if too many writers came in between, and `Refusal::OutOfMemory` if
    /// memory was missing for a new key: then the pairs are as they were.
    pub fn try_add(
        &self,
        alloc: Global,
        guard: &mut Guard,
        key: K,
        number: u64,
    ) -> Result<Option<V>, Refusal>
        requires map { guard.old.book ≡ self.now }
        ensures map { guard.new.book ≡ guard.old.book }
        ensures made { IfOk result (λ before. ReturnsComputed V.of_number guard.old
            (K.number key) (λ current. sum_with current number) before guard.new) }
        ensures refused { IfErr result (λ why. Refused guard.old (K.number key) why guard.new) }
    {
        let before = self.pool.add(alloc, guard, key.into_u64(), number)?;
        Ok(read_back(before))
    }

    /// Adds to the number of the key's value, modulo 2 to the 64. A new key gets the number itself. Returns the previous
    /// value, read back from its number. Pauses where `try_add` is busy, and goes on. `OOMError` if memory was missing for a new
    /// key: then the pairs are as they were.
    pub fn add<R: Wait>(
        &self,
        rt: &R,
        alloc: Global,
        guard: &mut Guard,
        key: K,
        number: u64,
    ) -> Result<Option<V>, OOMError>
        requires map { guard.old.book ≡ self.now }
        ensures map { guard.new.book ≡ guard.old.book }
        ensures made { IfOk result (λ before. ReturnsComputed V.of_number guard.old
            (K.number key) (λ current. sum_with current number) before guard.new) }
        ensures refused { OnErr result (FoundNone guard.old (K.number key) guard.new) }
    {
        let pause = Backoff::new();
        for _ in rt.forever() {
            match self.try_add(alloc, guard, key, number) {
                Ok(before) => return Ok(before),
                Err(Refusal::OutOfMemory) => return Err(OOMError::new()),
                Err(Refusal::Busy) => pause.snooze(),
            }
        }
        unreachable!()
    }

    /// Gives the key the value if it is absent. Returns the value that was present, read back from its number. Refusals are
    /// those of `try_add`. For a present key no lock is taken.
    pub fn try_get_or_insert(
        &self,
        alloc: Global,
        guard: &mut Guard,
        key: K,
        value: V,
    ) -> Result<Option<V>, Refusal>
        requires map { guard.old.book ≡ self.now }
        ensures map { guard.new.book ≡ guard.old.book }
        ensures made { IfOk result (λ found. ReturnsComputed V.of_number guard.old
            (K.number key) (λ current. unwrap_or current (V.number value)) found guard.new) }
        ensures refused { IfErr result (λ why. Refused guard.old (K.number key) why guard.new) }
    {
        let found = self
            .pool
            .get_or_insert(alloc, guard, key.into_u64(), value.into_u64())?;
        Ok(read_back(found))
    }

    /// Gives the key the value if it is absent. Returns the value that was present, read back from its number. Pauses where
    /// `try_get_or_insert` is busy, and goes on. `OOMError` if memory was missing for a new key: then the pairs are as they were.
    pub fn get_or_insert<R: Wait>(
        &self,
        rt: &R,
        alloc: Global,
        guard: &mut Guard,
        key: K,
        value: V,
    ) -> Result<Option<V>, OOMError>
        requires map { guard.old.book ≡ self.now }
        ensures map { guard.new.book ≡ guard.old.book }
        ensures made { IfOk result (λ found. ReturnsComputed V.of_number guard.old
            (K.number key) (λ current. unwrap_or current (V.number value)) found guard.new) }
        ensures refused { OnErr result (FoundNone guard.old (K.number key) guard.new) }
    {
        let pause = Backoff::new();
        for _ in rt.forever() {
            match self.try_get_or_insert(alloc, guard, key, value) {
                Ok(found) => return Ok(found),
                Err(Refusal::OutOfMemory) => return Err(OOMError::new()),
                Err(Refusal::Busy) => pause.snooze(),
            }
        }
        unreachable!()
    }
}
