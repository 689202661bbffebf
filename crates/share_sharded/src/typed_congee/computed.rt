//! The calls that put a new number together from the current one, in one hold.
//!
//! Tested in `test_share_shards`.

ghost use Rattle.std.specs.Prelude.{◌≡◌, IfOk, OnErr, unwrap_or};
ghost use Rattle.share_calls.specs.Computed.{sum_with};
ghost use Rattle.share_sharded.specs.Returned.{ReturnsComputed};

use super::{Congee, Guard, Refusal, read_back, refusal_of};
use crossbeam_utils::Backoff;
use spec_map::error::OOMError;
use spec_map::traits::Word;
use std::sync::Wait;

impl<K: Word, V: Word> Congee<K, V> {
    /// Adds to the number of the key's value, modulo 2 to the 64. A new key gets the number itself. Returns the previous
    /// value, read back from its number. `OutOfMemory` comes only for a new key.
    pub fn try_add(&self, guard: &mut Guard, key: K, number: u64) -> Result<Option<V>, Refusal>
        requires map { guard.old.table ≡ self.now.table }
        ensures map { guard.new.table ≡ guard.old.table }
        ensures made { IfOk result (λ before. ReturnsComputed V.of_number guard.old
            (K.number key) (λ current. sum_with current number) before guard.new) }
        ensures refused { OnErr result (guard.new ≡ guard.old) }
    {
        match guard.add(key.into_u64(), number) {
            Ok(before) => Ok(read_back(before)),
            Err(missed) => Err(refusal_of(missed)),
        }
    }

    /// Adds to the number of the key's value, modulo 2 to the 64. A new key gets the number itself. Returns the
    /// previous value, read back from its number. Pauses and tries again while a lock that it needs is taken.
    /// `OOMError` if memory was missing: then nothing has changed.
    pub fn add<R: Wait>(
        &self,
        rt: &R,
        guard: &mut Guard,
        key: K,
        number: u64,
    ) -> Result<Option<V>, OOMError>
        requires map { guard.old.table ≡ self.now.table }
        ensures map { guard.new.table ≡ guard.old.table }
        ensures made { IfOk result (λ before. ReturnsComputed V.of_number guard.old
            (K.number key) (λ current. sum_with current number) before guard.new) }
        ensures refused { OnErr result (guard.new ≡ guard.old) }
    {
        made_or_refused!(rt, self.try_add(guard, key, number))
    }

    /// Gives the key the value if it is absent, and stores a present value again. Returns the value that was present, read
    /// back from its number. `OutOfMemory` comes only for a new key.
    pub fn try_get_or_insert(
        &self,
        guard: &mut Guard,
        key: K,
        value: V,
    ) -> Result<Option<V>, Refusal>
        requires map { guard.old.table ≡ self.now.table }
        ensures map { guard.new.table ≡ guard.old.table }
        ensures made { IfOk result (λ found. ReturnsComputed V.of_number guard.old
            (K.number key) (λ current. unwrap_or current (V.number value)) found guard.new) }
        ensures refused { OnErr result (guard.new ≡ guard.old) }
    {
        match guard.get_or_insert(key.into_u64(), value.into_u64()) {
            Ok(found) => Ok(read_back(found)),
            Err(missed) => Err(refusal_of(missed)),
        }
    }

    /// Gives the key the value if it is absent, and stores a present value again. Returns the value that was present,
    /// read back from its number. Pauses and tries again while a lock that it needs is taken. `OOMError` if memory was
    /// missing: then nothing has changed.
    pub fn get_or_insert<R: Wait>(
        &self,
        rt: &R,
        guard: &mut Guard,
        key: K,
        value: V,
    ) -> Result<Option<V>, OOMError>
        requires map { guard.old.table ≡ self.now.table }
        ensures map { guard.new.table ≡ guard.old.table }
        ensures made { IfOk result (λ found. ReturnsComputed V.of_number guard.old
            (K.number key) (λ current. unwrap_or current (V.number value)) found guard.new) }
        ensures refused { OnErr result (guard.new ≡ guard.old) }
    {
        made_or_refused!(rt, self.try_get_or_insert(guard, key, value))
    }
}
