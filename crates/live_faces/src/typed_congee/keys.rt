//! All keys of one moment.
//!
//! Tested in `test_live_faces`.
ghost use Rattle.std.specs.Prelude.{◌≡◌, IfOk, OnErr};
ghost use Rattle.live_scans.specs.Scans.{GaveUp, HasWaited, Waits};
ghost use Rattle.live_faces.specs.Returned.{ReturnsAll};

use super::{Congee, Guard, Refusal};
use live_copies::copy::copy;
use live_copies::moves::copied;
use live_copies::numbers::keys_back;
use spec_map::error::OOMError;
use spec_map::traits::Word;
use std::alloc::Global;
use std::sync::Wait;

impl<K: Word, V: Word> Congee<K, V> {
    /// All keys of one moment, ascending, each read back from its number. `Refusal::Busy` if too many writers came in between,
    /// and `Refusal::OutOfMemory` if there is no memory for the keys. It takes 32 bytes and more a pair meanwhile.
    pub fn try_keys(&self, alloc: Global, guard: &mut Guard) -> Result<Vec<K>, Refusal>
        requires map { guard.old.book ≡ self.now }
        ensures map { guard.new.book ≡ guard.old.book }
        ensures listed { IfOk result (λ keys. ReturnsAll (λ pair. K.of_number pair.0)
            guard.old keys.items guard.new) }
        ensures refused { OnErr result (GaveUp guard.old guard.new) }
    {
        let numbers = copy(&self.pool.map, alloc, guard)?;
        match keys_back(alloc, &numbers) {
            Ok(keys) => Ok(keys),
            Err(_) => Err(Refusal::OutOfMemory),
        }
    }

    /// All keys of one moment, ascending, each read back from its number. Pauses where `try_keys` is busy, and goes on.
    /// `OOMError` if there is no memory for the keys. It takes 32 bytes and more a pair meanwhile.
    pub fn keys<R: Wait>(
        &self,
        rt: &R,
        alloc: Global,
        guard: &mut Guard,
    ) -> Result<Vec<K>, OOMError>
        requires map { guard.old.book ≡ self.now }
        ensures map { guard.new.book ≡ guard.old.book }
        ensures listed { IfOk result (λ keys. Waits guard.old
            (λ k. ReturnsAll (λ pair. K.of_number pair.0) k keys.items guard.new)) }
        ensures refused { OnErr result (HasWaited guard.old guard.new) }
    {
        let numbers = copied(rt, &self.pool.map, alloc, guard)?;
        match keys_back(alloc, &numbers) {
            Ok(keys) => Ok(keys),
            Err(_) => Err(OOMError::new()),
        }
    }
}
