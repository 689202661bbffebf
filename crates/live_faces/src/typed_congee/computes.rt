//! Calls that store what a closure returns.
ghost use Rattle.std.specs.Prelude.{◌≡◌, IfOk, IfErr, IfSome, OnErr};
ghost use Rattle.live_updates.specs.Refusals.{FoundNone, Refused};
ghost use Rattle.live_nodes.specs.Known.{MadeCall};
ghost use Rattle.live_updates.specs.Closures.{Reaches, EndsWithCall};
ghost use Rattle.live_updates.specs.ClosureEntries.{computed_with};
ghost use Rattle.live_faces.specs.Returned.{ReturnsInserted};

use super::{Busy, Congee, Guard, Refusal, read_back};
use crossbeam_utils::Backoff;
use spec_map::error::OOMError;
use spec_map::traits::Word;
use std::alloc::Global;
use std::sync::Wait;

impl<K: Word, V: Word> Congee<K, V> {
    /// If the key is present, calls the closure with its value's number, and stores the answer. For `None` it removes the key.
    /// Returns both numbers, the old and the new one. The closure is called while nothing is locked. It may be called again,
    /// and the last call counts. `Busy` if too many writers came in between: then nothing has changed, but it may have been
    /// called.
    pub fn try_compute_if_present<F: FnMut(u64) -> Option<u64>>(
        &self,
        guard: &mut Guard,
        key: &K,
        f: &mut F,
    ) -> Result<Option<(u64, Option<u64>)>, Busy>
        requires map { guard.old.book ≡ self.now }
        requires callable { F.IsAlwaysCallable f.old }
        ensures callable { F.IsAlwaysCallable f.new }
        ensures reached { Reaches F.step f.old f.new }
        ensures map { guard.new.book ≡ guard.old.book }
        ensures made { IfOk result (λ both. MadeCall guard.old
            (computed_with guard.old.caller (K.number key.now) both) guard.new) }
        ensures asked { IfOk result (λ both. IfSome both (λ pair.
            EndsWithCall F.step f.old pair.0 pair.1 f.new)) }
        ensures busy { OnErr result (guard.new ≡ guard.old) }
    {
        self.pool.compute_if_present(guard, key.into_u64(), f)
    }

    /// If the key is present, calls the closure with its value's number, and stores the answer. For `None` it removes the key.
    /// Returns both numbers, the old and the new one. Pauses where `try_compute_if_present` is busy, and goes on. The closure may
    /// be called again, and the last call counts.
    pub fn compute_if_present<R: Wait, F: FnMut(u64) -> Option<u64>>(
        &self,
        rt: &R,
        guard: &mut Guard,
        key: &K,
        f: &mut F,
    ) -> Option<(u64, Option<u64>)>
        requires map { guard.old.book ≡ self.now }
        requires callable { F.IsAlwaysCallable f.old }
        ensures callable { F.IsAlwaysCallable f.new }
        ensures reached { Reaches F.step f.old f.new }
        ensures map { guard.new.book ≡ guard.old.book }
        ensures made { MadeCall guard.old
            (computed_with guard.old.caller (K.number key.now) result) guard.new }
        ensures asked { IfSome result (λ pair. EndsWithCall F.step f.old pair.0 pair.1 f.new) }
    {
        let pause = Backoff::new();
        for _ in rt.forever() {
            if let Ok(both) = self.try_compute_if_present(guard, key, f) {
                return both;
            }
            pause.snooze();
        }
        unreachable!()
    }

    /// Calls the closure with the number of the key's value, if the key is present, and stores the answer. Returns the
    /// previous value, read back from its number. The closure may be called again, and the last call counts. After a refusal
    /// the pairs are as they were, but it may have been called.
    pub fn try_compute_or_insert<F: FnMut(Option<u64>) -> u64>(
        &self,
        alloc: Global,
        guard: &mut Guard,
        key: K,
        f: &mut F,
    ) -> Result<Option<V>, Refusal>
        requires map { guard.old.book ≡ self.now }
        requires callable { F.IsAlwaysCallable f.old }
        ensures callable { F.IsAlwaysCallable f.new }
        ensures reached { Reaches F.step f.old f.new }
        ensures map { guard.new.book ≡ guard.old.book }
        ensures made { IfOk result (λ before. ReturnsInserted V.of_number guard.old F.step f.old f.new
            (K.number key) before guard.new) }
        ensures refused { IfErr result (λ why. Refused guard.old (K.number key) why guard.new) }
    {
        let number = self
            .pool
            .compute_or_insert(alloc, guard, key.into_u64(), f)?;
        Ok(read_back(number))
    }

    /// Calls the closure with the number of the key's value, if the key is present, and stores the answer. Returns the
    /// previous value, read back from its number. Pauses where `try_compute_or_insert` is busy, and goes on. The closure may be
    /// called again, and the last call counts. `OOMError` if memory was missing for a new key: then the pairs are as they were.
    pub fn compute_or_insert<R: Wait, F: FnMut(Option<u64>) -> u64>(
        &self,
        rt: &R,
        alloc: Global,
        guard: &mut Guard,
        key: K,
        f: &mut F,
    ) -> Result<Option<V>, OOMError>
        requires map { guard.old.book ≡ self.now }
        requires callable { F.IsAlwaysCallable f.old }
        ensures callable { F.IsAlwaysCallable f.new }
        ensures reached { Reaches F.step f.old f.new }
        ensures map { guard.new.book ≡ guard.old.book }
        ensures made { IfOk result (λ before. ReturnsInserted V.of_number guard.old F.step f.old f.new
            (K.number key) before guard.new) }
        ensures refused { OnErr result (FoundNone guard.old (K.number key) guard.new) }
    {
        let pause = Backoff::new();
        for _ in rt.forever() {
            match self.try_compute_or_insert(alloc, guard, key, f) {
                Ok(before) => return Ok(before),
                Err(Refusal::OutOfMemory) => return Err(OOMError::new()),
                Err(Refusal::Busy) => pause.snooze(),
            }
        }
        unreachable!()
    }
}
