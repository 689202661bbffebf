//! Removals and exchanges.
ghost use Rattle.std.specs.Prelude.{◌≡◌, IfOk, OnErr};
ghost use Rattle.std.specs.Option.{option_map};
ghost use Rattle.live_updates.specs.Entries.{removed};
ghost use Rattle.live_faces.specs.Returned.{ReturnsOld, ReturnsExchanged};

use super::{Busy, Congee, Guard, read_back};
use crossbeam_utils::Backoff;
use spec_map::traits::Word;
use std::sync::Wait;

fn numbered<V: Word>(value: &Option<V>) -> Option<u64>
    ensures { result ≡ option_map V.number value.now }
{
    match value {
        Some(value) => Some(value.into_u64()),
        None => None,
    }
}

impl<K: Word, V: Word> Congee<K, V> {
    /// Removes the key, and returns the previous value, read back from its number. Needs no memory. `Busy` if too many writers
    /// came in between: then nothing has changed.
    pub fn try_remove(&self, guard: &mut Guard, key: &K) -> Result<Option<V>, Busy>
        requires map { guard.old.book ≡ self.now }
        ensures map { guard.new.book ≡ guard.old.book }
        ensures made { IfOk result (λ before. ReturnsOld V.of_number guard.old
            (removed guard.old.caller (K.number key.now)) before guard.new) }
        ensures busy { OnErr result (guard.new ≡ guard.old) }
    {
        let number = self.pool.remove(guard, key.into_u64())?;
        Ok(read_back(number))
    }

    /// Removes the key, and returns the previous value, read back from its number. Needs no memory. Pauses where `try_remove` is
    /// busy, and goes on.
    pub fn remove<R: Wait>(&self, rt: &R, guard: &mut Guard, key: &K) -> Option<V>
        requires map { guard.old.book ≡ self.now }
        ensures map { guard.new.book ≡ guard.old.book }
        ensures made { ReturnsOld V.of_number guard.old
            (removed guard.old.caller (K.number key.now)) result guard.new }
    {
        let pause = Backoff::new();
        for _ in rt.forever() {
            if let Ok(before) = self.try_remove(guard, key) {
                return before;
            }
            pause.snooze();
        }
        unreachable!()
    }

    /// If the number of `old` is stored at the key, stores `new`, or removes the key for `None`, and returns `Ok` with `new`
    /// itself. Otherwise changes nothing, and returns `Err` with the current value, read back from its number, or with `None`
    /// if the key is absent. Needs no memory. `Busy` if too many writers came in between: then nothing has changed.
    pub fn try_compare_exchange(
        &self,
        guard: &mut Guard,
        key: &K,
        old: &V,
        new: Option<V>,
    ) -> Result<Result<Option<V>, Option<V>>, Busy>
        requires map { guard.old.book ≡ self.now }
        ensures map { guard.new.book ≡ guard.old.book }
        ensures made { IfOk result (λ answer. ReturnsExchanged V.of_number guard.old V.number
            (K.number key.now) (V.number old.now) new answer guard.new) }
        ensures busy { OnErr result (guard.new ≡ guard.old) }
    {
        let wanted = numbered(&new);
        let answer = self
            .pool
            .compare_exchange(guard, key.into_u64(), old.into_u64(), wanted)?;
        match answer {
            Ok(_) => Ok(Ok(new)),
            Err(current) => Ok(Err(read_back(current))),
        }
    }

    /// If the number of `old` is stored at the key, stores `new`, or removes the key for `None`, and returns `Ok` with `new`
    /// itself. Otherwise changes nothing, and returns `Err` with the current value, read back from its number, or with `None`
    /// if the key is absent. Needs no memory. Pauses where `try_compare_exchange` is busy, and goes on.
    pub fn compare_exchange<R: Wait>(
        &self,
        rt: &R,
        guard: &mut Guard,
        key: &K,
        old: &V,
        new: Option<V>,
    ) -> Result<Option<V>, Option<V>>
        requires map { guard.old.book ≡ self.now }
        ensures map { guard.new.book ≡ guard.old.book }
        ensures made { ReturnsExchanged V.of_number guard.old V.number (K.number key.now)
            (V.number old.now) new result guard.new }
    {
        let pause = Backoff::new();
        for _ in rt.forever() {
            if let Ok(answer) = self.try_compare_exchange(guard, key, old, new) {
                return answer;
            }
            pause.snooze();
        }
        unreachable!()
    }
}
