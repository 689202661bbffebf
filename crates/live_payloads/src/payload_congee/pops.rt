//! The first pair or the last, which is removed.
//!
//! Tested in `test_live_payloads`.
ghost use Rattle.std.specs.Prelude.{◌≡◌, ◌^◌, true, false, IfSome};
ghost use Rattle.live_payloads.specs.Payloads.{IsGuardOf, KnowsMore};
ghost use Rattle.live_payloads.specs.Tries.{PopsPayload};

use super::PayloadCongee;
use crate::guard::PayloadGuard;
use live_pool::waits::popped;
use spec_map::traits::Word;
use std::sync::Wait;
use word_slots::lent::Lent;

impl<K: Word, P: Drop> PayloadCongee<K, P> {
    // Removes the first pair or the last.
    fn pop<R: Wait>(
        &self,
        rt: &R,
        guard: &mut PayloadGuard<P>,
        up: bool,
    ) -> Option<(K, Lent<'_, P>)>
        requires map { IsGuardOf self.now guard.old }
        ensures map { KnowsMore guard.old guard.new }
        ensures popped { PopsPayload K.of_number up 0 (2 ^ 64) guard.old result guard.new }
        ensures table { IfSome result (λ both. both.1.table ≡ self.now.table) }
    {
        let (number, ticket) = popped(rt, &self.pool, &mut guard.guard, up, 0, u64::MAX)?;
        let lent = self.slots.retire(rt, ticket);
        lent.inform(&mut guard.seen);
        Some((K::from_u64(number), lent))
    }

    /// Removes the pair with the least key, by numbers, and returns its key, and its payload, lent. `None` where there is none. Needs
    /// no memory. Pauses where writers come in between, and goes on.
    pub fn pop_first<R: Wait>(
        &self,
        rt: &R,
        guard: &mut PayloadGuard<P>,
    ) -> Option<(K, Lent<'_, P>)>
        requires map { IsGuardOf self.now guard.old }
        ensures map { KnowsMore guard.old guard.new }
        ensures popped { PopsPayload K.of_number true 0 (2 ^ 64) guard.old result guard.new }
        ensures table { IfSome result (λ both. both.1.table ≡ self.now.table) }
    {
        self.pop(rt, guard, true)
    }

    /// Removes the pair with the greatest key, by numbers, and returns its key, and its payload, lent. `None` where there is none. Needs
    /// no memory. Pauses where writers come in between, and goes on.
    pub fn pop_last<R: Wait>(&self, rt: &R, guard: &mut PayloadGuard<P>) -> Option<(K, Lent<'_, P>)>
        requires map { IsGuardOf self.now guard.old }
        ensures map { KnowsMore guard.old guard.new }
        ensures popped { PopsPayload K.of_number false 0 (2 ^ 64) guard.old result guard.new }
        ensures table { IfSome result (λ both. both.1.table ≡ self.now.table) }
    {
        self.pop(rt, guard, false)
    }
}
