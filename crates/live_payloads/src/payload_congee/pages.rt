//! Pages of pairs, read while others write. A page has a ticket for each payload, and `lend` has the payload of a ticket.
//!
//! Tested in `test_live_payloads`.
ghost use Rattle.std.specs.Prelude.{◌≡◌, ◌+◌, ◌≤◌, true, false, length, take, IfOk, OnErr};
ghost use Rattle.live_scans.specs.Scans.{GaveUp, HasPage, Waits};
ghost use Rattle.live_scans.specs.Descents.{HasPageDown};
ghost use Rattle.live_payloads.specs.Payloads.{IsGuardOf, KnowsMore};
ghost use Rattle.live_payloads.specs.inner.Pages.{HasPageOf};

use super::PayloadCongee;
use crate::guard::PayloadGuard;
use crossbeam_utils::Backoff;
use live_growth::map::Busy;
use live_scans::{descents, scans};
use spec_map::traits::Word;
use std::sync::Wait;

impl<K: Word, P: Drop> PayloadCongee<K, P> {
    // Writes a page of the keys from `first` to `last`, upwards or downwards.
    fn try_page(
        &self,
        guard: &mut PayloadGuard<P>,
        up: bool,
        first: u64,
        last: u64,
        buffer: &mut [(u64, u64)],
    ) -> Result<usize, Busy>
        requires map { IsGuardOf self.now guard.old }
        ensures map { KnowsMore guard.old guard.new }
        ensures count { IfOk result (λ count. count ≤ length buffer.old) }
        ensures page { IfOk result (λ count. HasPageOf up guard.old.tickets first (last + 1)
            (length buffer.old) (take count buffer.new) guard.new.tickets) }
        ensures busy { OnErr result (GaveUp guard.old.tickets guard.new.tickets) }
    {
        let map = &self.pool.map;
        if up {
            return scans::range_inclusive(map, &mut guard.guard, first, last, buffer);
        }
        descents::range_descending(map, &mut guard.guard, first, last, buffer)
    }

    // Writes a page of the keys from `first` to `last`, upwards or downwards. Pauses where `try_page` is busy, and goes on.
    fn page<R: Wait>(
        &self,
        rt: &R,
        guard: &mut PayloadGuard<P>,
        up: bool,
        first: u64,
        last: u64,
        buffer: &mut [(u64, u64)],
    ) -> usize
        requires map { IsGuardOf self.now guard.old }
        ensures map { KnowsMore guard.old guard.new }
        ensures count { result ≤ length buffer.old }
        ensures page { Waits guard.old.tickets (λ k. HasPageOf up k first (last + 1)
            (length buffer.old) (take result buffer.new) guard.new.tickets) }
    {
        let pause = Backoff::new();
        for _ in rt.forever() {
            if let Ok(count) = self.try_page(guard, up, first, last, buffer) {
                return count;
            }
            pause.snooze();
        }
        unreachable!()
    }

    /// Writes pairs with keys from `start` on and below `end` to the buffer, ascending, as many as there are or as fit, and returns
    /// how many. A pair has the key's number and the ticket of its payload. The buffer's entries after them are unspecified. If
    /// the buffer is full, the next page begins behind the last key. `Busy` if too many writers came in between.
    pub fn try_range(
        &self,
        guard: &mut PayloadGuard<P>,
        start: &K,
        end: &K,
        buffer: &mut [(u64, u64)],
    ) -> Result<usize, Busy>
        requires map { IsGuardOf self.now guard.old }
        ensures map { KnowsMore guard.old guard.new }
        ensures count { IfOk result (λ count. count ≤ length buffer.old) }
        ensures page { IfOk result (λ count. HasPage guard.old.tickets (K.number start.now) (K.number end.now)
            (length buffer.old) (take count buffer.new) guard.new.tickets) }
        ensures busy { OnErr result (GaveUp guard.old.tickets guard.new.tickets) }
    {
        let (start, end) = (start.into_u64(), end.into_u64());
        scans::range(&self.pool.map, &mut guard.guard, start, end, buffer)
    }

    /// Writes pairs with keys from `start` on and below `end` to the buffer, ascending, as many as there are or as fit, and returns
    /// how many. A pair has the key's number and the ticket of its payload. The buffer's entries after them are unspecified. If
    /// the buffer is full, the next page begins behind the last key. Pauses where `try_range` is busy, and goes on.
    pub fn range<R: Wait>(
        &self,
        rt: &R,
        guard: &mut PayloadGuard<P>,
        start: &K,
        end: &K,
        buffer: &mut [(u64, u64)],
    ) -> usize
        requires map { IsGuardOf self.now guard.old }
        ensures map { KnowsMore guard.old guard.new }
        ensures count { result ≤ length buffer.old }
        ensures page { Waits guard.old.tickets (λ k. HasPage k (K.number start.now) (K.number end.now)
            (length buffer.old) (take result buffer.new) guard.new.tickets) }
    {
        let pause = Backoff::new();
        for _ in rt.forever() {
            if let Ok(count) = self.try_range(guard, start, end, buffer) {
                return count;
            }
            pause.snooze();
        }
        unreachable!()
    }

    /// Writes pairs with keys from `first` to `last`, both included, to the buffer, ascending, as many as there are or as fit, and
    /// returns how many. A pair has the key's number and the ticket of its payload. The buffer's entries after them are
    /// unspecified. If the buffer is full, the next page begins behind the last key. `Busy` if too many writers came in between.
    pub fn try_range_inclusive(
        &self,
        guard: &mut PayloadGuard<P>,
        first: &K,
        last: &K,
        buffer: &mut [(u64, u64)],
    ) -> Result<usize, Busy>
        requires map { IsGuardOf self.now guard.old }
        ensures map { KnowsMore guard.old guard.new }
        ensures count { IfOk result (λ count. count ≤ length buffer.old) }
        ensures page { IfOk result (λ count. HasPage guard.old.tickets (K.number first.now) (K.number last.now + 1)
            (length buffer.old) (take count buffer.new) guard.new.tickets) }
        ensures busy { OnErr result (GaveUp guard.old.tickets guard.new.tickets) }
    {
        self.try_page(guard, true, first.into_u64(), last.into_u64(), buffer)
    }

    /// Writes pairs with keys from `first` to `last`, both included, to the buffer, ascending, as many as there are or as fit, and
    /// returns how many. A pair has the key's number and the ticket of its payload. The buffer's entries after them are
    /// unspecified. If the buffer is full, the next page begins behind the last key. Pauses where `try_range_inclusive` is busy,
    /// and goes on.
    pub fn range_inclusive<R: Wait>(
        &self,
        rt: &R,
        guard: &mut PayloadGuard<P>,
        first: &K,
        last: &K,
        buffer: &mut [(u64, u64)],
    ) -> usize
        requires map { IsGuardOf self.now guard.old }
        ensures map { KnowsMore guard.old guard.new }
        ensures count { result ≤ length buffer.old }
        ensures page { Waits guard.old.tickets (λ k. HasPage k (K.number first.now) (K.number last.now + 1)
            (length buffer.old) (take result buffer.new) guard.new.tickets) }
    {
        self.page(rt, guard, true, first.into_u64(), last.into_u64(), buffer)
    }

    /// Writes pairs with keys from `last` down to `first`, both included, to the buffer, descending, as many as there are or as fit,
    /// and returns how many. A pair has the key's number and the ticket of its payload. The buffer's entries after them are
    /// unspecified. If the buffer is full, the next page ends below the last key. `Busy` if too many writers came in between.
    pub fn try_range_descending(
        &self,
        guard: &mut PayloadGuard<P>,
        first: &K,
        last: &K,
        buffer: &mut [(u64, u64)],
    ) -> Result<usize, Busy>
        requires map { IsGuardOf self.now guard.old }
        ensures map { KnowsMore guard.old guard.new }
        ensures count { IfOk result (λ count. count ≤ length buffer.old) }
        ensures page { IfOk result (λ count. HasPageDown guard.old.tickets (K.number first.now) (K.number last.now + 1)
            (length buffer.old) (take count buffer.new) guard.new.tickets) }
        ensures busy { OnErr result (GaveUp guard.old.tickets guard.new.tickets) }
    {
        self.try_page(guard, false, first.into_u64(), last.into_u64(), buffer)
    }

    /// Writes pairs with keys from `last` down to `first`, both included, to the buffer, descending, as many as there are or as fit,
    /// and returns how many. A pair has the key's number and the ticket of its payload. The buffer's entries after them are
    /// unspecified. If the buffer is full, the next page ends below the last key. Pauses where `try_range_descending` is busy, and
    /// goes on.
    pub fn range_descending<R: Wait>(
        &self,
        rt: &R,
        guard: &mut PayloadGuard<P>,
        first: &K,
        last: &K,
        buffer: &mut [(u64, u64)],
    ) -> usize
        requires map { IsGuardOf self.now guard.old }
        ensures map { KnowsMore guard.old guard.new }
        ensures count { result ≤ length buffer.old }
        ensures page { Waits guard.old.tickets (λ k. HasPageDown k (K.number first.now) (K.number last.now + 1)
            (length buffer.old) (take result buffer.new) guard.new.tickets) }
    {
        self.page(rt, guard, false, first.into_u64(), last.into_u64(), buffer)
    }
}
