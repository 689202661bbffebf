//! Insertions and removals.
ghost use Rattle.std.specs.Prelude.{◌≡◌, ◌⊎◌, ℕ, IfOk, IfErr, IfSome, OnErr};
ghost use Rattle.live_updates.specs.Entries.{removed};
ghost use Rattle.live_updates.specs.Refusals.{FoundNone, Refused};
ghost use Rattle.word_slots.specs.Tickets.{HasIssued, IsNew};
ghost use Rattle.live_payloads.specs.Payloads.{IsGuardOf, KnowsMore, IsLoanOf, FindsPayload, InsertsPayload};

use super::PayloadCongee;
use crate::guard::PayloadGuard;
use crossbeam_utils::Backoff;
use live_growth::map::{Busy, Refusal};
use spec_map::traits::Word;
use std::alloc::{AllocFailed, Global};
use std::sync::Wait;
use word_slots::lent::Lent;
use word_slots::log::agree;
use word_slots::slots::Lack;

impl<K: Word, P: Drop> PayloadCongee<K, P> {
    // Puts a payload into a slot, and returns its ticket.
    pub(super) fn issue(
        &self,
        alloc: Global,
        guard: &mut PayloadGuard<P>,
        payload: P,
    ) -> Result<u64, (Refusal, P)>
        requires map { IsGuardOf self.now guard.old }
        ensures map { KnowsMore guard.old guard.new }
        ensures tickets { guard.new.tickets ≡ guard.old.tickets }
        ensures first { IfOk result (λ ticket. IsNew guard.old.log ticket) }
        ensures issued { IfOk result (λ ticket. HasIssued guard.new.log ticket payload) }
        ensures back { IfErr result (λ refused. refused.1 ≡ payload) }
    {
        match self
            .slots
            .insert(alloc, &mut guard.seen, guard.hint, payload)
        {
            Ok(ticket) => Ok(ticket),
            Err((Lack::Busy, back)) => Err((Refusal::Busy, back)),
            Err((Lack::Memory, back)) => Err((Refusal::OutOfMemory, back)),
        }
    }

    // Takes a payload back whose ticket isn't stored.
    pub(super) fn withdraw<R: Wait>(&self, rt: &R, guard: &mut PayloadGuard<P>, ticket: u64) -> P
        requires map { IsGuardOf self.now guard.old }
        ensures map { KnowsMore guard.old guard.new }
        ensures tickets { guard.new.tickets ≡ guard.old.tickets }
        ensures payload { (v : P) → HasIssued guard.old.log ticket v → result ≡ v }
    {
        let payload = self.slots.take(rt, &mut guard.seen, ticket);
        agree(&guard.seen);
        payload
    }

    // Retires the ticket that was stored before, if there was one.
    fn retire<R: Wait>(
        &self,
        rt: &R,
        guard: &mut PayloadGuard<P>,
        previous: Option<u64>,
    ) -> Option<Lent<'_, P>>
        requires map { IsGuardOf self.now guard.old }
        ensures map { KnowsMore guard.old guard.new }
        ensures tickets { guard.new.tickets ≡ guard.old.tickets }
        ensures payload { IsLoanOf guard.new.log previous result }
        ensures table { IfSome result (λ lent. lent.table ≡ self.now.table) }
    {
        let lent = self.slots.retire(rt, previous?);
        lent.inform(&mut guard.seen);
        Some(lent)
    }

    /// Stores a payload at the key, and returns the previous one, lent. `Refusal::Busy` if too many writers came in between, and
    /// `Refusal::OutOfMemory` if memory was missing for a slot or for a new key: then the very payload comes back. Pauses while
    /// readers of the previous payload come and go.
    pub fn try_insert<R: Wait>(
        &self,
        rt: &R,
        alloc: Global,
        guard: &mut PayloadGuard<P>,
        key: K,
        payload: P,
    ) -> Result<Option<Lent<'_, P>>, (Refusal, P)>
        requires map { IsGuardOf self.now guard.old }
        ensures map { KnowsMore guard.old guard.new }
        ensures made { IfOk result (λ before.
            InsertsPayload (K.number key) payload guard.old before guard.new) }
        ensures table { IfOk result (λ before. IfSome before (λ lent. lent.table ≡ self.now.table)) }
        ensures refused { IfErr result (λ refused. (guard.new.tickets ≡ guard.old.tickets)
            ⊎ Refused guard.old.tickets (K.number key) refused.0 guard.new.tickets) }
        ensures back { IfErr result (λ refused. refused.1 ≡ payload) }
    {
        let ticket = self.issue(alloc, guard, payload)?;
        match self
            .pool
            .insert(alloc, &mut guard.guard, key.into_u64(), ticket)
        {
            Ok(previous) => Ok(self.retire(rt, guard, previous)),
            Err(why) => Err((why, self.withdraw(rt, guard, ticket))),
        }
    }

    /// Stores a payload at the key, and returns the previous one, lent. Pauses where `try_insert` is busy, and goes on. If memory
    /// was missing for a slot or for a new key, the error has the very payload.
    pub fn insert<R: Wait>(
        &self,
        rt: &R,
        alloc: Global,
        guard: &mut PayloadGuard<P>,
        key: K,
        payload: P,
    ) -> Result<Option<Lent<'_, P>>, AllocFailed<P>>
        requires map { IsGuardOf self.now guard.old }
        ensures map { KnowsMore guard.old guard.new }
        ensures made { IfOk result (λ before.
            InsertsPayload (K.number key) payload guard.old before guard.new) }
        ensures table { IfOk result (λ before. IfSome before (λ lent. lent.table ≡ self.now.table)) }
        ensures refused { OnErr result ((guard.new.tickets ≡ guard.old.tickets)
            ⊎ FoundNone guard.old.tickets (K.number key) guard.new.tickets) }
        ensures back { IfErr result (λ failed. failed.value ≡ payload) }
    {
        let mut payload = payload;
        let pause = Backoff::new();
        for _ in rt.forever() {
            match self.try_insert(rt, alloc, guard, key, payload) {
                Ok(before) => return Ok(before),
                Err((Refusal::OutOfMemory, back)) => return Err(AllocFailed { value: back }),
                Err((Refusal::Busy, back)) => payload = back,
            }
            pause.snooze();
        }
        unreachable!()
    }

    /// Removes the key, and returns the previous payload, lent. Needs no memory. `Busy` if too many writers came in between: then
    /// nothing has changed. Pauses while readers of the previous payload come and go.
    pub fn try_remove<R: Wait>(
        &self,
        rt: &R,
        guard: &mut PayloadGuard<P>,
        key: &K,
    ) -> Result<Option<Lent<'_, P>>, Busy>
        requires map { IsGuardOf self.now guard.old }
        ensures map { KnowsMore guard.old guard.new }
        ensures made { IfOk result (λ before.
            FindsPayload (removed guard.old.tickets.caller (K.number key.now))
            guard.old.tickets guard.new before) }
        ensures table { IfOk result (λ before. IfSome before (λ lent. lent.table ≡ self.now.table)) }
        ensures busy { OnErr result (guard.new ≡ guard.old) }
    {
        let previous = self.pool.remove(&mut guard.guard, key.into_u64())?;
        Ok(self.retire(rt, guard, previous))
    }

    /// Removes the key, and returns the previous payload, lent. Needs no memory. Pauses where `try_remove` is busy, and goes on.
    pub fn remove<R: Wait>(
        &self,
        rt: &R,
        guard: &mut PayloadGuard<P>,
        key: &K,
    ) -> Option<Lent<'_, P>>
        requires map { IsGuardOf self.now guard.old }
        ensures map { KnowsMore guard.old guard.new }
        ensures made { FindsPayload (removed guard.old.tickets.caller (K.number key.now))
            guard.old.tickets guard.new result }
        ensures table { IfSome result (λ lent. lent.table ≡ self.now.table) }
    {
        let pause = Backoff::new();
        for _ in rt.forever() {
            if let Ok(before) = self.try_remove(rt, guard, key) {
                return before;
            }
            pause.snooze();
        }
        unreachable!()
    }
}
