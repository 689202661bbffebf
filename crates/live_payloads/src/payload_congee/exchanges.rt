//! Exchanges of the payload that a caller has lent.
ghost use Rattle.std.specs.Prelude.{◌≡◌, ℕ, Option, Ok, Err, IfOk, IfErr, IfSome, OnOk};
ghost use Rattle.word_slots.specs.Tickets.{IsNew};
ghost use Rattle.live_payloads.specs.Payloads.{IsGuardOf, KnowsMore, IsPayloadOf, ExchangesPayload};

use super::PayloadCongee;
use crate::guard::PayloadGuard;
use crossbeam_utils::Backoff;
use live_growth::map::Refusal;
use spec_map::traits::Word;
use std::alloc::{AllocFailed, Global};
use std::sync::Wait;
use word_slots::lent::Lent;

impl<K: Word, P: Drop> PayloadCongee<K, P> {
    // Puts a payload into a slot, if there is one.
    fn issue_new(
        &self,
        alloc: Global,
        guard: &mut PayloadGuard<P>,
        new: Option<P>,
    ) -> Result<Option<u64>, (Refusal, Option<P>)>
        requires map { IsGuardOf self.now guard.old }
        ensures map { KnowsMore guard.old guard.new }
        ensures tickets { guard.new.tickets ≡ guard.old.tickets }
        ensures first { IfOk result (λ ticket. IfSome ticket (IsNew guard.old.log)) }
        ensures issued { IfOk result (λ ticket. IsPayloadOf guard.new.log ticket new) }
        ensures back { IfErr result (λ refused. refused.1 ≡ new) }
    {
        let Some(payload) = new else {
            return Ok(None);
        };
        match self.issue(alloc, guard, payload) {
            Ok(ticket) => Ok(Some(ticket)),
            Err((why, back)) => Err((why, Some(back))),
        }
    }

    // Takes a payload back whose ticket isn't stored, if there is one.
    fn withdraw_new<R: Wait>(
        &self,
        rt: &R,
        guard: &mut PayloadGuard<P>,
        ticket: Option<u64>,
    ) -> Option<P>
        requires map { IsGuardOf self.now guard.old }
        ensures map { KnowsMore guard.old guard.new }
        ensures tickets { guard.new.tickets ≡ guard.old.tickets }
        ensures payload { (new : _) → IsPayloadOf guard.old.log ticket new → result ≡ new }
    {
        match ticket {
            Some(ticket) => Some(self.withdraw(rt, guard, ticket)),
            None => None,
        }
    }

    /// If the key still has this very payload, stores another one in its place, or removes the key for `None`. Else `Ok(Err(..))`
    /// has the new payload. Which payload it is is decided by its insertion, not by what is equal. `Refusal::Busy` if too many
    /// writers came in between, and `Refusal::OutOfMemory` if memory was missing for a slot: then the new payload comes back, too.
    /// The old one stays with its `Lent`. Pauses while other readers of the old payload come and go.
    pub fn try_compare_exchange<R: Wait>(
        &self,
        rt: &R,
        alloc: Global,
        guard: &mut PayloadGuard<P>,
        key: &K,
        old: &Lent<'_, P>,
        new: Option<P>,
    ) -> Result<Result<(), Option<P>>, (Refusal, Option<P>)>
        requires map { IsGuardOf self.now guard.old }
        requires table { old.now.table ≡ self.now.table }
        ensures map { KnowsMore guard.old guard.new }
        ensures made { IfOk result (λ answer. OnOk answer
            (ExchangesPayload (K.number key.now) old.now.ticket new (λ ticket. Ok ticket) guard.old guard.new)) }
        ensures changed { IfOk result (λ answer. IfErr answer (λ back. (back ≡ new) × ((found : Option ℕ)
            × ExchangesPayload (K.number key.now) old.now.ticket new (λ ticket. Err found) guard.old guard.new))) }
        ensures refused { IfErr result (λ refused. (refused.1 ≡ new)
            × (guard.new.tickets ≡ guard.old.tickets)) }
    {
        let ticket = self.issue_new(alloc, guard, new)?;
        let number = key.into_u64();
        match self
            .pool
            .compare_exchange(&mut guard.guard, number, old.ticket(), ticket)
        {
            Ok(Ok(_)) => {
                drop(self.slots.retire(rt, old.ticket()));
                Ok(Ok(()))
            }
            Ok(Err(_)) => Ok(Err(self.withdraw_new(rt, guard, ticket))),
            Err(_) => Err((Refusal::Busy, self.withdraw_new(rt, guard, ticket))),
        }
    }

    /// If the key still has this very payload, stores another one in its place, or removes the key for `None`. Else `Ok(Err(..))`
    /// has the new payload. Which payload it is is decided by its insertion, not by what is equal. Pauses where
    /// `try_compare_exchange` is busy, and goes on. If memory was missing for a slot, the error has the new payload.
    pub fn compare_exchange<R: Wait>(
        &self,
        rt: &R,
        alloc: Global,
        guard: &mut PayloadGuard<P>,
        key: &K,
        old: &Lent<'_, P>,
        new: Option<P>,
    ) -> Result<Result<(), Option<P>>, AllocFailed<Option<P>>>
        requires map { IsGuardOf self.now guard.old }
        requires table { old.now.table ≡ self.now.table }
        ensures map { KnowsMore guard.old guard.new }
        ensures made { IfOk result (λ answer. OnOk answer
            (ExchangesPayload (K.number key.now) old.now.ticket new (λ ticket. Ok ticket) guard.old guard.new)) }
        ensures changed { IfOk result (λ answer. IfErr answer (λ back. (back ≡ new) × ((found : Option ℕ)
            × ExchangesPayload (K.number key.now) old.now.ticket new (λ ticket. Err found) guard.old guard.new))) }
        ensures refused { IfErr result (λ failed. (failed.value ≡ new)
            × (guard.new.tickets ≡ guard.old.tickets)) }
    {
        let mut new = new;
        let pause = Backoff::new();
        for _ in rt.forever() {
            match self.try_compare_exchange(rt, alloc, guard, key, old, new) {
                Ok(answer) => return Ok(answer),
                Err((Refusal::OutOfMemory, back)) => return Err(AllocFailed { value: back }),
                Err((Refusal::Busy, back)) => new = back,
            }
            pause.snooze();
        }
        unreachable!()
    }
}
