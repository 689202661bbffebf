//! `get_or_insert`: a payload for an absent key.
//!
//! Tested in `test_live_payloads`.
ghost use Rattle.std.specs.Prelude.{◌≡◌, ◌⊎◌, None, Some, IfOk, IfErr, IfSome, IfNone, OnErr};
ghost use Rattle.live_growth.specs.declared.map.Refusal.TheVariants.{Busy as IsBusy, OutOfMemory as IsOutOfMemory};
ghost use Rattle.live_updates.specs.Refusals.{FoundNone};
ghost use Rattle.live_payloads.specs.Payloads.{IsGuardOf, KnowsMore};
ghost use Rattle.live_payloads.specs.Tries.{Tried, ChangedNone, FindsAtLast, AddsPayload};

use super::PayloadCongee;
use crate::guard::PayloadGuard;
use crossbeam_utils::Backoff;
use live_growth::map::Refusal;
use spec_map::traits::Word;
use std::alloc::{AllocFailed, Global};
use std::sync::Wait;
use word_slots::lent::Lent;
use word_slots::log::agree;

impl<K: Word, P: Drop> PayloadCongee<K, P> {
    // Stores a payload at an absent key, and returns it, lent. Else it comes back: `Refusal::Busy` also where the key was present.
    pub(super) fn add<R: Wait>(
        &self,
        rt: &R,
        alloc: Global,
        guard: &mut PayloadGuard<P>,
        number: u64,
        payload: P,
    ) -> Result<Lent<'_, P>, (Refusal, P)>
        requires map { IsGuardOf self.now guard.old }
        ensures map { KnowsMore guard.old guard.new }
        ensures added { IfOk result (λ lent. (lent.value ≡ Some payload)
            × AddsPayload number lent.ticket payload guard.old guard.new) }
        ensures table { IfOk result (λ lent. lent.table ≡ self.now.table) }
        ensures busy { IfErr result (λ refused. refused.0 ≡ IsBusy
            → Tried (ChangedNone number) guard.old.tickets guard.new.tickets) }
        ensures memory { IfErr result (λ refused. refused.0 ≡ IsOutOfMemory
            → (guard.new.tickets ≡ guard.old.tickets)
            ⊎ FoundNone guard.old.tickets number guard.new.tickets) }
        ensures back { IfErr result (λ refused. refused.1 ≡ payload) }
    {
        let ticket = self.issue(alloc, guard, payload)?;
        let Some(lent) = self.lend(guard, ticket) else {
            return Err((Refusal::Busy, self.withdraw(rt, guard, ticket)));
        };
        let why = match self
            .pool
            .get_or_insert(alloc, &mut guard.guard, number, ticket)
        {
            Ok(None) => {
                agree(&guard.seen);
                return Ok(lent);
            }
            Ok(Some(_)) => Refusal::Busy,
            Err(why) => why,
        };
        drop(lent);
        Err((why, self.withdraw(rt, guard, ticket)))
    }

    /// The key's current payload, lent, and the one that was handed in. An absent key gets that one, which is then lent, and
    /// `None` is beside it. `Refusal::Busy` if too many writers came in between, and `Refusal::OutOfMemory` if memory was missing
    /// for a slot or for a new key, which was absent then: the very payload comes back. Pauses while readers of that payload come
    /// and go.
    pub fn try_get_or_insert<R: Wait>(
        &self,
        rt: &R,
        alloc: Global,
        guard: &mut PayloadGuard<P>,
        key: &K,
        payload: P,
    ) -> Result<(Lent<'_, P>, Option<P>), (Refusal, P)>
        requires map { IsGuardOf self.now guard.old }
        ensures map { KnowsMore guard.old guard.new }
        ensures added { IfOk result (λ both. IfNone both.1 ((both.0.value ≡ Some payload)
            × AddsPayload (K.number key.now) both.0.ticket payload guard.old guard.new)) }
        ensures found { IfOk result (λ both. IfSome both.1 (λ back. (back ≡ payload)
            × FindsAtLast (K.number key.now) guard.old (Some both.0) guard.new)) }
        ensures table { IfOk result (λ both. both.0.table ≡ self.now.table) }
        ensures busy { IfErr result (λ refused. refused.0 ≡ IsBusy
            → Tried (ChangedNone (K.number key.now)) guard.old.tickets guard.new.tickets) }
        ensures memory { IfErr result (λ refused. refused.0 ≡ IsOutOfMemory
            → FindsAtLast (K.number key.now) guard.old None guard.new) }
        ensures back { IfErr result (λ refused. refused.1 ≡ payload) }
    {
        match self.try_get(guard, key) {
            Ok(Some(lent)) => Ok((lent, Some(payload))),
            Ok(None) => match self.add(rt, alloc, guard, key.into_u64(), payload) {
                Ok(lent) => Ok((lent, None)),
                Err(refused) => Err(refused),
            },
            Err(_) => Err((Refusal::Busy, payload)),
        }
    }

    /// The key's current payload, lent, and the one that was handed in. An absent key gets that one, which is then lent, and
    /// `None` is beside it. Pauses where `try_get_or_insert` is busy, and goes on. If memory was missing for a slot or for a new
    /// key, the error has the very payload: the key was absent then.
    pub fn get_or_insert<R: Wait>(
        &self,
        rt: &R,
        alloc: Global,
        guard: &mut PayloadGuard<P>,
        key: K,
        payload: P,
    ) -> Result<(Lent<'_, P>, Option<P>), AllocFailed<P>>
        requires map { IsGuardOf self.now guard.old }
        ensures map { KnowsMore guard.old guard.new }
        ensures added { IfOk result (λ both. IfNone both.1 ((both.0.value ≡ Some payload)
            × AddsPayload (K.number key) both.0.ticket payload guard.old guard.new)) }
        ensures found { IfOk result (λ both. IfSome both.1 (λ back. (back ≡ payload)
            × FindsAtLast (K.number key) guard.old (Some both.0) guard.new)) }
        ensures table { IfOk result (λ both. both.0.table ≡ self.now.table) }
        ensures refused { OnErr result (FindsAtLast (K.number key) guard.old None guard.new) }
        ensures back { IfErr result (λ failed. failed.value ≡ payload) }
    {
        let mut payload = payload;
        let pause = Backoff::new();
        for _ in rt.forever() {
            match self.try_get_or_insert(rt, alloc, guard, &key, payload) {
                Ok(both) => return Ok(both),
                Err((Refusal::OutOfMemory, back)) => return Err(AllocFailed { value: back }),
                Err((Refusal::Busy, back)) => payload = back,
            }
            pause.snooze();
        }
        unreachable!()
    }
}
