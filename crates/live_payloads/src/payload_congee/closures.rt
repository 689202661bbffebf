//! The calls that compute a key's payload by a closure.
//!
//! A call looks the key up, calls the closure while nothing is locked, and then exchanges the payload by its ticket.
//!
//! Tested in `test_live_payloads`.
ghost use Rattle.std.specs.Prelude.{◌≡◌, ℕ, Option, None, Some, IfOk, IfErr, IfSome, IfNone, IsSomeAnd, OnErr, option_copied};
ghost use Rattle.std.specs.Fn.{CalledAt};
ghost use Rattle.live_growth.specs.declared.map.Refusal.TheVariants.{OutOfMemory as IsOutOfMemory};
ghost use Rattle.live_updates.specs.Closures.{Reaches, EndsWithCall};
ghost use Rattle.live_payloads.specs.Payloads.{IsGuardOf, KnowsMore};
ghost use Rattle.live_payloads.specs.Tries.{Tried, ChangedNone, FindsAtLast, AddsPayload, ReplacesPayload};
ghost use Rattle.live_payloads.specs.Computes.{CalledAtOption, StoresComputed};

use super::PayloadCongee;
use crate::guard::PayloadGuard;
use crossbeam_utils::Backoff;
use live_growth::map::Refusal;
use spec_map::traits::Word;
use std::alloc::{AllocFailed, Global};
use std::sync::Wait;
use word_slots::lent::Lent;
use word_slots::slots::Slots;

// `None` with the lifetime of the slots.
fn nothing<P: Drop>(_slots: &Slots<P>) -> Option<&P>
    ensures { option_copied result ≡ None }
{
    None
}

impl<K: Word, P: Drop> PayloadCongee<K, P> {
    // Stores another payload in the place of the one that is lent, or removes the key for `None`. Else the new one comes back:
    // `Refusal::Busy` also where the key had another one by then.
    fn replace<R: Wait>(
        &self,
        rt: &R,
        alloc: Global,
        guard: &mut PayloadGuard<P>,
        key: &K,
        old: &Lent<'_, P>,
        new: Option<P>,
    ) -> Result<(), (Refusal, Option<P>)>
        requires map { IsGuardOf self.now guard.old }
        requires table { old.now.table ≡ self.now.table }
        ensures map { KnowsMore guard.old guard.new }
        ensures made { IfOk result (λ _. IsSomeAnd old.now.value (λ payload.
            ReplacesPayload (K.number key.now) old.now.ticket payload new guard.old guard.new)) }
        ensures refused { OnErr result (Tried (ChangedNone (K.number key.now))
            guard.old.tickets guard.new.tickets) }
        ensures back { IfErr result (λ refused. refused.1 ≡ new) }
    {
        old.inform(&mut guard.seen);
        match self.try_compare_exchange(rt, alloc, guard, key, old, new) {
            Ok(Ok(())) => Ok(()),
            Ok(Err(back)) => Err((Refusal::Busy, back)),
            Err(refused) => Err(refused),
        }
    }

    /// If the key is present, calls the closure with its payload, and stores what the closure returns. For `None` it removes the
    /// key. Returns the payload that the closure was called with, lent, or `None` where the key is absent. The closure is called
    /// once at most, while nothing is locked. `Refusal::Busy` if too many writers came in between, and `Refusal::OutOfMemory` if
    /// memory was missing for a slot: then the key keeps its payload, and the error has what the closure returned, if it was
    /// called. Pauses while readers of the previous payload come and go.
    pub fn try_compute_if_present<R: Wait, F: FnMut(&P) -> Option<P>>(
        &self,
        rt: &R,
        alloc: Global,
        guard: &mut PayloadGuard<P>,
        key: &K,
        f: &mut F,
    ) -> Result<Option<Lent<'_, P>>, (Refusal, Option<P>)>
        requires map { IsGuardOf self.now guard.old }
        requires callable { F.IsAlwaysCallable f.old }
        ensures map { KnowsMore guard.old guard.new }
        ensures callable { F.IsAlwaysCallable f.new }
        ensures reached { Reaches (CalledAt F.FnMut) f.old f.new }
        ensures absent { IfOk result (λ done. IfNone done
            (FindsAtLast (K.number key.now) guard.old None guard.new)) }
        ensures made { IfOk result (λ done. IfSome done (λ lent.
            (old : P) × (new : Option P) × (lent.value ≡ Some old) × EndsWithCall (CalledAt F.FnMut) f.old old new f.new
            × ReplacesPayload (K.number key.now) lent.ticket old new guard.old guard.new)) }
        ensures table { IfOk result (λ done. IfSome done (λ lent. lent.table ≡ self.now.table)) }
        ensures refused { OnErr result (Tried (ChangedNone (K.number key.now))
            guard.old.tickets guard.new.tickets) }
        ensures back { IfErr result (λ refused. refused.0 ≡ IsOutOfMemory → (old : P)
            × EndsWithCall (CalledAt F.FnMut) f.old old refused.1 f.new) }
    {
        match self.try_get(guard, key) {
            Ok(Some(lent)) => {
                let new = f(lent.get());
                match self.replace(rt, alloc, guard, key, &lent, new) {
                    Ok(()) => Ok(Some(lent)),
                    Err(refused) => Err(refused),
                }
            }
            Ok(None) => Ok(None),
            Err(_) => Err((Refusal::Busy, None)),
        }
    }

    /// If the key is present, calls the closure with its payload, and stores what the closure returns. For `None` it removes the
    /// key. Returns the payload that the closure was called with, lent, or `None` where the key is absent. The closure is called
    /// while nothing is locked. It may be called again, and the last call counts. If memory was missing for a slot, the error has
    /// what the closure returned last, and the key keeps its payload.
    pub fn compute_if_present<R: Wait, F: FnMut(&P) -> Option<P>>(
        &self,
        rt: &R,
        alloc: Global,
        guard: &mut PayloadGuard<P>,
        key: &K,
        f: &mut F,
    ) -> Result<Option<Lent<'_, P>>, AllocFailed<Option<P>>>
        requires map { IsGuardOf self.now guard.old }
        requires callable { F.IsAlwaysCallable f.old }
        ensures map { KnowsMore guard.old guard.new }
        ensures callable { F.IsAlwaysCallable f.new }
        ensures reached { Reaches (CalledAt F.FnMut) f.old f.new }
        ensures absent { IfOk result (λ done. IfNone done
            (FindsAtLast (K.number key.now) guard.old None guard.new)) }
        ensures made { IfOk result (λ done. IfSome done (λ lent.
            (old : P) × (new : Option P) × (lent.value ≡ Some old) × EndsWithCall (CalledAt F.FnMut) f.old old new f.new
            × ReplacesPayload (K.number key.now) lent.ticket old new guard.old guard.new)) }
        ensures table { IfOk result (λ done. IfSome done (λ lent. lent.table ≡ self.now.table)) }
        ensures refused { OnErr result (Tried (ChangedNone (K.number key.now))
            guard.old.tickets guard.new.tickets) }
        ensures back { IfErr result (λ failed. (old : P)
            × EndsWithCall (CalledAt F.FnMut) f.old old failed.value f.new) }
    {
        let pause = Backoff::new();
        for _ in rt.forever() {
            match self.try_compute_if_present(rt, alloc, guard, key, f) {
                Ok(done) => return Ok(done),
                Err((Refusal::OutOfMemory, back)) => return Err(AllocFailed { value: back }),
                Err((Refusal::Busy, _)) => {}
            }
            pause.snooze();
        }
        unreachable!()
    }

    // Calls the closure with no payload, and stores what it returns at the key, which is absent. Else that comes back:
    // `Refusal::Busy` also where the key is present.
    fn add_computed<R: Wait, F: FnMut(Option<&P>) -> P>(
        &self,
        rt: &R,
        alloc: Global,
        guard: &mut PayloadGuard<P>,
        number: u64,
        f: &mut F,
    ) -> Result<(), (Refusal, P)>
        requires map { IsGuardOf self.now guard.old }
        requires callable { F.IsAlwaysCallable f.old }
        ensures map { KnowsMore guard.old guard.new }
        ensures callable { F.IsAlwaysCallable f.new }
        ensures reached { Reaches (CalledAtOption F.FnMut) f.old f.new }
        ensures added { IfOk result (λ _. (ticket : ℕ) × (payload : P)
            × EndsWithCall (CalledAtOption F.FnMut) f.old None payload f.new
            × AddsPayload number ticket payload guard.old guard.new) }
        ensures refused { OnErr result (Tried (ChangedNone number) guard.old.tickets guard.new.tickets) }
        ensures back { IfErr result (λ refused.
            EndsWithCall (CalledAtOption F.FnMut) f.old None refused.1 f.new) }
    {
        let payload = f(nothing(&self.slots));
        match self.add(rt, alloc, guard, number, payload) {
            Ok(_) => Ok(()),
            Err(refused) => Err(refused),
        }
    }

    // Calls the closure with the payload that is lent, and stores what it returns in the place of that one. Else it comes back:
    // `Refusal::Busy` also where the key had another payload by then.
    fn replace_computed<R: Wait, F: FnMut(Option<&P>) -> P>(
        &self,
        rt: &R,
        alloc: Global,
        guard: &mut PayloadGuard<P>,
        key: &K,
        lent: &Lent<'_, P>,
        f: &mut F,
    ) -> Result<(), (Refusal, Option<P>)>
        requires map { IsGuardOf self.now guard.old }
        requires table { lent.now.table ≡ self.now.table }
        requires callable { F.IsAlwaysCallable f.old }
        ensures map { KnowsMore guard.old guard.new }
        ensures callable { F.IsAlwaysCallable f.new }
        ensures reached { Reaches (CalledAtOption F.FnMut) f.old f.new }
        ensures made { IfOk result (λ _. IsSomeAnd lent.now.value (λ old. (new : P)
            × EndsWithCall (CalledAtOption F.FnMut) f.old (Some old) new f.new
            × ReplacesPayload (K.number key.now) lent.now.ticket old (Some new) guard.old guard.new)) }
        ensures refused { OnErr result (Tried (ChangedNone (K.number key.now))
            guard.old.tickets guard.new.tickets) }
        ensures back { IfErr result (λ refused. IsSomeAnd refused.1 (λ back. (asked : Option P)
            × EndsWithCall (CalledAtOption F.FnMut) f.old asked back f.new)) }
    {
        let new = f(Some(lent.get()));
        self.replace(rt, alloc, guard, key, lent, Some(new))
    }

    /// Calls the closure with the key's payload, or with `None` where the key is absent, and stores what it returns. The payload
    /// that the closure was called with, lent, if there was one. The closure is called once at most, while nothing is locked.
    /// `Refusal::Busy` if too many writers came in between, and `Refusal::OutOfMemory` if memory was missing for a slot or for a
    /// new key: then the key stays as it is, and the error has what the closure returned, if it was called. Pauses while readers
    /// of the previous payload come and go.
    pub fn try_compute_or_insert<R: Wait, F: FnMut(Option<&P>) -> P>(
        &self,
        rt: &R,
        alloc: Global,
        guard: &mut PayloadGuard<P>,
        key: &K,
        f: &mut F,
    ) -> Result<Option<Lent<'_, P>>, (Refusal, Option<P>)>
        requires map { IsGuardOf self.now guard.old }
        requires callable { F.IsAlwaysCallable f.old }
        ensures map { KnowsMore guard.old guard.new }
        ensures callable { F.IsAlwaysCallable f.new }
        ensures reached { Reaches (CalledAtOption F.FnMut) f.old f.new }
        ensures stored { IfOk result (λ before.
            StoresComputed (CalledAtOption F.FnMut) f.old f.new (K.number key.now) before guard.old guard.new) }
        ensures table { IfOk result (λ before. IfSome before (λ lent. lent.table ≡ self.now.table)) }
        ensures refused { OnErr result (Tried (ChangedNone (K.number key.now))
            guard.old.tickets guard.new.tickets) }
        ensures back { IfErr result (λ refused. refused.0 ≡ IsOutOfMemory → IsSomeAnd refused.1 (λ back.
            (asked : Option P) × EndsWithCall (CalledAtOption F.FnMut) f.old asked back f.new)) }
    {
        match self.try_get(guard, key) {
            Ok(Some(lent)) => match self.replace_computed(rt, alloc, guard, key, &lent, f) {
                Ok(()) => Ok(Some(lent)),
                Err(refused) => Err(refused),
            },
            Ok(None) => match self.add_computed(rt, alloc, guard, key.into_u64(), f) {
                Ok(()) => Ok(None),
                Err((why, back)) => Err((why, Some(back))),
            },
            Err(_) => Err((Refusal::Busy, None)),
        }
    }

    /// Calls the closure with the key's payload, or with `None` where the key is absent, and stores what it returns. The payload
    /// that the closure was called with, lent, if there was one. The closure is called while nothing is locked. It may be called
    /// again, and the last call counts. If memory was missing for a slot or for a new key, the error has what the closure returned
    /// last, and the key stays as it is.
    pub fn compute_or_insert<R: Wait, F: FnMut(Option<&P>) -> P>(
        &self,
        rt: &R,
        alloc: Global,
        guard: &mut PayloadGuard<P>,
        key: &K,
        f: &mut F,
    ) -> Result<Option<Lent<'_, P>>, AllocFailed<P>>
        requires map { IsGuardOf self.now guard.old }
        requires callable { F.IsAlwaysCallable f.old }
        ensures map { KnowsMore guard.old guard.new }
        ensures callable { F.IsAlwaysCallable f.new }
        ensures reached { Reaches (CalledAtOption F.FnMut) f.old f.new }
        ensures stored { IfOk result (λ before.
            StoresComputed (CalledAtOption F.FnMut) f.old f.new (K.number key.now) before guard.old guard.new) }
        ensures table { IfOk result (λ before. IfSome before (λ lent. lent.table ≡ self.now.table)) }
        ensures refused { OnErr result (Tried (ChangedNone (K.number key.now))
            guard.old.tickets guard.new.tickets) }
        ensures back { IfErr result (λ failed. (asked : Option P)
            × EndsWithCall (CalledAtOption F.FnMut) f.old asked failed.value f.new) }
    {
        let pause = Backoff::new();
        for _ in rt.forever() {
            match self.try_compute_or_insert(rt, alloc, guard, key, f) {
                Ok(before) => return Ok(before),
                Err((Refusal::OutOfMemory, back)) => {
                    let Some(value) = back else { unreachable!() };
                    return Err(AllocFailed { value });
                }
                Err((Refusal::Busy, _)) => {}
            }
            pause.snooze();
        }
        unreachable!()
    }
}
