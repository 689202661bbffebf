//! The map with one owner, and a map from one that has an owner.
//!
//! All memory is taken first, so that no payload is between the maps where memory is missing: then the map that was to be moved
//! is as it was.
//!
//! Tested in `test_live_payloads`.
ghost use Rattle.std.specs.Prelude.{◌≡◌, IfOk, IfErr, OnErr};
ghost use mathlib.Core.List.{IsPrefix};
ghost use Rattle.live_scans.specs.Scans.{HasWaited, Waits};
ghost use Rattle.word_slots.specs.Tickets.{HasIssued};
ghost use Rattle.live_payloads.specs.Payloads.{IsGuardOf, KnowsMore};
ghost use Rattle.live_payloads.specs.Moves.{HasMovedOut, HasMovedIn};
ghost use Rattle.live_payloads.specs.inner.Moves.{map_of, HaveSameKeys, ArePlaced, AreIssuedFor};

use super::PayloadCongee;
use crate::guard::PayloadGuard;
use crossbeam_utils::Backoff;
use face_payloads::congee_arc::PayloadCongee as Owned;
use live_copies::moves::{copied, filled};
use spec_map::error::OOMError;
use spec_map::payload::Payload;
use spec_map::traits::Word;
use std::alloc::{AllocFailed, Global};
use std::marker::PhantomData;
use std::sync::Wait;
use std::sync::atomic::AtomicU64;
use word_slots::lent::Lent;
use word_slots::log::SeenLog;
use word_slots::slots::{Lack, Slots};

// Puts a payload into a slot, and returns its ticket. Pauses where a slot is busy, and goes on.
fn entered<R: Wait, P: Drop>(
    rt: &R,
    alloc: Global,
    slots: &Slots<P>,
    seen: &mut SeenLog<P>,
    payload: P,
) -> Result<u64, OOMError>
    requires table { seen.old.book ≡ slots.now }
    ensures table { seen.new.book ≡ seen.old.book }
    ensures grown { IsPrefix seen.old.log seen.new.log }
    ensures issued { IfOk result (λ ticket. HasIssued seen.new.log ticket payload) }
{
    let mut payload = payload;
    let pause = Backoff::new();
    for _ in rt.forever() {
        match slots.insert(alloc, seen, 0, payload) {
            Ok(ticket) => return Ok(ticket),
            Err((Lack::Memory, _)) => return Err(OOMError::new()),
            Err((Lack::Busy, back)) => payload = back,
        }
        pause.snooze();
    }
    unreachable!()
}

// Issues a ticket for a further owner of each payload: the keys' numbers and the tickets.
fn issued<R: Wait, K: Word, P: Payload>(
    rt: &R,
    alloc: Global,
    slots: &Slots<P>,
    seen: &mut SeenLog<P>,
    owned: &Owned<K, P>,
) -> Result<Vec<(u64, u64)>, OOMError>
    requires table { seen.old.book ≡ slots.now }
    ensures table { seen.new.book ≡ seen.old.book }
    ensures issued { IfOk result (λ tickets.
        AreIssuedFor P.alike seen.new.log owned.now.pairs tickets.items) }
{
    // For the proof: brings the order of the keys into scope.
    owned.law_ordered();
    let numbers = owned.numbers()?;
    let mut tickets = Vec::with_capacity(alloc, numbers.len())?;
    for &number in &numbers {
        let Some(payload) = owned.get_by_number(number) else {
            unreachable!()
        };
        let ticket = entered(rt, alloc, slots, seen, payload.share()?)?;
        tickets.push((number, ticket))?;
    }
    Ok(tickets)
}

// A map for threads with further owners of these payloads, and a guard that has seen them.
fn moved_in<R: Wait, K: Word, P: Payload>(
    rt: &R,
    alloc: Global,
    owned: &Owned<K, P>,
) -> Result<(PayloadCongee<K, P>, PayloadGuard<P>), OOMError>
    ensures map { IfOk result (λ both. IsGuardOf both.0 both.1) }
    ensures moved { IfOk result (λ both. HasMovedIn P.alike owned.now.pairs both.1) }
{
    let slots = Slots::new(alloc)?;
    let mut seen = slots.seen();
    let tickets = issued(rt, alloc, &slots, &mut seen, owned)?;
    let (pool, guard) = filled(rt, alloc, &tickets)?;
    let map = PayloadCongee {
        pool,
        slots,
        pinned: AtomicU64::new(1),
        of: PhantomData,
    };
    let guard = PayloadGuard {
        guard,
        seen,
        hint: 0,
    };
    Ok((map, guard))
}

impl<K: Word, P: Payload> PayloadCongee<K, P> {
    // The payload of a ticket that is stored, in its slot. Pauses while other readers of it come and go.
    fn lend_stored<R: Wait>(&self, rt: &R, ticket: u64) -> Lent<'_, P> {
        let pause = Backoff::new();
        for _ in rt.forever() {
            if let Some(lent) = self.slots.lend(ticket) {
                return lent;
            }
            pause.snooze();
        }
        unreachable!()
    }

    // A map with one owner and with these keys. A further owner of each payload keeps its place.
    fn with_places<R: Wait>(
        &self,
        rt: &R,
        alloc: Global,
        tickets: &[(u64, u64)],
    ) -> Result<Owned<K, P>, OOMError>
        ensures keys { IfOk result (λ owned. HaveSameKeys tickets.now owned.pairs) }
    {
        let mut owned = Owned::new(alloc)?;
        for &(number, ticket) in tickets {
            let further = self.lend_stored(rt, ticket).get().share()?;
            let _ = owned.insert_by_number(number, further)?;
        }
        Ok(owned)
    }

    // Takes each payload out of its slot, and puts it into its place.
    fn placed<R: Wait>(
        &self,
        rt: &R,
        seen: &mut SeenLog<P>,
        tickets: &[(u64, u64)],
        places: Owned<K, P>,
    ) -> Owned<K, P>
        requires table { seen.old.book ≡ self.now.table }
        requires keys { HaveSameKeys tickets.now places.pairs }
        ensures table { seen.new.book ≡ seen.old.book }
        ensures grown { IsPrefix seen.old.log seen.new.log }
        ensures keys { HaveSameKeys tickets.now result.pairs }
        ensures placed { ArePlaced seen.new.log (map_of tickets.now) result.pairs }
    {
        let mut owned = places;
        for &(number, ticket) in tickets {
            let payload = self.slots.take(rt, seen, ticket);
            if owned.insert_by_number(number, payload).is_err() {
                unreachable!()
            }
        }
        owned
    }

    // The map with one owner. Where memory is missing, no payload has left its slot.
    fn moved_out<R: Wait>(
        &self,
        rt: &R,
        alloc: Global,
        guard: &mut PayloadGuard<P>,
    ) -> Result<Owned<K, P>, OOMError>
        requires map { IsGuardOf self.now guard.old }
        ensures map { KnowsMore guard.old guard.new }
        ensures moved { IfOk result (λ owned. Waits guard.old.tickets
            (λ k. HasMovedOut k owned.pairs guard.new)) }
        ensures refused { OnErr result (HasWaited guard.old.tickets guard.new.tickets) }
    {
        let tickets = copied(rt, &self.pool.map, alloc, &mut guard.guard)?;
        let places = self.with_places(rt, alloc, &tickets)?;
        Ok(self.placed(rt, &mut guard.seen, &tickets, places))
    }

    /// The map with one owner, which has each payload itself. Its pairs are those that the guard's history leads to then. If
    /// memory is missing, the error gives this map back, as it was. What the guards of this map know lasts. They can meet, and
    /// make no more calls. Pauses while writers and readers come in between, and goes on.
    ///
    /// A further owner of each payload, by `Payload::share`, keeps its place in the new map until the payload itself is there.
    /// Beside both maps it takes 32 bytes and more a pair meanwhile.
    pub fn into_owned<R: Wait>(
        self,
        rt: &R,
        alloc: Global,
        guard: &mut PayloadGuard<P>,
    ) -> Result<Owned<K, P>, AllocFailed<Self>>
        requires map { IsGuardOf self guard.old }
        ensures map { KnowsMore guard.old guard.new }
        ensures moved { IfOk result (λ owned. Waits guard.old.tickets
            (λ k. HasMovedOut k owned.pairs guard.new)) }
        ensures kept { IfErr result (λ failed. failed.value ≡ self) }
        ensures refused { OnErr result (HasWaited guard.old.tickets guard.new.tickets) }
    {
        match self.moved_out(rt, alloc, guard) {
            Ok(owned) => Ok(owned),
            Err(_) => Err(AllocFailed { value: self }),
        }
    }

    /// A map for threads, without a limit, from one with an owner, and a guard. The guard's history leads to a ticket for each
    /// payload, at its key. If memory is missing, the error gives the map with an owner back, as it was. Pauses where a slot or
    /// a node is busy, and goes on.
    ///
    /// The new map has a further owner of each payload, by `Payload::share`: the same number, or one more `Arc`. The map with an
    /// owner, and its own payloads, are dropped once all is there. Beside both maps it takes 32 bytes and more a pair meanwhile.
    pub fn from_owned<R: Wait>(
        rt: &R,
        alloc: Global,
        owned: Owned<K, P>,
    ) -> Result<(Self, PayloadGuard<P>), AllocFailed<Owned<K, P>>>
        ensures map { IfOk result (λ both. IsGuardOf both.0 both.1) }
        ensures moved { IfOk result (λ both. HasMovedIn P.alike owned.pairs both.1) }
        ensures kept { IfErr result (λ failed. failed.value ≡ owned) }
    {
        match moved_in(rt, alloc, &owned) {
            Ok(both) => Ok(both),
            Err(_) => Err(AllocFailed { value: owned }),
        }
    }
}
