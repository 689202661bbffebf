//! `PayloadCongee`, the map from keys to payloads that threads read without a lock, and `CongeeArc`.
//!
//! Tested in `test_live_payloads`.
ghost use Rattle.std.specs.Prelude.{◌≡◌, ◌^◌, ◌-◌, ℕ, [], Some, IfOk, IfErr, IfSome, IfNone, OnErr};
ghost use Rattle.word_slots.specs.Tickets.{HasIssued, IsNew};
ghost use Rattle.live_payloads.specs.Payloads.{IsGuardOf, KnowsMore, IsLoan, LookedInVain, GetsPayload};

mod closures;
mod counts;
mod exchanges;
mod get_or_insert;
mod keys;
mod moves;
mod neighbours;
pub mod owners;
mod pages;
mod pops;
mod updates;

use crate::guard::PayloadGuard;
use crossbeam_utils::Backoff;
use live_growth::map::{Busy, Refusal, TRIES};
use live_pool::pool::Pool;
use spec_map::error::OOMError;
use spec_map::traits::Word;
use std::alloc::Global;
use std::marker::{Model, PhantomData};
use std::sync::atomic::AtomicU64;
use std::sync::atomic::Ordering::SeqCst;
use std::sync::{Arc, Wait};
use word_slots::lent::Lent;
use word_slots::log::agree;
use word_slots::slots::{Lack, Slots};

/// An ordered map from keys that are written as 64-bit numbers to payloads of any type, which threads share. Two keys with one
/// number are one key.
///
/// A look-up takes no lock, and waits for no writer. The payload that it found stays in its slot until the `Lent` is dropped, also
/// where the key is removed meanwhile. The last `Lent` of a payload that is in the map no more drops it.
///
/// Contracts see which map it is. Each call is made by a guard of the map. It is one of the map of tickets, by a legal history
/// as with `Congee`, and each ticket is issued once, for one payload.
#[derive(Drop)]
pub struct PayloadCongee<K: Word, P: Drop> {
    pool: Pool,
    slots: Slots<P>,
    // How many guards there were.
    pinned: AtomicU64,
    of: PhantomData<K>,
}

/// The map from keys to owners of shared values.
pub type CongeeArc<K, V> = PayloadCongee<K, Arc<V>>;

impl<K: Word, P: Drop> Model for PayloadCongee<K, P> {
    ghost use Rattle.live_payloads.specs.Payloads.{PayloadMap, payload_map_coded};

    ghost Value = { PayloadMap };

    ghost coded = { payload_map_coded };

    ghost view = { λ m. record { tickets = m.pool; table = m.slots } };
}

impl<K: Word, P: Drop> PayloadCongee<K, P> {
    /// An empty map. It has a root of 2,104 bytes. Slots for payloads come with the first insertions. `OOMError` if there is no
    /// memory for it.
    pub fn new(alloc: Global) -> Result<Self, OOMError>
        ensures limit { IfOk result (λ map. map.tickets.limit ≡ 2 ^ 64 - 1) }
    {
        PayloadCongee::with_limit(alloc, u64::MAX)
    }

    /// An empty map, whose nodes lie in segments that may take so many bytes together, as in `Congee::with_limit`. The slots of
    /// the payloads are beside these. `OOMError` if memory is missing, or the limit is below the first segment's 4,096 bytes.
    pub fn with_limit(alloc: Global, limit: u64) -> Result<Self, OOMError>
        ensures limit { IfOk result (λ map. map.tickets.limit ≡ limit) }
    {
        Ok(PayloadCongee {
            pool: Pool::with_limit(alloc, limit)?,
            slots: Slots::new(alloc)?,
            pinned: AtomicU64::new(0),
            of: PhantomData,
        })
    }

    /// A guard that has seen nothing. It takes no memory, and waits for nobody.
    pub fn pin(&self) -> PayloadGuard<P>
        ensures map { IsGuardOf self.now result }
        ensures seen { result.tickets.seen ≡ [] }
    {
        PayloadGuard {
            guard: self.pool.pin(),
            seen: self.slots.seen(),
            hint: self.pinned.fetch_add(1, SeqCst) as usize,
        }
    }

    /// Gives a guard back. The next one gets its room for nodes. Nobody waits for one that is kept.
    pub fn unpin(&self, guard: PayloadGuard<P>)
        requires map { IsGuardOf self.now guard }
    {
        let PayloadGuard {
            guard,
            seen: _,
            hint: _,
        } = guard;
        self.pool.unpin(guard);
    }

    /// The payload of a ticket that a page has, in its slot. `None` if the ticket is retired by then, as its key was removed or got
    /// another payload, or if the slot counts as many readers as it can.
    pub fn lend(&self, guard: &mut PayloadGuard<P>, ticket: u64) -> Option<Lent<'_, P>>
        requires map { IsGuardOf self.now guard.old }
        ensures map { KnowsMore guard.old guard.new }
        ensures tickets { guard.new.tickets ≡ guard.old.tickets }
        ensures payload { IfSome result (λ lent. IsLoan guard.new.log ticket lent) }
        ensures table { IfSome result (λ lent. lent.table ≡ self.now.table) }
    {
        let lent = self.slots.lend(ticket)?;
        lent.inform(&mut guard.seen);
        Some(lent)
    }

    // One look-up. `None` where the ticket that it found is retired by then.
    fn look_up(
        &self,
        guard: &mut PayloadGuard<P>,
        number: u64,
    ) -> Result<Option<Option<Lent<'_, P>>>, Busy>
        requires map { IsGuardOf self.now guard.old }
        ensures map { KnowsMore guard.old guard.new }
        ensures made { IfOk result (λ looked. IfSome looked (λ found.
            GetsPayload number guard.old found guard.new)) }
        ensures table { IfOk result (λ looked. IfSome looked (λ found.
            IfSome found (λ lent. lent.table ≡ self.now.table))) }
        ensures vain { IfOk result (λ looked. IfNone looked
            (LookedInVain number guard.old.tickets guard.new.tickets)) }
        ensures busy { OnErr result (guard.new ≡ guard.old) }
    {
        match self.pool.map.get(&mut guard.guard, number)? {
            Some(ticket) => match self.lend(guard, ticket) {
                Some(lent) => Ok(Some(Some(lent))),
                None => Ok(None),
            },
            None => Ok(Some(None)),
        }
    }

    /// The key's current payload, in its slot. `Busy` if too many writers came in between.
    pub fn try_get(&self, guard: &mut PayloadGuard<P>, key: &K) -> Result<Option<Lent<'_, P>>, Busy>
        requires map { IsGuardOf self.now guard.old }
        ensures map { KnowsMore guard.old guard.new }
        ensures made { IfOk result (λ found.
            GetsPayload (K.number key.now) guard.old found guard.new) }
        ensures table { IfOk result (λ found. IfSome found (λ lent. lent.table ≡ self.now.table)) }
        ensures busy { OnErr result
            (LookedInVain (K.number key.now) guard.old.tickets guard.new.tickets) }
    {
        for _ in 0..TRIES {
            if let Some(found) = self.look_up(guard, key.into_u64())? {
                return Ok(found);
            }
        }
        Err(Busy)
    }

    /// The key's current payload, in its slot. Pauses where `try_get` is busy, and goes on.
    pub fn get<R: Wait>(&self, rt: &R, guard: &mut PayloadGuard<P>, key: &K) -> Option<Lent<'_, P>>
        requires map { IsGuardOf self.now guard.old }
        ensures map { KnowsMore guard.old guard.new }
        ensures made { GetsPayload (K.number key.now) guard.old result guard.new }
        ensures table { IfSome result (λ lent. lent.table ≡ self.now.table) }
    {
        let pause = Backoff::new();
        for _ in rt.forever() {
            if let Ok(found) = self.try_get(guard, key) {
                return found;
            }
            pause.snooze();
        }
        unreachable!()
    }
}
