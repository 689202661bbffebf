//! A value that is lent: it is read in its slot.
ghost use Rattle.std.specs.Prelude.{◌≡◌, IfSome, IfOk, IfErr, IsSomeAnd, Some};
ghost use mathlib.Core.List.{IsPrefix};
ghost use Rattle.word_slots.specs.Tickets.{HasIssued};

use crate::log::SeenLog;
use crate::slot::{Slot, Ticketed};
use crate::slots::Slots;
use crate::words::{readers_of, state_of};
use counted_slot::{Claim, MARKED, ONE_READER};
use std::marker::Model;
use std::sync::Wait;

/// A value that stays in its slot for as long as this is kept, also where its ticket is retired meanwhile. It costs one atomic
/// step to have and one to drop, both on the slot's word. The last one of a retired ticket drops the value.
///
/// Contracts see its table, its ticket and the value.
pub struct Lent<'a, V: Drop> {
    slots: &'a Slots<V>,
    slot: &'a Slot<V>,
    ticket: u64,
    claim: Claim<'a, Option<Ticketed<V>>>,
    ghost of: { (slots.now ≡ claim.tag.book) × (slot.now.book ≡ claim.tag.book) },
    ghost reads: { claim.right ≡ 1 },
    ghost filled: { ∥ IsSomeAnd claim.value (λ found. IsSomeAnd found (λ it. it.ticket ≡ ticket)) ∥₁ },
}

impl<'a, V: Drop> Model for Lent<'a, V> {
    ghost use Rattle.word_slots.specs.Tickets.{Loan, loan_coded};
    ghost use Rattle.word_slots.specs.Slots.{value_in};

    ghost Value = { Loan V };

    ghost coded = { loan_coded V.code };

    ghost view = { λ l. record { table = l.claim.tag.book; ticket = l.ticket; value = value_in l.claim.value } };
}

impl<'a, V: Drop> Lent<'a, V> {
    /// What a claim to read has, if it is of this ticket.
    pub(crate) fn of(
        slots: &'a Slots<V>,
        slot: &'a Slot<V>,
        ticket: u64,
        claim: Claim<'a, Option<Ticketed<V>>>,
    ) -> Option<Lent<'a, V>>
        requires right { claim.right ≡ 1 }
        requires table { (slots.now ≡ claim.tag.book) × (slot.now.book ≡ claim.tag.book) }
        ensures { IfSome result (λ l. (l.ticket ≡ ticket) × (l.table ≡ claim.entry.tag.book)) }
    {
        let is_it = match claim.get() {
            Some(found) => found.ticket == ticket,
            None => false,
        };
        if is_it {
            Some(Lent {
                slots,
                slot,
                ticket,
                claim,
            })
        } else {
            leave(slots, slot, claim);
            None
        }
    }

    /// The ticket of the value.
    pub fn ticket(&self) -> u64
        ensures ticket { result ≡ self.now.ticket }
    {
        self.ticket
    }

    /// The value in the slot.
    pub fn get(&self) -> &V
        ensures value { self.now.value ≡ Some result.now }
    {
        match self.claim.get() {
            Some(found) => &found.value,
            None => unreachable!(),
        }
    }

    /// Lets a thread know for which value the ticket was issued. It is the value that this shows.
    pub fn inform(&self, seen: &mut SeenLog<V>)
        requires table { seen.old.book ≡ self.now.table }
        ensures table { seen.new.book ≡ seen.old.book }
        ensures grown { IsPrefix seen.old.log seen.new.log }
        ensures issued { (value : V) × (self.now.value ≡ Some value)
            × HasIssued seen.new.log self.now.ticket value }
    {
        match self.claim.get() {
            Some(found) => seen.learn(&found.seen),
            None => unreachable!(),
        }
    }

    /// The value itself, if its ticket is retired and nobody else reads the value. Else this comes back.
    pub fn into_inner<R: Wait>(self, rt: &R, seen: &mut SeenLog<V>) -> Result<V, Lent<'a, V>>
        requires table { seen.old.book ≡ self.table }
        ensures table { seen.new.book ≡ seen.old.book }
        ensures grown { IsPrefix seen.old.log seen.new.log }
        ensures taken { IfOk result (λ value. HasIssued seen.new.log self.entry.ticket value) }
        ensures back { IfErr result (λ lent. (lent ≡ self.entry) × (seen.new ≡ seen.old)) }
    {
        let slot = self.slot;
        let word = slot.place.load();
        if state_of(word) != MARKED || readers_of(word) != 1 {
            return Err(self);
        }
        let Self {
            slots,
            slot,
            ticket,
            claim,
        } = self;
        claim.leave();
        Ok(slots.take_retired(rt, slot, ticket, seen))
    }
}

// Ends a read. The last reader of a slot whose ticket is retired drops the value.
fn leave<'a, V: Drop>(slots: &Slots<V>, slot: &Slot<V>, claim: Claim<'a, Option<Ticketed<V>>>)
    requires right { claim.right ≡ 1 }
{
    let word = claim.leave();
    if state_of(word) == MARKED && readers_of(word) == 1 {
        slots.vacate(slot, word - ONE_READER);
    }
}

impl<'a, V: Drop> Drop for Lent<'a, V> {
    fn drop(self) {
        let Self {
            slots,
            slot,
            ticket: _,
            claim,
        } = self;
        leave(slots, slot, claim);
    }
}
