//! One slot.
ghost use Rattle.std.specs.Prelude.{◌≡◌, ◌≢◌, ℕ, ◌+◌, ◌-◌, ◌%◌, ◌<◌, true, IfSome, IfOk, IfErr};
ghost use mathlib.Core.List.{IsPrefix};
ghost use Rattle.counted_slot.specs.Counting.{readers};
ghost use Rattle.word_slots.specs.Tickets.{HasIssued, IsNew};
ghost use Rattle.word_slots.specs.Slots.{WasIssued};

use crate::log::{
    Adding, Entering, Issue, IssuedOnce, Issuing, LogEntry, NewSlot, NoGain, SeenLog, TicketCount,
};
use crate::words::{generation_of, state_of, ticket_of, vacated, word_of};
use counted_slot::{Counted, FREE, Fits, PRESENT, TAKEN};
use logbook::{Offer, Word};
use std::marker::Model;
use std::sync::atomic::AtomicU64;
use std::sync::atomic::Ordering::SeqCst;

/// A value as it lies in a slot, with its ticket. Beside them is a log in which the ticket was issued for the value.
#[derive(Drop)]
pub struct Ticketed<V: Drop> {
    pub ticket: u64,
    pub value: V,
    pub seen: SeenLog<V>,
}

impl<V: Drop> Fits for Ticketed<V> {
    ghost use Rattle.word_slots.specs.Slots.{WasIssued};

    type Tag = TicketCount<V>;

    ghost fits = { λ word it. WasIssued word.book it.seen.book it.seen.log it.ticket it.value };
}

/// A slot for a value, with a log in which the slot is. Contracts see its word of the log.
#[derive(Drop)]
pub struct Slot<V: Drop> {
    /// The value, and the word that counts its readers.
    pub place: Counted<Option<Ticketed<V>>>,
    /// 0, or one more than the index of the next free slot.
    pub next: AtomicU64,
    count: TicketCount<V>,
    index: u64,
    seen: SeenLog<V>,
}

impl<V: Drop> Model for Slot<V> {
    ghost use Rattle.std.specs.Prelude.{◌≡◌, ◌<◌, suc, true};
    ghost use Rattle.logbook.specs.Pages.{Named, named_coded};
    ghost use Rattle.word_slots.specs.Tickets.{HasOpened};

    ghost Value = { Named };

    ghost coded = { named_coded };

    ghost view = { λ s. s.count };

    ghost invariant = { λ s. (s.count.tracked ≡ true) × (s.count.key ≡ suc s.index)
        × (s.place ≡ s.count) × (s.index < 4294967296)
        × (s.seen.book ≡ s.count.book) × HasOpened s.seen.log s.index };
}

impl<V: Drop> Slot<V> {
    /// A new slot, which is free, if there are so many. `count` is the word that counts them.
    pub fn add(index: u64, count: &TicketCount<V>, seen: &mut SeenLog<V>) -> Option<Slot<V>>
        requires index { index < 4294967296 }
        requires count { (count.now.tracked ≡ true) × (count.now.key ≡ 0) }
        requires table { seen.old.book ≡ count.now.book }
        ensures table { seen.new.book ≡ seen.old.book }
        ensures slot { IfSome result (λ slot. slot.book ≡ seen.old.book) }
    {
        let slot = NewSlot { index };
        let mut offer: Offer<LogEntry<V>, u64, IssuedOnce, NoGain> = seen.plain::<
            NoGain,
            NewSlot,
            Adding,
        >(&slot);
        let mut pen = seen.no_pen();
        let found = count.compare_exchange::<Adding, NoGain>(
            index,
            index + 1,
            seen,
            &mut offer,
            &mut pen,
        );
        if found != index {
            return None;
        }
        let tickets = Word::tracked(0, &mut pen);
        let mut entry: Offer<LogEntry<V>, u64, IssuedOnce, NoGain> = seen.plain::<
            NoGain,
            NewSlot,
            Adding,
        >(&slot);
        count.compare_exchange::<Entering, NoGain>(0, 0, seen, &mut entry, &mut pen);
        Some(Slot {
            place: Counted::new(None, &tickets),
            next: AtomicU64::new(0),
            count: tickets,
            index,
            seen: seen.again(),
        })
    }

    /// The slot's index.
    pub fn index(&self) -> u64 {
        self.index
    }

    /// Whether the slot may be used again, by its word, where it is used so many times.
    pub fn lasts(&self, uses: u64) -> bool {
        generation_of(self.place.load()) < uses
    }

    /// Puts a value into the slot, and returns the ticket that is issued for it. The value comes back where the slot isn't free.
    pub fn fill(&self, seen: &mut SeenLog<V>, value: V) -> Result<u64, V>
        requires table { seen.old.book ≡ self.now.book }
        ensures table { seen.new.book ≡ seen.old.book }
        ensures grown { IsPrefix seen.old.log seen.new.log }
        ensures issued { IfOk result (λ ticket. HasIssued seen.new.log ticket value) }
        ensures first { IfOk result (λ ticket. IsNew seen.old.log ticket) }
        ensures back { IfErr result (λ it. it ≡ value) }
    {
        let word = self.place.load();
        if state_of(word) != FREE {
            return Err(value);
        }
        let (found, claim) = self.place.turn(word, word + TAKEN);
        if found != word {
            claim.done();
            return Err(value);
        }
        let generation = generation_of(word);
        match self.issue(generation, seen, value) {
            Ok(issued) => {
                let ticket = issued.ticket;
                drop(claim.put(Some(issued), word_of(generation, PRESENT)));
                Ok(ticket)
            }
            Err(value) => {
                drop(claim.put(None, word_of(generation, FREE)));
                Err(value)
            }
        }
    }

    // The step that issues the ticket of a generation. The value comes back where that was issued before.
    fn issue(&self, generation: u64, seen: &mut SeenLog<V>, value: V) -> Result<Ticketed<V>, V>
        requires generation { generation < 4294967296 }
        requires table { seen.old.book ≡ self.now.book }
        ensures table { seen.new.book ≡ seen.old.book }
        ensures grown { IsPrefix seen.old.log seen.new.log }
        ensures value { IfOk result (λ it. (it.value ≡ value) × (it.seen ≡ seen.new)) }
        ensures issued { IfOk result (λ it. HasIssued seen.new.log it.ticket value) }
        ensures first { IfOk result (λ it. IsNew seen.old.log it.ticket) }
        ensures back { IfErr result (λ it. it ≡ value) }
    {
        seen.learn(&self.seen);
        let ticket = ticket_of(generation, self.index);
        let issue = Issue { ticket, value };
        let mut offer: Offer<LogEntry<V>, u64, IssuedOnce, NoGain> = seen.plain::<
            NoGain,
            Issue<V>,
            Issuing,
        >(&issue);
        let mut pen = seen.no_pen();
        let found = self
            .count
            .compare_exchange::<Issuing, NoGain>(
                generation,
                generation + 1,
                seen,
                &mut offer,
                &mut pen,
            );
        let Issue { ticket, value } = issue;
        if found != generation {
            return Err(value);
        }
        Ok(Ticketed {
            ticket,
            value,
            seen: seen.again(),
        })
    }

    /// Takes what is in the slot, if its word is still this one, and nobody reads it.
    pub fn clear(&self, word: u64) -> Result<Option<Ticketed<V>>, ()>
        requires unread { (word % 4 < 3) × (readers word ≡ 0) }
        ensures issued { IfOk result (λ found. IfSome found (λ it.
            WasIssued self.now.book it.seen.book it.seen.log it.ticket it.value)) }
    {
        let (found, claim) = self.place.turn(word, word - state_of(word) + TAKEN);
        if found != word {
            claim.done();
            return Err(());
        }
        Ok(claim.put(None, vacated(word)))
    }

    /// Whether a word has a ticket's value present, so that readers may come.
    pub fn has(word: u64, ticket: u64) -> bool
        ensures present { result ≡ true → word % 4 ≡ 1 }
    {
        generation_of(word) == generation_of(ticket) && state_of(word) == PRESENT
    }
}
