//! The table of slots.
ghost use Rattle.std.specs.Prelude.{◌≡◌, ◌+◌, ◌%◌, ◌<◌, ◌≤◌, [], true, IfSome, IfOk, IfErr};
ghost use Rattle.std.specs.List.{All};
ghost use mathlib.Core.List.{IsPrefix};
ghost use Rattle.counted_slot.specs.Counting.{readers};
ghost use Rattle.word_slots.specs.Tickets.{HasIssued, IsNew};
ghost use Rattle.word_slots.specs.Slots.{IsSlotOf, IsPageOf};

use crate::lent::Lent;
use crate::log::{EmptyLog, IssuedOnce, LogEntry, SeenLog, TicketCount};
use crate::slot::{Slot, Ticketed};
use crate::words::{index_of, readers_of, state_of};
use boxcar::slot::{OnceSlot, SlotRule};
use boxcar::tag::{Names, Tag};
use counted_slot::{MARKED, MOST_READERS, ONE_READER, PRESENT};
use crossbeam_utils::{Backoff, CachePadded};
use logbook::{Seen, Start, Word};
use std::alloc::{AllocError, Global};
use std::hint::spin_loop;
use std::marker::Model;
use std::sync::Wait;
use std::sync::atomic::AtomicU64;
use std::sync::atomic::Ordering::SeqCst;

/// How many lists of free slots there are. A slot's index modulo this is its list.
const STRIPES: usize = 16;

const LOW: u64 = 0xffff_ffff;

/// How many pages there may be, and how many slots the first one has. Each further one has twice as many.
const PAGES: usize = 26;

const FIRST: usize = 64;

const LARGEST: usize = 0x8000_0000;

/// How often a slot is tried whose word changes meanwhile.
const TRIES: u32 = 1000;

/// The free slots of a stripe. No proof rests on them: who gets one still has to win its word.
#[derive(Drop)]
struct Stripe {
    // The low half is one more than the first free slot's index, or 0. The high half counts changes.
    free: AtomicU64,
    // How many of its slots were ever used.
    used: AtomicU64,
}

/// Why a value got no slot: other threads came in between too often, or one is just making slots. Or memory was missing.
#[derive(Debug, Clone, Copy, PartialEq, Eq)]
pub enum Lack {
    Busy,
    Memory,
}

/// What is on a page, by the table's numbers.
pub struct OfTable;

impl<V: Drop> SlotRule<Vec<Slot<V>>> for OfTable {
    ghost use Rattle.std.specs.List.{All};
    ghost use Rattle.word_slots.specs.Slots.{IsSlotOf, table_by};

    ghost holds = { λ t s. All (IsSlotOf (table_by t)) s.items };
}

struct OfLog;

impl<V> Names<SeenLog<V>> for OfLog {
    ghost use Rattle.word_slots.specs.Slots.{numbers};

    ghost numbers = { λ seen. numbers seen.book };
}

/// Slots for values, which threads share. They lie on pages, so memory grows with the greatest number of values at one time,
/// and stays until the table ends. Contracts see which table it is.
#[derive(Drop)]
pub struct Slots<V: Drop> {
    pages: Vec<OnceSlot<Vec<Slot<V>>, OfTable>>,
    stripes: Vec<CachePadded<Stripe>>,
    // 1 while a thread makes a page.
    growing: AtomicU64,
    // How often each slot is used.
    uses: u64,
    count: TicketCount<V>,
    seen: SeenLog<V>,
    tag: Tag,
}

impl<V: Drop> Model for Slots<V> {
    ghost use Rattle.std.specs.Prelude.{◌≡◌, true};
    ghost use Rattle.std.specs.List.{All};
    ghost use Rattle.logbook.specs.Pages.{Book, book_coded};
    ghost use Rattle.word_slots.specs.Slots.{IsPageOf, table_by};

    ghost Value = { Book };

    ghost coded = { book_coded };

    ghost view = { λ s. s.seen.book };

    ghost invariant = { λ s. (s.count.tracked ≡ true) × (s.count.key ≡ 0)
        × (s.count.book ≡ s.seen.book) × (table_by s.tag.numbers ≡ s.seen.book)
        × All (IsPageOf s.tag.numbers) s.pages.items };
}

fn changed(head: u64, link: u64) -> u64 {
    (head | LOW).wrapping_add(1) | link
}

fn new_stripes(alloc: Global) -> Result<Vec<CachePadded<Stripe>>, AllocError> {
    let mut stripes = Vec::with_capacity(alloc, STRIPES)?;
    for _ in 0..STRIPES {
        stripes.push(CachePadded::new(Stripe {
            free: AtomicU64::new(0),
            used: AtomicU64::new(0),
        }))?;
    }
    Ok(stripes)
}

// A log without slots, and the word that counts them.
fn open<V>() -> (SeenLog<V>, TicketCount<V>)
    ensures count { (result.1.tracked ≡ true) × (result.1.key ≡ 0) × (result.1.book ≡ result.0.book) }
{
    let start: Start<LogEntry<V>, u64, IssuedOnce> = Start::alone();
    let (seen, mut pens) = Seen::open_row::<u64, EmptyLog>(&0, start, 1);
    let mut pen = pens.take();
    let count = Word::tracked(0, &mut pen);
    (seen, count)
}

// The pages, none of which is there yet.
fn no_pages<V: Drop>(
    alloc: Global,
    tag: &Tag,
) -> Result<Vec<OnceSlot<Vec<Slot<V>>, OfTable>>, AllocError>
    ensures pages { IfOk result (λ pages. All (IsPageOf tag.now.numbers) pages.items) }
{
    let mut pages = Vec::with_capacity(alloc, PAGES)?;
    let mut page = 0;
    while page < PAGES {
        pages.push_reserved(OnceSlot::new(tag));
        page += 1;
    }
    Ok(pages)
}

// How many slots a page has.
fn size_of(page: usize) -> Option<usize>
    ensures size { IfSome result (λ size. (64 ≤ size) × (size ≤ 2147483648)) }
{
    if page >= PAGES {
        return None;
    }
    let size = FIRST.wrapping_shl(page as u32);
    if size >= FIRST && size <= LARGEST {
        Some(size)
    } else {
        None
    }
}

// The page of a slot, and the slot's place there. No proof rests on this.
fn locate(index: usize) -> (usize, usize) {
    let page = (index / FIRST + 1).ilog2();
    let before = FIRST.wrapping_shl(page);
    (
        page as usize,
        index.wrapping_add(FIRST).wrapping_sub(before),
    )
}

impl<V: Drop> Slots<V> {
    /// A table without values. It has no slots yet.
    pub fn new(alloc: Global) -> Result<Slots<V>, AllocError> {
        Slots::with_uses(alloc, u32::MAX)
    }

    /// A table without values, each of whose slots is used so many times.
    pub fn with_uses(alloc: Global, uses: u32) -> Result<Slots<V>, AllocError> {
        let (seen, count) = open();
        let tag = Tag::of::<SeenLog<V>, OfLog>(&seen);
        let stripes = new_stripes(alloc)?;
        let pages = no_pages(alloc, &tag)?;
        Ok(Slots {
            pages,
            stripes,
            growing: AtomicU64::new(0),
            uses: uses as u64,
            count,
            seen,
            tag,
        })
    }

    // A page, if it is there.
    fn page(&self, page: usize) -> Option<&Vec<Slot<V>>>
        ensures slots { IfSome result (λ slots. All (IsSlotOf self.now) slots.now.items) }
    {
        self.pages.get(page)?.get()
    }

    // The slot with an index, if its page is there.
    fn at(&self, index: usize) -> Option<&Slot<V>>
        ensures table { IfSome result (λ slot. slot.now.book ≡ self.now) }
    {
        let (page, place) = locate(index);
        self.page(page)?.get(place)
    }

    // How many pages are there.
    fn made(&self) -> usize {
        for page in 0..PAGES {
            if self.page(page).is_none() {
                return page;
            }
        }
        PAGES
    }

    // So many free slots from an index on, in memory that is there.
    fn filled(&self, slots: Vec<Slot<V>>, first: u64, count: usize) -> Vec<Slot<V>>
        requires room { (slots.items ≡ []) × (count ≤ slots.cap) }
        requires few { first + count ≤ 4294967296 }
        ensures slots { All (IsSlotOf self.now) result.items }
    {
        let mut slots = slots;
        let mut seen = self.seen.again();
        let mut at = 0;
        while at < count {
            let Some(slot) = Slot::add(first + at as u64, &self.count, &mut seen) else {
                return slots;
            };
            slots.push_reserved(slot);
            at += 1;
        }
        slots
    }

    // Makes a page.
    fn add_page(&self, alloc: Global, page: usize) -> Result<(), AllocError> {
        let Some(count) = size_of(page) else {
            return Err(AllocError);
        };
        let Some(place) = self.pages.get(page) else {
            return Err(AllocError);
        };
        let slots = Vec::with_capacity(alloc, count)?;
        let slots = self.filled(slots, (count - FIRST) as u64, count);
        drop(place.set(slots));
        Ok(())
    }

    // Makes a page, if so many are there, and no other thread is making one.
    fn grow(&self, alloc: Global, page: usize) -> Result<(), AllocError> {
        if self.growing.compare_exchange(0, 1, SeqCst, SeqCst).is_err() {
            spin_loop();
            return Ok(());
        }
        let grown = if self.made() == page {
            self.add_page(alloc, page)
        } else {
            Ok(())
        };
        self.growing.store(0, SeqCst);
        grown
    }

    /// What a thread knows of the table at first.
    pub fn seen(&self) -> SeenLog<V>
        ensures table { result.book ≡ self.now }
    {
        self.seen.again()
    }

    fn stripe(&self, index: usize) -> Option<&Stripe> {
        let padded = self.stripes.get(index % STRIPES)?;
        Some(&**padded)
    }

    // A slot that became free is at hand for others, if it may be used again.
    fn release(&self, slot: &Slot<V>) {
        if !slot.lasts(self.uses) {
            return;
        }
        let Some(stripe) = self.stripe(slot.index() as usize) else {
            return;
        };
        let link = slot.index().wrapping_add(1);
        let _ = stripe.free.fetch_update(SeqCst, SeqCst, |head| {
            if slot.next.load(SeqCst) != head & LOW {
                slot.next.store(head & LOW, SeqCst);
            }
            Some(changed(head, link))
        });
    }

    // A slot that was used before, if the stripe has one.
    fn reuse(&self, stripe: &Stripe) -> Option<usize> {
        let head = stripe.free.fetch_update(SeqCst, SeqCst, |head| {
            let index = (head & LOW).checked_sub(1)?;
            Some(changed(head, self.at(index as usize)?.next.load(SeqCst) & LOW))
        });
        Some((head.ok()? & LOW).checked_sub(1)? as usize)
    }

    // A slot of the stripe that was never used.
    fn unused(&self, stripe: &Stripe, at: usize) -> Option<usize> {
        for _ in 0..TRIES {
            let used = stripe.used.load(SeqCst);
            let index = (used as usize).checked_mul(STRIPES)?.checked_add(at)?;
            self.at(index)?;
            if stripe
                .used
                .compare_exchange(used, used.wrapping_add(1), SeqCst, SeqCst)
                .is_ok()
            {
                return Some(index);
            }
        }
        None
    }

    // The index of a slot that is most likely free.
    fn vacancy(&self, hint: usize) -> Option<usize> {
        for step in 0..STRIPES {
            let at = hint.wrapping_add(step) % STRIPES;
            let stripe = self.stripe(at)?;
            if let Some(index) = self.reuse(stripe) {
                return Some(index);
            }
            if let Some(index) = self.unused(stripe, at) {
                return Some(index);
            }
        }
        None
    }

    // A slot that is most likely free. `None` where a page was made first.
    fn free_slot(&self, alloc: Global, hint: usize) -> Result<Option<&Slot<V>>, AllocError>
        ensures table { IfOk result (λ found. IfSome found (λ slot. slot.now.book ≡ self.now)) }
    {
        let pages = self.made();
        if let Some(index) = self.vacancy(hint) {
            return Ok(self.at(index));
        }
        self.grow(alloc, pages)?;
        Ok(None)
    }

    // Puts a value into the first slot that it finds.
    fn insert_once(
        &self,
        alloc: Global,
        seen: &mut SeenLog<V>,
        hint: usize,
        value: V,
    ) -> Result<u64, (Lack, V)>
        requires table { seen.old.book ≡ self.now }
        ensures table { seen.new.book ≡ seen.old.book }
        ensures grown { IsPrefix seen.old.log seen.new.log }
        ensures issued { IfOk result (λ ticket. HasIssued seen.new.log ticket value) }
        ensures first { IfOk result (λ ticket. IsNew seen.old.log ticket) }
        ensures back { IfErr result (λ back. back.1 ≡ value) }
    {
        match self.free_slot(alloc, hint) {
            Ok(Some(slot)) => match slot.fill(seen, value) {
                Ok(ticket) => Ok(ticket),
                Err(back) => Err((Lack::Busy, back)),
            },
            Ok(None) => Err((Lack::Busy, value)),
            Err(AllocError) => Err((Lack::Memory, value)),
        }
    }

    /// Puts a value into a slot, and returns its ticket, which was never issued before. The value comes back with the reason
    /// where it got no slot. The hint, such as a thread's number, chooses where the search for a slot begins.
    pub fn insert(
        &self,
        alloc: Global,
        seen: &mut SeenLog<V>,
        hint: usize,
        value: V,
    ) -> Result<u64, (Lack, V)>
        requires table { seen.old.book ≡ self.now }
        ensures table { seen.new.book ≡ seen.old.book }
        ensures grown { IsPrefix seen.old.log seen.new.log }
        ensures issued { IfOk result (λ ticket. HasIssued seen.new.log ticket value) }
        ensures first { IfOk result (λ ticket. IsNew seen.old.log ticket) }
        ensures back { IfErr result (λ back. back.1 ≡ value) }
    {
        let mut value = value;
        for _ in 0..TRIES {
            match self.insert_once(alloc, seen, hint, value) {
                Ok(ticket) => return Ok(ticket),
                Err((Lack::Memory, back)) => return Err((Lack::Memory, back)),
                Err((Lack::Busy, back)) => value = back,
            }
        }
        Err((Lack::Busy, value))
    }

    fn slot(&self, ticket: u64) -> Option<&Slot<V>>
        ensures table { IfSome result (λ slot. slot.now.book ≡ self.now) }
    {
        self.at(index_of(ticket) as usize)
    }

    /// The value of a ticket, in its slot. `None` if the ticket is retired, if the slot counts as many readers as it can, or if
    /// its word changed at each of 1,000 tries.
    pub fn lend(&self, ticket: u64) -> Option<Lent<'_, V>>
        ensures lent { IfSome result (λ lent. (lent.table ≡ self.now) × (lent.ticket ≡ ticket)) }
    {
        let slot = self.slot(ticket)?;
        for _ in 0..TRIES {
            let word = slot.place.load();
            if !Slot::<V>::has(word, ticket) || readers_of(word) == MOST_READERS {
                return None;
            }
            let (found, claim) = slot.place.turn(word, word + ONE_READER);
            if found == word {
                return Lent::of(self, slot, ticket, claim);
            }
            claim.done();
        }
        None
    }

    // Drops the value of a slot whose last reader has left. The slot is free then.
    pub(crate) fn vacate(&self, slot: &Slot<V>, word: u64)
        requires unread { (word % 4 < 3) × (readers word ≡ 0) }
    {
        if slot.clear(word).is_ok() {
            self.release(slot);
        }
    }

    // What is in a slot that nobody reads, and whose ticket is retired.
    #[tactic(auto, using(crate::proofs::Logs::prefix_trans, crate::proofs::Logs::prefix_self))]
    pub(crate) fn take_retired<R: Wait>(
        &self,
        rt: &R,
        slot: &Slot<V>,
        ticket: u64,
        seen: &mut SeenLog<V>,
    ) -> V
        requires table { (seen.old.book ≡ self.now) × (slot.now.book ≡ self.now) }
        ensures table { seen.new.book ≡ seen.old.book }
        ensures grown { IsPrefix seen.old.log seen.new.log }
        ensures taken { HasIssued seen.new.log ticket result }
    {
        let pause = Backoff::new();
        for _ in rt.forever() {
            if let Some(value) = self.try_take(slot, ticket, seen) {
                return value;
            }
            pause.snooze();
        }
        unreachable!()
    }

    fn try_take(&self, slot: &Slot<V>, ticket: u64, seen: &mut SeenLog<V>) -> Option<V>
        requires table { (seen.old.book ≡ self.now) × (slot.now.book ≡ self.now) }
        ensures table { seen.new.book ≡ seen.old.book }
        ensures grown { IsPrefix seen.old.log seen.new.log }
        ensures taken { IfSome result (λ value. HasIssued seen.new.log ticket value) }
    {
        let word = slot.place.load();
        if state_of(word) != MARKED || readers_of(word) != 0 {
            return None;
        }
        let taken = slot.clear(word).ok()?;
        self.release(slot);
        let Ticketed {
            ticket: its,
            value,
            seen: known,
        } = taken?;
        if its != ticket {
            return None;
        }
        seen.learn(&known);
        Some(value)
    }

    /// Retires a ticket: nobody gets the value by it any more. The value stays for those that have it lent, of which the result
    /// is one. Who removed the ticket from the map calls this, once. Pauses while other readers change the slot's word.
    pub fn retire<R: Wait>(&self, rt: &R, ticket: u64) -> Lent<'_, V>
        ensures lent { (result.table ≡ self.now) × (result.ticket ≡ ticket) }
    {
        let pause = Backoff::new();
        for _ in rt.forever() {
            if let Some(lent) = self.try_retire(ticket) {
                return lent;
            }
            pause.snooze();
        }
        unreachable!()
    }

    fn try_retire(&self, ticket: u64) -> Option<Lent<'_, V>>
        ensures lent { IfSome result (λ lent. (lent.table ≡ self.now) × (lent.ticket ≡ ticket)) }
    {
        let slot = self.slot(ticket)?;
        let word = slot.place.load();
        if !Slot::<V>::has(word, ticket) || readers_of(word) == MOST_READERS {
            return None;
        }
        let (found, claim) = slot.place.turn(word, word - PRESENT + MARKED + ONE_READER);
        if found != word {
            claim.done();
            return None;
        }
        Lent::of(self, slot, ticket, claim)
    }

    /// Retires a ticket, and returns its value. Pauses while others read the value.
    pub fn take<R: Wait>(&self, rt: &R, seen: &mut SeenLog<V>, ticket: u64) -> V
        requires table { seen.old.book ≡ self.now }
        ensures table { seen.new.book ≡ seen.old.book }
        ensures grown { IsPrefix seen.old.log seen.new.log }
        ensures taken { HasIssued seen.new.log ticket result }
    {
        let mut lent = self.retire(rt, ticket);
        let pause = Backoff::new();
        for _ in rt.forever() {
            match lent.into_inner(rt, seen) {
                Ok(value) => return value,
                Err(back) => lent = back,
            }
            pause.snooze();
        }
        unreachable!()
    }
}
