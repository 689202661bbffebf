//! Lists of slots. No proof rests on them.
ghost use Rattle.std.specs.Prelude.{◌≡◌, ◌<◌, IfSome};

use super::{HALF, LOW, Owners, TRIES};
use std::sync::atomic::AtomicU64;
use std::sync::atomic::Ordering::SeqCst;
use word_hazards::book::{number, set_link};
use word_hazards::rule::HazardSeat;

fn changed(head: u64, link: u64) -> u64 {
    (head | LOW).wrapping_add(1) | link
}

impl Owners {
    // Puts a slot into a list.
    pub(super) fn push(&self, list: &AtomicU64, slot: u64, seat: &mut HazardSeat)
        requires slot { slot < 4294967296 }
        requires table { seat.old.book ≡ self.now }
        ensures seat { (seat.new.book ≡ seat.old.book) × (seat.new.view ≡ seat.old.view) }
    {
        let Some(words) = self.directory.slot(slot) else {
            return;
        };
        for _ in 0..TRIES {
            let head = list.load(SeqCst);
            set_link(words.link, slot, head & LOW, seat);
            if list
                .compare_exchange(head, changed(head, slot + 1), SeqCst, SeqCst)
                .is_ok()
            {
                return;
            }
        }
    }

    // Takes a slot out of a list.
    pub(super) fn pop(&self, list: &AtomicU64, seat: &mut HazardSeat) -> Option<u64>
        requires table { seat.old.book ≡ self.now }
        ensures seat { (seat.new.book ≡ seat.old.book) × (seat.new.view ≡ seat.old.view) }
        ensures slot { IfSome result (λ slot. slot < 4294967296) }
    {
        for _ in 0..TRIES {
            let head = list.load(SeqCst);
            let slot = (head % HALF).checked_sub(1)?;
            let words = self.directory.slot(slot)?;
            let link = number(words.link, seat) & LOW;
            if list
                .compare_exchange(head, changed(head, link), SeqCst, SeqCst)
                .is_ok()
            {
                return Some(slot);
            }
        }
        None
    }

    // Puts all of these into a list: slots, or the slots of tickets.
    pub(super) fn push_all(&self, list: &AtomicU64, row: Vec<u64>, seat: &mut HazardSeat)
        requires table { seat.old.book ≡ self.now }
        ensures seat { (seat.new.book ≡ seat.old.book) × (seat.new.view ≡ seat.old.view) }
    {
        let mut row = row;
        while let Some(number) = row.pop() {
            self.push(list, number % HALF, seat);
        }
    }
}
