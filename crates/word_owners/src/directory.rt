//! The words of a table: hazards, and slots that come in while others read.
ghost use Rattle.std.specs.Prelude.{◌≡◌, ℕ, ◌+◌, ◌*◌, ◌<◌, ◌≤◌, [], length, IfOk, IfSome};
ghost use Rattle.word_book.specs.Book.{name};
ghost use Rattle.word_segments.specs.Segments.{AreWords};
ghost use Rattle.word_hazards.specs.Views.{nobody};
ghost use Rattle.word_owners.specs.inner.Handles.{AreOf};

use crate::hazards::{Hazard, filled};
use std::alloc::{AllocError, Global};
use std::marker::Model;
use word_book::word::Word;
use word_hazards::book::{enter, grow, number, open};
use word_hazards::hazard::HAZARDS;
use word_hazards::rule::{HazardRule, HazardSeat, HazardWord, Knowledge};
use word_segments::place::{KEYS, locate, size_of};
use word_segments::segments::{Segments, filled as filled_words};

// How many segments there may be, with some more than 2^32 slots.
const MOST: u64 = 262_150;

/// The slot that is used first, second and so on, by that place. A segment has keys for 16,384 slots, also where it has fewer.
pub fn slot_at(place: u64) -> Option<u64>
    ensures { IfSome result (λ slot. slot < 4294967296) }
{
    let (number, word) = locate(place.checked_mul(4)?);
    let slot = number.checked_mul(KEYS / 4)?.checked_add(word / 4)?;
    if slot < 1 << 32 { Some(slot) } else { None }
}

/// The words of a slot.
#[derive(Clone, Copy)]
pub struct Slot<'a> {
    pub state: &'a HazardWord,
    pub owner: &'a HazardWord,
    pub link: &'a HazardWord,
}

/// All words of a table, in memory. Contracts see which book they are of.
#[derive(Drop)]
pub struct Directory {
    hazards: Vec<Hazard>,
    count: HazardWord,
    segments: Segments<Knowledge, HazardRule>,
    origin: HazardSeat,
}

impl Model for Directory {
    ghost use Rattle.std.specs.Prelude.{◌≡◌, length};
    ghost use Rattle.word_book.specs.Book.{Book, book_coded, name};
    ghost use Rattle.word_segments.specs.Segments.{AreWords};

    ghost Value = { Book };

    ghost coded = { book_coded };

    ghost view = { λ d. d.origin.book };

    ghost invariant = { λ d. (length d.hazards.items ≡ 64) × AreWords 0 d.origin.book d.hazards.items
        × (d.count ≡ name 64 d.origin.book) × (d.segments ≡ record { base = 65; most = 262150; book = d.origin.book }) };
}

impl Directory {
    /// The hazards, which are nobody's, and no slots yet.
    pub fn new(alloc: Global) -> Result<Directory, AllocError> {
        let (origin, mut pens) = open();
        let hazards = filled(Vec::with_capacity(alloc, HAZARDS)?, &mut pens);
        let count = Word::of(&mut pens);
        let segments = Segments::new(alloc, 65, MOST, &count)?;
        Ok(Directory {
            hazards,
            count,
            segments,
            origin,
        })
    }

    /// One more seat, which knows nothing.
    pub fn enter(&self) -> HazardSeat
        ensures seat { (result.book ≡ self.now) × (result.view ≡ nobody) }
    {
        enter(&self.origin)
    }

    /// A hazard.
    pub fn hazard(&self, hazard: usize) -> &HazardWord
        requires { hazard < 64 }
        ensures { result.now ≡ name hazard self.now }
    {
        self.hazards[hazard].word()
    }

    /// The words of a slot, if it is there.
    pub fn slot(&self, slot: u64) -> Option<Slot<'_>>
        requires { slot < 4294967296 }
        ensures { IfSome result (λ s. AreOf self.now slot s.state.now s.owner.now s.link.now) }
    {
        let words = self.segments.span(65 + 4 * slot, 3)?;
        Some(Slot {
            state: &words[0],
            owner: &words[1],
            link: &words[2],
        })
    }

    /// More slots. It makes none where another thread is just doing that, and then returns `false`.
    pub fn grow(&self, alloc: Global, seat: &mut HazardSeat) -> Result<bool, AllocError>
        requires { seat.old.book ≡ self.now }
        ensures seat { (seat.new.book ≡ seat.old.book) × (seat.new.view ≡ seat.old.view) }
    {
        let number = number(&self.count, seat);
        if number >= MOST {
            return Err(AllocError);
        }
        let Some(words) = self.segments.reserve(alloc, number)? else {
            return Ok(false);
        };
        let Some(pens) = grow(&self.count, number, seat) else {
            return Ok(false);
        };
        let segment = filled_words(words, size_of(number), pens);
        Ok(self.segments.set(number, segment).is_ok())
    }
}
