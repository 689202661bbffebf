//! The book: how it begins, and how words join.
ghost use Rattle.std.specs.Prelude.{◌≡◌, ◌+◌, ◌*◌, ◌<◌, IfSome};
ghost use Rattle.word_segments.specs.Segments.{keys};
ghost use Rattle.word_hazards.specs.Views.{nobody};
ghost use Rattle.word_hazards.specs.Steps.{link_key};

use crate::rule::{Grows, HazardSeat, HazardWord, Same};
use word_book::seat::{Pens, Seat};

/// The words of a new book: the hazards, and the count of segments.
pub const FIRST_WORDS: usize = 65;

/// A new book, its first seat, and the rights to make its first words.
pub fn open() -> (HazardSeat, Pens)
    ensures seat { result.0.view ≡ nobody }
    ensures pens { (result.1.book ≡ result.0.book) × (result.1.next ≡ 0) × (result.1.left ≡ 65) }
{
    Seat::open(FIRST_WORDS, 0)
}

/// One more seat at the book, as for another thread.
pub fn enter(seat: &HazardSeat) -> HazardSeat
    ensures seat { (result.book ≡ seat.now.book) × (result.view ≡ nobody) }
{
    seat.enter()
}

/// A word's number, from which the seat learns nothing.
pub fn number(word: &HazardWord, seat: &mut HazardSeat) -> u64
    requires book { seat.old.book ≡ word.now.book }
    ensures seat { (seat.new.book ≡ seat.old.book) × (seat.new.view ≡ seat.old.view) }
{
    word.load::<Same>(seat)
}

/// Sets the link of a slot.
pub fn set_link(link: &HazardWord, slot: u64, number: u64, seat: &mut HazardSeat)
    requires book { seat.old.book ≡ link.now.book }
    requires link { link.now.key ≡ link_key slot }
    ensures seat { (seat.new.book ≡ seat.old.book) × (seat.new.view ≡ seat.old.view) }
{
    let _ = slot;
    link.store::<Same>(number, seat);
}

/// The rights to make the words of the segment with this number, if so many are counted. The word is the count.
pub fn grow(count: &HazardWord, number: u64, seat: &mut HazardSeat) -> Option<Pens>
    requires book { seat.old.book ≡ count.now.book }
    requires count { (count.now.key ≡ 64) × (number < 4294967296) }
    ensures seat { (seat.new.book ≡ seat.old.book) × (seat.new.view ≡ seat.old.view) }
    ensures pens { IfSome result (λ pens. (pens.book ≡ seat.old.book) × (pens.next ≡ 65 + keys * number) × (pens.left ≡ keys)) }
{
    let (found, pens) = count.compare_exchange::<Grows>(number, number + 1, seat);
    if found == number { Some(pens) } else { None }
}
