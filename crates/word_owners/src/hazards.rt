//! The hazards of a table, each on cache lines of its own.
ghost use Rattle.std.specs.Prelude.{◌≡◌, ◌+◌, ◌-◌, ◌<◌, ◌≤◌, [], length};
ghost use Rattle.word_book.specs.Book.{name};
ghost use Rattle.word_segments.specs.Segments.{AreWords};

use crossbeam_utils::CachePadded;
use std::marker::Model;
use word_book::seat::Pens;
use word_book::word::Word;
use word_hazards::hazard::HAZARDS;
use word_hazards::rule::HazardWord;

/// A hazard with nothing else on its cache lines.
#[derive(Drop)]
pub struct Hazard {
    padded: CachePadded<HazardWord>,
}

impl Model for Hazard {
    ghost use Rattle.crossbeam_utils.specs.Padded.{padded_value};
    ghost use Rattle.word_book.specs.Book.{Name, name_coded};

    ghost Value = { Name };

    ghost coded = { name_coded };

    ghost view = { λ h. padded_value h.padded };
}

impl Hazard {
    /// The next of the words that `pens` has the rights to make.
    fn of(pens: &mut Pens) -> Hazard
        requires { 0 < pens.old.left }
        ensures word { result ≡ name pens.old.next pens.old.book }
        ensures book { pens.new.book ≡ pens.old.book }
        ensures others { (pens.new.next ≡ pens.old.next + 1) × (pens.new.left ≡ pens.old.left - 1) }
    {
        Hazard {
            padded: CachePadded::new(Word::of(pens)),
        }
    }

    /// The word.
    pub fn word(&self) -> &HazardWord
        ensures { result.now ≡ self.now }
    {
        &*self.padded
    }
}

/// The hazards of a new book, in memory that is there.
pub fn filled(hazards: Vec<Hazard>, pens: &mut Pens) -> Vec<Hazard>
    requires room { (hazards.items ≡ []) × (64 ≤ hazards.cap) }
    requires rights { (pens.old.next ≡ 0) × (pens.old.left ≡ 65) }
    ensures count { length result.items ≡ 64 }
    ensures words { AreWords 0 pens.old.book result.items }
    ensures pens { (pens.new.book ≡ pens.old.book) × (pens.new.next ≡ 64) × (pens.new.left ≡ 1) }
{
    let mut hazards = hazards;
    let mut i = 0usize;
    while i < HAZARDS {
        hazards.push_reserved(Hazard::of(pens));
        i += 1;
    }
    hazards
}
