//! The directory.
ghost use Rattle.std.specs.Prelude.{◌≡◌, ℕ, ◌+◌, ◌-◌, ◌*◌, ◌<◌, ◌≤◌, ◌^◌, [], ◌∷◌, length, IfOk, IfErr, IfSome};
ghost use Rattle.boxcar.specs.Table.{span, first, others, Tagged};
ghost use Rattle.word_book.specs.Book.{Book, name};
ghost use Rattle.word_segments.specs.Segments.{size, Directed, directed_coded, first_key, AreWords, IsSegment, numbers, directed_by};

use crate::place::{KEYS, SHELVES, shelve, size_of, span_of};
use boxcar::slot::{OnceSlot, SlotRule};
use boxcar::tag::{Names, Tag};
use std::alloc::{AllocError, Global};
use std::marker::Model;
use word_book::seat::{Pens, Rule};
use word_book::word::Word;

// How many segments lie in the directory itself: those of 100 MB.
const NEAR: usize = 384;

// One past the last number of a segment.
const LIMIT: u64 = 1 << 44;

/// What is in a slot of a shelf, by the segment's number and the directory's numbers.
pub struct InOrder;

impl<V, P: Rule<V>> SlotRule<Vec<Word<V, P>>> for InOrder {
    ghost holds = { λ t s. IsSegment (directed_by (others t)) (first t) s.items };
}

/// What is in a slot of a directory, by the shelf's number.
pub struct OfShelves;

impl<V, P: Rule<V>> SlotRule<Vec<OnceSlot<Vec<Word<V, P>>, InOrder>>> for OfShelves {
    ghost holds = { λ t s. Tagged (others t) (span (first t) - 32) (span (first t)) s.items };
}

// The first key, how many segments there may be, and a word of the book.
struct Origin<'a, V, P: Rule<V>> {
    base: u64,
    most: u64,
    word: &'a Word<V, P>,
}

struct OfOrigin;

impl<'a, V, P: Rule<V>> Names<Origin<'a, V, P>> for OfOrigin {
    ghost numbers = { λ o. numbers record { base = o.base; most = o.most; book = o.word.now.book } };
}

// A number before those of a tag.
struct Numbered<'a> {
    number: usize,
    tag: &'a Tag,
}

struct OfNumbered;

impl<'a> Names<Numbered<'a>> for OfNumbered {
    ghost numbers = { λ n. n.number ∷ n.tag.now.numbers };
}

fn with_number(number: usize, tag: &Tag) -> Tag
    ensures { result.numbers ≡ number ∷ tag.now.numbers }
{
    let numbered = Numbered { number, tag };
    let tag = Tag::of::<Numbered<'_>, OfNumbered>(&numbered);
    let Numbered { number: _, tag: _ } = numbered;
    tag
}

/// The segments of a book, by number. The key of the first one's first word is fixed when it is made. The first 384 lie in
/// the directory itself.
#[derive(Drop)]
pub struct Segments<V, P: Rule<V>> {
    near: Vec<OnceSlot<Vec<Word<V, P>>, InOrder>>,
    shelves: Vec<OnceSlot<Vec<OnceSlot<Vec<Word<V, P>>, InOrder>>, OfShelves>>,
    base: u64,
    tag: Tag,
}

impl<V, P: Rule<V>> Model for Segments<V, P> {
    ghost Value = { Directed };

    ghost coded = { directed_coded };

    ghost view = { λ s. directed_by s.tag.numbers };

    ghost invariant = { λ s. Tagged s.tag.numbers 0 40 s.shelves.items × (first s.tag.numbers ≡ s.base)
        × Tagged s.tag.numbers 0 384 s.near.items × (s.base < 2 ^ 63) };
}

/// The next words of a book, in memory that is there. The pens may write that many or more.
pub fn filled<V, P: Rule<V>>(words: Vec<Word<V, P>>, count: usize, pens: Pens) -> Vec<Word<V, P>>
    requires room { (words.items ≡ []) × (count ≤ words.cap) }
    requires rights { count ≤ pens.left }
    ensures count { length result.items ≡ count }
    ensures words { AreWords pens.next pens.book result.items }
{
    let mut words = words;
    let mut pens = pens;
    let mut i = 0usize;
    while i < count {
        words.push_reserved(Word::of(&mut pens));
        i += 1;
    }
    words
}

impl<V, P: Rule<V>> Segments<V, P> {
    /// No segments yet, and so many at most. The first one's first word will have the key `base`, in the book of this word.
    pub fn new(
        alloc: Global,
        base: u64,
        most: u64,
        word: &Word<V, P>,
    ) -> Result<Segments<V, P>, AllocError>
        requires { base < 2 ^ 63 }
        ensures { IfOk result (λ s. s ≡ record { base = base; most = most; book = word.now.book }) }
    {
        let origin = Origin { base, most, word };
        let tag = Tag::of::<Origin<'_, V, P>, OfOrigin>(&origin);
        let Origin {
            base: _,
            most: _,
            word: _,
        } = origin;
        let shelves = row(alloc, &tag, 0, SHELVES)?;
        let near = row(alloc, &tag, 0, NEAR)?;
        Ok(Segments {
            near,
            shelves,
            base,
            tag,
        })
    }

    // The words of a segment in the directory itself, from a place on.
    #[inline(always)]
    fn near(&self, number: u64, at: usize) -> Option<&[Word<V, P>]>
        requires { number < 384 }
        ensures { IfSome result (λ words. AreWords (first_key self.now number + at) self.now.book words.now) }
    {
        from_place(self.near[number as usize].get()?, at)
    }

    // The segment with a number on a shelf, if it is there.
    #[inline(never)]
    fn far(&self, number: u64) -> Option<&Vec<Word<V, P>>>
        ensures segment { IfSome result (λ words. IsSegment self.now number words.now.items) }
        ensures small { IfSome result (λ _. number < 2 ^ 44) }
    {
        if number >= LIMIT {
            return None;
        }
        let (shelf, slot) = shelve(number);
        let slots = self.shelves[shelf].get()?;
        slots[slot].get()
    }

    // The words of a segment on a shelf, from a place on.
    #[inline(always)]
    fn beyond(&self, number: u64, at: usize) -> Option<&[Word<V, P>]>
        ensures words { IfSome result (λ words. AreWords (first_key self.now number + at) self.now.book words.now) }
        ensures small { IfSome result (λ _. number < 2 ^ 44) }
    {
        from_place(self.far(number)?, at)
    }

    // The words of a key's segment from the key's own on, if that is in the directory and has it. A key before the first one is in a
    // segment past the limit, by a difference that wraps around.
    #[inline(always)]
    fn from(&self, key: u64) -> Option<&[Word<V, P>]>
        ensures { IfSome result (λ words. AreWords key self.now.book words.now) }
    {
        let place = key.wrapping_sub(self.base);
        let number = place / KEYS;
        let at = (place % KEYS) as usize;
        if number < 384 {
            return self.near(number, at);
        }
        self.beyond(number, at)
    }

    /// The word with a key, if its segment is in the directory and has it.
    #[inline(always)]
    pub fn get(&self, key: u64) -> Option<&Word<V, P>>
        ensures { IfSome result (λ word. word.now ≡ name key self.now.book) }
    {
        self.from(key)?.first()
    }

    /// So many words, with the keys from this one on. `None` where they don't lie in one segment, or it isn't in the
    /// directory.
    #[inline(always)]
    pub fn span(&self, key: u64, count: usize) -> Option<&[Word<V, P>]>
        ensures { IfSome result (λ words. (length words.now ≡ count)
            × AreWords key self.now.book words.now) }
    {
        let words = self.from(key)?;
        if count > words.len() {
            return None;
        }
        Some(&words[0..count])
    }

    /// Memory for a segment, which then has a shelf. `None` where another thread is just making that.
    pub fn reserve(&self, alloc: Global, number: u64) -> Result<Option<Vec<Word<V, P>>>, AllocError>
        requires { number < 2 ^ 44 }
        ensures { IfOk result (λ got. IfSome got (λ words. (words.items ≡ []) × (size number ≤ words.cap))) }
    {
        if number < 384 {
            return Ok(Some(Vec::with_capacity(alloc, size_of(number))?));
        }
        let (shelf, _) = shelve(number);
        if self.shelves[shelf].get().is_none() {
            let span = span_of(shelf);
            drop(self.shelves[shelf].set(row(alloc, &self.tag, span - 32, span)?));
        }
        if self.shelves[shelf].get().is_none() {
            return Ok(None);
        }
        Ok(Some(Vec::with_capacity(alloc, size_of(number))?))
    }

    /// Puts a segment into the directory. It comes back where another is there, or where it has no shelf.
    pub fn set(&self, number: u64, words: Vec<Word<V, P>>) -> Result<(), Vec<Word<V, P>>>
        requires number { number < 2 ^ 44 }
        requires segment { IsSegment self.now number words.items }
        ensures { IfErr result (λ back. back.items ≡ words.items) }
    {
        if number < 384 {
            return match self.near[number as usize].set(words) {
                Ok(_) => Ok(()),
                Err(words) => Err(words),
            };
        }
        let (shelf, slot) = shelve(number);
        let Some(slots) = self.shelves[shelf].get() else {
            return Err(words);
        };
        match slots[slot].set(words) {
            Ok(_) => Ok(()),
            Err(words) => Err(words),
        }
    }
}

// The words of a segment from a place on, if it has that many.
#[inline(always)]
fn from_place<V, P: Rule<V>>(segment: &Vec<Word<V, P>>, at: usize) -> Option<&[Word<V, P>]>
    ensures { (k : ℕ) (b : Book) → AreWords k b segment.now.items
        → IfSome result (λ words. AreWords (k + at) b words.now) }
{
    if at > segment.len() {
        return None;
    }
    Some(&segment[at..segment.len()])
}

// Empty slots, tagged by the numbers from one on.
fn row<T: Drop, Q: SlotRule<T>>(
    alloc: Global,
    tag: &Tag,
    from: usize,
    count: usize,
) -> Result<Vec<OnceSlot<T, Q>>, AllocError>
    requires { from + count < 2 ^ 64 }
    ensures { IfOk result (λ v. Tagged tag.now.numbers from count v.items) }
{
    let mut slots = Vec::with_capacity(alloc, count)?;
    let mut j = 0;
    while j < count {
        slots.push_reserved(OnceSlot::new(&with_number(from + j, tag)));
        j += 1;
    }
    Ok(slots)
}
