//! All nodes of one book, with their words in memory: the root's, and segments that come in while others read.
ghost use Rattle.std.specs.Prelude.{◌≡◌, ℕ, ◌+◌, ◌-◌, ◌*◌, ◌<◌, ◌≤◌, ◌^◌, [], ◌∷◌, length, replicate, None, IfOk, IfSome, IfNone, OnErr};
ghost use Rattle.word_book.specs.Book.{Book, book_coded, name};
ghost use Rattle.word_segments.specs.Segments.{AreWords, before, keys, size};
ghost use Rattle.live_nodes.specs.Nodes.{node_at};
ghost use Rattle.live_nodes.specs.Seats.{seat_view, place, no_room};
ghost use Rattle.live_nodes.specs.Acts.{Admits};
ghost use Rattle.live_nodes.specs.Plays.{given};

use crate::law::{Law, NodeLaw, Seat, View, Word};
use crate::plays::Idle;
use crate::room;
use std::alloc::{AllocError, Global};
use std::marker::Model;
use word_book::seat::Pens;
use word_segments::place::{KEYS, before_of, fitting, size_of};
use word_segments::segments::{Segments, filled};

/// A segment that a seat has as its room: the key of its first word, and how many words it has.
#[derive(Clone, Copy, Debug, PartialEq, Eq)]
pub struct Grown {
    pub start: u64,
    pub count: usize,
}

/// The words of all nodes. `door` lets threads enter. `limit` is of the bytes of all segments, and `most` of their number.
#[derive(Drop)]
pub struct Heap<V, L: NodeLaw<V>> {
    root_word: Vec<Word<V, L>>,
    segments: Segments<View<V, L>, Law<L>>,
    door: Seat<V, L>,
    limit: u64,
    most: u64,
}

impl<V, L: NodeLaw<V>> Model for Heap<V, L> {
    ghost Value = { Book };

    ghost coded = { book_coded };

    ghost view = { λ h. h.door.book };

    ghost invariant = { λ h. (length h.root_word.items ≡ L.root + 2) × AreWords 0 h.door.book h.root_word.items
        × (h.segments ≡ record { base = L.root + 2; most = h.most; book = h.door.book })
        × (8 * before h.most ≤ h.limit) × (h.door.book.limit ≡ h.limit) };
}

impl<V, L: NodeLaw<V>> Heap<V, L> {
    /// The root alone, whose content is all 0. There is no limit: it is `u64::MAX`.
    pub fn new(alloc: Global, root: usize) -> Result<Heap<V, L>, AllocError>
        requires root { (root ≡ L.root) × (root < 2 ^ 32) }
        requires law { L.holds (node_at 1 0 (replicate root 0) None ∷ []) (L.first ∷ []) }
        ensures limit { IfOk result (λ heap. heap.limit ≡ 2 ^ 64 - 1) }
    {
        Heap::with_limit(alloc, root, u64::MAX)
    }

    /// The root alone, whose content is all 0. All segments may take so many bytes together.
    pub fn with_limit(alloc: Global, root: usize, limit: u64) -> Result<Heap<V, L>, AllocError>
        requires root { (root ≡ L.root) × (root < 2 ^ 32) }
        requires law { L.holds (node_at 1 0 (replicate root 0) None ∷ []) (L.first ∷ []) }
        ensures limit { IfOk result (λ heap. heap.limit ≡ limit) }
    {
        let (door, pens) = room::open::<V, L>(root, limit);
        let root_word = filled(Vec::with_capacity(alloc, root + 2)?, root + 2, pens);
        let most = fitting(limit);
        let segments = Segments::new(alloc, root as u64 + 2, most, &root_word[0])?;
        Ok(Heap {
            root_word,
            segments,
            door,
            limit,
            most,
        })
    }

    /// How many bytes all segments may take together.
    pub fn limit(&self) -> u64
        ensures { result ≡ self.now.limit }
    {
        self.limit
    }

    /// How many bytes the segments take that were counted so far, and how many they may.
    pub fn usage(&self, seat: &mut Seat<V, L>) -> (u64, u64)
        requires { seat.old.book ≡ self.now }
        ensures seat { (seat.new.book ≡ seat.old.book) × (seat.new.id ≡ seat.old.id) × (seat.new.view ≡ seat.old.view) }
        ensures whole { (n : ℕ) × (result.0 ≡ 8 * before n) }
        ensures within { result.0 ≤ result.1 }
        ensures limit { result.1 ≡ self.now.limit }
    {
        let number = self.root_word[0].load::<Idle>(seat);
        let counted = number.min(self.most).min((1 << 44) - 1);
        (8 * before_of(counted), self.limit)
    }

    /// One more seat. It knows the root's place.
    pub fn enter(&self) -> Seat<V, L>
        requires { Admits L.holds L.first }
        ensures book { result.book ≡ self.now }
        ensures view { result.view ≡ seat_view L.first (place 0 1 L.root ∷ []) [] [] no_room }
    {
        room::enter(&self.door)
    }

    /// The word with a key. `None` where its segment isn't there yet, or never will be. The root's words are always there.
    #[inline(always)]
    pub fn word(&self, key: u64) -> Option<&Word<V, L>>
        ensures word { IfSome result (λ word. word.now ≡ name key self.now) }
        ensures none { IfNone result (L.root + 2 ≤ key) }
    {
        let first = self.root_word.len() as u64;
        if key < first {
            return Some(&self.root_word[key as usize]);
        }
        self.segments.get(key)
    }

    /// So many words, with the keys from this one on, as those of a node. `None` where they don't lie in one segment, or it
    /// isn't there yet. The root's words lie in none.
    #[inline(always)]
    pub fn span(&self, key: u64, count: usize) -> Option<&[Word<V, L>]>
        ensures { IfSome result (λ words. (length words.now ≡ count)
            × AreWords key self.now words.now) }
    {
        self.segments.span(key, count)
    }

    /// The words of the root. They are always there.
    #[inline(always)]
    pub fn root_words(&self) -> &[Word<V, L>]
        ensures { (length result.now ≡ L.root + 1) × AreWords 1 self.now result.now }
    {
        &self.root_word[1..self.root_word.len()]
    }

    /// One more segment, whose words are the seat's room from then on. `None` where another thread is just making one. An
    /// error where the limit would be passed.
    pub fn grow(&self, alloc: Global, seat: &mut Seat<V, L>) -> Result<Option<Grown>, AllocError>
        requires { seat.old.book ≡ self.now }
        ensures seat { (seat.new.book ≡ seat.old.book) × (seat.new.id ≡ seat.old.id) }
        ensures room { IfOk result (λ grown. IfSome grown (λ g. (512 ≤ g.count)
            × (g.count ≤ keys) × (g.start < 2 ^ 62) × (seat.new.view ≡ given seat.old.view g.start keys))) }
        ensures lost { IfOk result (λ grown. IfNone grown (seat.new.view ≡ seat.old.view)) }
        ensures refused { OnErr result (seat.new.view ≡ seat.old.view) }
    {
        self.grow_within(alloc, self.most, seat)
    }

    /// One more segment, if fewer than so many are counted, whose words are the seat's room from then on. `None` where another
    /// thread is just making one. An error where there are as many, or the limit would be passed, before any memory is taken.
    pub fn grow_within(
        &self,
        alloc: Global,
        most: u64,
        seat: &mut Seat<V, L>,
    ) -> Result<Option<Grown>, AllocError>
        requires { seat.old.book ≡ self.now }
        ensures seat { (seat.new.book ≡ seat.old.book) × (seat.new.id ≡ seat.old.id) }
        ensures room { IfOk result (λ grown. IfSome grown (λ g. (512 ≤ g.count)
            × (g.count ≤ keys) × (g.start < 2 ^ 62) × (seat.new.view ≡ given seat.old.view g.start keys))) }
        ensures within { IfOk result (λ grown. IfSome grown (λ g. (j : ℕ) × (j < most)
            × (g.start ≡ L.root + 2 + keys * j) × (g.count ≡ size j))) }
        ensures lost { IfOk result (λ grown. IfNone grown (seat.new.view ≡ seat.old.view)) }
        ensures refused { OnErr result (seat.new.view ≡ seat.old.view) }
    {
        let first = self.root_word.len() as u64;
        let count = &self.root_word[0];
        let number = count.load::<Idle>(seat);
        if number >= most || number >= self.most || number >= 1 << 44 || first >= 1 << 33 {
            return Err(AllocError);
        }
        let Some(words) = self.segments.reserve(alloc, number)? else {
            return Ok(None);
        };
        let (grown, pens) = room::grow(count, number, seat);
        if !grown {
            return Ok(None);
        }
        let count = size_of(number);
        let start = first + KEYS * number;
        let segment = filled(words, count, pens);
        drop(self.segments.set(number, segment));
        Ok(Some(Grown { start, count }))
    }
}
