//! Seats, and the rights to make words. Neither takes any bytes.
ghost use Rattle.std.specs.Prelude.{◌≡◌, ◌≢◌, ℕ, replicate, [], ◌∷◌};
ghost use Rattle.word_book.specs.Book.{State, Book, book_coded, Enters, Meets};
ghost use Rattle.word_book.specs.inner.Owned.{pens_own, seat_owns, seat_shows};

use std::marker::{Model, PhantomData};

/// What holds of a book between any two steps. `V` is what a seat knows.
pub trait Rule<V> {
    // Of all words and the views of all seats.
    ghost holds: { State V → Type 0 };
    // What a new seat knows.
    ghost first: { V };
}

/// What two seats learn as they meet: of the views of both before, and of both after.
pub trait Meeting<V> {
    ghost then: { V → V → V → V → Type 0 };
}

/// A place at a book, from which a thread makes its steps.
///
/// The view of a seat that is dropped stays as it was.
pub struct Seat<V, P: Rule<V>> {
    marker: PhantomData<(V, P)>,
    pub ghost book: { Book } by { book_coded },
    pub ghost id: { ℕ },
    pub ghost view: { V },
}

impl<V, P: Rule<V>> Model for Seat<V, P> {
    ghost also_owns = { λ s. seat_owns V.row.coded.code P.holds s.book s.id s.view };

    ghost also_shares = { λ s _ κ. seat_shows V.row.coded.code P.holds s.book κ };
}

/// The rights to make `left` words, each 0, by the keys from `next` on.
///
/// A word whose right is dropped stays in the book. Nobody can ever reach it.
pub struct Pens {
    pub(crate) marker: PhantomData<()>,
    pub ghost book: { Book } by { book_coded },
    pub ghost next: { ℕ },
    pub ghost left: { ℕ },
}

impl Model for Pens {
    ghost also_owns = { λ p. pens_own p.book.words_name p.next p.left };
}

impl<V, P: Rule<V>> Seat<V, P> {
    /// A new book with `count` words, each 0, its first seat, and the rights to make the words. The limit is noted in the book
    /// for its maker, and nothing here goes by it.
    pub fn open(count: usize, limit: u64) -> (Seat<V, P>, Pens)
        requires { P.holds record { words = replicate count 0; views = P.first ∷ [] } }
        ensures seat { (result.0.id ≡ 0) × (result.0.view ≡ P.first) }
        ensures pens { (result.1.book ≡ result.0.book) × (result.1.next ≡ 0) × (result.1.left ≡ count) }
        ensures limit { result.0.book.limit ≡ limit }
    {
        let _ = count;
        let _ = limit;
        (
            Seat {
                marker: PhantomData,
            },
            Pens {
                marker: PhantomData,
            },
        )
    }

    /// Two seats of one book meet, and learn of each other. It touches no word.
    pub fn meet<M: Meeting<V>>(&mut self, other: &mut Seat<V, P>)
        requires book { self.old.book ≡ other.old.book }
        requires rule { Meets P.holds M.then self.old.id self.old.view other.old.id other.old.view }
        ensures first { (self.new.book ≡ self.old.book) × (self.new.id ≡ self.old.id) }
        ensures second { (other.new.book ≡ other.old.book) × (other.new.id ≡ other.old.id) }
        ensures differ { self.old.id ≢ other.old.id }
        ensures view { M.then self.old.view other.old.view self.new.view other.new.view }
    {
        let _ = other;
    }

    /// One more seat at the same book, as for another thread. It touches no word.
    pub fn enter(&self) -> Seat<V, P>
        requires { Enters P.holds P.first }
        ensures { (result.book ≡ self.now.book) × (result.view ≡ P.first) }
    {
        Seat {
            marker: PhantomData,
        }
    }
}

impl<V, P: Rule<V>> Drop for Seat<V, P> {
    fn drop(self) {
        let Self { marker: _ } = self;
    }
}

impl Drop for Pens {
    fn drop(self) {
        let Self { marker: _ } = self;
    }
}

unsafe impl<V, P: Rule<V>> Send for Seat<V, P> {}

unsafe impl<V, P: Rule<V>> Sync for Seat<V, P> {}

unsafe impl Send for Pens {}
