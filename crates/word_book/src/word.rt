//! Words, and the steps on them.
ghost use Rattle.std.specs.Prelude.{◌≡◌, ℕ, ◌+◌, ◌-◌, ◌<◌};
ghost use base.Fml.{fsep, fex};
ghost use Rattle.word_book.specs.Book.{Name, name_coded, name, reads, writes, compares, Tells, joined, none_joined, Loads, Stores, Exchanges};
ghost use Rattle.word_book.specs.inner.Owned.{beside, word_shows};

use crate::seat::{Pens, Rule, Seat};
use atomic_table::exchange;
use std::marker::{Brand, Move, Owns, PhantomData};
use std::sync::atomic::Ordering::SeqCst;
use std::sync::atomic::raw;

/// What a step tells its seat.
pub trait Play<V> {
    ghost then: { Tells V };
}

/// A `u64` that threads change in single atomic steps, all in one order. A clause sees its name: book and key.
///
/// 8 bytes.
pub struct Word<V, P: Rule<V>> {
    bits: u64,
    marker: PhantomData<(V, P)>,
}

impl<V, P: Rule<V>> Owns for Word<V, P> {
    ghost Value = { Name };

    ghost coded = { name_coded };

    ghost shr_at = { λ w p κ. word_shows w p κ };
}

impl<V, P: Rule<V>> Move for Word<V, P> {
    ghost own_val = { λ w vs. fex ℕ (λ n. fsep (Fields.own_val (record { bits = n; marker = record {} }) vs) (beside w n)) };
}

impl<V, P: Rule<V>> Word<V, P> {
    /// The next of the words that `pens` has the rights to make.
    pub fn of(pens: &mut Pens) -> Word<V, P>
        requires { 0 < pens.old.left }
        ensures word { result ≡ name pens.old.next pens.old.book }
        ensures book { pens.new.book ≡ pens.old.book }
        ensures others { (pens.new.next ≡ pens.old.next + 1) × (pens.new.left ≡ pens.old.left - 1) }
    {
        Word {
            bits: 0,
            marker: PhantomData,
        }
    }

    /// The word's number.
    pub fn load<M: Play<V>>(&self, seat: &mut Seat<V, P>) -> u64
        requires book { seat.old.book ≡ self.now.book }
        requires rule { Loads P.holds M.then seat.old.id seat.old.view self.now.key }
        ensures seat { (seat.new.book ≡ seat.old.book) × (seat.new.id ≡ seat.old.id) }
        ensures view { M.then (reads self.now.key) seat.old.view result none_joined seat.new.view }
    {
        unsafe { raw::load::<Brand>(self as *const Self as *const u64, SeqCst) }
    }

    /// The word's number becomes `new`, whatever it was.
    pub fn store<M: Play<V>>(&self, new: u64, seat: &mut Seat<V, P>)
        requires book { seat.old.book ≡ self.now.book }
        requires rule { Stores P.holds M.then seat.old.id seat.old.view self.now.key new }
        ensures seat { (seat.new.book ≡ seat.old.book) × (seat.new.id ≡ seat.old.id) }
        ensures view { M.then (writes self.now.key new) seat.old.view new none_joined seat.new.view }
    {
        unsafe { raw::store::<Brand>(self as *const Self as *const u64, new, SeqCst) }
    }

    /// The number found. If it was `old`, it has become `new`, and words may have joined, whose rights come with it.
    pub fn compare_exchange<M: Play<V>>(
        &self,
        old: u64,
        new: u64,
        seat: &mut Seat<V, P>,
    ) -> (u64, Pens)
        requires book { seat.old.book ≡ self.now.book }
        requires rule { Exchanges P.holds M.then seat.old.id seat.old.view self.now.key old new }
        ensures seat { (seat.new.book ≡ seat.old.book) × (seat.new.id ≡ seat.old.id) }
        ensures pens { result.1.book ≡ seat.old.book }
        ensures view { let asked = compares self.now.key old new
            in let more = joined result.1.next result.1.left
            in M.then asked seat.old.view result.0 more seat.new.view }
    {
        let found = unsafe { exchange::<Brand>(self as *const Self as *const u64, old, new) };
        (
            found,
            Pens {
                marker: PhantomData,
            },
        )
    }
}

impl<V, P: Rule<V>> Drop for Word<V, P> {
    fn drop(self) {
        let Self { bits: _, marker: _ } = self;
    }
}

unsafe impl<V, P: Rule<V>> Send for Word<V, P> {}

unsafe impl<V, P: Rule<V>> Sync for Word<V, P> {}
