//! What reads the words of a node one by one, and what writes them. A seat makes each step, and knows then what it has read
//! or written.

ghost use Rattle.std.specs.Prelude.{◌≡◌, ℕ, ◌<◌, List, length, slice_set};
ghost use Rattle.live_layout.specs.Words.{at, Stays, Looks};

/// The words of a node, which other seats may write meanwhile.
pub trait ReadWords<S> {
    // The seat may read them.
    ghost may_read: { Self → S → Type 0 };

    // How many there are.
    ghost long: { Self → ℕ };

    // What the seat has read so far agrees with these words.
    ghost agrees: { Self → S → List ℕ → Type 0 };

    // The seat without what it has read here.
    ghost rest: { Self → S → S };

    /// The word at a place.
    fn word(&self, i: usize, seat: &mut S) -> u64
        requires may { may_read self.now seat.old }
        requires inside { i < long self.now }
        ensures seat { Stays may_read rest self.now seat.old seat.new }
        ensures read { (c : List ℕ) → agrees self.now seat.new c
            → (at c i ≡ result) × agrees self.now seat.old c };
}

/// The words of a node that no other seat writes: the seat has locked the node, or nobody else knows it yet.
pub trait WriteWords<S> {
    // The seat may write them.
    ghost may_write: { Self → S → Type 0 };

    // What they are.
    ghost words: { Self → S → List ℕ };

    // The seat without what it has written here.
    ghost rest: { Self → S → S };

    /// The word at a place.
    fn get(&self, i: usize, seat: &mut S) -> u64
        requires may { may_write self.now seat.old }
        requires inside { i < length (words self.now seat.old) }
        ensures is { result ≡ at (words self.now seat.old) i }
        ensures seat { Looks may_write words self.now seat.old seat.new };

    /// Writes the word at a place.
    fn set(&self, i: usize, word: u64, seat: &mut S)
        requires may { may_write self.now seat.old }
        requires inside { i < length (words self.now seat.old) }
        ensures is { words self.now seat.new ≡ slice_set (words self.now seat.old) i word }
        ensures seat { Stays may_write rest self.now seat.old seat.new };
}

/// Words that a seat writes, for who searches them. There are `long`.
#[derive(Drop)]
pub struct AsReadWords<'a, D> {
    pub draft: &'a D,
    pub long: usize,
}

impl<'a, S, D: WriteWords<S>> ReadWords<S> for AsReadWords<'a, D> {
    ghost may_read = { λ d s. D.may_write d.draft.now s
        × (length (D.words d.draft.now s) ≡ d.long) };

    ghost long = { λ d. d.long };

    ghost agrees = { λ d s c. c ≡ D.words d.draft.now s };

    ghost rest = { λ d s. s };

    fn word(&self, i: usize, seat: &mut S) -> u64 {
        self.draft.get(i, seat)
    }
}
