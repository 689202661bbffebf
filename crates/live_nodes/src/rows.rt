//! Words in a row, by what the seat may do with them.

ghost use Rattle.std.specs.Prelude.{◌-◌, length};
ghost use Rattle.live_nodes.specs.Seats.{Agree};
ghost use Rattle.live_nodes.specs.Rows.{last_saw, draft_of, nth, filled, MayRead, MayHold, MayFill, without_reads, without_draft, without_fill};

use crate::law::{NodeLaw, Seat, Word};
use crate::{node, room};
use live_layout::words::{ReadWords, WriteWords};

/// The words of a node, whose version word the seat took last. The version word is the first.
#[derive(Drop)]
pub struct SharedWords<'a, V, L: NodeLaw<V>> {
    pub words: &'a [Word<V, L>],
}

impl<'a, V, L: NodeLaw<V>> ReadWords<Seat<V, L>> for SharedWords<'a, V, L> {
    ghost may_read = { λ r s. MayRead r.words.now s.book s.view };

    ghost long = { λ r. length r.words.now - 1 };

    ghost agrees = { λ r s c. Agree c (last_saw s.view.reads) };

    ghost rest = { λ r s. record s { view = without_reads s.view } };

    fn word(&self, i: usize, seat: &mut Seat<V, L>) -> u64 {
        node::read(&self.words[i + 1], seat)
    }
}

/// The words of the node that the seat locked last, or `N` before that.
#[derive(Drop)]
pub struct LockedWords<'a, V, L: NodeLaw<V>, const N: usize> {
    pub words: &'a [Word<V, L>],
}

impl<'a, V, L: NodeLaw<V>, const N: usize> WriteWords<Seat<V, L>> for LockedWords<'a, V, L, N> {
    ghost may_write = { λ r s. MayHold N r.words.now s.book s.view };

    ghost words = { λ r s. draft_of (nth N s.view.holds) };

    ghost rest = { λ r s. record s { view = without_draft N s.view } };

    fn get(&self, i: usize, seat: &mut Seat<V, L>) -> u64 {
        node::look(&self.words[i + 1], seat)
    }

    fn set(&self, i: usize, word: u64, seat: &mut Seat<V, L>) {
        node::write(&self.words[i + 1], word, seat)
    }
}

/// The first words of the seat's room, which become a node.
#[derive(Drop)]
pub struct NewWords<'a, V, L: NodeLaw<V>> {
    pub words: &'a [Word<V, L>],
}

impl<'a, V, L: NodeLaw<V>> WriteWords<Seat<V, L>> for NewWords<'a, V, L> {
    ghost may_write = { λ r s. MayFill r.words.now s.book s.view };

    ghost words = { λ r s. filled (length r.words.now) s.view.room };

    ghost rest = { λ r s. record s { view = without_fill (length r.words.now) s.view } };

    fn get(&self, i: usize, seat: &mut Seat<V, L>) -> u64 {
        node::look(&self.words[i + 1], seat)
    }

    fn set(&self, i: usize, word: u64, seat: &mut Seat<V, L>) {
        room::put(&self.words[i + 1], word, seat)
    }
}
