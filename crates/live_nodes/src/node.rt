//! The calls on a node, each of one step. A word is given by reference, wherever it lies.
//!
//! By its version word a node is free (a multiple of 4), locked (2 more) or obsolete (3 more).
ghost use Rattle.std.specs.Prelude.{◌≡◌, ℕ, ◌+◌, ◌%◌, ◌<◌, ◌^◌, ◌↔◌, IsTrue};
ghost use Rattle.word_book.specs.Book.{reads, writes, compares, none_joined, Joined};
ghost use Rattle.live_nodes.specs.Plays.{Takes, Sees, Looks, Checks, Locks, Writes, Frees};
ghost use Rattle.live_nodes.specs.Calls.{KnowsPlace, KnowsCell, HoldsCell, MayCheck, MayLock, MayFree};

use crate::law::{NodeLaw, Seat, Word};
use crate::plays::{Check, Free, Lock, Look, OnCheck, OnLock, See, Take, Write};

/// Takes the version word of a node.
pub fn take<V, L: NodeLaw<V>>(word: &Word<V, L>, seat: &mut Seat<V, L>) -> u64
    requires book { seat.old.book ≡ word.now.book }
    requires known { KnowsPlace seat.old.view word.now.key }
    ensures seat { (seat.new.book ≡ seat.old.book) × (seat.new.id ≡ seat.old.id) }
    ensures taken { Takes (reads word.now.key) seat.old.view result none_joined seat.new.view }
{
    word.load::<Take>(seat)
}

/// Reads a number of a node's content.
pub fn read<V, L: NodeLaw<V>>(word: &Word<V, L>, seat: &mut Seat<V, L>) -> u64
    requires book { seat.old.book ≡ word.now.book }
    requires known { KnowsCell seat.old.view word.now.key }
    ensures seat { (seat.new.book ≡ seat.old.book) × (seat.new.id ≡ seat.old.id) }
    ensures read { Sees (reads word.now.key) seat.old.view result none_joined seat.new.view }
{
    word.load::<See>(seat)
}

/// Reads a number that only this seat writes, of a node that it holds or of its room. It knows the number, if it has kept
/// what it wrote, and the seat stays as it is.
pub fn look<V, L: NodeLaw<V>>(word: &Word<V, L>, seat: &mut Seat<V, L>) -> u64
    requires book { seat.old.book ≡ word.now.book }
    ensures seat { (seat.new.book ≡ seat.old.book) × (seat.new.id ≡ seat.old.id) }
    ensures looked { Looks (reads word.now.key) seat.old.view result none_joined seat.new.view }
{
    word.load::<Look>(seat)
}

/// Whether a version word is still the one that was taken. Then all that was read of the node since is current.
pub fn check<V, L: NodeLaw<V>, M: OnCheck<V>>(
    word: &Word<V, L>,
    taken: u64,
    seat: &mut Seat<V, L>,
) -> bool
    requires book { seat.old.book ≡ word.now.book }
    requires free { taken % 4 ≡ 0 }
    requires learns { MayCheck seat.old.view word.now.key L.holds seat.old.id M.told taken }
    ensures seat { (seat.new.book ≡ seat.old.book) × (seat.new.id ≡ seat.old.id) }
    ensures checked { (n : ℕ) × (IsTrue result ↔ (n ≡ taken))
        × Checks M.told (reads word.now.key) seat.old.view n none_joined seat.new.view }
{
    word.load::<Check<M>>(seat) == taken
}

/// Locks a node that is free by this version word. `false` where its word is another.
pub fn lock<V, L: NodeLaw<V>, M: OnLock<V>>(
    word: &Word<V, L>,
    free: u64,
    seat: &mut Seat<V, L>,
) -> bool
    requires book { seat.old.book ≡ word.now.book }
    requires free { (free % 4 ≡ 0) × (free < 2 ^ 63) }
    requires locks { MayLock seat.old.view word.now.key L.holds seat.old.id M.told free (free + 2) }
    ensures seat { (seat.new.book ≡ seat.old.book) × (seat.new.id ≡ seat.old.id) }
    ensures locked { (n : ℕ) × (j : Joined) × (IsTrue result ↔ (n ≡ free))
        × Locks M.told (compares word.now.key free (free + 2)) seat.old.view n j seat.new.view }
{
    let (found, _) = word.compare_exchange::<Lock<M>>(free, free + 2, seat);
    found == free
}

/// Writes a number of a held node's content. No other seat sees it before the node is free.
pub fn write<V, L: NodeLaw<V>>(word: &Word<V, L>, new: u64, seat: &mut Seat<V, L>)
    requires book { seat.old.book ≡ word.now.book }
    requires held { HoldsCell seat.old.view word.now.key }
    ensures seat { (seat.new.book ≡ seat.old.book) × (seat.new.id ≡ seat.old.id) }
    ensures written { Writes (writes word.now.key new) seat.old.view new none_joined seat.new.view }
{
    word.store::<Write>(new, seat)
}

/// Unlocks a node that was free by this version word. What was written is its content.
pub fn unlock<V, L: NodeLaw<V>, M: OnLock<V>>(word: &Word<V, L>, free: u64, seat: &mut Seat<V, L>)
    requires book { seat.old.book ≡ word.now.book }
    requires free { (free % 4 ≡ 0) × (free < 2 ^ 63) }
    requires frees { MayFree seat.old.view word.now.key L.holds seat.old.id M.told (free + 2) (free + 4) }
    ensures seat { (seat.new.book ≡ seat.old.book) × (seat.new.id ≡ seat.old.id) }
    ensures freed { Frees M.told (writes word.now.key (free + 4)) seat.old.view (free + 4) none_joined seat.new.view }
{
    word.store::<Free<M>>(free + 4, seat)
}

/// Makes a held node obsolete. It is so until it is reclaimed.
pub fn retire<V, L: NodeLaw<V>, M: OnLock<V>>(word: &Word<V, L>, free: u64, seat: &mut Seat<V, L>)
    requires book { seat.old.book ≡ word.now.book }
    requires free { (free % 4 ≡ 0) × (free < 2 ^ 63) }
    requires frees { MayFree seat.old.view word.now.key L.holds seat.old.id M.told (free + 2) (free + 3) }
    ensures seat { (seat.new.book ≡ seat.old.book) × (seat.new.id ≡ seat.old.id) }
    ensures freed { Frees M.told (writes word.now.key (free + 3)) seat.old.view (free + 3) none_joined seat.new.view }
{
    word.store::<Free<M>>(free + 3, seat)
}

/// Locks a node again that is obsolete by this version word. `false` where its word is another. It is free again only once
/// its holder unlocks it, by the version after that one.
pub fn reclaim<V, L: NodeLaw<V>, M: OnLock<V>>(
    word: &Word<V, L>,
    obsolete: u64,
    seat: &mut Seat<V, L>,
) -> bool
    requires book { seat.old.book ≡ word.now.book }
    requires obsolete { (obsolete % 4 ≡ 3) × (obsolete < 2 ^ 63) }
    requires locks { MayLock seat.old.view word.now.key L.holds seat.old.id M.told obsolete (obsolete + 3) }
    ensures seat { (seat.new.book ≡ seat.old.book) × (seat.new.id ≡ seat.old.id) }
    ensures locked { (n : ℕ) × (j : Joined) × (IsTrue result ↔ (n ≡ obsolete))
        × Locks M.told (compares word.now.key obsolete (obsolete + 3)) seat.old.view n j seat.new.view }
{
    let (found, _) = word.compare_exchange::<Lock<M>>(obsolete, obsolete + 3, seat);
    found == obsolete
}
