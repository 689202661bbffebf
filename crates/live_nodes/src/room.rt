//! A book with its root, seats at it, and the room of a seat for new nodes.
ghost use Rattle.std.specs.Prelude.{◌≡◌, ◌≢◌, ℕ, ◌+◌, ◌<◌, ◌^◌, ◌↔◌, IsTrue, [], ◌∷◌, replicate, None};
ghost use Rattle.word_book.specs.Book.{writes, compares, none_joined, joined};
ghost use Rattle.live_nodes.specs.Nodes.{node_at};
ghost use Rattle.live_nodes.specs.Seats.{seat_view, place, no_room};
ghost use Rattle.live_nodes.specs.Acts as acts;
ghost use Rattle.live_nodes.specs.Acts.{Admits};
ghost use Rattle.live_nodes.specs.Plays.{Puts, Makes, Grows, Meets};
ghost use Rattle.live_nodes.specs.Calls.{InRoom, MayMake};

use crate::law::{NodeLaw, Seat, Word};
use crate::plays::{Grow, Make, Meet, OnMake, OnMeet, Put};
use word_book::seat::Pens;

/// A new book with this limit: the count of segments, which is 0, and the root, whose content is all 0.
pub fn open<V, L: NodeLaw<V>>(root: usize, limit: u64) -> (Seat<V, L>, Pens)
    requires root { (root ≡ L.root) × (root < 2 ^ 32) }
    requires law { L.holds (node_at 1 0 (replicate root 0) None ∷ []) (L.first ∷ []) }
    ensures seat { result.0.view ≡ seat_view L.first (place 0 1 root ∷ []) [] [] no_room }
    ensures pens { (result.1.book ≡ result.0.book) × (result.1.next ≡ 0) × (result.1.left ≡ root + 2) }
    ensures limit { result.0.book.limit ≡ limit }
{
    Seat::open(root + 2, limit)
}

/// One more seat. It knows the root's place.
pub fn enter<V, L: NodeLaw<V>>(seat: &Seat<V, L>) -> Seat<V, L>
    requires { Admits L.holds L.first }
    ensures book { result.book ≡ seat.now.book }
    ensures view { result.view ≡ seat_view L.first (place 0 1 L.root ∷ []) [] [] no_room }
{
    seat.enter()
}

/// Two seats of one book meet, and learn of each other.
pub fn meet<V, L: NodeLaw<V>, M: OnMeet<V>>(a: &mut Seat<V, L>, b: &mut Seat<V, L>)
    requires book { a.old.book ≡ b.old.book }
    requires meets { acts.Meets L.holds a.old.id a.old.view.client b.old.id b.old.view.client
        (M.told a.old.view.client b.old.view.client) }
    ensures first { (a.new.book ≡ a.old.book) × (a.new.id ≡ a.old.id) }
    ensures second { (b.new.book ≡ b.old.book) × (b.new.id ≡ b.old.id) }
    ensures differ { a.old.id ≢ b.old.id }
    ensures met { Meets M.told a.old.view b.old.view a.new.view b.new.view }
{
    a.meet::<Meet<M>>(b)
}

/// Counts one more segment, and adds its words. They are the seat's room, and what was left of its old room is lost.
/// `false` where another count is found.
pub fn grow<V, L: NodeLaw<V>>(count: &Word<V, L>, old: u64, seat: &mut Seat<V, L>) -> (bool, Pens)
    requires book { seat.old.book ≡ count.now.book }
    requires count { (count.now.key ≡ 0) × (old < 2 ^ 63) }
    ensures seat { (seat.new.book ≡ seat.old.book) × (seat.new.id ≡ seat.old.id) }
    ensures pens { result.1.book ≡ seat.old.book }
    ensures grown { (n : ℕ) × (IsTrue result.0 ↔ (n ≡ old)) × (let more = joined result.1.next result.1.left
        in Grows L.root (compares 0 old (old + 1)) seat.old.view n more seat.new.view) }
{
    let (found, pens) = count.compare_exchange::<Grow>(old, old + 1, seat);
    (found == old, pens)
}

/// Writes a number of the seat's room.
pub fn put<V, L: NodeLaw<V>>(word: &Word<V, L>, new: u64, seat: &mut Seat<V, L>)
    requires book { seat.old.book ≡ word.now.book }
    requires room { InRoom seat.old.view word.now.key }
    ensures seat { (seat.new.book ≡ seat.old.book) × (seat.new.id ≡ seat.old.id) }
    ensures put { Puts (writes word.now.key new) seat.old.view new none_joined seat.new.view }
{
    word.store::<Put>(new, seat)
}

/// Writes the last number of a new node. By its first word it is free from now on, or obsolete.
pub fn make<V, L: NodeLaw<V>, M: OnMake<V>>(word: &Word<V, L>, last: u64, seat: &mut Seat<V, L>)
    requires book { seat.old.book ≡ word.now.book }
    requires makes { MayMake seat.old.view word.now.key L.holds seat.old.id M.told last }
    ensures seat { (seat.new.book ≡ seat.old.book) × (seat.new.id ≡ seat.old.id) }
    ensures made { Makes M.told (writes word.now.key last) seat.old.view last none_joined seat.new.view }
{
    word.store::<Make<M>>(last, seat)
}
