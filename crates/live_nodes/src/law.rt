//! The law of a caller, and the rule that the words keep for it.

use std::marker::{Model, PhantomData};
use word_book::seat::Rule;

/// What a caller keeps of all nodes, and of what each seat of its own knows.
pub trait NodeLaw<V> {
    ghost use Rattle.std.specs.Prelude.{ℕ, List};
    ghost use Rattle.live_nodes.specs.Nodes.{Node};

    ghost holds: { List Node → List V → Type 0 };

    // What a new seat knows.
    ghost first: { V };

    // The length of the root's content. The root is node 0, and its version word has the key 1.
    ghost root: { ℕ };
}

/// What a seat knows. It exists in proofs alone: no value of it is made.
pub struct View<V, L: NodeLaw<V>> {
    of: PhantomData<(V, L)>,
}

impl<V, L: NodeLaw<V>> Model for View<V, L> {
    ghost use Rattle.std.specs.Prelude.{[]};
    ghost use Rattle.live_nodes.specs.Seats.{SeatView, seat_view, no_room};

    ghost Value = { SeatView V };

    ghost view = { λ _. seat_view L.first [] [] [] no_room };
}

/// The rule of the words.
pub struct Law<L> {
    of: PhantomData<L>,
}

impl<V, L: NodeLaw<V>> Rule<View<V, L>> for Law<L> {
    ghost use Rattle.std.specs.Prelude.{[], ◌∷◌};
    ghost use Rattle.live_nodes.specs.Rule.{IsLive};
    ghost use Rattle.live_nodes.specs.Seats.{seat_view, place, no_room};

    ghost holds = { IsLive L.root L.holds };

    ghost first = { seat_view L.first (place 0 1 L.root ∷ []) [] [] no_room };
}

pub type Seat<V, L> = word_book::seat::Seat<View<V, L>, Law<L>>;

pub type Word<V, L> = word_book::word::Word<View<V, L>, Law<L>>;
