//! A guard's room for nodes becomes another guard's.
ghost use Rattle.std.specs.Prelude.{◌≡◌};
ghost use Rattle.live_pool.specs.Successions.{Succeeds, Informs};

use live_growth::map::Guard;
use live_nodes::law::{NodeLaw, View};
use live_nodes::map_law::{MapLaw, MapView};
use live_reads::path::Seat;
use word_book::seat::Meeting;

/// A seat takes another's room over.
pub struct Succession;

impl<V, L: NodeLaw<V>> Meeting<View<V, L>> for Succession {
    ghost use Rattle.live_pool.specs.Successions.{Succeeds};

    ghost then = { Succeeds };
}

/// The first seat's room is the second's from then on, whose own is lost. It touches no word.
pub fn hand_over<V, L: NodeLaw<V>>(
    from: &mut live_nodes::law::Seat<V, L>,
    to: &mut live_nodes::law::Seat<V, L>,
)
    requires book { from.old.book ≡ to.old.book }
    ensures first { (from.new.book ≡ from.old.book) × (from.new.id ≡ from.old.id) }
    ensures second { (to.new.book ≡ to.old.book) × (to.new.id ≡ to.old.id) }
    ensures succeeds { Succeeds from.old.view to.old.view from.new.view to.new.view }
{
    from.meet::<Succession>(to)
}

/// Two seats tell each other where nodes are.
pub struct Information;

impl Meeting<View<MapView, MapLaw>> for Information {
    ghost use Rattle.live_pool.specs.Successions.{Informs};

    ghost then = { Informs };
}

/// Both seats know where the nodes are that either has met. It touches no word.
pub fn inform(a: &mut Seat, b: &mut Seat)
    requires book { a.old.book ≡ b.old.book }
    ensures first { (a.new.book ≡ a.old.book) × (a.new.id ≡ a.old.id) }
    ensures second { (b.new.book ≡ b.old.book) × (b.new.id ≡ b.old.id) }
    ensures informs { Informs a.old.view b.old.view a.new.view b.new.view }
{
    a.meet::<Information>(b)
}

/// What a guard that ends has for new nodes is the other guard's from then on, whose own is lost. That one has seen no more.
pub fn succeed(from: Guard, to: &mut Guard)
    requires book { from.book ≡ to.old.book }
    ensures { to.new ≡ to.old }
{
    let Guard { mut seat, room } = from;
    inform(&mut seat, &mut to.seat);
    hand_over(&mut seat, &mut to.seat);
    to.room = room;
    drop(seat);
}
