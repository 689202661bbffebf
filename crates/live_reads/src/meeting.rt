//! Two callers meet.
ghost use Rattle.std.specs.Prelude.{◌≡◌, ◌≢◌};
ghost use Rattle.live_nodes.specs.Plays.{Meets};
ghost use Rattle.live_reads.specs.Meetings.{HaveMet};

use crate::path::Seat;
use live_nodes::map_law::{MapLaw, MapView};
use live_nodes::plays::OnMeet;
use live_nodes::room;
use std::marker::{Brand, PhantomData};

/// Who meets.
pub trait Callers {
    ghost use Rattle.std.specs.Prelude.{ℕ};

    ghost first: { ℕ };

    ghost second: { ℕ };
}

impl Callers for Brand {
    ghost first = { 0 };

    ghost second = { 0 };
}

/// Both have then seen the whole history.
pub struct Both<C> {
    of: PhantomData<C>,
}

impl<C: Callers> OnMeet<MapView> for Both<C> {
    ghost use Rattle.live_reads.specs.Meetings.{HaveMet};

    ghost told = { HaveMet C.first C.second };
}

/// Two callers of one map meet.
pub fn meet<C: Callers>(a: &mut Seat, b: &mut Seat)
    requires book { a.old.book ≡ b.old.book }
    requires callers { (C.first ≡ a.old.id) × (C.second ≡ b.old.id) }
    ensures first { (a.new.book ≡ a.old.book) × (a.new.id ≡ a.old.id) }
    ensures second { (b.new.book ≡ b.old.book) × (b.new.id ≡ b.old.id) }
    ensures differ { a.old.id ≢ b.old.id }
    ensures met { Meets (HaveMet C.first C.second) a.old.view b.old.view a.new.view b.new.view }
{
    room::meet::<MapView, MapLaw, Both<C>>(a, b)
}
