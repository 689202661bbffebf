//! Handles, and what calls return.
ghost use Rattle.std.specs.Prelude.{◌≡◌, ◌≢◌, ℕ};
ghost use Rattle.word_hazards.specs.Views.{HasLent, HasIssued, HasReclaimed};
ghost use Rattle.live_reads.specs.Meetings.{SeenMore};

use live_growth::map::Guard;
use std::marker::Model;
use word_owners::handle::Handle;

/// An owner that a handle has lent, and its ticket.
#[derive(Clone, Copy, Debug, PartialEq, Eq, Drop)]
pub struct Lent {
    pub ticket: u64,
    pub owner: u64,
}

/// A ticket that left the map, which is retired. Its owner, which is lent to the handle. `None` where another thread had retired
/// the ticket before.
#[derive(Clone, Copy, Debug, PartialEq, Eq, Drop)]
pub struct Previous {
    pub ticket: u64,
    pub owner: Option<u64>,
}

/// What one caller uses a map of owners by. Contracts see which map it is, and what the caller knows.
///
/// It has one owner lent at a time. A handle that is dropped keeps its place, of which there are 64. So end each by
/// `LiveOwners::leave`.
#[derive(Drop)]
pub struct OwnersHandle {
    pub(crate) guard: Guard,
    pub(crate) lender: Handle,
}

impl Model for OwnersHandle {
    ghost use Rattle.live_owners.specs.Owners.{OwnersKnown};

    ghost Value = { OwnersKnown };

    ghost view = { λ h. record { tickets = h.guard; table = h.lender.book; owners = h.lender.view } };
}

impl OwnersHandle {
    /// Two handles of one map meet. Both have then seen one legal history of tickets, which begins with what each had seen. An
    /// owner that came back to one is lent to neither. A ticket has one owner, whichever of them knows it. An owner came back to
    /// one of them at most.
    pub fn meet(&mut self, other: &mut OwnersHandle)
        requires map { self.old.tickets.book ≡ other.old.tickets.book }
        requires table { self.old.table ≡ other.old.table }
        ensures first { SeenMore self.old.tickets self.new.tickets }
        ensures second { SeenMore other.old.tickets other.new.tickets }
        ensures one { self.new.tickets.seen ≡ other.new.tickets.seen }
        ensures differ { self.old.tickets.caller ≢ other.old.tickets.caller }
        ensures kept { (t : ℕ) → HasLent self.old.owners t → HasReclaimed other.old.owners t → ⊥ }
        ensures own { (t : ℕ) → HasLent self.old.owners t → HasReclaimed self.old.owners t → ⊥ }
        ensures owner { (t o p : ℕ)
            → HasIssued self.old.owners t o → HasIssued other.old.owners t p → o ≡ p }
        ensures own_owner { (t o p : ℕ)
            → HasIssued self.old.owners t o → HasIssued self.old.owners t p → o ≡ p }
        ensures once { (t : ℕ) → HasReclaimed self.old.owners t → HasReclaimed other.old.owners t → ⊥ }
        ensures same { (self.new.owners ≡ self.old.owners) × (other.new.owners ≡ other.old.owners) }
        ensures tables { (self.new.table ≡ self.old.table) × (other.new.table ≡ other.old.table) }
    {
        self.guard.meet(&mut other.guard);
        self.lender.meet(&mut other.lender);
    }
}
