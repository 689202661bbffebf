//! Handles.
ghost use Rattle.std.specs.Prelude.{◌≡◌, ℕ};
ghost use Rattle.word_hazards.specs.Views.{HasLent, HasIssued, HasReclaimed};

use std::marker::Model;
use word_hazards::laws::{law_one, law_two};
use word_hazards::rule::HazardSeat;

/// What one caller uses a table by. Contracts see which table it is, and what the caller knows.
///
/// It has one ticket lent at a time. A handle that is dropped keeps its hazard, of which there are 64. So end each by
/// `Owners::leave`.
#[derive(Drop)]
pub struct Handle {
    pub(crate) seat: HazardSeat,
    pub(crate) hazard: usize,
    // Tickets that it has retired.
    pub(crate) retired: Vec<u64>,
    // What its last scan found, if no ticket was retired since.
    pub(crate) found: Vec<u64>,
    pub(crate) current: bool,
    // Slots that are free.
    pub(crate) spare: Vec<u64>,
}

impl Model for Handle {
    ghost use Rattle.std.specs.Prelude.{◌≤◌};
    ghost use Rattle.word_owners.specs.Known.{Known};
    ghost use Rattle.word_owners.specs.inner.Handles.{IsHandle};

    ghost Value = { Known };

    ghost view = { λ h. record { book = h.seat.book; view = h.seat.view } };

    ghost invariant = { λ h. IsHandle h.seat.view h.hazard h.retired.items h.current h.found.items
        × (128 ≤ h.retired.cap) × (64 ≤ h.found.cap) × (128 ≤ h.spare.cap) };
}

impl Handle {
    /// Two handles of one table meet. An owner that came back to one is lent to neither. A ticket has one owner, whichever of them
    /// knows it. An owner came back to one of them at most. Nothing runs here.
    pub fn meet(&mut self, other: &mut Handle)
        requires table { self.old.book ≡ other.old.book }
        ensures kept { (t : ℕ) → HasLent self.old.view t → HasReclaimed other.old.view t → ⊥ }
        ensures own { (t : ℕ) → HasLent self.old.view t → HasReclaimed self.old.view t → ⊥ }
        ensures owner { (t o p : ℕ) → HasIssued self.old.view t o → HasIssued other.old.view t p → o ≡ p }
        ensures own_owner { (t o p : ℕ) → HasIssued self.old.view t o → HasIssued self.old.view t p → o ≡ p }
        ensures once { (t : ℕ) → HasReclaimed self.old.view t → HasReclaimed other.old.view t → ⊥ }
        ensures same { (self.new ≡ self.old) × (other.new ≡ other.old) }
    {
        law_one(&mut self.seat);
        law_two(&mut self.seat, &mut other.seat);
    }
}
