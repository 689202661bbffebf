//! What two seats may conclude as they meet. Nothing runs here.
ghost use Rattle.std.specs.Prelude.{◌≡◌, ℕ};
ghost use Rattle.word_hazards.specs.Views.{HasLent, HasIssued, HasReclaimed};

use crate::rule::{HazardSeat, Meets};

/// A ticket that the first seat has lent isn't reclaimed by the second. A ticket has one owner, whichever of the two knows it. One of
/// the two at most has reclaimed a ticket.
pub fn law_two(a: &mut HazardSeat, b: &mut HazardSeat)
    requires book { a.old.book ≡ b.old.book }
    ensures kept { (t : ℕ) → HasLent a.old.view t → HasReclaimed b.old.view t → ⊥ }
    ensures owner { (t o p : ℕ) → HasIssued a.old.view t o → HasIssued b.old.view t p → o ≡ p }
    ensures once { (t : ℕ) → HasReclaimed a.old.view t → HasReclaimed b.old.view t → ⊥ }
    ensures books { (a.new.book ≡ a.old.book) × (b.new.book ≡ b.old.book) }
    ensures seats { (a.new.view ≡ a.old.view) × (b.new.view ≡ b.old.view) }
{
    a.meet::<Meets>(b);
}

/// A seat has reclaimed no ticket that it has lent, and knows one owner of a ticket.
pub fn law_one(a: &mut HazardSeat)
    ensures kept { (t : ℕ) → HasLent a.old.view t → HasReclaimed a.old.view t → ⊥ }
    ensures owner { (t o p : ℕ) → HasIssued a.old.view t o → HasIssued a.old.view t p → o ≡ p }
    ensures seat { (a.new.book ≡ a.old.book) × (a.new.view ≡ a.old.view) }
{
    let mut b = a.enter();
    a.meet::<Meets>(&mut b);
}
