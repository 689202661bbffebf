//! A reader's steps.
ghost use Rattle.std.specs.Prelude.{◌≡◌, ℕ, ◌+◌, ◌<◌, true, false, Some};
ghost use Rattle.word_hazards.specs.Views.{slot_of, generation_of, HasLent};
ghost use Rattle.word_hazards.specs.Steps.{state_key, owner_key, present_in, settling, leaving, announcing, lending, learning};

use crate::rule::{Announces, HazardSeat, HazardWord, Learns, Leaves, Settles, Validates};

/// How many hazards there are.
pub const HAZARDS: usize = 64;

/// How many generations a slot has tickets for.
pub const GENERATIONS: u64 = 0xffff_ffff;

/// Takes a hazard, if it is nobody's.
pub fn settle(hazard: &HazardWord, seat: &mut HazardSeat) -> bool
    requires book { seat.old.book ≡ hazard.now.book }
    requires hazard { hazard.now.key < 64 }
    ensures book { seat.new.book ≡ seat.old.book }
    ensures settled { result ≡ true → seat.new.view ≡ settling seat.old.view hazard.now.key }
    ensures taken { result ≡ false → seat.new.view ≡ seat.old.view }
{
    let (found, _pens) = hazard.compare_exchange::<Settles>(0, 1, seat);
    found == 0
}

/// Leaves the seat's hazard to others. The seat's loan ends.
pub fn leave(hazard: &HazardWord, seat: &mut HazardSeat)
    requires book { seat.old.book ≡ hazard.now.book }
    requires own { seat.old.view.hazard ≡ Some hazard.now.key }
    ensures book { seat.new.book ≡ seat.old.book }
    ensures left { seat.new.view ≡ leaving seat.old.view }
{
    hazard.store::<Leaves>(0, seat);
}

/// Announces a ticket in the seat's hazard. The loan before ends.
pub fn announce(hazard: &HazardWord, ticket: u64, seat: &mut HazardSeat)
    requires book { seat.old.book ≡ hazard.now.book }
    requires own { seat.old.view.hazard ≡ Some hazard.now.key }
    requires ticket { ticket < 18446744073709551614 }
    ensures book { seat.new.book ≡ seat.old.book }
    ensures announced { seat.new.view ≡ announcing seat.old.view (ticket + 2) }
{
    hazard.store::<Announces>(ticket + 2, seat);
}

/// Announces nothing. The seat's loan ends.
pub fn clear(hazard: &HazardWord, seat: &mut HazardSeat)
    requires book { seat.old.book ≡ hazard.now.book }
    requires own { seat.old.view.hazard ≡ Some hazard.now.key }
    ensures book { seat.new.book ≡ seat.old.book }
    ensures cleared { seat.new.view ≡ announcing seat.old.view 1 }
{
    hazard.store::<Announces>(1, seat);
}

/// Whether the ticket that the seat announces is still issued. Then the seat has it lent. The word is its slot's state.
pub fn validate(state: &HazardWord, ticket: u64, seat: &mut HazardSeat) -> bool
    requires book { seat.old.book ≡ state.now.book }
    requires own { (h : ℕ) × (seat.old.view.hazard ≡ Some h) }
    requires announced { seat.old.view.announced ≡ ticket + 2 }
    requires slot { state.now.key ≡ state_key (slot_of ticket) }
    ensures book { seat.new.book ≡ seat.old.book }
    ensures lent { result ≡ true → seat.new.view ≡ lending seat.old.view }
    ensures retired { result ≡ false → seat.new.view ≡ seat.old.view }
{
    state.load::<Validates>(seat) == present(ticket)
}

/// The owner of a ticket that the seat has lent. The word is its slot's owner.
pub fn learn(owner: &HazardWord, ticket: u64, seat: &mut HazardSeat) -> u64
    requires book { seat.old.book ≡ owner.now.book }
    requires lent { HasLent seat.old.view ticket }
    requires slot { owner.now.key ≡ owner_key (slot_of ticket) }
    ensures book { seat.new.book ≡ seat.old.book }
    ensures owner { seat.new.view ≡ learning seat.old.view ticket result }
{
    owner.load::<Learns>(seat)
}

/// The state of a slot while this ticket of it is issued.
pub fn present(ticket: u64) -> u64
    ensures state { (result ≡ present_in (generation_of ticket)) × (result < 17179869184) }
{
    ticket / 0x1_0000_0000 * 4 + 2
}
