//! Steps of a scan: a retired ticket is reclaimed.
ghost use Rattle.std.specs.Prelude.{◌≡◌, ◌⊎◌, ℕ, ◌<◌, true, false, Some};
ghost use Rattle.word_hazards.specs.Views.{slot_of, HasReclaimed};
ghost use Rattle.word_hazards.specs.Steps.{state_key, owner_key, scanning, peeking, reclaiming, IsUnlent};

use crate::hazard::present;
use crate::rule::{HazardSeat, HazardWord, Peeks, Reclaims, Scans};

/// Reads a hazard: the first one, with which a scan begins, or the next one of a scan.
pub fn scan(hazard: &HazardWord, seat: &mut HazardSeat) -> u64
    requires book { seat.old.book ≡ hazard.now.book }
    requires next { (hazard.now.key ≡ 0) ⊎ (hazard.now.key ≡ seat.old.view.scanned) }
    ensures book { seat.new.book ≡ seat.old.book }
    ensures scanned { seat.new.view ≡ scanning seat.old.view hazard.now.key result }
{
    hazard.load::<Scans>(seat)
}

/// The owner in a slot. It is that of a retired ticket, if the slot isn't free again.
pub fn peek(owner: &HazardWord, slot: u64, seat: &mut HazardSeat) -> u64
    requires book { seat.old.book ≡ owner.now.book }
    requires slot { owner.now.key ≡ owner_key slot }
    ensures book { seat.new.book ≡ seat.old.book }
    ensures peeked { seat.new.view ≡ peeking seat.old.view slot result }
{
    owner.load::<Peeks>(seat)
}

/// Reclaims a retired ticket that nobody has lent: its slot is free again, and its owner is the caller's. `false` where another seat
/// was first. The word is its slot's state.
pub fn reclaim(state: &HazardWord, ticket: u64, seat: &mut HazardSeat) -> bool
    requires book { seat.old.book ≡ state.now.book }
    requires slot { state.now.key ≡ state_key (slot_of ticket) }
    requires unlent { IsUnlent seat.old.view ticket }
    requires peeked { (owner : ℕ) × (seat.old.view.peeked ≡ Some (slot_of ticket, owner)) }
    ensures book { seat.new.book ≡ seat.old.book }
    ensures reclaimed { result ≡ true → (owner : ℕ) → seat.old.view.peeked ≡ Some (slot_of ticket, owner)
        → seat.new.view ≡ reclaiming seat.old.view ticket owner }
    ensures first { result ≡ true → HasReclaimed seat.old.view ticket → ⊥ }
    ensures lost { result ≡ false → seat.new.view ≡ seat.old.view }
{
    let retired = present(ticket) + 1;
    let (found, _pens) = state.compare_exchange::<Reclaims>(retired, retired + 1, seat);
    found == retired
}
