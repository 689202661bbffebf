//! Steps on slots: a ticket is issued, and retired.
ghost use Rattle.std.specs.Prelude.{◌≡◌, ℕ, ◌+◌, ◌<◌, true, false, Some, IfSome, IfNone};
ghost use Rattle.word_hazards.specs.Views.{slot_of, generation_of, ticket, Claim, HasIssued};
ghost use Rattle.word_hazards.specs.Steps.{state_key, owner_key, claiming, filling, issuing, retiring};

use crate::hazard::present;
use crate::rule::{Claims, Fills, HazardSeat, HazardWord, Issues, Retires};

/// All states are below this.
const STATES: u64 = 0x4_0000_0000;

const HALF: u64 = 0x1_0000_0000;

/// Claims a slot that is free in this generation. The word is its state.
pub fn claim(state: &HazardWord, slot: u64, generation: u64, seat: &mut HazardSeat) -> bool
    requires book { seat.old.book ≡ state.now.book }
    requires slot { state.now.key ≡ state_key slot }
    requires generation { generation < 4294967295 }
    ensures book { seat.new.book ≡ seat.old.book }
    ensures claimed { result ≡ true → seat.new.view ≡ claiming seat.old.view slot generation }
    ensures lost { result ≡ false → seat.new.view ≡ seat.old.view }
{
    let _ = slot;
    let free = generation * 4;
    let (found, _pens) = state.compare_exchange::<Claims>(free, free + 1, seat);
    found == free
}

/// Puts an owner into the slot that the seat has claimed. The word is its owner.
pub fn fill(word: &HazardWord, owner: u64, seat: &mut HazardSeat)
    requires book { seat.old.book ≡ word.now.book }
    requires claimed { (c : Claim) × (seat.old.view.claim ≡ Some c) × (word.now.key ≡ owner_key c.slot) }
    ensures book { seat.new.book ≡ seat.old.book }
    ensures filled { seat.new.view ≡ filling seat.old.view owner }
{
    word.store::<Fills>(owner, seat);
}

/// Issues the ticket of the slot that the seat has claimed and put an owner into. The word is its state. The seat knew no owner of
/// the ticket before.
pub fn issue(
    state: &HazardWord,
    slot: u64,
    generation: u64,
    owner: u64,
    seat: &mut HazardSeat,
) -> u64
    requires book { seat.old.book ≡ state.now.book }
    requires slot { (state.now.key ≡ state_key slot) × (slot < 4294967296) }
    requires generation { generation < 4294967295 }
    requires claimed { seat.old.view.claim ≡ Some record { slot = slot; generation = generation; owner = Some owner } }
    ensures ticket { result ≡ ticket generation slot }
    ensures book { seat.new.book ≡ seat.old.book }
    ensures issued { seat.new.view ≡ issuing seat.old.view result owner }
    ensures first { (o : ℕ) → HasIssued seat.old.view result o → ⊥ }
{
    let _ = owner;
    state.store::<Issues>(generation * 4 + 2, seat);
    generation * HALF + slot
}

/// Retires a ticket, if it is issued: nobody gets it lent any more. The word is its slot's state.
pub fn retire(state: &HazardWord, ticket: u64, seat: &mut HazardSeat) -> bool
    requires book { seat.old.book ≡ state.now.book }
    requires slot { state.now.key ≡ state_key (slot_of ticket) }
    ensures book { seat.new.book ≡ seat.old.book }
    ensures retired { result ≡ true → seat.new.view ≡ retiring seat.old.view ticket }
    ensures lost { result ≡ false → seat.new.view ≡ seat.old.view }
{
    let present = present(ticket);
    let (found, _pens) = state.compare_exchange::<Retires>(present, present + 1, seat);
    found == present
}

/// The ticket of a slot, if that is retired and nobody has reclaimed it. The word is the slot's state.
pub fn adopt(state: &HazardWord, slot: u64, seat: &mut HazardSeat) -> Option<u64>
    requires book { seat.old.book ≡ state.now.book }
    requires slot { (state.now.key ≡ state_key slot) × (slot < 4294967296) }
    ensures book { seat.new.book ≡ seat.old.book }
    ensures slot { IfSome result (λ ticket. slot_of ticket ≡ slot) }
    ensures retired { IfSome result (λ ticket. seat.new.view ≡ retiring seat.old.view ticket) }
    ensures other { IfNone result (seat.new.view ≡ seat.old.view) }
{
    let found = state.load::<Retires>(seat);
    if found % 4 != 3 || found >= STATES {
        return None;
    }
    Some(found / 4 * HALF + slot)
}
