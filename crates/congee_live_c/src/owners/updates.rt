//! Insertions and removals, and what they answer.
//!
//! Tested in `tools/c-library`.

ghost use Rattle.std.specs.Prelude.{◌≡◌, ◌≢◌, ◌⊎◌, pos};
ghost use Rattle.live_updates.specs.Entries.{removed};
ghost use Rattle.live_updates.specs.Refusals.{Refused};
ghost use Rattle.live_owners.specs.Owners.{KnowsMore, TakesTicket, InsertsOwner, NoneComesBack, IsBack};
ghost use Rattle.congee_live_c.specs.Answer.{busy, IsRefusal};
ghost use Rattle.congee_live_c.specs.Owners.{IfTaken, IfRefused};
ghost use Rattle.congee_live_c.specs.inner.Codes.{taken_code, taken_written, refusal_code};

use super::Lent;
use super::handle::Handle;
use crate::{BUSY, BUSY_KEPT, OOM, OOM_KEPT};
use live_growth::map::{Busy, Refusal};
use live_owners::handle::Previous;
use std::alloc::Global;

/// Stores an owner at the key. Answers 0 for a new key, and 1 for a present one: the previous ticket and its owner, which is lent to
/// the handle then, are written to `before`. Answers 2 where another handle had retired the previous ticket before: `before` has the
/// ticket, and 0 as its owner. Or a refusal: `OOM`, `BUSY`, `OOM_KEPT`, `BUSY_KEPT`.
#[unsafe(no_mangle)]
pub extern "C" fn congee_c_live_owners_insert(
    alloc: Global,
    handle: &mut Handle,
    key: u64,
    owner: u64,
    before: &mut Lent,
) -> i32
    ensures code { (result ≡ pos 0) ⊎ (result ≡ pos 1) ⊎ (result ≡ pos 2) ⊎ IsRefusal result }
    ensures map { KnowsMore handle.old.held handle.new.held }
    ensures made { IfTaken result before.new (λ taken.
        InsertsOwner key owner handle.old.held taken handle.new.held) }
    ensures reclaimed { (IsRefusal result → ⊥)
        → NoneComesBack handle.old.held.owners handle.new.held.owners }
    ensures refused { IfRefused result owner (λ why back.
        (handle.new.held.tickets ≡ handle.old.held.tickets)
        ⊎ Refused handle.old.held.tickets key why handle.new.held.tickets) }
    ensures back { IfRefused result owner (λ why back.
        IsBack handle.old.held.owners handle.new.held.owners owner back) }
    ensures kept { result ≢ pos 1 → result ≢ pos 2 → before.new ≡ before.old }
    ensures place { handle.new.ptr ≡ handle.old.ptr }
{
    let held = handle.as_mut();
    match held.map.insert(alloc, &mut held.handle, key, owner) {
        Ok(taken) => answer_taken(taken, before),
        Err(refused) => answer_refusal(refused),
    }
}

/// Removes the key. Answers 1 if it was present: its ticket and its owner, which is lent to the handle then, are written to `before`.
/// Answers 2 where another handle had retired the ticket before: `before` has the ticket, and 0 as its owner. Or answers 0 or `BUSY`.
/// Needs no memory.
#[unsafe(no_mangle)]
pub extern "C" fn congee_c_live_owners_remove(
    handle: &mut Handle,
    key: u64,
    before: &mut Lent,
) -> i32
    ensures code { (result ≡ pos 0) ⊎ (result ≡ pos 1) ⊎ (result ≡ pos 2) ⊎ (result ≡ busy) }
    ensures map { KnowsMore handle.old.held handle.new.held }
    ensures reclaimed { NoneComesBack handle.old.held.owners handle.new.held.owners }
    ensures made { IfTaken result before.new (λ taken.
        TakesTicket (removed handle.old.held.tickets.caller key)
        handle.old.held taken handle.new.held) }
    ensures missed { result ≡ busy → handle.new.held ≡ handle.old.held }
    ensures kept { result ≢ pos 1 → result ≢ pos 2 → before.new ≡ before.old }
    ensures place { handle.new.ptr ≡ handle.old.ptr }
{
    let held = handle.as_mut();
    match held.map.remove(&mut held.handle, key) {
        Ok(taken) => answer_taken(taken, before),
        Err(Busy) => BUSY,
    }
}

// 1 with the ticket and its owner written to the place, 2 with the ticket and 0, or 0.
pub(super) fn answer_taken(taken: Option<Previous>, place: &mut Lent) -> i32
    ensures code { result ≡ taken_code taken }
    ensures written { place.new ≡ taken_written taken place.old }
{
    match taken {
        Some(
            Previous {
                ticket,
                owner: Some(owner),
            },
        ) => {
            *place = Lent { ticket, owner };
            1
        }
        Some(
            Previous {
                ticket,
                owner: None,
            },
        ) => {
            *place = Lent { ticket, owner: 0 };
            2
        }
        None => 0,
    }
}

// Why an owner was refused, and whether it is the caller's again.
pub(super) fn answer_refusal(refused: (Refusal, Option<u64>)) -> i32
    ensures { result ≡ refusal_code refused.0 refused.1 }
{
    match refused {
        (Refusal::OutOfMemory, Some(_)) => OOM,
        (Refusal::OutOfMemory, None) => OOM_KEPT,
        (Refusal::Busy, Some(_)) => BUSY,
        (Refusal::Busy, None) => BUSY_KEPT,
    }
}
