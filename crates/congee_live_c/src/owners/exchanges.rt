//! Exchanges and removals by ticket, and `get_or_insert`.
//!
//! Tested in `tools/c-library`.

ghost use Rattle.std.specs.Prelude.{◌≡◌, ◌≢◌, ◌⊎◌, None, Some, IfSome, pos};
ghost use Rattle.live_owners.specs.Owners.{KnowsMore, GetsOwner, NoneComesBack, RetiresNone, IsBack};
ghost use Rattle.live_owners.specs.Exchanges.{ExchangesOwner, LosesExchange, RemovesTicket, LosesRemoval, AddsOwner, AddsNone};
ghost use Rattle.congee_live_c.specs.Answer.{IsRefusal, busy};
ghost use Rattle.congee_live_c.specs.Owners.{lent_of, IfTaken, IfRefused};

use super::Lent;
use super::handle::Handle;
use super::updates::{answer_refusal, answer_taken};
use crate::BUSY;
use live_growth::map::Busy;
use std::alloc::Global;

/// If the key still has this ticket, stores an owner in its place and answers 1: the ticket and its owner, which is lent to the
/// handle then, are written to `before`. Answers 2 where another handle had retired the ticket before: `before` has the ticket, and 0
/// as its owner. If the key has another ticket or none, answers 0, and the owner that was handed in is the caller's again, or 3,
/// and it comes back by a later `congee_c_live_owners_reclaim`. Or a refusal: `OOM`, `BUSY`, `OOM_KEPT`, `BUSY_KEPT`.
#[unsafe(no_mangle)]
pub extern "C" fn congee_c_live_owners_compare_exchange(
    alloc: Global,
    handle: &mut Handle,
    key: u64,
    ticket: u64,
    owner: u64,
    before: &mut Lent,
) -> i32
    ensures code { (result ≡ pos 0) ⊎ (result ≡ pos 1) ⊎ (result ≡ pos 2) ⊎ (result ≡ pos 3)
        ⊎ IsRefusal result }
    ensures map { KnowsMore handle.old.held handle.new.held }
    ensures made { IfTaken result before.new (λ taken. IfSome taken (λ before.
        ExchangesOwner key ticket owner handle.old.held before handle.new.held)) }
    ensures reclaimed { (result ≡ pos 1) ⊎ (result ≡ pos 2)
        → NoneComesBack handle.old.held.owners handle.new.held.owners }
    ensures changed { (result ≡ pos 0) ⊎ (result ≡ pos 3)
        → LosesExchange key ticket handle.old.held handle.new.held }
    ensures other { result ≡ pos 0
        → IsBack handle.old.held.owners handle.new.held.owners owner (Some owner) }
    ensures other_kept { result ≡ pos 3
        → IsBack handle.old.held.owners handle.new.held.owners owner None }
    ensures refused { IsRefusal result → handle.new.held.tickets ≡ handle.old.held.tickets }
    ensures back { IfRefused result owner (λ why back.
        IsBack handle.old.held.owners handle.new.held.owners owner back) }
    ensures kept { result ≢ pos 1 → result ≢ pos 2 → before.new ≡ before.old }
    ensures place { handle.new.ptr ≡ handle.old.ptr }
{
    let held = handle.as_mut();
    match held
        .map
        .compare_exchange(alloc, &mut held.handle, key, ticket, owner)
    {
        Ok(Ok(previous)) => answer_taken(Some(previous), before),
        Ok(Err(Some(_))) => 0,
        Ok(Err(None)) => 3,
        Err(refused) => answer_refusal(refused),
    }
}

/// If the key still has this ticket, removes the key and answers 1: the ticket and its owner, which is lent to the handle then, are
/// written to `before`. Answers 2 where another handle had retired the ticket before: `before` has the ticket, and 0 as its owner.
/// Answers 0 where the key has another ticket or none, or `BUSY`. Needs no memory.
#[unsafe(no_mangle)]
pub extern "C" fn congee_c_live_owners_compare_remove(
    handle: &mut Handle,
    key: u64,
    ticket: u64,
    before: &mut Lent,
) -> i32
    ensures code { (result ≡ pos 0) ⊎ (result ≡ pos 1) ⊎ (result ≡ pos 2) ⊎ (result ≡ busy) }
    ensures map { KnowsMore handle.old.held handle.new.held }
    ensures reclaimed { NoneComesBack handle.old.held.owners handle.new.held.owners }
    ensures made { IfTaken result before.new (λ taken. IfSome taken (λ before.
        RemovesTicket key ticket handle.old.held before handle.new.held)) }
    ensures other { result ≡ pos 0
        → LosesRemoval key ticket handle.old.held handle.new.held }
    ensures missed { result ≡ busy → handle.new.held ≡ handle.old.held }
    ensures kept { result ≢ pos 1 → result ≢ pos 2 → before.new ≡ before.old }
    ensures place { handle.new.ptr ≡ handle.old.ptr }
{
    let held = handle.as_mut();
    match held.map.compare_remove(&mut held.handle, key, ticket) {
        Ok(taken) => answer_taken(taken, before),
        Err(Busy) => BUSY,
    }
}

/// Gives an absent key an owner and answers 0. Answers 1 for a present key: its ticket and its owner, which is lent to the handle
/// then, are written to `found`, and the owner that was handed in is the caller's still. Or a refusal: `OOM`, `BUSY`, `OOM_KEPT`,
/// `BUSY_KEPT`.
#[unsafe(no_mangle)]
pub extern "C" fn congee_c_live_owners_get_or_insert(
    alloc: Global,
    handle: &mut Handle,
    key: u64,
    owner: u64,
    found: &mut Lent,
) -> i32
    ensures code { (result ≡ pos 0) ⊎ (result ≡ pos 1) ⊎ IsRefusal result }
    ensures map { KnowsMore handle.old.held handle.new.held }
    ensures present { result ≡ pos 1
        → GetsOwner key handle.old.held (Some (lent_of found.new)) handle.new.held }
    ensures added { result ≡ pos 0 → AddsOwner key owner handle.old.held handle.new.held }
    ensures retired { (result ≡ pos 0) ⊎ (result ≡ pos 1)
        → RetiresNone handle.old.held.owners handle.new.held.owners }
    ensures refused { IsRefusal result
        → AddsNone key handle.old.held.tickets handle.new.held.tickets }
    ensures back { IfRefused result owner (λ why back.
        IsBack handle.old.held.owners handle.new.held.owners owner back) }
    ensures kept { result ≢ pos 1 → found.new ≡ found.old }
    ensures place { handle.new.ptr ≡ handle.old.ptr }
{
    let held = handle.as_mut();
    match held.map.get_or_insert(alloc, &mut held.handle, key, owner) {
        Ok(Some(lent)) => {
            *found = Lent {
                ticket: lent.ticket,
                owner: lent.owner,
            };
            1
        }
        Ok(None) => 0,
        Err(refused) => answer_refusal(refused),
    }
}
