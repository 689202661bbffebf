//! Insertions and removals.
ghost use Rattle.std.specs.Prelude.{◌≡◌, ◌⊎◌, ℕ, true, Some, IfOk, IfErr, IfSome, IfNone, OnOk, OnErr};
ghost use Rattle.word_hazards.specs.Views.{In, HasIssued};
ghost use Rattle.live_updates.specs.Entries.{removed};
ghost use Rattle.live_updates.specs.Refusals.{Refused};
ghost use Rattle.live_owners.specs.Owners.{IsHandleOf, KnowsMore, IsNew, IsPrevious, TakesTicket, InsertsOwner, NoneComesBack, RetiresNone, RetiresOnly, IsBack};
ghost use Rattle.live_owners.specs.inner.Withdrawals.{IsWithdrawn};

use crate::handle::{OwnersHandle, Previous};
use crate::map::LiveOwners;
use live_growth::map::{Busy, Refusal};
use std::alloc::Global;
use word_owners::owners::Lack;

impl LiveOwners {
    // Puts an owner into a slot, and returns its ticket, or why it got none.
    #[tactic(auto, using(crate::proofs::Steps::issued_more, crate::proofs::Steps::issued_keeps, crate::proofs::Steps::issued_owner))]
    fn issue_ticket(
        &self,
        alloc: Global,
        handle: &mut OwnersHandle,
        owner: u64,
    ) -> Result<u64, Lack>
        requires map { IsHandleOf self.now handle.old }
        ensures map { KnowsMore handle.old handle.new }
        ensures tickets { handle.new.tickets ≡ handle.old.tickets }
        ensures retired { RetiresNone handle.old.owners handle.new.owners }
        ensures first { IfOk result (λ ticket. IsNew handle.old.owners ticket) }
        ensures issued { IfOk result (λ ticket. HasIssued handle.new.owners ticket owner) }
    {
        self.table.insert(alloc, &mut handle.lender, owner)
    }

    // Puts an owner into a slot, and returns its ticket, or why the call is refused.
    pub(crate) fn issue(
        &self,
        alloc: Global,
        handle: &mut OwnersHandle,
        owner: u64,
    ) -> Result<u64, Refusal>
        requires map { IsHandleOf self.now handle.old }
        ensures map { KnowsMore handle.old handle.new }
        ensures tickets { handle.new.tickets ≡ handle.old.tickets }
        ensures retired { RetiresNone handle.old.owners handle.new.owners }
        ensures first { IfOk result (λ ticket. IsNew handle.old.owners ticket) }
        ensures issued { IfOk result (λ ticket. HasIssued handle.new.owners ticket owner) }
    {
        match self.issue_ticket(alloc, handle, owner) {
            Ok(ticket) => Ok(ticket),
            Err(Lack::Busy) => Err(Refusal::Busy),
            Err(Lack::Memory) => Err(Refusal::OutOfMemory),
        }
    }

    // Takes an owner back whose ticket isn't stored. `None` where its slot isn't free yet: then the owner comes back by `reclaim`.
    #[tactic(auto, using(crate::proofs::Steps::back_more, crate::proofs::Steps::back_known, crate::proofs::Steps::back_none_more, crate::proofs::Steps::back_none))]
    pub(crate) fn withdraw(&self, handle: &mut OwnersHandle, ticket: u64, owner: u64) -> Option<u64>
        requires map { IsHandleOf self.now handle.old }
        requires issued { HasIssued handle.old.owners ticket owner }
        ensures map { KnowsMore handle.old handle.new }
        ensures tickets { handle.new.tickets ≡ handle.old.tickets }
        ensures back { IsWithdrawn handle.old.owners handle.new.owners ticket owner result }
    {
        match self.table.withdraw(&mut handle.lender, ticket) {
            Some(_) => Some(owner),
            None => None,
        }
    }

    // Retires a ticket.
    #[tactic(auto, using(crate::proofs::Steps::retired_more, crate::proofs::Steps::retired_none, crate::proofs::Steps::retired_in, crate::proofs::Steps::retired_lent, crate::proofs::Steps::retired_only))]
    pub(crate) fn retire_ticket(&self, handle: &mut OwnersHandle, ticket: u64) -> bool
        requires map { IsHandleOf self.now handle.old }
        ensures map { KnowsMore handle.old handle.new }
        ensures tickets { handle.new.tickets ≡ handle.old.tickets }
        ensures reclaimed { NoneComesBack handle.old.owners handle.new.owners }
        ensures lent { (handle.new.owners.lent ≡ handle.old.owners.lent)
            × (handle.new.owners.announced ≡ handle.old.owners.announced) }
        ensures retired { result ≡ true → In ticket handle.new.owners.retired }
        ensures only { RetiresOnly handle.old.owners handle.new.owners (Some ticket) }
    {
        self.table.retire(&mut handle.lender, ticket)
    }

    // Retires a ticket that left the map. Its owner is lent to the handle first.
    #[tactic(auto, using(crate::proofs::Steps::more_on, crate::proofs::Steps::only_on, crate::proofs::Steps::retired_shown))]
    pub(crate) fn retire(&self, handle: &mut OwnersHandle, ticket: u64) -> Previous
        requires map { IsHandleOf self.now handle.old }
        ensures map { KnowsMore handle.old handle.new }
        ensures tickets { handle.new.tickets ≡ handle.old.tickets }
        ensures reclaimed { NoneComesBack handle.old.owners handle.new.owners }
        ensures ticket { result.ticket ≡ ticket }
        ensures previous { IsPrevious handle.new.owners result }
        ensures only { RetiresOnly handle.old.owners handle.new.owners (Some ticket) }
    {
        let owner = self.lend(handle, ticket);
        if !self.retire_ticket(handle, ticket) {
            return Previous {
                ticket,
                owner: None,
            };
        }
        Previous { ticket, owner }
    }

    /// Stores an owner at the key. The ticket before, whose owner is lent to the handle then. `Refusal::Busy` if too many writers
    /// came in between, and `Refusal::OutOfMemory` if memory was missing for a slot or for a new key: then the owner is beside it,
    /// and is the caller's again. `None` beside it where another handle has just announced the slot's ticket. Then the owner
    /// comes back by `reclaim`.
    #[tactic(auto, using(crate::proofs::Steps::more_on, crate::proofs::Steps::withdrawn_back))]
    pub fn insert(
        &self,
        alloc: Global,
        handle: &mut OwnersHandle,
        key: u64,
        owner: u64,
    ) -> Result<Option<Previous>, (Refusal, Option<u64>)>
        requires map { IsHandleOf self.now handle.old }
        ensures map { KnowsMore handle.old handle.new }
        ensures made { IfOk result (λ before. InsertsOwner key owner handle.old before handle.new) }
        ensures kept { OnOk result (NoneComesBack handle.old.owners handle.new.owners) }
        ensures refused { IfErr result (λ refused. (handle.new.tickets ≡ handle.old.tickets)
            ⊎ Refused handle.old.tickets key refused.0 handle.new.tickets) }
        ensures back { IfErr result (λ refused.
            IsBack handle.old.owners handle.new.owners owner refused.1) }
    {
        let ticket = match self.issue(alloc, handle, owner) {
            Ok(ticket) => ticket,
            Err(why) => return Err((why, Some(owner))),
        };
        match self.pool.insert(alloc, &mut handle.guard, key, ticket) {
            Ok(Some(previous)) => Ok(Some(self.retire(handle, previous))),
            Ok(None) => Ok(None),
            Err(why) => Err((why, self.withdraw(handle, ticket, owner))),
        }
    }

    /// Removes the key. The ticket that it had, whose owner is lent to the handle then. Needs no memory. `Busy` if too many writers
    /// came in between.
    #[tactic(auto, using(crate::proofs::Steps::more_none, crate::proofs::Steps::more_on))]
    pub fn remove(&self, handle: &mut OwnersHandle, key: u64) -> Result<Option<Previous>, Busy>
        requires map { IsHandleOf self.now handle.old }
        ensures map { KnowsMore handle.old handle.new }
        ensures reclaimed { NoneComesBack handle.old.owners handle.new.owners }
        ensures made { IfOk result (λ before. TakesTicket (removed handle.old.tickets.caller key)
            handle.old before handle.new) }
        ensures busy { OnErr result (handle.new ≡ handle.old) }
    {
        match self.pool.remove(&mut handle.guard, key)? {
            Some(previous) => Ok(Some(self.retire(handle, previous))),
            None => Ok(None),
        }
    }
}
