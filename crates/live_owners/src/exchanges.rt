//! Exchanges and removals by ticket, and `get_or_insert`.
ghost use Rattle.std.specs.Prelude.{◌≡◌, Some, IfOk, IfErr, IfSome, IfNone, OnOk, OnErr};
ghost use Rattle.live_owners.specs.Owners.{IsHandleOf, KnowsMore, GetsOwner, NoneComesBack, RetiresNone, IsBack};
ghost use Rattle.live_owners.specs.Exchanges.{ExchangesOwner, LosesExchange, RemovesTicket, LosesRemoval, Adds, AddsOwner, StoresNone, AddsNone};

use crate::handle::{Lent, OwnersHandle, Previous};
use crate::map::LiveOwners;
use live_growth::map::{Busy, Refusal};
use std::alloc::Global;

impl LiveOwners {
    /// If the key still has this ticket, stores an owner in its place, and returns the ticket, whose owner is lent to the handle
    /// then. Else `Ok(Err(..))` has the owner that was handed in, as `insert` returns a refused one. The ticket decides, and
    /// not the owner's number. `Refusal::Busy` if too many writers came in between, and `Refusal::OutOfMemory` if memory was missing
    /// for a slot: then the owner is beside it, too.
    #[tactic(auto, using(crate::proofs::Steps::more_on, crate::proofs::Steps::withdrawn_back))]
    pub fn compare_exchange(
        &self,
        alloc: Global,
        handle: &mut OwnersHandle,
        key: u64,
        ticket: u64,
        owner: u64,
    ) -> Result<Result<Previous, Option<u64>>, (Refusal, Option<u64>)>
        requires map { IsHandleOf self.now handle.old }
        ensures map { KnowsMore handle.old handle.new }
        ensures made { IfOk result (λ answer. IfOk answer (λ before.
            ExchangesOwner key ticket owner handle.old before handle.new)) }
        ensures kept { IfOk result (λ answer. OnOk answer
            (NoneComesBack handle.old.owners handle.new.owners)) }
        ensures changed { IfOk result (λ answer. OnErr answer
            (LosesExchange key ticket handle.old handle.new)) }
        ensures other { IfOk result (λ answer. IfErr answer (λ back.
            IsBack handle.old.owners handle.new.owners owner back)) }
        ensures refused { OnErr result (handle.new.tickets ≡ handle.old.tickets) }
        ensures back { IfErr result (λ refused.
            IsBack handle.old.owners handle.new.owners owner refused.1) }
    {
        let new = match self.issue(alloc, handle, owner) {
            Ok(new) => new,
            Err(why) => return Err((why, Some(owner))),
        };
        match self
            .pool
            .compare_exchange(&mut handle.guard, key, ticket, Some(new))
        {
            Ok(Ok(_)) => Ok(Ok(self.retire(handle, ticket))),
            Ok(Err(_)) => Ok(Err(self.withdraw(handle, new, owner))),
            Err(Busy) => Err((Refusal::Busy, self.withdraw(handle, new, owner))),
        }
    }

    /// If the key still has this ticket, removes the key, and returns the ticket, whose owner is lent to the handle then. `None` where
    /// the key has another ticket, or is absent. Needs no memory. `Busy` if too many writers came in between.
    #[tactic(auto, using(crate::proofs::Steps::more_none, crate::proofs::Steps::more_on))]
    pub fn compare_remove(
        &self,
        handle: &mut OwnersHandle,
        key: u64,
        ticket: u64,
    ) -> Result<Option<Previous>, Busy>
        requires map { IsHandleOf self.now handle.old }
        ensures map { KnowsMore handle.old handle.new }
        ensures reclaimed { NoneComesBack handle.old.owners handle.new.owners }
        ensures made { IfOk result (λ before. IfSome before (λ before.
            RemovesTicket key ticket handle.old before handle.new)) }
        ensures other { IfOk result (λ before. IfNone before
            (LosesRemoval key ticket handle.old handle.new)) }
        ensures busy { OnErr result (handle.new ≡ handle.old) }
    {
        match self
            .pool
            .compare_exchange(&mut handle.guard, key, ticket, None)?
        {
            Ok(_) => Ok(Some(self.retire(handle, ticket))),
            Err(_) => Ok(None),
        }
    }

    // Gives an absent key an owner. It is refused as busy also where the key is present.
    #[tactic(auto, using(crate::proofs::Steps::more_on, crate::proofs::Steps::withdrawn_back))]
    fn add(
        &self,
        alloc: Global,
        handle: &mut OwnersHandle,
        key: u64,
        owner: u64,
    ) -> Result<(), (Refusal, Option<u64>)>
        requires map { IsHandleOf self.now handle.old }
        ensures map { KnowsMore handle.old handle.new }
        ensures made { OnOk result (Adds key owner handle.old handle.new) }
        ensures kept { OnOk result (RetiresNone handle.old.owners handle.new.owners) }
        ensures refused { OnErr result (StoresNone key handle.old.tickets handle.new.tickets) }
        ensures back { IfErr result (λ refused.
            IsBack handle.old.owners handle.new.owners owner refused.1) }
    {
        let ticket = match self.issue(alloc, handle, owner) {
            Ok(ticket) => ticket,
            Err(why) => return Err((why, Some(owner))),
        };
        match self
            .pool
            .get_or_insert(alloc, &mut handle.guard, key, ticket)
        {
            Ok(None) => Ok(()),
            Ok(Some(_)) => Err((Refusal::Busy, self.withdraw(handle, ticket, owner))),
            Err(why) => Err((why, self.withdraw(handle, ticket, owner))),
        }
    }

    /// The key's current owner, which is lent to the handle then: the one that was handed in is the caller's still. An absent key
    /// gets that one, and the call returns `None`. `Refusal::Busy` if too many writers came in between, and `Refusal::OutOfMemory`
    /// if memory was missing for a slot or for a new key: then the owner is beside it, as `insert` returns a refused one.
    pub fn get_or_insert(
        &self,
        alloc: Global,
        handle: &mut OwnersHandle,
        key: u64,
        owner: u64,
    ) -> Result<Option<Lent>, (Refusal, Option<u64>)>
        requires map { IsHandleOf self.now handle.old }
        ensures map { KnowsMore handle.old handle.new }
        ensures found { IfOk result (λ found. IfSome found (λ lent.
            GetsOwner key handle.old (Some lent) handle.new)) }
        ensures added { IfOk result (λ found. IfNone found (AddsOwner key owner handle.old handle.new)) }
        ensures kept { OnOk result (RetiresNone handle.old.owners handle.new.owners) }
        ensures refused { OnErr result (AddsNone key handle.old.tickets handle.new.tickets) }
        ensures back { IfErr result (λ refused.
            IsBack handle.old.owners handle.new.owners owner refused.1) }
    {
        match self.get(handle, key) {
            Ok(Some(lent)) => Ok(Some(lent)),
            Ok(None) => match self.add(alloc, handle, key, owner) {
                Ok(()) => Ok(None),
                Err(refused) => Err(refused),
            },
            Err(Busy) => Err((Refusal::Busy, Some(owner))),
        }
    }
}
