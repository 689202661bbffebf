//! The map, its handles, and look-ups.
ghost use Rattle.std.specs.Prelude.{◌≡◌, ◌≤◌, false, IfOk, IfSome, IfNone, OnErr};
ghost use Rattle.live_owners.specs.Owners.{IsHandleOf, IsNewHandle, KnowsMore, IsLoan, LookedInVain, FindsOwner, GetsOwner, RetiresNone};

use crate::handle::{Lent, OwnersHandle};
use live_growth::map::{Busy, TRIES};
use live_pool::pool::Pool;
use std::alloc::{AllocError, Global};
use std::marker::Model;
use word_owners::owners::Owners;

/// A map from `u64` to owners that threads share, each by a handle of its own. Contracts see which map it is.
///
/// A handle has one owner lent at a time: until its next call that finds one, or until `end`.
#[derive(Drop)]
pub struct LiveOwners {
    pub(crate) pool: Pool,
    pub(crate) table: Owners,
}

impl Model for LiveOwners {
    ghost use Rattle.live_owners.specs.Owners.{OwnerMap, owner_map_coded};

    ghost Value = { OwnerMap };

    ghost coded = { owner_map_coded };

    ghost view = { λ m. record { tickets = m.pool; table = m.table } };
}

impl LiveOwners {
    /// An empty map, whose nodes lie in segments that may take so many bytes together, as in `Congee::with_limit`. The slots of
    /// the owners are beside these. `AllocError` if memory is missing, or the limit is below the first segment's 4,096 bytes.
    pub fn new(alloc: Global, limit: u64) -> Result<LiveOwners, AllocError>
        ensures limit { IfOk result (λ map. map.tickets.limit ≡ limit) }
    {
        let pool = Pool::with_limit(alloc, limit)?;
        let table = Owners::new(alloc)?;
        Ok(LiveOwners { pool, table })
    }

    /// The bytes of the segments that the map of tickets has so far, and how many bytes they may take together.
    pub fn usage(&self) -> (u64, u64)
        ensures within { result.0 ≤ result.1 }
        ensures limit { result.1 ≡ self.now.tickets.limit }
    {
        self.pool.map.usage()
    }

    /// A new handle, which knows nothing. `None` where 64 are in use.
    pub fn handle(&self, alloc: Global) -> Result<Option<OwnersHandle>, AllocError>
        ensures map { IfOk result (λ made. IfSome made (λ handle. IsHandleOf self.now handle)) }
        ensures new { IfOk result (λ made. IfSome made (λ handle. IsNewHandle handle)) }
    {
        let Some(lender) = self.table.handle(alloc)? else {
            return Ok(None);
        };
        let guard = self.pool.pin();
        Ok(Some(OwnersHandle { guard, lender }))
    }

    /// Ends a handle. The next one gets its room for nodes, and others the tickets that it has retired.
    pub fn leave(&self, handle: OwnersHandle)
        requires map { IsHandleOf self.now handle }
    {
        let OwnersHandle { guard, lender } = handle;
        self.pool.unpin(guard);
        self.table.leave(lender);
    }

    /// The owner of a ticket, which is lent to the handle then. `None` where the ticket is retired, or was never issued. The loan
    /// before ends.
    #[tactic(auto, using(crate::proofs::Steps::lent_more, crate::proofs::Steps::lent_keeps, crate::proofs::Steps::lent_loan))]
    pub fn lend(&self, handle: &mut OwnersHandle, ticket: u64) -> Option<u64>
        requires map { IsHandleOf self.now handle.old }
        ensures map { KnowsMore handle.old handle.new }
        ensures tickets { handle.new.tickets ≡ handle.old.tickets }
        ensures retired { RetiresNone handle.old.owners handle.new.owners }
        ensures lent { IfSome result (λ owner. IsLoan handle.new.owners ticket owner) }
    {
        self.table.lend(&mut handle.lender, ticket)
    }

    // One look-up. `None` where the ticket that it found is retired by then.
    #[tactic(auto, using(crate::proofs::Steps::more_none, crate::proofs::Steps::more_on, crate::proofs::Looked::vain_once))]
    fn look_up(&self, handle: &mut OwnersHandle, key: u64) -> Result<Option<Option<Lent>>, Busy>
        requires map { IsHandleOf self.now handle.old }
        ensures map { KnowsMore handle.old handle.new }
        ensures retired { RetiresNone handle.old.owners handle.new.owners }
        ensures made { IfOk result (λ looked. IfSome looked (λ found.
            FindsOwner key handle.old.tickets found handle.new)) }
        ensures vain { IfOk result (λ looked. IfNone looked
            (LookedInVain key handle.old.tickets handle.new.tickets)) }
        ensures busy { OnErr result (handle.new ≡ handle.old) }
    {
        match self.pool.map.get(&mut handle.guard, key)? {
            Some(ticket) => match self.lend(handle, ticket) {
                Some(owner) => Ok(Some(Some(Lent { ticket, owner }))),
                None => Ok(None),
            },
            None => Ok(Some(None)),
        }
    }

    /// The key's current owner, which is lent to the handle then, and its ticket. `Busy` if too many writers came in between.
    pub fn get(&self, handle: &mut OwnersHandle, key: u64) -> Result<Option<Lent>, Busy>
        requires map { IsHandleOf self.now handle.old }
        ensures map { KnowsMore handle.old handle.new }
        ensures retired { RetiresNone handle.old.owners handle.new.owners }
        ensures made { IfOk result (λ found. GetsOwner key handle.old found handle.new) }
        ensures busy { OnErr result (LookedInVain key handle.old.tickets handle.new.tickets) }
    {
        for _ in 0..TRIES {
            if let Some(found) = self.look_up(handle, key)? {
                return Ok(found);
            }
        }
        Err(Busy)
    }

    /// Ends the handle's loan.
    #[tactic(auto, using(crate::proofs::Steps::ended_more, crate::proofs::Steps::ended_keeps, crate::proofs::Steps::ended_lent))]
    pub fn end(&self, handle: &mut OwnersHandle)
        requires map { IsHandleOf self.now handle.old }
        ensures map { KnowsMore handle.old handle.new }
        ensures tickets { handle.new.tickets ≡ handle.old.tickets }
        ensures retired { RetiresNone handle.old.owners handle.new.owners }
        ensures ended { handle.new.owners.lent ≡ false }
    {
        self.table.end(&mut handle.lender);
    }
}
