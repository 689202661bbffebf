//! Owners come back.
ghost use Rattle.std.specs.Prelude.{◌≡◌, ◌⊎◌, ℕ, ◌^◌, true, false, None, Some, IfOk, IfSome, IfNone, OnErr};
ghost use Rattle.live_pool.specs.Pops.{HasMissed, HasPopped};
ghost use Rattle.word_owners.specs.Known.{Keeps};
ghost use Rattle.live_owners.specs.Owners.{IsHandleOf, KnowsMore, ComesBack, NoneComesBack};

use crate::handle::OwnersHandle;
use crate::map::LiveOwners;
use live_growth::map::Busy;
use live_pool::pops::pop;

impl LiveOwners {
    /// A ticket that left the map and whose owner nobody has lent, with that owner, which is the caller's from then on. Each owner
    /// comes back once. `None` where each such ticket that the handle keeps, or that others have left, is lent, or there is none.
    #[tactic(auto, using(crate::proofs::Steps::back_more, crate::proofs::Steps::back_comes, crate::proofs::Steps::back_none_more, crate::proofs::Steps::back_none))]
    pub fn reclaim(&self, handle: &mut OwnersHandle) -> Option<(u64, u64)>
        requires map { IsHandleOf self.now handle.old }
        ensures map { KnowsMore handle.old handle.new }
        ensures tickets { handle.new.tickets ≡ handle.old.tickets }
        ensures back { IfSome result (λ got. ComesBack handle.old.owners handle.new.owners got.0 got.1) }
        ensures none { IfNone result (NoneComesBack handle.old.owners handle.new.owners) }
    {
        self.table.reclaim(&mut handle.lender)
    }

    /// How many tickets that left the map the handle keeps for its next `reclaim`. Call that where some dozens are pending, and
    /// then until it returns `None`.
    pub fn pending(&self, handle: &OwnersHandle) -> usize {
        self.table.pending(&handle.lender)
    }

    // Removes the first pair, and retires its ticket. `false` where the map is empty.
    #[tactic(auto, using(crate::proofs::Steps::more_none, crate::proofs::Steps::more_on))]
    fn remove_first(&self, handle: &mut OwnersHandle) -> Result<bool, Busy>
        requires map { IsHandleOf self.now handle.old }
        ensures map { KnowsMore handle.old handle.new }
        ensures reclaimed { NoneComesBack handle.old.owners handle.new.owners }
        ensures removed { IfOk result (λ some. some ≡ true → (p : ℕ × ℕ)
            × HasPopped true 0 (2 ^ 64) handle.old.tickets (Some p) handle.new.tickets) }
        ensures empty { IfOk result (λ some. some ≡ false
            → HasPopped true 0 (2 ^ 64) handle.old.tickets None handle.new.tickets) }
        ensures busy { OnErr result (HasMissed true 0 (2 ^ 64) handle.old.tickets handle.new.tickets) }
    {
        match pop(&self.pool, &mut handle.guard, true, 0, u64::MAX)? {
            Some(pair) => {
                let _ = self.retire_ticket(handle, pair.1);
                Ok(true)
            }
            None => Ok(false),
        }
    }

    /// For the last handle of a map: an owner that comes back, as by `reclaim`. Where none does, the call removes the first key, and
    /// returns an owner that comes back then. The handle's loan ends. `None` where the map is empty and no owner is left that can
    /// come back. `Busy` where other handles are in use after all: they came in between, or have the removed owner lent.
    #[tactic(auto, using(crate::proofs::Steps::more_on))]
    pub fn drain(&self, handle: &mut OwnersHandle) -> Result<Option<(u64, u64)>, Busy>
        requires map { IsHandleOf self.now handle.old }
        ensures map { KnowsMore handle.old handle.new }
        ensures back { IfOk result (λ back. IfSome back (λ got.
            ComesBack handle.old.owners handle.new.owners got.0 got.1)) }
        ensures removed { IfOk result (λ back. IfSome back (λ got.
            (handle.new.tickets ≡ handle.old.tickets) ⊎ ((p : ℕ × ℕ)
            × HasPopped true 0 (2 ^ 64) handle.old.tickets (Some p) handle.new.tickets))) }
        ensures empty { IfOk result (λ back. IfNone back
            (HasPopped true 0 (2 ^ 64) handle.old.tickets None handle.new.tickets)) }
        ensures none { IfOk result (λ back. IfNone back
            (NoneComesBack handle.old.owners handle.new.owners)) }
        ensures busy { OnErr result (NoneComesBack handle.old.owners handle.new.owners) }
    {
        self.end(handle);
        if let Some(back) = self.reclaim(handle) {
            return Ok(Some(back));
        }
        if !self.remove_first(handle)? {
            return Ok(None);
        }
        match self.reclaim(handle) {
            Some(back) => Ok(Some(back)),
            None => Err(Busy),
        }
    }
}
