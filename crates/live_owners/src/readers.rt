//! Readers of many keys: the next pair, the pair before, pages and counts, read while others write.
//!
//! A pair has a key and its ticket, and `lend` has the ticket's owner. What a reader finds is stated as for a map of numbers
//! (`live_scans`).
ghost use Rattle.std.specs.Prelude.{◌≡◌, ◌+◌, ◌≤◌, length, take, IfOk, OnErr};
ghost use Rattle.live_layout.specs.Page.{pairs_of};
ghost use Rattle.live_scans.specs.Scans.{GaveUp, HasNext, HasPage};
ghost use Rattle.live_scans.specs.Floors.{HasBefore};
ghost use Rattle.live_scans.specs.Descents.{HasPageDown};
ghost use Rattle.live_scans.specs.Counts.{HasCounted};
ghost use Rattle.live_owners.specs.Owners.{IsHandleOf, KnowsMore};

use crate::handle::OwnersHandle;
use crate::map::LiveOwners;
use live_growth::map::Busy;
use live_layout::page::RangeEntry;
use live_scans::{counts, descents, floors, scans};

impl LiveOwners {
    /// The least key that is at least this one, and its ticket. `None` where there is none. `Busy` if too many writers came in
    /// between.
    #[tactic(auto, using(crate::proofs::Steps::more_none))]
    pub fn ceiling(&self, handle: &mut OwnersHandle, key: u64) -> Result<Option<(u64, u64)>, Busy>
        requires map { IsHandleOf self.now handle.old }
        ensures map { KnowsMore handle.old handle.new }
        ensures owners { handle.new.owners ≡ handle.old.owners }
        ensures next { IfOk result (λ found. HasNext handle.old.tickets key found handle.new.tickets) }
        ensures busy { OnErr result (GaveUp handle.old.tickets handle.new.tickets) }
    {
        scans::ceiling(&self.pool.map, &mut handle.guard, key)
    }

    /// The greatest key that is at most this one, and its ticket. `None` where there is none. `Busy` if too many writers came in
    /// between.
    #[tactic(auto, using(crate::proofs::Steps::more_none))]
    pub fn floor(&self, handle: &mut OwnersHandle, key: u64) -> Result<Option<(u64, u64)>, Busy>
        requires map { IsHandleOf self.now handle.old }
        ensures map { KnowsMore handle.old handle.new }
        ensures owners { handle.new.owners ≡ handle.old.owners }
        ensures before { IfOk result (λ found.
            HasBefore handle.old.tickets (key + 1) found handle.new.tickets) }
        ensures busy { OnErr result (GaveUp handle.old.tickets handle.new.tickets) }
    {
        floors::floor(&self.pool.map, &mut handle.guard, key)
    }

    /// Writes pairs with keys from `first` to `last`, both included, to the buffer, ascending, as many as there are or as fit, and
    /// returns how many. The buffer's entries after them are unspecified. If the buffer is full, the next page begins behind the
    /// last key. `Busy` if too many writers came in between.
    #[tactic(auto, using(crate::proofs::Steps::more_none))]
    pub fn range_inclusive<P: RangeEntry>(
        &self,
        handle: &mut OwnersHandle,
        first: u64,
        last: u64,
        buffer: &mut [P],
    ) -> Result<usize, Busy>
        requires map { IsHandleOf self.now handle.old }
        ensures map { KnowsMore handle.old handle.new }
        ensures owners { handle.new.owners ≡ handle.old.owners }
        ensures count { IfOk result (λ count. count ≤ length buffer.old) }
        ensures page { IfOk result (λ count. HasPage handle.old.tickets first (last + 1) (length buffer.old)
            (take count (pairs_of P.pair buffer.new)) handle.new.tickets) }
        ensures busy { OnErr result (GaveUp handle.old.tickets handle.new.tickets) }
    {
        scans::range_inclusive(&self.pool.map, &mut handle.guard, first, last, buffer)
    }

    /// Writes pairs with keys from `last` down to `first`, both included, to the buffer, descending, as many as there are or as fit,
    /// and returns how many. The buffer's entries after them are unspecified. If the buffer is full, the next page begins below
    /// the last key. `Busy` if too many writers came in between.
    #[tactic(auto, using(crate::proofs::Steps::more_none))]
    pub fn range_descending<P: RangeEntry>(
        &self,
        handle: &mut OwnersHandle,
        first: u64,
        last: u64,
        buffer: &mut [P],
    ) -> Result<usize, Busy>
        requires map { IsHandleOf self.now handle.old }
        ensures map { KnowsMore handle.old handle.new }
        ensures owners { handle.new.owners ≡ handle.old.owners }
        ensures count { IfOk result (λ count. count ≤ length buffer.old) }
        ensures page { IfOk result (λ count. HasPageDown handle.old.tickets first (last + 1) (length buffer.old)
            (take count (pairs_of P.pair buffer.new)) handle.new.tickets) }
        ensures busy { OnErr result (GaveUp handle.old.tickets handle.new.tickets) }
    {
        descents::range_descending(&self.pool.map, &mut handle.guard, first, last, buffer)
    }

    /// How many keys there are: 2 to the 64 at most. It is exact where nobody writes. Else each key was counted, or wasn't, as it
    /// was at a moment of the call. `Busy` if too many writers came in between.
    #[tactic(auto, using(crate::proofs::Steps::more_none))]
    pub fn count(&self, handle: &mut OwnersHandle) -> Result<u128, Busy>
        requires map { IsHandleOf self.now handle.old }
        ensures map { KnowsMore handle.old handle.new }
        ensures owners { handle.new.owners ≡ handle.old.owners }
        ensures counted { IfOk result (λ count.
            HasCounted handle.old.tickets count handle.new.tickets) }
        ensures busy { OnErr result (GaveUp handle.old.tickets handle.new.tickets) }
    {
        counts::count(&self.pool.map, &mut handle.guard)
    }
}
