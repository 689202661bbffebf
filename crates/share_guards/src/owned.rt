//! A shared map as one with one owner, once all guards are back.
//!
//! Tested in `test_share_ends`.

ghost use Rattle.std.specs.Prelude.{◌≡◌, List};
ghost use Rattle.spec_map.specs.Map.{Pairs};
ghost use Rattle.share_rule.specs.History.{Entry, IsHistory, StartsWith};

use crate::note::Note;
use crate::raw::Raw;
use share_backend::lent::Lent;
use std::sync::Wait;
use std::sync::ledger::Ledger;

impl<L: Ledger, P: Drop, T, M: Lent<P, T>> Raw<L, P, T, M> {
    /// The map under the lock. Its content is that at the end of a legal history which begins with what was noted. Waits
    /// for ever if a seat was lost while it had the lock, which no function here does.
    pub fn into_owned<R: Wait>(self, rt: &R, note: Note<L, P, T, M>) -> M
        requires map { note.table ≡ self }
        ensures content { (history : List (Entry T)) × (m : Pairs T)
            × StartsWith history note.seen × IsHistory M.same history m × M.content result m }
    {
        let Raw { lock } = self;
        let Note { mut seat } = note;
        lock.take(rt, &mut seat);
        let Some(state) = lock.table().exchange(&mut seat, 0, None) else {
            unreachable!()
        };
        state.into_under()
    }
}
