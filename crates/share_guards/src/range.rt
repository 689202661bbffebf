//! The pairs of a range: those of one moment, in one hold, or those that a call of many events finds.
//!
//! Tested in `test_share_guards` and `share_maps/guards`.

ghost use Rattle.std.specs.Prelude.{◌≡◌, ◌≤◌, IsTrue, length};
ghost use Rattle.share_holds.specs.Moments.{HasPage, HasRange};

use crate::raw::{Guard, Raw};
use share_backend::snapshots::Pages;
use share_holds::scans::scan_until;
use std::sync::Wait;
use std::sync::ledger::Ledger;
use tree_walk::range_scan::RangeEntry;

impl<L: Ledger, M: Pages> Raw<L, u64, u64, M> {
    /// Writes pairs with keys from `start` on and below `end` to the buffer, ascending, as many as there are or as fit,
    /// and returns how many. The buffer's entries after them are unspecified. A range enters nothing in the history.
    ///
    /// A pair that is stored throughout is among them, if it fits. One that is stored or removed meanwhile may be.
    pub fn range<R: Wait, E: RangeEntry>(
        &self,
        rt: &R,
        guard: &mut Guard<'_, L, u64, u64, M>,
        start: u64,
        end: u64,
        buffer: &mut [E],
    ) -> usize
        requires map { guard.old.table ≡ self.now }
        ensures same { guard.new ≡ guard.old }
        ensures count { result ≤ length buffer.old }
        ensures written { HasRange M.same guard.old.seen E.entry start end result
            buffer.new }
        ensures at_once { IsTrue M.at_once → HasPage M.same guard.old.seen E.entry start end
            buffer.old result buffer.new }
        ensures room { length buffer.new ≡ length buffer.old }
    {
        if let Some(found) = self.page(rt, guard, start, end, buffer) {
            return found;
        }
        scan_until(
            &self.lock,
            rt,
            &mut guard.seat,
            guard.id,
            start,
            end,
            buffer,
        )
    }
}
