//! The removal of many pairs of a shared map of numbers: each one hold of the lock, and an entry of the history.
//!
//! A closure is called while the lock is taken, with what is stored at that moment.
//!
//! Tested in `test_share_ends`.

ghost use Rattle.std.specs.Prelude.{◌≡◌, ◌+◌, ℕ, length};
ghost use Rattle.std.specs.List.{FoldsTo};
ghost use Rattle.congee_tree.specs.Bulk.{Retains};
ghost use Rattle.spec_map.specs.Map.{Pairs, between};
ghost use Rattle.spec_olc.specs.Runs.{same_number};
ghost use Rattle.share_rule.specs.Known.{MadeCalls};
ghost use Rattle.share_rule.specs.inner.Hold.{HeldBy};
ghost use Rattle.share_rule.specs.inner.Steps.{IsIdle};
ghost use Rattle.share_works.specs.Made.{range_removal, retaining};

use crate::raw::{Guard, Raw};
use share_backend::lent::CallStage;
use share_backend::ordered::Ordered;
use share_holds::holds::{MapLock, MapSeat};
use share_rule::work::Work;
use share_state::state::LockedState;
use share_works::hold::hold;
use share_works::map_state::MapState;
use std::marker::Brand;
use std::sync::Wait;
use std::sync::ledger::Ledger;

#[derive(Drop)]
struct RemoveInclusive {
    start: u64,
    last: u64,
    removed: u128,
}

impl<L: Ledger, M: Ordered> Work<u64, CallStage<u64>, LockedState<L, u64, u64, M>, ()>
    for RemoveInclusive {
    ghost use Rattle.std.specs.Prelude.{◌≡◌, ◌+◌, length};
    ghost use Rattle.spec_map.specs.Map.{between};
    ghost use Rattle.share_works.specs.Made.{range_removal};

    ghost made = { λ w value. range_removal w.start (w.last + 1) (length (M.pairs value.under))
        (between (M.pairs value.under) w.start (w.last + 1)) };

    ghost does = { λ old _ value new _. (new.start ≡ old.start) × (new.last ≡ old.last)
        × (new.removed ≡ length (between (M.pairs value.under) new.start (new.last + 1))) };

    fn work(&mut self, value: &mut LockedState<L, u64, u64, M>, buffer: &mut [()]) {
        let _ = buffer;
        value.law_contains();
        self.removed = value.remove_range_inclusive(self.start, self.last);
        value.law_contains();
    }
}

// Removes the pairs of a range in one hold, and calls the closure with each.
fn extract<L: Ledger, M: Ordered, R: Wait, F: FnMut(u64, u64)>(
    lock: &MapLock<L, u64, u64, M>,
    rt: &R,
    seat: &mut MapSeat<L, u64, u64, M>,
    start: u64,
    end: u64,
    f: &mut F,
)
    requires table { seat.old.table_id ≡ lock.now }
    requires idle { IsIdle seat.old.me }
    requires callable { F.IsAlwaysCallable f.old }
    ensures callable { F.IsAlwaysCallable f.new }
    ensures table { seat.new.table_id ≡ seat.old.table_id }
    ensures held { (pairs : Pairs ℕ)
        × HeldBy M.same (range_removal start end (length pairs) (between pairs start end))
        seat.old.me seat.new.me
        × FoldsTo (λ state pair next. F.step state pair.0 pair.1 tt next) f.old
        (between pairs start end) f.new }
{
    lock.take(rt, seat);
    let Some(value) = seat.slot_mut(lock.table(), 0) else {
        unreachable!()
    };
    value.law_contains();
    value.extract_range(start, end, f);
    value.law_contains();
    lock.release::<Brand, _, _>(seat, &start, &end);
}

// Asks the closure about each pair in one hold, and removes those for which it returns false.
fn retain<L: Ledger, M: Ordered, R: Wait, F: FnMut(u64, u64) -> bool>(
    lock: &MapLock<L, u64, u64, M>,
    rt: &R,
    seat: &mut MapSeat<L, u64, u64, M>,
    f: &mut F,
)
    requires table { seat.old.table_id ≡ lock.now }
    requires idle { IsIdle seat.old.me }
    requires callable { F.IsAlwaysCallable f.old }
    ensures callable { F.IsAlwaysCallable f.new }
    ensures table { seat.new.table_id ≡ seat.old.table_id }
    ensures held { (pairs : Pairs ℕ) × (kept : Pairs ℕ)
        × HeldBy M.same (retaining pairs kept) seat.old.me seat.new.me
        × Retains (λ state pair stays next. F.step state pair.0 pair.1 stays next) f.old
        pairs kept f.new }
{
    lock.take(rt, seat);
    let Some(value) = seat.slot_mut(lock.table(), 0) else {
        unreachable!()
    };
    value.law_contains();
    value.retain(f);
    value.law_contains();
    lock.release::<Brand, _, _>(seat, &(), &());
}

impl<L: Ledger, M: Ordered> Raw<L, u64, u64, M> {
    /// Removes the pairs with keys from `start` on and up to `last`, and returns how many.
    pub fn remove_range_inclusive<R: Wait>(
        &self,
        rt: &R,
        guard: &mut Guard<'_, L, u64, u64, M>,
        start: u64,
        last: u64,
    ) -> u128
        requires map { guard.old.table ≡ self.now }
        ensures made { (total : ℕ) × (pairs : Pairs ℕ)
            × MadeCalls same_number guard.old (range_removal start (last + 1) total pairs) guard.new
            × (result ≡ length pairs) }
    {
        M::numbers_mean_themselves();
        let mut work = RemoveInclusive {
            start,
            last,
            removed: 0,
        };
        hold(&self.lock, rt, &mut guard.seat, &mut work, &mut []);
        work.removed
    }

    /// Removes the pairs with keys from `start` on and below `end`, and calls the closure with each once, keys ascending.
    pub fn extract_range<R: Wait, F: FnMut(u64, u64)>(
        &self,
        rt: &R,
        guard: &mut Guard<'_, L, u64, u64, M>,
        start: u64,
        end: u64,
        f: &mut F,
    )
        requires map { guard.old.table ≡ self.now }
        requires callable { F.IsAlwaysCallable f.old }
        ensures callable { F.IsAlwaysCallable f.new }
        ensures made { (total : ℕ) × (pairs : Pairs ℕ)
            × MadeCalls same_number guard.old (range_removal start end total pairs) guard.new
            × FoldsTo (λ state pair next. F.step state pair.0 pair.1 tt next) f.old pairs f.new }
    {
        M::numbers_mean_themselves();
        extract(&self.lock, rt, &mut guard.seat, start, end, f);
    }
    /// Asks the closure about each pair once, keys ascending, and removes those for which it returns false.
    pub fn retain<R: Wait, F: FnMut(u64, u64) -> bool>(
        &self,
        rt: &R,
        guard: &mut Guard<'_, L, u64, u64, M>,
        f: &mut F,
    )
        requires map { guard.old.table ≡ self.now }
        requires callable { F.IsAlwaysCallable f.old }
        ensures callable { F.IsAlwaysCallable f.new }
        ensures made { (pairs : Pairs ℕ) × (kept : Pairs ℕ)
            × MadeCalls same_number guard.old (retaining pairs kept) guard.new
            × Retains (λ state pair stays next. F.step state pair.0 pair.1 stays next) f.old
            pairs kept f.new }
    {
        M::numbers_mean_themselves();
        retain(&self.lock, rt, &mut guard.seat, f);
    }
}
