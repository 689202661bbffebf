//! The state of a shared map of numbers whose map finds and removes pairs by their order, and inserts many. What a removal
//! takes out is booked on the share that the state keeps, and so is what they put in.
//!
//! Tested in `test_share_ends`.

ghost use Rattle.std.specs.Prelude.{◌≡◌, ◌+◌, ◌<◌, ◌≤◌, ◌^◌, ℕ, IfErr, OnOk, length, take};
ghost use Rattle.std.specs.List.{FoldsTo};
ghost use Rattle.congee_tree.specs.Bulk.{outside, put_all, Retains};
ghost use Rattle.spec_map.specs.Map.{between};

use crate::state::LockedState;
use share_backend::lent::CallStage;
use share_backend::ordered::Ordered;
use share_ledger::{add_to, take_to};
use share_works::map_state::MapState;
use share_works::near::Near;
use spec_map::traits::Word;
use std::sync::ledger::Ledger;
use tree_walk::range_scan::RangeEntry;

impl<L: Ledger, M: Ordered> MapState<CallStage<u64>> for LockedState<L, u64, u64, M> {
    ghost pairs = { λ s. M.pairs s.under };

    fn law_contains(&self) {
        self.under.law_contains();
    }

    fn pair_count(&self) -> u128 {
        self.under.law_contains();
        self.under.entry_count()
    }

    fn nearest(&self, near: Near) -> Option<(u64, u64)> {
        match near {
            Near::First => self.under.first(),
            Near::Last => self.under.last(),
            Near::Floor(key) => self.under.floor(key),
            Near::Below(key) => self.under.below(key),
            Near::Ceiling(key) => self.under.ceiling(key),
            Near::Above(key) => self.under.above(key),
        }
    }

    fn page<E: RangeEntry>(&self, start: u64, end: u64, buffer: &mut [E]) -> usize {
        self.under.pairs_from(start, end, buffer)
    }

    fn page_inclusive<E: RangeEntry>(&self, start: u64, last: u64, buffer: &mut [E]) -> usize {
        self.under.pairs_to(start, last, buffer)
    }

    fn page_descending<E: RangeEntry>(&self, start: u64, last: u64, buffer: &mut [E]) -> usize {
        self.under.pairs_down(start, last, buffer)
    }

    fn pop_first(&mut self) -> Option<(u64, u64)> {
        let LockedState {
            under,
            book,
            own,
            of: _,
        } = self;
        let before = count_of(under);
        let popped = under.pop_first();
        take_to(book, own, before, count_of(under));
        popped
    }

    fn pop_last(&mut self) -> Option<(u64, u64)> {
        let LockedState {
            under,
            book,
            own,
            of: _,
        } = self;
        let before = count_of(under);
        let popped = under.pop_last();
        take_to(book, own, before, count_of(under));
        popped
    }

    fn clear(&mut self) {
        let LockedState {
            under,
            book,
            own,
            of: _,
        } = self;
        let before = count_of(under);
        under.clear();
        take_to(book, own, before, count_of(under));
    }

    fn remove_range(&mut self, start: u64, end: u64) -> u128 {
        let LockedState {
            under,
            book,
            own,
            of: _,
        } = self;
        let before = count_of(under);
        let removed = under.remove_range(start, end);
        take_to(book, own, before, count_of(under));
        removed
    }
}

impl<L: Ledger, M: Ordered> LockedState<L, u64, u64, M> {
    /// Inserts the pairs in their order. Where memory is missing for one of them, those before it are in the map, and
    /// `Err` has their number.
    pub fn insert_many<K: Word, V: Word>(&mut self, many: &[(K, V)]) -> Result<(), usize>
        ensures ok { OnOk result
            (M.pairs self.new.under
            ≡ put_all K.number V.number (M.pairs self.old.under) many.now) }
        ensures err { IfErr result (λ inserted. (inserted < length many.now)
            × (M.pairs self.new.under
            ≡ put_all K.number V.number (M.pairs self.old.under) (take inserted many.now))) }
        ensures places { (k : ℕ) → M.place self.new.under k ≡ M.place self.old.under k }
    {
        let LockedState {
            under,
            book,
            own,
            of: _,
        } = self;
        let before = count_of(under);
        let inserted = under.insert_many(many);
        add_to(book, own, before, count_of(under));
        inserted
    }

    /// Removes the pairs with `start <= key <= last`, and returns how many.
    pub fn remove_range_inclusive(&mut self, start: u64, last: u64) -> u128
        ensures count { result ≡ length (between (M.pairs self.old.under) start (last + 1)) }
        ensures pairs { M.pairs self.new.under ≡ outside (M.pairs self.old.under) start (last + 1) }
        ensures places { (k : ℕ) → M.place self.new.under k ≡ M.place self.old.under k }
    {
        let LockedState {
            under,
            book,
            own,
            of: _,
        } = self;
        let before = count_of(under);
        let removed = under.remove_range_inclusive(start, last);
        take_to(book, own, before, count_of(under));
        removed
    }

    /// Removes the pairs with `start <= key < end`, and calls the closure with each once, keys ascending.
    pub fn extract_range<F: FnMut(u64, u64)>(&mut self, start: u64, end: u64, f: &mut F)
        requires { F.IsAlwaysCallable f.old }
        ensures callable { F.IsAlwaysCallable f.new }
        ensures calls { FoldsTo (λ state pair next. F.step state pair.0 pair.1 tt next)
            f.old (between (M.pairs self.old.under) start end) f.new }
        ensures pairs { M.pairs self.new.under ≡ outside (M.pairs self.old.under) start end }
        ensures places { (k : ℕ) → M.place self.new.under k ≡ M.place self.old.under k }
    {
        let LockedState {
            under,
            book,
            own,
            of: _,
        } = self;
        let before = count_of(under);
        under.extract_range(start, end, f);
        take_to(book, own, before, count_of(under));
    }

    /// Asks the closure about each pair once, keys ascending, and removes those for which it returns false.
    pub fn retain<F: FnMut(u64, u64) -> bool>(&mut self, f: &mut F)
        requires { F.IsAlwaysCallable f.old }
        ensures callable { F.IsAlwaysCallable f.new }
        ensures retains { Retains (λ state pair stays next. F.step state pair.0 pair.1 stays next)
            f.old (M.pairs self.old.under) (M.pairs self.new.under) f.new }
        ensures places { (k : ℕ) → M.place self.new.under k ≡ M.place self.old.under k }
    {
        let LockedState {
            under,
            book,
            own,
            of: _,
        } = self;
        let before = count_of(under);
        under.retain(f);
        take_to(book, own, before, count_of(under));
    }
}

// The number of a map's pairs, of which there are 2 to the 64 at most.
#[tactic(auto, using(share_backend::proofs::Counting::few))]
fn count_of<M: Ordered>(map: &M) -> u128
    ensures count { result ≡ M.entries map.now }
    ensures pairs { result ≡ length (M.pairs map.now) }
    ensures few { result ≤ 2 ^ 64 }
{
    map.law_contains();
    map.entry_count()
}
