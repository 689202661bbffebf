//! Calls that change many pairs.
//!
//! Tested in `test_owned/bulk`.

ghost use Rattle.std.specs.Prelude.{◌≡◌, ◌↔◌, ◌+◌, ◌/◌, ◌<◌, ◌≤◌, ◌^◌, [], length, take, false, IfSome, IfNone, IfErr, IsTrue, OnOk, slice_get, IsSomeAnd, None, Some};
ghost use Rattle.std.specs.List.{FoldsTo};
ghost use Rattle.congee_tree.specs.Bulk.{outside, next_of, put_all, Retains};
ghost use Rattle.spec_map.specs.Map.{Pairs, between};
ghost use Rattle.spec_map.specs.Refusal.{NeedsNode};
ghost use Rattle.tree_edit.specs.Calls.{Asking};
ghost use Rattle.tree_edit.specs.Tree.{root_alone, ChargesForNodes};
ghost use Rattle.tree_walk.specs.Scan.{from_key, first_number, first_pair};

use crate::by_number::{extract_run, keep_run, remove};
use crate::tree::RawCongee;
use node_table::allocator::Allocator;
use spec_map::payload::Payload;
use spec_map::traits::Word;
use std::marker::Brand;
use std::sync::ledger::Blank;
use tree_edit::receiver::{Asker, Dropped, Receiver};

// The least key after this one, or the greatest key where there is none.
fn start_after(last: Option<u64>) -> u64
    ensures { next_of last < 2 ^ 64 → result ≡ next_of last }
{
    match last {
        None => 0,
        Some(key) => key.saturating_add(1),
    }
}

// Whether there is such a key, and the other one differs from it in its last byte alone.
fn is_beside(last: Option<u64>, key: u64) -> bool
    ensures none { IfNone last (result ≡ false) }
    ensures some { IfSome last (λ other. IsTrue result ↔ (other / 256 ≡ key / 256)) }
{
    match last {
        None => false,
        Some(other) => other / 256 == key / 256,
    }
}

impl<P: Payload, A: Allocator> RawCongee<P, A> {
    /// Removes all pairs, which leaves the root alone. Never fails. Frees node by node where there is memory for a new
    /// root, which isn't charged beside the old one. Else reads one path for each pair.
    pub fn clear(&mut self)
        ensures pairs { self.new.pairs ≡ [] }
        ensures nodes { self.new.nodes ≡ root_alone }
        ensures charge { ChargesForNodes A.charge self.old self.new }
    {
        if self.tree.clear_at_once() {
            return;
        }
        'pairs: while let Some(_) = self.pop_first_in_place() {}
        self.law_empty();
    }

    /// Gives memory back to the machine that is held for nodes that are gone: moves those that are left into a smaller
    /// table, where it has memory for that. A removal does so once three quarters of a table are free. Never fails.
    pub fn shrink_to_fit(&mut self)
        ensures { self.new ≡ self.old }
    {
        self.tree.shrink_to_fit();
    }

    /// Removes the pairs with `start <= key < end`, each as a removal does, and returns how many. Never fails. Reads two
    /// paths for each leaf among them, and one more.
    pub fn remove_range(&mut self, start: u64, end: u64) -> u128
        ensures count { result ≡ length (between self.old.pairs start end) }
        ensures pairs { self.new.pairs ≡ outside self.old.pairs start end }
        ensures charge { ChargesForNodes A.charge self.old self.new }
    {
        let before = self.value_count();
        self.extract_range::<(), Dropped>(start, end, &mut ());
        before - self.value_count()
    }

    /// Removes the pairs with `start <= key < end`, each as a removal does, and hands each on once it is removed, keys
    /// ascending. Never fails.
    pub fn extract_range<F, R: Receiver<P, F>>(&mut self, start: u64, end: u64, f: &mut F)
        requires { R.ready f.old }
        ensures calls { FoldsTo R.step f.old (between self.old.pairs start end) f.new }
        ensures pairs { self.new.pairs ≡ outside self.old.pairs start end }
        ensures charge { ChargesForNodes A.charge self.old self.new }
    {
        while let Some(key) = self.key_between(start, end) {
            self.law_ordered();
            extract_run::<Brand, P, A, F, R>(self, start, key, end, f, Blank::new(1));
        }
    }

    /// Asks about each pair, once, keys ascending, and removes those that aren't to stay, each as a removal does. Never
    /// fails. Reads at most four paths for each leaf, and one beside them that is a dead end.
    pub fn retain<F, R: Asker<P, F>>(&mut self, f: &mut F)
        requires { R.ready f.old }
        ensures retains { Retains R.step f.old self.old.pairs self.new.pairs f.new }
        ensures charge { ChargesForNodes A.charge self.old self.new }
    {
        self.law_ordered();
        let mut last = None;
        while let Some(key) = self.keep_after::<F, R>(last, f) {
            last = Some(key);
        }
    }

    // Asks about the pair after a key, and if that one was in the same leaf, about those that follow there. Returns the key of
    // the last. So a leaf of one pair costs what asking about that and removing it do.
    fn keep_after<F, R: Asker<P, F>>(&mut self, last: Option<u64>, f: &mut F) -> Option<u64>
        requires { R.ready f.old }
        ensures none { IfNone result
            ((first_pair (from_key (next_of last) self.old.pairs) ≡ None)
            × (f.new ≡ f.old) × (self.new.pairs ≡ self.old.pairs)) }
        ensures asks { IfSome result (λ key. (f' : F) (first : Pairs P)
            → Asking R.step f' first f.old self.old.pairs (next_of last)
            → Asking R.step f' first f.new self.new.pairs (key + 1)) }
        ensures forward { IfSome result (λ key. (next_of last ≤ key) × (key < 2 ^ 64)) }
        ensures charge { ChargesForNodes A.charge self.old self.new }
        ensures ready { R.ready f.new }
    {
        self.law_ordered();
        let Some((key, payload)) = self.pair_after(last) else {
            return None;
        };
        if is_beside(last, key) {
            let start = start_after(last);
            let to = keep_run::<Brand, P, A, F, R>(self, start, key, f, Blank::new(1));
            return Some(to);
        }
        let stays = R::ask(f, key, payload);
        if !stays {
            let _ = remove::<Brand, P, A>(self, key, Blank::new(1));
        }
        Some(key)
    }

    /// The least key with `start <= key < end`. Takes no memory.
    pub fn key_between(&self, start: u64, end: u64) -> Option<u64>
        ensures { result ≡ first_number (between self.now.pairs start end) }
    {
        self.law_ordered();
        match self.key_from(start) {
            Some(key) if key < end => Some(key),
            _ => None,
        }
    }

    /// The first pair whose key is above `last`, or the first of all for `None`. Takes no memory. Reads one path, and
    /// beside it at most one that is a dead end.
    pub fn pair_after(&self, last: Option<u64>) -> Option<(u64, &P)>
        ensures none { IfNone result (first_pair (from_key (next_of last) self.now.pairs) ≡ None) }
        ensures some { IfSome result (λ pair.
            first_pair (from_key (next_of last) self.now.pairs) ≡ Some (pair.0, pair.1.now)) }
    {
        match last {
            None => self.ceiling(0),
            Some(key) => self.above(key),
        }
    }

    /// Removes the pairs with `start <= key <= last`, as `remove_range`, and returns how many. Never fails. Reads two
    /// paths for each leaf among them, and two more.
    pub fn remove_range_inclusive(&mut self, start: u64, last: u64) -> u128
        ensures count { result ≡ length (between self.old.pairs start (last + 1)) }
        ensures pairs { self.new.pairs ≡ outside self.old.pairs start (last + 1) }
        ensures charge { ChargesForNodes A.charge self.old self.new }
    {
        if last < start {
            return 0;
        }
        self.law_ordered();
        let before = self.value_count();
        let _ = self.remove_range(start, last);
        let _ = remove::<Brand, P, A>(self, last, Blank::new(1));
        before - self.value_count()
    }
}

impl<A: Allocator> RawCongee<u64, A> {
    /// Inserts the pairs in their order, so of two with one key the later one counts. Where memory is missing for one of
    /// them, those before it are in the tree, and `Err` has their number.
    ///
    /// A pair takes memory, and is refused it, where its insertion by itself would be. It takes no descent where its leaf
    /// is that of the pair before, unless the leaf was made for that one.
    pub fn insert_many<K: Word, V: Word>(&mut self, pairs: &[(K, V)]) -> Result<(), usize>
        ensures ok { OnOk result
            (self.new.pairs ≡ put_all K.number V.number self.old.pairs pairs.now) }
        ensures err { IfErr result (λ inserted. self.new.pairs
            ≡ put_all K.number V.number self.old.pairs (take inserted pairs.now)) }
        ensures refused { IfErr result (λ inserted. IsSomeAnd (slice_get pairs.now inserted)
            (λ pair. NeedsNode self.new.pairs (K.number pair.0))) }
        ensures charge { ChargesForNodes A.charge self.old self.new }
    {
        self.least = 0;
        let inserted = self.tree.insert_many(pairs);
        // (for the proof: brings the order of the keys into scope)
        let _ = self.tree.table();
        inserted
    }
}
