//! A tree whose changes are counted by key.
//!
//! Tested in `share_maps` and `test_share_guards/changes`.

ghost use Rattle.std.specs.Prelude.{◌≡◌, ◌+◌, ◌<◌, [], None, length, take, IfOk, IfErr, OnOk, OnErr, IsSome, IsTrue, option_copied};
ghost use Rattle.std.specs.List.{FoldsTo};
ghost use Rattle.congee_tree.specs.Bulk.{outside, put_all, Retains};
ghost use Rattle.spec_map.specs.Map.{IsMap, between, lookup, put, without, with_answer};
ghost use Rattle.spec_map.specs.Near.{first_of, last_of, without_pair};
ghost use Rattle.node_table.specs.inner.Kinds.{mapped};
ghost use Rattle.spec_olc.specs.Meaning.{in_some};
ghost use Rattle.share_tree.specs.inner.Current.{change_count, CountsRise, AnswerHolds};

use crate::bulk;
use crate::changes::ChangeCounts;
use crate::seat::Question;
use congee_tree::by_number;
use congee_tree::tree::RawCongee;
use node_table::allocator::Allocator;
use spec_map::error::OOMError;
use spec_map::traits::Word;
use spec_olc::payload::HasMeaning;
use std::alloc::Global;
use std::marker::{Brand, Model};
use std::sync::ledger::Blank;

/// The tree, and how often its pairs were changed.
///
/// Contracts see its pairs and nodes, and the counts. While a key's count is the same, and hasn't saturated, so is what
/// is stored at the key.
#[derive(Drop)]
pub(crate) struct Counted<P: HasMeaning, A: Allocator> {
    tree: RawCongee<P, A>,
    changes: ChangeCounts,
}

impl<P: HasMeaning, A: Allocator> Model for Counted<P, A> {
    ghost use Rattle.spec_map.specs.Map.{IsMap};
    ghost use Rattle.share_tree.specs.inner.Contents.{Contents};

    ghost Value = { Contents P };

    ghost view = { λ c. record {
      pairs = c.tree.pairs;
      nodes = c.tree.nodes;
      counts = c.changes;
    } };

    ghost invariant = { λ c. IsMap c.tree.pairs };
}

impl<P: HasMeaning, A: Allocator> Counted<P, A> {
    /// An empty tree.
    pub(crate) fn new(alloc: Global, budget: A) -> Result<Self, OOMError>
        ensures { IfOk result (λ tree. tree.pairs ≡ []) }
    {
        Ok(Counted {
            tree: RawCongee::new(alloc, budget)?,
            changes: ChangeCounts::new(),
        })
    }

    /// The tree itself, to read.
    pub(crate) fn tree(&self) -> &RawCongee<P, A>
        ensures pairs { result.now.pairs ≡ self.now.pairs }
        ensures nodes { result.now.nodes ≡ self.now.nodes }
        ensures ordered { IsMap self.now.pairs }
    {
        &self.tree
    }

    /// For the proof: brings the order of the keys into scope.
    pub(crate) fn is_ordered(&self)
        ensures { IsMap self.now.pairs }
    {
        let _ = &self.tree;
    }

    /// A key's count of changes.
    pub(crate) fn count(&self, key: u64) -> u64
        ensures { result ≡ change_count self.now.counts key }
    {
        self.changes.of(key)
    }

    /// What is stored at a key.
    #[tactic(auto, using(crate::proofs::Mapped::lookup_mapped))]
    pub(crate) fn look(&self, key: u64) -> Option<&P>
        ensures { in_some P.meaning (option_copied result)
            ≡ lookup (mapped P.meaning self.now.pairs) key }
    {
        by_number::get::<Brand, P, A>(&self.tree, key, Blank::new(1))
    }

    /// Stores a payload at a key, and returns what was stored there. `OOMError` if a new key needs a node for which
    /// there is no memory: then nothing has changed.
    #[tactic(auto, using(crate::proofs::Mapped::lookup_mapped, crate::proofs::Mapped::put_mapped))]
    pub(crate) fn insert(&mut self, key: u64, value: P) -> Result<Option<P>, OOMError>
        ensures before { IfOk result (λ old. in_some P.meaning old
            ≡ lookup (mapped P.meaning self.old.pairs) key) }
        ensures ok { OnOk result (mapped P.meaning self.new.pairs
            ≡ put (mapped P.meaning self.old.pairs) key (P.meaning value)) }
        ensures err { OnErr result (self.new.pairs ≡ self.old.pairs) }
        ensures refused { OnErr result (lookup (mapped P.meaning self.old.pairs) key ≡ None) }
        ensures onward { CountsRise P.meaning self.old self.new }
    {
        let old = by_number::insert::<Brand, P, A>(&mut self.tree, key, value, Blank::new(1))?;
        self.changes.raise(key);
        Ok(old)
    }

    /// Removes a key, and returns what was stored there.
    #[tactic(auto, using(crate::proofs::Mapped::lookup_mapped, crate::proofs::Mapped::without_mapped))]
    pub(crate) fn remove(&mut self, key: u64) -> Option<P>
        ensures before { in_some P.meaning result ≡ lookup (mapped P.meaning self.old.pairs) key }
        ensures pairs { mapped P.meaning self.new.pairs
            ≡ without (mapped P.meaning self.old.pairs) key }
        ensures onward { CountsRise P.meaning self.old self.new }
    {
        match by_number::remove::<Brand, P, A>(&mut self.tree, key, Blank::new(1)) {
            Some(old) => {
                self.changes.raise(key);
                Some(old)
            }
            None => None,
        }
    }

    /// Removes the pair with the least key, and returns it.
    pub(crate) fn pop_first(&mut self) -> Option<(u64, P)>
        ensures pair { result ≡ first_of self.old.pairs }
        ensures pairs { self.new.pairs ≡ without_pair self.old.pairs (first_of self.old.pairs) }
        ensures onward { CountsRise P.meaning self.old self.new }
    {
        let (key, payload) = self.tree.pop_first()?;
        self.changes.raise(key);
        Some((key, payload))
    }

    /// Removes the pair with the greatest key, and returns it.
    pub(crate) fn pop_last(&mut self) -> Option<(u64, P)>
        ensures pair { result ≡ last_of self.old.pairs }
        ensures pairs { self.new.pairs ≡ without_pair self.old.pairs (last_of self.old.pairs) }
        ensures onward { CountsRise P.meaning self.old self.new }
    {
        let (key, payload) = self.tree.pop_last()?;
        self.changes.raise(key);
        Some((key, payload))
    }

    /// Removes all pairs.
    pub(crate) fn clear(&mut self)
        ensures pairs { self.new.pairs ≡ [] }
        ensures onward { CountsRise P.meaning self.old self.new }
    {
        self.tree.clear();
        self.changes.raise_all();
    }

    /// Removes the pairs with `start <= key < end`, and returns how many.
    pub(crate) fn remove_range(&mut self, start: u64, end: u64) -> u128
        ensures count { result ≡ length (between self.old.pairs start end) }
        ensures pairs { self.new.pairs ≡ outside self.old.pairs start end }
        ensures onward { CountsRise P.meaning self.old self.new }
    {
        let removed = self.tree.remove_range(start, end);
        // For the proof: the keys still ascend.
        self.tree.law_ordered();
        self.changes.raise_all();
        removed
    }

    /// Removes the pairs with `start <= key <= last`, and returns how many.
    pub(crate) fn remove_range_inclusive(&mut self, start: u64, last: u64) -> u128
        ensures count { result ≡ length (between self.old.pairs start (last + 1)) }
        ensures pairs { self.new.pairs ≡ outside self.old.pairs start (last + 1) }
        ensures onward { CountsRise P.meaning self.old self.new }
    {
        let removed = self.tree.remove_range_inclusive(start, last);
        // For the proof: the keys still ascend.
        self.tree.law_ordered();
        self.changes.raise_all();
        removed
    }

    /// The tree alone.
    pub(crate) fn into_tree(self) -> RawCongee<P, A>
        ensures { result.pairs ≡ self.pairs }
    {
        let Counted { tree, changes: _ } = self;
        tree
    }

    /// Replaces what is stored at a key, or removes the key for `None`.
    pub(crate) fn set(&mut self, key: u64, wanted: Option<P>)
        requires present { IsSome (lookup (mapped P.meaning self.old.pairs) key) }
        ensures pairs { mapped P.meaning self.new.pairs
            ≡ with_answer (mapped P.meaning self.old.pairs) key (in_some P.meaning wanted) }
        ensures onward { CountsRise P.meaning self.old self.new }
    {
        match wanted {
            None => {
                self.remove(key);
            }
            Some(wanted) => {
                if self.insert(key, wanted).is_err() {
                    unreachable!()
                }
            }
        }
    }

    /// Whether what a closure was asked with is still stored. May return false
    /// although it is: values behind owners aren't compared.
    pub(crate) fn still_has(&self, question: &Question<P>) -> bool
        requires { AnswerHolds P.meaning self.now question.now }
        ensures { IsTrue result → lookup (mapped P.meaning self.now.pairs) question.now.key
            ≡ in_some P.meaning question.now.old }
    {
        let count = self.count(question.key);
        if question.at == count && count < u64::MAX {
            return true;
        }
        match &question.old {
            Some(old) => match self.look(question.key) {
                Some(stored) => stored.same(old),
                None => false,
            },
            None => self.look(question.key).is_none(),
        }
    }
}

impl<A: Allocator> Counted<u64, A> {
    /// Inserts the pairs in their order. Where memory is missing for one of them, those before it are in the tree, and
    /// `Err` has their number.
    pub(crate) fn insert_many<K: Word, V: Word>(&mut self, many: &[(K, V)]) -> Result<(), usize>
        ensures ok { OnOk result
            (self.new.pairs ≡ put_all K.number V.number self.old.pairs many.now) }
        ensures err { IfErr result (λ inserted. (inserted < length many.now)
            × (self.new.pairs ≡ put_all K.number V.number self.old.pairs
            (take inserted many.now))) }
        ensures onward { CountsRise (λ n. n) self.old self.new }
    {
        let inserted = self.tree.insert_many(many);
        // For the proof: the keys still ascend.
        self.tree.law_ordered();
        self.changes.raise_all();
        inserted
    }

    /// Removes the pairs with `start <= key < end`, and calls the closure with each, keys ascending.
    pub(crate) fn extract_range<F: FnMut(u64, u64)>(&mut self, start: u64, end: u64, f: &mut F)
        requires { F.IsAlwaysCallable f.old }
        ensures callable { F.IsAlwaysCallable f.new }
        ensures calls { FoldsTo (λ state pair next. F.step state pair.0 pair.1 tt next)
            f.old (between self.old.pairs start end) f.new }
        ensures pairs { self.new.pairs ≡ outside self.old.pairs start end }
        ensures onward { CountsRise (λ n. n) self.old self.new }
    {
        bulk::extract_range(&mut self.tree, start, end, f);
        self.tree.law_ordered();
        self.changes.raise_all();
    }

    /// Asks the closure about each pair once, keys ascending, and removes those for which it returns false.
    pub(crate) fn retain<F: FnMut(u64, u64) -> bool>(&mut self, f: &mut F)
        requires { F.IsAlwaysCallable f.old }
        ensures callable { F.IsAlwaysCallable f.new }
        ensures retains { Retains (λ state pair stays next. F.step state pair.0 pair.1 stays next)
            f.old self.old.pairs self.new.pairs f.new }
        ensures onward { CountsRise (λ n. n) self.old self.new }
    {
        bulk::retain(&mut self.tree, f);
        self.tree.law_ordered();
        self.changes.raise_all();
    }
}
