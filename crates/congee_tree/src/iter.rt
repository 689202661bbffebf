//! The pairs of a tree of numbers, one by one.
//!
//! Tested in `test_owned/iterators`.

ghost use Rattle.std.specs.Prelude.{◌≡◌, ◌+◌, ◌++◌, [], ◌∷◌, IfSome, IfNone};
ghost use Rattle.std.specs.Iterator.{YieldsFirst, item_count};
ghost use Rattle.spec_map.specs.Map.{between};
ghost use Rattle.congee_tree.specs.Bulk.{unread_pairs};

use crate::tree::RawCongee;
use node_table::allocator::Allocator;
use std::marker::Model;

// How many pairs are read at once.
const PAGE: usize = 16;

/// Pairs that were read at once. Contracts see the list of those that are left.
#[derive(Drop)]
struct Page {
    pairs: [(u64, u64); PAGE],
    next: usize,
    count: usize,
}

impl Model for Page {
    ghost use Rattle.std.specs.Prelude.{ℕ, ◌≡◌, ◌≤◌, length, drop, take};
    ghost use Rattle.std.specs.Coded.{coded×, coded_list, coded_ℕ};
    ghost use Rattle.spec_map.specs.Map.{Pairs};

    ghost Value = { Pairs ℕ };

    ghost coded = { coded_list (coded× coded_ℕ coded_ℕ) };

    ghost view = { λ page. drop page.next (take page.count page.pairs) };

    ghost invariant = { λ page. (page.next ≤ page.count) × (page.count ≤ 16)
        × (length page.pairs ≡ 16) };
}

impl Page {
    // A page without pairs.
    fn new() -> Self
        ensures { result ≡ [] }
    {
        Page {
            pairs: [(0, 0); PAGE],
            next: 0,
            count: 0,
        }
    }

    // Reads the first pairs from `start` to `last`, and returns what is unread after them.
    fn read<A: Allocator>(
        &mut self,
        tree: &RawCongee<u64, A>,
        start: u64,
        last: u64,
    ) -> Option<(u64, u64)>
        ensures pairs { self.new ++ unread_pairs tree.now.pairs result
            ≡ between tree.now.pairs start (last + 1) }
        ensures none { self.new ≡ [] → between tree.now.pairs start (last + 1) ≡ [] }
    {
        tree.law_ordered();
        self.next = 0;
        self.count = tree.range_inclusive(start, last, &mut self.pairs);
        if self.count < PAGE {
            return None;
        }
        let (key, _) = self.pairs[PAGE - 1];
        if key < last {
            Some((key + 1, last))
        } else {
            None
        }
    }

    // Takes the first pair that is left.
    fn pop(&mut self) -> Option<(u64, u64)>
        ensures some { IfSome result (λ pair. self.old ≡ pair ∷ self.new) }
        ensures none { IfNone result ((self.old ≡ []) × (self.new ≡ [])) }
    {
        if self.next == self.count {
            return None;
        }
        let pair = self.pairs[self.next];
        self.next += 1;
        Some(pair)
    }
}

/// The pairs of a range by value, keys ascending, as numbers. Contracts see the list of those that are left.
///
/// They are read in pages of 16. Each page reads two paths through the tree and the nodes between them, and takes no
/// memory.
#[derive(Drop)]
pub struct Iter<'a, A: Allocator> {
    tree: &'a RawCongee<u64, A>,
    page: Page,
    /// The least and the greatest key of the range that no page has yet.
    unread: Option<(u64, u64)>,
}

impl<'a, A: Allocator> Model for Iter<'a, A> {
    ghost use Rattle.std.specs.Prelude.{ℕ, ◌++◌};
    ghost use Rattle.std.specs.Coded.{coded×, coded_list, coded_ℕ};
    ghost use Rattle.spec_map.specs.Map.{Pairs};
    ghost use Rattle.congee_tree.specs.Bulk.{unread_pairs};

    ghost Value = { Pairs ℕ };

    ghost coded = { coded_list (coded× coded_ℕ coded_ℕ) };

    ghost view = { λ left. left.page ++ unread_pairs left.tree.now.pairs left.unread };
}

impl<A: Allocator> RawCongee<u64, A> {
    /// All pairs, keys ascending.
    pub fn iter(&self) -> Iter<'_, A>
        ensures { result ≡ self.now.pairs }
    {
        self.law_ordered();
        self.iter_range_inclusive(0, u64::MAX)
    }

    /// The pairs with `start <= key < end`, keys ascending.
    pub fn iter_range(&self, start: u64, end: u64) -> Iter<'_, A>
        ensures { result ≡ between self.now.pairs start end }
    {
        let unread = if end == 0 {
            None
        } else {
            Some((start, end - 1))
        };
        Iter {
            tree: self,
            page: Page::new(),
            unread,
        }
    }

    /// The pairs with `start <= key <= last`, keys ascending.
    pub fn iter_range_inclusive(&self, start: u64, last: u64) -> Iter<'_, A>
        ensures { result ≡ between self.now.pairs start (last + 1) }
    {
        Iter {
            tree: self,
            page: Page::new(),
            unread: Some((start, last)),
        }
    }
}

impl<'a, A: Allocator> Iterator for Iter<'a, A> {
    type Item = (u64, u64);

    ghost next_gives = { YieldsFirst (λ left. left) };

    ghost remaining = { item_count (λ left. left) };

    fn next(&mut self) -> Option<(u64, u64)> {
        if let Some(pair) = self.page.pop() {
            return Some(pair);
        }
        let (start, last) = self.unread?;
        self.unread = self.page.read(self.tree, start, last);
        self.page.pop()
    }
}
