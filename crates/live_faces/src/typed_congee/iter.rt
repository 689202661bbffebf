//! The pairs of a live map, one by one, for `for` loops and the adapters of iterators, while others write.
//!
//! An iterator reads pages of 64 pairs by a guard of its own, and has nothing locked in between. So it is no snapshot: each key was
//! read at a moment of its own after the page before.
//!
//! Tested in `test_live_faces`.
ghost use Rattle.std.specs.Prelude.{◌≡◌, ◌+◌, ◌≤◌, ◌^◌, ◌-◌, true, false, [], ◌∷◌, length, IfNone, IfSome, None, Some};
ghost use Rattle.std.specs.Iterator.{at_most};
ghost use Rattle.live_faces.specs.Iterated.{Gives, HasTurned, iterated, unread_keys};
ghost use Rattle.live_faces.specs.Returned.{pair_of};

use super::{Congee, Guard};
use live_growth::map::Congee as Words;
use live_pool::waits::{listed, listed_down};
use spec_map::traits::Word;
use std::marker::Model;
use std::sync::Wait;

// How many pairs are read at once.
const PAGE: usize = 64;

// Pairs that were read at once. Contracts see the list of those that are left.
#[derive(Drop)]
struct Page {
    pairs: [(u64, u64); PAGE],
    next: usize,
    count: usize,
}

impl Model for Page {
    ghost use Rattle.std.specs.Prelude.{ℕ, ◌≡◌, ◌≤◌, length, drop, take};
    ghost use Rattle.spec_map.specs.Map.{Pairs};

    ghost Value = { Pairs ℕ };

    ghost view = { λ page. drop page.next (take page.count page.pairs) };

    ghost invariant = { λ page. (page.next ≤ page.count) × (page.count ≤ 64)
        × (length page.pairs ≡ 64) };
}

impl Page {
    // A page without pairs.
    fn new() -> Self
        ensures { result ≡ [] }
    {
        Page {
            pairs: [(0, 0); PAGE],
            next: 0,
            count: 0,
        }
    }

    // Takes the first pair that is left.
    fn pop(&mut self) -> Option<(u64, u64)>
        ensures some { IfSome result (λ pair. self.old ≡ pair ∷ self.new) }
        ensures none { IfNone result ((self.old ≡ []) × (self.new ≡ [])) }
    {
        if self.next == self.count {
            return None;
        }
        let pair = self.pairs[self.next];
        self.next += 1;
        Some(pair)
    }

    // Reads the first pairs from `low` to `last`, and returns what is unread behind them.
    fn turn_up<R: Wait>(
        &mut self,
        rt: &R,
        map: &Words,
        guard: &mut Guard,
        low: u64,
        last: u64,
    ) -> Option<(u64, u64)>
        requires map { guard.old.book ≡ map.now }
        ensures map { guard.new.book ≡ guard.old.book }
        ensures turned { HasTurned true low last guard.old self.new result guard.new }
        ensures few { length self.new + unread_keys result ≤ unread_keys (Some (low, last)) }
        ensures ends { self.new ≡ [] → result ≡ None }
    {
        self.next = 0;
        self.count = listed(rt, map, guard, low, last, &mut self.pairs);
        if self.count < PAGE {
            return None;
        }
        let (end, _) = self.pairs[PAGE - 1];
        if end < last {
            Some((end + 1, last))
        } else {
            None
        }
    }

    // Reads the last pairs from `last` down to `low`, and returns what is unread below them.
    fn turn_down<R: Wait>(
        &mut self,
        rt: &R,
        map: &Words,
        guard: &mut Guard,
        low: u64,
        last: u64,
    ) -> Option<(u64, u64)>
        requires map { guard.old.book ≡ map.now }
        ensures map { guard.new.book ≡ guard.old.book }
        ensures turned { HasTurned false low last guard.old self.new result guard.new }
        ensures few { length self.new + unread_keys result ≤ unread_keys (Some (low, last)) }
        ensures ends { self.new ≡ [] → result ≡ None }
    {
        self.next = 0;
        self.count = listed_down(rt, map, guard, low, last, &mut self.pairs);
        if self.count < PAGE {
            return None;
        }
        let (end, _) = self.pairs[PAGE - 1];
        if low < end {
            Some((low, end - 1))
        } else {
            None
        }
    }
}

/// The pairs of a range in the order of their keys, or in reverse, each read back from its numbers. It pauses where too many
/// writers come in between, and goes on. Contracts see what its guard knows, the pairs that it has read and not given, and which
/// keys it hasn't read.
#[derive(Drop)]
pub struct Iter<'a, R: Wait, K: Word, V: Word> {
    rt: &'a R,
    map: &'a Congee<K, V>,
    guard: Guard,
    up: bool,
    page: Page,
    // The least and the greatest key that no page has yet.
    unread: Option<(u64, u64)>,
}

impl<'a, R: Wait, K: Word, V: Word> Model for Iter<'a, R, K, V> {
    ghost use Rattle.std.specs.Prelude.{◌≡◌};
    ghost use Rattle.live_faces.specs.Iterated.{Iterated, iterated};

    ghost Value = { Iterated };

    ghost view = { λ it. iterated it.up it.guard it.page it.unread };

    ghost invariant = { λ it. it.guard.book ≡ it.map.now };
}

impl<'a, R: Wait, K: Word, V: Word> Iter<'a, R, K, V> {
    /// Its guard. What the iterator has read and not given is lost.
    pub fn into_guard(self) -> Guard
        ensures { result ≡ self.entry.known }
    {
        let Iter {
            rt: _,
            map: _,
            guard,
            up: _,
            page: _,
            unread: _,
        } = self;
        guard
    }
}

impl<'a, R: Wait, K: Word, V: Word> Iterator for Iter<'a, R, K, V> {
    type Item = (K, V);

    ghost next_gives = { Gives (pair_of K.of_number V.of_number) };

    ghost remaining = { λ it. at_most (length it.page + unread_keys it.unread) };

    fn next(&mut self) -> Option<(K, V)> {
        if let Some((key, value)) = self.page.pop() {
            return Some((K::from_u64(key), V::from_u64(value)));
        }
        let (low, last) = self.unread?;
        let map = self.map;
        let map = &map.pool.map;
        self.unread = if self.up {
            self.page.turn_up(self.rt, map, &mut self.guard, low, last)
        } else {
            self.page
                .turn_down(self.rt, map, &mut self.guard, low, last)
        };
        let (key, value) = self.page.pop()?;
        Some((K::from_u64(key), V::from_u64(value)))
    }
}

impl<K: Word, V: Word> Congee<K, V> {
    /// All pairs, keys ascending, by this guard.
    pub fn iter<'a, R: Wait>(&'a self, rt: &'a R, guard: Guard) -> Iter<'a, R, K, V>
        requires map { guard.book ≡ self.now }
        ensures { result ≡ iterated true guard [] (Some (0, 2 ^ 64 - 1)) }
    {
        self.walk(rt, guard, true, (0, u64::MAX))
    }

    /// All pairs, keys descending, by this guard.
    pub fn iter_descending<'a, R: Wait>(&'a self, rt: &'a R, guard: Guard) -> Iter<'a, R, K, V>
        requires map { guard.book ≡ self.now }
        ensures { result ≡ iterated false guard [] (Some (0, 2 ^ 64 - 1)) }
    {
        self.walk(rt, guard, false, (0, u64::MAX))
    }

    /// The pairs with keys, by numbers, from `first` to `last`, both included, keys ascending, by this guard.
    pub fn iter_range_inclusive<'a, R: Wait>(
        &'a self,
        rt: &'a R,
        guard: Guard,
        first: &K,
        last: &K,
    ) -> Iter<'a, R, K, V>
        requires map { guard.book ≡ self.now }
        ensures { result ≡ iterated true guard [] (Some (K.number first.now, K.number last.now)) }
    {
        self.walk(rt, guard, true, (first.into_u64(), last.into_u64()))
    }

    /// The pairs with keys, by numbers, from `last` down to `first`, both included, by this guard.
    pub fn iter_range_descending<'a, R: Wait>(
        &'a self,
        rt: &'a R,
        guard: Guard,
        first: &K,
        last: &K,
    ) -> Iter<'a, R, K, V>
        requires map { guard.book ≡ self.now }
        ensures { result ≡ iterated false guard [] (Some (K.number first.now, K.number last.now)) }
    {
        self.walk(rt, guard, false, (first.into_u64(), last.into_u64()))
    }

    // The pairs between two keys, both included.
    fn walk<'a, R: Wait>(
        &'a self,
        rt: &'a R,
        guard: Guard,
        up: bool,
        ends: (u64, u64),
    ) -> Iter<'a, R, K, V>
        requires map { guard.book ≡ self.now }
        ensures { result ≡ iterated up guard [] (Some ends) }
    {
        Iter {
            rt,
            map: self,
            guard,
            up,
            page: Page::new(),
            unread: Some(ends),
        }
    }
}
