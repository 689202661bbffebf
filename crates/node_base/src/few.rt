//! Up to four children in the node itself, so that a node with few takes no memory of its own.
//!
//! Tested in `congee_nodes`.

ghost use Rattle.std.specs.Prelude.{◌≡◌, ℕ, ◌+◌, ◌<◌, ◌≤◌, [], ◌++◌, length, option_copied, slice_get, slice_index_or, slice_set, vec_len, vec_capacity};
ghost use Rattle.std.specs.List.{insert, remove};
ghost use Rattle.node_base.specs.inner.Few.{listed};

use crate::row::add;
use std::mem;

/// Up to four children in a row: 40 bytes for children of 8 bytes.
#[derive(Drop)]
pub enum Few<C> {
    Zero,
    One(C),
    Two(C, C),
    Three(C, C, C),
    Four(C, C, C, C),
}

impl<C> Few<C> {
    /// The child at a place, or `None` past the last.
    pub fn get(&self, at: usize) -> Option<&C>
        ensures { option_copied result ≡ slice_get (listed self.now) at }
    {
        // (by the place first: one comparison with the number of children is left then, where a jump for each number
        // and place would be hard to foresee)
        if at < 2 {
            if at == 0 {
                match self {
                    Few::One(a) | Few::Two(a, _) | Few::Three(a, _, _) | Few::Four(a, _, _, _) => {
                        Some(a)
                    }
                    Few::Zero => None,
                }
            } else {
                match self {
                    Few::Two(_, b) | Few::Three(_, b, _) | Few::Four(_, b, _, _) => Some(b),
                    Few::Zero | Few::One(_) => None,
                }
            }
        } else if at == 2 {
            match self {
                Few::Three(_, _, c) | Few::Four(_, _, c, _) => Some(c),
                Few::Zero | Few::One(_) | Few::Two(..) => None,
            }
        } else {
            match self {
                Few::Four(_, _, _, d) if at == 3 => Some(d),
                _ => None,
            }
        }
    }
}

impl<C: Drop> Few<C> {
    /// Puts a child at a place, and moves those after it up.
    pub fn insert(&mut self, at: usize, child: C)
        requires place { at ≤ length (listed self.old) }
        requires room { length (listed self.old) < 4 }
        ensures { listed self.new ≡ insert (listed self.old) at child }
    {
        *self = match (mem::replace(self, Few::Zero), at) {
            (Few::Zero, _) => Few::One(child),
            (Few::One(a), 0) => Few::Two(child, a),
            (Few::One(a), _) => Few::Two(a, child),
            (Few::Two(a, b), 0) => Few::Three(child, a, b),
            (Few::Two(a, b), 1) => Few::Three(a, child, b),
            (Few::Two(a, b), _) => Few::Three(a, b, child),
            (Few::Three(a, b, c), 0) => Few::Four(child, a, b, c),
            (Few::Three(a, b, c), 1) => Few::Four(a, child, b, c),
            (Few::Three(a, b, c), 2) => Few::Four(a, b, child, c),
            (Few::Three(a, b, c), _) => Few::Four(a, b, c, child),
            (Few::Four(..), _) => unreachable!(),
        };
    }

    /// Puts another child at a place, and returns the one that was there.
    pub fn replace(&mut self, at: usize, child: C) -> C
        requires place { at < length (listed self.old) }
        ensures value { result ≡ slice_index_or (listed self.old) at result }
        ensures after { listed self.new ≡ slice_set (listed self.old) at child }
    {
        match (self, at) {
            (Few::One(a), 0) => mem::replace(a, child),
            (Few::Two(a, _), 0) => mem::replace(a, child),
            (Few::Two(_, b), 1) => mem::replace(b, child),
            (Few::Three(a, _, _), 0) => mem::replace(a, child),
            (Few::Three(_, b, _), 1) => mem::replace(b, child),
            (Few::Three(_, _, c), 2) => mem::replace(c, child),
            (Few::Four(a, _, _, _), 0) => mem::replace(a, child),
            (Few::Four(_, b, _, _), 1) => mem::replace(b, child),
            (Few::Four(_, _, c, _), 2) => mem::replace(c, child),
            (Few::Four(_, _, _, d), 3) => mem::replace(d, child),
            _ => unreachable!(),
        }
    }

    /// Takes out the child at a place, and moves those after it down.
    pub fn remove(&mut self, at: usize) -> C
        requires place { at < length (listed self.old) }
        ensures value { result ≡ slice_index_or (listed self.old) at result }
        ensures after { listed self.new ≡ remove (listed self.old) at }
    {
        let (rest, child) = match (mem::replace(self, Few::Zero), at) {
            (Few::One(a), 0) => (Few::Zero, a),
            (Few::Two(a, b), 0) => (Few::One(b), a),
            (Few::Two(a, b), 1) => (Few::One(a), b),
            (Few::Three(a, b, c), 0) => (Few::Two(b, c), a),
            (Few::Three(a, b, c), 1) => (Few::Two(a, c), b),
            (Few::Three(a, b, c), 2) => (Few::Two(a, b), c),
            (Few::Four(a, b, c, d), 0) => (Few::Three(b, c, d), a),
            (Few::Four(a, b, c, d), 1) => (Few::Three(a, c, d), b),
            (Few::Four(a, b, c, d), 2) => (Few::Three(a, b, d), c),
            (Few::Four(a, b, c, d), 3) => (Few::Three(a, b, c), d),
            _ => unreachable!(),
        };
        *self = rest;
        child
    }

    /// Moves all children, in their order, to the end of a row with room for them.
    pub fn move_to(&mut self, row: &mut Vec<C>)
        requires room { vec_len row.old + length (listed self.old) ≤ vec_capacity row.old }
        ensures moved { row.new.items ≡ row.old.items ++ listed self.old }
        ensures none { listed self.new ≡ [] }
        ensures capacity { vec_capacity row.old ≤ vec_capacity row.new }
    {
        match mem::replace(self, Few::Zero) {
            Few::Zero => {}
            Few::One(a) => add(row, a),
            Few::Two(a, b) => {
                add(row, a);
                add(row, b);
            }
            Few::Three(a, b, c) => {
                add(row, a);
                add(row, b);
                add(row, c);
            }
            Few::Four(a, b, c, d) => {
                add(row, a);
                add(row, b);
                add(row, c);
                add(row, d);
            }
        }
    }
}
