//! The least pair of a tree of numbers from a key on.
//!
//! Tested in `test_share_faces/upward`.

use crate::direct::Direct;
use node_table::allocator::Allocator;
use share_backend::ascending::{Ascending, Upward};
use share_backend::ordered::Ordered;

impl<A: Allocator> Ascending for Direct<u64, A> {
    fn upward(&self, place: Upward) -> Option<(u64, u64)> {
        self.law_contains();
        match place {
            Upward::First => self.first(),
            Upward::Ceiling(key) => self.ceiling(key),
            Upward::Above(key) => self.above(key),
        }
    }
}
