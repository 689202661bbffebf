//! The pairs of a tree, taken out of it one by one.
//!
//! Tested in `test_owned` and `tools/dev/try-commands`.

ghost use Rattle.std.specs.Prelude.{◌≡◌};
ghost use Rattle.std.specs.Iterator.{YieldsFirst, item_count};

use crate::tree::RawCongee;
use node_table::allocator::Allocator;
use spec_map::payload::Payload;
use std::marker::Model;

/// The pairs of a tree by value, keys ascending, as numbers. Contracts see the list of those that are left.
///
/// A pair is removed from the tree when it is asked for, which takes no memory: no node shrinks. Each step reads one
/// path.
#[derive(Drop)]
pub struct IntoPairs<P: Payload, A: Allocator> {
    tree: RawCongee<P, A>,
}

impl<P: Payload, A: Allocator> Model for IntoPairs<P, A> {
    ghost use Rattle.std.specs.Coded.{coded×, coded_list, coded_ℕ};
    ghost use Rattle.spec_map.specs.Map.{Pairs};

    ghost Value = { Pairs P };

    ghost coded = { coded_list (coded× coded_ℕ P.code) };

    ghost view = { λ left. left.tree.pairs };
}

impl<P: Payload, A: Allocator> IntoPairs<P, A> {
    // All pairs of a tree.
    pub(crate) fn new(tree: RawCongee<P, A>) -> Self
        ensures { result ≡ tree.pairs }
    {
        IntoPairs { tree }
    }
}

impl<P: Payload, A: Allocator> Iterator for IntoPairs<P, A> {
    type Item = (u64, P);

    ghost next_gives = { YieldsFirst (λ left. left) };

    ghost remaining = { item_count (λ left. left) };

    fn next(&mut self) -> Option<(u64, P)> {
        let Some((key, payload)) = self.tree.pop_first_in_place() else {
            return None;
        };
        Some((key, payload))
    }
}
