//! The pairs of a map, one by one, for `for` loops and the adapters of iterators. The payloads are borrowed in place.
//!
//! Tested in `test_owned/iterators`.

ghost use Rattle.std.specs.Prelude.{◌≡◌, ◌+◌, [], ◌∷◌, IfSome, IfNone, map as each};
ghost use Rattle.std.specs.Iterator.{YieldsFirstBy, item_count};
ghost use Rattle.congee_tree.specs.Bulk.{unread_pairs};
ghost use Rattle.spec_map.specs.Map.{between};

use super::PayloadCongee;
use congee_tree::tree::RawCongee;
use node_table::allocator::Allocator;
use spec_map::payload::Payload;
use spec_map::traits::Word;
use std::marker::{Model, PhantomData};

/// The pairs of a range, keys ascending, each read back from its number, with its payload. Contracts see the list of
/// those that are left.
///
/// Each pair takes a path through the tree, and at most one that is a dead end. No memory is taken.
#[derive(Drop)]
pub struct Iter<'a, K: Word, P: Payload, A: Allocator> {
    tree: &'a RawCongee<P, A>,
    /// The least and the greatest key of the range that are left.
    unread: Option<(u64, u64)>,
    of: PhantomData<K>,
}

impl<'a, K: Word, P: Payload, A: Allocator> Model for Iter<'a, K, P, A> {
    ghost use Rattle.std.specs.Prelude.{List, map};
    ghost use Rattle.std.specs.Coded.{coded×, coded_list};
    ghost use Rattle.congee_tree.specs.Bulk.{unread_pairs};

    ghost Value = { List (K × P) };

    ghost coded = { coded_list (coded× K.code P.code) };

    ghost view = { λ left. map (λ pair. (K.of_number pair.0, pair.1))
        (unread_pairs left.tree.now.pairs left.unread) };
}

// The first pair of those that are left, which isn't left then.
fn next_pair<'a, P: Payload, A: Allocator>(
    tree: &'a RawCongee<P, A>,
    unread: &mut Option<(u64, u64)>,
) -> Option<(u64, &'a P)>
    ensures some { IfSome result (λ pair. unread_pairs tree.now.pairs unread.old
        ≡ (pair.0, pair.1.now) ∷ unread_pairs tree.now.pairs unread.new) }
    ensures none { IfNone result ((unread_pairs tree.now.pairs unread.old ≡ [])
        × (unread_pairs tree.now.pairs unread.new ≡ [])) }
{
    // For the proof: brings the order of the keys into scope.
    tree.law_ordered();
    let (start, last) = (*unread)?;
    *unread = None;
    let (key, payload) = tree.ceiling(start)?;
    if key > last {
        return None;
    }
    if key < last {
        *unread = Some((key + 1, last));
    }
    Some((key, payload))
}

impl<'a, K: Word, P: Payload, A: Allocator> Iterator for Iter<'a, K, P, A> {
    type Item = (K, &'a P);

    ghost next_gives = { YieldsFirstBy (λ item. (item.0, item.1.now)) (λ left. left) };

    ghost remaining = { item_count (λ left. left) };

    fn next(&mut self) -> Option<(K, &'a P)> {
        let (key, payload) = next_pair(self.tree, &mut self.unread)?;
        Some((K::from_u64(key), payload))
    }
}

impl<K: Word, P: Payload, A: Allocator> PayloadCongee<K, P, A> {
    /// All pairs, keys ascending, each read back from its number. Takes no memory.
    #[tactic(auto, using(crate::proofs::Left::all_left))]
    pub fn iter(&self) -> Iter<'_, K, P, A>
        ensures { result ≡ each (λ pair. (K.of_number pair.0, pair.1)) self.now.pairs }
    {
        // For the proof: brings the order of the keys into scope.
        self.tree.law_ordered();
        Iter {
            tree: &self.tree,
            unread: Some((0, u64::MAX)),
            of: PhantomData,
        }
    }

    /// The pairs with `start <= key < end`, keys ascending, each read back from its number. Takes no memory.
    #[tactic(auto, using(crate::proofs::Left::none_at_zero))]
    pub fn iter_range(&self, start: K, end: K) -> Iter<'_, K, P, A>
        ensures { result ≡ each (λ pair. (K.of_number pair.0, pair.1))
            (between self.now.pairs (K.number start) (K.number end)) }
    {
        let end = end.into_u64();
        let unread = if end == 0 {
            None
        } else {
            Some((start.into_u64(), end - 1))
        };
        Iter {
            tree: &self.tree,
            unread,
            of: PhantomData,
        }
    }

    /// The pairs with `start <= key <= last`, keys ascending, each read back from its number. Takes no memory.
    pub fn iter_range_inclusive(&self, start: K, last: K) -> Iter<'_, K, P, A>
        ensures { result ≡ each (λ pair. (K.of_number pair.0, pair.1))
            (between self.now.pairs (K.number start) (K.number last + 1)) }
    {
        Iter {
            tree: &self.tree,
            unread: Some((start.into_u64(), last.into_u64())),
            of: PhantomData,
        }
    }
}

impl<'a, K: Word, P: Payload, A: Allocator> IntoIterator for &'a PayloadCongee<K, P, A> {
    type Item = (K, &'a P);

    type IntoIter = Iter<'a, K, P, A>;

    ghost into_iter_gives = { λ congee left. left
        ≡ each (λ pair. (K.of_number pair.0, pair.1)) congee.now.pairs };

    fn into_iter(self) -> Iter<'a, K, P, A> {
        self.iter()
    }
}
