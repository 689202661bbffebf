//! Walks over all pairs of a subtree, keys ascending.
//!
//! Tested in `test_owned` and `tools/dev/try-commands`.

ghost use Rattle.std.specs.Prelude.{◌≡◌, ◌++◌, map, vec_len, vec_capacity};
ghost use Rattle.tree_links.specs.SeenTable.{name_of};
ghost use Rattle.tree_walk.specs.Scan.{first_number, from_key};
ghost use Rattle.tree_walk.specs.inner.Scan.{HasSubtree, EachSubtree, KeysFit};

use crate::nearest::pair_from;
use spec_map::traits::Word;
use tree_links::bytes::pair_number;
use tree_links::link::LinkRef;
use tree_links::linked_node::LinkedNode;
use tree_links::links::Links;

/// Adds the keys of the subtree, read back from their numbers, to the end of a vector that has room for them.
pub fn push_keys<P: Drop, K: Word>(nodes: &Links<P>, slot: usize, keys: &mut Vec<K>)
    requires { KeysFit nodes.now.table (name_of slot) (vec_len keys.old) (vec_capacity keys.old) }
    ensures keys { EachSubtree nodes.now.table (name_of slot) (λ pairs.
        keys.new.items ≡ keys.old.items ++ map (λ pair. K.of_number pair.0) pairs) }
    ensures capacity { vec_capacity keys.new ≡ vec_capacity keys.old }
{
    let Some(node) = nodes.get(slot) else {
        unreachable!()
    };
    let base = LinkedNode::base(node);
    let first = base.first_key();
    let mut from = 0;
    'children: while let Some((byte, child)) = LinkedNode::first_from(node, from) {
        match child {
            LinkRef::Payload(_) => keys.push_reserved(K::from_u64(first + byte as u64)),
            LinkRef::Slot(below) => push_keys(nodes, below, keys),
            LinkRef::Pair(rest, _) => {
                keys.push_reserved(K::from_u64(pair_number(base, byte, rest)));
            }
        }
        from = byte as usize + 1;
    }
}

/// The least key of the subtree that isn't below `start`.
pub fn key_from<P: Drop>(nodes: &Links<P>, slot: usize, start: u64) -> Option<u64>
    requires { HasSubtree nodes.now.table (name_of slot) }
    ensures { EachSubtree nodes.now.table (name_of slot) (λ pairs.
        result ≡ first_number (from_key start pairs)) }
{
    let (key, _) = pair_from(nodes, slot, start)?;
    Some(key)
}
