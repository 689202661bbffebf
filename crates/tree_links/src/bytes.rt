//! The bytes of keys that pairs have in part.
//!
//! Tested in `test_owned` and `tools/dev/try-commands`.

ghost use Rattle.std.specs.Prelude.{◌≡◌, ◌++◌, [], ◌∷◌, drop, length, IsSome, Some};
ghost use Rattle.spec_node.specs.Key.{key_number};
ghost use Rattle.tree_links.specs.LinkNode.{LinkNode};
ghost use Rattle.tree_links.specs.SeenTable.{key_under, links_of, link_at};

use crate::linked_node::LinkedNode;
use node_base::base_node::BaseNode;
use slab::Slab;

/// The key's bytes but the first.
pub(crate) fn rest_of(key: &[u8; 8]) -> [u8; 7]
    ensures { result ≡ drop 1 key.now }
{
    let [_, a, b, c, d, e, f, g] = *key;
    [a, b, c, d, e, f, g]
}

/// (for the proof alone: how many bytes there are)
#[inline(always)]
pub(crate) fn has_seven(rest: &[u8; 7])
    ensures { length rest.now ≡ 7 }
{}

/// The first byte of each key below a byte of the node in a slot.
pub(crate) fn first_byte<P: Drop, N: LinkedNode<P>>(nodes: &Slab<N>, slot: usize, byte: u8) -> u8
    requires { IsSome (link_at (links_of N.node nodes.now.slots) slot) }
    ensures { (n : LinkNode P) → link_at (links_of N.node nodes.now.slots) slot ≡ Some n
        → key_under n.prefix byte [] ≡ result ∷ [] }
{
    let Some(node) = nodes.get(slot) else {
        unreachable!()
    };
    first_under(node.base(), byte)
}

// The first byte of each key under a byte of the node with this base.
#[inline(always)]
fn first_under(base: &BaseNode, byte: u8) -> u8
    ensures { key_under base.now.prefix byte [] ≡ result ∷ [] }
{
    match base.prefix() {
        [] => byte,
        [first, ..] => *first,
    }
}

/// The number of the key of a pair under a byte of the node with this base.
#[inline(always)]
pub fn pair_number(base: &BaseNode, byte: u8, rest: &[u8; 7]) -> u64
    ensures number { result ≡ key_number (key_under base.now.prefix byte rest.now) }
    ensures seven { length rest.now ≡ 7 }
{
    let first = first_under(base, byte);
    let [a, b, c, d, e, f, g] = *rest;
    u64::from_be_bytes([first, a, b, c, d, e, f, g])
}

/// A key by its first byte and the others.
pub(crate) fn whole_key(first: u8, rest: &[u8; 7]) -> [u8; 8]
    ensures key { result ≡ first ∷ rest.now }
    ensures seven { length rest.now ≡ 7 }
{
    let [a, b, c, d, e, f, g] = *rest;
    [first, a, b, c, d, e, f, g]
}

/// The key's bytes but the first, by a leaf's prefix and the last byte.
pub(crate) fn rest_in_leaf(prefix: &[u8], last: u8) -> [u8; 7]
    requires { length prefix.now ≡ 7 }
    ensures { result ≡ drop 1 prefix.now ++ last ∷ [] }
{
    match prefix {
        [_, a, b, c, d, e, f] => [*a, *b, *c, *d, *e, *f, last],
        _ => unreachable!(),
    }
}
