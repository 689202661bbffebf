//! A new key's pair where a prefix differs: a node of two children takes the place of a pair, or of a node.
//!
//! A node that is split keeps its slot, since its pairs are seen under that. The new node above gets a free one.
//!
//! Tested in `test_owned` and `tools/dev/try-commands`.

ghost use Rattle.std.specs.Prelude.{◌≡◌, ◌≢◌, ℕ, ◌+◌, ◌<◌, [], ◌∷◌, take};
ghost use Rattle.spec_map.specs.Map.{put};
ghost use Rattle.node_base.specs.declared.base_node.NodeType.TheVariants.{N4};
ghost use Rattle.tree_links.specs.LinkNode.{MayLink};
ghost use Rattle.tree_links.specs.PairCalls.{HasBelow};
ghost use Rattle.tree_links.specs.Places.{as_linked};
ghost use Rattle.tree_links.specs.SeenTable.{name_of, name_under};
ghost use Rattle.tree_links.specs.SameTree.{GoesOnAt};
ghost use Rattle.tree_links.specs.SplitsChild.{IsParted, SplitsChild};
ghost use Rattle.tree_links.specs.SplitsTree.{SplitsTree};

use crate::bytes::{first_byte, rest_of, whole_key};
use crate::link::Link;
use crate::linked_node::LinkedNode;
use crate::links::Links;
use crate::place::Linked;
use crate::slots::exchange_at;

// The node with two links, under different bytes.
fn with_both<P: Drop, N: LinkedNode<P>>(
    node: N,
    old_byte: u8,
    old: Link<P>,
    new_byte: u8,
    new: Link<P>,
) -> N
    requires empty { (N.node node).links ≡ [] }
    requires form { (N.node node).form ≡ N4 }
    requires apart { old_byte ≢ new_byte }
    requires old { MayLink (N.node node).prefix old }
    requires new { MayLink (N.node node).prefix new }
    ensures both { N.node result
        ≡ record (N.node node) { links = put ((old_byte, old) ∷ []) new_byte new } }
    ensures old_fits { old_byte < 256 }
    ensures new_fits { new_byte < 256 }
{
    let mut node = node;
    node.insert(old_byte, old, None);
    node.insert(new_byte, new, None);
    node
}

impl<P: Drop> Links<P> {
    /// Puts a node of two pairs in the place of a pair, under this byte of the inner node in a slot: of that pair, and
    /// of a new key, which leaves the first seven bytes of its key at this place. `upper` is that node, still empty.
    /// Returns its slot. Takes no memory.
    pub fn split_pair(
        &mut self,
        slot: usize,
        byte: u8,
        key: &[u8; 8],
        at: usize,
        upper: Linked<P>,
        payload: P,
    ) -> usize
        requires below { HasBelow self.old.table (name_of slot) byte (name_under slot byte) }
        requires parted { IsParted self.old.table (name_under slot byte) key.now at }
        requires upper { as_linked upper ≡ record { form = N4; prefix = take at key.now; links = [] } }
        requires free { 1 < self.old.free }
        ensures splits { SplitsChild self.old.table self.new.table (name_of slot) byte
            (name_under slot byte) (name_of result) key.now at payload }
        ensures tree { (root : ℕ)
            → GoesOnAt self.old.table root key.now (name_of slot) byte
            → SplitsTree self.old.table self.new.table root (name_under slot byte)
            key.now at payload }
        ensures free { self.new.free + 2 ≡ self.old.free }
    {
        let first = first_byte(&self.nodes, slot, byte);
        let above = self.nodes.vacant_key();
        let link = exchange_at(&mut self.nodes, slot, byte, Link::Slot(above));
        match link {
            Link::Pair(rest, before) => {
                let other = whole_key(first, &rest);
                let old = Link::Pair(rest, before);
                let new = Link::Pair(rest_of(key), payload);
                let node = with_both(upper, other[at], old, key[at], new);
                self.nodes.insert_reserved(node);
                self.pairs += 1;
                above
            }
            _ => unreachable!(),
        }
    }

    /// Puts a node above the one in a slot, which is under this byte of the one in the slot `parent`: it has that node,
    /// and the pair of a new key, which leaves that node's prefix at this place. `upper` is the new node, still empty.
    /// Returns its slot. Takes no memory.
    pub fn split_above(
        &mut self,
        parent: usize,
        byte: u8,
        slot: usize,
        key: &[u8; 8],
        at: usize,
        upper: Linked<P>,
        payload: P,
    ) -> usize
        requires below { HasBelow self.old.table (name_of parent) byte (name_of slot) }
        requires apart { slot ≢ parent }
        requires parted { IsParted self.old.table (name_of slot) key.now at }
        requires upper { as_linked upper ≡ record { form = N4; prefix = take at key.now; links = [] } }
        requires free { 1 < self.old.free }
        ensures splits { SplitsChild self.old.table self.new.table (name_of parent) byte
            (name_of slot) (name_of result) key.now at payload }
        ensures tree { (root : ℕ)
            → GoesOnAt self.old.table root key.now (name_of parent) byte
            → SplitsTree self.old.table self.new.table root (name_of slot)
            key.now at payload }
        ensures free { self.new.free + 2 ≡ self.old.free }
    {
        let Some(old) = self.nodes.get(slot) else {
            unreachable!()
        };
        let prefix = LinkedNode::base(old).prefix();
        let old_byte = prefix[at];
        let above = self.nodes.vacant_key();
        exchange_at(&mut self.nodes, parent, byte, Link::Slot(above));
        let new = Link::Pair(rest_of(key), payload);
        let node = with_both(upper, old_byte, Link::Slot(slot), key[at], new);
        self.nodes.insert_reserved(node);
        self.pairs += 1;
        above
    }
}
