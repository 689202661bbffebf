//! A pair that gets a slot, and a leaf of one pair that goes back into its parent.
//!
//! The first comes before a leaf's second pair, and the second after a removal that leaves one. Neither takes memory.
//!
//! Tested in `test_owned` and `tools/dev/try-commands`.

ghost use Rattle.std.specs.Prelude.{◌≡◌, ℕ, List, [], ◌∷◌};
ghost use Rattle.tree_links.specs.MovesNode.{MovesNode};
ghost use Rattle.tree_links.specs.PairCalls.{HasBelow, HasLeaf};
ghost use Rattle.tree_links.specs.declared.link.Link.TheVariants.{Payload};
ghost use Rattle.tree_links.specs.SameTree.{GoesOnAt, SameTree};
ghost use Rattle.tree_links.specs.SeenTable.{name_of, name_under};
ghost use Rattle.tree_links.specs.inner.Slots.{HasOnePayload};

use crate::bytes::{first_byte, rest_in_leaf, whole_key};
use crate::link::Link;
use crate::linked_node::LinkedNode;
use crate::links::Links;
use crate::place::Linked;
use crate::slots::exchange_at;

// The last byte and the payload of a leaf's only pair.
fn only_pair<P: Drop, N: LinkedNode<P>>(leaf: N) -> (u8, P)
    requires { HasOnePayload (N.node leaf) }
    ensures { (N.node leaf).links ≡ (result.0, Payload result.1) ∷ [] }
{
    let mut leaf = leaf;
    // (for the proof: brings the bytes' bounds into scope)
    let _ = leaf.base();
    let Some((byte, _)) = leaf.first_from(0) else {
        unreachable!()
    };
    match leaf.take(byte) {
        Some(Link::Payload(payload)) => (byte, payload),
        _ => unreachable!(),
    }
}

impl<P: Drop> Links<P> {
    /// Gives a slot to the leaf of a pair under a byte of the inner node in a slot, and returns it. Takes no memory.
    pub fn hoist(&mut self, slot: usize, byte: u8) -> usize
        requires { HasBelow self.old.table (name_of slot) byte (name_under slot byte) }
        ensures moves { MovesNode self.old.table self.new.table (name_of slot) byte
            (name_under slot byte) (name_of result) }
        ensures same { (root : ℕ) (key : List ℕ)
            → GoesOnAt self.old.table root key (name_of slot) byte
            → SameTree self.old.table self.new.table root }
        ensures free { self.new.free ≡ self.old.free }
    {
        let first = first_byte(&self.nodes, slot, byte);
        let below = self.nodes.vacant_key();
        let link = exchange_at(&mut self.nodes, slot, byte, Link::Slot(below));
        match link {
            Link::Pair(rest, payload) => {
                let key = whole_key(first, &rest);
                self.pairs -= 1;
                self.nodes
                    .insert_reserved(Linked::<P>::leaf_of(&key[..7], key[7], payload));
                below
            }
            _ => unreachable!(),
        }
    }

    /// Puts the leaf in a slot, of the smallest form and with one pair left, back into its parent, under this byte, and
    /// frees the slot.
    pub fn lower(&mut self, parent: usize, byte: u8, slot: usize)
        requires { HasLeaf self.old.table (name_of parent) byte (name_of slot) }
        ensures moves { MovesNode self.old.table self.new.table (name_of parent) byte
            (name_of slot) (name_under parent byte) }
        ensures same { (root : ℕ) (key : List ℕ)
            → GoesOnAt self.old.table root key (name_of parent) byte
            → SameTree self.old.table self.new.table root }
        ensures free { self.new.free ≡ self.old.free }
    {
        let leaf = self.nodes.remove(slot);
        let mut first = [0u8; 7];
        first.copy_from_slice(LinkedNode::base(&leaf).prefix());
        let (last, payload) = only_pair(leaf);
        let rest = rest_in_leaf(&first, last);
        exchange_at(&mut self.nodes, parent, byte, Link::Pair(rest, payload));
        self.pairs += 1;
    }
}
