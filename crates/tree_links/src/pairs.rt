//! The calls for one pair that is alone in its leaf, in its parent.
//!
//! Tested in `test_owned` and `tools/dev/try-commands`.

ghost use Rattle.std.specs.Prelude.{◌≡◌, ◌+◌, ◌<◌, IfOk, IsSome};
ghost use Rattle.node_table.specs.Table.{node_at};
ghost use Rattle.tree_links.specs.PairCalls.{IsOpenFor, GetsLeaf, HasBelow, HasPair, ChangesLeaf, LosesLeaf};
ghost use Rattle.tree_links.specs.SeenTable.{name_of, name_under};
ghost use Rattle.tree_links.specs.Spares.{HasSpare, KeepsSpare};

use crate::bytes::{has_seven, rest_of};
use crate::link::Link;
use crate::linked_node::LinkedNode;
use crate::links::Links;
use crate::place::Place;
use crate::slots::{exchange_at, put_at, take_at};
use node_rows::spare::Spare;
use spec_map::error::OOMError;
use std::alloc::Global;

impl<P: Drop> Links<P> {
    /// The spare row for one pair more in the node in a slot, now or once it has grown. A refusal only for lack of
    /// memory.
    pub fn spare(&self, slot: usize, alloc: Global) -> Result<Spare<Place<P>>, OOMError>
        requires { IsSome (node_at self.now.table (name_of slot)) }
        ensures { IfOk result (λ spare. KeepsSpare self.now.table (name_of slot) spare) }
    {
        LinkedNode::spare(self.node(slot), alloc)
    }

    /// Puts a new key's pair under a byte of the inner node in a slot, which has room and nothing there: a leaf that
    /// takes no slot. Takes no memory but the spare row, which the node may need.
    pub fn add_pair(
        &mut self,
        slot: usize,
        byte: u8,
        key: &[u8; 8],
        payload: P,
        spare: Spare<Place<P>>,
    )
        requires open { IsOpenFor self.old.table (name_of slot) byte key.now }
        requires spare { HasSpare self.old.table (name_of slot) spare }
        requires free { 0 < self.old.free }
        ensures adds { GetsLeaf self.old.table self.new.table (name_of slot) byte
            (name_under slot byte) key.now payload }
        ensures free { self.new.free + 1 ≡ self.old.free }
    {
        put_at(
            &mut self.nodes,
            slot,
            byte,
            Link::Pair(rest_of(key), payload),
            spare,
        );
        self.pairs += 1;
    }

    /// Replaces the payload of a pair under a byte of the node in a slot, and returns the previous one.
    // (inline, as what it calls: the end of each insertion at a key whose pair is in its parent)
    #[inline(always)]
    pub fn change_pair(&mut self, slot: usize, byte: u8, key: &[u8; 8], payload: P) -> P
        requires { HasPair self.old.table (name_of slot) byte (name_under slot byte) key.now }
        ensures changes { ChangesLeaf self.old.table self.new.table (name_under slot byte) key.now
            result payload }
        ensures free { self.new.free ≡ self.old.free }
    {
        let link = Link::Pair(rest_of(key), payload);
        match exchange_at(&mut self.nodes, slot, byte, link) {
            Link::Pair(rest, before) => {
                has_seven(&rest);
                before
            }
            _ => unreachable!(),
        }
    }

    /// Takes the pair under a byte of the inner node in a slot out, and with it its leaf. Returns its payload.
    pub fn take_pair(&mut self, slot: usize, byte: u8) -> P
        requires { HasBelow self.old.table (name_of slot) byte (name_under slot byte) }
        ensures loses { LosesLeaf self.old.table self.new.table (name_of slot) byte
            (name_under slot byte) result }
        ensures free { self.new.free ≡ self.old.free + 1 }
    {
        let link = take_at(&mut self.nodes, slot, byte);
        self.pairs -= 1;
        match link {
            Link::Pair(_, before) => before,
            _ => unreachable!(),
        }
    }
}
