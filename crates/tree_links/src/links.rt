//! The table of links: its nodes in a slab, and how many pairs are in the places of children.
//!
//! A slot is kept free for each of these pairs. So a pair can always get a slot, without memory. `reserve` takes the
//! memory, and the calls that add nodes and pairs take none.
//!
//! Tested in `test_owned` and `tools/dev/try-commands`.

ghost use Rattle.std.specs.Prelude.{◌≡◌, ◌≢◌, ℕ, ◌+◌, ◌<◌, ◌≤◌, [], Some, None, IsOk, IsSome, OnErr, OnOk, option_copied};
ghost use Rattle.std.specs.Option.{option_map};
ghost use Rattle.node_table.specs.Table.{node_at};
ghost use Rattle.tree_links.specs.LosesNode.{IsEmptyAt, LosesNode};
ghost use Rattle.tree_links.specs.OtherForm.{GrowsNode, HasFewAt, ShrinksNode};
ghost use Rattle.tree_links.specs.PairCalls.{HasBelow};
ghost use Rattle.tree_links.specs.Places.{as_linked};
ghost use Rattle.tree_links.specs.SeenTable.{name_of, name_under, pair_in, seen_node};

use crate::linked_node::LinkedNode;
use crate::place::Linked;
use crate::slots::{grow_at, reserve_slots, shrink_at, take_at};
use node_base::base_node::NodeType;
use slab::Slab;
use spec_map::error::OOMError;
use std::alloc::Global;
use std::marker::Model;

/// Nodes by slots, where a leaf with one pair is in its parent.
///
/// Contracts see the table of nodes in which each such leaf has a place of its own, and how many nodes or pairs can be
/// added without memory.
#[derive(Drop)]
pub struct Links<P: Drop> {
    pub(crate) nodes: Slab<Linked<P>>,
    /// How many pairs are in the places of children.
    pub(crate) pairs: usize,
}

impl<P: Drop> Model for Links<P> {
    ghost use Rattle.std.specs.Prelude.{◌≡◌, ◌+◌, ◌-◌, ◌<◌, ◌≤◌, ◌^◌};
    ghost use Rattle.slab.specs.Slab.{slab_len};
    ghost use Rattle.tree_links.specs.LinksView.{LinksView, links_code};
    ghost use Rattle.tree_links.specs.Places.{as_linked};
    ghost use Rattle.tree_links.specs.SeenTable.{links_of, seen_table};
    ghost use Rattle.tree_links.specs.inner.Pairs.{pairs_in_table};

    ghost Value = { LinksView P };

    ghost coded = { links_code P.code };

    ghost view = { λ t. record {
      table = seen_table (links_of as_linked t.nodes.slots);
      free = t.nodes.capacity - (slab_len t.nodes + t.pairs);
    } };

    ghost invariant = { λ t. (t.pairs ≡ pairs_in_table (links_of as_linked t.nodes.slots))
        × (slab_len t.nodes + t.pairs ≤ t.nodes.capacity)
        × (t.nodes.capacity < 2 ^ 64) };
}

impl<P: Drop> Links<P> {
    /// A table without nodes.
    pub fn new(alloc: Global) -> Self
        ensures { result ≡ record { table = []; free = 0 } }
    {
        Links {
            nodes: Slab::new(alloc),
            pairs: 0,
        }
    }

    /// Takes memory for so many nodes or pairs more; a refusal only for lack of it.
    ///
    /// Where it takes some, it takes as much for an eighth of what there is room for, too, unless that is refused.
    pub fn reserve(&mut self, more: usize) -> Result<(), OOMError>
        ensures table { self.new.table ≡ self.old.table }
        ensures free { self.old.free ≤ self.new.free }
        ensures ok { OnOk result (more ≤ self.new.free) }
        ensures had { more ≤ self.old.free → IsOk result }
    {
        let Some(kept) = self.pairs.checked_add(more) else {
            return Err(OOMError::new());
        };
        let room = self.nodes.capacity();
        if kept <= room - self.nodes.len() {
            return Ok(());
        }
        let reserved = reserve_slots(&mut self.nodes, kept, room / 8);
        // (for the proof: brings the capacity's bound into scope)
        let _ = self.nodes.capacity();
        reserved?;
        Ok(())
    }

    /// Gives the memory of the free slots past the last node back to the machine, where no pair is in its parent: for
    /// each such pair one is kept. No slot changes.
    pub fn shrink_to_fit(&mut self)
        ensures { (slot : ℕ) → node_at self.new.table slot ≡ node_at self.old.table slot }
    {
        if self.pairs == 0 {
            self.nodes.shrink_to_fit();
            // (for the proof: brings the capacity's bounds into scope)
            let _ = self.nodes.capacity();
        }
    }

    /// The node in a slot.
    pub fn get(&self, slot: usize) -> Option<&Linked<P>>
        ensures node { option_map (λ n. seen_node slot (as_linked n)) (option_copied result)
            ≡ node_at self.now.table (name_of slot) }
        ensures pairs { (byte : ℕ) → byte < 256
            → pair_in (option_map as_linked (option_copied result)) byte
            ≡ node_at self.now.table (name_under slot byte) }
    {
        self.nodes.get(slot)
    }

    /// Adds a node without links, and returns its slot.
    pub fn add(&mut self, node: Linked<P>) -> usize
        requires empty { (as_linked node).links ≡ [] }
        requires free { 0 < self.old.free }
        ensures fresh { node_at self.old.table (name_of result) ≡ None }
        ensures is { node_at self.new.table (name_of result)
            ≡ Some (seen_node result (as_linked node)) }
        ensures others { (o : ℕ) → o ≢ name_of result
            → node_at self.new.table o ≡ node_at self.old.table o }
        ensures free { self.new.free + 1 ≡ self.old.free }
    {
        self.nodes.insert_reserved(node)
    }

    /// Takes the node in a slot, which is empty, out of its parent, where it is under this byte, and frees the slot.
    /// Returns the node's form.
    pub fn take_slot(&mut self, parent: usize, byte: u8, slot: usize) -> NodeType
        requires below { HasBelow self.old.table (name_of parent) byte (name_of slot) }
        requires empty { IsEmptyAt self.old.table (name_of slot) }
        ensures loses { LosesNode self.old.table self.new.table (name_of parent) byte
            (name_of slot) result }
        ensures free { self.new.free ≡ self.old.free + 1 }
    {
        let node = self.nodes.remove(slot);
        take_at(&mut self.nodes, parent, byte);
        LinkedNode::base(&node).get_type()
    }

    /// Puts the node in a slot into its next form; the largest stays. A refusal only for lack of memory, which changes
    /// nothing.
    pub fn grow(&mut self, slot: usize, alloc: Global) -> Result<(), OOMError>
        requires { IsSome (node_at self.old.table (name_of slot)) }
        ensures ok { OnOk result (GrowsNode self.old.table self.new.table (name_of slot)) }
        ensures err { OnErr result (self.new.table ≡ self.old.table) }
        ensures free { self.new.free ≡ self.old.free }
    {
        grow_at(&mut self.nodes, slot, alloc)?;
        Ok(())
    }

    /// Puts the node in a slot into its next smaller form, for which it has few enough links; the smallest stays. A
    /// refusal only for lack of memory, which changes nothing.
    pub fn shrink(&mut self, slot: usize, alloc: Global) -> Result<(), OOMError>
        requires { HasFewAt self.old.table (name_of slot) }
        ensures ok { OnOk result (ShrinksNode self.old.table self.new.table (name_of slot)) }
        ensures err { OnErr result (self.new.table ≡ self.old.table) }
        ensures free { self.new.free ≡ self.old.free }
    {
        shrink_at(&mut self.nodes, slot, alloc)?;
        Ok(())
    }
}
