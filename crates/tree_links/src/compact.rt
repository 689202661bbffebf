//! All nodes next to each other, in a table of as many slots as they and the pairs need.
//!
//! A slab gives up its end alone. So where few nodes are left in a large one they move into a new one, each link to a
//! slot gets the slot's new number, and the memory of the old slab goes back to the machine.
//!
//! Tested in `test_owned` and `tools/c/memory.c`.

ghost use Rattle.std.specs.Prelude.{◌≡◌, ◌+◌, ◌≤◌, [], length, slice_index, vec_capacity};
ghost use Rattle.slab.specs.Slab.{slab_len, HasRoomFor};
ghost use Rattle.tree_links.specs.SameTree.{MovesTree};
ghost use Rattle.tree_links.specs.SeenTable.{link_at, links_of, name_of};
ghost use Rattle.tree_links.specs.inner.Pairs.{pairs_in_table};
ghost use Rattle.tree_links.specs.inner.Compact.{GoesAllOver, GoesOver, Redirects, RedirectsEach, RedirectsIn};
ghost use Rattle.tree_links.specs.inner.Slots.{SameSlots};
ghost use Rattle.tree_path.specs.inner.Root.{HasTree};

use crate::link::{Link, LinkRef};
use crate::linked_node::LinkedNode;
use crate::links::Links;
use crate::slots::reserve_slots;
use slab::Slab;
use std::alloc::Global;

/// Fewer slots than some sixty aren't worth a move.
const FEW: usize = 16;

// Takes the node in a slot, if there is one, over into the other slab, and returns its slot there.
fn take_over<P: Drop, N: LinkedNode<P>>(
    nodes: &mut Slab<N>,
    others: &mut Slab<N>,
    slot: usize,
) -> usize
    requires room { HasRoomFor others.old (slab_len nodes.old) }
    ensures goes { GoesOver (links_of N.node nodes.old.slots) (links_of N.node nodes.new.slots)
        (links_of N.node others.old.slots) (links_of N.node others.new.slots) slot result }
    ensures pairs { pairs_in_table (links_of N.node nodes.new.slots)
        + pairs_in_table (links_of N.node others.new.slots)
        ≡ pairs_in_table (links_of N.node nodes.old.slots)
        + pairs_in_table (links_of N.node others.old.slots) }
    ensures len { slab_len nodes.new + slab_len others.new
        ≡ slab_len nodes.old + slab_len others.old }
    ensures capacity { others.new.capacity ≡ others.old.capacity }
{
    match nodes.try_remove(slot) {
        Some(node) => others.insert_reserved(node),
        None => 0,
    }
}

// Takes all nodes over into the other slab, which is empty, and writes down the slot of each there.
fn take_all_over<P: Drop, N: LinkedNode<P>>(
    nodes: &mut Slab<N>,
    others: &mut Slab<N>,
    slots: &mut Vec<usize>,
)
    requires empty { others.old.slots ≡ [] }
    requires room { HasRoomFor others.old (slab_len nodes.old) }
    requires none { slots.old.items ≡ [] }
    requires listed { nodes.old.capacity ≤ vec_capacity slots.old }
    ensures goes { GoesAllOver slots.new.items (links_of N.node nodes.old.slots)
        (links_of N.node others.new.slots) }
    ensures listed { length nodes.old.slots ≤ length slots.new.items }
    ensures pairs { pairs_in_table (links_of N.node others.new.slots)
        ≡ pairs_in_table (links_of N.node nodes.old.slots) }
    ensures len { slab_len others.new ≤ slab_len nodes.old }
    ensures capacity { others.new.capacity ≡ others.old.capacity }
{
    for slot in 0..nodes.capacity() {
        slots.push_reserved(take_over(nodes, others, slot));
    }
}

// The number that a slot has now. That of a slot past the end is of no account.
fn new_slot(slots: &[usize], slot: usize) -> usize
    ensures { result ≡ slice_index slots.now slot }
{
    match slots.get(slot) {
        Some(new) => *new,
        None => 0,
    }
}

// Gives the links of a node to slots the slots' new numbers.
fn redirect<P: Drop, N: LinkedNode<P>>(node: &mut N, slots: &[usize])
    ensures { Redirects slots.now (N.node node.old) (N.node node.new) }
{
    if node.is_leaf() {
        return;
    }
    // (for the proof: brings the order of the links into scope, here and at the end)
    let _ = node.base();
    let mut from = 0;
    'links: while let Some((byte, link)) = node.first_from(from) {
        from = byte as usize + 1;
        if let LinkRef::Slot(slot) = link {
            let _ = node.exchange(byte, Link::Slot(new_slot(slots, slot)));
        }
    }
    let _ = node.base();
}

// The same for the node in a slot, if there is one.
fn redirect_at<P: Drop, N: LinkedNode<P>>(nodes: &mut Slab<N>, slot: usize, slots: &[usize])
    ensures redirects { RedirectsIn slots.now (link_at (links_of N.node nodes.old.slots) slot)
        (link_at (links_of N.node nodes.new.slots) slot) }
    ensures others { SameSlots (links_of N.node nodes.old.slots)
        (links_of N.node nodes.new.slots) slot }
    ensures len { slab_len nodes.new ≡ slab_len nodes.old }
    ensures capacity { nodes.new.capacity ≡ nodes.old.capacity }
{
    let Some(node) = nodes.get_mut(slot) else {
        return;
    };
    redirect(node, slots);
}

// The same for all nodes.
fn redirect_all<P: Drop, N: LinkedNode<P>>(nodes: &mut Slab<N>, slots: &[usize])
    ensures redirects { RedirectsEach slots.now (links_of N.node nodes.old.slots)
        (links_of N.node nodes.new.slots) }
    ensures len { slab_len nodes.new ≡ slab_len nodes.old }
    ensures capacity { nodes.new.capacity ≡ nodes.old.capacity }
{
    for slot in 0..nodes.capacity() {
        redirect_at(nodes, slot, slots);
    }
}

impl<P: Drop> Links<P> {
    /// Gives the memory of free slots back to the machine, where more than an eighth of what nodes and pairs need is free
    /// beside that. Returns the slot that the root has then. Without memory for the smaller table it changes nothing.
    pub fn compact(&mut self, root: usize, alloc: Global) -> usize
        requires { HasTree self.old.table (name_of root) }
        ensures { MovesTree self.old.table self.new.table (name_of root) (name_of result) }
    {
        let kept = self.nodes.len() + self.pairs;
        if self.nodes.capacity() - kept <= kept / 8 {
            return root;
        }
        self.move_nodes(root, 0, alloc)
    }

    /// The same, where fewer than a quarter of the slots are needed. The smaller table has room for an eighth more. So work
    /// and memory for it are a constant part of those for the nodes that are gone.
    #[inline(always)]
    pub fn compact_if_sparse(&mut self, root: usize, alloc: Global) -> usize
        requires { HasTree self.old.table (name_of root) }
        ensures { MovesTree self.old.table self.new.table (name_of root) (name_of result) }
    {
        let kept = self.nodes.len() + self.pairs;
        if self.nodes.capacity() / 4 <= kept.saturating_add(FEW) {
            return root;
        }
        self.move_nodes(root, kept / 8, alloc)
    }

    // Moves all nodes into a new slab, with room for those and the pairs, and some to spare.
    fn move_nodes(&mut self, root: usize, spare: usize, alloc: Global) -> usize
        requires { HasTree self.old.table (name_of root) }
        ensures { MovesTree self.old.table self.new.table (name_of root) (name_of result) }
    {
        let mut others = Slab::new(alloc);
        let kept = self.nodes.len() + self.pairs;
        let Ok(()) = reserve_slots(&mut others, kept, spare) else {
            return root;
        };
        let Ok(mut slots) = Vec::with_capacity(alloc, self.nodes.capacity()) else {
            return root;
        };
        // (for the proof: brings the capacity's bound into scope)
        let _ = others.capacity();
        take_all_over(&mut self.nodes, &mut others, &mut slots);
        redirect_all(&mut others, slots.as_slice());
        self.nodes = others;
        new_slot(slots.as_slice(), root)
    }
}
