//! Insertions of many pairs, one after another. The leaf where one pair went is remembered, and a key that belongs to it,
//! too, takes no descent: so dense keys that ascend descend a few times for each leaf.
//!
//! Tested in `test_owned/bulk`.

ghost use Rattle.std.specs.Prelude.{◌≡◌, ◌<◌, fold, take, IfOk, IfErr, OnOk, OnErr, slice_get, IsSomeAnd};
ghost use Rattle.std.specs.Int.{from_be_bytes, w64};
ghost use Rattle.spec_map.specs.Map.{put};
ghost use Rattle.spec_map.specs.Refusal.{NeedsNode};
ghost use Rattle.tree_path.specs.inner.Descent.{SeeksTo};
ghost use Rattle.tree_path.specs.inner.Root.{HasTree, tree_pairs};
ghost use Rattle.tree_path.specs.inner.Supply.{Alike};
ghost use Rattle.tree_edit.specs.Tree.{ChargesForNodes};
ghost use Rattle.tree_edit.specs.inner.Beside.{IsReached, Puts, Refuses};
ghost use Rattle.tree_edit.specs.inner.Whole.{IsWhole};
ghost use Rattle.tree_links.specs.SeenTable.{name_of};
ghost use Rattle.tree_links.specs.Seeks.{seen_end, KnowsPair};
ghost use Rattle.tree_edit.specs.inner.Kept.{at_end, IsTop, IsKept};

use crate::insertion::{make_ready, put, set_payload};
use crate::tree::{Nodes, Tree};
use node_table::allocator::Allocator;
use spec_map::error::OOMError;
use spec_map::traits::Word;
use std::marker::Brand;
use std::sync::ledger::{Blank, Ledger};
use tree_links::descent::{LinkEnd, LinkStop};
use tree_links::link::LinkMeeting;
use tree_links::linked_node::LinkedNode;
use tree_path::reads::ReadCount;
use tree_path::supply::Supply;

// The root, which is on each key's path.
fn top(root: usize) -> LinkEnd
    ensures { IsTop root result }
{
    LinkEnd {
        slot: root,
        parent: root,
        above: 0,
        stop: LinkStop::Absent(0),
    }
}

// What is remembered of the end of a descent: the leaf, if it has a slot, and else the root.
#[inline(always)]
fn kept(spot: LinkEnd, root: usize) -> LinkEnd
    ensures { IsKept root spot spot.stop result }
{
    match spot.stop {
        LinkStop::Leaf(_) => spot,
        _ => top(root),
    }
}

// Where the key's descent ends: in the remembered node, if that is the key's leaf.
#[inline(always)]
fn end_of<L: Ledger, P: Drop>(
    nodes: &Nodes<P>,
    root: usize,
    last: &LinkEnd,
    key: &[u8; 8],
    blank: Blank,
) -> LinkEnd
    requires name { blank.name ≡ L.name }
    requires parts { blank.parts ≡ L.parts }
    requires some { 0 < blank.parts }
    requires tree { HasTree nodes.now.table (name_of root) }
    requires last { IsReached nodes.now.table (name_of root) (at_end last.now) }
    ensures ends { SeeksTo nodes.now.table (name_of root) key.now (seen_end key.now result) }
    ensures pair { KnowsPair nodes.now.table key.now result }
{
    let word = u64::from_be_bytes(*key);
    match nodes.node(last.slot).meet(key, word) {
        LinkMeeting::Leaf => LinkEnd {
            slot: last.slot,
            parent: last.parent,
            above: last.above,
            stop: LinkStop::Leaf(key[7]),
        },
        _ => {
            let mut reads = ReadCount::<L>::new(blank);
            nodes.seek(root, key, &mut reads)
        }
    }
}

// Inserts a pair into the parts of a tree, where its key's descent ended. Returns the node to remember: the key's leaf, if
// it had a slot and room, or else the root.
#[inline(always)]
fn insert_at<A: Allocator>(
    nodes: &mut Nodes<u64>,
    supply: &mut Supply<A>,
    root: usize,
    count: &mut u128,
    spot: LinkEnd,
    key: &[u8; 8],
    payload: u64,
) -> Result<LinkEnd, OOMError>
    requires whole { IsWhole nodes.old.table (name_of root) supply.old.forms count.old }
    requires ends { SeeksTo nodes.old.table (name_of root) key.now (seen_end key.now spot) }
    requires pair { KnowsPair nodes.old.table key.now spot }
    ensures ok { let number = from_be_bytes w64 key.now in IfOk result (λ last.
        Puts A.charge nodes.old.table supply.old (name_of root) number payload
        (at_end last) nodes.new.table supply.new count.new) }
    ensures err { let number = from_be_bytes w64 key.now in OnErr result
        (Refuses A.charge nodes.old.table supply.old (name_of root) number
        nodes.new.table supply.new count.new) }
{
    match set_payload(nodes, &spot, key, payload) {
        Ok(Some(_)) => Ok(kept(spot, root)),
        Ok(None) => {
            *count += 1;
            Ok(kept(spot, root))
        }
        Err(payload) => {
            let ready = make_ready(nodes, supply, &spot, key)?;
            put(nodes, ready, key, payload);
            *count += 1;
            Ok(top(root))
        }
    }
}

// Inserts a pair into the parts of a tree: at the remembered leaf, if it is the key's, or from the root. Returns the node
// to remember.
#[inline(always)]
fn insert_next<A: Allocator>(
    nodes: &mut Nodes<u64>,
    supply: &mut Supply<A>,
    root: usize,
    count: &mut u128,
    last: &LinkEnd,
    key: u64,
    payload: u64,
) -> Result<LinkEnd, OOMError>
    requires whole { IsWhole nodes.old.table (name_of root) supply.old.forms count.old }
    requires last { IsReached nodes.old.table (name_of root) (at_end last.now) }
    ensures ok { IfOk result (λ last.
        Puts A.charge nodes.old.table supply.old (name_of root) key payload
        (at_end last) nodes.new.table supply.new count.new) }
    ensures err { OnErr result
        (Refuses A.charge nodes.old.table supply.old (name_of root) key
        nodes.new.table supply.new count.new) }
{
    let key = key.to_be_bytes();
    let spot = end_of::<Brand, u64>(nodes, root, last, &key, Blank::new(1));
    insert_at(nodes, supply, root, count, spot, &key, payload)
}

// Inserts the pairs into the parts of a tree, in their order. Returns as `Err` how many were inserted before one was
// refused.
fn insert_all<K: Word, V: Word, A: Allocator>(
    nodes: &mut Nodes<u64>,
    supply: &mut Supply<A>,
    root: usize,
    count: &mut u128,
    pairs: &[(K, V)],
) -> Result<(), usize>
    requires whole { IsWhole nodes.old.table (name_of root) supply.old.forms count.old }
    ensures whole { IsWhole nodes.new.table (name_of root) supply.new.forms count.new }
    ensures ok { OnOk result (tree_pairs nodes.new.table (name_of root)
        ≡ fold (λ es e. put es (K.number e.0) (V.number e.1))
        (tree_pairs nodes.old.table (name_of root)) pairs.now) }
    ensures err { IfErr result (λ inserted. tree_pairs nodes.new.table (name_of root)
        ≡ fold (λ es e. put es (K.number e.0) (V.number e.1))
        (tree_pairs nodes.old.table (name_of root)) (take inserted pairs.now)) }
    ensures refused { IfErr result (λ inserted. IsSomeAnd (slice_get pairs.now inserted)
        (λ e. NeedsNode (tree_pairs nodes.new.table (name_of root)) (K.number e.0))) }
    ensures alike { Alike A.charge supply.old supply.new }
{
    let mut last = top(root);
    for (inserted, (key, value)) in pairs.iter().enumerate() {
        let number = key.into_u64();
        match insert_next(nodes, supply, root, count, &last, number, value.into_u64()) {
            Ok(reached) => last = reached,
            Err(_) => return Err(inserted),
        }
    }
    Ok(())
}

impl<A: Allocator> Tree<u64, A> {
    /// Inserts the pairs in their order, so of two with one key the later one counts. Where a pair is refused, returns as
    /// `Err` how many were inserted before it, which stay.
    ///
    /// Takes memory, and is refused it, where an insertion of the pair by itself would be. A pair whose leaf is that of
    /// the pair before takes no descent, unless the leaf was made, or grew, or got a slot for that one.
    pub fn insert_many<K: Word, V: Word>(&mut self, pairs: &[(K, V)]) -> Result<(), usize>
        ensures ok { OnOk result (self.new.pairs
            ≡ fold (λ es e. put es (K.number e.0) (V.number e.1)) self.old.pairs pairs.now) }
        ensures err { IfErr result (λ inserted. self.new.pairs
            ≡ fold (λ es e. put es (K.number e.0) (V.number e.1)) self.old.pairs
            (take inserted pairs.now)) }
        ensures refused { IfErr result (λ inserted. IsSomeAnd (slice_get pairs.now inserted)
            (λ e. NeedsNode self.new.pairs (K.number e.0))) }
        ensures charge { ChargesForNodes A.charge self.old self.new }
    {
        insert_all(
            &mut self.nodes,
            &mut self.supply,
            self.root,
            &mut self.count,
            pairs,
        )
    }
}
