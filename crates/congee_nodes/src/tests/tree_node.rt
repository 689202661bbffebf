//! Both kinds of nodes of a table: each call once.

ghost use Rattle.std.specs.Prelude.{◌≡◌, [], ◌∷◌};
ghost use Rattle.node_base.specs.declared.base_node.NodeType.TheVariants.{N4};

use crate::base_node::NodeType;
use crate::child::{Child, ChildRef, Meeting};
use crate::error::OOMError;
use crate::tree_node::TreeNode;
use std::alloc::Global;
use std::mem::size_of;
use std::sync::Arc;
use std::test::Fail;

// Puts a payload into a leaf under a byte that has none; false where it can't be.
fn put(node: &mut TreeNode<u64>, byte: u8, payload: u64) -> bool {
    if !node.is_leaf() || node.is_full() {
        return false;
    }
    match node.get_child(byte) {
        Some(_) => false,
        None => {
            node.insert(byte, Child::Payload(payload));
            true
        }
    }
}

// The payload under a byte.
fn payload_at(node: &TreeNode<u64>, byte: u8) -> Option<u64> {
    match node.get_child(byte) {
        Some(ChildRef::Payload(payload)) => Some(*payload),
        _ => None,
    }
}

const PREFIX: [u8; 7] = [1, 2, 3, 4, 5, 6, 7];

const FIVE: [(u8, u64); 5] = [(0, 0), (1, 10), (2, 20), (3, 30), (4, 40)];

fn has_five(leaf: &TreeNode<u64>) -> bool {
    let base = leaf.base();
    base.get_type() == NodeType::N16
        && base.prefix() == PREFIX.as_slice()
        && base.value_count() == 5
        && payload_at(leaf, 3) == Some(30)
        && payload_at(leaf, 5).is_none()
}

// Puts five payloads into an empty leaf, and grows it where it is full. Whether it has them then.
fn grows_a_leaf(alloc: Global, leaf: &mut TreeNode<u64>) -> Result<bool, OOMError> {
    for (byte, payload) in FIVE {
        if leaf.is_full() {
            leaf.grow(alloc)?;
        }
        if !put(leaf, byte, payload) {
            return Ok(false);
        }
    }
    Ok(has_five(leaf))
}

fn grows_one(alloc: Global) -> Result<bool, OOMError> {
    let mut leaf = TreeNode::leaf(alloc, &PREFIX)?;
    grows_a_leaf(alloc, &mut leaf)
}

#[test]
fn leaf_grows_and_keeps_its_payloads(rt: HostRuntime) -> Result<(), Fail> {
    assert!(rt; grows_one(rt.alloc())?);
    Ok(())
}

// The last byte below this number that has a payload, by looking at each.
fn last_by_looks(leaf: &TreeNode<u64>, to: usize) -> Option<u8> {
    let mut last = None;
    for byte in 0..to.min(256) {
        if payload_at(leaf, byte as u8).is_some() {
            last = Some(byte as u8);
        }
    }
    last
}

// The byte of the last payload below this number, if the payload is the one that is under it.
fn last_payload(leaf: &TreeNode<u64>, to: usize) -> Option<u8> {
    match leaf.last_below(to.min(256)) {
        Some((byte, ChildRef::Payload(payload))) if payload_at(leaf, byte) == Some(*payload) => {
            Some(byte)
        }
        _ => None,
    }
}

fn has_last_payloads(leaf: &TreeNode<u64>) -> bool {
    for to in 0..257usize {
        if last_payload(leaf, to) != last_by_looks(leaf, to) {
            return false;
        }
    }
    true
}

// Fills an empty leaf byte by byte, in no order. Whether the last payload below each byte is found in each form.
fn finds_last_payloads(alloc: Global, leaf: &mut TreeNode<u64>) -> Result<bool, OOMError> {
    if !has_last_payloads(leaf) {
        return Ok(false);
    }
    for i in 0..256u64 {
        if leaf.is_full() {
            leaf.grow(alloc)?;
        }
        if !put(leaf, (i.wrapping_mul(167) % 256) as u8, i) {
            return Ok(false);
        }
        if matches!(i, 0 | 3 | 4 | 15 | 16 | 47 | 48 | 100 | 255) && !has_last_payloads(leaf) {
            return Ok(false);
        }
    }
    Ok(true)
}

fn finds_last_of_one(alloc: Global) -> Result<bool, OOMError> {
    let mut leaf = TreeNode::empty_leaf(&PREFIX);
    finds_last_payloads(alloc, &mut leaf)
}

#[test]
fn last_payload_in_each_form(rt: HostRuntime) -> Result<(), Fail> {
    assert!(rt; finds_last_of_one(rt.alloc())?);
    Ok(())
}

fn is_slot(child: Child<u64>, wanted: usize) -> bool {
    matches!(child, Child::Node(slot) if slot == wanted)
}

// Whether each call that looks finds this slot under 9, and none elsewhere.
fn has_slot(node: &TreeNode<u64>, wanted: usize) -> bool {
    matches!(node.get_child(9), Some(ChildRef::Node(slot)) if slot == wanted)
        && matches!(node.first_from(0), Some((9, ChildRef::Node(slot))) if slot == wanted)
        && node.first_from(10).is_none()
        && matches!(node.last_below(256), Some((9, ChildRef::Node(slot))) if slot == wanted)
        && node.last_below(9).is_none()
}

// Puts one slot in the place of another, and takes it out. Whether each call is right.
fn changes_a_slot(node: &mut TreeNode<u64>) -> bool
    requires { node.old ≡ record { form = N4; prefix = 1 ∷ []; children = [] } }
{
    node.insert(9, Child::Node(5));
    let right = [
        is_slot(node.change(9, Child::Node(6)), 5),
        has_slot(node, 6),
        is_slot(node.remove(9), 6),
        node.get_child(9).is_none(),
    ];
    right == [true; 4]
}

fn changes_slots(alloc: Global) -> Result<bool, OOMError> {
    let mut node = TreeNode::<u64>::inner(alloc, &[1])?;
    Ok(changes_a_slot(&mut node))
}

#[test]
fn inner_nodes_have_slots(rt: HostRuntime) -> Result<(), Fail> {
    assert!(rt; changes_slots(rt.alloc())?);
    Ok(())
}

type Pairs = TreeNode<u64, (u8, u64)>;

fn is_pair(child: Child<u64, (u8, u64)>, wanted: (u8, u64)) -> bool {
    matches!(child, Child::Node(pair) if pair == wanted)
}

// Whether each call that borrows finds this pair under 9, and none elsewhere.
fn has_pair(node: &Pairs, wanted: (u8, u64)) -> bool {
    matches!(node.get_child_ref(9), Some(ChildRef::Node(pair)) if *pair == wanted)
        && matches!(node.first_ref_from(0), Some((9, ChildRef::Node(pair))) if *pair == wanted)
        && matches!(node.last_ref_below(256), Some((9, ChildRef::Node(pair))) if *pair == wanted)
        && node.last_ref_below(9).is_none()
}

const KEY: [u8; 8] = [1, 9, 0, 0, 0, 0, 0, 0];

fn meets_pair(node: &Pairs, wanted: (u8, u64)) -> bool {
    matches!(node.meet_ref(&KEY, u64::from_be_bytes(KEY)), Meeting::Node(pair) if *pair == wanted)
}

// Puts one pair in the place of another, and takes it out. Whether each call is right.
fn changes_a_pair(node: &mut Pairs) -> bool
    requires { node.old ≡ record { form = N4; prefix = 1 ∷ []; children = [] } }
{
    node.insert(9, Child::Node((5, 50)));
    let right = [
        is_pair(node.change(9, Child::Node((6, 60))), (5, 50)),
        has_pair(node, (6, 60)),
        meets_pair(node, (6, 60)),
        is_pair(node.remove(9), (6, 60)),
        node.get_child_ref(9).is_none(),
    ];
    right == [true; 5]
}

#[test]
fn inner_nodes_may_have_others_than_slots(rt: HostRuntime) {
    assert!(rt; changes_a_pair(&mut Pairs::empty_inner(&[1])));
}

// Whether an empty tree's root is an inner node of the greatest form.
fn root_is_greatest(alloc: Global) -> Result<bool, OOMError> {
    let root = TreeNode::<u64>::root(alloc)?;
    Ok(root.base().get_type() == NodeType::N256 && !root.is_leaf())
}

#[test]
fn roots_have_room_for_each_byte(rt: HostRuntime) -> Result<(), Fail> {
    assert!(rt; root_is_greatest(rt.alloc())?);
    Ok(())
}

// A table's slot holds a node of payloads of 8 bytes in 64 bytes, its tag included, whatever the node's form and kind.
#[test]
fn slots_are_small(rt: HostRuntime) {
    let sizes = [
        size_of::<TreeNode<u64>>(),
        size_of::<Option<TreeNode<u64>>>(),
        size_of::<Option<TreeNode<Arc<u64>>>>(),
    ];
    assert!(rt; sizes == [56, 64, 64]);
}
