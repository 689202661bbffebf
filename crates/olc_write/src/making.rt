//! Makes: private nodes, of which no other call knows. A refused Make frees all nodes that the call
//! has made.
//!
//! Tested in `tools/dev/try-schedules` and `test_olc/refusals`.

ghost use Rattle.std.specs.Prelude.{◌≡◌, ◌+◌, ◌≤◌, ◌↔◌, [], length, true};
ghost use Rattle.std.specs.Prelude.{IfNone, IfSome, IsTrue, None, Some};
ghost use Rattle.node_base.specs.declared.base_node.NodeType.TheVariants.{N4};
ghost use Rattle.node_base.specs.Form.{Fits};
ghost use Rattle.spec_map.specs.Map.{Rises, lookup, put};
ghost use Rattle.spec_node.specs.Key.{Begins, IsFirstDifference, next_byte};
ghost use Rattle.spec_node.specs.TableNode.{MayHave, looked_at};
ghost use Rattle.spec_olc.specs.Calls.{bytes_of, key_of};
ghost use Rattle.spec_olc.specs.Kinds.{report_of};
ghost use Rattle.spec_olc.specs.Meaning.{child_of};
ghost use Rattle.spec_olc.specs.declared.types.Env.{Env};
ghost use Rattle.olc_state.specs.inner.Meant.{meant_node};
ghost use Rattle.olc_state.specs.inner.Stocks.{IsStoreSound, KnowsAt, MovesBy};
ghost use Rattle.olc_state.specs.inner.TailFacts.{HasNewLeaf};
ghost use Rattle.olc_state.specs.inner.Tasks.{closed};
ghost use Rattle.olc_write.specs.inner.Makings.{AddsPrivate, AddsBuilt, ArePrivate, GivesUp};
ghost use Rattle.olc_write.specs.inner.Makings.{AreOfKind, IsBetween, IsCopy, IsGrownFor, IsLeafForTask};
ghost use Rattle.olc_write.specs.inner.Makings.{IsLeast, IsOwnOf, IsPrivate, next_make};

use crate::storing::share_stored;
use node_base::base_node::NodeSize;
use node_table::allocator::Allocator;
use node_table::tree_node::TreeNode;
use olc_state::stage::{Spot, Stage, Task};
use olc_state::stepped::{Stepped, going, node_at, refused};
use olc_state::stock::Stock;
use olc_state::tail::{Large, NodePair, Tail};
use spec_map::error::OOMError;
use spec_node::child::{Child, ChildRef};
use spec_olc::payload::HasMeaning;
use spec_olc::types::{Kind, Outcome, Progress, Report};
use std::alloc::Global;

// A call that has made a node.
fn makes<P>(tail: Tail, slot: usize) -> Stepped<P>
    ensures { result ≡ record {
      stage = Stage.Tail tail;
      report = report_of Kind.Make (Some slot) 0 true;
      outcome = Outcome.Going;
    } }
{
    let report = Report {
        kind: Kind::Make,
        slot: Some(slot),
        word: 0,
        ok: true,
    };
    going(Stage::Tail(tail), report)
}

// A call whose Make is refused: it only unlocks, and ends.
fn gives_up<P: Drop>(task: &mut Task<P>, tail: Tail) -> Stepped<P>
    ensures task { task.new ≡ closed Progress.Refused task.old }
    ensures event { result ≡ record {
      stage = Stage.Tail tail;
      report = report_of Kind.Make None 0 true;
      outcome = Outcome.Refused;
    } }
{
    let report = Report {
        kind: Kind::Make,
        slot: None,
        word: 0,
        ok: true,
    };
    refused(task, Stage::Tail(tail), report)
}

// Charges a node and puts it into a free slot. A refusal changes no node and no charge.
fn put_node<P: HasMeaning, A: Allocator>(
    stock: &mut Stock<P, A>,
    node: TreeNode<P>,
) -> Option<usize>
    requires { IsStoreSound P.meaning A.charge stock.old }
    ensures some { IfSome result (λ slot. AddsPrivate P.meaning A.charge stock.old stock.new slot
        (meant_node P.meaning node)) }
    ensures none { IfNone result (GivesUp P.meaning A.charge stock.old stock.new None) }
{
    let size = NodeSize::of(node.base().get_type());
    let Ok(()) = stock.budget.allocate(size) else {
        return None;
    };
    match stock.store.add(node) {
        Ok(slot) => Some(slot),
        Err(_) => {
            stock.budget.deallocate(size);
            None
        }
    }
}

// Frees a private node and uncharges its size.
fn take_node<P: HasMeaning, A: Allocator>(stock: &mut Stock<P, A>, slot: usize)
    requires kept { IsStoreSound P.meaning A.charge stock.old }
    requires private { IsPrivate P.meaning A.charge stock.old slot }
    ensures { GivesUp P.meaning A.charge stock.old stock.new (Some slot) }
{
    let node = stock.store.take_back(slot);
    let size = NodeSize::of(node.base().get_type());
    stock.budget.deallocate(size);
}

/// Puts the node that was built into a free slot. If none was built, or it is refused, frees the private node that the
/// call has made before.
pub fn make_node<P: HasMeaning, A: Allocator>(
    stock: &mut Stock<P, A>,
    built: Option<TreeNode<P>>,
    made: Option<usize>,
) -> Option<usize>
    requires kept { IsStoreSound P.meaning A.charge stock.old }
    requires private { ArePrivate P.meaning A.charge stock.old made }
    ensures some { IfSome result (λ slot.
        AddsBuilt P.meaning A.charge stock.old stock.new slot built) }
    ensures none { IfNone result (GivesUp P.meaning A.charge stock.old stock.new made) }
{
    if let Some(node) = built {
        if let Some(slot) = put_node(stock, node) {
            return Some(slot);
        }
    }
    if let Some(slot) = made {
        take_node(stock, slot);
    }
    None
}

// A leaf for the call's key, with a share of what it stores.
fn leaf_for<P: HasMeaning>(task: &Task<P>, alloc: Global) -> Option<TreeNode<P>>
    ensures { IfSome result (λ n. IsLeafForTask P.meaning task.now n) }
{
    let share = share_stored(task)?;
    let bytes = task.outline.key().to_be_bytes();
    let Ok(mut leaf) = TreeNode::leaf(alloc, &bytes[..7]) else {
        return None;
    };
    leaf.insert(bytes[7], Child::Payload(share));
    Some(leaf)
}

// What comes after a new leaf with both held.
fn after_leaf(pair: NodePair, large: Large, leaf: usize) -> Tail
    requires { HasNewLeaf large }
    ensures { result ≡ next_make pair large leaf }
{
    match large {
        Large::GrowLeaf | Large::Detach => unreachable!(),
        Large::GrowInner => Tail::Grow(pair, Some(leaf)),
        Large::Split => Tail::MakeMiddle(pair, leaf),
    }
}

// The first place at which the prefix, which doesn't begin the key, differs from it.
fn fork_at(prefix: &[u8], key: &[u8; 8]) -> usize
    requires short { length prefix.now ≤ 7 }
    requires apart { ¬ Begins prefix.now key.now }
    ensures { IsFirstDifference prefix.now key.now result }
{
    for i in 0..prefix.len() {
        if prefix[i] != key[i] {
            return i;
        }
    }
    unreachable!()
}

// The node that is put between: it has what the node's prefix and the key share, and leads to the
// node and to the leaf.
fn middle_for<P: HasMeaning>(
    node: &TreeNode<P>,
    key: u64,
    slot: usize,
    leaf: usize,
    alloc: Global,
) -> Option<TreeNode<P>>
    requires { ¬ Begins node.now.prefix (bytes_of key) }
    ensures { IfSome result (λ n. IsBetween P.meaning node.now n (bytes_of key) slot leaf) }
{
    let bytes = key.to_be_bytes();
    let prefix = node.base().prefix();
    let at = fork_at(prefix, &bytes);
    let Ok(mut middle) = TreeNode::inner(alloc, &prefix[..at]) else {
        return None;
    };
    middle.insert(prefix[at], Child::Node(slot));
    middle.insert(bytes[at], Child::Node(leaf));
    Some(middle)
}

// A copy of a child, with a share of its payload.
fn shared<P: HasMeaning>(child: ChildRef<'_, P>) -> Option<Child<P>>
    ensures { IfSome result (λ x.
        child_of P.meaning x ≡ child_of P.meaning (looked_at child.entry)) }
{
    match child {
        ChildRef::Node(slot) => Some(Child::Node(slot)),
        ChildRef::Payload(payload) => match payload.share() {
            Ok(share) => Some(Child::Payload(share)),
            Err(_) => None,
        },
    }
}

// Adds a child to a node of the least form, which grows if it has to; returns whether it could.
fn put_in<P: HasMeaning>(node: &mut TreeNode<P>, byte: u8, child: Child<P>, alloc: Global) -> bool
    requires absent { lookup node.old.children byte ≡ None }
    requires kind { MayHave node.old.prefix child }
    requires least { IsLeast node.old.form (length node.old.children) }
    ensures prefix { IsTrue result → node.new.prefix ≡ node.old.prefix }
    ensures children { IsTrue result → node.new.children ≡ put node.old.children byte child }
    ensures least { IsTrue result → IsLeast node.new.form (length node.old.children + 1) }
{
    if node.is_full() {
        let Ok(()) = node.grow(alloc) else {
            return false;
        };
    }
    node.insert(byte, child);
    true
}

// A node of the node's kind, without children.
fn empty_as<P: HasMeaning>(node: &TreeNode<P>, alloc: Global) -> Option<TreeNode<P>>
    ensures empty { IfSome result (λ n.
        n ≡ record { form = N4; prefix = node.now.prefix; children = [] }) }
    ensures ascending { Rises 0 256 node.now.children }
{
    let prefix = node.base().prefix();
    let made = if node.is_leaf() {
        TreeNode::leaf(alloc, prefix)
    } else {
        TreeNode::inner(alloc, prefix)
    };
    match made {
        Ok(empty) => Some(empty),
        Err(_) => None,
    }
}

/// A copy of the node in the least form, with a share of each payload.
pub fn copied<P: HasMeaning>(node: &TreeNode<P>, alloc: Global) -> Option<TreeNode<P>>
    requires { AreOfKind node.now }
    ensures { IfSome result (λ n. IsCopy P.meaning 256 node.now n) }
{
    let mut copy = empty_as(node, alloc)?;
    let mut from = 0;
    'children: while let Some((byte, child)) = node.first_from(from) {
        let child = shared(child)?;
        if !put_in(&mut copy, byte, child, alloc) {
            return None;
        }
        from = byte as usize + 1;
    }
    Some(copy)
}

// What the copy has under the key's byte: the new leaf, or a share of the payload that is stored.
fn own_child<P: HasMeaning>(task: &Task<P>, leaf: Option<usize>) -> Option<Child<P>>
    ensures { IfSome result (λ child. IsOwnOf P.meaning task.now leaf child) }
{
    match leaf {
        Some(leaf) => Some(Child::Node(leaf)),
        None => match share_stored(task) {
            Some(share) => Some(Child::Payload(share)),
            None => None,
        },
    }
}

// The byte under which a key goes on below a node.
fn byte_below<P: HasMeaning>(node: &TreeNode<P>, key: u64) -> u8
    ensures byte { result ≡ next_byte node.now.prefix (bytes_of key) }
    ensures short { length node.now.prefix ≤ 7 }
    ensures within { Fits node.now.form (length node.now.children) }
    ensures ascending { Rises 0 256 node.now.children }
{
    let bytes = key.to_be_bytes();
    bytes[node.base().prefix().len()]
}

// The larger copy of a full node, with one more child under the key's byte.
fn copy_for<P: HasMeaning>(
    node: &TreeNode<P>,
    task: &Task<P>,
    leaf: Option<usize>,
    alloc: Global,
) -> Option<TreeNode<P>>
    requires kinds { AreOfKind node.now }
    requires full { ¬ Fits node.now.form (length node.now.children + 1) }
    requires absent { lookup node.now.children
        (next_byte node.now.prefix (bytes_of (key_of task.now.outline))) ≡ None }
    requires kind { length node.now.prefix ≡ 7 ↔ (leaf ≡ None) }
    ensures { IfSome result (λ n. IsGrownFor P.meaning node.now n task.now leaf) }
{
    let byte = byte_below(node, task.outline.key());
    let child = own_child(task, leaf)?;
    let mut copy = copied(node, alloc)?;
    if put_in(&mut copy, byte, child, alloc) {
        Some(copy)
    } else {
        None
    }
}

/// Makes a leaf for the held inner node.
pub(crate) fn make_leaf<P: HasMeaning, A: Allocator>(
    stock: &mut Stock<P, A>,
    pin: u64,
    task: &mut Task<P>,
    spot: Spot,
) -> Stepped<P>
    requires kept { IsStoreSound P.meaning A.charge stock.old }
    requires facts { KnowsAt P.meaning A.charge P.always_shared P.same_meaning
        stock.old pin task.old (Tail.MakeLeaf spot) }
    ensures moves { (env : Env P) → MovesBy P.meaning A.charge P.always_shared
        P.same_meaning stock.old stock.new pin task.old (Tail.MakeLeaf spot) env
        (record { stage = result.stage; task = task.new }) result.report result.outcome }
{
    let built = leaf_for(task, stock.alloc);
    match make_node(stock, built, None) {
        Some(leaf) => makes(Tail::Link(spot, leaf), leaf),
        None => gives_up(task, Tail::Unlock(spot, None)),
    }
}

/// Makes a leaf, with both held.
pub(crate) fn make_leaf_below<P: HasMeaning, A: Allocator>(
    stock: &mut Stock<P, A>,
    pin: u64,
    task: &mut Task<P>,
    pair: NodePair,
    large: Large,
) -> Stepped<P>
    requires kept { IsStoreSound P.meaning A.charge stock.old }
    requires facts { KnowsAt P.meaning A.charge P.always_shared P.same_meaning
        stock.old pin task.old (Tail.MakeLeafBelow pair large) }
    ensures moves { (env : Env P) → MovesBy P.meaning A.charge P.always_shared
        P.same_meaning stock.old stock.new pin task.old (Tail.MakeLeafBelow pair large) env
        (record { stage = result.stage; task = task.new }) result.report result.outcome }
{
    let built = leaf_for(task, stock.alloc);
    match make_node(stock, built, None) {
        Some(leaf) => makes(after_leaf(pair, large, leaf), leaf),
        None => gives_up(task, Tail::UnlockBelow(pair)),
    }
}

/// Makes the larger copy, with a share of each payload and the new entry.
pub(crate) fn grow<P: HasMeaning, A: Allocator>(
    stock: &mut Stock<P, A>,
    pin: u64,
    task: &mut Task<P>,
    pair: NodePair,
    leaf: Option<usize>,
) -> Stepped<P>
    requires kept { IsStoreSound P.meaning A.charge stock.old }
    requires facts { KnowsAt P.meaning A.charge P.always_shared P.same_meaning
        stock.old pin task.old (Tail.Grow pair leaf) }
    ensures moves { (env : Env P) → MovesBy P.meaning A.charge P.always_shared
        P.same_meaning stock.old stock.new pin task.old (Tail.Grow pair leaf) env
        (record { stage = result.stage; task = task.new }) result.report result.outcome }
{
    let node = &node_at(&stock.store, pair.here.slot).node;
    let built = copy_for(node, task, leaf, stock.alloc);
    match make_node(stock, built, leaf) {
        Some(copy) => makes(Tail::Replace(pair, copy, leaf), copy),
        None => gives_up(task, Tail::UnlockBelow(pair)),
    }
}

/// Makes the node that is put between the parent and the node, for the new leaf.
pub(crate) fn make_middle<P: HasMeaning, A: Allocator>(
    stock: &mut Stock<P, A>,
    pin: u64,
    task: &mut Task<P>,
    pair: NodePair,
    leaf: usize,
) -> Stepped<P>
    requires kept { IsStoreSound P.meaning A.charge stock.old }
    requires facts { KnowsAt P.meaning A.charge P.always_shared P.same_meaning
        stock.old pin task.old (Tail.MakeMiddle pair leaf) }
    ensures moves { (env : Env P) → MovesBy P.meaning A.charge P.always_shared
        P.same_meaning stock.old stock.new pin task.old (Tail.MakeMiddle pair leaf) env
        (record { stage = result.stage; task = task.new }) result.report result.outcome }
{
    let node = &node_at(&stock.store, pair.here.slot).node;
    let built = middle_for(node, task.outline.key(), pair.here.slot, leaf, stock.alloc);
    match make_node(stock, built, Some(leaf)) {
        Some(middle) => makes(Tail::Insert(pair, middle, leaf), middle),
        None => gives_up(task, Tail::UnlockBelow(pair)),
    }
}
