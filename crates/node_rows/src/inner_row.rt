//! An inner node with a row, as a node of a tree in one table: what it does with its children, by the clauses that the
//! other forms have (`node_table::kinds`).
//!
//! Tested in `test_owned` and `tools/dev/try-commands`.

ghost use Rattle.std.specs.Prelude.{◌≡◌, ◌+◌, ◌<◌, ◌≤◌, [], ◌∷◌, length, IfOk, IfErr, OnOk, OnErr, IfSome, IfNone, Some, None};
ghost use Rattle.std.specs.Int.{w64, to_be_bytes};
ghost use Rattle.std.specs.Option.{option_map};
ghost use Rattle.spec_map.specs.Map.{lookup, between, Rises};
ghost use Rattle.spec_map.specs.Near.{below_of};
ghost use Rattle.node_base.specs.Form.{Fits};
ghost use Rattle.node_base.specs.Rest.{rest};
ghost use Rattle.node_base.specs.inner.Sorted.{pairs};
ghost use Rattle.node_table.specs.Children.{children_left, MayYield};
ghost use Rattle.node_table.specs.inner.Kinds.{inner_node, places, with_child, without_child};
ghost use Rattle.spec_node.specs.declared.child.Child.TheVariants.{Node};
ghost use Rattle.spec_node.specs.Meeting.{IsMet, met_at};
ghost use Rattle.spec_node.specs.TableNode.{MayHave, looked_at_ref};
ghost use Rattle.node_rows.specs.Spare.{IsSpareFor};
ghost use Rattle.node_rows.specs.inner.Rows.{row_node, IsInnerRow};
ghost use Rattle.node_rows.specs.inner.Steps.{IsHeadOf};

use crate::row_head::RowHead;
use crate::spare::{Spare, make_room};
use node_base::base_node::BaseNode;
use node_base::head::Head;
use node_base::iter::{Node16Iter, NodeIter};
use node_table::kinds::InnerHead;
use spec_node::child::{Child, ChildIter, ChildRef, Meeting};

/// What all forms have.
#[inline(always)]
pub(crate) fn base<'a, P, C: Drop>(head: &'a RowHead, row: &Vec<C>) -> &'a BaseNode
    requires { IsInnerRow head.now row.now }
    ensures prefix { result.now.prefix ≡ (row_node {P = P} head.now row.now).prefix }
    ensures count { result.now.count ≡ length (row_node {P = P} head.now row.now).children }
    ensures form { result.now.form ≡ (row_node {P = P} head.now row.now).form }
    ensures within { Fits (row_node {P = P} head.now row.now).form
        (length (row_node {P = P} head.now row.now).children) }
    ensures ascending { Rises 0 256 (row_node {P = P} head.now row.now).children }
{
    head.base_of(row)
}

/// What a key meets here, whose bytes are those of the word, most significant first.
#[inline(always)]
pub(crate) fn meet<'a, P, C: Drop>(
    head: &'a RowHead,
    row: &'a Vec<C>,
    key: &[u8; 8],
    word: u64,
) -> Meeting<&'a C>
    requires kind { IsInnerRow head.now row.now }
    requires word { to_be_bytes w64 word ≡ key.now }
    ensures { IsMet key.now (row_node {P = P} head.now row.now) (met_at result) }
{
    let base = head.base_of(row);
    if !base.begins(word) {
        return Meeting::Other;
    }
    match head.child(row, key[base.prefix().len()]) {
        Some(child) => Meeting::Node(child),
        None => Meeting::Nothing,
    }
}

/// What is under a byte, or `None`.
#[inline(always)]
pub(crate) fn get_child<'a, P, C: Drop>(
    head: &'a RowHead,
    row: &'a Vec<C>,
    byte: u8,
) -> Option<ChildRef<'a, P, &'a C>>
    requires { IsInnerRow head.now row.now }
    ensures { option_map looked_at_ref result
        ≡ lookup (row_node {P = P} head.now row.now).children byte }
{
    match head.child(row, byte) {
        Some(child) => Some(ChildRef::Node(child)),
        None => None,
    }
}

/// The first child whose byte isn't below `start`, and its byte.
#[inline(always)]
pub(crate) fn first_from<'a, P, C: Drop>(
    head: &'a RowHead,
    row: &'a Vec<C>,
    start: u8,
) -> Option<(u8, ChildRef<'a, P, &'a C>)>
    requires { IsInnerRow head.now row.now }
    ensures none { IfNone result
        (between (row_node {P = P} head.now row.now).children start 256 ≡ []) }
    ensures some { IfSome result (λ found.
        between (row_node {P = P} head.now row.now).children start 256
        ≡ (found.0, looked_at_ref found.1)
        ∷ between (row_node {P = P} head.now row.now).children (found.0 + 1) 256) }
    ensures order { IfSome result (λ found. start ≤ found.0) }
{
    match head.children(row, start, 255).next() {
        Some((byte, child)) => Some((byte, ChildRef::Node(child))),
        None => None,
    }
}

/// The last child whose byte is below `to`, and its byte.
#[inline(always)]
pub(crate) fn last_below<'a, P, C: Drop>(
    head: &'a RowHead,
    row: &'a Vec<C>,
    to: usize,
) -> Option<(u8, ChildRef<'a, P, &'a C>)>
    requires within { to ≤ 256 }
    requires kind { IsInnerRow head.now row.now }
    ensures { option_map (λ found. (found.0, looked_at_ref found.1)) result
        ≡ below_of (row_node {P = P} head.now row.now).children to }
{
    let Some(byte) = head.byte_below(row, to) else {
        return None;
    };
    match head.child(row, byte) {
        Some(child) => Some((byte, ChildRef::Node(child))),
        None => unreachable!(),
    }
}

// The children with `from <= byte < to`.
fn children_of<'a, C: Drop>(
    head: &'a RowHead,
    row: &'a Vec<C>,
    from: usize,
    to: usize,
) -> NodeIter<'a, C>
    requires node { IsHeadOf head.now row.now.items }
    requires within { to ≤ 256 }
    ensures { rest result ≡ between (pairs head.now.keys row.now.items) from to }
{
    if from >= to {
        return NodeIter::N16(Node16Iter {
            keys: &[],
            children: &[],
        });
    }
    head.children(row, from as u8, (to - 1) as u8)
}

/// The children with `from <= byte < to`, ascending.
#[inline(always)]
pub(crate) fn children_between<'a, P, C: Drop>(
    head: &'a RowHead,
    row: &'a Vec<C>,
    from: usize,
    to: usize,
) -> ChildIter<'a, P, C>
    requires within { to ≤ 256 }
    requires kind { IsInnerRow head.now row.now }
    ensures children { children_left result
        ≡ between (row_node {P = P} head.now row.now).children from to }
    ensures kind { MayYield (row_node {P = P} head.now row.now).prefix result }
{
    ChildIter::Nodes(children_of(head, row, from, to))
}

/// Adds a child under a byte that has none, in a node that isn't full. Takes no memory but the spare row.
pub(crate) fn insert<P: Drop, C: Drop>(
    head: &mut RowHead,
    row: &mut Vec<C>,
    byte: u8,
    child: Child<P, C>,
    spare: Spare<C>,
)
    requires absent { lookup (row_node {P = P} head.old row.old).children byte ≡ None }
    requires room { length (row_node {P = P} head.old row.old).children + 1 ≤ 48 }
    requires kind { IsInnerRow head.old row.old }
    requires may { MayHave (row_node {P = P} head.old row.old).prefix child }
    requires spare { IsSpareFor (length (row_node {P = P} head.old row.old).children) spare }
    ensures kind { IsInnerRow head.new row.new }
    ensures after { row_node {P = P} head.new row.new
        ≡ with_child (row_node head.old row.old) byte child }
{
    match child {
        Child::Node(place) => {
            // (for the proof: brings the number of children into scope)
            let _ = head.base_of(row);
            make_room(row, spare);
            head.add(row, byte, place);
        }
        Child::Payload(_) => unreachable!(),
    }
}

/// Replaces the child under a byte by another, and returns the previous one. If there is none, `Err` returns the new
/// child.
#[inline(always)]
pub(crate) fn exchange<P: Drop, C: Drop>(
    head: &mut RowHead,
    row: &mut Vec<C>,
    byte: u8,
    child: Child<P, C>,
) -> Result<Child<P, C>, Child<P, C>>
    requires kind { IsInnerRow head.old row.old }
    requires may { MayHave (row_node {P = P} head.old row.old).prefix child }
    ensures kind { IsInnerRow head.new row.new }
    ensures before { IfOk result (λ c.
        lookup (row_node {P = P} head.old row.old).children byte ≡ Some c) }
    ensures after { OnOk result (row_node {P = P} head.new row.new
        ≡ with_child (row_node head.old row.old) byte child) }
    ensures absent { OnErr result
        (lookup (row_node {P = P} head.old row.old).children byte ≡ None) }
    ensures back { IfErr result (λ c. c ≡ child) }
    ensures same { OnErr result
        (row_node {P = P} head.new row.new ≡ row_node head.old row.old) }
{
    match child {
        Child::Node(place) => match head.replace(row, byte, place) {
            Ok(before) => Ok(Child::Node(before)),
            Err(back) => Err(Child::Node(back)),
        },
        Child::Payload(_) => unreachable!(),
    }
}

/// Replaces what a node with a row has in the place of a child, and returns the previous one. If there is none, `Err`
/// returns the new one.
#[inline(always)]
pub(crate) fn exchange_place<P, C: Drop>(
    head: &mut RowHead,
    row: &mut Vec<C>,
    byte: u8,
    place: C,
) -> Result<C, C>
    requires { IsInnerRow head.old row.old }
    ensures kind { IsInnerRow head.new row.new }
    ensures before { IfOk result (λ c.
        lookup (row_node {P = P} head.old row.old).children byte ≡ Some (Node c)) }
    ensures after { OnOk result (row_node {P = P} head.new row.new
        ≡ with_child (row_node head.old row.old) byte (Node place)) }
    ensures absent { OnErr result
        (lookup (row_node {P = P} head.old row.old).children byte ≡ None) }
    ensures back { IfErr result (λ c. c ≡ place) }
    ensures same { OnErr result
        (row_node {P = P} head.new row.new ≡ row_node head.old row.old) }
{
    match head.replace(row, byte, place) {
        Ok(before) => Ok(before),
        Err(back) => Err(back),
    }
}

/// Replaces what an inner node of another form has in the place of a child, and returns the previous one. If there is none,
/// `Err` returns the new one.
#[inline(always)]
pub(crate) fn exchange_in<P, C, H: Head<C>>(
    node: &mut InnerHead<H>,
    row: &mut H::Row,
    byte: u8,
    place: C,
) -> Result<C, C>
    requires kind { H.IsNode node.old.head row.old × (length (H.prefix node.old.head) < 7) }
    ensures kind { H.IsNode node.new.head row.new × (length (H.prefix node.new.head) < 7) }
    ensures before { IfOk result (λ c. lookup (places {P = P} (H.children node.old.head row.old)) byte
        ≡ Some (Node c)) }
    ensures after { OnOk result (inner_node {P = P} (H.form node.new.head)
        (H.prefix node.new.head) (H.children node.new.head row.new) ≡ with_child (inner_node
        (H.form node.old.head) (H.prefix node.old.head) (H.children node.old.head row.old)) byte
        (Node place)) }
    ensures absent { OnErr result
        (lookup (places {P = P} (H.children node.old.head row.old)) byte ≡ None) }
    ensures back { IfErr result (λ c. c ≡ place) }
    ensures same { OnErr result (inner_node {P = P} (H.form node.new.head)
        (H.prefix node.new.head) (H.children node.new.head row.new) ≡ inner_node
        (H.form node.old.head) (H.prefix node.old.head) (H.children node.old.head row.old)) }
{
    match node.head.exchange(row, byte, place) {
        Ok(before) => Ok(before),
        Err(back) => Err(back),
    }
}

/// Takes out the child under a byte, if there is one, and returns it.
#[inline(always)]
pub(crate) fn take<P: Drop, C: Drop>(
    head: &mut RowHead,
    row: &mut Vec<C>,
    byte: u8,
) -> Option<Child<P, C>>
    requires { IsInnerRow head.old row.old }
    ensures kind { IsInnerRow head.new row.new }
    ensures before { result ≡ lookup (row_node {P = P} head.old row.old).children byte }
    ensures after { row_node {P = P} head.new row.new
        ≡ without_child (row_node head.old row.old) byte }
{
    match head.remove(row, byte) {
        Some(place) => Some(Child::Node(place)),
        None => None,
    }
}
