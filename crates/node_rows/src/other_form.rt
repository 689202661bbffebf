//! A node with a row made of one of another form, and the reverse. The old node is left without children.
//!
//! All memory is taken before the first change, and refused only for lack of it. Where a node shrinks, the row has room
//! for forty-eight while children move. Where it grows, no child moves within a row.
//!
//! Tested in `test_owned` and `tools/dev/try-commands`.

ghost use Rattle.std.specs.Prelude.{◌≡◌, ◌≤◌, [], ◌∷◌, length, IfNone, IfOk, IfSome, OnErr, OnOk, vec_capacity};
ghost use Rattle.node_base.specs.Rest.{rest};
ghost use Rattle.node_base.specs.inner.Sorted.{pairs};
ghost use Rattle.node_forms.specs.Heads.{IsNode16};
ghost use Rattle.node_rows.specs.inner.Steps.{IsHeadOf, IsWholeRow};

use crate::row_head::RowHead;
use node_base::base_node::Node;
use node_base::head::{Head, Whole, move_children};
use node_base::iter::NodeIter;
use node_forms::head_16::Head16;
use node_forms::node_256::Node256;
use node_forms::smaller::smaller_16;
use spec_map::error::OOMError;
use std::alloc::Global;

/// The head and the row of a node with the prefix and the children of another.
pub(crate) fn row_from<C: Drop, H: Head<C>>(
    alloc: Global,
    old: &mut H,
    old_row: &mut H::Row,
) -> Result<(RowHead, Vec<C>), OOMError>
    requires node { H.IsNode old.old old_row.old }
    requires prefix { length (H.prefix old.old) ≤ 7 }
    requires few { length (H.children old.old old_row.old) ≤ 48 }
    ensures node { IfOk result (λ n. IsWholeRow n.0 n.1) }
    ensures prefix { IfOk result (λ n. n.0.base.prefix ≡ H.prefix old.old) }
    ensures children { IfOk result (λ n.
        pairs n.0.keys n.1.items ≡ H.children old.old old_row.old) }
    ensures same { OnErr result (old.new ≡ old.old) }
    ensures same_row { OnErr result (old_row.new ≡ old_row.old) }
{
    let mut row = Vec::with_capacity(alloc, 48)?;
    let mut head = RowHead::new(old.base(old_row).prefix());
    move_children(old, old_row, &mut head, &mut row);
    Ok((head, row))
}

// Takes memory for all forty-eight children.
fn make_whole<C: Drop>(row: &mut Vec<C>) -> Result<(), OOMError>
    requires { length row.old.items ≤ 48 }
    ensures ok { OnOk result (48 ≤ vec_capacity row.new) }
    ensures items { row.new.items ≡ row.old.items }
    ensures capacity { vec_capacity row.old ≤ vec_capacity row.new }
{
    row.reserve_exact(48 - row.len())?;
    Ok(())
}

// The byte of the first child that is left.
#[inline(always)]
fn next_byte<C>(children: &mut NodeIter<'_, C>) -> Option<u8>
    ensures none { IfNone result (rest children.old ≡ []) }
    ensures some { IfSome result (λ byte. (c : C) × (rest children.old
        ≡ (byte, c) ∷ rest children.new)) }
{
    let (byte, _) = children.next()?;
    Some(byte)
}

/// The head of a node for forty-eight with the prefix and the bytes of one for sixteen. The row is that of both, so no
/// child moves, and no memory is taken.
pub(crate) fn head_48<C: Drop>(old: &Head16, row: &Vec<C>) -> RowHead
    requires { IsNode16 old.now row.now }
    ensures node { IsHeadOf result row.now.items }
    ensures prefix { result.base.prefix ≡ old.now.base.prefix }
    ensures children { pairs result.keys row.now.items ≡ pairs old.now.keys row.now.items }
{
    let mut head = RowHead::new(old.base(row).prefix());
    let mut children = old.get_children(row, 0, 255);
    'bytes: while let Some(byte) = next_byte(&mut children) {
        head.add_byte(byte);
    }
    head
}

/// A node of the largest form with the prefix and the children of one with a row.
pub(crate) fn larger_256<C: Drop>(
    alloc: Global,
    old: &RowHead,
    row: &mut Vec<C>,
) -> Result<Whole<Node256<C>>, OOMError>
    requires { IsHeadOf old.now row.old.items }
    ensures prefix { IfOk result (λ n. n.node.prefix ≡ old.now.base.prefix) }
    ensures children { IfOk result (λ n. n.node.children ≡ pairs old.now.keys row.old.items) }
    ensures same { OnErr result (row.new ≡ row.old) }
{
    // (for the proof: brings the number of children into scope)
    let prefix = old.base_of(row).prefix();
    let mut node = Node256::new(alloc, prefix)?;
    // (from the last one on, so that none of the others moves)
    'children: while let Some(child) = row.pop() {
        node.insert(old.keys[row.len()], child);
    }
    Ok(Whole { node })
}

/// A node of the form for sixteen with the prefix and the children of one with a row.
pub(crate) fn row_16<C: Drop>(
    alloc: Global,
    old: &mut RowHead,
    row: &mut Vec<C>,
) -> Result<(Head16, Vec<C>), OOMError>
    requires node { IsHeadOf old.old row.old.items }
    requires few { length (pairs old.old.keys row.old.items) ≤ 16 }
    ensures node { IfOk result (λ n. IsNode16 n.0 n.1) }
    ensures prefix { IfOk result (λ n. n.0.base.prefix ≡ old.old.base.prefix) }
    ensures children { IfOk result (λ n.
        pairs n.0.keys n.1.items ≡ pairs old.old.keys row.old.items) }
    ensures same { OnErr result (old.new ≡ old.old) }
    ensures items { OnErr result (row.new.items ≡ row.old.items) }
    ensures capacity { OnErr result (vec_capacity row.old ≤ vec_capacity row.new) }
{
    // (for the proof: brings the lengths of the prefix and of the row into scope)
    let _ = old.base_of(row).prefix();
    make_whole(row)?;
    smaller_16(alloc, old, row)
}
