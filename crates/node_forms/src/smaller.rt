//! A node of a smaller form made of a larger one with few children: the reverse of growth.
//!
//! The larger node is left without children. All memory is taken before the first change, and refused only for lack of
//! it.
//!
//! Tested in `congee_nodes`.

ghost use Rattle.std.specs.Prelude.{◌≡◌, ℕ, ◌≤◌, [], length, IfOk, OnErr};
ghost use Rattle.node_base.specs.inner.Few.{listed};
ghost use Rattle.node_base.specs.inner.Sorted.{pairs};
ghost use Rattle.node_forms.specs.Heads.{IsNode4, IsNode16};

use crate::head_4::Head4;
use crate::head_16::Head16;
use crate::node_48::Node48;
use node_base::few::Few;
use node_base::head::{Head, Own, Whole, move_children};
use spec_map::error::OOMError;
use std::alloc::Global;

/// A node of the smallest form with the prefix and the children of a larger one. Takes no memory.
pub fn smaller_4<C: Drop, H: Head<C>>(old: &mut H, old_row: &mut H::Row) -> (Head4, Few<C>)
    requires node { H.IsNode old.old old_row.old }
    requires prefix { length (H.prefix old.old) ≤ 7 }
    requires few { length (H.children old.old old_row.old) ≤ 4 }
    ensures node { IsNode4 result.0 result.1 }
    ensures prefix { result.0.base.prefix ≡ H.prefix old.old }
    ensures children { pairs result.0.keys (listed result.1) ≡ H.children old.old old_row.old }
    ensures left { H.IsNode old.new old_row.new }
    ensures left_prefix { H.prefix old.new ≡ H.prefix old.old }
    ensures left_form { H.form old.new ≡ H.form old.old }
{
    let mut head = Head4::new(old.base(old_row).prefix());
    let mut row = Few::Zero;
    move_children(old, old_row, &mut head, &mut row);
    (head, row)
}

/// A node of the form for sixteen with the prefix and the children of a larger one.
pub fn smaller_16<C: Drop, H: Head<C>>(
    alloc: Global,
    old: &mut H,
    old_row: &mut H::Row,
) -> Result<(Head16, Vec<C>), OOMError>
    requires node { H.IsNode old.old old_row.old }
    requires prefix { length (H.prefix old.old) ≤ 7 }
    requires few { length (H.children old.old old_row.old) ≤ 16 }
    ensures node { IfOk result (λ n. IsNode16 n.0 n.1) }
    ensures prefix { IfOk result (λ n. n.0.base.prefix ≡ H.prefix old.old) }
    ensures children { IfOk result (λ n.
        pairs n.0.keys n.1.items ≡ H.children old.old old_row.old) }
    ensures left { H.IsNode old.new old_row.new }
    ensures left_prefix { H.prefix old.new ≡ H.prefix old.old }
    ensures left_form { H.form old.new ≡ H.form old.old }
    ensures same { OnErr result (old.new ≡ old.old) }
    ensures same_row { OnErr result (old_row.new ≡ old_row.old) }
{
    let mut row = Vec::with_capacity(alloc, 16)?;
    let mut head = Head16::new(old.base(old_row).prefix());
    move_children(old, old_row, &mut head, &mut row);
    Ok((head, row))
}

/// A node of the form for forty-eight with the prefix and the children of a larger one.
pub fn smaller_48<C: Drop, H: Head<C>>(
    alloc: Global,
    old: &mut H,
    old_row: &mut H::Row,
) -> Result<Whole<Node48<C>>, OOMError>
    requires node { H.IsNode old.old old_row.old }
    requires prefix { length (H.prefix old.old) ≤ 7 }
    requires few { length (H.children old.old old_row.old) ≤ 48 }
    ensures prefix { IfOk result (λ n. n.node.prefix ≡ H.prefix old.old) }
    ensures children { IfOk result (λ n. n.node.children ≡ H.children old.old old_row.old) }
    ensures left { H.IsNode old.new old_row.new }
    ensures left_prefix { H.prefix old.new ≡ H.prefix old.old }
    ensures left_form { H.form old.new ≡ H.form old.old }
    ensures same { OnErr result (old.new ≡ old.old) }
    ensures same_row { OnErr result (old_row.new ≡ old_row.old) }
{
    let node = Node48::new(alloc, old.base(old_row).prefix())?;
    let mut head = Whole { node };
    move_children(old, old_row, &mut head, &mut Own);
    Ok(head)
}
