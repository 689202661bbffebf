//! The calls for one payload of a leaf.
//!
//! Tested in `congee_nodes`.

ghost use Rattle.std.specs.Prelude.{◌≡◌, ◌+◌, length, IfOk, IfErr, OnOk, OnErr, None};
ghost use Rattle.std.specs.Option.{option_map};
ghost use Rattle.spec_map.specs.Map.{lookup, put, without};
ghost use Rattle.node_base.specs.Form.{Fits};
ghost use Rattle.spec_node.specs.declared.child.Child.TheVariants.{Payload};

use crate::kinds::HasPayloads;
use crate::tree_node::{NodeKind, TreeNode};

impl<P: Drop, C: Drop> TreeNode<P, C> {
    /// Sets the payload under a byte of a leaf, where there is one or room for one more, and returns the previous one.
    /// Otherwise `Err` returns the new payload. One jump by the form, and no payload goes through a `Child`.
    // (inline, as `exchange`)
    #[inline(always)]
    pub fn set_payload(&mut self, byte: u8, payload: P) -> Result<Option<P>, P>
        requires leaf { length self.old.prefix ≡ 7 }
        ensures before { IfOk result (λ before.
            lookup self.old.children byte ≡ option_map (λ v. Payload v) before) }
        ensures room { IfOk result (λ before. before ≡ None
            → Fits self.old.form (length self.old.children + 1)) }
        ensures after { OnOk result (self.new
            ≡ record self.old { children = put self.old.children byte (Payload payload) }) }
        ensures absent { OnErr result (lookup self.old.children byte ≡ None) }
        ensures full { OnErr result (Fits self.old.form (length self.old.children + 1) → ⊥) }
        ensures back { IfErr result (λ back. back ≡ payload) }
        ensures same { OnErr result (self.new ≡ self.old) }
    {
        match &mut self.kind {
            NodeKind::Inner4(..)
            | NodeKind::Inner16(..)
            | NodeKind::Inner48(..)
            | NodeKind::Inner256(..) => unreachable!(),
            NodeKind::Leaf4(node, row) => HasPayloads::<P, C>::set_payload(
                node, row, byte, payload,
            ),
            NodeKind::Leaf16(node, row) => HasPayloads::<P, C>::set_payload(
                node, row, byte, payload,
            ),
            NodeKind::Leaf48(node, row) => HasPayloads::<P, C>::set_payload(
                node, row, byte, payload,
            ),
            NodeKind::Leaf256(node, row) => HasPayloads::<P, C>::set_payload(
                node, row, byte, payload,
            ),
        }
    }

    /// Takes out the payload under a byte of a leaf, if there is one, and returns it. The leaf is searched once.
    #[inline(always)]
    pub fn take_payload(&mut self, byte: u8) -> Option<P>
        requires leaf { length self.old.prefix ≡ 7 }
        ensures before { option_map (λ v. Payload v) result ≡ lookup self.old.children byte }
        ensures after { self.new ≡ record self.old { children = without self.old.children byte } }
    {
        match &mut self.kind {
            NodeKind::Inner4(..)
            | NodeKind::Inner16(..)
            | NodeKind::Inner48(..)
            | NodeKind::Inner256(..) => unreachable!(),
            NodeKind::Leaf4(node, row) => HasPayloads::<P, C>::take_payload(node, row, byte),
            NodeKind::Leaf16(node, row) => HasPayloads::<P, C>::take_payload(node, row, byte),
            NodeKind::Leaf48(node, row) => HasPayloads::<P, C>::take_payload(node, row, byte),
            NodeKind::Leaf256(node, row) => HasPayloads::<P, C>::take_payload(node, row, byte),
        }
    }
}
