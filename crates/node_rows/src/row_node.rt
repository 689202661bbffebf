//! A node of a tree in one table, as a `TreeNode` of `node_table`, whose inner form for forty-eight has a row that grows
//! in steps.
//!
//! Tested in `test_owned` and `tools/dev/try-commands`.

ghost use Rattle.std.specs.Prelude.{◌≡◌, ◌↔◌, ℕ, ◌+◌, ◌<◌, ◌≤◌, [], ◌∷◌, length, IfOk, IfErr, OnOk, OnErr, IfSome, IfNone, IsTrue, false, IsSome, Some, None};
ghost use Rattle.std.specs.Int.{w64, to_be_bytes};
ghost use Rattle.std.specs.Option.{option_map};
ghost use Rattle.spec_map.specs.Map.{lookup, put, without, between, Rises};
ghost use Rattle.spec_map.specs.Near.{below_of};
ghost use Rattle.node_base.specs.Form.{Fits, few_in};
ghost use Rattle.node_table.specs.Children.{children_left, MayYield};
ghost use Rattle.spec_node.specs.Meeting.{IsMet, met_at};
ghost use Rattle.spec_node.specs.TableNode.{MayHave, looked_at_ref};
ghost use Rattle.node_rows.specs.Spare.{IsSpareFor};

use crate::inner_row;
use crate::row_head::RowHead;
use crate::spare::{Spare, spare_row};
use node_base::base_node::{BaseNode, NodeType};
use node_base::few::Few;
use node_base::head::{Own, Whole};
use node_forms::head_4::Head4;
use node_forms::head_16::Head16;
use node_forms::node_48::Node48;
use node_forms::node_256::Node256;
use node_table::kinds::{InTable, InnerHead, Leaf};
use node_table::setting::has_no_room;
use spec_map::error::OOMError;
use spec_node::child::{Child, ChildIter, ChildRef, Meeting};
use std::alloc::Global;
use std::marker::Model;

mod payloads;
mod places;
mod sizes;

/// A node of a tree in one table. Below seven bytes it is a leaf, whose children are payloads, and below fewer an inner
/// node, which has a `C` in the place of each child.
#[derive(Drop)]
pub struct RowNode<P, C> {
    kind: RowKind<P, C>,
}

// One tag for kind and form, so that a node is read after one jump. The head of a node with a row of its own fills the
// bytes between the tag and that row. A larger node is the head itself. So no arm takes more than 88 bytes, where
// payloads have 8 bytes and places 16.
#[derive(Drop)]
enum RowKind<P, C> {
    Inner4(InnerHead<Head4>, Few<C>),
    Inner16(InnerHead<Head16>, Vec<C>),
    Inner48(RowHead, Vec<C>),
    Inner256(InnerHead<Whole<Node256<C>>>, Own),
    Leaf4(Leaf<Head4>, Few<P>),
    Leaf16(Leaf<Head16>, Vec<P>),
    Leaf48(Leaf<Whole<Node48<P>>>, Own),
    Leaf256(Leaf<Whole<Node256<P>>>, Own),
}

impl<P, C> Model for RowNode<P, C> {
    ghost use Rattle.spec_node.specs.TableNode.{TableNodeOf};
    ghost use Rattle.node_table.specs.inner.Codes.{table_node_of_code};
    ghost use Rattle.node_rows.specs.inner.Rows.{node_of_kind, IsOfKind};

    ghost Value = { TableNodeOf P C };

    ghost coded = { table_node_of_code P.code C.code };

    ghost view = { λ n. node_of_kind n.kind };

    ghost invariant = { λ n. IsOfKind n.kind };
}

impl<P: Drop, C: Drop> RowNode<P, C> {
    ghost use Rattle.node_base.specs.declared.base_node.NodeType.TheVariants.{N4, N48, N256};

    /// The root of an empty tree, which has room for a child under each byte; a refusal only for lack of memory.
    pub fn root(alloc: Global) -> Result<Self, OOMError>
        ensures { IfOk result (λ n. n ≡ record { form = N256; prefix = []; children = [] }) }
    {
        let node = Node256::new(alloc, &[])?;
        Ok(RowNode {
            kind: RowKind::Inner256(
                InnerHead {
                    head: Whole { node },
                },
                Own,
            ),
        })
    }

    /// An inner node of the smallest form, without children. It takes no memory.
    pub fn empty_inner(prefix: &[u8]) -> Self
        requires { length prefix.now < 7 }
        ensures { result ≡ record { form = N4; prefix = prefix.now; children = [] } }
    {
        let head = Head4::new(prefix);
        RowNode {
            kind: RowKind::Inner4(InnerHead { head }, Few::Zero),
        }
    }

    /// A leaf of the smallest form, without payloads. It takes no memory.
    pub fn empty_leaf(prefix: &[u8]) -> Self
        requires { length prefix.now ≡ 7 }
        ensures { result ≡ record { form = N4; prefix = prefix.now; children = [] } }
    {
        let head = Head4::new(prefix);
        RowNode {
            kind: RowKind::Leaf4(Leaf { head }, Few::Zero),
        }
    }

    /// What all forms have.
    pub fn base(&self) -> &BaseNode
        ensures prefix { result.now.prefix ≡ self.now.prefix }
        ensures count { result.now.count ≡ length self.now.children }
        ensures form { result.now.form ≡ self.now.form }
        ensures within { Fits self.now.form (length self.now.children) }
        ensures ascending { Rises 0 256 self.now.children }
    {
        match &self.kind {
            RowKind::Inner4(node, row) => InTable::<P, C>::base(node, row),
            RowKind::Inner16(node, row) => InTable::<P, C>::base(node, row),
            RowKind::Inner48(head, row) => inner_row::base::<P, C>(head, row),
            RowKind::Inner256(node, row) => InTable::<P, C>::base(node, row),
            RowKind::Leaf4(node, row) => InTable::<P, C>::base(node, row),
            RowKind::Leaf16(node, row) => InTable::<P, C>::base(node, row),
            RowKind::Leaf48(node, row) => InTable::<P, C>::base(node, row),
            RowKind::Leaf256(node, row) => InTable::<P, C>::base(node, row),
        }
    }

    /// Whether the node's children are payloads.
    pub fn is_leaf(&self) -> bool
        ensures leaf { IsTrue result → length self.now.prefix ≡ 7 }
        ensures inner { result ≡ false → length self.now.prefix < 7 }
    {
        match &self.kind {
            RowKind::Inner4(..)
            | RowKind::Inner16(..)
            | RowKind::Inner48(..)
            | RowKind::Inner256(..) => false,
            RowKind::Leaf4(..) | RowKind::Leaf16(..) | RowKind::Leaf48(..) | RowKind::Leaf256(..) =>
                true,
        }
    }

    /// Whether there is no room for one child more.
    pub fn is_full(&self) -> bool
        ensures full { IsTrue result → Fits self.now.form (length self.now.children + 1) → ⊥ }
        ensures room { result ≡ false → Fits self.now.form (length self.now.children + 1) }
    {
        has_no_room(self.base())
    }

    /// Whether the node has few children for its form, or none: at most 36, 12, 3 or 0.
    pub fn is_due(&self) -> bool
        ensures { IsTrue result ↔ (length self.now.children ≤ few_in self.now.form) }
    {
        let base = self.base();
        let count = base.value_count();
        match base.get_type() {
            NodeType::N4 => count == 0,
            NodeType::N16 => count <= 3,
            NodeType::N48 => count <= 12,
            NodeType::N256 => count <= 36,
        }
    }

    /// What a key meets here, whose bytes are those of the word, most significant first: one jump by the form for all
    /// that a descent needs of a node.
    // (inline, as a call would return its answer through memory at each node of a path)
    #[inline(always)]
    pub fn meet_ref(&self, key: &[u8; 8], word: u64) -> Meeting<&C>
        requires { to_be_bytes w64 word ≡ key.now }
        ensures { IsMet key.now self.now (met_at result) }
    {
        match &self.kind {
            RowKind::Inner4(node, row) => InTable::<P, C>::meet(node, row, key, word),
            RowKind::Inner16(node, row) => InTable::<P, C>::meet(node, row, key, word),
            RowKind::Inner48(head, row) => inner_row::meet::<P, C>(head, row, key, word),
            RowKind::Inner256(node, row) => InTable::<P, C>::meet(node, row, key, word),
            RowKind::Leaf4(node, row) => InTable::<P, C>::meet(node, row, key, word),
            RowKind::Leaf16(node, row) => InTable::<P, C>::meet(node, row, key, word),
            RowKind::Leaf48(node, row) => InTable::<P, C>::meet(node, row, key, word),
            RowKind::Leaf256(node, row) => InTable::<P, C>::meet(node, row, key, word),
        }
    }

    /// What is under a byte, or `None`.
    // (inline, as `meet`: the end of each look-up)
    #[inline(always)]
    pub fn get_child_ref(&self, byte: u8) -> Option<ChildRef<'_, P, &C>>
        ensures { option_map looked_at_ref result ≡ lookup self.now.children byte }
    {
        match &self.kind {
            RowKind::Inner4(node, row) => node.get_child(row, byte),
            RowKind::Inner16(node, row) => node.get_child(row, byte),
            RowKind::Inner48(head, row) => inner_row::get_child(head, row, byte),
            RowKind::Inner256(node, row) => node.get_child(row, byte),
            RowKind::Leaf4(node, row) => node.get_child(row, byte),
            RowKind::Leaf16(node, row) => node.get_child(row, byte),
            RowKind::Leaf48(node, row) => node.get_child(row, byte),
            RowKind::Leaf256(node, row) => node.get_child(row, byte),
        }
    }

    /// The first child whose byte isn't below `from`, and its byte; `None` from 256 on.
    ///
    /// So a scan of all children takes constant work a child in each form: the bytes of a small node are searched at
    /// once, the index of a `Node48` is passed once in the whole scan, and the mask of a `Node256` 64 bytes a step.
    // (inline, as the number that it is asked with is most often known)
    #[inline(always)]
    pub fn first_ref_from(&self, from: usize) -> Option<(u8, ChildRef<'_, P, &C>)>
        ensures none { IfNone result (between self.now.children from 256 ≡ []) }
        ensures some { IfSome result (λ found. between self.now.children from 256
            ≡ (found.0, looked_at_ref found.1) ∷ between self.now.children (found.0 + 1) 256) }
        ensures order { IfSome result (λ found. from ≤ found.0) }
    {
        if from > 255 {
            return None;
        }
        let start = from as u8;
        match &self.kind {
            RowKind::Inner4(node, row) => node.first_from(row, start),
            RowKind::Inner16(node, row) => node.first_from(row, start),
            RowKind::Inner48(head, row) => inner_row::first_from(head, row, start),
            RowKind::Inner256(node, row) => node.first_from(row, start),
            RowKind::Leaf4(node, row) => node.first_from(row, start),
            RowKind::Leaf16(node, row) => node.first_from(row, start),
            RowKind::Leaf48(node, row) => node.first_from(row, start),
            RowKind::Leaf256(node, row) => node.first_from(row, start),
        }
    }

    /// The last child whose byte is below `to`, and its byte; `None` at 0.
    ///
    /// The bytes of a small node are searched at once, the index of a `Node48` is passed downward, and the mask of a
    /// `Node256` 64 bytes a step.
    // (inline, as the number that it is asked with is most often known)
    #[inline(always)]
    pub fn last_ref_below(&self, to: usize) -> Option<(u8, ChildRef<'_, P, &C>)>
        requires { to ≤ 256 }
        ensures { option_map (λ found. (found.0, looked_at_ref found.1)) result
            ≡ below_of self.now.children to }
    {
        match &self.kind {
            RowKind::Inner4(node, row) => node.last_below(row, to),
            RowKind::Inner16(node, row) => node.last_below(row, to),
            RowKind::Inner48(head, row) => inner_row::last_below(head, row, to),
            RowKind::Inner256(node, row) => node.last_below(row, to),
            RowKind::Leaf4(node, row) => node.last_below(row, to),
            RowKind::Leaf16(node, row) => node.last_below(row, to),
            RowKind::Leaf48(node, row) => node.last_below(row, to),
            RowKind::Leaf256(node, row) => node.last_below(row, to),
        }
    }

    /// The children with `from <= byte < to`, ascending. It keeps its place in the node, which is searched once.
    pub fn children_between(&self, from: usize, to: usize) -> ChildIter<'_, P, C>
        requires { to ≤ 256 }
        ensures children { children_left result ≡ between self.now.children from to }
        ensures kind { MayYield self.now.prefix result }
    {
        match &self.kind {
            RowKind::Inner4(node, row) => node.children_between(row, from, to),
            RowKind::Inner16(node, row) => node.children_between(row, from, to),
            RowKind::Inner48(head, row) => inner_row::children_between(head, row, from, to),
            RowKind::Inner256(node, row) => node.children_between(row, from, to),
            RowKind::Leaf4(node, row) => node.children_between(row, from, to),
            RowKind::Leaf16(node, row) => node.children_between(row, from, to),
            RowKind::Leaf48(node, row) => node.children_between(row, from, to),
            RowKind::Leaf256(node, row) => node.children_between(row, from, to),
        }
    }

    /// The spare row for one child more, which an inner node for forty-eight may need, and one for sixteen once it has
    /// grown. A refusal only for lack of memory.
    pub fn spare(&self, alloc: Global) -> Result<Spare<C>, OOMError>
        ensures { IfOk result (λ spare. length self.now.prefix < 7 → (self.now.form ≡ N256 → ⊥)
            → length self.now.children < 48 → IsSpareFor (length self.now.children) spare) }
    {
        let count = self.base().value_count() as usize;
        match &self.kind {
            RowKind::Inner16(..) | RowKind::Inner48(..) if count < 48 => spare_row(alloc, count),
            _ => Ok(None),
        }
    }

    /// Adds a child of the node's kind under a byte that has none, in a node that is not full. Takes no memory but the
    /// spare row, which an inner node for forty-eight may need.
    pub fn insert(&mut self, byte: u8, child: Child<P, C>, spare: Spare<C>)
        requires absent { lookup self.old.children byte ≡ None }
        requires room { Fits self.old.form (length self.old.children + 1) }
        requires kind { MayHave self.old.prefix child }
        requires spare { self.old.form ≡ N48 → length self.old.prefix < 7
            → IsSpareFor (length self.old.children) spare }
        ensures { self.new ≡ record self.old { children = put self.old.children byte child } }
    {
        match &mut self.kind {
            RowKind::Inner4(node, row) => node.insert(row, byte, child),
            RowKind::Inner16(node, row) => node.insert(row, byte, child),
            RowKind::Inner48(head, row) => inner_row::insert(head, row, byte, child, spare),
            RowKind::Inner256(node, row) => node.insert(row, byte, child),
            RowKind::Leaf4(node, row) => node.insert(row, byte, child),
            RowKind::Leaf16(node, row) => node.insert(row, byte, child),
            RowKind::Leaf48(node, row) => node.insert(row, byte, child),
            RowKind::Leaf256(node, row) => node.insert(row, byte, child),
        }
    }

    /// Replaces the child under a byte by another of the node's kind, and returns the previous one. If there is none,
    /// `Err` returns the new child. The node is searched once, and nothing in it moves.
    // (inline, as `meet`: the end of each insertion at a key that is present)
    #[inline(always)]
    pub fn exchange(&mut self, byte: u8, child: Child<P, C>) -> Result<Child<P, C>, Child<P, C>>
        requires { MayHave self.old.prefix child }
        ensures before { IfOk result (λ c. lookup self.old.children byte ≡ Some c) }
        ensures after { OnOk result
            (self.new ≡ record self.old { children = put self.old.children byte child }) }
        ensures absent { OnErr result (lookup self.old.children byte ≡ None) }
        ensures back { IfErr result (λ c. c ≡ child) }
        ensures same { OnErr result (self.new ≡ self.old) }
    {
        match &mut self.kind {
            RowKind::Inner4(node, row) => node.exchange(row, byte, child),
            RowKind::Inner16(node, row) => node.exchange(row, byte, child),
            RowKind::Inner48(head, row) => inner_row::exchange(head, row, byte, child),
            RowKind::Inner256(node, row) => node.exchange(row, byte, child),
            RowKind::Leaf4(node, row) => node.exchange(row, byte, child),
            RowKind::Leaf16(node, row) => node.exchange(row, byte, child),
            RowKind::Leaf48(node, row) => node.exchange(row, byte, child),
            RowKind::Leaf256(node, row) => node.exchange(row, byte, child),
        }
    }

    /// Takes out the child under a byte, if there is one, and returns it. The node is searched once.
    // (inline, as `exchange`: the end of each removal of a pair)
    #[inline(always)]
    pub fn take(&mut self, byte: u8) -> Option<Child<P, C>>
        ensures before { result ≡ lookup self.old.children byte }
        ensures after { self.new ≡ record self.old { children = without self.old.children byte } }
    {
        match &mut self.kind {
            RowKind::Inner4(node, row) => node.take(row, byte),
            RowKind::Inner16(node, row) => node.take(row, byte),
            RowKind::Inner48(head, row) => inner_row::take(head, row, byte),
            RowKind::Inner256(node, row) => node.take(row, byte),
            RowKind::Leaf4(node, row) => node.take(row, byte),
            RowKind::Leaf16(node, row) => node.take(row, byte),
            RowKind::Leaf48(node, row) => node.take(row, byte),
            RowKind::Leaf256(node, row) => node.take(row, byte),
        }
    }
}
