//! A node of a tree in one table: a leaf, whose children are payloads, or an inner node, which has a slot, or another
//! value, in the place of each child.
//!
//! Tested in `congee_nodes`.

ghost use Rattle.std.specs.Prelude.{◌≡◌, ◌↔◌, ℕ, ◌+◌, ◌<◌, ◌≤◌, [], ◌∷◌, length, IfOk, IfErr, OnOk, OnErr, IfSome, IfNone, IsTrue, false, IsSome, Some, None};
ghost use Rattle.std.specs.Int.{w64, to_be_bytes};
ghost use Rattle.std.specs.Option.{option_map};
ghost use Rattle.spec_map.specs.Map.{lookup, put, without, between, Rises};
ghost use Rattle.spec_map.specs.Near.{below_of};
ghost use Rattle.node_base.specs.Form.{Fits, few_in, next_form, smaller_form};
ghost use Rattle.node_base.specs.Rest.{rest};
ghost use Rattle.node_table.specs.Children.{children_left, MayYield};
ghost use Rattle.spec_node.specs.Meeting.{IsMet, met_at};
ghost use Rattle.spec_node.specs.TableNode.{MayHave, seen, looked_at, looked_at_ref};

use crate::kinds::{InTable, InnerHead, Leaf};
use crate::setting::has_no_room;
use node_base::base_node::{BaseNode, NodeType};
use node_base::few::Few;
use node_base::head::{Own, Whole};
use node_forms::head_4::Head4;
use node_forms::head_16::Head16;
use node_forms::node_48::Node48;
use node_forms::node_256::Node256;
use node_forms::smaller::{smaller_4, smaller_16, smaller_48};
use spec_map::error::OOMError;
use spec_node::child::{Child, ChildIter, ChildRef, Meeting};
use std::alloc::Global;
use std::marker::Model;

mod payloads;

/// A node of a tree in one table. Below seven bytes it is a leaf, whose children are payloads, and below fewer an inner
/// node, which has a `C` in the place of each child: by default the slot of another node. So no child takes more than a
/// payload or a `C` does.
#[derive(Drop)]
pub struct TreeNode<P, C = usize> {
    kind: NodeKind<P, C>,
}

// One tag for kind and form, so that a node is read after one jump. The head of a small node fills the bytes between
// the tag and its row; a larger node is the head itself. So no arm takes more than 56 bytes, where payloads and places
// have 8 bytes.
#[derive(Drop)]
enum NodeKind<P, C> {
    Inner4(InnerHead<Head4>, Few<C>),
    Inner16(InnerHead<Head16>, Vec<C>),
    Inner48(InnerHead<Whole<Node48<C>>>, Own),
    Inner256(InnerHead<Whole<Node256<C>>>, Own),
    Leaf4(Leaf<Head4>, Few<P>),
    Leaf16(Leaf<Head16>, Vec<P>),
    Leaf48(Leaf<Whole<Node48<P>>>, Own),
    Leaf256(Leaf<Whole<Node256<P>>>, Own),
}

impl<P, C> Model for TreeNode<P, C> {
    ghost use Rattle.spec_node.specs.TableNode.{TableNodeOf};
    ghost use Rattle.node_table.specs.inner.Codes.{table_node_of_code};
    ghost use Rattle.node_table.specs.inner.Kinds.{table_node, IsOfKind};

    ghost Value = { TableNodeOf P C };

    ghost coded = { table_node_of_code P.code C.code };

    ghost view = { λ n. table_node n.kind };

    ghost invariant = { λ n. IsOfKind n.kind };
}

impl<P: Drop, C: Drop> TreeNode<P, C> {
    ghost use Rattle.node_base.specs.declared.base_node.NodeType.TheVariants.{N4, N256};

    /// The root of an empty tree, which has room for a child under each byte; a refusal only for lack of memory.
    pub fn root(alloc: Global) -> Result<Self, OOMError>
        ensures { IfOk result (λ n. n ≡ record { form = N256; prefix = []; children = [] }) }
    {
        let node = Node256::new(alloc, &[])?;
        Ok(TreeNode {
            kind: NodeKind::Inner256(
                InnerHead {
                    head: Whole { node },
                },
                Own,
            ),
        })
    }

    /// An inner node of the smallest form, without children. It takes no memory.
    pub fn empty_inner(prefix: &[u8]) -> Self
        requires { length prefix.now < 7 }
        ensures { result ≡ record { form = N4; prefix = prefix.now; children = [] } }
    {
        let head = Head4::new(prefix);
        TreeNode {
            kind: NodeKind::Inner4(InnerHead { head }, Few::Zero),
        }
    }

    /// A leaf of the smallest form, without payloads. It takes no memory.
    pub fn empty_leaf(prefix: &[u8]) -> Self
        requires { length prefix.now ≡ 7 }
        ensures { result ≡ record { form = N4; prefix = prefix.now; children = [] } }
    {
        let head = Head4::new(prefix);
        TreeNode {
            kind: NodeKind::Leaf4(Leaf { head }, Few::Zero),
        }
    }

    /// An inner node of the smallest form, without children; a refusal only for lack of memory.
    pub fn inner(_alloc: Global, prefix: &[u8]) -> Result<Self, OOMError>
        requires { length prefix.now < 7 }
        ensures { IfOk result (λ n. n ≡ record { form = N4; prefix = prefix.now; children = [] }) }
    {
        Ok(TreeNode::empty_inner(prefix))
    }

    /// A leaf of the smallest form, without payloads; a refusal only for lack of memory.
    pub fn leaf(_alloc: Global, prefix: &[u8]) -> Result<Self, OOMError>
        requires { length prefix.now ≡ 7 }
        ensures { IfOk result (λ n. n ≡ record { form = N4; prefix = prefix.now; children = [] }) }
    {
        Ok(TreeNode::empty_leaf(prefix))
    }

    /// What all forms have.
    pub fn base(&self) -> &BaseNode
        ensures prefix { result.now.prefix ≡ self.now.prefix }
        ensures count { result.now.count ≡ length self.now.children }
        ensures form { result.now.form ≡ self.now.form }
        ensures within { Fits self.now.form (length self.now.children) }
        ensures ascending { Rises 0 256 self.now.children }
    {
        match &self.kind {
            NodeKind::Inner4(node, row) => InTable::<P, C>::base(node, row),
            NodeKind::Inner16(node, row) => InTable::<P, C>::base(node, row),
            NodeKind::Inner48(node, row) => InTable::<P, C>::base(node, row),
            NodeKind::Inner256(node, row) => InTable::<P, C>::base(node, row),
            NodeKind::Leaf4(node, row) => InTable::<P, C>::base(node, row),
            NodeKind::Leaf16(node, row) => InTable::<P, C>::base(node, row),
            NodeKind::Leaf48(node, row) => InTable::<P, C>::base(node, row),
            NodeKind::Leaf256(node, row) => InTable::<P, C>::base(node, row),
        }
    }

    /// Whether the node's children are payloads.
    pub fn is_leaf(&self) -> bool
        ensures leaf { IsTrue result → length self.now.prefix ≡ 7 }
        ensures inner { result ≡ false → length self.now.prefix < 7 }
    {
        match &self.kind {
            NodeKind::Inner4(..)
            | NodeKind::Inner16(..)
            | NodeKind::Inner48(..)
            | NodeKind::Inner256(..) => false,
            NodeKind::Leaf4(..)
            | NodeKind::Leaf16(..)
            | NodeKind::Leaf48(..)
            | NodeKind::Leaf256(..) => true,
        }
    }

    /// Whether there is no room for one child more.
    pub fn is_full(&self) -> bool
        ensures full { IsTrue result → Fits self.now.form (length self.now.children + 1) → ⊥ }
        ensures room { result ≡ false → Fits self.now.form (length self.now.children + 1) }
    {
        has_no_room(self.base())
    }

    /// Whether the node has few children for its form, or none: at most 36, 12, 3 or 0.
    pub fn is_due(&self) -> bool
        ensures { IsTrue result ↔ (length self.now.children ≤ few_in self.now.form) }
    {
        let base = self.base();
        let count = base.value_count();
        match base.get_type() {
            NodeType::N4 => count == 0,
            NodeType::N16 => count <= 3,
            NodeType::N48 => count <= 12,
            NodeType::N256 => count <= 36,
        }
    }

    /// What a key meets here, whose bytes are those of the word, most significant first: one jump by the form for all
    /// that a descent needs of a node.
    // (inline, as a call would return its answer through memory at each node of a path)
    #[inline(always)]
    pub fn meet_ref(&self, key: &[u8; 8], word: u64) -> Meeting<&C>
        requires { to_be_bytes w64 word ≡ key.now }
        ensures { IsMet key.now self.now (met_at result) }
    {
        match &self.kind {
            NodeKind::Inner4(node, row) => InTable::<P, C>::meet(node, row, key, word),
            NodeKind::Inner16(node, row) => InTable::<P, C>::meet(node, row, key, word),
            NodeKind::Inner48(node, row) => InTable::<P, C>::meet(node, row, key, word),
            NodeKind::Inner256(node, row) => InTable::<P, C>::meet(node, row, key, word),
            NodeKind::Leaf4(node, row) => InTable::<P, C>::meet(node, row, key, word),
            NodeKind::Leaf16(node, row) => InTable::<P, C>::meet(node, row, key, word),
            NodeKind::Leaf48(node, row) => InTable::<P, C>::meet(node, row, key, word),
            NodeKind::Leaf256(node, row) => InTable::<P, C>::meet(node, row, key, word),
        }
    }

    /// What is under a byte, or `None`.
    // (inline, as `meet`: the end of each look-up)
    #[inline(always)]
    pub fn get_child_ref(&self, byte: u8) -> Option<ChildRef<'_, P, &C>>
        ensures { option_map looked_at_ref result ≡ lookup self.now.children byte }
    {
        match &self.kind {
            NodeKind::Inner4(node, row) => node.get_child(row, byte),
            NodeKind::Inner16(node, row) => node.get_child(row, byte),
            NodeKind::Inner48(node, row) => node.get_child(row, byte),
            NodeKind::Inner256(node, row) => node.get_child(row, byte),
            NodeKind::Leaf4(node, row) => node.get_child(row, byte),
            NodeKind::Leaf16(node, row) => node.get_child(row, byte),
            NodeKind::Leaf48(node, row) => node.get_child(row, byte),
            NodeKind::Leaf256(node, row) => node.get_child(row, byte),
        }
    }

    /// The first child whose byte isn't below `from`, and its byte; `None` from 256 on.
    ///
    /// So a scan of all children takes constant work a child in each form: the bytes of a small node are searched at
    /// once, the index of a `Node48` is passed once in the whole scan, and the mask of a `Node256` 64 bytes a step.
    pub fn first_ref_from(&self, from: usize) -> Option<(u8, ChildRef<'_, P, &C>)>
        ensures none { IfNone result (between self.now.children from 256 ≡ []) }
        ensures some { IfSome result (λ found. between self.now.children from 256
            ≡ (found.0, looked_at_ref found.1) ∷ between self.now.children (found.0 + 1) 256) }
        ensures order { IfSome result (λ found. from ≤ found.0) }
    {
        if from > 255 {
            return None;
        }
        let start = from as u8;
        match &self.kind {
            NodeKind::Inner4(node, row) => node.first_from(row, start),
            NodeKind::Inner16(node, row) => node.first_from(row, start),
            NodeKind::Inner48(node, row) => node.first_from(row, start),
            NodeKind::Inner256(node, row) => node.first_from(row, start),
            NodeKind::Leaf4(node, row) => node.first_from(row, start),
            NodeKind::Leaf16(node, row) => node.first_from(row, start),
            NodeKind::Leaf48(node, row) => node.first_from(row, start),
            NodeKind::Leaf256(node, row) => node.first_from(row, start),
        }
    }

    /// The last child whose byte is below `to`, and its byte; `None` at 0.
    ///
    /// The bytes of a small node are searched at once, the index of a `Node48` is passed downward, and the mask of a
    /// `Node256` 64 bytes a step.
    pub fn last_ref_below(&self, to: usize) -> Option<(u8, ChildRef<'_, P, &C>)>
        requires { to ≤ 256 }
        ensures { option_map (λ found. (found.0, looked_at_ref found.1)) result
            ≡ below_of self.now.children to }
    {
        match &self.kind {
            NodeKind::Inner4(node, row) => node.last_below(row, to),
            NodeKind::Inner16(node, row) => node.last_below(row, to),
            NodeKind::Inner48(node, row) => node.last_below(row, to),
            NodeKind::Inner256(node, row) => node.last_below(row, to),
            NodeKind::Leaf4(node, row) => node.last_below(row, to),
            NodeKind::Leaf16(node, row) => node.last_below(row, to),
            NodeKind::Leaf48(node, row) => node.last_below(row, to),
            NodeKind::Leaf256(node, row) => node.last_below(row, to),
        }
    }

    /// The children with `from <= byte < to`, ascending. It keeps its place in the node, which is searched once.
    pub fn children_between(&self, from: usize, to: usize) -> ChildIter<'_, P, C>
        requires { to ≤ 256 }
        ensures children { children_left result ≡ between self.now.children from to }
        ensures kind { MayYield self.now.prefix result }
    {
        match &self.kind {
            NodeKind::Inner4(node, row) => node.children_between(row, from, to),
            NodeKind::Inner16(node, row) => node.children_between(row, from, to),
            NodeKind::Inner48(node, row) => node.children_between(row, from, to),
            NodeKind::Inner256(node, row) => node.children_between(row, from, to),
            NodeKind::Leaf4(node, row) => node.children_between(row, from, to),
            NodeKind::Leaf16(node, row) => node.children_between(row, from, to),
            NodeKind::Leaf48(node, row) => node.children_between(row, from, to),
            NodeKind::Leaf256(node, row) => node.children_between(row, from, to),
        }
    }

    /// Adds a child of the node's kind under a byte that has none, in a node that is not full.
    pub fn insert(&mut self, byte: u8, child: Child<P, C>)
        requires absent { lookup self.old.children byte ≡ None }
        requires room { Fits self.old.form (length self.old.children + 1) }
        requires kind { MayHave self.old.prefix child }
        ensures { self.new ≡ record self.old { children = put self.old.children byte child } }
    {
        match &mut self.kind {
            NodeKind::Inner4(node, row) => node.insert(row, byte, child),
            NodeKind::Inner16(node, row) => node.insert(row, byte, child),
            NodeKind::Inner48(node, row) => node.insert(row, byte, child),
            NodeKind::Inner256(node, row) => node.insert(row, byte, child),
            NodeKind::Leaf4(node, row) => node.insert(row, byte, child),
            NodeKind::Leaf16(node, row) => node.insert(row, byte, child),
            NodeKind::Leaf48(node, row) => node.insert(row, byte, child),
            NodeKind::Leaf256(node, row) => node.insert(row, byte, child),
        }
    }

    /// Replaces the child under a byte by another of the node's kind, and returns the previous one. If there is none,
    /// `Err` returns the new child. The node is searched once, and nothing in it moves.
    // (inline, as `meet`: the end of each insertion at a key that is present)
    #[inline(always)]
    pub fn exchange(&mut self, byte: u8, child: Child<P, C>) -> Result<Child<P, C>, Child<P, C>>
        requires { MayHave self.old.prefix child }
        ensures before { IfOk result (λ c. lookup self.old.children byte ≡ Some c) }
        ensures after { OnOk result
            (self.new ≡ record self.old { children = put self.old.children byte child }) }
        ensures absent { OnErr result (lookup self.old.children byte ≡ None) }
        ensures back { IfErr result (λ c. c ≡ child) }
        ensures same { OnErr result (self.new ≡ self.old) }
    {
        match &mut self.kind {
            NodeKind::Inner4(node, row) => node.exchange(row, byte, child),
            NodeKind::Inner16(node, row) => node.exchange(row, byte, child),
            NodeKind::Inner48(node, row) => node.exchange(row, byte, child),
            NodeKind::Inner256(node, row) => node.exchange(row, byte, child),
            NodeKind::Leaf4(node, row) => node.exchange(row, byte, child),
            NodeKind::Leaf16(node, row) => node.exchange(row, byte, child),
            NodeKind::Leaf48(node, row) => node.exchange(row, byte, child),
            NodeKind::Leaf256(node, row) => node.exchange(row, byte, child),
        }
    }

    /// Puts another child of the node's kind in the place of one, which it returns.
    pub fn change(&mut self, byte: u8, child: Child<P, C>) -> Child<P, C>
        requires present { IsSome (lookup self.old.children byte) }
        requires kind { MayHave self.old.prefix child }
        ensures before { lookup self.old.children byte ≡ Some result }
        ensures after { self.new ≡ record self.old { children = put self.old.children byte child } }
    {
        match self.exchange(byte, child) {
            Ok(before) => before,
            Err(_) => unreachable!(),
        }
    }

    /// Takes out the child under a byte, if there is one, and returns it. The node is searched once.
    pub fn take(&mut self, byte: u8) -> Option<Child<P, C>>
        ensures before { result ≡ lookup self.old.children byte }
        ensures after { self.new ≡ record self.old { children = without self.old.children byte } }
    {
        match &mut self.kind {
            NodeKind::Inner4(node, row) => node.take(row, byte),
            NodeKind::Inner16(node, row) => node.take(row, byte),
            NodeKind::Inner48(node, row) => node.take(row, byte),
            NodeKind::Inner256(node, row) => node.take(row, byte),
            NodeKind::Leaf4(node, row) => node.take(row, byte),
            NodeKind::Leaf16(node, row) => node.take(row, byte),
            NodeKind::Leaf48(node, row) => node.take(row, byte),
            NodeKind::Leaf256(node, row) => node.take(row, byte),
        }
    }

    /// Takes out the child under a byte, and returns it.
    pub fn remove(&mut self, byte: u8) -> Child<P, C>
        requires { IsSome (lookup self.old.children byte) }
        ensures before { lookup self.old.children byte ≡ Some result }
        ensures after { self.new ≡ record self.old { children = without self.old.children byte } }
    {
        match self.take(byte) {
            Some(child) => child,
            None => unreachable!(),
        }
    }

    /// Becomes the next form with the same prefix and children; the largest stays.
    ///
    /// All memory is taken before the first change, and refused only for lack of it.
    pub fn grow(&mut self, alloc: Global) -> Result<(), OOMError>
        ensures ok { OnOk result (self.new ≡ record self.old { form = next_form self.old.form }) }
        ensures room { OnOk result (Fits self.new.form (length self.new.children + 1)) }
        ensures err { OnErr result (self.new ≡ self.old) }
    {
        let grown = match &mut self.kind {
            NodeKind::Inner4(old, row) => match Head16::grown_from(alloc, &mut old.head, row) {
                Ok((head, row)) => NodeKind::Inner16(InnerHead { head }, row),
                Err(error) => return Err(error),
            },
            NodeKind::Inner16(old, row) => match Node48::grown_from_parts(
                alloc,
                &mut old.head,
                row,
            ) {
                Ok(node) => NodeKind::Inner48(
                    InnerHead {
                        head: Whole { node },
                    },
                    Own,
                ),
                Err(error) => return Err(error),
            },
            NodeKind::Inner48(old, _) => match Node256::grown_from(alloc, &mut old.head.node) {
                Ok(node) => NodeKind::Inner256(
                    InnerHead {
                        head: Whole { node },
                    },
                    Own,
                ),
                Err(error) => return Err(error),
            },
            NodeKind::Leaf4(old, row) => match Head16::grown_from(alloc, &mut old.head, row) {
                Ok((head, row)) => NodeKind::Leaf16(Leaf { head }, row),
                Err(error) => return Err(error),
            },
            NodeKind::Leaf16(old, row) => match Node48::grown_from_parts(
                alloc,
                &mut old.head,
                row,
            ) {
                Ok(node) => NodeKind::Leaf48(
                    Leaf {
                        head: Whole { node },
                    },
                    Own,
                ),
                Err(error) => return Err(error),
            },
            NodeKind::Leaf48(old, _) => match Node256::grown_from(alloc, &mut old.head.node) {
                Ok(node) => NodeKind::Leaf256(
                    Leaf {
                        head: Whole { node },
                    },
                    Own,
                ),
                Err(error) => return Err(error),
            },
            NodeKind::Inner256(..) | NodeKind::Leaf256(..) => return Ok(()),
        };
        self.kind = grown;
        Ok(())
    }

    /// Becomes the next smaller form with the same prefix and children, for which there are few enough; the smallest
    /// stays.
    ///
    /// All memory is taken before the first change, and refused only for lack of it.
    pub fn shrink(&mut self, alloc: Global) -> Result<(), OOMError>
        requires { Fits (smaller_form self.old.form) (length self.old.children) }
        ensures ok { OnOk result (self.new ≡ record self.old { form = smaller_form self.old.form }) }
        ensures err { OnErr result (self.new ≡ self.old) }
    {
        let shrunk = match &mut self.kind {
            NodeKind::Inner4(..) | NodeKind::Leaf4(..) => return Ok(()),
            NodeKind::Inner16(old, row) => {
                let (head, row) = smaller_4(&mut old.head, row);
                NodeKind::Inner4(InnerHead { head }, row)
            }
            NodeKind::Inner48(old, row) => match smaller_16(alloc, &mut old.head, row) {
                Ok((head, row)) => NodeKind::Inner16(InnerHead { head }, row),
                Err(error) => return Err(error),
            },
            NodeKind::Inner256(old, row) => match smaller_48(alloc, &mut old.head, row) {
                Ok(head) => NodeKind::Inner48(InnerHead { head }, Own),
                Err(error) => return Err(error),
            },
            NodeKind::Leaf16(old, row) => {
                let (head, row) = smaller_4(&mut old.head, row);
                NodeKind::Leaf4(Leaf { head }, row)
            }
            NodeKind::Leaf48(old, row) => match smaller_16(alloc, &mut old.head, row) {
                Ok((head, row)) => NodeKind::Leaf16(Leaf { head }, row),
                Err(error) => return Err(error),
            },
            NodeKind::Leaf256(old, row) => match smaller_48(alloc, &mut old.head, row) {
                Ok(head) => NodeKind::Leaf48(Leaf { head }, Own),
                Err(error) => return Err(error),
            },
        };
        self.kind = shrunk;
        Ok(())
    }
}

// (inline, as the calls that these are over)
impl<P: Drop> TreeNode<P> {
    /// What a key meets here, as `meet_ref`.
    #[inline(always)]
    pub fn meet(&self, key: &[u8; 8], word: u64) -> Meeting
        requires { to_be_bytes w64 word ≡ key.now }
        ensures { IsMet key.now self.now result }
    {
        self.meet_ref(key, word).copied()
    }

    /// What is under a byte, or `None`.
    #[inline(always)]
    pub fn get_child(&self, byte: u8) -> Option<ChildRef<'_, P>>
        ensures { seen result ≡ lookup self.now.children byte }
    {
        match self.get_child_ref(byte) {
            Some(child) => Some(child.copied()),
            None => None,
        }
    }

    /// The first child whose byte isn't below `from`, and its byte, as `first_ref_from`; `None` from 256 on.
    pub fn first_from(&self, from: usize) -> Option<(u8, ChildRef<'_, P>)>
        ensures none { IfNone result (between self.now.children from 256 ≡ []) }
        ensures some { IfSome result (λ found. between self.now.children from 256
            ≡ (found.0, looked_at found.1) ∷ between self.now.children (found.0 + 1) 256) }
        ensures order { IfSome result (λ found. from ≤ found.0) }
    {
        match self.first_ref_from(from) {
            Some((byte, child)) => Some((byte, child.copied())),
            None => None,
        }
    }

    /// The last child whose byte is below `to`, and its byte, as `last_ref_below`; `None` at 0.
    pub fn last_below(&self, to: usize) -> Option<(u8, ChildRef<'_, P>)>
        requires { to ≤ 256 }
        ensures { option_map (λ found. (found.0, looked_at found.1)) result
            ≡ below_of self.now.children to }
    {
        match self.last_ref_below(to) {
            Some((byte, child)) => Some((byte, child.copied())),
            None => None,
        }
    }
}
