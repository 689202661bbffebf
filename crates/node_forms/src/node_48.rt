//! A node with up to forty-eight children in a row, and an index of all bytes
//! (*The Adaptive Radix Tree*, Leis et al., section III).
//!
//! Tested in `congee_nodes`.

ghost use Rattle.std.specs.Prelude.{◌≡◌, ℕ, ◌<◌, ◌≤◌, [], length, IfOk, OnOk, OnErr};
ghost use Rattle.node_base.specs.NodeView.{NodeView};
ghost use Rattle.node_base.specs.inner.Sorted.{pairs};
ghost use Rattle.node_forms.specs.Heads.{IsNode16};

use crate::head_16::Head16;
use crate::node_16::Node16;
use node_base::base_node::{BaseNode, Node, NodeType};
use node_base::iter::{Node48Iter, NodeIter};
use node_base::row::{add, last_placed, move_row, place_bytes, redirect};
use spec_map::error::OOMError;
use std::alloc::Global;
use std::marker::Model;
use std::mem;

/// A node with up to forty-eight children in a row, and an index of all bytes.
///
/// The row has no gaps and no order. The index has the place of each byte's child, or the mark 48. On the heap are 8
/// bytes for each of forty-eight children of 8 bytes and the index of 256 bytes; the value itself takes 48 bytes.
#[derive(Drop)]
pub struct Node48<C> {
    // (in this order, as a look-up reads them: all that it needs is in the first bytes)
    pub(crate) base: BaseNode,
    pub(crate) index: Box<[u8; 256]>,
    pub(crate) children: Vec<C>,
}

impl<C> Model for Node48<C> {
    ghost use Rattle.std.specs.Prelude.{◌≡◌, ◌≤◌, slice_index, vec_capacity};
    ghost use Rattle.node_base.specs.NodeView.{NodeView};
    ghost use Rattle.node_base.specs.inner.NodeCode.{node_view_code};
    ghost use Rattle.node_base.specs.inner.Row.{in_row, IsRow};
    ghost use Rattle.node_base.specs.declared.base_node.NodeType.TheVariants.{N48};

    ghost Value = { NodeView C };

    ghost coded = { node_view_code C.code };

    ghost view = { λ n. record {
      prefix = n.base.prefix;
      children = in_row (slice_index n.index.value) n.children.items;
    } };

    ghost invariant = { λ n. IsRow 48 (slice_index n.index.value) n.children.items n.base.count
        × (n.base.form ≡ N48)
        × (48 ≤ vec_capacity n.children) };
}

impl<C: Drop> Node48<C> {
    /// An empty node with room for all its forty-eight children; a refusal only for lack of memory.
    pub fn new(alloc: Global, prefix: &[u8]) -> Result<Self, OOMError>
        requires { length prefix.now ≤ 7 }
        ensures prefix { IfOk result (λ n. n.prefix ≡ prefix.now) }
        ensures empty { IfOk result (λ n. n.children ≡ []) }
    {
        let base = BaseNode::new(prefix, NodeType::N48);
        let marks = [48u8; 256];
        let index = Box::new(alloc, marks)?;
        let children = Vec::with_capacity(alloc, 48)?;
        Ok(Node48 {
            children,
            index,
            base,
        })
    }

    /// A node with the prefix and the children of a smaller one, which is left without children.
    ///
    /// All memory is taken before the first change, and refused only for lack of it.
    pub fn grown_from(alloc: Global, smaller: &mut Node16<C>) -> Result<Self, OOMError>
        ensures prefix { IfOk result (λ n. n.prefix ≡ smaller.old.prefix) }
        ensures children { IfOk result (λ n. n.children ≡ smaller.old.children) }
        ensures room { IfOk result (λ n. length n.children < 48) }
        ensures emptied { OnOk result (smaller.new.children ≡ []) }
        ensures err { OnErr result (smaller.new ≡ smaller.old) }
    {
        Node48::grown_from_parts(alloc, &mut smaller.head, &mut smaller.children)
    }

    /// The same, of a smaller node's head and row.
    pub fn grown_from_parts(
        alloc: Global,
        head: &mut Head16,
        row: &mut Vec<C>,
    ) -> Result<Self, OOMError>
        requires { IsNode16 head.old row.old }
        ensures prefix { IfOk result (λ n. n.prefix ≡ head.old.base.prefix) }
        ensures children { IfOk result (λ n. n.children ≡ pairs head.old.keys row.old.items) }
        ensures room { IfOk result (λ n. length n.children < 48) }
        ensures left { IsNode16 head.new row.new }
        ensures emptied { OnOk result (pairs head.new.keys row.new.items ≡ []) }
        ensures prefix_left { head.new.base.prefix ≡ head.old.base.prefix }
        ensures same { OnErr result (head.new ≡ head.old) }
        ensures same_row { OnErr result (row.new ≡ row.old) }
    {
        let mut places = [48u8; 256];
        place_bytes(&mut places, &head.keys[..row.len()]);
        let index = Box::new(alloc, places)?;
        let mut children = Vec::with_capacity(alloc, 48)?;
        move_row(row, &mut children);
        let base = head.base.hand_over(NodeType::N48);
        Ok(Node48 {
            children,
            index,
            base,
        })
    }
}

impl<C: Drop> Node<C> for Node48<C> {
    ghost use Rattle.node_base.specs.declared.base_node.NodeType.TheVariants.{N48};

    ghost form = { λ _. N48 };

    ghost prefix = { λ n. n.prefix };

    ghost children = { λ n. n.children };

    fn base(&self) -> &BaseNode {
        &self.base
    }

    fn is_full(&self) -> bool {
        self.base.value_count() >= 48
    }

    fn get_child(&self, byte: u8) -> Option<&C> {
        let i = self.index[byte as usize] as usize;
        if i == 48 {
            None
        } else {
            Some(&self.children[i])
        }
    }

    fn get_children(&self, start: u8, end: u8) -> NodeIter<'_, C> {
        NodeIter::N48(Node48Iter {
            at: start as usize,
            last: end,
            index: &self.index,
            children: &self.children,
        })
    }

    fn last_byte(&self, to: usize) -> Option<u8> {
        last_placed(&self.index, to, self.children.len())
    }

    fn insert(&mut self, byte: u8, child: C) {
        self.index[byte as usize] = self.children.len() as u8;
        add(&mut self.children, child);
        self.base.count_up();
    }

    fn exchange(&mut self, byte: u8, child: C) -> Result<C, C> {
        let i = self.index[byte as usize] as usize;
        if i == 48 {
            Err(child)
        } else {
            Ok(mem::replace(&mut self.children[i], child))
        }
    }

    fn take(&mut self, byte: u8) -> Option<C> {
        let i = self.index[byte as usize];
        let count = self.children.len();
        if (i as usize) < count {
            self.index[byte as usize] = 48;
            redirect(&mut self.index, count as u8 - 1, i);
            self.base.count_down();
            Some(self.children.swap_remove(i as usize))
        } else {
            None
        }
    }
}
