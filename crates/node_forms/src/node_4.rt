//! A node with up to four bytes, ascending, and the children beside them
//! (*The Adaptive Radix Tree*, Leis et al., section III).
//!
//! Tested in `congee_nodes`.

ghost use Rattle.std.specs.Prelude.{◌≡◌, ℕ, ◌≤◌, [], length, IfOk, IsOk};
ghost use Rattle.node_base.specs.NodeView.{NodeView};

use crate::head_4::Head4;
use node_base::base_node::{BaseNode, Node};
use node_base::few::Few;
use node_base::head::Head;
use node_base::iter::NodeIter;
use spec_map::error::OOMError;
use std::alloc::Global;
use std::marker::Model;

/// A node with up to four bytes, ascending, and the children beside them.
///
/// All lies in the value itself, which takes 56 bytes for children of 8 bytes; nothing is on the heap.
#[derive(Drop)]
pub struct Node4<C> {
    pub(crate) head: Head4,
    pub(crate) children: Few<C>,
}

impl<C> Model for Node4<C> {
    ghost use Rattle.node_base.specs.NodeView.{NodeView};
    ghost use Rattle.node_base.specs.inner.NodeCode.{node_view_code};
    ghost use Rattle.node_base.specs.inner.Sorted.{pairs};
    ghost use Rattle.node_base.specs.inner.Few.{listed};
    ghost use Rattle.node_forms.specs.Heads.{IsNode4};

    ghost Value = { NodeView C };

    ghost coded = { node_view_code C.code };

    ghost view = { λ n. record {
      prefix = n.head.base.prefix;
      children = pairs n.head.keys (listed n.children);
    } };

    ghost invariant = { λ n. IsNode4 n.head n.children };
}

impl<C: Drop> Node4<C> {
    /// An empty node with room for all its four children.
    ///
    /// It takes no memory, and so is never refused; it is called as the other forms are.
    pub fn new(_alloc: Global, prefix: &[u8]) -> Result<Self, OOMError>
        requires { length prefix.now ≤ 7 }
        ensures prefix { IfOk result (λ n. n.prefix ≡ prefix.now) }
        ensures empty { IfOk result (λ n. n.children ≡ []) }
        ensures never_refused { IsOk result }
    {
        Ok(Node4 {
            head: Head4::new(prefix),
            children: Few::Zero,
        })
    }
}

impl<C: Drop> Node<C> for Node4<C> {
    ghost use Rattle.node_base.specs.declared.base_node.NodeType.TheVariants.{N4};

    ghost form = { λ _. N4 };

    ghost prefix = { λ n. n.prefix };

    ghost children = { λ n. n.children };

    fn base(&self) -> &BaseNode {
        self.head.base(&self.children)
    }

    fn is_full(&self) -> bool {
        self.head.base.value_count() >= 4
    }

    fn get_child(&self, byte: u8) -> Option<&C> {
        self.head.get_child(&self.children, byte)
    }

    fn get_children(&self, start: u8, end: u8) -> NodeIter<'_, C> {
        self.head.get_children(&self.children, start, end)
    }

    fn last_byte(&self, to: usize) -> Option<u8> {
        self.head.last_byte(&self.children, to)
    }

    fn insert(&mut self, byte: u8, child: C) {
        self.head.insert(&mut self.children, byte, child);
    }

    fn exchange(&mut self, byte: u8, child: C) -> Result<C, C> {
        self.head.exchange(&mut self.children, byte, child)
    }

    fn take(&mut self, byte: u8) -> Option<C> {
        self.head.take(&mut self.children, byte)
    }
}
