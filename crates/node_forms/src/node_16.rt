//! A node with up to sixteen bytes, ascending, and the children beside them
//! (*The Adaptive Radix Tree*, Leis et al., section III).
//!
//! Tested in `congee_nodes`.

ghost use Rattle.std.specs.Prelude.{◌≡◌, ℕ, ◌<◌, ◌≤◌, [], length, IfOk, OnOk, OnErr};
ghost use Rattle.node_base.specs.NodeView.{NodeView};

use crate::head_16::Head16;
use crate::node_4::Node4;
use node_base::base_node::{BaseNode, Node};
use node_base::head::Head;
use node_base::iter::NodeIter;
use spec_map::error::OOMError;
use std::alloc::Global;
use std::marker::Model;

/// A node with up to sixteen bytes, ascending, and the children beside them.
///
/// The children are on the heap; the value itself takes 56 bytes.
#[derive(Drop)]
pub struct Node16<C> {
    pub(crate) head: Head16,
    pub(crate) children: Vec<C>,
}

impl<C> Model for Node16<C> {
    ghost use Rattle.node_base.specs.NodeView.{NodeView};
    ghost use Rattle.node_base.specs.inner.NodeCode.{node_view_code};
    ghost use Rattle.node_base.specs.inner.Sorted.{pairs};
    ghost use Rattle.node_forms.specs.Heads.{IsNode16};

    ghost Value = { NodeView C };

    ghost coded = { node_view_code C.code };

    ghost view = { λ n. record {
      prefix = n.head.base.prefix;
      children = pairs n.head.keys n.children.items;
    } };

    ghost invariant = { λ n. IsNode16 n.head n.children };
}

impl<C: Drop> Node16<C> {
    /// An empty node with room for all its sixteen children; a refusal only for lack of memory.
    pub fn new(alloc: Global, prefix: &[u8]) -> Result<Self, OOMError>
        requires { length prefix.now ≤ 7 }
        ensures prefix { IfOk result (λ n. n.prefix ≡ prefix.now) }
        ensures empty { IfOk result (λ n. n.children ≡ []) }
    {
        let head = Head16::new(prefix);
        let children = Vec::with_capacity(alloc, 16)?;
        Ok(Node16 { head, children })
    }

    /// A node with the prefix and the children of a smaller one, which is left without children.
    ///
    /// All memory is taken before the first change, and refused only for lack of it.
    pub fn grown_from(alloc: Global, smaller: &mut Node4<C>) -> Result<Self, OOMError>
        ensures prefix { IfOk result (λ n. n.prefix ≡ smaller.old.prefix) }
        ensures children { IfOk result (λ n. n.children ≡ smaller.old.children) }
        ensures room { IfOk result (λ n. length n.children < 16) }
        ensures emptied { OnOk result (smaller.new.children ≡ []) }
        ensures err { OnErr result (smaller.new ≡ smaller.old) }
    {
        let (head, children) = Head16::grown_from(alloc, &mut smaller.head, &mut smaller.children)?;
        Ok(Node16 { head, children })
    }
}

impl<C: Drop> Node<C> for Node16<C> {
    ghost use Rattle.node_base.specs.declared.base_node.NodeType.TheVariants.{N16};

    ghost form = { λ _. N16 };

    ghost prefix = { λ n. n.prefix };

    ghost children = { λ n. n.children };

    fn base(&self) -> &BaseNode {
        self.head.base(&self.children)
    }

    fn is_full(&self) -> bool {
        self.children.len() == 16
    }

    fn get_child(&self, byte: u8) -> Option<&C> {
        self.head.get_child(&self.children, byte)
    }

    fn get_children(&self, start: u8, end: u8) -> NodeIter<'_, C> {
        self.head.get_children(&self.children, start, end)
    }

    fn last_byte(&self, to: usize) -> Option<u8> {
        self.head.last_byte(&self.children, to)
    }

    fn insert(&mut self, byte: u8, child: C) {
        self.head.insert(&mut self.children, byte, child);
    }

    fn exchange(&mut self, byte: u8, child: C) -> Result<C, C> {
        self.head.exchange(&mut self.children, byte, child)
    }

    fn take(&mut self, byte: u8) -> Option<C> {
        self.head.take(&mut self.children, byte)
    }
}
