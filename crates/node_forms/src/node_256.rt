//! A node with a cell for the child of each byte (*The Adaptive Radix Tree*, Leis et al., section III).
//!
//! Tested in `congee_nodes`.

ghost use Rattle.std.specs.Prelude.{◌≡◌, ℕ, ◌≤◌, [], length, IfOk, OnOk, OnErr};
ghost use Rattle.node_base.specs.NodeView.{NodeView};

use crate::node_48::Node48;
use node_base::base_node::{BaseNode, Node, NodeType};
use node_base::iter::{Node256Iter, NodeIter};
use node_base::places::Places;
use node_base::row::{bytes_by_place, place_all};
use spec_map::error::OOMError;
use std::alloc::Global;
use std::marker::Model;

/// A node with a cell for the child of each byte, and a mask of the bytes that have one.
///
/// On the heap are 2,048 bytes for 256 children of 8 bytes, and 32 bytes for the mask; the value itself takes 32 bytes.
/// A look-up and an overwrite in a full node don't read the mask. No child is moved after it came.
#[derive(Drop)]
pub struct Node256<C> {
    // (in this order, as a look-up reads them)
    base: BaseNode,
    places: Places<C>,
}

impl<C> Model for Node256<C> {
    ghost use Rattle.std.specs.Prelude.{◌≡◌, length};
    ghost use Rattle.node_base.specs.NodeView.{NodeView};
    ghost use Rattle.node_base.specs.inner.NodeCode.{node_view_code};
    ghost use Rattle.node_base.specs.inner.Places.{in_cells};
    ghost use Rattle.node_base.specs.declared.base_node.NodeType.TheVariants.{N256};

    ghost Value = { NodeView C };

    ghost coded = { node_view_code C.code };

    ghost view = { λ n. record {
      prefix = n.base.prefix;
      children = in_cells n.places;
    } };

    ghost invariant = { λ n. (length (in_cells n.places) ≡ n.base.count) × (n.base.form ≡ N256) };
}

impl<C: Drop> Node256<C> {
    /// An empty node with room for all its 256 children; a refusal only for lack of memory.
    pub fn new(alloc: Global, prefix: &[u8]) -> Result<Self, OOMError>
        requires { length prefix.now ≤ 7 }
        ensures prefix { IfOk result (λ n. n.prefix ≡ prefix.now) }
        ensures empty { IfOk result (λ n. n.children ≡ []) }
    {
        let base = BaseNode::new(prefix, NodeType::N256);
        let places = Places::new(alloc)?;
        Ok(Node256 { base, places })
    }

    /// A node with the prefix and the children of a smaller one, which is left without children.
    ///
    /// All memory is taken before the first change, and refused only for lack of it.
    pub fn grown_from(alloc: Global, smaller: &mut Node48<C>) -> Result<Self, OOMError>
        ensures prefix { IfOk result (λ n. n.prefix ≡ smaller.old.prefix) }
        ensures children { IfOk result (λ n. n.children ≡ smaller.old.children) }
        ensures emptied { OnOk result (smaller.new.children ≡ []) }
        ensures err { OnErr result (smaller.new ≡ smaller.old) }
    {
        let mut places = Places::new(alloc)?;
        let bytes = bytes_by_place(&smaller.index);
        places.fill(&bytes, &mut smaller.children);
        place_all(&mut smaller.index, 48);
        let base = smaller.base.hand_over(NodeType::N256);
        Ok(Node256 { base, places })
    }
}

impl<C: Drop> Node<C> for Node256<C> {
    ghost use Rattle.node_base.specs.declared.base_node.NodeType.TheVariants.{N256};

    ghost form = { λ _. N256 };

    ghost prefix = { λ n. n.prefix };

    ghost children = { λ n. n.children };

    fn base(&self) -> &BaseNode {
        &self.base
    }

    fn is_full(&self) -> bool {
        false
    }

    fn get_child(&self, byte: u8) -> Option<&C> {
        if self.base.value_count() == 256 {
            Some(self.places.get_filled(byte))
        } else {
            self.places.get(byte)
        }
    }

    fn get_children(&self, start: u8, end: u8) -> NodeIter<'_, C> {
        NodeIter::N256(Node256Iter {
            at: start as usize,
            last: end,
            places: &self.places,
        })
    }

    fn last_byte(&self, to: usize) -> Option<u8> {
        self.places.last(to)
    }

    fn insert(&mut self, byte: u8, child: C) {
        self.places.put(byte, child);
        self.base.count_up();
    }

    fn exchange(&mut self, byte: u8, child: C) -> Result<C, C> {
        if self.base.value_count() == 256 {
            Ok(self.places.exchange_filled(byte, child))
        } else {
            self.places.exchange(byte, child)
        }
    }

    fn take(&mut self, byte: u8) -> Option<C> {
        let Some(child) = self.places.take(byte) else {
            return None;
        };
        self.base.count_down();
        Some(child)
    }
}
