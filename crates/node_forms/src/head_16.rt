//! The head of a node with up to sixteen bytes: the bytes, ascending. The children are in the row beside it.
//!
//! Tested in `congee_nodes`.

ghost use Rattle.std.specs.Prelude.{◌≡◌, ℕ, ◌<◌, ◌≤◌, [], length, IfOk, OnOk, OnErr};
ghost use Rattle.node_base.specs.inner.Few.{listed};
ghost use Rattle.node_base.specs.inner.Sorted.{pairs};
ghost use Rattle.node_forms.specs.Heads.{IsNode4, IsNode16};

use crate::head_4::Head4;
use node_base::base_node::{BaseNode, NodeType};
use node_base::few::Few;
use node_base::head::Head;
use node_base::iter::{Node16Iter, NodeIter};
use node_base::lanes::{find, rank};
use node_base::sorted::{insert_byte, remove_byte};
use spec_map::error::OOMError;
use std::alloc::Global;
use std::mem;

/// What a `Node16` has but its children: 27 bytes, of alignment 1.
#[derive(Drop)]
pub struct Head16 {
    pub(crate) base: BaseNode,
    pub(crate) keys: [u8; 16],
}

impl Head16 {
    ghost use Rattle.node_base.specs.declared.base_node.NodeType.TheVariants.{N16};

    /// The head of an empty node, whose row is an empty one with room for sixteen.
    pub fn new(prefix: &[u8]) -> Self
        requires { length prefix.now ≤ 7 }
        ensures { result.base ≡ record { prefix = prefix.now; count = 0; form = N16 } }
    {
        Head16 {
            base: BaseNode::new(prefix, NodeType::N16),
            keys: [0; 16],
        }
    }

    /// The head and the row of a node with the prefix and the children of a smaller one, which is left without
    /// children.
    ///
    /// All memory is taken before the first change, and refused only for lack of it.
    pub fn grown_from<C: Drop>(
        alloc: Global,
        smaller: &mut Head4,
        row: &mut Few<C>,
    ) -> Result<(Self, Vec<C>), OOMError>
        requires { IsNode4 smaller.old row.old }
        ensures node { IfOk result (λ n. IsNode16 n.0 n.1) }
        ensures prefix { IfOk result (λ n. n.0.base.prefix ≡ smaller.old.base.prefix) }
        ensures children { IfOk result (λ n.
            pairs n.0.keys n.1.items ≡ pairs smaller.old.keys (listed row.old)) }
        ensures room { IfOk result (λ n. length (pairs n.0.keys n.1.items) < 16) }
        ensures left { IsNode4 smaller.new row.new }
        ensures emptied { OnOk result (pairs smaller.new.keys (listed row.new) ≡ []) }
        ensures prefix_left { smaller.new.base.prefix ≡ smaller.old.base.prefix }
        ensures same { OnErr result (smaller.new ≡ smaller.old) }
        ensures same_row { OnErr result (row.new ≡ row.old) }
    {
        let mut children = Vec::with_capacity(alloc, 16)?;
        let mut keys = [0; 16];
        keys[..4].copy_from_slice(&smaller.keys);
        row.move_to(&mut children);
        let base = smaller.base.hand_over(NodeType::N16);
        Ok((Head16 { base, keys }, children))
    }
}

impl<C: Drop> Head<C> for Head16 {
    ghost use Rattle.node_base.specs.inner.Sorted.{pairs};
    ghost use Rattle.node_base.specs.declared.base_node.NodeType.TheVariants.{N16};
    ghost use Rattle.node_forms.specs.Heads.{IsNode16};

    type Row = Vec<C>;

    ghost form = { λ _. N16 };

    ghost prefix = { λ h. h.base.prefix };

    ghost children = { λ h row. pairs h.keys row.items };

    ghost IsNode = { IsNode16 };

    fn base<'a>(&'a self, _row: &Vec<C>) -> &'a BaseNode {
        &self.base
    }

    fn get_child<'a>(&'a self, row: &'a Vec<C>, byte: u8) -> Option<&'a C> {
        let count = self.base.value_count() as usize;
        let i = find(&self.keys, count, byte);
        if i < count { Some(&row[i]) } else { None }
    }

    fn get_children<'a>(&'a self, row: &'a Vec<C>, start: u8, end: u8) -> NodeIter<'a, C> {
        let count = row.len();
        let low = rank(&self.keys, count, start);
        let high = if end == 255 {
            count
        } else {
            rank(&self.keys, count, end + 1)
        };
        if low < high {
            return NodeIter::N16(Node16Iter {
                keys: &self.keys[low..high],
                children: &row[low..high],
            });
        }
        NodeIter::N16(Node16Iter {
            keys: &[],
            children: &[],
        })
    }

    fn last_byte(&self, row: &Vec<C>, to: usize) -> Option<u8> {
        let count = row.len();
        let i = if to > 255 {
            count
        } else {
            rank(&self.keys, count, to as u8)
        };
        if i == 0 { None } else { Some(self.keys[i - 1]) }
    }

    fn insert(&mut self, row: &mut Vec<C>, byte: u8, child: C) {
        let count = row.len();
        let i = rank(&self.keys, count, byte);
        insert_byte(&mut self.keys, count, i, byte);
        match row.insert(i, child) {
            Ok(()) => {}
            Err(_) => unreachable!(),
        }
        self.base.count_up();
    }

    fn exchange(&mut self, row: &mut Vec<C>, byte: u8, child: C) -> Result<C, C> {
        let count = self.base.value_count() as usize;
        let i = find(&self.keys, count, byte);
        if i < count {
            Ok(mem::replace(&mut row[i], child))
        } else {
            Err(child)
        }
    }

    fn take(&mut self, row: &mut Vec<C>, byte: u8) -> Option<C> {
        let count = row.len();
        let i = find(&self.keys, count, byte);
        if i < count {
            remove_byte(&mut self.keys, count, i);
            self.base.count_down();
            Some(row.remove(i))
        } else {
            None
        }
    }
}
