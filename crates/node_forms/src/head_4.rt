//! The head of a node with up to four bytes: the bytes, ascending. The children are in the row beside it.
//!
//! Tested in `congee_nodes`.

ghost use Rattle.std.specs.Prelude.{◌≡◌, ℕ, ◌≤◌, length};

use node_base::base_node::{BaseNode, NodeType};
use node_base::few::Few;
use node_base::head::Head;
use node_base::iter::{Node4Iter, NodeIter};
use node_base::lanes::find_4;
use node_base::sorted::{insert_byte, place, remove_byte};

/// What a `Node4` has but its children: 15 bytes, of alignment 1.
#[derive(Drop)]
pub struct Head4 {
    pub(crate) base: BaseNode,
    pub(crate) keys: [u8; 4],
}

impl Head4 {
    ghost use Rattle.node_base.specs.declared.base_node.NodeType.TheVariants.{N4};

    /// The head of an empty node, whose row is `Few::Zero`.
    pub fn new(prefix: &[u8]) -> Self
        requires { length prefix.now ≤ 7 }
        ensures { result.base ≡ record { prefix = prefix.now; count = 0; form = N4 } }
    {
        Head4 {
            base: BaseNode::new(prefix, NodeType::N4),
            keys: [0; 4],
        }
    }
}

impl<C: Drop> Head<C> for Head4 {
    ghost use Rattle.node_base.specs.inner.Few.{listed};
    ghost use Rattle.node_base.specs.inner.Sorted.{pairs};
    ghost use Rattle.node_base.specs.declared.base_node.NodeType.TheVariants.{N4};
    ghost use Rattle.node_forms.specs.Heads.{IsNode4};

    type Row = Few<C>;

    ghost form = { λ _. N4 };

    ghost prefix = { λ h. h.base.prefix };

    ghost children = { λ h row. pairs h.keys (listed row) };

    ghost IsNode = { IsNode4 };

    fn base<'a>(&'a self, _row: &Few<C>) -> &'a BaseNode {
        &self.base
    }

    fn get_child<'a>(&'a self, row: &'a Few<C>, byte: u8) -> Option<&'a C> {
        let count = self.base.value_count() as usize;
        let i = find_4(&self.keys, count, byte);
        if i < count { row.get(i) } else { None }
    }

    fn get_children<'a>(&'a self, row: &'a Few<C>, start: u8, end: u8) -> NodeIter<'a, C> {
        let count = self.base.value_count() as usize;
        let low = place(&self.keys, count, start as usize);
        let high = place(&self.keys, count, end as usize + 1);
        let keys = if low < high {
            &self.keys[low..high]
        } else {
            &[]
        };
        NodeIter::N4(Node4Iter {
            keys,
            children: row,
            at: low,
        })
    }

    fn last_byte(&self, _row: &Few<C>, to: usize) -> Option<u8> {
        let count = self.base.value_count() as usize;
        let i = place(&self.keys, count, to);
        if i == 0 { None } else { Some(self.keys[i - 1]) }
    }

    fn insert(&mut self, row: &mut Few<C>, byte: u8, child: C) {
        let count = self.base.value_count() as usize;
        let i = place(&self.keys, count, byte as usize);
        insert_byte(&mut self.keys, count, i, byte);
        row.insert(i, child);
        self.base.count_up();
    }

    fn exchange(&mut self, row: &mut Few<C>, byte: u8, child: C) -> Result<C, C> {
        let count = self.base.value_count() as usize;
        let i = find_4(&self.keys, count, byte);
        if i < count {
            Ok(row.replace(i, child))
        } else {
            Err(child)
        }
    }

    fn take(&mut self, row: &mut Few<C>, byte: u8) -> Option<C> {
        let count = self.base.value_count() as usize;
        let i = find_4(&self.keys, count, byte);
        if i < count {
            remove_byte(&mut self.keys, count, i);
            self.base.count_down();
            Some(row.remove(i))
        } else {
            None
        }
    }
}
