//! The head of a node with up to forty-eight bytes: the bytes, ascending. The children are in the row beside it, which may
//! have room for fewer.
//!
//! Tested in `test_owned` and `tools/dev/try-commands`.

ghost use Rattle.std.specs.Prelude.{◌≡◌, ◌+◌, ◌<◌, ◌≤◌, length, None, Some, IfOk, IfErr, OnOk, OnErr, option_copied, slice_set, vec_capacity};
ghost use Rattle.std.specs.Option.{option_map};
ghost use Rattle.spec_map.specs.Map.{lookup, put, without, between, Rises};
ghost use Rattle.spec_map.specs.Near.{below_of};
ghost use Rattle.node_base.specs.Rest.{rest};
ghost use Rattle.node_base.specs.inner.Sorted.{pairs, IsSorted};
ghost use Rattle.node_base.specs.declared.base_node.NodeType.TheVariants.{N48};
ghost use Rattle.node_rows.specs.inner.Steps.{IsHeadOf};

use crate::search::rank_48;
use node_base::base_node::{BaseNode, NodeType};
use node_base::head::Head;
use node_base::iter::{Node16Iter, NodeIter};
use node_base::sorted::{insert_byte, remove_byte};
use std::mem;

/// What a node with a row has but its children: 59 bytes, of alignment 1.
#[derive(Drop)]
pub struct RowHead {
    pub(crate) base: BaseNode,
    pub(crate) keys: [u8; 48],
}

impl RowHead {
    /// The head of an empty node.
    pub(crate) fn new(prefix: &[u8]) -> Self
        requires { length prefix.now ≤ 7 }
        ensures { result.base ≡ record { prefix = prefix.now; count = 0; form = N48 } }
    {
        RowHead {
            base: BaseNode::new(prefix, NodeType::N48),
            keys: [0; 48],
        }
    }

    // What all forms have.
    #[inline(always)]
    pub(crate) fn base_of<'a, C: Drop>(&'a self, _row: &Vec<C>) -> &'a BaseNode
        requires { IsHeadOf self.now _row.now.items }
        ensures prefix { result.now.prefix ≡ self.now.base.prefix }
        ensures count { result.now.count ≡ length (pairs self.now.keys _row.now.items) }
        ensures form { result.now.form ≡ N48 }
        ensures within { length (pairs self.now.keys _row.now.items) ≤ 48 }
        ensures ascending { Rises 0 256 (pairs self.now.keys _row.now.items) }
    {
        &self.base
    }

    /// The child under a byte, or `None`.
    #[inline(always)]
    pub(crate) fn child<'a, C: Drop>(&'a self, row: &'a Vec<C>, byte: u8) -> Option<&'a C>
        requires { IsHeadOf self.now row.now.items }
        ensures found { option_copied result ≡ lookup (pairs self.now.keys row.now.items) byte }
        ensures ascending { Rises 0 256 (pairs self.now.keys row.now.items) }
    {
        let count = row.len();
        let i = rank_48(&self.keys, count, byte);
        if i < count && self.keys[i] == byte {
            Some(&row[i])
        } else {
            None
        }
    }

    /// The children with `start <= byte <= end`, ascending; none where `start > end`.
    pub(crate) fn children<'a, C: Drop>(
        &'a self,
        row: &'a Vec<C>,
        start: u8,
        end: u8,
    ) -> NodeIter<'a, C>
        requires { IsHeadOf self.now row.now.items }
        ensures children { rest result
            ≡ between (pairs self.now.keys row.now.items) start (end + 1) }
        ensures ascending { Rises 0 256 (pairs self.now.keys row.now.items) }
    {
        let count = row.len();
        let low = rank_48(&self.keys, count, start);
        let high = if end == 255 {
            count
        } else {
            rank_48(&self.keys, count, end + 1)
        };
        if low < high {
            return NodeIter::N16(Node16Iter {
                keys: &self.keys[low..high],
                children: &row[low..high],
            });
        }
        NodeIter::N16(Node16Iter {
            keys: &[],
            children: &[],
        })
    }

    /// The greatest byte below `to` that has a child.
    pub(crate) fn byte_below<C: Drop>(&self, row: &Vec<C>, to: usize) -> Option<u8>
        requires node { IsHeadOf self.now row.now.items }
        requires within { to ≤ 256 }
        ensures { result
            ≡ option_map (λ found. found.0) (below_of (pairs self.now.keys row.now.items) to) }
    {
        let count = row.len();
        let i = if to > 255 {
            count
        } else {
            rank_48(&self.keys, count, to as u8)
        };
        if i == 0 { None } else { Some(self.keys[i - 1]) }
    }

    /// Adds a child under a byte that has none, where the row has room.
    pub(crate) fn add<C: Drop>(&mut self, row: &mut Vec<C>, byte: u8, child: C)
        requires node { IsHeadOf self.old row.old.items }
        requires absent { lookup (pairs self.old.keys row.old.items) byte ≡ None }
        requires few { length row.old.items < 48 }
        requires room { length row.old.items < vec_capacity row.old }
        ensures node { IsHeadOf self.new row.new.items }
        ensures children { pairs self.new.keys row.new.items
            ≡ put (pairs self.old.keys row.old.items) byte child }
        ensures prefix { self.new.base.prefix ≡ self.old.base.prefix }
        ensures len { length row.new.items ≡ length row.old.items + 1 }
        ensures capacity { vec_capacity row.old ≤ vec_capacity row.new }
    {
        let count = row.len();
        let i = rank_48(&self.keys, count, byte);
        insert_byte(&mut self.keys, count, i, byte);
        match row.insert(i, child) {
            Ok(()) => {}
            Err(_) => unreachable!(),
        }
        self.base.count_up();
    }

    /// Adds a byte, which is above all others, where the row has a child more than there are bytes.
    #[inline(always)]
    pub(crate) fn add_byte(&mut self, byte: u8)
        requires few { self.old.base.count < 48 }
        requires long { length self.old.keys ≡ 48 }
        ensures keys { self.new.keys ≡ slice_set self.old.keys self.old.base.count byte }
        ensures base { self.new.base
            ≡ record self.old.base { count = self.old.base.count + 1 } }
    {
        let count = self.base.value_count() as usize;
        self.keys[count] = byte;
        self.base.count_up();
    }

    /// Replaces the child under a byte, and returns the previous one. A byte that has none keeps none: then `Err`
    /// returns the new child.
    #[inline(always)]
    pub(crate) fn replace<C: Drop>(&mut self, row: &mut Vec<C>, byte: u8, child: C) -> Result<C, C>
        requires node { IsHeadOf self.old row.old.items }
        ensures node { IsHeadOf self.new row.new.items }
        ensures before { IfOk result (λ c.
            lookup (pairs self.old.keys row.old.items) byte ≡ Some c) }
        ensures children { OnOk result (pairs self.new.keys row.new.items
            ≡ put (pairs self.old.keys row.old.items) byte child) }
        ensures absent { OnErr result (lookup (pairs self.old.keys row.old.items) byte ≡ None) }
        ensures back { IfErr result (λ c. c ≡ child) }
        ensures same { OnErr result (pairs self.new.keys row.new.items
            ≡ pairs self.old.keys row.old.items) }
        ensures head { self.new ≡ self.old }
        ensures len { length row.new.items ≡ length row.old.items }
        ensures capacity { vec_capacity row.new ≡ vec_capacity row.old }
    {
        let count = row.len();
        let i = rank_48(&self.keys, count, byte);
        if i < count && self.keys[i] == byte {
            Ok(mem::replace(&mut row[i], child))
        } else {
            Err(child)
        }
    }

    /// Takes out the child under a byte, if there is one, and returns it.
    pub(crate) fn remove<C: Drop>(&mut self, row: &mut Vec<C>, byte: u8) -> Option<C>
        requires node { IsHeadOf self.old row.old.items }
        ensures node { IsHeadOf self.new row.new.items }
        ensures before { result ≡ lookup (pairs self.old.keys row.old.items) byte }
        ensures children { pairs self.new.keys row.new.items
            ≡ without (pairs self.old.keys row.old.items) byte }
        ensures prefix { self.new.base.prefix ≡ self.old.base.prefix }
        ensures len { length row.new.items ≤ length row.old.items }
        ensures capacity { vec_capacity row.new ≡ vec_capacity row.old }
    {
        let count = row.len();
        let i = rank_48(&self.keys, count, byte);
        if i < count && self.keys[i] == byte {
            remove_byte(&mut self.keys, count, i);
            self.base.count_down();
            Some(row.remove(i))
        } else {
            None
        }
    }
}

/// A head whose row has room for all forty-eight children, as nodes of the other forms take them and give them.
impl<C: Drop> Head<C> for RowHead {
    ghost use Rattle.node_base.specs.inner.Sorted.{pairs};
    ghost use Rattle.node_base.specs.declared.base_node.NodeType.TheVariants.{N48};
    ghost use Rattle.node_rows.specs.inner.Steps.{IsWholeRow};

    type Row = Vec<C>;

    ghost form = { λ _. N48 };

    ghost prefix = { λ h. h.base.prefix };

    ghost children = { λ h row. pairs h.keys row.items };

    ghost IsNode = { IsWholeRow };

    fn base<'a>(&'a self, row: &Vec<C>) -> &'a BaseNode {
        self.base_of(row)
    }

    fn get_child<'a>(&'a self, row: &'a Vec<C>, byte: u8) -> Option<&'a C> {
        self.child(row, byte)
    }

    fn get_children<'a>(&'a self, row: &'a Vec<C>, start: u8, end: u8) -> NodeIter<'a, C> {
        self.children(row, start, end)
    }

    fn last_byte(&self, row: &Vec<C>, to: usize) -> Option<u8> {
        self.byte_below(row, to)
    }

    fn insert(&mut self, row: &mut Vec<C>, byte: u8, child: C) {
        self.add(row, byte, child);
    }

    fn exchange(&mut self, row: &mut Vec<C>, byte: u8, child: C) -> Result<C, C> {
        self.replace(row, byte, child)
    }

    fn take(&mut self, row: &mut Vec<C>, byte: u8) -> Option<C> {
        self.remove(row, byte)
    }
}
