//! Iterators over the children of a node, each with its byte, ascending. They borrow the node and take no memory.
//!
//! Tested in `congee_nodes`.

ghost use Rattle.std.specs.Prelude.{◌≡◌, ℕ, ◌+◌, ◌≤◌, length};
ghost use Rattle.std.specs.Iterator.{YieldsFirstBy, item_count};

use crate::few::Few;
use crate::places::Places;
use crate::row::next_placed;

/// What `get_children` of a `Node4` returns: bytes, and the children from a place on.
///
/// As in the other iterators here, any values of the fields are an iterator: it ends where the shorter part ends.
#[derive(Drop)]
pub struct Node4Iter<'a, C> {
    /// The bytes that are left, ascending.
    pub keys: &'a [u8],
    /// All children of the node.
    pub children: &'a Few<C>,
    /// The place of the child that belongs to the first byte.
    pub at: usize,
}

impl<'a, C> Iterator for Node4Iter<'a, C> {
    type Item = (u8, &'a C);

    ghost use Rattle.node_base.specs.Rest.{rest_4};

    ghost next_gives = { YieldsFirstBy (λ item. (item.0, item.1.now)) rest_4 };

    ghost remaining = { item_count rest_4 };

    fn next(&mut self) -> Option<(u8, &'a C)> {
        let (byte, keys) = self.keys.split_first()?;
        let child = self.children.get(self.at)?;
        self.keys = keys;
        self.at += 1;
        Some((*byte, child))
    }
}

/// What `get_children` of a `Node16` returns: bytes and the children beside them.
#[derive(Drop)]
pub struct Node16Iter<'a, C> {
    /// The bytes that are left, ascending.
    pub keys: &'a [u8],
    /// Their children, in the same order.
    pub children: &'a [C],
}

impl<'a, C> Iterator for Node16Iter<'a, C> {
    type Item = (u8, &'a C);

    ghost use Rattle.node_base.specs.Rest.{rest_16};

    ghost next_gives = { YieldsFirstBy (λ item. (item.0, item.1.now)) rest_16 };

    ghost remaining = { item_count rest_16 };

    fn next(&mut self) -> Option<(u8, &'a C)> {
        let (byte, keys) = self.keys.split_first()?;
        let (child, children) = self.children.split_first()?;
        self.keys = keys;
        self.children = children;
        Some((*byte, child))
    }
}

/// What `get_children` of a `Node48` returns: the children of the bytes from one on up to the last. It passes the bytes
/// of the index without a child, sixteen in a step.
#[derive(Drop)]
pub struct Node48Iter<'a, C> {
    /// The next byte to look at; past `last`, none.
    pub at: usize,
    /// The last byte of the scan, which belongs to it.
    pub last: u8,
    /// The place of each byte's child; a place past the children means that the byte has none.
    pub index: &'a [u8; 256],
    /// The children, in any order.
    pub children: &'a [C],
}

impl<'a, C> Iterator for Node48Iter<'a, C> {
    type Item = (u8, &'a C);

    ghost use Rattle.node_base.specs.Rest.{rest_48};

    ghost next_gives = { YieldsFirstBy (λ item. (item.0, item.1.now)) rest_48 };

    ghost remaining = { item_count rest_48 };

    fn next(&mut self) -> Option<(u8, &'a C)> {
        let Some(byte) = next_placed(self.index, self.at, self.children.len()) else {
            return None;
        };
        if byte > self.last {
            return None;
        }
        self.at = byte as usize + 1;
        Some((byte, &self.children[self.index[byte as usize] as usize]))
    }
}

/// What `get_children` of a `Node256` returns: the children of the bytes from one on up to the last. By the mask it
/// passes the bytes without a child, 64 in a step.
#[derive(Drop)]
pub struct Node256Iter<'a, C> {
    /// The next byte to look at; past `last`, none.
    pub at: usize,
    /// The last byte of the scan, which belongs to it.
    pub last: u8,
    /// The children, each in the cell of its byte.
    pub places: &'a Places<C>,
}

impl<'a, C> Iterator for Node256Iter<'a, C> {
    type Item = (u8, &'a C);

    ghost use Rattle.node_base.specs.Rest.{rest_256};

    ghost next_gives = { YieldsFirstBy (λ item. (item.0, item.1.now)) rest_256 };

    ghost remaining = { item_count rest_256 };

    fn next(&mut self) -> Option<(u8, &'a C)> {
        let Some(byte) = self.places.next(self.at) else {
            return None;
        };
        if byte > self.last {
            return None;
        }
        self.at = byte as usize + 1;
        Some((byte, self.places.get_filled(byte)))
    }
}

/// What `get_children` of any form returns.
#[derive(Drop)]
pub enum NodeIter<'a, C> {
    N4(Node4Iter<'a, C>),
    N16(Node16Iter<'a, C>),
    N48(Node48Iter<'a, C>),
    N256(Node256Iter<'a, C>),
}

impl<'a, C> Iterator for NodeIter<'a, C> {
    type Item = (u8, &'a C);

    ghost use Rattle.node_base.specs.Rest.{rest};

    ghost next_gives = { YieldsFirstBy (λ item. (item.0, item.1.now)) rest };

    ghost remaining = { item_count rest };

    fn next(&mut self) -> Option<(u8, &'a C)> {
        match self {
            NodeIter::N4(children) => children.next(),
            NodeIter::N16(children) => children.next(),
            NodeIter::N48(children) => children.next(),
            NodeIter::N256(children) => children.next(),
        }
    }
}
