//! What all forms of nodes have, the size that each is charged, and the one contract that they meet.
//!
//! Tested in `congee_nodes`.

ghost use Rattle.std.specs.Prelude.{◌≡◌, ◌↔◌, ℕ, ◌+◌, ◌-◌, ◌<◌, ◌≤◌, List, [], ◌∷◌, ◌++◌, length, take, replicate, IsTrue, false, IsSome, Some, None, IfOk, IfErr, OnOk, OnErr, option_copied};
ghost use Rattle.std.specs.Int.{w64, to_be_bytes, from_be_bytes};
ghost use Rattle.std.specs.Option.{option_map};
ghost use Rattle.spec_map.specs.Map.{lookup, put, without, between, Rises};
ghost use Rattle.spec_map.specs.Near.{below_of};
ghost use Rattle.node_base.specs.Form.{Fits, stated_size};
ghost use Rattle.node_base.specs.Rest.{rest};

use crate::iter::NodeIter;
use std::marker::Model;
use std::mem;

/// The four forms, named by how many children each has room for (*The Adaptive Radix Tree*, Leis et al., section III).
#[derive(Clone, Copy, Debug, PartialEq, Eq)]
pub enum NodeType {
    N4,
    N16,
    N48,
    N256,
}

/// What a budget is charged for a node of one form.
///
/// A stated number of bytes, which isn't the memory that the machine takes.
#[derive(Clone, Copy, Debug, PartialEq, Eq)]
pub struct NodeSize {
    form: NodeType,
}

impl Model for NodeSize {
    ghost use Rattle.node_base.specs.declared.base_node.NodeType.{NodeType};

    ghost Value = { NodeType };

    ghost view = { λ s. s.form };

    ghost inverse = { λ form. record { form = form } };
}

impl NodeSize {
    /// The size of a form; contracts see it as that form.
    pub fn of(form: NodeType) -> Self
        ensures { result ≡ form }
    {
        NodeSize { form }
    }

    /// 64, 168, 672 or 2104 bytes, for 4, 16, 48 and 256 children.
    pub fn bytes(self) -> u64
        ensures { result ≡ stated_size self }
    {
        match self.form {
            NodeType::N4 => 64,
            NodeType::N16 => 168,
            NodeType::N48 => 672,
            NodeType::N256 => 2104,
        }
    }
}

/// The prefix, the number of children and the form of a node: 11 bytes, of alignment 1.
///
/// The prefix is all key bytes from the root down to the node, seven at most, and never changes.
#[derive(Drop)]
pub struct BaseNode {
    // the prefix, and its length in the last byte: one word, which `begins` compares
    bytes: [u8; 8],
    // as two bytes, so that the base begins right behind a tag of one
    count: [u8; 2],
    form: NodeType,
}

impl Model for BaseNode {
    ghost use Rattle.std.specs.Prelude.{◌≡◌, ◌≤◌, take, slice_index};
    ghost use Rattle.std.specs.Int.{w16, from_le_bytes};
    ghost use Rattle.node_base.specs.NodeView.{BaseView};

    ghost Value = { BaseView };

    ghost view = { λ n. record { prefix = take (slice_index n.bytes 7) n.bytes; count = from_le_bytes w16 n.count; form = n.form } };

    ghost invariant = { λ n. (slice_index n.bytes 7 ≤ 7) × (from_le_bytes w16 n.count ≤ 256) };
}

// Whether the eight bytes and those of the key, most significant first, begin with the same bytes, so many.
fn begin_alike(bytes: &[u8; 8], length: u8, key: u64) -> bool
    requires { length ≤ 7 }
    ensures { IsTrue result ↔ (take length bytes.now ≡ take length (to_be_bytes w64 key)) }
{
    // by two shifts, as none can be by all 64 bits
    let rest = 56 - 8 * length as u32;
    (u64::from_be_bytes(*bytes) >> 8) >> rest == (key >> 8) >> rest
}

// The number of eight bytes that begin with so many of these; the others are 0.
fn number_of(bytes: &[u8; 8], length: u8) -> u64
    requires { length ≤ 7 }
    ensures { result ≡ from_be_bytes w64 (take length bytes.now ++ replicate (8 - length) 0) }
{
    let rest = 56 - 8 * length as u32;
    ((u64::from_be_bytes(*bytes) >> 8) >> rest) << rest << 8
}

impl BaseNode {
    /// The base of an empty node of a form.
    pub fn new(prefix: &[u8], form: NodeType) -> Self
        requires { length prefix.now ≤ 7 }
        ensures { result ≡ record { prefix = prefix.now; count = 0; form = form } }
    {
        let mut bytes = [0u8; 8];
        let length = prefix.len();
        bytes[..length].copy_from_slice(prefix);
        bytes[7] = length as u8;
        BaseNode {
            bytes,
            count: [0; 2],
            form,
        }
    }

    /// The key bytes from the root down to the node, seven at most.
    pub fn prefix(&self) -> &[u8]
        ensures bytes { result.now ≡ self.now.prefix }
        ensures short { length result.now ≤ 7 }
    {
        &self.bytes[..self.bytes[7] as usize]
    }

    /// Whether a key of these eight bytes, most significant first, begins with the prefix: one comparison.
    pub fn begins(&self, key: u64) -> bool
        ensures { IsTrue result ↔ (take (length self.now.prefix) (to_be_bytes w64 key) ≡ self.now.prefix) }
    {
        begin_alike(&self.bytes, self.bytes[7], key)
    }

    /// The least key that begins with the prefix.
    pub fn first_key(&self) -> u64
        ensures { result ≡ from_be_bytes w64
            (self.now.prefix ++ replicate (8 - length self.now.prefix) 0) }
    {
        number_of(&self.bytes, self.bytes[7])
    }

    /// How many children the node has: 0 to 256.
    pub fn value_count(&self) -> u16
        ensures { result ≡ self.now.count }
    {
        u16::from_le_bytes(self.count)
    }

    /// The node's form.
    pub fn get_type(&self) -> NodeType
        ensures { result ≡ self.now.form }
    {
        self.form
    }

    /// The base of a node of another form with this prefix, and all the children, of which none is left here.
    pub fn hand_over(&mut self, form: NodeType) -> Self
        ensures other { result ≡ record self.old { form = form } }
        ensures none { self.new ≡ record self.old { count = 0 } }
    {
        let count = mem::replace(&mut self.count, [0; 2]);
        BaseNode {
            bytes: self.bytes,
            count,
            form,
        }
    }

    /// Counts one child more.
    pub fn count_up(&mut self)
        requires { self.old.count < 256 }
        ensures { self.new ≡ record self.old { count = self.old.count + 1 } }
    {
        self.count = (self.value_count() + 1).to_le_bytes();
    }

    /// Counts one child less.
    pub fn count_down(&mut self)
        requires { 0 < self.old.count }
        ensures prefix { self.new.prefix ≡ self.old.prefix }
        ensures form { self.new.form ≡ self.old.form }
        ensures count { self.new.count + 1 ≡ self.old.count }
    {
        self.count = (self.value_count() - 1).to_le_bytes();
    }
}

/// A finite map from bytes to children, with a prefix and a form that stay.
///
/// No call takes memory, and none fails. Children are moved, never cloned.
pub trait Node<C>: Drop + Sized {
    ghost use Rattle.node_base.specs.declared.base_node.NodeType.{NodeType};
    ghost use Rattle.std.specs.Prelude.{ℕ, List};

    ghost form: { Self → NodeType };

    ghost prefix: { Self → List ℕ };

    ghost children: { Self → List (ℕ × C) };

    /// What all forms have.
    fn base(&self) -> &BaseNode
        ensures prefix { result.now.prefix ≡ prefix self.now }
        ensures count { result.now.count ≡ length (children self.now) }
        ensures form { result.now.form ≡ form self.now }
        ensures within { Fits (form self.now) (length (children self.now)) }
        ensures ascending { Rises 0 256 (children self.now) };

    /// Whether there is no room for one child more.
    fn is_full(&self) -> bool
        ensures full { IsTrue result → Fits (form self.now) (length (children self.now) + 1) → ⊥ }
        ensures room { result ≡ false → Fits (form self.now) (length (children self.now) + 1) };

    /// The child under a byte, or `None`.
    fn get_child(&self, byte: u8) -> Option<&C>
        ensures found { option_copied result ≡ lookup (children self.now) byte }
        ensures ascending { Rises 0 256 (children self.now) };

    /// The children with `start <= byte <= end`, ascending; none where `start > end`.
    fn get_children(&self, start: u8, end: u8) -> NodeIter<'_, C>
        ensures children { rest result ≡ between (children self.now) start (end + 1) }
        ensures ascending { Rises 0 256 (children self.now) };

    /// The greatest byte below `to` that has a child.
    fn last_byte(&self, to: usize) -> Option<u8>
        requires { to ≤ 256 }
        ensures { result ≡ option_map (λ found. found.0) (below_of (children self.now) to) };

    /// Adds a child under a byte that has none, in a node that is not full.
    fn insert(&mut self, byte: u8, child: C)
        requires absent { lookup (children self.old) byte ≡ None }
        requires room { Fits (form self.old) (length (children self.old) + 1) }
        ensures children { children self.new ≡ put (children self.old) byte child }
        ensures prefix { prefix self.new ≡ prefix self.old }
        ensures form { form self.new ≡ form self.old };

    /// Replaces the child under a byte, and returns the previous one. A byte that has none keeps none: then `Err`
    /// returns the new child.
    fn exchange(&mut self, byte: u8, child: C) -> Result<C, C>
        ensures before { IfOk result (λ c. lookup (children self.old) byte ≡ Some c) }
        ensures children { OnOk result (children self.new ≡ put (children self.old) byte child) }
        ensures absent { OnErr result (lookup (children self.old) byte ≡ None) }
        ensures back { IfErr result (λ c. c ≡ child) }
        ensures same { OnErr result (children self.new ≡ children self.old) }
        ensures prefix { prefix self.new ≡ prefix self.old }
        ensures form { form self.new ≡ form self.old };

    /// Takes out the child under a byte, if there is one, and returns it.
    fn take(&mut self, byte: u8) -> Option<C>
        ensures before { result ≡ lookup (children self.old) byte }
        ensures children { children self.new ≡ without (children self.old) byte }
        ensures prefix { prefix self.new ≡ prefix self.old }
        ensures form { form self.new ≡ form self.old };

    /// Puts another child in the place of one, which it returns.
    fn change(&mut self, byte: u8, child: C) -> C
        requires present { IsSome (lookup (children self.old) byte) }
        ensures before { lookup (children self.old) byte ≡ Some result }
        ensures children { children self.new ≡ put (children self.old) byte child }
        ensures prefix { prefix self.new ≡ prefix self.old }
        ensures form { form self.new ≡ form self.old }
    {
        match self.exchange(byte, child) {
            Ok(before) => before,
            Err(_) => unreachable!(),
        }
    }

    /// Takes out the child under a byte, and returns it.
    fn remove(&mut self, byte: u8) -> C
        requires present { IsSome (lookup (children self.old) byte) }
        ensures before { lookup (children self.old) byte ≡ Some result }
        ensures children { children self.new ≡ without (children self.old) byte }
        ensures prefix { prefix self.new ≡ prefix self.old }
        ensures form { form self.new ≡ form self.old }
    {
        match self.take(byte) {
            Some(child) => child,
            None => unreachable!(),
        }
    }

    /// The node's form.
    fn get_type(&self) -> NodeType
        ensures { result ≡ form self.now }
    {
        self.base().get_type()
    }
}

/// Handing all children over to another node.
///
/// A trait of its own, as a method of a trait can have no bound on that same trait; every `Node` has it.
pub trait CopyTo<C>: Node<C> {
    /// Moves every child to `dst`, which is empty, has room and keeps its own prefix and form.
    fn copy_to<N: Node<C>>(self, dst: &mut N)
        requires empty { N.children dst.old ≡ [] }
        requires room { Fits (N.form dst.old) (length (Self.children self)) }
        ensures children { N.children dst.new ≡ Self.children self }
        ensures prefix { N.prefix dst.new ≡ N.prefix dst.old }
        ensures form { N.form dst.new ≡ N.form dst.old };
}

impl<C, A: Node<C>> CopyTo<C> for A {
    fn copy_to<N: Node<C>>(mut self, dst: &mut N) {
        let _ = self.base();
        let mut at = 0u8;
        while let Some((byte, _)) = self.get_children(at, 255).next() {
            let child = self.remove(byte);
            dst.insert(byte, child);
            at = byte;
        }
    }
}
