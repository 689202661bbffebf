//! A node as two values, its head and its row of children, so that an enum can have both side by side in one arm.
//!
//! A struct of both has the row's alignment, and so begins eight bytes behind the enum's tag. A head alone has
//! alignment 1 and fills those bytes: so a node in a table of nodes is as large as one cache line, its slot's tag
//! included.
//!
//! Tested in `congee_nodes`.

ghost use Rattle.std.specs.Prelude.{◌≡◌, ℕ, ◌+◌, ◌<◌, ◌≤◌, List, [], length, None, Some, IfOk, IfErr, OnOk, OnErr, option_copied};
ghost use Rattle.std.specs.Option.{option_map};
ghost use Rattle.spec_map.specs.Map.{lookup, put, without, between, Rises};
ghost use Rattle.spec_map.specs.Near.{below_of};
ghost use Rattle.node_base.specs.Form.{Fits};
ghost use Rattle.node_base.specs.Rest.{rest};

use crate::base_node::{BaseNode, Node};
use crate::iter::NodeIter;

/// The head of a node that is one value.
#[derive(Drop)]
pub struct Whole<N> {
    pub node: N,
}

/// The row of a `Whole`: the node has its children itself.
#[derive(Drop)]
pub struct Own;

/// What a node has but the row of its children. The calls are those of a `Node`, and take the row beside.
pub trait Head<C>: Sized {
    ghost use Rattle.node_base.specs.declared.base_node.NodeType.{NodeType};
    ghost use Rattle.std.specs.Prelude.{ℕ, List};

    type Row;

    ghost form: { Self → NodeType };

    ghost prefix: { Self → List ℕ };

    ghost children: { Self → Self.Row → List (ℕ × C) };

    /// The row is that of this head.
    ghost IsNode: { Self → Self.Row → Type 0 };

    /// What all forms have.
    fn base<'a>(&'a self, row: &Self::Row) -> &'a BaseNode
        requires { IsNode self.now row.now }
        ensures prefix { result.now.prefix ≡ prefix self.now }
        ensures count { result.now.count ≡ length (children self.now row.now) }
        ensures form { result.now.form ≡ form self.now }
        ensures within { Fits (form self.now) (length (children self.now row.now)) }
        ensures ascending { Rises 0 256 (children self.now row.now) };

    /// The child under a byte, or `None`.
    fn get_child<'a>(&'a self, row: &'a Self::Row, byte: u8) -> Option<&'a C>
        requires { IsNode self.now row.now }
        ensures found { option_copied result ≡ lookup (children self.now row.now) byte }
        ensures ascending { Rises 0 256 (children self.now row.now) };

    /// The children with `start <= byte <= end`, ascending; none where `start > end`.
    fn get_children<'a>(&'a self, row: &'a Self::Row, start: u8, end: u8) -> NodeIter<'a, C>
        requires { IsNode self.now row.now }
        ensures children { rest result ≡ between (children self.now row.now) start (end + 1) }
        ensures ascending { Rises 0 256 (children self.now row.now) };

    /// The greatest byte below `to` that has a child.
    fn last_byte(&self, row: &Self::Row, to: usize) -> Option<u8>
        requires node { IsNode self.now row.now }
        requires within { to ≤ 256 }
        ensures { result ≡ option_map (λ found. found.0) (below_of (children self.now row.now) to) };

    /// Adds a child under a byte that has none, in a node that is not full.
    fn insert(&mut self, row: &mut Self::Row, byte: u8, child: C)
        requires node { IsNode self.old row.old }
        requires absent { lookup (children self.old row.old) byte ≡ None }
        requires room { Fits (form self.old) (length (children self.old row.old) + 1) }
        ensures node { IsNode self.new row.new }
        ensures children { children self.new row.new ≡ put (children self.old row.old) byte child }
        ensures prefix { prefix self.new ≡ prefix self.old }
        ensures form { form self.new ≡ form self.old };

    /// Replaces the child under a byte, and returns the previous one. A byte that has none keeps none: then `Err`
    /// returns the new child.
    fn exchange(&mut self, row: &mut Self::Row, byte: u8, child: C) -> Result<C, C>
        requires node { IsNode self.old row.old }
        ensures node { IsNode self.new row.new }
        ensures before { IfOk result (λ c. lookup (children self.old row.old) byte ≡ Some c) }
        ensures children { OnOk result
            (children self.new row.new ≡ put (children self.old row.old) byte child) }
        ensures absent { OnErr result (lookup (children self.old row.old) byte ≡ None) }
        ensures back { IfErr result (λ c. c ≡ child) }
        ensures same { OnErr result (children self.new row.new ≡ children self.old row.old) }
        ensures prefix { prefix self.new ≡ prefix self.old }
        ensures form { form self.new ≡ form self.old };

    /// Takes out the child under a byte, if there is one, and returns it.
    fn take(&mut self, row: &mut Self::Row, byte: u8) -> Option<C>
        requires node { IsNode self.old row.old }
        ensures node { IsNode self.new row.new }
        ensures before { result ≡ lookup (children self.old row.old) byte }
        ensures children { children self.new row.new ≡ without (children self.old row.old) byte }
        ensures prefix { prefix self.new ≡ prefix self.old }
        ensures form { form self.new ≡ form self.old };
}

impl<C, N: Node<C>> Head<C> for Whole<N> {
    type Row = Own;

    ghost form = { λ w. N.form w.node };

    ghost prefix = { λ w. N.prefix w.node };

    ghost children = { λ w _. N.children w.node };

    ghost IsNode = { λ _ _. Unit {0} };

    fn base<'a>(&'a self, _row: &Own) -> &'a BaseNode {
        self.node.base()
    }

    fn get_child<'a>(&'a self, _row: &'a Own, byte: u8) -> Option<&'a C> {
        self.node.get_child(byte)
    }

    fn get_children<'a>(&'a self, _row: &'a Own, start: u8, end: u8) -> NodeIter<'a, C> {
        self.node.get_children(start, end)
    }

    fn last_byte(&self, _row: &Own, to: usize) -> Option<u8> {
        self.node.last_byte(to)
    }

    fn insert(&mut self, _row: &mut Own, byte: u8, child: C) {
        self.node.insert(byte, child);
    }

    fn exchange(&mut self, _row: &mut Own, byte: u8, child: C) -> Result<C, C> {
        self.node.exchange(byte, child)
    }

    fn take(&mut self, _row: &mut Own, byte: u8) -> Option<C> {
        self.node.take(byte)
    }
}

/// Moves every child of a node, given as its head and its row, to another one that is empty and has room, and keeps its
/// own prefix and form. Each byte of the old node is passed once.
pub fn move_children<C, A: Head<C>, B: Head<C>>(
    old: &mut A,
    old_row: &mut A::Row,
    new: &mut B,
    new_row: &mut B::Row,
)
    requires old { A.IsNode old.old old_row.old }
    requires new { B.IsNode new.old new_row.old }
    requires empty { B.children new.old new_row.old ≡ [] }
    requires room { Fits (B.form new.old) (length (A.children old.old old_row.old)) }
    ensures old { A.IsNode old.new old_row.new }
    ensures new { B.IsNode new.new new_row.new }
    ensures children { B.children new.new new_row.new ≡ A.children old.old old_row.old }
    ensures prefix { B.prefix new.new ≡ B.prefix new.old }
    ensures form { B.form new.new ≡ B.form new.old }
    ensures old_prefix { A.prefix old.new ≡ A.prefix old.old }
    ensures old_form { A.form old.new ≡ A.form old.old }
{
    let _ = old.base(old_row);
    let mut at = 0u8;
    while let Some((byte, _)) = old.get_children(old_row, at, 255).next() {
        let Some(child) = old.take(old_row, byte) else {
            unreachable!()
        };
        new.insert(new_row, byte, child);
        at = byte;
    }
}
