//! A node of one form as a node of a tree in one table: its children are payloads, or what an inner node has in their
//! places.
//!
//! Tested in `congee_nodes`.

ghost use Rattle.std.specs.Prelude.{◌≡◌, ◌+◌, ◌<◌, ◌≤◌, [], ◌∷◌, length, IfOk, IfErr, OnOk, OnErr, IfSome, IfNone, Some, None};
ghost use Rattle.std.specs.Int.{w64, to_be_bytes};
ghost use Rattle.std.specs.Option.{option_map};
ghost use Rattle.spec_map.specs.Map.{lookup, between, Rises};
ghost use Rattle.spec_map.specs.Near.{below_of};
ghost use Rattle.node_base.specs.Form.{Fits};
ghost use Rattle.node_base.specs.Rest.{rest};
ghost use Rattle.node_table.specs.Children.{children_left, MayYield};
ghost use Rattle.node_table.specs.inner.Kinds.{inner_node, leaf_node, places, payloads, with_child, without_child};
ghost use Rattle.spec_node.specs.Meeting.{IsMet, met_at};
ghost use Rattle.spec_node.specs.TableNode.{MayHave, TableNodeOf, looked_at_ref};
ghost use Rattle.spec_node.specs.declared.child.Child.TheVariants.{Payload};

use crate::setting::set_child;
use node_base::base_node::BaseNode;
use node_base::head::Head;
use node_base::iter::{Node16Iter, NodeIter};
use spec_node::child::{Child, ChildIter, ChildRef, Meeting};

/// The head of an inner node of one form: its row has what is in its children's places.
#[derive(Drop)]
pub struct InnerHead<H> {
    pub head: H,
}

/// The head of a leaf of one form: its children are payloads.
#[derive(Drop)]
pub struct Leaf<H> {
    pub head: H,
}

/// What a node does with its children, whichever kind they are of. Its row is beside its head.
pub trait InTable<P, C>: Sized {
    ghost use Rattle.std.specs.Prelude.{ℕ, List};
    ghost use Rattle.spec_node.specs.TableNode.{TableNodeOf};

    type Row;

    ghost node: { Self → Self.Row → TableNodeOf P C };

    /// The row is that of this head, and the prefix is as long as the kind requires.
    ghost IsOfKind: { Self → Self.Row → Type 0 };

    /// What all forms have.
    fn base<'a>(&'a self, row: &Self::Row) -> &'a BaseNode
        requires { IsOfKind self.now row.now }
        ensures prefix { result.now.prefix ≡ (node self.now row.now).prefix }
        ensures count { result.now.count ≡ length (node self.now row.now).children }
        ensures form { result.now.form ≡ (node self.now row.now).form }
        ensures within { Fits (node self.now row.now).form (length (node self.now row.now).children) }
        ensures ascending { Rises 0 256 (node self.now row.now).children };

    /// What a key meets here, whose bytes are those of the word, most significant first.
    fn meet<'a>(&'a self, row: &'a Self::Row, key: &[u8; 8], word: u64) -> Meeting<&'a C>
        requires kind { IsOfKind self.now row.now }
        requires word { to_be_bytes w64 word ≡ key.now }
        ensures { IsMet key.now (node self.now row.now) (met_at result) };

    /// What is under a byte, or `None`.
    fn get_child<'a>(&'a self, row: &'a Self::Row, byte: u8) -> Option<ChildRef<'a, P, &'a C>>
        requires { IsOfKind self.now row.now }
        ensures { option_map looked_at_ref result ≡ lookup (node self.now row.now).children byte };

    /// The first child whose byte isn't below `start`, and its byte.
    fn first_from<'a>(
        &'a self,
        row: &'a Self::Row,
        start: u8,
    ) -> Option<(u8, ChildRef<'a, P, &'a C>)>
        requires { IsOfKind self.now row.now }
        ensures none { IfNone result (between (node self.now row.now).children start 256 ≡ []) }
        ensures some { IfSome result (λ found. between (node self.now row.now).children start 256
            ≡ (found.0, looked_at_ref found.1)
            ∷ between (node self.now row.now).children (found.0 + 1) 256) }
        ensures order { IfSome result (λ found. start ≤ found.0) };

    /// The last child whose byte is below `to`, and its byte.
    fn last_below<'a>(
        &'a self,
        row: &'a Self::Row,
        to: usize,
    ) -> Option<(u8, ChildRef<'a, P, &'a C>)>
        requires within { to ≤ 256 }
        requires kind { IsOfKind self.now row.now }
        ensures { option_map (λ found. (found.0, looked_at_ref found.1)) result
            ≡ below_of (node self.now row.now).children to };

    /// The children with `from <= byte < to`, ascending.
    fn children_between<'a>(
        &'a self,
        row: &'a Self::Row,
        from: usize,
        to: usize,
    ) -> ChildIter<'a, P, C>
        requires within { to ≤ 256 }
        requires kind { IsOfKind self.now row.now }
        ensures children { children_left result ≡ between (node self.now row.now).children from to }
        ensures kind { MayYield (node self.now row.now).prefix result };

    /// Adds a child of the node's kind under a byte that has none, in a node that is not full.
    fn insert(&mut self, row: &mut Self::Row, byte: u8, child: Child<P, C>)
        requires absent { lookup (node self.old row.old).children byte ≡ None }
        requires room { Fits (node self.old row.old).form (length (node self.old row.old).children + 1) }
        requires kind { IsOfKind self.old row.old }
        requires may { MayHave (node self.old row.old).prefix child }
        ensures kind { IsOfKind self.new row.new }
        ensures after { node self.new row.new ≡ with_child (node self.old row.old) byte child };

    /// Replaces the child under a byte by another of the node's kind, and returns the previous one. If there is none,
    /// `Err` returns the new child.
    fn exchange(
        &mut self,
        row: &mut Self::Row,
        byte: u8,
        child: Child<P, C>,
    ) -> Result<Child<P, C>, Child<P, C>>
        requires kind { IsOfKind self.old row.old }
        requires may { MayHave (node self.old row.old).prefix child }
        ensures kind { IsOfKind self.new row.new }
        ensures before { IfOk result (λ c. lookup (node self.old row.old).children byte ≡ Some c) }
        ensures after { OnOk result (node self.new row.new ≡ with_child (node self.old row.old) byte child) }
        ensures absent { OnErr result (lookup (node self.old row.old).children byte ≡ None) }
        ensures back { IfErr result (λ c. c ≡ child) }
        ensures same { OnErr result (node self.new row.new ≡ node self.old row.old) };

    /// Takes out the child under a byte, if there is one, and returns it.
    fn take(&mut self, row: &mut Self::Row, byte: u8) -> Option<Child<P, C>>
        requires { IsOfKind self.old row.old }
        ensures kind { IsOfKind self.new row.new }
        ensures before { result ≡ lookup (node self.old row.old).children byte }
        ensures after { node self.new row.new ≡ without_child (node self.old row.old) byte };
}

/// What a leaf does with its payloads, which go through no `Child`.
pub trait HasPayloads<P, C>: InTable<P, C> {
    /// Sets the payload under a byte of a leaf, where there is one or room for one more, and returns the previous one.
    /// Otherwise `Err` returns the new payload.
    fn set_payload(&mut self, row: &mut Self::Row, byte: u8, payload: P) -> Result<Option<P>, P>
        requires kind { Self.IsOfKind self.old row.old }
        requires leaf { length (Self.node self.old row.old).prefix ≡ 7 }
        ensures kind { Self.IsOfKind self.new row.new }
        ensures before { IfOk result (λ before.
            lookup (Self.node self.old row.old).children byte ≡ option_map (λ v. Payload v) before) }
        ensures room { IfOk result (λ before. before ≡ None
            → Fits (Self.node self.old row.old).form
            (length (Self.node self.old row.old).children + 1)) }
        ensures after { OnOk result
            (Self.node self.new row.new
            ≡ with_child (Self.node self.old row.old) byte (Payload payload)) }
        ensures absent { OnErr result (lookup (Self.node self.old row.old).children byte ≡ None) }
        ensures full { OnErr result (Fits (Self.node self.old row.old).form
            (length (Self.node self.old row.old).children + 1) → ⊥) }
        ensures back { IfErr result (λ back. back ≡ payload) }
        ensures same { OnErr result (Self.node self.new row.new ≡ Self.node self.old row.old) };

    /// Takes out the payload under a byte of a leaf, if there is one, and returns it.
    fn take_payload(&mut self, row: &mut Self::Row, byte: u8) -> Option<P>
        requires kind { Self.IsOfKind self.old row.old }
        requires leaf { length (Self.node self.old row.old).prefix ≡ 7 }
        ensures kind { Self.IsOfKind self.new row.new }
        ensures before { option_map (λ v. Payload v) result
            ≡ lookup (Self.node self.old row.old).children byte }
        ensures after { Self.node self.new row.new ≡ without_child (Self.node self.old row.old) byte };
}

// The children of a node with `from <= byte < to`.
fn children_of<'a, C, H: Head<C>>(
    head: &'a H,
    row: &'a H::Row,
    from: usize,
    to: usize,
) -> NodeIter<'a, C>
    requires node { H.IsNode head.now row.now }
    requires within { to ≤ 256 }
    ensures { rest result ≡ between (H.children head.now row.now) from to }
{
    if from >= to {
        return NodeIter::N16(Node16Iter {
            keys: &[],
            children: &[],
        });
    }
    head.get_children(row, from as u8, (to - 1) as u8)
}

impl<P, C, H: Head<C>> InTable<P, C> for InnerHead<H> {
    ghost use Rattle.std.specs.Prelude.{◌<◌, length};
    ghost use Rattle.node_table.specs.inner.Kinds.{inner_node};

    type Row = H::Row;

    ghost node = { λ n row. inner_node (H.form n.head) (H.prefix n.head) (H.children n.head row) };

    ghost IsOfKind = { λ n row. H.IsNode n.head row × (length (H.prefix n.head) < 7) };

    fn base<'a>(&'a self, row: &H::Row) -> &'a BaseNode {
        self.head.base(row)
    }

    fn meet<'a>(&'a self, row: &'a H::Row, key: &[u8; 8], word: u64) -> Meeting<&'a C> {
        let base = self.head.base(row);
        if !base.begins(word) {
            return Meeting::Other;
        }
        match self.head.get_child(row, key[base.prefix().len()]) {
            Some(child) => Meeting::Node(child),
            None => Meeting::Nothing,
        }
    }

    fn get_child<'a>(&'a self, row: &'a H::Row, byte: u8) -> Option<ChildRef<'a, P, &'a C>> {
        match self.head.get_child(row, byte) {
            Some(child) => Some(ChildRef::Node(child)),
            None => None,
        }
    }

    fn first_from<'a>(
        &'a self,
        row: &'a H::Row,
        start: u8,
    ) -> Option<(u8, ChildRef<'a, P, &'a C>)> {
        match self.head.get_children(row, start, 255).next() {
            Some((byte, child)) => Some((byte, ChildRef::Node(child))),
            None => None,
        }
    }

    fn last_below<'a>(
        &'a self,
        row: &'a H::Row,
        to: usize,
    ) -> Option<(u8, ChildRef<'a, P, &'a C>)> {
        let Some(byte) = self.head.last_byte(row, to) else {
            return None;
        };
        match self.head.get_child(row, byte) {
            Some(child) => Some((byte, ChildRef::Node(child))),
            None => unreachable!(),
        }
    }

    fn children_between<'a>(
        &'a self,
        row: &'a H::Row,
        from: usize,
        to: usize,
    ) -> ChildIter<'a, P, C> {
        ChildIter::Nodes(children_of(&self.head, row, from, to))
    }

    fn insert(&mut self, row: &mut H::Row, byte: u8, child: Child<P, C>)
        requires absent { lookup (places {P = P} (H.children self.old.head row.old)) byte ≡ None }
        requires room { Fits (H.form self.old.head)
            (length (places {P = P} (H.children self.old.head row.old)) + 1) }
        requires kind { H.IsNode self.old.head row.old × (length (H.prefix self.old.head) < 7) }
        requires may { MayHave (H.prefix self.old.head) child }
        ensures kind { H.IsNode self.new.head row.new × (length (H.prefix self.new.head) < 7) }
        ensures after { inner_node {P = P} (H.form self.new.head) (H.prefix self.new.head)
            (H.children self.new.head row.new) ≡ with_child (inner_node (H.form self.old.head)
            (H.prefix self.old.head) (H.children self.old.head row.old)) byte child }
    {
        match child {
            Child::Node(place) => self.head.insert(row, byte, place),
            Child::Payload(_) => unreachable!(),
        }
    }

    fn exchange(
        &mut self,
        row: &mut H::Row,
        byte: u8,
        child: Child<P, C>,
    ) -> Result<Child<P, C>, Child<P, C>>
        requires kind { H.IsNode self.old.head row.old × (length (H.prefix self.old.head) < 7) }
        requires may { MayHave (H.prefix self.old.head) child }
        ensures kind { H.IsNode self.new.head row.new × (length (H.prefix self.new.head) < 7) }
        ensures before { IfOk result (λ c.
            lookup (places {P = P} (H.children self.old.head row.old)) byte ≡ Some c) }
        ensures after { OnOk result (inner_node {P = P} (H.form self.new.head)
            (H.prefix self.new.head) (H.children self.new.head row.new) ≡ with_child (inner_node
            (H.form self.old.head) (H.prefix self.old.head) (H.children self.old.head row.old)) byte child) }
        ensures absent { OnErr result
            (lookup (places {P = P} (H.children self.old.head row.old)) byte ≡ None) }
        ensures back { IfErr result (λ c. c ≡ child) }
        ensures same { OnErr result (inner_node {P = P} (H.form self.new.head)
            (H.prefix self.new.head) (H.children self.new.head row.new) ≡ inner_node
            (H.form self.old.head) (H.prefix self.old.head) (H.children self.old.head row.old)) }
    {
        match child {
            Child::Node(place) => match self.head.exchange(row, byte, place) {
                Ok(before) => Ok(Child::Node(before)),
                Err(back) => Err(Child::Node(back)),
            },
            Child::Payload(_) => unreachable!(),
        }
    }

    fn take(&mut self, row: &mut H::Row, byte: u8) -> Option<Child<P, C>> {
        match self.head.take(row, byte) {
            Some(place) => Some(Child::Node(place)),
            None => None,
        }
    }
}

impl<P, C, H: Head<P>> InTable<P, C> for Leaf<H> {
    ghost use Rattle.std.specs.Prelude.{◌≡◌, length};
    ghost use Rattle.node_table.specs.inner.Kinds.{leaf_node};

    type Row = H::Row;

    ghost node = { λ n row. leaf_node (H.form n.head) (H.prefix n.head) (H.children n.head row) };

    ghost IsOfKind = { λ n row. H.IsNode n.head row × (length (H.prefix n.head) ≡ 7) };

    fn base<'a>(&'a self, row: &H::Row) -> &'a BaseNode {
        self.head.base(row)
    }

    fn meet<'a>(&'a self, row: &'a H::Row, _key: &[u8; 8], word: u64) -> Meeting<&'a C> {
        if self.head.base(row).begins(word) {
            Meeting::Leaf
        } else {
            Meeting::Other
        }
    }

    fn get_child<'a>(&'a self, row: &'a H::Row, byte: u8) -> Option<ChildRef<'a, P, &'a C>> {
        match self.head.get_child(row, byte) {
            Some(payload) => Some(ChildRef::Payload(payload)),
            None => None,
        }
    }

    fn first_from<'a>(
        &'a self,
        row: &'a H::Row,
        start: u8,
    ) -> Option<(u8, ChildRef<'a, P, &'a C>)> {
        match self.head.get_children(row, start, 255).next() {
            Some((byte, payload)) => Some((byte, ChildRef::Payload(payload))),
            None => None,
        }
    }

    fn last_below<'a>(
        &'a self,
        row: &'a H::Row,
        to: usize,
    ) -> Option<(u8, ChildRef<'a, P, &'a C>)> {
        let Some(byte) = self.head.last_byte(row, to) else {
            return None;
        };
        match self.head.get_child(row, byte) {
            Some(payload) => Some((byte, ChildRef::Payload(payload))),
            None => unreachable!(),
        }
    }

    fn children_between<'a>(
        &'a self,
        row: &'a H::Row,
        from: usize,
        to: usize,
    ) -> ChildIter<'a, P, C> {
        ChildIter::Payloads(children_of(&self.head, row, from, to))
    }

    fn insert(&mut self, row: &mut H::Row, byte: u8, child: Child<P, C>)
        requires absent { lookup (payloads {C = C} (H.children self.old.head row.old)) byte ≡ None }
        requires room { Fits (H.form self.old.head)
            (length (payloads {C = C} (H.children self.old.head row.old)) + 1) }
        requires kind { H.IsNode self.old.head row.old × (length (H.prefix self.old.head) ≡ 7) }
        requires may { MayHave (H.prefix self.old.head) child }
        ensures kind { H.IsNode self.new.head row.new × (length (H.prefix self.new.head) ≡ 7) }
        ensures after { leaf_node {C = C} (H.form self.new.head) (H.prefix self.new.head)
            (H.children self.new.head row.new) ≡ with_child (leaf_node (H.form self.old.head)
            (H.prefix self.old.head) (H.children self.old.head row.old)) byte child }
    {
        match child {
            Child::Payload(payload) => self.head.insert(row, byte, payload),
            Child::Node(_) => unreachable!(),
        }
    }

    fn exchange(
        &mut self,
        row: &mut H::Row,
        byte: u8,
        child: Child<P, C>,
    ) -> Result<Child<P, C>, Child<P, C>>
        requires kind { H.IsNode self.old.head row.old × (length (H.prefix self.old.head) ≡ 7) }
        requires may { MayHave (H.prefix self.old.head) child }
        ensures kind { H.IsNode self.new.head row.new × (length (H.prefix self.new.head) ≡ 7) }
        ensures before { IfOk result (λ c.
            lookup (payloads {C = C} (H.children self.old.head row.old)) byte ≡ Some c) }
        ensures after { OnOk result (leaf_node {C = C} (H.form self.new.head)
            (H.prefix self.new.head) (H.children self.new.head row.new) ≡ with_child (leaf_node
            (H.form self.old.head) (H.prefix self.old.head) (H.children self.old.head row.old)) byte child) }
        ensures absent { OnErr result
            (lookup (payloads {C = C} (H.children self.old.head row.old)) byte ≡ None) }
        ensures back { IfErr result (λ c. c ≡ child) }
        ensures same { OnErr result (leaf_node {C = C} (H.form self.new.head)
            (H.prefix self.new.head) (H.children self.new.head row.new) ≡ leaf_node
            (H.form self.old.head) (H.prefix self.old.head) (H.children self.old.head row.old)) }
    {
        match child {
            Child::Payload(payload) => match self.head.exchange(row, byte, payload) {
                Ok(before) => Ok(Child::Payload(before)),
                Err(back) => Err(Child::Payload(back)),
            },
            Child::Node(_) => unreachable!(),
        }
    }

    fn take(&mut self, row: &mut H::Row, byte: u8) -> Option<Child<P, C>> {
        match self.head.take(row, byte) {
            Some(payload) => Some(Child::Payload(payload)),
            None => None,
        }
    }
}

impl<P, C, H: Head<P>> HasPayloads<P, C> for Leaf<H> {
    #[inline(always)]
    fn set_payload(&mut self, row: &mut H::Row, byte: u8, payload: P) -> Result<Option<P>, P> {
        set_child(&mut self.head, row, byte, payload)
    }

    #[inline(always)]
    fn take_payload(&mut self, row: &mut H::Row, byte: u8) -> Option<P> {
        self.head.take(row, byte)
    }
}
