//! A node of `node_rows` as one whose children may be pairs: an inner node has a `Place` for each child.
//!
//! Tested in `test_owned` and `tools/dev/try-commands`.

ghost use Rattle.std.specs.Prelude.{◌≡◌, ◌+◌, ◌<◌, length, IfOk, IfErr, OnOk, OnErr, Some, None};
ghost use Rattle.spec_map.specs.Map.{lookup};
ghost use Rattle.node_base.specs.Form.{Fits};
ghost use Rattle.node_base.specs.declared.base_node.NodeType.TheVariants.{N48};
ghost use Rattle.spec_node.specs.TableNode.{looked_at_ref};
ghost use Rattle.spec_node.specs.declared.child.Child.TheVariants.{Node};
ghost use Rattle.node_rows.specs.Spare.{IsSpareFor};
ghost use Rattle.tree_links.specs.LinkNode.{MayLink, looked_at, with_link};
ghost use Rattle.tree_links.specs.Places.{as_link, as_linked};

use crate::link::{Link, LinkMeeting, LinkRef};
use crate::linked_node::LinkedNode;
use node_base::base_node::BaseNode;
use node_rows::row_node::RowNode;
use node_rows::spare::Spare;
use spec_map::error::OOMError;
use spec_node::child::{Child, ChildIter, ChildRef, Meeting};
use std::alloc::Global;

/// What an inner node has in the place of a child: the slot of the node below, or the one pair of the leaf below, by
/// the last seven bytes of its key and its payload.
#[derive(Drop)]
pub enum Place<P> {
    Slot(usize),
    Pair([u8; 7], P),
}

/// A node of a table of links.
pub type Linked<P> = RowNode<P, Place<P>>;

// A link as a child of a node.
#[inline(always)]
fn child_of<P>(link: Link<P>) -> Child<P, Place<P>>
    ensures { as_link result ≡ link }
{
    match link {
        Link::Payload(payload) => Child::Payload(payload),
        Link::Slot(slot) => Child::Node(Place::Slot(slot)),
        Link::Pair(rest, payload) => Child::Node(Place::Pair(rest, payload)),
    }
}

// A child of a node as a link.
#[inline(always)]
fn link_of<P>(child: Child<P, Place<P>>) -> Link<P>
    ensures { result ≡ as_link child }
{
    match child {
        Child::Payload(payload) => Link::Payload(payload),
        Child::Node(Place::Slot(slot)) => Link::Slot(slot),
        Child::Node(Place::Pair(rest, payload)) => Link::Pair(rest, payload),
    }
}

// The same, where what is looked at stays in its node.
#[inline(always)]
fn link_at<'a, P>(child: ChildRef<'a, P, &'a Place<P>>) -> LinkRef<'a, P>
    ensures { looked_at result ≡ as_link (looked_at_ref child.entry) }
{
    match child {
        ChildRef::Payload(payload) => LinkRef::Payload(payload),
        ChildRef::Node(Place::Slot(slot)) => LinkRef::Slot(*slot),
        ChildRef::Node(Place::Pair(rest, payload)) => LinkRef::Pair(rest, payload),
    }
}

// Replaces what an inner node has in the place of a child, as a link.
#[inline(always)]
fn exchange_place<P: Drop>(
    node: &mut Linked<P>,
    byte: u8,
    place: Place<P>,
) -> Result<Link<P>, Link<P>>
    requires inner { length node.old.prefix < 7 }
    ensures before { IfOk result (λ c. lookup (as_linked node.old).links byte ≡ Some c) }
    ensures after { OnOk result
        (as_linked node.new ≡ with_link (as_linked node.old) byte (as_link (Node place))) }
    ensures absent { OnErr result (lookup (as_linked node.old).links byte ≡ None) }
    ensures back { IfErr result (λ c. c ≡ as_link (Node place)) }
    ensures same { OnErr result (as_linked node.new ≡ as_linked node.old) }
{
    match node.exchange_place(byte, place) {
        Ok(before) => Ok(link_of(Child::Node(before))),
        Err(back) => Err(link_of(Child::Node(back))),
    }
}

impl<P: Drop> LinkedNode<P> for RowNode<P, Place<P>> {
    ghost use Rattle.tree_links.specs.Places.{as_linked};

    ghost node = { as_linked };

    fn root(alloc: Global) -> Result<Self, OOMError> {
        RowNode::root(alloc)
    }

    fn empty_inner(prefix: &[u8]) -> Self {
        RowNode::empty_inner(prefix)
    }

    fn leaf_of(prefix: &[u8], byte: u8, payload: P) -> Self {
        let mut leaf = RowNode::empty_leaf(prefix);
        leaf.insert(byte, Child::Payload(payload), None);
        leaf
    }

    fn base(&self) -> &BaseNode {
        self.base()
    }

    fn is_full(&self) -> bool {
        self.is_full()
    }

    fn is_due(&self) -> bool {
        self.is_due()
    }

    fn is_leaf(&self) -> bool {
        self.is_leaf()
    }

    #[inline(always)]
    fn meet<'a>(&'a self, key: &[u8; 8], word: u64) -> LinkMeeting<'a, P> {
        match self.meet_ref(key, word) {
            Meeting::Other => LinkMeeting::Other,
            Meeting::Leaf => LinkMeeting::Leaf,
            Meeting::Nothing => LinkMeeting::Nothing,
            Meeting::Node(Place::Slot(slot)) => LinkMeeting::Slot(*slot),
            Meeting::Node(Place::Pair(rest, payload)) => LinkMeeting::Pair(rest, payload),
        }
    }

    #[inline(always)]
    fn get_link<'a>(&'a self, byte: u8) -> Option<LinkRef<'a, P>> {
        match self.get_child_ref(byte) {
            Some(child) => Some(link_at(child)),
            None => None,
        }
    }

    #[inline(always)]
    fn first_from<'a>(&'a self, from: usize) -> Option<(u8, LinkRef<'a, P>)> {
        match self.first_ref_from(from) {
            Some((byte, child)) => Some((byte, link_at(child))),
            None => None,
        }
    }

    #[inline(always)]
    fn last_below<'a>(&'a self, to: usize) -> Option<(u8, LinkRef<'a, P>)> {
        match self.last_ref_below(to) {
            Some((byte, child)) => Some((byte, link_at(child))),
            None => None,
        }
    }

    fn links_between<'a>(&'a self, from: usize, to: usize) -> ChildIter<'a, P, Place<P>> {
        self.children_between(from, to)
    }

    fn spare(&self, alloc: Global) -> Result<Spare<Place<P>>, OOMError> {
        self.spare(alloc)
    }

    #[inline(always)]
    fn insert(&mut self, byte: u8, link: Link<P>, spare: Spare<Place<P>>)
        requires absent { lookup (as_linked self.old).links byte ≡ None }
        requires room { Fits (as_linked self.old).form (length (as_linked self.old).links + 1) }
        requires kind { MayLink (as_linked self.old).prefix link }
        requires spare { (as_linked self.old).form ≡ N48 → length (as_linked self.old).prefix < 7
            → IsSpareFor (length (as_linked self.old).links) spare }
        ensures { as_linked self.new ≡ with_link (as_linked self.old) byte link }
    {
        self.insert(byte, child_of(link), spare);
    }

    #[inline(always)]
    fn exchange(&mut self, byte: u8, link: Link<P>) -> Result<Link<P>, Link<P>>
        requires { MayLink (as_linked self.old).prefix link }
        ensures before { IfOk result (λ c. lookup (as_linked self.old).links byte ≡ Some c) }
        ensures after { OnOk result
            (as_linked self.new ≡ with_link (as_linked self.old) byte link) }
        ensures absent { OnErr result (lookup (as_linked self.old).links byte ≡ None) }
        ensures back { IfErr result (λ c. c ≡ link) }
        ensures same { OnErr result (as_linked self.new ≡ as_linked self.old) }
    {
        match link {
            Link::Slot(slot) => exchange_place(self, byte, Place::Slot(slot)),
            Link::Pair(rest, payload) => exchange_place(self, byte, Place::Pair(rest, payload)),
            Link::Payload(payload) => match self.exchange(byte, Child::Payload(payload)) {
                Ok(before) => Ok(link_of(before)),
                Err(back) => Err(link_of(back)),
            },
        }
    }

    #[inline(always)]
    fn take(&mut self, byte: u8) -> Option<Link<P>> {
        match self.take(byte) {
            Some(child) => Some(link_of(child)),
            None => None,
        }
    }

    #[inline(always)]
    fn set_payload(&mut self, byte: u8, payload: P) -> Result<Option<P>, P> {
        self.set_payload(byte, payload)
    }

    #[inline(always)]
    fn take_payload(&mut self, byte: u8) -> Option<P> {
        self.take_payload(byte)
    }

    fn grow(&mut self, alloc: Global) -> Result<(), OOMError> {
        self.grow(alloc)
    }

    fn shrink(&mut self, alloc: Global) -> Result<(), OOMError> {
        self.shrink(alloc)
    }
}
