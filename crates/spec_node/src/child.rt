//! What a node of a tree in one table has under a byte.
//!
//! Tested in `congee_nodes`.

ghost use Rattle.std.specs.Prelude.{◌≡◌};
ghost use Rattle.spec_node.specs.Meeting.{met_at};
ghost use Rattle.spec_node.specs.TableNode.{looked_at, looked_at_ref};

use node_base::iter::NodeIter;

/// A payload, under the last byte of its key, or what an inner node has in a child's place: by default the slot of the
/// node below.
#[derive(Drop)]
pub enum Child<P, C = usize> {
    Payload(P),
    Node(C),
}

/// The same, where the payload stays in its node. What an inner node has is copied, or borrowed as `&C`.
#[derive(Drop)]
pub enum ChildRef<'a, P, C = usize> {
    Payload(&'a P),
    Node(C),
}

impl<'a, P> ChildRef<'a, P, &'a usize> {
    /// The same, with a slot of its own.
    #[inline(always)]
    pub fn copied(self) -> ChildRef<'a, P>
        ensures { looked_at result ≡ looked_at_ref self.entry }
    {
        match self {
            ChildRef::Payload(payload) => ChildRef::Payload(payload),
            ChildRef::Node(slot) => ChildRef::Node(*slot),
        }
    }
}

/// The children of a node that are still to come, each with its byte, ascending: the payloads of a leaf, or what an
/// inner node has in its children's places.
#[derive(Drop)]
pub enum ChildIter<'a, P, C = usize> {
    Payloads(NodeIter<'a, P>),
    Nodes(NodeIter<'a, C>),
}

/// What a key meets at a node.
#[derive(Drop)]
pub enum Meeting<C = usize> {
    /// A prefix with which the key doesn't begin.
    Other,
    /// The leaf for the key. What it has under the key's last byte isn't looked up.
    Leaf,
    /// Nothing under the key's byte, in a node above the leaves.
    Nothing,
    /// The node in this slot, under the key's byte, or what else the node has there.
    Node(C),
}

impl<'a> Meeting<&'a usize> {
    /// The same, with a slot of its own.
    #[inline(always)]
    pub fn copied(self) -> Meeting
        ensures { result ≡ met_at self.entry }
    {
        match self {
            Meeting::Other => Meeting::Other,
            Meeting::Leaf => Meeting::Leaf,
            Meeting::Nothing => Meeting::Nothing,
            Meeting::Node(slot) => Meeting::Node(*slot),
        }
    }
}
