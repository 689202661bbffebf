//! What is asked of the node in a slot, by the node that is seen there.
//!
//! Tested in `test_owned` and `tools/dev/try-commands`.

ghost use Rattle.std.specs.Prelude.{◌≡◌, ◌+◌, ◌≤◌, ◌↔◌, length, IsSome, IsTrue, Some, false};
ghost use Rattle.node_base.specs.Form.{Fits, few_in};
ghost use Rattle.node_table.specs.Table.{node_at};
ghost use Rattle.spec_node.specs.TableNode.{TableNode};
ghost use Rattle.tree_links.specs.Places.{as_linked};
ghost use Rattle.tree_links.specs.SeenTable.{name_of, seen_node};

use crate::linked_node::LinkedNode;
use crate::links::Links;
use crate::place::Linked;
use node_base::base_node::NodeType;

impl<P: Drop> Links<P> {
    /// The node in a slot that has one.
    #[inline(always)]
    pub fn node(&self, slot: usize) -> &Linked<P>
        requires { IsSome (node_at self.now.table (name_of slot)) }
        ensures { node_at self.now.table (name_of slot)
            ≡ Some (seen_node slot (as_linked result.now)) }
    {
        match self.get(slot) {
            Some(node) => node,
            None => unreachable!(),
        }
    }

    /// Its form.
    #[inline(always)]
    pub fn form_of(&self, slot: usize) -> NodeType
        requires { IsSome (node_at self.now.table (name_of slot)) }
        ensures { (n : TableNode P) → node_at self.now.table (name_of slot) ≡ Some n
            → result ≡ n.form }
    {
        LinkedNode::base(self.node(slot)).get_type()
    }

    /// Whether it has no room for one child more.
    pub fn is_full(&self, slot: usize) -> bool
        requires { IsSome (node_at self.now.table (name_of slot)) }
        ensures full { (n : TableNode P) → node_at self.now.table (name_of slot) ≡ Some n
            → IsTrue result → Fits n.form (length n.children + 1) → ⊥ }
        ensures room { (n : TableNode P) → node_at self.now.table (name_of slot) ≡ Some n
            → result ≡ false → Fits n.form (length n.children + 1) }
    {
        LinkedNode::is_full(self.node(slot))
    }

    /// Whether it has few children for its form, or none.
    #[inline(always)]
    pub fn is_due(&self, slot: usize) -> bool
        requires { IsSome (node_at self.now.table (name_of slot)) }
        ensures { (n : TableNode P) → node_at self.now.table (name_of slot) ≡ Some n
            → IsTrue result ↔ (length n.children ≤ few_in n.form) }
    {
        LinkedNode::is_due(self.node(slot))
    }

    /// Whether it has no children.
    #[inline(always)]
    pub fn is_empty(&self, slot: usize) -> bool
        requires { IsSome (node_at self.now.table (name_of slot)) }
        ensures { (n : TableNode P) → node_at self.now.table (name_of slot) ≡ Some n
            → IsTrue result ↔ (length n.children ≡ 0) }
    {
        LinkedNode::base(self.node(slot)).value_count() == 0
    }
}
