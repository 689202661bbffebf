//! The adaptive radix tree as one value (*The Adaptive Radix Tree*, Leis et al.): its nodes in a table of links, the
//! supply that they are charged to, and how many pairs there are.
//!
//! The nodes refer to each other by slot numbers that no user sees. Each node's prefix has all bytes from the root down
//! to it. Nodes with a prefix of seven bytes have payloads as children, those with a shorter one have nodes, or pairs
//! that are alone in their leaf. The root has no prefix, and the form that never grows. A node is charged in its form,
//! and a pair in its parent as the leaf that it is seen as.
//!
//! The modules beside this one change it. They work on its parts, which needn't agree with one another between two
//! steps. A `Tree` is parts that agree.
//!
//! Tested in `test_owned` and `tools/dev/try-commands`.

ghost use Rattle.std.specs.Prelude.{◌≡◌, [], false, length, IfOk, IsTrue, Some, option_copied};
ghost use Rattle.tree_path.specs.inner.Root.{HasTree, tree_pairs, tree_nodes};
ghost use Rattle.tree_edit.specs.TreeCalls.{IsNew, IsChargeOf, ReadsPath};
ghost use Rattle.tree_path.specs.Charge.{charge_of};
ghost use Rattle.node_table.specs.Charge.{Covers};
ghost use Rattle.tree_edit.specs.Tree.{payload_at, root_alone, ChargesForNodes};
ghost use Rattle.node_table.specs.Table.{node_at};
ghost use Rattle.node_base.specs.declared.base_node.NodeType.TheVariants.{N256};
ghost use Rattle.tree_links.specs.SeenTable.{name_of};

use node_base::base_node::NodeType;
use node_rows::row_node::RowNode;
use node_table::allocator::Allocator;
use spec_map::error::OOMError;
use std::alloc::Global;
use std::marker::Model;
use std::sync::ledger::Ledger;
use tree_links::links::Links;
use tree_path::reads::ReadCount;
use tree_path::supply::Supply;

/// The nodes of a tree with these payloads.
pub type Nodes<P> = Links<P>;

/// An ordered map from keys of eight bytes, most significant first, to payloads.
///
/// Contracts see the list of its pairs by the keys' numbers (byte order is numeric order), the list of its nodes, and
/// the budget, which is charged for each node from before it is made until it is freed.
#[derive(Drop)]
pub struct Tree<P: Drop, A: Allocator> {
    pub(crate) nodes: Nodes<P>,
    pub(crate) supply: Supply<A>,
    pub(crate) root: usize,
    /// How many pairs there are: 2 to the 64 at most.
    pub(crate) count: u128,
}

impl<P: Drop, A: Allocator> Model for Tree<P, A> {
    ghost use Rattle.tree_path.specs.inner.Root.{tree_pairs, tree_nodes};
    ghost use Rattle.tree_edit.specs.Tree.{TreeView, tree_code};
    ghost use Rattle.tree_edit.specs.inner.Whole.{IsWhole};
    ghost use Rattle.tree_links.specs.SeenTable.{name_of};

    ghost Value = { TreeView P A };

    ghost coded = { tree_code P.code A.code };

    ghost view = { λ t. record {
      pairs = tree_pairs t.nodes.table (name_of t.root);
      nodes = tree_nodes t.nodes.table (name_of t.root);
      budget = t.supply.budget;
    } };

    ghost invariant = { λ t. IsWhole t.nodes.table (name_of t.root) t.supply.forms t.count };
}

// A table with an empty root, and its slot.
fn bare_table<P: Drop>(alloc: Global) -> Result<(Nodes<P>, usize), OOMError>
    ensures { IfOk result (λ made. node_at made.0.table (name_of made.1)
        ≡ Some (record { form = N256; prefix = []; children = [] })) }
{
    let mut nodes = Links::new(alloc);
    nodes.reserve(1)?;
    let root = nodes.add(RowNode::root(alloc)?);
    Ok((nodes, root))
}

impl<P: Drop, A: Allocator> Tree<P, A> {
    /// An empty tree, or `OOMError` where the budget or the machine has no memory for its root.
    pub fn new(alloc: Global, budget: A) -> Result<Self, OOMError>
        ensures { IfOk result (λ tree. IsNew A.charge budget tree) }
    {
        let mut supply = Supply::new(alloc, budget);
        supply.charge(NodeType::N256)?;
        let (nodes, root) = bare_table(alloc)?;
        Ok(Tree {
            nodes,
            supply,
            root,
            count: 0,
        })
    }

    /// The payload at the key. `reads` goes up by one for each node on the key's path.
    pub fn get<L: Ledger>(&self, key: &[u8; 8], reads: &mut ReadCount<L>) -> Option<&P>
        ensures value { option_copied result ≡ payload_at self.now key.now }
        ensures reads { ReadsPath self.now.nodes key.now reads.old reads.new }
    {
        self.nodes.find(self.root, key, reads)
    }

    /// How many pairs there are.
    pub fn value_count(&self) -> u128
        ensures { result ≡ length self.now.pairs }
    {
        self.count
    }

    /// The sum of the stated sizes of the nodes, which the budget is charged for. No node but the root is empty, and in
    /// an empty tree there is no other.
    pub fn charged(&self) -> u128
        ensures { IsChargeOf self.now result }
    {
        self.supply.bytes()
    }

    /// The budget, which is charged for all nodes.
    pub fn allocator(&self) -> &A
        ensures budget { result.now ≡ self.now.budget }
        ensures charged { Covers (A.charge self.now.budget) (charge_of self.now.nodes) }
    {
        self.supply.budget()
    }

    /// The machine's memory, from which the nodes are taken.
    pub fn memory(&self) -> Global {
        self.supply.memory()
    }

    /// Puts an empty root in place of all nodes, and frees those node by node. Returns whether it did: not without the
    /// machine's memory for that root, which isn't charged beside the old one. Then it changes nothing.
    pub fn clear_at_once(&mut self) -> bool
        ensures pairs { IsTrue result → self.new.pairs ≡ [] }
        ensures nodes { IsTrue result → self.new.nodes ≡ root_alone }
        ensures same { result ≡ false → self.new ≡ self.old }
        ensures charge { ChargesForNodes A.charge self.old self.new }
    {
        let Ok((nodes, root)) = bare_table(self.supply.memory()) else {
            return false;
        };
        self.supply.keep_root();
        self.nodes = nodes;
        self.root = root;
        self.count = 0;
        true
    }

    /// Gives the memory of free slots back to the machine: moves the nodes into a smaller table where more than an eighth
    /// of what they and the pairs need is free beside that. Without memory for it they stay.
    pub fn shrink_to_fit(&mut self)
        ensures { self.new ≡ self.old }
    {
        self.root = self.nodes.compact(self.root, self.supply.memory());
        self.trim();
    }

    /// Gives the slots of former nodes back to the machine once no pair is left, and where nodes are to shrink, also once
    /// three quarters of the slots aren't needed.
    #[inline(always)]
    pub(crate) fn release_slots(&mut self, shrinks: bool)
        ensures { self.new ≡ self.old }
    {
        if self.count == 0 {
            self.trim();
        } else if shrinks {
            self.compact_if_sparse();
        }
    }

    // Gives the free slots past the last node back to the machine, where each pair is in a leaf that has a slot.
    fn trim(&mut self)
        ensures { self.new ≡ self.old }
    {
        self.nodes.shrink_to_fit();
    }

    // Moves the nodes into a smaller table where fewer than a quarter of the slots are needed.
    #[inline(always)]
    fn compact_if_sparse(&mut self)
        ensures { self.new ≡ self.old }
    {
        self.root = self
            .nodes
            .compact_if_sparse(self.root, self.supply.memory());
    }

    /// The table of the nodes and the slot of the root in it, for walks.
    pub fn table(&self) -> (&Nodes<P>, usize)
        ensures tree { HasTree result.0.now.table (name_of result.1) }
        ensures pairs { tree_pairs result.0.now.table (name_of result.1) ≡ self.now.pairs }
        ensures nodes { tree_nodes result.0.now.table (name_of result.1) ≡ self.now.nodes }
    {
        (&self.nodes, self.root)
    }
}
