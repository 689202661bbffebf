//! What the nodes of a tree are charged to: a budget, and the machine's memory, from which their owner takes them.
//!
//! Tested in `test_owned` and `tools/dev/try-commands`.

ghost use Rattle.std.specs.Prelude.{◌≡◌, ◌+◌, ◌*◌, ◌<◌, ◌^◌, OnOk, OnErr};
ghost use Rattle.node_table.specs.Charge.{add_charge, Covers};
ghost use Rattle.node_base.specs.Form.{next_form, smaller_form, stated_size};
ghost use Rattle.node_base.specs.declared.base_node.NodeType.{NodeType};
ghost use Rattle.tree_path.specs.inner.Supply.{count, with_form, no_forms, size_of, Alike, Charges};

use node_base::base_node::{NodeSize, NodeType};
use node_table::allocator::Allocator;
use spec_map::error::OOMError;
use std::alloc::Global;
use std::marker::Model;

/// How many nodes of each form there are.
#[derive(Clone, Copy)]
pub struct FormCounts {
    n4: u64,
    n16: u64,
    n48: u64,
    n256: u64,
}

impl FormCounts {
    // No node.
    fn none() -> Self
        ensures { result ≡ no_forms }
    {
        FormCounts {
            n4: 0,
            n16: 0,
            n48: 0,
            n256: 0,
        }
    }

    // One node of a form more.
    fn with(self, form: NodeType) -> Self
        requires { count form self < 2 ^ 63 }
        ensures { result ≡ with_form form self }
    {
        let mut forms = self;
        match form {
            NodeType::N4 => forms.n4 += 1,
            NodeType::N16 => forms.n16 += 1,
            NodeType::N48 => forms.n48 += 1,
            NodeType::N256 => forms.n256 += 1,
        }
        forms
    }

    // One node of a form less.
    fn without(self, form: NodeType) -> Self
        requires { 0 < count form self }
        ensures { self ≡ with_form form result }
    {
        let mut forms = self;
        match form {
            NodeType::N4 => forms.n4 -= 1,
            NodeType::N16 => forms.n16 -= 1,
            NodeType::N48 => forms.n48 -= 1,
            NodeType::N256 => forms.n256 -= 1,
        }
        forms
    }

    // The stated sizes of all of them.
    fn bytes(self) -> u128
        ensures { result ≡ size_of self }
    {
        let small = u128::from(self.n4) * 64 + u128::from(self.n16) * 168;
        small + u128::from(self.n48) * 672 + u128::from(self.n256) * 2104
    }
}

/// Where a tree takes its nodes from. It counts the nodes that are charged, and uncharges the size of each at its drop.
pub struct Supply<A: Allocator> {
    alloc: Global,
    budget: A,
    forms: FormCounts,
}

impl<A: Allocator> Model for Supply<A> {
    ghost use Rattle.node_table.specs.Charge.{Covers};
    ghost use Rattle.tree_path.specs.inner.Supply.{SupplyView, supply_code, size_of};

    ghost Value = { SupplyView A };

    ghost coded = { supply_code A.code };

    ghost view = { λ s. record { budget = s.budget; forms = s.forms } };

    ghost invariant = { λ s. Covers (A.charge s.budget) (size_of s.forms) };
}

impl<A: Allocator> Supply<A> {
    ghost use Rattle.node_base.specs.declared.base_node.NodeType.TheVariants.{N256};

    /// A supply from which nothing was taken.
    pub fn new(alloc: Global, budget: A) -> Self
        ensures { result ≡ record { budget = budget; forms = no_forms } }
    {
        Supply {
            alloc,
            budget,
            forms: FormCounts::none(),
        }
    }

    /// The machine's memory, from which the nodes are taken.
    pub fn memory(&self) -> Global {
        self.alloc
    }

    /// The budget, which is charged for all nodes.
    pub fn budget(&self) -> &A
        ensures budget { result.now ≡ self.now.budget }
        ensures charged { Covers (A.charge self.now.budget) (size_of self.now.forms) }
    {
        &self.budget
    }

    /// The sum of the sizes that are charged.
    pub fn bytes(&self) -> u128
        ensures { result ≡ size_of self.now.forms }
    {
        self.forms.bytes()
    }

    /// Charges a node that the caller makes. Refused by the budget alone, and changes nothing then.
    pub fn charge(&mut self, form: NodeType) -> Result<(), OOMError>
        requires { count form self.old.forms < 2 ^ 63 }
        ensures ok { OnOk result (Charges A.charge self.old form self.new) }
        ensures err { OnErr result (self.new ≡ self.old) }
    {
        self.budget.allocate(NodeSize::of(form))?;
        self.forms = self.forms.with(form);
        Ok(())
    }

    /// Uncharges the size of a node.
    pub fn give_back(&mut self, form: NodeType)
        requires { 0 < count form self.old.forms }
        ensures forms { self.old.forms ≡ with_form form self.new.forms }
        ensures alike { Alike A.charge self.old self.new }
    {
        self.forms = self.forms.without(form);
        self.budget.deallocate(NodeSize::of(form));
    }

    /// Uncharges the sizes of all nodes but one of the largest form.
    pub fn keep_root(&mut self)
        requires { 0 < count N256 self.old.forms }
        ensures forms { self.new.forms ≡ with_form N256 no_forms }
        ensures alike { Alike A.charge self.old self.new }
    {
        let forms = self.forms;
        give_back_all(&mut self.budget, NodeType::N4, forms.n4);
        give_back_all(&mut self.budget, NodeType::N16, forms.n16);
        give_back_all(&mut self.budget, NodeType::N48, forms.n48);
        give_back_all(&mut self.budget, NodeType::N256, forms.n256 - 1);
        self.forms = FormCounts::none().with(NodeType::N256);
    }
}

impl<A: Allocator> Drop for Supply<A> {
    fn drop(self) {
        let Supply {
            alloc: _,
            mut budget,
            forms,
        } = self;
        give_back_all(&mut budget, NodeType::N4, forms.n4);
        give_back_all(&mut budget, NodeType::N16, forms.n16);
        give_back_all(&mut budget, NodeType::N48, forms.n48);
        give_back_all(&mut budget, NodeType::N256, forms.n256);
    }
}

// Uncharges the sizes of so many nodes of a form.
fn give_back_all<A: Allocator>(budget: &mut A, form: NodeType, nodes: u64)
    requires { Covers (A.charge budget.old) (nodes * stated_size form) }
    ensures { A.charge budget.old ≡ add_charge (A.charge budget.new) (nodes * stated_size form) }
{
    for _ in 0..nodes {
        budget.deallocate(NodeSize::of(form));
    }
}

/// The form that a full node grows into.
pub fn larger(form: NodeType) -> NodeType
    ensures { result ≡ next_form form }
{
    match form {
        NodeType::N4 => NodeType::N16,
        NodeType::N16 => NodeType::N48,
        NodeType::N48 | NodeType::N256 => NodeType::N256,
    }
}

/// The form that a node with few children shrinks into.
pub fn smaller(form: NodeType) -> NodeType
    ensures { result ≡ smaller_form form }
{
    match form {
        NodeType::N4 | NodeType::N16 => NodeType::N4,
        NodeType::N48 => NodeType::N16,
        NodeType::N256 => NodeType::N48,
    }
}
