//! A budget over the stated sizes of nodes.
//!
//! Tested in `congee_nodes`.

ghost use Rattle.std.specs.Prelude.{◌≡◌, ℕ, ◌+◌, ◌≤◌, ◌↔◌, Option, Some, None, IsOk, OnOk, OnErr};
ghost use Rattle.node_table.specs.Charge.{Charge, add_charge, budget_charge, Covers};
ghost use Rattle.node_base.specs.Form.{stated_size};

use node_base::base_node::NodeSize;
use spec_map::error::OOMError;
use std::marker::Model;

/// Charges and uncharges the sizes of nodes. It hands out no memory.
pub trait Allocator: Drop {
    /// The bytes that are charged and not yet uncharged, and how many may be, or none if no count is kept.
    ghost charge: { Self → Option Charge };

    /// Charges a node. A refusal changes nothing.
    fn allocate(&mut self, size: NodeSize) -> Result<(), OOMError>
        ensures ok { OnOk result
            (charge self.new ≡ add_charge (charge self.old) (stated_size size)) }
        ensures err { OnErr result (self.new ≡ self.old) };

    /// Uncharges a node's size; the charge has to be at least that.
    fn deallocate(&mut self, size: NodeSize)
        requires { Covers (charge self.old) (stated_size size) }
        ensures { charge self.old ≡ add_charge (charge self.new) (stated_size size) };
}

/// Refuses nothing and keeps no count.
#[derive(Clone, Drop)]
pub struct DefaultAllocator {}

impl Allocator for DefaultAllocator {
    ghost charge = { λ _. None };

    fn allocate(&mut self, _size: NodeSize) -> Result<(), OOMError>
        ensures granted { IsOk result }
        ensures same { self.new ≡ self.old }
    {
        Ok(())
    }

    fn deallocate(&mut self, _size: NodeSize) {}
}

/// Grants a size exactly where so many bytes are left.
#[derive(Drop)]
pub struct Budget {
    left: u64,
    charged: u64,
}

impl Model for Budget {
    ghost use Rattle.std.specs.Prelude.{◌+◌, ◌<◌, ◌^◌};
    ghost use Rattle.node_table.specs.Charge.{BudgetView};

    ghost Value = { BudgetView };

    ghost view = { λ b. record { left = b.left; charged = b.charged } };

    ghost invariant = { λ b. b.left + b.charged < 2 ^ 64 };
}

impl Budget {
    /// A budget of so many bytes, none of them charged.
    pub fn new(limit: u64) -> Self
        ensures { result ≡ record { left = limit; charged = 0 } }
    {
        Budget {
            left: limit,
            charged: 0,
        }
    }

    /// How many bytes can still be charged.
    pub fn left(&self) -> u64
        ensures { result ≡ self.now.left }
    {
        self.left
    }

    /// How many bytes can be charged in all.
    pub fn limit(&self) -> u64
        ensures { result ≡ (budget_charge self.now).limit }
    {
        self.left + self.charged
    }
}

impl Allocator for Budget {
    ghost charge = { λ b. Some (budget_charge b) };

    /// Refused exactly where fewer bytes are left than the size has.
    fn allocate(&mut self, size: NodeSize) -> Result<(), OOMError>
        ensures ok { OnOk result
            (Some (budget_charge self.new) ≡ add_charge (Some (budget_charge self.old)) (stated_size size)) }
        ensures err { OnErr result (self.new ≡ self.old) }
        ensures granted { IsOk result ↔ (stated_size size ≤ self.old.left) }
        ensures left { OnOk result (self.new.left + stated_size size ≡ self.old.left) }
    {
        let bytes = size.bytes();
        if self.left < bytes {
            return Err(OOMError::new());
        }
        self.left -= bytes;
        self.charged += bytes;
        Ok(())
    }

    fn deallocate(&mut self, size: NodeSize)
        requires { Covers (Some (budget_charge self.old)) (stated_size size) }
        ensures charge { Some (budget_charge self.old)
            ≡ add_charge (Some (budget_charge self.new)) (stated_size size) }
        ensures left { self.new.left ≡ self.old.left + stated_size size }
    {
        let bytes = size.bytes();
        self.charged -= bytes;
        self.left += bytes;
    }
}
