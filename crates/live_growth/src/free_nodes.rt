//! Nodes that are no part of the map any more, and may be used again.
ghost use Rattle.std.specs.Prelude.{◌≡◌, ◌≢◌, ◌≤◌};
ghost use Rattle.node_base.specs.declared.base_node.NodeType.TheVariants.{N4};
ghost use Rattle.live_nodes.specs.Seats.{SeatView};
ghost use Rattle.live_nodes.specs.Views.{View};
ghost use Rattle.live_reads.specs.Paths.{Sights};
ghost use Rattle.live_growth.specs.FreeNodes.{IsSpare, slot_of, with_slot, HasFreeNodes, Lacks, KeepsOthers};

use live_layout::form::{form_below, next_of};
use node_base::base_node::NodeType;

/// Some forms.
#[derive(Clone, Copy, Debug, PartialEq, Eq)]
pub struct Forms {
    pub n4: bool,
    pub n16: bool,
    pub n48: bool,
    pub n256: bool,
}

impl Forms {
    /// No form.
    pub fn none() -> Forms {
        Forms {
            n4: false,
            n16: false,
            n48: false,
            n256: false,
        }
    }

    /// Each form.
    pub fn all() -> Forms {
        Forms {
            n4: true,
            n16: true,
            n48: true,
            n256: true,
        }
    }

    /// Whether this form is among them.
    pub fn has(&self, form: NodeType) -> bool {
        match form {
            NodeType::N4 => self.n4,
            NodeType::N16 => self.n16,
            NodeType::N48 => self.n48,
            NodeType::N256 => self.n256,
        }
    }

    /// Adds a form.
    pub fn add(&mut self, form: NodeType) {
        match form {
            NodeType::N4 => self.n4 = true,
            NodeType::N16 => self.n16 = true,
            NodeType::N48 => self.n48 = true,
            NodeType::N256 => self.n256 = true,
        }
    }
}

// A name, or none where it is this one.
fn other_than(kept: u64, name: u64) -> u64
    ensures same { kept ≡ name → result ≡ 0 }
    ensures other { kept ≢ name → result ≡ kept }
    ensures none { 1 ≤ result → result ≡ kept }
{
    if kept == name { 0 } else { kept }
}

/// Names of nodes that are no part of the map and that nobody uses: one for each form, a second one of the smallest, as a call may
/// need two of that, and a further one of any form. 0 for none.
#[derive(Clone, Copy, Debug, PartialEq, Eq)]
pub struct FreeNodes {
    pub n4: u64,
    pub n16: u64,
    pub n48: u64,
    pub n256: u64,
    pub second: u64,
    pub more: u64,
}

impl FreeNodes {
    /// No node.
    pub fn none() -> FreeNodes
        ensures { (v : SeatView View) → HasFreeNodes v result }
    {
        FreeNodes {
            n4: 0,
            n16: 0,
            n48: 0,
            n256: 0,
            second: 0,
            more: 0,
        }
    }

    /// The name that is kept for a form.
    pub fn get(&self, form: NodeType) -> u64
        ensures { result ≡ slot_of self.now form }
    {
        match form {
            NodeType::N4 => self.n4,
            NodeType::N16 => self.n16,
            NodeType::N48 => self.n48,
            NodeType::N256 => self.n256,
        }
    }

    fn set(&mut self, form: NodeType, name: u64)
        ensures { self.new ≡ with_slot self.old form name }
    {
        match form {
            NodeType::N4 => self.n4 = name,
            NodeType::N16 => self.n16 = name,
            NodeType::N48 => self.n48 = name,
            NodeType::N256 => self.n256 = name,
        }
    }

    /// The name of a node of the smallest form. A new node has that.
    pub fn smallest(&self) -> u64
        ensures { (v : SeatView View) → HasFreeNodes v self.now → 1 ≤ result → IsSpare v N4 result }
    {
        if self.second != 0 {
            self.second
        } else {
            self.n4
        }
    }

    /// The name of a node of a larger form than this one, the smallest that is kept.
    pub fn larger(&self, form: NodeType) -> u64
        ensures { (v : SeatView View) → HasFreeNodes v self.now → 1 ≤ result → Sights v result }
    {
        let next = next_of(form);
        let near = self.get(next);
        if near != 0 {
            return near;
        }
        let far = self.get(next_of(next));
        if far != 0 {
            return far;
        }
        self.get(NodeType::N256)
    }

    /// A name is kept no longer. The others are.
    pub fn forget(&mut self, name: u64)
        ensures gone { 1 ≤ name → Lacks self.new name }
        ensures others { KeepsOthers self.old self.new name }
        ensures left { (v : SeatView View) → HasFreeNodes v self.old → HasFreeNodes v self.new }
    {
        self.n4 = other_than(self.n4, name);
        self.n16 = other_than(self.n16, name);
        self.n48 = other_than(self.n48, name);
        self.n256 = other_than(self.n256, name);
        self.second = other_than(self.second, name);
        self.more = other_than(self.more, name);
    }

    /// Keeps a node: for its form, or where one is kept for that, as the second or the further one. `false` where there is no place.
    pub fn keep(&mut self, name: u64) -> bool
        ensures kept { (v : SeatView View) → HasFreeNodes v self.old → Sights v name
            → HasFreeNodes v self.new }
    {
        let form = form_below(name);
        if self.get(form) == 0 {
            self.set(form, name);
            return true;
        }
        if self.second == 0 && form == NodeType::N4 {
            self.second = name;
            return true;
        }
        if self.more == 0 {
            self.more = name;
            return true;
        }
        false
    }

    /// Whether a node of each form is kept.
    pub fn is_full(&self) -> bool {
        self.n4 != 0 && self.n16 != 0 && self.n48 != 0 && self.n256 != 0
    }
}
