//! The map that a handle holds.
//!
//! Tested in `tools/c-library`.

ghost use Rattle.std.specs.Prelude.{IfOk};
ghost use Rattle.congee_c.specs.Limit.{limit_of, limit_charge};
ghost use Rattle.tree_edit.specs.TreeCalls.{IsNew};

use face_typed::typed_congee::Congee;
use node_table::allocator::Budget;
use spec_map::error::OOMError;
use std::alloc::Global;

/// The map, under a type without parameters, as C needs it.
#[derive(Drop)]
pub struct Held {
    pub map: Congee<u64, u64, Budget>,
}

impl Held {
    /// An empty map, or `OOMError` where the limit or the machine has no memory for it. The limit is in bytes, over the
    /// stated sizes of nodes.
    pub fn new(alloc: Global, limit: u64) -> Result<Held, OOMError>
        ensures { IfOk result (λ held. IsNew limit_charge (limit_of limit) held.map) }
    {
        Ok(Held {
            map: Congee::new(alloc, Budget::new(limit))?,
        })
    }
}
