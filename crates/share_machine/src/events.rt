//! The machine of a map whose calls are made of many events.
//!
//! Tested in `share_maps`.

use node_table::allocator::Allocator;
use olc_machine::machine::Machine;
use spec_olc::payload::HasMeaning;

/// A map whose calls are made of the events of the tree's protocol. As many
/// calls are in flight at once as numbers are seated.
#[derive(Drop)]
pub struct Events<P: HasMeaning, A: Allocator> {
    pub(crate) machine: Machine<P, A>,
}
