//! What every tree is built from, re-exported: the map's definitions, the nodes, their table, and statistics.
#![tactic(auto)]

pub use node_base::{base_node, iter, lanes};
pub use node_forms::{node_4, node_16, node_48, node_256};
pub use node_stats as stats;
pub use node_table::{allocator, tree_node};
pub use spec_map::{error, laws, payload, traits};
pub use spec_node::child;

#[cfg(test)]
mod tests;
