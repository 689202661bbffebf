//! The statistics of a tree: one walk over all of its nodes, each counted on its level.
//!
//! Tested in `test_owned/statistics` and `tools/dev/try-commands`.

ghost use Rattle.std.specs.Prelude.{OnOk, ◌≡◌, ◌-◌};
ghost use Rattle.node_table.specs.Table.{IsSubtree};
ghost use Rattle.tree_links.specs.SeenTable.{name_of};
ghost use Rattle.tree_path.specs.inner.Root.{depth};
ghost use Rattle.tree_walk.specs.inner.Count.{AddsSubtree};

use node_base::base_node::NodeType;
use node_stats::NodeStats;
use spec_map::error::OOMError;
use tree_links::bytes::pair_number;
use tree_links::link::LinkRef;
use tree_links::linked_node::LinkedNode;
use tree_links::links::Links;

/// Counts the node in a slot, which has so many nodes above it, and all nodes below it, a leaf in its parent too.
/// `OOMError` comes where there is no memory for a level.
pub fn count_subtree<P: Drop>(
    nodes: &Links<P>,
    slot: usize,
    above: usize,
    stats: &mut NodeStats,
) -> Result<(), OOMError>
    requires { IsSubtree nodes.now.table (depth - above) (name_of slot) }
    ensures counted { OnOk result
        (AddsSubtree nodes.now.table above (name_of slot) stats.old.levels stats.new.levels) }
    ensures pairs { stats.new.kv_pairs ≡ stats.old.kv_pairs }
{
    let Some(node) = nodes.get(slot) else {
        unreachable!()
    };
    let base = LinkedNode::base(node);
    stats.add_node(above, base.get_type(), u64::from(base.value_count()))?;
    if LinkedNode::is_leaf(node) {
        return Ok(());
    }
    let mut from = 0;
    'children: while let Some((byte, child)) = LinkedNode::first_from(node, from) {
        match child {
            LinkRef::Slot(below) => count_subtree(nodes, below, above + 1, stats)?,
            LinkRef::Pair(rest, _) => {
                // (for the proof: brings the number of its bytes into scope)
                let _ = pair_number(base, byte, rest);
                stats.add_node(above + 1, NodeType::N4, 1)?;
            }
            LinkRef::Payload(_) => unreachable!(),
        }
        from = usize::from(byte) + 1;
    }
    Ok(())
}
