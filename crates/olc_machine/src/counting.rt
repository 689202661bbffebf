//! The statistics of a machine's tree: one walk over all reachable nodes, each counted on its level.
//!
//! Tested in `test_olc` and `tools/dev/try-schedules`.

ghost use Rattle.std.specs.Prelude.{IfOk, OnOk, ◌≡◌, ◌-◌};
ghost use Rattle.node_table.specs.Table.{IsSubtree};
ghost use Rattle.tree_path.specs.inner.Root.{depth};
ghost use Rattle.spec_olc.specs.State.{State};
ghost use Rattle.node_stats.specs.Stats.{IsTally};
ghost use Rattle.node_stats.specs.Visits.{visits_below};
ghost use Rattle.olc_state.specs.inner.Meant.{meant_table};
ghost use Rattle.olc_state.specs.inner.Tables.{IsPlaced};
ghost use Rattle.olc_state.specs.inner.Turns.{ShowsNodes};
ghost use Rattle.olc_state.specs.inner.Walks.{meant_nodes};
ghost use Rattle.tree_walk.specs.inner.Count.{AddsSubtree};
ghost use Rattle.olc_machine.specs.Shape.{reachable};

use node_base::base_node::Node;
use node_stats::NodeStats;
use node_table::tree_node::TreeNode;
use olc_state::stage::Stored;
use olc_state::store::Store;
use slab::Slab;
use spec_map::error::OOMError;
use spec_node::child::ChildRef;
use spec_olc::payload::HasMeaning;
use std::alloc::Global;

/// Counts all reachable nodes, and no pairs. `OOMError` if there is no memory for a level.
pub fn count<P: HasMeaning>(store: &Store<P>, alloc: Global) -> Result<NodeStats, OOMError>
    requires placed { IsPlaced (meant_table P.meaning store.now) store.now.root }
    ensures levels { IfOk result (λ stats. (s : State P.Meaning)
        → ShowsNodes (meant_table P.meaning store.now) store.now.root s
        → IsTally (visits_below 0 (reachable s)) stats.levels) }
    ensures pairs { IfOk result (λ stats. stats.kv_pairs ≡ 0) }
{
    let mut stats = NodeStats::empty(alloc);
    count_subtree(&store.nodes, store.root, 0, &mut stats)?;
    Ok(stats)
}

// Counts the node in a slot, and all nodes under it; `above` is the number of levels above it.
fn count_subtree<P: HasMeaning>(
    nodes: &Slab<Stored<P>>,
    slot: usize,
    above: usize,
    stats: &mut NodeStats,
) -> Result<(), OOMError>
    requires { IsSubtree (meant_nodes P.meaning nodes.now.slots) (depth - above) slot }
    ensures counted { OnOk result (AddsSubtree (meant_nodes P.meaning nodes.now.slots) above slot
        stats.old.levels stats.new.levels) }
    ensures pairs { stats.new.kv_pairs ≡ stats.old.kv_pairs }
{
    let Some(stored) = nodes.get(slot) else {
        unreachable!()
    };
    let node = &stored.node;
    let base = node.base();
    stats.add_node(above, base.get_type(), u64::from(base.value_count()))?;
    if node.is_leaf() {
        return Ok(());
    }
    let mut from = 0;
    'children: while let Some((byte, child)) = node.first_from(from) {
        let below = match child {
            ChildRef::Node(below) => below,
            ChildRef::Payload(_) => unreachable!(),
        };
        count_subtree(nodes, below, above + 1, stats)?;
        from = usize::from(byte) + 1;
    }
    Ok(())
}
