//! The keys of a machine's tree, ascending: one walk over all reachable nodes.
//!
//! Tested in `test_olc` and `tools/dev/try-schedules`.

ghost use Rattle.std.specs.Prelude.{◌≡◌, ◌++◌, map, OnOk};
ghost use Rattle.olc_state.specs.inner.Walks.{meant_nodes};
ghost use Rattle.tree_walk.specs.inner.Scan.{HasSubtree, EachSubtree};

use node_base::base_node::Node;
use node_table::tree_node::TreeNode;
use olc_state::stage::Stored;
use slab::Slab;
use spec_map::error::OOMError;
use spec_map::traits::Word;
use spec_node::child::ChildRef;
use spec_olc::payload::HasMeaning;

/// Adds the keys of the tree in a slot, read back from their numbers, to the end of a vector.
pub fn push_keys<P: HasMeaning, K: Word>(
    nodes: &Slab<Stored<P>>,
    slot: usize,
    keys: &mut Vec<K>,
) -> Result<(), OOMError>
    requires { HasSubtree (meant_nodes P.meaning nodes.now.slots) slot }
    ensures { OnOk result (EachSubtree (meant_nodes P.meaning nodes.now.slots) slot (λ pairs.
        keys.new.items ≡ keys.old.items ++ map (λ pair. K.of_number pair.0) pairs)) }
{
    let Some(stored) = nodes.get(slot) else {
        unreachable!()
    };
    let node = &stored.node;
    let first = node.base().first_key();
    let mut from = 0;
    'children: while let Some((byte, child)) = node.first_from(from) {
        match child {
            ChildRef::Payload(_) => keys.push(K::from_u64(first + byte as u64))?,
            ChildRef::Node(below) => push_keys(nodes, below, keys)?,
        }
        from = byte as usize + 1;
    }
    Ok(())
}
