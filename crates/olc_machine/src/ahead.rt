//! The first pair from a key on: a path through the tree that takes no memory.
//!
//! Tested in `test_olc` and `tools/dev/try-schedules`.

ghost use Rattle.std.specs.Prelude.{◌≡◌};
ghost use Rattle.spec_node.specs.Key.{low};
ghost use Rattle.olc_state.specs.inner.Walks.{meant_nodes};
ghost use Rattle.tree_walk.specs.Scan.{from_key, first_pair};
ghost use Rattle.tree_walk.specs.inner.Scan.{HasSubtree, EachSubtree};
ghost use Rattle.olc_machine.specs.First.{meant_pair};
ghost use Rattle.olc_machine.specs.inner.FirstByte.{IsFirstByte};

use node_base::base_node::{BaseNode, Node};
use node_table::tree_node::TreeNode;
use olc_state::stage::Stored;
use slab::Slab;
use spec_node::child::ChildRef;
use spec_olc::payload::HasMeaning;

// The byte from which on a node with this base may have keys that aren't below `start`; `first` is its least key.
fn first_byte(base: &BaseNode, first: u64, start: u64) -> usize
    requires { first ≡ low base.now.prefix }
    ensures { IsFirstByte base.now.prefix start result }
{
    let shift = 8 * (7 - base.prefix().len());
    (start.saturating_sub(first) >> shift) as usize
}

/// The first pair of the tree in a slot whose key isn't below `start`.
pub fn pair_from<P: HasMeaning>(
    nodes: &Slab<Stored<P>>,
    slot: usize,
    start: u64,
) -> Option<(u64, &P)>
    requires { HasSubtree (meant_nodes P.meaning nodes.now.slots) slot }
    ensures { EachSubtree (meant_nodes P.meaning nodes.now.slots) slot (λ pairs.
        meant_pair P.meaning result ≡ first_pair (from_key start pairs)) }
{
    let Some(stored) = nodes.get(slot) else {
        unreachable!()
    };
    let node = &stored.node;
    let base = node.base();
    let first = base.first_key();
    let mut from = first_byte(base, first, start);
    'children: while let Some((byte, child)) = node.first_from(from) {
        let found = match child {
            ChildRef::Payload(payload) => Some((first + byte as u64, payload)),
            ChildRef::Node(below) => pair_from(nodes, below, start),
        };
        if found.is_some() {
            return found;
        }
        from = byte as usize + 1;
    }
    None
}
