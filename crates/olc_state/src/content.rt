//! The walk over all pairs of the tree, keys ascending.
//!
//! Tested in `test_olc` and `tools/dev/try-schedules`.

ghost use Rattle.std.specs.Prelude.{◌≡◌, [], ◌∷◌, ◌++◌, length, IfOk, OnOk};
ghost use Rattle.spec_node.specs.Key.{low};
ghost use Rattle.node_table.specs.inner.Kinds.{mapped};
ghost use Rattle.spec_olc.specs.Content.{IsContent};
ghost use Rattle.spec_olc.specs.State.{State};
ghost use Rattle.olc_state.specs.inner.Tables.{IsPlaced};
ghost use Rattle.olc_state.specs.inner.Meant.{meant_table};
ghost use Rattle.olc_state.specs.inner.Turns.{ShowsNodes};
ghost use Rattle.olc_state.specs.inner.Walks.{IsTop, AddsPairs};

use crate::stage::Stored;
use crate::store::Store;
use slab::Slab;
use spec_map::error::OOMError;
use spec_node::child::ChildRef;
use spec_olc::payload::HasMeaning;
use std::alloc::Global;

/// The pairs of the tree, keys ascending; payloads are shared.
pub fn content<P: HasMeaning>(store: &Store<P>, alloc: Global) -> Result<Vec<(u64, P)>, OOMError>
    requires placed { IsPlaced (meant_table P.meaning store.now) store.now.root }
    ensures { IfOk result (λ pairs. (s : State P.Meaning)
        → ShowsNodes (meant_table P.meaning store.now) store.now.root s
        → IsContent s (mapped P.meaning pairs.items)) }
{
    let mut pairs = Vec::new(alloc);
    push_pairs(&store.nodes, store.root, &mut pairs)?;
    Ok(pairs)
}

// The key of a payload: the seven bytes of its leaf's prefix, and the byte that it is stored under.
fn leaf_key(prefix: &[u8], byte: u8) -> u64
    requires { length prefix.now ≡ 7 }
    ensures { result ≡ low (prefix.now ++ byte ∷ []) }
{
    let mut bytes = [byte; 8];
    bytes[..7].copy_from_slice(prefix);
    u64::from_be_bytes(bytes)
}

// Adds the pairs of the tree in a slot to the end of the vector.
fn push_pairs<P: HasMeaning>(
    nodes: &Slab<Stored<P>>,
    slot: usize,
    pairs: &mut Vec<(u64, P)>,
) -> Result<(), OOMError>
    requires { IsTop P.meaning nodes.now.slots slot }
    ensures { OnOk result
        (AddsPairs P.meaning nodes.now.slots slot pairs.old.items pairs.new.items) }
{
    let Some(stored) = nodes.get(slot) else {
        unreachable!()
    };
    let node = &stored.node;
    let mut from = 0;
    'children: while let Some((byte, child)) = node.first_from(from) {
        match child {
            ChildRef::Payload(payload) => {
                let share = payload.share()?;
                pairs.push((leaf_key(node.base().prefix(), byte), share))?;
            }
            ChildRef::Node(below) => push_pairs(nodes, below, pairs)?,
        }
        from = byte as usize + 1;
    }
    Ok(())
}
