//! What a Write by which a node loses a child leaves to clean up.
//!
//! Tested in `tools/dev/try-schedules` and `test_olc/refusals`.

ghost use Rattle.std.specs.Prelude.{◌≡◌, true, false, Some, None, IsTrue};
ghost use Rattle.olc_state.specs.inner.Meant.{meant_table};
ghost use Rattle.olc_state.specs.inner.World.{PlacedNode};
ghost use Rattle.olc_write.specs.inner.Leaving.{IsLeftOf};

use node_table::tree_node::TreeNode;
use olc_state::cleanup::Cleanup;
use olc_state::stepped::node_at;
use olc_state::store::Store;
use spec_olc::payload::HasMeaning;

/// The cleanup for the node in a slot, if it isn't the root and has few children; `again` if another may follow.
pub fn left_at<P: HasMeaning>(store: &Store<P>, slot: usize, again: bool) -> Option<Cleanup>
    requires { (a : PlacedNode P.Meaning) × (meant_table P.meaning store.now slot ≡ Some a) }
    ensures { (a : PlacedNode P.Meaning) → meant_table P.meaning store.now slot ≡ Some a
        → IsLeftOf again a.node result }
{
    cleanup_of(&node_at(store, slot).node, again)
}

// The cleanup for a node, if it isn't the root and has few children.
fn cleanup_of<P: Drop>(node: &TreeNode<P>, again: bool) -> Option<Cleanup>
    ensures { IsLeftOf again node.now result }
{
    let length = node.base().prefix().len();
    if length > 0 && node.is_due() {
        Some(Cleanup { length, again })
    } else {
        None
    }
}

/// The cleanup after a Write of a payload into the leaf in a slot, or, unless it `stores` one, the removal of one.
pub(crate) fn left_by<P: HasMeaning>(store: &Store<P>, slot: usize, stores: bool) -> Option<Cleanup>
    requires { (a : PlacedNode P.Meaning) × (meant_table P.meaning store.now slot ≡ Some a) }
    ensures stored { IsTrue stores → result ≡ None }
    ensures removed { stores ≡ false → (a : PlacedNode P.Meaning)
        → meant_table P.meaning store.now slot ≡ Some a → IsLeftOf true a.node result }
{
    if stores {
        None
    } else {
        left_at(store, slot, true)
    }
}
