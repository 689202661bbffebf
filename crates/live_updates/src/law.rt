//! What is learnt where a node is taken out of the map.

use live_nodes::map_law::MapView;
use live_nodes::plays::OnLock;

/// A node is unlocked, and leads no more to one without children.
pub struct Unlink;

impl OnLock<MapView> for Unlink {
    ghost use Rattle.live_updates.specs.Unlinks.{Unlinks};

    ghost told = { Unlinks };
}
