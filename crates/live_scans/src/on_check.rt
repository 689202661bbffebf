//! What is learnt at the check of a node.

use live_nodes::map_law::{Asks, MapView};
use live_nodes::plays::OnCheck;
use std::marker::PhantomData;

/// What the map has at all keys that begin like the node.
pub struct Whole<A> {
    of: PhantomData<A>,
}

impl<A: Asks> OnCheck<MapView> for Whole<A> {
    ghost use Rattle.live_scans.specs.inner.Moments.{LearnsAll};

    ghost told = { LearnsAll A.ask.caller };
}
