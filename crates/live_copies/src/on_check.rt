//! What is learnt at the check of the root word.

use live_nodes::map_law::{Asks, MapView};
use live_nodes::plays::OnCheck;
use std::marker::PhantomData;

/// The whole history, and that what the locked nodes have is so in the map.
pub(crate) struct Whole<A> {
    of: PhantomData<A>,
}

impl<A: Asks> OnCheck<MapView> for Whole<A> {
    ghost use Rattle.live_copies.specs.inner.Whole.{LearnsWhole};

    ghost told = { LearnsWhole A.ask.caller };
}
