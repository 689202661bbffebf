//! What is learnt of the root, and what is seen then.

use crate::map_law::MapView;
use crate::plays::OnCheck;
use std::marker::{Brand, PhantomData};

/// What is seen once the root word was read, by what was seen before. A caller picks it.
pub trait Sees {
    ghost use Rattle.live_nodes.specs.Roots.{History};

    ghost sees: { History → History → Type 0 };
}

impl Sees for Brand {
    ghost use Rattle.std.specs.Prelude.{◌≡◌};

    ghost sees = { λ old new. new ≡ old };
}

/// Which node is the root.
pub struct Root<S> {
    of: PhantomData<S>,
}

impl<S: Sees> OnCheck<MapView> for Root<S> {
    ghost use Rattle.live_nodes.specs.Roots.{LearnsRoot};

    ghost told = { LearnsRoot S.sees };
}
