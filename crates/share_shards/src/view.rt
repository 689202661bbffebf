//! What a seat at the sharded lock's table knows.

use std::marker::{Model, PhantomData};

/// What a seat knows, about values T and what lies in a slot, S. It exists in proofs alone: no value of it is made.
pub struct View<T, S> {
    of: PhantomData<(T, S)>,
}

impl<T, S> Model for View<T, S> {
    ghost use Rattle.share_shards.specs.inner.SeatView.{ShardView, Blank};

    ghost Value = { ShardView T S };

    ghost view = { λ _. Blank };
}
