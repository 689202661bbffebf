//! The rule of the sharded lock, and how its steps change what a seat knows.

use crate::view::View;
use atomic_table::{Join, Play, Split, TableRule};
use std::marker::{Brand, PhantomData};

/// What is in the slot of a shard: it contains the part of a map of values T whose keys are of the shard.
pub trait Sharded<T> {
    ghost use Rattle.std.specs.Prelude.{ℕ, Bool};
    ghost use Rattle.spec_map.specs.Map.{Pairs};

    ghost same: { T → T → Bool };

    // What it contains, where this is the limit of each shard.
    ghost content: { ℕ → Self → Pairs T → Type 0 };

    // The shard of a key, where there are so many of them.
    ghost shard: { ℕ → ℕ → ℕ };
}

/// The rule of the lock.
pub struct Law<T, S> {
    of: PhantomData<(T, S)>,
}

impl<T, S: Sharded<T>> TableRule<Option<S>, View<T, S>, u64> for Law<T, S> {
    ghost use Rattle.share_shards.specs.inner.Rule.{TableRule};
    ghost use Rattle.share_shards.specs.inner.SeatView.{Blank};

    ghost holds = { λ limit. TableRule S.same (S.content limit) S.shard };

    ghost first = { λ _. Blank };
}

/// The limit of each shard, as the rule of a step names it.
pub trait Limit {
    ghost use Rattle.std.specs.Prelude.{ℕ};

    ghost limit: { ℕ };
}

impl Limit for Brand {
    ghost limit = { 0 };
}

/// A try: the lock of a shard was won, or nothing changed.
pub struct Try<B> {
    of: PhantomData<B>,
}

impl<T, S: Sharded<T>, B: Limit> Play<Option<S>, View<T, S>> for Try<B> {
    ghost use Rattle.share_shards.specs.inner.Steps.{Tries};

    ghost then = { λ step. Tries (S.content B.limit) (S.shard step.slots) step };
}

/// What a hold has done: the operations that were made in it, in order.
pub trait Done<T> {
    ghost use Rattle.std.specs.Prelude.{ℕ, List};
    ghost use Rattle.spec_map.specs.Call.{Operation};

    ghost operations: { List (Operation ℕ T T) };
}

impl<T> Done<T> for Brand {
    ghost use Rattle.std.specs.Prelude.{[]};

    ghost operations = { [] };
}

/// The operations of a hold are appended to the history.
pub struct Append<D, B> {
    of: PhantomData<(D, B)>,
}

impl<T, S: Sharded<T>, D: Done<T>, B: Limit> Play<Option<S>, View<T, S>> for Append<D, B> {
    ghost use Rattle.share_shards.specs.inner.Steps.{Appends};

    ghost then = { λ step. Appends S.same (S.content B.limit) (S.shard step.slots) D.operations
        step };
}

/// The lock of the shard that was taken last is released.
pub struct Release;

impl<T, S: Sharded<T>> Play<Option<S>, View<T, S>> for Release {
    ghost use Rattle.share_shards.specs.inner.Steps.{Releases};

    ghost then = { λ step. Releases (S.shard step.slots) step };
}

/// A new seat has a caller of its own.
pub struct Enter;

impl<T, S> Play<Option<S>, View<T, S>> for Enter {
    ghost use Rattle.share_shards.specs.inner.Steps.{Enters};

    ghost then = { Enters };
}

/// Two callers at one seat see the whole history.
pub struct Meet;

impl<T, S: Sharded<T>> Play<Option<S>, View<T, S>> for Meet {
    ghost use Rattle.share_shards.specs.inner.Steps.{Meets};

    ghost then = { Meets S.same };
}

/// A seat makes a blank one.
pub struct Cut;

impl<T, S> Split<View<T, S>> for Cut {
    ghost use Rattle.share_shards.specs.inner.SeatView.{Blank};

    ghost left = { λ v. v };

    ghost right = { λ v. Blank };
}

/// Two callers at one seat, and back.
pub struct Pair;

impl<T, S> Join<View<T, S>> for Pair {
    ghost use Rattle.share_shards.specs.inner.SeatView.{Blank};
    ghost use Rattle.share_shards.specs.inner.Steps.{both_of};

    ghost both = { both_of };

    ghost spent = { Blank };
}

impl<T, S> Split<View<T, S>> for Pair {
    ghost use Rattle.share_shards.specs.inner.Steps.{first_of, second_of};

    ghost left = { first_of };

    ghost right = { second_of };
}
