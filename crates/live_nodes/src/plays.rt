//! What the steps tell, and what a caller picks of it.
ghost use Rattle.live_nodes.specs.Plays.{Takes, Sees, Looks, Idles, Checks, Locks, Writes, Frees, Puts, Makes, Grows, Meets};

use crate::law::{NodeLaw, View};
use std::marker::PhantomData;
use word_book::seat::Meeting;
use word_book::word::Play;

/// What a caller learns at a check: of its view before, the node, its word, what was read of it, where other nodes lie, and
/// its view after.
pub trait OnCheck<V> {
    ghost use Rattle.std.specs.Prelude.{ℕ, List};
    ghost use Rattle.live_nodes.specs.Seats.{Place};

    ghost told: { V → ℕ → ℕ → List (ℕ × ℕ) → List Place → V → Type 0 };
}

/// What a caller learns as it locks a node or frees it: of its view before, the node, its content, and its view after.
pub trait OnLock<V> {
    ghost use Rattle.std.specs.Prelude.{ℕ};
    ghost use Rattle.live_nodes.specs.Nodes.{Content};

    ghost told: { V → ℕ → Content → V → Type 0 };
}

/// What a caller learns as it makes a node: of its view before, the node's place, its content, its number, and its view
/// after.
pub trait OnMake<V> {
    ghost use Rattle.std.specs.Prelude.{ℕ};
    ghost use Rattle.live_nodes.specs.Nodes.{Content};

    ghost told: { V → ℕ → Content → ℕ → V → Type 0 };
}

/// What two callers learn as they meet: of the views of both before, and of both after.
pub trait OnMeet<V> {
    ghost told: { V → V → V → V → Type 0 };
}

pub struct Take;

impl<V, L: NodeLaw<V>> Play<View<V, L>> for Take {
    ghost then = { Takes };
}

pub struct See;

impl<V, L: NodeLaw<V>> Play<View<V, L>> for See {
    ghost then = { Sees };
}

pub struct Look;

impl<V, L: NodeLaw<V>> Play<View<V, L>> for Look {
    ghost then = { Looks };
}

pub struct Idle;

impl<V, L: NodeLaw<V>> Play<View<V, L>> for Idle {
    ghost then = { Idles };
}

pub struct Check<M> {
    of: PhantomData<M>,
}

impl<V, L: NodeLaw<V>, M: OnCheck<V>> Play<View<V, L>> for Check<M> {
    ghost then = { Checks M.told };
}

pub struct Lock<M> {
    of: PhantomData<M>,
}

impl<V, L: NodeLaw<V>, M: OnLock<V>> Play<View<V, L>> for Lock<M> {
    ghost then = { Locks M.told };
}

pub struct Write;

impl<V, L: NodeLaw<V>> Play<View<V, L>> for Write {
    ghost then = { Writes };
}

pub struct Free<M> {
    of: PhantomData<M>,
}

impl<V, L: NodeLaw<V>, M: OnLock<V>> Play<View<V, L>> for Free<M> {
    ghost then = { Frees M.told };
}

pub struct Put;

impl<V, L: NodeLaw<V>> Play<View<V, L>> for Put {
    ghost then = { Puts };
}

pub struct Make<M> {
    of: PhantomData<M>,
}

impl<V, L: NodeLaw<V>, M: OnMake<V>> Play<View<V, L>> for Make<M> {
    ghost then = { Makes M.told };
}

pub struct Grow;

impl<V, L: NodeLaw<V>> Play<View<V, L>> for Grow {
    ghost then = { Grows L.root };
}

pub struct Meet<M> {
    of: PhantomData<M>,
}

impl<V, L: NodeLaw<V>, M: OnMeet<V>> Meeting<View<V, L>> for Meet<M> {
    ghost then = { Meets M.told };
}
