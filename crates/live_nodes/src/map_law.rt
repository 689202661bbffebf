//! The map's law, and what is learnt by it.

use crate::law::NodeLaw;
use crate::plays::{OnCheck, OnLock, OnMake};
use std::marker::{Brand, Model, PhantomData};

/// What a seat knows of the map. It exists in proofs alone.
pub struct MapView;

impl Model for MapView {
    ghost use Rattle.std.specs.Prelude.{[]};
    ghost use Rattle.live_nodes.specs.Views.{View, view_of};

    ghost Value = { View };

    ghost view = { λ _. view_of [] [] [] };
}

/// The nodes are those of a map.
pub struct MapLaw;

impl NodeLaw<MapView> for MapLaw {
    ghost use Rattle.std.specs.Prelude.{[]};
    ghost use Rattle.live_nodes.specs.Views.{view_of};
    ghost use Rattle.live_nodes.specs.Tree.{IsMap};

    ghost holds = { IsMap };

    ghost first = { view_of [] [] [] };

    ghost root = { 1 };
}

/// A call: who makes it, with which key and value. A caller picks it.
pub trait Asks {
    ghost use Rattle.std.specs.Prelude.{Bool};
    ghost use Rattle.live_nodes.specs.Views.{Ask};

    ghost ask: { Ask };

    // Whether it is a look-up, which ends where it finds what it asks for.
    ghost reads: { Bool };
}

impl Asks for Brand {
    ghost use Rattle.std.specs.Prelude.{false};
    ghost use Rattle.live_nodes.specs.Views.{ask};

    ghost ask = { ask 0 0 0 0 };

    ghost reads = { false };
}

/// A look-up goes on below a node, or ends there. Another call goes on, or learns nothing.
pub struct Look<A> {
    of: PhantomData<A>,
}

impl<A: Asks> OnCheck<MapView> for Look<A> {
    ghost use Rattle.live_nodes.specs.Tree.{LearnsNode, Looks};

    ghost told = { LearnsNode (Looks A.reads) A.ask };
}

/// A node was read, and what it is now.
pub struct Head;

impl OnCheck<MapView> for Head {
    ghost use Rattle.live_nodes.specs.Tree.{LearnsHead};

    ghost told = { LearnsHead };
}

/// A look-up ends at a node that leads on to one without such keys.
pub struct Miss<A> {
    of: PhantomData<A>,
}

impl<A: Asks> OnCheck<MapView> for Miss<A> {
    ghost use Rattle.live_nodes.specs.Tree.{LearnsMiss};

    ghost told = { LearnsMiss A.ask };
}

/// Below which node another one is read: its number, and the word by which it was free, or none, where the caller's seat has it
/// locked. A caller picks it.
pub trait Above {
    ghost use Rattle.std.specs.Prelude.{ℕ, Option};

    ghost number: { ℕ };

    ghost word: { Option ℕ };
}

impl Above for Brand {
    ghost use Rattle.std.specs.Prelude.{None};

    ghost number = { 0 };

    ghost word = { None };
}

/// A node was read below another one. While that one is what it was, the node is as it was read.
pub struct Below<N> {
    of: PhantomData<N>,
}

impl<N: Above> OnCheck<MapView> for Below<N> {
    ghost use Rattle.live_nodes.specs.Tree.{LearnsBelow};

    ghost told = { LearnsBelow N.number N.word };
}

/// A node was locked.
pub struct Locked;

impl OnLock<MapView> for Locked {
    ghost use Rattle.live_nodes.specs.Tree.{LearnsLocked};

    ghost told = { LearnsLocked };
}

/// An obsolete node was locked again.
pub struct Reclaimed;

impl OnLock<MapView> for Reclaimed {
    ghost use Rattle.live_nodes.specs.Tree.{LearnsReclaimed};

    ghost told = { LearnsReclaimed };
}

/// The root word was locked.
pub struct RootWordLocked;

impl OnLock<MapView> for RootWordLocked {
    ghost use Rattle.live_nodes.specs.Tree.{LearnsRootWord};

    ghost told = { LearnsRootWord };
}

/// A node is unlocked, and the map is as it was.
pub struct Same;

impl OnLock<MapView> for Same {
    ghost use Rattle.live_nodes.specs.Tree.{StaysSame};

    ghost told = { StaysSame };
}

/// A leaf is unlocked, with a value that was inserted.
pub struct Insert<A> {
    of: PhantomData<A>,
}

impl<A: Asks> OnLock<MapView> for Insert<A> {
    ghost use Rattle.live_nodes.specs.Tree.{Inserts};

    ghost told = { Inserts A.ask };
}

/// What a node is going to have. A caller picks it.
pub trait Fills {
    ghost use Rattle.live_nodes.specs.Nodes.{Content};

    ghost content: { Content };
}

impl Fills for Brand {
    ghost use Rattle.std.specs.Prelude.{[]};

    ghost content = { [] };
}

/// A node is unlocked, or the root word, and leads to one that was obsolete.
pub struct Again<A, C> {
    of: PhantomData<(A, C)>,
}

impl<A: Asks, C: Fills> OnLock<MapView> for Again<A, C> {
    ghost use Rattle.live_nodes.specs.Tree.{LinksAgain};

    ghost told = { LinksAgain A.ask C.content };
}

/// Which form a node has. A caller picks it.
pub trait HasForm {
    ghost use Rattle.node_base.specs.declared.base_node.NodeType.{NodeType};

    ghost form: { NodeType };
}

impl HasForm for Brand {
    ghost use Rattle.node_base.specs.declared.base_node.NodeType.TheVariants.{N4};

    ghost form = { N4 };
}

/// An obsolete node is made.
pub struct New<F> {
    of: PhantomData<F>,
}

impl<F: HasForm> OnMake<MapView> for New<F> {
    ghost use Rattle.live_nodes.specs.Tree.{IsMade};

    ghost told = { IsMade F.form };
}
