//! The nodes in their slots, and the changes that events make there.
//!
//! Tested in `test_olc` and `tools/dev/try-schedules`.

ghost use Rattle.std.specs.Prelude.{◌≡◌, ◌≢◌, ◌⊎◌, ◌+◌, ℕ, None, Some, IsSome, IfOk, OnErr, length};
ghost use Rattle.slab.specs.Slab.{get};
ghost use Rattle.node_base.specs.Form.{Fits, stated_size};
ghost use Rattle.spec_map.specs.Map.{lookup, put, without};
ghost use Rattle.spec_node.specs.TableNode.{MayHave};
ghost use Rattle.spec_olc.specs.Meaning.{child_of, in_some};
ghost use Rattle.olc_state.specs.inner.Facts.{stored_sizes, AllAdmitted};
ghost use Rattle.olc_state.specs.inner.Meant.{meant_node, meant_table};
ghost use Rattle.olc_state.specs.inner.Slots.{SetsNode, made_node};
ghost use Rattle.olc_state.specs.inner.World.{PlacedNode, entry, is_detached, is_linked, is_private, is_retired};
ghost use Rattle.olc_words.specs.Epoch.{IsReclaimable, life_of};
ghost use Rattle.spec_olc.specs.Retirement.{count_after, stamp_at};
ghost use Rattle.olc_words.specs.declared.epoch.Life.TheVariants.{InUse};
ghost use Rattle.spec_olc.specs.Lock.{IsLocked, IsObsolete};

use crate::stage::{NodeLife, Stored};
use node_table::tree_node::TreeNode;
use olc_words::epoch::Pins;
use olc_words::lock::Word64;
use slab::Slab;
use spec_map::error::OOMError;
use spec_node::child::Child;
use spec_olc::payload::HasMeaning;

/// The nodes in their slots, the root's slot, and the pins of the calls that may step on them.
#[derive(Drop)]
pub struct Store<P> {
    pub nodes: Slab<Stored<P>>,
    pub root: usize,
    pub pins: Pins,
}

impl<P: HasMeaning> Store<P> {
    /// Gives the node in a slot another word.
    pub fn set_word(&mut self, slot: usize, word: Word64)
        requires { IsSome (get self.old.nodes slot) }
        ensures here { (a : PlacedNode P.Meaning) → meant_table P.meaning self.old slot ≡ Some a
            → meant_table P.meaning self.new slot ≡ Some (record a { word = word }) }
        ensures others { (o : ℕ) → o ≢ slot
            → meant_table P.meaning self.new o ≡ meant_table P.meaning self.old o }
        ensures sizes { stored_sizes self.new.nodes.slots ≡ stored_sizes self.old.nodes.slots }
        ensures length { length self.new.nodes.slots ≡ length self.old.nodes.slots }
        ensures rest { self.new ≡ record self.old { nodes = self.new.nodes } }
    {
        let Some(node) = self.nodes.get_mut(slot) else {
            unreachable!()
        };
        node.word = word;
    }

    /// Marks a private node as linked. The link itself is a `put_child`; no code reads the mark, only the proof.
    pub fn publish(&mut self, slot: usize)
        requires at { (a : PlacedNode P.Meaning) × (meant_table P.meaning self.old slot ≡ Some a) }
        ensures sets { (a : PlacedNode P.Meaning) → meant_table P.meaning self.old slot ≡ Some a
            → SetsNode P.meaning self.old self.new slot (Some (record a { lifetime = is_linked })) }
        ensures sizes { stored_sizes self.new.nodes.slots ≡ stored_sizes self.old.nodes.slots }
        ensures lives { self.new.pins ≡ self.old.pins }
    {
        let Some(node) = self.nodes.get_mut(slot) else {
            unreachable!()
        };
        node.place = NodeLife::Linked;
    }

    /// Marks a linked node as detached. It is taken out of the tree by a `put_child` or `take_child` at its parent; no
    /// code reads the mark, only the proof.
    pub fn detach(&mut self, slot: usize)
        requires at { (a : PlacedNode P.Meaning) × (meant_table P.meaning self.old slot ≡ Some a) }
        ensures sets { (a : PlacedNode P.Meaning) → meant_table P.meaning self.old slot ≡ Some a
            → SetsNode P.meaning self.old self.new slot
            (Some (record a { lifetime = is_detached })) }
        ensures sizes { stored_sizes self.new.nodes.slots ≡ stored_sizes self.old.nodes.slots }
        ensures lives { self.new.pins ≡ self.old.pins }
    {
        let Some(node) = self.nodes.get_mut(slot) else {
            unreachable!()
        };
        node.place = NodeLife::Detached;
    }

    /// Puts a child under a byte of a node, and returns the previous one.
    pub fn put_child(&mut self, slot: usize, byte: u8, child: Child<P>) -> Option<Child<P>>
        requires at { (a : PlacedNode P.Meaning) × (meant_table P.meaning self.old slot ≡ Some a)
            × MayHave a.node.prefix (child_of P.meaning child)
            × (lookup a.node.children byte ≡ None → Fits a.node.form (length a.node.children + 1)) }
        ensures sets { (a : PlacedNode P.Meaning) → meant_table P.meaning self.old slot ≡ Some a
            → SetsNode P.meaning self.old self.new slot (Some (record a {
              node = record a.node {
                children = put a.node.children byte (child_of P.meaning child);
              };
            })) }
        ensures before { (a : PlacedNode P.Meaning) → meant_table P.meaning self.old slot ≡ Some a
            → in_some (child_of P.meaning) result ≡ entry a byte }
        ensures sizes { stored_sizes self.new.nodes.slots ≡ stored_sizes self.old.nodes.slots }
        ensures lives { self.new.pins ≡ self.old.pins }
    {
        let Some(node) = self.nodes.get_mut(slot) else {
            unreachable!()
        };
        if node.node.get_child(byte).is_some() {
            return Some(node.node.change(byte, child));
        }
        node.node.insert(byte, child);
        None
    }

    /// Takes the child under a byte of a node.
    pub fn take_child(&mut self, slot: usize, byte: u8) -> Child<P>
        requires at { (a : PlacedNode P.Meaning) × (meant_table P.meaning self.old slot ≡ Some a)
            × IsSome (entry a byte) }
        ensures sets { (a : PlacedNode P.Meaning) → meant_table P.meaning self.old slot ≡ Some a
            → SetsNode P.meaning self.old self.new slot (Some (record a {
              node = record a.node { children = without a.node.children byte };
            })) }
        ensures before { (a : PlacedNode P.Meaning) → meant_table P.meaning self.old slot ≡ Some a
            → entry a byte ≡ Some (child_of P.meaning result) }
        ensures sizes { stored_sizes self.new.nodes.slots ≡ stored_sizes self.old.nodes.slots }
        ensures lives { self.new.pins ≡ self.old.pins }
    {
        let Some(node) = self.nodes.get_mut(slot) else {
            unreachable!()
        };
        node.node.remove(byte)
    }

    /// Puts a new node into a free slot, as a private node of its call. If memory runs out, nothing changes.
    pub fn add(&mut self, node: TreeNode<P>) -> Result<usize, OOMError>
        requires admitted { AllAdmitted (meant_table P.meaning self.old) self.old.pins.slots }
        ensures free { IfOk result (λ slot. meant_table P.meaning self.old slot ≡ None) }
        ensures sets { IfOk result (λ slot. SetsNode P.meaning self.old self.new slot
            (Some (made_node (meant_node P.meaning node)))) }
        ensures sizes { IfOk result (λ slot. stored_sizes self.new.nodes.slots
            ≡ stored_sizes self.old.nodes.slots + stated_size node.form) }
        ensures admitted { AllAdmitted (meant_table P.meaning self.new) self.new.pins.slots }
        ensures err { OnErr result (self.new.nodes.slots ≡ self.old.nodes.slots) }
        ensures err_rest { OnErr result
            (record self.new { nodes = self.old.nodes } ≡ self.old) }
    {
        self.nodes.reserve(1)?;
        let slot = self.nodes.vacant_key();
        self.pins.admit(slot)?;
        Ok(
            self.nodes.insert_reserved(Stored {
                word: Word64::from_number(0),
                place: NodeLife::Private,
                node,
            }),
        )
    }

    /// Removes a private node and frees its slot.
    pub fn take_back(&mut self, slot: usize) -> TreeNode<P>
        requires private { (a : PlacedNode P.Meaning) × (meant_table P.meaning self.old slot ≡ Some a)
            × (a.lifetime ≡ is_private) }
        requires admitted { AllAdmitted (meant_table P.meaning self.old) self.old.pins.slots }
        ensures sets { SetsNode P.meaning self.old self.new slot None }
        ensures node { (a : PlacedNode P.Meaning) → meant_table P.meaning self.old slot ≡ Some a
            → meant_node P.meaning result ≡ a.node }
        ensures sizes { stored_sizes self.old.nodes.slots
            ≡ stored_sizes self.new.nodes.slots + stated_size result.form }
        ensures admitted { AllAdmitted (meant_table P.meaning self.new) self.new.pins.slots }
    {
        self.take_out(slot)
    }

    /// Removes a retired node and frees its slot. No call in flight may still step on it.
    pub fn free(&mut self, slot: usize) -> TreeNode<P>
        requires there { (a : PlacedNode P.Meaning) × (meant_table P.meaning self.old slot ≡ Some a) }
        requires may { IsReclaimable self.old.pins slot }
        requires admitted { AllAdmitted (meant_table P.meaning self.old) self.old.pins.slots }
        ensures sets { SetsNode P.meaning self.old self.new slot None }
        ensures node { (a : PlacedNode P.Meaning) → meant_table P.meaning self.old slot ≡ Some a
            → meant_node P.meaning result ≡ a.node }
        ensures sizes { stored_sizes self.old.nodes.slots
            ≡ stored_sizes self.new.nodes.slots + stated_size result.form }
        ensures admitted { AllAdmitted (meant_table P.meaning self.new) self.new.pins.slots }
    {
        self.take_out(slot)
    }

    // Removes a node from its slot, and the slot from the pins.
    fn take_out(&mut self, slot: usize) -> TreeNode<P>
        requires there { (a : PlacedNode P.Meaning) × (meant_table P.meaning self.old slot ≡ Some a) }
        requires may { (life_of self.old.pins slot ≡ Some InUse) ⊎ IsReclaimable self.old.pins slot }
        requires admitted { AllAdmitted (meant_table P.meaning self.old) self.old.pins.slots }
        ensures sets { SetsNode P.meaning self.old self.new slot None }
        ensures node { (a : PlacedNode P.Meaning) → meant_table P.meaning self.old slot ≡ Some a
            → meant_node P.meaning result ≡ a.node }
        ensures sizes { stored_sizes self.old.nodes.slots
            ≡ stored_sizes self.new.nodes.slots + stated_size result.form }
        ensures admitted { AllAdmitted (meant_table P.meaning self.new) self.new.pins.slots }
    {
        let stored = self.nodes.remove(slot);
        self.pins.forget(slot);
        stored.node
    }

    /// Marks a locked, detached node obsolete and retires it.
    pub fn retire(&mut self, slot: usize)
        requires out { (a : PlacedNode P.Meaning) × (meant_table P.meaning self.old slot ≡ Some a)
            × (a.lifetime ≡ is_detached) × IsLocked a.word × (IsObsolete a.word → ⊥) }
        requires admitted { AllAdmitted (meant_table P.meaning self.old) self.old.pins.slots }
        ensures here { (a : PlacedNode P.Meaning) → meant_table P.meaning self.old slot ≡ Some a
            → meant_table P.meaning self.new slot ≡ Some (record a {
              word = a.word + 1;
              lifetime = is_retired (stamp_at self.old.pins.count);
            }) }
        ensures others { (o : ℕ) → o ≢ slot
            → meant_table P.meaning self.new o ≡ meant_table P.meaning self.old o }
        ensures root { self.new.root ≡ self.old.root }
        ensures seats { self.new.pins.seats ≡ self.old.pins.seats }
        ensures count { self.new.pins.count ≡ count_after self.old.pins.count }
        ensures sizes { stored_sizes self.new.nodes.slots ≡ stored_sizes self.old.nodes.slots }
        ensures admitted { AllAdmitted (meant_table P.meaning self.new) self.new.pins.slots }
    {
        let Some(node) = self.nodes.get_mut(slot) else {
            unreachable!()
        };
        node.word = node.word.obsoleted();
        node.place = NodeLife::Retired;
        self.pins.retire(slot);
    }
}
