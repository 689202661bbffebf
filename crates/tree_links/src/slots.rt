//! What calls do to the links of the node in one slot.
//!
//! Tested in `test_owned` and `tools/dev/try-commands`.

ghost use Rattle.std.specs.Prelude.{◌≡◌, ◌≤◌, IfErr, IfNone, IfOk, IfSome, IsSome, OnErr, OnOk};
ghost use Rattle.slab.specs.Slab.{slab_len, HasRoomFor};
ghost use Rattle.tree_links.specs.SeenTable.{link_at, links_of};
ghost use Rattle.tree_links.specs.inner.Slots.{HasLink, HasSpareAt, ExchangesLink, LacksLink, PutsLink, IsPresentAt, TakesLink, GrowsAt, IsFewAt, ShrinksAt, IsLeafAt, SetsAt, IsAbsentAt, IsFullAt};
ghost use Rattle.tree_links.specs.declared.link.Link.TheVariants.{Payload};

use crate::link::Link;
use crate::linked_node::LinkedNode;
use crate::place::Place;
use node_rows::spare::Spare;
use slab::Slab;
use spec_map::error::OOMError;
use std::alloc::Global;

/// Takes memory for so many nodes more, and for some to spare, or where that is refused, for those alone.
pub(crate) fn reserve_slots<N>(
    nodes: &mut Slab<N>,
    more: usize,
    spare: usize,
) -> Result<(), OOMError>
    ensures room { OnOk result (HasRoomFor nodes.new more) }
    ensures capacity { nodes.old.capacity ≤ nodes.new.capacity }
    ensures kept { nodes.new ≡ record nodes.old { capacity = nodes.new.capacity } }
{
    let ample = nodes.reserve_exact(more.saturating_add(spare));
    if ample.is_ok() {
        return Ok(());
    }
    nodes.reserve_exact(more)?;
    Ok(())
}

/// Replaces the link under a byte of the node in a slot, and returns the previous one. The node is searched once.
#[inline(always)]
pub(crate) fn exchange_at<P: Drop, N: LinkedNode<P>>(
    nodes: &mut Slab<N>,
    slot: usize,
    byte: u8,
    link: Link<P>,
) -> Link<P>
    requires { HasLink (links_of N.node nodes.old.slots) slot byte link }
    ensures exchanges { ExchangesLink (links_of N.node nodes.old.slots)
        (links_of N.node nodes.new.slots) slot byte result link }
    ensures len { slab_len nodes.new ≡ slab_len nodes.old }
    ensures capacity { nodes.new.capacity ≡ nodes.old.capacity }
    ensures next { nodes.new.vacant_key ≡ nodes.old.vacant_key }
{
    let Some(node) = nodes.get_mut(slot) else {
        unreachable!()
    };
    // (for the proof: brings the order of the links into scope)
    let _ = node.base();
    match node.exchange(byte, link) {
        Ok(before) => before,
        Err(_) => unreachable!(),
    }
}

/// Puts a link under a byte of the node in a slot, which has room and nothing there. `spare` is the row for it, where
/// the node needs one.
#[inline(always)]
pub(crate) fn put_at<P: Drop, N: LinkedNode<P>>(
    nodes: &mut Slab<N>,
    slot: usize,
    byte: u8,
    link: Link<P>,
    spare: Spare<Place<P>>,
)
    requires lacks { LacksLink (links_of N.node nodes.old.slots) slot byte link }
    requires spare { HasSpareAt (links_of N.node nodes.old.slots) slot spare }
    ensures puts { PutsLink (links_of N.node nodes.old.slots)
        (links_of N.node nodes.new.slots) slot byte link }
    ensures len { slab_len nodes.new ≡ slab_len nodes.old }
    ensures capacity { nodes.new.capacity ≡ nodes.old.capacity }
{
    let Some(node) = nodes.get_mut(slot) else {
        unreachable!()
    };
    // (for the proof: brings the order of the links into scope)
    let _ = node.base();
    node.insert(byte, link, spare);
}

/// Takes out the link under a byte of the node in a slot, and returns it.
#[inline(always)]
pub(crate) fn take_at<P: Drop, N: LinkedNode<P>>(
    nodes: &mut Slab<N>,
    slot: usize,
    byte: u8,
) -> Link<P>
    requires { IsPresentAt (links_of N.node nodes.old.slots) slot byte }
    ensures takes { TakesLink (links_of N.node nodes.old.slots)
        (links_of N.node nodes.new.slots) slot byte result }
    ensures len { slab_len nodes.new ≡ slab_len nodes.old }
    ensures capacity { nodes.new.capacity ≡ nodes.old.capacity }
{
    let Some(node) = nodes.get_mut(slot) else {
        unreachable!()
    };
    // (for the proof: brings the order of the links into scope)
    let _ = node.base();
    match node.take(byte) {
        Some(link) => link,
        None => unreachable!(),
    }
}

/// Puts the node in a slot into its next form; the largest stays.
pub(crate) fn grow_at<P: Drop, N: LinkedNode<P>>(
    nodes: &mut Slab<N>,
    slot: usize,
    alloc: Global,
) -> Result<(), OOMError>
    requires { IsSome (link_at (links_of N.node nodes.old.slots) slot) }
    ensures ok { OnOk result (GrowsAt (links_of N.node nodes.old.slots)
        (links_of N.node nodes.new.slots) slot) }
    ensures err { OnErr result
        (links_of N.node nodes.new.slots ≡ links_of N.node nodes.old.slots) }
    ensures len { slab_len nodes.new ≡ slab_len nodes.old }
    ensures capacity { nodes.new.capacity ≡ nodes.old.capacity }
{
    let Some(node) = nodes.get_mut(slot) else {
        unreachable!()
    };
    node.grow(alloc)?;
    Ok(())
}

/// Puts the node in a slot into its next smaller form; the smallest stays.
pub(crate) fn shrink_at<P: Drop, N: LinkedNode<P>>(
    nodes: &mut Slab<N>,
    slot: usize,
    alloc: Global,
) -> Result<(), OOMError>
    requires { IsFewAt (links_of N.node nodes.old.slots) slot }
    ensures ok { OnOk result (ShrinksAt (links_of N.node nodes.old.slots)
        (links_of N.node nodes.new.slots) slot) }
    ensures err { OnErr result
        (links_of N.node nodes.new.slots ≡ links_of N.node nodes.old.slots) }
    ensures len { slab_len nodes.new ≡ slab_len nodes.old }
    ensures capacity { nodes.new.capacity ≡ nodes.old.capacity }
{
    let Some(node) = nodes.get_mut(slot) else {
        unreachable!()
    };
    node.shrink(alloc)?;
    Ok(())
}

/// Sets the payload under a byte of the leaf in a slot, where there is one or the leaf has room, and returns the previous
/// one. Otherwise returns the given payload as `Err`. The leaf is searched once.
#[inline(always)]
pub(crate) fn set_at<P: Drop, N: LinkedNode<P>>(
    nodes: &mut Slab<N>,
    slot: usize,
    byte: u8,
    payload: P,
) -> Result<Option<P>, P>
    requires { IsLeafAt (links_of N.node nodes.old.slots) slot }
    ensures set { IfOk result (λ before. SetsAt (links_of N.node nodes.old.slots)
        (links_of N.node nodes.new.slots) slot byte payload before) }
    ensures full { OnErr result (IsFullAt (links_of N.node nodes.old.slots) slot byte) }
    ensures same { OnErr result
        (links_of N.node nodes.new.slots ≡ links_of N.node nodes.old.slots) }
    ensures back { IfErr result (λ back. back ≡ payload) }
    ensures len { slab_len nodes.new ≡ slab_len nodes.old }
    ensures capacity { nodes.new.capacity ≡ nodes.old.capacity }
{
    let Some(node) = nodes.get_mut(slot) else {
        unreachable!()
    };
    // (for the proof: brings the order of the links into scope)
    let _ = node.base();
    node.set_payload(byte, payload)
}

/// Takes out the payload under a byte of the leaf in a slot, if there is one, and returns it.
#[inline(always)]
pub(crate) fn take_payload_at<P: Drop, N: LinkedNode<P>>(
    nodes: &mut Slab<N>,
    slot: usize,
    byte: u8,
) -> Option<P>
    requires { IsLeafAt (links_of N.node nodes.old.slots) slot }
    ensures takes { IfSome result (λ before. TakesLink (links_of N.node nodes.old.slots)
        (links_of N.node nodes.new.slots) slot byte (Payload before)) }
    ensures none { IfNone result (IsAbsentAt (links_of N.node nodes.old.slots) slot byte) }
    ensures same { IfNone result
        (links_of N.node nodes.new.slots ≡ links_of N.node nodes.old.slots) }
    ensures len { slab_len nodes.new ≡ slab_len nodes.old }
    ensures capacity { nodes.new.capacity ≡ nodes.old.capacity }
{
    let Some(node) = nodes.get_mut(slot) else {
        unreachable!()
    };
    // (for the proof: brings the order of the links into scope)
    let _ = node.base();
    node.take_payload(byte)
}
