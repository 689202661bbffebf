//! The pairs of a range, from a subtree of the table into a buffer.
//!
//! In each node a scan begins at the first byte whose keys aren't all before the range, and ends at the first whose
//! keys are all past it. Of the children between them all but the first and the last are entirely in the range. So only
//! the nodes on two paths, one at each end of the range, are searched and compared with it. What lies between is written
//! by `scan_inside`, which looks at no key. At the buffer's end a scan reads nothing more, except counts that it has read
//! ahead. A node without children is skipped: the root may be one.
//!
//! An iterator remembers the place in each node, so that a node isn't searched again for each child. A node's form is
//! asked once: its children, and the payloads of a leaf, are gone through in a loop for each form. A pair in its parent is
//! written where it is met.
//!
//! Tested in `test_owned/scans`.

ghost use Rattle.std.specs.Prelude.{◌≡◌, ◌+◌, ◌^◌, ◌<◌, ◌≤◌, [], ◌∷◌, length};
ghost use Rattle.node_base.specs.Rest.{rest};
ghost use Rattle.tree_links.specs.Places.{as_linked};
ghost use Rattle.tree_links.specs.SeenTable.{name_of};
ghost use Rattle.tree_walk.specs.inner.Scan.{HasSubtree, EachSubtree, HasLinks, AddsAll, AddsEntries, entries_of, entries_under, links_at};

use crate::pair::{write_one, write_pair};
use crate::payloads::Payloads;
use crate::places::{next_4, next_16, next_48, next_256};
use crate::window::window_of;
use node_base::iter::NodeIter;
use spec_node::child::ChildIter;
use tree_links::bytes::pair_number;
use tree_links::link::LinkRef;
use tree_links::linked_node::LinkedNode;
use tree_links::links::Links;
use tree_links::place::{Linked, Place};

/// What a range scan writes for a pair.
pub trait RangeEntry: Copy {
    ghost use Rattle.std.specs.Prelude.{ℕ};

    /// What is written for a key's number and a value.
    ghost entry: { ℕ → ℕ → Self };

    /// The entry of a pair.
    fn from_pair(key: u64, value: u64) -> Self
        ensures { result ≡ entry key value };
}

/// The key as a number.
impl RangeEntry for (u64, u64) {
    ghost entry = { λ key value. (key, value) };

    fn from_pair(key: u64, value: u64) -> (u64, u64) {
        (key, value)
    }
}

/// The key as its eight bytes, most significant first.
impl RangeEntry for ([u8; 8], u64) {
    ghost use Rattle.std.specs.Int.{to_be_bytes, w64};

    ghost entry = { λ key value. (to_be_bytes w64 key, value) };

    fn from_pair(key: u64, value: u64) -> ([u8; 8], u64) {
        (key.to_be_bytes(), value)
    }
}

/// Of how many children at most a scan reads the counts before it reads the first of them.
pub(crate) const AHEAD: usize = 16;

/// How many of so many places are left after the entries of the node in a slot, by its count.
#[inline(always)]
pub(crate) fn room_after(nodes: &Links<u64>, slot: usize, room: usize) -> usize {
    match nodes.get(slot) {
        Some(node) => room.saturating_sub(LinkedNode::base(node).value_count() as usize),
        None => room,
    }
}

// Writes the entries of the remaining payloads of a leaf, from place `count` on, and returns the place after the last;
// it ends at the buffer's end. The keys are those from `first` on.
pub(crate) fn write_all<E: RangeEntry, I: Payloads>(
    mut payloads: I,
    first: u64,
    buffer: &mut [E],
    mut count: usize,
) -> usize
    requires keys { first + 256 ≤ 2 ^ 64 }
    requires room { count ≤ length buffer.old }
    ensures { AddsEntries (entries_under E.entry first (I.left payloads))
        buffer.old count buffer.new result }
{
    while count < buffer.len() {
        let Some((byte, value)) = payloads.take_first() else {
            return count;
        };
        buffer[count] = E::from_pair(first + byte as u64, value);
        count += 1;
    }
    count
}

// The same, for a leaf of any form.
fn write_payloads<E: RangeEntry>(
    payloads: NodeIter<'_, u64>,
    first: u64,
    buffer: &mut [E],
    count: usize,
) -> usize
    requires keys { first + 256 ≤ 2 ^ 64 }
    requires room { count ≤ length buffer.old }
    ensures { AddsEntries (entries_under E.entry first (rest payloads.entry))
        buffer.old count buffer.new result }
{
    match payloads {
        NodeIter::N4(payloads) => write_all(payloads, first, buffer, count),
        NodeIter::N16(payloads) => write_all(payloads, first, buffer, count),
        NodeIter::N48(payloads) => write_all(payloads, first, buffer, count),
        NodeIter::N256(payloads) => write_all(payloads, first, buffer, count),
    }
}

// Reads the counts of the nodes below the next children of a node with cells, from a byte on, and returns of how many: as
// many as it takes to fill so many places by these counts, and `AHEAD` at most.
//
// No read waits for another. So these nodes come from memory at the same time, where the scan by itself would wait for
// each in turn. A pair is in this node. Other forms have too few children for that.
fn read_ahead(nodes: &Links<u64>, node: &Linked<u64>, from: u8, mut room: usize) -> usize {
    let ChildIter::Nodes(NodeIter::N256(mut places)) = LinkedNode::links_between(
        node,
        from as usize,
        256,
    ) else {
        return AHEAD;
    };
    let mut seen = 0;
    for _ in 0..AHEAD {
        let Some((_, place)) = next_256(&mut places) else {
            return AHEAD;
        };
        room = match place {
            Place::Slot(below) => room_after(nodes, *below, room),
            Place::Pair(_, _) => room.saturating_sub(1),
        };
        seen += 1;
        if room == 0 {
            break;
        }
    }
    seen
}

// Writes the entries of all pairs below one place of the node in a slot, and returns the buffer's place after the last. It
// ends at the buffer's end.
#[cycle(inside)]
#[inline(always)]
fn scan_place<E: RangeEntry>(
    nodes: &Links<u64>,
    _slot: usize,
    node: &Linked<u64>,
    byte: u8,
    place: &Place<u64>,
    buffer: &mut [E],
    count: usize,
) -> usize
    requires place { HasLinks nodes.now.table _slot (as_linked node.now)
        (links_at ((byte, place.now) ∷ [])) }
    requires room { count < length buffer.old }
    ensures { AddsAll nodes.now.table E.entry _slot (as_linked node.now)
        (links_at ((byte, place.now) ∷ [])) buffer.old count buffer.new result }
{
    match place {
        Place::Slot(below) => scan_inside(nodes, *below, buffer, count),
        Place::Pair(rest, value) => {
            let number = pair_number(LinkedNode::base(node), byte, rest);
            write_one(number, *value, buffer, count)
        }
    }
}

// Writes the entries of all pairs below the remaining places of the node in a slot, from place `count` of the buffer on,
// and returns the place after the last. It ends at the buffer's end.
#[cycle(inside)]
fn scan_places<E: RangeEntry>(
    nodes: &Links<u64>,
    _slot: usize,
    node: &Linked<u64>,
    places: NodeIter<'_, Place<u64>>,
    buffer: &mut [E],
    mut count: usize,
) -> usize
    requires places { HasLinks nodes.now.table _slot (as_linked node.now)
        (links_at (rest places)) }
    requires room { count ≤ length buffer.old }
    ensures { AddsAll nodes.now.table E.entry _slot (as_linked node.now)
        (links_at (rest places.entry)) buffer.old count buffer.new result }
{
    match places {
        NodeIter::N4(mut places) => {
            'few: while count < buffer.len() {
                let Some((byte, place)) = next_4(&mut places) else {
                    return count;
                };
                count = scan_place(nodes, _slot, node, byte, place, buffer, count);
            }
            count
        }
        NodeIter::N16(mut places) => {
            'row: while count < buffer.len() {
                let Some((byte, place)) = next_16(&mut places) else {
                    return count;
                };
                count = scan_place(nodes, _slot, node, byte, place, buffer, count);
            }
            count
        }
        NodeIter::N48(mut places) => {
            'index: while count < buffer.len() {
                let Some((byte, place)) = next_48(&mut places) else {
                    return count;
                };
                count = scan_place(nodes, _slot, node, byte, place, buffer, count);
            }
            count
        }
        NodeIter::N256(mut places) => {
            let mut ahead = 0;
            'cells: while count < buffer.len() {
                let Some((byte, place)) = next_256(&mut places) else {
                    return count;
                };
                if ahead == 0 {
                    ahead = read_ahead(nodes, node, byte, buffer.len() - count);
                }
                ahead = ahead.saturating_sub(1);
                count = scan_place(nodes, _slot, node, byte, place, buffer, count);
            }
            count
        }
    }
}

// Writes the entries of all pairs of the subtree to the buffer, from place `count` on, and returns the place after the
// last one. It ends at the buffer's end.
#[cycle(inside)]
fn scan_inside<E: RangeEntry>(
    nodes: &Links<u64>,
    slot: usize,
    buffer: &mut [E],
    count: usize,
) -> usize
    requires tree { HasSubtree nodes.now.table (name_of slot) }
    requires room { count ≤ length buffer.old }
    ensures { EachSubtree nodes.now.table (name_of slot) (λ pairs.
        AddsEntries (entries_of E.entry 0 (2 ^ 64) pairs) buffer.old count buffer.new result) }
{
    let Some(node) = nodes.get(slot) else {
        unreachable!()
    };
    let base = LinkedNode::base(node);
    match LinkedNode::links_between(node, 0, 256) {
        ChildIter::Payloads(payloads) => {
            write_payloads(payloads, base.first_key(), buffer, count)
        }
        ChildIter::Nodes(places) => scan_places(nodes, slot, node, places, buffer, count),
    }
}

/// Writes the entries of the subtree's pairs from `start` on and up to `last` to the buffer, from place `count` on, and
/// returns the place after the last one. It ends at the buffer's end.
pub fn scan<E: RangeEntry>(
    nodes: &Links<u64>,
    slot: usize,
    start: u64,
    last: u64,
    buffer: &mut [E],
    mut count: usize,
) -> usize
    requires tree { HasSubtree nodes.now.table (name_of slot) }
    requires room { count ≤ length buffer.old }
    ensures { EachSubtree nodes.now.table (name_of slot) (λ pairs.
        AddsEntries (entries_of E.entry start (last + 1) pairs) buffer.old count buffer.new result) }
{
    let Some(node) = nodes.get(slot) else {
        unreachable!()
    };
    let base = LinkedNode::base(node);
    let window = window_of(base, start, last);
    if LinkedNode::is_leaf(node) {
        let ChildIter::Payloads(payloads) = LinkedNode::links_between(node, window.from, window.to)
        else {
            unreachable!()
        };
        return write_payloads(payloads, window.first, buffer, count);
    }
    let mut from = window.from;
    'parts: while from < window.to {
        if count >= buffer.len() {
            return count;
        }
        if from > window.from && from + 1 < window.to {
            // (all between the two ends)
            let ChildIter::Nodes(places) = LinkedNode::links_between(node, from, window.to - 1)
            else {
                unreachable!()
            };
            count = scan_places(nodes, slot, node, places, buffer, count);
            from = window.to - 1;
        } else {
            count = match LinkedNode::get_link(node, from as u8) {
                Some(LinkRef::Slot(below)) => scan(nodes, below, start, last, buffer, count),
                Some(LinkRef::Pair(rest, value)) => {
                    let number = pair_number(base, from as u8, rest);
                    write_pair(number, *value, start, last, buffer, count)
                }
                Some(LinkRef::Payload(_)) => unreachable!(),
                None => count,
            };
            from += 1;
        }
    }
    count
}
