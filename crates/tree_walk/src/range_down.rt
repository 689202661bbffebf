//! The pairs of a range, from a subtree of the table into a buffer, keys descending: the ascending scan mirrored.
//!
//! In each node a scan begins at the last byte whose keys aren't all past the range, and goes down from child to child,
//! so no path is walked again for the next pair. It reads the nodes that the ascending scan of the same pairs reads. An
//! iterator remembers the place in a leaf, and gives its payloads from the last on.
//!
//! Tested in `test_owned/neighbours`.

ghost use Rattle.std.specs.Prelude.{◌≡◌, ◌+◌, ◌^◌, ◌<◌, ◌≤◌, [], length, reverse, IfSome, IfNone, Some};
ghost use Rattle.node_base.specs.Rest.{rest};
ghost use Rattle.spec_map.specs.Map.{between};
ghost use Rattle.spec_map.specs.Near.{below_of};
ghost use Rattle.tree_links.specs.Places.{as_linked};
ghost use Rattle.tree_links.specs.LinkNode.{looked_at};
ghost use Rattle.tree_links.specs.SeenTable.{name_of};
ghost use Rattle.tree_walk.specs.inner.Scan.{HasSubtree, EachSubtree, AddsEntries, entries_down, entries_under};

use crate::pair::write_pair;
use crate::payloads::Backward;
use crate::range_scan::{AHEAD, RangeEntry, room_after, write_all};
use crate::window::window_of;
use node_base::base_node::NodeType;
use node_base::iter::NodeIter;
use spec_node::child::ChildIter;
use tree_links::bytes::pair_number;
use tree_links::link::LinkRef;
use tree_links::linked_node::LinkedNode;
use tree_links::links::Links;
use tree_links::place::Linked;

// The last link with `from <= byte < to`, and its byte.
#[inline(always)]
fn last_between<'a>(
    node: &'a Linked<u64>,
    from: usize,
    to: usize,
) -> Option<(usize, LinkRef<'a, u64>)>
    requires { to ≤ 256 }
    ensures none { IfNone result (between (as_linked node.now).links from to ≡ []) }
    ensures some { IfSome result (λ found.
        below_of (as_linked node.now).links to ≡ Some (found.0, looked_at found.1)) }
    ensures from { IfSome result (λ found. from ≤ found.0) }
    ensures before { IfSome result (λ found. found.0 < to) }
{
    // For the proof: brings the order of the bytes into scope.
    let _ = LinkedNode::base(node);
    let Some((byte, child)) = LinkedNode::last_below(node, to) else {
        return None;
    };
    let at = byte as usize;
    if at < from {
        return None;
    }
    Some((at, child))
}

// Reads the counts of the nodes below the last children of a node with cells, below a byte, and returns of how many
// (`range_scan` has the reason): as many as it takes to fill so many places by these counts, and `AHEAD` at most.
fn read_ahead(nodes: &Links<u64>, node: &Linked<u64>, to: usize, mut room: usize) -> usize
    requires { to ≤ 256 }
{
    if LinkedNode::base(node).get_type() != NodeType::N256 {
        return AHEAD;
    }
    let mut to = to;
    let mut seen = 0;
    for _ in 0..AHEAD {
        let Some((byte, child)) = last_between(node, 0, to) else {
            return AHEAD;
        };
        to = byte;
        room = match child {
            LinkRef::Slot(below) => room_after(nodes, below, room),
            _ => room.saturating_sub(1),
        };
        seen += 1;
        if room == 0 {
            break;
        }
    }
    seen
}

// Writes the entries of the remaining payloads of a leaf, keys descending, from place `count` on, and returns the place
// after the last; it ends at the buffer's end. The keys are those from `first` on.
fn write_payloads<E: RangeEntry>(
    payloads: NodeIter<'_, u64>,
    first: u64,
    buffer: &mut [E],
    count: usize,
) -> usize
    requires keys { first + 256 ≤ 2 ^ 64 }
    requires room { count ≤ length buffer.old }
    ensures { AddsEntries (entries_under E.entry first (reverse (rest payloads.entry)))
        buffer.old count buffer.new result }
{
    match payloads {
        NodeIter::N4(payloads) => write_all(Backward { payloads }, first, buffer, count),
        NodeIter::N16(payloads) => write_all(Backward { payloads }, first, buffer, count),
        NodeIter::N48(payloads) => write_all(Backward { payloads }, first, buffer, count),
        NodeIter::N256(payloads) => write_all(Backward { payloads }, first, buffer, count),
    }
}

/// Writes the entries of the subtree's pairs from `start` on and up to `last` to the buffer, keys descending, from place
/// `count` on, and returns the place after the last one. It ends at the buffer's end.
pub fn scan_down<E: RangeEntry>(
    nodes: &Links<u64>,
    slot: usize,
    start: u64,
    last: u64,
    buffer: &mut [E],
    mut count: usize,
) -> usize
    requires tree { HasSubtree nodes.now.table (name_of slot) }
    requires room { count ≤ length buffer.old }
    ensures { EachSubtree nodes.now.table (name_of slot) (λ pairs.
        AddsEntries (entries_down E.entry start (last + 1) pairs) buffer.old count buffer.new result) }
{
    let Some(node) = nodes.get(slot) else {
        unreachable!()
    };
    let base = LinkedNode::base(node);
    let window = window_of(base, start, last);
    if LinkedNode::is_leaf(node) {
        let ChildIter::Payloads(payloads) = LinkedNode::links_between(node, window.from, window.to)
        else {
            unreachable!()
        };
        return write_payloads(payloads, window.first, buffer, count);
    }
    let mut to = window.to;
    let mut ahead = 0;
    'children: while let Some((byte, child)) = last_between(node, window.from, to) {
        if count >= buffer.len() {
            return count;
        }
        if ahead == 0 {
            ahead = read_ahead(nodes, node, to, buffer.len() - count);
        }
        ahead = ahead.saturating_sub(1);
        count = match child {
            LinkRef::Slot(below) => scan_down(nodes, below, start, last, buffer, count),
            LinkRef::Pair(rest, value) => {
                let number = pair_number(base, byte as u8, rest);
                write_pair(number, *value, start, last, buffer, count)
            }
            LinkRef::Payload(_) => unreachable!(),
        };
        to = byte;
    }
    count
}
