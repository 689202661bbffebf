//! The stored pair nearest to a key: one path down, and beside it at most one dead end, the path of the key itself.
//!
//! A node is asked for the key's own byte first, as `get` asks it, and searched for the byte next to it only where the pair
//! isn't below that one.
//!
//! Tested in `test_owned/neighbours`.

ghost use Rattle.std.specs.Prelude.{◌≡◌, ◌+◌, ◌≤◌, [], ◌∷◌, IfSome, IfNone};
ghost use Rattle.std.specs.Option.{option_map};
ghost use Rattle.spec_map.specs.Map.{between};
ghost use Rattle.spec_map.specs.Near.{below_of, floor_of, ceiling_of};
ghost use Rattle.tree_links.specs.LinkNode.{looked_at};
ghost use Rattle.tree_links.specs.Places.{as_linked};
ghost use Rattle.tree_links.specs.SeenTable.{name_of};
ghost use Rattle.tree_walk.specs.inner.Scan.{HasSubtree, EachSubtree};

use crate::pair::{pair_if_from, pair_if_to};
use crate::window::window_of;
use tree_links::bytes::pair_number;
use tree_links::link::LinkRef;
use tree_links::linked_node::LinkedNode;
use tree_links::links::Links;
use tree_links::place::Linked;

// The first link whose byte isn't below `from`, and that byte.
#[inline(always)]
fn first_from<'a, P: Drop>(node: &'a Linked<P>, from: usize) -> Option<(u8, LinkRef<'a, P>)>
    ensures none { IfNone result (between (as_linked node.now).links from 256 ≡ []) }
    ensures some { IfSome result (λ found. between (as_linked node.now).links from 256
        ≡ (found.0, looked_at found.1) ∷ between (as_linked node.now).links (found.0 + 1) 256) }
    ensures order { IfSome result (λ found. from ≤ found.0) }
{
    // For the proof: brings the order of the bytes into scope.
    let _ = LinkedNode::base(node);
    if from < 256 {
        let byte = from as u8;
        if let Some(link) = LinkedNode::get_link(node, byte) {
            return Some((byte, link));
        }
    }
    LinkedNode::first_from(node, from)
}

// The last link whose byte is below `to`, and that byte.
#[inline(always)]
fn last_below<'a, P: Drop>(node: &'a Linked<P>, to: usize) -> Option<(u8, LinkRef<'a, P>)>
    requires { to ≤ 256 }
    ensures { option_map (λ found. (found.0, looked_at found.1)) result
        ≡ below_of (as_linked node.now).links to }
{
    // For the proof: brings the order of the bytes into scope.
    let _ = LinkedNode::base(node);
    if to > 0 {
        let byte = (to - 1) as u8;
        if let Some(link) = LinkedNode::get_link(node, byte) {
            return Some((byte, link));
        }
    }
    LinkedNode::last_below(node, to)
}

/// The pair of the subtree's least key that isn't below `start`.
pub fn pair_from<'a, P: Drop>(nodes: &'a Links<P>, slot: usize, start: u64) -> Option<(u64, &'a P)>
    requires { HasSubtree nodes.now.table (name_of slot) }
    ensures { EachSubtree nodes.now.table (name_of slot) (λ pairs.
        option_map (λ found. (found.0, found.1.now)) result ≡ ceiling_of pairs start) }
{
    let Some(node) = nodes.get(slot) else {
        unreachable!()
    };
    let base = LinkedNode::base(node);
    let window = window_of(base, start, u64::MAX);
    let mut from = window.from;
    'children: while let Some((byte, child)) = first_from(node, from) {
        let found = match child {
            LinkRef::Payload(payload) => Some((window.first + byte as u64, payload)),
            LinkRef::Slot(below) => pair_from(nodes, below, start),
            LinkRef::Pair(rest, payload) => {
                pair_if_from(pair_number(base, byte, rest), payload, start)
            }
        };
        if found.is_some() {
            return found;
        }
        from = byte as usize + 1;
    }
    None
}

/// The pair of the subtree's greatest key that isn't above `last`.
pub fn pair_to<'a, P: Drop>(nodes: &'a Links<P>, slot: usize, last: u64) -> Option<(u64, &'a P)>
    requires { HasSubtree nodes.now.table (name_of slot) }
    ensures { EachSubtree nodes.now.table (name_of slot) (λ pairs.
        option_map (λ found. (found.0, found.1.now)) result ≡ floor_of pairs last) }
{
    let Some(node) = nodes.get(slot) else {
        unreachable!()
    };
    let base = LinkedNode::base(node);
    let window = window_of(base, 0, last);
    let mut to = window.to;
    'children: while let Some((byte, child)) = last_below(node, to) {
        let found = match child {
            LinkRef::Payload(payload) => Some((window.first + byte as u64, payload)),
            LinkRef::Slot(below) => pair_to(nodes, below, last),
            LinkRef::Pair(rest, payload) => {
                pair_if_to(pair_number(base, byte, rest), payload, last)
            }
        };
        if found.is_some() {
            return found;
        }
        to = byte as usize;
    }
    None
}
