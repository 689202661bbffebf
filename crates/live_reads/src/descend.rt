//! The path down to where a key is, or would be.
ghost use Rattle.std.specs.Prelude.{◌≡◌, IfSome};
ghost use Rattle.live_reads.specs.Paths.{KnowsRootWord, IsOpen, Keeps};
ghost use Rattle.live_reads.specs.Positions.{IsEnd, KnowsLast, KnowsPosition};

use crate::last_leaf::{LastLeaf, open_last};
use crate::path::{Nodes, Opened, Seat, open, root};
use crate::prefix_match::{Mismatch, Next, step};
use std::marker::Brand;

/// A node that a key has come to, with its height, and the node above it with its height. The root is its own.
#[derive(Clone, Copy, Debug, PartialEq, Eq)]
pub struct Position {
    pub above: u64,
    pub level: usize,
    pub name: u64,
    pub height: usize,
}

/// Where a key's path ends as yet: at a node, which is open if it is a leaf. There may be a node below whose path the key
/// leaves.
#[derive(Clone, Copy)]
pub struct End<'a> {
    pub position: Position,
    pub here: Opened<'a>,
    pub mismatch: Option<Mismatch>,
}

/// Where a key's path begins at the root. `None` where a writer came in between.
#[inline(always)]
fn begin_at_root<'a>(nodes: &'a Nodes, key: u64, seat: &mut Seat) -> Option<End<'a>>
    requires book { seat.old.book ≡ nodes.now }
    requires root_word { KnowsRootWord seat.old.view }
    ensures book { seat.new.book ≡ seat.old.book }
    ensures id { seat.new.id ≡ seat.old.id }
    ensures keeps { Keeps seat.old.view seat.new.view }
    ensures seen { seat.new.view.client.seen ≡ seat.old.view.client.seen }
    ensures begins { IfSome result (λ end. let here = end.here
        in KnowsPosition seat.new.view key end.position
        × IsOpen seat.new.view seat.new.book here.words.now here.taken end.position.name key end.position.height) }
{
    let name = root(nodes, key, seat)?;
    let here = open(nodes, name, seat)?;
    let position = Position {
        above: name,
        level: 8,
        name,
        height: 8,
    };
    Some(End {
        position,
        here,
        mismatch: None,
    })
}

/// Where a key's path begins: at the leaf that the caller has come to last, if that is the key's, too, or at the root. `None` where
/// a writer came in between.
#[inline(always)]
pub(crate) fn begin<'a>(
    nodes: &'a Nodes,
    last: LastLeaf,
    key: u64,
    seat: &mut Seat,
) -> Option<End<'a>>
    requires book { seat.old.book ≡ nodes.now }
    requires root_word { KnowsRootWord seat.old.view }
    requires last { KnowsLast seat.old.view last }
    ensures book { seat.new.book ≡ seat.old.book }
    ensures id { seat.new.id ≡ seat.old.id }
    ensures keeps { Keeps seat.old.view seat.new.view }
    ensures seen { seat.new.view.client.seen ≡ seat.old.view.client.seen }
    ensures begins { IfSome result (λ end. let here = end.here
        in KnowsPosition seat.new.view key end.position
        × IsOpen seat.new.view seat.new.book here.words.now here.taken end.position.name key end.position.height) }
{
    if let Some(here) = open_last(nodes, last, key, seat) {
        let position = last.position;
        return Some(End {
            position,
            here,
            mismatch: None,
        });
    }
    begin_at_root(nodes, key, seat)
}

/// Where a key's path ends as yet, which begins at the leaf that the caller has come to last, or at the root. `None` where a writer
/// came in between.
#[inline(always)]
pub fn descend_from<'a>(
    nodes: &'a Nodes,
    last: LastLeaf,
    key: u64,
    seat: &mut Seat,
) -> Option<End<'a>>
    requires book { seat.old.book ≡ nodes.now }
    requires root_word { KnowsRootWord seat.old.view }
    requires last { KnowsLast seat.old.view last }
    ensures book { seat.new.book ≡ seat.old.book }
    ensures id { seat.new.id ≡ seat.old.id }
    ensures keeps { Keeps seat.old.view seat.new.view }
    ensures seen { seat.new.view.client.seen ≡ seat.old.view.client.seen }
    ensures end { IfSome result (λ end. IsEnd seat.new.view key end) }
    ensures leaf { IfSome result (λ end. let here = end.here in end.position.height ≡ 1
        → IsOpen seat.new.view seat.new.book here.words.now here.taken end.position.name key 1) }
{
    let End {
        mut position,
        mut here,
        ..
    } = begin(nodes, last, key, seat)?;
    while position.height > 1 {
        let step = step::<Brand>(nodes, here, position.name, position.height, key, seat)?;
        match step.next {
            Next::Ends => return Some(End {
                position,
                here,
                mismatch: None,
            }),
            Next::Goes(name, height) => {
                position = Position {
                    above: position.name,
                    level: position.height,
                    name,
                    height,
                };
                here = step.here;
            }
            Next::Mismatches(mismatch) => {
                return Some(End {
                    position,
                    here,
                    mismatch: Some(mismatch),
                });
            }
        }
    }
    Some(End {
        position,
        here,
        mismatch: None,
    })
}

/// Where a key's path from the root ends as yet. `None` where a writer came in between.
#[inline(always)]
pub fn descend<'a>(nodes: &'a Nodes, key: u64, seat: &mut Seat) -> Option<End<'a>>
    requires book { seat.old.book ≡ nodes.now }
    requires root_word { KnowsRootWord seat.old.view }
    ensures book { seat.new.book ≡ seat.old.book }
    ensures id { seat.new.id ≡ seat.old.id }
    ensures keeps { Keeps seat.old.view seat.new.view }
    ensures seen { seat.new.view.client.seen ≡ seat.old.view.client.seen }
    ensures end { IfSome result (λ end. IsEnd seat.new.view key end) }
    ensures leaf { IfSome result (λ end. let here = end.here in end.position.height ≡ 1
        → IsOpen seat.new.view seat.new.book here.words.now here.taken end.position.name key 1) }
{
    descend_from(nodes, LastLeaf::none(), key, seat)
}
