//! The place of a reader in the tree.
ghost use Rattle.std.specs.Prelude.{◌≡◌, ◌≤◌, IfSome};
ghost use Rattle.live_reads.specs.Paths.{IsOpen, Keeps};
ghost use Rattle.live_scans.specs.inner.Stops.{HasWords, IsPathNode};

use live_layout::words::ReadWords;
use live_nodes::node;
use live_nodes::rows::SharedWords;
use live_reads::path::{Cell, Nodes, Opened, Seat, open};
use live_reads::prefix_match::{PrefixMatch, compare};

/// A node that a reader has come to, its height, and a key that begins like it.
#[derive(Clone, Copy, Debug, PartialEq, Eq)]
pub struct Position {
    pub name: u64,
    pub height: usize,
    pub key: u64,
}

/// A node's words, and the head that it had when a reader came to it. While it has that head, it is what it was.
#[derive(Clone, Copy)]
pub struct NodeWords<'a> {
    pub words: &'a [Cell],
    pub head: u64,
}

/// An inner node on a reader's path, and its words, if the reader went on from there.
#[derive(Clone, Copy)]
pub struct PathNode<'a> {
    pub at: Position,
    pub known: Option<NodeWords<'a>>,
}

/// The last inner node on a reader's path, and the one that the path came from, which is above it or is the same.
#[derive(Clone, Copy)]
pub struct Trail<'a> {
    pub low: PathNode<'a>,
    pub high: PathNode<'a>,
}

/// The words of a node on a reader's path, and its head. `None` where a writer came in between.
#[inline(always)]
pub fn know<'a>(nodes: &'a Nodes, path_node: PathNode<'a>, seat: &mut Seat) -> Option<NodeWords<'a>>
    requires book { seat.old.book ≡ nodes.now }
    requires path_node { IsPathNode seat.old.view seat.old.book path_node }
    ensures book { seat.new.book ≡ seat.old.book }
    ensures id { seat.new.id ≡ seat.old.id }
    ensures keeps { Keeps seat.old.view seat.new.view }
    ensures seen { seat.new.view.client.seen ≡ seat.old.view.client.seen }
    ensures known { IfSome result (λ k. HasWords seat.new.view seat.new.book path_node.entry.at k.words.now k.head) }
{
    if let Some(known) = path_node.known {
        return Some(known);
    }
    let here = open(nodes, path_node.at.name, seat)?;
    let words = here.words;
    let row = SharedWords { words };
    let head = row.word(0, seat);
    match compare(head, path_node.at.key) {
        PrefixMatch::Covers(height) if height == path_node.at.height => Some(NodeWords {
            words,
            head,
        }),
        PrefixMatch::Covers(_) => None,
        PrefixMatch::Leaves(_, _) => None,
    }
}

/// Opens a node whose words are known, if it has the same head. `None` where a writer is busy there, or changed it.
#[inline(always)]
pub fn open_known<'a>(at: Position, known: NodeWords<'a>, seat: &mut Seat) -> Option<Opened<'a>>
    requires known { HasWords seat.old.view seat.old.book at known.words.now known.head }
    ensures book { seat.new.book ≡ seat.old.book }
    ensures id { seat.new.id ≡ seat.old.id }
    ensures keeps { Keeps seat.old.view seat.new.view }
    ensures seen { seat.new.view.client.seen ≡ seat.old.view.client.seen }
    ensures opened { IfSome result (λ here.
        IsOpen seat.new.view seat.new.book here.words.now here.taken at.name at.key at.height) }
{
    let _ = at;
    let NodeWords { words, head } = known;
    let taken = node::take(&words[0], seat);
    if taken % 4 != 0 {
        return None;
    }
    let row = SharedWords { words };
    if row.word(0, seat) != head {
        return None;
    }
    Some(Opened { words, taken })
}
