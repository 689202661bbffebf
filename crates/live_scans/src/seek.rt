//! Where the path of a reader begins.
ghost use Rattle.std.specs.Prelude.{◌≡◌, ◌≤◌, IfSome};
ghost use Rattle.live_nodes.specs.Levels.{up};
ghost use Rattle.live_reads.specs.Paths.{KnowsRootWord, Keeps};
ghost use Rattle.live_scans.specs.inner.Stops.{IsTrail, Starts};

use crate::keys::upper;
use crate::position::{PathNode, Position, Trail};
use live_growth::map::TRIES;
use live_reads::path::{Nodes, Seat, root, root_begun};

// This node with another key, if the key begins like it.
#[inline(always)]
fn with_key<'a>(path_node: PathNode<'a>, key: u64) -> Option<PathNode<'a>>
    requires height { path_node.at.height ≤ 8 }
    ensures with { IfSome result (λ s. (s.at.key ≡ key) × (s.at.name ≡ path_node.entry.at.name)
        × (s.at.height ≡ path_node.entry.at.height) × (s.known ≡ path_node.entry.known)
        × (up path_node.entry.at.height key ≡ up path_node.entry.at.height path_node.entry.at.key)) }
{
    let PathNode { at, known } = path_node;
    if upper(at.key, at.height) != upper(key, at.height) {
        return None;
    }
    let at = Position {
        name: at.name,
        height: at.height,
        key,
    };
    Some(PathNode { at, known })
}

/// The trail of a key: from the lower node of this one on, if the key begins like it, or from the upper one on, or from the root on.
/// `None` where a writer came in between.
#[inline(always)]
pub fn begin<'a>(
    nodes: &'a Nodes,
    trail: Option<Trail<'a>>,
    key: u64,
    seat: &mut Seat,
) -> Option<Trail<'a>>
    requires book { seat.old.book ≡ nodes.now }
    requires root_word { KnowsRootWord seat.old.view }
    requires trail { IfSome trail (IsTrail seat.old.view seat.old.book) }
    ensures book { seat.new.book ≡ seat.old.book }
    ensures id { seat.new.id ≡ seat.old.id }
    ensures keeps { Keeps seat.old.view seat.new.view }
    ensures seen { seat.new.view.client.seen ≡ seat.old.view.client.seen }
    ensures trail { IfSome result (λ t. (t.low.at.key ≡ key) × IsTrail seat.new.view seat.new.book t) }
{
    if let Some(from) = trail {
        let high = from.high;
        if let Some(low) = with_key(from.low, key) {
            return Some(Trail { low, high });
        }
        if let Some(low) = with_key(high, key) {
            return Some(Trail { low, high });
        }
    }
    let name = root(nodes, key, seat)?;
    let at = Position {
        name,
        height: 8,
        key,
    };
    let low = PathNode { at, known: None };
    Some(Trail { low, high: low })
}

/// A reader begins at the root, with this key. Its entry is then the last of the history that it has seen. `None` where too many
/// writers came in between: then it has seen no more.
pub fn start(nodes: &Nodes, key: u64, seat: &mut Seat) -> Option<Position>
    requires book { seat.old.book ≡ nodes.now }
    requires root_word { KnowsRootWord seat.old.view }
    ensures book { seat.new.book ≡ seat.old.book }
    ensures id { seat.new.id ≡ seat.old.id }
    ensures keeps { Keeps seat.old.view seat.new.view }
    ensures starts { Starts seat.old.id seat.old.view seat.new.view key result }
{
    for _ in 0..TRIES {
        if let Some(name) = root_begun(nodes, key, seat) {
            return Some(Position {
                name,
                height: 8,
                key,
            });
        }
    }
    None
}
