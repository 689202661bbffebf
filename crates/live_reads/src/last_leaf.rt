//! The leaf that a caller has come to last. A key of the same leaf begins there, and goes on at the root where a writer has changed
//! the leaf since.
ghost use Rattle.std.specs.Prelude.{◌≡◌, IfSome};
ghost use Rattle.live_nodes.specs.Seats.{SeatView};
ghost use Rattle.live_nodes.specs.Views.{View};
ghost use Rattle.live_reads.specs.Paths.{IsOpen, Keeps};
ghost use Rattle.live_reads.specs.Positions.{KnowsPosition, KnowsLast};

use crate::descend::Position;
use crate::path::{Nodes, Opened, Seat};
use crate::prefix_match::enter;

/// Where a leaf is, and a key that it has or would have. The name is 0 for none.
#[derive(Clone, Copy, Debug, PartialEq, Eq)]
pub struct LastLeaf {
    pub key: u64,
    pub position: Position,
}

impl LastLeaf {
    /// No leaf.
    pub fn none() -> LastLeaf
        ensures { (v : SeatView View) → KnowsLast v result }
    {
        LastLeaf {
            key: 0,
            position: Position {
                above: 0,
                level: 0,
                name: 0,
                height: 0,
            },
        }
    }
}

/// Opens the leaf that a caller has come to last, if the key's path ends there, too. `None` where it doesn't, or a writer came in
/// between.
#[inline(always)]
pub fn open_last<'a>(
    nodes: &'a Nodes,
    last: LastLeaf,
    key: u64,
    seat: &mut Seat,
) -> Option<Opened<'a>>
    requires book { seat.old.book ≡ nodes.now }
    requires last { KnowsLast seat.old.view last }
    ensures book { seat.new.book ≡ seat.old.book }
    ensures id { seat.new.id ≡ seat.old.id }
    ensures keeps { Keeps seat.old.view seat.new.view }
    ensures seen { seat.new.view.client.seen ≡ seat.old.view.client.seen }
    ensures open { IfSome result (λ here. KnowsPosition seat.new.view key last.position
        × (last.position.height ≡ 1)
        × IsOpen seat.new.view seat.new.book here.words.now here.taken last.position.name key 1) }
{
    if last.position.name == 0 || last.key / 256 != key / 256 {
        return None;
    }
    enter(nodes, last.position.name, 1, key, seat)
}
