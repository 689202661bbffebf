//! A look-up.
ghost use Rattle.std.specs.Prelude.{◌≡◌, true};
ghost use Rattle.live_reads.specs.Paths.{KnowsRootWord, Keeps, Found};
ghost use Rattle.live_reads.specs.Positions.{KnowsLast};

use crate::descend::Position;
use crate::last_leaf::LastLeaf;
use crate::mismatch::ends_above;
use crate::path::{Nodes, Seat, look, open, root};
use crate::prefix_match::{Next, step};
use live_nodes::map_law::Asks;

/// The value of a key. Its leaf is the last one then, as one below the root: the node above isn't kept. `None` where a writer came in
/// between.
pub fn get_once<A: Asks>(
    nodes: &Nodes,
    key: u64,
    last: &mut LastLeaf,
    seat: &mut Seat,
) -> Option<Option<u64>>
    requires book { seat.old.book ≡ nodes.now }
    requires asks { (A.ask.key ≡ key) × (A.ask.caller ≡ seat.old.id) × (A.reads ≡ true) }
    requires root_word { KnowsRootWord seat.old.view }
    requires last { KnowsLast seat.old.view last.old }
    ensures book { seat.new.book ≡ seat.old.book }
    ensures id { seat.new.id ≡ seat.old.id }
    ensures keeps { Keeps seat.old.view seat.new.view }
    ensures found { Found A.ask result seat.old.view seat.new.view }
    ensures last { KnowsLast seat.new.view last.new }
{
    let top = root(nodes, key, seat)?;
    let mut name = top;
    let mut height = 8usize;
    let mut here = open(nodes, name, seat)?;
    while height > 1 {
        let step = step::<A>(nodes, here, name, height, key, seat)?;
        match step.next {
            Next::Ends => return Some(None),
            Next::Goes(below, lower) => {
                name = below;
                height = lower;
                here = step.here;
            }
            Next::Mismatches(mismatch) => {
                if ends_above::<A>(nodes, name, height, mismatch.below, key, seat) {
                    return Some(None);
                }
                return None;
            }
        }
    }
    let position = Position {
        above: top,
        level: 8,
        name,
        height: 1,
    };
    *last = LastLeaf { key, position };
    look::<A>(here, name, 1, key, seat)
}
