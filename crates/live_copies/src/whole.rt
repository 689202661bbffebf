//! The moment of a copy.
ghost use Rattle.std.specs.Prelude.{◌≡◌, IsTrue, IsFalse};
ghost use Rattle.live_reads.specs.Paths.{KnowsRootWord, Keeps};
ghost use Rattle.live_copies.specs.inner.Whole.{HasWhole};

use crate::on_check::Whole;
use live_nodes::map_law::{Asks, MapLaw, MapView};
use live_nodes::node;
use live_reads::path::{Nodes, Seat};

/// Whether the whole history was seen at this moment, at which the map has what the locked nodes have. `false` where the root
/// word is locked, and then nothing is learnt.
pub(crate) fn whole<A: Asks>(nodes: &Nodes, seat: &mut Seat) -> bool
    requires book { seat.old.book ≡ nodes.now }
    requires asks { A.ask.caller ≡ seat.old.id }
    requires root_word { KnowsRootWord seat.old.view }
    ensures book { seat.new.book ≡ seat.old.book }
    ensures id { seat.new.id ≡ seat.old.id }
    ensures keeps { Keeps seat.old.view seat.new.view }
    ensures whole { IsTrue result
        → HasWhole seat.old.id seat.old.view.client seat.new.view.client }
    ensures busy { IsFalse result → seat.new.view.client ≡ seat.old.view.client }
{
    let Some(root_word) = nodes.word(1) else {
        return false;
    };
    let taken = node::take(root_word, seat);
    if taken % 4 != 0 {
        return false;
    }
    node::check::<MapView, MapLaw, Whole<A>>(root_word, taken, seat)
}
