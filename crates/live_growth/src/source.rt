//! The words of a node whose children another one gets, while the seat has both locked.
ghost use Rattle.live_nodes.specs.Rows.{draft_of, nth, MayHold, without_draft};
ghost use Rattle.live_growth.specs.Holds.{IsBeside};

use live_layout::words::WriteWords;
use live_nodes::map_law::{MapLaw, MapView};
use live_nodes::rows::LockedWords;
use live_reads::path::{Cell, Seat};

/// The words of the node that the seat locked before the last one. They stay where that one's are written.
#[derive(Drop)]
pub struct Source<'a> {
    pub words: &'a [Cell],
}

impl<'a> WriteWords<Seat> for Source<'a> {
    ghost may_write = { λ r s. MayHold 1 r.words.now s.book s.view × IsBeside s.view.holds };

    ghost words = { λ r s. draft_of (nth 1 s.view.holds) };

    ghost rest = { λ r s. record s { view = without_draft 1 s.view } };

    fn get(&self, i: usize, seat: &mut Seat) -> u64 {
        let held: LockedWords<'_, MapView, MapLaw, 1> = LockedWords { words: self.words };
        held.get(i, seat)
    }

    fn set(&self, i: usize, word: u64, seat: &mut Seat) {
        let held: LockedWords<'_, MapView, MapLaw, 1> = LockedWords { words: self.words };
        held.set(i, word, seat)
    }
}
