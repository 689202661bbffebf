//! A leaf is locked, and its pairs are copied.
ghost use Rattle.std.specs.Prelude.{◌≡◌, IfOk};
ghost use Rattle.live_reads.specs.Paths.{Names};
ghost use Rattle.live_copies.specs.inner.Locks.{HasLocks, Grows, HasTaken, Takes};

use crate::locks::{Work, lock_noted};
use live_growth::map::Refusal;
use live_layout::form::{form_below, words_in};
use live_layout::page::{Part, fill};
use live_layout::words::AsReadWords;
use live_nodes::map_law::{MapLaw, MapView};
use live_nodes::rows::LockedWords;
use live_reads::path::{Cell, Nodes, Seat};

// Copies the pairs of the leaf that was locked last.
fn copy_leaf(
    words: &[Cell],
    name: u64,
    key: u64,
    pairs: &mut Vec<(u64, u64)>,
    seat: &mut Seat,
) -> Result<(), Refusal>
    requires taken { HasTaken seat.old.view seat.old.book name key 1 words.now }
    ensures seat { seat.new ≡ seat.old }
    ensures copied { IfOk result (λ _. Takes seat.new.view name key 1 pairs.old.items pairs.new.items) }
{
    let form = form_below(name);
    let held: LockedWords<'_, MapView, MapLaw, 0> = LockedWords { words };
    let cells = AsReadWords {
        draft: &held,
        long: words_in(form),
    };
    let part = Part {
        base: key - key % 256,
        first: 0,
        last: 255,
    };
    let mut leaf = [(0u64, 0u64); 256];
    let filled = fill(&cells, form, part, &mut leaf, 0, seat);
    if filled.reached != 255 {
        return Err(Refusal::Busy);
    }
    if pairs.extend_from_slice(&leaf[..filled.count]).is_err() {
        return Err(Refusal::OutOfMemory);
    }
    Ok(())
}

/// Locks a leaf, and copies its pairs.
pub(crate) fn take_leaf<'a>(
    nodes: &'a Nodes,
    name: u64,
    key: u64,
    work: &mut Work<'a>,
    seat: &mut Seat,
) -> Result<(), Refusal>
    requires book { seat.old.book ≡ nodes.now }
    requires named { Names seat.old.view name key 1 }
    requires locks { HasLocks seat.old.view seat.old.book work.old.locks.items }
    ensures book { seat.new.book ≡ seat.old.book }
    ensures id { seat.new.id ≡ seat.old.id }
    ensures grows { Grows seat.old.view seat.new.view }
    ensures locks { HasLocks seat.new.view seat.new.book work.new.locks.items }
    ensures takes { IfOk result (λ _. Takes seat.new.view name key 1
        work.old.pairs.items work.new.pairs.items) }
{
    let words = lock_noted(nodes, name, 1, key, &mut work.locks, seat)?;
    copy_leaf(words, name, key, &mut work.pairs, seat)
}
