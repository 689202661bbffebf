//! All nodes below one are locked, and then itself.
ghost use Rattle.std.specs.Prelude.{◌≡◌, ℕ, ◌≤◌, IfOk};
ghost use Rattle.spec_map.specs.Map.{Pairs};
ghost use Rattle.live_reads.specs.Paths.{Names};
ghost use Rattle.live_copies.specs.inner.Noted.{HasNoted};
ghost use Rattle.live_copies.specs.inner.Locks.{HasLocks, Grows, place_above, HasTold, Takes};

use crate::children::next_child;
use crate::leaf::take_leaf;
use crate::locks::{Work, lock_noted};
use crate::names::has_children;
use live_growth::map::Refusal;
use live_layout::form::form_below;
use live_nodes::map_law::{MapLaw, MapView};
use live_nodes::rows::LockedWords;
use live_reads::path::{Nodes, Seat};

// Locks a node whose children are locked, if it still has these, and no other.
fn close<'a>(
    nodes: &'a Nodes,
    name: u64,
    height: usize,
    key: u64,
    names: &[u64; 256],
    work: &mut Work<'a>,
    seat: &mut Seat,
) -> Result<(), Refusal>
    requires book { seat.old.book ≡ nodes.now }
    requires named { Names seat.old.view name key height }
    requires height { (2 ≤ height) × (height ≤ 8) }
    requires locks { HasLocks seat.old.view seat.old.book work.old.locks.items }
    ensures book { seat.new.book ≡ seat.old.book }
    ensures id { seat.new.id ≡ seat.old.id }
    ensures grows { Grows seat.old.view seat.new.view }
    ensures locks { HasLocks seat.new.view seat.new.book work.new.locks.items }
    ensures pairs { work.new.pairs ≡ work.old.pairs }
    ensures has { IfOk result (λ _. (pairs : Pairs ℕ)
        → HasNoted seat.old.view.client.own (place_above key height) 256 names.now pairs
        → HasTold seat.new.view name key height pairs) }
{
    let words = lock_noted(nodes, name, height, key, &mut work.locks, seat)?;
    let held: LockedWords<'_, MapView, MapLaw, 0> = LockedWords { words };
    if !has_children(&held, form_below(name), names, seat) {
        return Err(Refusal::Busy);
    }
    Ok(())
}

/// Locks all nodes from one on downwards, those below before those above, and copies their pairs, keys ascending.
pub(crate) fn take<'a>(
    nodes: &'a Nodes,
    name: u64,
    height: usize,
    key: u64,
    work: &mut Work<'a>,
    seat: &mut Seat,
) -> Result<(), Refusal>
    requires book { seat.old.book ≡ nodes.now }
    requires named { Names seat.old.view name key height }
    requires height { (1 ≤ height) × (height ≤ 8) }
    requires locks { HasLocks seat.old.view seat.old.book work.old.locks.items }
    ensures book { seat.new.book ≡ seat.old.book }
    ensures id { seat.new.id ≡ seat.old.id }
    ensures grows { Grows seat.old.view seat.new.view }
    ensures locks { HasLocks seat.new.view seat.new.book work.new.locks.items }
    ensures takes { IfOk result (λ _. Takes seat.new.view name key height
        work.old.pairs.items work.new.pairs.items) }
{
    if height < 2 {
        return take_leaf(nodes, name, key, work, seat);
    }
    let mut names = [0u64; 256];
    let mut from = 0usize;
    while from < 256 {
        let Some(found) = next_child(nodes, name, height, key, from as u8, seat) else {
            return Err(Refusal::Busy);
        };
        match found {
            None => from = 256,
            Some(child) => {
                take(nodes, child.name, child.height, child.key, work, seat)?;
                names[child.byte as usize] = child.name;
                from = child.byte as usize + 1;
            }
        }
    }
    close(nodes, name, height, key, &names, work, seat)
}
