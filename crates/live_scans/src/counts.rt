//! The calls. Each is made by a guard of the map. It begins with an entry of its own in the history, and enters nothing more.
ghost use Rattle.std.specs.Prelude.{◌≡◌, IfOk, IfSome, OnErr};
ghost use Rattle.live_scans.specs.inner.Moments.{SeesMore};
ghost use Rattle.live_reads.specs.Paths.{KnowsRootWord, Keeps};
ghost use Rattle.live_scans.specs.Scans.{GaveUp};
ghost use Rattle.live_scans.specs.Counts.{HasCounted, HasTested};
ghost use Rattle.live_scans.specs.inner.Stops.{IsPosition};
ghost use Rattle.live_scans.specs.inner.Steps.{Counts};

pub mod laws;

use crate::bound::{Bound, Request, key_after};
use crate::page::{Onward, read_on};
use crate::position::{PathNode, Position, Trail};
use crate::scans::ceiling;
use crate::seek::start;
use live_growth::map::{Busy, Congee, Guard};
use live_reads::last_leaf::LastLeaf;
use live_reads::path::{Nodes, Seat};

// How many pairs there are, from a position on. `None` where too many writers came in between.
fn count_all(nodes: &Nodes, position: Position, seat: &mut Seat) -> Option<u128>
    requires book { seat.old.book ≡ nodes.now }
    requires root_word { KnowsRootWord seat.old.view }
    requires position { IsPosition seat.old.view position }
    ensures book { seat.new.book ≡ seat.old.book }
    ensures id { seat.new.id ≡ seat.old.id }
    ensures keeps { Keeps seat.old.view seat.new.view }
    ensures seen { SeesMore seat.new.view.client.seen seat.old.id seat.old.view.client.seen }
    ensures counts { IfSome result (Counts seat.old.id seat.old.view seat.new.view) }
{
    // (one more than a leaf has, so each leaf is read as a whole)
    let mut leaf = [(0u64, 0u64); 257];
    let bound = Bound {
        up: true,
        limit: u64::MAX,
    };
    let mut count = 0u128;
    let mut from = 0u64;
    let low = PathNode {
        at: position,
        known: None,
    };
    let mut at = Some(Trail { low, high: low });
    loop {
        let last = LastLeaf::none();
        let onward = Onward { trail: at, last };
        let request = Request { bound, start: 0 };
        let stepped = read_on(nodes, onward, from, request, &mut leaf, seat)?;
        let step = stepped.step;
        count += step.count as u128;
        if step.last == bound.limit {
            return Some(count);
        }
        from = key_after(step.last, bound);
        at = Some(stepped.trail);
    }
}

/// How many pairs there are: 2 to the 64 at most. Each key is read once, those of a leaf at one moment. So it is exact where
/// nobody writes, and a key that is there throughout is counted. It takes no memory.
pub fn count(map: &Congee, guard: &mut Guard) -> Result<u128, Busy>
    requires map { guard.old.book ≡ map.now }
    ensures map { guard.new.book ≡ guard.old.book }
    ensures counted { IfOk result (λ count. HasCounted guard.old count guard.new) }
    ensures busy { OnErr result (GaveUp guard.old guard.new) }
{
    let Some(position) = start(&map.nodes, 0, &mut guard.seat) else {
        return Err(Busy);
    };
    let Some(count) = count_all(&map.nodes, position, &mut guard.seat) else {
        return Err(Busy);
    };
    Ok(count)
}

/// Whether there is no pair. It reads up to the first one.
pub fn is_empty(map: &Congee, guard: &mut Guard) -> Result<bool, Busy>
    requires map { guard.old.book ≡ map.now }
    ensures map { guard.new.book ≡ guard.old.book }
    ensures tested { IfOk result (λ empty. HasTested guard.old empty guard.new) }
    ensures busy { OnErr result (GaveUp guard.old guard.new) }
{
    let first = ceiling(map, guard, 0)?;
    Ok(first.is_none())
}
