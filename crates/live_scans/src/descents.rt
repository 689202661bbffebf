//! The call that reads a range downwards. It is made by a guard of the map. It begins with an entry of its own in the history, and
//! enters nothing more.
ghost use Rattle.std.specs.Prelude.{◌≡◌, ◌+◌, ◌≤◌, length, take, IfOk, OnErr};
ghost use Rattle.live_layout.specs.Page.{pairs_of};
ghost use Rattle.live_scans.specs.Scans.{GaveUp};
ghost use Rattle.live_scans.specs.Descents.{HasPageDown};

use crate::bound::Bound;
use crate::page::page;
use crate::scans::begin_only;
use crate::seek::start;
use live_growth::map::{Busy, Congee, Guard};
use live_layout::page::RangeEntry;

/// Writes the pairs with keys from `last` down to `first`, descending, into the buffer, as many as there are or as fit. How many
/// there are. It takes no memory, and what follows in the buffer is unspecified.
pub fn range_descending<P: RangeEntry>(
    map: &Congee,
    guard: &mut Guard,
    first: u64,
    last: u64,
    buffer: &mut [P],
) -> Result<usize, Busy>
    requires map { guard.old.book ≡ map.now }
    ensures map { guard.new.book ≡ guard.old.book }
    ensures count { IfOk result (λ count. count ≤ length buffer.old) }
    ensures page { IfOk result (λ count. HasPageDown guard.old first (last + 1) (length buffer.old)
        (take count (pairs_of P.pair buffer.new)) guard.new) }
    ensures busy { OnErr result (GaveUp guard.old guard.new) }
{
    if first > last {
        begin_only(map, guard)?;
        return Ok(0);
    }
    if buffer.is_empty() {
        begin_only(map, guard)?;
        return Ok(0);
    }
    let Some(root) = start(&map.nodes, last, &mut guard.seat) else {
        return Err(Busy);
    };
    let bound = Bound {
        up: false,
        limit: first,
    };
    let Some(step) = page(
        &map.nodes,
        root,
        &mut guard.room.last,
        last,
        bound,
        buffer,
        &mut guard.seat,
    ) else {
        return Err(Busy);
    };
    Ok(step.count)
}
