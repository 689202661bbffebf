//! The call. It is made by a guard of the map. It begins with an entry of its own in the history, and enters nothing more.
ghost use Rattle.std.specs.Prelude.{◌≡◌, nat_eq, [], IfOk, OnErr};
ghost use Rattle.share_rule.specs.History.{IsHistory};
ghost use Rattle.live_reads.specs.Paths.{KnowsRootWord, Names, Keeps};
ghost use Rattle.live_scans.specs.Scans.{GaveUp};
ghost use Rattle.live_scans.specs.inner.Moments.{SeesMore};
ghost use Rattle.live_copies.specs.Copies.{HasCopied};
ghost use Rattle.live_copies.specs.inner.Locks.{HasLocks, Knows};

use crate::locks::{Work, unlock_all};
use crate::walk::take;
use crate::whole::whole;
use live_growth::map::{Congee, Guard, Refusal};
use live_reads::path::{Nodes, Seat};
use live_scans::seek::start;
use std::alloc::Global;
use std::marker::Brand;

// How often a copy is tried before it is given up.
const TRIES: u32 = 64;

// Locks all nodes from the root on, which has this name, and copies all pairs. All are locked then, or some.
fn take_all<'a>(
    nodes: &'a Nodes,
    root: u64,
    work: &mut Work<'a>,
    seat: &mut Seat,
) -> Result<(), Refusal>
    requires book { seat.old.book ≡ nodes.now }
    requires root_word { KnowsRootWord seat.old.view }
    requires root { Names seat.old.view root 0 8 }
    requires locks { HasLocks seat.old.view seat.old.book work.old.locks.items }
    requires none { work.old.pairs.items ≡ [] }
    ensures book { seat.new.book ≡ seat.old.book }
    ensures id { seat.new.id ≡ seat.old.id }
    ensures knows { Knows seat.old.view seat.new.view }
    ensures locks { HasLocks seat.new.view seat.new.book work.new.locks.items }
    ensures seen { SeesMore seat.new.view.client.seen seat.old.id seat.old.view.client.seen }
    ensures pairs { IfOk result (λ _. IsHistory nat_eq seat.new.view.client.seen work.new.pairs.items) }
{
    take(nodes, root, 8, 0, work, seat)?;
    if !whole::<Brand>(nodes, seat) {
        return Err(Refusal::Busy);
    }
    Ok(())
}

// All pairs of one moment.
fn copy_once(
    nodes: &Nodes,
    root: u64,
    alloc: Global,
    seat: &mut Seat,
) -> Result<Vec<(u64, u64)>, Refusal>
    requires book { seat.old.book ≡ nodes.now }
    requires root_word { KnowsRootWord seat.old.view }
    requires root { Names seat.old.view root 0 8 }
    requires rests { (seat.old.view.client.own ≡ []) × (seat.old.view.holds ≡ []) }
    ensures book { seat.new.book ≡ seat.old.book }
    ensures id { seat.new.id ≡ seat.old.id }
    ensures keeps { Keeps seat.old.view seat.new.view }
    ensures seen { SeesMore seat.new.view.client.seen seat.old.id seat.old.view.client.seen }
    ensures pairs { IfOk result (λ pairs. IsHistory nat_eq seat.new.view.client.seen pairs.items) }
{
    let mut work = Work {
        locks: Vec::new(alloc),
        pairs: Vec::new(alloc),
    };
    let taken = take_all(nodes, root, &mut work, seat);
    unlock_all(&mut work.locks, seat);
    taken?;
    Ok(work.pairs)
}

/// All pairs of one moment, keys ascending. Each node is locked meanwhile, so writers are busy there. Look-ups that need a locked
/// node wait, too. It takes 16 bytes for each pair, and 24 for each node. `OutOfMemory` where there are fewer.
pub fn copy(map: &Congee, alloc: Global, guard: &mut Guard) -> Result<Vec<(u64, u64)>, Refusal>
    requires map { guard.old.book ≡ map.now }
    ensures map { guard.new.book ≡ guard.old.book }
    ensures copied { IfOk result (λ pairs. HasCopied guard.old pairs.items guard.new) }
    ensures refused { OnErr result (GaveUp guard.old guard.new) }
{
    let Some(position) = start(&map.nodes, 0, &mut guard.seat) else {
        return Err(Refusal::Busy);
    };
    for _ in 0..TRIES {
        match copy_once(&map.nodes, position.name, alloc, &mut guard.seat) {
            Ok(pairs) => return Ok(pairs),
            Err(Refusal::OutOfMemory) => return Err(Refusal::OutOfMemory),
            Err(Refusal::Busy) => {}
        }
    }
    Err(Refusal::Busy)
}
