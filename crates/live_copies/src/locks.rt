//! The nodes that a copy has locked, one after the other.
ghost use Rattle.std.specs.Prelude.{◌≡◌, ◌%◌, ◌<◌, ◌^◌, [], drop, List, IfOk, IfSome, IfNone};
ghost use Rattle.live_nodes.specs.Views.{rest_of};
ghost use Rattle.live_reads.specs.Paths.{Names, AreNamed};
ghost use Rattle.live_growth.specs.Holds.{Alike, HasLocked};
ghost use Rattle.live_copies.specs.declared.locks.Lock.{Lock};
ghost use Rattle.live_copies.specs.inner.Locks.{IsTop, HasLocks, Grows, HasTaken};

use live_growth::held::lock_node;
use live_growth::map::Refusal;
use live_nodes::map_law::{MapLaw, MapView, Same};
use live_nodes::node;
use live_reads::path::{Cell, Nodes, Seat, words_at};

// How often a node is tried that a writer is busy at.
const TRIES: u32 = 256;

/// A node that is locked: its words, and the version word by which it was free.
#[derive(Clone, Copy)]
pub(crate) struct Lock<'a> {
    pub(crate) words: &'a [Cell],
    pub(crate) free: u64,
}

/// What a copy has so far: the nodes that it has locked, the last one last, and their pairs.
#[derive(Drop)]
pub(crate) struct Work<'a> {
    pub(crate) locks: Vec<Lock<'a>>,
    pub(crate) pairs: Vec<(u64, u64)>,
}

/// Unlocks the node that was locked last.
fn unlock_one(words: &[Cell], free: u64, seat: &mut Seat)
    requires word { (free % 4 ≡ 0) × (free < 2 ^ 62) }
    requires top { (before : List Lock) × IsTop seat.old.view seat.old.book words.now free before }
    ensures book { seat.new.book ≡ seat.old.book }
    ensures id { seat.new.id ≡ seat.old.id }
    ensures alike { Alike seat.old.view seat.new.view }
    ensures own { seat.new.view.client.own ≡ rest_of seat.old.view.client.own }
    ensures holds { seat.new.view.holds ≡ drop 1 seat.old.view.holds }
    ensures seen { seat.new.view.client.seen ≡ seat.old.view.client.seen }
{
    node::unlock::<MapView, MapLaw, Same>(&words[0], free, seat);
}

// The word by which a node was free that is locked then. `None` where writers are busy there, or it is another node by now.
fn lock_patiently(
    words: &[Cell],
    name: u64,
    height: usize,
    key: u64,
    seat: &mut Seat,
) -> Option<u64>
    requires words { AreNamed seat.old.book name words.now }
    requires named { Names seat.old.view name key height }
    ensures book { seat.new.book ≡ seat.old.book }
    ensures id { seat.new.id ≡ seat.old.id }
    ensures locked { IfSome result (λ free. HasLocked seat.old.view seat.new.view name key height free) }
    ensures none { IfNone result (Alike seat.old.view seat.new.view
        × (seat.new.view.client ≡ seat.old.view.client)
        × (seat.new.view.holds ≡ seat.old.view.holds)) }
{
    for _ in 0..TRIES {
        if let Some(free) = lock_node(words, name, height, key, seat) {
            return Some(free);
        }
    }
    None
}

/// Locks the node that a number names, and notes it.
pub(crate) fn lock_noted<'a>(
    nodes: &'a Nodes,
    name: u64,
    height: usize,
    key: u64,
    locks: &mut Vec<Lock<'a>>,
    seat: &mut Seat,
) -> Result<&'a [Cell], Refusal>
    requires book { seat.old.book ≡ nodes.now }
    requires named { Names seat.old.view name key height }
    requires locks { HasLocks seat.old.view seat.old.book locks.old.items }
    ensures book { seat.new.book ≡ seat.old.book }
    ensures id { seat.new.id ≡ seat.old.id }
    ensures grows { Grows seat.old.view seat.new.view }
    ensures locks { HasLocks seat.new.view seat.new.book locks.new.items }
    ensures taken { IfOk result (λ words.
        HasTaken seat.new.view seat.new.book name key height words.now) }
{
    let Some(words) = words_at(nodes, name) else {
        return Err(Refusal::Busy);
    };
    let Some(free) = lock_patiently(words, name, height, key, seat) else {
        return Err(Refusal::Busy);
    };
    if locks.push(Lock { words, free }).is_err() {
        unlock_one(words, free, seat);
        return Err(Refusal::OutOfMemory);
    }
    Ok(words)
}

/// Unlocks all nodes, the last one first.
pub(crate) fn unlock_all(locks: &mut Vec<Lock<'_>>, seat: &mut Seat)
    requires locks { HasLocks seat.old.view seat.old.book locks.old.items }
    ensures book { seat.new.book ≡ seat.old.book }
    ensures id { seat.new.id ≡ seat.old.id }
    ensures alike { Alike seat.old.view seat.new.view }
    ensures own { seat.new.view.client.own ≡ [] }
    ensures holds { seat.new.view.holds ≡ [] }
    ensures seen { seat.new.view.client.seen ≡ seat.old.view.client.seen }
{
    while let Some(Lock { words, free }) = locks.pop() {
        unlock_one(words, free, seat);
    }
}
