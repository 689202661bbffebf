//! A table of the nearest pairs of all shards, one of each. So a range asks only the shard that it has just listed for its
//! next pair.
//!
//! Tested in `tools/c-library`.

ghost use Rattle.std.specs.Prelude.{◌≡◌, ℕ};
ghost use Rattle.share_parts.specs.Parts.{Ascends};
ghost use Rattle.share_visits.specs.Near.{near_of};
ghost use Rattle.share_visits.specs.Whole.{Contains, IsCount};
ghost use Rattle.share_visits.specs.inner.Next.{AreNearest};
ghost use Rattle.spec_map.specs.Map.{Pairs};
ghost use Rattle.spec_map.specs.Near.{pair_near};

use crate::near::{Near, nearer_of};
use crate::one::nearest_at;
use crate::part::{MapShard, PartLock, PartSeat};

/// The pair there, of each shard. Where there is one shard, the others have none.
pub(crate) fn nearest_of_each<M: MapShard + Drop>(
    lock: &PartLock<M>,
    seat: &mut PartSeat<M>,
    near: Near,
) -> [Option<(u64, u64)>; 64]
    requires table { seat.old.table_id ≡ lock.now.table }
    requires shards { IsCount lock.now.table.slots }
    requires all { (all : Pairs ℕ) × Contains M.pairs M.limit lock.now all seat.old.me.1 }
    ensures table { seat.new.table_id ≡ seat.old.table_id }
    ensures same { seat.new.me ≡ seat.old.me }
    ensures each { (all : Pairs ℕ) → Contains M.pairs M.limit lock.now all seat.old.me.1
        → AreNearest lock.now.table.slots (near_of near) all result }
{
    let mut pairs = [None; 64];
    for shard in 0..lock.shards() {
        pairs[shard] = nearest_at(lock, seat, shard, near);
    }
    pairs
}

/// The nearest of them: the pair there, of all shards.
pub(crate) fn nearest_in(
    near: Near,
    pairs: &[Option<(u64, u64)>; 64],
    shards: usize,
) -> Option<(u64, u64)>
    requires { IsCount shards }
    ensures { (all : Pairs ℕ) → Ascends all → AreNearest shards (near_of near) all pairs.now
        → result ≡ pair_near all (near_of near) }
{
    let mut best = None;
    for shard in 0..shards {
        best = nearer_of(near, best, pairs[shard]);
    }
    best
}
