//! What one shard is asked, of those that one hold has.
//!
//! Tested in `tools/c-library`.

ghost use Rattle.std.specs.Prelude.{◌≡◌, ◌<◌, ◌++◌, ℕ, List, Option, length};
ghost use Rattle.share_shards.specs.Held.{keys_at};
ghost use Rattle.share_parts.specs.Parts.{kept};
ghost use Rattle.share_visits.specs.Near.{near_of};
ghost use Rattle.share_visits.specs.Whole.{Contains, IsCount, shard_of};
ghost use Rattle.share_visits.specs.declared.part.Part.{Part};
ghost use Rattle.share_visits.specs.inner.One.{VisitedOne};
ghost use Rattle.spec_map.specs.Map.{Pairs};
ghost use Rattle.spec_map.specs.Near.{pair_near};

use crate::near::Near;
use crate::part::{MapShard, Part, PartLock, PartSeat};
use crate::visits::Find;
use share_shards::work::Visit;

// Turns the slots that the seat has, so often: the first is last then. A seat has no bytes, so this is for the checker.
fn turn<M: MapShard + Drop>(seat: &mut PartSeat<M>, times: usize)
    ensures table { seat.new.table_id ≡ seat.old.table_id }
    ensures view { seat.new.me.0 ≡ seat.old.me.0 }
    ensures turned { (first others : List (ℕ × Option (Part M))) → seat.old.me.1 ≡ first ++ others
        → length first ≡ times → seat.new.me.1 ≡ others ++ first }
{
    'turns: for _ in 0..times {
        seat.turn();
    }
}

/// Visits one shard, and no other.
pub(crate) fn visit_one<E, M: MapShard + Drop, V: Visit<Part<M>, E>>(
    lock: &PartLock<M>,
    seat: &mut PartSeat<M>,
    shard: usize,
    visit: &mut V,
    buffer: &mut [E],
)
    requires table { seat.old.table_id ≡ lock.now.table }
    requires within { shard < lock.now.table.slots }
    requires all { (all : Pairs ℕ) × Contains M.pairs M.limit lock.now all seat.old.me.1 }
    ensures table { seat.new.table_id ≡ seat.old.table_id }
    ensures view { seat.new.me.0 ≡ seat.old.me.0 }
    ensures visited { (all : Pairs ℕ) → Contains M.pairs M.limit lock.now all seat.old.me.1
        → VisitedOne M.pairs M.limit V.does lock.now shard all visit.old buffer.old
        visit.new buffer.new seat.old.me.1 seat.new.me.1 }
{
    turn(seat, lock.shards() - 1 - shard);
    lock.each::<E, V>(&[shard], seat, visit, buffer);
    turn(seat, shard);
}

/// The pair there, of those of one shard.
pub(crate) fn nearest_at<M: MapShard + Drop>(
    lock: &PartLock<M>,
    seat: &mut PartSeat<M>,
    shard: usize,
    near: Near,
) -> Option<(u64, u64)>
    requires table { seat.old.table_id ≡ lock.now.table }
    requires within { shard < lock.now.table.slots }
    requires all { (all : Pairs ℕ) × Contains M.pairs M.limit lock.now all seat.old.me.1 }
    ensures table { seat.new.table_id ≡ seat.old.table_id }
    ensures same { seat.new.me ≡ seat.old.me }
    ensures pair { (all : Pairs ℕ) → Contains M.pairs M.limit lock.now all seat.old.me.1
        → result ≡ pair_near (kept (keys_at (shard_of lock.now.table.slots) shard) all)
        (near_of near) }
{
    let mut find = Find { near, pair: None };
    visit_one::<(), M, Find>(lock, seat, shard, &mut find, &mut []);
    find.pair
}
