//! Holds that leave the map as it is: what is read of it at one moment.
//!
//! Tested in `share_maps` and `test_share_guards`.

ghost use Rattle.std.specs.Prelude.{◌≡◌, ◌≢◌, ◌^◌, ℕ, None, IfOk, IfSome, IsSome, IsTrue, MatchResult, map};
ghost use Rattle.spec_map.specs.Map.{Pairs, IsMap};
ghost use Rattle.share_rule.specs.inner.Steps.{IsIdle, at_of, seen_of};
ghost use Rattle.share_holds.specs.Moments.{HasPage};
ghost use Rattle.share_holds.specs.inner.Events.{KnowsOf};

use crate::holds::{MapLock, MapSeat};
use node_stats::NodeStats;
use share_backend::snapshots::{Pages, Snapshots};
use share_state::share::Share;
use spec_map::error::OOMError;
use spec_map::traits::Word;
use std::alloc::Global;
use std::marker::Brand;
use std::sync::Wait;
use std::sync::ledger::Ledger;
use tree_walk::range_scan::RangeEntry;

/// The keys, ascending, each read back from its number. `OOMError` if there is no memory for the list.
pub fn keys<L: Ledger, P: Drop, T, M: Snapshots<P, T>, R: Wait, K: Word>(
    lock: &MapLock<L, P, T, M>,
    rt: &R,
    seat: &mut MapSeat<L, P, T, M>,
    alloc: Global,
) -> Result<Vec<K>, OOMError>
    requires table { seat.old.table_id ≡ lock.now }
    requires idle { IsIdle seat.old.me }
    ensures table { seat.new.table_id ≡ seat.old.table_id }
    ensures known { KnowsOf (at_of seat.old.me.0) seat.old.me seat.new.me }
    ensures ascending { IfOk result (λ keys. (m : Pairs T) × IsMap m
        × (keys.items ≡ map K.of_number (map (λ pair. pair.0) m))) }
{
    lock.take(rt, seat);
    let Some(under) = seat.slot_mut(lock.table(), 0) else {
        unreachable!()
    };
    let keys = under.keys(alloc);
    lock.release::<Brand, _, _>(seat, &(), &());
    keys
}

/// The sums over the reachable nodes by level and form, and the number of pairs.
pub fn stats<L: Ledger, P: Drop, T, M: Snapshots<P, T>, R: Wait>(
    lock: &MapLock<L, P, T, M>,
    rt: &R,
    seat: &mut MapSeat<L, P, T, M>,
) -> Result<NodeStats, OOMError>
    requires table { seat.old.table_id ≡ lock.now }
    requires idle { IsIdle seat.old.me }
    ensures table { seat.new.table_id ≡ seat.old.table_id }
    ensures known { KnowsOf (at_of seat.old.me.0) seat.old.me seat.new.me }
{
    lock.take(rt, seat);
    let Some(under) = seat.slot_mut(lock.table(), 0) else {
        unreachable!()
    };
    let stats = under.stats();
    lock.release::<Brand, _, _>(seat, &(), &());
    stats
}

/// The number of pairs.
pub fn pair_count<L: Ledger, P: Drop, T, M: Snapshots<P, T>, R: Wait>(
    lock: &MapLock<L, P, T, M>,
    rt: &R,
    seat: &mut MapSeat<L, P, T, M>,
) -> u128
    requires table { seat.old.table_id ≡ lock.now }
    requires idle { IsIdle seat.old.me }
    ensures table { seat.new.table_id ≡ seat.old.table_id }
    ensures known { KnowsOf (at_of seat.old.me.0) seat.old.me seat.new.me }
{
    lock.take(rt, seat);
    let Some(under) = seat.slot_mut(lock.table(), 0) else {
        unreachable!()
    };
    let count = under.pair_count();
    lock.release::<Brand, _, _>(seat, &(), &());
    count
}

/// The number of pairs, exactly if the share has the whole weight. Otherwise returns the share.
pub fn settle<L: Ledger, P: Drop, T, M: Snapshots<P, T>, R: Wait>(
    lock: &MapLock<L, P, T, M>,
    rt: &R,
    seat: &mut MapSeat<L, P, T, M>,
    share: Share<L>,
) -> Result<u128, Share<L>>
    requires table { seat.old.table_id ≡ lock.now }
    requires idle { IsIdle seat.old.me }
    ensures table { seat.new.table_id ≡ seat.old.table_id }
    ensures known { KnowsOf (at_of seat.old.me.0) seat.old.me seat.new.me }
    ensures settled { MatchResult result (λ _. share.weight ≡ 2 ^ 63)
        (λ s. (share.weight ≢ 2 ^ 63) × (s ≡ share)) }
{
    lock.take(rt, seat);
    let Some(under) = seat.slot_mut(lock.table(), 0) else {
        unreachable!()
    };
    let settled = under.settle(share);
    lock.release::<Brand, _, _>(seat, &(), &());
    settled
}

/// Writes the first pairs with `start <= key < end`, as many as there are or as fit, and returns their number. `None` if
/// a range is a call of many events.
pub fn page<L: Ledger, M: Pages, R: Wait, E: RangeEntry>(
    lock: &MapLock<L, u64, u64, M>,
    rt: &R,
    seat: &mut MapSeat<L, u64, u64, M>,
    start: u64,
    end: u64,
    buffer: &mut [E],
) -> Option<usize>
    requires table { seat.old.table_id ≡ lock.now }
    requires idle { IsIdle seat.old.me }
    ensures table { seat.new.table_id ≡ seat.old.table_id }
    ensures known { KnowsOf (at_of seat.old.me.0) seat.old.me seat.new.me }
    ensures written { IfSome result (λ count. HasPage M.same (seen_of seat.old.me.0) E.entry
        start end buffer.old count buffer.new) }
    ensures none { result ≡ None → buffer.new ≡ buffer.old }
    ensures at_once { IsTrue M.at_once → IsSome result }
{
    lock.take(rt, seat);
    let Some(under) = seat.slot_mut(lock.table(), 0) else {
        unreachable!()
    };
    let found = under.page(start, end, buffer);
    lock.release::<Brand, _, _>(seat, &(), &());
    found
}
