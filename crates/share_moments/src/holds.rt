//! The calls on the whole map, as holds of the locks of all shards.
//!
//! Tested in `tools/c-library`.

ghost use Rattle.std.specs.Prelude.{◌≡◌, ◌≤◌, ◌*◌, ℕ, [], ◌∷◌, List, None, IfSome, IsTrue, IsFalse, length};
ghost use Rattle.share_shards.specs.inner.Steps.{HeldBy, IsIdle};
ghost use Rattle.share_visits.specs.Charged.{IsChargeOfAll, sum_of};
ghost use Rattle.share_visits.specs.Near.{near_of};
ghost use Rattle.share_visits.specs.Whole.{IsCount};
ghost use Rattle.share_works.specs.Ends.{popping};
ghost use Rattle.share_works.specs.Made.{clearing, returned};
ghost use Rattle.share_moments.specs.declared.state.State.{State};
ghost use Rattle.spec_map.specs.Call.{count, counted, found, is_empty, nearest as nearest_call, tested};
ghost use Rattle.spec_map.specs.Map.{Pairs};
ghost use Rattle.spec_olc.specs.Runs.{same_number};
ghost use Rattle.tree_edit.specs.TreeCalls.{IsChargeOf};

use crate::state::{MapLock, MapSeat, State, TRIES};
use share_visits::near::Near;
use share_visits::visits::{Charge, Clear, Find, Tally};
use share_visits::whole::{charged, clear, nearest, pair_count, pop, release_all, take_all};
use std::marker::Brand;

/// The pair there. `None` if a lock stays taken.
pub fn hold_nearest(lock: &MapLock, seat: &mut MapSeat, near: Near) -> Option<Option<(u64, u64)>>
    requires table { seat.old.table_id ≡ lock.now.table }
    requires shards { IsCount lock.now.table.slots }
    requires idle { IsIdle seat.old.me }
    ensures table { seat.new.table_id ≡ seat.old.table_id }
    ensures made { IfSome result (λ pair. HeldBy same_number
        (returned (nearest_call (near_of near)) (found pair) ∷ []) seat.old.me seat.new.me) }
    ensures missed { result ≡ None → seat.new.me ≡ seat.old.me }
    ensures idle { IsIdle seat.new.me }
{
    if !take_all(lock, seat, TRIES) {
        return None;
    }
    let pair = nearest(lock, seat, near);
    let find = Find { near, pair };
    release_all::<Brand, State, Find>(lock, seat, &find);
    Some(pair)
}

/// Removes the pair there, and returns it. `None` if a lock stays taken.
pub fn hold_pop(lock: &MapLock, seat: &mut MapSeat, near: Near) -> Option<Option<(u64, u64)>>
    requires table { seat.old.table_id ≡ lock.now.table }
    requires shards { IsCount lock.now.table.slots }
    requires idle { IsIdle seat.old.me }
    ensures table { seat.new.table_id ≡ seat.old.table_id }
    ensures made { IfSome result (λ pair. HeldBy same_number
        (popping (near_of near) pair) seat.old.me seat.new.me) }
    ensures missed { result ≡ None → seat.new.me ≡ seat.old.me }
    ensures idle { IsIdle seat.new.me }
{
    if !take_all(lock, seat, TRIES) {
        return None;
    }
    let pair = pop(lock, seat, near);
    let find = Find { near, pair };
    release_all::<Brand, State, Find>(lock, seat, &find);
    Some(pair)
}

/// How many pairs there are. `None` if a lock stays taken.
pub fn hold_count(lock: &MapLock, seat: &mut MapSeat) -> Option<u128>
    requires table { seat.old.table_id ≡ lock.now.table }
    requires shards { IsCount lock.now.table.slots }
    requires idle { IsIdle seat.old.me }
    ensures table { seat.new.table_id ≡ seat.old.table_id }
    ensures made { IfSome result (λ n. HeldBy same_number
        (returned count (counted n) ∷ []) seat.old.me seat.new.me) }
    ensures missed { result ≡ None → seat.new.me ≡ seat.old.me }
    ensures idle { IsIdle seat.new.me }
{
    if !take_all(lock, seat, TRIES) {
        return None;
    }
    let pairs = pair_count(lock, seat);
    let tally = Tally { pairs };
    release_all::<Brand, State, Tally>(lock, seat, &tally);
    Some(pairs)
}

/// Whether there is no pair. `None` if a lock stays taken.
pub fn hold_is_empty(lock: &MapLock, seat: &mut MapSeat) -> Option<bool>
    requires table { seat.old.table_id ≡ lock.now.table }
    requires shards { IsCount lock.now.table.slots }
    requires idle { IsIdle seat.old.me }
    ensures table { seat.new.table_id ≡ seat.old.table_id }
    ensures made { IfSome result (λ empty. HeldBy same_number
        (returned is_empty (tested empty) ∷ []) seat.old.me seat.new.me) }
    ensures missed { result ≡ None → seat.new.me ≡ seat.old.me }
    ensures idle { IsIdle seat.new.me }
{
    if !take_all(lock, seat, TRIES) {
        return None;
    }
    let empty = pair_count(lock, seat) == 0;
    release_all::<Brand, State, bool>(lock, seat, &empty);
    Some(empty)
}

/// What all shards' maps are charged, which is within their limits. `None` if a lock stays taken.
pub fn hold_charged(lock: &MapLock, seat: &mut MapSeat) -> Option<u128>
    requires table { seat.old.table_id ≡ lock.now.table }
    requires shards { IsCount lock.now.table.slots }
    requires idle { IsIdle seat.old.me }
    ensures table { seat.new.table_id ≡ seat.old.table_id }
    ensures made { IfSome result (λ bytes. (maps : List State) × (length maps ≡ seat.old.table_id.slots)
        × HeldBy same_number (returned count (counted (sum_of (λ s. length s.map.pairs) maps)) ∷ [])
        seat.old.me seat.new.me
        × IsChargeOfAll (λ (s : State). IsChargeOf s.map) maps bytes) }
    ensures within { IfSome result (λ bytes. bytes ≤ lock.now.table.slots * lock.now.limit) }
    ensures missed { result ≡ None → seat.new.me ≡ seat.old.me }
    ensures idle { IsIdle seat.new.me }
{
    if !take_all(lock, seat, TRIES) {
        return None;
    }
    let bytes = charged(lock, seat);
    let charge = Charge { bytes };
    release_all::<Brand, State, Charge>(lock, seat, &charge);
    Some(bytes)
}

/// Removes all pairs. `false` if a lock stays taken.
pub fn hold_clear(lock: &MapLock, seat: &mut MapSeat) -> bool
    requires table { seat.old.table_id ≡ lock.now.table }
    requires shards { IsCount lock.now.table.slots }
    requires idle { IsIdle seat.old.me }
    ensures table { seat.new.table_id ≡ seat.old.table_id }
    ensures made { IsTrue result → (pairs : Pairs ℕ)
        × HeldBy same_number (clearing pairs) seat.old.me seat.new.me }
    ensures missed { IsFalse result → seat.new.me ≡ seat.old.me }
    ensures idle { IsIdle seat.new.me }
{
    if !take_all(lock, seat, TRIES) {
        return false;
    }
    clear(lock, seat);
    release_all::<Brand, State, Clear>(lock, seat, &Clear {});
    true
}
