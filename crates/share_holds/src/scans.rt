//! The pairs of a range that is a call of many events.
//!
//! Tested in `share_maps` and `test_share_guards`.

ghost use Rattle.std.specs.Prelude.{◌≡◌, ◌≤◌, ℕ, Bool, List, None, Some, IfSome, length};
ghost use Rattle.share_backend.specs.declared.lent.CallStage.TheVariants.{Ready};
ghost use Rattle.share_rule.specs.History.{Entry};
ghost use Rattle.share_rule.specs.inner.Steps.{IsIdle, at_of, seen_of};
ghost use Rattle.share_holds.specs.Moments.{HasRange, WasStored};
ghost use Rattle.share_holds.specs.inner.Events.{KnowsOf};
ghost use Rattle.share_holds.specs.inner.Founds.{AreFound};

use crate::gate::NoGate;
use crate::holds::{MapLock, MapSeat, begin, event};
use crate::loops::{finish, pause_unless};
use crossbeam_utils::Backoff;
use share_backend::event::EventResult;
use share_backend::snapshots::Pages;
use share_state::purse::OwnPurse;
use spec_olc::types::{Op, Outcome};
use std::sync::Wait;
use std::sync::ledger::Ledger;
use tree_walk::range_scan::RangeEntry;

// The pairs that an attempt has found: how many are in the buffer, and the least key that may come next.
#[derive(Clone, Copy)]
struct Found {
    count: usize,
    next: u64,
}

// Stores a pair after those that were found before, and returns what is found then. `None` if there is no room for it, or
// if it isn't the range's next.
fn stored<E: RangeEntry>(
    buffer: &mut [E],
    found: Found,
    end: u64,
    key: u64,
    value: u64,
) -> Option<Found>
    ensures found { IfSome result (λ more.
        (same : ℕ → ℕ → Bool) (seen : List (Entry ℕ)) (start : ℕ) → WasStored same seen key value
        → AreFound same seen E.entry start end found.next found.count buffer.old
        → AreFound same seen E.entry start end more.next more.count buffer.new) }
    ensures none { result ≡ None → buffer.new ≡ buffer.old }
    ensures room { length buffer.new ≡ length buffer.old }
{
    if key < found.next || end <= key || buffer.len() <= found.count {
        return None;
    }
    buffer[found.count] = E::from_pair(key, value);
    Some(Found {
        count: found.count + 1,
        next: key + 1,
    })
}

// One attempt at a range, from its first event on. `None` if it failed: memory was missing, or a pair had no room or
// wasn't the next.
fn scan<L: Ledger, M: Pages, R: Wait, E: RangeEntry>(
    lock: &MapLock<L, u64, u64, M>,
    rt: &R,
    seat: &mut MapSeat<L, u64, u64, M>,
    id: u64,
    start: u64,
    end: u64,
    buffer: &mut [E],
) -> Option<usize>
    requires table { seat.old.table_id ≡ lock.now }
    requires idle { IsIdle seat.old.me }
    requires ready { at_of seat.old.me.0 ≡ Some (id, Ready) }
    ensures table { seat.new.table_id ≡ seat.old.table_id }
    ensures known { KnowsOf (Some (id, Ready)) seat.old.me seat.new.me }
    ensures count { IfSome result (λ found. found ≤ length buffer.old) }
    ensures written { IfSome result (λ found. HasRange M.same (seen_of seat.old.me.0) E.entry
        start end found buffer.new) }
    ensures room { length buffer.new ≡ length buffer.old }
{
    // (what the checker needs to know of M)
    M::numbers_mean_themselves();
    let op = Op::Range(start, end, buffer.len() as u64);
    let Ok(_) = begin(lock, rt, seat, id, &op, &mut OwnPurse) else {
        return None;
    };
    let pause = Backoff::new();
    let mut found = Found {
        count: 0,
        next: start,
    };
    let mut whole = true;
    for _ in rt.forever() {
        let EventResult { report, outcome } = event(lock, rt, seat, id, &op, None, &mut OwnPurse);
        match outcome {
            Outcome::Going => pause_unless(report.ok, &pause),
            Outcome::Pair(key, value) => match stored(buffer, found, end, key, value) {
                Some(more) => found = more,
                None => whole = false,
            },
            Outcome::Done => return if whole { Some(found.count) } else { None },
            Outcome::Unknown => return None,
            Outcome::Refused => {
                finish(lock, rt, seat, id, &op, &mut NoGate, false);
                return None;
            }
            // (no event of a range has such an outcome)
            Outcome::Ask(_) => whole = false,
            Outcome::Decided(_) => unreachable!(),
        }
    }
    unreachable!()
}

/// Attempts at a range, until one succeeds. Writes the pairs that they find, and returns how many.
pub fn scan_until<L: Ledger, M: Pages, R: Wait, E: RangeEntry>(
    lock: &MapLock<L, u64, u64, M>,
    rt: &R,
    seat: &mut MapSeat<L, u64, u64, M>,
    id: u64,
    start: u64,
    end: u64,
    buffer: &mut [E],
) -> usize
    requires table { seat.old.table_id ≡ lock.now }
    requires idle { IsIdle seat.old.me }
    requires ready { at_of seat.old.me.0 ≡ Some (id, Ready) }
    ensures table { seat.new.table_id ≡ seat.old.table_id }
    ensures known { KnowsOf (Some (id, Ready)) seat.old.me seat.new.me }
    ensures count { result ≤ length buffer.old }
    ensures written { HasRange M.same (seen_of seat.old.me.0) E.entry start end result
        buffer.new }
    ensures room { length buffer.new ≡ length buffer.old }
{
    let pause = Backoff::new();
    for _ in rt.forever() {
        if let Some(found) = scan(lock, rt, seat, id, start, end, buffer) {
            return found;
        }
        pause.snooze();
    }
    unreachable!()
}
