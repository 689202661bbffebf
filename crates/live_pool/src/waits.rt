//! Pops and pages that pause where too many writers came in between, and go on. That they return isn't claimed.
ghost use Rattle.std.specs.Prelude.{◌≡◌, ◌+◌, ◌≤◌, length, take};
ghost use Rattle.live_scans.specs.Scans.{Waits, HasPage};
ghost use Rattle.live_scans.specs.Descents.{HasPageDown};
ghost use Rattle.live_pool.specs.Pops.{HasPopped};

use crate::pool::Pool;
use crate::pops::pop;
use crossbeam_utils::Backoff;
use live_growth::map::{Congee, Guard};
use live_scans::{descents, scans};
use std::sync::Wait;

/// Removes the first pair with a key from `low` to `last`, or, downwards, the last one, and returns it. `None` where there is
/// none. Needs no memory. Pauses where `pop` is busy, and goes on.
pub fn popped<R: Wait>(
    rt: &R,
    pool: &Pool,
    guard: &mut Guard,
    up: bool,
    low: u64,
    last: u64,
) -> Option<(u64, u64)>
    requires map { guard.old.book ≡ pool.now }
    ensures map { guard.new.book ≡ guard.old.book }
    ensures popped { HasPopped up low (last + 1) guard.old result guard.new }
{
    let pause = Backoff::new();
    for _ in rt.forever() {
        if let Ok(found) = pop(pool, guard, up, low, last) {
            return found;
        }
        pause.snooze();
    }
    unreachable!()
}

/// Reads a page of the keys from `low` to `last`, ascending. How many pairs there are.
pub fn listed<R: Wait>(
    rt: &R,
    map: &Congee,
    guard: &mut Guard,
    low: u64,
    last: u64,
    page: &mut [(u64, u64)],
) -> usize
    requires map { guard.old.book ≡ map.now }
    ensures map { guard.new.book ≡ guard.old.book }
    ensures count { result ≤ length page.old }
    ensures page { Waits guard.old (λ k. HasPage k low (last + 1) (length page.old)
        (take result page.new) guard.new) }
{
    let pause = Backoff::new();
    for _ in rt.forever() {
        if let Ok(count) = scans::range_inclusive(map, guard, low, last, page) {
            return count;
        }
        pause.snooze();
    }
    unreachable!()
}

/// Reads a page of the keys from `last` down to `low`, descending. How many pairs there are.
pub fn listed_down<R: Wait>(
    rt: &R,
    map: &Congee,
    guard: &mut Guard,
    low: u64,
    last: u64,
    page: &mut [(u64, u64)],
) -> usize
    requires map { guard.old.book ≡ map.now }
    ensures map { guard.new.book ≡ guard.old.book }
    ensures count { result ≤ length page.old }
    ensures page { Waits guard.old (λ k. HasPageDown k low (last + 1) (length page.old)
        (take result page.new) guard.new) }
{
    let pause = Backoff::new();
    for _ in rt.forever() {
        if let Ok(count) = descents::range_descending(map, guard, low, last, page) {
            return count;
        }
        pause.snooze();
    }
    unreachable!()
}
