//! Removals of the pairs for which a closure answers no.
ghost use Rattle.std.specs.Prelude.{◌≡◌, ◌+◌, ◌≤◌, None, IfOk, length};
ghost use Rattle.live_nodes.specs.Known.{MadeCall};
ghost use Rattle.live_updates.specs.Entries.{swapped};
ghost use Rattle.live_pool.specs.Retains.{HasJudged, HaveJudged, HasRetained};

use crate::pool::Pool;
use crate::waits::listed;
use crossbeam_utils::Backoff;
use live_growth::map::Guard;
use std::sync::Wait;

/// How many pairs are read at once.
const PAGE: usize = 64;

// Removes a key if it has this value. `Ok`, or `Err` with the current value, or with `None` where the key is absent.
fn exchanged<R: Wait>(
    rt: &R,
    pool: &Pool,
    guard: &mut Guard,
    key: u64,
    value: u64,
) -> Result<Option<u64>, Option<u64>>
    requires map { guard.old.book ≡ pool.now }
    ensures map { guard.new.book ≡ guard.old.book }
    ensures made { MadeCall guard.old (swapped guard.old.caller key value None result) guard.new }
    ensures none { IfOk result (λ stored. stored ≡ None) }
{
    let pause = Backoff::new();
    for _ in rt.forever() {
        if let Ok(answer) = pool.compare_exchange(guard, key, value, None) {
            return answer;
        }
        pause.snooze();
    }
    unreachable!()
}

// Asks about a pair, and removes it if the answer is no. Asks again where the key has another value by then. Whether it was
// removed.
fn judged<R: Wait, F: FnMut(u64, u64) -> bool>(
    rt: &R,
    pool: &Pool,
    guard: &mut Guard,
    pair: (u64, u64),
    f: &mut F,
) -> bool
    requires map { guard.old.book ≡ pool.now }
    requires callable { F.IsAlwaysCallable f.old }
    ensures callable { F.IsAlwaysCallable f.new }
    ensures map { guard.new.book ≡ guard.old.book }
    ensures judged { HasJudged (λ state asked stays next. F.step state asked.0 asked.1 stays next)
        result pair f.old guard.old f.new guard.new }
{
    let key = pair.0;
    let mut value = pair.1;
    for _ in rt.forever() {
        if f(key, value) {
            return false;
        }
        match exchanged(rt, pool, guard, key, value) {
            Ok(_) => return true,
            Err(None) => return false,
            Err(Some(current)) => value = current,
        }
    }
    unreachable!()
}

// Asks about the pairs of a page, in their order. How many were removed.
fn judged_all<R: Wait, F: FnMut(u64, u64) -> bool>(
    rt: &R,
    pool: &Pool,
    guard: &mut Guard,
    pairs: &[(u64, u64)],
    f: &mut F,
) -> usize
    requires map { guard.old.book ≡ pool.now }
    requires callable { F.IsAlwaysCallable f.old }
    ensures callable { F.IsAlwaysCallable f.new }
    ensures map { guard.new.book ≡ guard.old.book }
    ensures few { result ≤ length pairs.now }
    ensures judged { HaveJudged (λ state asked stays next. F.step state asked.0 asked.1 stays next)
        pairs.now result f.old guard.old f.new guard.new }
{
    let mut count = 0;
    for i in 0..pairs.len() {
        if judged(rt, pool, guard, pairs[i], f) {
            count += 1;
        }
    }
    count
}

/// Asks the closure about each pair with a key from `low` to `last`, keys ascending, and removes the pairs for which it answers
/// no. Returns how many were removed. If a key has another value by the time of its removal, the closure is asked about that
/// one. Needs no memory. Pauses where too many writers came in between, and goes on.
pub fn retain<R: Wait, F: FnMut(u64, u64) -> bool>(
    rt: &R,
    pool: &Pool,
    guard: &mut Guard,
    low: u64,
    last: u64,
    f: &mut F,
) -> u128
    requires map { guard.old.book ≡ pool.now }
    requires callable { F.IsAlwaysCallable f.old }
    ensures callable { F.IsAlwaysCallable f.new }
    ensures map { guard.new.book ≡ guard.old.book }
    ensures retained { HasRetained (λ state asked stays next. F.step state asked.0 asked.1 stays next)
        low (last + 1) result f.old guard.old f.new guard.new }
{
    let mut page = [(0u64, 0u64); PAGE];
    let mut from = low;
    let mut count = 0u128;
    loop {
        let read = listed(rt, &pool.map, guard, from, last, &mut page);
        count += judged_all(rt, pool, guard, &page[..read], f) as u128;
        if read < PAGE {
            return count;
        }
        let end = page[PAGE - 1].0;
        if end == last {
            return count;
        }
        from = end + 1;
    }
}
