//! Removals of many pairs, leaf by leaf.
ghost use Rattle.std.specs.Prelude.{◌≡◌, ◌⊎◌, ◌+◌, ◌%◌, ◌<◌, ◌≤◌, true, length, take, None, IfOk, IfSome, IfNone, OnErr};
ghost use Rattle.spec_map.specs.Map.{Rises};
ghost use Rattle.live_scans.specs.Scans.{GaveUp};
ghost use Rattle.live_pool.specs.Pops.{HasPopped};
ghost use Rattle.live_pool.specs.Removals.{HaveRemoved, HasEmptied, HasExtracted};
ghost use Rattle.live_pool.specs.inner.Parts.{HasTakenPart, HaveHandedOn};

use crate::ends::end_within;
use crate::pool::Pool;
use crossbeam_utils::Backoff;
use live_growth::map::{Busy, Guard};
use std::sync::Wait;

/// How many pairs are removed at once: those of a leaf.
const LEAF: usize = 256;

/// How many pairs are removed at once where the caller gets their number alone.
const FEW: usize = 64;

/// Pairs that were removed, at least one: how many, and the last one's key.
#[derive(Clone, Copy, Debug, PartialEq, Eq)]
pub struct Removed {
    pub count: u64,
    pub last: u64,
}

/// How a removal of many pairs hands each of them on. A type stands for the way: it has no value, and an `F`, as a closure, is
/// passed as it is.
pub trait Receiver<F> {
    ghost use Rattle.std.specs.Prelude.{ℕ};

    ghost step: { F → ℕ × ℕ → F → Type 0 };

    ghost ready: { F → Type 0 };

    /// Hands a pair on that was removed.
    fn receive(f: &mut F, key: u64, value: u64)
        requires { ready f.old }
        ensures step { step f.old (key, value) f.new }
        ensures ready { ready f.new };
}

/// Nobody gets a pair.
pub struct Nobody {}

impl Receiver<()> for Nobody {
    ghost step = { λ f pair g. Unit {0} };

    ghost ready = { λ f. Unit {0} };

    fn receive(_f: &mut (), _key: u64, _value: u64) {}
}

// The first key from `low` on that is in the leaf of a key.
fn leaf_begin(low: u64, key: u64) -> u64
    requires { low ≤ key }
    ensures order { (low ≤ result) × (result ≤ key) }
    ensures seam { (result % 256 ≡ 0) ⊎ (low ≡ result) }
{
    let base = key - key % 256;
    if base < low {
        return low;
    }
    base
}

// Finds the first pair with a key from `low` to `last`, and removes it and those behind it in its leaf. How many, or 0 where there is
// none. `None` where other writers came in between.
fn take_part(
    pool: &Pool,
    guard: &mut Guard,
    low: u64,
    last: u64,
    page: &mut [(u64, u64)],
) -> Option<usize>
    requires map { guard.old.book ≡ pool.now }
    requires some_room { 0 < length page.old }
    ensures map { guard.new.book ≡ guard.old.book }
    ensures few { IfSome result (λ count. count ≤ length page.old) }
    ensures part { IfSome result (λ count.
        HasTakenPart low (last + 1) (take count page.new) guard.old guard.new) }
    ensures ascend { IfSome result (λ count. Rises low (last + 1) (take count page.new)) }
    ensures missed { IfNone result (GaveUp guard.old guard.new) }
{
    let Ok(found) = end_within(&pool.map, guard, true, low, last) else {
        return None;
    };
    let Some(pair) = found else {
        return Some(0);
    };
    let begin = leaf_begin(low, pair.0);
    let count = pool.take_from_leaf(guard, begin, last, page);
    if count == 0 {
        return None;
    }
    Some(count)
}

/// Removes the first pairs with keys from `low` to `last`: those of one leaf, at most 64. `None` where there is none. Needs no memory.
/// `Busy` if too many writers came in between: then no pair has changed.
pub fn remove_some(
    pool: &Pool,
    guard: &mut Guard,
    low: u64,
    last: u64,
) -> Result<Option<Removed>, Busy>
    requires map { guard.old.book ≡ pool.now }
    ensures map { guard.new.book ≡ guard.old.book }
    ensures inside { IfOk result (λ some. IfSome some (λ r. (low ≤ r.last) × (r.last ≤ last))) }
    ensures removed { IfOk result (λ some. IfSome some (λ r.
        HaveRemoved low (last + 1) r.count (r.last + 1) guard.old guard.new)) }
    ensures none { IfOk result (λ some. IfNone some
        (HasPopped true low (last + 1) guard.old None guard.new)) }
    ensures busy { OnErr result (GaveUp guard.old guard.new) }
{
    let mut page = [(0u64, 0u64); FEW];
    let Some(count) = take_part(pool, guard, low, last, &mut page) else {
        return Err(Busy);
    };
    if count == 0 {
        return Ok(None);
    }
    Ok(Some(Removed {
        count: count as u64,
        last: page[count - 1].0,
    }))
}

// As `take_part`. Pauses where other writers came in between, and goes on.
fn taken_part<R: Wait>(
    rt: &R,
    pool: &Pool,
    guard: &mut Guard,
    low: u64,
    last: u64,
    page: &mut [(u64, u64)],
) -> usize
    requires map { guard.old.book ≡ pool.now }
    requires some_room { 0 < length page.old }
    ensures map { guard.new.book ≡ guard.old.book }
    ensures few { result ≤ length page.old }
    ensures part { HasTakenPart low (last + 1) (take result page.new) guard.old guard.new }
    ensures ascend { Rises low (last + 1) (take result page.new) }
{
    let pause = Backoff::new();
    for _ in rt.forever() {
        if let Some(count) = take_part(pool, guard, low, last, page) {
            return count;
        }
        pause.snooze();
    }
    unreachable!()
}

// Hands pairs on, in their order.
fn hand_on<F, T: Receiver<F>>(pairs: &[(u64, u64)], f: &mut F)
    requires ready { T.ready f.old }
    ensures ready { T.ready f.new }
    ensures handed { HaveHandedOn T.step pairs.now f.old f.new }
{
    for i in 0..pairs.len() {
        let (key, value) = pairs[i];
        T::receive(f, key, value);
    }
}

/// Removes the pairs with keys from `low` to `last`, keys ascending, hands each on, and returns how many. The pairs of one leaf are
/// removed at one moment, and then handed on. Needs no memory. Pauses where too many writers came in between, and goes on.
pub fn extract_range<R: Wait, F, T: Receiver<F>>(
    rt: &R,
    pool: &Pool,
    guard: &mut Guard,
    low: u64,
    last: u64,
    f: &mut F,
) -> u128
    requires map { guard.old.book ≡ pool.now }
    requires ready { T.ready f.old }
    ensures map { guard.new.book ≡ guard.old.book }
    ensures ready { T.ready f.new }
    ensures extracted { HasExtracted T.step low (last + 1) result f.old guard.old f.new guard.new }
{
    let mut page = [(0u64, 0u64); LEAF];
    let mut from = low;
    let mut count = 0u128;
    loop {
        let read = taken_part(rt, pool, guard, from, last, &mut page);
        if read == 0 {
            return count;
        }
        hand_on::<F, T>(&page[..read], f);
        count += read as u128;
        let end = page[read - 1].0;
        if end == last {
            return count;
        }
        from = end + 1;
    }
}

/// As `extract_range`. Nobody gets the pairs.
pub fn remove_range<R: Wait>(rt: &R, pool: &Pool, guard: &mut Guard, low: u64, last: u64) -> u128
    requires map { guard.old.book ≡ pool.now }
    ensures map { guard.new.book ≡ guard.old.book }
    ensures emptied { HasEmptied low (last + 1) result guard.old guard.new }
{
    let mut nobody = ();
    extract_range::<R, (), Nobody>(rt, pool, guard, low, last, &mut nobody)
}
