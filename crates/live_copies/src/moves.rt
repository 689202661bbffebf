//! The moves. Each pauses where too many writers came in between, and goes on. That it returns isn't claimed.

ghost use Rattle.std.specs.Prelude.{◌≡◌, nat_eq, IfOk, OnErr};
ghost use Rattle.share_rule.specs.History.{IsHistory};
ghost use Rattle.live_scans.specs.Scans.{HasWaited, Waits};
ghost use Rattle.live_copies.specs.Copies.{HasCopied};

use crate::copy::copy;
use crate::numbers::{is_same, numbers_of, owned_of};
use crossbeam_utils::Backoff;
use live_growth::map::{Guard, Refusal};
use live_pool::pool::Pool;
use node_table::allocator::Allocator;
use spec_map::error::OOMError;
use spec_map::traits::Word;
use std::alloc::Global;
use std::sync::Wait;

/// All pairs of one moment, by their numbers, keys ascending.
pub fn copied<R: Wait>(
    rt: &R,
    map: &live_growth::map::Congee,
    alloc: Global,
    guard: &mut Guard,
) -> Result<Vec<(u64, u64)>, OOMError>
    requires map { guard.old.book ≡ map.now }
    ensures copied { IfOk result (λ pairs. Waits guard.old (λ k. HasCopied k pairs.items guard.new)) }
    ensures refused { OnErr result (HasWaited guard.old guard.new) }
{
    let pause = Backoff::new();
    for _ in rt.forever() {
        match copy(map, alloc, guard) {
            Ok(pairs) => return Ok(pairs),
            Err(Refusal::OutOfMemory) => return Err(OOMError::new()),
            Err(Refusal::Busy) => pause.snooze(),
        }
    }
    unreachable!()
}

/// A map with one owner, with all pairs of one moment.
pub fn moved_out<R: Wait, K: Word, V: Word>(
    rt: &R,
    map: &live_growth::map::Congee,
    alloc: Global,
    guard: &mut Guard,
) -> Result<face_typed::typed_congee::Congee<K, V>, OOMError>
    requires map { guard.old.book ≡ map.now }
    ensures copied { IfOk result (λ owned. Waits guard.old (λ k. HasCopied k owned.pairs guard.new)) }
    ensures refused { OnErr result (HasWaited guard.old guard.new) }
{
    let numbers = copied(rt, map, alloc, guard)?;
    owned_of(alloc, &numbers)
}

// Inserts pairs, by their numbers.
fn fill(
    pool: &Pool,
    alloc: Global,
    guard: &mut Guard,
    numbers: &[(u64, u64)],
) -> Result<(), Refusal>
    requires map { guard.old.book ≡ pool.now }
    ensures { guard.new.book ≡ guard.old.book }
{
    for &(key, value) in numbers {
        let _ = pool.insert(alloc, guard, key, value)?;
    }
    Ok(())
}

// A new map with these pairs, and a guard that has seen them. They are compared, since no clause says that nobody else has
// made a call meanwhile. If they aren't the same, it was busy.
fn try_filled(alloc: Global, numbers: &[(u64, u64)]) -> Result<(Pool, Guard), Refusal>
    ensures { IfOk result (λ both. (both.1.book ≡ both.0)
        × IsHistory nat_eq both.1.seen numbers.now) }
{
    let Ok(pool) = Pool::new(alloc) else {
        return Err(Refusal::OutOfMemory);
    };
    let mut guard = pool.pin();
    fill(&pool, alloc, &mut guard, numbers)?;
    let found = copy(&pool.map, alloc, &mut guard)?;
    if !is_same(&found, numbers) {
        return Err(Refusal::Busy);
    }
    Ok((pool, guard))
}

/// A new map with these pairs, by their numbers, and a guard that has seen them. Goes on where it was busy.
pub fn filled<R: Wait>(
    rt: &R,
    alloc: Global,
    numbers: &[(u64, u64)],
) -> Result<(Pool, Guard), OOMError>
    ensures { IfOk result (λ both. (both.1.book ≡ both.0)
        × IsHistory nat_eq both.1.seen numbers.now) }
{
    for _ in rt.forever() {
        match try_filled(alloc, numbers) {
            Ok(both) => return Ok(both),
            Err(Refusal::OutOfMemory) => return Err(OOMError::new()),
            Err(Refusal::Busy) => {}
        }
    }
    unreachable!()
}

/// A new map with the pairs of one that has an owner, and a guard that has seen them.
pub fn moved_in<R: Wait, K: Word, V: Word, A: Allocator>(
    rt: &R,
    alloc: Global,
    owned: &face_typed::typed_congee::Congee<K, V, A>,
) -> Result<(Pool, Guard), OOMError>
    ensures { IfOk result (λ both. (both.1.book ≡ both.0)
        × IsHistory nat_eq both.1.seen owned.now.pairs) }
{
    let numbers = numbers_of(alloc, owned)?;
    filled(rt, alloc, &numbers)
}
