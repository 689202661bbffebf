//! The calls that put the new value together from the current one. A call that meets a writer is tried again.
//!
//! Tested in `tools/c-library`.

ghost use Rattle.std.specs.Prelude.{◌≡◌, ◌≢◌, ◌⊎◌, None, Some, Ok, Err, pos};
ghost use Rattle.live_nodes.specs.Known.{MadeCall};
ghost use Rattle.live_updates.specs.Refusals.{FoundNone};
ghost use Rattle.live_updates.specs.Entries.{swapped};
ghost use Rattle.live_updates.specs.ClosureEntries.{inserted_with, sum_with};
ghost use Rattle.congee_live_c.specs.Answer.{oom, busy};

use crate::handle::Handle;
use crate::{BUSY, OOM};
use live_growth::map::{Busy, Refusal};
use std::alloc::Global;

/// Adds a number to the key's value, modulo 2 to the 64, so a sum past `u64::MAX` wraps. A new key gets the number as its
/// value. Answers as `congee_c_live_insert`, with the value before the addition in `before`.
#[unsafe(no_mangle)]
pub extern "C" fn congee_c_live_add(
    alloc: Global,
    handle: &mut Handle,
    key: u64,
    number: u64,
    before: &mut u64,
) -> i32
    ensures code { (result ≡ pos 0) ⊎ (result ≡ pos 1) ⊎ (result ≡ busy) ⊎ (result ≡ oom) }
    ensures present { result ≡ pos 1 → MadeCall handle.old.held.guard
        (inserted_with handle.old.held.guard.caller key (Some before.new)
        (sum_with (Some before.new) number)) handle.new.held.guard }
    ensures absent { result ≡ pos 0 → MadeCall handle.old.held.guard
        (inserted_with handle.old.held.guard.caller key None number) handle.new.held.guard }
    ensures missed { result ≡ busy → handle.new.held ≡ handle.old.held }
    ensures refused { result ≡ oom → FoundNone handle.old.held.guard key handle.new.held.guard }
    ensures kept { result ≢ pos 1 → before.new ≡ before.old }
    ensures place { handle.new.ptr ≡ handle.old.ptr }
{
    let held = handle.as_mut();
    answer(held.pool.add(alloc, &mut held.guard, key, number), before)
}

/// Gives the key the value if it has none. Answers 0 then, and 1 for a present key, whose value is written to `found`; or
/// `BUSY`; or `OOM`. For a present key no lock and no memory is taken.
#[unsafe(no_mangle)]
pub extern "C" fn congee_c_live_get_or_insert(
    alloc: Global,
    handle: &mut Handle,
    key: u64,
    value: u64,
    found: &mut u64,
) -> i32
    ensures code { (result ≡ pos 0) ⊎ (result ≡ pos 1) ⊎ (result ≡ busy) ⊎ (result ≡ oom) }
    ensures present { result ≡ pos 1 → MadeCall handle.old.held.guard
        (inserted_with handle.old.held.guard.caller key (Some found.new) found.new)
        handle.new.held.guard }
    ensures absent { result ≡ pos 0 → MadeCall handle.old.held.guard
        (inserted_with handle.old.held.guard.caller key None value) handle.new.held.guard }
    ensures missed { result ≡ busy → handle.new.held ≡ handle.old.held }
    ensures refused { result ≡ oom → FoundNone handle.old.held.guard key handle.new.held.guard }
    ensures kept { result ≢ pos 1 → found.new ≡ found.old }
    ensures place { handle.new.ptr ≡ handle.old.ptr }
{
    let held = handle.as_mut();
    answer(
        held.pool.get_or_insert(alloc, &mut held.guard, key, value),
        found,
    )
}

/// If the key's value is `expected`, removes the key and answers 1. If it is another, writes it to `found` and answers 2.
/// If the key is absent, answers 0. Or answers `BUSY`. Needs no memory.
#[unsafe(no_mangle)]
pub extern "C" fn congee_c_live_compare_remove(
    handle: &mut Handle,
    key: u64,
    expected: u64,
    found: &mut u64,
) -> i32
    ensures code { (result ≡ pos 0) ⊎ (result ≡ pos 1) ⊎ (result ≡ pos 2) ⊎ (result ≡ busy) }
    ensures absent { result ≡ pos 0 → MadeCall handle.old.held.guard
        (swapped handle.old.held.guard.caller key expected None (Err None))
        handle.new.held.guard }
    ensures same { result ≡ pos 1 → MadeCall handle.old.held.guard
        (swapped handle.old.held.guard.caller key expected None (Ok None))
        handle.new.held.guard }
    ensures other { result ≡ pos 2 → MadeCall handle.old.held.guard
        (swapped handle.old.held.guard.caller key expected None (Err (Some found.new)))
        handle.new.held.guard }
    ensures missed { result ≡ busy → handle.new.held ≡ handle.old.held }
    ensures kept { result ≢ pos 2 → found.new ≡ found.old }
    ensures place { handle.new.ptr ≡ handle.old.ptr }
{
    let held = handle.as_mut();
    match held
        .pool
        .compare_exchange(&mut held.guard, key, expected, None)
    {
        Ok(Ok(_)) => 1,
        Ok(Err(None)) => 0,
        Ok(Err(Some(current))) => {
            *found = current;
            2
        }
        Err(Busy) => BUSY,
    }
}

// 1 with the value written to the place, or 0, or why the call wasn't made.
fn answer(found: Result<Option<u64>, Refusal>, place: &mut u64) -> i32
    ensures code { (result ≡ pos 0) ⊎ (result ≡ pos 1) ⊎ (result ≡ busy) ⊎ (result ≡ oom) }
    ensures present { result ≡ pos 1 → found ≡ Ok (Some place.new) }
    ensures absent { result ≡ pos 0 → found ≡ Ok None }
    ensures busy { result ≡ busy → found ≡ Err Refusal.Busy }
    ensures oom { result ≡ oom → found ≡ Err Refusal.OutOfMemory }
    ensures kept { result ≢ pos 1 → place.new ≡ place.old }
{
    match found {
        Ok(Some(value)) => {
            *place = value;
            1
        }
        Ok(None) => 0,
        Err(Refusal::Busy) => BUSY,
        Err(Refusal::OutOfMemory) => OOM,
    }
}
