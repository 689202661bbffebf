//! A map from `u64` to `u64` that the threads of a C or Rust program share, each by a handle of its own. Look-ups take no lock.
//!
//! A call is tried a bounded number of times. If a writer came in between each time, the call answers `BUSY`, and nothing has
//! changed. Else its reply is the map's at the end of one legal history, which begins with what this handle had seen
//! (`MadeCall`). A call doesn't move what a handle holds (`place`), so C may keep its address alone.
//!
//! An answer is an `i32`: 0, 1 or 2 with the meaning that each call documents, `OOM` or `BUSY`.
//!
//! Here are the calls that make a map and its handles, its limit, and those that get, set and remove one key. `computed`,
//! `counts`, `meetings`, `next_pair`, `pair_before`, `pops` and `ranges` have the others, and `owners` those of a map of owners.
//!
//! Tested in `tools/c-library`.
#![tactic(auto)]

ghost use Rattle.std.specs.Prelude.{◌≡◌, ◌≢◌, ◌⊎◌, ◌≤◌, [], Some, None, Ok, Err, IfSome, IsSome, pos};
ghost use Rattle.live_nodes.specs.Views.{ask, got, inserted};
ghost use Rattle.live_nodes.specs.Known.{MadeCall};
ghost use Rattle.live_reads.specs.Meetings.{SeenMore};
ghost use Rattle.live_updates.specs.Refusals.{FoundNone};
ghost use Rattle.live_updates.specs.Entries.{removed, swapped};
ghost use Rattle.congee_live_c.specs.Answer.{oom, busy};

mod computed;
mod counts;
mod handle;
mod held;
mod meetings;
mod next_pair;
mod owners;
mod pair_before;
mod pops;
mod ranges;
mod room;

pub use handle::Handle;
use held::Held;
use live_growth::map::{Busy, Refusal};
use live_layout::page::RangeEntry;
pub use room::Room;
use std::alloc::Global;

/// There was no memory.
const OOM: i32 = -1;

/// A writer came in between at each try.
const BUSY: i32 = -2;

/// 64 handles of a map of owners are in use.
const FULL: i32 = -3;

/// There was no memory, and the owner that was handed in comes back by a later call.
const OOM_KEPT: i32 = -4;

/// A writer came in between at each try, and the owner that was handed in comes back by a later call.
const BUSY_KEPT: i32 = -5;

/// A key and its value: 16 bytes.
#[repr(C)]
#[derive(Clone, Copy, Drop)]
pub struct Pair {
    pub key: u64,
    pub value: u64,
}

impl RangeEntry for Pair {
    ghost use Rattle.congee_live_c.specs.Pairs.{pair_of};

    ghost pair = { pair_of };

    fn from_pair(key: u64, value: u64) -> Pair {
        Pair { key, value }
    }
}

/// Writes the first handle of a new, empty map to `out` and answers 0, or answers `OOM` and writes nothing. The segments of the
/// map's nodes may take so many bytes together; `u64::MAX` is no limit.
#[unsafe(no_mangle)]
pub extern "C" fn congee_c_live_new(alloc: Global, limit: u64, out: &mut Room) -> i32
    requires { out.old.held ≡ None }
    ensures code { (result ≡ pos 0) ⊎ (result ≡ oom) }
    ensures made { result ≡ pos 0 → IsSome out.new.held }
    ensures unseen { result ≡ pos 0 → IfSome out.new.held (λ held. held.guard.seen ≡ []) }
    ensures limit { result ≡ pos 0 → IfSome out.new.held (λ held. held.guard.book.limit ≡ limit) }
    ensures refused { result ≡ oom → out.new ≡ out.old }
{
    let Ok(held) = Held::first(alloc, limit) else {
        return OOM;
    };
    let Ok(held) = Box::new(alloc, held) else {
        return OOM;
    };
    *out = Room::of(held);
    0
}

/// The limit in bytes that the map was made with, or `u64::MAX`. Takes constant time.
#[unsafe(no_mangle)]
pub extern "C" fn congee_c_live_limit(handle: &mut Handle) -> u64
    ensures limit { result ≡ handle.old.held.guard.book.limit }
    ensures same { handle.new.held ≡ handle.old.held }
    ensures place { handle.new.ptr ≡ handle.old.ptr }
{
    handle.as_mut().pool.map.limit()
}

/// The bytes of the segments that the map has so far, which are within its limit. Takes constant time.
#[unsafe(no_mangle)]
pub extern "C" fn congee_c_live_charged(handle: &mut Handle) -> u64
    ensures within { result ≤ handle.old.held.guard.book.limit }
    ensures same { handle.new.held ≡ handle.old.held }
    ensures place { handle.new.ptr ≡ handle.old.ptr }
{
    handle.as_mut().pool.map.usage().0
}

/// Writes the bytes of the segments that the map has so far to `charged`, and its limit, which they are within, to `limit`.
/// Takes constant time.
#[unsafe(no_mangle)]
pub extern "C" fn congee_c_live_usage(handle: &mut Handle, charged: &mut u64, limit: &mut u64)
    ensures within { charged.new ≤ limit.new }
    ensures limit { limit.new ≡ handle.old.held.guard.book.limit }
    ensures same { handle.new.held ≡ handle.old.held }
    ensures place { handle.new.ptr ≡ handle.old.ptr }
{
    let (bytes, most) = handle.as_mut().pool.map.usage();
    *charged = bytes;
    *limit = most;
}

/// Writes one more handle of the map to `out` and answers 0, or answers `OOM`, writes nothing and changes nothing. Both
/// handles have then seen one history, which begins with what this one had seen.
#[unsafe(no_mangle)]
pub extern "C" fn congee_c_live_another(alloc: Global, handle: &mut Handle, out: &mut Room) -> i32
    requires { out.old.held ≡ None }
    ensures code { (result ≡ pos 0) ⊎ (result ≡ oom) }
    ensures made { result ≡ pos 0 → IsSome out.new.held }
    ensures map { result ≡ pos 0 → IfSome out.new.held (λ held.
        (held.guard.book ≡ handle.old.held.guard.book)
        × (held.guard.caller ≢ handle.old.held.guard.caller)
        × (held.guard.seen ≡ handle.new.held.guard.seen)) }
    ensures seen { result ≡ pos 0 → SeenMore handle.old.held.guard handle.new.held.guard }
    ensures refused { result ≡ oom → (out.new ≡ out.old) × (handle.new.held ≡ handle.old.held) }
    ensures place { handle.new.ptr ≡ handle.old.ptr }
{
    let Ok(held) = handle.as_mut().beside(false) else {
        return OOM;
    };
    let Ok(mut other) = Box::new(alloc, held) else {
        return OOM;
    };
    handle.as_mut().guard.meet(&mut other.guard);
    *out = Room::of(other);
    0
}

/// Frees the handle, and the map with its last one.
#[unsafe(no_mangle)]
pub extern "C" fn congee_c_live_free(handle: Handle) {
    handle.free();
}

/// Writes the value at the key to `value` and answers 1, or answers 0 or `BUSY`. Takes no memory and no lock.
#[unsafe(no_mangle)]
pub extern "C" fn congee_c_live_get(handle: &mut Handle, key: u64, value: &mut u64) -> i32
    ensures code { (result ≡ pos 0) ⊎ (result ≡ pos 1) ⊎ (result ≡ busy) }
    ensures present { result ≡ pos 1 → MadeCall handle.old.held.guard
        (got (ask handle.old.held.guard.caller key 0 0) (Some value.new)) handle.new.held.guard }
    ensures absent { result ≡ pos 0 → MadeCall handle.old.held.guard
        (got (ask handle.old.held.guard.caller key 0 0) None) handle.new.held.guard }
    ensures missed { result ≡ busy → handle.new.held ≡ handle.old.held }
    ensures kept { result ≢ pos 1 → value.new ≡ value.old }
    ensures place { handle.new.ptr ≡ handle.old.ptr }
{
    let held = handle.as_mut();
    match held.pool.map.get(&mut held.guard, key) {
        Ok(Some(found)) => {
            *value = found;
            1
        }
        Ok(None) => 0,
        Err(Busy) => BUSY,
    }
}

/// Sets the key's value. Answers 0 for a new key, and 1 for a present one, whose previous value is written to `before`;
/// or `BUSY`; or `OOM`.
#[unsafe(no_mangle)]
pub extern "C" fn congee_c_live_insert(
    alloc: Global,
    handle: &mut Handle,
    key: u64,
    value: u64,
    before: &mut u64,
) -> i32
    ensures code { (result ≡ pos 0) ⊎ (result ≡ pos 1) ⊎ (result ≡ busy) ⊎ (result ≡ oom) }
    ensures present { result ≡ pos 1 → MadeCall handle.old.held.guard
        (inserted (ask handle.old.held.guard.caller key value 1) (Some before.new))
        handle.new.held.guard }
    ensures absent { result ≡ pos 0 → MadeCall handle.old.held.guard
        (inserted (ask handle.old.held.guard.caller key value 1) None) handle.new.held.guard }
    ensures missed { result ≡ busy → handle.new.held ≡ handle.old.held }
    ensures refused { result ≡ oom → FoundNone handle.old.held.guard key handle.new.held.guard }
    ensures kept { result ≢ pos 1 → before.new ≡ before.old }
    ensures place { handle.new.ptr ≡ handle.old.ptr }
{
    let held = handle.as_mut();
    match held.pool.insert(alloc, &mut held.guard, key, value) {
        Ok(Some(old)) => {
            *before = old;
            1
        }
        Ok(None) => 0,
        Err(Refusal::Busy) => BUSY,
        Err(Refusal::OutOfMemory) => OOM,
    }
}

/// Removes the key. Answers 1 if it was present, with its value in `before`, or 0 or `BUSY`. Needs no memory.
#[unsafe(no_mangle)]
pub extern "C" fn congee_c_live_remove(handle: &mut Handle, key: u64, before: &mut u64) -> i32
    ensures code { (result ≡ pos 0) ⊎ (result ≡ pos 1) ⊎ (result ≡ busy) }
    ensures present { result ≡ pos 1 → MadeCall handle.old.held.guard
        (removed handle.old.held.guard.caller key (Some before.new)) handle.new.held.guard }
    ensures absent { result ≡ pos 0 → MadeCall handle.old.held.guard
        (removed handle.old.held.guard.caller key None) handle.new.held.guard }
    ensures missed { result ≡ busy → handle.new.held ≡ handle.old.held }
    ensures kept { result ≢ pos 1 → before.new ≡ before.old }
    ensures place { handle.new.ptr ≡ handle.old.ptr }
{
    let held = handle.as_mut();
    match held.pool.remove(&mut held.guard, key) {
        Ok(Some(old)) => {
            *before = old;
            1
        }
        Ok(None) => 0,
        Err(Busy) => BUSY,
    }
}

/// If the key's value is `expected`, replaces it by `desired` and answers 1. If it is another, writes it to `found` and
/// answers 2. If the key is absent, answers 0. Or answers `BUSY`. Needs no memory.
#[unsafe(no_mangle)]
pub extern "C" fn congee_c_live_compare_exchange(
    handle: &mut Handle,
    key: u64,
    expected: u64,
    desired: u64,
    found: &mut u64,
) -> i32
    ensures code { (result ≡ pos 0) ⊎ (result ≡ pos 1) ⊎ (result ≡ pos 2) ⊎ (result ≡ busy) }
    ensures absent { result ≡ pos 0 → MadeCall handle.old.held.guard
        (swapped handle.old.held.guard.caller key expected (Some desired) (Err None))
        handle.new.held.guard }
    ensures same { result ≡ pos 1 → MadeCall handle.old.held.guard
        (swapped handle.old.held.guard.caller key expected (Some desired) (Ok (Some desired)))
        handle.new.held.guard }
    ensures other { result ≡ pos 2 → MadeCall handle.old.held.guard
        (swapped handle.old.held.guard.caller key expected (Some desired) (Err (Some found.new)))
        handle.new.held.guard }
    ensures missed { result ≡ busy → handle.new.held ≡ handle.old.held }
    ensures kept { result ≢ pos 2 → found.new ≡ found.old }
    ensures place { handle.new.ptr ≡ handle.old.ptr }
{
    let held = handle.as_mut();
    match held
        .pool
        .compare_exchange(&mut held.guard, key, expected, Some(desired))
    {
        Ok(Ok(_)) => 1,
        Ok(Err(None)) => 0,
        Ok(Err(Some(current))) => {
            *found = current;
            2
        }
        Err(Busy) => BUSY,
    }
}
