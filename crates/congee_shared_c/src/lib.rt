//! A map from `u64` to `u64` that the threads of a C or Rust program share, each by a handle of its own.
//!
//! A call tries the lock of its key's shard a bounded number of times, or those of all shards. If one is taken each time,
//! the call answers `BUSY`, and nothing has changed. Else its reply is the map's at the end of one legal history, which begins with what this handle had seen
//! (`MadeCall`). A call doesn't move what a handle holds (`place`), so C may keep its address alone.
//!
//! An answer is an `i32`: 0, 1 or 2 with the meaning that each call documents, `OOM` or `BUSY`.
//!
//! Here are the calls that make a map and its handles, and get, set and remove one key. `computed`, `ends`, `ranges` and
//! `whole` have the others.
//!
//! Tested in `tools/c-library`.
#![tactic(auto)]

ghost use Rattle.std.specs.Prelude.{◌≡◌, ◌≢◌, ◌⊎◌, [], Some, None, Ok, Err, IfSome, IsSome, pos};
ghost use Rattle.spec_map.specs.Call.{compare_exchange, exchanged, get, insert, remove, old_value};
ghost use Rattle.spec_olc.specs.Runs.{same_number};
ghost use Rattle.share_rule.specs.Known.{MadeCall, SeenMore};
ghost use Rattle.share_works.specs.Made.{returned};
ghost use Rattle.congee_shared_c.specs.Answer.{oom, busy};

mod computed;
mod ends;
mod handle;
mod held;
mod ranges;
mod room;
mod whole;

pub use handle::Handle;
use held::Held;
pub use room::Room;
use share_calls::guard::{Guard, Missed};
use std::alloc::Global;
use tree_walk::range_scan::RangeEntry;

/// There was no memory.
const OOM: i32 = -1;

/// A lock that the call needs was taken at each try.
const BUSY: i32 = -2;

/// A key and its value: 16 bytes.
#[repr(C)]
#[derive(Clone, Copy, Drop)]
pub struct Pair {
    pub key: u64,
    pub value: u64,
}

impl RangeEntry for Pair {
    ghost entry = { λ key value. record { key = key; value = value } };

    fn from_pair(key: u64, value: u64) -> Pair {
        Pair { key, value }
    }
}

/// Writes the first handle of a new, empty map under one lock to `out` and answers 0, or answers `OOM` and writes nothing.
/// The stated sizes of the map's nodes are charged to a limit in bytes, which refuses what goes past it; `u64::MAX` is no
/// limit.
#[unsafe(no_mangle)]
pub extern "C" fn congee_c_shared_new(alloc: Global, limit: u64, out: &mut Room) -> i32
    requires { out.old.held ≡ None }
    ensures code { (result ≡ pos 0) ⊎ (result ≡ oom) }
    ensures made { result ≡ pos 0 → IsSome out.new.held }
    ensures unseen { result ≡ pos 0 → IfSome out.new.held (λ held. held.guard.seen ≡ []) }
    ensures shards { result ≡ pos 0
        → IfSome out.new.held (λ held. held.guard.table.slots ≡ 1) }
    ensures refused { result ≡ oom → out.new ≡ out.old }
{
    let Ok(guard) = Guard::first(alloc, limit) else {
        return OOM;
    };
    let Ok(handle) = Handle::new(alloc, Held { guard }) else {
        return OOM;
    };
    *out = Room::of(handle);
    0
}

/// Writes the first handle of a new, empty map in 64 shards, a lock each, to `out` and answers 0, or answers `OOM` and writes
/// nothing. Keys that differ in their last byte alone share one. Each has a 64th of the limit, rounded down, for all its nodes.
#[unsafe(no_mangle)]
pub extern "C" fn congee_c_shared_new_sharded(alloc: Global, limit: u64, out: &mut Room) -> i32
    requires { out.old.held ≡ None }
    ensures code { (result ≡ pos 0) ⊎ (result ≡ oom) }
    ensures made { result ≡ pos 0 → IsSome out.new.held }
    ensures unseen { result ≡ pos 0 → IfSome out.new.held (λ held. held.guard.seen ≡ []) }
    ensures shards { result ≡ pos 0
        → IfSome out.new.held (λ held. held.guard.table.slots ≡ 64) }
    ensures refused { result ≡ oom → out.new ≡ out.old }
{
    let Ok(guard) = Guard::first_sharded(alloc, limit) else {
        return OOM;
    };
    let Ok(handle) = Handle::new(alloc, Held { guard }) else {
        return OOM;
    };
    *out = Room::of(handle);
    0
}

/// Writes one more handle of the map to `out` and answers 0, or answers `OOM` and writes nothing. Both handles have then
/// seen one history, which begins with what this one had seen.
#[unsafe(no_mangle)]
pub extern "C" fn congee_c_shared_another(alloc: Global, handle: &mut Handle, out: &mut Room) -> i32
    requires { out.old.held ≡ None }
    ensures code { (result ≡ pos 0) ⊎ (result ≡ oom) }
    ensures made { result ≡ pos 0 → IsSome out.new.held }
    ensures map { result ≡ pos 0 → IfSome out.new.held (λ held.
        (held.guard.table ≡ handle.old.held.guard.table)
        × (held.guard.seen ≡ handle.new.held.guard.seen)) }
    ensures refused { result ≡ oom → out.new ≡ out.old }
    ensures seen { SeenMore same_number handle.old.held.guard handle.new.held.guard }
    ensures place { handle.new.ptr ≡ handle.old.ptr }
{
    let Ok(guard) = handle.as_mut().guard.another() else {
        return OOM;
    };
    let Ok(other) = Handle::new(alloc, Held { guard }) else {
        return OOM;
    };
    *out = Room::of(other);
    0
}

/// Both handles, of one map, have then seen one history, which begins with what each had seen.
#[unsafe(no_mangle)]
pub extern "C" fn congee_c_shared_meet(handle: &mut Handle, other: &mut Handle)
    requires map { other.old.held.guard.table ≡ handle.old.held.guard.table }
    ensures first { SeenMore same_number handle.old.held.guard handle.new.held.guard }
    ensures second { SeenMore same_number other.old.held.guard other.new.held.guard }
    ensures one { handle.new.held.guard.seen ≡ other.new.held.guard.seen }
    ensures differ { handle.old.held.guard.caller ≢ other.old.held.guard.caller }
    ensures place { handle.new.ptr ≡ handle.old.ptr }
    ensures second_place { other.new.ptr ≡ other.old.ptr }
{
    handle.as_mut().guard.meet(&mut other.as_mut().guard);
}

/// Frees the handle, and the map with its last one.
#[unsafe(no_mangle)]
pub extern "C" fn congee_c_shared_free(handle: Handle) {
    handle.free();
}

/// Writes the value at the key to `value` and answers 1, or answers 0 or `BUSY`. Takes no memory.
#[unsafe(no_mangle)]
pub extern "C" fn congee_c_shared_get(handle: &mut Handle, key: u64, value: &mut u64) -> i32
    ensures code { (result ≡ pos 0) ⊎ (result ≡ pos 1) ⊎ (result ≡ busy) }
    ensures present { result ≡ pos 1 → MadeCall same_number handle.old.held.guard
        (returned (get key) (old_value (Some value.new))) handle.new.held.guard }
    ensures absent { result ≡ pos 0 → MadeCall same_number handle.old.held.guard
        (returned (get key) (old_value None)) handle.new.held.guard }
    ensures missed { result ≡ busy → handle.new.held ≡ handle.old.held }
    ensures kept { result ≢ pos 1 → value.new ≡ value.old }
    ensures place { handle.new.ptr ≡ handle.old.ptr }
{
    answer(handle.as_mut().guard.get(key), value)
}

/// Sets the key's value. Answers 0 for a new key, and 1 for a present one, whose previous value is written to `before`;
/// or `BUSY`; or `OOM`, for a new key.
#[unsafe(no_mangle)]
pub extern "C" fn congee_c_shared_insert(
    handle: &mut Handle,
    key: u64,
    value: u64,
    before: &mut u64,
) -> i32
    ensures code { (result ≡ pos 0) ⊎ (result ≡ pos 1) ⊎ (result ≡ busy) ⊎ (result ≡ oom) }
    ensures present { result ≡ pos 1 → MadeCall same_number handle.old.held.guard
        (returned (insert key value) (old_value (Some before.new))) handle.new.held.guard }
    ensures absent { result ≡ pos 0 → MadeCall same_number handle.old.held.guard
        (returned (insert key value) (old_value None)) handle.new.held.guard }
    ensures missed { (result ≡ busy) ⊎ (result ≡ oom) → handle.new.held ≡ handle.old.held }
    ensures kept { result ≢ pos 1 → before.new ≡ before.old }
    ensures place { handle.new.ptr ≡ handle.old.ptr }
{
    answer(handle.as_mut().guard.insert(key, value), before)
}

/// Removes the key. Answers 1 if it was present, with its value in `before`, or 0 or `BUSY`. Is never refused.
#[unsafe(no_mangle)]
pub extern "C" fn congee_c_shared_remove(handle: &mut Handle, key: u64, before: &mut u64) -> i32
    ensures code { (result ≡ pos 0) ⊎ (result ≡ pos 1) ⊎ (result ≡ busy) }
    ensures present { result ≡ pos 1 → MadeCall same_number handle.old.held.guard
        (returned (remove key) (old_value (Some before.new))) handle.new.held.guard }
    ensures absent { result ≡ pos 0 → MadeCall same_number handle.old.held.guard
        (returned (remove key) (old_value None)) handle.new.held.guard }
    ensures missed { result ≡ busy → handle.new.held ≡ handle.old.held }
    ensures kept { result ≢ pos 1 → before.new ≡ before.old }
    ensures place { handle.new.ptr ≡ handle.old.ptr }
{
    answer(handle.as_mut().guard.remove(key), before)
}

/// If the key's value is `expected`, replaces it by `desired` and answers 1. If it is another, writes it to `found` and
/// answers 2. If the key is absent, answers 0. Or answers `BUSY`. Takes no memory.
#[unsafe(no_mangle)]
pub extern "C" fn congee_c_shared_compare_exchange(
    handle: &mut Handle,
    key: u64,
    expected: u64,
    desired: u64,
    found: &mut u64,
) -> i32
    ensures code { (result ≡ pos 0) ⊎ (result ≡ pos 1) ⊎ (result ≡ pos 2) ⊎ (result ≡ busy) }
    ensures absent { result ≡ pos 0 → MadeCall same_number handle.old.held.guard
        (returned (compare_exchange key expected (Some desired)) (exchanged (Err None)))
        handle.new.held.guard }
    ensures same { result ≡ pos 1 → MadeCall same_number handle.old.held.guard
        (returned (compare_exchange key expected (Some desired)) (exchanged (Ok (Some desired))))
        handle.new.held.guard }
    ensures other { result ≡ pos 2 → MadeCall same_number handle.old.held.guard
        (returned (compare_exchange key expected (Some desired)) (exchanged (Err (Some found.new))))
        handle.new.held.guard }
    ensures missed { result ≡ busy → handle.new.held ≡ handle.old.held }
    ensures kept { result ≢ pos 2 → found.new ≡ found.old }
    ensures place { handle.new.ptr ≡ handle.old.ptr }
{
    let guard = &mut handle.as_mut().guard;
    match guard.compare_exchange(key, expected, Some(desired)) {
        Ok(Ok(_)) => 1,
        Ok(Err(None)) => 0,
        Ok(Err(Some(current))) => {
            *found = current;
            2
        }
        Err(_) => BUSY,
    }
}

// 1 with the value written to the place, or 0, or why the call wasn't made.
fn answer(found: Result<Option<u64>, Missed>, place: &mut u64) -> i32
    ensures code { (result ≡ pos 0) ⊎ (result ≡ pos 1) ⊎ (result ≡ busy) ⊎ (result ≡ oom) }
    ensures present { result ≡ pos 1 → found ≡ Ok (Some place.new) }
    ensures absent { result ≡ pos 0 → found ≡ Ok None }
    ensures busy { result ≡ busy → found ≡ Err Missed.Busy }
    ensures oom { result ≡ oom → found ≡ Err Missed.Oom }
    ensures kept { result ≢ pos 1 → place.new ≡ place.old }
{
    match found {
        Ok(Some(value)) => {
            *place = value;
            1
        }
        Ok(None) => 0,
        Err(Missed::Busy) => BUSY,
        Err(Missed::Oom) => OOM,
    }
}
