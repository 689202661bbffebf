//! A map that nobody changes, read by several threads at once, each by a handle of its own.
//!
//! A map is frozen where it is on the heap: none of its nodes moves or is copied. Each reader has a share of it, and the
//! last one takes it out again.
//!
//! Tested in `tools/c-library`.

ghost use Rattle.std.specs.Prelude.{◌≡◌, pos, ◌⊎◌, ◌+◌, ◌++◌, None, Some, IfSome, IsSome, length, min, map, take, drop, reverse};
ghost use Rattle.spec_map.specs.Map.{lookup, between};
ghost use Rattle.node_stats.specs.LevelCounts.{capped};
ghost use Rattle.congee_c.specs.Answer.{is_there, put_if_there, oom};
ghost use Rattle.congee_c.specs.Frozen.{pairs_of, IsReaderOf, ReadSame};

pub mod handle;
pub mod reader;
pub mod room;

use crate::handle::Handle;
use crate::room::Room;
use crate::{OOM, Pair, answer, narrowed};
use handle::FrozenHandle;
use reader::Reader;
use room::FrozenRoom;
use std::alloc::Global;

/// Freezes the map: writes the handle of its first reader to `out` and answers 0. Or answers `OOM`, and writes the
/// handle of the map, as it was, to `back`. Takes two small blocks, and moves and copies no node.
#[unsafe(no_mangle)]
pub extern "C" fn congee_c_freeze(
    alloc: Global,
    handle: Handle,
    out: &mut FrozenRoom,
    back: &mut Room,
) -> i32
    requires out { out.old.reader ≡ None }
    requires back { back.old.held ≡ None }
    ensures code { (result ≡ pos 0) ⊎ (result ≡ oom) }
    ensures made { result ≡ pos 0 → IsSome out.new.reader × (back.new ≡ back.old) }
    ensures map { result ≡ pos 0 → IfSome out.new.reader (λ reader. IsReaderOf reader handle.held) }
    ensures refused { result ≡ oom → (back.new.held ≡ Some handle.held) × (out.new ≡ out.old) }
{
    // (each request for memory comes before the map is given away)
    let Ok(mut frozen) = FrozenHandle::new(alloc, Reader::Empty) else {
        *back = Room::of(handle);
        return OOM;
    };
    match Reader::first(alloc, handle.into_box()) {
        Ok(reader) => {
            *frozen.as_mut() = reader;
            *out = FrozenRoom::of(frozen);
            0
        }
        Err(held) => {
            frozen.free();
            *back = Room::of(Handle::of_box(held));
            OOM
        }
    }
}

/// Writes the handle of one more reader of the map to `out` and answers 0, or answers `OOM` and writes nothing.
#[unsafe(no_mangle)]
pub extern "C" fn congee_c_frozen_another(
    alloc: Global,
    frozen: &mut FrozenHandle,
    out: &mut FrozenRoom,
) -> i32
    requires { out.old.reader ≡ None }
    ensures code { (result ≡ pos 0) ⊎ (result ≡ oom) }
    ensures made { result ≡ pos 0 → IsSome out.new.reader }
    ensures map { result ≡ pos 0 → IfSome out.new.reader (λ other. ReadSame other frozen.old.reader) }
    ensures refused { result ≡ oom → out.new ≡ out.old }
    ensures same { frozen.new.reader ≡ frozen.old.reader }
    ensures place { frozen.new.ptr ≡ frozen.old.ptr }
{
    let Some(reader) = frozen.as_mut().another() else {
        return OOM;
    };
    let Ok(other) = FrozenHandle::new(alloc, reader) else {
        return OOM;
    };
    *out = FrozenRoom::of(other);
    0
}

/// Takes the map out if this is its last reader: writes the map's handle to `out`, frees the reader and answers 1. Or
/// answers 0, and writes the reader's handle, as it was, to `back`. Takes no memory.
#[unsafe(no_mangle)]
pub extern "C" fn congee_c_thaw(frozen: FrozenHandle, out: &mut Room, back: &mut FrozenRoom) -> i32
    requires out { out.old.held ≡ None }
    requires back { back.old.reader ≡ None }
    ensures code { (result ≡ pos 0) ⊎ (result ≡ pos 1) }
    ensures thawed { result ≡ pos 1 → IsSome out.new.held × (back.new ≡ back.old) }
    ensures map { result ≡ pos 1 → IfSome out.new.held (λ held. IsReaderOf frozen.reader held) }
    ensures shared { result ≡ pos 0
        → (back.new.reader ≡ Some frozen.reader) × (out.new ≡ out.old) }
{
    let mut frozen = frozen;
    let Some(held) = frozen.as_mut().thaw() else {
        *back = FrozenRoom::of(frozen);
        return 0;
    };
    frozen.free();
    *out = Room::of(Handle::of_box(held));
    1
}

/// Frees the reader, and the map with its last one.
#[unsafe(no_mangle)]
pub extern "C" fn congee_c_frozen_free(frozen: FrozenHandle) {
    frozen.free();
}

/// Writes the value at the key to `value` and answers 1, or answers 0. Takes no memory.
#[unsafe(no_mangle)]
pub extern "C" fn congee_c_frozen_get(frozen: &mut FrozenHandle, key: u64, value: &mut u64) -> i32
    ensures code { result ≡ is_there (lookup (pairs_of frozen.old.reader) key) }
    ensures value { value.new
        ≡ put_if_there (lookup (pairs_of frozen.old.reader) key) value.old }
    ensures same { frozen.new.reader ≡ frozen.old.reader }
    ensures place { frozen.new.ptr ≡ frozen.old.ptr }
{
    match frozen.as_mut().held() {
        Some(held) => answer(held.map.get(&key), value),
        None => 0,
    }
}

/// Writes the first pairs with keys from `start` on and below `end`, keys ascending, as many as there are or as fit,
/// and answers how many. The rest of the buffer stays. Takes no memory.
#[unsafe(no_mangle)]
pub extern "C" fn congee_c_frozen_range(
    frozen: &mut FrozenHandle,
    start: u64,
    end: u64,
    buffer: &mut [Pair],
) -> usize
    ensures count { result ≡ min (length buffer.old)
        (length (between (pairs_of frozen.old.reader) start end)) }
    ensures written { let pairs = map (λ pair. record { key = pair.0; value = pair.1 })
        (between (pairs_of frozen.old.reader) start end) in
        buffer.new ≡ take result pairs ++ drop result buffer.old }
    ensures same { frozen.new.reader ≡ frozen.old.reader }
    ensures place { frozen.new.ptr ≡ frozen.old.ptr }
{
    match frozen.as_mut().held() {
        Some(held) => held.map.range_of(start, end, buffer),
        None => 0,
    }
}

/// Writes the first pairs with keys from `start` to `last`, both included, keys ascending, as many as there are or as
/// fit, and answers how many. The rest of the buffer stays. Takes no memory.
#[unsafe(no_mangle)]
pub extern "C" fn congee_c_frozen_range_inclusive(
    frozen: &mut FrozenHandle,
    start: u64,
    last: u64,
    buffer: &mut [Pair],
) -> usize
    ensures count { result ≡ min (length buffer.old)
        (length (between (pairs_of frozen.old.reader) start (last + 1))) }
    ensures written { let pairs = map (λ pair. record { key = pair.0; value = pair.1 })
        (between (pairs_of frozen.old.reader) start (last + 1)) in
        buffer.new ≡ take result pairs ++ drop result buffer.old }
    ensures same { frozen.new.reader ≡ frozen.old.reader }
    ensures place { frozen.new.ptr ≡ frozen.old.ptr }
{
    match frozen.as_mut().held() {
        Some(held) => held.map.range_inclusive_of(start, last, buffer),
        None => 0,
    }
}

/// Writes the last pairs with keys from `start` to `last`, both included, keys descending, as many as there are or as
/// fit, and answers how many. The rest of the buffer stays. Takes no memory.
#[unsafe(no_mangle)]
pub extern "C" fn congee_c_frozen_range_descending(
    frozen: &mut FrozenHandle,
    start: u64,
    last: u64,
    buffer: &mut [Pair],
) -> usize
    ensures count { result ≡ min (length buffer.old)
        (length (between (pairs_of frozen.old.reader) start (last + 1))) }
    ensures written { let pairs = map (λ pair. record { key = pair.0; value = pair.1 })
        (reverse (between (pairs_of frozen.old.reader) start (last + 1))) in
        buffer.new ≡ take result pairs ++ drop result buffer.old }
    ensures same { frozen.new.reader ≡ frozen.old.reader }
    ensures place { frozen.new.ptr ≡ frozen.old.ptr }
{
    match frozen.as_mut().held() {
        Some(held) => held.map.range_descending_of(start, last, buffer),
        None => 0,
    }
}

/// How many pairs there are; saturates at `u64::MAX`. Takes constant time.
#[unsafe(no_mangle)]
pub extern "C" fn congee_c_frozen_count(frozen: &mut FrozenHandle) -> u64
    ensures count { result ≡ capped (length (pairs_of frozen.old.reader)) }
    ensures same { frozen.new.reader ≡ frozen.old.reader }
    ensures place { frozen.new.ptr ≡ frozen.old.ptr }
{
    match frozen.as_mut().held() {
        Some(held) => narrowed(held.map.value_count()),
        None => 0,
    }
}
