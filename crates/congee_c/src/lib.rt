//! The map from `u64` to `u64` for C and Rust programs. `include/congee.h` declares these functions.
//!
//! C holds a `Handle`, one word that owns a map on the heap. Each call takes it by `&mut`, so C makes one call on a map
//! at a time, reads included. A call doesn't move the map (`place`), so C may keep its address alone.
//!
//! An answer is an `i32`: 0, 1 or 2 with the meaning that each call documents, and -1 if there is no memory.
//!
//! Here are the calls that make a map and get, set and remove one key; `compute`, `near`, `bulk` and `frozen` have the
//! others.
//!
//! Tested in `tools/c-library`.
#![tactic(auto)]

ghost use Rattle.std.specs.Prelude.{◌≡◌, ◌≢◌, ℕ, pos, ◌⊎◌, ◌≤◌, ◌↔◌, ◌++◌, [], Some, None, IfSome, IsSome, IsTrue, length, min, map, take, drop};
ghost use Rattle.spec_map.specs.Map.{lookup, put, without, between};
ghost use Rattle.spec_map.specs.Refusal.{NeedsNode};
ghost use Rattle.node_stats.specs.LevelCounts.{capped};
ghost use Rattle.tree_path.specs.Charge.{charge_of};
ghost use Rattle.tree_edit.specs.TreeCalls.{IsNew};
ghost use Rattle.tree_edit.specs.Tree.{ChargesForNodes, StoresSame};
ghost use Rattle.congee_c.specs.Answer.{is_there, put_if_there, oom};
ghost use Rattle.congee_c.specs.Limit.{limit_of, limit_charge};
ghost use Rattle.node_table.specs.Charge.{budget_charge};

mod bulk;
mod compute;
mod frozen;
mod handle;
mod held;
mod near;
mod room;

pub use frozen::handle::FrozenHandle;
pub use frozen::room::FrozenRoom;
pub use handle::Handle;
use held::Held;
pub use room::Room;
use std::alloc::Global;
use tree_walk::range_scan::RangeEntry;

/// The answer of a call that found no memory.
const OOM: i32 = -1;

/// A key and its value: 16 bytes.
#[repr(C)]
#[derive(Clone, Copy, Drop)]
pub struct Pair {
    pub key: u64,
    pub value: u64,
}

impl RangeEntry for Pair {
    ghost entry = { λ key value. record { key = key; value = value } };

    fn from_pair(key: u64, value: u64) -> Pair {
        Pair { key, value }
    }
}

/// The version of the archive, 100 for 0.1.0: 10000 times its first number, 100 times its second, and its third.
#[unsafe(no_mangle)]
pub extern "C" fn congee_c_version() -> u32
    ensures { result ≡ 100 }
{
    100
}

/// Writes the handle of a new, empty map to `out` and answers 0, or answers `OOM` and writes nothing. The stated sizes
/// of the map's nodes are charged to a limit in bytes, which refuses what goes past it; `u64::MAX` is no limit.
#[unsafe(no_mangle)]
pub extern "C" fn congee_c_new(alloc: Global, limit: u64, out: &mut Room) -> i32
    requires { out.old.held ≡ None }
    ensures code { (result ≡ pos 0) ⊎ (result ≡ oom) }
    ensures made { result ≡ pos 0 → IsSome out.new.held }
    ensures empty { result ≡ pos 0 → IfSome out.new.held (λ held.
        IsNew limit_charge (limit_of limit) held.map) }
    ensures refused { result ≡ oom → out.new ≡ out.old }
{
    let Ok(held) = Held::new(alloc, limit) else {
        return OOM;
    };
    let Ok(handle) = Handle::new(alloc, held) else {
        return OOM;
    };
    *out = Room::of(handle);
    0
}

/// Drops the map, and frees all its memory.
#[unsafe(no_mangle)]
pub extern "C" fn congee_c_free(handle: Handle) {
    handle.free();
}

/// Writes the value at the key to `value` and answers 1, or answers 0. Takes no memory.
#[unsafe(no_mangle)]
pub extern "C" fn congee_c_get(handle: &mut Handle, key: u64, value: &mut u64) -> i32
    ensures code { result ≡ is_there (lookup handle.old.held.map.pairs key) }
    ensures value { value.new
        ≡ put_if_there (lookup handle.old.held.map.pairs key) value.old }
    ensures same { handle.new.held ≡ handle.old.held }
    ensures place { handle.new.ptr ≡ handle.old.ptr }
{
    answer(handle.as_mut().map.get(&key), value)
}

/// Sets the key's value. Answers 0 for a new key, and 1 for a present one, whose previous value is written to `before`.
/// For a new key that needs a node it may find no memory: then it answers `OOM`, and nothing changes.
#[unsafe(no_mangle)]
pub extern "C" fn congee_c_insert(
    handle: &mut Handle,
    key: u64,
    value: u64,
    before: &mut u64,
) -> i32
    ensures code { (result ≡ oom)
        ⊎ (result ≡ is_there (lookup handle.old.held.map.pairs key)) }
    ensures pairs { result ≢ oom
        → handle.new.held.map.pairs ≡ put handle.old.held.map.pairs key value }
    ensures before { result ≢ oom
        → before.new ≡ put_if_there (lookup handle.old.held.map.pairs key) before.old }
    ensures refused { result ≡ oom
        → StoresSame handle.old.held.map handle.new.held.map × (before.new ≡ before.old) }
    ensures rare { result ≡ oom → NeedsNode handle.old.held.map.pairs key }
    ensures charge { ChargesForNodes limit_charge handle.old.held.map handle.new.held.map }
    ensures place { handle.new.ptr ≡ handle.old.ptr }
{
    match handle.as_mut().map.insert(key, value) {
        Ok(previous) => answer(previous, before),
        Err(_) => OOM,
    }
}

/// Removes the key. Answers 1 if it was present, with its previous value in `before`, or 0. Is never refused.
#[unsafe(no_mangle)]
pub extern "C" fn congee_c_remove(handle: &mut Handle, key: u64, before: &mut u64) -> i32
    ensures code { result ≡ is_there (lookup handle.old.held.map.pairs key) }
    ensures before { before.new
        ≡ put_if_there (lookup handle.old.held.map.pairs key) before.old }
    ensures pairs { handle.new.held.map.pairs ≡ without handle.old.held.map.pairs key }
    ensures charge { ChargesForNodes limit_charge handle.old.held.map handle.new.held.map }
    ensures place { handle.new.ptr ≡ handle.old.ptr }
{
    answer(handle.as_mut().map.remove(&key), before)
}

/// If the key's value is `expected`, replaces it by `desired` and answers 1. If it is another, writes it to `found` and
/// answers 2. If the key is absent, answers 0. Takes no memory.
#[unsafe(no_mangle)]
pub extern "C" fn congee_c_compare_exchange(
    handle: &mut Handle,
    key: u64,
    expected: u64,
    desired: u64,
    found: &mut u64,
) -> i32
    ensures absent { lookup handle.old.held.map.pairs key ≡ None
        → (result ≡ pos 0)
        × (handle.new.held.map.pairs ≡ handle.old.held.map.pairs)
        × (found.new ≡ found.old) }
    ensures same { lookup handle.old.held.map.pairs key ≡ Some expected
        → (result ≡ pos 1)
        × (handle.new.held.map.pairs ≡ put handle.old.held.map.pairs key desired)
        × (found.new ≡ found.old) }
    ensures other { (current : ℕ) → lookup handle.old.held.map.pairs key ≡ Some current
        → current ≢ expected
        → (result ≡ pos 2)
        × (handle.new.held.map.pairs ≡ handle.old.held.map.pairs)
        × (found.new ≡ current) }
    ensures charge { ChargesForNodes limit_charge handle.old.held.map handle.new.held.map }
    ensures place { handle.new.ptr ≡ handle.old.ptr }
{
    let held = handle.as_mut();
    match held.map.compare_exchange(&key, &expected, Some(desired)) {
        Ok(_) => 1,
        Err(None) => 0,
        Err(Some(current)) => {
            *found = current;
            2
        }
    }
}

/// Writes the first pairs with keys from `start` on and below `end`, keys ascending, as many as there are or as fit,
/// and answers how many. The rest of the buffer stays. Takes no memory.
#[unsafe(no_mangle)]
pub extern "C" fn congee_c_range(
    handle: &mut Handle,
    start: u64,
    end: u64,
    buffer: &mut [Pair],
) -> usize
    ensures count { result
        ≡ min (length buffer.old) (length (between handle.old.held.map.pairs start end)) }
    ensures written { let pairs = map (λ pair. record { key = pair.0; value = pair.1 })
        (between handle.old.held.map.pairs start end) in
        buffer.new ≡ take result pairs ++ drop result buffer.old }
    ensures same { handle.new.held ≡ handle.old.held }
    ensures place { handle.new.ptr ≡ handle.old.ptr }
{
    handle.as_mut().map.range_of(start, end, buffer)
}

/// Whether there is no pair.
#[unsafe(no_mangle)]
pub extern "C" fn congee_c_is_empty(handle: &mut Handle) -> bool
    ensures empty { IsTrue result ↔ (handle.old.held.map.pairs ≡ []) }
    ensures same { handle.new.held ≡ handle.old.held }
    ensures place { handle.new.ptr ≡ handle.old.ptr }
{
    handle.as_mut().map.is_empty()
}

/// How many pairs there are; saturates at `u64::MAX`. Takes constant time.
#[unsafe(no_mangle)]
pub extern "C" fn congee_c_count(handle: &mut Handle) -> u64
    ensures count { result ≡ capped (length handle.old.held.map.pairs) }
    ensures same { handle.new.held ≡ handle.old.held }
    ensures place { handle.new.ptr ≡ handle.old.ptr }
{
    narrowed(handle.as_mut().map.value_count())
}

/// The sum in bytes of the stated sizes of the map's nodes, which its limit is charged for: 2104 for an empty map.
/// Saturates at `u64::MAX`. Takes constant time.
#[unsafe(no_mangle)]
pub extern "C" fn congee_c_charged(handle: &mut Handle) -> u64
    ensures charge { result ≡ capped (charge_of handle.old.held.map.nodes) }
    ensures bare { handle.old.held.map.pairs ≡ [] → result ≡ 2104 }
    ensures same { handle.new.held ≡ handle.old.held }
    ensures place { handle.new.ptr ≡ handle.old.ptr }
{
    narrowed(handle.as_mut().map.charged())
}

/// The limit in bytes that the map was made with: no more is charged. Takes constant time.
#[unsafe(no_mangle)]
pub extern "C" fn congee_c_limit(handle: &mut Handle) -> u64
    ensures limit { result ≡ (budget_charge handle.old.held.map.budget).limit }
    ensures within { charge_of handle.old.held.map.nodes ≤ result }
    ensures same { handle.new.held ≡ handle.old.held }
    ensures place { handle.new.ptr ≡ handle.old.ptr }
{
    handle.as_mut().map.allocator().limit()
}

// 1 with the value written to the place, or 0.
fn answer(value: Option<u64>, place: &mut u64) -> i32
    ensures code { result ≡ is_there value }
    ensures place { place.new ≡ put_if_there value place.old }
{
    match value {
        Some(value) => {
            *place = value;
            1
        }
        None => 0,
    }
}

// The number; saturates at `u64::MAX`.
fn narrowed(number: u128) -> u64
    ensures { result ≡ capped number }
{
    u64::try_from(number).unwrap_or(u64::MAX)
}
