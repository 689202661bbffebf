//! Calls that several modules make, and the assertion of many steps.
//!
//! A proof of a test costs by its statements with a branch, and by the values that it owns. So a test owns the map, and a
//! function that borrows it makes the steps. A step's own function says of the guard that it stays one of the map.

ghost use Rattle.std.specs.Prelude.{◌≡◌};

use live_growth::map::{Busy, Congee, Guard, Refusal};
use live_reads::descend::descend;
use live_updates::calls::remove;
use std::alloc::Global;
use std::process::Abort;

/// Asserts that each step holds. The message has the place of the first that doesn't, from 0 on.
pub(crate) fn all_hold(rt: &impl Abort, steps: &[bool]) {
    for (place, held) in steps.iter().enumerate() {
        assert!(rt; *held, "step {place}");
    }
}

/// What a look-up by this guard returns.
pub(crate) fn get(map: &Congee, guard: &mut Guard, key: u64) -> Result<Option<u64>, Busy>
    requires { guard.old.book ≡ map.now }
    ensures { guard.new.book ≡ map.now }
{
    map.get(guard, key)
}

/// What an insertion by this guard returns.
pub(crate) fn insert(
    map: &Congee,
    alloc: Global,
    guard: &mut Guard,
    key: u64,
    value: u64,
) -> Result<Option<u64>, Refusal>
    requires { guard.old.book ≡ map.now }
    ensures { guard.new.book ≡ map.now }
{
    map.insert(&alloc, guard, key, value)
}

/// What a removal by this guard returns.
pub(crate) fn remove_by(map: &Congee, guard: &mut Guard, key: u64) -> Result<Option<u64>, Busy>
    requires { guard.old.book ≡ map.now }
    ensures { guard.new.book ≡ map.now }
{
    remove(map, guard, key)
}

/// The value of a key, by a caller of its own.
pub(crate) fn looked(map: &Congee, key: u64) -> Result<Option<u64>, Busy> {
    let mut guard = map.pin();
    map.get(&mut guard, key)
}

/// What an insertion returns, by a caller of its own.
pub(crate) fn put(
    map: &Congee,
    alloc: Global,
    key: u64,
    value: u64,
) -> Result<Option<u64>, Refusal> {
    let mut guard = map.pin();
    map.insert(&alloc, &mut guard, key, value)
}

/// What a removal returns, by a caller of its own.
pub(crate) fn removed(map: &Congee, key: u64) -> Result<Option<u64>, Busy> {
    let mut guard = map.pin();
    remove(map, &mut guard, key)
}

/// The height of the node at which a key's path ends: 1 at a leaf, 8 at the root. 0 where a writer came in between.
pub(crate) fn end_of(map: &Congee, key: u64) -> usize {
    let mut guard = map.pin();
    match descend(&map.nodes, key, &mut guard.seat) {
        Some(end) => end.position.height,
        None => 0,
    }
}

/// The form of the node at which a key's path ends, by its place among the four. 4 where a writer came in between.
pub(crate) fn form_at(map: &Congee, key: u64) -> u64 {
    let mut guard = map.pin();
    match descend(&map.nodes, key, &mut guard.seat) {
        Some(end) => end.position.name % 256,
        None => 4,
    }
}

/// A map, also where memory is refused once.
pub(crate) fn made(alloc: Global) -> Option<Congee> {
    match Congee::new(alloc) {
        Ok(map) => Some(map),
        Err(_) => Congee::new(alloc).ok(),
    }
}

/// Inserts a key, again where memory is refused or another writer is in the way. Returns whether it was new.
pub(crate) fn is_new(map: &Congee, alloc: Global, guard: &mut Guard, key: u64, value: u64) -> bool
    requires { guard.old.book ≡ map.now }
    ensures { guard.new.book ≡ map.now }
{
    for _ in 0..1_000_000u32 {
        if let Ok(before) = map.insert(&alloc, guard, key, value) {
            return before.is_none();
        }
    }
    false
}

/// Removes a key, again where another writer is in the way. Returns whether it had the value that these functions give it.
pub(crate) fn is_gone(map: &Congee, guard: &mut Guard, key: u64) -> bool
    requires { guard.old.book ≡ map.now }
    ensures { guard.new.book ≡ map.now }
{
    for _ in 0..1_000_000u32 {
        if let Ok(before) = remove(map, guard, key) {
            return before == Some(key ^ 1);
        }
    }
    false
}

/// Inserts as many keys by this guard, each with a value of its own. Returns how many were new.
pub(crate) fn filled_by(
    map: &Congee,
    alloc: Global,
    guard: &mut Guard,
    first: u64,
    step: u64,
    count: u64,
) -> u64
    requires { guard.old.book ≡ map.now }
    ensures { guard.new.book ≡ map.now }
{
    let mut new = 0u64;
    for i in 0..count {
        let key = first.wrapping_add(i.wrapping_mul(step));
        if is_new(map, alloc, guard, key, key ^ 1) {
            new = new.wrapping_add(1);
        }
    }
    new
}

/// Inserts as many keys by a caller of its own, each with a value of its own. Returns how many were new.
pub(crate) fn filled(map: &Congee, alloc: Global, first: u64, step: u64, count: u64) -> u64 {
    let mut guard = map.pin();
    filled_by(map, alloc, &mut guard, first, step, count)
}

/// How many of these keys have their value.
pub(crate) fn found(map: &Congee, first: u64, step: u64, count: u64) -> u64 {
    let mut guard = map.pin();
    let mut right = 0u64;
    for i in 0..count {
        let key = first.wrapping_add(i.wrapping_mul(step));
        if map.get(&mut guard, key) == Ok(Some(key ^ 1)) {
            right = right.wrapping_add(1);
        }
    }
    right
}
