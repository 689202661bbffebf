//! Maps that go both ways: empty ones, and near, far and greatest keys. Each payload is dropped once, with the last map.
//!
//! The test passes whichever allocation is refused. A payload for which memory is refused is dropped, and another is made.
ghost use Rattle.std.specs.Prelude.{IfSome};
ghost use Rattle.live_payloads.specs.Payloads.{IsGuardOf};

use face_payloads::congee_arc;
use live_payloads::live::{CongeeArc, PayloadGuard};
use std::alloc::Global;
use std::sync::atomic::AtomicU64;
use std::sync::atomic::Ordering::SeqCst;
use std::sync::{Arc, Wait};

/// A number, whose drop is counted.
struct Counted<'a> {
    number: u64,
    drops: &'a AtomicU64,
}

impl<'a> Drop for Counted<'a> {
    fn drop(self) {
        let Self { number: _, drops } = self;
        drops.fetch_add(1, SeqCst);
    }
}

type Map<'a> = CongeeArc<u64, Counted<'a>>;

type Guard<'a> = PayloadGuard<Arc<Counted<'a>>>;

type Owned<'a> = congee_arc::CongeeArc<u64, Counted<'a>>;

/// Keys at the same distance: the first one, the distance, and how many. Each gets a payload of its own.
#[derive(Clone, Copy)]
struct Keys {
    first: u64,
    step: u64,
    count: u64,
}

/// None, one, and more, side by side or far from one another.
const KEYS: [Keys; 4] = [
    Keys {
        first: 0,
        step: 1,
        count: 0,
    },
    Keys {
        first: u64::MAX,
        step: 1,
        count: 1,
    },
    Keys {
        first: 250,
        step: 1,
        count: 300,
    },
    Keys {
        first: 7,
        step: 0x9e37_79b9_7f4a_7c15,
        count: 100,
    },
];

// A map, also where memory is refused once.
fn made<'a>(alloc: Global) -> Option<Map<'a>> {
    match Map::new(alloc) {
        Ok(map) => Some(map),
        Err(_) => Map::new(alloc).ok(),
    }
}

// A payload, also where memory is refused once.
fn payload_of(alloc: Global, number: u64, drops: &AtomicU64) -> Option<Arc<Counted<'_>>> {
    match Arc::new(alloc, Counted { number, drops }) {
        Ok(payload) => Some(payload),
        Err(_) => Arc::new(alloc, Counted { number, drops }).ok(),
    }
}

// Inserts a payload. What comes back is inserted again.
fn entered<'a, R: Wait>(
    rt: &R,
    alloc: Global,
    map: &Map<'a>,
    guard: &mut Guard<'a>,
    key: u64,
    payload: Arc<Counted<'a>>,
) -> bool
    requires { IsGuardOf map.now guard.old }
    ensures { IsGuardOf map.now guard.new }
{
    let back = match map.insert(rt, alloc, guard, key, payload) {
        Ok(before) => return before.is_none(),
        Err(failed) => failed.value,
    };
    match map.insert(rt, alloc, guard, key, back) {
        Ok(before) => before.is_none(),
        Err(_) => false,
    }
}

// Inserts the keys. Whether each was new.
fn filled<'a, R: Wait>(
    rt: &R,
    alloc: Global,
    map: &Map<'a>,
    guard: &mut Guard<'a>,
    keys: Keys,
    drops: &'a AtomicU64,
) -> bool
    requires { IsGuardOf map.now guard.old }
    ensures { IsGuardOf map.now guard.new }
{
    let mut key = keys.first;
    for _ in 0..keys.count {
        let Some(payload) = payload_of(alloc, key ^ 9, drops) else {
            return false;
        };
        if !entered(rt, alloc, map, guard, key, payload) {
            return false;
        }
        key = key.wrapping_add(keys.step);
    }
    true
}

// How many of the keys have their own payload, among threads.
fn found<'a, R: Wait>(rt: &R, map: &Map<'a>, guard: &mut Guard<'a>, keys: Keys) -> u64
    requires { IsGuardOf map.now guard.old }
    ensures { IsGuardOf map.now guard.new }
{
    let mut key = keys.first;
    let mut right = 0u64;
    for _ in 0..keys.count {
        if let Some(lent) = map.get(rt, guard, &key) {
            if lent.get().number == key ^ 9 {
                right = right.wrapping_add(1);
            }
        }
        key = key.wrapping_add(keys.step);
    }
    right
}

// How many of the keys have their own payload, with an owner, by their numbers.
fn owned_found(owned: &Owned<'_>, keys: Keys) -> u64 {
    let mut key = keys.first;
    let mut right = 0u64;
    for _ in 0..keys.count {
        if let Some(payload) = owned.get_by_number(key) {
            if payload.number == key ^ 9 {
                right = right.wrapping_add(1);
            }
        }
        key = key.wrapping_add(keys.step);
    }
    right
}

// How many keys are listed, by both calls, or by one where memory is refused to the other.
fn listed<'a, R: Wait>(rt: &R, alloc: Global, map: &Map<'a>, guard: &mut Guard<'a>) -> Option<usize>
    requires { IsGuardOf map.now guard.old }
    ensures { IsGuardOf map.now guard.new }
{
    let tried = map.try_keys(alloc, guard).ok();
    let waited = map.keys(rt, alloc, guard).ok();
    match (tried, waited) {
        (Some(tried), Some(waited)) => {
            if tried == waited {
                Some(waited.len())
            } else {
                None
            }
        }
        (Some(keys), None) => Some(keys.len()),
        (None, Some(keys)) => Some(keys.len()),
        (None, None) => None,
    }
}

// The map with one owner. Where memory is refused, the map has all keys, and is moved again.
fn gone_out<'a, R: Wait>(
    rt: &R,
    alloc: Global,
    map: Map<'a>,
    guard: &mut Guard<'a>,
    keys: Keys,
) -> Option<Owned<'a>>
    requires { IsGuardOf map guard.old }
{
    let map = match map.into_owned(rt, alloc, guard) {
        Ok(owned) => return Some(owned),
        Err(failed) => failed.value,
    };
    if found(rt, &map, guard, keys) != keys.count {
        return None;
    }
    match map.into_owned(rt, alloc, guard) {
        Ok(owned) => Some(owned),
        Err(_) => None,
    }
}

// The map for threads. Where memory is refused, the map with an owner has all keys, and is moved again.
fn come_in<'a, R: Wait>(
    rt: &R,
    alloc: Global,
    owned: Owned<'a>,
    keys: Keys,
) -> Option<(Map<'a>, Guard<'a>)>
    ensures { IfSome result (λ both. IsGuardOf both.0 both.1) }
{
    let owned = match Map::from_owned(rt, alloc, owned) {
        Ok(both) => return Some(both),
        Err(failed) => failed.value,
    };
    if owned_found(&owned, keys) != keys.count {
        return None;
    }
    match Map::from_owned(rt, alloc, owned) {
        Ok(both) => Some(both),
        Err(_) => None,
    }
}

// How many of the keys have their own payload with an owner, if there are no more. The second time where memory is refused once.
fn all_owned(owned: &Owned<'_>, keys: Keys) -> Option<u64> {
    let count = match owned.numbers() {
        Ok(numbers) => numbers.len(),
        Err(_) => owned.numbers().ok()?.len(),
    };
    if count as u64 != keys.count {
        return None;
    }
    Some(owned_found(owned, keys))
}

// How many of the keys have their own payload after both ways, if there are no more, and none was dropped. They all did on
// the way, too.
fn kept<R: Wait>(rt: &R, alloc: Global, keys: Keys, drops: &AtomicU64) -> Option<u64> {
    let map = made(alloc)?;
    let mut guard = map.pin();
    let new = filled(rt, alloc, &map, &mut guard, keys, drops);
    let before = drops.load(SeqCst);
    let count = listed(rt, alloc, &map, &mut guard)?;
    let owned = gone_out(rt, alloc, map, &mut guard, keys)?;
    let out = all_owned(&owned, keys)?;
    let (map, guard) = come_in(rt, alloc, owned, keys)?;
    let mut guard = guard;
    let all = map.value_count(rt, &mut guard) == keys.count as u128;
    if !new || !all || out != keys.count || count as u64 != out || drops.load(SeqCst) != before {
        return None;
    }
    Some(found(rt, &map, &mut guard, keys))
}

#[test]
fn payloads_go_both_ways(rt: HostRuntime) {
    for keys in KEYS {
        let drops = AtomicU64::new(0);
        assert!(rt; kept(&rt, rt.alloc(), keys, &drops) == Some(keys.count));
        let dropped = drops.load(SeqCst);
        assert!(rt; dropped == keys.count || dropped == keys.count.wrapping_add(1));
    }
}
