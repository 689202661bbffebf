//! A budget that refuses now and then.

ghost use Rattle.std.specs.Prelude.{None};

use congee_owned::{Allocator, Congee, NodeSize, OOMError};
use congee_tree::sorted_pairs::SortedPairs;
use std::alloc::Global;
use std::sync::atomic::{AtomicU64, Ordering};
use std::test::Fail;

// A number that looks like no neighbour's.
fn scattered(i: u64) -> u64 {
    let x = i.wrapping_add(1).wrapping_mul(0x9e37_79b9_7f4a_7c15);
    let y = (x ^ x.wrapping_shr(30)).wrapping_mul(0xbf58_476d_1ce4_e5b9);
    y ^ y.wrapping_shr(27)
}

// A key of a few at each byte of which one differs from the others, so that leaves empty again and again.
fn crowded(i: u64) -> u64 {
    let x = scattered(i);
    (x % 6).wrapping_shl(8 * (x.wrapping_shr(16) % 8) as u32)
}

/// Refuses every second request. Counts the bytes that are granted and not yet freed.
#[derive(Drop)]
struct Fickle<'a> {
    requests: &'a AtomicU64,
    held: &'a AtomicU64,
}

impl Allocator for Fickle<'_> {
    ghost charge = { λ _. None };

    fn allocate(&mut self, size: NodeSize) -> Result<(), OOMError> {
        if self.requests.fetch_add(1, Ordering::Relaxed) % 2 == 1 {
            return Err(OOMError::new());
        }
        self.held.fetch_add(size.bytes(), Ordering::Relaxed);
        Ok(())
    }

    fn deallocate(&mut self, size: NodeSize) {
        self.held.fetch_sub(size.bytes(), Ordering::Relaxed);
    }
}

type FickleMap<'a> = Congee<u64, u64, Fickle<'a>>;

// A call of each kind, at a key of a few. Returns the previous value, or `None` where memory is refused.
fn make(map: &mut FickleMap<'_>, key: u64, value: u64) -> Option<Option<u64>> {
    match value % 5 {
        0 => Some(map.remove(&key)),
        1 => Some(map.get(&key)),
        2 => map
            .compute_or_insert(key, &mut |_standing: Option<u64>| value)
            .ok(),
        _ => map.insert(key, value).ok(),
    }
}

// Makes the call of `make` on the plain map. Returns the previous value.
fn make_plain(plain: &mut SortedPairs<u64>, key: u64, value: u64) -> Option<u64> {
    match value % 5 {
        0 => plain.remove(key),
        1 => plain.get(key).copied(),
        _ => plain.insert(key, value).unwrap_or(None),
    }
}

// Makes the call of this value on both maps, a refused one on the first alone. Whether it was refused, `None` if the
// replies or the key's values aren't the same.
fn is_refused(map: &mut FickleMap<'_>, plain: &mut SortedPairs<u64>, value: u64) -> Option<bool> {
    let key = crowded(value);
    let made = make(map, key, value);
    let same = match made {
        Some(before) => before == make_plain(plain, key, value),
        None => true,
    };
    if same && map.get(&key) == plain.get(key).copied() {
        Some(made.is_none())
    } else {
        None
    }
}

// Makes 2000 calls. How many were refused, `None` if one isn't right, or the map isn't charged what its allocator counts.
fn refused(map: &mut FickleMap<'_>, plain: &mut SortedPairs<u64>, held: &AtomicU64) -> Option<u64> {
    let mut refused = 0u64;
    for value in 0..2000u64 {
        if is_refused(map, plain, value)? {
            refused = refused.wrapping_add(1);
        }
        if map.charged() != u128::from(held.load(Ordering::Relaxed)) {
            return None;
        }
    }
    Some(refused)
}

fn refused_by_fickle(alloc: Global, held: &AtomicU64) -> Result<Option<u64>, OOMError> {
    let requests = &AtomicU64::new(0);
    let mut map = Congee::new(alloc, Fickle { requests, held })?;
    Ok(refused(&mut map, &mut SortedPairs::new(alloc), held))
}

// Whether more than a hundred calls are refused, and all that is charged is uncharged at the map's drop.
fn is_fickle(alloc: Global) -> Result<bool, OOMError> {
    let held = AtomicU64::new(0);
    let refused = refused_by_fickle(alloc, &held)?.unwrap_or(0);
    Ok(refused > 100 && held.load(Ordering::Relaxed) == 0)
}

#[test]
fn every_second_request_refused(rt: HostRuntime) -> Result<(), Fail> {
    assert!(rt; is_fickle(rt.alloc())?);
    Ok(())
}
