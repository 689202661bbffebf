//! What maps free: the sizes of their nodes, in an allocator whose count outlives them, and the owners that they hold.

use super::counted::{Counted, Counts, Tally};
use congee_owned::{Budget, Congee, CongeeArc, OOMError, U64Congee};
use std::alloc::Global;
use std::sync::Arc;
use std::sync::atomic::{AtomicU64, Ordering};
use std::test::Fail;

type CountedMap<'a> = Congee<u64, u64, Counted<'a>, Tally<'a>>;

// A map over an allocator that grants so many requests; its drainer counts.
fn map_over<'a>(
    alloc: Global,
    counts: &'a Counts,
    reported: &'a AtomicU64,
    requests: u64,
) -> Result<CountedMap<'a>, OOMError> {
    counts.grant(requests);
    Congee::new_with_drainer(alloc, Counted { counts }, Tally { reported })
}

// Stores so many keys of one leaf after another. Returns whether one was refused, after which none is tried.
fn is_refused(map: &mut CountedMap<'_>, keys: u64) -> bool {
    for key in 0..keys {
        if map.insert(key, key).is_err() {
            return true;
        }
    }
    false
}

/// How many requests are granted to a drop and to a drain, which make none.
const GRANTED: u64 = 7;

// Makes a map with so many keys, and drops it, also where it is refused a key. Returns whether it was.
fn dropped(
    alloc: Global,
    counts: &Counts,
    reported: &AtomicU64,
    requests: u64,
    keys: u64,
) -> Result<bool, OOMError> {
    let mut map = map_over(alloc, counts, reported, requests)?;
    let refused = is_refused(&mut map, keys);
    counts.grant(GRANTED);
    Ok(refused)
}

// Makes a map with so many keys, and drains it. Returns with how many pairs the closure is called.
fn drained(
    alloc: Global,
    counts: &Counts,
    reported: &AtomicU64,
    keys: u64,
) -> Result<u64, OOMError> {
    let mut map = map_over(alloc, counts, reported, 100)?;
    is_refused(&mut map, keys);
    counts.grant(GRANTED);
    let mut count = 0u64;
    map.drain(&mut |_key: u64, _value: u64| count = count.wrapping_add(1));
    Ok(count)
}

/// Requests, keys, whether a key is refused if the map is made, and with how many pairs the drainer is called.
type DropRow = (u64, u64, Option<bool>, u64);

const DROPS: [DropRow; 6] = [
    // no pairs, one, and more than any buffer holds
    (100, 0, Some(false), 0),
    (100, 1, Some(false), 1),
    (100, 2000, Some(false), 2000),
    // the root, the leaf, and its growth refused
    (0, 1, None, 0),
    (1, 1, Some(true), 0),
    (2, 5, Some(true), 4),
];

// Whether nothing is held after the drop, which makes no request, and the drainer was called with all pairs.
fn drop_is_right(alloc: Global, drop: &DropRow) -> bool {
    let (requests, keys, wanted, pairs) = *drop;
    let (counts, reported) = (Counts::new(), AtomicU64::new(0));
    let refused = dropped(alloc, &counts, &reported, requests, keys).ok();
    refused == wanted
        && counts.charged() == 0
        && (wanted.is_none() || counts.left() == GRANTED)
        && reported.load(Ordering::Relaxed) == pairs
}

#[test]
fn drop_gives_sizes_back(rt: HostRuntime) {
    for drop in &DROPS {
        assert!(rt; drop_is_right(rt.alloc(), drop));
    }
}

// Whether nothing is held after a drain, which makes no request. The closure was called with all pairs, and the drainer
// with none.
fn drain_is_right(alloc: Global, keys: u64) -> bool {
    let (counts, reported) = (Counts::new(), AtomicU64::new(0));
    let handed = drained(alloc, &counts, &reported, keys).ok();
    handed == Some(keys)
        && counts.charged() == 0
        && counts.left() == GRANTED
        && reported.load(Ordering::Relaxed) == 0
}

#[test]
fn drain_gives_sizes_back(rt: HostRuntime) {
    for keys in [0, 1, 300, 2000] {
        assert!(rt; drain_is_right(rt.alloc(), keys));
    }
}

// Drops a map from numbers with these many keys.
fn numbers_dropped(alloc: Global, counts: &Counts, keys: u64) -> Result<(), OOMError> {
    counts.grant(100);
    let mut map: U64Congee<u64, Counted<'_>> = U64Congee::new_in(alloc, Counted { counts })?;
    for key in 0..keys {
        map.insert(key, key)?;
    }
    Ok(())
}

#[test]
fn map_from_numbers_gives_sizes_back(rt: HostRuntime) {
    let counts = Counts::new();
    assert!(rt; numbers_dropped(rt.alloc(), &counts, 300).is_ok());
    assert!(rt; counts.charged() == 0);
}

type Owners<'a> = CongeeArc<u64, u64, Counted<'a>>;

// Stores owners of one value and takes them out again. Returns how many there are, the first included, after each step.
fn owners_within(map: &mut Owners<'_>, owner: &Arc<u64>) -> Result<[usize; 5], OOMError> {
    for key in 0..300u64 {
        map.insert(key, owner.clone()?)?;
    }
    let filled = Arc::strong_count(owner);
    map.insert(1, owner.clone()?)?;
    let replaced = Arc::strong_count(owner);
    map.remove(2);
    let removed = Arc::strong_count(owner);
    map.compute_if_present(3, &mut |_standing: &Arc<u64>| None);
    let taken = Arc::strong_count(owner);
    map.get(4);
    Ok([filled, replaced, removed, taken, Arc::strong_count(owner)])
}

fn owners_until_dropped(
    alloc: Global,
    counts: &Counts,
    owner: &Arc<u64>,
) -> Result<[usize; 5], OOMError> {
    counts.grant(100);
    owners_within(&mut CongeeArc::new_in(alloc, Counted { counts })?, owner)
}

// How many there are after each step and at the end, and the bytes that are still held then.
fn owners(alloc: Global) -> Result<([usize; 5], usize, u64), OOMError> {
    let counts = Counts::new();
    let owner = Arc::new(alloc, 7u64)?;
    let within = owners_until_dropped(alloc, &counts, &owner)?;
    Ok((within, Arc::strong_count(&owner), counts.charged()))
}

#[test]
fn owners_are_given_back(rt: HostRuntime) -> Result<(), Fail> {
    assert!(rt; owners(rt.alloc())? == ([301, 301, 300, 299, 299], 1, 0));
    Ok(())
}

// Keeps every third of 300 owners of one value, and then one. Returns how many there are, the first included, after each;
// and at how many pairs the closure saw other owners than those that it hadn't refused.
fn owners_retained(map: &mut Owners<'_>, owner: &Arc<u64>) -> Result<[usize; 3], OOMError> {
    for key in 0..300u64 {
        map.insert(key, owner.clone()?)?;
    }
    let (mut wanted, mut wrong) = (301usize, 0usize);
    map.retain(&mut |key: u64, given: &Arc<u64>| {
        if Arc::strong_count(given) != wanted {
            wrong = wrong.wrapping_add(1);
        }
        let stays = key % 3 == 0;
        if !stays {
            wanted = wanted.wrapping_sub(1);
        }
        stays
    });
    let thirds = Arc::strong_count(owner);
    map.retain(&mut |key: u64, _given: &Arc<u64>| key == 255);
    Ok([thirds, Arc::strong_count(owner), wrong])
}

fn retained_until_dropped(
    alloc: Global,
    counts: &Counts,
    owner: &Arc<u64>,
) -> Result<[usize; 3], OOMError> {
    counts.grant(100);
    owners_retained(&mut CongeeArc::new_in(alloc, Counted { counts })?, owner)
}

// What `owners_retained` returns, how many owners there are at the end, and the bytes that are still held then.
fn owners_after_retain(alloc: Global) -> Result<([usize; 3], usize, u64), OOMError> {
    let counts = Counts::new();
    let owner = Arc::new(alloc, 7u64)?;
    let within = retained_until_dropped(alloc, &counts, &owner)?;
    Ok((within, Arc::strong_count(&owner), counts.charged()))
}

#[test]
fn refused_owners_are_given_back_one_after_another(rt: HostRuntime) -> Result<(), Fail> {
    assert!(rt; owners_after_retain(rt.alloc())? == ([101, 2, 0], 1, 0));
    Ok(())
}

// Inserts owners of one value until one is refused. Returns how many weren't.
fn stored_until_refused(
    map: &mut CongeeArc<u64, u64, Budget>,
    owner: &Arc<u64>,
) -> Result<u64, OOMError> {
    for key in 0..100u64 {
        let given = owner.clone()?;
        if map.insert(key, given).is_err() {
            return Ok(key);
        }
    }
    Ok(100)
}

// How many are stored under a limit, and how many owners there are while the map exists.
fn owners_after_refusal(alloc: Global, limit: u64) -> Result<(u64, usize), OOMError> {
    let owner = Arc::new(alloc, 7u64)?;
    let mut map = CongeeArc::new_in(alloc, Budget::new(limit))?;
    let stored = stored_until_refused(&mut map, &owner)?;
    Ok((stored, Arc::strong_count(&owner)))
}

#[test]
fn refused_owner_is_dropped(rt: HostRuntime) -> Result<(), Fail> {
    // the leaf, and its growth refused
    assert!(rt; owners_after_refusal(rt.alloc(), 2104)? == (0, 1));
    assert!(rt; owners_after_refusal(rt.alloc(), 2168)? == (4, 5));
    Ok(())
}
