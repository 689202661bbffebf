//! Compares calls on the machine, one after another, with those on the owned map: replies, forms of nodes, and what is
//! charged.

mod both;

use crate::tests::tree::both::Both;
use spec_map::error::OOMError;
use std::alloc::Global;
use std::sync::atomic::AtomicU64;
use std::test::Fail;

// A pseudo-random number for each number (splitmix64).
fn scattered(i: u64) -> u64 {
    let mut x = i.wrapping_add(1).wrapping_mul(0x9e37_79b9_7f4a_7c15);
    x = (x ^ (x >> 30)).wrapping_mul(0xbf58_476d_1ce4_e5b9);
    x = (x ^ (x >> 27)).wrapping_mul(0x94d0_49bb_1331_11eb);
    x ^ (x >> 31)
}

// One of some hundred keys in leaves and below inner nodes of all forms. No node is more than three below the root: of
// more nodes that a removal empties one above the other, the machine takes out three.
fn key_of(choice: u64) -> u64 {
    let apart = match (choice >> 16) % 3 {
        0 => 1,
        1 => 256,
        _ => 65536,
    };
    (choice % 64).wrapping_mul(apart)
}

// One call of some kind, with so many quarters of those that insert.
fn make(both: &mut Both<'_>, i: u64, inserts: u64) -> Result<bool, OOMError> {
    let choice = scattered(i);
    let key = key_of(choice);
    let kind = (choice >> 50) % 4;
    if (choice >> 40) % 4 < inserts {
        return match kind {
            0 => both.compute_or_insert(key, i),
            1 => both.exchange(key, Some(i)),
            _ => both.insert(key, i),
        };
    }
    match kind {
        0 => both.compute(key, None),
        1 => both.exchange(key, None),
        2 => both.compute(key, Some(i)),
        _ => both.remove(key),
    }
}

// The first of so many calls after which the two differ.
fn wrong_call(both: &mut Both<'_>, calls: u64) -> Result<Option<u64>, OOMError> {
    for i in 0..calls {
        let inserts = 3u64.wrapping_sub((i / 500) % 4);
        if !make(both, i, inserts)? {
            return Ok(Some(i));
        }
    }
    Ok(None)
}

fn wrong_of_many(alloc: Global, calls: u64) -> Result<Option<u64>, OOMError> {
    let charged = AtomicU64::new(0);
    let mut both = Both::new(alloc, &charged)?;
    wrong_call(&mut both, calls)
}

#[test]
fn ten_thousand_calls(rt: HostRuntime) -> Result<(), Fail> {
    assert_eq!(rt; wrong_of_many(rt.alloc(), 10_000)?, None);
    Ok(())
}
