//! Calls with a closure, and what comes between its question and its answer.

use node_table::allocator::DefaultAllocator;
use share_backend::lent::Lent;
use share_backend::snapshots::{Made, Pages, Snapshots};
use share_tree::direct::Direct;
use spec_map::error::OOMError;
use spec_olc::types::{Env, Op, Outcome, Seen};
use std::alloc::Global;
use std::sync::Arc;

fn env<P>(answer: Option<P>) -> Env<P> {
    Env {
        torn: Seen {
            child: None,
            count: 0,
            full: false,
        },
        fail: false,
        answer,
    }
}

// One number stores a first value; another asks at key 1; then the first makes its second call, and the answer is used.
fn overtaken<P: Drop, T, M: Lent<P, T>>(
    map: &mut M,
    first: &Op<P>,
    second: &Op<P>,
    answer: P,
) -> Option<Outcome<P>> {
    let a = map.seat().ok()?;
    let b = map.seat().ok()?;
    let call = Op::ComputeIfPresent(1);
    map.open(b, first).ok()?;
    map.open(a, &call).ok()?;
    map.open(b, second).ok()?;
    map.step(a, &call, env(Some(answer)));
    Some(map.step(a, &call, env(None)).outcome)
}

fn numbers_with(alloc: Global, second: &Op<u64>) -> Option<Outcome<u64>> {
    let mut map: Direct<u64, DefaultAllocator> = Made::made(alloc, DefaultAllocator {}).ok()?;
    overtaken(&mut map, &Op::Insert(1, 10), second, 20)
}

fn owners_with(alloc: Global, second: &Op<Arc<u64>>) -> Option<Outcome<Arc<u64>>> {
    let mut map: Direct<Arc<u64>, DefaultAllocator> = Made::made(alloc, DefaultAllocator {}).ok()?;
    let first = Op::Insert(1, Arc::new(alloc, 10).ok()?);
    overtaken(&mut map, &first, second, Arc::new(alloc, 20).ok()?)
}

fn owner_at(alloc: Global, key: u64) -> Result<Op<Arc<u64>>, OOMError> {
    Ok(Op::Insert(key, Arc::new(alloc, 10)?))
}

#[test]
fn numbers_are_compared(rt: HostRuntime) {
    let alloc = rt.alloc();
    let other_value = numbers_with(alloc, &Op::Insert(1, 11));
    assert!(rt; matches!(&other_value, Some(Outcome::Ask(Some(11)))));
    let gone = numbers_with(alloc, &Op::Remove(1));
    assert!(rt; matches!(&gone, Some(Outcome::Going)));
    let same_value = numbers_with(alloc, &Op::Insert(1, 10));
    assert!(rt; matches!(&same_value, Some(Outcome::Decided(_))));
    let other_key = numbers_with(alloc, &Op::Insert(65, 10));
    assert!(rt; matches!(&other_key, Some(Outcome::Decided(_))));
}

#[test]
fn owners_are_counted(rt: HostRuntime) -> Result<(), OOMError> {
    let alloc = rt.alloc();
    let same_value = owners_with(alloc, &owner_at(alloc, 1)?);
    assert!(rt; matches!(&same_value, Some(Outcome::Ask(Some(_)))));
    let gone = owners_with(alloc, &Op::Remove(1));
    assert!(rt; matches!(&gone, Some(Outcome::Going)));
    let other_key = owners_with(alloc, &owner_at(alloc, 2)?);
    assert!(rt; matches!(&other_key, Some(Outcome::Decided(_))));
    let same_count = owners_with(alloc, &owner_at(alloc, 65)?);
    assert!(rt; matches!(&same_count, Some(Outcome::Ask(Some(_)))));
    let absent = owners_with(alloc, &Op::Remove(65));
    assert!(rt; matches!(&absent, Some(Outcome::Decided(_))));
    Ok(())
}

// Three pairs, and a page of two of them.
fn read(map: &mut Direct<u64, DefaultAllocator>) -> Option<bool> {
    let a = map.seat().ok()?;
    for key in 1..4 {
        map.open(a, &Op::Insert(key, 7)).ok()?;
    }
    let mut page = [(0, 0); 4];
    let written = map.page(1, 3, &mut page)?;
    let first = map.pair_from(2).map(|(key, value)| (key, *value));
    let pairs = map.stats().ok()?.kv_pairs;
    Some(written == 2 && page[1] == (2, 7) && first == Some((2, 7)) && pairs == 3)
}

#[test]
fn reads(rt: HostRuntime) -> Result<(), OOMError> {
    let mut map: Direct<u64, DefaultAllocator> = Made::made(rt.alloc(), DefaultAllocator {})?;
    assert!(rt; read(&mut map) == Some(true));
    let keys: Vec<u64> = map.keys(rt.alloc())?;
    assert!(rt; keys.len() == 3);
    assert!(rt; map.entry_count() == 3);
    Ok(())
}
