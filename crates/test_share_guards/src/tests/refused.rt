//! Each call once. What is refused is asked for once more, so that these tests pass whichever one request for memory is
//! refused (`tools/dev/try-refusals`): a refusal is returned where the signature has one, and changes nothing else.

ghost use Rattle.std.specs.Prelude.{◌≡◌, ◌+◌, ◌^◌, IfOk};

use node_table::allocator::DefaultAllocator;
use share_backend::snapshots::{Made, Owners, Pages};
use share_faces::congee_arc::{CongeeArc, OwnerGuard};
use share_faces::typed_congee::{Congee, Guard, meet};
use share_machine::events::Events;
use share_state::share::Share;
use share_tree::direct::Direct;
use spec_map::error::OOMError;
use std::alloc::Global;
use std::marker::Brand;
use std::sync::ledger::{Blank, Ledger};
use std::sync::{Arc, Wait};
use std::test::Fail;

type Machine = Events<u64, DefaultAllocator>;

type Tree = Direct<u64, DefaultAllocator>;

type OwnedMachine = Events<Arc<u64>, DefaultAllocator>;

type OwnedTree = Direct<Arc<u64>, DefaultAllocator>;

type Numbers<L, M> = Congee<L, u64, u64, M>;

type Owned<L, M> = CongeeArc<L, u64, u64, M>;

// A guard, by the first of both calls, or by the second where that refuses.
fn pinned<'a, L: Ledger, M: Pages, R: Wait>(
    rt: &R,
    map: &'a Numbers<L, M>,
) -> Result<Guard<'a, L, M>, OOMError>
    ensures { IfOk result (λ guard. guard.table ≡ map.now) }
{
    match map.pin(rt) {
        Ok(guard) => Ok(guard),
        Err(_) => map.pin_waiting(rt),
    }
}

fn insert<L: Ledger, M: Pages, R: Wait>(
    rt: &R,
    map: &Numbers<L, M>,
    guard: &mut Guard<'_, L, M>,
    key: u64,
) -> Result<Option<u64>, OOMError>
    requires { guard.old.table ≡ map.now }
    ensures { guard.new.table ≡ guard.old.table }
{
    match map.insert(rt, guard, key, key) {
        Ok(before) => Ok(before),
        Err(_) => map.insert(rt, guard, key, key),
    }
}

fn insert_counted<L: Ledger, M: Pages, R: Wait>(
    rt: &R,
    map: &Numbers<L, M>,
    guard: &mut Guard<'_, L, M>,
    share: &mut Share<L>,
    key: u64,
) -> Result<Option<u64>, OOMError>
    requires { guard.old.table ≡ map.now }
    ensures { guard.new.table ≡ guard.old.table }
{
    match map.insert_counted(rt, guard, share, key, key) {
        Ok(before) => Ok(before),
        Err(_) => map.insert_counted(rt, guard, share, key, key),
    }
}

fn count_up<L: Ledger, M: Pages, R: Wait>(
    rt: &R,
    map: &Numbers<L, M>,
    guard: &mut Guard<'_, L, M>,
    key: u64,
) -> Result<Option<u64>, OOMError>
    requires { guard.old.table ≡ map.now }
    ensures { guard.new.table ≡ guard.old.table }
{
    let mut more = |old: Option<u64>| -> u64 { old.unwrap_or(0).wrapping_add(1) };
    match map.compute_or_insert(rt, guard, key, &mut more) {
        Ok(before) => Ok(before),
        Err(_) => map.compute_or_insert(rt, guard, key, &mut more),
    }
}

// Insertions that make a leaf, split its prefix, let it grow, and begin a new one.
fn fills<L: Ledger, M: Pages, R: Wait>(
    rt: &R,
    map: &Numbers<L, M>,
    guard: &mut Guard<'_, L, M>,
    share: &mut Share<L>,
) -> Result<bool, OOMError>
    requires { guard.old.table ≡ map.now }
    ensures { guard.new.table ≡ guard.old.table }
{
    Ok(
        insert(rt, map, guard, 1)? == None
            && insert(rt, map, guard, 256)? == None
            && insert_counted(rt, map, guard, share, 2)? == None
            && count_up(rt, map, guard, 3)? == None
            && count_up(rt, map, guard, 1)? == Some(1)
            && insert(rt, map, guard, 4)? == None
            && insert_counted(rt, map, guard, share, 5)? == None
            && insert(rt, map, guard, 1 << 40)? == None,
    )
}

// Calls that have no refusal.
fn changes<L: Ledger, M: Pages, R: Wait>(
    rt: &R,
    map: &Numbers<L, M>,
    guard: &mut Guard<'_, L, M>,
    share: &mut Share<L>,
) -> bool
    requires { guard.old.table ≡ map.now }
    ensures { guard.new.table ≡ guard.old.table }
{
    let mut buffer = [(0, 0); 3];
    let mut twice = |old: u64| -> Option<u64> { old.checked_mul(2) };
    map.get(rt, guard, &1) == Some(2)
        && map.range(rt, guard, &2, &257, &mut buffer) == 3
        && buffer == [(2, 2), (3, 1), (4, 4)]
        && map.compute_if_present(rt, guard, &2, &mut twice) == Some((2, Some(4)))
        && map.compare_exchange(rt, guard, &2, &4, Some(6)) == Ok(Some(6))
        && map.compare_exchange(rt, guard, &2, &6, None) == Ok(None)
        && map.remove(rt, guard, &256) == Some(256)
        && map.remove_counted(rt, guard, share, &5) == Some(5)
        && map.get(rt, guard, &5) == None
        && map.remove(rt, guard, &(1 << 40)) == Some(1 << 40)
}

// The keys and the number of pairs.
fn read<L: Ledger, M: Pages, R: Wait>(
    rt: &R,
    map: &Numbers<L, M>,
    alloc: Global,
) -> Result<bool, OOMError> {
    let keys = match map.keys(rt, alloc) {
        Ok(keys) => keys,
        Err(_) => map.keys(rt, alloc)?,
    };
    let pairs = match map.stats(rt) {
        Ok(stats) => stats.kv_pairs,
        Err(_) => map.stats(rt)?.kv_pairs,
    };
    Ok(keys.len() == 3 && pairs == 3 && map.value_count(rt) == 3 && !map.is_empty(rt))
}

// What a second guard finds at 1, which the first one has stored.
fn is_met<L: Ledger, M: Pages, R: Wait>(
    rt: &R,
    map: &Numbers<L, M>,
    guard: &mut Guard<'_, L, M>,
) -> Result<bool, OOMError>
    requires { guard.old.table ≡ map.now }
    ensures { guard.new.table ≡ guard.old.table }
{
    let mut other = pinned(rt, map)?;
    meet(guard, &mut other);
    let found = map.get(rt, &mut other, &1);
    map.unpin(rt, other);
    Ok(found == Some(2))
}

// Whether each call of a map is right, whichever one of its requests is refused; `None` if there is no map.
fn numbers_are_right<L: Ledger, M: Pages + Made<u64, u64, DefaultAllocator>, R: Wait>(
    rt: &R,
    alloc: Global,
    blank: Blank,
) -> Result<Option<bool>, OOMError>
    requires name { blank.name ≡ L.name }
    requires parts { blank.parts ≡ L.parts }
    requires whole { L.parts ≡ 2 ^ 63 + 1 }
{
    let Ok((map, mut share)) = Numbers::<L, M>::new(alloc, blank, DefaultAllocator {}) else {
        return Ok(None);
    };
    let mut guard = pinned(rt, &map)?;
    let filled = fills(rt, &map, &mut guard, &mut share)?;
    let met = is_met(rt, &map, &mut guard)?;
    let changed = changes(rt, &map, &mut guard, &mut share);
    map.unpin(rt, guard);
    let told = read(rt, &map, alloc)?;
    let settled = match map.settle(rt, share) {
        Ok(count) => count == 3,
        Err(_) => false,
    };
    Ok(Some(filled && met && changed && told && settled))
}

// What `numbers_are_right` returns, which is called once more where there was no map.
fn right_over<M: Pages + Made<u64, u64, DefaultAllocator>, R: Wait>(
    rt: &R,
    alloc: Global,
) -> Result<Option<bool>, OOMError> {
    let blank = Blank::new((1 << 63) + 1);
    let right = numbers_are_right::<Brand, M, R>(rt, alloc, blank)?;
    if right.is_some() {
        return Ok(right);
    }
    let blank = Blank::new((1 << 63) + 1);
    numbers_are_right::<Brand, M, R>(rt, alloc, blank)
}

#[test]
fn each_call_over_the_machine(rt: HostRuntime) -> Result<(), Fail> {
    assert!(rt; right_over::<Machine, _>(&rt, rt.alloc())? == Some(true));
    Ok(())
}

#[test]
fn each_call_over_the_tree(rt: HostRuntime) -> Result<(), Fail> {
    assert!(rt; right_over::<Tree, _>(&rt, rt.alloc())? == Some(true));
    Ok(())
}

// A guard of a map of owners, likewise.
fn pinned_owner<'a, L: Ledger, M: Owners<u64>, R: Wait>(
    rt: &R,
    map: &'a Owned<L, M>,
) -> Result<OwnerGuard<'a, L, u64, M>, OOMError>
    ensures { IfOk result (λ guard. guard.table ≡ map.now) }
{
    match map.pin(rt) {
        Ok(guard) => Ok(guard),
        Err(_) => map.pin_waiting(rt),
    }
}

// A counted insertion of one more owner; the value that it replaced.
fn insert_owner<L: Ledger, M: Owners<u64>, R: Wait>(
    rt: &R,
    map: &Owned<L, M>,
    guard: &mut OwnerGuard<'_, L, u64, M>,
    share: &mut Share<L>,
    key: u64,
    owner: &Arc<u64>,
) -> Result<Option<u64>, OOMError>
    requires { guard.old.table ≡ map.now }
    ensures { guard.new.table ≡ guard.old.table }
{
    let before = match map.insert_counted(rt, guard, share, key, owner.clone()?) {
        Ok(before) => before,
        Err(_) => map.insert_counted(rt, guard, share, key, owner.clone()?)?,
    };
    Ok(match before {
        Some(before) => Some(*before),
        None => None,
    })
}

// The value of a key.
fn owner_at<L: Ledger, M: Owners<u64>, R: Wait>(
    rt: &R,
    map: &Owned<L, M>,
    guard: &mut OwnerGuard<'_, L, u64, M>,
    key: u64,
) -> Result<Option<u64>, OOMError>
    requires { guard.old.table ≡ map.now }
    ensures { guard.new.table ≡ guard.old.table }
{
    let found = match map.get(rt, guard, key) {
        Ok(found) => found,
        Err(_) => map.get(rt, guard, key)?,
    };
    Ok(match found {
        Some(found) => Some(*found),
        None => None,
    })
}

// A computation that takes the pair out, and a removal; whether both were of pairs that were there.
fn take_owners<L: Ledger, M: Owners<u64>, R: Wait>(
    rt: &R,
    map: &Owned<L, M>,
    guard: &mut OwnerGuard<'_, L, u64, M>,
    share: &mut Share<L>,
) -> Result<bool, OOMError>
    requires { guard.old.table ≡ map.now }
    ensures { guard.new.table ≡ guard.old.table }
{
    let mut none = |_old: Arc<u64>| -> Option<Arc<u64>> { None };
    let computed = match map.compute_if_present(rt, guard, 256, &mut none) {
        Ok(computed) => computed,
        Err(_) => map.compute_if_present(rt, guard, 256, &mut none)?,
    };
    let removed = map.remove_counted(rt, guard, share, 2);
    Ok(computed.is_some() && removed.is_some())
}

// Whether each call of a map of owners is right, whichever one of its requests is refused. `None` if there is no map.
fn owners_are_right<L: Ledger, M: Owners<u64> + Made<Arc<u64>, u64, DefaultAllocator>, R: Wait>(
    rt: &R,
    alloc: Global,
    blank: Blank,
    owner: &Arc<u64>,
) -> Result<Option<bool>, OOMError>
    requires name { blank.name ≡ L.name }
    requires parts { blank.parts ≡ L.parts }
    requires whole { L.parts ≡ 2 ^ 63 + 1 }
{
    let Ok((map, mut share)) = Owned::<L, M>::new(alloc, blank) else {
        return Ok(None);
    };
    let mut guard = pinned_owner(rt, &map)?;
    let filled = insert_owner(rt, &map, &mut guard, &mut share, 1, owner)? == None
        && insert_owner(rt, &map, &mut guard, &mut share, 256, owner)? == None
        && insert_owner(rt, &map, &mut guard, &mut share, 2, owner)? == None
        && insert_owner(rt, &map, &mut guard, &mut share, 1, owner)? == Some(5);
    let found = owner_at(rt, &map, &mut guard, 256)? == Some(5);
    let taken = take_owners(rt, &map, &mut guard, &mut share)?;
    let gone = owner_at(rt, &map, &mut guard, 256)? == None;
    map.unpin(rt, guard);
    let settled = match map.settle(rt, share) {
        Ok(count) => count == 1,
        Err(_) => false,
    };
    Ok(Some(filled && found && taken && gone && settled))
}

fn made_owner(alloc: Global) -> Result<Arc<u64>, OOMError> {
    match Arc::new(alloc, 5u64) {
        Ok(owner) => Ok(owner),
        Err(_) => Ok(Arc::new(alloc, 5u64)?),
    }
}

// What `owners_are_right` returns, which is called once more where there was no map.
fn owners_over<M: Owners<u64> + Made<Arc<u64>, u64, DefaultAllocator>, R: Wait>(
    rt: &R,
    alloc: Global,
    owner: &Arc<u64>,
) -> Result<Option<bool>, OOMError> {
    let blank = Blank::new((1 << 63) + 1);
    let right = owners_are_right::<Brand, M, R>(rt, alloc, blank, owner)?;
    if right.is_some() {
        return Ok(right);
    }
    let blank = Blank::new((1 << 63) + 1);
    owners_are_right::<Brand, M, R>(rt, alloc, blank, owner)
}

#[test]
fn each_call_with_owners(rt: HostRuntime) -> Result<(), Fail> {
    let owner = made_owner(rt.alloc())?;
    assert!(rt; owners_over::<OwnedMachine, _>(&rt, rt.alloc(), &owner)? == Some(true));
    assert!(rt; Arc::strong_count(&owner) == 1);
    assert!(rt; owners_over::<OwnedTree, _>(&rt, rt.alloc(), &owner)? == Some(true));
    assert!(rt; Arc::strong_count(&owner) == 1);
    Ok(())
}
