//! Maps under a budget: none is made below its root's size, and an insertion that needs a further node is refused and changes
//! nothing. `test_share_guards` has `Congee` under budgets of every size.

ghost use Rattle.std.specs.Prelude.{◌≡◌, ◌+◌, ◌^◌};

use super::rows::{Count, LIMITED};
use super::{numbers, owners};
use congee::shared::Share;
use congee::{Budget, locked, shared};
use share_backend::snapshots::{Owners, Pages};
use share_faces::congee_arc::{CongeeArc, OwnerGuard};
use share_faces::typed_congee::Guard;
use share_faces::u64_congee::U64Congee;
use std::alloc::Global;
use std::marker::Brand;
use std::sync::Wait;
use std::sync::ledger::{Blank, Ledger};
use std::test::Fail;

// The number of the limited calls before the first wrong one.
fn right_by_number<L: Ledger, M: Pages, R: Wait>(
    rt: &R,
    map: &U64Congee<L, u64, M>,
    guard: &mut Guard<'_, L, M>,
    share: &mut Share<L>,
) -> usize
    requires { guard.old.table ≡ map.now }
    ensures { guard.new.table ≡ guard.old.table }
{
    let mut right = 0;
    for (call, expected) in LIMITED {
        let mut gate = Count { calls: 0 };
        if numbers::found(rt, map, guard, share, &mut gate, call).ok() != expected {
            return right;
        }
        right = right.saturating_add(1);
    }
    right
}

// The number of the limited calls before the first wrong one, and how many pairs are counted in the end.
fn counted_by_number<L: Ledger, M: Pages, R: Wait>(
    rt: &R,
    map: &U64Congee<L, u64, M>,
    mut share: Share<L>,
) -> Result<(usize, Option<u128>), Fail> {
    let mut guard = map.pin(rt)?;
    let right = right_by_number(rt, map, &mut guard, &mut share);
    map.unpin(rt, guard);
    Ok((right, map.settle(rt, share).ok()))
}

fn right_by_owner<L: Ledger, M: Owners<u64>, R: Wait>(
    rt: &R,
    alloc: Global,
    map: &CongeeArc<L, u64, u64, M>,
    guard: &mut OwnerGuard<'_, L, u64, M>,
    share: &mut Share<L>,
) -> usize
    requires { guard.old.table ≡ map.now }
    ensures { guard.new.table ≡ guard.old.table }
{
    let mut right = 0;
    for (call, expected) in LIMITED {
        let mut gate = Count { calls: 0 };
        let is_right = match owners::found(rt, alloc, map, guard, share, &mut gate, call) {
            Ok(before) => expected.is_some() && owners::is_owner(before, expected.flatten()),
            Err(_) => expected.is_none(),
        };
        if !is_right {
            return right;
        }
        right = right.saturating_add(1);
    }
    right
}

fn counted_by_owner<L: Ledger, M: Owners<u64>, R: Wait>(
    rt: &R,
    alloc: Global,
    map: &CongeeArc<L, u64, u64, M>,
    mut share: Share<L>,
) -> Result<(usize, Option<u128>), Fail> {
    let mut guard = map.pin(rt)?;
    let right = right_by_owner(rt, alloc, map, &mut guard, &mut share);
    map.unpin(rt, guard);
    Ok((right, map.settle(rt, share).ok()))
}

// The right calls under a limit of that many bytes. `None` if there is no map.
fn numbers_over_events<L: Ledger, R: Wait>(
    rt: &R,
    alloc: Global,
    blank: Blank,
    limit: u64,
) -> Result<Option<(usize, Option<u128>)>, Fail>
    requires name { blank.name ≡ L.name }
    requires parts { blank.parts ≡ L.parts }
    requires whole { L.parts ≡ 2 ^ 63 + 1 }
{
    let budget = Budget::new(limit);
    let Ok((map, share)) = shared::U64Congee::<L, u64, Budget>::new_in(alloc, blank, budget) else {
        return Ok(None);
    };
    Ok(Some(counted_by_number(rt, &map, share)?))
}

fn numbers_over_tree<L: Ledger, R: Wait>(
    rt: &R,
    alloc: Global,
    blank: Blank,
    limit: u64,
) -> Result<Option<(usize, Option<u128>)>, Fail>
    requires name { blank.name ≡ L.name }
    requires parts { blank.parts ≡ L.parts }
    requires whole { L.parts ≡ 2 ^ 63 + 1 }
{
    let budget = Budget::new(limit);
    let Ok((map, share)) = locked::U64Congee::<L, u64, Budget>::new_in(alloc, blank, budget) else {
        return Ok(None);
    };
    Ok(Some(counted_by_number(rt, &map, share)?))
}

fn owners_over_events<L: Ledger, R: Wait>(
    rt: &R,
    alloc: Global,
    blank: Blank,
    limit: u64,
) -> Result<Option<(usize, Option<u128>)>, Fail>
    requires name { blank.name ≡ L.name }
    requires parts { blank.parts ≡ L.parts }
    requires whole { L.parts ≡ 2 ^ 63 + 1 }
{
    let budget = Budget::new(limit);
    let Ok((map, share)) = shared::CongeeArc::<L, u64, u64, Budget>::new_in(alloc, blank, budget)
    else {
        return Ok(None);
    };
    Ok(Some(counted_by_owner(rt, alloc, &map, share)?))
}

fn owners_over_tree<L: Ledger, R: Wait>(
    rt: &R,
    alloc: Global,
    blank: Blank,
    limit: u64,
) -> Result<Option<(usize, Option<u128>)>, Fail>
    requires name { blank.name ≡ L.name }
    requires parts { blank.parts ≡ L.parts }
    requires whole { L.parts ≡ 2 ^ 63 + 1 }
{
    let budget = Budget::new(limit);
    let Ok((map, share)) = locked::CongeeArc::<L, u64, u64, Budget>::new_in(alloc, blank, budget)
    else {
        return Ok(None);
    };
    Ok(Some(counted_by_owner(rt, alloc, &map, share)?))
}

// Limits, and the right calls under each with how many pairs are counted in the end.
const LIMITS: [(u64, Option<(usize, Option<u128>)>); 2] = [
    (2103, None),
    (2168, Some((12, Some(2)))),
];

// The place of the first wrong answer: two for each limit, over the machine and over the tree.
fn wrong_by_number<R: Wait>(rt: &R, alloc: Global) -> Result<usize, Fail> {
    let mut place = 0usize;
    for (limit, expected) in LIMITS {
        let blank = Blank::new((1 << 63) + 1);
        if numbers_over_events::<Brand, R>(rt, alloc, blank, limit)? != expected {
            return Ok(place);
        }
        let blank = Blank::new((1 << 63) + 1);
        if numbers_over_tree::<Brand, R>(rt, alloc, blank, limit)? != expected {
            return Ok(place.saturating_add(1));
        }
        place = place.saturating_add(2);
    }
    Ok(99)
}

fn wrong_by_owner<R: Wait>(rt: &R, alloc: Global) -> Result<usize, Fail> {
    let mut place = 0usize;
    for (limit, expected) in LIMITS {
        let blank = Blank::new((1 << 63) + 1);
        if owners_over_events::<Brand, R>(rt, alloc, blank, limit)? != expected {
            return Ok(place);
        }
        let blank = Blank::new((1 << 63) + 1);
        if owners_over_tree::<Brand, R>(rt, alloc, blank, limit)? != expected {
            return Ok(place.saturating_add(1));
        }
        place = place.saturating_add(2);
    }
    Ok(99)
}

#[test]
fn insertions_are_refused_under_a_budget(rt: HostRuntime) -> Result<(), Fail> {
    assert!(rt; wrong_by_number(&rt, rt.alloc())? == 99);
    assert!(rt; wrong_by_owner(&rt, rt.alloc())? == 99);
    Ok(())
}
