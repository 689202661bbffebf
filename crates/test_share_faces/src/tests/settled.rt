//! `settle_recorded` of each face: half a share comes back, and the whole one gives the number of pairs.

ghost use Rattle.std.specs.Prelude.{◌≡◌, ◌+◌, ◌^◌};

use congee::shared::Share;
use congee::{DefaultAllocator, locked, shared};
use share_backend::snapshots::{Owners, Pages};
use share_faces::congee_arc::CongeeArc;
use share_faces::typed_congee::Congee;
use share_faces::u64_congee::U64Congee;
use std::alloc::Global;
use std::marker::Brand;
use std::sync::ledger::{Blank, Ledger};
use std::sync::{Arc, Wait};
use std::test::Fail;

// The number of two pairs, where half the share came back before.
fn of_typed_keys<L: Ledger, M: Pages, R: Wait>(
    rt: &R,
    map: &Congee<L, u64, u64, M>,
    mut share: Share<L>,
) -> Result<Option<u128>, Fail> {
    let mut guard = map.pin_waiting(rt)?;
    map.insert(rt, &mut guard, 7, 70)?;
    map.insert_counted(rt, &mut guard, &mut share, 8, 80)?;
    let half = share.split().ok_or("no half")?;
    match map.settle_recorded(rt, &mut guard, half) {
        Ok(_) => return Ok(None),
        Err(half) => share.join(half),
    }
    Ok(map.settle_recorded(rt, &mut guard, share).ok())
}

fn of_numbers<L: Ledger, M: Pages, R: Wait>(
    rt: &R,
    map: &U64Congee<L, u64, M>,
    mut share: Share<L>,
) -> Result<Option<u128>, Fail> {
    let mut guard = map.pin_waiting(rt)?;
    map.insert(rt, &mut guard, 7, 70)?;
    map.insert_counted(rt, &mut guard, &mut share, 8, 80)?;
    let half = share.split().ok_or("no half")?;
    match map.settle_recorded(rt, &mut guard, half) {
        Ok(_) => return Ok(None),
        Err(half) => share.join(half),
    }
    Ok(map.settle_recorded(rt, &mut guard, share).ok())
}

fn of_owners<L: Ledger, M: Owners<u64>, R: Wait>(
    rt: &R,
    alloc: Global,
    map: &CongeeArc<L, u64, u64, M>,
    mut share: Share<L>,
) -> Result<Option<u128>, Fail> {
    let mut guard = map.pin_waiting(rt)?;
    map.insert(rt, &mut guard, 7, Arc::new(alloc, 70)?)?;
    map.insert_counted(rt, &mut guard, &mut share, 8, Arc::new(alloc, 80)?)?;
    let half = share.split().ok_or("no half")?;
    match map.settle_recorded(rt, &mut guard, half) {
        Ok(_) => return Ok(None),
        Err(half) => share.join(half),
    }
    Ok(map.settle_recorded(rt, &mut guard, share).ok())
}

fn typed_over_events<L: Ledger, R: Wait>(
    rt: &R,
    alloc: Global,
    blank: Blank,
) -> Result<Option<u128>, Fail>
    requires name { blank.name ≡ L.name }
    requires parts { blank.parts ≡ L.parts }
    requires whole { L.parts ≡ 2 ^ 63 + 1 }
{
    let (map, share) = shared::Congee::<L, u64, u64>::new(alloc, blank, DefaultAllocator {})?;
    of_typed_keys(rt, &map, share)
}

fn typed_over_tree<L: Ledger, R: Wait>(
    rt: &R,
    alloc: Global,
    blank: Blank,
) -> Result<Option<u128>, Fail>
    requires name { blank.name ≡ L.name }
    requires parts { blank.parts ≡ L.parts }
    requires whole { L.parts ≡ 2 ^ 63 + 1 }
{
    let (map, share) = locked::Congee::<L, u64, u64>::new(alloc, blank, DefaultAllocator {})?;
    of_typed_keys(rt, &map, share)
}

fn numbers_over_tree<L: Ledger, R: Wait>(
    rt: &R,
    alloc: Global,
    blank: Blank,
) -> Result<Option<u128>, Fail>
    requires name { blank.name ≡ L.name }
    requires parts { blank.parts ≡ L.parts }
    requires whole { L.parts ≡ 2 ^ 63 + 1 }
{
    let (map, share) = locked::U64Congee::<L, u64>::new(alloc, blank)?;
    of_numbers(rt, &map, share)
}

fn owners_over_events<L: Ledger, R: Wait>(
    rt: &R,
    alloc: Global,
    blank: Blank,
) -> Result<Option<u128>, Fail>
    requires name { blank.name ≡ L.name }
    requires parts { blank.parts ≡ L.parts }
    requires whole { L.parts ≡ 2 ^ 63 + 1 }
{
    let (map, share) = shared::CongeeArc::<L, u64, u64>::new(alloc, blank)?;
    of_owners(rt, alloc, &map, share)
}

#[test]
fn the_whole_share_is_settled_as_an_entry(rt: HostRuntime) -> Result<(), Fail> {
    let found = typed_over_events::<Brand, _>(&rt, rt.alloc(), Blank::new((1 << 63) + 1))?;
    assert!(rt; found == Some(2));
    let found = typed_over_tree::<Brand, _>(&rt, rt.alloc(), Blank::new((1 << 63) + 1))?;
    assert!(rt; found == Some(2));
    Ok(())
}

#[test]
fn it_is_settled_by_numbers_and_by_owners(rt: HostRuntime) -> Result<(), Fail> {
    let found = numbers_over_tree::<Brand, _>(&rt, rt.alloc(), Blank::new((1 << 63) + 1))?;
    assert!(rt; found == Some(2));
    let found = owners_over_events::<Brand, _>(&rt, rt.alloc(), Blank::new((1 << 63) + 1))?;
    assert!(rt; found == Some(2));
    Ok(())
}
