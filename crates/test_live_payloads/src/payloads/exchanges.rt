//! Exchanges of the payload that is lent, counts, and further owners.
ghost use Rattle.std.specs.Prelude.{◌≡◌};
ghost use Rattle.live_payloads.specs.Payloads.{IsGuardOf};

use super::{Guard, Inserted, Map, get, insert};
use live_payloads::live::{Lent, share};
use std::alloc::Global;
use std::sync::{Arc, Wait};
use std::test::Fail;

// What an exchange did with a further owner.
#[derive(Clone, Copy, Debug, PartialEq, Eq)]
enum Exchanged {
    Done,
    GaveBack(u64),
    Refused,
}

// Replaces the payload by a further owner of this one.
fn exchange<R: Wait>(
    rt: &R,
    alloc: Global,
    map: &Map,
    guard: &mut Guard,
    old: &Lent<'_, Arc<u64>>,
    new: &Arc<u64>,
) -> Exchanged
    requires guard { IsGuardOf map.now guard.old }
    requires table { old.now.table ≡ map.now.table }
    ensures { IsGuardOf map.now guard.new }
{
    let Ok(one) = Arc::try_clone(new) else {
        return Exchanged::Refused;
    };
    match map.compare_exchange(rt, alloc, guard, &6, old, Some(one)) {
        Ok(Ok(())) => Exchanged::Done,
        Ok(Err(Some(back))) => Exchanged::GaveBack(*back),
        _ => Exchanged::Refused,
    }
}

// The payload is replaced once, by what has it lent. It isn't by who had it lent before.
fn replaced<R: Wait>(
    rt: &R,
    alloc: Global,
    map: &Map,
    guard: &mut Guard,
    seven: &Arc<u64>,
    eight: &Arc<u64>,
) -> bool
    requires { IsGuardOf map.now guard.old }
    ensures { IsGuardOf map.now guard.new }
{
    let Some(lent) = map.get(rt, guard, &6) else {
        return false;
    };
    let done = exchange(rt, alloc, map, guard, &lent, eight) == Exchanged::Done;
    let again = exchange(rt, alloc, map, guard, &lent, seven) == Exchanged::GaveBack(7);
    let now = get(rt, map, guard, 6) == Some(8);
    done && again && now && **lent.get() == 7 && Arc::strong_count(seven) == 2
}

// The payload is removed by an exchange for none, and the key is absent then.
fn removed<R: Wait>(rt: &R, alloc: Global, map: &Map, guard: &mut Guard) -> bool
    requires { IsGuardOf map.now guard.old }
    ensures { IsGuardOf map.now guard.new }
{
    let Some(lent) = map.get(rt, guard, &6) else {
        return false;
    };
    let one = map.value_count(rt, guard) == 1 && !map.is_empty(rt, guard);
    let done = map
        .try_compare_exchange(rt, alloc, guard, &6, &lent, None)
        .is_ok_and(|answer| answer.is_ok());
    let again = map
        .try_compare_exchange(rt, alloc, guard, &6, &lent, None)
        .is_ok_and(|answer| answer.is_err());
    let none = map.value_count(rt, guard) == 0 && map.is_empty(rt, guard);
    one && done && again && none && get(rt, map, guard, 6).is_none()
}

#[test]
fn a_lent_payload_is_replaced_and_removed(rt: HostRuntime) -> Result<(), Fail> {
    let map: Map = Map::new(rt.alloc())?;
    let mut guard = map.pin();
    let seven = Arc::new(rt.alloc(), 7u64)?;
    let eight = Arc::new(rt.alloc(), 8u64)?;
    assert!(rt; insert(&rt, rt.alloc(), &map, &mut guard, 6, &seven) == Inserted::New);
    assert!(rt; replaced(&rt, rt.alloc(), &map, &mut guard, &seven, &eight));
    assert!(rt; Arc::strong_count(&seven) == 1 && Arc::strong_count(&eight) == 2);
    assert!(rt; removed(&rt, rt.alloc(), &map, &mut guard));
    assert!(rt; Arc::strong_count(&eight) == 1);
    Ok(())
}

// A further owner of the key's payload, which lives when the map is dropped.
fn kept<R: Wait>(rt: &R, alloc: Global, seven: &Arc<u64>) -> Option<Arc<u64>> {
    let map: Map = Map::new(alloc).ok()?;
    let mut guard = map.pin();
    if insert(rt, alloc, &map, &mut guard, 6, seven) != Inserted::New {
        return None;
    }
    let lent = map.get(rt, &mut guard, &6)?;
    share(&lent).ok()
}

#[test]
fn a_further_owner_outlives_the_map(rt: HostRuntime) -> Result<(), Fail> {
    let seven = Arc::new(rt.alloc(), 7u64)?;
    let owner = kept(&rt, rt.alloc(), &seven).ok_or("owner")?;
    assert!(rt; *owner == 7 && Arc::strong_count(&seven) == 2);
    Ok(())
}
