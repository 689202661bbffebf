//! Calls that look a key up and then store a payload, by hand values.
ghost use Rattle.std.specs.Prelude.{◌≡◌, ◌+◌, ◌^◌, ◌%◌};
ghost use Rattle.live_payloads.specs.Payloads.{IsGuardOf};

use super::{Guard, Inserted, Map, get, insert};
use live_payloads::live::{PayloadCongee, PayloadGuard};
use std::alloc::Global;
use std::sync::{Arc, Wait};
use std::test::Fail;

// What a get_or_insert of a further owner lent, and whether that owner came back.
#[derive(Clone, Copy, Debug, PartialEq, Eq)]
enum Got {
    Added(u64),
    Found(u64, u64),
    Refused,
}

fn get_or_insert<R: Wait>(
    rt: &R,
    alloc: Global,
    map: &Map,
    guard: &mut Guard,
    key: u64,
    owner: &Arc<u64>,
    tries: bool,
) -> Got
    requires { IsGuardOf map.now guard.old }
    ensures { IsGuardOf map.now guard.new }
{
    let Ok(one) = Arc::try_clone(owner) else {
        return Got::Refused;
    };
    let both = if tries {
        map.try_get_or_insert(rt, alloc, guard, &key, one).ok()
    } else {
        map.get_or_insert(rt, alloc, guard, key, one).ok()
    };
    let Some((lent, back)) = both else {
        return Got::Refused;
    };
    match back {
        Some(back) => Got::Found(**lent.get(), *back),
        None => Got::Added(**lent.get()),
    }
}

// An absent key gets the owner, and a present one keeps its own.
fn kept<R: Wait>(
    rt: &R,
    alloc: Global,
    map: &Map,
    guard: &mut Guard,
    seven: &Arc<u64>,
    eight: &Arc<u64>,
    tries: bool,
) -> bool
    requires { IsGuardOf map.now guard.old }
    ensures { IsGuardOf map.now guard.new }
{
    let added = get_or_insert(rt, alloc, map, guard, 5, seven, tries) == Got::Added(7);
    let found = get_or_insert(rt, alloc, map, guard, 5, eight, tries) == Got::Found(7, 8);
    let other = get_or_insert(rt, alloc, map, guard, 261, eight, tries) == Got::Added(8);
    let counts = Arc::strong_count(seven) == 2 && Arc::strong_count(eight) == 2;
    let now = get(rt, map, guard, 5) == Some(7) && get(rt, map, guard, 261) == Some(8);
    added && found && other && counts && now && map.value_count(rt, guard) == 2
}

// Whether both owners are there alone in the end.
fn gave_back<R: Wait>(rt: &R, alloc: Global, tries: bool) -> Option<bool> {
    let map: Map = Map::new(alloc).ok()?;
    let mut guard = map.pin();
    let seven = Arc::new(alloc, 7u64).ok()?;
    let eight = Arc::new(alloc, 8u64).ok()?;
    let right = kept(rt, alloc, &map, &mut guard, &seven, &eight, tries);
    map.unpin(guard);
    drop(map);
    Some(right && Arc::strong_count(&seven) == 1 && Arc::strong_count(&eight) == 1)
}

#[test]
fn a_present_key_keeps_its_payload(rt: HostRuntime) {
    assert!(rt; gave_back(&rt, rt.alloc(), false) == Some(true));
    assert!(rt; gave_back(&rt, rt.alloc(), true) == Some(true));
}

// What was computed: no more than the number before, or that it was refused.
#[derive(Clone, Copy, Debug, PartialEq, Eq)]
enum Computed {
    Absent,
    From(u64),
    Refused,
}

// Replaces the key's payload by a further owner of `new`, or removes the key. `asked` has the sum of what the closure was called
// with.
fn compute<R: Wait>(
    rt: &R,
    alloc: Global,
    map: &Map,
    guard: &mut Guard,
    new: Option<&Arc<u64>>,
    asked: &mut u64,
    tries: bool,
) -> Computed
    requires { IsGuardOf map.now guard.old }
    ensures { IsGuardOf map.now guard.new }
{
    let mut sum = 0u64;
    let mut f = |owner: &Arc<u64>| {
        sum = sum.wrapping_add(**owner);
        Arc::try_clone(new?).ok()
    };
    let done = if tries {
        map.try_compute_if_present(rt, alloc, guard, &5, &mut f)
            .ok()
    } else {
        map.compute_if_present(rt, alloc, guard, &5, &mut f).ok()
    };
    *asked = sum;
    match done {
        Some(Some(before)) => Computed::From(**before.get()),
        Some(None) => Computed::Absent,
        None => Computed::Refused,
    }
}

// A payload is replaced, then removed, and then there is none.
fn changed<R: Wait>(
    rt: &R,
    alloc: Global,
    map: &Map,
    guard: &mut Guard,
    eight: &Arc<u64>,
    tries: bool,
) -> bool
    requires { IsGuardOf map.now guard.old }
    ensures { IsGuardOf map.now guard.new }
{
    let mut asked = 0u64;
    let replaced = compute(rt, alloc, map, guard, Some(eight), &mut asked, tries)
        == Computed::From(7)
        && asked == 7;
    let now = get(rt, map, guard, 5) == Some(8) && Arc::strong_count(eight) == 2;
    let removed = compute(rt, alloc, map, guard, None, &mut asked, tries) == Computed::From(8)
        && asked == 8;
    let gone = get(rt, map, guard, 5).is_none() && Arc::strong_count(eight) == 1;
    let absent = compute(rt, alloc, map, guard, Some(eight), &mut asked, tries) == Computed::Absent
        && asked == 0;
    replaced && now && removed && gone && absent
}

// Whether both owners are there alone in the end.
fn changed_all<R: Wait>(rt: &R, alloc: Global, tries: bool) -> Option<bool> {
    let map: Map = Map::new(alloc).ok()?;
    let mut guard = map.pin();
    let seven = Arc::new(alloc, 7u64).ok()?;
    let eight = Arc::new(alloc, 8u64).ok()?;
    let new = insert(rt, alloc, &map, &mut guard, 5, &seven) == Inserted::New;
    let right = new && changed(rt, alloc, &map, &mut guard, &eight, tries);
    map.unpin(guard);
    Some(right && Arc::strong_count(&seven) == 1 && Arc::strong_count(&eight) == 1)
}

#[test]
fn a_payload_is_computed_from_the_one_before(rt: HostRuntime) {
    assert!(rt; changed_all(&rt, rt.alloc(), false) == Some(true));
    assert!(rt; changed_all(&rt, rt.alloc(), true) == Some(true));
}

type Numbers = PayloadCongee<u64, u64>;

// Stores the key's number and one more, or 1 at an absent key: the number before, or that it was refused.
fn count_up<R: Wait>(
    rt: &R,
    alloc: Global,
    map: &Numbers,
    guard: &mut PayloadGuard<u64>,
    key: u64,
    tries: bool,
) -> Computed
    requires { IsGuardOf map.now guard.old }
    ensures { IsGuardOf map.now guard.new }
{
    let mut f = |number: Option<&u64>| match number {
        Some(number) => number.wrapping_add(1),
        None => 1,
    };
    let done = if tries {
        map.try_compute_or_insert(rt, alloc, guard, &key, &mut f)
            .ok()
    } else {
        map.compute_or_insert(rt, alloc, guard, &key, &mut f).ok()
    };
    match done {
        Some(Some(before)) => Computed::From(*before.get()),
        Some(None) => Computed::Absent,
        None => Computed::Refused,
    }
}

// The key's number, if it has one.
fn number_at<R: Wait>(rt: &R, map: &Numbers, guard: &mut PayloadGuard<u64>, key: u64) -> Option<u64>
    requires { IsGuardOf map.now guard.old }
    ensures { IsGuardOf map.now guard.new }
{
    let lent = map.get(rt, guard, &key)?;
    Some(*lent.get())
}

// An absent key gets a first number, and a present one the next. Another key has its own.
fn counted_up<R: Wait>(
    rt: &R,
    alloc: Global,
    map: &Numbers,
    guard: &mut PayloadGuard<u64>,
    tries: bool,
) -> bool
    requires { IsGuardOf map.now guard.old }
    ensures { IsGuardOf map.now guard.new }
{
    let first = count_up(rt, alloc, map, guard, 5, tries) == Computed::Absent;
    let next = count_up(rt, alloc, map, guard, 5, tries) == Computed::From(1);
    let other = count_up(rt, alloc, map, guard, 300, tries) == Computed::Absent;
    let third = count_up(rt, alloc, map, guard, 5, tries) == Computed::From(2);
    let five = number_at(rt, map, guard, 5) == Some(3);
    let other_one = number_at(rt, map, guard, 300) == Some(1);
    first && next && other && third && five && other_one && map.value_count(rt, guard) == 2
}

#[test]
fn an_absent_key_is_computed_from_none(rt: HostRuntime) -> Result<(), Fail> {
    for tries in [false, true] {
        let map: Numbers = PayloadCongee::new(rt.alloc())?;
        let mut guard = map.pin();
        assert!(rt; counted_up(&rt, rt.alloc(), &map, &mut guard, tries));
        map.unpin(guard);
    }
    Ok(())
}
