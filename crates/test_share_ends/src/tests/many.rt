//! The removal of many pairs, up to a last key and by closures, and a map that threads shared as one with one owner.

ghost use Rattle.std.specs.Prelude.{◌≡◌, ◌+◌, ◌^◌};

use congee::DefaultAllocator;
use congee::locked::{Congee, Guard};
use std::alloc::Global;
use std::marker::Brand;
use std::sync::Wait;
use std::sync::ledger::{Blank, Ledger};
use std::test::Fail;

type Map<L> = Congee<L, u64, u64>;

// Puts 10, 20, 30 and the greatest key into the map, with the values 1, 2, 3 and 4.
fn fill<L: Ledger, R: Wait>(rt: &R, map: &Map<L>, guard: &mut Guard<'_, L>) -> Result<(), Fail>
    requires { guard.old.table ≡ map.now }
    ensures { guard.new.table ≡ guard.old.table }
{
    for (key, value) in [(20, 2), (u64::MAX, 4), (10, 1), (30, 3)] {
        map.insert(rt, guard, key, value)?;
    }
    Ok(())
}

// Whether these keys are in the map, and no others.
fn has<L: Ledger, R: Wait>(
    rt: &R,
    map: &Map<L>,
    guard: &mut Guard<'_, L>,
    alloc: Global,
    keys: &[u64],
) -> Result<bool, Fail>
    requires { guard.old.table ≡ map.now }
    ensures { guard.new.table ≡ guard.old.table }
{
    let found = map.keys_recorded(rt, guard, alloc)?;
    Ok(found.as_slice() == keys)
}

// How many pairs from 30 on are removed, whether the others stay, and how many are left.
fn to_the_last<L: Ledger, R: Wait>(
    rt: &R,
    alloc: Global,
    blank: Blank,
) -> Result<(u128, bool, u128), Fail>
    requires name { blank.name ≡ L.name }
    requires parts { blank.parts ≡ L.parts }
    requires whole { L.parts ≡ 2 ^ 63 + 1 }
{
    let (map, share) = Map::<L>::new(alloc, blank, DefaultAllocator {})?;
    let mut guard = map.pin(rt)?;
    fill(rt, &map, &mut guard)?;
    let removed = map.remove_range_inclusive(rt, &mut guard, &30, &u64::MAX);
    let right = has(rt, &map, &mut guard, alloc, &[10, 20])?;
    map.unpin(rt, guard);
    Ok((removed, right, map.settle(rt, share).ok().unwrap_or(9)))
}

#[test]
fn a_range_is_removed_to_the_greatest_key(rt: HostRuntime) -> Result<(), Fail> {
    let done = to_the_last::<Brand, _>(&rt, rt.alloc(), Blank::new((1 << 63) + 1))?;
    assert!(rt; done == (2, true, 2));
    Ok(())
}

// The sum of the values from 11 to 29, which are taken out. Then the sum of those that a closure is asked about, which
// keeps all but 30. Then whether the others stay, and how many are left.
fn by_closures<L: Ledger, R: Wait>(
    rt: &R,
    alloc: Global,
    blank: Blank,
) -> Result<(u64, u64, bool, u128), Fail>
    requires name { blank.name ≡ L.name }
    requires parts { blank.parts ≡ L.parts }
    requires whole { L.parts ≡ 2 ^ 63 + 1 }
{
    let (map, share) = Map::<L>::new(alloc, blank, DefaultAllocator {})?;
    let mut guard = map.pin(rt)?;
    fill(rt, &map, &mut guard)?;
    let mut taken = 0u64;
    let mut add = |_key: u64, value: u64| {
        taken = taken.wrapping_add(value);
    };
    map.extract_range(rt, &mut guard, &11, &30, &mut add);
    let mut asked = 0u64;
    let mut keep = |key: u64, value: u64| -> bool {
        asked = asked.wrapping_add(value);
        key != 30
    };
    map.retain(rt, &mut guard, &mut keep);
    let right = has(rt, &map, &mut guard, alloc, &[10, u64::MAX])?;
    map.unpin(rt, guard);
    let left = map.settle(rt, share).ok().unwrap_or(9);
    Ok((taken, asked, right, left))
}

#[test]
fn pairs_are_taken_out_by_closures(rt: HostRuntime) -> Result<(), Fail> {
    let done = by_closures::<Brand, _>(&rt, rt.alloc(), Blank::new((1 << 63) + 1))?;
    assert!(rt; done == (2, 8, true, 2));
    Ok(())
}

// How many pairs the map has once it has one owner, and its least key above 10.
fn owned<L: Ledger, R: Wait>(
    rt: &R,
    alloc: Global,
    blank: Blank,
) -> Result<(u128, Option<u64>), Fail>
    requires name { blank.name ≡ L.name }
    requires parts { blank.parts ≡ L.parts }
    requires whole { L.parts ≡ 2 ^ 63 + 1 }
{
    let (map, _share) = Map::<L>::new(alloc, blank, DefaultAllocator {})?;
    let mut guard = map.pin(rt)?;
    fill(rt, &map, &mut guard)?;
    map.remove(rt, &mut guard, &20);
    let note = guard.note();
    map.unpin(rt, guard);
    let tree = map.into_owned(rt, note).into_tree();
    Ok((tree.value_count(), tree.key_from(11)))
}

#[test]
fn a_map_has_one_owner_again(rt: HostRuntime) -> Result<(), Fail> {
    let done = owned::<Brand, _>(&rt, rt.alloc(), Blank::new((1 << 63) + 1))?;
    assert!(rt; done == (3, Some(30)));
    Ok(())
}
