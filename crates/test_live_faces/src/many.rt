//! Many pairs in one call: those that are inserted, those that are taken out, and all keys. By hand values, with memory refused,
//! and beside a writer.

ghost use Rattle.std.specs.Prelude.{◌*◌, ◌/◌, ◌%◌, ◌^◌, ◌≡◌};

use crate::steps::all_hold;
use live_faces::live::{Congee, Guard};
use spec_map::error::OOMError;
use spec_map::traits::Word;
use std::alloc::Global;
use std::process::Abort;
use std::sync::Wait;
use std::test::Fail;
use std::thread::{Threads, join};

type Map = Congee<u64, u64>;

// How many were inserted, if that wasn't all.
fn left<R: Wait>(
    rt: &R,
    alloc: Global,
    map: &Map,
    guard: &mut Guard,
    pairs: &[(u64, u64)],
) -> Option<usize>
    requires { guard.old.book ≡ map.now }
    ensures { guard.new.book ≡ map.now }
{
    match map.insert_many(rt, alloc, guard, pairs) {
        Ok(()) => None,
        Err(error) => Some(error.inserted),
    }
}

// What an extraction returns, and what its closure had: the pairs as digits, the last one first in value.
fn taken<R: Wait>(rt: &R, map: &Map, guard: &mut Guard, first: u64, last: u64) -> (u128, u64)
    requires { guard.old.book ≡ map.now }
    ensures { guard.new.book ≡ map.now }
{
    let mut digits = 0u64;
    let count = map.extract_range_inclusive(
        rt,
        guard,
        &first,
        &last,
        &mut |key: u64, value: u64| {
            digits = digits
                .wrapping_mul(100)
                .wrapping_add(key.wrapping_mul(10))
                .wrapping_add(value);
        },
    );
    (count, digits)
}

// Of two pairs with one key the later one counts. Pairs come out with keys ascending, and both ends.
fn insert_and_take<R: Wait + Abort>(rt: &R, alloc: Global, map: &Map, guard: &mut Guard)
    requires { guard.old.book ≡ map.now }
{
    let steps = [
        left(rt, alloc, map, guard, &[]).is_none(),
        map.is_empty(rt, guard),
        left(rt, alloc, map, guard, &[(7, 1), (3, 2), (9, 4), (3, 5)]).is_none(),
        map.value_count(rt, guard) == 3,
        map.try_get(guard, &3) == Ok(Some(5)),
        taken(rt, map, guard, 4, 6) == (0, 0),
        taken(rt, map, guard, 9, 3) == (0, 0),
        taken(rt, map, guard, 3, 7) == (2, 3571),
        taken(rt, map, guard, 3, 7) == (0, 0),
        taken(rt, map, guard, 0, u64::MAX) == (1, 94),
        map.is_empty(rt, guard),
    ];
    all_hold(rt, &steps);
}

#[test]
fn pairs_go_in_and_come_out_in_order(rt: HostRuntime) -> Result<(), Fail> {
    let map: Map = Congee::new(rt.alloc())?;
    insert_and_take(&rt, rt.alloc(), &map, &mut map.pin());
    Ok(())
}

// Whether both calls list these keys.
fn lists<R: Wait>(
    rt: &R,
    alloc: Global,
    map: &Map,
    guard: &mut Guard,
    keys: &[u64],
) -> Result<bool, OOMError>
    requires { guard.old.book ≡ map.now }
    ensures { guard.new.book ≡ map.now }
{
    let once = match map.try_keys(alloc, guard) {
        Ok(found) => found.as_slice() == keys,
        Err(_) => false,
    };
    let found = map.keys(rt, alloc, guard)?;
    Ok(once && found.as_slice() == keys)
}

// An empty map has no keys. Others ascend, to the greatest.
fn listed<R: Wait>(rt: &R, alloc: Global) -> Result<bool, OOMError> {
    let map: Map = Congee::new(alloc)?;
    let mut guard = map.pin();
    let none = lists(rt, alloc, &map, &mut guard, &[])?;
    let pairs = [(u64::MAX, 1), (300, 2), (0, 3), (299, 4)];
    let all = left(rt, alloc, &map, &mut guard, &pairs).is_none();
    Ok(none && all && lists(rt, alloc, &map, &mut guard, &[0, 299, 300, u64::MAX])?)
}

#[test]
fn keys_ascend(rt: HostRuntime) -> Result<(), Fail> {
    assert!(rt; listed(&rt, rt.alloc())?);
    Ok(())
}

// Keys far from one another, with their numbers.
fn far(pairs: &mut [(u64, u64)]) {
    let mut key = 0u64;
    for i in 0..pairs.len() {
        pairs[i] = (key, i as u64);
        key = key.wrapping_add(0x9e37_79b9_7f4a_7c15);
    }
}

// Inserts more pairs than a limit is for: whether those before the refused one are there, and the refused one isn't.
fn refused<R: Wait>(rt: &R, alloc: Global) -> Result<bool, OOMError> {
    let map: Map = Congee::with_limit(alloc, 10_000)?;
    let mut guard = map.pin();
    let mut pairs = [(0u64, 0u64); 300];
    far(&mut pairs);
    let Some(count) = left(rt, alloc, &map, &mut guard, &pairs) else {
        return Ok(false);
    };
    let there = map.value_count(rt, &mut guard) == count as u128;
    let last = count > 0 && count < 300;
    if !there || !last {
        return Ok(false);
    }
    let before = map.get(rt, &mut guard, &pairs[count - 1].0) == Some(count as u64 - 1);
    Ok(before && map.get(rt, &mut guard, &pairs[count].0).is_none())
}

#[test]
fn pairs_before_a_refused_one_are_there(rt: HostRuntime) -> Result<(), Fail> {
    assert!(rt; refused(&rt, rt.alloc())?);
    Ok(())
}

/// Written as its value divided by ten; n is read back as 10n.
#[derive(Clone, Copy, Debug, PartialEq, Eq)]
struct Tens(u64);

impl Word for Tens {
    ghost number = { λ t. t.0 / 10 };

    ghost of_number = { λ n. record { 0 = (n * 10) % 2 ^ 64 } };

    fn from_u64(n: u64) -> Tens {
        Tens(n.wrapping_mul(10))
    }

    fn into_u64(self) -> u64 {
        self.0 / 10
    }
}

// Keys and values are read back: the keys, and what the closure is handed.
fn read_back<R: Wait>(rt: &R, alloc: Global) -> Result<(bool, u64), OOMError> {
    let map: Congee<Tens, Tens> = Congee::new(alloc)?;
    let mut guard = map.pin();
    map.insert_many(
        rt,
        alloc,
        &mut guard,
        &[(Tens(57), Tens(12)), (Tens(31), Tens(44))],
    )?;
    let keys = map.keys(rt, alloc, &mut guard)?;
    let mut sum = 0u64;
    let _ = map.extract_range_inclusive(
        rt,
        &mut guard,
        &Tens(39),
        &Tens(50),
        &mut |key: Tens, value: Tens| {
            sum = sum
                .wrapping_mul(10_000)
                .wrapping_add(key.0.wrapping_mul(100))
                .wrapping_add(value.0);
        },
    );
    Ok((keys.as_slice() == [Tens(30), Tens(50)].as_slice(), sum))
}

#[test]
fn words_are_read_back(rt: HostRuntime) -> Result<(), Fail> {
    assert!(rt; read_back(&rt, rt.alloc())? == (true, 30_405_010));
    Ok(())
}

// Takes out all pairs, by a guard of its own: how many.
fn all_taken<R: Wait>(rt: &R, map: &Map) -> u128 {
    let mut guard = map.pin();
    taken(rt, map, &mut guard, 0, u64::MAX).0
}

// Takes out pairs while there are fewer than so many, each once: how many.
fn taken_beside<R: Wait>(rt: &R, map: &Map, many: u128) -> u128 {
    let mut count = 0u128;
    for _ in 0..1_000_000u32 {
        count = count.wrapping_add(all_taken(rt, map));
        if count >= many {
            return count;
        }
    }
    count
}

// Whether all pairs go in by a guard of its own.
fn all_inserted<R: Wait>(rt: &R, alloc: Global, map: &Map) -> bool {
    let mut guard = map.pin();
    let mut pairs = [(0u64, 0u64); 300];
    far(&mut pairs);
    left(rt, alloc, map, &mut guard, &pairs).is_none()
}

// One thread inserts, and another one takes out what is there.
fn both<R: Threads + Wait + Sync>(rt: &R, alloc: Global, map: &Map) -> (bool, u128) {
    join(
        rt,
        || all_inserted(rt, alloc, map),
        || taken_beside(rt, map, 300),
    )
}

#[test]
fn each_pair_comes_out_once_beside_a_writer(rt: HostRuntime) -> Result<(), Fail> {
    let map: Map = Congee::new(rt.alloc())?;
    assert!(rt; both(&rt, rt.alloc(), &map) == (true, 300));
    assert!(rt; map.is_empty(&rt, &mut map.pin()));
    Ok(())
}
