//! Two threads empty a map from its two ends: each pair is popped once.

ghost use Rattle.std.specs.Prelude.{◌≡◌, ◌+◌, ◌^◌};

use congee::locked::{Guard, U64Congee};
use std::alloc::Global;
use std::marker::Brand;
use std::sync::Wait;
use std::sync::ledger::{Blank, Ledger};
use std::test::Fail;
use std::thread::{Threads, join};

type Map<L> = U64Congee<L, u64>;

// How many pairs this thread pops, and the sum of their values.
fn popped<L: Ledger, R: Wait>(
    rt: &R,
    map: &Map<L>,
    mut guard: Guard<'_, L>,
    from_the_last: bool,
) -> (u64, u64)
    requires { guard.table ≡ map.now }
{
    let mut count = 0u64;
    let mut sum = 0u64;
    for _ in 0..200u32 {
        let pair = if from_the_last {
            map.pop_last(rt, &mut guard)
        } else {
            map.pop_first(rt, &mut guard)
        };
        if let Some((_, value)) = pair {
            count = count.wrapping_add(1);
            sum = sum.wrapping_add(value);
        }
    }
    (count, sum)
}

// Puts the keys from 1 to 100 into the map, each its own value.
fn fill<L: Ledger, R: Wait>(rt: &R, map: &Map<L>, guard: &mut Guard<'_, L>) -> Result<(), Fail>
    requires { guard.old.table ≡ map.now }
    ensures { guard.new.table ≡ guard.old.table }
{
    for key in 1..=100u64 {
        map.insert(rt, guard, key, key)?;
    }
    Ok(())
}

fn from_both_ends<L: Ledger + Send + Sync, R: Threads + Wait + Sync>(
    rt: &R,
    alloc: Global,
    blank: Blank,
) -> Result<(u64, u64, u128), Fail>
    requires name { blank.name ≡ L.name }
    requires parts { blank.parts ≡ L.parts }
    requires whole { L.parts ≡ 2 ^ 63 + 1 }
{
    let (map, share) = Map::<L>::new(alloc, blank)?;
    let mut guard = map.pin(rt)?;
    fill(rt, &map, &mut guard)?;
    let other = map.pin(rt)?;
    let shared = &map;
    let (one, two) = join(
        rt,
        || popped(rt, shared, guard, false),
        || popped(rt, shared, other, true),
    );
    let left = map.settle(rt, share).ok().unwrap_or(9);
    Ok((one.0.wrapping_add(two.0), one.1.wrapping_add(two.1), left))
}

#[test]
fn each_pair_is_popped_once(rt: HostRuntime) -> Result<(), Fail> {
    let done = from_both_ends::<Brand, _>(&rt, rt.alloc(), Blank::new((1 << 63) + 1))?;
    assert!(rt; done == (100, 5050, 0));
    Ok(())
}
