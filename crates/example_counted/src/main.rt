//! Two threads fill one map, and count what they put in.
#![tactic(auto)]

ghost use Rattle.std.specs.Prelude.{◌≡◌, ◌+◌, ◌^◌, ◌<◌};

use congee::locked::{Congee, Guard, Share};
use congee::{DefaultAllocator, OOMError};
use std::alloc::Global;
use std::marker::Brand;
use std::sync::Wait;
use std::sync::ledger::{Blank, Ledger};
use std::thread::{Threads, join};

type Map<L> = Congee<L, u64, u64, DefaultAllocator>;

/// Puts ten keys in, from this one on, each counted on the share. Returns whether there was memory for all.
fn fill<L: Ledger, R: Wait>(
    rt: &R,
    map: &Map<L>,
    mut guard: Guard<'_, L>,
    mut share: Share<L>,
    first: u64,
) -> (Share<L>, bool)
    requires map { guard.table ≡ map.now }
    requires small { first < 1000 }
{
    for key in first..first + 10 {
        let Ok(_) = map.insert_counted(rt, &mut guard, &mut share, key, key) else {
            return (share, false);
        };
    }
    map.unpin(rt, guard);
    (share, true)
}

/// Two threads put ten keys in each. How many pairs there are then, where there was memory for all.
fn filled_by_two<L: Ledger + Send + Sync, R: Threads + Wait + Sync>(
    rt: &R,
    alloc: Global,
    blank: Blank,
) -> Result<Option<u128>, OOMError>
    requires name { blank.name ≡ L.name }
    requires parts { blank.parts ≡ L.parts }
    requires whole { L.parts ≡ 2 ^ 63 + 1 }
{
    let (map, mut one) = Map::<L>::new(alloc, blank, DefaultAllocator {})?;
    let Some(two) = one.split() else {
        return Ok(None);
    };
    let (Ok(a), Ok(b)) = (map.pin(rt), map.pin(rt)) else {
        return Ok(None);
    };
    let shared = &map;
    let (a, b) = join(
        rt,
        || fill(rt, shared, a, one, 0),
        || fill(rt, shared, b, two, 10),
    );
    let (mut one, first) = a;
    let (two, second) = b;
    one.join(two);
    match map.settle(rt, one) {
        Ok(count) if first && second => Ok(Some(count)),
        _ => Ok(None),
    }
}

fn main(rt: HostRuntime) -> anyhow::Result<()> {
    if let Some(count) = filled_by_two::<Brand, _>(&rt, rt.alloc(), Blank::new((1 << 63) + 1))? {
        println!(rt; "{count} pairs")?;
    }
    Ok(())
}
