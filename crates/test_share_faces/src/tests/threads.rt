//! Closures, each asked once about a key that is there, and two threads with a guard each.

ghost use Rattle.std.specs.Prelude.{◌≡◌, ◌+◌, ◌^◌};

use congee::{DefaultAllocator, locked, shared};
use share_backend::snapshots::Pages;
use share_faces::typed_congee::{Congee, Guard};
use std::alloc::Global;
use std::marker::Brand;
use std::sync::Wait;
use std::sync::ledger::{Blank, Ledger};
use std::test::Fail;
use std::thread::{Threads, join};

type Map<L, M> = Congee<L, u64, u64, M>;

// Stores a thousand keys, and reads each back. Returns how many came back.
fn stored<L: Ledger, M: Pages, R: Wait>(
    rt: &R,
    map: &Map<L, M>,
    mut guard: Guard<'_, L, M>,
    first: u64,
) -> u64
    requires { guard.table ≡ map.now }
{
    let mut back = 0u64;
    for i in 0..1000u64 {
        let key = first.wrapping_add(i);
        let is_new = map.insert(rt, &mut guard, key, key).ok() == Some(None);
        if is_new && map.get(rt, &mut guard, &key) == Some(key) {
            back = back.wrapping_add(1);
        }
    }
    map.unpin(rt, guard);
    back
}

// How many keys of two threads came back, and how many there are then.
fn stored_by_two<L: Ledger + Send + Sync, M: Pages + Send, R: Threads + Wait + Sync>(
    rt: &R,
    alloc: Global,
    map: &Map<L, M>,
) -> Result<(u64, u64, usize), Fail> {
    let one = map.pin(rt)?;
    let two = map.pin(rt)?;
    let (first, second) = join(
        rt,
        || stored(rt, map, one, 0),
        || stored(rt, map, two, 5000),
    );
    Ok((first, second, map.keys(rt, alloc)?.len()))
}

// Computations where the key is present, on a map with the value 12 at 1: the key, what the closure answers, what the
// call returns, how often the closure is asked, and the sum of what it is asked with.
const COMPUTED: [(u64, Option<u64>, Option<(u64, Option<u64>)>, u64, u64); 4] = [
    (4, Some(1), None, 0, 0),
    (1, Some(13), Some((12, Some(13))), 1, 12),
    (1, None, Some((13, None)), 1, 13),
    (1, Some(1), None, 0, 0),
];

// The number of the computations before the first wrong one.
fn right_computations<L: Ledger, M: Pages, R: Wait>(
    rt: &R,
    map: &Map<L, M>,
    guard: &mut Guard<'_, L, M>,
) -> usize
    requires { guard.old.table ≡ map.now }
{
    let mut right = 0;
    for (key, answer, expected, times, sum) in COMPUTED {
        let mut asked = (0u64, 0u64);
        let mut answers = |old: u64| -> Option<u64> {
            asked = (asked.0.wrapping_add(1), asked.1.wrapping_add(old));
            answer
        };
        let both = map.compute_if_present(rt, guard, &key, &mut answers);
        if both != expected || asked != (times, sum) {
            return right;
        }
        right = right.saturating_add(1);
    }
    right
}

// The right computations on an empty map, and then what two threads store.
fn computed_and_stored<L: Ledger + Send + Sync, M: Pages + Send, R: Threads + Wait + Sync>(
    rt: &R,
    alloc: Global,
    map: &Map<L, M>,
) -> Result<(usize, (u64, u64, usize)), Fail> {
    let mut guard = map.pin(rt)?;
    map.insert(rt, &mut guard, 1, 12)?;
    let right = right_computations(rt, map, &mut guard);
    Ok((right, stored_by_two(rt, alloc, map)?))
}

fn over_events<L: Ledger + Send + Sync, R: Threads + Wait + Sync>(
    rt: &R,
    alloc: Global,
    blank: Blank,
) -> Result<(usize, (u64, u64, usize)), Fail>
    requires name { blank.name ≡ L.name }
    requires parts { blank.parts ≡ L.parts }
    requires whole { L.parts ≡ 2 ^ 63 + 1 }
{
    let (map, _) = shared::Congee::<L, u64, u64>::new(alloc, blank, DefaultAllocator {})?;
    computed_and_stored(rt, alloc, &map)
}

fn over_tree<L: Ledger + Send + Sync, R: Threads + Wait + Sync>(
    rt: &R,
    alloc: Global,
    blank: Blank,
) -> Result<(usize, (u64, u64, usize)), Fail>
    requires name { blank.name ≡ L.name }
    requires parts { blank.parts ≡ L.parts }
    requires whole { L.parts ≡ 2 ^ 63 + 1 }
{
    let (map, _) = locked::Congee::<L, u64, u64>::new(alloc, blank, DefaultAllocator {})?;
    computed_and_stored(rt, alloc, &map)
}

#[test]
fn closures_are_asked_once_and_two_guards_fill_a_map(rt: HostRuntime) -> Result<(), Fail> {
    let events = over_events::<Brand, _>(&rt, rt.alloc(), Blank::new((1 << 63) + 1))?;
    assert!(rt; events == (4, (1000, 1000, 2000)));
    let tree = over_tree::<Brand, _>(&rt, rt.alloc(), Blank::new((1 << 63) + 1))?;
    assert!(rt; tree == (4, (1000, 1000, 2000)));
    Ok(())
}
