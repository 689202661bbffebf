//! A map at its limit of bytes refuses a new key, and the very payload comes back.
ghost use Rattle.live_payloads.specs.Payloads.{IsGuardOf};

use super::{Guard, Map, get};
use live_payloads::live::PayloadCongee;
use std::alloc::Global;
use std::sync::{Arc, Wait};
use std::test::Fail;

const LIMIT: u64 = 24_576;

const STEP: u64 = 0x9e37_79b9_7f4a_7c15;

// Inserts owners at keys far from one another, until one is refused: how many came in, and the one that came back.
fn filled<R: Wait>(
    rt: &R,
    alloc: Global,
    map: &Map,
    guard: &mut Guard,
    owner: &Arc<u64>,
) -> Option<(usize, Arc<u64>)>
    requires { IsGuardOf map.now guard.old }
    ensures { IsGuardOf map.now guard.new }
{
    let mut key = 1u64;
    for count in 0..1000usize {
        let one = Arc::try_clone(owner).ok()?;
        if let Err(failed) = map.insert(rt, alloc, guard, key, one) {
            return Some((count, failed.value));
        }
        key = key.wrapping_add(STEP);
    }
    None
}

// Whether the owner came back, and there is one for each pair beside these two.
fn came_back(found: Option<(usize, Arc<u64>)>, owner: &Arc<u64>) -> bool {
    let Some((count, back)) = found else {
        return false;
    };
    *back == 5 && count > 20 && Arc::strong_count(owner) == count.wrapping_add(2)
}

#[test]
fn a_refused_insertion_gives_the_payload_back(rt: HostRuntime) -> Result<(), Fail> {
    let map: Map = PayloadCongee::with_limit(rt.alloc(), LIMIT)?;
    let mut guard = map.pin();
    let owner = Arc::new(rt.alloc(), 5u64)?;
    let found = filled(&rt, rt.alloc(), &map, &mut guard, &owner);
    assert!(rt; came_back(found, &owner));
    assert!(rt; get(&rt, &map, &mut guard, 1) == Some(5));
    map.unpin(guard);
    drop(map);
    assert!(rt; Arc::strong_count(&owner) == 1);
    Ok(())
}
