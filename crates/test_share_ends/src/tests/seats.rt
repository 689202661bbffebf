//! Where a map has one seat to give, a second guard is refused, and after `unpin` it is given.

ghost use Rattle.std.specs.Prelude.{◌≡◌, ◌+◌, ◌^◌};

use super::one_seat::OneSeat;
use congee::DefaultAllocator;
use share_backend::snapshots::{Made, Owners, Pages};
use share_faces::congee_arc::CongeeArc;
use share_faces::typed_congee::Congee;
use share_faces::u64_congee::U64Congee;
use share_tree::direct::Direct;
use std::alloc::Global;
use std::marker::Brand;
use std::sync::ledger::{Blank, Ledger};
use std::sync::{Arc, Wait};
use std::test::Fail;

type Numbers = OneSeat<Direct<u64, DefaultAllocator>>;

type Owned = OneSeat<Direct<Arc<u64>, DefaultAllocator>>;

// Whether both calls refuse a guard while there is one, and give one after that is unpinned.
fn are_freed<L: Ledger, R: Wait>(
    rt: &R,
    alloc: Global,
    blank: Blank,
) -> Result<(bool, bool, bool), Fail>
    requires name { blank.name ≡ L.name }
    requires parts { blank.parts ≡ L.parts }
    requires whole { L.parts ≡ 2 ^ 63 + 1 }
{
    let (map, _) = Congee::<L, u64, u64, Numbers>::new(alloc, blank, DefaultAllocator {})?;
    let one = map.pin(rt)?;
    let refused = map.pin(rt).is_err() && map.pin_waiting(rt).is_err();
    map.unpin(rt, one);
    let two = map.pin_waiting(rt)?;
    let again = map.pin(rt).is_err();
    map.unpin(rt, two);
    Ok((refused, again, map.pin(rt).is_ok()))
}

fn are_freed_by_number<L: Ledger, R: Wait>(
    rt: &R,
    alloc: Global,
    blank: Blank,
) -> Result<(bool, bool, bool), Fail>
    requires name { blank.name ≡ L.name }
    requires parts { blank.parts ≡ L.parts }
    requires whole { L.parts ≡ 2 ^ 63 + 1 }
{
    let (map, _) = U64Congee::<L, u64, Numbers>::new(alloc, blank)?;
    let one = map.pin(rt)?;
    let refused = map.pin(rt).is_err() && map.pin_waiting(rt).is_err();
    map.unpin(rt, one);
    let two = map.pin_waiting(rt)?;
    let again = map.pin(rt).is_err();
    map.unpin(rt, two);
    Ok((refused, again, map.pin(rt).is_ok()))
}

fn are_freed_by_owner<L: Ledger, R: Wait>(
    rt: &R,
    alloc: Global,
    blank: Blank,
) -> Result<(bool, bool, bool), Fail>
    requires name { blank.name ≡ L.name }
    requires parts { blank.parts ≡ L.parts }
    requires whole { L.parts ≡ 2 ^ 63 + 1 }
{
    let (map, _) = CongeeArc::<L, u64, u64, Owned>::new(alloc, blank)?;
    let one = map.pin(rt)?;
    let refused = map.pin(rt).is_err() && map.pin_waiting(rt).is_err();
    map.unpin(rt, one);
    let two = map.pin_waiting(rt)?;
    let again = map.pin(rt).is_err();
    map.unpin(rt, two);
    Ok((refused, again, map.pin(rt).is_ok()))
}

#[test]
fn a_seat_is_free_again_after_unpin(rt: HostRuntime) -> Result<(), Fail> {
    let typed = are_freed::<Brand, _>(&rt, rt.alloc(), Blank::new((1 << 63) + 1))?;
    assert!(rt; typed == (true, true, true));
    let number = are_freed_by_number::<Brand, _>(&rt, rt.alloc(), Blank::new((1 << 63) + 1))?;
    assert!(rt; number == (true, true, true));
    let owner = are_freed_by_owner::<Brand, _>(&rt, rt.alloc(), Blank::new((1 << 63) + 1))?;
    assert!(rt; owner == (true, true, true));
    Ok(())
}
