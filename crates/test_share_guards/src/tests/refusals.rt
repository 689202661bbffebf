//! Guards that are refused for want of memory.

ghost use Rattle.std.specs.Prelude.{◌≡◌, ◌+◌, ◌^◌};

use super::meetings::Tree;
use super::refusing::Refusing;
use node_table::allocator::DefaultAllocator;
use share_guards::pin::PinError;
use share_guards::raw::{Guard, Raw};
use share_holds::gate::NoGate;
use share_state::purse::OwnPurse;
use share_state::state::LockedState;
use std::alloc::Global;
use std::marker::Brand;
use std::sync::Wait;
use std::sync::ledger::{Blank, Ledger};
use std::test::Fail;

type Refused = Refusing<Tree>;

type Map<L> = Raw<L, u64, u64, Refused>;

// Whether a guard is refused by each of both calls. Between them one is given, and unpinned.
fn both_refuse<L: Ledger, R: Wait>(rt: &R, map: &Map<L>) -> Result<bool, Fail> {
    let first = match map.pin(rt) {
        Err(PinError::Oom(_)) => true,
        Err(PinError::NoSeat) | Ok(_) => false,
    };
    map.pin(rt)?.unpin(rt);
    Ok(first && map.pin_waiting(rt).is_err())
}

// What a guard finds at 1, which another one has stored there.
fn found_by<L: Ledger, R: Wait>(
    rt: &R,
    map: &Map<L>,
    other: &mut Guard<'_, L, u64, u64, Refused>,
) -> Result<Option<u64>, Fail>
    requires { other.old.table ≡ map.now }
{
    let mut guard = map.pin_waiting(rt)?;
    other.meet(&mut guard);
    Ok(map.get(rt, &mut guard, 1, &mut NoGate)?)
}

// A guard stores a value, and two further ones are refused. The value is still there, for this guard and for one that
// is then given.
fn refused_twice<L: Ledger, R: Wait>(
    rt: &R,
    alloc: Global,
    blank: Blank,
) -> Result<(bool, Option<u64>, Option<u64>), Fail>
    requires name { blank.name ≡ L.name }
    requires parts { blank.parts ≡ L.parts }
    requires whole { L.parts ≡ 2 ^ 63 + 1 }
{
    let (state, _) = LockedState::<L, u64, u64, Refused>::new(alloc, DefaultAllocator {}, blank)?;
    let map = Raw::new(alloc, state)?;
    let mut guard = map.pin(rt)?;
    map.insert(rt, &mut guard, 1, 10, &mut OwnPurse, &mut NoGate)?;
    let refused = both_refuse(rt, &map)?;
    let found = map.get(rt, &mut guard, 1, &mut NoGate)?;
    let by_another = found_by(rt, &map, &mut guard)?;
    Ok((refused, found, by_another))
}

#[test]
fn a_refused_guard_changes_nothing(rt: HostRuntime) -> Result<(), Fail> {
    let found = refused_twice::<Brand, _>(&rt, rt.alloc(), Blank::new((1 << 63) + 1))?;
    assert!(rt; found == (true, Some(10), Some(10)));
    Ok(())
}
