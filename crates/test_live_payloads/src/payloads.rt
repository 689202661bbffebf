//! Maps of payloads, which are owners of numbers here.
ghost use Rattle.live_payloads.specs.Payloads.{IsGuardOf};

mod alone;
mod beside;
mod churn;
mod computed;
mod exchanges;
mod limits;
mod moved;
mod neighbours;
mod pages;
mod refusals;

use live_payloads::live::{CongeeArc, PayloadGuard};
use std::alloc::Global;
use std::sync::{Arc, Wait};

pub type Map = CongeeArc<u64, u64>;

pub type Guard = PayloadGuard<Arc<u64>>;

/// What an insertion of a further owner returned: no more than the number that was at the key before, or that it was refused.
#[derive(Clone, Copy, Debug, PartialEq, Eq)]
pub enum Inserted {
    New,
    Replaced(u64),
    Refused,
}

/// Inserts a further owner.
pub fn insert<R: Wait>(
    rt: &R,
    alloc: Global,
    map: &Map,
    guard: &mut Guard,
    key: u64,
    owner: &Arc<u64>,
) -> Inserted
    requires { IsGuardOf map.now guard.old }
    ensures { IsGuardOf map.now guard.new }
{
    let Ok(one) = Arc::try_clone(owner) else {
        return Inserted::Refused;
    };
    match map.insert(rt, alloc, guard, key, one) {
        Ok(Some(before)) => Inserted::Replaced(**before.get()),
        Ok(None) => Inserted::New,
        Err(_) => Inserted::Refused,
    }
}

/// The number of the key's owner.
pub fn get<R: Wait>(rt: &R, map: &Map, guard: &mut Guard, key: u64) -> Option<u64>
    requires { IsGuardOf map.now guard.old }
    ensures { IsGuardOf map.now guard.new }
{
    let lent = map.get(rt, guard, &key)?;
    Some(**lent.get())
}

/// Removes the key: the number of its owner.
pub fn remove<R: Wait>(rt: &R, map: &Map, guard: &mut Guard, key: u64) -> Option<u64>
    requires { IsGuardOf map.now guard.old }
    ensures { IsGuardOf map.now guard.new }
{
    let lent = map.remove(rt, guard, &key)?;
    Some(**lent.get())
}
