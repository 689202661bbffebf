//! Calls that several of these modules make.

ghost use Rattle.std.specs.Prelude.{◌≡◌};

use live_growth::map::{Busy, Guard};
use live_pool::pool::Pool;
use std::alloc::Global;

/// Inserts as many keys, each with a value of its own. Returns how many were new.
pub(crate) fn filled(
    map: &Pool,
    alloc: Global,
    guard: &mut Guard,
    first: u64,
    step: u64,
    count: u64,
) -> u64
    requires { guard.old.book ≡ map.now }
    ensures { guard.new.book ≡ map.now }
{
    let mut new = 0u64;
    for i in 0..count {
        let key = first.wrapping_add(i.wrapping_mul(step));
        if map.insert(alloc, guard, key, key ^ 1) == Ok(None) {
            new = new.wrapping_add(1);
        }
    }
    new
}

/// What a removal by this guard returns.
pub(crate) fn remove(map: &Pool, guard: &mut Guard, key: u64) -> Result<Option<u64>, Busy>
    requires { guard.old.book ≡ map.now }
    ensures { guard.new.book ≡ map.now }
{
    map.remove(guard, key)
}
