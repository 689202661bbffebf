//! The calls that put the new value together from the current one, in one path through the tree.
//!
//! Tested in `tools/c-library`.

ghost use Rattle.std.specs.Prelude.{◌≡◌, ◌≢◌, ◌⊎◌, None, Some, Ok, Err, pos};
ghost use Rattle.spec_map.specs.Call.{compare_exchange, exchanged};
ghost use Rattle.spec_olc.specs.Runs.{same_number};
ghost use Rattle.share_rule.specs.Known.{MadeCall};
ghost use Rattle.share_works.specs.Made.{returned};
ghost use Rattle.share_calls.specs.Computed.{computed_from, sum_with};
ghost use Rattle.congee_shared_c.specs.Answer.{oom, busy};

use crate::handle::Handle;
use crate::{BUSY, answer};

/// Adds a number to the key's value, modulo 2 to the 64, so a sum past `u64::MAX` wraps. A new key gets the number as its
/// value. Answers as `congee_c_shared_insert`, with the value before the addition in `before`.
#[unsafe(no_mangle)]
pub extern "C" fn congee_c_shared_add(
    handle: &mut Handle,
    key: u64,
    number: u64,
    before: &mut u64,
) -> i32
    ensures code { (result ≡ pos 0) ⊎ (result ≡ pos 1) ⊎ (result ≡ busy) ⊎ (result ≡ oom) }
    ensures present { result ≡ pos 1 → MadeCall same_number handle.old.held.guard
        (computed_from key (Some before.new) (sum_with (Some before.new) number))
        handle.new.held.guard }
    ensures absent { result ≡ pos 0 → MadeCall same_number handle.old.held.guard
        (computed_from key None number) handle.new.held.guard }
    ensures missed { (result ≡ busy) ⊎ (result ≡ oom) → handle.new.held ≡ handle.old.held }
    ensures kept { result ≢ pos 1 → before.new ≡ before.old }
    ensures place { handle.new.ptr ≡ handle.old.ptr }
{
    answer(handle.as_mut().guard.add(key, number), before)
}

/// Gives the key the value if it has none. Answers 0 then, and 1 for a present key, whose value is written to `found` and
/// is stored again; or `BUSY`; or `OOM`, for a new key.
#[unsafe(no_mangle)]
pub extern "C" fn congee_c_shared_get_or_insert(
    handle: &mut Handle,
    key: u64,
    value: u64,
    found: &mut u64,
) -> i32
    ensures code { (result ≡ pos 0) ⊎ (result ≡ pos 1) ⊎ (result ≡ busy) ⊎ (result ≡ oom) }
    ensures present { result ≡ pos 1 → MadeCall same_number handle.old.held.guard
        (computed_from key (Some found.new) found.new) handle.new.held.guard }
    ensures absent { result ≡ pos 0 → MadeCall same_number handle.old.held.guard
        (computed_from key None value) handle.new.held.guard }
    ensures missed { (result ≡ busy) ⊎ (result ≡ oom) → handle.new.held ≡ handle.old.held }
    ensures kept { result ≢ pos 1 → found.new ≡ found.old }
    ensures place { handle.new.ptr ≡ handle.old.ptr }
{
    answer(handle.as_mut().guard.get_or_insert(key, value), found)
}

/// If the key's value is `expected`, removes the key and answers 1. If it is another, writes it to `found` and answers 2.
/// If the key is absent, answers 0. Or answers `BUSY`. Is never refused.
#[unsafe(no_mangle)]
pub extern "C" fn congee_c_shared_compare_remove(
    handle: &mut Handle,
    key: u64,
    expected: u64,
    found: &mut u64,
) -> i32
    ensures code { (result ≡ pos 0) ⊎ (result ≡ pos 1) ⊎ (result ≡ pos 2) ⊎ (result ≡ busy) }
    ensures absent { result ≡ pos 0 → MadeCall same_number handle.old.held.guard
        (returned (compare_exchange key expected None) (exchanged (Err None)))
        handle.new.held.guard }
    ensures same { result ≡ pos 1 → MadeCall same_number handle.old.held.guard
        (returned (compare_exchange key expected None) (exchanged (Ok None)))
        handle.new.held.guard }
    ensures other { result ≡ pos 2 → MadeCall same_number handle.old.held.guard
        (returned (compare_exchange key expected None) (exchanged (Err (Some found.new))))
        handle.new.held.guard }
    ensures missed { result ≡ busy → handle.new.held ≡ handle.old.held }
    ensures kept { result ≢ pos 2 → found.new ≡ found.old }
    ensures place { handle.new.ptr ≡ handle.old.ptr }
{
    match handle.as_mut().guard.compare_exchange(key, expected, None) {
        Ok(Ok(_)) => 1,
        Ok(Err(None)) => 0,
        Ok(Err(Some(current))) => {
            *found = current;
            2
        }
        Err(_) => BUSY,
    }
}
