//! Calls that put the new value together from the current one, in one path through the tree.
//!
//! Tested in `tools/c-library`.

ghost use Rattle.std.specs.Prelude.{◌≡◌, ◌≢◌, ℕ, pos, ◌⊎◌, None, Some, IfOk, OnOk, OnErr, unwrap_or};
ghost use Rattle.spec_map.specs.Map.{lookup, put, without, IsMap};
ghost use Rattle.spec_map.specs.Refusal.{NeedsNode};
ghost use Rattle.tree_edit.specs.Tree.{ChargesForNodes, StoresSame};
ghost use Rattle.congee_c.specs.Answer.{is_there, put_if_there, sum_with, oom};
ghost use Rattle.congee_c.specs.Limit.{limit_charge};

use crate::handle::Handle;
use crate::held::Held;
use crate::{OOM, answer};
use spec_map::error::OOMError;

/// Adds a number to the key's value, modulo 2 to the 64, so a sum past `u64::MAX` wraps. A new key gets the number as its
/// value. Answers as `congee_c_insert`, with the value before the addition in `before`.
#[unsafe(no_mangle)]
pub extern "C" fn congee_c_add(handle: &mut Handle, key: u64, number: u64, before: &mut u64) -> i32
    ensures code { (result ≡ oom)
        ⊎ (result ≡ is_there (lookup handle.old.held.map.pairs key)) }
    ensures pairs { result ≢ oom
        → handle.new.held.map.pairs ≡ put handle.old.held.map.pairs key
        (sum_with (lookup handle.old.held.map.pairs key) number) }
    ensures before { result ≢ oom
        → before.new ≡ put_if_there (lookup handle.old.held.map.pairs key) before.old }
    ensures refused { result ≡ oom
        → StoresSame handle.old.held.map handle.new.held.map × (before.new ≡ before.old) }
    ensures rare { result ≡ oom → NeedsNode handle.old.held.map.pairs key }
    ensures charge { ChargesForNodes limit_charge handle.old.held.map handle.new.held.map }
    ensures place { handle.new.ptr ≡ handle.old.ptr }
{
    let mut sum = |current: Option<u64>| -> u64 {
        match current {
            Some(current) => current.wrapping_add(number),
            None => number,
        }
    };
    match handle.as_mut().map.compute_or_insert(key, &mut sum) {
        Ok(previous) => answer(previous, before),
        Err(_) => OOM,
    }
}

/// Gives the key the value if it has none. Answers 0 then, and 1 for a present key, whose value is written to `found` and
/// stays. For a new key that needs a node it may find no memory: then it answers `OOM`, and nothing changes.
#[unsafe(no_mangle)]
pub extern "C" fn congee_c_get_or_insert(
    handle: &mut Handle,
    key: u64,
    value: u64,
    found: &mut u64,
) -> i32
    ensures code { (result ≡ oom)
        ⊎ (result ≡ is_there (lookup handle.old.held.map.pairs key)) }
    ensures absent { result ≡ pos 0
        → handle.new.held.map.pairs ≡ put handle.old.held.map.pairs key value }
    ensures present { result ≡ pos 1
        → handle.new.held.map.pairs ≡ handle.old.held.map.pairs }
    ensures found { result ≢ oom
        → found.new ≡ put_if_there (lookup handle.old.held.map.pairs key) found.old }
    ensures refused { result ≡ oom
        → StoresSame handle.old.held.map handle.new.held.map × (found.new ≡ found.old) }
    ensures rare { result ≡ oom → NeedsNode handle.old.held.map.pairs key }
    ensures charge { ChargesForNodes limit_charge handle.old.held.map handle.new.held.map }
    ensures place { handle.new.ptr ≡ handle.old.ptr }
{
    match put_if_absent(handle.as_mut(), key, value) {
        Ok(previous) => answer(previous, found),
        Err(_) => OOM,
    }
}

// Stores the value at a new key, and the current value again at a present one. Returns the previous value.
fn put_if_absent(held: &mut Held, key: u64, value: u64) -> Result<Option<u64>, OOMError>
    ensures ordered { IsMap held.old.map.pairs }
    ensures before { IfOk result (λ before. before ≡ lookup held.old.map.pairs key) }
    ensures ok { OnOk result (held.new.map.pairs
        ≡ put held.old.map.pairs key (unwrap_or (lookup held.old.map.pairs key) value)) }
    ensures err { OnErr result (StoresSame held.old.map held.new.map) }
    ensures charge { ChargesForNodes limit_charge held.old.map held.new.map }
    ensures refused { OnErr result (NeedsNode held.old.map.pairs key) }
{
    let mut keep = |current: Option<u64>| -> u64 { current.unwrap_or(value) };
    held.map.law_ordered();
    held.map.compute_or_insert(key, &mut keep)
}

/// If the key's value is `expected`, removes the key and answers 1. If it is another, writes it to `found` and answers 2.
/// If the key is absent, answers 0. Is never refused.
#[unsafe(no_mangle)]
pub extern "C" fn congee_c_compare_remove(
    handle: &mut Handle,
    key: u64,
    expected: u64,
    found: &mut u64,
) -> i32
    ensures absent { lookup handle.old.held.map.pairs key ≡ None
        → (result ≡ pos 0)
        × (handle.new.held.map.pairs ≡ handle.old.held.map.pairs)
        × (found.new ≡ found.old) }
    ensures same { lookup handle.old.held.map.pairs key ≡ Some expected
        → (result ≡ pos 1)
        × (handle.new.held.map.pairs ≡ without handle.old.held.map.pairs key)
        × (found.new ≡ found.old) }
    ensures other { (current : ℕ) → lookup handle.old.held.map.pairs key ≡ Some current
        → current ≢ expected
        → (result ≡ pos 2)
        × (handle.new.held.map.pairs ≡ handle.old.held.map.pairs)
        × (found.new ≡ current) }
    ensures charge { ChargesForNodes limit_charge handle.old.held.map handle.new.held.map }
    ensures place { handle.new.ptr ≡ handle.old.ptr }
{
    let held = handle.as_mut();
    match held.map.compare_exchange(&key, &expected, None) {
        Ok(_) => 1,
        Err(None) => 0,
        Err(Some(current)) => {
            *found = current;
            2
        }
    }
}
