//! The content after the calls that are decided so far: its pairs, keys ascending, in a vector that has room for them.
//!
//! Tested in `test_serve` and `examples/schedules/`.

ghost use Rattle.std.specs.Prelude.{◌≡◌, ◌≢◌, ℕ, ◌+◌, ◌<◌, ◌≤◌, length, slice_index_or, IfSome, IfNone, vec_len, vec_capacity};
ghost use Rattle.spec_map.specs.Legal.{after_operation, after_exchange, exchange};
ghost use Rattle.spec_map.specs.Map.{lookup, put, without, with_answer};
ghost use Rattle.spec_olc.specs.Runs.{operation_of, same_number};
ghost use Rattle.text_trace.specs.inner.Places.{IsFirstAt, IsNowhere, IsPlaceFor};

use spec_olc::trace::Decision;
use spec_olc::types::Op;

/// Makes a decided call on the content.
pub(crate) fn make_call(pairs: &mut Vec<(u64, u64)>, decision: &Decision)
    requires room { vec_len pairs.old < vec_capacity pairs.old }
    ensures pairs { pairs.new.items
        ≡ after_operation same_number pairs.old.items (operation_of decision.now) }
    ensures len { vec_len pairs.new ≤ vec_len pairs.old + 1 }
    ensures capacity { vec_capacity pairs.old ≤ vec_capacity pairs.new }
{
    match &decision.op {
        Op::Get(_) => {}
        Op::Insert(key, value) => put(pairs, *key, *value),
        Op::Remove(key) => take_out(pairs, *key),
        Op::ComputeIfPresent(key) => {
            if let Some((_, answer)) = decision.asked {
                put_answer(pairs, *key, answer);
            }
        }
        Op::ComputeOrInsert(key, otherwise) => match decision.asked {
            None => {}
            Some((_, None)) => put(pairs, *key, *otherwise),
            Some((_, Some(answer))) => put(pairs, *key, answer),
        },
        Op::CompareExchange(key, old, new) => exchange(pairs, *key, *old, *new),
        Op::Range(_, _, _) => {}
    }
}

// Where the key has the old value, puts the new one there, or takes the key out.
fn exchange(pairs: &mut Vec<(u64, u64)>, key: u64, old: u64, new: Option<u64>)
    requires room { vec_len pairs.old < vec_capacity pairs.old }
    ensures pairs { pairs.new.items ≡ after_exchange pairs.old.items key
        (exchange same_number (lookup pairs.old.items key) old new) }
    ensures len { vec_len pairs.new ≤ vec_len pairs.old + 1 }
    ensures capacity { vec_capacity pairs.old ≤ vec_capacity pairs.new }
{
    match find(pairs, key) {
        None => {}
        Some(at) => {
            if pairs[at].1 == old {
                put_answer(pairs, key, new);
            }
        }
    }
}

// Puts the value at the key, or takes the key out.
fn put_answer(pairs: &mut Vec<(u64, u64)>, key: u64, answer: Option<u64>)
    requires room { vec_len pairs.old < vec_capacity pairs.old }
    ensures pairs { pairs.new.items ≡ with_answer pairs.old.items key answer }
    ensures len { vec_len pairs.new ≤ vec_len pairs.old + 1 }
    ensures capacity { vec_capacity pairs.old ≤ vec_capacity pairs.new }
{
    match answer {
        None => take_out(pairs, key),
        Some(value) => put(pairs, key, value),
    }
}

// Puts the value at the key.
fn put(pairs: &mut Vec<(u64, u64)>, key: u64, value: u64)
    requires room { vec_len pairs.old < vec_capacity pairs.old }
    ensures pairs { pairs.new.items ≡ put pairs.old.items key value }
    ensures len { vec_len pairs.new ≤ vec_len pairs.old + 1 }
    ensures capacity { vec_capacity pairs.old ≤ vec_capacity pairs.new }
{
    let at = place_for(pairs, key);
    if at < pairs.len() && pairs[at].0 == key {
        pairs[at] = (key, value);
        return;
    }
    match pairs.insert(at, (key, value)) {
        Ok(()) => {}
        Err(_) => unreachable!(),
    }
}

// Takes the key out.
fn take_out(pairs: &mut Vec<(u64, u64)>, key: u64)
    ensures pairs { pairs.new.items ≡ without pairs.old.items key }
    ensures len { vec_len pairs.new ≤ vec_len pairs.old }
    ensures capacity { vec_capacity pairs.old ≤ vec_capacity pairs.new }
{
    match find(pairs, key) {
        None => {}
        Some(at) => {
            pairs.remove(at);
        }
    }
}

// The place of the first pair whose key isn't smaller, or else the length.
fn place_for(pairs: &[(u64, u64)], key: u64) -> usize
    ensures { IsPlaceFor pairs.now key result }
{
    for (i, pair) in pairs.iter().enumerate() {
        if pair.0 >= key {
            return i;
        }
    }
    pairs.len()
}

// The place of the key.
fn find(pairs: &[(u64, u64)], key: u64) -> Option<usize>
    ensures found { IfSome result (IsFirstAt pairs.now key) }
    ensures absent { IfNone result (IsNowhere pairs.now key) }
{
    for (i, pair) in pairs.iter().enumerate() {
        if pair.0 == key {
            return Some(i);
        }
    }
    None
}
