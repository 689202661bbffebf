//! Calls of `U64Congee` as data, and whole runs of them.
//!
//! Tested in `test_owned/faces`.

ghost use Rattle.std.specs.Prelude.{◌≡◌, take, IfOk, OnErr, map as each};
ghost use Rattle.std.specs.Int.{to_be_bytes, w64};
ghost use Rattle.spec_map.specs.Map.{between};
ghost use Rattle.spec_map.specs.Refusal.{at_new_node};
ghost use Rattle.face_runs.specs.U64Calls.{AreLegalU64Replies, IsLegalU64Reply};

use face_u64::u64_congee::U64Congee;
use node_table::allocator::Allocator;
use spec_map::error::OOMError;
use spec_map::traits::Word;
use std::alloc::Global;

/// A call with values of type `V`.
#[derive(Clone, Copy, Debug, PartialEq, Eq)]
pub enum U64Call<V: Copy> {
    /// The value at a key.
    Get(u64),
    /// Sets the value at a key.
    Insert(u64, V),
    /// Removes a key.
    Remove(u64),
    /// The first pairs with keys from the first one on and below the second, at most so many.
    Range(u64, u64, usize),
}

/// What a call returns.
#[derive(Debug, PartialEq, Eq, Drop)]
pub enum U64Reply<V: Copy> {
    /// The previous value.
    Old(Option<V>),
    /// The pairs of a range, ascending: keys as bytes, values as numbers.
    Ranged(Vec<([u8; 8], u64)>),
    /// There was no memory for it, and nothing was changed.
    Refused,
}

/// Makes one call. A range is written into a list of its own, and isn't made where there is no memory for that.
pub fn make_u64_call<V: Word, A: Allocator>(
    alloc: Global,
    map: &mut U64Congee<V, A>,
    call: &U64Call<V>,
) -> U64Reply<V>
    ensures { IsLegalU64Reply V.number V.of_number at_new_node
        map.old.pairs call.now result map.new.pairs }
{
    match call {
        U64Call::Get(key) => U64Reply::Old(map.get(*key)),
        U64Call::Insert(key, val) => match map.insert(*key, *val) {
            Ok(before) => U64Reply::Old(before),
            Err(_) => U64Reply::Refused,
        },
        U64Call::Remove(key) => U64Reply::Old(map.remove(*key)),
        U64Call::Range(start, end, limit) => match bytes_between(alloc, map, *start, *end, *limit) {
            Ok(pairs) => U64Reply::Ranged(pairs),
            Err(_) => U64Reply::Refused,
        },
    }
}

// The first pairs with keys from `start` on and below `end`, at most so many, in a list of their own.
fn bytes_between<V: Word, A: Allocator>(
    alloc: Global,
    map: &U64Congee<V, A>,
    start: u64,
    end: u64,
    limit: usize,
) -> Result<Vec<([u8; 8], u64)>, OOMError>
    ensures { IfOk result (λ pairs. pairs.items
        ≡ take limit (each (λ e. (to_be_bytes w64 e.0, e.1)) (between map.now.pairs start end))) }
{
    let mut pairs = vec![in alloc; ([0; 8], 0); limit]?;
    let count = map.range(start, end, &mut pairs);
    pairs.truncate(count);
    Ok(pairs)
}

/// Makes the calls, one after another, and returns their replies. `OOMError` comes where there is no memory for the
/// list of replies; then the pairs are unchanged.
pub fn run_u64_calls<V: Word, A: Allocator>(
    alloc: Global,
    map: &mut U64Congee<V, A>,
    calls: &[U64Call<V>],
) -> Result<Vec<U64Reply<V>>, OOMError>
    ensures run { IfOk result (λ replies.
        AreLegalU64Replies V.number V.of_number at_new_node
        map.old.pairs calls.now replies.items map.new.pairs) }
    ensures err { OnErr result (map.new.pairs ≡ map.old.pairs) }
{
    let mut replies = Vec::with_capacity(alloc, calls.len())?;
    for call in calls {
        replies.push(make_u64_call(alloc, map, call)).unwrap();
    }
    Ok(replies)
}
