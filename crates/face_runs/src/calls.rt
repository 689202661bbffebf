//! Calls of a face as data, and whole runs of them: every list of calls is a legal run of one map.
//!
//! Tested in `test_owned/faces`.

ghost use Rattle.std.specs.Prelude.{◌≡◌, ℕ, Some, None, take, IfOk, OnOk, OnErr};
ghost use Rattle.std.specs.Option.{option_map};
ghost use Rattle.spec_map.specs.Map.{lookup, put, with_answer, between};
ghost use Rattle.spec_map.specs.Refusal.{NeedsNode, at_new_node};
ghost use Rattle.face_runs.specs.Calls.{by_numbers, IsLegalReply, AreLegalReplies};

use face_typed::typed_congee::Congee;
use node_table::allocator::Allocator;
use spec_map::error::OOMError;
use spec_map::traits::{Drainer, Word};
use std::alloc::Global;

/// A call with keys of type `K` and values of type `V`. The two compute calls carry what their closure returns when it
/// is called, whatever its argument.
#[derive(Clone, Copy, Debug, PartialEq, Eq)]
pub enum Call<K: Copy, V: Copy> {
    /// The value at a key.
    Get(K),
    /// Sets the value at a key.
    Insert(K, V),
    /// Removes a key.
    Remove(K),
    /// Where the key's current value is the first one, stores the other, or removes the key.
    CompareExchange(K, V, Option<V>),
    /// Stores what the closure returns at a key that is present, or removes the key.
    ComputeIfPresent(K, Option<u64>),
    /// Stores what the closure returns at a key.
    ComputeOrInsert(K, u64),
    /// Whether there is no pair.
    IsEmpty,
    /// All keys.
    Keys,
    /// The first pairs with keys from the first one on and below the second, at most so many.
    Range(K, K, usize),
    /// The pair of the least key.
    First,
    /// The pair of the greatest key.
    Last,
    /// The pair of the greatest key that is at most this one.
    Floor(K),
    /// The pair of the greatest key below this one.
    Below(K),
    /// The pair of the least key that is at least this one.
    Ceiling(K),
    /// The pair of the least key above this one.
    Above(K),
    /// How many pairs there are.
    ValueCount,
}

/// What a call returns.
#[derive(Debug, PartialEq, Eq, Drop)]
pub enum Reply<K: Copy, V: Copy> {
    /// The previous value.
    Old(Option<V>),
    /// What an exchange stored, or the current value where that is another one.
    Exchanged(Result<Option<V>, Option<V>>),
    /// The old number, and what the closure returned for it.
    Computed(Option<(u64, Option<u64>)>),
    /// Whether a test held.
    Tested(bool),
    /// The keys, ascending.
    Listed(Vec<K>),
    /// The pairs of a range by their numbers, ascending.
    Ranged(Vec<(u64, u64)>),
    /// A pair, if there is one.
    Found(Option<(K, V)>),
    /// A count of pairs.
    Counted(u128),
    /// There was no memory for it, and nothing was changed.
    Refused,
}

/// Makes one call. A range is written into a list of its own, and isn't made where there is no memory for that.
pub fn make_call<K: Word, V: Word, A: Allocator, D: Drainer<K, V>>(
    alloc: Global,
    map: &mut Congee<K, V, A, D>,
    call: &Call<K, V>,
) -> Reply<K, V>
    ensures { IsLegalReply (by_numbers K.number K.of_number V.number V.of_number) at_new_node
        map.old.pairs call.now result map.new.pairs }
{
    match call {
        Call::Get(key) => Reply::Old(map.get(key)),
        Call::Insert(key, value) => match map.insert(*key, *value) {
            Ok(before) => Reply::Old(before),
            Err(_) => Reply::Refused,
        },
        Call::Remove(key) => Reply::Old(map.remove(key)),
        Call::CompareExchange(key, old, new) => {
            Reply::Exchanged(map.compare_exchange(key, old, *new))
        }
        Call::ComputeIfPresent(key, answer) => Reply::Computed(change(map, key, *answer)),
        Call::ComputeOrInsert(key, answer) => match set(map, *key, *answer) {
            Ok(before) => Reply::Old(before),
            Err(_) => Reply::Refused,
        },
        Call::IsEmpty => Reply::Tested(map.is_empty()),
        Call::Keys => match map.keys() {
            Ok(keys) => Reply::Listed(keys),
            Err(_) => Reply::Refused,
        },
        Call::Range(start, end, limit) => match pairs_between(alloc, map, start, end, *limit) {
            Ok(pairs) => Reply::Ranged(pairs),
            Err(_) => Reply::Refused,
        },
        Call::First => Reply::Found(map.first()),
        Call::Last => Reply::Found(map.last()),
        Call::Floor(key) => Reply::Found(map.floor(key)),
        Call::Below(key) => Reply::Found(map.below(key)),
        Call::Ceiling(key) => Reply::Found(map.ceiling(key)),
        Call::Above(key) => Reply::Found(map.above(key)),
        Call::ValueCount => Reply::Counted(map.value_count()),
    }
}

// Makes the call whose closure returns this at a key that is present.
fn change<K: Word, V: Word, A: Allocator, D: Drainer<K, V>>(
    map: &mut Congee<K, V, A, D>,
    key: &K,
    answer: Option<u64>,
) -> Option<(u64, Option<u64>)>
    ensures absent { lookup map.old.pairs (K.number key.now) ≡ None
        → (result ≡ None) × (map.new.pairs ≡ map.old.pairs) }
    ensures present { (current : ℕ) → lookup map.old.pairs (K.number key.now) ≡ Some current
        → (result ≡ Some (current, answer))
        × (map.new.pairs ≡ with_answer map.old.pairs (K.number key.now) answer) }
{
    map.compute_if_present(key, &mut |_standing: u64| answer)
}

// Makes the call whose closure returns this.
fn set<K: Word, V: Word, A: Allocator, D: Drainer<K, V>>(
    map: &mut Congee<K, V, A, D>,
    key: K,
    answer: u64,
) -> Result<Option<V>, OOMError>
    ensures before { IfOk result
        (λ before. before ≡ option_map V.of_number (lookup map.old.pairs (K.number key))) }
    ensures ok { OnOk result (map.new.pairs ≡ put map.old.pairs (K.number key) answer) }
    ensures err { OnErr result (map.new.pairs ≡ map.old.pairs) }
    ensures refused { OnErr result (NeedsNode map.old.pairs (K.number key)) }
{
    map.compute_or_insert(key, &mut |_standing: Option<u64>| answer)
}

/// The first pairs with keys from `start` on and below `end`, at most so many, in a list of their own: 16 bytes for
/// each that is asked for. `OOMError` comes where there is no memory for it.
pub fn pairs_between<K: Word, V: Word, A: Allocator, D: Drainer<K, V>>(
    alloc: Global,
    map: &Congee<K, V, A, D>,
    start: &K,
    end: &K,
    limit: usize,
) -> Result<Vec<(u64, u64)>, OOMError>
    ensures { IfOk result (λ pairs.
        pairs.items ≡ take limit (between map.now.pairs (K.number start.now) (K.number end.now))) }
{
    let mut pairs = vec![in alloc; (0, 0); limit]?;
    let count = map.range(start, end, &mut pairs);
    pairs.truncate(count);
    Ok(pairs)
}

/// Makes the calls, one after another, and returns their replies. `OOMError` comes where there is no memory for the
/// list of replies; then the pairs are unchanged.
pub fn run_calls<K: Word, V: Word, A: Allocator, D: Drainer<K, V>>(
    alloc: Global,
    map: &mut Congee<K, V, A, D>,
    calls: &[Call<K, V>],
) -> Result<Vec<Reply<K, V>>, OOMError>
    ensures run { IfOk result (λ replies.
        AreLegalReplies (by_numbers K.number K.of_number V.number V.of_number) at_new_node
        map.old.pairs calls.now replies.items map.new.pairs) }
    ensures err { OnErr result (map.new.pairs ≡ map.old.pairs) }
{
    let mut replies = Vec::with_capacity(alloc, calls.len())?;
    for call in calls {
        replies.push(make_call(alloc, map, call)).unwrap();
    }
    Ok(replies)
}
