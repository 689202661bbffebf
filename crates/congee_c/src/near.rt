//! The ends of a map, the neighbours of a key, and ranges that include their last key, in both directions.
//!
//! Tested in `tools/c-library`.

ghost use Rattle.std.specs.Prelude.{◌≡◌, ◌+◌, ◌++◌, length, min, map, take, drop, reverse};
ghost use Rattle.spec_map.specs.Map.{between};
ghost use Rattle.spec_map.specs.Near.{first_of, last_of, floor_of, below_of, ceiling_of, above_of, without_pair};
ghost use Rattle.tree_edit.specs.Tree.{ChargesForNodes};
ghost use Rattle.congee_c.specs.Answer.{is_there};
ghost use Rattle.congee_c.specs.Written.{pair_if_there};
ghost use Rattle.congee_c.specs.Limit.{limit_charge};

use crate::Pair;
use crate::handle::Handle;

/// Writes the pair with the least key to `pair` and answers 1, or answers 0 for an empty map. Takes no memory.
#[unsafe(no_mangle)]
pub extern "C" fn congee_c_first(handle: &mut Handle, pair: &mut Pair) -> i32
    ensures code { result ≡ is_there (first_of handle.old.held.map.pairs) }
    ensures pair { pair.new ≡ pair_if_there (first_of handle.old.held.map.pairs) pair.old }
    ensures same { handle.new.held ≡ handle.old.held }
    ensures place { handle.new.ptr ≡ handle.old.ptr }
{
    answer_pair(handle.as_mut().map.first(), pair)
}

/// Writes the pair with the greatest key to `pair` and answers 1, or answers 0 for an empty map. Takes no memory.
#[unsafe(no_mangle)]
pub extern "C" fn congee_c_last(handle: &mut Handle, pair: &mut Pair) -> i32
    ensures code { result ≡ is_there (last_of handle.old.held.map.pairs) }
    ensures pair { pair.new ≡ pair_if_there (last_of handle.old.held.map.pairs) pair.old }
    ensures same { handle.new.held ≡ handle.old.held }
    ensures place { handle.new.ptr ≡ handle.old.ptr }
{
    answer_pair(handle.as_mut().map.last(), pair)
}

/// Writes the pair with the greatest key that is at most this one to `pair` and answers 1, or answers 0 where there is
/// none. Takes no memory.
#[unsafe(no_mangle)]
pub extern "C" fn congee_c_floor(handle: &mut Handle, key: u64, pair: &mut Pair) -> i32
    ensures code { result ≡ is_there (floor_of handle.old.held.map.pairs key) }
    ensures pair { pair.new ≡ pair_if_there (floor_of handle.old.held.map.pairs key) pair.old }
    ensures same { handle.new.held ≡ handle.old.held }
    ensures place { handle.new.ptr ≡ handle.old.ptr }
{
    answer_pair(handle.as_mut().map.floor(&key), pair)
}

/// Writes the pair with the least key that is at least this one to `pair` and answers 1, or answers 0 where there is none.
/// Takes no memory.
#[unsafe(no_mangle)]
pub extern "C" fn congee_c_ceiling(handle: &mut Handle, key: u64, pair: &mut Pair) -> i32
    ensures code { result ≡ is_there (ceiling_of handle.old.held.map.pairs key) }
    ensures pair { pair.new ≡ pair_if_there (ceiling_of handle.old.held.map.pairs key) pair.old }
    ensures same { handle.new.held ≡ handle.old.held }
    ensures place { handle.new.ptr ≡ handle.old.ptr }
{
    answer_pair(handle.as_mut().map.ceiling(&key), pair)
}

/// Writes the pair with the greatest key below this one to `pair` and answers 1, or answers 0 where there is none. Takes
/// no memory.
#[unsafe(no_mangle)]
pub extern "C" fn congee_c_below(handle: &mut Handle, key: u64, pair: &mut Pair) -> i32
    ensures code { result ≡ is_there (below_of handle.old.held.map.pairs key) }
    ensures pair { pair.new ≡ pair_if_there (below_of handle.old.held.map.pairs key) pair.old }
    ensures same { handle.new.held ≡ handle.old.held }
    ensures place { handle.new.ptr ≡ handle.old.ptr }
{
    answer_pair(handle.as_mut().map.below(&key), pair)
}

/// Writes the pair with the least key above this one to `pair` and answers 1, or answers 0 where there is none. Takes no
/// memory.
#[unsafe(no_mangle)]
pub extern "C" fn congee_c_above(handle: &mut Handle, key: u64, pair: &mut Pair) -> i32
    ensures code { result ≡ is_there (above_of handle.old.held.map.pairs key) }
    ensures pair { pair.new ≡ pair_if_there (above_of handle.old.held.map.pairs key) pair.old }
    ensures same { handle.new.held ≡ handle.old.held }
    ensures place { handle.new.ptr ≡ handle.old.ptr }
{
    answer_pair(handle.as_mut().map.above(&key), pair)
}

/// Removes the pair with the least key, writes it to `pair` and answers 1, or answers 0 for an empty map. Is never
/// refused.
#[unsafe(no_mangle)]
pub extern "C" fn congee_c_pop_first(handle: &mut Handle, pair: &mut Pair) -> i32
    ensures code { result ≡ is_there (first_of handle.old.held.map.pairs) }
    ensures pair { pair.new ≡ pair_if_there (first_of handle.old.held.map.pairs) pair.old }
    ensures pairs { handle.new.held.map.pairs
        ≡ without_pair handle.old.held.map.pairs (first_of handle.old.held.map.pairs) }
    ensures charge { ChargesForNodes limit_charge handle.old.held.map handle.new.held.map }
    ensures place { handle.new.ptr ≡ handle.old.ptr }
{
    answer_pair(handle.as_mut().map.pop_first(), pair)
}

/// Removes the pair with the greatest key, writes it to `pair` and answers 1, or answers 0 for an empty map. Is never
/// refused.
#[unsafe(no_mangle)]
pub extern "C" fn congee_c_pop_last(handle: &mut Handle, pair: &mut Pair) -> i32
    ensures code { result ≡ is_there (last_of handle.old.held.map.pairs) }
    ensures pair { pair.new ≡ pair_if_there (last_of handle.old.held.map.pairs) pair.old }
    ensures pairs { handle.new.held.map.pairs
        ≡ without_pair handle.old.held.map.pairs (last_of handle.old.held.map.pairs) }
    ensures charge { ChargesForNodes limit_charge handle.old.held.map handle.new.held.map }
    ensures place { handle.new.ptr ≡ handle.old.ptr }
{
    answer_pair(handle.as_mut().map.pop_last(), pair)
}

/// Writes the first pairs with keys from `start` to `last`, both included, keys ascending, as many as there are or as fit,
/// and answers how many. The rest of the buffer stays. Takes no memory.
#[unsafe(no_mangle)]
pub extern "C" fn congee_c_range_inclusive(
    handle: &mut Handle,
    start: u64,
    last: u64,
    buffer: &mut [Pair],
) -> usize
    ensures count { result ≡ min (length buffer.old)
        (length (between handle.old.held.map.pairs start (last + 1))) }
    ensures written { let pairs = map (λ pair. record { key = pair.0; value = pair.1 })
        (between handle.old.held.map.pairs start (last + 1)) in
        buffer.new ≡ take result pairs ++ drop result buffer.old }
    ensures same { handle.new.held ≡ handle.old.held }
    ensures place { handle.new.ptr ≡ handle.old.ptr }
{
    handle.as_mut().map.range_inclusive_of(start, last, buffer)
}

/// Writes the last pairs with keys from `start` to `last`, both included, keys descending, as many as there are or as
/// fit, and answers how many. The rest of the buffer stays. Takes no memory.
#[unsafe(no_mangle)]
pub extern "C" fn congee_c_range_descending(
    handle: &mut Handle,
    start: u64,
    last: u64,
    buffer: &mut [Pair],
) -> usize
    ensures count { result ≡ min (length buffer.old)
        (length (between handle.old.held.map.pairs start (last + 1))) }
    ensures written { let pairs = map (λ pair. record { key = pair.0; value = pair.1 })
        (reverse (between handle.old.held.map.pairs start (last + 1))) in
        buffer.new ≡ take result pairs ++ drop result buffer.old }
    ensures same { handle.new.held ≡ handle.old.held }
    ensures place { handle.new.ptr ≡ handle.old.ptr }
{
    handle.as_mut().map.range_descending_of(start, last, buffer)
}

// 1 with the pair written to the place, or 0.
fn answer_pair(found: Option<(u64, u64)>, place: &mut Pair) -> i32
    ensures code { result ≡ is_there found }
    ensures place { place.new ≡ pair_if_there found place.old }
{
    match found {
        Some((key, value)) => {
            *place = Pair { key, value };
            1
        }
        None => 0,
    }
}
