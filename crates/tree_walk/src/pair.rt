//! A pair in the place of its leaf: its key, and what walks make of it.
//!
//! Tested in `test_owned` and `tools/dev/try-commands`.

ghost use Rattle.std.specs.Prelude.{◌≡◌, ℕ, ◌+◌, ◌^◌, ◌<◌, [], ◌∷◌, length};
ghost use Rattle.std.specs.Option.{option_map};
ghost use Rattle.spec_map.specs.Near.{floor_of, ceiling_of};
ghost use Rattle.tree_walk.specs.inner.Scan.{AddsEntries, entries_of, entries_down};

use crate::range_scan::RangeEntry;

/// The pair, if its key isn't below `start`.
#[inline(always)]
pub(crate) fn pair_if_from<P>(number: u64, payload: &P, start: u64) -> Option<(u64, &P)>
    ensures { option_map (λ found. (found.0, found.1.now)) result
        ≡ ceiling_of ((number, payload.now) ∷ []) start }
{
    if start <= number {
        Some((number, payload))
    } else {
        None
    }
}

/// The pair, if its key isn't above `last`.
#[inline(always)]
pub(crate) fn pair_if_to<P>(number: u64, payload: &P, last: u64) -> Option<(u64, &P)>
    ensures { option_map (λ found. (found.0, found.1.now)) result
        ≡ floor_of ((number, payload.now) ∷ []) last }
{
    if number <= last {
        Some((number, payload))
    } else {
        None
    }
}

/// Writes the pair's entry at a place of the buffer, if its key is in the range, and returns the place after it.
#[inline(always)]
pub(crate) fn write_pair<E: RangeEntry>(
    number: u64,
    value: u64,
    start: u64,
    last: u64,
    buffer: &mut [E],
    count: usize,
) -> usize
    requires { count < length buffer.old }
    ensures up { AddsEntries (entries_of E.entry start (last + 1) ((number, value) ∷ []))
        buffer.old count buffer.new result }
    ensures down { AddsEntries (entries_down E.entry start (last + 1) ((number, value) ∷ []))
        buffer.old count buffer.new result }
{
    if number < start {
        return count;
    }
    if number > last {
        return count;
    }
    write_one(number, value, buffer, count)
}

/// Writes the pair's entry at a place of the buffer, and returns the place after it.
#[inline(always)]
pub(crate) fn write_one<E: RangeEntry>(
    number: u64,
    value: u64,
    buffer: &mut [E],
    count: usize,
) -> usize
    requires { count < length buffer.old }
    ensures { AddsEntries (entries_of E.entry 0 (2 ^ 64) ((number, value) ∷ []))
        buffer.old count buffer.new result }
{
    buffer[count] = E::from_pair(number, value);
    count + 1
}
