//! How far a reader goes, and where it has come to.
ghost use Rattle.std.specs.Prelude.{◌≡◌, ◌≢◌, ◌⊎◌, ◌+◌, ◌%◌, ◌^◌, ◌<◌, ◌≤◌, cond, IsTrue, IsFalse};
ghost use Rattle.live_layout.specs.Order.{IsFrom, IsBefore};
ghost use Rattle.live_scans.specs.inner.Directions.{IsNextKey};

use live_layout::page::Part;

/// In which direction a reader goes, upwards (`true`) or downwards, and the last key that it may read.
#[derive(Clone, Copy, Debug, PartialEq, Eq)]
pub struct Bound {
    pub up: bool,
    pub limit: u64,
}

/// How far a reader goes, and the place in its buffer from which on it writes pairs.
#[derive(Clone, Copy, Debug, PartialEq, Eq)]
pub struct Request {
    pub bound: Bound,
    pub start: usize,
}

/// The place behind the pairs in the buffer, and the last key that was reached.
#[derive(Clone, Copy, Debug, PartialEq, Eq)]
pub struct Step {
    pub count: usize,
    pub last: u64,
}

/// The part of the key's leaf from it on, up to a limit in that direction.
pub fn part_of(key: u64, bound: Bound) -> Part
    requires { IsFrom bound.up key bound.limit }
    ensures base { (result.base % 256 ≡ 0) × (result.base + 255 < 2 ^ 64) }
    ensures order { result.first ≤ result.last }
    ensures begins { result.base + cond bound.up result.first result.last ≡ key }
    ensures within { IsFrom bound.up (result.base + cond bound.up result.last result.first) bound.limit }
    ensures whole { cond bound.up result.last result.first ≢ cond bound.up 255 0
        → result.base + cond bound.up result.last result.first ≡ bound.limit }
{
    let base = key - key % 256;
    let byte = (key % 256) as u8;
    if bound.up {
        return Part {
            base,
            first: byte,
            last: (bound.limit - base).min(255) as u8,
        };
    }
    Part {
        base,
        first: (bound.limit.max(base) - base) as u8,
        last: byte,
    }
}

/// The nearer of a key that was reached and the limit.
pub fn nearer(last: u64, bound: Bound) -> u64
    ensures passed { IsFrom bound.up result last }
    ensures within { IsFrom bound.up result bound.limit }
    ensures is { (result ≡ last) ⊎ (result ≡ bound.limit) }
{
    if bound.up {
        return last.min(bound.limit);
    }
    last.max(bound.limit)
}

/// Whether a key is behind the limit.
pub fn is_beyond(key: u64, bound: Bound) -> bool
    ensures yes { IsTrue result → IsBefore bound.up bound.limit key }
    ensures no { IsFalse result → IsFrom bound.up key bound.limit }
{
    if bound.up {
        return key > bound.limit;
    }
    key < bound.limit
}

/// The key after one that isn't the limit.
pub fn key_after(last: u64, bound: Bound) -> u64
    requires within { IsFrom bound.up last bound.limit }
    requires other { last ≢ bound.limit }
    ensures next { IsNextKey bound.up last result }
    ensures within { IsFrom bound.up result bound.limit }
{
    if bound.up {
        return last + 1;
    }
    last - 1
}
