//! The keys of a node that a range looks at, and whether it has more pairs to return.
//!
//! Tested in `tools/dev/try-schedules` and `test_olc/range_owners`.

ghost use Rattle.std.specs.Prelude.{◌≡◌, ◌↔◌, ℕ, ◌+◌, ◌<◌, ◌≤◌, ◌^◌, IsTrue, [], ◌∷◌, ◌++◌, length};
ghost use Rattle.spec_node.specs.Key.{high, low, next_byte};
ghost use Rattle.spec_olc.specs.Calls.{bytes_of};
ghost use Rattle.spec_olc.specs.Reading.{HasAll, MayGive};
ghost use Rattle.olc_state.specs.inner.Scans.{BeginsAt};

use olc_state::scan::{RangeProgress, Scan};
use olc_state::stage::Stage;
use spec_olc::types::{Op, Outcome, Report};

/// An event of a range: how far the range is then and what it does next, and what the event reports.
#[derive(Drop)]
pub struct Scanned<P> {
    pub course: RangeProgress,
    pub scan: Scan,
    pub report: Report,
    pub outcome: Outcome<P>,
}

/// Whether a range may return one more pair, with this key.
pub fn may_give(outline: &Op<()>, given: u64, key: u64) -> bool
    ensures may { IsTrue result ↔ MayGive outline.now given key }
    ensures key_fits { IsTrue result → key + 1 < 2 ^ 64 }
    ensures given_fits { IsTrue result → given + 1 < 2 ^ 64 }
{
    match outline {
        Op::Range(_, end, limit) => key < *end && given < *limit,
        _ => false,
    }
}

/// Whether a range has no more pairs to return.
pub fn is_over(outline: &Op<()>, course: RangeProgress) -> bool
    ensures { IsTrue result ↔ HasAll outline.now course.reach course.given }
{
    match outline {
        Op::Range(_, end, limit) => *end <= course.reach || course.given == *limit,
        _ => false,
    }
}

/// The first stage of a call: at the root; for a range that has nothing to return, at its end.
pub fn first_stage(outline: &Op<()>) -> Stage
    ensures { BeginsAt outline.now result }
{
    let Op::Range(start, _, _) = outline else {
        return Stage::TakeRoot;
    };
    let course = RangeProgress {
        cursor: *start,
        reach: *start,
        given: 0,
    };
    if is_over(outline, course) {
        Stage::Scan(course, Scan::Finish)
    } else {
        Stage::Scan(course, Scan::TakeRoot)
    }
}

/// The key of a payload: the seven bytes of its leaf, and the byte under which it is stored.
pub fn leaf_key(prefix: &[u8], byte: u8) -> u64
    requires { length prefix.now ≡ 7 }
    ensures { result ≡ low (prefix.now ++ byte ∷ []) }
{
    let mut bytes = [byte; 8];
    bytes[..7].copy_from_slice(prefix);
    u64::from_be_bytes(bytes)
}

/// The last key that begins with a prefix and a byte.
pub fn last_key(prefix: &[u8], byte: u8) -> u64
    requires { length prefix.now ≤ 7 }
    ensures { result + 1 ≡ high (prefix.now ++ byte ∷ []) }
{
    let mut bytes = [u8::MAX; 8];
    let length = prefix.len();
    bytes[..length].copy_from_slice(prefix);
    bytes[length] = byte;
    u64::from_be_bytes(bytes)
}

/// The byte of a key that comes after a prefix.
pub fn byte_below(prefix: &[u8], key: u64) -> u8
    requires { length prefix.now ≤ 7 }
    ensures { result ≡ next_byte prefix.now (bytes_of key) }
{
    let bytes = key.to_be_bytes();
    bytes[prefix.len()]
}
