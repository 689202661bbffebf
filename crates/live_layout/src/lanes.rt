//! Eight bytes in a word, the lowest first.

ghost use Rattle.std.specs.Prelude.{◌≡◌, ◌≢◌, ℕ, ◌<◌, ◌≤◌, IfSome, IfNone};
ghost use Rattle.std.specs.Int.{bit_at};
ghost use Rattle.live_layout.specs.Words.{lane};

use std::simd::prelude::*;

/// Byte `j` of a word.
pub fn lane_of(word: u64, j: usize) -> u8
    requires { j < 8 }
    ensures { result ≡ lane word j }
{
    word.to_le_bytes()[j]
}

/// The word with another byte there.
pub fn with_lane(word: u64, j: usize, byte: u8) -> u64
    requires { j < 8 }
    ensures here { lane result j ≡ byte }
    ensures others { (k : ℕ) → k ≢ j → lane result k ≡ lane word k }
{
    let mut bytes = word.to_le_bytes();
    bytes[j] = byte;
    u64::from_le_bytes(bytes)
}

// A bit for each byte of a word, whether it is this one.
fn equal_lanes(word: u64, byte: u8) -> u64
    ensures equal { (k : ℕ) → k < 8 → lane word k ≡ byte → bit_at result k ≡ 1 }
    ensures other { (k : ℕ) → k < 8 → lane word k ≢ byte → bit_at result k ≡ 0 }
{
    let lanes = u8x8::from_array(word.to_le_bytes());
    lanes.simd_eq(u8x8::splat(byte)).to_bitmask()
}

/// A place of a byte in a word, from one place on and below another. All eight are compared at once.
pub fn find_lane(word: u64, from: usize, to: usize, byte: u8) -> Option<usize>
    requires { (from ≤ to) × (to ≤ 8) }
    ensures there { IfSome result (λ j. (from ≤ j) × (j < to) × (lane word j ≡ byte)) }
    ensures none { IfNone result ((k : ℕ) → from ≤ k → k < to → lane word k ≢ byte) }
{
    let found = equal_lanes(word, byte) & ((1u64 << to) - (1u64 << from));
    if found == 0 {
        None
    } else {
        Some(found.trailing_zeros() as usize)
    }
}
