//! The search among sixteen bytes, or four, all lanes at once (*The Adaptive Radix Tree*, Leis et al., section III).
//!
//! Bytes past the count never match, whatever they are.
//!
//! Tested in `congee_nodes`.

ghost use Rattle.std.specs.Prelude.{◌≡◌, ℕ, ◌+◌, ◌-◌, ◌≤◌, ◌==◌, nat_lt, not, take, count_by, bit_and, ◌%◌, ◌^◌};
ghost use Rattle.std.specs.List.{prefix_len};

use std::simd::prelude::*;

// The lowest `count` bits.
fn low_bits(mask: u64, count: usize) -> u64
    requires { count ≤ 16 }
    ensures { result ≡ mask % 2 ^ count }
{
    mask & ((1u64 << count) - 1)
}

/// The place of the byte among the first `count` bytes, and `count` where it isn't there.
///
/// The bytes may be in any order; of two that are equal the first counts.
pub fn find(bytes: &[u8; 16], count: usize, byte: u8) -> usize
    requires { count ≤ 16 }
    ensures { result ≡ prefix_len (λ x. not (x == byte)) (take count bytes.now) }
{
    let lanes = u8x16::from_array(*bytes);
    let found = low_bits(lanes.simd_eq(u8x16::splat(byte)).to_bitmask(), count);
    if found == 0 {
        count
    } else {
        found.trailing_zeros() as usize
    }
}

/// The same among four bytes.
pub fn find_4(bytes: &[u8; 4], count: usize, byte: u8) -> usize
    requires { count ≤ 4 }
    ensures { result ≡ prefix_len (λ x. not (x == byte)) (take count bytes.now) }
{
    let lanes = u8x4::from_array(*bytes);
    let found = low_bits(lanes.simd_eq(u8x4::splat(byte)).to_bitmask(), count);
    if found == 0 {
        count
    } else {
        found.trailing_zeros() as usize
    }
}

/// How many of the first `count` bytes are below this one: where they ascend, the place at which a new byte goes.
pub fn rank(bytes: &[u8; 16], count: usize, byte: u8) -> usize
    requires { count ≤ 16 }
    ensures { result ≡ count_by (λ x. nat_lt x byte) (take count bytes.now) }
{
    let lanes = u8x16::from_array(*bytes);
    let below = low_bits(lanes.simd_lt(u8x16::splat(byte)).to_bitmask(), count);
    below.count_ones() as usize
}

/// How many bytes precede the first that is below this one; 16 if none is.
pub fn first_below(bytes: &[u8; 16], limit: u8) -> usize
    ensures { result ≡ prefix_len (λ x. not (nat_lt x limit)) bytes.now }
{
    let lanes = u8x16::from_array(*bytes);
    let found = lanes.simd_lt(u8x16::splat(limit)).to_bitmask();
    if found == 0 {
        16
    } else {
        found.trailing_zeros() as usize
    }
}
