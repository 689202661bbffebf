//! Numbers of 64 bits as two halves of 32 bits.
//!
//! Tested in `test_owned/table`.

ghost use Rattle.std.specs.Prelude.{◌≡◌, ◌/◌, ◌%◌, ◌^◌, map};
ghost use Rattle.congee_table.specs.Index.{joined_halves};

/// One more than the greatest half.
const BASE: u64 = 1 << 32;

pub(crate) fn joined_halves(high: u32, low: u32) -> u64
    ensures { result ≡ joined_halves high low }
{
    u64::from(high) * BASE + u64::from(low)
}

pub(crate) fn high(number: u64) -> u32
    ensures { result ≡ number / 2 ^ 32 }
{
    (number / BASE) as u32
}

pub(crate) fn low(number: u64) -> u32
    ensures { result ≡ number % 2 ^ 32 }
{
    (number % BASE) as u32
}

/// Leaves the lower half of the first number of each pair.
pub(crate) fn keep_low(pairs: &mut [(u64, u64)])
    ensures { pairs.new ≡ map (λ pair. (pair.0 % 2 ^ 32, pair.1)) pairs.old }
{
    for pair in pairs.iter_mut() {
        pair.0 %= BASE;
    }
}
