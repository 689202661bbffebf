//! Fractions in hundredths, by whole numbers alone.
//!
//! Tested in `congee_nodes/stats`.

ghost use Rattle.std.specs.Prelude.{◌≡◌, ◌+◌, ◌*◌, ◌<◌, ◌≤◌, ◌^◌, Some};
ghost use Rattle.node_stats.specs.Fractions.{hundredths as hundredths_of, IsNearestHundredth, with_two_decimals, right_aligned};

use std::fmt;

/// The hundredths of a fraction, rounded to the nearest, a tie to the even one; 0 where the denominator is 0.
#[tactic(auto, unfolding(crate::specs::Fractions::hundredths))]
pub fn hundredths(numerator: u128, denominator: u128) -> u128
    requires numerator_small { numerator < 2 ^ 100 }
    requires denominator_small { denominator < 2 ^ 100 }
    ensures value { result ≡ hundredths_of numerator denominator }
    ensures nearest { 0 < denominator → IsNearestHundredth numerator denominator result }
    ensures zero { denominator ≡ 0 → result ≡ 0 }
    ensures bound { result ≤ 100 * numerator + 1 }
{
    if denominator == 0 {
        return 0;
    }
    let whole = 100 * numerator / denominator;
    let rest = 100 * numerator % denominator;
    if 2 * rest < denominator {
        whole
    } else if denominator < 2 * rest {
        whole + 1
    } else {
        whole + whole % 2
    }
}

/// A number of hundredths, printed with two decimals.
#[derive(Drop)]
pub(crate) struct Decimals {
    pub(crate) hundredths: u128,
}

impl fmt::Display for Decimals {
    ghost output = { λ x. Some (with_two_decimals x.hundredths) };

    fn fmt<W: fmt::Write>(&self, f: &mut fmt::Formatter<W>) -> fmt::Result {
        let whole = self.hundredths / 100;
        let rest = self.hundredths % 100;
        write!(f, "{whole}.{rest:02}")
    }
}

/// The same, right aligned in eight places.
#[derive(Drop)]
pub(crate) struct AlignedDecimals {
    pub(crate) hundredths: u128,
}

impl fmt::Display for AlignedDecimals {
    ghost output = { λ x. Some (right_aligned 8 (with_two_decimals x.hundredths)) };

    fn fmt<W: fmt::Write>(&self, f: &mut fmt::Formatter<W>) -> fmt::Result {
        let whole = self.hundredths / 100;
        let rest = self.hundredths % 100;
        write!(f, "{whole:5}.{rest:02}")
    }
}
