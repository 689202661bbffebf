//! Where a pair is looked for, and which of two is nearer.
//!
//! Tested in `tools/c-library`.

ghost use Rattle.std.specs.Prelude.{◌≡◌};
ghost use Rattle.share_parts.specs.Nearest.{greater, lesser, nearer};
ghost use Rattle.share_visits.specs.Near.{near_of};
ghost use Rattle.share_visits.specs.inner.Place.{key_at};

/// Where a pair is looked for.
#[derive(Clone, Copy, Drop)]
pub enum Near {
    /// The least key.
    First,
    /// The greatest key.
    Last,
    /// The greatest key that is at most this one.
    Floor(u64),
    /// The greatest key below this one.
    Below(u64),
    /// The least key that is at least this one.
    Ceiling(u64),
    /// The least key above this one.
    Above(u64),
}

/// The key next to which it is looked for. The ends of a map have none.
pub(crate) fn key_of(near: Near) -> Option<u64>
    ensures { result ≡ key_at near }
{
    match near {
        Near::First | Near::Last => None,
        Near::Floor(key) | Near::Below(key) | Near::Ceiling(key) | Near::Above(key) => Some(key),
    }
}

// The pair with the lesser key.
fn lesser_of(a: Option<(u64, u64)>, b: Option<(u64, u64)>) -> Option<(u64, u64)>
    ensures { result ≡ lesser a b }
{
    match (a, b) {
        (Some(x), Some(y)) => if x.0 <= y.0 { Some(x) } else { Some(y) },
        (Some(x), None) => Some(x),
        (None, other) => other,
    }
}

// The pair with the greater key.
fn greater_of(a: Option<(u64, u64)>, b: Option<(u64, u64)>) -> Option<(u64, u64)>
    ensures { result ≡ greater a b }
{
    match (a, b) {
        (Some(x), Some(y)) => if y.0 <= x.0 { Some(x) } else { Some(y) },
        (Some(x), None) => Some(x),
        (None, other) => other,
    }
}

/// Of two pairs, the nearer one.
pub fn nearer_of(near: Near, a: Option<(u64, u64)>, b: Option<(u64, u64)>) -> Option<(u64, u64)>
    ensures { result ≡ nearer (near_of near) a b }
{
    match near {
        Near::First | Near::Ceiling(_) | Near::Above(_) => lesser_of(a, b),
        Near::Last | Near::Floor(_) | Near::Below(_) => greater_of(a, b),
    }
}
