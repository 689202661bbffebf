//! Where a pair is looked for.
//!
//! Tested in `tools/c-library` and `test_share_ends`.

/// Where a pair is looked for.
#[derive(Clone, Copy, Drop)]
pub enum Near {
    /// The least key.
    First,
    /// The greatest key.
    Last,
    /// The greatest key that is at most this one.
    Floor(u64),
    /// The greatest key below this one.
    Below(u64),
    /// The least key that is at least this one.
    Ceiling(u64),
    /// The least key above this one.
    Above(u64),
}
