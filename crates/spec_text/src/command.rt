//! The commands of `congee run`.

/// What a line asks for. Keys and values are numbers of 64 bits.
#[derive(Clone, Copy, Debug, PartialEq, Eq)]
pub enum Command {
    /// The value of a key.
    Get(u64),
    /// Sets the value of a key: first the key, then the value.
    Insert(u64, u64),
    /// Takes a key out.
    Remove(u64),
    /// If the key's value is the second number, replaces it by the third, or removes the key.
    Exchange(u64, u64, Option<u64>),
    /// Adds to the value of a key that is present; takes the key out where the sum doesn't fit 64 bits.
    Add(u64, u64),
    /// Adds to the value of a key (0 if it is absent). The sum saturates at `u64::MAX`.
    Put(u64, u64),
    /// The first pairs with keys from the first number on and below the second, at most so many.
    Range(u64, u64, u64),
    /// All keys.
    Keys,
    /// Whether there is no key.
    Empty,
    /// The pair of the least key.
    First,
    /// The pair of the greatest key.
    Last,
    /// The pair of the greatest key that is at most this one.
    Floor(u64),
    /// The pair of the least key that is at least this one.
    Ceiling(u64),
    /// How many keys there are.
    Count,
}
