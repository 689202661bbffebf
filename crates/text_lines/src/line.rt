//! The line that has begun.
//!
//! Tested in `test_serve`.

ghost use Rattle.std.specs.Prelude.{◌≡◌, ℕ, ◌≤◌, List, [], take, Option, Some, None, MatchOption, IsTrue, ◌↔◌, if◌then◌else◌, nat_le};
ghost use Rattle.text_lines.specs.inner.Kept.{kept_with};

use std::marker::Model;

/// How many bytes a line may have, without its line feed. No command is as long.
pub const MAX_LEN: usize = 256;

/// The bytes of a line, or, where they are too many, that alone.
#[derive(Drop)]
pub struct LineBuffer {
    bytes: [u8; MAX_LEN],
    // One more than `MAX_LEN` where the line is too long.
    len: usize,
}

impl Model for LineBuffer {
    ghost Value = { Option (List ℕ) };

    ghost view = { λ l. if nat_le l.len 256 then Some (take l.len l.bytes) else None };

    ghost invariant = { λ l. l.len ≤ 257 };
}

impl LineBuffer {
    /// A line without a byte.
    pub fn new() -> Self
        ensures { result ≡ Some [] }
    {
        LineBuffer {
            bytes: [0; MAX_LEN],
            len: 0,
        }
    }

    /// Begins another line.
    pub fn clear(&mut self)
        ensures { self.new ≡ Some [] }
    {
        self.len = 0;
    }

    /// The bytes, unless they are too many.
    pub fn text(&self) -> Option<&[u8]>
        ensures { MatchOption result (self.now ≡ None) (λ text. self.now ≡ Some text.now) }
    {
        if self.len <= MAX_LEN {
            Some(&self.bytes[..self.len])
        } else {
            None
        }
    }

    /// One byte more. From the 257th on none is held.
    pub fn push(&mut self, byte: u8)
        ensures { self.new ≡ kept_with self.old byte }
    {
        if self.len < MAX_LEN {
            self.bytes[self.len] = byte;
            self.len += 1;
        } else {
            self.len = MAX_LEN + 1;
        }
    }

    /// Whether no byte has come.
    pub fn is_empty(&self) -> bool
        ensures { IsTrue result ↔ (self.now ≡ Some []) }
    {
        self.len == 0
    }
}
