//! Readers and writers with a ghost field for where their calls may fail.
//!
//! The contracts of `Read` and `Write` don't state when a call fails. What is proved over these two traits holds for
//! each reader and writer, so also for those that never fail: none of it can rest on a failure that didn't happen.
//!
//! Tested in `test_serve`.

ghost use Rattle.std.specs.Prelude.{◌≡◌, ℕ, List, Option, ⊤, ◌<◌, length, IfOk, OnErr};
ghost use Rattle.std.specs.Io.{ReadsAtMost, WritesAtMost};
ghost use Rattle.std.specs.Io.KnownBytes.{Keeps, ReadConsumes, WriteAppends};

use std::io::{Read, Result, Write};

/// A reader, and where it may fail.
pub trait Reader {
    /// The bytes that it has yet to return, if they are known.
    ghost remaining: { Self → Option (List ℕ) };

    /// Whether its next call may fail.
    ghost may_fail: { Self → Type 0 };

    /// Reads some bytes into the buffer, and returns how many: none only at the end.
    fn read_some(&mut self, buf: &mut [u8]) -> Result<usize>
        ensures bound { ReadsAtMost result buf.new }
        ensures bytes { ReadConsumes (remaining self.old) (remaining self.new) result buf.new }
        ensures failed { OnErr result (may_fail self.old) };
}

/// Of any other reader each call may fail.
impl<R: Read> Reader for R {
    ghost remaining = { R.remaining };

    ghost may_fail = { λ _. ⊤ };

    fn read_some(&mut self, buf: &mut [u8]) -> Result<usize> {
        self.read(buf)
    }
}

/// A writer, and where it may fail.
pub trait Writer {
    /// The bytes that it holds, where they are known.
    ghost contents: { Self → Option (List ℕ) };

    /// Whether its next call may fail. To take none of some bytes is a failure too.
    ghost may_fail: { Self → Type 0 };

    /// Takes some of the bytes, and returns how many.
    fn write_some(&mut self, buf: &[u8]) -> Result<usize>
        ensures bound { WritesAtMost result buf.now }
        ensures bytes { WriteAppends (contents self.old) (contents self.new) result buf.now }
        ensures failed { OnErr result (may_fail self.old) }
        ensures stuck { IfOk result (λ n. 0 < length buf.now → n ≡ 0 → may_fail self.old) };

    /// Hands on what it may still hold.
    fn flush_all(&mut self) -> Result<()>
        ensures bytes { Keeps (contents self.old) (contents self.new) }
        ensures failed { OnErr result (may_fail self.old) };
}

/// Of any other writer each call may fail.
impl<W: Write> Writer for W {
    ghost contents = { W.contents };

    ghost may_fail = { λ _. ⊤ };

    fn write_some(&mut self, buf: &[u8]) -> Result<usize> {
        self.write(buf)
    }

    fn flush_all(&mut self) -> Result<()> {
        self.flush()
    }
}
