//! Readers and writers that note a failure.
//!
//! Tested in `test_serve`.

ghost use Rattle.std.specs.Prelude.{◌≡◌, ◌≢◌, ℕ, List, ◌-◌, ◌^◌, ◌<◌, ◌≤◌, [], false, true, length, IsTrue, ◌↔◌, IfOk, OnOk, OnErr};
ghost use Rattle.std.specs.Io.{ReadsAtMost, WritesAtMost};
ghost use Rattle.std.specs.Io.KnownBytes.{Appends, Keeps, ReadConsumes, WriteAppends};

use crate::streams::{Reader, Writer};
use std::marker::Model;

/// A call of a reader or a writer failed.
#[derive(Clone, Copy, Debug, PartialEq, Eq)]
pub struct Failed;

/// A reader or a writer, and whether a call of it has failed. It makes at most `u64::MAX` calls;
/// the next counts as failed.
#[derive(Drop)]
pub struct Watched<T> {
    inner: T,
    failed: bool,
    calls: u64,
}

impl<T> Model for Watched<T> {
    ghost use Rattle.std.specs.Prelude.{◌-◌, ◌^◌};
    ghost use Rattle.text_lines.specs.Watched.{Stream};

    ghost Value = { Stream T };

    ghost view = { λ w. record {
      inner = w.inner;
      failed = w.failed;
      calls_left = 2 ^ 64 - 1 - w.calls;
    } };
}

impl<T> Watched<T> {
    /// No call has failed yet.
    pub fn new(inner: T) -> Self
        ensures inner { result.inner ≡ inner }
        ensures failed { result.failed ≢ true }
        ensures calls { result.calls_left ≡ 2 ^ 64 - 1 }
    {
        Watched {
            inner,
            failed: false,
            calls: 0,
        }
    }

    /// Whether a call has failed.
    pub fn failed(&self) -> bool
        ensures { IsTrue result ↔ (self.now.failed ≡ true) }
    {
        self.failed
    }

    /// What was watched.
    pub fn into_inner(self) -> T
        ensures { result ≡ self.inner }
    {
        let Watched {
            inner,
            failed: _,
            calls: _,
        } = self;
        inner
    }

    // Counts a call that is about to be made.
    fn count(&mut self) -> Result<(), Failed>
        ensures inner { self.new.inner ≡ self.old.inner }
        ensures kept { OnOk result (self.new.failed ≡ self.old.failed) }
        ensures failed { OnErr result (self.new.failed ≡ true) }
        ensures fewer { OnOk result (self.new.calls_left < self.old.calls_left) }
        ensures last { OnErr result ((self.old.calls_left ≡ 0) × (self.new.calls_left ≡ 0)) }
    {
        if self.calls == u64::MAX {
            self.failed = true;
            return Err(Failed);
        }
        self.calls += 1;
        Ok(())
    }
}

impl<R: Reader> Watched<R> {
    ghost use Rattle.text_lines.specs.Watched.{IsFailure};

    /// Reads some bytes into the buffer, and returns how many: none only at the end.
    pub fn read(&mut self, buf: &mut [u8]) -> Result<usize, Failed>
        ensures bound { ReadsAtMost result buf.new }
        ensures bytes { ReadConsumes
            (R.remaining self.old.inner) (R.remaining self.new.inner)
            result buf.new }
        ensures kept { OnOk result (self.new.failed ≡ self.old.failed) }
        ensures failed { OnErr result (self.new.failed ≡ true) }
        ensures real { OnErr result (IsFailure R.may_fail self.old self.new) }
        ensures fewer { OnOk result (self.new.calls_left < self.old.calls_left) }
    {
        self.count()?;
        match self.inner.read_some(buf) {
            Ok(n) => Ok(n),
            Err(_) => {
                self.failed = true;
                Err(Failed)
            }
        }
    }
}

impl<W: Writer> Watched<W> {
    ghost use Rattle.text_lines.specs.Watched.{IsFailure, HasFailure, SendsTo, SendsPart};

    /// Writes some of the bytes, and returns how many. To take none of some bytes is a failure.
    pub fn write(&mut self, buf: &[u8]) -> Result<usize, Failed>
        ensures bound { WritesAtMost result buf.now }
        ensures bytes { WriteAppends
            (W.contents self.old.inner) (W.contents self.new.inner)
            result buf.now }
        ensures some { IfOk result (λ n. 0 < length buf.now → 0 < n) }
        ensures kept { OnOk result (self.new.failed ≡ self.old.failed) }
        ensures failed { OnErr result (self.new.failed ≡ true) }
        ensures real { OnErr result (IsFailure W.may_fail self.old self.new) }
    {
        self.count()?;
        match self.inner.write_some(buf) {
            Ok(n) if n > 0 || buf.is_empty() => Ok(n),
            _ => {
                self.failed = true;
                Err(Failed)
            }
        }
    }

    /// Hands on what the writer itself may still hold.
    pub fn flush(&mut self) -> Result<(), Failed>
        ensures bytes { Keeps (W.contents self.old.inner) (W.contents self.new.inner) }
        ensures kept { OnOk result (self.new.failed ≡ self.old.failed) }
        ensures failed { OnErr result (self.new.failed ≡ true) }
        ensures real { OnErr result (IsFailure W.may_fail self.old self.new) }
    {
        self.count()?;
        match self.inner.flush_all() {
            Ok(()) => Ok(()),
            Err(_) => {
                self.failed = true;
                Err(Failed)
            }
        }
    }

    /// Writes all of the bytes. At an `Err` a first part of them was written.
    pub fn send(&mut self, bytes: &[u8]) -> Result<(), Failed>
        ensures ok { OnOk result (SendsTo W.contents self.old self.new bytes.now []) }
        ensures err { OnErr result (SendsPart W.contents self.old self.new bytes.now) }
        ensures kept { OnOk result (self.new.failed ≡ self.old.failed) }
        ensures failed { OnErr result (self.new.failed ≡ true) }
        ensures real { OnErr result (HasFailure W.may_fail self.new) }
    {
        let mut at = 0;
        while at < bytes.len() {
            at += self.write(&bytes[at..])?;
        }
        Ok(())
    }
}
