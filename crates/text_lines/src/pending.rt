//! Bytes that have still to be written.
//!
//! Tested in `test_serve`.

ghost use Rattle.std.specs.Prelude.{◌≡◌, ℕ, ◌+◌, ◌-◌, ◌≤◌, List, [], ◌++◌, length, take, decimal, OnOk, OnErr, true};
ghost use Rattle.spec_text.specs.Value.{value_text, exchanged_text, computed_text, found_text};
ghost use Rattle.text_lines.specs.Watched.{SendsTo, SendsPart};

use crate::watched::{Failed, Watched};
use std::io::Write;
use std::marker::Model;

/// How many bytes are kept at most.
pub const CAPACITY: usize = 8192;

/// The bytes, at most 8192, in place. Nothing is allocated for them.
#[derive(Drop)]
pub struct Pending {
    bytes: [u8; CAPACITY],
    len: usize,
}

impl Model for Pending {
    ghost Value = { List ℕ };

    ghost view = { λ p. take p.len p.bytes };

    ghost invariant = { λ p. p.len ≤ 8192 };
}

impl Pending {
    /// No bytes.
    pub fn new() -> Self
        ensures { result ≡ [] }
    {
        Pending {
            bytes: [0; CAPACITY],
            len: 0,
        }
    }

    /// How many more bytes there is room for.
    pub fn room(&self) -> usize
        ensures { result + length self.now ≡ 8192 }
    {
        CAPACITY - self.len
    }

    /// The bytes, in the order in which they were added.
    pub fn as_slice(&self) -> &[u8]
        ensures { result.now ≡ self.now }
    {
        &self.bytes[..self.len]
    }

    /// Lets go of all bytes.
    pub fn clear(&mut self)
        ensures { self.new ≡ [] }
    {
        self.len = 0;
    }

    /// Adds bytes behind the others.
    pub fn add(&mut self, bytes: &[u8])
        requires { length self.old + length bytes.now ≤ 8192 }
        ensures { self.new ≡ self.old ++ bytes.now }
    {
        let end = self.len + bytes.len();
        self.bytes[self.len..end].copy_from_slice(bytes);
        self.len = end;
    }

    /// Adds the decimal text of a number, which is at most 20 bytes.
    pub fn add_number(&mut self, number: u64)
        requires { length self.old + 20 ≤ 8192 }
        ensures text { self.new ≡ self.old ++ decimal number }
        ensures short { length self.new ≤ length self.old + 20 }
    {
        let mut buffer = itoa::Buffer::new();
        self.add(buffer.format(number).as_bytes());
    }

    /// Adds the decimal text of a count, which is at most 39 bytes.
    pub fn add_count(&mut self, count: u128)
        requires { length self.old + 39 ≤ 8192 }
        ensures text { self.new ≡ self.old ++ decimal count }
        ensures short { length self.new ≤ length self.old + 39 }
    {
        let mut buffer = itoa::Buffer::new();
        self.add(buffer.format(count).as_bytes());
    }

    /// Adds the decimal text of a value, or `none`, which is at most 20 bytes.
    pub fn add_value(&mut self, value: Option<u64>)
        requires { length self.old + 20 ≤ 8192 }
        ensures text { self.new ≡ self.old ++ value_text value }
        ensures short { length self.new ≤ length self.old + 20 }
    {
        match value {
            None => self.add(b"none"),
            Some(value) => self.add_number(value),
        }
    }

    /// Adds the reply to an exchange, at most 24 bytes: `ok` and what is stored now, or `err` and the current value.
    pub fn add_exchanged(&mut self, exchange: Result<Option<u64>, Option<u64>>)
        requires { length self.old + 24 ≤ 8192 }
        ensures text { self.new ≡ self.old ++ exchanged_text exchange }
        ensures short { length self.new ≤ length self.old + 24 }
    {
        match exchange {
            Ok(put) => {
                self.add(b"ok ");
                self.add_value(put);
            }
            Err(current) => {
                self.add(b"err ");
                self.add_value(current);
            }
        }
    }

    /// Adds the reply to a computation, at most 41 bytes: the old value and the closure's answer, or `none`.
    pub fn add_computed(&mut self, both: Option<(u64, Option<u64>)>)
        requires { length self.old + 41 ≤ 8192 }
        ensures text { self.new ≡ self.old ++ computed_text both }
        ensures short { length self.new ≤ length self.old + 41 }
    {
        match both {
            None => self.add(b"none"),
            Some((old, new)) => {
                self.add_number(old);
                self.add(b" ");
                self.add_value(new);
            }
        }
    }

    /// Adds a pair as `KEY=VALUE`, or `none`, at most 41 bytes.
    pub fn add_found(&mut self, pair: Option<(u64, u64)>)
        requires { length self.old + 41 ≤ 8192 }
        ensures text { self.new ≡ self.old ++ found_text pair }
        ensures short { length self.new ≤ length self.old + 41 }
    {
        match pair {
            None => self.add(b"none"),
            Some((key, value)) => {
                self.add_number(key);
                self.add(b"=");
                self.add_number(value);
            }
        }
    }

    /// Writes all that is kept. At an `Err` a first part of it was written.
    pub fn send_to<W: Write>(&mut self, output: &mut Watched<W>) -> Result<(), Failed>
        ensures sent { OnOk result (SendsTo W.contents output.old output.new self.old []) }
        ensures empty { OnOk result (self.new ≡ []) }
        ensures broken { OnErr result (SendsPart W.contents output.old output.new self.old) }
        ensures kept { OnOk result (output.new.failed ≡ output.old.failed) }
        ensures failed { OnErr result (output.new.failed ≡ true) }
    {
        output.send(self.as_slice())?;
        self.clear();
        Ok(())
    }

    /// Makes room for 96 bytes, which a short line never fills: writes all that is kept where
    /// there is less. At an `Err` a first part of it was written.
    pub fn make_room<W: Write>(&mut self, output: &mut Watched<W>) -> Result<(), Failed>
        ensures sent { OnOk result (SendsTo W.contents output.old output.new self.old self.new) }
        ensures room { OnOk result (length self.new + 96 ≤ 8192) }
        ensures broken { OnErr result (SendsPart W.contents output.old output.new self.old) }
        ensures kept { OnOk result (output.new.failed ≡ output.old.failed) }
        ensures failed { OnErr result (output.new.failed ≡ true) }
    {
        if self.room() < 96 {
            return self.send_to(output);
        }
        Ok(())
    }
}
