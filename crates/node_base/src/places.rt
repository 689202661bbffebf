//! A cell for each byte's child and the mask of the filled ones: the children of a node that can have 256.
//!
//! Tested in `congee_nodes`.

ghost use Rattle.std.specs.Prelude.{◌≡◌, ◌≢◌, ℕ, ◌<◌, ◌≤◌, [], replicate, Some, None, IsSome, IfSome, IfNone, IfOk, IfErr, OnOk, OnErr, option_copied, slice_get, slice_index, vec_len, vec_capacity};
ghost use Rattle.node_base.specs.inner.Places.{in_cell, IsMarked};

use crate::cells::Cells;
use crate::mask::{is_marked, last_marked, mark, next_marked, unmark};
use spec_map::error::OOMError;
use std::alloc::Global;
use std::marker::Model;

/// Children by their bytes: a cell for each byte, empty or filled, and a mask of the filled ones.
///
/// No child is moved but to be put or taken, and a call waits for mask and cell at once. On the heap are 2,048 bytes for
/// cells of 8 bytes and 32 bytes for the mask; the value itself takes 16 bytes.
pub struct Places<C> {
    // byte `b` is bit `b % 64` of word `b / 64`, set exactly where its cell is filled
    mask: Box<[u64; 4]>,
    cells: Cells<C>,
}

impl<C> Model for Places<C> {
    ghost use Rattle.std.specs.Prelude.{List, Option};
    ghost use Rattle.std.specs.Coded.{coded_list, coded_option};
    ghost use Rattle.node_base.specs.inner.Places.{IsMarked};

    ghost Value = { List (Option C) };

    ghost coded = { coded_list (coded_option C.code) };

    ghost view = { λ p. p.cells.slots };

    ghost invariant = { λ p. IsMarked p.mask.value p.cells.slots };
}

impl<C> Places<C> {
    /// All cells empty; a refusal only for lack of memory.
    pub fn new(alloc: Global) -> Result<Self, OOMError>
        ensures { IfOk result (λ p. p ≡ replicate 256 None) }
    {
        let mask = Box::new(alloc, [0; 4])?;
        let cells = Cells::new(alloc)?;
        Ok(Places { mask, cells })
    }

    /// The child of a byte, or `None`.
    #[inline]
    pub fn get(&self, byte: u8) -> Option<&C>
        ensures { option_copied result ≡ in_cell self.now byte }
    {
        if is_marked(&self.mask, byte) {
            Some(self.cells.get(byte))
        } else {
            None
        }
    }

    /// The child of a byte that has one. The mask isn't read.
    #[inline]
    pub fn get_filled(&self, byte: u8) -> &C
        requires { IsSome (in_cell self.now byte) }
        ensures { in_cell self.now byte ≡ Some result.now }
    {
        self.cells.get(byte)
    }

    /// Gives a byte that has none a child.
    #[inline]
    pub fn put(&mut self, byte: u8, child: C)
        requires { in_cell self.old byte ≡ None }
        ensures here { in_cell self.new byte ≡ Some child }
        ensures others { (b : ℕ) → b ≢ byte → in_cell self.new b ≡ in_cell self.old b }
    {
        mark(&mut self.mask, byte);
        self.cells.put(byte, child);
    }

    /// Replaces the child of a byte that has one, and returns the previous one. The mask isn't read.
    #[inline]
    pub fn exchange_filled(&mut self, byte: u8, child: C) -> C
        requires { IsSome (in_cell self.old byte) }
        ensures before { in_cell self.old byte ≡ Some result }
        ensures here { in_cell self.new byte ≡ Some child }
        ensures others { (b : ℕ) → b ≢ byte → in_cell self.new b ≡ in_cell self.old b }
    {
        let before = self.cells.take(byte);
        self.cells.put(byte, child);
        before
    }

    /// Replaces the child of a byte, and returns the previous one. A byte that has none keeps none: then `Err` returns
    /// the new child.
    #[inline]
    pub fn exchange(&mut self, byte: u8, child: C) -> Result<C, C>
        ensures before { IfOk result (λ c. in_cell self.old byte ≡ Some c) }
        ensures here { OnOk result (in_cell self.new byte ≡ Some child) }
        ensures others { (b : ℕ) → b ≢ byte → in_cell self.new b ≡ in_cell self.old b }
        ensures absent { OnErr result (in_cell self.old byte ≡ None) }
        ensures back { IfErr result (λ c. c ≡ child) }
        ensures same { OnErr result (self.new ≡ self.old) }
    {
        if is_marked(&self.mask, byte) {
            Ok(self.exchange_filled(byte, child))
        } else {
            Err(child)
        }
    }

    /// Takes out the child of a byte, if there is one, and returns it.
    #[inline]
    pub fn take(&mut self, byte: u8) -> Option<C>
        ensures before { result ≡ in_cell self.old byte }
        ensures here { in_cell self.new byte ≡ None }
        ensures others { (b : ℕ) → b ≢ byte → in_cell self.new b ≡ in_cell self.old b }
    {
        if is_marked(&self.mask, byte) {
            unmark(&mut self.mask, byte);
            Some(self.cells.take(byte))
        } else {
            None
        }
    }

    /// The first byte from this number on that has a child, or `None`.
    #[inline]
    pub fn next(&self, from: usize) -> Option<u8>
        ensures order { IfSome result (λ byte. from ≤ byte) }
        ensures here { IfSome result (λ byte. IsSome (in_cell self.now byte)) }
        ensures free { IfSome result (λ byte. (b : ℕ) → from ≤ b → b < byte
            → in_cell self.now b ≡ None) }
        ensures none { IfNone result ((b : ℕ) → from ≤ b → in_cell self.now b ≡ None) }
    {
        next_marked(&self.mask, from)
    }

    /// The last byte below this number that has a child, or `None`.
    pub fn last(&self, to: usize) -> Option<u8>
        requires { to ≤ 256 }
        ensures order { IfSome result (λ byte. byte < to) }
        ensures here { IfSome result (λ byte. IsSome (in_cell self.now byte)) }
        ensures free { IfSome result (λ byte. (b : ℕ) → byte < b → b < to
            → in_cell self.now b ≡ None) }
        ensures none { IfNone result ((b : ℕ) → b < to → in_cell self.now b ≡ None) }
    {
        last_marked(&self.mask, to)
    }

    /// Gives each of the first bytes, which have none, its child of a row, which is left without children. The last
    /// child of the row is moved first.
    pub fn fill(&mut self, bytes: &[u8; 256], row: &mut Vec<C>)
        requires few { vec_len row.old ≤ 256 }
        requires apart { (i j : ℕ) → i < j → j < vec_len row.old
            → slice_index bytes.now i ≢ slice_index bytes.now j }
        requires empty { (i : ℕ) → i < vec_len row.old
            → in_cell self.old (slice_index bytes.now i) ≡ None }
        ensures moved { (i : ℕ) → i < vec_len row.old
            → in_cell self.new (slice_index bytes.now i) ≡ slice_get row.old.items i }
        ensures others { (b : ℕ) → ((i : ℕ) → i < vec_len row.old → slice_index bytes.now i ≢ b)
            → in_cell self.new b ≡ in_cell self.old b }
        ensures none { row.new.items ≡ [] }
        ensures room { vec_capacity row.new ≡ vec_capacity row.old }
    {
        while let Some(child) = row.pop() {
            self.put(bytes[row.len()], child);
        }
    }
}

// Drops the children in the marked cells.
//
// It leaves the mask as it is, so that nothing is left of the loop where a child needs no drop.
fn drop_marked<C: Drop>(mask: &[u64; 4], cells: &mut Cells<C>)
    requires { IsMarked mask.now cells.old.slots }
    ensures { cells.new.slots ≡ replicate 256 None }
{
    for byte in 0..256usize {
        if is_marked(mask, byte as u8) {
            let _ = cells.take(byte as u8);
        }
    }
}

// A derived drop would leave the children and the block.
impl<C: Drop> Drop for Places<C> {
    fn drop(self) {
        let Places { mask, mut cells } = self;
        drop_marked(&mask, &mut cells);
        cells.free();
    }
}
