//! A block of 256 cells on the heap, each empty or with a child: the children of a node by their bytes, with no index
//! and no order to keep.
//!
//! Tested in `congee_nodes`.

ghost use Rattle.std.specs.Prelude.{◌≡◌, length, List, Option, Some, None, replicate, IfOk, IsSome, slice_index_or, slice_set};
ghost use Rattle.std.specs.Coded.{coded_list, coded_option};
ghost use Rattle.std_alloc.specs.Vec.Ownership.{FitsInBlock};
ghost use Rattle.node_base.specs.inner.Cells.{block_owns, block_lends};

use spec_map::error::OOMError;
use std::alloc::Global;
use std::marker::{Model, Send, Sync};
use std_alloc::room::{Vacant, may_hold};

/// 256 cells, a byte's child in the cell of its number: on the heap 2,048 bytes for children of 8 bytes, and a pointer
/// to them.
///
/// It is no `Drop`: the one who empties all cells frees the block, so no child is lost with it.
pub struct Cells<C> {
    ptr: *mut C,
    alloc: Global,
    pub ghost slots: { List (Option C) } by { coded_list (coded_option C.code) },
    ghost full: { length slots ≡ 256 },
}

impl<C> Model for Cells<C> {
    ghost also_owns = { λ c. block_owns C.row c.alloc c.ptr c.slots };

    ghost also_shares = { λ c _ κ. block_lends C.row c.ptr c.slots κ };
}

unsafe impl<C: Send> Send for Cells<C> {}

unsafe impl<C: Sync> Sync for Cells<C> {}

impl<C> Cells<C> {
    /// 256 empty cells; a refusal only for lack of memory.
    pub fn new(alloc: Global) -> Result<Cells<C>, OOMError>
        ensures { IfOk result (λ c. c.slots ≡ replicate 256 None) }
    {
        if !may_hold::<C>(256) {
            return Err(OOMError::new());
        }
        match Vacant::take(alloc) {
            Ok(room) => Ok(Cells::within(room)),
            Err(_) => Err(OOMError::new()),
        }
    }

    // Room for 256 children as as many empty cells.
    fn within(room: Vacant<[C; 256], Global>) -> Cells<C>
        requires { FitsInBlock C.row 256 }
        ensures { result.slots ≡ replicate 256 None }
    {
        let Vacant { ptr, alloc } = room;
        Cells {
            ptr: ptr as *mut C,
            alloc,
        }
    }

    /// Fills an empty cell.
    pub fn put(&mut self, at: u8, child: C)
        requires { slice_index_or self.old.slots at None ≡ None }
        ensures { self.new.slots ≡ slice_set self.old.slots at (Some child) }
    {
        unsafe { self.ptr.add(at as usize).write(child) }
    }

    /// Empties a filled cell.
    pub fn take(&mut self, at: u8) -> C
        requires { IsSome (slice_index_or self.old.slots at None) }
        ensures value { slice_index_or self.old.slots at None ≡ Some result }
        ensures slots { self.new.slots ≡ slice_set self.old.slots at None }
    {
        unsafe { self.ptr.add(at as usize).read() }
    }

    /// What a filled cell has.
    pub fn get(&self, at: u8) -> &C
        requires { IsSome (slice_index_or self.now.slots at None) }
        ensures { slice_index_or self.now.slots at None ≡ Some result.now }
    {
        unsafe { &*self.ptr.add(at as usize) }
    }

    /// Frees the block; no cell is filled.
    pub fn free(self)
        requires { self.slots ≡ replicate 256 None }
    {
        self.fits();
        self.emptied().free();
    }

    // That there is a block shows that it isn't too large.
    fn fits(&self)
        ensures { FitsInBlock C.row 256 }
    {}

    // The empty cells as room again.
    fn emptied(self) -> Vacant<[C; 256], Global>
        requires { self.slots ≡ replicate 256 None }
    {
        let Cells { ptr, alloc } = self;
        Vacant {
            ptr: ptr as *mut [C; 256],
            alloc,
        }
    }
}

/// The number of cells never changes.
pub fn cells_are_256<C>(cells: &Cells<C>)
    ensures { length cells.now.slots ≡ 256 }
{}
