//! A box of a reader of a frozen map, whose pointer C may hold: to the reader what `Handle` is to the map.
//!
//! Tested in `tools/c-library`.

ghost use Rattle.std.specs.Prelude.{◌≡◌, IfOk};
ghost use Rattle.c_handles.specs.Owned.{held_coded, handle_owns};
ghost use Rattle.congee_c.specs.declared.frozen.reader.Reader.{Reader};
ghost use Rattle.congee_c.specs.contracts.frozen.reader.Reader.{the_row as reader_row};

use crate::frozen::reader::Reader;
use c_handles::parts::Parts;
use std::alloc::{AllocError, Global};
use std::marker::Model;

/// What C holds: the address of the reader on the heap, which the handle owns. One word; `Global` takes no bytes.
#[repr(C)]
pub struct FrozenHandle {
    pub ptr: *mut u8,
    pub(crate) alloc: Global,
    pub ghost reader: { Reader } by { held_coded reader_row },
}

impl Model for FrozenHandle {
    ghost also_owns = { λ h. handle_owns reader_row h.alloc h.ptr h.reader };
}

impl FrozenHandle {
    ghost use Rattle.std.specs.Prelude.{◌≡◌, IfOk};
    ghost use types.Logic.{sem};
    ghost use denote.Follow.{follows};
    ghost use Rattle.congee_c.specs.contracts.frozen.handle.FrozenHandle.{the_row};
    ghost use Rattle.congee_c.specs.contracts.frozen.reader.Reader.{the_row as reader_row};
    ghost use Rattle.congee_c.specs.inner.After.{with_reader};

    /// Puts the reader on the heap, or returns `AllocError` where there is no memory for that; the reader is dropped then.
    pub fn new(alloc: Global, reader: Reader) -> Result<FrozenHandle, AllocError>
        ensures { IfOk result (λ handle. handle.reader ≡ reader) }
    {
        Ok(FrozenHandle::of_parts(Parts::of(Box::new(alloc, reader)?)))
    }

    fn of_parts(parts: Parts<Reader, Global>) -> FrozenHandle
        ensures { result.reader ≡ parts.value }
    {
        let Parts { ptr, alloc } = parts;
        FrozenHandle {
            ptr: ptr as *mut u8,
            alloc,
        }
    }

    pub(crate) fn into_parts(self) -> Parts<Reader, Global>
        ensures { result.value ≡ self.reader }
    {
        let FrozenHandle { ptr, alloc } = self;
        Parts {
            ptr: ptr as *mut Reader,
            alloc,
        }
    }

    /// The reader, at its place on the heap.
    pub fn as_mut(&mut self) -> &mut Reader
        ensures* writes_back { sem 𝓛
            (follows the_row reader_row self.entry.ghost_name result.ghost_name (with_reader self.old)) }
        ensures value { result.now ≡ self.old.reader }
    {
        // The handle owns the block at its pointer, and is borrowed for as long as the reader is.
        unsafe { &mut *(self.ptr as *mut Reader) }
    }

    /// Drops the reader, and frees its block.
    pub fn free(self) {
        drop(self.into_parts().into_box());
    }
}

// The reader moves with the handle, and any thread may free its block.
unsafe impl Send for FrozenHandle {}
