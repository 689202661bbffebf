//! A box of the map whose pointer C may hold.
//!
//! Tested in `tools/c-library`.

ghost use Rattle.std.specs.Prelude.{◌≡◌, IfOk};
ghost use Rattle.c_handles.specs.Owned.{held_coded, handle_owns};
ghost use Rattle.congee_c.specs.declared.held.Held.{Held};
ghost use Rattle.congee_c.specs.contracts.held.Held.{the_row as held_row};

use crate::held::Held;
use c_handles::parts::Parts;
use std::alloc::{AllocError, Global};
use std::marker::Model;

/// What C holds: the address of the map on the heap, which the handle owns. One word; `Global` takes no bytes.
#[repr(C)]
pub struct Handle {
    pub ptr: *mut u8,
    pub(crate) alloc: Global,
    pub ghost held: { Held } by { held_coded held_row },
}

impl Model for Handle {
    ghost also_owns = { λ h. handle_owns held_row h.alloc h.ptr h.held };
}

impl Handle {
    ghost use Rattle.std.specs.Prelude.{◌≡◌, IfOk};
    ghost use types.Logic.{sem};
    ghost use denote.Follow.{follows};
    ghost use Rattle.congee_c.specs.contracts.handle.Handle.{the_row};
    ghost use Rattle.congee_c.specs.contracts.held.Held.{the_row as held_row};
    ghost use Rattle.congee_c.specs.inner.After.{with_held};

    /// Puts the map on the heap, or returns `AllocError` where there is no memory for that; the map is dropped then.
    pub fn new(alloc: Global, held: Held) -> Result<Handle, AllocError>
        ensures { IfOk result (λ handle. handle.held ≡ held) }
    {
        Ok(Handle::of_box(Box::new(alloc, held)?))
    }

    /// The handle of a map that is on the heap.
    pub fn of_box(held: Box<Held>) -> Handle
        ensures { result.held ≡ held.value }
    {
        Handle::of_parts(Parts::of(held))
    }

    /// The map, still on the heap.
    pub fn into_box(self) -> Box<Held>
        ensures { result.value ≡ self.held }
    {
        self.into_parts().into_box()
    }

    fn of_parts(parts: Parts<Held, Global>) -> Handle
        ensures { result.held ≡ parts.value }
    {
        let Parts { ptr, alloc } = parts;
        Handle {
            ptr: ptr as *mut u8,
            alloc,
        }
    }

    pub(crate) fn into_parts(self) -> Parts<Held, Global>
        ensures { result.value ≡ self.held }
    {
        let Handle { ptr, alloc } = self;
        Parts {
            ptr: ptr as *mut Held,
            alloc,
        }
    }

    /// The map, at its place on the heap.
    pub fn as_mut(&mut self) -> &mut Held
        ensures* writes_back { sem 𝓛
            (follows the_row held_row self.entry.ghost_name result.ghost_name (with_held self.old)) }
        ensures value { result.now ≡ self.old.held }
    {
        // The handle owns the block at its pointer, and is borrowed for as long as the map is.
        unsafe { &mut *(self.ptr as *mut Held) }
    }

    /// Drops the map, and frees its block.
    pub fn free(self) {
        drop(self.into_box());
    }
}

// The map moves with the handle, and any thread may free its block.
unsafe impl Send for Handle {}
