//! A box of a handle of a map of owners and its share of the map, whose pointer C may hold.
//!
//! Tested in `tools/c-library`.

ghost use Rattle.std.specs.Prelude.{◌≡◌};
ghost use Rattle.congee_live_c.specs.contracts.owners.held.Held.{the_row as held_row};
ghost use Rattle.c_handles.specs.Owned.{held_coded, handle_owns};
ghost use Rattle.live_owners.specs.Owners.{OwnersKnown};

use crate::owners::held::Held;
use c_handles::parts::Parts;
use std::alloc::Global;
use std::marker::Model;

/// What C holds: the address of a handle and its share on the heap, which this one owns. One word; `Global` takes no bytes.
#[repr(C)]
pub struct Handle {
    pub ptr: *mut u8,
    pub(crate) alloc: Global,
    pub ghost held: { OwnersKnown } by { held_coded held_row },
}

impl Model for Handle {
    ghost also_owns = { λ h. handle_owns held_row h.alloc h.ptr h.held };
}

impl Handle {
    ghost use Rattle.std.specs.Prelude.{◌≡◌};
    ghost use types.Logic.{sem};
    ghost use denote.Follow.{follows};
    ghost use Rattle.congee_live_c.specs.contracts.owners.handle.Handle.{the_row};
    ghost use Rattle.congee_live_c.specs.contracts.owners.held.Held.{the_row as held_row};
    ghost use Rattle.congee_live_c.specs.inner.After.{with_owners};

    fn into_parts(self) -> Parts<Held, Global>
        ensures { result.value ≡ self.held }
    {
        let Handle { ptr, alloc } = self;
        Parts {
            ptr: ptr as *mut Held,
            alloc,
        }
    }

    /// What the handle holds, at its place on the heap.
    pub fn as_mut(&mut self) -> &mut Held
        ensures* writes_back { sem 𝓛
            (follows the_row held_row self.entry.ghost_name result.ghost_name (with_owners self.old)) }
        ensures value { result.now ≡ self.old.held }
    {
        // The handle owns the block at its pointer, and is borrowed for as long as what it holds is.
        unsafe { &mut *(self.ptr as *mut Held) }
    }

    /// Drops what the handle holds, and frees its block.
    pub fn free(self) {
        drop(self.into_parts().into_box());
    }
}

// What a handle holds moves with it, and any thread may free its block.
unsafe impl Send for Handle {}
