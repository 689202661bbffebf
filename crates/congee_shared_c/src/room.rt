//! Where a new handle is written.
//!
//! Tested in `tools/c-library`.

ghost use Rattle.std.specs.Prelude.{◌≡◌, Option, Some};
ghost use Rattle.congee_shared_c.specs.declared.held.Held.{Held};
ghost use Rattle.congee_shared_c.specs.contracts.held.Held.{the_row as held_row};
ghost use Rattle.c_handles.specs.Owned.{room_owns, room_coded};

use crate::handle::Handle;
use crate::held::Held;
use c_handles::parts::Parts;
use std::alloc::Global;
use std::marker::Model;

/// A place for a handle, which may have one. An export can't return a pointer, so it writes here.
#[repr(C)]
#[derive(Drop)]
pub struct Room {
    ptr: *mut u8,
    alloc: Global,
    pub ghost held: { Option Held } by { room_coded held_row },
}

impl Model for Room {
    ghost also_owns = { λ r. room_owns held_row r.alloc r.ptr r.held };
}

impl Room {
    /// A place with this handle.
    pub(crate) fn of(handle: Handle) -> Room
        ensures { result.held ≡ Some handle.held }
    {
        Room::of_parts(handle.into_parts())
    }

    fn of_parts(parts: Parts<Held, Global>) -> Room
        ensures { result.held ≡ Some parts.value }
    {
        let Parts { ptr, alloc } = parts;
        Room {
            ptr: ptr as *mut u8,
            alloc,
        }
    }
}
