//! Where the handle of a frozen map is written.
//!
//! Tested in `tools/c-library`.

ghost use Rattle.std.specs.Prelude.{◌≡◌, Option, Some};
ghost use Rattle.congee_c.specs.declared.frozen.reader.Reader.{Reader};
ghost use Rattle.congee_c.specs.contracts.frozen.reader.Reader.{the_row as reader_row};
ghost use Rattle.c_handles.specs.Owned.{room_owns, room_coded};

use crate::frozen::handle::FrozenHandle;
use crate::frozen::reader::Reader;
use c_handles::parts::Parts;
use std::alloc::Global;
use std::marker::Model;

/// A place for a handle, which may have one. An export can't return a pointer, so it writes here.
#[repr(C)]
#[derive(Drop)]
pub struct FrozenRoom {
    ptr: *mut u8,
    alloc: Global,
    pub ghost reader: { Option Reader } by { room_coded reader_row },
}

impl Model for FrozenRoom {
    ghost also_owns = { λ r. room_owns reader_row r.alloc r.ptr r.reader };
}

impl FrozenRoom {
    /// A place with this handle.
    pub(crate) fn of(handle: FrozenHandle) -> FrozenRoom
        ensures { result.reader ≡ Some handle.reader }
    {
        FrozenRoom::of_parts(handle.into_parts())
    }

    fn of_parts(parts: Parts<Reader, Global>) -> FrozenRoom
        ensures { result.reader ≡ Some parts.value }
    {
        let Parts { ptr, alloc } = parts;
        FrozenRoom {
            ptr: ptr as *mut u8,
            alloc,
        }
    }
}
