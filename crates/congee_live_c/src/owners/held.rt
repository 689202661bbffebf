//! What a handle holds: a share of a map of owners, and a handle of the map.
//!
//! Tested in `tools/c-library`.

ghost use Rattle.std.specs.Prelude.{◌≡◌, IfOk, IfSome};
ghost use Rattle.live_owners.specs.Owners.{IsNewHandle};

use live_owners::handle::OwnersHandle;
use live_owners::map::LiveOwners;
use std::alloc::{AllocError, Global};
use std::marker::Model;
use std::sync::Arc;

/// A handle of a map of owners, and a share of the map, which lives as long as its last one.
pub struct Held {
    pub map: Arc<LiveOwners>,
    pub handle: OwnersHandle,
}

impl Model for Held {
    ghost use Rattle.std.specs.Prelude.{◌≡◌};
    ghost use Rattle.std.specs.Arc.{arc_value};
    ghost use Rattle.live_owners.specs.Owners.{OwnersKnown, IsHandleOf};

    ghost Value = { OwnersKnown };

    ghost view = { λ h. h.handle };

    ghost invariant = { λ h. IsHandleOf (arc_value h.map) h.handle };
}

impl Held {
    /// The first handle of a new, empty map, which knows nothing. The segments of the map's nodes may take so many bytes together.
    /// `AllocError` if there is no memory for the map, or the limit is below 4,096 bytes.
    pub fn first(alloc: Global, limit: u64) -> Result<Held, AllocError>
        ensures new { IfOk result (λ first. IsNewHandle first) }
        ensures limit { IfOk result (λ first. first.tickets.book.limit ≡ limit) }
    {
        let made = LiveOwners::new(alloc, limit)?;
        let Ok(map) = Arc::new(alloc, made) else {
            return Err(AllocError);
        };
        let Some(handle) = map.handle(alloc)? else {
            return Err(AllocError);
        };
        Ok(Held { map, handle })
    }

    /// One more handle of the map, which knows nothing yet. `None` where 64 are in use. `AllocError` where memory is missing, or
    /// there are too many shares to count.
    pub fn beside(&self, alloc: Global) -> Result<Option<Held>, AllocError>
        ensures map { IfOk result (λ made. IfSome made (λ other.
            (other.tickets.book ≡ self.now.tickets.book) × (other.table ≡ self.now.table))) }
        ensures new { IfOk result (λ made. IfSome made (λ other. IsNewHandle other)) }
    {
        let Ok(map) = Arc::try_clone(&self.map) else {
            return Err(AllocError);
        };
        match map.handle(alloc)? {
            Some(handle) => Ok(Some(Held { map, handle })),
            None => Ok(None),
        }
    }
}

/// Ends the handle. Its place is free then, and other handles get the tickets that it has retired.
impl Drop for Held {
    fn drop(self) {
        let Held { map, handle } = self;
        map.leave(handle);
        drop(map);
    }
}
