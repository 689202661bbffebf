//! What a handle holds: a share of the map, and a guard of the map.
//!
//! Tested in `tools/c-library`.

ghost use Rattle.std.specs.Prelude.{◌≡◌, [], IfOk};

use live_growth::map::Guard;
use live_pool::pool::Pool;
use std::alloc::{AllocError, Global};
use std::marker::Model;
use std::sync::Arc;

/// A guard of a map, and a share of the map, which lives as long as its last one. The guard that ends leaves its room for nodes
/// to the next.
pub struct Held {
    pub pool: Arc<Pool>,
    pub guard: Guard,
}

impl Model for Held {
    ghost use Rattle.std.specs.Prelude.{◌≡◌};
    ghost use Rattle.std.specs.Arc.{arc_value};
    ghost use Rattle.congee_live_c.specs.Holding.{Holding};

    ghost Value = { Holding };

    ghost view = { λ h. record { guard = h.guard } };

    ghost invariant = { λ h. h.guard.book ≡ arc_value h.pool };
}

impl Held {
    /// The first guard of a new, empty map, which has seen nothing. The map's segments may take so many bytes together.
    /// `AllocError` if there is no memory for the map, or the limit is below 4,096 bytes.
    pub fn first(alloc: Global, limit: u64) -> Result<Held, AllocError>
        ensures unseen { IfOk result (λ first. first.guard.seen ≡ []) }
        ensures limit { IfOk result (λ first. first.guard.book.limit ≡ limit) }
    {
        let made = Pool::with_limit(alloc, limit)?;
        let Ok(pool) = Arc::new(alloc, made) else {
            return Err(AllocError);
        };
        let guard = pool.pin();
        Ok(Held { pool, guard })
    }

    /// One more guard of the map, which has seen nothing yet. One for a note gets no room for nodes. `AllocError` where there are
    /// too many shares to count.
    pub fn beside(&self, is_note: bool) -> Result<Held, AllocError>
        ensures { IfOk result (λ other. (other.guard.book ≡ self.now.guard.book) × (other.guard.seen ≡ [])) }
    {
        let Ok(pool) = Arc::try_clone(&self.pool) else {
            return Err(AllocError);
        };
        let guard = if is_note { pool.map.pin() } else { pool.pin() };
        Ok(Held { pool, guard })
    }
}

/// The next guard gets this one's room for nodes.
impl Drop for Held {
    fn drop(self) {
        let Held { pool, guard } = self;
        pool.unpin(guard);
        drop(pool);
    }
}
