//! The table.
ghost use Rattle.std.specs.Prelude.{◌≡◌, ℕ, ◌+◌, ◌<◌, IfOk, IfSome, IfNone};
ghost use Rattle.word_hazards.specs.Views.{nobody};
ghost use Rattle.word_hazards.specs.Steps.{settling, announcing, lending, learning};
ghost use Rattle.word_owners.specs.inner.Handles.{LeavesRow};

mod inserts;
mod lists;
mod reclaims;

use crate::directory::Directory;
use crate::handle::Handle;
use crate::row::ROW;
use crossbeam_utils::CachePadded;
use std::alloc::{AllocError, Global};
use std::marker::Model;
use std::sync::atomic::AtomicU64;
use word_hazards::hazard::{HAZARDS, announce, clear, learn, leave, settle, validate};
use word_hazards::rule::HazardSeat;

const LOW: u64 = 0xffff_ffff;

const HALF: u64 = 0x1_0000_0000;

// How often a call tries again where others come in between.
const TRIES: u32 = 1_000_000;

/// Why an owner got no slot: other threads came in between too often, or one is just making slots. Or memory was missing.
#[derive(Debug, Clone, Copy, PartialEq, Eq)]
pub enum Lack {
    Busy,
    Memory,
}

/// Owners under tickets. Contracts see which table it is.
#[derive(Drop)]
pub struct Owners {
    directory: Directory,
    // Lists of slots: those that are free, and those whose ticket is retired. The low half is one more than the first slot, or 0.
    // The high half counts changes. No proof rests on them: who gets a slot still has to win its state.
    free: CachePadded<AtomicU64>,
    retired: CachePadded<AtomicU64>,
    // How many slots were ever used.
    used: CachePadded<AtomicU64>,
    // 1 while a thread makes slots.
    growing: AtomicU64,
    // How often each slot is used.
    uses: u64,
}

impl Model for Owners {
    ghost use Rattle.std.specs.Prelude.{◌<◌};
    ghost use Rattle.word_book.specs.Book.{Book, book_coded};

    ghost Value = { Book };

    ghost coded = { book_coded };

    ghost view = { λ o. o.directory };

    ghost invariant = { λ o. o.uses < 4294967296 };
}

fn new_list() -> CachePadded<AtomicU64> {
    CachePadded::new(AtomicU64::new(0))
}

impl Owners {
    /// A table without owners. It has no slots yet.
    pub fn new(alloc: Global) -> Result<Owners, AllocError> {
        Owners::with_uses(alloc, u32::MAX)
    }

    /// A table without owners, each of whose slots is used so many times.
    pub fn with_uses(alloc: Global, uses: u32) -> Result<Owners, AllocError> {
        let directory = Directory::new(alloc)?;
        Ok(Owners {
            directory,
            free: new_list(),
            retired: new_list(),
            used: new_list(),
            growing: AtomicU64::new(0),
            uses: uses as u64,
        })
    }

    // Takes a hazard that is nobody's.
    fn settled(&self, seat: &mut HazardSeat) -> Option<usize>
        requires table { seat.old.book ≡ self.now }
        requires new { seat.old.view ≡ nobody }
        ensures table { seat.new.book ≡ seat.old.book }
        ensures hazard { IfSome result (λ k. (k < 64) × (seat.new.view ≡ settling nobody k)) }
    {
        for hazard in 0..HAZARDS {
            if settle(self.directory.hazard(hazard), seat) {
                return Some(hazard);
            }
        }
        None
    }

    /// A new handle, which knows nothing. `None` where 64 are in use.
    pub fn handle(&self, alloc: Global) -> Result<Option<Handle>, AllocError>
        ensures handle { IfOk result (λ made. IfSome made (λ h. (h.book ≡ self.now)
            × ((k : ℕ) × (h.view ≡ settling nobody k)))) }
    {
        let retired = Vec::with_capacity(alloc, ROW)?;
        let found = Vec::with_capacity(alloc, HAZARDS)?;
        let spare = Vec::with_capacity(alloc, ROW)?;
        let mut seat = self.directory.enter();
        let Some(hazard) = self.settled(&mut seat) else {
            return Ok(None);
        };
        Ok(Some(Handle {
            seat,
            hazard,
            retired,
            found,
            current: false,
            spare,
        }))
    }

    // The owner of a ticket, which is lent then to the seat with this hazard.
    #[tactic(auto, using(crate::proofs::Handles::left_announcing, crate::proofs::Handles::left_learning))]
    fn lend_by(&self, hazard: usize, ticket: u64, seat: &mut HazardSeat) -> Option<u64>
        requires table { seat.old.book ≡ self.now }
        requires hazard { (hazard < 64) × (seat.old.view.hazard ≡ Some hazard) }
        ensures table { seat.new.book ≡ seat.old.book }
        ensures lent { IfSome result (λ o. seat.new.view ≡ learning (lending (announcing seat.old.view (ticket + 2))) ticket o) }
        ensures retired { IfNone result ((x : ℕ) × (seat.new.view ≡ announcing seat.old.view x)) }
        ensures row { LeavesRow seat.old.view seat.new.view }
    {
        let word = self.directory.hazard(hazard);
        if ticket < u64::MAX - 1 {
            if let Some(words) = self.directory.slot(ticket % HALF) {
                announce(word, ticket, seat);
                if validate(words.state, ticket, seat) {
                    return Some(learn(words.owner, ticket, seat));
                }
            }
        }
        clear(word, seat);
        None
    }

    /// The owner of a ticket, which the handle has lent then. `None` where the ticket is retired, or was never issued. The loan
    /// before ends.
    #[tactic(auto, using(crate::proofs::Handles::still))]
    pub fn lend(&self, handle: &mut Handle, ticket: u64) -> Option<u64>
        requires table { handle.old.book ≡ self.now }
        ensures table { handle.new.book ≡ handle.old.book }
        ensures lent { IfSome result (λ o. handle.new.view ≡ learning (lending (announcing handle.old.view (ticket + 2))) ticket o) }
        ensures retired { IfNone result ((x : ℕ) × (handle.new.view ≡ announcing handle.old.view x)) }
    {
        self.lend_by(handle.hazard, ticket, &mut handle.seat)
    }

    /// Ends the handle's loan.
    #[tactic(auto, using(crate::proofs::Handles::still, crate::proofs::Handles::left_announcing))]
    pub fn end(&self, handle: &mut Handle)
        requires table { handle.old.book ≡ self.now }
        ensures table { handle.new.book ≡ handle.old.book }
        ensures ended { handle.new.view ≡ announcing handle.old.view 1 }
    {
        clear(self.directory.hazard(handle.hazard), &mut handle.seat);
    }

    /// Ends a handle. Its hazard is another handle's, and so are the tickets that it has retired.
    pub fn leave(&self, handle: Handle)
        requires table { handle.book ≡ self.now }
    {
        let Handle {
            seat,
            hazard,
            retired,
            found: _,
            current: _,
            spare,
        } = handle;
        let mut seat = seat;
        leave(self.directory.hazard(hazard), &mut seat);
        self.push_all(&*self.retired, retired, &mut seat);
        self.push_all(&*self.free, spare, &mut seat);
    }
}
