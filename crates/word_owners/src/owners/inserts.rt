//! An owner is put into a slot.
ghost use Rattle.std.specs.Prelude.{◌≡◌, ℕ, ◌<◌, IfOk, IfSome, IfNone, OnErr};
ghost use Rattle.word_hazards.specs.Views.{HasIssued};
ghost use Rattle.word_hazards.specs.Steps.{issuing};
ghost use Rattle.word_owners.specs.inner.Handles.{LeavesRow};

use super::{HALF, LOW, Lack, Owners, TRIES};
use crate::directory::slot_at;
use crate::handle::Handle;
use std::alloc::{AllocError, Global};
use std::hint::spin_loop;
use std::sync::atomic::Ordering::SeqCst;
use word_hazards::book::number;
use word_hazards::rule::HazardSeat;
use word_hazards::slot::{claim, fill, issue};

impl Owners {
    // A slot that was never used.
    fn unused(&self) -> Option<u64>
        ensures slot { IfSome result (λ slot. slot < 4294967296) }
    {
        for _ in 0..TRIES {
            let used = self.used.load(SeqCst);
            if used >= LOW {
                return None;
            }
            let slot = slot_at(used)?;
            self.directory.slot(slot)?;
            if self
                .used
                .compare_exchange(used, used + 1, SeqCst, SeqCst)
                .is_ok()
            {
                return Some(slot);
            }
        }
        None
    }

    // Makes slots, if no other thread does.
    fn grow(&self, alloc: Global, seat: &mut HazardSeat) -> Result<(), AllocError>
        requires table { seat.old.book ≡ self.now }
        ensures seat { (seat.new.book ≡ seat.old.book) × (seat.new.view ≡ seat.old.view) }
    {
        if self.growing.compare_exchange(0, 1, SeqCst, SeqCst).is_err() {
            spin_loop();
            return Ok(());
        }
        let grown = self.grow_once(alloc, seat);
        self.growing.store(0, SeqCst);
        grown?;
        Ok(())
    }

    // Makes slots, unless there is one that was never used.
    fn grow_once(&self, alloc: Global, seat: &mut HazardSeat) -> Result<bool, AllocError>
        requires table { seat.old.book ≡ self.now }
        ensures seat { (seat.new.book ≡ seat.old.book) × (seat.new.view ≡ seat.old.view) }
    {
        if let Some(slot) = slot_at(self.used.load(SeqCst)) {
            if self.directory.slot(slot).is_some() {
                return Ok(true);
            }
        }
        self.directory.grow(alloc, seat)
    }

    // A slot that is most likely free. `None` where slots were made first.
    fn vacancy(
        &self,
        alloc: Global,
        spare: &mut Vec<u64>,
        seat: &mut HazardSeat,
    ) -> Result<Option<u64>, AllocError>
        requires table { seat.old.book ≡ self.now }
        ensures seat { (seat.new.book ≡ seat.old.book) × (seat.new.view ≡ seat.old.view) }
        ensures spare { spare.new.cap ≡ spare.old.cap }
    {
        if let Some(slot) = spare.pop() {
            return Ok(Some(slot));
        }
        if let Some(slot) = self.pop(&*self.free, seat) {
            return Ok(Some(slot));
        }
        if let Some(slot) = self.unused() {
            return Ok(Some(slot));
        }
        self.grow(alloc, seat)?;
        Ok(None)
    }

    // Issues a ticket of a slot, if that is free.
    #[tactic(auto, using(crate::proofs::Handles::left, crate::proofs::Handles::left_issuing))]
    fn insert_at(&self, slot: u64, owner: u64, seat: &mut HazardSeat) -> Option<u64>
        requires slot { slot < 4294967296 }
        requires table { seat.old.book ≡ self.now }
        ensures table { seat.new.book ≡ seat.old.book }
        ensures issued { IfSome result (λ t. seat.new.view ≡ issuing seat.old.view t owner) }
        ensures first { IfSome result (λ t. (o : ℕ) → HasIssued seat.old.view t o → ⊥) }
        ensures busy { IfNone result (seat.new.view ≡ seat.old.view) }
        ensures row { LeavesRow seat.old.view seat.new.view }
    {
        let words = self.directory.slot(slot)?;
        let state = number(words.state, seat);
        let generation = state / 4;
        if state % 4 != 0 || generation >= self.uses {
            return None;
        }
        if !claim(words.state, slot, generation, seat) {
            return None;
        }
        fill(words.owner, owner, seat);
        Some(issue(words.state, slot, generation, owner, seat))
    }

    // Puts an owner into the first slot that it finds.
    #[tactic(auto, using(crate::proofs::Handles::left, crate::proofs::Handles::left_issuing))]
    fn insert_once(
        &self,
        alloc: Global,
        owner: u64,
        spare: &mut Vec<u64>,
        seat: &mut HazardSeat,
    ) -> Result<u64, Lack>
        requires table { seat.old.book ≡ self.now }
        ensures table { seat.new.book ≡ seat.old.book }
        ensures issued { IfOk result (λ t. seat.new.view ≡ issuing seat.old.view t owner) }
        ensures first { IfOk result (λ t. (o : ℕ) → HasIssued seat.old.view t o → ⊥) }
        ensures refused { OnErr result (seat.new.view ≡ seat.old.view) }
        ensures row { LeavesRow seat.old.view seat.new.view }
        ensures spare { spare.new.cap ≡ spare.old.cap }
    {
        match self.vacancy(alloc, spare, seat) {
            Ok(Some(slot)) if slot < HALF => match self.insert_at(slot, owner, seat) {
                Some(ticket) => Ok(ticket),
                None => Err(Lack::Busy),
            },
            Ok(_) => Err(Lack::Busy),
            Err(AllocError) => Err(Lack::Memory),
        }
    }

    // Puts an owner into a slot, by as many tries as it takes.
    #[tactic(auto, using(crate::proofs::Handles::left, crate::proofs::Handles::left_issuing))]
    fn insert_by(
        &self,
        alloc: Global,
        owner: u64,
        spare: &mut Vec<u64>,
        seat: &mut HazardSeat,
    ) -> Result<u64, Lack>
        requires table { seat.old.book ≡ self.now }
        ensures table { seat.new.book ≡ seat.old.book }
        ensures issued { IfOk result (λ t. seat.new.view ≡ issuing seat.old.view t owner) }
        ensures first { IfOk result (λ t. (o : ℕ) → HasIssued seat.old.view t o → ⊥) }
        ensures refused { OnErr result (seat.new.view ≡ seat.old.view) }
        ensures row { LeavesRow seat.old.view seat.new.view }
        ensures spare { spare.new.cap ≡ spare.old.cap }
    {
        for _ in 0..TRIES {
            match self.insert_once(alloc, owner, spare, seat) {
                Ok(ticket) => return Ok(ticket),
                Err(Lack::Memory) => return Err(Lack::Memory),
                Err(Lack::Busy) => {}
            }
        }
        Err(Lack::Busy)
    }

    /// Puts an owner into a slot, and returns its ticket, of which the handle knew no owner before. Without memory for a slot, or
    /// where others come in between too often, the owner is still the caller's.
    #[tactic(auto, using(crate::proofs::Handles::still))]
    pub fn insert(&self, alloc: Global, handle: &mut Handle, owner: u64) -> Result<u64, Lack>
        requires table { handle.old.book ≡ self.now }
        ensures table { handle.new.book ≡ handle.old.book }
        ensures issued { IfOk result (λ t. handle.new.view ≡ issuing handle.old.view t owner) }
        ensures first { IfOk result (λ t. (o : ℕ) → HasIssued handle.old.view t o → ⊥) }
        ensures refused { OnErr result (handle.new.view ≡ handle.old.view) }
    {
        self.insert_by(alloc, owner, &mut handle.spare, &mut handle.seat)
    }
}
