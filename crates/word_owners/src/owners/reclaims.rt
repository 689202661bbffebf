//! Tickets are retired, and their owners come back.
ghost use Rattle.std.specs.Prelude.{◌≡◌, ◌⊎◌, ℕ, ◌+◌, ◌<◌, ◌≤◌, true, false, List, length, IfSome, IfNone};
ghost use Rattle.word_hazards.specs.Views.{slot_of, In, HasReclaimed};
ghost use Rattle.word_hazards.specs.Steps.{retiring, peeking, reclaiming};
ghost use Rattle.word_owners.specs.Known.{Reclaims, ReclaimsNone};
ghost use Rattle.word_owners.specs.inner.Handles.{AreFound, AreRetired, HasScanned, LeavesRow, Looks};

use super::{HALF, LOW, Owners};
use crate::handle::Handle;
use crate::row::{ROW, is_announced};
use std::sync::atomic::Ordering::SeqCst;
use word_hazards::hazard::HAZARDS;
use word_hazards::rule::HazardSeat;
use word_hazards::scan::{peek, reclaim, scan};
use word_hazards::slot::{adopt, retire};

impl Owners {
    // Keeps a ticket that is retired for the next scan: in the row, or in the list of all handles.
    #[tactic(auto, using(crate::proofs::Lists::of_longer))]
    fn keep(&self, ticket: u64, row: &mut Vec<u64>, seat: &mut HazardSeat)
        requires table { seat.old.book ≡ self.now }
        requires room { 128 ≤ row.old.cap }
        ensures seat { (seat.new.book ≡ seat.old.book) × (seat.new.view ≡ seat.old.view) }
        ensures row { (t : ℕ) → In t row.new.items → (ticket ≡ t) ⊎ In t row.old.items }
        ensures room { row.new.cap ≡ row.old.cap }
    {
        if row.len() < ROW {
            row.push_reserved(ticket);
        } else {
            self.push(&*self.retired, ticket % HALF, seat);
        }
    }

    fn retire_by(&self, ticket: u64, seat: &mut HazardSeat) -> bool
        requires table { seat.old.book ≡ self.now }
        ensures table { seat.new.book ≡ seat.old.book }
        ensures retired { result ≡ true → seat.new.view ≡ retiring seat.old.view ticket }
        ensures not_issued { result ≡ false → seat.new.view ≡ seat.old.view }
    {
        let Some(words) = self.directory.slot(ticket % HALF) else {
            return false;
        };
        retire(words.state, ticket, seat)
    }

    /// Retires a ticket, if it is issued: nobody gets its owner lent from then on. `false` where it was retired before, or was
    /// never issued.
    pub fn retire(&self, handle: &mut Handle, ticket: u64) -> bool
        requires table { handle.old.book ≡ self.now }
        ensures table { handle.new.book ≡ handle.old.book }
        ensures retired { result ≡ true → handle.new.view ≡ retiring handle.old.view ticket }
        ensures not_issued { result ≡ false → handle.new.view ≡ handle.old.view }
    {
        if !self.retire_by(ticket, &mut handle.seat) {
            return false;
        }
        handle.current = false;
        self.keep(ticket, &mut handle.retired, &mut handle.seat);
        true
    }

    /// How many retired tickets the handle keeps for its next scan.
    pub fn pending(&self, handle: &Handle) -> usize {
        handle.retired.len()
    }

    // A retired ticket that another handle has left, if there is one.
    fn adopt_one(&self, seat: &mut HazardSeat) -> Option<u64>
        requires table { seat.old.book ≡ self.now }
        ensures table { seat.new.book ≡ seat.old.book }
        ensures retired { IfSome result (λ t. seat.new.view ≡ retiring seat.old.view t) }
        ensures none { IfNone result (seat.new.view ≡ seat.old.view) }
    {
        let slot = self.pop(&*self.retired, seat)?;
        let words = self.directory.slot(slot)?;
        adopt(words.state, slot, seat)
    }

    // Takes such tickets over, as many as the row has room for.
    fn adopt_all(&self, row: &mut Vec<u64>, seat: &mut HazardSeat)
        requires table { seat.old.book ≡ self.now }
        requires room { 128 ≤ row.old.cap }
        requires row { AreRetired seat.old.view row.old.items }
        ensures table { seat.new.book ≡ seat.old.book }
        ensures looks { Looks seat.old.view seat.new.view }
        ensures row { AreRetired seat.new.view row.new.items }
        ensures room { row.new.cap ≡ row.old.cap }
    {
        while row.len() < ROW {
            let Some(ticket) = self.adopt_one(seat) else {
                return;
            };
            row.push_reserved(ticket);
        }
    }

    // Reads a hazard, the first one or the next one of a scan.
    #[tactic(auto, using(crate::proofs::Handles::looks_scanning))]
    fn look(&self, hazard: usize, found: &mut Vec<u64>, seat: &mut HazardSeat)
        requires table { seat.old.book ≡ self.now }
        requires hazard { hazard < 64 }
        requires room { length found.old.items < found.old.cap }
        requires found { (hazard ≡ 0) ⊎ ((hazard ≡ seat.old.view.scanned) × AreFound seat.old.view found.old.items) }
        ensures table { seat.new.book ≡ seat.old.book }
        ensures looks { Looks seat.old.view seat.new.view }
        ensures retired { seat.new.view.retired ≡ seat.old.view.retired }
        ensures scanned { seat.new.view.scanned ≡ hazard + 1 }
        ensures found { AreFound seat.new.view found.new.items }
        ensures room { (length found.new.items ≤ length found.old.items + 1) × (found.new.cap ≡ found.old.cap) }
    {
        let number = scan(self.directory.hazard(hazard), seat);
        if number >= 2 {
            found.push_reserved(number);
        }
    }

    // Reads all hazards.
    #[tactic(auto, using(crate::proofs::Handles::looks_same, crate::proofs::Handles::looks_twice))]
    fn scan(&self, found: &mut Vec<u64>, seat: &mut HazardSeat)
        requires table { seat.old.book ≡ self.now }
        requires room { 64 ≤ found.old.cap }
        ensures table { seat.new.book ≡ seat.old.book }
        ensures looks { Looks seat.old.view seat.new.view }
        ensures retired { seat.new.view.retired ≡ seat.old.view.retired }
        ensures scanned { HasScanned seat.new.view found.new.items }
        ensures room { found.new.cap ≡ found.old.cap }
    {
        found.clear();
        let mut hazard = 0;
        while hazard < HAZARDS {
            self.look(hazard, found, seat);
            hazard += 1;
        }
    }

    // The owner of a retired ticket, if nobody has it lent. Else the ticket is left to all handles.
    fn reclaim_one(&self, ticket: u64, found: &[u64], seat: &mut HazardSeat) -> Option<u64>
        requires table { seat.old.book ≡ self.now }
        requires retired { In ticket seat.old.view.retired }
        requires scanned { HasScanned seat.old.view found.now }
        ensures table { seat.new.book ≡ seat.old.book }
        ensures reclaimed { IfSome result (λ o. seat.new.view ≡ reclaiming (peeking seat.old.view (slot_of ticket) o) ticket o) }
        ensures first { IfSome result (λ o. HasReclaimed seat.old.view ticket → ⊥) }
        ensures lent { IfNone result (Looks seat.old.view seat.new.view) }
        ensures row { LeavesRow seat.old.view seat.new.view }
    {
        if ticket >= u64::MAX - 1 {
            return None;
        }
        if is_announced(found, ticket) {
            self.push(&*self.retired, ticket % HALF, seat);
            return None;
        }
        let words = self.directory.slot(ticket % HALF)?;
        let owner = peek(words.owner, ticket % HALF, seat);
        if reclaim(words.state, ticket, seat) {
            Some(owner)
        } else {
            None
        }
    }

    // The first of a row's tickets that nobody has lent, and its owner.
    fn reclaim_by(
        &self,
        row: &mut Vec<u64>,
        found: &[u64],
        seat: &mut HazardSeat,
    ) -> Option<(u64, u64)>
        requires table { seat.old.book ≡ self.now }
        requires row { AreRetired seat.old.view row.old.items }
        requires scanned { HasScanned seat.old.view found.now }
        ensures table { seat.new.book ≡ seat.old.book }
        ensures reclaimed { IfSome result (λ got. Reclaims seat.old.view seat.new.view got.0 got.1) }
        ensures none { IfNone result (ReclaimsNone seat.old.view seat.new.view) }
        ensures row { AreRetired seat.new.view row.new.items }
        ensures scanned { HasScanned seat.new.view found.now }
        ensures hazard { seat.new.view.hazard ≡ seat.old.view.hazard }
        ensures room { row.new.cap ≡ row.old.cap }
    {
        while let Some(ticket) = row.pop() {
            if let Some(owner) = self.reclaim_one(ticket, found, seat) {
                return Some((ticket, owner));
            }
        }
        None
    }

    // A slot that is free again is at hand for the next insertion, if it may be used again.
    fn release(&self, ticket: u64, spare: &mut Vec<u64>, seat: &mut HazardSeat)
        requires table { seat.old.book ≡ self.now }
        requires room { 128 ≤ spare.old.cap }
        ensures seat { (seat.new.book ≡ seat.old.book) × (seat.new.view ≡ seat.old.view) }
        ensures room { spare.new.cap ≡ spare.old.cap }
    {
        if ticket / HALF + 1 >= self.uses {
            return;
        }
        if spare.len() < ROW {
            spare.push_reserved(ticket % HALF);
        } else {
            self.push(&*self.free, ticket % HALF, seat);
        }
    }

    // Frees an owner of the handle's row whose ticket nobody has announced. The slot is ready for the next insertion.
    fn reclaim_slot(
        &self,
        row: &mut Vec<u64>,
        found: &[u64],
        spare: &mut Vec<u64>,
        seat: &mut HazardSeat,
    ) -> Option<(u64, u64)>
        requires table { seat.old.book ≡ self.now }
        requires row { AreRetired seat.old.view row.old.items }
        requires scanned { HasScanned seat.old.view found.now }
        requires room { 128 ≤ spare.old.cap }
        ensures table { seat.new.book ≡ seat.old.book }
        ensures reclaimed { IfSome result (λ got. Reclaims seat.old.view seat.new.view got.0 got.1) }
        ensures none { IfNone result (ReclaimsNone seat.old.view seat.new.view) }
        ensures row { AreRetired seat.new.view row.new.items }
        ensures scanned { HasScanned seat.new.view found.now }
        ensures hazard { seat.new.view.hazard ≡ seat.old.view.hazard }
        ensures room { (row.new.cap ≡ row.old.cap) × (spare.new.cap ≡ spare.old.cap) }
    {
        let (ticket, owner) = self.reclaim_by(row, found, seat)?;
        self.release(ticket, spare, seat);
        Some((ticket, owner))
    }

    // Sees that the handle has scanned since its last ticket was retired. `false` where no ticket is retired.
    fn refresh(
        &self,
        current: bool,
        row: &mut Vec<u64>,
        found: &mut Vec<u64>,
        seat: &mut HazardSeat,
    ) -> bool
        requires table { seat.old.book ≡ self.now }
        requires row { AreRetired seat.old.view row.old.items }
        requires scanned { current ≡ true → HasScanned seat.old.view found.old.items }
        requires room { (128 ≤ row.old.cap) × (64 ≤ found.old.cap) }
        ensures table { seat.new.book ≡ seat.old.book }
        ensures looks { Looks seat.old.view seat.new.view }
        ensures row { AreRetired seat.new.view row.new.items }
        ensures scanned { result ≡ true → HasScanned seat.new.view found.new.items }
        ensures none { result ≡ false → (seat.new.view ≡ seat.old.view) × (found.new.items ≡ found.old.items) }
        ensures room { (row.new.cap ≡ row.old.cap) × (found.new.cap ≡ found.old.cap) }
    {
        if row.is_empty() {
            if self.retired.load(SeqCst) & LOW == 0 {
                return false;
            }
        } else if current {
            return true;
        }
        self.adopt_all(row, seat);
        self.scan(found, seat);
        true
    }

    /// A ticket that was retired and that nobody has lent, with its owner, which is the caller's from then on. Each owner comes
    /// back once. `None` where each retired ticket that the handle keeps, or that others have left, is lent, or there is none.
    ///
    /// It scans all hazards where the handle has retired a ticket since its last scan. So call it where some are `pending`, and
    /// then until it returns `None`.
    pub fn reclaim(&self, handle: &mut Handle) -> Option<(u64, u64)>
        requires table { handle.old.book ≡ self.now }
        ensures table { handle.new.book ≡ handle.old.book }
        ensures reclaimed { IfSome result (λ got. Reclaims handle.old.view handle.new.view got.0 got.1) }
        ensures none { IfNone result (ReclaimsNone handle.old.view handle.new.view) }
    {
        let current = handle.current;
        if !self.refresh(
            current,
            &mut handle.retired,
            &mut handle.found,
            &mut handle.seat,
        ) {
            return None;
        }
        handle.current = true;
        self.reclaim_slot(
            &mut handle.retired,
            &handle.found,
            &mut handle.spare,
            &mut handle.seat,
        )
    }

    // Retires a ticket, and takes its owner back where a scan finds the ticket at no hazard.
    fn withdraw_by(
        &self,
        ticket: u64,
        found: &mut Vec<u64>,
        spare: &mut Vec<u64>,
        seat: &mut HazardSeat,
    ) -> Option<u64>
        requires table { seat.old.book ≡ self.now }
        requires room { (64 ≤ found.old.cap) × (128 ≤ spare.old.cap) }
        ensures table { seat.new.book ≡ seat.old.book }
        ensures withdrawn { IfSome result (λ o. Reclaims seat.old.view seat.new.view ticket o) }
        ensures none { IfNone result (ReclaimsNone seat.old.view seat.new.view) }
        ensures rows { (row : List ℕ) → AreRetired seat.old.view row → AreRetired seat.new.view row }
        ensures room { (found.new.cap ≡ found.old.cap) × (spare.new.cap ≡ spare.old.cap) }
    {
        if !self.retire_by(ticket, seat) {
            return None;
        }
        self.scan(found, seat);
        let owner = self.reclaim_one(ticket, found, seat)?;
        self.release(ticket, spare, seat);
        Some(owner)
    }

    /// Takes the owner back of a ticket that the caller has issued and shown to nobody. `None` where another handle has announced
    /// the ticket all the same, or has retired it: then the owner comes back by `reclaim`. It scans all hazards.
    pub fn withdraw(&self, handle: &mut Handle, ticket: u64) -> Option<u64>
        requires table { handle.old.book ≡ self.now }
        ensures table { handle.new.book ≡ handle.old.book }
        ensures withdrawn { IfSome result (λ o. Reclaims handle.old.view handle.new.view ticket o) }
        ensures none { IfNone result (ReclaimsNone handle.old.view handle.new.view) }
    {
        handle.current = false;
        self.withdraw_by(
            ticket,
            &mut handle.found,
            &mut handle.spare,
            &mut handle.seat,
        )
    }
}
