//! Owners come back, each once.
//!
//! Tested in `tools/c-library`.

ghost use Rattle.std.specs.Prelude.{◌≡◌, ◌≢◌, ◌⊎◌, ℕ, ◌^◌, true, None, Some, pos};
ghost use Rattle.live_pool.specs.Pops.{HasPopped};
ghost use Rattle.live_owners.specs.Owners.{KnowsMore, ComesBack, NoneComesBack};
ghost use Rattle.congee_live_c.specs.Answer.{busy};

use super::Lent;
use super::handle::Handle;
use crate::BUSY;
use live_growth::map::Busy;

/// Writes a ticket that left the map, and its owner, which no handle has lent and which is the caller's from then on, to `back` and
/// answers 1. Each owner comes back once. Or answers 0: each such ticket that the handle keeps, or that handles left, is lent, or
/// there is none.
#[unsafe(no_mangle)]
pub extern "C" fn congee_c_live_owners_reclaim(handle: &mut Handle, back: &mut Lent) -> i32
    ensures code { (result ≡ pos 0) ⊎ (result ≡ pos 1) }
    ensures map { KnowsMore handle.old.held handle.new.held }
    ensures tickets { handle.new.held.tickets ≡ handle.old.held.tickets }
    ensures back { result ≡ pos 1 → ComesBack handle.old.held.owners handle.new.held.owners
        back.new.ticket back.new.owner }
    ensures none { result ≡ pos 0
        → NoneComesBack handle.old.held.owners handle.new.held.owners }
    ensures kept { result ≢ pos 1 → back.new ≡ back.old }
    ensures place { handle.new.ptr ≡ handle.old.ptr }
{
    let held = handle.as_mut();
    match held.map.reclaim(&mut held.handle) {
        Some((ticket, owner)) => {
            *back = Lent { ticket, owner };
            1
        }
        None => 0,
    }
}

/// How many tickets that left the map the handle keeps for its next `congee_c_live_owners_reclaim`. Takes constant time.
#[unsafe(no_mangle)]
pub extern "C" fn congee_c_live_owners_pending(handle: &mut Handle) -> u64
    ensures same { handle.new.held ≡ handle.old.held }
    ensures place { handle.new.ptr ≡ handle.old.ptr }
{
    let held = handle.as_mut();
    held.map.pending(&held.handle) as u64
}

/// For the last handle of a map. Ends the handle's loan, writes a ticket that left the map and its owner to `back`, as
/// `congee_c_live_owners_reclaim`, and answers 1. Where no owner comes back, the call removes the first key before. Answers 0 where
/// the map is empty and no owner is left that can come back. Answers `BUSY` where other handles are in use after all: they came in
/// between, or have the removed owner lent. Needs no memory.
#[unsafe(no_mangle)]
pub extern "C" fn congee_c_live_owners_drain(handle: &mut Handle, back: &mut Lent) -> i32
    ensures code { (result ≡ pos 0) ⊎ (result ≡ pos 1) ⊎ (result ≡ busy) }
    ensures map { KnowsMore handle.old.held handle.new.held }
    ensures back { result ≡ pos 1 → ComesBack handle.old.held.owners handle.new.held.owners
        back.new.ticket back.new.owner }
    ensures removed { result ≡ pos 1
        → (handle.new.held.tickets ≡ handle.old.held.tickets) ⊎ ((p : ℕ × ℕ)
        × HasPopped true 0 (2 ^ 64) handle.old.held.tickets (Some p) handle.new.held.tickets) }
    ensures empty { result ≡ pos 0
        → HasPopped true 0 (2 ^ 64) handle.old.held.tickets None handle.new.held.tickets }
    ensures none { result ≡ pos 0
        → NoneComesBack handle.old.held.owners handle.new.held.owners }
    ensures missed { result ≡ busy
        → NoneComesBack handle.old.held.owners handle.new.held.owners }
    ensures kept { result ≢ pos 1 → back.new ≡ back.old }
    ensures place { handle.new.ptr ≡ handle.old.ptr }
{
    let held = handle.as_mut();
    match held.map.drain(&mut held.handle) {
        Ok(Some((ticket, owner))) => {
            *back = Lent { ticket, owner };
            1
        }
        Ok(None) => 0,
        Err(Busy) => BUSY,
    }
}
