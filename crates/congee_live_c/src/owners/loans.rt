//! An owner is lent to a handle, until the handle's next call that finds one, or until `congee_c_live_owners_end`.
//!
//! Tested in `tools/c-library`.

ghost use Rattle.std.specs.Prelude.{◌≡◌, ◌≢◌, ◌⊎◌, false, None, Some, pos};
ghost use Rattle.live_owners.specs.Owners.{KnowsMore, GetsOwner, LookedInVain, RetiresNone};
ghost use Rattle.congee_live_c.specs.Answer.{busy};
ghost use Rattle.congee_live_c.specs.Owners.{lent_of};

use super::Lent;
use super::handle::Handle;
use crate::BUSY;
use live_growth::map::Busy;

/// Writes the key's current owner, which is lent to the handle then, and its ticket to `lent` and answers 1, or answers 0 where the
/// key is absent, or `BUSY`. Takes no memory and no lock.
#[unsafe(no_mangle)]
pub extern "C" fn congee_c_live_owners_get(handle: &mut Handle, key: u64, lent: &mut Lent) -> i32
    ensures code { (result ≡ pos 0) ⊎ (result ≡ pos 1) ⊎ (result ≡ busy) }
    ensures map { KnowsMore handle.old.held handle.new.held }
    ensures retired { RetiresNone handle.old.held.owners handle.new.held.owners }
    ensures present { result ≡ pos 1
        → GetsOwner key handle.old.held (Some (lent_of lent.new)) handle.new.held }
    ensures absent { result ≡ pos 0 → GetsOwner key handle.old.held None handle.new.held }
    ensures missed { result ≡ busy
        → LookedInVain key handle.old.held.tickets handle.new.held.tickets }
    ensures kept { result ≢ pos 1 → lent.new ≡ lent.old }
    ensures place { handle.new.ptr ≡ handle.old.ptr }
{
    let held = handle.as_mut();
    match held.map.get(&mut held.handle, key) {
        Ok(Some(found)) => {
            *lent = Lent {
                ticket: found.ticket,
                owner: found.owner,
            };
            1
        }
        Ok(None) => 0,
        Err(Busy) => BUSY,
    }
}

/// Ends the handle's loan. Takes constant time.
#[unsafe(no_mangle)]
pub extern "C" fn congee_c_live_owners_end(handle: &mut Handle)
    ensures map { KnowsMore handle.old.held handle.new.held }
    ensures tickets { handle.new.held.tickets ≡ handle.old.held.tickets }
    ensures retired { RetiresNone handle.old.held.owners handle.new.held.owners }
    ensures ended { handle.new.held.owners.lent ≡ false }
    ensures place { handle.new.ptr ≡ handle.old.ptr }
{
    let held = handle.as_mut();
    held.map.end(&mut held.handle);
}
