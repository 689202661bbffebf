//! A map from `u64` to owners that the threads of a C or Rust program share, each by a handle of its own. Look-ups take no lock.
//!
//! An owner is a number, such as the address of a counted object. The map reads no memory through it. `live_owners` describes
//! tickets and loans.
//!
//! A call that knows more afterwards is of the same map (`KnowsMore`). A call doesn't move what a handle holds (`place`), so C may
//! keep its address alone.
//!
//! An answer is an `i32`: 0, 1, 2 or 3 with the meaning that each call documents, or
//!
//! - `OOM` or `BUSY`: the owner that was handed in is the caller's again;
//! - `OOM_KEPT` or `BUSY_KEPT`: it isn't stored, and comes back by a later `congee_c_live_owners_reclaim`, of this handle or another;
//! - `FULL`: 64 handles are in use.
//!
//! Here are the calls that make a map and its handles. `loans`, `readers`, `updates`, `exchanges` and `returns` have the others.
//!
//! Tested in `tools/c-library`.

ghost use Rattle.std.specs.Prelude.{◌≡◌, ◌≢◌, ◌⊎◌, ◌≤◌, ℕ, [], None, IfSome, IsSome, pos};
ghost use Rattle.word_hazards.specs.Views.{HasLent, HasIssued, HasReclaimed};
ghost use Rattle.live_reads.specs.Meetings.{SeenMore};
ghost use Rattle.live_owners.specs.Owners.{IsNewHandle};
ghost use Rattle.congee_live_c.specs.Answer.{oom, full};

mod exchanges;
pub mod handle;
mod held;
mod loans;
mod readers;
mod returns;
pub mod room;
mod updates;

use crate::{FULL, OOM};
use handle::Handle;
use held::Held;
use room::Room;
use std::alloc::Global;

/// A ticket and its owner: 16 bytes.
#[repr(C)]
#[derive(Clone, Copy, Drop)]
pub struct Lent {
    pub ticket: u64,
    pub owner: u64,
}

/// Writes the first handle of a new, empty map to `out` and answers 0, or answers `OOM` and writes nothing. The segments of the
/// map's nodes may take so many bytes together; `u64::MAX` is no limit. The slots of the owners are beside these.
#[unsafe(no_mangle)]
pub extern "C" fn congee_c_live_owners_new(alloc: Global, limit: u64, out: &mut Room) -> i32
    requires { out.old.held ≡ None }
    ensures code { (result ≡ pos 0) ⊎ (result ≡ oom) }
    ensures made { result ≡ pos 0 → IsSome out.new.held }
    ensures new { result ≡ pos 0 → IfSome out.new.held (λ held. IsNewHandle held) }
    ensures limit { result ≡ pos 0 → IfSome out.new.held (λ held. held.tickets.book.limit ≡ limit) }
    ensures refused { result ≡ oom → out.new ≡ out.old }
{
    let Ok(held) = Held::first(alloc, limit) else {
        return OOM;
    };
    let Ok(held) = Box::new(alloc, held) else {
        return OOM;
    };
    *out = Room::of(held);
    0
}

/// Writes one more handle of the map to `out` and answers 0. It has no owner lent and knows none. Both handles have then seen one
/// history, which begins with what this one had seen. Or answers `OOM`, or `FULL` where 64 handles are in use: then nothing is
/// written, and nothing has changed.
#[unsafe(no_mangle)]
pub extern "C" fn congee_c_live_owners_another(
    alloc: Global,
    handle: &mut Handle,
    out: &mut Room,
) -> i32
    requires { out.old.held ≡ None }
    ensures code { (result ≡ pos 0) ⊎ (result ≡ oom) ⊎ (result ≡ full) }
    ensures made { result ≡ pos 0 → IsSome out.new.held }
    ensures map { result ≡ pos 0 → IfSome out.new.held (λ held.
        (held.tickets.book ≡ handle.old.held.tickets.book) × (held.table ≡ handle.old.held.table)) }
    ensures one { result ≡ pos 0 → IfSome out.new.held (λ held.
        (held.tickets.caller ≢ handle.old.held.tickets.caller)
        × (held.tickets.seen ≡ handle.new.held.tickets.seen)) }
    ensures new { result ≡ pos 0 → IfSome out.new.held (λ held.
        (held.owners.issued ≡ []) × (held.owners.reclaimed ≡ [])) }
    ensures seen { result ≡ pos 0 → SeenMore handle.old.held.tickets handle.new.held.tickets }
    ensures same { (handle.new.held.table ≡ handle.old.held.table)
        × (handle.new.held.owners ≡ handle.old.held.owners) }
    ensures refused { result ≢ pos 0 → (out.new ≡ out.old) × (handle.new.held ≡ handle.old.held) }
    ensures place { handle.new.ptr ≡ handle.old.ptr }
{
    let held = match handle.as_mut().beside(alloc) {
        Ok(Some(held)) => held,
        Ok(None) => return FULL,
        Err(_) => return OOM,
    };
    let Ok(mut other) = Box::new(alloc, held) else {
        return OOM;
    };
    handle.as_mut().handle.meet(&mut other.handle);
    *out = Room::of(other);
    0
}

/// The limit in bytes that the map was made with, or `u64::MAX`. Takes constant time.
#[unsafe(no_mangle)]
pub extern "C" fn congee_c_live_owners_limit(handle: &mut Handle) -> u64
    ensures limit { result ≡ handle.old.held.tickets.book.limit }
    ensures same { handle.new.held ≡ handle.old.held }
    ensures place { handle.new.ptr ≡ handle.old.ptr }
{
    handle.as_mut().map.usage().1
}

/// Writes the bytes of the segments that the map has so far to `charged`, and its limit, which they are within, to `limit`.
/// Takes constant time.
#[unsafe(no_mangle)]
pub extern "C" fn congee_c_live_owners_usage(
    handle: &mut Handle,
    charged: &mut u64,
    limit: &mut u64,
)
    ensures within { charged.new ≤ limit.new }
    ensures limit { limit.new ≡ handle.old.held.tickets.book.limit }
    ensures same { handle.new.held ≡ handle.old.held }
    ensures place { handle.new.ptr ≡ handle.old.ptr }
{
    let (bytes, most) = handle.as_mut().map.usage();
    *charged = bytes;
    *limit = most;
}

/// Both handles, of one map, have then seen one history, which begins with what each had seen. An owner that came back to one is
/// lent to neither, a ticket has one owner, whichever of them knows it, and an owner came back to one of them at most.
#[unsafe(no_mangle)]
pub extern "C" fn congee_c_live_owners_meet(handle: &mut Handle, other: &mut Handle)
    requires map { handle.old.held.tickets.book ≡ other.old.held.tickets.book }
    requires table { handle.old.held.table ≡ other.old.held.table }
    ensures first { SeenMore handle.old.held.tickets handle.new.held.tickets }
    ensures second { SeenMore other.old.held.tickets other.new.held.tickets }
    ensures one { handle.new.held.tickets.seen ≡ other.new.held.tickets.seen }
    ensures differ { handle.old.held.tickets.caller ≢ other.old.held.tickets.caller }
    ensures kept { (t : ℕ)
        → HasLent handle.old.held.owners t → HasReclaimed other.old.held.owners t → ⊥ }
    ensures own { (t : ℕ)
        → HasLent handle.old.held.owners t → HasReclaimed handle.old.held.owners t → ⊥ }
    ensures owner { (t o p : ℕ)
        → HasIssued handle.old.held.owners t o → HasIssued other.old.held.owners t p → o ≡ p }
    ensures own_owner { (t o p : ℕ)
        → HasIssued handle.old.held.owners t o → HasIssued handle.old.held.owners t p → o ≡ p }
    ensures once { (t : ℕ)
        → HasReclaimed handle.old.held.owners t → HasReclaimed other.old.held.owners t → ⊥ }
    ensures same { (handle.new.held.owners ≡ handle.old.held.owners)
        × (other.new.held.owners ≡ other.old.held.owners) }
    ensures tables { (handle.new.held.table ≡ handle.old.held.table)
        × (other.new.held.table ≡ other.old.held.table) }
    ensures place { handle.new.ptr ≡ handle.old.ptr }
    ensures second_place { other.new.ptr ≡ other.old.ptr }
{
    handle.as_mut().handle.meet(&mut other.as_mut().handle);
}

/// Ends the handle, with its loan, and frees the map with its last one. The tickets that it has retired go to other handles.
#[unsafe(no_mangle)]
pub extern "C" fn congee_c_live_owners_free(handle: Handle) {
    handle.free();
}
