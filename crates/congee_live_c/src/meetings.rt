//! Meetings and notes, which give the calls of several handles an order in time.
//!
//! Tested in `tools/c-library`.

ghost use Rattle.std.specs.Prelude.{◌≡◌, ◌≢◌, ◌⊎◌, None, IfSome, IsSome, pos};
ghost use Rattle.live_reads.specs.Meetings.{SeenMore};
ghost use Rattle.congee_live_c.specs.Answer.{oom};

use crate::OOM;
use crate::handle::Handle;
use crate::room::Room;
use std::alloc::Global;

/// Both handles, of one map, have then seen one history, which begins with what each had seen. Touches no memory that
/// other handles use.
#[unsafe(no_mangle)]
pub extern "C" fn congee_c_live_meet(handle: &mut Handle, other: &mut Handle)
    requires map { handle.old.held.guard.book ≡ other.old.held.guard.book }
    ensures first { SeenMore handle.old.held.guard handle.new.held.guard }
    ensures second { SeenMore other.old.held.guard other.new.held.guard }
    ensures one { handle.new.held.guard.seen ≡ other.new.held.guard.seen }
    ensures differ { handle.old.held.guard.caller ≢ other.old.held.guard.caller }
    ensures place { handle.new.ptr ≡ handle.old.ptr }
    ensures second_place { other.new.ptr ≡ other.old.ptr }
{
    handle.as_mut().guard.meet(&mut other.as_mut().guard);
}

/// Writes a note of what the handle has seen then to `out` and answers 0, or answers `OOM`, writes nothing and changes
/// nothing. A note is a handle of the map that takes no room for nodes. One that meets it learns what was noted.
#[unsafe(no_mangle)]
pub extern "C" fn congee_c_live_note(alloc: Global, handle: &mut Handle, out: &mut Room) -> i32
    requires { out.old.held ≡ None }
    ensures code { (result ≡ pos 0) ⊎ (result ≡ oom) }
    ensures made { result ≡ pos 0 → IsSome out.new.held }
    ensures noted { result ≡ pos 0 → IfSome out.new.held (λ held.
        (held.guard.book ≡ handle.old.held.guard.book)
        × (held.guard.caller ≢ handle.old.held.guard.caller)
        × (held.guard.seen ≡ handle.new.held.guard.seen)) }
    ensures seen { result ≡ pos 0 → SeenMore handle.old.held.guard handle.new.held.guard }
    ensures refused { result ≡ oom → (out.new ≡ out.old) × (handle.new.held ≡ handle.old.held) }
    ensures place { handle.new.ptr ≡ handle.old.ptr }
{
    let Ok(held) = handle.as_mut().beside(true) else {
        return OOM;
    };
    let Ok(mut note) = Box::new(alloc, held) else {
        return OOM;
    };
    handle.as_mut().guard.meet(&mut note.guard);
    *out = Room::of(note);
    0
}
