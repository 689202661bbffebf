//! A hold of the lock that sleeps.
//!
//! Tested in `test_share_ends`.

ghost use Rattle.std.specs.Prelude.{◌≡◌};
ghost use Rattle.share_rule.specs.inner.Hold.{HeldBy};
ghost use Rattle.share_rule.specs.inner.Steps.{IsIdle};

use share_rule::lock::{Lock, LockSeat};
use share_rule::rule::Protected;
use share_rule::work::Work;
use std::marker::Brand;
use std::sync::Wait;

/// Does this work in one hold of the lock, where the value is stored under it. Clauses see the value that was found.
pub fn hold<T, N, S: Protected<T, N> + Drop, R: Wait, E, W: Work<T, N, S, E>>(
    lock: &Lock<T, N, S>,
    rt: &R,
    seat: &mut LockSeat<T, N, S>,
    work: &mut W,
    buffer: &mut [E],
)
    requires table { seat.old.table_id ≡ lock.now }
    requires idle { IsIdle seat.old.me }
    ensures table { seat.new.table_id ≡ seat.old.table_id }
    ensures held { (found : S) × HeldBy S.same (W.made work.new found) seat.old.me seat.new.me
        × W.does work.old buffer.old found work.new buffer.new }
{
    lock.take(rt, seat);
    let Some(value) = seat.slot_mut(lock.table(), 0) else {
        unreachable!()
    };
    work.work(value, buffer);
    lock.release::<Brand, _, _>(seat, work, &());
}
